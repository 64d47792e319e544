//! An event of a log.

ghost use Rattle.std.specs.Prelude.{[], ◌∷◌};
ghost use Rattle.sval.specs.Fields.{a_struct, field, string_emission, option_emission, u16_emission, u64_emission, vec_emission};
ghost use Rattle.records.specs.Levels.{level_emission};
ghost use Rattle.records.specs.Records.{site_emission};

use crate::{Level, Site};
use sval::{Lent, Result, Stream, Value, fields, stream_struct};

/// An event.
#[derive(Drop, Debug)]
pub struct Event {
    /// When it was.
    pub ts: String,
    /// How much it matters.
    pub level: Level,
    /// What it is.
    pub msg: String,
    /// The status that a client was given.
    pub status: u16,
    /// The number of who did it, if that is known.
    pub user: Option<u64>,
    /// Words to find it by.
    pub tags: Vec<String>,
    /// Where the program recorded it.
    pub site: Site,
}

impl<'v> Value<'v, Lent<'v>> for Event {
    ghost emission = { λ event. a_struct "Event" (
        field "ts" (string_emission event.ts) ∷
        field "level" (level_emission event.level) ∷
        field "msg" (string_emission event.msg) ∷
        field "status" (u16_emission event.status) ∷
        field "user" (option_emission u64_emission event.user) ∷
        field "tags" (vec_emission string_emission event.tags) ∷
        field "site" (site_emission event.site) ∷ []) };

    fn stream<S: Stream<Lent<'v>>>(&'v self, stream: &mut S) -> Result {
        stream_struct(
            stream,
            "Event",
            fields!(self, ts, level, msg, status, user, tags, site),
        )
    }
}
