//! Replay of a flat list of parts, in one pass without memory.

ghost use Rattle.std.specs.Prelude.{◌≡◌, List, [], map};
ghost use Rattle.sval_core.specs.Law.{Emits};
ghost use Rattle.sval_buffer.specs.Replay.{pass};
ghost use Rattle.sval_core.specs.Values.{makes};
ghost use Rattle.sval_buffer.specs.SeenStores.{SeenStores};
ghost use Rattle.sval_buffer.specs.SeenParts.{flat_part_of, stored_part, seen_parts, AllKept};
ghost use Rattle.sval_buffer.specs.Nested.{Going, outer_of, Linked, IsLinked, IsNested, EndsAreMade};

use crate::named::CallStore;
use crate::part::Part;
use crate::stores::Stores;
use sval_core::{Lent, Result, Stream};

/// Makes the calls of all parts.
///
/// It keeps the place of the newest container that goes on. Those around it follow from the holders of the parts.
pub(crate) fn replay_parts<'sval, N: CallStore, S: Stream<Lent<'sval>>>(
    parts: &[Part<'sval>],
    stores: &Stores<N>,
    stream: &mut S,
) -> Result
    requires nested { IsNested (seen_parts stores.now parts.now) }
    requires kept { AllKept stores.now parts.now }
    ensures { let calls = pass 0 [] (map flat_part_of (seen_parts stores.now parts.now)) in
        Emits S.law result (S.standing stream.old) (makes calls) (S.standing stream.new) }
{
    let mut going = None;
    for (place, part) in parts.iter().enumerate() {
        going = end_before(parts, stores, going, place, stream)?;
        part.stream_head(stores, stream)?;
        if part.is_container() {
            going = Some(place);
        }
    }
    end_before(parts, stores, going, parts.len(), stream)?;
    Ok(())
}

/// Makes the ends of the containers that don't go on at a place, from the newest outwards. Gives the newest of the
/// others.
#[inline(always)]
fn end_before<'sval, N: CallStore, S: Stream<Lent<'sval>>>(
    parts: &[Part<'sval>],
    stores: &Stores<N>,
    going: Option<usize>,
    place: usize,
    stream: &mut S,
) -> Result<Option<usize>>
    requires linked { IsLinked (seen_parts stores.now parts.now) going }
    requires kept { AllKept stores.now parts.now }
    ensures { let seen = seen_parts stores.now parts.now in (gs : List Going) → Linked seen going gs
        → EndsAreMade S.law seen place gs (S.standing stream.old) result (S.standing stream.new) }
{
    let mut newest = going;
    while let Some(at) = newest {
        let part = &parts[at];
        if part.holds() >= place.saturating_sub(at) {
            return Ok(newest);
        }
        part.stream_end(stores, stream)?;
        newest = outer(parts, part.holder());
    }
    Ok(newest)
}

/// The place of the container that holds a part in replay: none where that one has no end, since then it holds no part.
fn outer(parts: &[Part<'_>], holder: Option<usize>) -> Option<usize>
    ensures { (s : SeenStores) → result ≡ outer_of (map (stored_part s) parts.now) holder }
{
    match parts.get(holder?) {
        Some(part) if part.holds() != 0 => holder,
        _ => None,
    }
}
