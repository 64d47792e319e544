//! The numbers of the statuses, and a law of captured values, each as a clause that is proved.

ghost use Rattle.std.specs.Prelude.{◌≡◌};
ghost use Rattle.sval_program.specs.Laws.{CapturingTakesMemory};

use crate::status::{
    BAD_CALL, BAD_CBOR, BAD_JSON, BAD_LINE, DONE, INVALID_KEY, INVALID_NUMBER, NO_MEMORY, NO_WORDS,
    NOT_INTEGER, NOT_UTF8, RAW, READ, TOO_LONG, UNFINISHED, USAGE, WRITE,
};

/// The number of each status.
pub fn status_laws()
    ensures done { DONE ≡ 0 }
    ensures usage { USAGE ≡ 2 }
    ensures bad_line { BAD_LINE ≡ 3 }
    ensures bad_call { BAD_CALL ≡ 4 }
    ensures unfinished { UNFINISHED ≡ 5 }
    ensures invalid_key { INVALID_KEY ≡ 6 }
    ensures invalid_number { INVALID_NUMBER ≡ 7 }
    ensures write { WRITE ≡ 8 }
    ensures read { READ ≡ 9 }
    ensures no_memory { NO_MEMORY ≡ 10 }
    ensures too_long { TOO_LONG ≡ 11 }
    ensures not_utf8 { NOT_UTF8 ≡ 12 }
    ensures bad_json { BAD_JSON ≡ 13 }
    ensures raw { RAW ≡ 14 }
    ensures not_integer { NOT_INTEGER ≡ 15 }
    ensures bad_cbor { BAD_CBOR ≡ 16 }
    ensures no_words { NO_WORDS ≡ 17 }
{}

/// What holds of capturing all calls that spell a tree.
pub fn capture_laws()
    ensures { CapturingTakesMemory }
{}
