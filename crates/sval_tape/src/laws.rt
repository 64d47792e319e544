//! The laws of tapes, each as a clause that is proved.

ghost use Rattle.sval_tape.specs.Laws.{WritersWrite, TapesReadBack, OneListOfCalls, BadBytesAreNoTape, OneBadPlace};

/// What holds of writing.
pub fn writing_laws()
    ensures { WritersWrite }
{}

/// What holds of reading.
pub fn reading_laws()
    ensures tapes_read_back { TapesReadBack }
    ensures one_list_of_calls { OneListOfCalls }
    ensures bad_bytes_are_no_tape { BadBytesAreNoTape }
    ensures one_bad_place { OneBadPlace }
{}
