//! The laws of CBOR's items, each as a clause that is proved.

ghost use Rattle.sval_program.specs.Jobs.{OneDue};
ghost use Rattle.sval_cbor_read.specs.Laws.{ItemHasOneTree, ItemsAreWellFormed, WellFormedHasOneRest, ItemsAreReal, ItemsAreRefusedByKey, CborDocumentsSpell, ItemsAreRead, ReadIsItem, ReadInOneWay, ReadingEndsWell, ReadingStopsAtBadBytes, StepsStopAtOnePlace, LargeNumbersAreBadBytes, StepsComeNearer, HeadsAreRead, HeadsAreShortest, WrittenIsReadBack, StylesAreReadBack};
ghost use Rattle.sval_cbor_read.specs.CborValues.{CborDocumentsMean};
ghost use Rattle.sval_cbor_read.specs.Serves.{cbor_read_terms};

/// What holds of all bytes.
pub fn item_laws()
    ensures item_has_one_tree { ItemHasOneTree }
    ensures items_are_well_formed { ItemsAreWellFormed }
    ensures well_formed_has_one_rest { WellFormedHasOneRest }
    ensures items_are_real { ItemsAreReal }
    ensures items_are_refused_by_key { ItemsAreRefusedByKey }
    ensures heads_are_read { HeadsAreRead }
    ensures heads_are_shortest { HeadsAreShortest }
{}

/// What holds of the reader's steps. Whatever the words ask for, at most one thing is due of an input (`one_due`).
pub fn reading_laws()
    ensures one_due { OneDue cbor_read_terms }
    ensures documents_spell { CborDocumentsSpell }
    ensures items_are_read { ItemsAreRead }
    ensures read_is_item { ReadIsItem }
    ensures read_in_one_way { ReadInOneWay }
    ensures reading_ends_well { ReadingEndsWell }
    ensures reading_stops_at_bad_bytes { ReadingStopsAtBadBytes }
    ensures steps_stop_at_one_place { StepsStopAtOnePlace }
    ensures large_numbers_are_bad_bytes { LargeNumbersAreBadBytes }
    ensures steps_come_nearer { StepsComeNearer }
{}

/// What holds of the values that the calls of items are of.
pub fn value_laws()
    ensures documents_mean { CborDocumentsMean }
{}

/// What holds of all that is written.
pub fn round_trip_laws()
    ensures written_is_read_back { WrittenIsReadBack }
    ensures styles_are_read_back { StylesAreReadBack }
{}
