//! The laws of packed shapes, of their bytes and of verdicts, each as a clause that is proved.

ghost use Rattle.sval_program.specs.Jobs.{OneDue};
ghost use Rattle.sval_program.specs.Laws.{OneVerdict};
ghost use Rattle.sval_cbor.specs.Laws.{CborIsBytes, PacksAsWritten, StylesRefuseAlike};
ghost use Rattle.sval_cbor.specs.Laws.{WholeSpellingsAreWritten, CanonicalCallsAreWhole};
ghost use Rattle.sval_cbor.specs.Laws.{CapturedIsWritten, TakenCallsAreWritten, RefusedCallRefuses};
ghost use Rattle.sval_cbor.specs.Serves.{cbor_terms};
ghost use Rattle.sval_cbor.specs.Verdict.{GivesCbor};

/// What holds of all trees that CBOR can hold.
pub fn packing_laws()
    ensures cbor_is_bytes { CborIsBytes }
    ensures packs_as_written { PacksAsWritten }
    ensures styles_refuse_alike { StylesRefuseAlike }
{}

/// What holds of all calls.
pub fn writing_laws()
    ensures whole_spellings_are_written { WholeSpellingsAreWritten }
    ensures canonical_calls_are_whole { CanonicalCallsAreWhole }
    ensures captured_is_written { CapturedIsWritten }
    ensures taken_calls_are_written { TakenCallsAreWritten }
    ensures refused_call_refuses { RefusedCallRefuses }
{}

/// What holds of the verdict on every script, and of what is due of it.
pub fn verdict_laws()
    ensures one_verdict { OneVerdict GivesCbor }
    ensures one_due { OneDue cbor_terms }
{}
