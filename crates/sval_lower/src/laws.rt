//! The laws of lowering and of readers, each as a clause that is proved.

ghost use Rattle.std.specs.Prelude.{Bool, ℤ, ℕ, List};
ghost use Rattle.sval_lower.specs.Laws.{LoweringEnds, LowersToOne, LeavesTaken, LeavesBase, LowersJoined, KeepsTaken, LowersByStep, LoweredTwice, BuffersTakeBase};
ghost use Rattle.sval_lower.specs.BaseTrees.{BaseTreeIsTold};
ghost use Rattle.sval_lower.specs.ReaderLaws.{LastIsFound, OnlyIsFound, TagIsHeld};

/// What holds of all calls, and of all sets of calls that a stream takes itself.
pub fn lowering_laws()
    ensures lowering_ends { LoweringEnds }
    ensures lowers_to_one { LowersToOne }
    ensures leaves_taken { LeavesTaken }
    ensures leaves_base { LeavesBase }
    ensures lowers_joined { LowersJoined }
    ensures keeps_taken { KeepsTaken }
    ensures lowers_by_step { LowersByStep }
    ensures lowered_twice { LoweredTwice }
    ensures buffers_take_base { BuffersTakeBase }
    ensures base_tree_is_told { BaseTreeIsTold }
{}

/// What the streams of readers hold in the end, for all values.
pub fn reading_laws()
    ensures last_truth_is_found { LastIsFound Bool }
    ensures last_number_is_found { LastIsFound ℤ }
    ensures only_bytes_are_found { OnlyIsFound (List ℕ) }
    ensures tag_is_held { TagIsHeld }
{}
