//! The laws of the names of ends, each as a clause that is proved.

ghost use Rattle.sval_core.specs.SameNames.{NamesMeet, HeadsMeet, SlotsMeet};

/// How an end's name meets its begin's.
pub fn meeting_laws()
    ensures names_meet { NamesMeet }
    ensures heads_meet { HeadsMeet }
    ensures slots_meet { SlotsMeet }
{}
