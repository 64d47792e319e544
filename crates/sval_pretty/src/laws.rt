//! The laws of pretty text, each as a clause that is proved.

ghost use Rattle.sval_pretty.specs.PrettyLaws.{CompactIsLaidOut, KeepsAllButSpace, PrettyIsCompact};
ghost use Rattle.sval_pretty.specs.PrettyLaws.{StaysUtf8, DenotesTheSame, PrettyDenotesTheSame};

/// What holds of all texts, and of all shapes of JSON.
pub fn pretty_laws()
    ensures compact_is_laid_out { CompactIsLaidOut }
    ensures keeps_all_but_space { KeepsAllButSpace }
    ensures pretty_is_compact { PrettyIsCompact }
    ensures stays_utf8 { StaysUtf8 }
    ensures denotes_the_same { DenotesTheSame }
    ensures pretty_denotes_the_same { PrettyDenotesTheSame }
{}
