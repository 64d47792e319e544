//! The laws of scripts, each as a clause that is proved.

ghost use Rattle.sval_script.specs.Laws.{PrintedLinesReadBack, PrintersPrint, ScriptsAreReal};
ghost use Rattle.sval_script.specs.Laws.{CanonReadsBack, CanonIsOfOneTree, CanonsReadBack, CanonsAreOfOneList};
ghost use Rattle.sval_script.specs.Laws.{ExactCallsPrintCanon, ExactCallsHaveKnownTags, ScriptsSpellPrintableTrees, OneCanonIfOneTree, OneCanonIfOneList};

/// What holds of all scripts.
pub fn script_laws()
    ensures printed_lines_read_back { PrintedLinesReadBack }
    ensures printers_print { PrintersPrint }
    ensures canonical_script_reads_back { CanonReadsBack }
    ensures canonical_script_is_of_one_tree { CanonIsOfOneTree }
    ensures canonical_scripts_read_back { CanonsReadBack }
    ensures canonical_scripts_are_of_one_list { CanonsAreOfOneList }
    ensures exact_calls_print_canon { ExactCallsPrintCanon }
    ensures exact_calls_have_known_tags { ExactCallsHaveKnownTags }
    ensures scripts_are_real { ScriptsAreReal }
    ensures scripts_spell_printable_trees { ScriptsSpellPrintableTrees }
    ensures one_canonical_script_if_one_tree { OneCanonIfOneTree }
    ensures one_canonical_script_if_one_list { OneCanonIfOneList }
{}
