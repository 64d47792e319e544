//! The laws of reading JSON, each as a clause that is proved.

ghost use Rattle.sval_program.specs.Jobs.{OneDue};
ghost use Rattle.sval_json_read.specs.Laws.{TreesAreReal, TreesArePrintable, WrittenAgainSettles, WrittenAgainIsNoLonger, ReferencedAreReal, ReferencedSettles, PiecesAreTheText, RunsAreLongest, JsonDocumentsSpell, NodesMakeTheCalls, NodesSpell, TokensAreProper, OneDocument, ReadsTheDocuments, RefusesTheOthers, IsReadOrBad, NotBoth, StopsWhereTheyFail, FailsAtOnePlace};
ghost use Rattle.sval_json_read.specs.Serves.{json_read_terms};

/// What holds of all texts that denote a value.
pub fn document_laws()
    ensures trees_are_real { TreesAreReal }
    ensures trees_are_printable { TreesArePrintable }
    ensures written_again_settles { WrittenAgainSettles }
    ensures written_again_is_no_longer { WrittenAgainIsNoLonger }
    ensures referenced_are_real { ReferencedAreReal }
    ensures referenced_settles { ReferencedSettles }
    ensures pieces_are_the_text { PiecesAreTheText }
    ensures runs_are_longest { RunsAreLongest }
    ensures documents_spell { JsonDocumentsSpell }
    ensures nodes_make_the_calls { NodesMakeTheCalls }
    ensures nodes_spell { NodesSpell }
    ensures tokens_are_proper { TokensAreProper }
    ensures one_document { OneDocument }
{}

/// What holds of the machine at all bytes. Whatever the words ask for, at most one thing is due of an input
/// (`one_due`).
pub fn reading_laws()
    ensures one_due { OneDue json_read_terms }
    ensures reads_the_documents { ReadsTheDocuments }
    ensures refuses_the_others { RefusesTheOthers }
    ensures is_read_or_bad { IsReadOrBad }
    ensures not_both { NotBoth }
    ensures stops_where_they_fail { StopsWhereTheyFail }
    ensures fails_at_one_place { FailsAtOnePlace }
{}
