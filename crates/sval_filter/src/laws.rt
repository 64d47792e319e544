//! The laws of pruning, of the filter and of verdicts, each as a clause that is proved.

ghost use Rattle.sval_program.specs.Jobs.{OneDue};
ghost use Rattle.sval_program.specs.Laws.{OneVerdict};
ghost use Rattle.sval_filter.specs.Forms.{FilterForm};
ghost use Rattle.sval_filter.specs.Laws.{PrunedIsGood, PrunedIsReal, DueCallsSpellPruned, NothingDropped};
ghost use Rattle.sval_filter.specs.Laws.{InnerTakesPruned, TakesTrees, RefusesWithCause, StandsForTaken};
ghost use Rattle.sval_filter.specs.Serves.{filter_terms};
ghost use Rattle.sval_filter.specs.Verdict.{GivesLeft};

use sval_core::Stream;
use sval_label::Lending;

/// What holds of all rules, paths, trees and lists of calls.
pub fn filter_laws()
    ensures pruned_is_good { PrunedIsGood }
    ensures pruned_is_real { PrunedIsReal }
    ensures nothing_dropped { NothingDropped }
    ensures due_calls_spell_pruned { DueCallsSpellPruned }
{}

/// What holds of a filter over every stream.
pub fn stream_laws<L: Lending, S: Stream<L>>()
    ensures inner_takes_pruned { InnerTakesPruned S.law }
    ensures takes_trees { TakesTrees S.law }
    ensures refuses_with_cause { RefusesWithCause S.law }
    ensures stands_for_taken { StandsForTaken S.law }
{}

/// What holds of the verdict on every script, whatever is asked for, and of what is due of it.
pub fn verdict_laws()
    ensures one_verdict { (asked : FilterForm) → OneVerdict (GivesLeft asked) }
    ensures one_due { OneDue filter_terms }
{}
