//! Maps as sequences of pairs, and sequences.

ghost use Rattle.sval_label.specs.Calls as call;
ghost use Rattle.sval_core.specs.Law.{Emits};
ghost use Rattle.sval_core.specs.Values.{makes};
ghost use Rattle.sval_lower.specs.Lower.{lower};

use sval_core::{Index, Lending, Result, Stream};

/// A map as a sequence of pairs: `seq_begin` with its size.
pub fn map_begin<L: Lending, S: Stream<L>>(stream: &mut S, size: Option<usize>) -> Result
    ensures { Emits S.law result (S.standing stream.old)
        (makes (lower (call.Begin call.Map size))) (S.standing stream.new) }
{
    stream.seq_begin(size)
}

/// A pair begins, and its first part: `seq_value_begin`, `tuple_begin` of two without a name, `tuple_value_begin` at 0.
pub fn map_key_begin<L: Lending, S: Stream<L>>(stream: &mut S) -> Result
    ensures { Emits S.law result (S.standing stream.old)
        (makes (lower (call.PartBegin call.Key))) (S.standing stream.new) }
{
    stream.seq_value_begin()?;
    stream.tuple_begin(None, None, None, Some(2))?;
    stream.tuple_value_begin(None, &Index::new(0))
}

/// A pair's first part ends: `tuple_value_end` at 0.
pub fn map_key_end<L: Lending, S: Stream<L>>(stream: &mut S) -> Result
    ensures { Emits S.law result (S.standing stream.old)
        (makes (lower (call.PartEnd call.Key))) (S.standing stream.new) }
{
    stream.tuple_value_end(None, &Index::new(0))
}

/// A pair's second part begins: `tuple_value_begin` at 1.
pub fn map_value_begin<L: Lending, S: Stream<L>>(stream: &mut S) -> Result
    ensures { Emits S.law result (S.standing stream.old)
        (makes (lower (call.PartBegin call.Value))) (S.standing stream.new) }
{
    stream.tuple_value_begin(None, &Index::new(1))
}

/// A pair's second part ends, and the pair: `tuple_value_end` at 1, `tuple_end` without a name, `seq_value_end`.
pub fn map_value_end<L: Lending, S: Stream<L>>(stream: &mut S) -> Result
    ensures { Emits S.law result (S.standing stream.old)
        (makes (lower (call.PartEnd call.Value))) (S.standing stream.new) }
{
    stream.tuple_value_end(None, &Index::new(1))?;
    stream.tuple_end(None, None, None)?;
    stream.seq_value_end()
}

/// A map's sequence ends: `seq_end`.
pub fn map_end<L: Lending, S: Stream<L>>(stream: &mut S) -> Result
    ensures { Emits S.law result (S.standing stream.old) (makes (lower (call.End call.Map))) (S.standing stream.new) }
{
    stream.seq_end()
}

/// A base call, which stands for itself.
pub fn seq_begin<L: Lending, S: Stream<L>>(stream: &mut S, size: Option<usize>) -> Result
    ensures { Emits S.law result (S.standing stream.old)
        (makes (lower (call.Begin call.Seq size))) (S.standing stream.new) }
{
    stream.seq_begin(size)
}

/// A base call, which stands for itself.
pub fn seq_value_begin<L: Lending, S: Stream<L>>(stream: &mut S) -> Result
    ensures { Emits S.law result (S.standing stream.old)
        (makes (lower (call.PartBegin call.Item))) (S.standing stream.new) }
{
    stream.seq_value_begin()
}

/// A base call, which stands for itself.
pub fn seq_value_end<L: Lending, S: Stream<L>>(stream: &mut S) -> Result
    ensures { Emits S.law result (S.standing stream.old)
        (makes (lower (call.PartEnd call.Item))) (S.standing stream.new) }
{
    stream.seq_value_end()
}

/// A base call, which stands for itself.
pub fn seq_end<L: Lending, S: Stream<L>>(stream: &mut S) -> Result
    ensures { Emits S.law result (S.standing stream.old) (makes (lower (call.End call.Seq))) (S.standing stream.new) }
{
    stream.seq_end()
}
