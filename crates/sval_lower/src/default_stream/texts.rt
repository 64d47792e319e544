//! Texts, and labels as texts.

ghost use Rattle.std.specs.Prelude.{◌≡◌, true, false};
ghost use Rattle.sval_label.specs.Calls as call;
ghost use Rattle.sval_core.specs.Law.{Emits, Answers};
ghost use Rattle.sval_core.specs.Values.{makes};
ghost use Rattle.sval_lower.specs.Lower.{lower, label_calls};

use sval_core::{Label, Lending, Lent, Result, Stream};

/// A base call, which stands for itself.
pub fn text_begin<L: Lending, S: Stream<L>>(stream: &mut S, size: Option<usize>) -> Result
    ensures { Emits S.law result (S.standing stream.old) (makes (lower (call.TextBegin size))) (S.standing stream.new) }
{
    stream.text_begin(size)
}

/// The fragment as a computed one.
pub fn text_fragment<L: Lending, S: Stream<L>>(stream: &mut S, fragment: &str) -> Result
    ensures { Emits S.law result (S.standing stream.old)
        (makes (lower (call.TextFragment true fragment.now))) (S.standing stream.new) }
{
    stream.text_fragment_computed(fragment)
}

/// A base call, which stands for itself.
pub fn text_fragment_computed<L: Lending, S: Stream<L>>(stream: &mut S, fragment: &str) -> Result
    ensures { Emits S.law result (S.standing stream.old)
        (makes (lower (call.TextFragment false fragment.now))) (S.standing stream.new) }
{
    stream.text_fragment_computed(fragment)
}

/// A base call, which stands for itself.
pub fn text_end<L: Lending, S: Stream<L>>(stream: &mut S) -> Result
    ensures { Emits S.law result (S.standing stream.old) (makes (lower call.TextEnd)) (S.standing stream.new) }
{
    stream.text_end()
}

/// What may be lent of texts that live as long as the program: they are borrowed texts for any stream.
///
/// A static label is told as a borrowed text, and a stream that is generic in what is lent to it can't make one.
pub trait LendsStatic: Lending {
    /// The text as one that is lent.
    fn lend(text: &'static str) -> Self::Text
        ensures { Self.text result ≡ text.now };
}

impl<'sval> LendsStatic for Lent<'sval> {
    fn lend(text: &'static str) -> &'sval str {
        text
    }
}

/// A label as a text with its size: borrowed where it is static, and else computed.
pub(crate) fn label_text<L: LendsStatic, S: Stream<L>>(stream: &mut S, label: &Label) -> Result
    ensures { Emits S.law result (S.standing stream.old) (makes (label_calls label.now)) (S.standing stream.new) }
{
    stream.text_begin(Some(label.as_str().len()))?;
    label_fragment(stream, label)?;
    stream.text_end()
}

/// The text of a label, borrowed where it is static.
fn label_fragment<L: LendsStatic, S: Stream<L>>(stream: &mut S, label: &Label) -> Result
    ensures { Answers S.law result (S.standing stream.old)
        (call.TextFragment label.now.is_static label.now.text) (S.standing stream.new) }
{
    match label.as_static_str() {
        Some(text) => stream.text_fragment(L::lend(text)),
        None => stream.text_fragment_computed(label.as_str()),
    }
}
