//! The calls of a number.

ghost use Rattle.std.specs.Prelude.{◌≡◌, ◌∷◌, [], true, Some};
ghost use Rattle.sval_label.specs.Calls.{Int, I64, TaggedBegin, TextBegin, TextFragment, TextEnd, TaggedEnd};
ghost use Rattle.sval_label.specs.SeenTags.{seen_tag};
ghost use Rattle.sval_core.specs.Names.{tag_alone};
ghost use Rattle.sval_core.specs.Law.{Answers, Emits};
ghost use Rattle.sval_core.specs.Values.{makes};
ghost use Rattle.sval_json.specs.Digits.{is_json_number};
ghost use Rattle.sval_json_read.specs.Calls.{number_calls};
ghost use Rattle.sval_json_read.specs.TokenMarks.{IsI64In};

use sval_core::{Lending, Lent, Result, Stream, Tag, tags};

/// Makes the call of a whole number.
fn stream_whole<L: Lending, S: Stream<L>>(number: i64, stream: &mut S) -> Result
    ensures { Answers S.law result (S.standing stream.old) (Int I64 number) (S.standing stream.new) }
{
    stream.i64(number)
}

/// Makes the calls of a text of this length, under a tag.
fn stream_text_under<L: Lending, S: Stream<L>>(
    tag: &Tag,
    text: L::Text,
    len: usize,
    stream: &mut S,
) -> Result
    ensures { Emits S.law result (S.standing stream.old) (makes (TaggedBegin (tag_alone (seen_tag tag.now))
        ∷ TextBegin (Some len) ∷ TextFragment true (L.text text) ∷ TextEnd
        ∷ TaggedEnd (tag_alone (seen_tag tag.now)) ∷ [])) (S.standing stream.new) }
{
    stream.tagged_begin(Some(tag), None, None)?;
    stream.text_begin(Some(len))?;
    stream.text_fragment(text)?;
    stream.text_end()?;
    stream.tagged_end(Some(tag), None, None)
}

/// The `i64` of a number without a fraction and without an exponent, if it fits.
pub(crate) fn i64_in(text: &str) -> Option<i64>
    requires { is_json_number text.now ≡ true }
    ensures { IsI64In text.now result }
{
    match text.parse::<i64>() {
        Ok(number) => Some(number),
        Err(_) => None,
    }
}

/// Makes the calls of a number: an `i64` where it has no fraction and no exponent and fits, and else its text.
pub(crate) fn stream_number<'v, S: Stream<Lent<'v>>>(text: &'v str, stream: &mut S) -> Result
    requires { is_json_number text.now ≡ true }
    ensures { Emits S.law result
        (S.standing stream.old) (makes (number_calls text.now)) (S.standing stream.new) }
{
    match text.parse::<i64>() {
        Ok(number) => stream_whole(number, stream),
        Err(_) => stream_text_under::<Lent<'v>, S>(&tags::NUMBER, text, text.len(), stream),
    }
}
