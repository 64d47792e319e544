//! The lines of a script.

ghost use Rattle.std.specs.Prelude.{◌≡◌, None, Ok, IfOk, IfSome};
ghost use Rattle.sval_script.specs.NextFields.{first_call};
ghost use Rattle.sval_script.specs.LineCalls.{stored};
ghost use Rattle.sval_script.specs.MadeLines.{ReadsFieldsOf, TellsBad, IsMade};
ghost use Rattle.sval_script.specs.KnownLines.{ReadsLine};
ghost use Rattle.sval_script.specs.declared.word.Word.TheVariants as word;

use crate::field::{LineError, Sign};
use crate::fields::{Fields, NameFields};
use crate::known::KnownLines;
use crate::store::Store;
use crate::tag::TagField;
use crate::word::{Alone, Lifetime, Named, NamedOpening, NumberType, Opening, Side, Word};

/// A call in 8 bytes. Its texts and wider numbers are in a store beside it.
#[derive(Clone, Copy)]
pub(crate) enum Line {
    /// A word alone.
    Alone(Alone),
    /// A truth value.
    Bool(bool),
    /// A whole number of 8 bits.
    U8(u8),
    /// A whole number of 16 bits.
    U16(u16),
    /// A whole number of 32 bits.
    U32(u32),
    /// A whole number of 64 bits, which is a number of the store.
    U64,
    /// A whole number of 128 bits, which is two numbers of the store.
    U128,
    /// A whole number of 8 bits with its sign.
    I8(i8),
    /// A whole number of 16 bits with its sign.
    I16(i16),
    /// A whole number of 32 bits with its sign.
    I32(i32),
    /// A whole number of 64 bits with its sign, which is a number of the store.
    I64,
    /// A whole number of 128 bits with its sign, which is two numbers of the store.
    I128,
    /// A begin of no given size.
    Opening(Opening),
    /// A begin with a size, which is a number of the store.
    SizedOpening(Opening),
    /// A part of a text, which is these many bytes of the store.
    TextFragment(Lifetime, u32),
    /// A part of a binary, which is these many bytes of the store.
    BinaryFragment(Lifetime, u32),
    /// A tag alone.
    TagHint(TagField),
    /// A name, whose label's text is bytes of the store. Their number is a number of the store, and the index's number
    /// is the next one; what the name doesn't have takes none.
    Named(Named, NameFields),
    /// The begin of a container with a name and no given size.
    NamedOpening(NamedOpening, NameFields),
    /// The begin of a container with a name, and a size that is another number of the store.
    SizedNamedOpening(NamedOpening, NameFields),
    /// A field's tag, and its label's tag and length.
    Field(Side, TagField, TagField, u32),
    /// A field's tag, and its index, whose number is a number of the store.
    Place(Side, TagField, Sign, TagField),
    /// A field's tag, its label's tag and its index. The label's length and the index's number are two numbers of the
    /// store.
    FieldPlace(Side, TagField, TagField, Sign, TagField),
}

impl Line {
    /// Whether it is a truth value, a number, a part of a text or a binary, or a tag alone. These seldom come again as
    /// they are.
    #[inline(always)]
    pub(crate) fn is_value(self) -> bool {
        match self {
            Line::Alone(_)
            | Line::Opening(_)
            | Line::SizedOpening(_)
            | Line::Named(_, _)
            | Line::NamedOpening(_, _)
            | Line::SizedNamedOpening(_, _)
            | Line::Field(_, _, _, _)
            | Line::Place(_, _, _, _)
            | Line::FieldPlace(_, _, _, _, _) => false,
            _ => true,
        }
    }
}

/// Reads a truth value.
#[inline(always)]
fn read_truth(store: &mut Store, fields: &mut Fields) -> Result<Line, LineError>
    ensures made { ReadsFieldsOf word.Bool fields.old fields.new store.old store.new result }
    ensures bad { TellsBad word.Bool fields.old result }
{
    let value = fields.truth().ok_or(LineError::Bad)?;
    Ok(Line::Bool(value))
}

/// Reads a whole number.
#[inline(always)]
fn read_number(kind: NumberType, store: &mut Store, fields: &mut Fields) -> Result<Line, LineError>
    ensures made { ReadsFieldsOf (word.Number kind) fields.old fields.new store.old store.new result }
    ensures bad { TellsBad (word.Number kind) fields.old result }
{
    let number = fields.number(kind).ok_or(LineError::Bad)?;
    store.put_number(number)
}

/// Reads a size.
#[inline(always)]
fn read_opening(opening: Opening, store: &mut Store, fields: &mut Fields) -> Result<Line, LineError>
    ensures made { ReadsFieldsOf (word.Opening opening) fields.old fields.new store.old store.new result }
    ensures bad { TellsBad (word.Opening opening) fields.old result }
{
    let Some(size) = fields.size().ok_or(LineError::Bad)? else {
        return Ok(Line::Opening(opening));
    };
    store.push(size as u64)?;
    Ok(Line::SizedOpening(opening))
}

/// Reads a text.
#[inline(always)]
fn read_text(life: Lifetime, store: &mut Store, fields: &mut Fields) -> Result<Line, LineError>
    ensures made { ReadsFieldsOf (word.TextFragment life) fields.old fields.new store.old store.new result }
    ensures bad { TellsBad (word.TextFragment life) fields.old result }
{
    let len = fields.text(&mut store.bytes)?;
    Ok(Line::TextFragment(life, len))
}

/// Reads bytes.
#[inline(always)]
fn read_binary(life: Lifetime, store: &mut Store, fields: &mut Fields) -> Result<Line, LineError>
    ensures made { ReadsFieldsOf (word.BinaryFragment life) fields.old fields.new store.old store.new result }
    ensures bad { TellsBad (word.BinaryFragment life) fields.old result }
{
    let len = fields.bytes(&mut store.bytes)?;
    Ok(Line::BinaryFragment(life, len))
}

/// Reads a tag alone.
#[inline(always)]
fn read_tag_hint(store: &mut Store, fields: &mut Fields) -> Result<Line, LineError>
    ensures made { ReadsFieldsOf word.TagHint fields.old fields.new store.old store.new result }
    ensures bad { TellsBad word.TagHint fields.old result }
{
    let tag = fields.tag().ok_or(LineError::Bad)?;
    Ok(Line::TagHint(tag))
}

/// Reads a name.
#[inline(always)]
fn read_named(named: Named, store: &mut Store, fields: &mut Fields) -> Result<Line, LineError>
    ensures made { ReadsFieldsOf (word.Named named) fields.old fields.new store.old store.new result }
    ensures bad { TellsBad (word.Named named) fields.old result }
{
    let name = fields.name(&mut store.bytes)?;
    store.push_name(name)?;
    Ok(Line::Named(named, name.parts))
}

/// Reads a name and a size.
#[inline(always)]
fn read_named_opening(
    opening: NamedOpening,
    store: &mut Store,
    fields: &mut Fields,
) -> Result<Line, LineError>
    ensures made { ReadsFieldsOf (word.NamedOpening opening) fields.old fields.new store.old store.new result }
    ensures bad { TellsBad (word.NamedOpening opening) fields.old result }
{
    let name = fields.name(&mut store.bytes)?;
    store.push_name(name)?;
    let Some(size) = fields.size().ok_or(LineError::Bad)? else {
        return Ok(Line::NamedOpening(opening, name.parts));
    };
    store.push(size as u64)?;
    Ok(Line::SizedNamedOpening(opening, name.parts))
}

/// Reads a tag and a label.
#[inline(always)]
fn read_field(side: Side, store: &mut Store, fields: &mut Fields) -> Result<Line, LineError>
    ensures made { ReadsFieldsOf (word.Field side) fields.old fields.new store.old store.new result }
    ensures bad { TellsBad (word.Field side) fields.old result }
{
    let tag = fields.tag_or_dash().ok_or(LineError::Bad)?;
    let label = fields.label(&mut store.bytes)?;
    Ok(Line::Field(side, tag, label.tag, label.len))
}

/// Reads a tag and an index.
#[inline(always)]
fn read_place(side: Side, store: &mut Store, fields: &mut Fields) -> Result<Line, LineError>
    ensures made { ReadsFieldsOf (word.Place side) fields.old fields.new store.old store.new result }
    ensures bad { TellsBad (word.Place side) fields.old result }
{
    let tag = fields.tag_or_dash().ok_or(LineError::Bad)?;
    let index = fields.index().ok_or(LineError::Bad)?;
    store.push(index.number)?;
    Ok(Line::Place(side, tag, index.sign, index.tag))
}

/// Reads a tag, a label and an index.
#[inline(always)]
fn read_field_place(side: Side, store: &mut Store, fields: &mut Fields) -> Result<Line, LineError>
    ensures made { ReadsFieldsOf (word.FieldPlace side) fields.old fields.new store.old store.new result }
    ensures bad { TellsBad (word.FieldPlace side) fields.old result }
{
    let tag = fields.tag_or_dash().ok_or(LineError::Bad)?;
    let label = fields.label(&mut store.bytes)?;
    let index = fields.index().ok_or(LineError::Bad)?;
    store.push_two(u64::from(label.len), index.number)?;
    Ok(Line::FieldPlace(side, tag, label.tag, index.sign, index.tag))
}

impl Word {
    /// Reads the fields behind the word.
    #[inline(always)]
    fn read_fields(self, store: &mut Store, fields: &mut Fields) -> Result<Line, LineError>
        ensures made { ReadsFieldsOf self fields.old fields.new store.old store.new result }
        ensures bad { TellsBad self fields.old result }
    {
        match self {
            Word::Alone(word) => Ok(Line::Alone(word)),
            Word::Bool => read_truth(store, fields),
            Word::Number(kind) => read_number(kind, store, fields),
            Word::Opening(opening) => read_opening(opening, store, fields),
            Word::TextFragment(life) => read_text(life, store, fields),
            Word::BinaryFragment(life) => read_binary(life, store, fields),
            Word::Named(word) => read_named(word, store, fields),
            Word::TagHint => read_tag_hint(store, fields),
            Word::NamedOpening(word) => read_named_opening(word, store, fields),
            Word::Field(side) => read_field(side, store, fields),
            Word::Place(side) => read_place(side, store, fields),
            Word::FieldPlace(side) => read_field_place(side, store, fields),
        }
    }
}

/// Reads the first line of a script as [`read_line`] does, and remembers it, unless it is a value.
#[inline(always)]
fn read_new_line<'a>(
    store: &mut Store,
    known: &mut KnownLines,
    script: &'a [u8],
) -> Result<(Line, &'a [u8]), LineError>
    ensures made { IfOk result (λ got.
        IsMade (first_call script.now) got.1.now (stored store.old) (stored store.new) got.0) }
    ensures bad { result ≡ Err LineError.Bad → first_call script.now ≡ None }
{
    let start = store.bytes.len();
    let count = store.numbers.len();
    let mut fields = Fields::new(script);
    let word = fields.word().ok_or(LineError::Bad)?;
    let made = word.read_fields(store, &mut fields)?;
    let rest = fields.end().ok_or(LineError::Bad)?;
    if made.is_value() {
        known.pass_value();
    } else {
        let spelled = &script[..script.len() - rest.len()];
        store.remember(known, spelled, start, count, made);
    }
    Ok((made, rest))
}

/// Reads the first line of a script, if it is the other line that is expected, and answers also its length.
#[inline(never)]
fn read_other(
    store: &mut Store,
    known: &mut KnownLines,
    script: &[u8],
) -> Result<Option<(Line, usize)>, LineError>
    ensures made { IfOk result (λ found. IfSome found (λ got.
        ReadsLine script.now got (stored store.old) (stored store.new))) }
    ensures same { result ≡ Ok None → stored store.new ≡ stored store.old }
    ensures no_memory { ¬ (result ≡ Err LineError.Bad) }
{
    let Some((kept, len)) = known.find_other(script) else {
        return Ok(None);
    };
    store.put_kept(kept)?;
    Ok(Some((kept.line, len)))
}

/// Reads the first line of a script, and answers also what follows it. What doesn't fit the line goes behind what the
/// store has. A line that is expected, since it came there before, is told by a comparison or two.
#[inline(always)]
pub(crate) fn read_line<'a>(
    store: &mut Store,
    known: &mut KnownLines,
    script: &'a [u8],
) -> Result<(Line, &'a [u8]), LineError>
    ensures made { IfOk result (λ got.
        IsMade (first_call script.now) got.1.now (stored store.old) (stored store.new) got.0) }
    ensures bad { result ≡ Err LineError.Bad → first_call script.now ≡ None }
{
    if let Some((kept, len)) = known.find(script) {
        store.put_kept(kept)?;
        return Ok((kept.line, &script[len..]));
    }
    if known.expects_other() {
        if let Some((line, len)) = read_other(store, known, script)? {
            return Ok((line, &script[len..]));
        }
    }
    read_new_line(store, known, script)
}
