//! The words that lines begin with.

ghost use Rattle.std.specs.Prelude.{◌≡◌, ◌<◌, length, option_map};
ghost use Rattle.sval_script.specs.Lines.{forms, find_form};
ghost use Rattle.sval_script.specs.Words.{form_of_word, word_table, texts_and_words, word_place, word_text_at};

use crate::short::same;

/// What a line begins with. The variants are the forms of lines: the fields that follow.
#[derive(Clone, Copy)]
pub(crate) enum Word {
    /// No field.
    Alone(Alone),
    /// A truth value.
    Bool,
    /// A whole number.
    Number(NumberType),
    /// A size.
    Opening(Opening),
    /// A text.
    TextFragment(Lifetime),
    /// Bytes.
    BinaryFragment(Lifetime),
    /// A name: a tag, a label and an index.
    Named(Named),
    /// A tag.
    TagHint,
    /// A name and a size.
    NamedOpening(NamedOpening),
    /// A tag and a label.
    Field(Side),
    /// A tag and an index.
    Place(Side),
    /// A tag, a label and an index.
    FieldPlace(Side),
}

/// The words that have no field.
#[derive(Clone, Copy)]
pub(crate) enum Alone {
    Null,
    TextEnd,
    BinaryEnd,
    MapKeyBegin,
    MapKeyEnd,
    MapValueBegin,
    MapValueEnd,
    MapEnd,
    SeqValueBegin,
    SeqValueEnd,
    SeqEnd,
}

/// The types of whole numbers.
#[derive(Clone, Copy)]
pub(crate) enum NumberType {
    U8,
    U16,
    U32,
    U64,
    U128,
    I8,
    I16,
    I32,
    I64,
    I128,
}

/// The words of what begins with a size.
#[derive(Clone, Copy)]
pub(crate) enum Opening {
    TextBegin,
    BinaryBegin,
    MapBegin,
    SeqBegin,
}

/// How long a fragment lives.
#[derive(Clone, Copy)]
pub(crate) enum Lifetime {
    /// A stream may keep it.
    Borrowed,
    /// It lives for the call alone.
    Computed,
}

/// The words with a name.
#[derive(Clone, Copy)]
pub(crate) enum Named {
    EnumBegin,
    EnumEnd,
    TaggedBegin,
    TaggedEnd,
    Tag,
    RecordEnd,
    TupleEnd,
    RecordTupleEnd,
}

/// The words of what begins with a name and a size.
#[derive(Clone, Copy)]
pub(crate) enum NamedOpening {
    RecordBegin,
    TupleBegin,
    RecordTupleBegin,
}

/// Whether a part begins or ends.
#[derive(Clone, Copy)]
pub(crate) enum Side {
    Begin,
    End,
}

/// Each word with its text.
static WORDS: [(&'static [u8], Word); 48] = [
    (b"null", Word::Alone(Alone::Null)),
    (b"bool", Word::Bool),
    (b"u8", Word::Number(NumberType::U8)),
    (b"u16", Word::Number(NumberType::U16)),
    (b"u32", Word::Number(NumberType::U32)),
    (b"u64", Word::Number(NumberType::U64)),
    (b"u128", Word::Number(NumberType::U128)),
    (b"i8", Word::Number(NumberType::I8)),
    (b"i16", Word::Number(NumberType::I16)),
    (b"i32", Word::Number(NumberType::I32)),
    (b"i64", Word::Number(NumberType::I64)),
    (b"i128", Word::Number(NumberType::I128)),
    (b"text_begin", Word::Opening(Opening::TextBegin)),
    (b"text_fragment", Word::TextFragment(Lifetime::Borrowed)),
    (
        b"text_fragment_computed",
        Word::TextFragment(Lifetime::Computed),
    ),
    (b"text_end", Word::Alone(Alone::TextEnd)),
    (b"binary_begin", Word::Opening(Opening::BinaryBegin)),
    (b"binary_fragment", Word::BinaryFragment(Lifetime::Borrowed)),
    (
        b"binary_fragment_computed",
        Word::BinaryFragment(Lifetime::Computed),
    ),
    (b"binary_end", Word::Alone(Alone::BinaryEnd)),
    (b"map_begin", Word::Opening(Opening::MapBegin)),
    (b"map_key_begin", Word::Alone(Alone::MapKeyBegin)),
    (b"map_key_end", Word::Alone(Alone::MapKeyEnd)),
    (b"map_value_begin", Word::Alone(Alone::MapValueBegin)),
    (b"map_value_end", Word::Alone(Alone::MapValueEnd)),
    (b"map_end", Word::Alone(Alone::MapEnd)),
    (b"seq_begin", Word::Opening(Opening::SeqBegin)),
    (b"seq_value_begin", Word::Alone(Alone::SeqValueBegin)),
    (b"seq_value_end", Word::Alone(Alone::SeqValueEnd)),
    (b"seq_end", Word::Alone(Alone::SeqEnd)),
    (b"enum_begin", Word::Named(Named::EnumBegin)),
    (b"enum_end", Word::Named(Named::EnumEnd)),
    (b"tagged_begin", Word::Named(Named::TaggedBegin)),
    (b"tagged_end", Word::Named(Named::TaggedEnd)),
    (b"tag", Word::Named(Named::Tag)),
    (b"tag_hint", Word::TagHint),
    (
        b"record_begin",
        Word::NamedOpening(NamedOpening::RecordBegin),
    ),
    (b"record_value_begin", Word::Field(Side::Begin)),
    (b"record_value_end", Word::Field(Side::End)),
    (b"record_end", Word::Named(Named::RecordEnd)),
    (b"tuple_begin", Word::NamedOpening(NamedOpening::TupleBegin)),
    (b"tuple_value_begin", Word::Place(Side::Begin)),
    (b"tuple_value_end", Word::Place(Side::End)),
    (b"tuple_end", Word::Named(Named::TupleEnd)),
    (
        b"record_tuple_begin",
        Word::NamedOpening(NamedOpening::RecordTupleBegin),
    ),
    (b"record_tuple_value_begin", Word::FieldPlace(Side::Begin)),
    (b"record_tuple_value_end", Word::FieldPlace(Side::End)),
    (b"record_tuple_end", Word::Named(Named::RecordTupleEnd)),
];

/// The index in [`WORDS`] of the word of a text, by the text's place. The other places hold any word.
static SLOTS: [u8; 256] = [
    0, 0, 21, 32, 0, 0, 0, 0, 0, 0, 0, 0, 0, 0, 23, 18, 0, 0, 0, 28, 0, 0, 0, 0, 0, 0, 0, 38, 0,
    42, 13, 0, 0, 0, 0, 0, 0, 0, 0, 0, 0, 0, 0, 0, 27, 0, 0, 47, 0, 0, 0, 0, 0, 0, 37, 0, 41, 0,
    44, 0, 0, 0, 0, 0, 0, 0, 0, 0, 0, 0, 0, 0, 0, 0, 0, 0, 0, 0, 0, 46, 0, 0, 0, 0, 0, 7, 8, 0, 9,
    45, 0, 10, 0, 0, 0, 11, 0, 0, 14, 0, 0, 0, 0, 0, 0, 0, 0, 0, 0, 0, 0, 0, 0, 0, 0, 0, 0, 0, 0,
    0, 0, 1, 0, 0, 0, 0, 0, 0, 0, 0, 0, 0, 0, 0, 0, 0, 0, 0, 0, 0, 0, 0, 0, 0, 0, 2, 3, 0, 4, 0, 0,
    5, 31, 0, 0, 6, 0, 0, 0, 0, 0, 0, 0, 0, 0, 0, 0, 0, 0, 16, 0, 30, 0, 0, 0, 0, 0, 0, 0, 19, 0,
    0, 0, 0, 25, 0, 0, 0, 0, 34, 0, 0, 0, 0, 0, 0, 0, 0, 0, 0, 17, 0, 0, 20, 0, 0, 0, 0, 0, 0, 0,
    0, 0, 0, 29, 0, 0, 0, 0, 0, 0, 0, 22, 0, 0, 0, 0, 15, 0, 0, 0, 0, 0, 26, 0, 0, 35, 0, 39, 0, 0,
    43, 0, 0, 0, 24, 12, 0, 33, 36, 0, 40, 0, 0, 0, 0,
];

/// The place of a text: another for each word.
fn place(text: &[u8]) -> usize
    requires { 0 < length text.now }
    ensures { result ≡ word_place text.now }
{
    let first = text[0] as usize;
    let middle = text[text.len() / 2] as usize;
    (5 * first + middle + 8 * (text.len() % 32)) % 256
}

/// The table, whose rows are known by their texts and words alone.
fn words() -> &'static [(&'static [u8], Word); 48]
    ensures { texts_and_words result.now ≡ word_table }
{
    &WORDS
}

/// The word at a place, and its text.
fn row(place: usize) -> (&'static [u8], Word)
    requires { place < 256 }
    ensures text { result.0.now ≡ word_text_at place }
    ensures form { find_form result.0.now forms ≡ Some (form_of_word result.1) }
{
    let row = &words()[SLOTS[place] as usize];
    (row.0, row.1)
}

impl Word {
    /// The word with this text.
    pub(crate) fn read(text: &[u8]) -> Option<Word>
        ensures { option_map form_of_word result ≡ find_form text.now forms }
    {
        if text.is_empty() {
            return None;
        }
        let (name, word) = row(place(text));
        if same(name, text) { Some(word) } else { None }
    }
}
