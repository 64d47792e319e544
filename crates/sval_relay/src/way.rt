//! The ways to serve a script, and the forms of the program's words.

ghost use Rattle.std.specs.Prelude.{◌≡◌, [], ◌∷◌, map, string_bytes};
ghost use Rattle.sval_relay.specs.Ways.{way_alone, way_beside, served_in, records_named, relay_form};

/// The ways to serve a script: what is written of each value that it spells.
#[derive(Clone, Copy, Debug, PartialEq, Eq)]
pub enum Way {
    /// Its JSON, written at once.
    Direct,
    /// Its JSON, written from the value as it was captured.
    Buffered,
    /// Its canonical script, printed from the value as it was captured.
    Calls,
    /// As `Direct`, with the variants of enums beside their names.
    DirectBeside,
    /// As `Buffered`, with the variants of enums beside their names.
    BufferedBeside,
}

/// What is asked for of a script.
#[derive(Clone, Copy)]
pub(crate) struct Task {
    /// How each value is served.
    pub(crate) way: Way,
    /// Whether many values may come, one after another.
    pub(crate) many: bool,
}

/// What the program's words ask for.
#[derive(Clone, Copy)]
pub(crate) enum Form {
    /// The input, served as a script.
    Serve(Task),
    /// The sizes of a script of this number of records, and of its JSON.
    Made(u32),
}

/// The greatest number of records that a script is made of.
const MOST: u32 = 50_000;

impl Form {
    /// A script of one value, or of many, where a way is named.
    fn served(way: Option<Way>, many: bool) -> Option<Form>
        ensures { result ≡ served_in many way }
    {
        match way {
            Some(way) => Some(Form::Serve(Task { way, many })),
            None => None,
        }
    }
}

/// The way that a word names by itself.
fn alone(word: &str) -> Option<Way>
    ensures { result ≡ way_alone word.now }
{
    match word {
        "direct" => Some(Way::Direct),
        "buffered" => Some(Way::Buffered),
        "calls" => Some(Way::Calls),
        _ => None,
    }
}

/// The way that a word names before `beside`.
fn beside(word: &str) -> Option<Way>
    ensures { result ≡ way_beside word.now }
{
    match word {
        "direct" => Some(Way::DirectBeside),
        "buffered" => Some(Way::BufferedBeside),
        _ => None,
    }
}

/// The number of records that a word asks for: a decimal up to 50,000, without a sign or a leading zero.
fn named_records(word: &str) -> Option<u32>
    ensures { result ≡ records_named word.now }
{
    let first = *word.as_bytes().first()?;
    if first == b'0' {
        return (word.len() == 1).then_some(0);
    }
    // A sign is one to `parse`.
    if first == b'+' {
        return None;
    }
    let records = word.parse().ok()?;
    (records <= MOST).then_some(records)
}

/// The form that two words are, if they are one.
fn form_of_two(first: &str, last: &str) -> Option<Form>
    ensures { result ≡ relay_form (first.now ∷ last.now ∷ []) }
{
    if first == "made" {
        return Some(Form::Made(named_records(last)?));
    }
    match last {
        "lines" => Form::served(alone(first), true),
        "beside" => Form::served(beside(first), false),
        _ => None,
    }
}

/// The form that three words are, if they are one.
fn form_of_three(first: &str, middle: &str, last: &str) -> Option<Form>
    ensures { result ≡ relay_form (first.now ∷ middle.now ∷ last.now ∷ []) }
{
    if middle == "beside" && last == "lines" {
        Form::served(beside(first), true)
    } else {
        None
    }
}

/// The form that the program's words are, if they are one.
pub(crate) fn named_form(words: &[String]) -> Option<Form>
    ensures { result ≡ relay_form (map string_bytes words.now) }
{
    match words {
        [word] => Form::served(alone(word.as_str()), false),
        [first, last] => form_of_two(first.as_str(), last.as_str()),
        [first, middle, last] => form_of_three(first.as_str(), middle.as_str(), last.as_str()),
        _ => None,
    }
}
