//! The words of the programs that read a document.

ghost use Rattle.std.specs.Prelude.{◌≡◌, map, string_bytes};
ghost use Rattle.sval_program.specs.ReadForms.{read_form_by, read_form};

/// What a program that reads a document writes of it.
#[derive(Clone, Copy)]
pub enum ReadForm {
    /// Its JSON, without white space.
    Json,
    /// The canonical script of its calls, printed from what was captured.
    Calls,
}

/// The form that a word names.
fn named(word: &str) -> Option<ReadForm>
    ensures { result ≡ read_form_by word.now }
{
    match word {
        "json" => Some(ReadForm::Json),
        "calls" => Some(ReadForm::Calls),
        _ => None,
    }
}

/// The form that a program's words are, `json` or `calls`, or `None`.
pub fn read_form(words: &[String]) -> Option<ReadForm>
    ensures { result ≡ read_form (map string_bytes words.now) }
{
    match words {
        [word] => named(word.as_str()),
        _ => None,
    }
}
