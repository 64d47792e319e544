//! The words of paths.

ghost use Rattle.std.specs.Prelude.{◌≡◌, ◌<◌, ◌∷◌, ◌++◌, ◌==◌, ◌&&◌, ℕ, List, true, not, length, IfOk, map, string_bytes};
ghost use Rattle.std.specs.List.{list_any};
ghost use Rattle.sval_label.specs.Texts.{is_empty};
ghost use Rattle.sval_tool.specs.PathWords.{labels_from, left_chars, path_labels, with_backslash, AddsLabels, AddsPathWord};

use std::alloc::{AllocError, Global};
use sval_core::NoMemory;
use sval_filter::{PathError, Paths};

/// A backslash before this character is itself, if one is there: no dot is behind it.
fn is_itself(escaped: bool, ch: char) -> bool
    ensures { result ≡ (escaped && not (ch == 46)) }
{
    escaped && ch != '.'
}

/// Adds a backslash if one waits.
fn push_backslash(label: &mut String, waits: bool) -> Result<(), AllocError>
    ensures { IfOk result (λ done. string_bytes label.new ≡ with_backslash waits (string_bytes label.old)) }
{
    if waits {
        return label.push('\\');
    }
    Ok(())
}

/// Adds a character to a label that it doesn't end. `escaped` says that a backslash is before it, which the label hasn't
/// yet. The answer says the same of the character.
#[tactic(auto, using(crate::proofs::PathTexts::char_pushed))]
fn push_char(label: &mut String, escaped: bool, ch: char) -> Result<bool, AllocError>
    requires { ch ≡ 46 → escaped ≡ true }
    ensures { IfOk result (λ escapes. (rest : List ℕ) → labels_from (string_bytes label.new) (left_chars escapes rest)
        ≡ labels_from (string_bytes label.old) (left_chars escaped (ch ∷ rest))) }
{
    if ch == '\\' && !escaped {
        return Ok(true);
    }
    push_backslash(label, is_itself(escaped, ch))?;
    label.push(ch)?;
    Ok(false)
}

/// Takes one more character. At a dot that isn't escaped the label ends, and is put behind the others. The answer is the
/// label that goes on, and whether a backslash waits that isn't in it yet.
fn take_char(
    alloc: Global,
    labels: &mut Vec<String>,
    mut label: String,
    escaped: bool,
    ch: char,
) -> Result<(String, bool), NoMemory>
    ensures { IfOk result (λ next. (rest : List ℕ) → map string_bytes labels.new.items
        ++ labels_from (string_bytes next.0) (left_chars next.1 rest)
        ≡ map string_bytes labels.old.items ++ labels_from (string_bytes label) (left_chars escaped (ch ∷ rest))) }
{
    if ch == '.' && !escaped {
        labels.push(label)?;
        return Ok((String::new(alloc), false));
    }
    let escapes = push_char(&mut label, escaped, ch)?;
    Ok((label, escapes))
}

/// The labels that a word names. Some may be empty. `\\.` is a dot in a label; any other backslash is itself.
#[tactic(auto, using(crate::proofs::PathTexts::char_read))]
fn labels_of(alloc: Global, word: &str) -> Result<Vec<String>, NoMemory>
    ensures { IfOk result (λ labels. map string_bytes labels.items ≡ path_labels word.now) }
{
    let mut labels = Vec::new(alloc);
    let mut label = String::new(alloc);
    let mut escaped = false;
    for ch in word.chars() {
        let (next, escapes) = take_char(alloc, &mut labels, label, escaped, ch)?;
        label = next;
        escaped = escapes;
    }
    push_backslash(&mut label, escaped)?;
    labels.push(label)?;
    Ok(labels)
}

/// Some label is empty.
fn is_some_empty(labels: &[String]) -> bool
    ensures { result ≡ list_any is_empty (map string_bytes labels.now) }
{
    for label in labels {
        if label.as_str().is_empty() {
            return true;
        }
    }
    false
}

/// Adds a path of these labels.
#[tactic(auto, using(crate::proofs::PathTexts::label_refused))]
fn add_labels(paths: &mut Paths, labels: &[String]) -> Result<(), PathError>
    requires { 0 < length labels.now }
    ensures { AddsLabels paths.old (map string_bytes labels.now) result paths.new }
{
    let Some((first, others)) = labels.split_first() else {
        return Ok(());
    };
    paths.new_path(first.as_str())?;
    for label in others {
        paths.extend_path(label.as_str())?;
    }
    Ok(())
}

/// Adds the path that a word names.
///
/// # Errors
///
/// [`PathError::BadWord`] exactly where some label is empty, and [`PathError::NoMemory`].
pub(crate) fn add_path(alloc: Global, paths: &mut Paths, word: &str) -> Result<(), PathError>
    ensures { AddsPathWord paths.old word.now result paths.new }
{
    let labels = labels_of(alloc, word)?;
    if is_some_empty(&labels) {
        return Err(PathError::BadWord);
    }
    add_labels(paths, &labels)
}
