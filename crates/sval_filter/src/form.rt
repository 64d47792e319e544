//! The form of the program's words.

ghost use Rattle.std.specs.Prelude.{◌≡◌, map, string_bytes, IfOk};
ghost use Rattle.std.specs.List.{list_any};
ghost use Rattle.sval_filter.specs.Forms.{filter_form_of};
ghost use Rattle.sval_filter.specs.Paths.{labels_of, is_bad_word};
ghost use Rattle.sval_filter.specs.Words.{rule_of};

use crate::paths::{Paths, Rule, is_bad_word};
use std::alloc::Global;
use std::marker::Model;
use sval_core::NoMemory;

/// What the program's words ask for, seen as a rule and paths.
#[derive(Drop)]
pub(crate) struct Form<'a> {
    /// What becomes of what the paths name.
    pub(crate) rule: Rule,
    /// A word for each path.
    pub(crate) words: &'a [String],
}

impl<'a> Model for Form<'a> {
    ghost use Rattle.sval_filter.specs.Forms.{FilterForm, asked_by};

    ghost Value = { FilterForm };

    ghost view = { λ form. asked_by form.rule form.words.now };
}

/// The rule that a word names.
fn named_rule(word: &str) -> Option<Rule>
    ensures { result ≡ rule_of word.now }
{
    match word {
        "drop" => Some(Rule::Drop),
        "keep" => Some(Rule::Keep),
        _ => None,
    }
}

/// Some word names no path.
fn is_some_bad(words: &[String]) -> bool
    ensures { result ≡ list_any is_bad_word (map string_bytes words.now) }
{
    for word in words {
        if is_bad_word(word.as_str()) {
            return true;
        }
    }
    false
}

/// What the program's words ask for, if they are a form: `drop` or `keep`, and one or more words. None of these has an
/// empty part between dots. No path is made yet.
pub(crate) fn named_form<'a>(words: &'a [String]) -> Option<Form<'a>>
    ensures { result ≡ filter_form_of words.now }
{
    let (rule, words) = words.split_first()?;
    if words.is_empty() || is_some_bad(words) {
        return None;
    }
    let rule = named_rule(rule.as_str())?;
    Some(Form { rule, words })
}

/// Makes the paths that words name, one for each word.
pub(crate) fn paths_of(alloc: Global, words: &[String]) -> Result<Paths, NoMemory>
    ensures { IfOk result (λ paths. paths ≡ map labels_of (map string_bytes words.now)) }
{
    let mut paths = Paths::new(alloc);
    for word in words {
        paths.push_labels(word.as_str())?;
    }
    Ok(paths)
}
