//! What is wrong with the command line.

use std::alloc::AllocError;
use sval_tool::{Complaint, Flag, Setting, Switch, name_of};

/// What an option takes.
fn taken(setting: Setting) -> &'static str {
    match setting {
        Setting::From => "json, cbor or script",
        Setting::To => "json, pretty, cbor, script or logfmt",
        Setting::Keep => "a path without an empty name",
        Setting::Drop => "a path without an empty name",
        Setting::Pointer => "a JSON Pointer, which is empty or has a `/` before each name",
    }
}

/// What is said of an option that has nothing behind it.
fn needed(setting: Setting) -> &'static str {
    match setting {
        Setting::Keep | Setting::Drop => "a path",
        Setting::From | Setting::To | Setting::Pointer => taken(setting),
    }
}

/// Adds `--` and an option's name.
fn push_name(out: &mut String, switch: Switch) -> Result<(), AllocError> {
    out.push_str("--")?;
    out.push_str(name_of(switch))
}

/// Adds what is wrong with a word.
fn push_complaint(out: &mut String, complaint: Complaint) -> Result<(), AllocError> {
    match complaint {
        Complaint::UnknownOption => out.push_str("there is no such option"),
        Complaint::UnwantedArgument(flag) => {
            push_name(out, Switch::Flag(flag))?;
            out.push_str(" takes no argument")
        }
        Complaint::NoArgument(setting) => {
            push_name(out, Switch::Setting(setting))?;
            out.push_str(" needs ")?;
            out.push_str(needed(setting))
        }
        Complaint::BadArgument(setting) => {
            push_name(out, Switch::Setting(setting))?;
            out.push_str(" takes ")?;
            out.push_str(taken(setting))
        }
        Complaint::Twice(setting) => {
            push_name(out, Switch::Setting(setting))?;
            out.push_str(" comes a second time")
        }
        Complaint::KeepAndDrop => out.push_str("--keep and --drop don't go together"),
        Complaint::PointerAndPath => out.push_str("--pointer goes with no --keep and no --drop"),
        Complaint::NotOfCheck => out.push_str("not an option of `sval check`"),
    }
}

/// The hint for an option of another tool, if the word is one.
fn hint_of(word: &str) -> Option<&'static str> {
    match word {
        "-c" | "--compact" | "--compact-output" => Some("JSON is compact where no --to is given"),
        "--indent" | "--pretty" => Some("give --to pretty"),
        "--jsonl" | "--ndjson" => Some("give --lines"),
        _ => None,
    }
}

/// Adds the line of a hint for a word, if there is one.
fn push_hint(out: &mut String, word: &str) -> Result<(), AllocError> {
    let Some(hint) = hint_of(word) else {
        return Ok(());
    };
    out.push_str("hint: ")?;
    out.push_str(hint)?;
    out.push_str("\n")
}

/// Adds the error of a word of the command line. An option of another tool has a hint.
///
/// ```
/// let mut out = String::new(alloc);
/// push_usage(&mut out, "--form", Complaint::UnknownOption)?;
/// assert_eq!(rt; out.as_str(), "sval: `--form`: there is no such option\nsee `sval --help`\n");
/// ```
pub(crate) fn push_usage(
    out: &mut String,
    word: &str,
    complaint: Complaint,
) -> Result<(), AllocError> {
    out.push_str("sval: `")?;
    out.push_str(word)?;
    out.push_str("`: ")?;
    push_complaint(out, complaint)?;
    out.push_str("\n")?;
    if complaint == Complaint::UnknownOption {
        push_hint(out, word)?;
    }
    out.push_str("see `sval --help`\n")
}
