//! Reads words one by one.

ghost use Rattle.std.specs.Prelude.{◌≡◌, ◌<◌, ◌+◌, ◌^◌, not, codes, length, map, option_map, string_bytes, None, Some};
ghost use Rattle.std.specs.Option.{is_some};
ghost use Rattle.sval_tool.specs.PathWords.{is_bad_path, path_labels};
ghost use Rattle.sval_tool.specs.Switches.{seen_row, option_rows, row_named, row_shortened};
ghost use Rattle.sval_tool.specs.Words as spec;
ghost use Rattle.sval_tool.specs.Words.{GivesOrStops, Given, Named, Turned, asked_by_options, name_in, argument_in, behind_dash};
ghost use Rattle.sval_tool.specs.WordReading as reading;
ghost use Rattle.sval_tool.specs.WordReading.{ReadsOrStops, reading_in, reads_part, reads_saying, reads_unless, asked_with_path};

use crate::path_word::add_path;
use crate::switch::{Flag, OptionRow, Setting, Switch, row_named, row_shortened};
use crate::words::{Command, Complaint, Input, Options, Output, Stop};
use std::alloc::Global;
use sval_filter::{PathError, Paths, Rule};

/// A format that is read, by its name.
fn input_named(word: &str) -> Option<Input>
    ensures { result ≡ spec.input_named word.now }
{
    match word {
        "json" => Some(Input::Json),
        "cbor" => Some(Input::Cbor),
        "script" => Some(Input::Script),
        _ => None,
    }
}

/// A format that is written, by its name.
fn output_named(word: &str) -> Option<Output>
    ensures { result ≡ spec.output_named word.now }
{
    match word {
        "json" => Some(Output::Json),
        "pretty" => Some(Output::Pretty),
        "cbor" => Some(Output::Cbor),
        "script" => Some(Output::Script),
        "logfmt" => Some(Output::Logfmt),
        _ => None,
    }
}

/// Whether this is no JSON Pointer (RFC 6901, section 3): it isn't empty, and doesn't begin with `/`.
fn is_bad_pointer(word: &str) -> bool
    ensures { result ≡ not (is_some (spec.pointer_named word.now)) }
{
    match word.as_bytes().first() {
        None => false,
        Some(byte) => *byte != b'/',
    }
}

/// What follows a `-`, if the word begins with one.
fn behind_dash<'w>(word: &'w str) -> Option<&'w str>
    ensures { option_map (λ rest. rest.now) result ≡ behind_dash word.now }
{
    word.strip_prefix('-')
}

/// An option's name, and its argument if one is written behind `=`.
fn name_and_argument<'w>(text: &'w str) -> (&'w str, Option<&'w str>)
    ensures name { result.0.now ≡ name_in text.now }
    ensures argument { option_map (λ word. word.now) result.1 ≡ argument_in text.now }
{
    match text.split_once('=') {
        Some((name, argument)) => (name, Some(argument)),
        None => (text, None),
    }
}

/// The other rule was asked for.
fn is_other(rule: Rule, asked: Option<Rule>) -> bool
    ensures { result ≡ spec.is_other rule asked }
{
    match asked {
        None => false,
        Some(asked) => asked != rule,
    }
}

/// Reads words one by one.
#[derive(Drop)]
pub(super) struct WordReader {
    options: Options,
    /// The option whose argument comes next.
    due: Option<Setting>,
    /// No further option comes.
    ended: bool,
}

impl WordReader {
    /// Before the first word.
    pub(super) fn new(alloc: Global) -> Self
        ensures { reading_in result ≡ reading.before_words }
    {
        WordReader {
            options: Options {
                command: Command::Convert,
                from: None,
                to: None,
                lines: false,
                beside: false,
                progress: false,
                rule: None,
                paths: Paths::new(alloc),
                pointer: None,
                files: Vec::new(alloc),
            },
            due: None,
            ended: false,
        }
    }

    /// A format that is read.
    fn from(&mut self, at: usize, word: &str) -> Result<(), Stop>
        ensures { ReadsOrStops (reads_part (reading_in self.old) (Given at Setting.From word.now)) result
            (reading_in self.new) }
    {
        let Some(format) = input_named(word) else {
            return Err(Stop::Usage(at, Complaint::BadArgument(Setting::From)));
        };
        if self.options.from.is_some() {
            return Err(Stop::Usage(at, Complaint::Twice(Setting::From)));
        }
        self.options.from = Some(format);
        self.due = None;
        Ok(())
    }

    /// A format that is written.
    fn to(&mut self, at: usize, word: &str) -> Result<(), Stop>
        ensures { ReadsOrStops (reads_part (reading_in self.old) (Given at Setting.To word.now)) result
            (reading_in self.new) }
    {
        let Some(format) = output_named(word) else {
            return Err(Stop::Usage(at, Complaint::BadArgument(Setting::To)));
        };
        if self.options.to.is_some() {
            return Err(Stop::Usage(at, Complaint::Twice(Setting::To)));
        }
        self.options.to = Some(format);
        self.due = None;
        Ok(())
    }

    /// A path of a rule, which is that of this option.
    fn path(
        &mut self,
        alloc: Global,
        at: usize,
        setting: Setting,
        rule: Rule,
        word: &str,
    ) -> Result<(), Stop>
        ensures { let old = reading_in self.old in
            let wrong = spec.stop_at_path at setting rule old.asked.rule word.now in
            let stop = spec.stop_beside at old.asked.pointer wrong in
            let asked = asked_with_path rule old.asked word.now in
            ReadsOrStops (reads_unless stop old asked) result (reading_in self.new) }
    {
        if self.options.pointer.is_some() {
            return Err(Stop::Usage(at, Complaint::PointerAndPath));
        }
        if is_other(rule, self.options.rule) {
            return Err(Stop::Usage(at, Complaint::KeepAndDrop));
        }
        match add_path(alloc, &mut self.options.paths, word) {
            Ok(()) => {
                self.options.rule = Some(rule);
                self.due = None;
                Ok(())
            }
            Err(PathError::BadWord) => Err(Stop::Usage(at, Complaint::BadArgument(setting))),
            Err(PathError::NoMemory) => Err(Stop::NoMemory),
            Err(PathError::NoPath) => unreachable!("a path begins with its first label"),
        }
    }

    /// A JSON Pointer.
    fn pointer(&mut self, alloc: Global, at: usize, word: &str) -> Result<(), Stop>
        ensures { ReadsOrStops (reads_part (reading_in self.old) (Given at Setting.Pointer word.now)) result
            (reading_in self.new) }
    {
        if self.options.rule.is_some() {
            return Err(Stop::Usage(at, Complaint::PointerAndPath));
        }
        if is_bad_pointer(word) {
            return Err(Stop::Usage(at, Complaint::BadArgument(Setting::Pointer)));
        }
        if self.options.pointer.is_some() {
            return Err(Stop::Usage(at, Complaint::Twice(Setting::Pointer)));
        }
        self.options.pointer = Some(String::from_str(alloc, word)?);
        self.due = None;
        Ok(())
    }

    /// The argument of an option.
    fn argument(
        &mut self,
        alloc: Global,
        at: usize,
        setting: Setting,
        word: &str,
    ) -> Result<(), Stop>
        ensures { ReadsOrStops (reads_part (reading_in self.old) (Given at setting word.now)) result
            (reading_in self.new) }
    {
        match setting {
            Setting::From => self.from(at, word),
            Setting::To => self.to(at, word),
            Setting::Keep => self.path(alloc, at, setting, Rule::Keep, word),
            Setting::Drop => self.path(alloc, at, setting, Rule::Drop, word),
            Setting::Pointer => self.pointer(alloc, at, word),
        }
    }

    /// An option without an argument.
    fn flag(&mut self, flag: Flag) -> Result<(), Stop>
        ensures { ReadsOrStops (reads_part (reading_in self.old) (Turned flag)) result (reading_in self.new) }
    {
        self.due = None;
        match flag {
            Flag::Lines => {
                self.options.lines = true;
                Ok(())
            }
            Flag::Beside => {
                self.options.beside = true;
                Ok(())
            }
            Flag::Progress => {
                self.options.progress = true;
                Ok(())
            }
            Flag::Help => Err(Stop::Help),
            Flag::Version => Err(Stop::Version),
        }
    }

    /// An option, and its argument if that came in the same word.
    fn switch(
        &mut self,
        alloc: Global,
        at: usize,
        switch: Switch,
        argument: Option<&str>,
    ) -> Result<(), Stop>
        ensures { ReadsOrStops (reads_saying (reading_in self.old)
            (spec.said_by_switch at switch (option_map (λ word. word.now) argument.entry))) result
            (reading_in self.new) }
    {
        match (switch, argument) {
            (Switch::Flag(flag), None) => self.flag(flag),
            (Switch::Flag(flag), Some(_)) => {
                Err(Stop::Usage(at, Complaint::UnwantedArgument(flag)))
            }
            (Switch::Setting(setting), None) => {
                self.due = Some(setting);
                Ok(())
            }
            (Switch::Setting(setting), Some(word)) => self.argument(alloc, at, setting, word),
        }
    }

    /// An option by its row of the table, if it has one.
    fn row(
        &mut self,
        alloc: Global,
        at: usize,
        row: Option<OptionRow>,
        argument: Option<&str>,
    ) -> Result<(), Stop>
        ensures { ReadsOrStops (reads_saying (reading_in self.old)
            (spec.said_by_row self.old.options.command at (option_map seen_row row)
            (option_map (λ word. word.now) argument.entry))) result (reading_in self.new) }
    {
        let Some(row) = row else {
            return Err(Stop::Usage(at, Complaint::UnknownOption));
        };
        if self.options.command == Command::Check && !row.checks {
            return Err(Stop::Usage(at, Complaint::NotOfCheck));
        }
        self.switch(alloc, at, row.switch, argument)
    }

    /// A file.
    fn file(&mut self, alloc: Global, word: &str) -> Result<(), Stop>
        ensures { ReadsOrStops (reads_part (reading_in self.old) (Named word.now)) result (reading_in self.new) }
    {
        let file = String::from_str(alloc, word)?;
        self.options.files.push(file)?;
        self.due = None;
        Ok(())
    }

    /// What follows the `-` of an option.
    fn option(&mut self, alloc: Global, at: usize, letters: &str) -> Result<(), Stop>
        ensures { ReadsOrStops (reads_saying (reading_in self.old)
            (spec.said_by_option self.old.options.command at letters.now (behind_dash letters.now))) result
            (reading_in self.new) }
    {
        match behind_dash(letters) {
            Some(text) => {
                let (name, argument) = name_and_argument(text);
                self.row(alloc, at, row_named(name), argument)
            }
            None => self.row(alloc, at, row_shortened(letters), None),
        }
    }

    /// A word that begins with `-` or names a file.
    fn dashed(&mut self, alloc: Global, at: usize, word: &str) -> Result<(), Stop>
        ensures { ReadsOrStops (reads_saying (reading_in self.old)
            (spec.said_by_dashes self.old.options.command at word.now (behind_dash word.now))) result
            (reading_in self.new) }
    {
        match behind_dash(word) {
            Some(letters) => self.option(alloc, at, letters),
            None => self.file(alloc, word),
        }
    }

    /// A word where an option may come.
    fn option_or_file(&mut self, alloc: Global, at: usize, word: &str) -> Result<(), Stop>
        ensures { ReadsOrStops (reads_saying (reading_in self.old)
            (spec.said_by self.old.options.command at word.now)) result (reading_in self.new) }
    {
        match word {
            "-" => self.file(alloc, word),
            "--" => {
                self.ended = true;
                Ok(())
            }
            _ => self.dashed(alloc, at, word),
        }
    }

    /// A word that isn't an option's argument.
    fn free(&mut self, alloc: Global, at: usize, word: &str) -> Result<(), Stop>
        ensures { ReadsOrStops (reading.reads_free at (reading_in self.old) word.now) result (reading_in self.new) }
    {
        if self.ended {
            return self.file(alloc, word);
        }
        if at == 0 && word == "check" {
            self.options.command = Command::Check;
            return Ok(());
        }
        self.option_or_file(alloc, at, word)
    }

    /// One more word.
    pub(super) fn word(&mut self, alloc: Global, at: usize, word: &str) -> Result<(), Stop>
        ensures { ReadsOrStops (reading.reads_word at (reading_in self.old) word.now) result (reading_in self.new) }
    {
        match self.due {
            Some(setting) => self.argument(alloc, at, setting, word),
            None => self.free(alloc, at, word),
        }
    }

    /// Behind the last word.
    pub(super) fn finish(self, count: usize) -> Result<Options, Stop>
        ensures { GivesOrStops asked_by_options
            (reading.at_last count self.due (asked_by_options self.options)) result }
    {
        match self.due {
            Some(setting) => Err(Stop::Usage(
                count.saturating_sub(1),
                Complaint::NoArgument(setting),
            )),
            None => Ok(self.options),
        }
    }
}
