//! The options of the command line, in one table.

ghost use Rattle.std.specs.Prelude.{◌≡◌, ◌<◌, map, option_map};
ghost use Rattle.sval_tool.specs.Switches.{option_rows, seen_row, row_named, row_shortened, option_row, option_name};

/// An option that takes no argument.
#[derive(Clone, Copy, Debug, PartialEq, Eq)]
pub enum Flag {
    /// Each line is a value of its own.
    Lines,
    /// Variants are written beside their names.
    Beside,
    /// How far a file is read is told.
    Progress,
    /// The help is asked for.
    Help,
    /// The version is asked for.
    Version,
}

/// An option that takes an argument.
#[derive(Clone, Copy, Debug, PartialEq, Eq)]
pub enum Setting {
    /// The format that is read.
    From,
    /// The format that is written.
    To,
    /// A path of fields that stay.
    Keep,
    /// A path of fields that are left out.
    Drop,
    /// The JSON Pointer (RFC 6901) of the part that is written.
    Pointer,
}

/// An option of the command line.
#[derive(Clone, Copy, Debug, PartialEq, Eq)]
pub enum Switch {
    /// One without an argument.
    Flag(Flag),
    /// One with an argument.
    Setting(Setting),
}

/// A row of the table of options.
#[derive(Clone, Copy)]
pub struct OptionRow {
    /// The option.
    pub switch: Switch,
    /// Its name, which is written behind `--`.
    pub name: &'static str,
    /// The letter of its short form, which is written behind `-`. It is empty where there is none.
    pub short: &'static str,
    /// Whether `sval check` has it too.
    pub checks: bool,
    /// What the help calls its argument. It is empty where it takes none.
    pub argument: &'static str,
    /// Its line of the help.
    pub help: &'static str,
}

/// The options, in the order of the help. The parser takes their names from here, the help its lines, and
/// `bench/cli_pages` the man page and the completions.
pub static OPTIONS: [OptionRow; 10] = [
    OptionRow {
        switch: Switch::Setting(Setting::From),
        name: "from",
        short: "",
        checks: true,
        argument: "FORMAT",
        help: "read json, cbor or script (without it json)",
    },
    OptionRow {
        switch: Switch::Setting(Setting::To),
        name: "to",
        short: "",
        checks: false,
        argument: "FORMAT",
        help: "write json, pretty, cbor, script or logfmt (without it json)",
    },
    OptionRow {
        switch: Switch::Flag(Flag::Lines),
        name: "lines",
        short: "",
        checks: true,
        argument: "",
        help: "take each line as a value of its own; of CBOR each item of a sequence, of a script each value",
    },
    OptionRow {
        switch: Switch::Setting(Setting::Keep),
        name: "keep",
        short: "",
        checks: false,
        argument: "PATH",
        help: "keep the fields of this path, and leave all others out; give one --keep for each",
    },
    OptionRow {
        switch: Switch::Setting(Setting::Drop),
        name: "drop",
        short: "",
        checks: false,
        argument: "PATH",
        help: "leave the fields of this path out; may be given many times",
    },
    OptionRow {
        switch: Switch::Setting(Setting::Pointer),
        name: "pointer",
        short: "",
        checks: false,
        argument: "POINTER",
        help: "write the value that this JSON Pointer names, as /user/tags/0",
    },
    OptionRow {
        switch: Switch::Flag(Flag::Beside),
        name: "beside",
        short: "",
        checks: false,
        argument: "",
        help: "in JSON write a variant of an enum beside its name, not inside; only scripts have variants",
    },
    OptionRow {
        switch: Switch::Flag(Flag::Progress),
        name: "progress",
        short: "",
        checks: true,
        argument: "",
        help: "after two seconds tell each second how much of a file is read",
    },
    OptionRow {
        switch: Switch::Flag(Flag::Help),
        name: "help",
        short: "h",
        checks: true,
        argument: "",
        help: "print this help",
    },
    OptionRow {
        switch: Switch::Flag(Flag::Version),
        name: "version",
        short: "V",
        checks: true,
        argument: "",
        help: "print the version",
    },
];

/// The table, whose rows are known by what the parser reads of them.
#[tactic(auto, unfolding(crate::specs::Switches::option_rows))]
pub(crate) fn rows() -> &'static [OptionRow; 10]
    ensures { map seen_row result.now ≡ option_rows }
{
    &OPTIONS
}

/// The row of the option with this name.
pub(crate) fn row_named(name: &str) -> Option<OptionRow>
    ensures { option_map seen_row result ≡ row_named name.now option_rows }
{
    let table = rows();
    for row in table {
        if row.name == name {
            return Some(*row);
        }
    }
    None
}

/// The row of the option with this short form.
pub(crate) fn row_shortened(letters: &str) -> Option<OptionRow>
    ensures { option_map seen_row result ≡ row_shortened letters.now option_rows }
{
    let table = rows();
    for row in table {
        if row.short == letters {
            return Some(*row);
        }
    }
    None
}

/// The index of an option in the table.
fn place_of(switch: Switch) -> usize
    ensures place { result ≡ option_row switch }
    ensures within { result < 10 }
{
    match switch {
        Switch::Setting(Setting::From) => 0,
        Switch::Setting(Setting::To) => 1,
        Switch::Flag(Flag::Lines) => 2,
        Switch::Setting(Setting::Keep) => 3,
        Switch::Setting(Setting::Drop) => 4,
        Switch::Setting(Setting::Pointer) => 5,
        Switch::Flag(Flag::Beside) => 6,
        Switch::Flag(Flag::Progress) => 7,
        Switch::Flag(Flag::Help) => 8,
        Switch::Flag(Flag::Version) => 9,
    }
}

/// The name of an option.
pub fn name_of(switch: Switch) -> &'static str
    ensures { result.now ≡ option_name switch }
{
    rows()[place_of(switch)].name
}
