//! Scripts, right and spoiled in one place, in each form, with what each is to give.

use super::kinds::{Kind, each_kind, together};
use crate::forms::{FORMS, Text, takes_many, text_of};
use crate::shown::{must, push};
use std::alloc::Global;
use std::process::Abort;

/// How a script is spoiled.
#[derive(Clone, Copy)]
struct Flaw {
    /// The lines before it.
    before: &'static str,
    /// The lines behind it.
    behind: &'static str,
    /// The status of a form that writes JSON.
    status: u8,
    /// What is written before its JSON, and behind it.
    around: (&'static str, &'static str),
}

/// A script as it is.
const NO_FLAW: Flaw = Flaw {
    before: "",
    behind: "",
    status: 0,
    around: ("", ""),
};

/// A script as it is; with a line behind it that is no call, or with which no value goes on; inside a sequence that
/// doesn't end; and in a sequence before a map whose key is a sequence, or before a number with a letter.
const FLAWS: [Flaw; 6] = [
    NO_FLAW,
    Flaw {
        before: "",
        behind: "nil\n",
        status: 3,
        around: ("", ""),
    },
    Flaw {
        before: "",
        behind: "seq_end\n",
        status: 4,
        around: ("", ""),
    },
    Flaw {
        before: "seq_begin -\nseq_value_begin\n",
        behind: "seq_value_end\n",
        status: 5,
        around: ("", ""),
    },
    Flaw {
        before: "seq_begin -\nseq_value_begin\n",
        behind: "seq_value_end\nseq_value_begin\nmap_begin -\nmap_key_begin\nseq_begin -\nseq_end\nmap_key_end\n\
            map_value_begin\nnull\nmap_value_end\nmap_end\nseq_value_end\nseq_end\n",
        status: 6,
        around: ("[", ",{\""),
    },
    Flaw {
        before: "seq_begin -\nseq_value_begin\n",
        behind: "seq_value_end\nseq_value_begin\ntagged_begin NUMBER - -\ntext_begin 2\ntext_fragment =3178\ntext_end\n\
            tagged_end NUMBER - -\nseq_value_end\nseq_end\n",
        status: 7,
        around: ("[", ",1"),
    },
];

impl Flaw {
    /// Whether nothing is written of it.
    fn is_silent(self) -> bool {
        self.status == 3 || self.status == 4 || self.status == 5
    }

    /// A script, spoiled.
    fn spoil(self, rt: &impl Abort, alloc: Global, script: &str) -> String {
        must(
            rt,
            format!(in alloc; "{}{script}{}", self.before, self.behind),
        )
    }

    /// What is written of a spoiled script whose value has this JSON, where many values are taken behind one that
    /// isn't.
    fn json(self, rt: &impl Abort, alloc: Global, json: &str, many: bool) -> String {
        let (before, behind) = self.around;
        let written = if self.is_silent() {
            Ok(String::new(alloc))
        } else if !many {
            format!(in alloc; "{before}{json}{behind}")
        } else if self.status == 0 {
            format!(in alloc; "{json}\n{json}\n")
        } else {
            format!(in alloc; "{json}\n{before}{json}{behind}")
        };
        must(rt, written)
    }

    /// What is written of a spoiled script that has this canonical one. Any key is printed, and any number.
    fn calls(self, rt: &impl Abort, alloc: Global, calls: &str, many: bool) -> String {
        if self.is_silent() {
            return String::new(alloc);
        }
        let first = if many { calls } else { "" };
        must(
            rt,
            format!(in alloc; "{first}{}{calls}{}", self.before, self.behind),
        )
    }

    /// The status of a form that writes this.
    fn status(self, text: Text) -> u8 {
        match text {
            Text::Calls if !self.is_silent() => 0,
            _ => self.status,
        }
    }
}

/// What is told of a status, for a script of `lines` lines.
fn told(rt: &impl Abort, alloc: Global, status: u8, many: bool, lines: usize) -> String {
    let told = match status {
        3 => format!(in alloc; "line {lines}: not a call\n"),
        4 => format!(in alloc; "line {lines}: no value goes on with this call\n"),
        5 if many => String::from_str(alloc, "the calls are not whole values\n"),
        5 => String::from_str(alloc, "the calls are not one whole value\n"),
        6 => String::from_str(alloc, "attempt to serialize a non-string key\n"),
        7 => String::from_str(alloc, "attempt to serialize an invalid number\n"),
        _ => Ok(String::new(alloc)),
    };
    must(rt, told)
}

/// A script, and what a form gives for it over devices that don't fail.
#[derive(Drop)]
pub(crate) struct Case {
    pub(crate) form: &'static str,
    pub(crate) script: String,
    pub(crate) out: String,
    status: u8,
    diag: String,
}

/// A status, what was written, and what was told.
pub(crate) type Answer<'a> = (u8, &'a [u8], &'a [u8]);

impl Case {
    /// What the form gives for it.
    pub(crate) fn answer(&self) -> Answer<'_> {
        (self.status, self.out.as_bytes(), self.diag.as_bytes())
    }

    /// The script of a kind, spoiled; behind one that isn't where the form takes many values.
    fn new(rt: &impl Abort, alloc: Global, kind: &Kind, flaw: Flaw, form: &'static str) -> Case {
        let many = takes_many(form);
        let mut script = String::new(alloc);
        if many {
            push(rt, &mut script, &kind.script);
        }
        push(rt, &mut script, &flaw.spoil(rt, alloc, &kind.script));
        let text = text_of(form);
        let out = match text {
            Text::Inside => flaw.json(rt, alloc, &kind.inside, many),
            Text::Beside => flaw.json(rt, alloc, &kind.beside, many),
            Text::Calls => flaw.calls(rt, alloc, &kind.canonical, many),
        };
        let status = flaw.status(text);
        let diag = told(rt, alloc, status, many, script.lines().count());
        Case {
            form,
            script,
            out,
            status,
            diag,
        }
    }
}

/// The script of a kind with this flaw, in each form.
fn add_cases(rt: &impl Abort, alloc: Global, kind: &Kind, flaw: Flaw, cases: &mut Vec<Case>) {
    for form in &FORMS {
        must(rt, cases.push(Case::new(rt, alloc, kind, flaw, *form)));
    }
}

/// The script of each kind with each flaw, and one of the values of all kinds, in each form.
pub(crate) fn each_case(rt: &impl Abort, alloc: Global) -> Vec<Case> {
    let mut cases = Vec::new(alloc);
    let kinds = each_kind(rt, alloc);
    for kind in &kinds {
        for flaw in &FLAWS {
            add_cases(rt, alloc, kind, *flaw, &mut cases);
        }
    }
    let all = together(rt, alloc, &kinds);
    add_cases(rt, alloc, &all, NO_FLAW, &mut cases);
    cases
}

/// Compares what a case came to over a device, which was of this size or failed at this call, with what is due.
pub(crate) fn compare(rt: &impl Abort, case: &Case, at: usize, ran: Answer<'_>, due: Answer<'_>) {
    let is_due = ran.0 == due.0 && ran.1 == due.1 && ran.2 == due.2;
    assert!(rt;
        is_due,
        "{} at {at}, status {}: {:?}",
        case.form, ran.0, case.script
    );
}
