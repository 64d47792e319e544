//! What checking says, and what a checked stream passes on.

ghost use Rattle.sval_label.specs.Made.{lent_call};
ghost use Rattle.sval_core.specs.Law.{Answers};
ghost use Rattle.sval_core.specs.Lenient.{lenient, with_wants};

use crate::cases::{must, push};
use std::alloc::Global;
use std::process::Abort;
use sval_check::{Checked, check};
use sval_core::{Call, Lent, Result as Answer, Stream, Value, refusal};
use sval_ref::ValueRef;
use sval_script::{Script, ScriptSlice};

/// Counts the calls that it takes, up to `room`.
#[derive(Drop)]
struct Counted {
    taken: usize,
    room: usize,
    wants: u64,
}

impl<'v> Stream<Lent<'v>> for Counted {
    ghost View = { Unit {0} };

    ghost law = { lenient };

    ghost standing = { λ counted. with_wants counted.wants };

    fn take(&mut self, call: Call<'v, '_>) -> Answer
        ensures { Answers lenient result
            (with_wants self.old.wants) (lent_call call.entry) (with_wants self.new.wants) }
    {
        if self.taken >= self.room {
            self.wants = self.wants.saturating_add(1);
            return refusal();
        }
        self.taken = self.taken.saturating_add(1);
        Ok(())
    }
}

/// A checked stream over one that takes `room` calls.
fn checked_with(alloc: Global, room: usize) -> Checked<Counted> {
    Checked::new(
        alloc,
        Counted {
            taken: 0,
            room,
            wants: 0,
        },
    )
}

/// What checking says of these calls.
pub(crate) fn spelled(rt: &impl Abort, alloc: Global, script: &Script) -> String {
    let answer = check(alloc, script);
    must(rt, format!(in alloc; "{answer:?}"))
}

/// Whether what was passed on is one value, and how many calls that was.
fn told(rt: &impl Abort, alloc: Global, checked: Checked<Counted>) -> String {
    let whole = checked.is_whole();
    let taken = checked.into_inner().taken;
    must(rt, format!(in alloc; "whole: {whole}, passed on: {taken}"))
}

/// What is passed on of these calls, before one is refused.
pub(crate) fn passed(rt: &impl Abort, alloc: Global, script: &Script) -> String {
    let mut checked = checked_with(alloc, usize::MAX);
    let _answer = script.stream(&mut checked);
    told(rt, alloc, checked)
}

/// Whether the call of a line is taken, and then why the last that wasn't was refused and whether the calls so far are
/// one value.
fn answer(
    rt: &impl Abort,
    alloc: Global,
    line: &ScriptSlice<'_>,
    checked: &mut Checked<Counted>,
) -> String {
    let taken = line.stream_ref(checked).is_ok();
    let why = checked.why();
    let whole = checked.is_whole();
    let answer = format!(in alloc; "taken: {taken}, why: {why:?}, whole: {whole}\n");
    must(rt, answer)
}

/// What is answered to each call, and what is told in the end.
pub(crate) fn answers(rt: &impl Abort, alloc: Global, script: &Script, room: usize) -> String {
    let mut checked = checked_with(alloc, room);
    let mut seen = String::new(alloc);
    for at in 0..script.line_count() {
        let Some(line) = script.slice(at, at + 1) else {
            break;
        };
        push(rt, &mut seen, &answer(rt, alloc, &line, &mut checked));
    }
    push(rt, &mut seen, &told(rt, alloc, checked));
    seen
}

/// Texts of two bytes, and a sequence without an end.
pub(crate) const SPELLED: &'static str = r#"
text_begin 2
text_fragment_computed =6162
text_end
= Ok(())

text_begin 1
text_fragment_computed =6162
text_end
= Err(BadCall { at: 2 })

text_begin 3
text_fragment_computed =6162
text_end
= Err(BadCall { at: 3 })

seq_begin -
= Err(Unfinished)
"#;

/// Bytes and entries are counted, labels compared by their texts and indexes by their numbers, and enums and tagged
/// values looked into.
pub(crate) const COMPLETED: &'static str = r#"
binary_begin 2
binary_fragment_computed =0102
binary_end
null
= whole: true, passed on: 3

map_begin 1
map_key_begin
null
map_key_end
map_value_begin
u8 1
map_value_end
map_end
= whole: true, passed on: 8

map_begin -
map_key_begin
null
map_key_end
map_end
= whole: false, passed on: 4

record_begin - - - 1
record_value_begin - =6669656c64:VALUE_IDENT
null
record_value_end - =6669656c64
record_end - - -
= whole: true, passed on: 5

record_begin - - - 1
record_value_begin - =6669656c64:VALUE_IDENT
null
record_value_end - =6f74686572
record_end - - -
= whole: false, passed on: 3

tuple_begin - - 1 1
tuple_value_begin - 1
null
tuple_value_end - 1:VALUE_OFFSET
tuple_end - - 1
= whole: true, passed on: 5

tuple_begin - - 1 1
tuple_value_begin - 1
null
tuple_value_end - 2
tuple_end - - 1
= whole: false, passed on: 3

enum_begin NUMBER - -
tag_hint NUMBER
tagged_begin NUMBER - -
text_begin -
text_end
tagged_end NUMBER - -
enum_end NUMBER - -
= whole: true, passed on: 7

tagged_begin NUMBER - -
null
= whole: false, passed on: 1

enum_begin NUMBER - -
seq_begin -
= whole: false, passed on: 1

enum_begin NUMBER - -
tag NUMBER - -
= whole: false, passed on: 2
"#;

/// A text with calls between that no value has, and no call.
pub(crate) const VIABLE: &'static str = r#"
text_end
text_begin 2
null
text_fragment =6162
text_fragment_computed =63
text_end
= taken: false, why: Some(NotViable), whole: false␊taken: true, why: Some(NotViable), whole: false␊taken: false, why: Some(NotViable), whole: false␊taken: true, why: Some(NotViable), whole: false␊taken: false, why: Some(NotViable), whole: false␊taken: true, why: Some(NotViable), whole: true␊whole: true, passed on: 3

␄
= whole: false, passed on: 0
"#;

/// A map whose key the inner stream has no room for.
pub(crate) const REFUSED_INSIDE: &'static str = r#"
map_begin 1
map_key_begin
null
map_key_begin
= taken: true, why: None, whole: false␊taken: false, why: Some(Inner), whole: false␊taken: false, why: Some(NotViable), whole: false␊taken: false, why: Some(Inner), whole: false␊whole: false, passed on: 1
"#;
