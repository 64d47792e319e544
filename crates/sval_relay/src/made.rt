//! A script that is made and served in memory, and what is told of it.

ghost use Rattle.std.specs.Prelude.{◌≡◌, ◌==◌, ◌++◌, ◌∷◌, [], ℕ, List, true, false, None, IfOk, IfErr, codes, decimal, length, pos};
ghost use Rattle.std.specs.List.{count_by};
ghost use Rattle.sval_label.specs.Calls.{Int, U64, TextBegin, TextFragment, TextEnd, Field};
ghost use Rattle.sval_core.specs.Law.{Emits};
ghost use Rattle.sval_core.specs.Values.{makes};
ghost use Rattle.sval_core.specs.ValueCalls.{item_calls, part_calls};
ghost use Rattle.sval_io.specs.Sinks.{WritesAll};
ghost use Rattle.sval_relay.specs.Verdict.{Text, one_in, IsRelayVerdict};
ghost use Rattle.sval_relay.specs.Made.{id_calls, name_calls, record_calls, made_calls, made_script, sizes_line, IsMadeLine, LacksRoomForLine, TellsMade};

use crate::relaying::{RelayError, relay};
use crate::way::Way;
use itoa::Buffer;
use std::alloc::Global;
use std::error::Error;
use std::fmt;
use sval_core::{Label, Lending, Stream, tags};
use sval_io::{Sink, SinkError, VecSink, write_all};
use sval_script::{PrintError, Printer};

/// Why the line of a made script wasn't written, or not whole.
#[derive(Clone, Copy, Debug, PartialEq, Eq)]
pub enum MadeError {
    /// The sink failed.
    Write,
    /// Memory was wanting.
    NoMemory,
}

impl fmt::Display for MadeError {
    ghost use Rattle.std.specs.Prelude.{Some};
    ghost use Rattle.sval_relay.specs.ErrorTexts.{made_error_text};

    ghost output = { λ error. Some (made_error_text error) };

    fn fmt<W: fmt::Write>(&self, f: &mut fmt::Formatter<W>) -> fmt::Result {
        f.write_str(match self {
            MadeError::Write => "write fault",
            MadeError::NoMemory => "out of memory",
        })
    }
}

impl Error for MadeError {}

impl From<SinkError> for MadeError {
    ghost use Rattle.sval_relay.specs.Made.{made_error};

    ghost from_gives = { λ error made. made ≡ made_error error };

    fn from(error: SinkError) -> MadeError {
        match error {
            SinkError::Failed => MadeError::Write,
            SinkError::NoMemory => MadeError::NoMemory,
        }
    }
}

/// Makes the script of a sequence of `count` records, serves it by [`relay`] in the way [`Way::Buffered`] into memory,
/// and writes one line `calls C json B` to the sink: how many lines the script has, and how many bytes its JSON.
///
/// The record of each number below `count` has the fields `id`, which is the number, and `name`, which is `n` and the
/// number's digits, as `{"id":7,"name":"n7"}`.
///
/// ```
/// let mut sink = VecSink::new(alloc);
/// relay_made(alloc, 2, &mut sink)?;
/// assert_eq!(rt; sink.as_slice(), b"calls 28 json 43\n".as_slice());
/// ```
///
/// # Errors
///
/// [`MadeError::Write`] comes only where the sink's count of faults rose, and of a sink that tells its room only where
/// the line has no place in it. [`MadeError::NoMemory`] leaves the sink as it was, unless the sink's own count of wants
/// rose. After the first, and where that count rose, a first part of the line may have been taken. The sink isn't
/// flushed.
pub fn relay_made<K: Sink>(alloc: Global, count: u32, out: &mut K) -> Result<(), MadeError>
    ensures tells { TellsMade K.told count result out.old out.new }
    ensures write_room { result ≡ Err MadeError.Write → LacksRoomForLine (K.told out.old) count }
{
    let sizes = measure(alloc, count)?;
    write_sizes(out, sizes)?;
    Ok(())
}

/// What is told of a script.
#[derive(Clone, Copy)]
struct Sizes {
    /// How many lines it has.
    calls: usize,
    /// How many bytes its JSON has.
    bytes: usize,
}

/// The sizes of the script of `count` records.
fn measure(alloc: Global, count: u32) -> Result<Sizes, MadeError>
    ensures line { IfOk result (λ sizes. IsMadeLine count (sizes_line sizes.calls sizes.bytes)) }
    ensures no_memory { IfErr result (λ why. why ≡ MadeError.NoMemory) }
{
    let printed = print_records(alloc, count)?;
    let script = printed.as_slice();
    Ok(Sizes {
        calls: count_lines(script),
        bytes: json_length(alloc, script)?,
    })
}

/// The script of `count` records.
fn print_records(alloc: Global, count: u32) -> Result<Vec<u8>, MadeError>
    ensures script { IfOk result (λ script. script.items ≡ made_script count) }
    ensures no_memory { IfErr result (λ why. why ≡ MadeError.NoMemory) }
{
    let mut printer = Printer::new(VecSink::new(alloc));
    match records(&mut printer, "n", count) {
        Ok(()) => Ok(printer.into_inner().into_vec()),
        Err(_) => match printer.why() {
            Some(PrintError::NoMemory) => Err(MadeError::NoMemory),
            _ => unreachable!("all its tags have names, and memory has no faults"),
        },
    }
}

/// How many lines a script has.
fn count_lines(script: &[u8]) -> usize
    ensures { result ≡ count_by (λ byte. byte == 10) script.now }
{
    let mut count = 0;
    for byte in script {
        if *byte == b'\n' {
            count += 1;
        }
    }
    count
}

/// How many bytes the JSON of a script has, where it has one.
fn json_length(alloc: Global, script: &[u8]) -> Result<usize, MadeError>
    requires { (text : List ℕ) × IsRelayVerdict (Text text) script.now (one_in Way.Buffered) }
    ensures bytes { IfOk result (λ bytes. (text : List ℕ)
        → IsRelayVerdict (Text text) script.now (one_in Way.Buffered) → bytes ≡ length text) }
    ensures no_memory { IfErr result (λ why. why ≡ MadeError.NoMemory) }
{
    let mut json = VecSink::new(alloc);
    match relay(alloc, script, Way::Buffered, &mut json) {
        Ok(()) => Ok(json.as_slice().len()),
        Err(RelayError::NoMemory) => Err(MadeError::NoMemory),
        Err(_) => unreachable!("the script has a text, and memory has no faults"),
    }
}

/// Writes `calls C json B` and a line feed.
fn write_sizes<K: Sink>(out: &mut K, sizes: Sizes) -> Result<(), SinkError>
    ensures { WritesAll result (K.told out.old) (sizes_line sizes.calls sizes.bytes) (K.told out.new) }
{
    write_size(out, b"calls ", sizes.calls)?;
    write_size(out, b" json ", sizes.bytes)?;
    write_all(out, b"\n")
}

/// Writes a word and a number.
fn write_size<K: Sink>(out: &mut K, word: &[u8], size: usize) -> Result<(), SinkError>
    ensures { WritesAll result (K.told out.old) (word.now ++ decimal size) (K.told out.new) }
{
    write_all(out, word)?;
    write_all(out, Buffer::new().format(size).as_bytes())
}

/// Streams the sequence of records. The text of the first fragment of each name is passed in, since only a caller that
/// knows the lending has one.
#[tactic(auto, using(crate::proofs::MadeStreams::of_numbers))]
fn records<L: Lending, S: Stream<L>>(
    stream: &mut S,
    first: L::Text,
    count: u32,
) -> sval_core::Result
    requires first { L.text first ≡ codes "n" }
    ensures { Emits S.law result (S.standing stream.old) (makes (made_calls count)) (S.standing stream.new) }
{
    stream.seq_begin(Some(count as usize))?;
    for number in 0..u64::from(count) {
        record_item(stream, first, &number)?;
    }
    stream.seq_end()
}

/// Streams the record of a number as an item.
#[tactic(auto, using(crate::proofs::MadeStreams::of_enclosed))]
fn record_item<L: Lending, S: Stream<L>>(
    stream: &mut S,
    first: L::Text,
    number: &u64,
) -> sval_core::Result
    requires first { L.text first ≡ codes "n" }
    ensures { Emits S.law result
        (S.standing stream.old) (makes (item_calls record_calls number.now)) (S.standing stream.new) }
{
    stream.seq_value_begin()?;
    record(stream, first, number)?;
    stream.seq_value_end()
}

/// Streams the record of a number.
#[tactic(auto, using(crate::proofs::MadeStreams::of_enclosed), unfolding(crate::specs::Made::record_calls))]
fn record<L: Lending, S: Stream<L>>(
    stream: &mut S,
    first: L::Text,
    number: &u64,
) -> sval_core::Result
    requires first { L.text first ≡ codes "n" }
    ensures { Emits S.law result (S.standing stream.old) (makes (record_calls number.now)) (S.standing stream.new) }
{
    stream.record_begin(None, None, None, Some(2))?;
    record_fields(stream, first, number)?;
    stream.record_end(None, None, None)
}

/// Streams the two fields of a record.
#[tactic(auto, using(crate::proofs::MadeStreams::of_joined))]
fn record_fields<L: Lending, S: Stream<L>>(
    stream: &mut S,
    first: L::Text,
    number: &u64,
) -> sval_core::Result
    requires first { L.text first ≡ codes "n" }
    ensures { Emits S.law result (S.standing stream.old)
        (makes (id_calls number.now ++ name_calls number.now)) (S.standing stream.new) }
{
    id_field(stream, number)?;
    name_field(stream, first, number)
}

/// Streams the field `id`.
fn id_field<L: Lending, S: Stream<L>>(stream: &mut S, number: &u64) -> sval_core::Result
    ensures { Emits S.law result (S.standing stream.old) (makes (id_calls number.now)) (S.standing stream.new) }
{
    let label = Label::new_computed("id").with_tag(&tags::VALUE_IDENT);
    number_field(stream, &label, number)
}

/// Streams the field `name`.
fn name_field<L: Lending, S: Stream<L>>(
    stream: &mut S,
    first: L::Text,
    number: &u64,
) -> sval_core::Result
    requires first { L.text first ≡ codes "n" }
    ensures { Emits S.law result (S.standing stream.old) (makes (name_calls number.now)) (S.standing stream.new) }
{
    let label = Label::new_computed("name").with_tag(&tags::VALUE_IDENT);
    text_field(stream, &label, first, Buffer::new().format(*number))
}

/// Streams a field that is a number.
fn number_field<L: Lending, S: Stream<L>>(
    stream: &mut S,
    label: &Label,
    number: &u64,
) -> sval_core::Result
    ensures { Emits S.law result (S.standing stream.old)
        (makes (part_calls (Field None label.now) (Int U64 (pos number.now) ∷ []))) (S.standing stream.new) }
{
    stream.record_value_begin(None, label)?;
    stream.u64(*number)?;
    stream.record_value_end(None, label)
}

/// Streams a field that is a text of two fragments.
fn text_field<L: Lending, S: Stream<L>>(
    stream: &mut S,
    label: &Label,
    first: L::Text,
    rest: &str,
) -> sval_core::Result
    ensures { let fragments = TextFragment true (L.text first) ∷ TextFragment false rest.now ∷ [] in
        Emits S.law result (S.standing stream.old)
        (makes (part_calls (Field None label.now) (TextBegin None ∷ (fragments ++ TextEnd ∷ []))))
        (S.standing stream.new) }
{
    stream.record_value_begin(None, label)?;
    stream.text_begin(None)?;
    stream.text_fragment(first)?;
    stream.text_fragment_computed(rest)?;
    stream.text_end()?;
    stream.record_value_end(None, label)
}
