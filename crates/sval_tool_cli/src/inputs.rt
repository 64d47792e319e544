//! The inputs, one after the other.

use crate::convert::{check_input, convert_input};
use crate::named::{Failure, NamedReader};
use crate::plain::{plain_target, run_plain};
use crate::trouble::Trouble;
use std::cell::Cell;
use std::io::{self, BufWriter, ErrorKind, Stdout};
use sval_io::{RealSink, RealSource, Sink};
use sval_tool::{Command, End, Options};

/// How many bytes of output are held back at most.
const BUFFER: usize = 1 << 16;

/// The output, behind a buffer.
pub(crate) type Out = RealSink<BufWriter<Stdout>>;

/// What is said of the output where it failed by an error of this kind: nothing where its reader closed it.
pub(crate) fn output_failed(rt: &HostRuntime, kind: Option<ErrorKind>) -> End {
    let _ = match kind {
        Some(ErrorKind::BrokenPipe) => return End::Done,
        Some(kind) => eprint!(rt; "sval: writing to standard output failed: {kind}\n"),
        None => eprint!(rt; "sval: writing to standard output failed\n"),
    };
    End::Fault
}

/// The hint where an input isn't opened: that for a part of a value, if its name reads as a filter of jq.
fn hint_of(name: &str, error: io::Error) -> &'static str {
    let bytes = name.as_bytes();
    if error.kind() == ErrorKind::NotFound && bytes.starts_with(b".") && !bytes.contains(&b'/') {
        return "hint: a part of a value is asked for as --pointer /user/name, not as .user.name\n";
    }
    ""
}

/// Tells how an input failed.
fn tell_read_fault(rt: &HostRuntime, name: &str, failed: Option<Failure>) -> io::Result<()> {
    match failed {
        Some(Failure::Open(error)) => {
            let hint = hint_of(name, error);
            eprint!(rt; "sval: {name}: {error}\n{hint}")
        }
        Some(Failure::Read(kind)) => eprint!(rt; "sval: {name}: reading failed: {kind}\n"),
        None => eprint!(rt; "sval: {name}: reading failed\n"),
    }
}

/// Tells what went wrong with an input, which failed last so if it did. The program ends with `end` for it, but well
/// where the output's reader closed it.
pub(crate) fn tell(
    rt: &HostRuntime,
    name: &str,
    failed: Option<Failure>,
    out: &Out,
    trouble: Trouble,
    end: End,
) -> End {
    let _ = match trouble {
        Trouble::Bad(text) => eprint!(rt; "{text}"),
        Trouble::Read => tell_read_fault(rt, name, failed),
        Trouble::NoMemory => eprint!(rt; "sval: {name}: out of memory\n"),
        Trouble::Write => return output_failed(rt, out.last_error()),
    };
    end
}

/// One input by its name, which is read to its end.
fn run_input(rt: &HostRuntime, options: &Options, name: &str, out: &mut Out) -> End {
    let failed = Cell::new(None);
    let source = RealSource::new(NamedReader::new(rt, name, options.progress, &failed));
    let done = match options.command {
        Command::Convert => convert_input(rt.alloc(), options, name, source, out),
        Command::Check => check_input(rt.alloc(), options, name, source),
    };
    match done {
        Ok(()) => End::Done,
        Err(trouble) => {
            // What is due of what came before is written first.
            let _ = out.flush();
            let end = trouble.end();
            tell(rt, name, failed.get(), out, trouble, end)
        }
    }
}

/// The inputs in their order. The first that is wrong ends a conversion; a check goes on.
fn run_names(rt: &HostRuntime, options: &Options, out: &mut Out) -> End {
    if options.files.is_empty() {
        return run_input(rt, options, "-", out);
    }
    let mut worst = End::Done;
    for name in &options.files {
        let end = run_input(rt, options, name.as_str(), out);
        if end != End::Done {
            if options.command == Command::Convert || end == End::Fault {
                return end;
            }
            worst = end;
        }
    }
    worst
}

/// Reads the inputs and writes what is due of them.
pub(crate) fn run_inputs(rt: &HostRuntime, options: &Options) -> End {
    let writer: io::Result<BufWriter<Stdout>> = BufWriter::with_capacity(
        rt.alloc(),
        BUFFER,
        rt.stdout(),
    );
    let Ok(writer) = writer else {
        let _ = eprint!(rt; "sval: out of memory\n");
        return End::Fault;
    };
    let mut out = RealSink::new(writer);
    let end = match plain_target(options) {
        Some(target) => run_plain(rt, options, target, &mut out),
        None => run_names(rt, options, &mut out),
    };
    match out.flush() {
        Ok(()) => end,
        Err(_) if end == End::Done => output_failed(rt, out.last_error()),
        Err(_) => end,
    }
}
