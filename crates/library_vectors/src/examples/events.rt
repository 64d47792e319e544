//! Events that are recorded and written.

use super::structs::{EVENT, disk_is_full};
use crate::shown::{holds, must, shows};
use event_log::EventLog;
use std::alloc::Global;
use std::collections::BTreeMap;
use std::io::Write;
use std::process::Abort;
use sval_io::{RealSink, Sink, VecSink};

/// An event: a level and a message.
fn event<'a>(
    rt: &impl Abort,
    alloc: Global,
    level: &'a str,
    message: &'a str,
) -> BTreeMap<&'a str, &'a str> {
    let mut event = BTreeMap::new(alloc);
    must(rt, event.insert("level", level));
    must(rt, event.insert("message", message));
    event
}

/// Records an event.
fn record(rt: &impl Abort, alloc: Global, log: &mut EventLog<'_>, level: &str, message: &str) {
    must(rt, log.record(&event(rt, alloc, level, message)));
}

#[test]
fn keeps_the_two_newest(rt: HostRuntime) {
    let alloc = rt.alloc();
    let mut log = must(&rt, EventLog::new(alloc, 2));
    record(&rt, alloc, &mut log, "info", "started");
    record(&rt, alloc, &mut log, "warning", "disk \"a\" is full");
    record(&rt, alloc, &mut log, "error", "stopped");
    holds(&rt, log.len() == 2, "the log holds two");
    let mut sink = VecSink::new(alloc);
    must(&rt, log.write_lines(&mut sink));
    shows(
        &rt,
        String::from_utf8(sink.into_vec()),
        "{\"level\":\"warning\",\"message\":\"disk \\\"a\\\" is full\"}\n{\"level\":\"error\",\"message\":\"stopped\"}\n",
    );
    log.clear();
    holds(&rt, log.is_empty(), "the log is empty");
}

/// Writes a log out, as a program does that passes `rt.stdout()`.
fn write_out<W: Write + Drop>(rt: &impl Abort, log: &EventLog<'_>, writer: W) {
    let mut sink = RealSink::new(writer);
    holds(rt, log.write_lines(&mut sink).is_ok(), "it is written");
    holds(rt, sink.flush().is_ok(), "it is flushed");
}

#[test]
fn writes_to_a_writer(rt: HostRuntime) {
    let alloc = rt.alloc();
    let mut log = must(&rt, EventLog::new(alloc, 8));
    record(&rt, alloc, &mut log, "info", "started");
    let mut written = Vec::new(alloc);
    write_out(&rt, &log, &mut written);
    shows(
        &rt,
        String::from_utf8(written),
        "{\"level\":\"info\",\"message\":\"started\"}\n",
    );
}

#[test]
fn keeps_a_struct(rt: HostRuntime) {
    let alloc = rt.alloc();
    let mut log = must(&rt, EventLog::new(alloc, 1));
    must(&rt, log.record(&disk_is_full(&rt, alloc)));
    let mut sink = VecSink::new(alloc);
    must(&rt, log.write_lines(&mut sink));
    let line = must(&rt, format!(in alloc; "{EVENT}\n"));
    shows(&rt, String::from_utf8(sink.into_vec()), line.as_str());
}
