//! Readings that are checked, added up, written and captured.

use crate::shown::{copy_of, holds, must, shows, writes};
use readings::{Reading, Readings, Report, check_readings, to_json, total_of};
use std::alloc::Global;
use std::process::Abort;
use sval_buffer::ValueBuf;

/// A note and two measures.
fn three_readings(rt: &impl Abort, alloc: Global) -> Readings {
    let readings = vec![in alloc;
        Reading::Note(copy_of(rt, alloc, "tea \"green\"")),
        Reading::Measure(-95),
        Reading::Measure(100),
    ];
    Readings {
        readings: must(rt, readings),
    }
}

/// Their JSON.
const JSON: &str = "[\"tea \\\"green\\\"\",-95,100]";

#[test]
fn serves_readings(rt: HostRuntime) {
    let alloc = rt.alloc();
    let readings = three_readings(&rt, alloc);
    let answer = check_readings(alloc, &readings);
    holds(&rt, answer.is_ok(), "they are whole");
    holds(&rt, total_of(&readings) == Some(5), "their total");
    let bytes = must(&rt, to_json(alloc, &readings));
    shows(&rt, String::from_utf8(bytes), JSON);
    let captured = must(&rt, ValueBuf::collect(alloc, &readings));
    writes(&rt, alloc, &captured, JSON);
}

#[test]
fn writes_a_report(rt: HostRuntime) {
    let report = Report {
        title: copy_of(&rt, rt.alloc(), "tea"),
        readings: three_readings(&rt, rt.alloc()),
    };
    writes(
        &rt,
        rt.alloc(),
        &report,
        r#"{"title":"tea","readings":["tea \"green\"",-95,100]}"#,
    );
}
