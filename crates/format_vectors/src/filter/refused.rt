//! A call that a filter refuses.

use crate::shown::{holds, must};
use sval_core::Stream;
use sval_filter::{Filter, Paths, Rule, Why};
use sval_io::VecSink;
use sval_script::Printer;

#[test]
fn tells_why_it_refuses(rt: HostRuntime) {
    let paths = Paths::new(rt.alloc());
    let printer = Printer::new(VecSink::new(rt.alloc()));
    let mut filter = Filter::new(rt.alloc(), Rule::Drop, &paths, printer);
    let answers = [filter.seq_begin(Some(0)), filter.map_end()];
    holds(&rt, answers[0].is_ok(), "seq_begin");
    holds(&rt, answers[1].is_err(), "map_end");
    holds(&rt, filter.why() == Some(Why::NotViable), "why");
    holds(&rt, !filter.is_whole(), "before seq_end");
    must(&rt, filter.seq_end());
    holds(&rt, filter.is_whole(), "behind seq_end");
    let printed = filter.into_inner().into_inner();
    holds(
        &rt,
        printed.as_slice() == b"seq_begin 0\nseq_end\n".as_slice(),
        "what is printed",
    );
}
