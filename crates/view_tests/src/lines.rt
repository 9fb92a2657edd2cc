//! Lines of `trace` and of `time`.

use command_line::{View, view_of};
use dsm_io::Text;
use std::alloc::{AllocError, Global};
use std::test::Fail;
use test_calls::calls::words_of;

/// What of the trace of the record `r` of a run of `a` a line asks for, if it asks for one: from
/// what stamp, to what stamp, of the block of what address, and of what node.
type Asked = Option<(Option<u64>, Option<u64>, Option<u32>, Option<u8>)>;

static LINES: [(&str, Asked); 14] = [
    ("trace a r", Some((None, None, None, None))),
    (
        "trace --from 72057594037927935 a --to=0 r",
        Some((Some(72_057_594_037_927_935), Some(0), None, None)),
    ),
    (
        "trace a r --block=0xffffFFFF --node 15",
        Some((None, None, Some(4_294_967_295), Some(15))),
    ),
    ("trace a r --from 72057594037927936", None),
    ("trace a r --to 000000000000000000", None),
    ("trace a r --block 20000", None),
    ("trace a r --block 0x", None),
    ("trace a r --block 0x+1", None),
    ("trace a r --block 0x123456789", None),
    ("trace a r --node 16", None),
    ("trace --verify=v a r", Some((None, None, None, None))),
    ("trace a r --verify", None),
    ("trace a", None),
    ("trace a r --no-batch", None),
];

fn asked_of(alloc: Global, words: &[Text]) -> Result<Asked, AllocError> {
    match view_of(alloc, words) {
        Ok(Some(view)) => Ok(trace_of(&view)),
        Ok(None) => Ok(None),
        Err(error) => Err(error),
    }
}

fn trace_of(view: &View<'_>) -> Asked {
    match view {
        View::Trace {
            run,
            from,
            to,
            block,
            node,
        } if run.file == "a" && run.record_file == "r" => Some((*from, *to, *block, *node)),
        _ => None,
    }
}

/// Fails the test where a line asks for something else of a trace.
fn try_trace(alloc: Global, line: &str, wanted: &Asked) -> Result<(), Fail> {
    let words = words_of(alloc, line)?;
    if asked_of(alloc, &words)? == *wanted {
        return Ok(());
    }
    Err(Fail::new(format_args!("{line}")))
}

#[test]
fn reads_the_words_of_trace(rt: HostRuntime) -> Result<(), Fail> {
    for (line, wanted) in &LINES {
        try_trace(rt.alloc(), line, wanted)?;
    }
    Ok(())
}

/// What of a run of `a` by a clock a line asks for, if it asks for one: how many nodes, the budget,
/// the verified file, the layout, whether there are no batches, and what messages cost.
type Run = Option<
    (
        u8,
        u64,
        Option<&'static str>,
        Option<&'static str>,
        bool,
        [u32; 3],
    ),
>;

static RUNS: [(&str, Run); 12] = [
    (
        "time a",
        Some((1, 100_000_000, None, None, false, [1200, 300, 300])),
    ),
    (
        "time --latency 0 --nodes=16 a --line=1000000 --budget 5 --handling 0000000007 --no-batch",
        Some((16, 5, None, None, true, [0, 1_000_000, 7])),
    ),
    (
        "time a --verify v --layout=l",
        Some((
            1,
            100_000_000,
            Some("v"),
            Some("l"),
            false,
            [1200, 300, 300],
        )),
    ),
    ("time a --latency 1000001", None),
    ("time a --line=1000001", None),
    ("time a --handling 4294967297", None),
    ("time a --line=-1", None),
    ("time a --handling", None),
    ("time a --handling 1 --handling 1", None),
    ("time a --verify v --no-batch", None),
    ("time a --order 1", None),
    ("time a r", None),
];

fn run_of(alloc: Global, words: &[Text]) -> Result<Run, AllocError> {
    match view_of(alloc, words) {
        Ok(Some(view)) => Ok(time_of(&view)),
        Ok(None) => Ok(None),
        Err(error) => Err(error),
    }
}

fn time_of(view: &View<'_>) -> Run {
    match view {
        View::Time(asked) if asked.file == "a" => Some((
            asked.nodes.as_u8(),
            asked.budget.number(),
            known(asked.verified),
            known(asked.layout),
            asked.no_batch,
            [
                asked.latency.as_u32(),
                asked.line.as_u32(),
                asked.handling.as_u32(),
            ],
        )),
        _ => None,
    }
}

/// A name that stands in the table.
fn known(name: Option<&str>) -> Option<&'static str> {
    match name {
        None => None,
        Some("v") => Some("v"),
        Some("l") => Some("l"),
        Some(_) => Some(""),
    }
}

/// Fails the test where a line asks for another run by a clock.
fn try_time(alloc: Global, line: &str, wanted: &Run) -> Result<(), Fail> {
    let words = words_of(alloc, line)?;
    if run_of(alloc, &words)? == *wanted {
        return Ok(());
    }
    Err(Fail::new(format_args!("{line}")))
}

#[test]
fn reads_the_words_of_time(rt: HostRuntime) -> Result<(), Fail> {
    for (line, wanted) in &RUNS {
        try_time(rt.alloc(), line, wanted)?;
    }
    Ok(())
}
