//! Calls of the program on files in memory.

use crate::watch::CountingGate;
use commands::shasta;
use std::sync::Wait;
use std::test::Fail;
use std::thread::Threads;
use test_calls::calls::{Called, Expected, Held, Outside, sure, words_of};

/// Calls the program on files with these words, with spaces between them, and with a gate that each
/// worker passes before its events; and then reads the file that the call may write.
pub(crate) fn call(
    rt: &(impl Threads + Wait + Sync + AllocGlobal),
    held: Held<'_>,
    line: &str,
    written: &str,
    gate: &CountingGate,
) -> Result<Called, Fail> {
    let alloc = rt.alloc();
    let words = words_of(alloc, line)?;
    let mut outside = Outside::of(alloc, held)?;
    let status = shasta(
        rt,
        alloc,
        &words,
        &mut outside.files,
        &mut outside.out,
        &mut outside.err,
        gate,
    );
    outside.left(alloc, status, written)
}

/// Makes each call where these files are held, and fails the test where it answers otherwise.
pub(crate) fn try_calls(
    rt: &(impl Threads + Wait + Sync + AllocGlobal),
    held: Held<'_>,
    calls: &[&str],
    answer: &Expected<'_>,
) -> Result<(), Fail> {
    let alloc = rt.alloc();
    let gate = CountingGate::new(false);
    for line in calls {
        call(rt, held, line, "", &gate)?.expect(alloc, line, answer)?;
    }
    Ok(())
}

/// Makes each call where no call of a file or a sink fails.
pub(crate) fn try_held(
    rt: &(impl Threads + Wait + Sync + AllocGlobal),
    files: &[(&str, &[u8])],
    calls: &[&str],
    answer: &Expected<'_>,
) -> Result<(), Fail> {
    try_calls(rt, sure(files), calls, answer)
}

/// The file that `rewrite` makes of an executable.
pub(crate) fn rewritten(
    rt: &(impl Threads + Wait + Sync + AllocGlobal),
    file: &[u8],
) -> Result<Vec<u8>, Fail> {
    let line = "rewrite IN OUT";
    let called = call(
        rt,
        sure(&[("IN", file)]),
        line,
        "OUT",
        &CountingGate::new(false),
    )?;
    let answer = Expected {
        status: 0,
        out: &[],
        err: "",
    };
    called.expect(rt.alloc(), line, &answer)?;
    Ok(called.written)
}
