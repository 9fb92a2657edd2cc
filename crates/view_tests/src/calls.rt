//! Calls of the viewer on files in memory.

use byte_source::MemSource;
use std::alloc::Global;
use std::test::Fail;
use test_calls::calls::{Called, Expected, Held, Outside, expect_text, sure, words_of};
use views::shasta_view;

/// How the viewer is called.
pub(crate) const USAGE: &str = "usage: shasta_view code IN [--verify FILE | --no-batch]
       shasta_view cost IN [RECORD] [--verify FILE | --no-batch]
       shasta_view trace IN RECORD [--verify FILE] [--from S] [--to S] [--block 0xA] [--node I]
       shasta_view blocks IN RECORD [--verify FILE]
       shasta_view page IN RECORD OUT [--verify FILE] [--from S] [--to S]
       shasta_view time IN [--nodes N] [--budget B] [--layout FILE] [--verify FILE | --no-batch] \
    [--latency L] [--line P] [--handling H]
       shasta_view speedup IN OUT [--nodes N] [--budget B] [--layout FILE] \
    [--verify FILE | --no-batch] [--latency L] [--line P] [--handling H]
       shasta_view gdb IN RECORD [--verify FILE] [--memory M]
       shasta_view --help
";

/// Calls the viewer on files with these words, with spaces between them, and then reads OUT.
pub(crate) fn show(alloc: Global, held: Held<'_>, line: &str) -> Result<Called, Fail> {
    show_to(alloc, held, line, b"", &[])
}

/// Calls the viewer so where these bytes come from the standard input. Its reads with these numbers
/// fail.
pub(crate) fn show_to(
    alloc: Global,
    held: Held<'_>,
    line: &str,
    heard: &[u8],
    fails: &[u64],
) -> Result<Called, Fail> {
    let words = words_of(alloc, line)?;
    let mut outside = Outside::of(alloc, held)?;
    let mut source = MemSource::new(heard.to_vec(alloc)?, fails.to_vec(alloc)?);
    let status = shasta_view(
        alloc,
        &words,
        &mut outside.files,
        &mut source,
        &mut outside.out,
        &mut outside.err,
    );
    outside.left(alloc, status, "OUT")
}

/// A call, and its status, output and errors.
pub(crate) type Row = (&'static str, u8, &'static [&'static str], &'static str);

/// Calls the viewer, and fails the test where it answers otherwise.
pub(crate) fn try_view(alloc: Global, held: Held<'_>, row: &Row) -> Result<(), Fail> {
    let (line, status, out, err) = *row;
    let answer = Expected { status, out, err };
    show(alloc, held, line)?.expect(alloc, line, &answer)
}

/// Makes each call of a table where these files are held.
pub(crate) fn try_views(alloc: Global, files: &[(&str, &[u8])], rows: &[Row]) -> Result<(), Fail> {
    let held = sure(files);
    for row in rows {
        try_view(alloc, held, row)?;
    }
    Ok(())
}

/// What OUT holds before a call that writes it.
pub(crate) const BEFORE: &str = "before";

/// Makes a call, fails the test where it answers otherwise, and gives what OUT then holds.
pub(crate) fn written(alloc: Global, files: &[(&str, &[u8])], row: &Row) -> Result<Vec<u8>, Fail> {
    let (line, status, out, err) = *row;
    let answer = Expected { status, out, err };
    let called = show(alloc, sure(files), line)?;
    called.expect(alloc, line, &answer)?;
    Ok(called.written)
}

/// Makes each call of a table that leaves OUT as it was, and fails the test where one doesn't.
pub(crate) fn try_unwritten(
    alloc: Global,
    files: &[(&str, &[u8])],
    rows: &[Row],
) -> Result<(), Fail> {
    for row in rows {
        expect_text(&written(alloc, files, row)?, BEFORE)?;
    }
    Ok(())
}
