//! `gdb`, of the run of two nodes that `trace` shows: packets of a debugger, and what comes back.

use crate::calls::{USAGE, show_to};
use crate::trace::{RECORD, ROW};
use std::alloc::Global;
use std::test::Fail;
use test_calls::calls::{Expected, Held, sure};
use test_calls::files::executable;

/// Why a run has stopped before anything was asked of it.
const FIRST: &str = "+$T05thread:00000001;#27";

/// Its last step is one of the second processor.
const END: &str = "+$T05thread:00000002;replaylog:end;#a3";

/// Its first step is one of the first processor.
const BEGINNING: &str = "+$T05thread:00000001;replaylog:begin;#70";

/// The registers of the first processor at the beginning, each with its low byte first: the stack
/// pointer is 7ffffff0, there are two processors, and the first instruction stands at 00010000.
const REGISTERS: &str = "+$0000000000000000f0ffff7f\
    00000000000000000000000000000000000000000000000000000000\
    0000000002000000\
    00000000000000000000000000000000000000000000000000000000000000000000000000000000\
    00000000000000000000000000000000000000000000000000000000000000000000000000000000\
    00000100#ce";

/// The second processor has loaded a 7 at the end, which stands in memory.
const SEVEN: &str = "+$07000000#87";

/// Of `where` at the beginning: `after 0 of 11 picks`, and `the nodes are at their start`.
const AT_START: &str =
    "+$61667465722030206f66203131207069636b730a746865206e6f646573206172652061742074686569\
    722073746172740a#0d";

/// Of `miss` the line of the trace with stamp 8.
const MISS: &str =
    "+$38206e6f646520313a203030303130303038206c772078362c2030287835293b2077616e7473203078\
    3030303230303030206f6620626c6f636b203020746f20726561642c20776869636820697320696e7661\
    6c69643b2073656e64732052656164206f6620626c6f636b203020746f20300a#bc";

/// After it the first processor has ended: of its thread it is told `exited`.
const EXITED: &str = "+$657869746564#89";

/// The second waits there: `waits for block 0`.
const WAITING: &str = "+$776169747320666f7220626c6f636b2030#b1";

/// At the beginning it `runs`.
const RUNS: &str = "+$72756e73#da";

/// After the miss the run stands at the second processor.
const AT_MISS: &str = "+$T05thread:00000002;#28";

/// Of `where` after it: five steps of processor 0 and two of processor 1 come before.
const BEHIND: &str =
    "+$61667465722037206f66203131207069636b732c20746865206c617374206f662070726f636573736f\
    7220300a746865206e6f6465732061726520626568696e6420746865206576656e74206f66206e6f6465\
    20312077697468207374616d7020380a#96";

/// Of `node 1` there: it waits, and wants block 0 to read, which is pending.
const WAITS: &str =
    "+$6e6f6465203120686173207374616d7020382c20616e642077616974730a77616e747320626c6f636b\
    203020746f20726561642c2077686963682069732070656e64696e673b2061636b7320300a#eb";

/// Of `block 0x2003f` there: home and owner are node 0, where it is exclusive.
const BLOCK: &str =
    "+$626c6f636b20302068617320686f6d6520302c206f776e657220300a6e6f646520303a206578636c75\
    736976652c2061207368617265720a6e6f646520313a2070656e64696e670a#34";

/// Of another `miss`: none comes, and the run is at its end.
const NO_MISS: &str =
    "+$6e6f206d69737320636f6d65733a207468652072756e2069732061742069747320656e640a#d0";

/// Of `where` there: the last pick is the call of processor 1 with stamp 15.
const AT_END: &str =
    "+$6166746572203131206f66203131207069636b732c20746865206c617374206f662070726f63657373\
    6f7220310a746865206e6f6465732061726520626568696e6420746865206576656e74206f66206e6f64\
    6520312077697468207374616d702031350a#56";

/// Of `back-to-write 0x20000`: nothing writes there.
const UNWRITTEN: &str =
    "+$6e6f7468696e672077726f74652069743a207468652072756e20697320617420697473207374617274\
    0a#92";

const OK: &str = "+$OK#9a";

/// The words of a call, the bytes that come from the debugger, the numbers of the reads that fail,
/// and the status, output and errors of the call.
type Session = (
    &'static str,
    &'static str,
    &'static [u64],
    u8,
    &'static [&'static str],
    &'static str,
);

/// B is the record with one entry changed, whose message isn't there yet.
static SESSIONS: [Session; 18] = [
    ("gdb IN R", "", &[], 0, &[], ""),
    ("gdb IN R", "$?#3f", &[], 0, &[FIRST], ""),
    ("gdb IN R", "$?#3f+$D#44$?#3f", &[], 0, &[FIRST, OK], ""),
    ("gdb IN R", "$g#67", &[], 0, &[REGISTERS], ""),
    (
        "gdb IN R",
        "$c#63+$p6#a6+$m20000,4#bf+$D#44",
        &[],
        0,
        &[END, SEVEN, SEVEN, OK],
        "",
    ),
    // back from the end, without checkpoints
    (
        "gdb IN R --memory 0",
        "$c#63+$bc#c5+$D#44",
        &[],
        0,
        &[END, BEGINNING, OK],
        "",
    ),
    ("gdb IN R --memory 1000001", "$?#3f", &[], 2, &[], USAGE),
    // there is nothing at 0, and nothing can be written
    (
        "gdb IN R",
        "$m0,4#fd$M20000,1:00#36$m20000,4#bf$k#6b",
        &[],
        0,
        &["+$E14#aa", "+$E30#a8", SEVEN, "+"],
        "",
    ),
    // a packet with another checksum, and one that is cut off
    ("gdb IN R", "$?#40$?#3", &[], 0, &["-"], ""),
    (
        "gdb IN R",
        "$?#3f",
        &[1],
        3,
        &[],
        "shasta: cannot read standard input\n",
    ),
    (
        "gdb IN R",
        "$?#3f$?#3f",
        &[6],
        3,
        &[FIRST],
        "shasta: cannot read standard input\n",
    ),
    (
        "gdb IN B",
        "$?#3f",
        &[1],
        7,
        &[],
        "shasta: record refused 44 at node 0 entry 2\n",
    ),
    (
        "gdb IN R --verify IN",
        "$?#3f",
        &[1],
        4,
        &[],
        "shasta: code refused 50 NoPlan\n",
    ),
    // the nodes are shown by commands, up to the miss and after it
    (
        "gdb IN R",
        "$qRcmd,7768657265#3e$qRcmd,6d697373#00$qRcmd,7768657265#3e$qRcmd,6e6f6465203\
            1#f5$qRcmd,626c6f636b2030783230303366#f2",
        &[],
        0,
        &[AT_START, MISS, BEHIND, WAITS, BLOCK],
        "",
    ),
    (
        "gdb IN R",
        "$qRcmd,6d697373#00$qRcmd,6d697373#00$qRcmd,7768657265#3e$qRcmd,6261636b2d746\
            f2d77726974652030783230303030#67$qRcmd,7768657265#3e",
        &[],
        0,
        &[MISS, NO_MISS, AT_END, UNWRITTEN, AT_START],
        "",
    ),
    // where the run stands after a miss, where none comes, and before the last write
    (
        "gdb IN R",
        "$?#3f$qRcmd,6d697373#00$?#3f$qRcmd,6d697373#00$?#3f$qRcmd,6261636b2d746\
            f2d77726974652030783230303030#67$?#3f",
        &[],
        0,
        &[FIRST, MISS, AT_MISS, NO_MISS, END, UNWRITTEN, BEGINNING],
        "",
    ),
    // what threads do, of which there are two: at the beginning, after the miss, and at the end
    (
        "gdb IN R",
        "$qThreadExtraInfo,2#b7$qRcmd,6d697373#00$qThreadExtraInfo,1#b6$qThreadExtraInfo,2#b7\
            $qThreadExtraInfo,3#b8$c#63$qThreadExtraInfo,2#b7",
        &[],
        0,
        &[RUNS, MISS, EXITED, WAITING, "+$E01#a6", END, EXITED],
        "",
    ),
    ("gdb IN R --node 1", "$?#3f", &[1], 2, &[], USAGE),
];

/// Serves a debugger where these files are held, and fails the test where it hears something else.
fn try_session(alloc: Global, held: Held<'_>, session: &Session) -> Result<(), Fail> {
    let (line, heard, fails, status, out, err) = *session;
    let answer = Expected { status, out, err };
    show_to(alloc, held, line, heard.as_bytes(), fails)?.expect(alloc, line, &answer)
}

/// Makes each session of a table where these files are held.
fn try_sessions(alloc: Global, files: &[(&str, &[u8])], sessions: &[Session]) -> Result<(), Fail> {
    let held = sure(files);
    for session in sessions {
        try_session(alloc, held, session)?;
    }
    Ok(())
}

#[test]
fn serves_a_debugger(rt: HostRuntime) -> Result<(), Fail> {
    let alloc = rt.alloc();
    let program = executable(alloc, ROW, &[7, 0, 0, 0], 64)?;
    let broken = RECORD.replace(alloc, "take 9 1 0", "take 8 1 0")?;
    let files = [
        ("IN", program.as_slice()),
        ("R", RECORD.as_bytes()),
        ("B", broken.as_bytes()),
    ];
    try_sessions(alloc, &files, &SESSIONS)
}
