//! Files and sinks that refuse one call, each in its turn.

use crate::calls::{call, rewritten, try_calls};
use crate::replays::NAMED;
use crate::watch::CountingGate;
use std::str::from_utf8;
use std::sync::Wait;
use std::test::Fail;
use std::thread::Threads;
use test_calls::calls::{Called, Expected, Faults, Held, NO_FAULTS};
use test_calls::files::executable;
use test_calls::samples::{READ, READS, WAITED};

/// A command, what is told where the first call of its files fails, where the second does, and so
/// on, and the text that it prints where none fails.
struct CommandRow {
    words: &'static str,
    lines: &'static [&'static str],
    text: &'static str,
}

/// The lines of the program that reads.
const LISTED: &str = "00010000: 000202b7 lui x5, 0x20
00010004: 00050463 beq x10, x0, 0x0001000c
00010008: 0002a303 lw x6, 0(x5)
0001000c: 00000513 addi x10, x0, 0
00010010: 05d00893 addi x17, x0, 93
00010014: 00000073 ecall
";

static COMMANDS: [CommandRow; 8] = [
    CommandRow {
        words: "list IN",
        lines: &["shasta: cannot read IN\n"],
        text: LISTED,
    },
    CommandRow {
        words: "one IN --nodes 2 --layout L",
        lines: &["shasta: cannot read IN\n", "shasta: cannot read L\n"],
        text: WAITED,
    },
    CommandRow {
        words: "sim IN --nodes 2 --layout L --code C",
        lines: &[
            "shasta: cannot read IN\n",
            "shasta: cannot read C\n",
            "shasta: cannot read L\n",
        ],
        text: READ,
    },
    CommandRow {
        words: "run IN --nodes 2 --record OUT --layout L --code C",
        lines: &[
            "shasta: cannot read IN\n",
            "shasta: cannot read C\n",
            "shasta: cannot read L\n",
            "shasta: cannot write OUT\n",
        ],
        text: READ,
    },
    CommandRow {
        words: "run IN --nodes 2 --record OUT",
        lines: &["shasta: cannot read IN\n", "shasta: cannot write OUT\n"],
        text: READ,
    },
    CommandRow {
        words: "replay IN R",
        lines: &["shasta: cannot read IN\n", "shasta: cannot read R\n"],
        text: READ,
    },
    CommandRow {
        words: "rewrite IN OUT",
        lines: &["shasta: cannot read IN\n", "shasta: cannot write OUT\n"],
        text: "",
    },
    CommandRow {
        words: "gen 0 OUT",
        lines: &["shasta: cannot write OUT\n"],
        text: "",
    },
];

/// Words, and the status that they have also where nothing can be told.
static UNTOLD: [(&str, u8); 5] = [
    ("", 2),
    ("list a", 3),
    ("list L", 4),
    ("one IN --layout R", 6),
    ("replay IN L", 7),
];

/// The errors fail, or are refused memory, at the first put.
const ERR_FAILS: Faults<'static> = Faults {
    err: &[1],
    ..NO_FAULTS
};

const ERR_REFUSED: Faults<'static> = Faults {
    err_memory: &[1],
    ..NO_FAULTS
};

/// The number of a put to the output, and that it fails, or is refused memory.
static PUTS: [(u64, Faults<'static>, Faults<'static>); 4] = [
    (
        1,
        Faults {
            out: &[1],
            ..NO_FAULTS
        },
        Faults {
            out_memory: &[1],
            ..NO_FAULTS
        },
    ),
    (
        2,
        Faults {
            out: &[2],
            ..NO_FAULTS
        },
        Faults {
            out_memory: &[2],
            ..NO_FAULTS
        },
    ),
    (
        3,
        Faults {
            out: &[3],
            ..NO_FAULTS
        },
        Faults {
            out_memory: &[3],
            ..NO_FAULTS
        },
    ),
    (
        4,
        Faults {
            out: &[4],
            ..NO_FAULTS
        },
        Faults {
            out_memory: &[4],
            ..NO_FAULTS
        },
    ),
];

/// The status and what is told where a put fails, and where it is refused memory.
const FAILED: (u8, &str) = (3, "shasta: cannot write output\n");

const REFUSED: (u8, &str) = (5, "shasta: out of memory\n");

/// A layout that changes nothing.
const LAYOUT: &[u8] = b"0x20000 0x40 64 0\n";

/// Makes the call of a command where each call of its files fails in turn, and at last none.
fn try_files(
    rt: &(impl Threads + Wait + Sync + AllocGlobal),
    files: &[(&str, &[u8])],
    command: &CommandRow,
) -> Result<(), Fail> {
    let mut number: u64 = 0;
    for line in command.lines.iter().chain([""].iter()) {
        number = number.saturating_add(1);
        let faults = Faults {
            files: &[number],
            ..NO_FAULTS
        };
        let held = Held { files, faults };
        let called = call(rt, held, command.words, "OUT", &CountingGate::new(false))?;
        let failed = !line.is_empty();
        let answer = Expected {
            status: if failed { 3 } else { 0 },
            out: &[if failed { "" } else { command.text }],
            err: line,
        };
        called.expect(rt.alloc(), command.words, &answer)?;
        if !called.written.is_empty() {
            let words = command.words;
            return Err(Fail::new(format_args!("{words}: OUT is written")));
        }
    }
    Ok(())
}

/// Whether a call was refused with a status and a line, and its output took a part of the text.
fn is_cut(called: &Called, text: &str, status: u8, line: &str) -> Result<bool, Fail> {
    let out = from_utf8(&called.out)?;
    let told = from_utf8(&called.err)? == line && called.status == status;
    Ok(told && text.starts_with(out) && out.len() < text.len())
}

/// Makes the call of a command where one put is to be refused, and fails the test where it isn't
/// told so; a put after the last one of its text is none, but there is a first one to each text.
fn try_put(
    rt: &(impl Threads + Wait + Sync + AllocGlobal),
    held: Held<'_>,
    command: &CommandRow,
    (status, line): (u8, &str),
    number: u64,
) -> Result<(), Fail> {
    let called = call(rt, held, command.words, "OUT", &CountingGate::new(false))?;
    if is_cut(&called, command.text, status, line)? {
        return Ok(());
    }
    if number == 1 && !command.text.is_empty() {
        let words = command.words;
        return Err(Fail::new(format_args!("{words}: no put is refused")));
    }
    let whole = Expected {
        status: 0,
        out: &[command.text],
        err: "",
    };
    called.expect(rt.alloc(), command.words, &whole)
}

#[test]
fn tells_which_call_failed(rt: HostRuntime) -> Result<(), Fail> {
    let file = executable(rt.alloc(), READS, b"\x07\x00\x00\x00", 64)?;
    let code = rewritten(&rt, &file)?;
    let files = [
        ("IN", file.as_slice()),
        ("C", code.as_slice()),
        ("L", LAYOUT),
        ("R", NAMED.as_bytes()),
    ];
    for command in &COMMANDS {
        try_files(&rt, &files, command)?;
        for &(number, fault, refusal) in &PUTS {
            let failing = Held {
                files: &files,
                faults: fault,
            };
            try_put(&rt, failing, command, FAILED, number)?;
            let refusing = Held {
                files: &files,
                faults: refusal,
            };
            try_put(&rt, refusing, command, REFUSED, number)?;
        }
    }
    Ok(())
}

/// Where the errors take nothing, by a fault or for want of memory, the status is the same.
#[test]
fn ends_with_its_status_untold(rt: HostRuntime) -> Result<(), Fail> {
    let file = executable(rt.alloc(), READS, b"", 64)?;
    let files = [
        ("IN", file.as_slice()),
        ("L", LAYOUT),
        ("R", NAMED.as_bytes()),
    ];
    for &(words, status) in &UNTOLD {
        let answer = Expected {
            status,
            out: &[],
            err: "",
        };
        let failing = Held {
            files: &files,
            faults: ERR_FAILS,
        };
        try_calls(&rt, failing, &[words], &answer)?;
        let refusing = Held {
            files: &files,
            faults: ERR_REFUSED,
        };
        try_calls(&rt, refusing, &[words], &answer)?;
    }
    Ok(())
}
