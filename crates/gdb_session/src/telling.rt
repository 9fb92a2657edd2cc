//! Texts of threads and stops.

ghost use Rattle.std.specs.Prelude.{◌≡◌, ◌++◌, OnOk};
ghost use Rattle.gdb_session.specs.Sessions.{doing_text, stop_text, signal_text, thread_digits};
ghost use Rattle.gdb_session.specs.Sessions.{separator, threads_below, why_text};
ghost use Rattle.gdb_remote.specs.Hexadecimal.{word_digits};
ghost use Rattle.std.specs.Fmt.{decimal};
ghost use Rattle.std.specs.Prelude.{codes};

use crate::target::{Doing, Stop, Why};
use gdb_remote::{PointKind, push_word};
use itoa::Buffer;
use std::alloc::AllocError;

/// Appends the number of a processor's thread.
pub(crate) fn push_thread(out: &mut Vec<u8>, processor: u16) -> Result<(), AllocError>
    ensures { OnOk result (out.new.items ≡ out.old.items ++ thread_digits processor) }
{
    push_word(out, u32::from(processor) + 1)
}

/// Appends the threads of the processors below a number.
#[tactic(auto, using(crate::proofs::Steps::threads_more))]
pub(crate) fn push_threads(out: &mut Vec<u8>, end: u16) -> Result<(), AllocError>
    ensures { OnOk result (out.new.items ≡ out.old.items ++ threads_below end) }
{
    for processor in 0..end {
        out.push(separator(processor))?;
        push_thread(out, processor)?;
    }
    Ok(())
}

/// What stands before a thread: an `m` before the first, and commas between.
fn separator(processor: u16) -> u8
    ensures { result ≡ separator processor }
{
    if processor == 0 { b'm' } else { b',' }
}

/// Appends what a processor does, in words.
pub(crate) fn push_doing(out: &mut Vec<u8>, doing: Doing) -> Result<(), AllocError>
    ensures { OnOk result (out.new.items ≡ out.old.items ++ doing_text doing) }
{
    match doing {
        Doing::Runs => out.extend_from_slice(b"runs"),
        Doing::Exited => out.extend_from_slice(b"exited"),
        Doing::Stopped => out.extend_from_slice(b"stopped by the budget"),
        Doing::Waits { block } => push_named(out, b"waits for block ", block),
    }
}

/// Appends a number in decimal digits after a name.
pub(crate) fn push_named(out: &mut Vec<u8>, name: &[u8], number: u32) -> Result<(), AllocError>
    ensures { OnOk result (out.new.items ≡ out.old.items ++ (name.now ++ decimal number)) }
{
    let mut buffer = Buffer::new();
    out.extend_from_slice(name)?;
    out.extend_from_slice(buffer.format(number).as_bytes())?;
    Ok(())
}

/// Appends where a run stopped, and why.
pub(crate) fn push_stop(out: &mut Vec<u8>, stop: Stop) -> Result<(), AllocError>
    ensures { OnOk result (out.new.items ≡ out.old.items ++ stop_text stop) }
{
    push_signal(out, stop.why)?;
    push_thread(out, stop.processor)?;
    out.push(b';')?;
    push_why(out, stop.why)
}

/// Appends the signal of a stop.
fn push_signal(out: &mut Vec<u8>, why: Why) -> Result<(), AllocError>
    ensures { OnOk result (out.new.items ≡ out.old.items ++ signal_text why) }
{
    match why {
        Why::Interrupted => out.extend_from_slice(b"T02thread:"),
        Why::Stepped | Why::Point { .. } | Why::Beginning | Why::End => {
            out.extend_from_slice(b"T05thread:")
        }
    }
}

/// Appends why a run stopped.
fn push_why(out: &mut Vec<u8>, why: Why) -> Result<(), AllocError>
    ensures { OnOk result (out.new.items ≡ out.old.items ++ why_text why) }
{
    match why {
        Why::Stepped | Why::Interrupted => Ok(()),
        Why::Beginning => out.extend_from_slice(b"replaylog:begin;"),
        Why::End => out.extend_from_slice(b"replaylog:end;"),
        Why::Point { kind, address } => push_point(out, kind, address),
    }
}

/// Appends the point to which a run came.
fn push_point(out: &mut Vec<u8>, kind: PointKind, address: u32) -> Result<(), AllocError>
    ensures { OnOk result (out.new.items ≡ out.old.items ++ why_text (Why.Point kind address)) }
{
    match kind {
        PointKind::Software => out.extend_from_slice(b"swbreak:;"),
        PointKind::Hardware => out.extend_from_slice(b"hwbreak:;"),
        PointKind::Write => push_watch(out, b"watch:", address),
        PointKind::Read => push_watch(out, b"rwatch:", address),
        PointKind::Access => push_watch(out, b"awatch:", address),
    }
}

/// Appends the address by which a watchpoint was met.
fn push_watch(out: &mut Vec<u8>, name: &[u8], address: u32) -> Result<(), AllocError>
    ensures { OnOk result
        (out.new.items ≡ out.old.items ++ (name.now ++ (word_digits address ++ codes ";"))) }
{
    out.extend_from_slice(name)?;
    push_word(out, address)?;
    out.push(b';')?;
    Ok(())
}
