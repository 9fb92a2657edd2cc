//! Answers to what only looks.

ghost use Rattle.std.specs.Prelude.{◌≡◌, ◌++◌, ◌+◌, ◌<◌, ◌≤◌, OnOk};
ghost use Rattle.gdb_remote.specs.Hexadecimal.{bytes_digits};
ghost use Rattle.gdb_session.specs.Sessions as model;

use crate::description::push_description;
use crate::session::Session;
use crate::target::{PC, Target};
use crate::telling::{push_stop, push_thread, push_threads};
use gdb_remote::{Look, Thread, push_bytes};
use std::alloc::{AllocError, Global};

/// As many bytes are told at once.
const MOST_BYTES: u64 = 1024;

/// Appends the answer to what only looks.
pub(crate) fn push_look<T: Target>(
    alloc: Global,
    session: &Session,
    target: &T,
    look: Look,
    out: &mut Vec<u8>,
) -> Result<(), AllocError>
    ensures { OnOk result
        (out.new.items ≡ out.old.items ++ model.look_text session.now (T.view target.now) look) }
{
    match look {
        Look::Status => push_stop(out, session.stop),
        Look::Registers => push_all_registers(out, session, target),
        Look::Register { number } => push_one_register(out, session, target, number),
        Look::Memory { address, length } => push_memory(out, session, target, address, length),
        Look::Features => push_features(out),
        Look::Description { offset, length } => push_description(alloc, out, offset, length),
        Look::Threads => push_threads(out, target.processors()),
        Look::MoreThreads => out.extend_from_slice(b"l"),
        Look::IsAlive { thread } => push_is_alive(out, target, thread),
        Look::CurrentThread => {
            out.extend_from_slice(b"QC")?;
            push_thread(out, session.general)
        }
        Look::Attached => out.extend_from_slice(b"1"),
        Look::Actions => out.extend_from_slice(b"vCont;c;C;s;S"),
    }
}

/// Appends what the target can do.
#[tactic(auto, unfolding(crate::specs::Sessions::features))]
fn push_features(out: &mut Vec<u8>) -> Result<(), AllocError>
    ensures { OnOk result (out.new.items ≡ out.old.items ++ model.features) }
{
    out.extend_from_slice(
        b"PacketSize=1000;QStartNoAckMode+;qXfer:features:read+;swbreak+;hwbreak+;",
    )?;
    out.extend_from_slice(b"vContSupported+;ReverseStep+;ReverseContinue+")
}

/// Appends all registers of the processor that is looked at.
fn push_all_registers<T: Target>(
    out: &mut Vec<u8>,
    session: &Session,
    target: &T,
) -> Result<(), AllocError>
    ensures { OnOk result (out.new.items ≡ out.old.items
        ++ model.look_text session.now (T.view target.now) Look.Registers) }
{
    if session.general >= target.processors() {
        return out.extend_from_slice(b"E01");
    }
    push_registers_of(out, target, session.general)
}

/// Appends all registers of a processor.
fn push_registers_of<T: Target>(
    out: &mut Vec<u8>,
    target: &T,
    processor: u16,
) -> Result<(), AllocError>
    requires { processor < (T.view target.now).processors }
    ensures { OnOk result
        (out.new.items ≡ out.old.items ++ model.all_registers (T.view target.now) processor) }
{
    push_registers(out, target, processor, PC + 1)
}

/// Appends the registers of a processor below a number.
#[tactic(auto, using(crate::proofs::Steps::registers_more))]
fn push_registers<T: Target>(
    out: &mut Vec<u8>,
    target: &T,
    processor: u16,
    end: u32,
) -> Result<(), AllocError>
    requires processor { processor < (T.view target.now).processors }
    requires end { end ≤ 33 }
    ensures { OnOk result (out.new.items ≡ out.old.items
        ++ model.registers_below (T.view target.now) processor end) }
{
    for number in 0..end {
        push_register(out, target, processor, number)?;
    }
    Ok(())
}

/// Appends a register of a processor, its low byte first.
fn push_register<T: Target>(
    out: &mut Vec<u8>,
    target: &T,
    processor: u16,
    number: u32,
) -> Result<(), AllocError>
    requires processor { processor < (T.view target.now).processors }
    requires number { number < 33 }
    ensures { OnOk result (out.new.items ≡ out.old.items
        ++ model.register_digits (T.view target.now) processor number) }
{
    let register = target.register(processor, number);
    push_bytes(out, &register.to_le_bytes())
}

/// Appends one register of the processor that is looked at.
fn push_one_register<T: Target>(
    out: &mut Vec<u8>,
    session: &Session,
    target: &T,
    number: u64,
) -> Result<(), AllocError>
    ensures { OnOk result (out.new.items ≡ out.old.items
        ++ model.look_text session.now (T.view target.now) (Look.Register number)) }
{
    if number > u64::from(PC) || session.general >= target.processors() {
        return out.extend_from_slice(b"E01");
    }
    push_register(out, target, session.general, number as u32)
}

/// Appends memory, as the processor that is looked at has it.
fn push_memory<T: Target>(
    out: &mut Vec<u8>,
    session: &Session,
    target: &T,
    address: u32,
    length: u64,
) -> Result<(), AllocError>
    ensures { OnOk result (out.new.items ≡ out.old.items
        ++ model.look_text session.now (T.view target.now) (Look.Memory address length)) }
{
    if session.general >= target.processors() {
        return out.extend_from_slice(b"E01");
    }
    let count = length.min(MOST_BYTES);
    push_mapped(out, target, session.general, address, count)
}

/// Appends the bytes from an address on, or an error where the first isn't mapped.
fn push_mapped<T: Target>(
    out: &mut Vec<u8>,
    target: &T,
    processor: u16,
    address: u32,
    count: u64,
) -> Result<(), AllocError>
    requires processor { processor < (T.view target.now).processors }
    requires count { count ≤ 1024 }
    ensures { OnOk result (out.new.items ≡ out.old.items
        ++ model.memory_text (T.view target.now) processor address count) }
{
    if count == 0 || byte_at(target, processor, u64::from(address)).is_none() {
        return out.extend_from_slice(b"E14");
    }
    push_front(out, target, processor, address, count)
}

/// Appends the bytes from an address on, up to the first that isn't mapped.
fn push_front<T: Target>(
    out: &mut Vec<u8>,
    target: &T,
    processor: u16,
    address: u32,
    count: u64,
) -> Result<(), AllocError>
    requires processor { processor < (T.view target.now).processors }
    requires count { count ≤ 1024 }
    ensures { OnOk result (out.new.items ≡ out.old.items
        ++ bytes_digits (model.mapped_front (T.view target.now) processor address count)) }
{
    for i in 0..count {
        let Some(byte) = byte_at(target, processor, u64::from(address) + i) else {
            return Ok(());
        };
        push_bytes(out, &[byte])?;
    }
    Ok(())
}

/// The byte at an address, which has 32 bits, if it is mapped.
fn byte_at<T: Target>(target: &T, processor: u16, address: u64) -> Option<u8>
    requires { processor < (T.view target.now).processors }
    ensures { result ≡ model.byte_at (T.view target.now) processor address }
{
    if address >= 1 << 32 {
        return None;
    }
    target.byte(processor, address as u32)
}

/// Appends whether there is such a thread.
fn push_is_alive<T: Target>(out: &mut Vec<u8>, target: &T, thread: Thread) -> Result<(), AllocError>
    ensures { OnOk result (out.new.items ≡ out.old.items
        ++ model.alive_text (T.view target.now) thread) }
{
    match thread {
        Thread::Of { processor } if processor < target.processors() => {
            out.extend_from_slice(b"OK")
        }
        _ => out.extend_from_slice(b"E01"),
    }
}
