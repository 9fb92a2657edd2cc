//! What a call asks for.

ghost use Rattle.std.specs.Prelude.{◌≡◌, ◌+◌, ◌^◌, ◌<◌, ℕ};
ghost use Rattle.rv32_step.specs.Registers.{registers_of};
ghost use Rattle.rv32_step.specs.Demands as model;

use crate::{CallStep, Registers};
use rv32_decode::Reg;
use rv32_program::{CallKind, call_of};

/// One step of a call, where a write in progress has written `written` bytes.
pub fn call_step(registers: &Registers, written: u32) -> CallStep
    ensures value { result ≡ model.call_step (registers_of registers.now) written }
    ensures room { (a : ℕ) → result ≡ CallStep.Puts a → written + 1 < 2 ^ 32 }
{
    match call_of(registers.get(Reg::A7)) {
        CallKind::Exit => CallStep::Ends((registers.get(Reg::A0) & 0xff) as u8),
        CallKind::Write => write_step(registers, written),
        CallKind::Unknown => CallStep::Returns(failure(38)),
    }
}

fn write_step(registers: &Registers, written: u32) -> CallStep
    ensures value { result ≡ model.write_step (registers_of registers.now) written }
    ensures room { (a : ℕ) → result ≡ CallStep.Puts a → written + 1 < 2 ^ 32 }
{
    let file = registers.get(Reg::A0);
    if file != 1 && file != 2 {
        return CallStep::Returns(failure(9));
    }
    if written < registers.get(Reg::A2) {
        CallStep::Puts(registers.get(Reg::A1).wrapping_add(written))
    } else {
        CallStep::Returns(written)
    }
}

/// A negative result of a call, as a word.
fn failure(code: u8) -> u32
    requires { 0 < code }
    ensures { result ≡ model.failure code }
{
    u32::MAX - (u32::from(code) - 1)
}

/// The result of a write that has written `written` bytes, and whose next byte isn't mapped.
pub fn cut_short(written: u32) -> u32
    ensures { result ≡ model.cut_short written }
{
    if written == 0 { failure(14) } else { written }
}
