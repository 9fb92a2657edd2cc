//! What a plan says of a place, as a text.

ghost use Rattle.std.specs.Prelude.{◌≡◌, ◌++◌, OnOk};
ghost use Rattle.code_view.specs.Plans.{plan_text, poll_text, run_text, scratch_text};
ghost use Rattle.code_view.specs.Plans.{scratches_text, spill_mark};

use crate::names::template_name;
use itoa::Buffer;
use rv32_decode::Reg;
use rv32_text::push_register;
use std::alloc::AllocError;
use templates::{PlanEntry, Scratch, Scratches};

/// Appends what the plan says of an entry's place.
pub(crate) fn push_plan(out: &mut Vec<u8>, entry: &PlanEntry) -> Result<(), AllocError>
    ensures { OnOk result (out.new.items ≡ out.old.items ++ plan_text entry.now) }
{
    out.extend_from_slice(template_name(entry.template))?;
    push_poll(out, entry.polls)?;
    push_scratches(out, &entry.single)?;
    push_run(out, entry.run, &entry.batch)?;
    Ok(())
}

/// Appends whether a place polls.
fn push_poll(out: &mut Vec<u8>, polls: bool) -> Result<(), AllocError>
    ensures { OnOk result (out.new.items ≡ out.old.items ++ poll_text polls) }
{
    if polls {
        out.extend_from_slice(b", polls")?;
    }
    Ok(())
}

/// Appends how many code words the run has that starts at a place, if there is one.
fn push_run(out: &mut Vec<u8>, words: u8, scratches: &Scratches) -> Result<(), AllocError>
    ensures { OnOk result (out.new.items ≡ out.old.items ++ run_text words scratches.now) }
{
    if words == 0 {
        return Ok(());
    }
    let mut buffer = Buffer::new();
    out.extend_from_slice(b"; run of ")?;
    out.extend_from_slice(buffer.format(words).as_bytes())?;
    push_scratches(out, scratches)?;
    Ok(())
}

/// Appends the scratch registers of a sequence, each by its letter.
fn push_scratches(out: &mut Vec<u8>, scratches: &Scratches) -> Result<(), AllocError>
    ensures { OnOk result (out.new.items ≡ out.old.items ++ scratches_text scratches.now) }
{
    push_scratch(out, b"s", scratches.s)?;
    push_scratch(out, b"t", scratches.t)?;
    push_scratch(out, b"u", scratches.u)?;
    Ok(())
}

/// Appends a scratch register by its letter, if it is used.
fn push_scratch(out: &mut Vec<u8>, letter: &[u8], scratch: Scratch) -> Result<(), AllocError>
    ensures { OnOk result (out.new.items ≡ out.old.items ++ scratch_text letter.now scratch) }
{
    if scratch.register == Reg::ZERO {
        return Ok(());
    }
    out.extend_from_slice(b", ")?;
    out.extend_from_slice(letter)?;
    out.extend_from_slice(b" ")?;
    push_register(out, scratch.register)?;
    push_spilled(out, scratch.spilled)?;
    Ok(())
}

/// Appends whether a register is spilled.
fn push_spilled(out: &mut Vec<u8>, spilled: bool) -> Result<(), AllocError>
    ensures { OnOk result (out.new.items ≡ out.old.items ++ spill_mark spilled) }
{
    if spilled {
        out.extend_from_slice(b" spilled")?;
    }
    Ok(())
}
