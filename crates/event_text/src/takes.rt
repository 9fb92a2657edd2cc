//! What taking a message did.

ghost use Rattle.std.specs.Prelude.{◌≡◌, ◌++◌, OnOk};
ghost use Rattle.run_trace.specs.Given.{take_of};
ghost use Rattle.event_text.specs.Events as model;

use crate::names::row_name;
use crate::parts::{push_decimal, push_header, push_if, push_sends, push_state, push_tally};
use run_trace::TakeTraced;
use std::alloc::AllocError;

/// Appends what taking a message did.
pub(crate) fn push_take(out: &mut Vec<u8>, take: &TakeTraced) -> Result<(), AllocError>
    ensures { OnOk result (out.new.items ≡ out.old.items ++ model.take_text (take_of take.now)) }
{
    push_taken(out, take)?;
    push_row(out, take)?;
    push_states(out, take)?;
    push_if(out, take.clears, b"; ends the reservation")?;
    push_sends(out, take.sends.as_slice())?;
    push_outcome(out, take)?;
    Ok(())
}

/// Appends which message was taken, and from whom.
fn push_taken(out: &mut Vec<u8>, take: &TakeTraced) -> Result<(), AllocError>
    ensures { OnOk result (out.new.items ≡ out.old.items ++ model.taken_text (take_of take.now)) }
{
    out.extend_from_slice(b"takes ")?;
    push_header(out, &take.message)?;
    out.extend_from_slice(b" from ")?;
    push_decimal(out, u64::from(take.from))?;
    Ok(())
}

/// Appends which row the message met.
fn push_row(out: &mut Vec<u8>, take: &TakeTraced) -> Result<(), AllocError>
    ensures { OnOk result (out.new.items ≡ out.old.items ++ model.row_text (take_of take.now)) }
{
    let sends = !take.sends.as_slice().is_empty();
    push_if(
        out,
        take.meets,
        row_name(take.message.kind, sends, take.completes),
    )
}

/// Appends the states of the message's block.
fn push_states(out: &mut Vec<u8>, take: &TakeTraced) -> Result<(), AllocError>
    ensures { OnOk result (out.new.items ≡ out.old.items ++ model.states_text (take_of take.now)) }
{
    push_state(out, b"; ", take.was)?;
    push_state(out, b" to ", take.becomes)?;
    Ok(())
}

/// Appends what came of it for the processor.
fn push_outcome(out: &mut Vec<u8>, take: &TakeTraced) -> Result<(), AllocError>
    ensures { OnOk result
        (out.new.items ≡ out.old.items ++ model.after_text (take_of take.now)) }
{
    push_tally(out, take.tally)?;
    push_if(out, take.resumes, b"; goes on")?;
    push_if(out, take.end.is_some(), b"; ends")?;
    Ok(())
}
