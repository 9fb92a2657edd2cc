//! Short texts that commands tell.

ghost use Rattle.std.specs.Prelude.{◌≡◌, ◌++◌, IfOk, OnOk};
ghost use Rattle.recorded_run.specs.Tells as model;

use crate::walk::LastEvent;
use event_text::push_decimal;
use std::alloc::{AllocError, Global};

/// Appends which event of the nodes was their last.
pub(crate) fn push_last(out: &mut Vec<u8>, last: Option<LastEvent>) -> Result<(), AllocError>
    ensures { OnOk result (out.new.items ≡ out.old.items ++ model.last_text last) }
{
    match last {
        Some(event) => {
            out.extend_from_slice(b"the nodes are behind the event of node ")?;
            push_decimal(out, u64::from(event.node))?;
            out.extend_from_slice(b" with stamp ")?;
            push_decimal(out, event.stamp)?;
            out.extend_from_slice(b"\n")?;
        }
        None => out.extend_from_slice(b"the nodes are at their start\n")?,
    }
    Ok(())
}

/// What is told of the last write of a byte: whether one was found, and whose it was.
pub(crate) fn write_text(
    alloc: Global,
    hit: Option<usize>,
    processor: u16,
) -> Result<Vec<u8>, AllocError>
    ensures { IfOk result (λ text. text.items ≡ model.write_text hit processor) }
{
    match hit {
        Some(_) => {
            let mut text = Vec::new(alloc);
            text.extend_from_slice(b"the next pick is of processor ")?;
            push_decimal(&mut text, u64::from(processor))?;
            text.extend_from_slice(b", and writes it\n")?;
            Ok(text)
        }
        None => Vec::from_slice(alloc, b"nothing wrote it: the run is at its start\n"),
    }
}

/// What is told where no miss comes.
#[tactic(auto, unfolding(crate::specs::Tells::no_miss_text))]
pub(crate) fn no_miss_text(alloc: Global) -> Result<Vec<u8>, AllocError>
    ensures { IfOk result (λ text. text.items ≡ model.no_miss_text) }
{
    Vec::from_slice(alloc, b"no miss comes: the run is at its end\n")
}

/// What is told of a command that there isn't.
#[tactic(auto, unfolding(crate::specs::Tells::unknown_text))]
pub(crate) fn unknown_text(alloc: Global) -> Result<Vec<u8>, AllocError>
    ensures { IfOk result (λ text. text.items ≡ model.unknown_text) }
{
    Vec::from_slice(
        alloc,
        b"no such command; there are where, output, node I, block 0xA, miss, back-to-write 0xA\n",
    )
}
