//! What stands before and after the bytes that were printed.

ghost use Rattle.std.specs.Prelude.{◌≡◌, ◌++◌, ◌∷◌, [], length, IfOk, OnOk};
ghost use Rattle.prepared_run.specs.Processors as lines;
ghost use Rattle.prepared_run.specs.Outcomes as model;
ghost use Rattle.text_output.specs.Text.{hex8};

use crate::nodes::push_nodes;
use exec_map::{End, Exit};
use replay::node_model::NodeCounts;
use std::alloc::{AllocError, Global};
use text_output::{push_address, push_number};

/// What stands before the bytes that were printed: how many there are.
pub(crate) fn outcome_head(alloc: Global, output: &[u8]) -> Result<Vec<u8>, AllocError>
    ensures { IfOk result (λ text. text.items ≡ lines.outcome_head (length output.now)) }
{
    let mut text = Vec::new(alloc);
    text.extend_from_slice(b"output ")?;
    push_number(&mut text, output.len() as u64)?;
    text.extend_from_slice(b"\n")?;
    Ok(text)
}

/// What stands after the bytes that were printed: how each processor ended, and what each node
/// counted.
pub(crate) fn outcome_tail(
    alloc: Global,
    ends: &[End],
    counts: &[NodeCounts],
) -> Result<Vec<u8>, AllocError>
    ensures { IfOk result (λ text. text.items ≡ model.outcome_tail ends.now counts.now) }
{
    let mut text = Vec::new(alloc);
    text.extend_from_slice(b"\n")?;
    push_processors(&mut text, ends)?;
    push_nodes(&mut text, counts)?;
    Ok(text)
}

/// Appends a line for each processor.
fn push_processors(text: &mut Vec<u8>, ends: &[End]) -> Result<(), AllocError>
    ensures { OnOk result (text.new.items ≡ text.old.items ++ lines.processor_lines 0 ends.now) }
{
    for (processor, end) in ends.iter().enumerate() {
        push_processor(text, processor as u64, *end)?;
    }
    Ok(())
}

/// Appends the line of a processor.
fn push_processor(text: &mut Vec<u8>, processor: u64, end: End) -> Result<(), AllocError>
    ensures { OnOk result
        (text.new.items ≡ text.old.items ++ lines.processor_lines processor (end ∷ [])) }
{
    text.extend_from_slice(b"processor ")?;
    push_number(text, processor)?;
    text.extend_from_slice(b" ")?;
    push_end(text, end)?;
    text.extend_from_slice(b"\n")?;
    Ok(())
}

fn push_end(text: &mut Vec<u8>, end: End) -> Result<(), AllocError>
    ensures { OnOk result (text.new.items ≡ text.old.items ++ lines.end_text end) }
{
    match end {
        End::Exited(exit) => push_exit(text, exit),
        End::Stopped(budget) => {
            text.extend_from_slice(b"stopped ")?;
            push_number(text, budget)?;
            Ok(())
        }
    }
}

fn push_exit(text: &mut Vec<u8>, exit: Exit) -> Result<(), AllocError>
    ensures { OnOk result (text.new.items ≡ text.old.items ++ lines.exit_text exit) }
{
    match exit {
        Exit::Code(code) => {
            text.extend_from_slice(b"exit ")?;
            push_number(text, u64::from(code))?;
            Ok(())
        }
        Exit::Ebreak(address) => push_place(text, b"ebreak ", address),
        Exit::Illegal(address) => push_place(text, b"illegal ", address),
        Exit::Misaligned(address) => push_place(text, b"misaligned ", address),
        Exit::Access(address) => push_place(text, b"access ", address),
        Exit::Fetch(address) => push_place(text, b"fetch ", address),
    }
}

/// Appends a word and an address.
fn push_place(text: &mut Vec<u8>, name: &[u8], address: u32) -> Result<(), AllocError>
    ensures { OnOk result (text.new.items ≡ text.old.items ++ (name.now ++ hex8 address)) }
{
    text.extend_from_slice(name)?;
    push_address(text, address)?;
    Ok(())
}
