//! The line that says why the events of a record are refused.

ghost use Rattle.std.specs.Prelude.{◌≡◌, IfOk};
ghost use Rattle.prepared_run.specs.Text as model;

use replay::ReplayRule;
use std::alloc::{AllocError, Global};
use text_output::push_number;

/// The line of a rule that refuses the events of a record, and of the entry that tells of the event
/// that breaks it.
pub fn event_line(
    alloc: Global,
    rule: ReplayRule,
    node: u8,
    entry: usize,
) -> Result<Vec<u8>, AllocError>
    ensures { IfOk result (λ line. line.items ≡ model.event_line rule node entry) }
{
    let mut line = Vec::new(alloc);
    line.extend_from_slice(b"shasta: record refused ")?;
    push_number(&mut line, u64::from(rule.number()))?;
    line.extend_from_slice(b" at node ")?;
    push_number(&mut line, u64::from(node))?;
    line.extend_from_slice(b" entry ")?;
    push_number(&mut line, entry as u64)?;
    line.extend_from_slice(b"\n")?;
    Ok(line)
}
