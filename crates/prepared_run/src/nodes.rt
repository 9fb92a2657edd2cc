//! The lines of a run's nodes: what each counted.

ghost use Rattle.std.specs.Prelude.{◌≡◌, ◌++◌, ◌∷◌, [], OnOk};
ghost use Rattle.prepared_run.specs.Text as model;

use replay::node_model::NodeCounts;
use std::alloc::AllocError;
use text_output::push_count;

/// Appends a line for each node: what it counted.
pub fn push_nodes(text: &mut Vec<u8>, counts: &[NodeCounts]) -> Result<(), AllocError>
    ensures { OnOk result (text.new.items ≡ text.old.items ++ model.node_lines 0 counts.now) }
{
    for (node, counts) in counts.iter().enumerate() {
        push_node(text, node as u64, counts)?;
    }
    Ok(())
}

/// Appends the line of a node.
fn push_node(text: &mut Vec<u8>, node: u64, counts: &NodeCounts) -> Result<(), AllocError>
    ensures { OnOk result
        (text.new.items ≡ text.old.items ++ model.node_lines node (counts.now ∷ [])) }
{
    push_count(text, b"node ", node)?;
    text.extend_from_slice(b" ")?;
    push_counts(text, counts)?;
    text.extend_from_slice(b"\n")?;
    Ok(())
}

fn push_counts(text: &mut Vec<u8>, counts: &NodeCounts) -> Result<(), AllocError>
    ensures { OnOk result (text.new.items ≡ text.old.items ++ model.counts_text counts.now) }
{
    push_count(text, b"read ", counts.read)?;
    push_count(text, b" exclusive ", counts.exclusive)?;
    push_count(text, b" upgrade ", counts.upgrade)?;
    push_count(text, b" false ", counts.falses)?;
    push_count(text, b" invalidations ", counts.invalidations)?;
    push_count(text, b" fallbacks ", counts.fallbacks)?;
    push_count(text, b" messages ", counts.messages)?;
    Ok(())
}
