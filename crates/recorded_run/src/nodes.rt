//! What is told of nodes and blocks.

ghost use Rattle.std.specs.Prelude.{◌≡◌, ◌++◌, ◌<◌, IfOk, MatchOption, None, OnOk};
ghost use Rattle.block_layout.specs.Layout.{blocks};
ghost use Rattle.node_model.specs.Node.{end_of, standing_of};
ghost use Rattle.node_model.specs.Turns.{block_at};
ghost use Rattle.event_text.specs.replay.dsm_core.CoreParts.{core_of, work_of};
ghost use Rattle.event_text.specs.node_machine.NodeState.{node_of, work_of as work_at};
ghost use Rattle.event_text.specs.node_machine.Wanted.{block_with};
ghost use Rattle.recorded_run.specs.Nodes as model;

use block_layout::{Block, Layout, layout_law};
use debugged_run::gdb_session::Doing;
use event_text::node_machine::Node;
use event_text::run_trace::replay::dsm_core::Core;
use event_text::{need_name, push_decimal, push_if, state_name};
use home_directory::{Answer, Busy, Wait};
use node_model::Standing;
use rv32_program::End;
use state_table::State;
use std::alloc::{AllocError, Global};

/// What the node with a number does, and what it waits for; or that there is no such node.
pub(crate) fn node_text(alloc: Global, core: &Core<'_>, node: u8) -> Result<Vec<u8>, AllocError>
    ensures { IfOk result (λ text. text.items
        ≡ model.node_text_if (work_of core.now) (core_of core.now) node) }
{
    let nodes = core.layout().nodes();
    let mut text = Vec::new(alloc);
    if node >= nodes {
        push_no_node(&mut text, node, nodes)?;
        return Ok(text);
    }
    push_node(&mut text, core, node)?;
    Ok(text)
}

/// Appends that none of `nodes` nodes has a number.
fn push_no_node(out: &mut Vec<u8>, node: u8, nodes: u8) -> Result<(), AllocError>
    ensures { OnOk result (out.new.items ≡ out.old.items ++ model.no_node_text node nodes) }
{
    out.extend_from_slice(b"there is no node ")?;
    push_decimal(out, u64::from(node))?;
    out.extend_from_slice(b": nodes have numbers below ")?;
    push_decimal(out, u64::from(nodes))?;
    out.extend_from_slice(b"\n")?;
    Ok(())
}

/// Appends what a node does, and what it waits for.
fn push_node(out: &mut Vec<u8>, core: &Core<'_>, node: u8) -> Result<(), AllocError>
    requires { node < core.now.layout.nodes }
    ensures { OnOk result (out.new.items
        ≡ out.old.items ++ model.node_text (work_of core.now) (core_of core.now) node) }
{
    let at = core.node(node);
    push_node_line(out, node, at.stamp(), at.standing())?;
    push_waits(out, core.layout(), at)
}

/// Appends the line of a node.
fn push_node_line(
    out: &mut Vec<u8>,
    node: u8,
    stamp: u64,
    standing: Standing,
) -> Result<(), AllocError>
    ensures { OnOk result
        (out.new.items ≡ out.old.items ++ model.node_line node stamp standing) }
{
    out.extend_from_slice(b"node ")?;
    push_decimal(out, u64::from(node))?;
    out.extend_from_slice(b" has stamp ")?;
    push_decimal(out, stamp)?;
    out.extend_from_slice(b", and ")?;
    out.extend_from_slice(standing_name(standing))?;
    out.extend_from_slice(b"\n")?;
    Ok(())
}

/// What a node may do next, in words.
fn standing_name(standing: Standing) -> &'static [u8]
    ensures { result.now ≡ model.standing_name standing }
{
    match standing {
        Standing::Running => b"runs",
        Standing::AtPoll => b"runs, and may take a message",
        Standing::Waiting => b"waits",
        Standing::Ended => b"has ended",
        Standing::Over => b"has ended, as all nodes have",
    }
}

/// Appends the lines of a node's waits.
fn push_waits(out: &mut Vec<u8>, layout: &Layout, node: &Node<'_>) -> Result<(), AllocError>
    requires { layout.now ≡ (work_at node.now).layout }
    ensures { OnOk result (out.new.items ≡ out.old.items
        ++ model.wait_lines layout.now (node_of node.now) (blocks layout.now)) }
{
    for block in 0..layout.blocks() {
        push_wait_if(out, node, block)?;
    }
    Ok(())
}

/// Appends the line of a node's wait for a block, if it waits for this.
fn push_wait_if(out: &mut Vec<u8>, node: &Node<'_>, block: Block) -> Result<(), AllocError>
    requires { block < blocks (work_at node.now).layout }
    ensures { OnOk result (out.new.items ≡ out.old.items
        ++ model.wait_line_if (work_at node.now).layout (node_of node.now) block
        ((node_of node.now).wait block)) }
{
    match node.wait(block) {
        Some(wait) => push_wait(out, block, node.state(block), wait),
        None => Ok(()),
    }
}

/// Appends the line of a wait for a block.
fn push_wait(out: &mut Vec<u8>, block: Block, state: State, wait: &Wait) -> Result<(), AllocError>
    ensures { OnOk result
        (out.new.items ≡ out.old.items ++ model.wait_line block state wait.now) }
{
    out.extend_from_slice(b"wants block ")?;
    push_decimal(out, u64::from(block))?;
    out.extend_from_slice(need_name(wait.need))?;
    out.extend_from_slice(b", which is ")?;
    out.extend_from_slice(state_name(state))?;
    out.extend_from_slice(b"; acks ")?;
    push_decimal(out, u64::from(wait.counted))?;
    push_due(out, &wait.answer)?;
    out.extend_from_slice(b"\n")?;
    Ok(())
}

/// Appends how many Acks a wait is to have, once its answer has come.
fn push_due(out: &mut Vec<u8>, answer: &Option<Answer>) -> Result<(), AllocError>
    ensures { OnOk result (out.new.items ≡ out.old.items ++ model.due_text answer.now) }
{
    match answer {
        Some(Answer::ByData { acks, .. } | Answer::ByGrant { acks, .. }) => {
            out.extend_from_slice(b" of ")?;
            push_decimal(out, u64::from(*acks))
        }
        None => Ok(()),
    }
}

/// What the node of a processor does.
pub(crate) fn doing_of(core: &Core<'_>, processor: u16) -> Doing
    requires { processor < core.now.layout.nodes }
    ensures { model.NodeDoes (work_of core.now) ((core_of core.now).nodes processor) result }
{
    // brings: there are at most 16 nodes
    let _nodes = core.layout().nodes();
    let node = core.node(processor as u8);
    match node.end() {
        Some(End::Exited(_)) => Doing::Exited,
        Some(End::Stopped(_)) => Doing::Stopped,
        None => goes_on(core.layout(), node),
    }
}

/// What a node does that has no end.
fn goes_on(layout: &Layout, node: &Node<'_>) -> Doing
    requires layout { layout.now ≡ (work_at node.now).layout }
    requires goes_on { end_of (node_of node.now).phase ≡ None }
    ensures { model.NodeDoes (work_at node.now) (node_of node.now) result }
{
    match node.standing() {
        Standing::Waiting => waits_of(layout, node),
        Standing::Running | Standing::AtPoll | Standing::Ended | Standing::Over => Doing::Runs,
    }
}

/// What a node does that waits.
fn waits_of(layout: &Layout, node: &Node<'_>) -> Doing
    requires layout { layout.now ≡ (work_at node.now).layout }
    requires goes_on { end_of (node_of node.now).phase ≡ None }
    requires waits { standing_of (work_at node.now) (node_of node.now) ≡ Standing.Waiting }
    ensures { model.NodeDoes (work_at node.now) (node_of node.now) result }
{
    match first_wait(layout, node) {
        Some(block) => Doing::Waits { block },
        None => Doing::Runs,
    }
}

/// The first block for which a node waits, if it waits for one.
fn first_wait(layout: &Layout, node: &Node<'_>) -> Option<Block>
    ensures { MatchOption result (model.HasNoWait layout.now (node_of node.now))
        (model.IsFirstWait (node_of node.now)) }
{
    for block in 0..layout.blocks() {
        if node.waits_for(block) {
            return Some(block);
        }
    }
    None
}

/// What the home of an address' block keeps of it, and its state at each node; or that no block has
/// the address.
pub(crate) fn block_text(
    alloc: Global,
    core: &Core<'_>,
    address: u32,
) -> Result<Vec<u8>, AllocError>
    ensures { IfOk result (λ text. text.items ≡ model.block_text_if core.now.layout
        (core_of core.now) (block_with core.now.layout address)) }
{
    layout_law();
    let layout = core.layout();
    // brings: the layout is valid
    let _nodes = layout.nodes();
    let mut text = Vec::new(alloc);
    let Some(block) = layout.block_of(address / 64) else {
        push_no_block(&mut text)?;
        return Ok(text);
    };
    push_block(&mut text, core, block)?;
    Ok(text)
}

/// Appends that no block has an address.
#[tactic(auto, unfolding(crate::specs::Nodes::no_block_text))]
fn push_no_block(out: &mut Vec<u8>) -> Result<(), AllocError>
    ensures { OnOk result (out.new.items ≡ out.old.items ++ model.no_block_text) }
{
    out.extend_from_slice(b"no block has this address: its line is not shared\n")
}

/// Appends what the home of a block keeps of it, and its state at each node.
fn push_block(out: &mut Vec<u8>, core: &Core<'_>, block: Block) -> Result<(), AllocError>
    requires { block < blocks core.now.layout }
    ensures { OnOk result (out.new.items ≡ out.old.items
        ++ model.block_text core.now.layout (core_of core.now) block) }
{
    let layout = core.layout();
    let home = layout.home(block);
    let at_home = core.node(home);
    push_home_line(out, block, home, at_home)?;
    for node in 0..layout.nodes() {
        push_state(out, at_home, core.node(node), block, node)?;
    }
    Ok(())
}

/// Appends the line of what a block's home keeps of it.
fn push_home_line(
    out: &mut Vec<u8>,
    block: Block,
    home: u8,
    at_home: &Node<'_>,
) -> Result<(), AllocError>
    requires { block < blocks (work_at at_home.now).layout }
    ensures { OnOk result (out.new.items
        ≡ out.old.items ++ model.home_line block home ((node_of at_home.now).entry block)) }
{
    out.extend_from_slice(b"block ")?;
    push_decimal(out, u64::from(block))?;
    out.extend_from_slice(b" has home ")?;
    push_decimal(out, u64::from(home))?;
    out.extend_from_slice(b", owner ")?;
    push_decimal(out, u64::from(at_home.owner(block)))?;
    push_busy(out, at_home.busy(block))?;
    out.extend_from_slice(b"\n")?;
    Ok(())
}

/// Appends the request that a home is busy with, if it is.
fn push_busy(out: &mut Vec<u8>, busy: Option<Busy>) -> Result<(), AllocError>
    ensures { OnOk result (out.new.items ≡ out.old.items ++ model.busy_text busy) }
{
    if let Some(busy) = busy {
        out.extend_from_slice(b", busy with node ")?;
        push_decimal(out, u64::from(busy.node))?;
        out.extend_from_slice(need_name(busy.need))?;
    }
    Ok(())
}

/// Appends the line of a block's state at a node.
fn push_state(
    out: &mut Vec<u8>,
    at_home: &Node<'_>,
    at: &Node<'_>,
    block: Block,
    node: u8,
) -> Result<(), AllocError>
    requires same { (work_at at.now).layout ≡ (work_at at_home.now).layout }
    requires block { block < blocks (work_at at_home.now).layout }
    requires node { node < 16 }
    ensures { OnOk result (out.new.items ≡ out.old.items
        ++ model.state_line ((node_of at_home.now).entry block) node
        (block_at (work_at at_home.now).layout (node_of at.now) block).state) }
{
    out.extend_from_slice(b"node ")?;
    push_decimal(out, u64::from(node))?;
    out.extend_from_slice(b": ")?;
    out.extend_from_slice(state_name(at.state(block)))?;
    push_if(out, at_home.is_sharer(block, node), b", a sharer")?;
    out.extend_from_slice(b"\n")
}
