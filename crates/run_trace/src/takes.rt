//! What taking a message did, by what is seen before and after it.

ghost use Rattle.std.specs.Prelude.{◌≡◌, ◌<◌, ◌||◌, Option};
ghost use Rattle.std.specs.Option.{option_map};
ghost use Rattle.block_layout.specs.Layout.{blocks};
ghost use Rattle.replay.specs.node_model.home_directory.dsm_messages.declared.messages.Wire.{Wire};
ghost use Rattle.replay.specs.node_model.home_directory.declared.wait.Wait.{Wait as OfWait};
ghost use Rattle.replay.specs.node_model.Node.{Work, Node as OfNode};
ghost use Rattle.replay.specs.node_machine.NodeState.{work_of, node_of};
ghost use Rattle.run_trace.specs.Given.{take_of};
ghost use Rattle.run_trace.specs.Looks.{waits_in};
ghost use Rattle.run_trace.specs.Taking as model;
ghost use Rattle.run_trace.specs.Traced as trace;

use crate::traced::TakeTraced;
use crate::words::{but_byes, tally};
use block_layout::{Block, Layout};
use replay::dsm_core::{Incoming, Seen};
use replay::node_machine::{Node, NodeCounts, Standing};
use replay::node_model::home_directory::Wait;
use replay::node_model::home_directory::dsm_messages::Headers;
use rv32_program::End;
use state_table::State;

/// What a node has of a block that a message can change.
#[derive(Clone, Copy)]
pub(crate) struct BlockView {
    pub state: State,
    /// Whether its home is busy with a request, where that is this node.
    pub busy: bool,
    /// Whether the wait for it has its answer.
    pub answered: bool,
    /// How many Acks have come.
    pub counted: u8,
}

/// What is seen of a node before a take, or after it.
#[derive(Clone, Copy)]
pub(crate) struct Sight {
    /// What the node has of the message's block, if that is one of the layout.
    pub view: Option<BlockView>,
    /// Whether it waits for the block.
    pub waits_for: bool,
    /// How many requests wait at this home.
    pub pending: u8,
    pub reserved: bool,
    pub waits: bool,
    pub end: Option<End>,
    pub counts: NodeCounts,
}

/// What is seen of a node, as far as a message about a block can change it.
pub(crate) fn sight_of(node: &Node<'_>, layout: &Layout, block: Option<Block>) -> Sight
    requires layout { layout.now ≡ (work_of node.now).layout }
    ensures { result ≡ model.sight_of layout.now (node_of node.now) block }
{
    Sight {
        view: view_in(node, layout, block),
        waits_for: waits_for(node, block),
        pending: node.pending(),
        reserved: node.reserved().is_some(),
        waits: waits(node.standing()),
        end: node.end(),
        counts: node.counts(),
    }
}

/// Whether a node waits.
fn waits(standing: Standing) -> bool
    ensures { result ≡ waits_in standing }
{
    match standing {
        Standing::Waiting => true,
        _ => false,
    }
}

/// Whether a node waits for a block, if there is one.
fn waits_for(node: &Node<'_>, block: Option<Block>) -> bool
    ensures { result ≡ trace.waits_for (node_of node.now) block }
{
    match block {
        Some(block) => node.waits_for(block),
        None => false,
    }
}

/// What a node has of a block, if it is one of the layout.
fn view_in(node: &Node<'_>, layout: &Layout, block: Option<Block>) -> Option<BlockView>
    requires layout { layout.now ≡ (work_of node.now).layout }
    ensures { result ≡ model.view_in layout.now (node_of node.now) block }
{
    match block {
        Some(block) if block < layout.blocks() => Some(view(node, block)),
        _ => None,
    }
}

/// What a node has of a block.
fn view(node: &Node<'_>, block: Block) -> BlockView
    requires block { block < blocks (work_of node.now).layout }
    ensures { result ≡ model.view_of (work_of node.now).layout (node_of node.now) block }
{
    let wait = node.wait(block);
    BlockView {
        state: node.state(block),
        busy: node.busy(block).is_some(),
        answered: is_answered(wait),
        counted: counted(wait),
    }
}

/// Whether a wait has its answer.
fn is_answered(wait: Option<&Wait>) -> bool
    ensures { (w : Option OfWait) → model.IsShown wait.entry w → result ≡ model.answered_in w }
{
    match wait {
        Some(wait) => wait.answer.is_some(),
        None => false,
    }
}

/// How many Acks a wait has counted.
fn counted(wait: Option<&Wait>) -> u8
    ensures { (w : Option OfWait) → model.IsShown wait.entry w → result ≡ model.counted_in w }
{
    match wait {
        Some(wait) => wait.counted,
        None => 0,
    }
}

/// What taking a message from a node did, by what was seen before it, while it was made, and after
/// it.
pub(crate) fn take_traced(
    from: u8,
    incoming: Incoming,
    before: Sight,
    seen: Seen,
    after: Sight,
    nodes: u8,
) -> TakeTraced
    ensures { (work : Work) (n : OfNode) (wire : Wire)
        → model.IsAfterTake work n from wire incoming before seen after nodes
        → take_of result ≡ trace.take_traced work n from wire }
{
    let end = ends_anew(before.end, after.end);
    let sends = but_byes(seen.sends, end.is_some(), nodes);
    let meets = is_seen_to(&sends, &before, &after);
    TakeTraced {
        from,
        sent: incoming.stamp,
        message: incoming.header,
        meets,
        was: state_in(before.view),
        becomes: state_in(after.view),
        completes: stops(before.waits_for, after.waits_for),
        gives_up: after.counts.invalidations != before.counts.invalidations,
        clears: stops(before.reserved, after.reserved),
        resumes: stops(before.waits, after.waits),
        tally: tally(before.counts, after.counts),
        sends,
        end,
    }
}

/// Whether a message is seen to have met a row: something was sent, or something has changed.
fn is_seen_to(sends: &Headers, before: &Sight, after: &Sight) -> bool
    ensures { result ≡ (model.has_items sends.now.items || model.is_changed before.now after.now) }
{
    !sends.is_empty() || is_changed(before, after)
}

/// Whether the first holds, and the second doesn't.
fn stops(before: bool, now: bool) -> bool
    ensures { result ≡ trace.stops before now }
{
    before && !now
}

/// The state of a block that is seen.
fn state_in(view: Option<BlockView>) -> Option<State>
    ensures { result ≡ option_map (λ v. v.state) view }
{
    match view {
        Some(view) => Some(view.state),
        None => None,
    }
}

/// Whether a message has changed what is seen of its block or of the requests that wait.
fn is_changed(before: &Sight, after: &Sight) -> bool
    ensures { result ≡ model.is_changed before.now after.now }
{
    before.pending != after.pending || is_other(before.view, after.view)
}

/// Whether a home is no longer busy, or a wait has gone on.
fn is_other(before: Option<BlockView>, after: Option<BlockView>) -> bool
    ensures { result ≡ model.is_other before after }
{
    match (before, after) {
        (Some(before), Some(after)) => {
            before.busy != after.busy
                || before.answered != after.answered
                || before.counted != after.counted
        }
        _ => false,
    }
}

/// An end that wasn't before.
fn ends_anew(before: Option<End>, now: Option<End>) -> Option<End>
    ensures { result ≡ trace.ends_anew before now }
{
    match before {
        Some(_) => None,
        None => now,
    }
}
