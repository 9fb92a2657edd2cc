//! What a node keeps of blocks beside their states and bytes: its part of the protocol.

ghost use Rattle.std.specs.Prelude.{◌≡◌, ◌+◌, ◌^◌, ◌≤◌, ◌<◌, ◌⊎◌, ◌&&◌, nat_lt, ℕ, [], ◌∷◌};
ghost use Rattle.std.specs.Prelude.{◌++◌, None, Some, true, false, List, Option, length};
ghost use Rattle.std.specs.Option.{option_to_list};
ghost use Rattle.state_table.specs.States.{state_of};
ghost use Rattle.block_layout.specs.Layout.{blocks, block_of};
ghost use Rattle.node_words.specs.home_directory.Table.{meets};
ghost use Rattle.rv32_program.specs.Program.{line_of};
ghost use Rattle.node_words.specs.dsm_messages.declared.messages.Post.{Post};
ghost use Rattle.node_words.specs.miss_handlers.Waits.{wait_of};
ghost use Rattle.node_words.specs.miss_handlers.Rows.{row_of};
ghost use Rattle.node_words.specs.node_model.Node as model;
ghost use Rattle.node_words.specs.node_model.Turns as turns;
ghost use Rattle.node_words.specs.node_memory.Shelf.{ground_of, local_of, want_of};
ghost use Rattle.node_words.specs.node_memory.Shelf.{all_wants, others_of};
ghost use Rattle.node_machine.specs.NodeState.{layout_of, with_parts, IsProtocolState};
ghost use Rattle.node_machine.specs.NodeState.{AreCountsBelow};
ghost use Rattle.node_machine.specs.ProtocolState.{HasRouted, turn_by, is_unmet, is_order};
ghost use Rattle.node_machine.specs.Wanted.{wants_along, wanted_list};

use crate::wanted::{WantedBlocks, wanted_of};
use block_layout::{Block, layout_law};
use buf_pool::Pool;
use node_words::dsm_messages::{Message, Need, Post, Sends, push_some};
use node_words::home_directory::Directory;
use node_words::miss_handlers::Waits;
use node_words::node_model::NodeCounts;
use node_words::{ExecState, NodeMemory, Want, Wants};
use state_table::State;

/// A node's part of the protocol: the entries of the blocks whose home it is, its waits, and the
/// buffers of its own.
#[derive(Drop)]
pub struct ProtocolState {
    pub directory: Directory,
    pub waits: Waits,
    pub pool: Pool,
}

impl ProtocolState {
    /// A word wants lines: the node asks the home of the block of each, once, and waits.
    /// It tells what it finds of each.
    #[inline(never)]
    pub fn want(
        &mut self,
        body: &mut ExecState<'_>,
        wants: Wants,
        sends: &mut Sends,
    ) -> WantedBlocks
        requires nothing { sends.old.items ≡ [] }
        requires protocol { IsProtocolState (layout_of body.old) self.old }
        requires idle { length self.old.waits.waits ≡ 0 }
        requires counts { AreCountsBelow (2 ^ 62) body.old.counts }
        ensures turn { (n : model.Node) (p : Option ℕ) →
            turns.want_all (layout_of body.old) (turn_by (with_parts n body.old self.old) [] p)
            (turns.each_block_once (layout_of body.old) (all_wants wants))
            ≡ turn_by (with_parts n body.new self.new) sends.new.items p }
        ensures wants { (n : model.Node) (p : Option ℕ) → wants_along (layout_of body.old)
            (turn_by (with_parts n body.old self.old) [] p)
            (turns.each_block_once (layout_of body.old) (all_wants wants)) ≡ wanted_list result }
        ensures begun { let state = (local_of body.old.local).state (line_of wants.first.at) in
            is_unmet wants.first.need state ≡ true → 0 < length self.new.waits.waits }
        ensures protocol { IsProtocolState (layout_of body.old) self.new }
        ensures directory { self.new.directory ≡ self.old.directory }
        ensures lane { body.new.lane ≡ body.old.lane }
        ensures ground { ground_of body.new.local ≡ ground_of body.old.local }
        ensures counts { (most : ℕ) → AreCountsBelow most body.old.counts
            → AreCountsBelow (most + 2) body.new.counts }
    {
        layout_law();
        body.local.laws();
        let first = wanted_of(&body.local, wants.first);
        let post = self.want_line(body, wants.first);
        let Some(other) = want_of_other_block(&body.local, wants) else {
            put(sends, post, None);
            return WantedBlocks { first, other: None };
        };
        let second = wanted_of(&body.local, other);
        let other = self.want_line(body, other);
        put(sends, post, other);
        WantedBlocks {
            first,
            other: Some(second),
        }
    }

    /// A word wants a line: the node asks the home of its block, and waits. Nothing where the line
    /// isn't shared, or its block meets the need.
    fn want_line(&mut self, body: &mut ExecState<'_>, want: Want) -> Option<Post>
        requires protocol { IsProtocolState (layout_of body.old) self.old }
        requires none { (b : ℕ) → block_of (layout_of body.old) (line_of want.at) ≡ Some b
            → wait_of self.old.waits b ≡ None }
        requires few { length self.old.waits.waits < 2 }
        requires counts { AreCountsBelow (2 ^ 63) body.old.counts }
        ensures turn { (n : model.Node) (posts : List Post) (p : Option ℕ) →
            turns.want_in (layout_of body.old) (turn_by (with_parts n body.old self.old) posts p)
            want.need (block_of (layout_of body.old) (line_of want.at))
            ≡ turn_by (with_parts n body.new self.new) (posts ++ option_to_list result) p }
        ensures begun { is_unmet want.need
            ((local_of body.old.local).state (line_of want.at)) ≡ true
            → 0 < length self.new.waits.waits }
        ensures more { length self.old.waits.waits ≤ length self.new.waits.waits }
        ensures one { length self.new.waits.waits ≤ length self.old.waits.waits + 1 }
        ensures others { (b : ℕ)
            → (block_of (layout_of body.old) (line_of want.at) ≡ Some b → ⊥)
            → wait_of self.new.waits b ≡ wait_of self.old.waits b }
        ensures protocol { IsProtocolState (layout_of body.old) self.new }
        ensures directory { self.new.directory ≡ self.old.directory }
        ensures lane { body.new.lane ≡ body.old.lane }
        ensures ground { ground_of body.new.local ≡ ground_of body.old.local }
        ensures counts { (most : ℕ) → AreCountsBelow most body.old.counts
            → AreCountsBelow (most + 1) body.new.counts }
    {
        layout_law();
        body.local.laws();
        match body.local.block_of(want.at) {
            None => None,
            Some(block) => self.want_block(body, block, want.need),
        }
    }

    /// A word wants a block: the node asks its home, and waits. Nothing where the block meets the
    /// need.
    pub fn want_block(&mut self, body: &mut ExecState<'_>, block: Block, need: Need) -> Option<Post>
        requires protocol { IsProtocolState (layout_of body.old) self.old }
        requires none { wait_of self.old.waits block ≡ None }
        requires few { length self.old.waits.waits < 2 }
        requires counts { AreCountsBelow (2 ^ 63) body.old.counts }
        requires block { block < blocks (layout_of body.old) }
        ensures turn { (n : model.Node) (posts : List Post) (p : Option ℕ) →
            turns.want_in (layout_of body.old) (turn_by (with_parts n body.old self.old) posts p)
            need (Some block)
            ≡ turn_by (with_parts n body.new self.new) (posts ++ option_to_list result) p }
        ensures begun { meets need (state_of body.old.local.states block) ≡ false
            → 0 < length self.new.waits.waits }
        ensures more { length self.old.waits.waits ≤ length self.new.waits.waits }
        ensures one { length self.new.waits.waits ≤ length self.old.waits.waits + 1 }
        ensures others { (b : ℕ) → (b ≡ block → ⊥)
            → wait_of self.new.waits b ≡ wait_of self.old.waits b }
        ensures protocol { IsProtocolState (layout_of body.old) self.new }
        ensures directory { self.new.directory ≡ self.old.directory }
        ensures lane { body.new.lane ≡ body.old.lane }
        ensures ground { ground_of body.new.local ≡ ground_of body.old.local }
        ensures counts { (most : ℕ) → AreCountsBelow most body.old.counts
            → AreCountsBelow (most + 1) body.new.counts }
    {
        layout_law();
        body.local.laws();
        let state = body.local.block_state(block);
        match body
            .local
            .want(block, need, &mut self.waits, &mut self.pool)
        {
            None => None,
            Some(post) => {
                body.counts = count_want(need, state, body.counts);
                Some(post)
            }
        }
    }

    /// A message from a node, but for a Bye: its row, or nothing.
    pub fn handle(
        &mut self,
        body: &mut ExecState<'_>,
        from: u8,
        message: Message,
        sends: &mut Sends,
    )
        requires protocol { IsProtocolState (layout_of body.old) self.old }
        requires counts { AreCountsBelow (2 ^ 63) body.old.counts }
        ensures turn { let l = layout_of body.old in (n : model.Node) →
            n.me ≡ self.old.directory.me →
            turns.by_row_or l (with_parts n body.old self.old)
            (row_of l n.me (turns.holding l (with_parts n body.old self.old)) from message)
            ≡ turn_by (with_parts n body.new self.new) sends.new.items None }
        ensures few { (length sends.new.items ≤ 1)
            ⊎ (length self.new.waits.waits ≡ length self.old.waits.waits) }
        ensures none { length self.old.waits.waits ≡ 0 → length self.new.waits.waits ≡ 0 }
        ensures protocol { IsProtocolState (layout_of body.old) self.new }
        ensures me { self.new.directory.me ≡ self.old.directory.me }
        ensures lane { body.new.lane ≡ body.old.lane }
        ensures ground { ground_of body.new.local ≡ ground_of body.old.local }
        ensures counts { (most : ℕ) → AreCountsBelow most body.old.counts
            → AreCountsBelow (most + 18) body.new.counts }
    {
        layout_law();
        body.local.laws();
        let order = is_order(&message);
        sends.clear();
        self.route(&mut body.local, from, message, sends);
        body.local.laws();
        let given = gives_up(order, sends.len());
        body.counts = count_row(body.counts, given, sends.len());
    }

    /// A message from a node, but for the counts.
    fn route(&mut self, local: &mut NodeMemory<'_>, from: u8, message: Message, sends: &mut Sends)
        requires nothing { sends.old.items ≡ [] }
        requires protocol { IsProtocolState local.old.copy.layout self.old }
        ensures routed { HasRouted local.old.copy.layout self.old self.new local.old local.new
            sends.new.items from message }
        ensures protocol { IsProtocolState local.old.copy.layout self.new }
        ensures me { self.new.directory.me ≡ self.old.directory.me }
        ensures ground { ground_of local.new ≡ ground_of local.old }
    {
        match message {
            Message::Read { block, buf } => {
                self.directory.ask_into(from, block, Need::Read, buf, sends);
            }
            Message::Write { block, buf } => {
                self.directory
                    .ask_into(from, block, Need::Write, buf, sends);
            }
            Message::Done { block } => self.directory.done_into(from, block, sends),
            message => {
                let post = local.reply(from, message, &mut self.waits, &mut self.pool);
                push_some(sends, post);
            }
        }
    }
}

/// The counts after a Read or a Write was sent for a block in a state.
fn count_want(need: Need, state: State, counts: NodeCounts) -> NodeCounts
    requires { AreCountsBelow (2 ^ 63) counts }
    ensures { result ≡ turns.count_want need state counts }
{
    let messages = counts.messages + 1;
    match need {
        Need::Read => NodeCounts {
            read: counts.read + 1,
            messages,
            ..counts
        },
        Need::Write if state.can_read() => NodeCounts {
            upgrade: counts.upgrade + 1,
            messages,
            ..counts
        },
        Need::Write => NodeCounts {
            exclusive: counts.exclusive + 1,
            messages,
            ..counts
        },
    }
}

/// The counts after a message that was handled, which gave up a block or didn't.
fn count_row(counts: NodeCounts, gives_up: bool, sends: usize) -> NodeCounts
    requires counts { AreCountsBelow (2 ^ 63) counts }
    requires few { sends ≤ 18 }
    ensures { result ≡ turns.count_row gives_up sends counts }
{
    let invalidations = if gives_up {
        counts.invalidations + 1
    } else {
        counts.invalidations
    };
    NodeCounts {
        invalidations,
        messages: counts.messages + sends as u64,
        ..counts
    }
}

/// Whether a block was given up: on an order that had a row, for which something was sent.
fn gives_up(order: bool, sends: usize) -> bool
    ensures { result ≡ (order && nat_lt 0 sends) }
{
    order && sends > 0
}

/// Whether a message orders the node to give up a block.
fn is_order(message: &Message) -> bool
    ensures { result ≡ is_order message.now }
{
    match message {
        Message::FwdWrite { .. } | Message::Inval { .. } => true,
        _ => false,
    }
}

/// The second of a word's wants, where that is of another block than the first.
pub fn want_of_other_block(local: &NodeMemory<'_>, wants: Wants) -> Option<Want>
    ensures once { turns.each_block_once local.now.copy.layout (all_wants wants)
        ≡ want_of wants.first ∷ others_of result }
    ensures apart { (other : Want) (b : ℕ) → result ≡ Some other
        → block_of local.now.copy.layout (line_of wants.first.at) ≡ Some b
        → block_of local.now.copy.layout (line_of other.at) ≡ Some b → ⊥ }
{
    let Some(other) = wants.other else {
        return None;
    };
    if is_same_block(local, wants.first, other) {
        None
    } else {
        Some(other)
    }
}

/// Whether two wanted lines are of one block.
fn is_same_block(local: &NodeMemory<'_>, first: Want, other: Want) -> bool
    ensures value { result ≡
        turns.is_same_want local.now.copy.layout (want_of first) (want_of other) }
    ensures apart { (b : ℕ) → result ≡ false
        → block_of local.now.copy.layout (line_of first.at) ≡ Some b
        → block_of local.now.copy.layout (line_of other.at) ≡ Some b → ⊥ }
{
    layout_law();
    local.laws();
    let Some(block) = local.block_of(first.at) else {
        return false;
    };
    match local.block_of(other.at) {
        Some(also) => also == block,
        None => false,
    }
}

/// Sends two messages, where nothing is sent before them. Each may be missing.
pub fn put(sends: &mut Sends, first: Option<Post>, other: Option<Post>)
    requires nothing { sends.old.items ≡ [] }
    ensures value { sends.new.items ≡ option_to_list first ++ option_to_list other }
{
    if let Some(post) = first {
        sends.push(post);
    }
    if let Some(post) = other {
        sends.push(post);
    }
}
