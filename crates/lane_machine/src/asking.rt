//! What a lane's word wants of blocks: the node asks for those that none of its lanes waits for,
//! and for the others the lane waits with their holders.

ghost use Rattle.std.specs.Prelude.{◌≡◌, ◌+◌, ◌^◌, ◌≤◌, ◌<◌, ◌||◌, ◌++◌, ℕ, [], ◌∷◌};
ghost use Rattle.std.specs.Prelude.{None, Some, true, false, List, Bool, Option, length, is_some};
ghost use Rattle.std.specs.Option.{option_to_list};
ghost use Rattle.block_layout.specs.Layout.{blocks, block_of};
ghost use Rattle.rv32_program.specs.Program.{line_of};
ghost use Rattle.home_directory.specs.dsm_messages.declared.messages.Post.{Post};
ghost use Rattle.node_machine.specs.miss_handlers.Waits.{wait_of};
ghost use Rattle.lane_model.specs.node_model.Node as model;
ghost use Rattle.lane_model.specs.node_model.Turns as turns;
ghost use Rattle.home_directory.specs.Table.{meets};
ghost use Rattle.state_table.specs.States.{state_of};
ghost use Rattle.node_machine.specs.node_words.node_memory.Shelf.{ground_of, local_of, all_wants};
ghost use Rattle.node_machine.specs.node_words.Kept.{wants_by};
ghost use Rattle.node_machine.specs.NodeState.{layout_of, IsProtocolState, AreCountsBelow};
ghost use Rattle.node_machine.specs.NodeState.{HasBegun};
ghost use Rattle.node_machine.specs.ProtocolState.{is_unmet, AreUnmet};
ghost use Rattle.lane_model.specs.Turns as lanes;
ghost use Rattle.lane_machine.specs.Waits.{wait_among, all_waits, awaits_of, AreApart};
ghost use Rattle.lane_machine.specs.ProtocolStates.{asked_by, stood};

use crate::lane_protocol::{LaneProtocol, need_of};
use block_layout::{Block, layout_law};
use home_directory::dsm_messages::{Need, Post, Sends};
use node_machine::node_words::{ExecState, Following, Want, Wants};
use node_machine::{ProtocolState, put, want_of_other_block};

/// The blocks that a lane waits for: at most two.
#[derive(Clone, Copy, PartialEq, Eq)]
pub(crate) struct Awaits {
    pub first: Option<Block>,
    pub other: Option<Block>,
}

/// No block.
pub(crate) const NO_BLOCK: Awaits = Awaits {
    first: None,
    other: None,
};

/// What came of a want of a line.
#[derive(Drop)]
struct Asked {
    /// The message that asks for its block.
    pub post: Option<Post>,
    /// The block, where the lane waits for it.
    pub block: Option<Block>,
    /// Whether the lane executes its word again then.
    pub again: bool,
}

/// What came of all that a word wants.
#[derive(Clone, Copy, PartialEq, Eq)]
pub(crate) struct AskedAll {
    pub awaits: Awaits,
    pub again: bool,
}

/// A word wants a line.
fn ask(
    body: &mut ExecState<'_>,
    protocol: &mut ProtocolState,
    places: &[LaneProtocol],
    want: Want,
) -> Asked
    requires protocol { IsProtocolState (layout_of body.old) protocol.old }
    requires apart { AreApart (all_waits protocol.old places.now) }
    requires few { length protocol.old.waits.waits < 2 }
    requires counts { AreCountsBelow (2 ^ 63) body.old.counts }
    ensures turn { (n : model.Node) (posts : List Post) (p : Option ℕ) (again : Bool) →
        lanes.ask (layout_of body.old) want.need (block_of (layout_of body.old) (line_of want.at))
        (asked_by (stood n body.old protocol.old places.now) posts p again)
        ≡ asked_by (stood n body.new protocol.new places.now) (posts ++ option_to_list result.post)
        p
        (again || result.again) }
    ensures awaits { option_to_list result.block
        ≡ lanes.still (wait_among (all_waits protocol.new places.now))
        (option_to_list (block_of (layout_of body.old) (line_of want.at))) }
    ensures begun { length protocol.old.waits.waits ≡ 0
        → is_unmet want.need ((local_of body.old.local).state (line_of want.at)) ≡ true
        → is_some result.block ≡ true }
    ensures others { (b : ℕ)
        → (block_of (layout_of body.old) (line_of want.at) ≡ Some b → ⊥)
        → wait_among (all_waits protocol.new places.now) b
        ≡ wait_among (all_waits protocol.old places.now) b }
    ensures own { (b : ℕ) → is_some (wait_of protocol.new.waits b) ≡ true
        → (result.block ≡ Some b → ⊥) → is_some (wait_of protocol.old.waits b) ≡ true }
    ensures more { (b : ℕ) → is_some (wait_among (all_waits protocol.old places.now) b) ≡ true
        → is_some (wait_among (all_waits protocol.new places.now) b) ≡ true }
    ensures one { length protocol.new.waits.waits ≤ length protocol.old.waits.waits + 1 }
    ensures apart { AreApart (all_waits protocol.new places.now) }
    ensures protocol { IsProtocolState (layout_of body.old) protocol.new }
    ensures directory { protocol.new.directory ≡ protocol.old.directory }
    ensures lane { body.new.lane ≡ body.old.lane }
    ensures ground { ground_of body.new.local ≡ ground_of body.old.local }
    ensures counts { (most : ℕ) → AreCountsBelow most body.old.counts
        → AreCountsBelow (most + 1) body.new.counts }
{
    layout_law();
    body.local.laws();
    match body.local.block_of(want.at) {
        None => Asked {
            post: None,
            block: None,
            again: false,
        },
        Some(block) => ask_block(body, protocol, places, block, want.need),
    }
}

/// A word wants a block.
fn ask_block(
    body: &mut ExecState<'_>,
    protocol: &mut ProtocolState,
    places: &[LaneProtocol],
    block: Block,
    need: Need,
) -> Asked
    requires protocol { IsProtocolState (layout_of body.old) protocol.old }
    requires apart { AreApart (all_waits protocol.old places.now) }
    requires few { length protocol.old.waits.waits < 2 }
    requires counts { AreCountsBelow (2 ^ 63) body.old.counts }
    requires block { block < blocks (layout_of body.old) }
    ensures turn { (n : model.Node) (posts : List Post) (p : Option ℕ) (again : Bool) →
        lanes.ask_block (layout_of body.old) block need
        (asked_by (stood n body.old protocol.old places.now) posts p again)
        ≡ asked_by (stood n body.new protocol.new places.now) (posts ++ option_to_list result.post)
        p
        (again || result.again) }
    ensures awaits { option_to_list result.block
        ≡ lanes.still (wait_among (all_waits protocol.new places.now)) (block ∷ []) }
    ensures begun { length protocol.old.waits.waits ≡ 0
        → meets need (state_of body.old.local.states block) ≡ false
        → is_some result.block ≡ true }
    ensures others { (b : ℕ) → (b ≡ block → ⊥)
        → wait_among (all_waits protocol.new places.now) b
        ≡ wait_among (all_waits protocol.old places.now) b }
    ensures own { (b : ℕ) → is_some (wait_of protocol.new.waits b) ≡ true
        → (result.block ≡ Some b → ⊥) → is_some (wait_of protocol.old.waits b) ≡ true }
    ensures more { (b : ℕ) → is_some (wait_among (all_waits protocol.old places.now) b) ≡ true
        → is_some (wait_among (all_waits protocol.new places.now) b) ≡ true }
    ensures one { length protocol.new.waits.waits ≤ length protocol.old.waits.waits + 1 }
    ensures apart { AreApart (all_waits protocol.new places.now) }
    ensures protocol { IsProtocolState (layout_of body.old) protocol.new }
    ensures directory { protocol.new.directory ≡ protocol.old.directory }
    ensures lane { body.new.lane ≡ body.old.lane }
    ensures ground { ground_of body.new.local ≡ ground_of body.old.local }
    ensures counts { (most : ℕ) → AreCountsBelow most body.old.counts
        → AreCountsBelow (most + 1) body.new.counts }
{
    match need_of(protocol, places, block) {
        Some(have) => Asked {
            post: None,
            block: Some(block),
            again: is_beyond(have, need),
        },
        None => {
            let post = protocol.want_block(body, block, need);
            Asked {
                post,
                block: awaited(protocol, block),
                again: false,
            }
        }
    }
}

/// A block, where the node waits for it on behalf of the lane in use.
fn awaited(protocol: &ProtocolState, block: Block) -> Option<Block>
    ensures { option_to_list result ≡ lanes.still (wait_of protocol.now.waits) (block ∷ []) }
{
    if protocol.waits.waits_for(block) {
        Some(block)
    } else {
        None
    }
}

/// Whether a block that is waited for isn't what a lane needs of it then: it is needed to write it,
/// and will come to be read.
fn is_beyond(have: Need, need: Need) -> bool
    ensures { result ≡ lanes.is_beyond have need }
{
    have == Need::Read && need == Need::Write
}

/// A word wants lines.
fn ask_wants(
    body: &mut ExecState<'_>,
    protocol: &mut ProtocolState,
    places: &[LaneProtocol],
    wants: Wants,
    sends: &mut Sends,
) -> AskedAll
    requires nothing { sends.old.items ≡ [] }
    requires protocol { IsProtocolState (layout_of body.old) protocol.old }
    requires apart { AreApart (all_waits protocol.old places.now) }
    requires idle { length protocol.old.waits.waits ≡ 0 }
    requires counts { AreCountsBelow (2 ^ 62) body.old.counts }
    ensures turn { (n : model.Node) (p : Option ℕ) → lanes.ask_all (layout_of body.old)
        (turns.each_block_once (layout_of body.old) (all_wants wants))
        (asked_by (stood n body.old protocol.old places.now) [] p false)
        ≡ asked_by (stood n body.new protocol.new places.now) sends.new.items p result.again }
    ensures awaits { awaits_of result.awaits
        ≡ lanes.still (wait_among (all_waits protocol.new places.now))
        (lanes.blocks_of (layout_of body.old)
        (turns.each_block_once (layout_of body.old) (all_wants wants))) }
    ensures begun { let state = (local_of body.old.local).state (line_of wants.first.at) in
        is_unmet wants.first.need state ≡ true → is_some result.awaits.first ≡ true }
    ensures own { (b : ℕ) → is_some (wait_of protocol.new.waits b) ≡ true
        → (result.awaits.first ≡ Some b → ⊥) → (result.awaits.other ≡ Some b → ⊥) → ⊥ }
    ensures more { (b : ℕ) → is_some (wait_among (all_waits protocol.old places.now) b) ≡ true
        → is_some (wait_among (all_waits protocol.new places.now) b) ≡ true }
    ensures apart { AreApart (all_waits protocol.new places.now) }
    ensures protocol { IsProtocolState (layout_of body.old) protocol.new }
    ensures directory { protocol.new.directory ≡ protocol.old.directory }
    ensures lane { body.new.lane ≡ body.old.lane }
    ensures ground { ground_of body.new.local ≡ ground_of body.old.local }
    ensures counts { (most : ℕ) → AreCountsBelow most body.old.counts
        → AreCountsBelow (most + 2) body.new.counts }
{
    layout_law();
    body.local.laws();
    let first = ask(body, protocol, places, wants.first);
    let Some(want) = want_of_other_block(&body.local, wants) else {
        put(sends, first.post, None);
        return AskedAll {
            awaits: Awaits {
                first: first.block,
                other: None,
            },
            again: first.again,
        };
    };
    let other = ask(body, protocol, places, want);
    put(sends, first.post, other.post);
    AskedAll {
        awaits: Awaits {
            first: first.block,
            other: other.block,
        },
        again: first.again || other.again,
    }
}

/// Asks for what a word wants, by what follows it.
pub(crate) fn ask_all(
    body: &mut ExecState<'_>,
    protocol: &mut ProtocolState,
    places: &[LaneProtocol],
    following: Following,
    sends: &mut Sends,
) -> AskedAll
    requires nothing { sends.old.items ≡ [] }
    requires protocol { IsProtocolState (layout_of body.old) protocol.old }
    requires apart { AreApart (all_waits protocol.old places.now) }
    requires idle { length protocol.old.waits.waits ≡ 0 }
    requires counts { AreCountsBelow (2 ^ 62) body.old.counts }
    ensures turn { (n : model.Node) (p : Option ℕ) → lanes.ask_all (layout_of body.old)
        (turns.each_block_once (layout_of body.old) (wants_by following))
        (asked_by (stood n body.old protocol.old places.now) [] p false)
        ≡ asked_by (stood n body.new protocol.new places.now) sends.new.items p result.again }
    ensures awaits { awaits_of result.awaits
        ≡ lanes.still (wait_among (all_waits protocol.new places.now))
        (lanes.blocks_of (layout_of body.old)
        (turns.each_block_once (layout_of body.old) (wants_by following))) }
    ensures begun { AreUnmet (local_of body.old.local) (wants_by following)
        → HasBegun following (length (awaits_of result.awaits)) }
    ensures own { (b : ℕ) → is_some (wait_of protocol.new.waits b) ≡ true
        → (result.awaits.first ≡ Some b → ⊥) → (result.awaits.other ≡ Some b → ⊥) → ⊥ }
    ensures more { (b : ℕ) → is_some (wait_among (all_waits protocol.old places.now) b) ≡ true
        → is_some (wait_among (all_waits protocol.new places.now) b) ≡ true }
    ensures silent { wants_by following ≡ [] → sends.new.items ≡ [] }
    ensures apart { AreApart (all_waits protocol.new places.now) }
    ensures protocol { IsProtocolState (layout_of body.old) protocol.new }
    ensures directory { protocol.new.directory ≡ protocol.old.directory }
    ensures lane { body.new.lane ≡ body.old.lane }
    ensures ground { ground_of body.new.local ≡ ground_of body.old.local }
    ensures counts { (most : ℕ) → AreCountsBelow most body.old.counts
        → AreCountsBelow (most + 2) body.new.counts }
{
    match following {
        Following::Waits(_, wants) => ask_wants(body, protocol, places, wants, sends),
        Following::GoesOn | Following::Leaves(_) => AskedAll {
            awaits: NO_BLOCK,
            again: false,
        },
    }
}
