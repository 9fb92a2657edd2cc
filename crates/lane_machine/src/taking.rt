//! A message from a node, at a node of several lanes.

ghost use Rattle.std.specs.Prelude.{◌≡◌, ◌+◌, ◌^◌, ◌<◌, ◌≤◌, ◌⊎◌, ℕ, true, None, length, is_some};
ghost use Rattle.std.specs.Prelude.{if◌then◌else◌, slice_index_or, Some, ◌==◌, ◌&&◌, not};
ghost use Rattle.block_layout.specs.Layout.{blocks};
ghost use Rattle.llsc.specs.Reservation.{cleared};
ghost use Rattle.node_machine.specs.miss_handlers.Effects.{named_block};
ghost use Rattle.lane_model.specs.node_model.Node as model;
ghost use Rattle.lane_model.specs.node_model.Turns as turns;
ghost use Rattle.node_machine.specs.node_words.node_memory.Shelf.{ground_of, local_of};
ghost use Rattle.node_machine.specs.NodeState.{layout_of, AreCountsBelow};
ghost use Rattle.node_machine.specs.ProtocolState.{turn_by, is_order};
ghost use Rattle.lane_model.specs.Nodes.{LaneWork, LaneNode};
ghost use Rattle.lane_model.specs.Turns as moves;
ghost use Rattle.lane_machine.specs.Waits.{wait_among, place_among, waits_in, held_in};
ghost use Rattle.lane_machine.specs.Places.{reserved_in};
ghost use Rattle.lane_machine.specs.Places.{wait_at, pools_in, is_spared};
ghost use Rattle.lane_machine.specs.Words.{cleared_by};
ghost use Rattle.lane_machine.specs.Stored.{IsAtRest, IsShared, HasGoneOn, HaveParts, HasRoom};
ghost use Rattle.lane_machine.specs.Stored.{AreLanes, HaveLanes, AllHeld};
ghost use Rattle.lane_machine.specs.Stored.{AllWaitFor, ended_in, seen_with};
ghost use Rattle.lane_machine.specs.declared.stored.StoredLane.{StoredLane};

use crate::lane::Lane;
use crate::lane_protocol::{LaneProtocol, holder_of, swap_waits};
use crate::stored::StoredShared;
use block_layout::{Block, Layout};
use home_directory::dsm_messages::{Message, Sends, Wire};
use node_machine::node_words::ExecState;
use node_machine::{BareTurn, ProtocolState, add_byes, handle};

/// Takes a message from a node, and leaves what the node sends, in order.
pub fn take(
    shared: &mut StoredShared<'_>,
    lanes: &mut [Lane<'_>],
    from: u8,
    wire: Wire,
    sends: &mut Sends,
) -> BareTurn
    requires shared { IsShared shared.old }
    requires count { length lanes.old ≡ length shared.old.places.items }
    requires room { HasRoom shared.old }
    requires stamp { shared.old.state.stamp < 2 ^ 56 }
    requires wire { wire.stamp < 2 ^ 56 }
    requires held { AllHeld lanes.old shared.old }
    requires ended { (x : LaneNode) → HaveParts lanes.old x
        → shared.old.ended ≡ ended_in x (length lanes.old) }
    ensures node { (w : LaneWork) (x : LaneNode) → AreLanes w lanes.old shared.old
        → HaveLanes lanes.old shared.old x
        → HaveLanes lanes.new shared.new (moves.take_turn w x from wire).node }
    ensures sends { (w : LaneWork) (x : LaneNode) → AreLanes w lanes.old shared.old
        → HaveLanes lanes.old shared.old x
        → sends.new.items ≡ (moves.take_turn w x from wire).sends }
    ensures lanes { (w : LaneWork) → AreLanes w lanes.old shared.old
        → AreLanes w lanes.new shared.new }
    ensures waits { (w : LaneWork) → AreLanes w lanes.old shared.old
        → AllWaitFor lanes.old shared.old → AllWaitFor lanes.new shared.new }
    ensures held { AllHeld lanes.new shared.new }
    ensures output { result.output ≡ None }
    ensures stamp { result.stamp ≡ shared.new.state.stamp }
    ensures stamps { shared.new.state.stamp ≡ turns.later shared.old.state.stamp wire.stamp + 1 }
    ensures shared { IsShared shared.new }
{
    let ended_before = shared.ended;
    let executed = words_of(lanes);
    shared.state.note_take(from, wire.stamp, executed);
    let state = &mut shared.state;
    receive(
        &mut state.body,
        &mut state.protocol,
        &mut shared.places,
        &shared.layout,
        &mut state.byes,
        from,
        wire.message,
        sends,
    );
    shared.ended = resume_lanes(lanes, &mut shared.state.body, &shared.places);
    let last = is_last_end(ended_before, shared.ended, lanes.len());
    add_byes(sends, shared.layout.nodes(), last);
    BareTurn {
        stamp: shared.state.stamp,
        output: None,
    }
}

/// Whether the last of `lanes` lanes has ended, when `before` had ended before and `now` have now.
fn is_last_end(before: u8, now: u8, lanes: usize) -> bool
    ensures { result ≡ ((now == lanes) && not (before == lanes)) }
{
    now as usize == lanes && before as usize != lanes
}

/// How many words the lanes have executed.
fn words_of(lanes: &[Lane<'_>]) -> u64
    requires few { length lanes.now ≤ 4 }
    ensures words { (x : LaneNode) → HaveParts lanes.now x
        → result ≡ moves.words_of x (length lanes.now) }
    ensures few { result ≤ 2 ^ 34 }
{
    let mut words = 0;
    for lane in lanes {
        words += lane.executed();
    }
    words
}

/// Each lane that waits for no block any more goes on. It gives how many lanes have ended.
fn resume_lanes(lanes: &mut [Lane<'_>], body: &mut ExecState<'_>, places: &[LaneProtocol]) -> u8
    requires few { length lanes.old ≤ 4 }
    requires counts { AreCountsBelow (2 ^ 62) body.old.counts }
    ensures gone { (k : ℕ) (d : StoredLane) → k < length lanes.old
        → HasGoneOn (local_of body.old.local).state (wait_among (waits_in places.now))
        (slice_index_or lanes.old k d) (slice_index_or lanes.new k d) }
    ensures counts { (n : model.Node) (x : LaneNode) → n.wait ≡ wait_among (waits_in places.now)
        → n.local.state ≡ (local_of body.old.local).state → n.counts ≡ body.old.counts
        → HaveParts lanes.old x
        → body.new.counts ≡ moves.counted n x.lanes (length lanes.old) }
    ensures below { (most : ℕ) → AreCountsBelow most body.old.counts
        → AreCountsBelow (most + 4) body.new.counts }
    ensures ended { (x : LaneNode) → HaveParts lanes.new x
        → result ≡ ended_in x (length lanes.old) }
    ensures few { result ≤ length lanes.old }
    ensures count { length lanes.new ≡ length lanes.old }
    ensures lane { body.new.lane ≡ body.old.lane }
    ensures local { body.new.local ≡ body.old.local }
{
    let mut ended = 0;
    for k in 0..lanes.len() {
        lanes[k].resume_if_served(body, places);
        if lanes[k].has_ended() {
            ended += 1;
        }
    }
    ended
}

/// A message from a node, handled on behalf of the lane that waits for its block.
pub fn receive(
    body: &mut ExecState<'_>,
    protocol: &mut ProtocolState,
    places: &mut Vec<LaneProtocol>,
    layout: &Layout,
    byes: &mut [bool; 256],
    from: u8,
    message: Message,
    sends: &mut Sends,
)
    requires rest { IsAtRest (layout_of body.old) protocol.old places.old.items }
    requires layout { layout.now ≡ layout_of body.old }
    requires few { length places.old.items ≤ 4 }
    requires some { 0 < length places.old.items }
    requires counts { AreCountsBelow (2 ^ 63) body.old.counts }
    ensures turn { (n : model.Node) (k : ℕ) → n.me ≡ protocol.old.directory.me →
        turns.handled (layout_of body.old)
        (seen_with n k body.old protocol.old places.old.items byes.old) from message
        ≡ turn_by (seen_with n k body.new protocol.new places.new.items byes.new) sends.new.items
        None }
    ensures holders { (b : ℕ)
        → is_some (wait_among (waits_in places.new.items) b) ≡ true
        → place_among (waits_in places.new.items) b ≡ held_in (waits_in places.old.items) b }
    ensures fewer { (k b : ℕ) → is_some (wait_at places.new.items k b) ≡ true
        → is_some (wait_at places.old.items k b) ≡ true }
    ensures few { (length sends.new.items ≤ 1) ⊎ ((b : ℕ)
        → is_some (wait_among (waits_in places.new.items) b)
        ≡ is_some (wait_among (waits_in places.old.items) b)) }
    ensures rest { IsAtRest (layout_of body.old) protocol.new places.new.items }
    ensures places { length places.new.items ≡ length places.old.items }
    ensures me { protocol.new.directory.me ≡ protocol.old.directory.me }
    ensures lane { body.new.lane ≡ body.old.lane }
    ensures ground { ground_of body.new.local ≡ ground_of body.old.local }
    ensures counts { (most : ℕ) → AreCountsBelow most body.old.counts
        → AreCountsBelow (most + 18) body.new.counts }
{
    let given_up = given_up(&message);
    let lane = holder_in(places, named_block(&message)) as usize;
    swap_waits(protocol, &mut places[lane]);
    handle(protocol, body, byes, from, message, sends);
    swap_waits(protocol, &mut places[lane]);
    clear_given(places, layout, given_up, !sends.is_empty());
}

/// The reservations in a block that was given up end, where a message was sent for it.
fn clear_given(places: &mut Vec<LaneProtocol>, layout: &Layout, given_up: Option<Block>, sent: bool)
    requires block { (b : ℕ) → sent ≡ true → given_up ≡ Some b → b < blocks layout.now }
    ensures reserved { (k : ℕ) → reserved_in places.new.items k
        ≡ cleared_by layout.now (if sent then given_up else None)
        (reserved_in places.old.items k) }
    ensures places { length places.new.items ≡ length places.old.items }
    ensures waits { waits_in places.new.items ≡ waits_in places.old.items }
    ensures pools { pools_in places.new.items ≡ pools_in places.old.items }
{
    if !sent {
        return;
    }
    match given_up {
        Some(block) => clear(places, layout, block, None),
        None => {}
    }
}

/// The lane that holds the wait for a block: lane 0 where there is none.
fn holder_in(places: &[LaneProtocol], block: Option<Block>) -> u8
    requires few { length places.now ≤ 4 }
    requires some { 0 < length places.now }
    ensures lane { result < length places.now }
    ensures wait { (b : ℕ) → block ≡ Some b → result ≡ held_in (waits_in places.now) b }
{
    match block {
        Some(block) => holder_of(places, block),
        None => 0,
    }
}

/// The reservations that lanes have in a block end, but for that of a lane that is spared.
pub fn clear(places: &mut Vec<LaneProtocol>, layout: &Layout, block: Block, spared: Option<u8>)
    requires { block < blocks layout.now }
    ensures reserved { (k : ℕ) → reserved_in places.new.items k
        ≡ (if is_spared spared k then reserved_in places.old.items k
        else cleared layout.now block (reserved_in places.old.items k)) }
    ensures places { length places.new.items ≡ length places.old.items }
    ensures waits { waits_in places.new.items ≡ waits_in places.old.items }
    ensures pools { pools_in places.new.items ≡ pools_in places.old.items }
{
    for k in 0..places.len() {
        if !is_spared(spared, k) {
            places[k].reservation.clear_block(layout, block);
        }
    }
}

/// Whether a lane is the one that is spared.
fn is_spared(spared: Option<u8>, lane: usize) -> bool
    ensures { result ≡ is_spared spared lane }
{
    match spared {
        Some(spared) => lane == spared as usize,
        None => false,
    }
}

/// The block that a message is about.
fn named_block(message: &Message) -> Option<Block>
    ensures { result ≡ named_block message.now }
{
    match message {
        Message::Read { block, .. }
        | Message::Write { block, .. }
        | Message::FwdRead { block, .. }
        | Message::FwdWrite { block, .. }
        | Message::Inval { block, .. }
        | Message::Data { block, .. }
        | Message::Grant { block, .. }
        | Message::Ack { block }
        | Message::Done { block } => Some(*block),
        Message::Bye => None,
    }
}

/// The block that a message orders the node to give up.
fn given_up(message: &Message) -> Option<Block>
    ensures { result ≡ (if is_order message.now then named_block message.now else None) }
{
    match message {
        Message::FwdWrite { block, .. } | Message::Inval { block, .. } => Some(*block),
        _ => None,
    }
}
