//! What a lane, and the node that it shares, store, and a lane's events. How the parts fit
//! together is said by each call's clauses, and kept by the types above them.

ghost use Rattle.std.specs.Prelude.{◌≡◌, ◌⊎◌, ◌+◌, ◌^◌, ◌<◌, ◌==◌, ℕ, [], true, None, Some};
ghost use Rattle.std.specs.Prelude.{length, is_some, if◌then◌else◌};
ghost use Rattle.std.specs.Option.{option_to_list};
ghost use Rattle.lane_model.specs.node_model.Node as model;
ghost use Rattle.lane_model.specs.node_model.Turns as turns;
ghost use Rattle.node_machine.specs.node_words.node_memory.Shelf.{ground_of, local_of};
ghost use Rattle.node_machine.specs.node_words.Kept.{wants_by};
ghost use Rattle.node_machine.specs.NodeState.{layout_of, phase_of, AreCountsBelow, HasBegun};
ghost use Rattle.lane_model.specs.Nodes as lanes;
ghost use Rattle.lane_model.specs.Turns as moves;
ghost use Rattle.lane_machine.specs.Waits.{wait_among, place_among, waits_in, awaits_of};
ghost use Rattle.lane_machine.specs.Places.{wait_at};
ghost use Rattle.lane_machine.specs.Places.{reserved_in, pools_in};
ghost use Rattle.lane_machine.specs.Words.{reserved_after};
ghost use Rattle.lane_machine.specs.Stored.{IsAtRest, IsLane, IsShared, HasRoom, HasLane, part_of};
ghost use Rattle.lane_machine.specs.Stored.{HasGoneOn};
ghost use Rattle.lane_machine.specs.Stored.{IsHeld, WaitsFor, work_of};
ghost use Rattle.lane_machine.specs.Stored.{work_in, with_lane, lane_turn};
ghost use Rattle.lane_machine.specs.Stored.{seen_at, word_asks, served};
ghost use Rattle.lane_machine.specs.ProtocolStates.{asked_by};

use crate::asking::{AskedAll, Awaits, ask_all};
use crate::lane_protocol::{LaneProtocol, is_waited_for, swap_lane};
use crate::stores::stored_at;
use crate::taking::clear;
use block_layout::{Block, Layout, layout_law};
use home_directory::dsm_messages::Sends;
use node_machine::jump_map::Image;
use node_machine::node_words::{ExecState, ProcessorState, Served};
use node_machine::{BareTurn, LaneState, Phase, ProtocolState, SharedState, add_byes, is_ended};

/// What a lane stores.
#[derive(Drop)]
pub struct StoredLane<'a> {
    pub state: LaneState<'a>,
    /// The number of the lane on its node.
    pub number: u8,
    pub lane: ProcessorState,
    /// The blocks that it waits for.
    pub awaits: Awaits,
    /// Whether it executes its word again once it waits for none.
    pub again: bool,
}

/// What the lanes of a node share, as it is stored.
#[derive(Drop)]
pub struct StoredShared<'a> {
    pub state: SharedState<'a>,
    pub layout: Layout,
    /// What the node keeps for each lane.
    pub places: Vec<LaneProtocol>,
    /// How many lanes have ended.
    pub ended: u8,
}

/// What the path that serves every word did, and what came of what the word wants.
#[derive(Clone, Copy, PartialEq, Eq)]
struct Executed {
    pub served: Served,
    pub asked: AskedAll,
}

/// A lane executes its next word, and the node asks for what that wants.
fn execute(
    body: &mut ExecState<'_>,
    protocol: &mut ProtocolState,
    places: &mut Vec<LaneProtocol>,
    lane: &mut ProcessorState,
    number: u8,
    image: &Image,
    at: u32,
    sends: &mut Sends,
) -> Executed
    requires nothing { sends.old.items ≡ [] }
    requires rest { IsAtRest (layout_of body.old) protocol.old places.old.items }
    requires number { number < length places.old.items }
    requires idle { (b : ℕ) → wait_at places.old.items number b ≡ None }
    requires counts { AreCountsBelow (2 ^ 61) body.old.counts }
    ensures word { (n : model.Node) (budget : ℕ)
        → word_asks (work_in body.old image.now budget)
        (seen_at n number lane.old at body.old protocol.old places.old.items)
        ≡ asked_by (served
        (seen_at n number lane.new result.served.at body.new protocol.new places.new.items)
        budget result.served) sends.new.items result.served.output result.asked.again }
    ensures awaits { (n : model.Node) (budget : ℕ)
        → let work = work_in body.old image.now budget in
        let before = seen_at n number lane.old at body.old protocol.old places.old.items in
        awaits_of result.asked.awaits ≡ moves.still (wait_among (waits_in places.new.items))
        (moves.blocks_of work.layout (turns.each_block_once work.layout
        (turns.wants_of (model.word_outcome work before).move))) }
    ensures holders { (b : ℕ)
        → is_some (wait_among (waits_in places.new.items) b) ≡ true
        → place_among (waits_in places.new.items) b
        ≡ (if is_some (wait_among (waits_in places.old.items) b)
        then place_among (waits_in places.old.items) b else number) }
    ensures begun { HasBegun result.served.following (length (awaits_of result.asked.awaits)) }
    ensures own { (b : ℕ) → is_some (wait_at places.new.items number b) ≡ true
        → (result.asked.awaits.first ≡ Some b) ⊎ (result.asked.awaits.other ≡ Some b) }
    ensures more { (b : ℕ) → is_some (wait_among (waits_in places.old.items) b) ≡ true
        → is_some (wait_among (waits_in places.new.items) b) ≡ true }
    ensures others { (k b : ℕ) → (k ≡ number → ⊥)
        → wait_at places.new.items k b ≡ wait_at places.old.items k b }
    ensures reserved { (k : ℕ) → (k ≡ number → ⊥)
        → reserved_in places.new.items k ≡ reserved_in places.old.items k }
    ensures silent { wants_by result.served.following ≡ [] → sends.new.items ≡ [] }
    ensures rest { IsAtRest (layout_of body.old) protocol.new places.new.items }
    ensures places { length places.new.items ≡ length places.old.items }
    ensures me { protocol.new.directory.me ≡ protocol.old.directory.me }
    ensures ground { ground_of body.new.local ≡ ground_of body.old.local }
    ensures counts { (most : ℕ) → AreCountsBelow most body.old.counts
        → AreCountsBelow (most + 3) body.new.counts }
{
    swap_lane(body, protocol, lane, &mut places[number as usize]);
    let served = body.serve(image, at);
    let asked = ask_all(body, protocol, places, served.following, sends);
    swap_lane(body, protocol, lane, &mut places[number as usize]);
    Executed { served, asked }
}

/// Where a lane stores, the reservations of the others in the block end.
fn end_reservations(
    places: &mut Vec<LaneProtocol>,
    layout: &Layout,
    number: u8,
    stored: Option<u32>,
)
    ensures reserved { (k : ℕ) → reserved_in places.new.items k
        ≡ (if k == number then reserved_in places.old.items k
        else reserved_after layout.now stored (reserved_in places.old.items k)) }
    ensures places { length places.new.items ≡ length places.old.items }
    ensures waits { waits_in places.new.items ≡ waits_in places.old.items }
    ensures pools { pools_in places.new.items ≡ pools_in places.old.items }
{
    layout_law();
    // brings: the layout is valid
    let _ = layout.nodes();
    if let Some(address) = stored {
        if let Some(block) = layout.block_of(address / 64) {
            clear(places, layout, block, Some(number));
        }
    }
}

impl<'a> StoredLane<'a> {
    /// Executes one word, and leaves what the node sends, in order.
    pub fn exec(&mut self, shared: &mut StoredShared<'_>, sends: &mut Sends) -> BareTurn
        requires lane { IsLane self.old }
        requires shared { IsShared shared.old }
        requires number { self.old.number < length shared.old.places.items }
        requires idle { (b : ℕ) → wait_at shared.old.places.items self.old.number b ≡ None }
        requires may { model.can_execute (phase_of self.old.state.phase) ≡ true }
        requires goes_on { shared.old.ended < length shared.old.places.items }
        requires room { HasRoom shared.old }
        requires stamp { shared.old.state.stamp < 2 ^ 56 }
        ensures turn { (x : lanes.LaneNode) → HasLane self.old shared.old x →
            moves.word_turn (work_of self.old shared.old) x self.old.number
            ≡ lane_turn (with_lane x self.new shared.new) sends.new.items result.output }
        ensures ended { (x : lanes.LaneNode) → HasLane self.old shared.old x →
            HasLane self.new shared.new (with_lane x self.new shared.new) }
        ensures waits { WaitsFor self.new shared.new }
        ensures held { IsHeld self.new shared.new }
        ensures more { (b : ℕ)
            → is_some (wait_among (waits_in shared.old.places.items) b) ≡ true
            → is_some (wait_among (waits_in shared.new.places.items) b) ≡ true }
        ensures others { (k b : ℕ) → (k ≡ self.old.number → ⊥)
            → wait_at shared.new.places.items k b ≡ wait_at shared.old.places.items k b }
        ensures stamp { result.stamp ≡ shared.new.state.stamp }
        ensures stamps { shared.new.state.stamp ≡ shared.old.state.stamp + 1 }
        ensures number { self.new.number ≡ self.old.number }
        ensures work { work_of self.new shared.new ≡ work_of self.old shared.old }
        ensures lane { IsLane self.new }
        ensures shared { IsShared shared.new }
    {
        sends.clear();
        let reserved = shared.places[self.number as usize].reservation.address();
        let fetched = self.state.next_word();
        let stored = stored_at(fetched, &self.lane, reserved, self.state.at);
        let state = &mut shared.state;
        let done = execute(
            &mut state.body,
            &mut state.protocol,
            &mut shared.places,
            &mut self.lane,
            self.number,
            self.state.image,
            self.state.at,
            sends,
        );
        end_reservations(&mut shared.places, &shared.layout, self.number, stored);
        self.state.advance(done.served);
        self.awaits = done.asked.awaits;
        self.again = done.asked.again;
        shared.state.note_word(done.served.output);
        shared.ended = ended_with(shared.ended, self.state.phase);
        let all_ended = shared.ended as usize == shared.places.len();
        add_byes(sends, shared.layout.nodes(), all_ended);
        BareTurn {
            stamp: shared.state.stamp,
            output: done.served.output,
        }
    }

    /// Goes on where it waits for no block any more, by what its word's lines allow now.
    pub fn resume_if_served(&mut self, body: &mut ExecState<'_>, places: &[LaneProtocol])
        requires lane { IsLane self.old }
        requires counts { AreCountsBelow (2 ^ 63) body.old.counts }
        ensures gone { HasGoneOn (local_of body.old.local).state
            (wait_among (waits_in places.now)) self.old self.new }
        ensures counts { (n : model.Node) → n.wait ≡ wait_among (waits_in places.now)
            → n.local.state ≡ (local_of body.old.local).state
            → body.new.counts ≡ model.counts_after
            (moves.tally_on n.local (part_of self.old) (part_of self.old).phase
            (moves.still n.wait (part_of self.old).awaits)) body.old.counts }
        ensures body_lane { body.new.lane ≡ body.old.lane }
        ensures local { body.new.local ≡ body.old.local }
        ensures lane { IsLane self.new }
    {
        self.awaits = Awaits {
            first: still_waited(self.awaits.first, places),
            other: still_waited(self.awaits.other, places),
        };
        if let Phase::Waiting(resume) = self.state.phase {
            if self.awaits.first.is_none() && self.awaits.other.is_none() {
                let at = self.state.at;
                if self.again {
                    self.state.resume_at(at);
                } else {
                    let at = body.resume(resume, at);
                    self.state.resume_at(at);
                }
                self.again = false;
            }
        }
    }
}

/// How many lanes have ended, once one that hadn't is in this phase.
fn ended_with(ended: u8, phase: Phase) -> u8
    requires { ended < 4 }
    ensures { result ≡ (if turns.is_ended (phase_of phase) then ended + 1 else ended) }
{
    if is_ended(phase) { ended + 1 } else { ended }
}

/// A block, where a lane of the node waits for it.
fn still_waited(block: Option<Block>, places: &[LaneProtocol]) -> Option<Block>
    ensures { option_to_list result
        ≡ moves.still (wait_among (waits_in places.now)) (option_to_list block) }
{
    match block {
        Some(block) if is_waited_for(places, block) => Some(block),
        _ => None,
    }
}
