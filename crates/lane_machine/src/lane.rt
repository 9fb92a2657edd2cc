//! A processor of a node of several.

ghost use Rattle.std.specs.Prelude.{◌≡◌, ◌≢◌, ◌+◌, ◌^◌, ◌<◌, ◌≤◌, ℕ, [], None, true, false};
ghost use Rattle.std.specs.Prelude.{IfOk, is_some, length};
ghost use Rattle.exec_map.specs.Contents.{program_of};
ghost use Rattle.lane_model.specs.node_model.Node as model;
ghost use Rattle.lane_model.specs.node_model.Turns as turns;
ghost use Rattle.node_machine.specs.node_words.node_memory.Shelf.{local_of};
ghost use Rattle.node_machine.specs.NodeState.{AreCountsBelow};
ghost use Rattle.lane_model.specs.Nodes as lanes;
ghost use Rattle.lane_model.specs.Turns as moves;
ghost use Rattle.lane_model.specs.Core as core;
ghost use Rattle.lane_machine.specs.Waits.{wait_among, waits_in};
ghost use Rattle.lane_machine.specs.Places.{reserved_in, wait_at};
ghost use Rattle.lane_machine.specs.Stored.{HasLane, HasRoom, HasGoneOn, IsHeld};
ghost use Rattle.lane_machine.specs.Stored.{WaitsFor, lane_turn, part_of, work_of, with_lane};
ghost use Rattle.lane_machine.specs.InUse.{ArePutBack, IsAlone};
ghost use Rattle.lane_machine.specs.declared.stored.StoredLane.{StoredLane};
ghost use Rattle.lane_machine.specs.declared.stored.StoredShared.{StoredShared};

use crate::asking::NO_BLOCK;
use crate::lane_protocol::LaneProtocol;
use crate::shared::Shared;
use crate::stored::StoredLane;
use byte_range::Window;
use exec_map::{End, Program};
use home_directory::dsm_messages::Sends;
use node_machine::jump_map::Image;
use node_machine::node_words::{ExecState, index_of};
use node_machine::{BareTurn, LaneState, Phase, Standing, standing_at};
use run_limits::Budget;
use rv32_step::Registers;
use std::alloc::{AllocError, Global};
use std::marker::Model;

/// A processor that runs rewritten code of a program, on a node which it shares with others.
#[derive(Drop)]
pub struct Lane<'a> {
    pub(crate) inner: StoredLane<'a>,
}

impl<'a> Model for Lane<'a> {
    ghost use Rattle.lane_machine.specs.declared.stored.StoredLane.{StoredLane as Stored};
    ghost use Rattle.lane_machine.specs.Stored.{IsLane};

    ghost Value = { Stored };

    ghost view = { λ l. l.inner };

    ghost invariant = { λ l. IsLane l.inner };
}

impl<'a> Lane<'a> {
    /// Processor p at the start: lane number `lane` of its node. It executes at most `budget`
    /// words.
    pub fn new(
        alloc: Global,
        image: &'a Image,
        program: &'a Program<'a>,
        lane: u8,
        p: u8,
        processors: u8,
        budget: Budget,
    ) -> Result<Lane<'a>, AllocError>
        ensures opening { IfOk result (λ l. (w : lanes.LaneWork)
            → w.work.program ≡ program_of program.now → w.work.image ≡ image.now
            → lanes.processors w ≡ processors → part_of l ≡ lanes.first_part w p) }
        ensures image { IfOk result (λ l. l.state.image.now ≡ image.now) }
        ensures budget { IfOk result (λ l. l.state.budget ≡ budget) }
        ensures number { IfOk result (λ l. l.number ≡ lane) }
    {
        // brings: the image's words have 32 bits, and are few enough
        let _ = image.len();
        // brings: the budget is in its range
        let _ = budget.number();
        Ok(Lane {
            inner: StoredLane {
                state: LaneState {
                    image,
                    budget,
                    at: index_of(image.new_of(program.entry()).unwrap_or(0)),
                    executed: 0,
                    phase: Phase::Running,
                },
                number: lane,
                lane: node_machine::node_words::ProcessorState {
                    registers: Registers::first(p, processors),
                    private: Window::zeros(alloc)?,
                    written: 0,
                    off: 0,
                    spills: [0; 3],
                },
                awaits: NO_BLOCK,
                again: false,
            },
        })
    }

    /// What the lane may do next. It is never over.
    pub fn standing(&self) -> Standing
        ensures value { (w : lanes.LaneWork) (x : lanes.LaneNode) (k : ℕ)
            → w.work.image ≡ self.now.state.image.now → x.lanes k ≡ part_of self.now
            → result ≡ core.standing_of w x k }
    {
        match self.inner.state.phase {
            Phase::Running => standing_at(self.inner.state.next_word()),
            Phase::Resumed => Standing::Running,
            Phase::Waiting(_) => Standing::Waiting,
            Phase::Ended(_) => Standing::Ended,
        }
    }

    /// How the lane ended; `None` exactly where it hasn't.
    pub fn end(&self) -> Option<End>
        ensures value { result ≡ model.end_of (part_of self.now).phase }
    {
        self.inner.state.end()
    }

    /// How many words the lane has executed.
    pub(crate) fn executed(&self) -> u64
        ensures value { result ≡ (part_of self.now).executed }
        ensures few { result ≤ 2 ^ 32 }
    {
        // brings: the budget is in its range
        let _ = self.inner.state.budget.number();
        self.inner.state.executed
    }

    /// Whether the lane has ended.
    pub(crate) fn has_ended(&self) -> bool
        ensures { result ≡ turns.is_ended (part_of self.now).phase }
    {
        self.inner.state.has_ended()
    }

    /// Executes one word, and leaves what the node sends, in order.
    pub fn exec(&mut self, shared: &mut Shared<'_>, sends: &mut Sends) -> BareTurn
        requires number { self.old.number < length shared.old.places.items }
        requires idle { (b : ℕ) → wait_at shared.old.places.items self.old.number b ≡ None }
        requires may { model.can_execute (part_of self.old).phase ≡ true }
        requires goes_on { shared.old.ended < length shared.old.places.items }
        requires room { HasRoom shared.old }
        requires stamp { shared.old.state.stamp < 2 ^ 56 }
        ensures node { (x : lanes.LaneNode) → HasLane self.old shared.old x →
            with_lane x self.new shared.new
            ≡ (moves.word_turn (work_of self.old shared.old) x self.old.number).node }
        ensures sends { (x : lanes.LaneNode) → HasLane self.old shared.old x →
            sends.new.items
            ≡ (moves.word_turn (work_of self.old shared.old) x self.old.number).sends }
        ensures output { (x : lanes.LaneNode) → HasLane self.old shared.old x →
            result.output
            ≡ (moves.word_turn (work_of self.old shared.old) x self.old.number).printed }
        ensures ended { (x : lanes.LaneNode) → HasLane self.old shared.old x →
            HasLane self.new shared.new (with_lane x self.new shared.new) }
        ensures waits { WaitsFor self.new shared.new }
        ensures held { IsHeld self.new shared.new }
        ensures more { (b : ℕ)
            → is_some (wait_among (waits_in shared.old.places.items) b) ≡ true
            → is_some (wait_among (waits_in shared.new.places.items) b) ≡ true }
        ensures others { (k b : ℕ) → k ≢ self.old.number
            → wait_at shared.new.places.items k b ≡ wait_at shared.old.places.items k b }
        ensures stamp { result.stamp ≡ shared.new.state.stamp }
        ensures stamps { shared.new.state.stamp ≡ shared.old.state.stamp + 1 }
        ensures number { self.new.number ≡ self.old.number }
        ensures work { work_of self.new shared.new ≡ work_of self.old shared.old }
    {
        self.inner.exec(&mut shared.inner, sends)
    }

    /// Whether no other lane has reserved an address.
    pub fn is_alone(&self, shared: &Shared<'_>) -> bool
        ensures { result ≡ true → IsAlone self.now shared.now }
    {
        self.inner.is_alone(&shared.inner)
    }

    /// Puts the registers and the reservation in use at the node, where those of no lane are.
    #[inline(always)]
    pub fn put_in_use(&mut self, shared: &mut Shared<'_>)
        requires number { self.old.number < length shared.old.places.items }
        ensures back { ArePutBack self.new shared.new self.old shared.old }
    {
        self.inner.put_in_use(&mut shared.inner);
    }

    /// Puts the registers and the reservation back that are in use.
    #[inline(always)]
    pub fn put_back(&mut self, shared: &mut Shared<'_>)
        requires number { self.old.number < length shared.old.places.items }
        ensures back { ArePutBack self.old shared.old self.new shared.new }
    {
        self.inner.put_back(&mut shared.inner);
    }

    /// The same while no address is reserved in use.
    #[inline(always)]
    pub fn leave_use(&mut self, shared: &mut Shared<'_>)
        requires number { self.old.number < length shared.old.places.items }
        requires none { shared.old.state.body.value.local.reservation ≡ None }
        ensures back { ArePutBack self.old shared.old self.new shared.new }
        ensures none { shared.new.state.body.value.local.reservation ≡ None }
    {
        self.inner.leave_use(&mut shared.inner);
    }

    /// Puts the registers in use at the node, where those of no lane are and neither this lane has
    /// reserved an address nor is one reserved in use.
    #[inline(always)]
    pub fn enter_use(&mut self, shared: &mut Shared<'_>)
        requires number { self.old.number < length shared.old.places.items }
        requires none { shared.old.state.body.value.local.reservation ≡ None }
        requires free { reserved_in shared.old.places.items self.old.number ≡ None }
        ensures back { ArePutBack self.new shared.new self.old shared.old }
    {
        self.inner.enter_use(&mut shared.inner);
    }

    /// A lane in use executes its next word by its micro-op, where that serves it and the budget
    /// has a further word for after it. Otherwise nothing changes.
    #[inline(always)]
    pub fn exec_in_use(&mut self, shared: &mut Shared<'_>) -> bool
        requires number { self.old.number < length shared.old.places.items }
        requires idle { (b : ℕ) → wait_at shared.old.places.items self.old.number b ≡ None }
        requires may { model.can_execute (part_of self.old).phase ≡ true }
        requires goes_on { shared.old.ended < length shared.old.places.items }
        requires alone { IsAlone self.old shared.old }
        requires stamp { shared.old.state.stamp < 2 ^ 56 }
        // The turn is that of the lane which is put back before the word and after it.
        ensures turn { result ≡ true → (l m : StoredLane) (f g : StoredShared)
            → ArePutBack self.old shared.old l f → ArePutBack self.new shared.new m g
            → (x : lanes.LaneNode) → HasLane l f x → moves.word_turn (work_of l f) x l.number
            ≡ lane_turn (with_lane x m g) [] None }
        ensures ended { result ≡ true → (l m : StoredLane) (f g : StoredShared)
            → ArePutBack self.old shared.old l f → ArePutBack self.new shared.new m g
            → (x : lanes.LaneNode) → HasLane l f x → HasLane m g (with_lane x m g) }
        ensures may { result ≡ true → model.can_execute (part_of self.new).phase ≡ true }
        ensures waits { result ≡ true → WaitsFor self.new shared.new }
        ensures held { result ≡ true → IsHeld self.new shared.new }
        ensures stamps { result ≡ true → shared.new.state.stamp ≡ shared.old.state.stamp + 1 }
        ensures same { result ≡ false → self.new ≡ self.old }
        ensures kept { result ≡ false → shared.new ≡ shared.old }
        ensures places { shared.new.places ≡ shared.old.places }
        ensures number { self.new.number ≡ self.old.number }
        ensures work { work_of self.new shared.new ≡ work_of self.old shared.old }
    {
        self.inner.exec_in_use(&mut shared.inner)
    }

    /// Whether the lane may execute a word.
    #[inline]
    pub fn may_execute(&self) -> bool
        ensures { result ≡ model.can_execute (part_of self.now).phase }
    {
        matches!(self.inner.state.phase, Phase::Running | Phase::Resumed)
    }

    /// Goes on where it waits for no block any more, by what its word's lines allow now.
    pub(crate) fn resume_if_served(&mut self, body: &mut ExecState<'_>, places: &[LaneProtocol])
        requires counts { AreCountsBelow (2 ^ 63) body.old.counts }
        ensures gone { HasGoneOn (local_of body.old.local).state
            (wait_among (waits_in places.now)) self.old self.new }
        ensures counts { (n : model.Node) → n.wait ≡ wait_among (waits_in places.now)
            → n.local.state ≡ (local_of body.old.local).state
            → body.new.counts ≡ model.counts_after
            (moves.tally_on n.local (part_of self.old) (part_of self.old).phase
            (moves.still n.wait (part_of self.old).awaits)) body.old.counts }
        ensures lane { body.new.lane ≡ body.old.lane }
        ensures local { body.new.local ≡ body.old.local }
    {
        self.inner.resume_if_served(body, places);
    }
}
