//! A lane's words by their micro-ops: they print nothing, and send nothing.

ghost use Rattle.std.specs.Prelude.{◌≡◌, ◌≢◌, ◌+◌, ◌^◌, ◌<◌, ℕ, [], true, false, None};
ghost use Rattle.std.specs.Prelude.{length};
ghost use Rattle.lane_model.specs.node_model.Node as model;
ghost use Rattle.node_machine.specs.NodeState.{phase_of};
ghost use Rattle.lane_model.specs.Nodes as lanes;
ghost use Rattle.lane_model.specs.Turns as moves;
ghost use Rattle.lane_machine.specs.Places.{reserved_in, wait_at};
ghost use Rattle.lane_machine.specs.InUse.{ArePutBack, IsAlone};
ghost use Rattle.lane_machine.specs.Stored.{IsHeld, IsLane, IsShared, HasLane};
ghost use Rattle.lane_machine.specs.Stored.{WaitsFor, lane_turn, with_lane, work_of};
ghost use Rattle.lane_machine.specs.declared.stored.StoredLane.{StoredLane};
ghost use Rattle.lane_machine.specs.declared.stored.StoredShared.{StoredShared};

use crate::asking::NO_BLOCK;
use crate::lane_protocol::{LaneProtocol, move_state};
use crate::stored::{StoredLane, StoredShared};
use node_machine::Phase;

/// Whether lane k, which has this place, has reserved an address, and isn't that of a number.
#[inline(always)]
fn reserves_beside(place: &LaneProtocol, k: usize, number: u8) -> bool
    ensures { result ≡ false → k ≢ number → place.now.reservation ≡ None }
{
    k != number as usize && place.reservation.address().is_some()
}

/// Whether a lane but for that of a number has reserved an address.
fn others_reserve(places: &[LaneProtocol], number: u8) -> bool
    ensures { result ≡ false → (k : ℕ) → k ≢ number → reserved_in places.now k ≡ None }
{
    for k in 0..places.len() {
        if reserves_beside(&places[k], k, number) {
            return true;
        }
    }
    false
}

impl<'a> StoredLane<'a> {
    /// Whether no other lane has reserved an address.
    pub fn is_alone(&self, shared: &StoredShared<'_>) -> bool
        ensures { result ≡ true → IsAlone self.now shared.now }
    {
        !others_reserve(&shared.places, self.number)
    }

    /// Puts the registers and the reservation in use at the node, where those of no lane are.
    #[inline(always)]
    pub fn put_in_use(&mut self, shared: &mut StoredShared<'_>)
        requires lane { IsLane self.old }
        requires shared { IsShared shared.old }
        requires number { self.old.number < length shared.old.places.items }
        ensures back { ArePutBack self.new shared.new self.old shared.old }
        ensures lane { IsLane self.new }
        ensures shared { IsShared shared.new }
    {
        let place = &mut shared.places[self.number as usize];
        move_state(&mut self.lane, &mut shared.state.body.lane);
        shared
            .state
            .body
            .local
            .swap_reservation(&mut place.reservation);
    }

    /// Puts the registers and the reservation back that are in use.
    #[inline(always)]
    pub fn put_back(&mut self, shared: &mut StoredShared<'_>)
        requires lane { IsLane self.old }
        requires shared { IsShared shared.old }
        requires number { self.old.number < length shared.old.places.items }
        ensures back { ArePutBack self.old shared.old self.new shared.new }
        ensures lane { IsLane self.new }
        ensures shared { IsShared shared.new }
    {
        let own = &mut shared.places[self.number as usize];
        move_state(&mut shared.state.body.lane, &mut self.lane);
        shared
            .state
            .body
            .local
            .swap_reservation(&mut own.reservation);
    }

    /// The same while no address is reserved in use.
    #[inline(always)]
    pub fn leave_use(&mut self, shared: &mut StoredShared<'_>)
        requires lane { IsLane self.old }
        requires shared { IsShared shared.old }
        requires number { self.old.number < length shared.old.places.items }
        requires none { shared.old.state.body.value.local.reservation ≡ None }
        ensures back { ArePutBack self.old shared.old self.new shared.new }
        ensures none { shared.new.state.body.value.local.reservation ≡ None }
        ensures lane { IsLane self.new }
        ensures shared { IsShared shared.new }
    {
        move_state(&mut shared.state.body.lane, &mut self.lane);
        shared.places[self.number as usize].reservation.end();
    }

    /// Puts the registers in use at the node, where those of no lane are and neither this lane has
    /// reserved an address nor is one reserved in use.
    #[inline(always)]
    pub fn enter_use(&mut self, shared: &mut StoredShared<'_>)
        requires lane { IsLane self.old }
        requires shared { IsShared shared.old }
        requires number { self.old.number < length shared.old.places.items }
        requires none { shared.old.state.body.value.local.reservation ≡ None }
        requires free { reserved_in shared.old.places.items self.old.number ≡ None }
        ensures back { ArePutBack self.new shared.new self.old shared.old }
        ensures lane { IsLane self.new }
        ensures shared { IsShared shared.new }
    {
        move_state(&mut self.lane, &mut shared.state.body.lane);
    }

    /// A lane in use executes its next word by its micro-op, where that serves it and the budget
    /// has a further word for after it. Otherwise nothing changes.
    #[inline(always)]
    pub fn exec_in_use(&mut self, shared: &mut StoredShared<'_>) -> bool
        requires lane { IsLane self.old }
        requires shared { IsShared shared.old }
        requires number { self.old.number < length shared.old.places.items }
        requires idle { (b : ℕ) → wait_at shared.old.places.items self.old.number b ≡ None }
        requires may { model.can_execute (phase_of self.old.state.phase) ≡ true }
        requires goes_on { shared.old.ended < length shared.old.places.items }
        requires alone { IsAlone self.old shared.old }
        requires stamp { shared.old.state.stamp < 2 ^ 56 }
        // The lane's turn is that of the lane which is put back before the word and after it.
        ensures turn { result ≡ true → (l m : StoredLane) (f g : StoredShared)
            → ArePutBack self.old shared.old l f → ArePutBack self.new shared.new m g
            → (x : lanes.LaneNode) → HasLane l f x → moves.word_turn (work_of l f) x l.number
            ≡ lane_turn (with_lane x m g) [] None }
        ensures ended { result ≡ true → (l m : StoredLane) (f g : StoredShared)
            → ArePutBack self.old shared.old l f → ArePutBack self.new shared.new m g
            → (x : lanes.LaneNode) → HasLane l f x → HasLane m g (with_lane x m g) }
        ensures may { result ≡ true → model.can_execute (phase_of self.new.state.phase) ≡ true }
        ensures waits { result ≡ true → WaitsFor self.new shared.new }
        ensures held { result ≡ true → IsHeld self.new shared.new }
        ensures stamps { result ≡ true → shared.new.state.stamp ≡ shared.old.state.stamp + 1 }
        ensures same { result ≡ false → self.new ≡ self.old }
        ensures kept { result ≡ false → shared.new ≡ shared.old }
        ensures places { shared.new.places ≡ shared.old.places }
        ensures number { self.new.number ≡ self.old.number }
        ensures work { work_of self.new shared.new ≡ work_of self.old shared.old }
        ensures lane { IsLane self.new }
        ensures shared { IsShared shared.new }
    {
        if self.state.executed + 1 >= self.state.budget.number() {
            return false;
        }
        match shared.state.body.step_at(self.state.image, self.state.at) {
            Some(at) => {
                self.state.at = at;
                self.state.executed += 1;
                self.state.phase = Phase::Running;
                self.awaits = NO_BLOCK;
                self.again = false;
                shared.state.stamp += 1;
                true
            }
            None => false,
        }
    }
}
