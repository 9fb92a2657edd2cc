//! A node of several processors, as it is stored, and its events.

ghost use Rattle.std.specs.Prelude.{◌≡◌, ◌≢◌, ◌+◌, ◌^◌, ◌<◌, ◌≤◌, ℕ, true, false, IfOk, OnOk};
ghost use Rattle.std.specs.Prelude.{List, [], ◌∷◌, None, Some, length, slice_index_or};
ghost use Rattle.home_directory.specs.dsm_messages.declared.messages.Wire.{Wire as Sent};
ghost use Rattle.node_machine.specs.miss_handlers.Rows.{takes_away};
ghost use Rattle.lane_model.specs.node_model.Core as plain;
ghost use Rattle.lane_model.specs.node_model.Node as model;
ghost use Rattle.lane_model.specs.node_model.Node.{IsLaidOver};
ghost use Rattle.lane_model.specs.node_model.Turns.{later};
ghost use Rattle.lane_model.specs.Core as core;
ghost use Rattle.lane_model.specs.Nodes.{LaneWork, all_lanes, opening_node, processors, some_lane};
ghost use Rattle.lane_model.specs.Turns.{word_turn, take_turn};
ghost use Rattle.lane_machine.specs.Places.{reserved_in};
ghost use Rattle.lane_machine.specs.Stored.{HasRoom, lane_turn};
ghost use Rattle.lane_machine.specs.SmpNodes.{IsNode, lane_work, node_in};
ghost use Rattle.lane_machine.specs.SmpNodes.{AreFirstLanes, CanExecute, HoldsBeside};
ghost use Rattle.lane_machine.specs.SmpNodesInUse.{HasTurned, IsPutBack, IsSameNode, MayTurn};
ghost use Rattle.lane_machine.specs.SmpNodesInUse.{RestsAs};
ghost use Rattle.lane_machine.specs.declared.node.SmpNode.{SmpNode};
ghost use Rattle.lane_machine.specs.declared.stored.StoredLane.{StoredLane};

use crate::lane::Lane;
use crate::shared::Shared;
use crate::work::SmpWork;
use exec_map::End;
use home_directory::dsm_messages::{Message, Sends, Wire};
use node_machine::{BareTurn, NodeCounts, Standing};
use std::alloc::{AllocError, Global};

/// A node: its lanes, and what they share.
#[derive(Drop)]
pub struct SmpNode<'a> {
    /// The lanes, by number.
    pub lanes: Vec<Lane<'a>>,
    /// What they share.
    pub shared: Shared<'a>,
}

impl<'a> SmpNode<'a> {
    /// A node at the start.
    pub fn new(alloc: Global, work: &SmpWork<'a>, me: u8) -> Result<SmpNode<'a>, AllocError>
        requires layout { IsLaidOver (lane_work work.now).work.program
            (lane_work work.now).work.layout }
        requires node { me < (lane_work work.now).work.layout.nodes }
        requires some { 0 < work.now.lanes }
        requires four { work.now.lanes ≤ 4 }
        requires few { processors (lane_work work.now) ≤ 16 }
        ensures is_node { IfOk result (IsNode (lane_work work.now)) }
        ensures opening { IfOk result (λ x. node_in (lane_work work.now) me x
            ≡ opening_node (lane_work work.now) me) }
    {
        let program = work.program;
        let layout = work.layout;
        let lanes = first_lanes(alloc, work, me)?;
        let shared = Shared::new(alloc, program, layout, me, work.lanes)?;
        Ok(SmpNode { lanes, shared })
    }

    /// Makes room for one event.
    pub fn room(&mut self) -> Result<(), AllocError>
        ensures is_node { (w : LaneWork) → IsNode w self.old → IsNode w self.new }
        ensures node { (w : LaneWork) (i : ℕ) → node_in w i self.new ≡ node_in w i self.old }
        ensures lanes { self.new.lanes.items ≡ self.old.lanes.items }
        ensures room { OnOk result (HasRoom self.new.shared) }
    {
        self.shared.room()
    }

    /// A lane executes one word, and leaves what the node sends, in order.
    pub fn exec(&mut self, lane: u8, sends: &mut Sends) -> BareTurn
        requires node { (w : LaneWork) × IsNode w self.old }
        requires lane { lane < length self.old.lanes.items }
        requires may { CanExecute self.old lane }
        requires room { HasRoom self.old.shared }
        requires stamp { self.old.shared.state.stamp < 2 ^ 56 }
        ensures is_node { (w : LaneWork) → IsNode w self.old → IsNode w self.new }
        ensures turn { (w : LaneWork) (i : ℕ) → IsNode w self.old
            → word_turn w (node_in w i self.old) lane
            ≡ lane_turn (node_in w i self.new) sends.new.items result.output }
        ensures stamp { result.stamp ≡ self.new.shared.state.stamp }
        ensures stamps { self.new.shared.state.stamp ≡ self.old.shared.state.stamp + 1 }
    {
        self.lanes[lane as usize].exec(&mut self.shared, sends)
    }

    /// Puts the registers and the reservation of a lane back that are in use.
    #[inline(always)]
    fn put_lane_back(&mut self, lane: u8)
        requires lane { lane < length self.old.lanes.items }
        requires place { (l : StoredLane) → l ≡ slice_index_or self.old.lanes.items lane l
            → l.number < length self.old.shared.places.items }
        ensures { IsPutBack self.old lane self.new }
    {
        self.lanes[lane as usize].put_back(&mut self.shared);
    }

    /// Puts the registers and the reservation of a lane in use, where those of no lane are.
    #[inline(always)]
    fn put_lane_in_use(&mut self, lane: u8)
        requires lane { lane < length self.old.lanes.items }
        requires place { (l : StoredLane) → l ≡ slice_index_or self.old.lanes.items lane l
            → l.number < length self.old.shared.places.items }
        ensures { IsPutBack self.new lane self.old }
    {
        self.lanes[lane as usize].put_in_use(&mut self.shared);
    }

    /// Puts the registers of a lane back that are in use, while no address is reserved there.
    #[inline(always)]
    fn leave_lane(&mut self, lane: u8)
        requires lane { lane < length self.old.lanes.items }
        requires place { (l : StoredLane) → l ≡ slice_index_or self.old.lanes.items lane l
            → l.number < length self.old.shared.places.items }
        requires none { self.old.shared.state.body.value.local.reservation ≡ None }
        ensures back { IsPutBack self.old lane self.new }
        ensures none { self.new.shared.state.body.value.local.reservation ≡ None }
    {
        self.lanes[lane as usize].leave_use(&mut self.shared);
    }

    /// Puts the registers of a lane in use, where those of no lane are and no lane has reserved an
    /// address.
    #[inline(always)]
    fn enter_lane(&mut self, lane: u8)
        requires lane { lane < length self.old.lanes.items }
        requires place { (l : StoredLane) → l ≡ slice_index_or self.old.lanes.items lane l
            → l.number < length self.old.shared.places.items }
        requires none { self.old.shared.state.body.value.local.reservation ≡ None }
        requires free { (k : ℕ) → reserved_in self.old.shared.places.items k ≡ None }
        ensures back { IsPutBack self.new lane self.old }
    {
        self.lanes[lane as usize].enter_use(&mut self.shared);
    }

    /// Puts the lane in use back, where one is.
    pub fn put_back(&mut self, used: &mut Option<u8>)
        requires node { (w : LaneWork) × (y : SmpNode) × RestsAs self.old used.old y × IsNode w y }
        ensures same { (y : SmpNode) → RestsAs self.old used.old y → IsSameNode y self.new }
        ensures none { used.new ≡ None }
    {
        if let Some(lane) = *used {
            self.put_lane_back(lane);
            *used = None;
        }
    }

    /// Puts a lane in use, where no other has reserved an address, and says whether it did. The
    /// lane that was in use is put back.
    #[inline(never)]
    fn put_in_use(&mut self, used: &mut Option<u8>, lane: u8) -> bool
        requires may { MayTurn self.old used.old lane }
        ensures rests { (y : SmpNode) → RestsAs self.old used.old y
            → (z : SmpNode) × RestsAs self.new used.new z × IsSameNode y z }
        ensures used { result ≡ true → used.new ≡ Some lane }
    {
        self.put_back(used);
        if !self.lanes[lane as usize].is_alone(&self.shared) {
            return false;
        }
        self.put_lane_in_use(lane);
        *used = Some(lane);
        true
    }

    /// Puts a lane in use in place of the one that is, where none has reserved an address, and says
    /// whether it did. Otherwise nothing changes.
    #[inline(always)]
    fn change_lane(&mut self, used: &mut Option<u8>, lane: u8) -> bool
        requires may { MayTurn self.old used.old lane }
        ensures rests { result ≡ true → (y : SmpNode) → RestsAs self.old used.old y
            → (z : SmpNode) × RestsAs self.new used.new z × IsSameNode y z }
        ensures used { result ≡ true → used.new ≡ Some lane }
        ensures kept { result ≡ false → self.new ≡ self.old }
        ensures same { result ≡ false → used.new ≡ used.old }
    {
        let Some(before) = *used else {
            return false;
        };
        if self.shared.reserves() {
            return false;
        }
        self.leave_lane(before);
        self.enter_lane(lane);
        *used = Some(lane);
        true
    }

    /// Sees to it that a lane is in use, where no other has reserved an address, and says whether
    /// it is.
    #[inline(always)]
    fn use_lane(&mut self, used: &mut Option<u8>, lane: u8) -> bool
        requires may { MayTurn self.old used.old lane }
        ensures rests { (y : SmpNode) → RestsAs self.old used.old y
            → (z : SmpNode) × RestsAs self.new used.new z × IsSameNode y z }
        ensures used { result ≡ true → used.new ≡ Some lane }
    {
        if is_lane(*used, lane) {
            return true;
        }
        if self.change_lane(used, lane) {
            return true;
        }
        self.put_in_use(used, lane)
    }

    /// The lane in use executes its next word by its micro-op, where that serves it, and says
    /// whether it did. Otherwise nothing changes.
    #[inline(always)]
    fn exec_in_use(&mut self, lane: u8) -> bool
        requires may { MayTurn self.old (Some lane) lane }
        ensures turned { (y : SmpNode) → RestsAs self.old (Some lane) y
            → HasTurned y lane result self.new (Some lane) }
    {
        self.lanes[lane as usize].exec_in_use(&mut self.shared)
    }

    /// A lane executes its next word by its micro-op, where that serves it and no other lane has
    /// reserved an address, and says whether it did: then it stays in use. Otherwise nothing
    /// changes, but that another lane may be in use, or none.
    #[inline(always)]
    pub fn turn(&mut self, used: &mut Option<u8>, lane: u8) -> bool
        requires may { MayTurn self.old used.old lane }
        ensures turned { (y : SmpNode) → RestsAs self.old used.old y
            → HasTurned y lane result self.new used.new }
    {
        if !self.use_lane(used, lane) {
            return false;
        }
        self.exec_in_use(lane)
    }

    /// A lane executes its next word by its micro-op, where that serves it and no other lane has
    /// reserved an address, and says whether it did. Otherwise nothing changes.
    pub fn exec_silent(&mut self, lane: u8) -> bool
        requires node { (w : LaneWork) × IsNode w self.old }
        requires lane { lane < length self.old.lanes.items }
        requires may { CanExecute self.old lane }
        requires stamp { self.old.shared.state.stamp < 2 ^ 56 }
        ensures is_node { (w : LaneWork) → IsNode w self.old → IsNode w self.new }
        ensures turn { result ≡ true → (w : LaneWork) (i : ℕ) → IsNode w self.old
            → word_turn w (node_in w i self.old) lane ≡ lane_turn (node_in w i self.new) [] None }
        ensures may { result ≡ true → CanExecute self.new lane }
        ensures stamps { result ≡ true
            → self.new.shared.state.stamp ≡ self.old.shared.state.stamp + 1 }
        ensures kept { result ≡ false → (w : LaneWork) (i : ℕ)
            → node_in w i self.new ≡ node_in w i self.old }
    {
        let mut used = None;
        let done = self.turn(&mut used, lane);
        self.put_back(&mut used);
        done
    }

    /// Takes a message from a node, and leaves what this one sends, in order.
    pub fn take(&mut self, from: u8, wire: Wire, sends: &mut Sends) -> BareTurn
        requires node { (w : LaneWork) × IsNode w self.old }
        requires room { HasRoom self.old.shared }
        requires stamp { self.old.shared.state.stamp < 2 ^ 56 }
        requires wire { wire.stamp < 2 ^ 56 }
        ensures is_node { (w : LaneWork) → IsNode w self.old → IsNode w self.new }
        ensures turn { (w : LaneWork) (i : ℕ) → IsNode w self.old
            → take_turn w (node_in w i self.old) from wire
            ≡ lane_turn (node_in w i self.new) sends.new.items result.output }
        ensures stamp { result.stamp ≡ self.new.shared.state.stamp }
        ensures stamps { self.new.shared.state.stamp
            ≡ later self.old.shared.state.stamp wire.stamp + 1 }
    {
        self.shared.take(&mut self.lanes, from, wire, sends)
    }

    /// What a lane may do next.
    pub fn standing(&self, lane: u8) -> Standing
        requires lane { lane < length self.now.lanes.items }
        ensures value { (w : LaneWork) (i : ℕ) → IsNode w self.now
            → result ≡ core.standing_of w (node_in w i self.now) lane }
    {
        self.lanes[lane as usize].standing()
    }

    /// Whether a lane may execute a word.
    pub fn can_execute(&self, lane: u8) -> bool
        requires lane { lane < length self.now.lanes.items }
        ensures value { (w : LaneWork) (i : ℕ) → IsNode w self.now
            → result ≡ plain.may_execute (core.standing_of w (node_in w i self.now) lane) }
    {
        self.lanes[lane as usize].may_execute()
    }

    /// Whether a lane lets the node take a message.
    fn lets(&self, lane: u8) -> bool
        requires lane { lane < length self.now.lanes.items }
        ensures value { (w : LaneWork) (i : ℕ) → IsNode w self.now
            → result ≡ core.lane_lets w (node_in w i self.now) lane }
    {
        self.standing(lane).may_take()
    }

    /// Whether some of so many lanes lets the node take a message.
    fn some_lets(&self, lanes: u8) -> bool
        requires lanes { lanes ≤ length self.now.lanes.items }
        ensures value { (w : LaneWork) (i : ℕ) → IsNode w self.now
            → result ≡ some_lane (core.lane_lets w (node_in w i self.now)) lanes }
    {
        for lane in 0..lanes {
            if self.lets(lane) {
                return true;
            }
        }
        false
    }

    /// Whether each of so many lanes does.
    fn all_let(&self, lanes: u8) -> bool
        requires lanes { lanes ≤ length self.now.lanes.items }
        ensures value { (w : LaneWork) (i : ℕ) → IsNode w self.now
            → result ≡ all_lanes (core.lane_lets w (node_in w i self.now)) lanes }
    {
        for lane in 0..lanes {
            if !self.lets(lane) {
                return false;
            }
        }
        true
    }

    /// Whether a lane is another one, and lets its node take no message.
    fn holds_other(&self, other: u8, lane: u8) -> bool
        requires lane { other < length self.now.lanes.items }
        ensures other { result ≡ true → other ≢ lane }
        ensures holds { result ≡ true → (w : LaneWork) (i : ℕ) → IsNode w self.now
            → core.lane_lets w (node_in w i self.now) other ≡ false }
    {
        other != lane && !self.lets(other)
    }

    /// Whether some of so many lanes but for one doesn't let its node take a message.
    pub fn holds_beside(&self, lanes: u8, lane: u8) -> bool
        requires lanes { lanes ≤ length self.now.lanes.items }
        ensures { result ≡ true → (w : LaneWork) (i : ℕ) → IsNode w self.now → w.lanes ≡ lanes
            → HoldsBeside w (node_in w i self.now) lane }
    {
        for other in 0..lanes {
            if self.holds_other(other, lane) {
                return true;
            }
        }
        false
    }

    /// Whether the node, which has so many lanes, may take a message.
    pub fn can_take(&self, lanes: u8, message: &Message) -> bool
        requires lanes { lanes ≡ length self.now.lanes.items }
        requires some { 0 < lanes }
        ensures value { (w : LaneWork) (i : ℕ) (wire : Sent) (rest : List Sent)
            → IsNode w self.now → message.now ≡ wire.message
            → result ≡ core.may_take_first w (node_in w i self.now) (wire ∷ rest) }
    {
        if takes_away(message) {
            self.all_let(lanes)
        } else {
            self.some_lets(lanes)
        }
    }

    /// Whether all lanes have ended, and all nodes have said so of theirs.
    pub fn over(&self) -> bool
        ensures value { (w : LaneWork) (i : ℕ) → IsNode w self.now
            → result ≡ core.is_over w (node_in w i self.now) }
    {
        self.shared.over()
    }

    /// How a lane ended; `None` exactly where it hasn't.
    pub fn end(&self, lane: u8) -> Option<End>
        requires lane { lane < length self.now.lanes.items }
        ensures value { (w : LaneWork) (i : ℕ) → IsNode w self.now
            → result ≡ model.end_of ((node_in w i self.now).lanes lane).phase }
    {
        self.lanes[lane as usize].end()
    }

    /// What the node has counted over its lanes.
    pub fn counts(&self) -> NodeCounts
        ensures value { (w : LaneWork) (i : ℕ) → result ≡ (node_in w i self.now).shared.counts }
    {
        self.shared.counts()
    }
}

/// The lanes of a node at the start.
fn first_lanes<'a>(alloc: Global, work: &SmpWork<'a>, me: u8) -> Result<Vec<Lane<'a>>, AllocError>
    requires node { me < (lane_work work.now).work.layout.nodes }
    requires few { processors (lane_work work.now) ≤ 16 }
    ensures first { IfOk result (λ ls. AreFirstLanes (lane_work work.now) me work.now.lanes
        ls.items) }
{
    let program = work.program;
    let image = work.image;
    let layout = work.layout;
    let count = work.lanes;
    let processors = layout.nodes() * count;
    let mut lanes = Vec::with_capacity(alloc, count as usize)?;
    for lane in 0..count {
        let p = me * count + lane;
        let first = Lane::new(alloc, image, program, lane, p, processors, work.budget)?;
        lanes.push_reserved(first);
    }
    Ok(lanes)
}

/// Whether the lane in use is the one with a number.
#[inline(always)]
fn is_lane(used: Option<u8>, lane: u8) -> bool
    ensures { result ≡ true → used ≡ Some lane }
{
    match used {
        Some(number) => number == lane,
        None => false,
    }
}

/// Whether a message takes something of its block away from the node.
pub fn takes_away(message: &Message) -> bool
    ensures { result ≡ takes_away message.now }
{
    match message {
        Message::FwdRead { .. } | Message::FwdWrite { .. } | Message::Inval { .. } => true,
        _ => false,
    }
}
