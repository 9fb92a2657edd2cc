//! What the lanes of a node share, and the messages that the node takes.

ghost use Rattle.std.specs.Prelude.{◌≡◌, ◌+◌, ◌^◌, ◌<◌, ◌≤◌, ℕ, [], None, IfOk, OnOk, false};
ghost use Rattle.std.specs.Prelude.{length};
ghost use Rattle.exec_map.specs.Contents.{program_of};
ghost use Rattle.lane_model.specs.node_model.Node as model;
ghost use Rattle.lane_model.specs.node_model.Turns as turns;
ghost use Rattle.home_directory.specs.Home.{first_entry};
ghost use Rattle.home_directory.specs.Effects.{entry_at};
ghost use Rattle.node_machine.specs.node_words.node_memory.Shelf.{local_of};
ghost use Rattle.node_machine.specs.NodeState.{layout_of, entries_in, IsProtocolState};
ghost use Rattle.lane_model.specs.Nodes.{LaneWork, LaneNode, first_shared};
ghost use Rattle.lane_model.specs.Turns as moves;
ghost use Rattle.lane_model.specs.Core as core;
ghost use Rattle.lane_machine.specs.Waits.{wait_among, waits_in};
ghost use Rattle.lane_machine.specs.Places.{wait_at, pools_in, reserved_in};
ghost use Rattle.lane_machine.specs.Waits.{AreApart};
ghost use Rattle.lane_machine.specs.Stored.{HasRoom, HaveLanes, AreLanes};
ghost use Rattle.lane_machine.specs.Stored.{HaveParts, AllHeld, AllWaitFor, AreKept};
ghost use Rattle.lane_machine.specs.Stored.{ended_in, shared_of};

use crate::lane::Lane;
use crate::lane_protocol::LaneProtocol;
use crate::stored::StoredShared;
use crate::taking::take;
use block_layout::Layout;
use buf_pool::Pool;
use byte_range::Window;
use exec_map::Program;
use home_directory::Directory;
use home_directory::dsm_messages::{Sends, Wire};
use llsc::Reservation;
use node_machine::miss_handlers::Waits;
use node_machine::node_words::{ExecState, StoreLog};
use node_machine::{
    BUFFER_BYTES, BareTurn, NO_COUNTS, NodeCounts, ProtocolState, SharedState, Standing, WAITS,
    ended_standing, first_local,
};
use rv32_step::Registers;
use std::alloc::{AllocError, Global};
use std::marker::Model;

/// What the lanes of a node share.
#[derive(Drop)]
pub struct Shared<'a> {
    pub(crate) inner: StoredShared<'a>,
}

impl<'a> Model for Shared<'a> {
    ghost use Rattle.lane_machine.specs.declared.stored.StoredShared.{StoredShared as Stored};
    ghost use Rattle.lane_machine.specs.Stored.{IsShared};

    ghost Value = { Stored };

    ghost view = { λ s. s.inner };

    ghost invariant = { λ s. IsShared s.inner };
}

impl<'a> Shared<'a> {
    /// What the `lanes` processors of node `me` share at the start.
    pub fn new(
        alloc: Global,
        program: &'a Program<'a>,
        layout: &Layout,
        me: u8,
        lanes: u8,
    ) -> Result<Shared<'a>, AllocError>
        requires layout { model.IsLaidOver (program_of program.now) layout.now }
        requires node { me < layout.now.nodes }
        requires some { 0 < lanes }
        requires few { lanes ≤ 4 }
        ensures opening { IfOk result (λ s. (work : model.Work)
            → work.program ≡ program_of program.now → work.layout ≡ layout.now
            → shared_of s ≡ first_shared work me) }
        ensures program { IfOk result
            (λ s. program_of s.state.body.value.local.program ≡ program_of program.now) }
        ensures layout { IfOk result (λ s. layout_of s.state.body.value ≡ layout.now) }
        ensures lanes { IfOk result (λ s. length s.places.items ≡ lanes) }
        ensures waits { IfOk result (λ s. (k b : ℕ) → wait_at s.places.items k b ≡ None) }
        ensures ended { IfOk result (λ s. s.ended ≡ 0) }
    {
        Ok(Shared {
            inner: StoredShared {
                state: SharedState {
                    body: first_body(alloc, program, layout, me)?,
                    protocol: first_protocol(alloc, layout, me)?,
                    byes: [false; 256],
                    stamp: 0,
                    journal: Vec::new(alloc),
                    noted: 0,
                    output: Vec::new(alloc),
                },
                layout: layout.copy(alloc)?,
                places: first_places(alloc, layout, lanes)?,
                ended: 0,
            },
        })
    }

    /// Makes room for one entry of the journal and one byte of output.
    pub fn room(&mut self) -> Result<(), AllocError>
        ensures shared { shared_of self.new ≡ shared_of self.old }
        ensures places { self.new.places.items ≡ self.old.places.items }
        ensures body { self.new.state.body.value ≡ self.old.state.body.value }
        ensures ended { self.new.ended ≡ self.old.ended }
        ensures room { OnOk result (HasRoom self.new) }
    {
        self.inner.state.make_room()
    }

    /// Whether an address is reserved in use.
    #[inline(always)]
    pub fn reserves(&self) -> bool
        ensures { result ≡ false → self.now.state.body.value.local.reservation ≡ None }
    {
        self.inner.state.body.local.reserved().is_some()
    }

    /// What the node has counted over its lanes.
    pub fn counts(&self) -> NodeCounts
        ensures value { result ≡ (shared_of self.now).counts }
    {
        self.inner.state.body.counts
    }

    /// Whether all lanes have ended, and all nodes have said so of theirs.
    pub fn over(&self) -> bool
        ensures value { (w : LaneWork) (x : LaneNode)
            → w.work.layout ≡ layout_of self.now.state.body.value
            → w.lanes ≡ length self.now.places.items → x.shared ≡ shared_of self.now
            → self.now.ended ≡ ended_in x w.lanes
            → result ≡ core.is_over w x }
    {
        if self.inner.ended as usize != self.inner.places.len() {
            return false;
        }
        ended_standing(&self.inner.state.byes, self.inner.layout.nodes()).is_over()
    }

    /// Takes a message from a node, and leaves what the node sends, in order.
    pub fn take(
        &mut self,
        lanes: &mut [Lane<'_>],
        from: u8,
        wire: Wire,
        sends: &mut Sends,
    ) -> BareTurn
        requires count { length lanes.old ≡ length self.old.places.items }
        requires room { HasRoom self.old }
        requires stamp { self.old.state.stamp < 2 ^ 56 }
        requires wire { wire.stamp < 2 ^ 56 }
        requires held { AllHeld lanes.old self.old }
        requires ended { (x : LaneNode) → HaveParts lanes.old x
            → self.old.ended ≡ ended_in x (length lanes.old) }
        ensures node { (w : LaneWork) (x : LaneNode) → AreLanes w lanes.old self.old
            → HaveLanes lanes.old self.old x
            → HaveLanes lanes.new self.new (moves.take_turn w x from wire).node }
        ensures sends { (w : LaneWork) (x : LaneNode) → AreLanes w lanes.old self.old
            → HaveLanes lanes.old self.old x
            → sends.new.items ≡ (moves.take_turn w x from wire).sends }
        ensures lanes { (w : LaneWork) → AreLanes w lanes.old self.old
            → AreLanes w lanes.new self.new }
        ensures waits { (w : LaneWork) → AreLanes w lanes.old self.old
            → AllWaitFor lanes.old self.old → AllWaitFor lanes.new self.new }
        ensures held { AllHeld lanes.new self.new }
        ensures output { result.output ≡ None }
        ensures stamp { result.stamp ≡ self.new.state.stamp }
        ensures stamps { self.new.state.stamp ≡ turns.later self.old.state.stamp wire.stamp + 1 }
    {
        take(&mut self.inner, lanes, from, wire, sends)
    }
}

/// What words see of node `me` at the start, and its counts. The processor in it is none of its
/// lanes.
fn first_body<'a>(
    alloc: Global,
    program: &'a Program<'a>,
    layout: &Layout,
    me: u8,
) -> Result<Box<ExecState<'a>>, AllocError>
    requires layout { model.IsLaidOver (program_of program.now) layout.now }
    ensures program { IfOk result
        (λ b. program_of b.value.local.program ≡ program_of program.now) }
    ensures layout { IfOk result (λ b. layout_of b.value ≡ layout.now) }
    ensures local { IfOk result (λ b. (work : model.Work)
        → work.program ≡ program_of program.now → work.layout ≡ layout.now
        → local_of b.value.local ≡ model.first_local work me) }
    ensures counts { IfOk result (λ b. b.value.counts ≡ model.no_counts) }
{
    let body = ExecState {
        lane: node_machine::node_words::ProcessorState {
            registers: Registers::first(me, me),
            private: Window::zeros(alloc)?,
            written: 0,
            off: 0,
            spills: [0; 3],
        },
        local: first_local(alloc, program, layout, me)?,
        counts: NO_COUNTS,
        log: StoreLog::off(alloc),
    };
    Ok(Box::new(alloc, body)?)
}

/// What the directory of node `me` keeps at the start, and the place of no lane.
fn first_protocol(alloc: Global, layout: &Layout, me: u8) -> Result<ProtocolState, AllocError>
    requires node { me < layout.now.nodes }
    ensures protocol { IfOk result (IsProtocolState layout.now) }
    ensures empty { IfOk result (λ d. d.waits.waits ≡ []) }
    ensures me { IfOk result (λ d. d.directory.me ≡ me) }
    ensures entries { IfOk result (λ d. entries_in d.directory.layout d.directory.me
        (entry_at d.directory.entries) ≡ (λ b. first_entry me)) }
    ensures waiting { IfOk result (λ d. d.directory.waiting ≡ []) }
{
    let directory = Directory::new(alloc, layout, me, layout.nodes())?;
    let waits = Waits::new(alloc, layout)?;
    let pool = Pool::new(alloc, WAITS, BUFFER_BYTES)?;
    Ok(ProtocolState {
        directory,
        waits,
        pool,
    })
}

/// What a node keeps for each of `lanes` lanes at the start.
fn first_places(alloc: Global, layout: &Layout, lanes: u8) -> Result<Vec<LaneProtocol>, AllocError>
    ensures count { IfOk result (λ v. length v.items ≡ lanes) }
    ensures kept { IfOk result (λ v. AreKept layout.now (waits_in v.items) (pools_in v.items)) }
    ensures reserved { IfOk result (λ v. (k : ℕ) → reserved_in v.items k ≡ None) }
    ensures waits { IfOk result (λ v. (k b : ℕ) → wait_at v.items k b ≡ None) }
    ensures empty { IfOk result (λ v. (b : ℕ) → wait_among (waits_in v.items) b ≡ None) }
    ensures apart { IfOk result (λ v. AreApart (waits_in v.items)) }
{
    let mut places = Vec::with_capacity(alloc, lanes as usize)?;
    for _lane in 0..lanes {
        places.push_reserved(LaneProtocol {
            reservation: Reservation::new(),
            waits: Waits::new(alloc, layout)?,
            pool: Pool::new(alloc, WAITS, BUFFER_BYTES)?,
        });
    }
    Ok(places)
}
