//! n nodes of several processors that run rewritten code, and the n × n lists of messages between
//! the nodes.

ghost use Rattle.std.specs.Prelude.{◌≡◌, ◌*◌, ◌<◌, ◌≤◌, ◌↔◌, ◌++◌, ℕ, List, [], ◌∷◌, true, false};
ghost use Rattle.std.specs.Prelude.{length, map, MatchOption, IfOk, OnOk, OnErr};
ghost use Rattle.dsm_core.specs.rewriting_law.Bounds.{RunsRewritten};
ghost use Rattle.lane_model.specs.Nodes.{lane_of, node_of, processors};
ghost use Rattle.lane_model.specs.Core as model;
ghost use Rattle.lane_model.specs.Core.{May, event_step, opening_core, standing_of};
ghost use Rattle.lane_law.specs.Law.{AreAllOver, AreEmpty, GoesOn, most_lane_events};
ghost use Rattle.dsm_core.specs.CoreParts.{work_in};
ghost use Rattle.lane_machine.specs.SmpNodes.{IsNode, node_in};
ghost use Rattle.smp_sim.specs.CoreParts.{AreAlike, IsRunTo, core_of, event_of};
ghost use Rattle.smp_sim.specs.CoreParts.{work_of, work_with};
ghost use Rattle.smp_sim.specs.CoreSteps.{IsSilent};
ghost use Rattle.smp_sim.specs.ByOrder.{choices};
ghost use Rattle.smp_sim.specs.Turns.{LeadsOn, StopsAt};

use crate::runs::run_silent;
use crate::steps::{are_over, first_nodes, is_enabled, make};
use dsm_core::Work;
use home_directory::dsm_messages::Sends;
use lane_law::dsm_protocol::Queue;
use lane_law::dsm_protocol::lists::{empty_lists, has_mail};
use lane_law::lane_progress_law;
use lane_machine::{SmpNode, SmpWork, Standing};
use random_order::Order;
use std::alloc::{AllocError, Global};
use std::marker::Model;

/// What may happen next in a core.
#[derive(Clone, Copy, PartialEq, Eq)]
pub enum SmpEvent {
    /// A processor executes a word.
    Exec(u8),
    /// A node takes the first message of the list from another.
    Take {
        /// The node that takes it.
        node: u8,
        /// The node that sent it.
        from: u8,
    },
}

/// A core of nodes of several processors: nodes and lists that a run of events leads to from the
/// start, with the bytes that the run prints.
#[derive(Drop)]
pub struct SmpCore<'a> {
    pub(crate) work: SmpWork<'a>,
    /// The nodes, by number.
    pub(crate) nodes: Vec<SmpNode<'a>>,
    /// The messages on their way: the list from node j to node i stands at place j × n + i.
    pub(crate) lists: Vec<Queue>,
    /// The bytes printed, in the order of the events.
    pub(crate) output: Vec<u8>,
    /// What an event sends, until it stands in the lists.
    pub(crate) sends: Sends,
}

impl<'a> Model for SmpCore<'a> {
    ghost use Rattle.smp_sim.specs.CoreParts.{CoreParts, IsCore};

    ghost Value = { CoreParts };

    ghost view = { λ c. record {
      program = c.work.program.now;
      image = c.work.image.now;
      layout = c.work.layout.now;
      budget = c.work.budget;
      lanes = c.work.lanes;
      nodes = c.nodes.items;
      lists = c.lists.items;
      output = c.output.items;
    } };

    ghost invariant = { λ c. IsCore (record {
      program = c.work.program.now;
      image = c.work.image.now;
      layout = c.work.layout.now;
      budget = c.work.budget;
      lanes = c.work.lanes;
      nodes = c.nodes.items;
      lists = c.lists.items;
      output = c.output.items;
    }) };
}

impl<'a> SmpCore<'a> {
    /// The nodes of a layout at the start, each with `lanes` processors, and empty lists.
    pub fn new(alloc: Global, work: &Work<'a>, lanes: u8) -> Result<SmpCore<'a>, AllocError>
        requires rewritten { RunsRewritten (work_in work.now) }
        requires some { 1 ≤ lanes }
        requires four { lanes ≤ 4 }
        requires few { (work_in work.now).layout.nodes * lanes ≤ 16 }
        ensures opening { IfOk result (λ c. core_of c ≡ opening_core (work_of c)) }
        ensures run { IfOk result (IsRunTo []) }
        ensures work { IfOk result (λ c. work_of c ≡ work_with (work_in work.now) lanes) }
    {
        let count = work.layout.nodes();
        let work = SmpWork {
            program: work.program,
            image: work.image,
            layout: work.layout,
            budget: work.budget,
            lanes,
        };
        let nodes = first_nodes(alloc, &work)?;
        let lists = empty_lists(alloc, count)?;
        Ok(SmpCore {
            work,
            nodes,
            lists,
            output: Vec::new(alloc),
            sends: Sends::new(),
        })
    }

    /// What holds of every core; the call does nothing.
    pub fn promises(&self)
        // Some run from the start leads to it, and prints its bytes.
        ensures run { (run : List model.LaneEvent) × IsRunTo run self.now }
        // Each such run is of at most so many events.
        ensures short { (run : List model.LaneEvent) → IsRunTo run self.now
            → length run ≤ most_lane_events (work_of self.now) }
        // Until every node is over some event is allowed.
        ensures goes_on { GoesOn (work_of self.now) (core_of self.now) }
        // Once every node is over, every list is empty.
        ensures empty { AreAllOver (work_of self.now) (core_of self.now)
            → AreEmpty (work_of self.now) (core_of self.now) }
        // The nodes run rewritten code, on one to four processors each and 16 at most.
        ensures rewritten { RunsRewritten (work_of self.now).work }
        ensures some { 1 ≤ self.now.lanes }
        ensures four { self.now.lanes ≤ 4 }
        ensures few { processors (work_of self.now) ≤ 16 }
    {
        lane_progress_law();
        // brings: what the type of a core says of its parts
        let _lanes = self.work.lanes;
    }

    /// How many nodes there are.
    pub fn node_count(&self) -> u8
        ensures value { result ≡ self.now.layout.nodes }
    {
        self.work.layout.nodes()
    }

    /// How many processors each node has: one to four, and no more than 16 in all.
    pub fn lanes(&self) -> u8
        ensures value { result ≡ self.now.lanes }
        ensures some { 1 ≤ self.now.lanes }
        ensures few { processors (work_of self.now) ≤ 16 }
    {
        self.work.lanes
    }

    /// A node.
    pub(crate) fn node(&self, node: u8) -> &SmpNode<'a>
        requires node { node < self.now.layout.nodes }
        ensures value { node_in (work_of self.now) node result.now
            ≡ (core_of self.now).nodes node }
        ensures is_node { IsNode (work_of self.now) result.now }
    {
        &self.nodes[node as usize]
    }

    /// Whether every node is over.
    pub fn is_over(&self) -> bool
        ensures value { (result ≡ true) ↔ AreAllOver (work_of self.now) (core_of self.now) }
    {
        are_over(&self.nodes, &self.lists, &self.work)
    }

    /// Whether an event is allowed.
    pub fn enabled(&self, event: SmpEvent) -> bool
        ensures value { (result ≡ true)
            ↔ May (work_of self.now) (core_of self.now) (event_of event) }
    {
        is_enabled(&self.nodes, &self.lists, &self.work, event)
    }

    /// Makes an event that is allowed. It takes its memory first.
    pub fn step(&mut self, event: SmpEvent) -> Result<(), AllocError>
        requires enabled { May (work_of self.old) (core_of self.old) (event_of event) }
        ensures event { OnOk result (AreAlike self.old.layout.nodes
            (core_of self.new)
            (event_step (work_of self.old) (core_of self.old) (event_of event))) }
        // A run that leads to the core does so with this event after it.
        ensures run { OnOk result ((run : List model.LaneEvent) → IsRunTo run self.old
            → IsRunTo (run ++ event_of event ∷ []) self.new) }
        ensures err { OnErr result (core_of self.new ≡ core_of self.old) }
        ensures output { OnErr result (self.new.output ≡ self.old.output) }
        ensures work { work_of self.new ≡ work_of self.old }
    {
        lane_progress_law();
        make(
            &mut self.nodes,
            &mut self.lists,
            &mut self.output,
            &mut self.sends,
            &self.work,
            event,
        )
    }

    /// A processor that may execute a word does so by its micro-op, where that serves it and no
    /// other processor of its node has reserved an address, and says whether it did. The word sends
    /// nothing, and the processor may execute another after it. Otherwise nothing changes.
    pub(crate) fn exec_silent(&mut self, processor: u8) -> bool
        requires enabled { May (work_of self.old) (core_of self.old) (model.Exec processor) }
        ensures silent { result ≡ true → IsSilent (work_of self.old) (core_of self.old) processor }
        ensures event { result ≡ true → AreAlike self.old.layout.nodes (core_of self.new)
            (event_step (work_of self.old) (core_of self.old) (model.Exec processor)) }
        ensures run { result ≡ true → (run : List model.LaneEvent) → IsRunTo run self.old
            → IsRunTo (run ++ model.Exec processor ∷ []) self.new }
        ensures kept { result ≡ false → core_of self.new ≡ core_of self.old }
        ensures output { self.new.output ≡ self.old.output }
        ensures work { work_of self.new ≡ work_of self.old }
        ensures some { 0 < self.old.lanes }
    {
        lane_progress_law();
        let node = processor / self.work.lanes;
        let lane = processor % self.work.lanes;
        self.nodes[node as usize].exec_silent(lane)
    }

    /// What a processor may do next.
    pub(crate) fn standing(&self, processor: u8) -> Standing
        requires processor { processor < processors (work_of self.now) }
        ensures value { result ≡ standing_of (work_of self.now)
            ((core_of self.now).nodes (node_of (work_of self.now) processor))
            (lane_of (work_of self.now) processor) }
    {
        let lanes = self.lanes();
        self.node(processor / lanes).standing(processor % lanes)
    }

    /// Makes the turns that an order picks next among the events that are listed, as long as each
    /// is a word by its micro-op and its node takes no message after it. It gives the event that
    /// is picked after them, which isn't made, or `None` after many turns.
    pub(crate) fn run_silent(&mut self, events: &[SmpEvent], order: &mut Order) -> Option<SmpEvent>
        requires some { 1 ≤ length events.now }
        requires few { length events.now ≤ 65536 }
        requires listed { map event_of events.now ≡ choices (work_of self.old) (core_of self.old) }
        ensures listed { map event_of events.now ≡ choices (work_of self.new) (core_of self.new) }
        ensures leads { MatchOption result (LeadsOn 1 order.old self.old order.new self.new)
            (λ e. StopsAt order.old self.old order.new self.new (event_of e)) }
        ensures work { work_of self.new ≡ work_of self.old }
        ensures some { 0 < self.new.lanes }
    {
        run_silent(&mut self.nodes, &self.lists, &self.work, events, order)
    }

    /// Whether a message is on its way to the node of a processor.
    pub(crate) fn has_mail(&self, processor: u8) -> bool
        requires processor { processor < processors (work_of self.now) }
        ensures { result ≡ false → (from : ℕ) → from < self.now.layout.nodes
            → (core_of self.now).list from (node_of (work_of self.now) processor) ≡ [] }
    {
        let count = self.work.layout.nodes();
        let node = processor / self.work.lanes;
        has_mail(&self.lists, count, node)
    }
}
