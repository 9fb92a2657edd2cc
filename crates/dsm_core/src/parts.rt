//! The nodes and lists of a core, as they are stored, and their events.

ghost use Rattle.std.specs.Prelude.{◌≡◌, ◌≢◌, ◌<◌, ◌≤◌, ◌↔◌, ℕ, List, [], true, false, IfOk, OnOk, OnErr};
ghost use Rattle.std.specs.Prelude.{slice_index_or, MatchOption};
ghost use Rattle.run_order.specs.node_model.Core as model;
ghost use Rattle.run_order.specs.node_model.Core.{May, IsOver, AreAlike, event_step};
ghost use Rattle.node_machine.specs.NodeState.{node_of, work_of as work_at};
ghost use Rattle.node_machine.specs.jump_map.Image.{Cell};
ghost use Rattle.dsm_core.specs.CoreParts.{work_of, core_of, event_of, AreParts, HasStampsInRange};
ghost use Rattle.dsm_core.specs.CoreWords.{HasPassed, HasPassedWords, HasExecutedOn};
ghost use Rattle.dsm_core.specs.CoreWords.{HaveEachPassed, LearnsBelow};
ghost use Rattle.dsm_core.specs.Seen.{IsFirstIn, IsSeen};

use crate::cores::Event;
use crate::seen::{Incoming, Seen, first, make_seen};
use crate::steps::{are_over, exec_silent, is_enabled, make, run_until_send};
use crate::undo_logs::{StoppedEarly, UndoLogs, run_each_by};
use crate::word_runs::run_by;
use block_layout::Layout;
use node_machine::Node;
use node_machine::exec_map::Program;
use node_machine::jump_map::Image;
use node_machine::node_words::WordLoop;
use rewriting_law::dsm_messages::Sends;
use rewriting_law::dsm_protocol::Queue;
use rewriting_law::dsm_protocol::lists::{has_mail, has_wire};
use run_limits::Budget;
use std::alloc::AllocError;
use std::marker::Model;

/// n nodes that run rewritten code of a program over a layout, and the lists of messages between
/// them.
#[derive(Drop)]
pub struct Parts<'a> {
    /// The rewritten code.
    pub image: &'a Image,
    /// The program that it was rewritten from.
    pub program: &'a Program<'a>,
    /// The layout, whose number of nodes is n.
    pub layout: Layout,
    /// How many words each node executes at most.
    pub budget: Budget,
    /// The nodes, by number.
    pub nodes: Vec<Node<'a>>,
    /// The messages on their way: the list from node j to node i stands at place j × n + i.
    pub lists: Vec<Queue>,
    /// What an event sends, until it stands in the lists.
    pub sends: Sends,
}

impl<'a> Model for Parts<'a> {
    ghost use Rattle.dsm_core.specs.CoreParts.{CoreParts};

    ghost Value = { CoreParts };

    ghost view = { λ p. record {
      program = p.program.now;
      image = p.image.now;
      layout = p.layout;
      budget = p.budget;
      nodes = p.nodes.items;
      lists = p.lists.items;
    } };
}

impl<'a> Parts<'a> {
    /// The layout.
    pub(crate) fn layout(&self) -> &Layout
        ensures value { result.now ≡ self.now.layout }
    {
        &self.layout
    }

    /// A node.
    pub(crate) fn node(&self, node: u8) -> &Node<'a>
        requires parts { AreParts self.now }
        requires node { node < self.now.layout.nodes }
        ensures value { node_of result.now ≡ (core_of self.now).nodes node }
        ensures work { work_at result.now ≡ work_of self.now }
    {
        &self.nodes[node as usize]
    }

    /// Whether every node is over.
    pub(crate) fn is_over(&self) -> bool
        requires parts { AreParts self.now }
        ensures value { (result ≡ true) ↔ IsOver (work_of self.now) (core_of self.now) }
    {
        let count = self.layout.nodes();
        are_over(&self.nodes, count)
    }

    /// Whether an event is allowed.
    pub(crate) fn enabled(&self, event: Event) -> bool
        requires parts { AreParts self.now }
        ensures value { (result ≡ true)
            ↔ May (work_of self.now) (core_of self.now) (event_of event) }
    {
        let count = self.layout.nodes();
        is_enabled(&self.nodes, &self.lists, count, event)
    }

    /// Makes an event that is allowed, where its stamps are in range.
    pub(crate) fn make(&mut self, event: Event) -> Result<(), AllocError>
        requires parts { AreParts self.old }
        requires range { HasStampsInRange self.old.layout.nodes (core_of self.old) }
        requires enabled { May (work_of self.old) (core_of self.old) (event_of event) }
        ensures parts { AreParts self.new }
        ensures work { work_of self.new ≡ work_of self.old }
        ensures event { OnOk result (AreAlike self.old.layout.nodes (core_of self.new)
            (event_step (work_of self.old) (core_of self.old) (event_of event))) }
        ensures err { OnErr result (core_of self.new ≡ core_of self.old) }
    {
        let count = self.layout.nodes();
        make(
            &mut self.nodes,
            &mut self.lists,
            &mut self.sends,
            count,
            event,
        )
    }

    /// Makes an event that is allowed, where its stamps are in range, and tells what it sends and
    /// wants.
    pub(crate) fn make_seen(&mut self, event: Event) -> Result<Seen, AllocError>
        requires parts { AreParts self.old }
        requires range { HasStampsInRange self.old.layout.nodes (core_of self.old) }
        requires enabled { May (work_of self.old) (core_of self.old) (event_of event) }
        ensures parts { AreParts self.new }
        ensures work { work_of self.new ≡ work_of self.old }
        ensures event { OnOk result (AreAlike self.old.layout.nodes (core_of self.new)
            (event_step (work_of self.old) (core_of self.old) (event_of event))) }
        ensures seen { IfOk result
            (IsSeen (work_of self.old) (core_of self.old) (event_of event)) }
        ensures err { OnErr result (core_of self.new ≡ core_of self.old) }
    {
        let count = self.layout.nodes();
        make_seen(
            &mut self.nodes,
            &mut self.lists,
            &mut self.sends,
            count,
            event,
        )
    }

    /// A node executes its next word by its micro-op, where that serves it.
    pub(crate) fn exec_silent(&mut self, node: u8) -> bool
        requires parts { AreParts self.old }
        requires range { HasStampsInRange self.old.layout.nodes (core_of self.old) }
        requires enabled { May (work_of self.old) (core_of self.old) (model.Exec node) }
        ensures parts { AreParts self.new }
        ensures work { work_of self.new ≡ work_of self.old }
        ensures passed { result ≡ true
            → HasPassed (work_of self.old) node (core_of self.old) (core_of self.new) }
        ensures kept { result ≡ false → core_of self.new ≡ core_of self.old }
    {
        let count = self.layout.nodes();
        exec_silent(&mut self.nodes, count, node)
    }

    /// A node executes words by a loop, as long as they print nothing and send nothing, at most so
    /// many.
    pub(crate) fn run_by<L: WordLoop>(&mut self, node: u8, by: &mut L, most: u64) -> u64
        requires parts { AreParts self.old }
        requires range { HasStampsInRange self.old.layout.nodes (core_of self.old) }
        requires enabled { May (work_of self.old) (core_of self.old) (model.Exec node) }
        requires goes_over { L.goes_over (work_of self.old).image by.old }
        ensures parts { AreParts self.new }
        ensures work { work_of self.new ≡ work_of self.old }
        ensures passed { HasPassedWords (work_of self.old) node result
            (core_of self.old) (core_of self.new) }
        ensures learns { L.learns (work_of self.old) result ((core_of self.old).nodes node)
            by.old by.new }
        ensures stays { (image : List Cell) → L.goes_over image by.old
            → L.goes_over image by.new }
        ensures most { result ≤ most }
    {
        let count = self.layout.nodes();
        run_by(&mut self.nodes, count, node, by, most)
    }

    /// Each node executes so many words by a loop, by its number, where their micro-ops serve all of
    /// them; otherwise nothing changes.
    pub(crate) fn run_each_by<L: WordLoop>(
        &mut self,
        by: &mut L,
        words: &[u32; 16],
        undo_logs: &mut UndoLogs,
    ) -> Result<(), StoppedEarly>
        requires parts { AreParts self.old }
        requires range { HasStampsInRange self.old.layout.nodes (core_of self.old) }
        requires undo_logs { undo_logs.old ≡ self.old.layout.nodes }
        requires nodes { self.old.layout.nodes ≤ 16 }
        requires enabled { (i : ℕ) → i < self.old.layout.nodes
            → 1 ≤ slice_index_or words.now i 0
            → May (work_of self.old) (core_of self.old) (model.Exec i) }
        requires goes_over { L.goes_over (work_of self.old).image by.old }
        ensures parts { AreParts self.new }
        ensures work { work_of self.new ≡ work_of self.old }
        ensures passed { IfOk result (λ u. HaveEachPassed (work_of self.old)
            (λ i. slice_index_or words.now i 0) (core_of self.old) (core_of self.new)) }
        ensures learns { IfOk result (λ u. LearnsBelow L.learns (work_of self.old)
            (λ i. slice_index_or words.now i 0) self.old.layout.nodes (core_of self.old)
            by.old by.new) }
        ensures stays { (image : List Cell) → L.goes_over image by.old → L.goes_over image by.new }
        ensures kept { OnErr result (core_of self.new ≡ core_of self.old) }
        ensures undo_logs { undo_logs.new ≡ undo_logs.old }
    {
        let count = self.layout.nodes();
        run_each_by(&mut self.nodes, &mut undo_logs.undo_logs, count, by, words)
    }

    /// A node executes words. Those before the last print nothing and send nothing.
    pub(crate) fn run_until_send(&mut self, node: u8) -> Result<u64, AllocError>
        requires parts { AreParts self.old }
        requires range { HasStampsInRange self.old.layout.nodes (core_of self.old) }
        requires enabled { May (work_of self.old) (core_of self.old) (model.Exec node) }
        ensures parts { AreParts self.new }
        ensures work { work_of self.new ≡ work_of self.old }
        ensures ran { IfOk result (λ words. HasExecutedOn (work_of self.old) node words
            (core_of self.old) (core_of self.new)) }
        ensures err { OnErr result (core_of self.new ≡ core_of self.old) }
    {
        let count = self.layout.nodes();
        run_until_send(
            &mut self.nodes,
            &mut self.lists,
            &mut self.sends,
            count,
            node,
        )
    }

    /// Whether a message is on its way to a node.
    pub(crate) fn has_mail(&self, node: u8) -> bool
        requires parts { AreParts self.now }
        requires node { node < self.now.layout.nodes }
        ensures value { (result ≡ false) ↔ ((j : ℕ) → j < self.now.layout.nodes
            → (core_of self.now).list j node ≡ []) }
    {
        let count = self.layout.nodes();
        has_mail(&self.lists, count, node)
    }

    /// Whether a message is on its way from one node to another.
    pub(crate) fn has_wire(&self, from: u8, to: u8) -> bool
        requires parts { AreParts self.now }
        requires from { from < self.now.layout.nodes }
        requires to { to < self.now.layout.nodes }
        ensures value { (result ≡ true) ↔ ((core_of self.now).list from to ≢ []) }
    {
        let count = self.layout.nodes();
        has_wire(&self.lists, count, from, to)
    }

    /// The first message on its way from one node to another.
    pub(crate) fn first(&self, from: u8, to: u8) -> Option<Incoming>
        requires parts { AreParts self.now }
        requires from { from < self.now.layout.nodes }
        requires to { to < self.now.layout.nodes }
        ensures value { MatchOption result ((core_of self.now).list from to ≡ [])
            (IsFirstIn ((core_of self.now).list from to)) }
    {
        let count = self.layout.nodes();
        first(&self.lists, count, from, to)
    }
}
