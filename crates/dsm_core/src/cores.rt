//! n nodes that run rewritten code, and the n × n lists of messages between them.

ghost use Rattle.std.specs.Prelude.{◌≡◌, ◌≢◌, ◌<◌, ◌≤◌, ◌^◌, ◌↔◌, ℕ, List, [], true, false};
ghost use Rattle.std.specs.Prelude.{length, slice_index_or, IfOk, OnOk, OnErr, MatchOption};
ghost use Rattle.run_order.specs.node_model.declared.Standing.TheVariants.{Over};
ghost use Rattle.run_order.specs.node_model.Node.{Resume, Waiting, standing_of};
ghost use Rattle.run_order.specs.node_model.Core as model;
ghost use Rattle.run_order.specs.node_model.Core.{May, AreAlike, IsOver, IsCoreRun, event_step};
ghost use Rattle.run_order.specs.node_model.Core.{opening_core};
ghost use Rattle.run_order.specs.OwnRun.{Stamped, StandsForOwnRun, OnlyAdds};
ghost use Rattle.rewriting_law.specs.Bounds.{RunsRewritten, most_events};
ghost use Rattle.rewriting_law.specs.ProtocolLists.{world_shown};
ghost use Rattle.rewriting_law.specs.dsm_protocol.Buffers.{AreInOnePlace};
ghost use Rattle.dsm_core.specs.CoreParts.{work_of, work_in, core_of, event_of, AreParts, GoesOnTo};
ghost use Rattle.dsm_core.specs.CoreParts.{HasStampsInRange};
ghost use Rattle.dsm_core.specs.CoreWords.{HasPassed, HasPassedWords, HasExecutedOn};
ghost use Rattle.dsm_core.specs.CoreWords.{HaveEachPassed, LearnsBelow};
ghost use Rattle.dsm_core.specs.CoreSteps.{GoesOnFor};
ghost use Rattle.dsm_core.specs.Seen.{IsFirstIn, IsSeen};
ghost use Rattle.node_machine.specs.NodeState.{node_of, work_of as work_at};
ghost use Rattle.node_machine.specs.jump_map.Image.{Cell};

use crate::parts::Parts;
use crate::seen::{Incoming, Seen};
use crate::steps::first_nodes;
use crate::undo_logs::{StoppedEarly, UndoLogs};
use crate::work::Work;
use block_layout::{Layout, layout_law};
use node_machine::Node;
use node_machine::node_words::{PlainLoop, WordLoop};
use rewriting_law::dsm_messages::Sends;
use rewriting_law::dsm_protocol::buffer_law;
use rewriting_law::dsm_protocol::lists::empty_lists;
use rewriting_law::{interleaving_law, progress_law};
use run_order::stamp_law;
use std::alloc::{AllocError, Global};
use std::marker::Model;

/// What may happen next in a core.
#[derive(Clone, Copy, Debug, PartialEq, Eq)]
pub enum Event {
    /// A node executes a word.
    Exec(u8),
    /// A node takes the first message of the list from another.
    Take {
        /// The node that takes it.
        node: u8,
        /// The node that sent it.
        from: u8,
    },
}

/// A core: nodes and lists that a run of events leads to from the start. It stands for its own run,
/// which is the events of its nodes, as their journals tell them, by (stamp, node).
#[derive(Drop)]
pub struct Core<'a> {
    parts: Parts<'a>,
}

impl<'a> Model for Core<'a> {
    ghost use Rattle.dsm_core.specs.CoreParts.{CoreParts, IsCore};

    ghost Value = { CoreParts };

    ghost view = { λ c. c.parts };

    ghost invariant = { λ c. IsCore c.parts };
}

impl<'a> Core<'a> {
    /// The nodes of a layout at the start, and empty lists.
    pub fn new(alloc: Global, work: &Work<'a>) -> Result<Core<'a>, AllocError>
        requires rewritten { RunsRewritten (work_in work.now) }
        ensures opening { IfOk result (λ c. core_of c ≡ opening_core (work_of c)) }
        ensures work { IfOk result (λ c. work_of c ≡ work_in work.now) }
    {
        // brings: the image's words have 32 bits, and are few enough
        let _ = work.image.len();
        // brings: the program is one that no rule refuses
        let _ = work.program.entry();
        // brings: the budget is in its range
        let _ = work.budget.number();
        let count = work.layout.nodes();
        let nodes = first_nodes(alloc, work)?;
        let lists = empty_lists(alloc, count)?;
        let parts = Parts {
            image: work.image,
            program: work.program,
            layout: work.layout.copy(alloc)?,
            budget: work.budget,
            nodes,
            lists,
            sends: Sends::new(),
        };
        Ok(Core { parts })
    }

    /// What holds of every core; the call does nothing.
    pub fn promises(&self)
        // It stands for its own run.
        ensures own_run { (events : List Stamped)
            × StandsForOwnRun (work_of self.now) (core_of self.now) events }
        // Until every node is over some event is allowed.
        ensures goes_on { (i : ℕ) → i < self.now.layout.nodes
            → standing_of (work_of self.now) ((core_of self.now).nodes i) ≢ Over
            → (event : model.Event) × May (work_of self.now) (core_of self.now) event }
        // Where a node waits, some list isn't empty.
        ensures moves { (i : ℕ) (resume : Resume) → i < self.now.layout.nodes
            → ((core_of self.now).nodes i).phase ≡ Waiting resume → (j : ℕ) × (k : ℕ)
            × (j < self.now.layout.nodes) × (k < self.now.layout.nodes)
            × ((core_of self.now).list j k ≢ []) }
        // A run that goes on from it is of at most so many events.
        ensures short { (more : List model.Event)
            → IsCoreRun (work_of self.now) (core_of self.now) more
            → length more ≤ most_events (work_of self.now) }
        // Once every node is over, every list is empty.
        ensures empty { IsOver (work_of self.now) (core_of self.now) → (j i : ℕ)
            → j < self.now.layout.nodes → i < self.now.layout.nodes
            → (core_of self.now).list j i ≡ [] }
        // The nodes run rewritten code.
        ensures rewritten { RunsRewritten (work_of self.now) }
        // Its stamps are in range.
        ensures range { HasStampsInRange self.now.layout.nodes (core_of self.now) }
        // And so are those of every core that it goes on to.
        ensures stays { (d : model.Core) → GoesOnTo (work_of self.now) (core_of self.now) d
            → HasStampsInRange self.now.layout.nodes d }
        // As long as a node waits for a block, the buffer that it took for it is in one message,
        // one request that waits at the block's home or one answered wait, and nowhere else.
        ensures buffers { AreInOnePlace self.now.layout
            (world_shown self.now.layout (core_of self.now)) }
    {
        layout_law();
        buffer_law();
        interleaving_law();
        progress_law();
        stamp_law();
        // brings: what the type of a core says of its parts
        let _layout = self.parts.layout();
    }

    /// What holds of the stamps of every core, and of the runs that go on from it; the call does
    /// nothing.
    pub(crate) fn bounds(&self)
        ensures range { HasStampsInRange self.now.layout.nodes (core_of self.now) }
        ensures runs { (k : ℕ) (d : model.Core)
            → GoesOnFor (work_of self.now) k (core_of self.now) d → k < 2 ^ 56 }
        ensures adds { (d : model.Core) → GoesOnTo (work_of self.now) (core_of self.now) d
            → OnlyAdds self.now.layout.nodes (core_of self.now) d }
    {
        progress_law();
        stamp_law();
        // brings: what the type of a core says of its parts
        let _layout = self.parts.layout();
    }

    /// The layout, whose number of nodes is the core's.
    pub fn layout(&self) -> &Layout
        ensures value { result.now ≡ self.now.layout }
    {
        self.parts.layout()
    }

    /// A node.
    pub fn node(&self, node: u8) -> &Node<'a>
        requires node { node < self.now.layout.nodes }
        ensures value { node_of result.now ≡ (core_of self.now).nodes node }
        ensures work { work_at result.now ≡ work_of self.now }
    {
        self.parts.node(node)
    }

    /// Whether every node is over.
    pub fn is_over(&self) -> bool
        ensures value { (result ≡ true) ↔ IsOver (work_of self.now) (core_of self.now) }
    {
        self.parts.is_over()
    }

    /// Whether an event is allowed.
    pub fn enabled(&self, event: Event) -> bool
        ensures value { (result ≡ true)
            ↔ May (work_of self.now) (core_of self.now) (event_of event) }
    {
        self.parts.enabled(event)
    }

    /// Makes an event that is allowed. It takes its memory first.
    pub fn step(&mut self, event: Event) -> Result<(), AllocError>
        requires enabled { May (work_of self.old) (core_of self.old) (event_of event) }
        ensures event { OnOk result (AreAlike self.old.layout.nodes (core_of self.new)
            (event_step (work_of self.old) (core_of self.old) (event_of event))) }
        ensures err { OnErr result (core_of self.new ≡ core_of self.old) }
        ensures work { work_of self.new ≡ work_of self.old }
    {
        self.bounds();
        self.parts.make(event)
    }

    /// Makes an event that is allowed, and tells what it sends and what its word wants. It takes
    /// its memory first.
    pub fn step_seen(&mut self, event: Event) -> Result<Seen, AllocError>
        requires enabled { May (work_of self.old) (core_of self.old) (event_of event) }
        ensures event { OnOk result (AreAlike self.old.layout.nodes (core_of self.new)
            (event_step (work_of self.old) (core_of self.old) (event_of event))) }
        ensures seen { IfOk result
            (IsSeen (work_of self.old) (core_of self.old) (event_of event)) }
        ensures err { OnErr result (core_of self.new ≡ core_of self.old) }
        ensures work { work_of self.new ≡ work_of self.old }
    {
        self.bounds();
        self.parts.make_seen(event)
    }

    /// Executes the next word of a node by its micro-op, where that serves it: such a word prints
    /// nothing and sends nothing, and the node may execute another. It says whether it did; where
    /// it didn't, nothing has changed.
    pub fn exec_silent(&mut self, node: u8) -> bool
        requires enabled { May (work_of self.old) (core_of self.old) (model.Exec node) }
        ensures passed { result ≡ true
            → HasPassed (work_of self.old) node (core_of self.old) (core_of self.new) }
        ensures kept { result ≡ false → core_of self.new ≡ core_of self.old }
        ensures work { work_of self.new ≡ work_of self.old }
    {
        self.bounds();
        self.parts.exec_silent(node)
    }

    /// Executes words of a node, as long as they print nothing and send nothing, and the node may
    /// execute another after them, at most `most`. It gives how many.
    pub fn run_silent(&mut self, node: u8, most: u64) -> u64
        requires enabled { May (work_of self.old) (core_of self.old) (model.Exec node) }
        ensures passed { HasPassedWords (work_of self.old) node result
            (core_of self.old) (core_of self.new) }
        ensures most { result ≤ most }
        ensures work { work_of self.new ≡ work_of self.old }
    {
        self.bounds();
        self.parts.run_by(node, &mut PlainLoop, most)
    }

    /// Executes words of a node by a loop, as long as they print nothing and send nothing, and the
    /// node may execute another after them, at most `most`. It gives how many.
    pub fn run_by<L: WordLoop>(&mut self, node: u8, by: &mut L, most: u64) -> u64
        requires enabled { May (work_of self.old) (core_of self.old) (model.Exec node) }
        requires goes_over { L.goes_over (work_of self.old).image by.old }
        ensures passed { HasPassedWords (work_of self.old) node result
            (core_of self.old) (core_of self.new) }
        ensures learns { L.learns (work_of self.old) result ((core_of self.old).nodes node)
            by.old by.new }
        ensures stays { (image : List Cell) → L.goes_over image by.old
            → L.goes_over image by.new }
        ensures most { result ≤ most }
        ensures work { work_of self.new ≡ work_of self.old }
    {
        self.bounds();
        self.parts.run_by(node, by, most)
    }

    /// Each node executes its number of words, where their micro-ops serve all of them: such words
    /// print nothing and send nothing, and a node that may execute a word still may. Otherwise
    /// nothing changes, and the answer tells a node that stopped early.
    pub fn run_each_undoable(
        &mut self,
        words: &[u32; 16],
        undo_logs: &mut UndoLogs,
    ) -> Result<(), StoppedEarly>
        requires undo_logs { undo_logs.old ≡ self.old.layout.nodes }
        requires nodes { self.old.layout.nodes ≤ 16 }
        requires enabled { (i : ℕ) → i < self.old.layout.nodes
            → 1 ≤ slice_index_or words.now i 0
            → May (work_of self.old) (core_of self.old) (model.Exec i) }
        ensures passed { IfOk result (λ u. HaveEachPassed (work_of self.old)
            (λ i. slice_index_or words.now i 0) (core_of self.old) (core_of self.new)) }
        ensures kept { OnErr result (core_of self.new ≡ core_of self.old) }
        ensures undo_logs { undo_logs.new ≡ undo_logs.old }
        ensures work { work_of self.new ≡ work_of self.old }
    {
        self.bounds();
        self.parts.run_each_by(&mut PlainLoop, words, undo_logs)
    }

    /// Each node executes so many words by a loop, by its number, where their micro-ops serve all of
    /// them: such words print nothing and send nothing, and a node that may execute a word still
    /// may. Otherwise nothing changes, and the answer tells a node that stopped early.
    pub fn run_each_by<L: WordLoop>(
        &mut self,
        by: &mut L,
        words: &[u32; 16],
        undo_logs: &mut UndoLogs,
    ) -> Result<(), StoppedEarly>
        requires undo_logs { undo_logs.old ≡ self.old.layout.nodes }
        requires nodes { self.old.layout.nodes ≤ 16 }
        requires enabled { (i : ℕ) → i < self.old.layout.nodes
            → 1 ≤ slice_index_or words.now i 0
            → May (work_of self.old) (core_of self.old) (model.Exec i) }
        requires goes_over { L.goes_over (work_of self.old).image by.old }
        ensures passed { IfOk result (λ u. HaveEachPassed (work_of self.old)
            (λ i. slice_index_or words.now i 0) (core_of self.old) (core_of self.new)) }
        ensures learns { IfOk result (λ u. LearnsBelow L.learns (work_of self.old)
            (λ i. slice_index_or words.now i 0) self.old.layout.nodes (core_of self.old)
            by.old by.new) }
        ensures stays { (image : List Cell) → L.goes_over image by.old → L.goes_over image by.new }
        ensures kept { OnErr result (core_of self.new ≡ core_of self.old) }
        ensures undo_logs { undo_logs.new ≡ undo_logs.old }
        ensures work { work_of self.new ≡ work_of self.old }
    {
        self.bounds();
        self.parts.run_each_by(by, words, undo_logs)
    }

    /// Executes words of a node, and gives how many. Those before the last print nothing and send
    /// nothing. It takes its memory first.
    pub fn run_until_send(&mut self, node: u8) -> Result<u64, AllocError>
        requires enabled { May (work_of self.old) (core_of self.old) (model.Exec node) }
        ensures ran { IfOk result (λ words. HasExecutedOn (work_of self.old) node words
            (core_of self.old) (core_of self.new)) }
        ensures err { OnErr result (core_of self.new ≡ core_of self.old) }
        ensures work { work_of self.new ≡ work_of self.old }
    {
        self.bounds();
        self.parts.run_until_send(node)
    }

    /// Whether a message is on its way to a node.
    pub fn has_mail(&self, node: u8) -> bool
        requires node { node < self.now.layout.nodes }
        ensures value { (result ≡ false) ↔ ((j : ℕ) → j < self.now.layout.nodes
            → (core_of self.now).list j node ≡ []) }
    {
        self.parts.has_mail(node)
    }

    /// Whether a message is on its way from one node to another.
    pub fn has_wire(&self, from: u8, to: u8) -> bool
        requires from { from < self.now.layout.nodes }
        requires to { to < self.now.layout.nodes }
        ensures value { (result ≡ true) ↔ ((core_of self.now).list from to ≢ []) }
    {
        self.parts.has_wire(from, to)
    }

    /// The first message on its way from one node to another.
    pub fn first(&self, from: u8, to: u8) -> Option<Incoming>
        requires from { from < self.now.layout.nodes }
        requires to { to < self.now.layout.nodes }
        ensures value { MatchOption result ((core_of self.now).list from to ≡ [])
            (IsFirstIn ((core_of self.now).list from to)) }
    {
        self.parts.first(from, to)
    }

    /// Its nodes and lists.
    pub fn take_apart(self) -> Parts<'a>
        ensures parts { result ≡ self.entry }
        ensures are_parts { AreParts result }
        ensures own_run { (events : List Stamped)
            × StandsForOwnRun (work_of result) (core_of result) events }
    {
        self.promises();
        self.parts
    }

    /// The core of nodes and lists that stand for their own run.
    pub fn put_together(parts: Parts<'a>) -> Core<'a>
        requires parts { AreParts parts }
        requires own_run { (events : List Stamped)
            × StandsForOwnRun (work_of parts) (core_of parts) events }
        ensures core { result ≡ parts.entry }
    {
        Core { parts }
    }
}
