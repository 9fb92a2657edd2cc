#![tactic(auto)]
//! Nodes that run rewritten code over the directory protocol do what the original processors do on
//! one memory.
//!
//! It hands on [`dsm_protocol`], by whose law it is proved, and what its statements name:
//! [`runtime_words`], [`dsm_messages`] and [`home_directory`].

ghost use Rattle.std.specs.Prelude.{◌≡◌, ◌≢◌, ℕ, ◌/◌, ◌<◌, ◌≤◌, Bool, true, List, [], Some, length};
ghost use Rattle.block_layout.specs.Layout.{IsValid};
ghost use Rattle.rv32_program.specs.declared.End.TheVariants.{Stopped};
ghost use Rattle.rv32_program.specs.Program.{IsAccepted};
ghost use Rattle.templates.specs.declared.plans.PlanEntry.{PlanEntry};
ghost use Rattle.dsm_protocol.specs.jump_map.Image.{IsRewriting};
ghost use Rattle.dsm_protocol.specs.node_model.declared.Standing.TheVariants.{Over};
ghost use Rattle.rv32_step.specs.OneMemory.{WritesIf};
ghost use Rattle.dsm_protocol.specs.node_model.Node.{Work, Node, Resume, Waiting, Ended};
ghost use Rattle.dsm_protocol.specs.node_model.Node.{IsLaidOver, can_execute, standing_of};
ghost use Rattle.dsm_protocol.specs.node_model.Node.{word_outcome};
ghost use Rattle.dsm_protocol.specs.node_model.Core.{Core, Event, Exec, May, IsCoreRun};
ghost use Rattle.dsm_protocol.specs.node_model.Core.{opening_core, event_step, after};
ghost use Rattle.dsm_protocol.specs.node_model.Outcome.{AreFrugal, counts_after};
ghost use Rattle.rewriting_law.specs.Licence.{AllLicensed};
ghost use Rattle.rewriting_law.specs.Bounds.{most_events, steps_of};
ghost use Rattle.rewriting_law.specs.CoreRun.{commits, picks_of};
ghost use Rattle.rewriting_law.specs.Ascents.{AscendsBetweenPolls, pc_at};
ghost use Rattle.rewriting_law.specs.Conditionals.{IsConditional, IsLostBy};
ghost use Rattle.rewriting_law.specs.ProtocolLists.{HasProtocolList, EndsMisses};
ghost use Rattle.rewriting_law.specs.Interleaving.{Interleaves, IsCoherent, GoesAlone};
ghost use Rattle.rewriting_law.specs.Interleaving.{SameReservations, HaveRows, original_after};

use block_layout::layout_law;
pub use dsm_protocol;
pub use home_directory;
pub use home_directory::dsm_messages;
pub use runtime_words;

/// The law of rewriting, which the callers use by its clauses; the call does nothing.
pub fn interleaving_law()
    // Every core run of rewritten code, on the nodes of a layout, is by its picks an interleaved
    // run of the original processors on one memory.
    ensures interleaves { (work : Work) (plan : List PlanEntry) (events : List Event)
        → IsAccepted work.program → IsValid work.layout → IsLaidOver work.program work.layout
        → IsRewriting work.program plan work.image → IsCoreRun work (opening_core work) events
        → Interleaves work plan events }
    // Each word of such a run that commits makes a licensed access: the line of a load is readable,
    // that of a store writable, by the node's states before the word.
    ensures licensed { (work : Work) (plan : List PlanEntry) (events : List Event)
        → IsAccepted work.program → IsValid work.layout → IsLaidOver work.program work.layout
        → IsRewriting work.program plan work.image → IsCoreRun work (opening_core work) events
        → AllLicensed work plan (opening_core work) events }
    // And it is of the original address at which its processor is.
    ensures places { (work : Work) (plan : List PlanEntry) (events : List Event) (i : ℕ)
        → IsAccepted work.program → IsValid work.layout → IsLaidOver work.program work.layout
        → IsRewriting work.program plan work.image → IsCoreRun work (opening_core work) events
        → May work (after work (opening_core work) events) (Exec i)
        → commits work plan ((after work (opening_core work) events).nodes i) ≡ true
        → ((original_after work plan events).processors i).pc
        ≡ pc_at work ((after work (opening_core work) events).nodes i).lane }
    // After each such run the nodes' copies are coherent with the memory of the interleaved run:
    // what a node may read is the memory's, all else is flagged, and a block has one writer or
    // only readers.
    ensures coherent { (work : Work) (plan : List PlanEntry) (events : List Event)
        → IsAccepted work.program → IsValid work.layout → IsLaidOver work.program work.layout
        → IsRewriting work.program plan work.image → IsCoreRun work (opening_core work) events
        → IsCoherent work (after work (opening_core work) events)
        (original_after work plan events).shared }
    // And the nodes, and the lists between them, are those to which some protocol list leads from
    // the program's first bytes, of licensed stores, wants and takes, with the memory of the
    // interleaved run.
    ensures lists { (work : Work) (plan : List PlanEntry) (events : List Event)
        → IsAccepted work.program → IsValid work.layout → IsLaidOver work.program work.layout
        → IsRewriting work.program plan work.image → IsCoreRun work (opening_core work) events
        → HasProtocolList work (after work (opening_core work) events)
        (original_after work plan events).shared }
    // And the processors have the same addresses reserved on both sides.
    ensures reservations { (work : Work) (plan : List PlanEntry) (events : List Event)
        → IsAccepted work.program → IsValid work.layout → IsLaidOver work.program work.layout
        → IsRewriting work.program plan work.image → IsCoreRun work (opening_core work) events
        → SameReservations work (after work (opening_core work) events)
        (original_after work plan events) }
    // On one node no word waits, and an event leaves of the node what its word leaves: so words
    // that are executed one after the other until the node has ended are a core run.
    ensures alone { (work : Work) (plan : List PlanEntry) (events : List Event)
        → work.layout.nodes ≡ 1 → IsAccepted work.program → IsValid work.layout
        → IsLaidOver work.program work.layout → IsRewriting work.program plan work.image
        → IsCoreRun work (opening_core work) events
        → can_execute ((after work (opening_core work) events).nodes 0).phase ≡ true
        → GoesAlone work ((after work (opening_core work) events).nodes 0) }
    // A node is stopped only where it has executed its whole budget.
    ensures stopped { (work : Work) (events : List Event) (i budget : ℕ)
        → IsCoreRun work (opening_core work) events
        → ((after work (opening_core work) events).nodes i).phase ≡ Ended (Stopped budget)
        → (budget ≡ work.budget)
        × (((after work (opening_core work) events).nodes i).executed ≡ work.budget) }
{
    layout_law();
}

/// The law of progress, which the callers use by its clause; the call does nothing.
pub fn progress_law()
    // After every core run of rewritten code, some event is allowed, unless each node has ended and
    // has been told by all nodes that they have.
    ensures goes_on { (work : Work) (plan : List PlanEntry) (events : List Event) (i : ℕ)
        → IsAccepted work.program → IsValid work.layout → IsLaidOver work.program work.layout
        → IsRewriting work.program plan work.image → IsCoreRun work (opening_core work) events
        → i < work.layout.nodes
        → standing_of work ((after work (opening_core work) events).nodes i) ≢ Over
        → (event : Event) × May work (after work (opening_core work) events) event }
    // Where a node waits, some list isn't empty.
    ensures moves { (work : Work) (plan : List PlanEntry) (events : List Event) (i : ℕ)
        (resume : Resume) → IsAccepted work.program → IsValid work.layout
        → IsLaidOver work.program work.layout → IsRewriting work.program plan work.image
        → IsCoreRun work (opening_core work) events → i < work.layout.nodes
        → ((after work (opening_core work) events).nodes i).phase ≡ Waiting resume
        → (j : ℕ) × (k : ℕ) × (j < work.layout.nodes) × (k < work.layout.nodes)
        × ((after work (opening_core work) events).list j k ≢ []) }
    // A message without a row never comes.
    ensures rows { (work : Work) (plan : List PlanEntry) (events : List Event)
        → IsAccepted work.program → IsValid work.layout → IsLaidOver work.program work.layout
        → IsRewriting work.program plan work.image → IsCoreRun work (opening_core work) events
        → HaveRows work (after work (opening_core work) events) }
    // Once every node is over, every list is empty.
    ensures over { (work : Work) (plan : List PlanEntry) (events : List Event) (j k : ℕ)
        → IsAccepted work.program → IsValid work.layout → IsLaidOver work.program work.layout
        → IsRewriting work.program plan work.image → IsCoreRun work (opening_core work) events
        → ((i : ℕ) → i < work.layout.nodes
        → standing_of work ((after work (opening_core work) events).nodes i) ≡ Over)
        → j < work.layout.nodes → k < work.layout.nodes
        → (after work (opening_core work) events).list j k ≡ [] }
    // No node executes more words than its budget, which is one or more.
    ensures within { (work : Work) (events : List Event) (i : ℕ) → 0 < work.budget
        → IsCoreRun work (opening_core work) events
        → ((after work (opening_core work) events).nodes i).executed ≤ work.budget }
    // A core run is of at most so many events: so any run that goes on while it may ends with every
    // node over.
    ensures short { (work : Work) (plan : List PlanEntry) (events : List Event)
        → IsAccepted work.program → IsValid work.layout → IsLaidOver work.program work.layout
        → IsRewriting work.program plan work.image → 0 < work.budget
        → IsCoreRun work (opening_core work) events → length events ≤ most_events work }
{
    layout_law();
}

/// The law of bounds, which the callers use by its clauses; the call does nothing.
pub fn bounds_law()
    // After every core run of rewritten code the nodes have sent no more messages than their misses
    // may cost.
    ensures messages { (work : Work) (plan : List PlanEntry) (events : List Event)
        → IsAccepted work.program → IsValid work.layout → IsLaidOver work.program work.layout
        → IsRewriting work.program plan work.image → IsCoreRun work (opening_core work) events
        → AreFrugal work.layout.nodes (counts_after work events) }
    // Whatever protocol list leads to nodes and lists: where a miss ends it has sent exactly four
    // messages for it, if the miss is to read, and at most 2n + 1, if it is to write.
    ensures costs { (work : Work) (c : Core) (memory : ℕ → ℕ)
        (list : HasProtocolList work c memory) → IsValid work.layout → EndsMisses list }
    // A processor that was stopped has made a step for each 40 words of its budget.
    ensures work { (work : Work) (plan : List PlanEntry) (events : List Event) (i budget : ℕ)
        → IsAccepted work.program → IsValid work.layout → IsLaidOver work.program work.layout
        → IsRewriting work.program plan work.image → IsCoreRun work (opening_core work) events
        → i < work.layout.nodes
        → ((after work (opening_core work) events).nodes i).phase ≡ Ended (Stopped budget)
        → budget / 40 ≤ steps_of i (picks_of work plan (opening_core work) events) }
    // Between two polls of a node, its steps ascend from the third on: each is of a greater
    // original address than the one before it. So they are at most one more than the places.
    ensures polls { (work : Work) (plan : List PlanEntry) (events : List Event) (i : ℕ)
        → IsAccepted work.program → IsValid work.layout → IsLaidOver work.program work.layout
        → IsRewriting work.program plan work.image → IsCoreRun work (opening_core work) events
        → i < work.layout.nodes → AscendsBetweenPolls work plan events i }
{
    layout_law();
}

/// The law of reservations, which the callers use by its clauses; the call does nothing.
pub fn conditional_law()
    // A conditional store of a node stores exactly where the processor's reservation is its
    // address.
    ensures stores { (work : Work) (n : Node) (a value : ℕ) (stores : Bool)
        → (word_outcome work n).access ≡ WritesIf a value stores
        → IsConditional work n a value stores }
    // A reservation is lost only by the processor's own conditional store, to its own later load
    // that reserves, or to a message that takes the block away for another node, which is a break.
    ensures lost { (work : Work) (plan : List PlanEntry) (c : Core) (e : Event) (i a : ℕ)
        → (c.nodes i).local.reservation ≡ Some a
        → ((event_step work c e).nodes i).local.reservation ≢ Some a → IsLostBy work plan c i e }
{}
