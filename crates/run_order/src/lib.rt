#![tactic(auto)]
//! The order of a core's events, by their stamps. There is no code here.
//!
//! It hands on [`node_model`], whose runs it puts in order.

ghost use Rattle.std.specs.Prelude.{◌≡◌, ◌<◌, ◌≤◌, ◌++◌, ℕ, List, map, length, All};
ghost use Rattle.node_model.specs.Node.{Work};
ghost use Rattle.node_model.specs.Core.{Core, Event, IsCoreRun, opening_core, after, printed_by};
ghost use Rattle.run_order.specs.OwnRun.{Stamped, StandsForOwnRun, OnlyAdds, run_of};
ghost use Rattle.run_order.specs.Apart.{LocalEvent, HaveDone};
ghost use Rattle.run_order.specs.Merge.{Printed, AreMerged, byte_in};
ghost use Rattle.run_order.specs.Takes.{AreTakesWithin};

pub use node_model;

/// The law of stamps, which the callers use by its clauses; the call does nothing. It holds of
/// whatever the nodes run.
pub fn stamp_law()
    // A core that a core run leads to stands for its own run: its nodes' events, which their
    // journals tell, sorted by (stamp, node), are a core run to the same nodes and lists.
    ensures own_run { (work : Work) (run : List Event) → IsCoreRun work (opening_core work) run
        → (events : List Stamped)
        × StandsForOwnRun work (after work (opening_core work) run) events }
    // And there is one such run.
    ensures one { (work : Work) (c : Core) (events others : List Stamped)
        → StandsForOwnRun work c events → StandsForOwnRun work c others → events ≡ others }
    // A run only adds to each node's events.
    ensures adds { (work : Work) (run more : List Event)
        → IsCoreRun work (opening_core work) (run ++ more)
        → OnlyAdds work.layout.nodes (after work (opening_core work) run)
        (after work (opening_core work) (run ++ more)) }
    // Nodes that made events apart, with what is left of each list, stand for their own run where
    // the core that they come from does; and they only add to its events.
    ensures apart { (work : Work) (c d : Core) (events : List Stamped)
        (history : ℕ → List LocalEvent)
        → StandsForOwnRun work c events → HaveDone work c d history
        → (own : List Stamped) × StandsForOwnRun work d own × OnlyAdds work.layout.nodes c d }
    // No stamp is above the number of events.
    ensures few { (work : Work) (run : List Event) (i : ℕ)
        → IsCoreRun work (opening_core work) run → i < work.layout.nodes
        → ((after work (opening_core work) run).nodes i).stamp ≤ length run }
    // Nor is that of a message in a list.
    ensures wires { (work : Work) (run : List Event) (j k : ℕ)
        → IsCoreRun work (opening_core work) run → j < work.layout.nodes → k < work.layout.nodes
        → All (λ wire. wire.stamp ≤ length run)
        ((after work (opening_core work) run).list j k) }
    // The bytes of its nodes can be merged by (stamp, node).
    ensures bytes { (work : Work) (c : Core) (events : List Stamped)
        → StandsForOwnRun work c events
        → (bytes : List Printed) × AreMerged work.layout.nodes c.nodes bytes }
    // The bytes of the nodes, merged by (stamp, node), are those that its own run prints, in order.
    ensures merged { (work : Work) (c : Core) (events : List Stamped) (bytes : List Printed)
        → StandsForOwnRun work c events → AreMerged work.layout.nodes c.nodes bytes
        → map byte_in bytes ≡ printed_by work (opening_core work) (run_of events) }
{}

/// The law of journals, which the callers use by its clauses; the call does nothing.
pub fn journal_law()
    // After a core run the takes in each journal are one after another, from nodes of the core,
    // with stamps that are no more than the number of events.
    ensures takes { (work : Work) (run : List Event) (i : ℕ)
        → IsCoreRun work (opening_core work) run → i < work.layout.nodes
        → AreTakesWithin work.layout.nodes 0 (length run)
        ((after work (opening_core work) run).nodes i).journal }
{}
