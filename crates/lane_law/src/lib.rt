#![tactic(auto)]
//! Nodes of several processors that run rewritten code do what the original processors do on one
//! memory. There is no code here.
//!
//! It hands on [`dsm_protocol`], by whose law it is proved.

ghost use Rattle.std.specs.Prelude.{◌<◌, ◌≤◌, ℕ, List, length};
ghost use Rattle.templates.specs.declared.plans.PlanEntry.{PlanEntry};
ghost use Rattle.lane_model.specs.Nodes.{LaneWork};
ghost use Rattle.lane_model.specs.Core.{LaneEvent, IsLaneRun, opening_core, after};
ghost use Rattle.lane_law.specs.Law.{RunsOnLanes, Interleaves, AllLicensed, IsCoherent};
ghost use Rattle.lane_law.specs.Law.{SameReservations, StopsAtBudget, original_after};
ghost use Rattle.lane_law.specs.Law.{GoesOn, AreAllOver, AreEmpty, HaveRows, most_lane_events};

use block_layout::layout_law;
pub use dsm_protocol;

/// The law of nodes of several processors, which the callers use by its clauses; the call does
/// nothing.
pub fn lane_law()
    // Every core run of rewritten code, on one to four lanes of each node, is by its picks an
    // interleaved run of as many original processors on one memory.
    ensures interleaves { (w : LaneWork) (plan : List PlanEntry) (events : List LaneEvent)
        → RunsOnLanes w plan → IsLaneRun w (opening_core w) events → Interleaves w plan events }
    // Each word of such a run that commits makes a licensed access, by its node's states before the
    // word.
    ensures licensed { (w : LaneWork) (plan : List PlanEntry) (events : List LaneEvent)
        → RunsOnLanes w plan → IsLaneRun w (opening_core w) events
        → AllLicensed w plan (opening_core w) events }
    // After each such run the nodes' copies are coherent with the memory of the interleaved run.
    ensures coherent { (w : LaneWork) (plan : List PlanEntry) (events : List LaneEvent)
        → RunsOnLanes w plan → IsLaneRun w (opening_core w) events
        → IsCoherent w (after w (opening_core w) events) (original_after w plan events).shared }
    // And the processors have the same addresses reserved on both sides.
    ensures reservations { (w : LaneWork) (plan : List PlanEntry) (events : List LaneEvent)
        → RunsOnLanes w plan → IsLaneRun w (opening_core w) events
        → SameReservations w (after w (opening_core w) events) (original_after w plan events) }
    // A processor is stopped only where it has executed its whole budget.
    ensures stopped { (w : LaneWork) (plan : List PlanEntry) (events : List LaneEvent)
        → RunsOnLanes w plan → IsLaneRun w (opening_core w) events
        → StopsAtBudget w (after w (opening_core w) events) }
{
    layout_law();
}

/// The law of progress of such nodes, which the callers use by its clauses; the call does nothing.
pub fn lane_progress_law()
    // After every such run some event is allowed, unless each node is over: its lanes have ended,
    // and it has been told by all nodes that theirs have.
    ensures goes_on { (w : LaneWork) (plan : List PlanEntry) (events : List LaneEvent)
        → RunsOnLanes w plan → IsLaneRun w (opening_core w) events
        → GoesOn w (after w (opening_core w) events) }
    // Once each node is over every list is empty.
    ensures over { (w : LaneWork) (plan : List PlanEntry) (events : List LaneEvent)
        → RunsOnLanes w plan → IsLaneRun w (opening_core w) events
        → AreAllOver w (after w (opening_core w) events)
        → AreEmpty w (after w (opening_core w) events) }
    // A message without a row never comes.
    ensures rows { (w : LaneWork) (plan : List PlanEntry) (events : List LaneEvent)
        → RunsOnLanes w plan → IsLaneRun w (opening_core w) events
        → HaveRows w (after w (opening_core w) events) }
    // No lane executes more words than its budget, which is one or more.
    ensures within { (w : LaneWork) (events : List LaneEvent) (i k : ℕ) → 0 < w.work.budget
        → IsLaneRun w (opening_core w) events
        → (((after w (opening_core w) events).nodes i).lanes k).executed ≤ w.work.budget }
    // Such a run is of at most so many events: so any that goes on while it may ends with every
    // node over.
    ensures short { (w : LaneWork) (plan : List PlanEntry) (events : List LaneEvent)
        → RunsOnLanes w plan → 0 < w.work.budget → IsLaneRun w (opening_core w) events
        → length events ≤ most_lane_events w }
{
    layout_law();
}
