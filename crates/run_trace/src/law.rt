//! What holds of every trace.

ghost use Rattle.std.specs.Prelude.{◌≡◌, List};
ghost use Rattle.replay.specs.node_model.Node.{Work};
ghost use Rattle.replay.specs.node_model.Outcome.{counts_after};
ghost use Rattle.replay.specs.Told.{Told, events_told};
ghost use Rattle.replay.specs.run_record.declared.Record.{Record as Kept};
ghost use Rattle.templates.specs.declared.plans.PlanEntry.{PlanEntry};
ghost use Rattle.run_trace.specs.Traced.{Traced};
ghost use Rattle.run_trace.specs.Trace.{IsTraceOf, trace_of};
ghost use Rattle.run_trace.specs.Sums.{counts_by_node};

use replay::replay_law;

/// A record has at most one trace, and a trace counts of each node what the node counts. The call
/// does nothing.
pub fn trace_law()
    ensures one { (work : Work) (plan : List PlanEntry) (r : Kept) (one other : List Traced)
        → IsTraceOf work plan r one → IsTraceOf work plan r other → one ≡ other }
    ensures counts { (work : Work) (plan : List PlanEntry) (told : List Told)
        → counts_by_node work.layout.nodes (trace_of work plan told)
        ≡ counts_after work (events_told told) }
{
    replay_law();
}
