//! What holds of the sums over blocks.

ghost use Rattle.std.specs.Prelude.{◌<◌, ℕ, List, All, slice_index_or};
ghost use Rattle.block_layout.specs.Layout.{IsValid, blocks};
ghost use Rattle.node_model.specs.Node.{Work, no_counts};
ghost use Rattle.node_model.specs.Outcome.{counts_after};
ghost use Rattle.event_text.specs.replay.Told.{Told, events_told};
ghost use Rattle.templates.specs.declared.plans.PlanEntry.{PlanEntry};
ghost use Rattle.event_text.specs.run_trace.Traced.{Traced};
ghost use Rattle.event_text.specs.run_trace.Trace.{trace_of};
ghost use Rattle.block_view.specs.Counts.{IsOfBlocks, AreSums, AreSumsTo};

use block_layout::layout_law;
use event_text::run_trace::trace_law;

/// What a node counts in a run is the sum of what it counts of each block. The call does nothing.
pub fn block_law()
    ensures known { (work : Work) (plan : List PlanEntry) (told : List Told)
        → IsValid work.layout
        → All (λ x. IsOfBlocks (blocks work.layout) x.what) (trace_of work plan told) }
    ensures sums { (m i : ℕ) (trace : List Traced) → All (λ x. IsOfBlocks m x.what) trace
        → AreSums m i trace }
    ensures run { (work : Work) (plan : List PlanEntry) (told : List Told) (i : ℕ)
        → IsValid work.layout → AreSums (blocks work.layout) i (trace_of work plan told) }

    // Of what a run says that a node has counted, each number but those of false misses and
    // fallbacks is the sum over the blocks.
    ensures counts { (work : Work) (plan : List PlanEntry) (told : List Told) (i : ℕ)
        → IsValid work.layout → i < work.layout.nodes
        → AreSumsTo (blocks work.layout) i (trace_of work plan told)
        (slice_index_or (counts_after work (events_told told)) i no_counts) }
{
    layout_law();
    trace_law();
}
