//! What each node counts in all.

use crate::costs::counted;
use event_text::node_machine::{NO_COUNTS, NodeCounts};
use event_text::run_trace::Traced;
use std::alloc::{AllocError, Global};

/// What each node counts.
#[derive(Drop)]
pub(crate) struct Totals {
    pub nodes: Vec<NodeCounts>,
}

impl Totals {
    ghost use Rattle.std.specs.Prelude.{ℕ, IfOk, OnOk};
    ghost use Rattle.node_model.specs.declared.NodeCounts.{NodeCounts as OfNode};
    ghost use Rattle.node_model.specs.Node.{no_counts};
    ghost use Rattle.event_text.specs.run_trace.Given.{traced_of};
    ghost use Rattle.block_view.specs.Kept.{AreTotals, total_by};

    /// The totals of `nodes` nodes that have counted nothing.
    pub(crate) fn new(alloc: Global, nodes: u8) -> Result<Totals, AllocError>
        ensures { IfOk result (λ s. AreTotals nodes s.nodes.items (λ i. no_counts)) }
    {
        let mut counts = Vec::new(alloc);
        for _ in 0..nodes {
            counts.push(NO_COUNTS)?;
        }
        Ok(Totals { nodes: counts })
    }

    /// An event was made. Fails also where a count has no room.
    pub(crate) fn add(&mut self, event: &Traced) -> Result<(), AllocError>
        ensures { OnOk result ((n : ℕ) (counts : ℕ → OfNode)
            → AreTotals n self.old.nodes.items counts
            → AreTotals n self.new.nodes.items (total_by counts (traced_of event.now))) }
    {
        let index = event.node as usize;
        if index >= self.nodes.len() {
            return Ok(());
        }
        let Some(counts) = counted(self.nodes[index], &event.what) else {
            return Err(AllocError);
        };
        self.nodes[index] = counts;
        Ok(())
    }
}
