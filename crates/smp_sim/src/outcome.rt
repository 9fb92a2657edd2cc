//! What a core gives once it is over.

ghost use Rattle.std.specs.Prelude.{◌≡◌, List, Some, map, IfOk};
ghost use Rattle.std.specs.List.{range_with_len};
ghost use Rattle.lane_model.specs.node_model.Node.{end_of};
ghost use Rattle.lane_model.specs.Nodes.{processors, node_of, lane_of};
ghost use Rattle.lane_model.specs.Core.{LaneEvent};
ghost use Rattle.lane_model.specs.Outcome.{IsLaneOutcomeOf};
ghost use Rattle.lane_law.specs.Law.{AreAllOver};
ghost use Rattle.dsm_core.specs.CoreParts.{outcome_of};
ghost use Rattle.smp_sim.specs.CoreParts.{IsRunTo, core_of, work_of};

use crate::cores::SmpCore;
use dsm_core::Outcome;
use exec_map::End;
use lane_machine::NodeCounts;
use std::alloc::{AllocError, Global};

impl<'a> SmpCore<'a> {
    /// The outcome of the run that led to the core, once every node is over: the bytes printed, in
    /// the order of the events, how each processor ended, and what each node counted.
    pub fn outcome(&self, alloc: Global) -> Result<Outcome, AllocError>
        requires over { AreAllOver (work_of self.now) (core_of self.now) }
        ensures outcome { IfOk result (λ o. (run : List LaneEvent) → IsRunTo run self.now
            → IsLaneOutcomeOf (work_of self.now) run (outcome_of o)) }
    {
        let output = self.output.to_vec(alloc)?;
        let ends = self.ends(alloc)?;
        let counts = self.counts(alloc)?;
        Ok(Outcome {
            output,
            ends,
            counts,
        })
    }

    /// How the processors ended, by processor.
    fn ends(&self, alloc: Global) -> Result<Vec<End>, AllocError>
        requires over { AreAllOver (work_of self.now) (core_of self.now) }
        ensures { IfOk result (λ v. map (λ e. Some e) v.items ≡ map (λ p. end_of
            (((core_of self.now).nodes (node_of (work_of self.now) p)).lanes
            (lane_of (work_of self.now) p)).phase)
            (range_with_len 0 (processors (work_of self.now)))) }
    {
        let lanes = self.lanes();
        let count = self.node_count() * lanes;
        let mut ends = Vec::with_capacity(alloc, count as usize)?;
        for processor in 0..count {
            let node = self.node(processor / lanes);
            if let Some(end) = node.end(processor % lanes) {
                ends.push_reserved(end);
            }
        }
        Ok(ends)
    }

    /// What each node counted.
    fn counts(&self, alloc: Global) -> Result<Vec<NodeCounts>, AllocError>
        ensures { IfOk result (λ v. v.items
            ≡ map (λ i. ((core_of self.now).nodes i).shared.counts)
            (range_with_len 0 self.now.layout.nodes)) }
    {
        let count = self.node_count();
        let mut counts = Vec::with_capacity(alloc, count as usize)?;
        for node in 0..count {
            counts.push_reserved(self.node(node).counts());
        }
        Ok(counts)
    }
}
