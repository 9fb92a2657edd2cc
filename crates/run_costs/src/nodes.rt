//! What the nodes of a run count.

ghost use Rattle.std.specs.Prelude.{◌≡◌, map, IfOk};
ghost use Rattle.std.specs.List.{range_with_len};
ghost use Rattle.run_trace.specs.replay.dsm_core.CoreParts.{core_of};

use run_trace::node_machine::NodeCounts;
use run_trace::replay::dsm_core::Core;
use std::alloc::{AllocError, Global};

/// What each node of a core has counted.
pub(crate) fn nodes_of(alloc: Global, core: &Core<'_>) -> Result<Vec<NodeCounts>, AllocError>
    ensures { IfOk result (λ v. v.items ≡ map (λ i. ((core_of core.now).nodes i).counts)
        (range_with_len 0 core.now.layout.nodes)) }
{
    let mut counts = Vec::new(alloc);
    for node in 0..core.layout().nodes() {
        counts.push(core.node(node).counts())?;
    }
    Ok(counts)
}
