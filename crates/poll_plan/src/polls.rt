//! Which places poll.

ghost use Rattle.std.specs.Prelude.{◌≡◌, ◌<◌, false, map};
ghost use Rattle.templates.specs.Code.{code_of};
ghost use Rattle.templates.specs.Plans.{closes_loop, closes_loop_at};
ghost use Rattle.templates.specs.WholePlan.{IsCheckPlan, IsPlanOf};
ghost use Rattle.poll_plan.specs.Polls.{with_polls};

use flow_graph::Graph;
use rv32_decode::Instr;
use rv32_program::aligned_target;
use templates::Plan;

/// Sets of each entry whether it polls: where a loop may close by the code of the graph. Nothing
/// else of the plan changes; the plan of that code's checks becomes the plan of that code without
/// batches.
pub fn plan_polls(graph: &Graph, plan: &mut Plan)
    ensures polls { plan.new ≡ map (with_polls (code_of graph.now)) plan.old }
    ensures plan { IsCheckPlan (code_of graph.now) plan.old
        → IsPlanOf false (code_of graph.now) plan.new }
{
    for k in 0..plan.len() {
        let mut entry = plan.get(k);
        entry.polls = closes_loop_at(graph, entry.address);
        plan.set(k, entry);
    }
}

/// Whether a code word stands at an address that may close a loop.
pub fn closes_loop_at(graph: &Graph, address: u32) -> bool
    ensures value { result ≡ closes_loop_at address (code_of graph.now address) }
{
    match graph.code().at(address) {
        Some(i) => closes_loop(&i, address),
        None => false,
    }
}

/// Whether an instruction at an address may close a loop: an indirect jump, or a direct one that
/// doesn't go forward.
fn closes_loop(i: &Instr, address: u32) -> bool
    ensures value { result ≡ closes_loop i.now address }
{
    match i {
        Instr::Jalr { .. } => true,
        _ => aligned_target(i, address).is_some_and(|target| target <= address),
    }
}
