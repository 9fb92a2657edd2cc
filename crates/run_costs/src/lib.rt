#![tactic(auto)]
//! What checks cost in a recorded run: the words that its nodes execute by what they are there for,
//! function by function.

ghost use Rattle.std.specs.Prelude.{◌≡◌, ◌⊎◌, ℕ, IfOk, IsErrOf};
ghost use Rattle.run_trace.specs.node_model.jump_map.Image.{IsRewriting};
ghost use Rattle.run_trace.specs.node_model.jump_map.templates.Code.{HasCode};
ghost use Rattle.run_trace.specs.replay.Refusals.{IsFirstBroken, IsUnfinished};
ghost use Rattle.run_trace.specs.replay.declared.refused.ReplayRule.{ReplayRule as Rules};
ghost use Rattle.run_trace.specs.replay.declared.refused.ReplayRefused.TheVariants.{Broken};
ghost use Rattle.run_trace.specs.replay.dsm_core.CoreParts.{work_in};
ghost use Rattle.run_trace.specs.replay.rewriting_law.Bounds.{RunsRewritten};
ghost use Rattle.run_trace.specs.replay.run_record.Record.{IsRecord};
ghost use Rattle.run_costs.specs.Costs.{AreCostsOf};

mod counting;
mod nodes;

use check_costs::elf_symbols::Symbols;
use check_costs::{WordCounts, tally_law};
use counting::Counting;
use run_trace::node_machine::NodeCounts;
use run_trace::replay::ReplayRefused;
use run_trace::replay::dsm_core::Work;
use run_trace::replay::node_model::jump_map::templates::{Code, Plan};
use run_trace::replay::run_record::Record;
use std::alloc::Global;

/// What a run counts.
#[derive(Drop)]
pub struct RunCosts {
    /// Of each function that an executable names, in the order of its table, and last of code in
    /// none: the steps of the original, and the words executed by what they are there for.
    pub counts: Vec<WordCounts>,
    /// The counts, by node.
    pub nodes: Vec<NodeCounts>,
}

/// What the run counts that a record tells of, of rewritten code that the plan says.
///
/// Fails with the first event that can't be made as it is told of, as `replay` does; and where a
/// count has no room.
pub fn costs_of_record(
    alloc: Global,
    work: &Work<'_>,
    plan: &Plan,
    code: &Code,
    rec: &Record,
    symbols: &Symbols<'_>,
) -> Result<RunCosts, ReplayRefused>
    requires rewritten { RunsRewritten (work_in work.now) }
    requires plan { IsRewriting (work_in work.now).program plan.now (work_in work.now).image }
    requires code { HasCode (work_in work.now).program code.now }
    requires record { IsRecord rec.now }
    requires nodes { (work_in work.now).layout.nodes ≡ rec.now.nodes }
    ensures costs { IfOk result (λ c. AreCostsOf symbols.now (work_in work.now) plan.now rec.now
        c.counts.items c.nodes.items) }
    ensures refused { (rule : Rules) (node entry : ℕ) → IsErrOf result (Broken rule node entry)
        → IsFirstBroken (work_in work.now) rec.now rule node entry
        ⊎ IsUnfinished (work_in work.now) rec.now rule node entry }
{
    tally_law();
    let mut counting = Counting::new(alloc, work, plan, code, rec, symbols)?;
    loop {
        counting.count_silent()?;
        if !counting.next()? {
            return Ok(counting.costs(alloc)?);
        }
    }
}
