//! The runs of a plan.

ghost use Rattle.std.specs.Prelude.{◌≡◌, ◌+◌, ◌*◌, ◌^◌, ◌<◌, true, false, map, IsSome};
ghost use Rattle.templates.specs.Code.{code_of};
ghost use Rattle.templates.specs.WholePlan.{IsPlanOf, IsRunChoice};
ghost use Rattle.batch_plan.specs.Batches.{without_run, behind, HasRunFrom};

use crate::runs::longest_run;
use check_plan::liveness::Live;
use check_plan::{NO_SCRATCHES, choose};
use rv32_decode::{Reg, RegSet};
use templates::{Plan, PlanEntry, Scratches};

/// Sets the runs of a plan: in ascending order, the longest from each place on that lies in no
/// earlier one. Nothing else of the plan changes; the plan without batches of the code that `live`
/// was made from becomes the one with batches.
pub fn plan_batches(live: &Live<'_>, plan: &mut Plan)
    ensures kept { map without_run plan.new ≡ map without_run plan.old }
    ensures plan { IsPlanOf false (code_of live.now) plan.old
        → IsPlanOf true (code_of live.now) plan.new }
{
    let mut free = 0;
    for k in 0..plan.len() {
        let entry = with_run(live, plan.get(k), free);
        plan.set(k, entry);
        free = behind(&entry, free);
    }
}

/// The entry with the longest run from its place on, unless that lies below where a run may start.
fn with_run(live: &Live<'_>, entry: PlanEntry, free: u32) -> PlanEntry
    ensures kept { without_run result ≡ without_run entry }
    ensures run { HasRunFrom (code_of live.now) free result }
    ensures low { result.address + 4 * result.run < 2 ^ 32 }
{
    let mut entry = entry;
    entry.run = 0;
    entry.batch = NO_SCRATCHES;
    if entry.address < free {
        return entry;
    }
    let run = longest_run(live.graph().code(), entry.address);
    if run.words == 0 {
        return entry;
    }
    entry.run = run.words;
    entry.batch = run_scratches(live, entry.address, run.base);
    entry
}

/// Where a run may start after this entry.
fn behind(entry: &PlanEntry, free: u32) -> u32
    requires low { entry.now.address + 4 * entry.now.run < 2 ^ 32 }
    ensures value { result ≡ behind entry.now free }
{
    if entry.run == 0 {
        free
    } else {
        entry.address + 4 * u32::from(entry.run)
    }
}

/// The scratch registers of a run by this base that starts at an address.
fn run_scratches(live: &Live<'_>, address: u32, base: Reg) -> Scratches
    requires code_word { IsSome (code_of live.now address) }
    ensures value { IsRunChoice (code_of live.now) address base result }
{
    let others = RegSet::all().difference(RegSet::empty().with(base));
    let dead = live.all_dead_at(address);
    choose(others, dead, 3)
}
