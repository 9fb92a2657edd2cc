//! The plan of a program's checks.

ghost use Rattle.std.specs.Prelude.{◌≡◌, ◌*◌, ◌^◌, ◌≤◌, length, false, IfOk, Contains};
ghost use Rattle.templates.specs.declared.plans.PlanEntry.{PlanEntry as Entry};
ghost use Rattle.templates.specs.Code.{code_of};
ghost use Rattle.templates.specs.Plans.{addresses, scratch_count, StartsNoRun};
ghost use Rattle.templates.specs.WholePlan.{IsCheckPlan, IsEntry, candidates};
ghost use Rattle.check_plan.specs.Members.{members};

use crate::scratches::{NO_SCRATCHES, choose};
use liveness::Live;
use rv32_decode::{Instr, RegSet, defs, uses};
use std::alloc::{AllocError, Global};
use templates::{Plan, PlanEntry, Scratches, Template, list_places, template_of};

/// The plan of the checks of the code that `live` was made from: the template and the scratch
/// registers of each place. No place polls as yet.
pub fn plan_checks(alloc: Global, live: &Live<'_>) -> Result<Plan, AllocError>
    ensures value { IfOk result (λ plan. IsCheckPlan (code_of live.now) plan) }
{
    let places = list_places(alloc, live.graph().code())?;
    let plan = plan_of_places(alloc, live, &places)?;
    Ok(plan)
}

/// The entries of these places.
fn plan_of_places(alloc: Global, live: &Live<'_>, places: &[u32]) -> Result<Plan, AllocError>
    requires few { length places.now ≤ 3 * 2 ^ 30 }
    ensures places { IfOk result (λ plan. addresses plan ≡ places.now) }
    ensures each { IfOk result (λ plan. (e : Entry) → Contains plan e
        → IsEntry (code_of live.now) false e) }
    ensures runs { IfOk result (λ plan. (e : Entry) → Contains plan e → StartsNoRun e) }
{
    let mut plan = Plan::new(alloc);
    for address in places {
        plan.push(check_entry(live, *address))?;
    }
    Ok(plan)
}

/// The entry of a place.
fn check_entry(live: &Live<'_>, address: u32) -> PlanEntry
    ensures address { result.address ≡ address }
    ensures entry { IsEntry (code_of live.now) false result }
    ensures run { StartsNoRun result }
{
    match live.graph().code().at(address) {
        None => entry(address, Template::Stop, NO_SCRATCHES),
        Some(i) => {
            let template = template_of(&i, address);
            let dead = live.all_dead(address);
            let single = choose(candidates(&i), dead, scratch_count(template));
            entry(address, template, single)
        }
    }
}

/// An entry of a template with these scratch registers, that doesn't poll and begins no run.
fn entry(address: u32, template: Template, single: Scratches) -> PlanEntry
    ensures address { result.address ≡ address }
    ensures template { result.template ≡ template }
    ensures single { result.single ≡ single }
    ensures polls { result.polls ≡ false }
    ensures run { StartsNoRun result }
{
    PlanEntry {
        address,
        template,
        polls: false,
        single,
        run: 0,
        batch: NO_SCRATCHES,
    }
}

/// The registers that may be scratch registers of an instruction: those other than its own.
fn candidates(i: &Instr) -> RegSet
    ensures value { members result ≡ candidates i.now }
{
    let own = uses(*i).union(defs(*i));
    RegSet::all().difference(own)
}

/// How many scratch registers the single sequence of a template takes.
pub fn scratch_count(template: Template) -> u8
    ensures value { result ≡ scratch_count template }
{
    match template {
        Template::FlagLoad => 1,
        Template::StateLoad | Template::Store => 2,
        _ => 0,
    }
}
