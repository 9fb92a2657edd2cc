//! A core of nodes of several processors whose events follow an order.

ghost use Rattle.std.specs.Prelude.{◌≡◌, ◌≤◌, ◌*◌, ◌++◌, List, [], ◌∷◌, true, map, length};
ghost use Rattle.std.specs.Prelude.{IfOk, OnOk};
ghost use Rattle.std.specs.Vec.{vec_capacity};
ghost use Rattle.templates.specs.declared.plans.PlanEntry.{PlanEntry};
ghost use Rattle.dsm_core.specs.rewriting_law.Bounds.{RunsRewritten};
ghost use Rattle.dsm_core.specs.CoreParts.{work_in, outcome_of};
ghost use Rattle.lane_model.specs.Core.{Exec, LaneEvent, May};
ghost use Rattle.lane_law.specs.Law.{Interleaves, RunsOnLanes};
ghost use Rattle.smp_sim.specs.CoreParts.{IsRunTo, core_of, event_of, work_of, work_with};
ghost use Rattle.smp_sim.specs.ByOrder.{IsLaneOutcomeByOrder, IsLaneRunByOrder};
ghost use Rattle.smp_sim.specs.ByOrder.{choices};
ghost use Rattle.smp_sim.specs.Turns.{LeadsOn};

use crate::cores::{SmpCore, SmpEvent};
use crate::listing::{MOST_EVENTS, list_events};
use dsm_core::{Outcome, Work};
use lane_law::lane_law;
use lane_machine::Standing;
use random_order::{Order, order_of};
use std::alloc::{AllocError, Global};

/// Runs the nodes of a layout, each of `lanes` processors, to their ends, on one thread: at each
/// turn the order of a number picks one of the events that are allowed, which are listed with the
/// words of all processors first, and then the takes of each node by sender.
pub fn smp_simulate(
    alloc: Global,
    work: &Work<'_>,
    lanes: u8,
    order: u32,
) -> Result<Outcome, AllocError>
    requires rewritten { RunsRewritten (work_in work.now) }
    requires some { 1 ≤ lanes }
    requires four { lanes ≤ 4 }
    requires few { (work_in work.now).layout.nodes * lanes ≤ 16 }
    ensures outcome { IfOk result (λ o. IsLaneOutcomeByOrder (work_with (work_in work.now) lanes)
        order (outcome_of o)) }
    // The run that the order makes is, by its picks, an interleaved run of as many original
    // processors on one memory.
    ensures interleaves { (plan : List PlanEntry) (events : List LaneEvent)
        → RunsOnLanes (work_with (work_in work.now) lanes) plan
        → IsLaneRunByOrder (work_with (work_in work.now) lanes) order events
        → Interleaves (work_with (work_in work.now) lanes) plan events }
{
    lane_law();
    let mut core = SmpCore::new(alloc, work, lanes)?;
    let mut order = order_of(order);
    let mut events = Vec::with_capacity(alloc, MOST_EVENTS)?;
    list_events(&core, &mut events);
    for _turn in 0..u64::MAX {
        if events.is_empty() {
            core.promises();
            return core.outcome(alloc);
        }
        turns(&mut core, &mut events, &mut order)?;
    }
    core.promises();
    unreachable!()
}

/// Makes the events that the order picks next, one at least, and lists those that are allowed then.
fn turns(
    core: &mut SmpCore<'_>,
    events: &mut Vec<SmpEvent>,
    order: &mut Order,
) -> Result<(), AllocError>
    requires some { 1 ≤ length events.old.items }
    requires few { length events.old.items ≤ 65536 }
    requires listed { map event_of events.old.items
        ≡ choices (work_of core.old) (core_of core.old) }
    requires room { 272 ≤ vec_capacity events.old }
    ensures leads { OnOk result (LeadsOn 1 order.old core.old order.new core.new) }
    ensures listed { OnOk result (map event_of events.new.items
        ≡ choices (work_of core.new) (core_of core.new)) }
    ensures work { work_of core.new ≡ work_of core.old }
    ensures room { vec_capacity events.new ≡ vec_capacity events.old }
{
    match core.run_silent(events, order) {
        Some(event) => make(core, events, event),
        None => Ok(()),
    }
}

/// Makes an event that is allowed, and lists those that are allowed then.
fn make(
    core: &mut SmpCore<'_>,
    events: &mut Vec<SmpEvent>,
    event: SmpEvent,
) -> Result<(), AllocError>
    requires enabled { May (work_of core.old) (core_of core.old) (event_of event) }
    requires listed { map event_of events.old.items
        ≡ choices (work_of core.old) (core_of core.old) }
    requires room { 272 ≤ vec_capacity events.old }
    ensures run { OnOk result ((run : List LaneEvent) → IsRunTo run core.old
        → IsRunTo (run ++ event_of event ∷ []) core.new) }
    ensures listed { OnOk result (map event_of events.new.items
        ≡ choices (work_of core.new) (core_of core.new)) }
    ensures work { work_of core.new ≡ work_of core.old }
    ensures room { vec_capacity events.new ≡ vec_capacity events.old }
{
    match event {
        SmpEvent::Exec(processor) => exec(core, events, processor),
        SmpEvent::Take { .. } => step(core, events, event),
    }
}

/// A processor that may execute a word does so.
fn exec(core: &mut SmpCore<'_>, events: &mut Vec<SmpEvent>, processor: u8) -> Result<(), AllocError>
    requires enabled { May (work_of core.old) (core_of core.old) (Exec processor) }
    requires listed { map event_of events.old.items
        ≡ choices (work_of core.old) (core_of core.old) }
    requires room { 272 ≤ vec_capacity events.old }
    ensures run { OnOk result ((run : List LaneEvent) → IsRunTo run core.old
        → IsRunTo (run ++ Exec processor ∷ []) core.new) }
    ensures listed { OnOk result (map event_of events.new.items
        ≡ choices (work_of core.new) (core_of core.new)) }
    ensures work { work_of core.new ≡ work_of core.old }
    ensures room { vec_capacity events.new ≡ vec_capacity events.old }
{
    if core.has_mail(processor) {
        return exec_by_mail(core, events, processor);
    }
    step(core, events, SmpEvent::Exec(processor))
}

/// The same while messages may be on their way to the processor's node. A word that its micro-op
/// serves leaves the list as it was, where the processor stands as before.
fn exec_by_mail(
    core: &mut SmpCore<'_>,
    events: &mut Vec<SmpEvent>,
    processor: u8,
) -> Result<(), AllocError>
    requires enabled { May (work_of core.old) (core_of core.old) (Exec processor) }
    requires listed { map event_of events.old.items
        ≡ choices (work_of core.old) (core_of core.old) }
    requires room { 272 ≤ vec_capacity events.old }
    ensures run { OnOk result ((run : List LaneEvent) → IsRunTo run core.old
        → IsRunTo (run ++ Exec processor ∷ []) core.new) }
    ensures listed { OnOk result (map event_of events.new.items
        ≡ choices (work_of core.new) (core_of core.new)) }
    ensures work { work_of core.new ≡ work_of core.old }
    ensures room { vec_capacity events.new ≡ vec_capacity events.old }
{
    let before = core.standing(processor);
    if !core.exec_silent(processor) {
        return step(core, events, SmpEvent::Exec(processor));
    }
    if is_same(core.standing(processor), before) {
        return Ok(());
    }
    list_events(core, events);
    Ok(())
}

/// Whether a processor may do what it might do before.
fn is_same(standing: Standing, before: Standing) -> bool
    ensures { result ≡ true → standing ≡ before }
{
    standing == before
}

/// Makes an event that is allowed, and lists all those that are allowed then.
fn step(
    core: &mut SmpCore<'_>,
    events: &mut Vec<SmpEvent>,
    event: SmpEvent,
) -> Result<(), AllocError>
    requires enabled { May (work_of core.old) (core_of core.old) (event_of event) }
    requires room { 272 ≤ vec_capacity events.old }
    ensures run { OnOk result ((run : List LaneEvent) → IsRunTo run core.old
        → IsRunTo (run ++ event_of event ∷ []) core.new) }
    ensures listed { OnOk result (map event_of events.new.items
        ≡ choices (work_of core.new) (core_of core.new)) }
    ensures work { work_of core.new ≡ work_of core.old }
    ensures room { vec_capacity events.new ≡ vec_capacity events.old }
{
    core.step(event)?;
    list_events(core, events);
    Ok(())
}
