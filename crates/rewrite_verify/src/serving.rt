//! Whether an entry serves its place.

ghost use Rattle.std.specs.Prelude.{◌≡◌, ◌↔◌, ◌⊎◌, IsTrue, IsSome, Some};
ghost use Rattle.templates.specs.Code.{code_of};
ghost use Rattle.templates.specs.Plans.{HasOneScratch, HasScratchesAt, HasSoMany, HasTwoScratches};
ghost use Rattle.templates.specs.Plans.{IsScratch, Serves, StartsNoRun, StartsRun};
ghost use Rattle.templates.specs.Plans.{closes_loop_at, may_poll, template_at};
ghost use Rattle.templates.specs.Runs.{HasRunScratches, IsRunScratch};

use rewriter::batch_plan::run_base;
use rewriter::check_plan::{NO_SCRATCH, NO_SCRATCHES, scratch_count};
use rewriter::liveness::{Live, used_registers};
use rewriter::poll_plan::closes_loop_at;
use rv32_decode::{Instr, Reg, defs};
use templates::{PlanEntry, Scratch, Scratches, Template, template_of};

/// Whether an entry serves its place, in the code that `live` was made from.
pub(crate) fn serves(live: &Live<'_>, entry: &PlanEntry) -> bool
    ensures value { IsTrue result ↔ Serves (code_of live.now) entry.now }
{
    entry.template == template_at(entry.address, live.graph().code().at(entry.address))
        && has_single(live, entry)
        && polls_well(live, entry)
        && runs_well(live, entry)
}

/// The template of the place at an address, by the code word there.
fn template_at(address: u32, i: Option<Instr>) -> Template
    ensures value { result ≡ template_at address i }
{
    match i {
        None => Template::Stop,
        Some(i) => template_of(&i, address),
    }
}

/// Whether an entry has the scratch registers that its template asks for.
fn has_single(live: &Live<'_>, entry: &PlanEntry) -> bool
    ensures value { IsTrue result ↔ HasScratchesAt entry.now.template (code_of live.now)
        entry.now.address (code_of live.now entry.now.address) entry.now.single }
{
    match live.graph().code().at(entry.address) {
        None => entry.single == NO_SCRATCHES,
        Some(i) => {
            let count = scratch_count(entry.template);
            has_so_many(live, entry.address, &i, count, &entry.single)
        }
    }
}

/// Whether these are `count` scratch registers of the instruction at an address; 2 stands for more.
fn has_so_many(live: &Live<'_>, address: u32, i: &Instr, count: u8, scratches: &Scratches) -> bool
    requires code_word { code_of live.now address ≡ Some i.now }
    ensures value { IsTrue result
        ↔ HasSoMany count (code_of live.now) address i.now scratches.now }
{
    match count {
        0 => *scratches == NO_SCRATCHES,
        1 => has_one(live, address, i, scratches),
        _ => has_two(live, address, i, scratches),
    }
}

/// Whether these are one scratch register of the instruction at an address.
fn has_one(live: &Live<'_>, address: u32, i: &Instr, scratches: &Scratches) -> bool
    requires code_word { code_of live.now address ≡ Some i.now }
    ensures value { IsTrue result
        ↔ HasOneScratch (code_of live.now) address i.now scratches.now }
{
    is_scratch(live, address, i, scratches.s)
        && scratches.t == NO_SCRATCH
        && scratches.u == NO_SCRATCH
}

/// Whether these are two scratch registers of the instruction at an address.
fn has_two(live: &Live<'_>, address: u32, i: &Instr, scratches: &Scratches) -> bool
    requires code_word { code_of live.now address ≡ Some i.now }
    ensures value { IsTrue result
        ↔ HasTwoScratches (code_of live.now) address i.now scratches.now }
{
    is_scratch(live, address, i, scratches.s)
        && is_scratch(live, address, i, scratches.t)
        && scratches.s.register != scratches.t.register
        && scratches.u == NO_SCRATCH
}

/// Whether this may be a scratch register of the instruction at an address.
fn is_scratch(live: &Live<'_>, address: u32, i: &Instr, scratch: Scratch) -> bool
    requires code_word { code_of live.now address ≡ Some i.now }
    ensures value { IsTrue result ↔ IsScratch (code_of live.now) address i.now scratch }
{
    scratch.register != Reg::ZERO
        && !used_registers(i).has(scratch.register)
        && !defs(*i).has(scratch.register)
        && (scratch.spilled || live.dead(address, scratch.register))
}

/// Whether an entry polls where its place may close a loop, and nowhere that its template can't.
fn polls_well(live: &Live<'_>, entry: &PlanEntry) -> bool
    ensures value { IsTrue result ↔ ((IsTrue entry.now.polls → IsTrue (may_poll entry.now.template))
        × (IsTrue (closes_loop_at entry.now.address (code_of live.now entry.now.address))
        → IsTrue entry.now.polls)) }
{
    if entry.polls {
        may_poll(entry.template)
    } else {
        !closes_loop_at(live.graph(), entry.address)
    }
}

/// Whether a sequence of this template may begin with a poll.
fn may_poll(template: Template) -> bool
    ensures value { result ≡ may_poll template }
{
    match template {
        Template::Branch | Template::Jump | Template::Indirect => true,
        _ => false,
    }
}

/// Whether an entry starts no run, or one of its code with scratch registers that it may take.
fn runs_well(live: &Live<'_>, entry: &PlanEntry) -> bool
    ensures value { IsTrue result
        ↔ (StartsNoRun entry.now ⊎ StartsRun (code_of live.now) entry.now) }
{
    if entry.run == 0 {
        return entry.batch == NO_SCRATCHES;
    }
    match run_base(live.graph().code(), entry.address, entry.run) {
        Some(base) => has_run_scratches(live, entry.address, base, &entry.batch),
        None => false,
    }
}

/// Whether these may be the scratch registers of a run by this base that starts at an address.
fn has_run_scratches(live: &Live<'_>, address: u32, base: Reg, scratches: &Scratches) -> bool
    requires code_word { IsSome (code_of live.now address) }
    ensures value { IsTrue result
        ↔ HasRunScratches (code_of live.now) address base scratches.now }
{
    is_run_scratch(live, address, base, scratches.s)
        && is_run_scratch(live, address, base, scratches.t)
        && is_run_scratch(live, address, base, scratches.u)
        && scratches.s.register != scratches.t.register
        && scratches.s.register != scratches.u.register
        && scratches.t.register != scratches.u.register
}

/// Whether this may be a scratch register of a run by this base that starts at an address.
fn is_run_scratch(live: &Live<'_>, address: u32, base: Reg, scratch: Scratch) -> bool
    requires code_word { IsSome (code_of live.now address) }
    ensures value { IsTrue result ↔ IsRunScratch (code_of live.now) address base scratch }
{
    scratch.register != Reg::ZERO
        && scratch.register != base
        && (scratch.spilled || live.dead_at(address, scratch.register))
}
