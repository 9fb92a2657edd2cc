//! The plan that a file says.

ghost use Rattle.std.specs.Prelude.{◌≡◌, ◌≢◌, ◌*◌, ◌≤◌, ◌^◌, ℕ, List, IfOk, IfErr, IfSome, IfNone};
ghost use Rattle.std.specs.Prelude.{MatchOption, length};
ghost use Rattle.std.specs.List.Sorted.{IsStrictlyIncreasing};
ghost use Rattle.templates.specs.Code.{code_of};
ghost use Rattle.rewriter.specs.batch_plan.Batches.{behind};
ghost use Rattle.rewriter.specs.RewrittenFile.{plan_section};
ghost use Rattle.rewrite_verify.specs.Sections.{HasOnly};
ghost use Rattle.rewrite_verify.specs.FilePlan.{IsGoodFront};
ghost use Rattle.rewrite_verify.specs.Reading.{HasNoEntry, IsGoodPlan, IsNextEntry};
ghost use Rattle.rewrite_verify.specs.Reading.{IsPlaceRefusal, IsPlanRefusal};

use crate::entries::read_entry;
use crate::refused::VerifyRefused;
use crate::sections::only_named;
use crate::serving::serves;
use elf32_read::Elf;
use rewriter::liveness::Live;
use rewriter::plan_section;
use std::alloc::Global;
use templates::{Plan, PlanEntry, list_places};

/// The plan that a file says. Each entry serves its place in the code that `live` was made from,
/// and no two runs share an address.
pub(crate) fn plan_of_file(
    alloc: Global,
    live: &Live<'_>,
    elf: &Elf<'_>,
) -> Result<Plan, VerifyRefused>
    ensures ok { IfOk result (IsGoodPlan (code_of live.now) elf.now) }
    ensures refused { IfErr result (IsPlanRefusal (code_of live.now) elf.now) }
{
    let places = list_places(alloc, live.graph().code())?;
    match bytes_of_plan(elf, places.len()) {
        Some(bytes) => read_plan(alloc, live, &places, bytes),
        None => Err(VerifyRefused::NoPlan),
    }
}

/// The bytes of the one section of a plan, eight for each of `places` places; None exactly where no
/// section is one, or more are, or it has another number of bytes.
fn bytes_of_plan<'a>(elf: &Elf<'a>, places: usize) -> Option<&'a [u8]>
    requires few { places ≤ 3 * 2 ^ 30 }
    ensures value { MatchOption result
        ((bytes : List ℕ) → HasOnly elf.now.sections (plan_section bytes)
        → length bytes ≢ 8 * places)
        (λ b. HasOnly elf.now.sections (plan_section b.now) × (length b.now ≡ 8 * places)) }
{
    let bytes = only_named(elf.sections(), &plan_section(&[]))?;
    if bytes.len() == 8 * places {
        Some(bytes)
    } else {
        None
    }
}

/// The plan that these bytes say of these places, eight of each, as long as each entry serves its
/// place, and no two runs share an address.
fn read_plan(
    alloc: Global,
    live: &Live<'_>,
    places: &[u32],
    bytes: &[u8],
) -> Result<Plan, VerifyRefused>
    requires ascends { IsStrictlyIncreasing places.now }
    requires few { length places.now ≤ 3 * 2 ^ 30 }
    requires long { length bytes.now ≡ 8 * length places.now }
    ensures good { IfOk result (IsGoodFront (code_of live.now) places.now bytes.now) }
    ensures all { IfOk result (λ plan. length plan ≡ length places.now) }
    ensures refused { IfErr result (IsPlaceRefusal (code_of live.now) places.now bytes.now) }
{
    let mut plan = Plan::new(alloc);
    let mut free = 0;
    for k in 0..places.len() {
        let address = places[k];
        let here = &bytes[8 * k..8 * k + 8];
        let entry = match next_entry(live, address, here, free) {
            Some(entry) => entry,
            None => return Err(VerifyRefused::BadPlan(address)),
        };
        plan.push(entry)?;
        free = behind(&entry, free);
    }
    Ok(plan)
}

/// The entry that eight bytes say of the place at an address, which serves that place and starts no
/// run below where one may start; None exactly where they say none.
fn next_entry(live: &Live<'_>, address: u32, bytes: &[u8], free: u64) -> Option<PlanEntry>
    requires eight { length bytes.now ≡ 8 }
    ensures some { IfSome result (IsNextEntry (code_of live.now) free address bytes.now) }
    ensures none { IfNone result (HasNoEntry (code_of live.now) free address bytes.now) }
{
    let entry = read_entry(address, bytes)?;
    if serves(live, &entry) && (entry.run == 0 || free <= u64::from(address)) {
        Some(entry)
    } else {
        None
    }
}

/// Where a run may start after an entry, where it might from this address on before it.
fn behind(entry: &PlanEntry, free: u64) -> u64
    ensures value { result ≡ behind entry.now free }
{
    if entry.run == 0 {
        free
    } else {
        u64::from(entry.address) + 4 * u64::from(entry.run)
    }
}
