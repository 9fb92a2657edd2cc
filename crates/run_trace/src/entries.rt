//! The entries of a plan, by the addresses of their words.

ghost use Rattle.std.specs.Prelude.{◌≡◌, List, ◌∷◌, IfOk, OnOk, find, option_copied};
ghost use Rattle.rv32_program.specs.Program.{Program};
ghost use Rattle.templates.specs.Code.{HasCode};
ghost use Rattle.templates.specs.Commits as model;
ghost use Rattle.templates.specs.Commits.{is_word_by, is_word_of};
ghost use Rattle.templates.specs.declared.plans.PlanEntry.{PlanEntry as OfPlan};
ghost use Rattle.run_trace.specs.Entries.{AreEntriesOf};

use rv32_decode::Reg;
use std::alloc::{AllocError, Global};
use std::collections::BTreeMap;
use templates::{
    Code, CommitKind, Part, Place, Plan, PlanEntry, Scratch, Scratches, Template, commit_at,
};

/// The entries of a plan, by the addresses of their words. An entry is found in time in proportion
/// to the logarithm of their number.
#[derive(Drop)]
pub struct Entries {
    /// The first entry at each address.
    pub(crate) places: BTreeMap<u32, PlanEntry>,
    /// The first entry in whose run each multiple of four lies, by a quarter of it.
    pub(crate) runs: BTreeMap<u32, PlanEntry>,
    /// A plan of one entry.
    pub(crate) own: Plan,
}

/// No scratch register.
const NO_SCRATCH: Scratch = Scratch {
    register: Reg::ZERO,
    spilled: false,
};

/// No scratch registers.
const NO_SCRATCHES: Scratches = Scratches {
    s: NO_SCRATCH,
    t: NO_SCRATCH,
    u: NO_SCRATCH,
};

/// An entry that stands for any other.
const BLANK: PlanEntry = PlanEntry {
    address: 0,
    template: Template::Stop,
    polls: false,
    single: NO_SCRATCHES,
    run: 0,
    batch: NO_SCRATCHES,
};

impl Entries {
    /// Those of a plan.
    pub(crate) fn of(alloc: Global, plan: &Plan) -> Result<Entries, AllocError>
        ensures { IfOk result (λ e. AreEntriesOf plan.now e) }
    {
        let mut own = Plan::new(alloc);
        own.push(BLANK)?;
        let mut entries = Entries {
            places: BTreeMap::new(alloc),
            runs: BTreeMap::new(alloc),
            own,
        };
        let mut k = plan.len();
        while k > 0 {
            k -= 1;
            entries.put(&plan.get(k))?;
        }
        Ok(entries)
    }

    /// Puts an entry before all that are there.
    fn put(&mut self, entry: &PlanEntry) -> Result<(), AllocError>
        ensures { (plan : List OfPlan) → AreEntriesOf plan self.old
            → OnOk result (AreEntriesOf (entry.now ∷ plan) self.new) }
    {
        let first = entry.address.div_ceil(4);
        let behind = (first + u32::from(entry.run)).min(1 << 30);
        for quarter in first..behind {
            self.runs.insert(quarter, *entry)?;
        }
        self.places.insert(entry.address, *entry)?;
        Ok(())
    }

    /// When the word at a place commits, if there is one.
    pub(crate) fn commit_at(&mut self, plan: &Plan, code: &Code, place: Option<Place>) -> CommitKind
        requires entries { AreEntriesOf plan.now self.old }
        ensures kind { (program : Program) → HasCode program code.now
            → result ≡ model.commit_at program plan.now place }
        ensures entries { AreEntriesOf plan.now self.new }
    {
        let Some(place) = place else {
            return CommitKind::Never;
        };
        match self.entry(plan, place) {
            Some(entry) => {
                self.own.set(0, entry);
                commit_at(&self.own, code, place)
            }
            None => CommitKind::Never,
        }
    }

    /// The entry that a place's word belongs to.
    fn entry(&self, plan: &Plan, place: Place) -> Option<PlanEntry>
        requires entries { AreEntriesOf plan.now self.now }
        ensures { result ≡ find (is_word_of place) plan.now }
    {
        match place.part {
            Part::Fast if place.address % 4 == 0 => self.runs.get(&(place.address / 4)).copied(),
            Part::Fast => entry_by_run(plan.entries(), place.address).copied(),
            Part::Single | Part::Head | Part::Fallback => {
                self.places.get(&place.address).copied()
            }
        }
    }
}

/// The first entry in whose run an address lies.
fn entry_by_run(entries: &[PlanEntry], address: u32) -> Option<&PlanEntry>
    ensures { option_copied result ≡ find (is_word_by Part.Fast address) entries.now }
{
    entries.iter().find(|e| is_in_run(e, address))
}

/// Whether an address lies in an entry's run.
fn is_in_run(entry: &PlanEntry, address: u32) -> bool
    ensures { result ≡ is_word_by Part.Fast address entry.now }
{
    let behind = u64::from(entry.address) + 4 * u64::from(entry.run);
    entry.address <= address && u64::from(address) < behind
}
