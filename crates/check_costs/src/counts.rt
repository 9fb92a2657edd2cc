//! What rewritten code counts, function by function.

ghost use Rattle.std.specs.Prelude.{◌≡◌, ◌<◌, ◌+◌, ◌++◌, ◌∷◌, [], length, set, slice_index_or};
ghost use Rattle.std.specs.Prelude.{All, List, replicate, IfOk, OnOk};
ghost use Rattle.templates.specs.rv32_program.Program.{Program};
ghost use Rattle.templates.specs.Code.{HasCode, code_of};
ghost use Rattle.templates.specs.Plans.{AscendsFrom};
ghost use Rattle.jump_map.specs.Image.{Cell, HasRunsOf, IsRewriting};
ghost use Rattle.check_costs.specs.declared.kinds.WordKind.TheVariants as of_kind;
ghost use Rattle.check_costs.specs.Counts.{AreSums, by_kind, counts_by, counts_of, plus};

use crate::entries::push_kinds;
use crate::functions::Functions;
use crate::kinds::{WordKind, times, times_alike};
use elf_symbols::Symbols;
use std::alloc::{AllocError, Global};
use templates::{Code, Plan};

/// What code counts: its instructions, and its rewritten words by what they are there for.
#[derive(Clone, Copy, PartialEq, Eq)]
pub struct WordCounts {
    /// The instructions of the original.
    pub instructions: usize,
    /// The rewritten words. Each is of one of the kinds below.
    pub words: usize,
    pub own: usize,
    pub flag_checks: usize,
    pub state_checks: usize,
    pub store_checks: usize,
    pub batches: usize,
    pub polls: usize,
    pub jumps: usize,
    pub spills: usize,
}

impl WordCounts {
    ghost use Rattle.std.specs.Prelude.{◌≡◌, ◌∷◌, [], if◌then◌else◌, replicate, IfSome, OnOk};
    ghost use Rattle.check_costs.specs.Counts.{counts_by, plus};

    /// The counts of `instructions` instructions, and of words of these kinds.
    pub(crate) fn of(instructions: usize, kinds: &[WordKind]) -> WordCounts
        ensures { result ≡ counts_by instructions kinds.now }
    {
        WordCounts {
            instructions,
            words: kinds.len(),
            own: times(WordKind::Own, kinds),
            flag_checks: times(WordKind::FlagCheck, kinds),
            state_checks: times(WordKind::StateCheck, kinds),
            store_checks: times(WordKind::StoreCheck, kinds),
            batches: times(WordKind::Batch, kinds),
            polls: times(WordKind::Poll, kinds),
            jumps: times(WordKind::Jump, kinds),
            spills: times(WordKind::Spill, kinds),
        }
    }

    /// The counts of `words` words of a kind. Each commits a step, or none does.
    pub(crate) fn alike(kind: WordKind, words: usize, commits: bool) -> WordCounts
        ensures { result
            ≡ counts_by (if commits then words else 0) (replicate words kind) }
    {
        WordCounts {
            instructions: if commits { words } else { 0 },
            words,
            own: times_alike(WordKind::Own, kind, words),
            flag_checks: times_alike(WordKind::FlagCheck, kind, words),
            state_checks: times_alike(WordKind::StateCheck, kind, words),
            store_checks: times_alike(WordKind::StoreCheck, kind, words),
            batches: times_alike(WordKind::Batch, kind, words),
            polls: times_alike(WordKind::Poll, kind, words),
            jumps: times_alike(WordKind::Jump, kind, words),
            spills: times_alike(WordKind::Spill, kind, words),
        }
    }

    /// This cost and another, if there is room.
    pub(crate) fn plus(&self, other: &WordCounts) -> Option<WordCounts>
        ensures { IfSome result (λ c. c ≡ plus self.now other.now) }
    {
        Some(WordCounts {
            instructions: self.instructions.checked_add(other.instructions)?,
            words: self.words.checked_add(other.words)?,
            own: self.own.checked_add(other.own)?,
            flag_checks: self.flag_checks.checked_add(other.flag_checks)?,
            state_checks: self.state_checks.checked_add(other.state_checks)?,
            store_checks: self.store_checks.checked_add(other.store_checks)?,
            batches: self.batches.checked_add(other.batches)?,
            polls: self.polls.checked_add(other.polls)?,
            jumps: self.jumps.checked_add(other.jumps)?,
            spills: self.spills.checked_add(other.spills)?,
        })
    }

    /// Adds another cost to this one. Fails where a count has no room.
    pub(crate) fn increase(&mut self, more: &WordCounts) -> Result<(), AllocError>
        ensures { OnOk result (self.new ≡ plus self.old more.now) }
    {
        match self.plus(more) {
            Some(sum) => {
                *self = sum;
                Ok(())
            }
            None => Err(AllocError),
        }
    }

    /// Counts a word of a kind more, which perhaps commits a step. Fails where a count has no room.
    pub(crate) fn count_word(&mut self, kind: WordKind, commits: bool) -> Result<(), AllocError>
        ensures { OnOk result (self.new
            ≡ plus self.old (counts_by (if commits then 1 else 0) (kind ∷ []))) }
    {
        add_to(&mut self.instructions, usize::from(commits))?;
        add_to(&mut self.words, 1)?;
        match kind {
            WordKind::Own => add_to(&mut self.own, 1),
            WordKind::FlagCheck => add_to(&mut self.flag_checks, 1),
            WordKind::StateCheck => add_to(&mut self.state_checks, 1),
            WordKind::StoreCheck => add_to(&mut self.store_checks, 1),
            WordKind::Batch => add_to(&mut self.batches, 1),
            WordKind::Poll => add_to(&mut self.polls, 1),
            WordKind::Jump => add_to(&mut self.jumps, 1),
            WordKind::Spill => add_to(&mut self.spills, 1),
        }
    }
}

/// Adds to a count, if there is room.
fn add_to(count: &mut usize, more: usize) -> Result<(), AllocError>
    ensures { OnOk result (count.new ≡ count.old + more) }
{
    match count.checked_add(more) {
        Some(sum) => {
            *count = sum;
            Ok(())
        }
        None => Err(AllocError),
    }
}

/// What the rewritten code of a plan counts: for each function that an executable names, in the
/// order of its table, and last for code in none. Fails also where a count has no room.
pub fn counts_of(
    alloc: Global,
    symbols: &Symbols<'_>,
    code: &Code,
    plan: &Plan,
) -> Result<Vec<WordCounts>, AllocError>
    requires ascends { AscendsFrom 0 plan.now }
    requires runs { HasRunsOf code.now plan.now }
    ensures value { IfOk result (λ counts.
        counts.items ≡ counts_of symbols.now (code_of code.now) plan.now) }
    ensures kinds { IfOk result (λ counts. All (λ c. by_kind c ≡ c.words) counts.items) }

    // In all they count each word of the plan's rewritten code, and each code word of the original.
    ensures sums { (program : Program) (image : List Cell) → HasCode program code.now
        → IsRewriting program plan.now image
        → IfOk result (λ counts. AreSums code.now image counts.items) }
{
    // brings: the code words ascend
    let _ = code.words();
    let mut functions = Functions::new(alloc, symbols)?;
    let mut counts = first_counts(alloc, symbols.functions().len())?;
    let mut kinds = Vec::new(alloc);
    for entry in plan.entries() {
        kinds.clear();
        push_kinds(entry, code, &mut kinds)?;
        let instructions = usize::from(code.at(entry.address).is_some());
        let function = functions.at(entry.address)?;
        add(&mut counts, function, &WordCounts::of(instructions, &kinds))?;
    }
    Ok(counts)
}

/// The counts of functions before any entry is seen: word 0 is in none of them.
fn first_counts(alloc: Global, functions: usize) -> Result<Vec<WordCounts>, AllocError>
    ensures { IfOk result (λ counts. counts.items
        ≡ replicate functions (counts_by 0 []) ++ counts_by 0 (of_kind.Jump ∷ []) ∷ []) }
{
    let mut counts = Vec::new(alloc);
    counts.resize(functions, WordCounts::of(0, &[]))?;
    counts.push(WordCounts::of(0, &[WordKind::Jump]))?;
    Ok(counts)
}

/// Adds to the cost of a function, if there is room.
fn add(counts: &mut [WordCounts], function: usize, more: &WordCounts) -> Result<(), AllocError>
    requires { function < length counts.old }
    ensures { OnOk result (counts.new ≡ set counts.old function
        (plus (slice_index_or counts.old function more.now) more.now)) }
{
    match counts[function].plus(more) {
        Some(sum) => {
            counts[function] = sum;
            Ok(())
        }
        None => Err(AllocError),
    }
}
