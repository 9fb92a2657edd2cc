//! When the words of rewritten code commit, looked up once for each.

ghost use Rattle.std.specs.Prelude.{◌≡◌, IfOk, map};
ghost use Rattle.rv32_program.specs.Program.{Program};
ghost use Rattle.templates.specs.Code.{HasCode};
ghost use Rattle.templates.specs.Commits.{commit_at};
ghost use Rattle.replay.specs.node_model.jump_map.Maps.{old_of};
ghost use Rattle.run_trace.specs.Kinds.{AreKindsOf, kind_in};
ghost use Rattle.word_visits.specs.TallyTables.{AreTalliesIn, tallies_of};
ghost use Rattle.word_visits.specs.VisitTables.{AreVisitsIn, visits_of};
ghost use Rattle.run_trace.specs.Visited.{AreTalliesOf, asks, commits_visited, first_visits};
ghost use Rattle.run_trace.specs.Visited.{may_commit};

use crate::entries::Entries;
use replay::node_model::jump_map::{IMAGE_BASE, Image};
use std::alloc::{AllocError, Global};
use templates::{Code, CommitKind, Plan};
use word_visits::{Tallies, Visits};

/// When each word of rewritten code commits, by its number.
#[derive(Drop)]
pub struct CommitKinds {
    pub(crate) kinds: Vec<CommitKind>,
}

impl CommitKinds {
    /// Those of the words of an image, by the plan that it has.
    pub fn of(
        alloc: Global,
        image: &Image,
        plan: &Plan,
        code: &Code,
    ) -> Result<CommitKinds, AllocError>
        ensures { (program : Program) → HasCode program code.now
            → IfOk result (AreKindsOf program plan.now image.now) }
    {
        let mut entries = Entries::of(alloc, plan)?;
        let mut kinds = Vec::with_capacity(alloc, image.len())?;
        for number in 0..image.words() {
            let place = image.old_of(IMAGE_BASE + 4 * number);
            kinds.push(entries.commit_at(plan, code, place))?;
        }
        Ok(CommitKinds { kinds })
    }

    /// The visits of all words of an image, where none was executed yet.
    pub(crate) fn no_visits(&self, alloc: Global, image: &Image) -> Result<Visits, AllocError>
        ensures value { IfOk result
            (λ visits. visits_of visits ≡ map first_visits self.now.kinds.items) }
        ensures micros { IfOk result (AreVisitsIn image.now) }
    {
        let mut visits = Visits::of(alloc, image)?;
        for kind in &self.kinds {
            visits.push(asks(*kind))?;
        }
        Ok(visits)
    }

    /// The tallies of all words of an image: a word counts that commits a step of the original.
    pub fn tallies(&self, alloc: Global, image: &Image) -> Result<Tallies, AllocError>
        ensures value { IfOk result (λ tallies. AreTalliesOf self.now (tallies_of tallies)) }
        ensures table { IfOk result (AreTalliesIn image.now) }
    {
        let mut tallies = Tallies::of(alloc, image)?;
        for kind in &self.kinds {
            tallies.push(may_commit(*kind), asks(*kind))?;
        }
        Ok(tallies)
    }

    /// Whether the word of a number commits each time that it counts.
    pub(crate) fn commits_visited(&self, number: usize) -> bool
        ensures value { result ≡ commits_visited self.now number }
    {
        match self.kinds.get(number) {
            Some(kind) => may_commit(*kind),
            None => false,
        }
    }

    /// When the word at an address commits, if one stands there.
    #[inline(always)]
    pub(crate) fn at(&self, new: u32) -> CommitKind
        ensures kind { result ≡ kind_in self.now new }
    {
        if new < IMAGE_BASE || new % 4 != 0 {
            return CommitKind::Never;
        }
        match self.kinds.get(((new - IMAGE_BASE) / 4) as usize) {
            Some(kind) => *kind,
            None => CommitKind::Never,
        }
    }
}

/// Whether it depends on what a word of a kind reads whether it commits.
fn asks(kind: CommitKind) -> bool
    ensures { result ≡ asks kind }
{
    match kind {
        CommitKind::IfNotFlag => true,
        CommitKind::Never | CommitKind::Always | CommitKind::IfNoWait => false,
    }
}

/// Whether a word of a kind commits, where it prints nothing, sends nothing and counts.
fn may_commit(kind: CommitKind) -> bool
    ensures { result ≡ may_commit kind }
{
    match kind {
        CommitKind::Never => false,
        CommitKind::Always | CommitKind::IfNotFlag | CommitKind::IfNoWait => true,
    }
}
