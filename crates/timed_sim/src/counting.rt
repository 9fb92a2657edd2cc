//! How many steps of the original a run makes: its words that commit one.

ghost use Rattle.std.specs.Prelude.{◌≡◌, ◌+◌, ◌^◌, ◌<◌, ◌≤◌, if◌then◌else◌, List, ◌∷◌, []};
ghost use Rattle.std.specs.Prelude.{IfOk};
ghost use Rattle.templates.specs.Code.{HasCode};
ghost use Rattle.templates.specs.declared.plans.PlanEntry.{PlanEntry};
ghost use Rattle.dsm_core.specs.node_model.Core as model;
ghost use Rattle.dsm_core.specs.node_model.Node.{Work as OfWork};
ghost use Rattle.dsm_core.specs.CoreParts.{work_in, work_of, core_of, event_of};
ghost use Rattle.dsm_core.specs.Seen.{byte_at};
ghost use Rattle.dsm_core.specs.run_order.OwnRun.{node_of};
ghost use Rattle.run_trace.specs.Steps.{steps_made};
ghost use Rattle.timed_sim.specs.Counted.{CountsFor, IsSightAt};

use dsm_core::{Core, Event, Work};
use run_trace::{CommitKinds, CommitSight, commit_sight, has_committed};
use std::alloc::{AllocError, Global};
use templates::{Code, Plan};
use word_visits::Tallies;

/// When the words of rewritten code commit, and how many steps of the original were made.
#[derive(Drop)]
pub(crate) struct StepCount<'a> {
    /// The plan of the code.
    pub(crate) plan: &'a Plan,
    pub(crate) kinds: CommitKinds,
    /// Which words count as a step, by their numbers.
    pub(crate) tallies: Tallies,
    pub(crate) steps: u128,
}

impl<'a> StepCount<'a> {
    /// No step was made yet, of the rewritten code that has this plan.
    pub(crate) fn new(
        alloc: Global,
        work: &Work<'a>,
        plan: &'a Plan,
        code: &Code,
    ) -> Result<StepCount<'a>, AllocError>
        requires code { HasCode (work_in work.now).program code.now }
        ensures counts { IfOk result (CountsFor (work_in work.now) plan.now) }
        ensures none { IfOk result (λ c. c.steps ≡ 0) }
    {
        let kinds = CommitKinds::of(alloc, work.image, plan, code)?;
        let tallies = kinds.tallies(alloc, work.image)?;
        Ok(StepCount {
            plan,
            kinds,
            tallies,
            steps: 0,
        })
    }

    /// `steps` more steps were made.
    pub(crate) fn add(&mut self, steps: u64)
        requires few { self.old.steps ≤ 2 ^ 100 }
        ensures steps { self.new.steps ≡ self.old.steps + steps }
        ensures plan { self.new.plan ≡ self.old.plan }
        ensures counts { (work : OfWork) (plan : List PlanEntry) → CountsFor work plan self.old
            → CountsFor work plan self.new }
    {
        self.steps += u128::from(steps);
    }

    /// What is seen before an event, of what tells whether its word commits a step.
    pub(crate) fn sight_of(&self, core: &Core<'_>, event: Event) -> Option<CommitSight>
        requires node { node_of (event_of event) < core.now.layout.nodes }
        ensures { (plan : List PlanEntry) → CountsFor (work_of core.now) plan self.now
            → IsSightAt (work_of core.now) plan (core_of core.now) (event_of event) result }
    {
        match event {
            Event::Exec(node) => Some(commit_sight(core.node(node), &self.kinds)),
            Event::Take { .. } => None,
        }
    }
}

/// How many steps a word makes.
pub(crate) fn steps_of_word(commits: bool) -> u64
    ensures { result ≡ (if commits then 1 else 0) }
{
    if commits { 1 } else { 0 }
}

/// How many steps an event has made, by what was seen before it, the byte that it printed, and the
/// core after it.
pub(crate) fn steps_of_event(
    core: &Core<'_>,
    event: Event,
    sight: Option<CommitSight>,
    printed: Option<u8>,
) -> u64
    requires node { node_of (event_of event) < core.now.layout.nodes }
    ensures { (plan : List PlanEntry) (c : model.Core)
        → IsSightAt (work_of core.now) plan c (event_of event) sight
        → printed ≡ byte_at (work_of core.now) c (event_of event)
        → model.AreAlike core.now.layout.nodes (core_of core.now)
        (model.event_step (work_of core.now) c (event_of event))
        → result ≡ steps_made (work_of core.now) plan c (event_of event ∷ []) }
{
    match event {
        Event::Exec(node) => match sight {
            Some(sight) => steps_of_word(has_committed(sight, printed, core.node(node))),
            None => 0,
        },
        Event::Take { .. } => 0,
    }
}
