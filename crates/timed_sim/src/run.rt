//! A core whose events follow a clock.

ghost use Rattle.std.specs.Prelude.{◌≡◌, ◌<◌, ◌≤◌, ◌^◌, ℕ, true, false, List, Some, None};
ghost use Rattle.std.specs.Prelude.{IfOk, OnOk, OnErr, All, slice_index_or};
ghost use Rattle.std.specs.Option.{option_map};
ghost use Rattle.dsm_core.specs.node_model.Core.{Exec, IsOver, opening_core};
ghost use Rattle.dsm_core.specs.run_order.OwnRun.{Stamped, StandsForOwnRun, run_of};
ghost use Rattle.dsm_core.specs.node_model.Outcome.{IsOutcomeOf};
ghost use Rattle.dsm_core.specs.rewriting_law.Bounds.{RunsRewritten};
ghost use Rattle.dsm_core.specs.CoreParts.{work_in, work_of, core_of, event_of, outcome_of};
ghost use Rattle.timed_sim.specs.Clock.{AreInRange, IsOutcomeByClock, clock_of, next};
ghost use Rattle.timed_sim.specs.Clock.{opening_times, total_spent};
ghost use Rattle.templates.specs.Code.{HasCode};
ghost use Rattle.timed_sim.specs.Stored.{due_of, times_in, AreSameTimes, AreWithin, IsReady};
ghost use Rattle.timed_sim.specs.Stored.{HasMade, HaveBeenMade, IsKept, HasEnded};
ghost use Rattle.timed_sim.specs.Stored.{moment_of, plan_in};
ghost use Rattle.timed_sim.specs.Stretches.{AreFree, HaveMade};

use crate::clocks::Clocks;
use crate::costs::{Costs, Spent};
use crate::counting::{StepCount, steps_of_event, steps_of_word};
use crate::due::{Due, node_of};
use crate::tallied::run_each_tallied;
use block_layout::layout_law;
use dsm_core::rewriting_law::progress_law;
use dsm_core::{Core, Event, Outcome, StoppedEarly, UndoLogs, Work};
use run_trace::silent_commits;
use std::alloc::{AllocError, Global};
use templates::{Code, Plan};

/// What a run by a clock gives.
#[derive(Drop)]
pub struct Timed {
    /// The outcome of the run.
    pub outcome: Outcome,
    /// What each node has spent its time on, until the last is over.
    pub spent: Vec<Spent>,
    /// The time at which the last node is over.
    pub time: u128,
    /// How many steps of the original all processors make.
    pub steps: u128,
}

/// Runs the nodes of a layout to their ends, on one thread, by a clock, and gives the outcome, what
/// each node has spent its time on, the time at which the last is over, and how many steps of the
/// original the run makes. The unit of time is what a node takes for one word. The rewritten code
/// has this plan.
///
/// Of all nodes' next events the one that begins first is made, and of equals that of the least
/// node; `specs/Clock` states the rule. A node that runs executes its next word; at a poll it takes
/// the message that arrived first, if one has arrived, and else executes its word. Where it waits,
/// or has ended, it takes the message that arrives first. So the run is one of those that the law
/// of rewriting speaks of: what it computes is an interleaved run of the original.
///
/// It ends, since no node executes more words than its budget. It fails only where memory runs out.
pub fn simulate_by_clock(
    alloc: Global,
    work: &Work<'_>,
    plan: &Plan,
    code: &Code,
    costs: &Costs,
) -> Result<Timed, AllocError>
    requires rewritten { RunsRewritten (work_in work.now) }
    requires code { HasCode (work_in work.now).program code.now }
    requires costs { AreInRange costs.now }
    ensures outcome { IfOk result (λ t. IsOutcomeByClock (work_in work.now) plan.now costs.now
        (outcome_of t.outcome) t.spent.items t.time t.steps) }
    // What each node has spent its time on adds up to the time of the run.
    ensures sums { IfOk result (λ t. All (λ s. clock_of s ≡ t.time) t.spent.items) }
    // Each step of the original is a word that a node executed.
    ensures part { IfOk result (λ t. t.steps ≤ (total_spent t.spent.items).words) }
    ensures most { IfOk result (λ t. t.time ≤ 2 ^ 100) }
    ensures few { IfOk result (λ t. t.steps ≤ 2 ^ 100) }
{
    layout_law();
    progress_law();
    let mut run = TimedRun::new(alloc, work, plan, code, costs)?;
    for _turn in 0..u64::MAX {
        if !run.make_next()? {
            return run.timed(alloc);
        }
    }
    unreachable!()
}

/// The fewest words of a node that are tried at once.
const LEAST_WORDS: u32 = 16;

/// The most words of a node that are made at once.
const MOST_WORDS: u32 = 4096;

/// A core on its way, its clocks, and the steps that it has made.
#[derive(Drop)]
struct TimedRun<'a> {
    core: Core<'a>,
    clocks: Clocks,
    costs: Costs,
    undo_logs: UndoLogs,
    /// How many words of a node are tried at once.
    window: u32,
    count: StepCount<'a>,
}

impl<'a> TimedRun<'a> {
    /// The core and the clocks at the start.
    fn new(
        alloc: Global,
        work: &Work<'a>,
        plan: &'a Plan,
        code: &Code,
        costs: &Costs,
    ) -> Result<TimedRun<'a>, AllocError>
        requires rewritten { RunsRewritten (work_in work.now) }
        requires code { HasCode (work_in work.now).program code.now }
        requires costs { AreInRange costs.now }
        ensures ready { IfOk result IsReady }
        ensures opening { IfOk result (λ r. core_of r.core ≡ opening_core (work_of r.core)) }
        ensures times { IfOk result (λ r. AreSameTimes r.core.layout.nodes (times_in r)
            opening_times) }
        ensures work { IfOk result (λ r. work_of r.core ≡ work_in work.now) }
        ensures costs { IfOk result (λ r. r.costs ≡ costs.now) }
        ensures plan { IfOk result (λ r. plan_in r ≡ plan.now) }
        ensures none { IfOk result (λ r. r.count.steps ≡ 0) }
    {
        let core = Core::new(alloc, work)?;
        let clocks = Clocks::new(alloc, core.layout().nodes())?;
        let undo_logs = UndoLogs::new(alloc, core.layout().nodes())?;
        let count = StepCount::new(alloc, work, plan, code)?;
        Ok(TimedRun {
            core,
            clocks,
            costs: *costs,
            undo_logs,
            window: LEAST_WORDS,
            count,
        })
    }

    /// Makes events that come next, and says whether there are any; there are until every node is
    /// over.
    fn make_next(&mut self) -> Result<bool, AllocError>
        requires ready { IsReady self.old }
        requires within { AreWithin self.old.core.layout.nodes (2 ^ 100) (times_in self.old) }
        requires few { self.old.count.steps ≤ 2 ^ 100 }
        ensures ready { OnOk result (IsReady self.new) }
        ensures work { OnOk result (work_of self.new.core ≡ work_of self.old.core) }
        ensures costs { OnOk result (self.new.costs ≡ self.old.costs) }
        ensures plan { OnOk result (plan_in self.new ≡ plan_in self.old) }
        ensures made { IfOk result (λ made. made ≡ true → HaveMade self.old.costs
            (work_of self.old.core) (plan_in self.old) (moment_of self.old)
            (moment_of self.new)) }
        ensures kept { IfOk result (λ made. made ≡ false → IsKept self.old self.new) }
        ensures over { IfOk result (λ made. made ≡ false
            → IsOver (work_of self.old.core) (core_of self.old.core)) }
    {
        if self.make_words() {
            return Ok(true);
        }
        match self.next() {
            Some(due) => {
                self.make(due)?;
                Ok(true)
            }
            None => Ok(false),
        }
    }

    /// Makes words that come next at once, where nothing else begins before them. It says whether
    /// it made any; else the core and the clocks are as they were.
    fn make_words(&mut self) -> bool
        requires ready { IsReady self.old }
        requires within { AreWithin self.old.core.layout.nodes (2 ^ 100) (times_in self.old) }
        requires few { self.old.count.steps ≤ 2 ^ 100 }
        ensures ready { IsReady self.new }
        ensures work { work_of self.new.core ≡ work_of self.old.core }
        ensures costs { self.new.costs ≡ self.old.costs }
        ensures plan { plan_in self.new ≡ plan_in self.old }
        ensures made { result ≡ true → HaveMade self.old.costs (work_of self.old.core)
            (plan_in self.old) (moment_of self.old) (moment_of self.new) }
        ensures kept { result ≡ false → IsKept self.old self.new }
    {
        let window = self.window.max(LEAST_WORDS).min(MOST_WORDS);
        let end = self.clocks.free_until(&self.core, window);
        match self.make_words_until(end) {
            Ok(made) => {
                self.window = window * 2;
                made
            }
            Err(stop) => {
                self.window = stop.words.min(u64::from(MOST_WORDS)) as u32;
                self.make_words_before(stop, end)
            }
        }
    }

    /// Makes the words that nodes can execute before one of them stops, and says whether it made
    /// any.
    fn make_words_before(&mut self, stop: StoppedEarly, end: u128) -> bool
        requires ready { IsReady self.old }
        requires within { AreWithin self.old.core.layout.nodes (2 ^ 100) (times_in self.old) }
        requires few { self.old.count.steps ≤ 2 ^ 100 }
        requires free { AreFree (work_of self.old.core) (times_in self.old)
            (core_of self.old.core) end }
        ensures ready { IsReady self.new }
        ensures work { work_of self.new.core ≡ work_of self.old.core }
        ensures costs { self.new.costs ≡ self.old.costs }
        ensures plan { plan_in self.new ≡ plan_in self.old }
        ensures made { result ≡ true → HaveMade self.old.costs (work_of self.old.core)
            (plan_in self.old) (moment_of self.old) (moment_of self.new) }
        ensures kept { result ≡ false → IsKept self.old self.new }
    {
        let count = self.core.layout().nodes();
        let until = self.clocks.time_after(count, stop.node, stop.words);
        match self.make_words_until(end.min(until)) {
            Ok(made) => made,
            Err(_) => false,
        }
    }

    /// Makes all words that nodes execute until a time, where micro-ops serve all of them, and says
    /// whether there are any. Otherwise the core and the clocks are as they were, and the answer
    /// tells a node that stopped early.
    fn make_words_until(&mut self, end: u128) -> Result<bool, StoppedEarly>
        requires ready { IsReady self.old }
        requires within { AreWithin self.old.core.layout.nodes (2 ^ 100) (times_in self.old) }
        requires few { self.old.count.steps ≤ 2 ^ 100 }
        requires free { AreFree (work_of self.old.core) (times_in self.old)
            (core_of self.old.core) end }
        ensures ready { IsReady self.new }
        ensures work { work_of self.new.core ≡ work_of self.old.core }
        ensures costs { self.new.costs ≡ self.old.costs }
        ensures plan { plan_in self.new ≡ plan_in self.old }
        ensures made { IfOk result (λ made. made ≡ true → HaveMade self.old.costs
            (work_of self.old.core) (plan_in self.old) (moment_of self.old)
            (moment_of self.new)) }
        ensures none { IfOk result (λ made. made ≡ false → IsKept self.old self.new) }
        ensures kept { OnErr result (IsKept self.old self.new) }
    {
        let count = self.core.layout().nodes();
        let words = self.clocks.words_until(&self.core, end);
        if !is_any(&words, count) {
            return Ok(false);
        }
        let steps = run_each_tallied(
            &mut self.core,
            &words,
            &mut self.undo_logs,
            &self.count.tallies,
        )?;
        self.clocks.count_words(count, &words);
        self.count.add(steps);
        Ok(true)
    }

    /// The next event; `None` exactly where every node is over.
    fn next(&self) -> Option<Due>
        requires ready { IsReady self.now }
        requires within { AreWithin self.now.core.layout.nodes (2 ^ 127) (times_in self.now) }
        ensures value { option_map due_of result
            ≡ next (work_of self.now.core) (times_in self.now) (core_of self.now.core) }
        ensures over { result ≡ None → IsOver (work_of self.now.core) (core_of self.now.core) }
    {
        self.core.promises();
        self.clocks.next(&self.core)
    }

    /// Makes the next event.
    fn make(&mut self, due: Due) -> Result<(), AllocError>
        requires ready { IsReady self.old }
        requires within { AreWithin self.old.core.layout.nodes (2 ^ 100) (times_in self.old) }
        requires few { self.old.count.steps ≤ 2 ^ 100 }
        requires next { next (work_of self.old.core) (times_in self.old) (core_of self.old.core)
            ≡ Some (due_of due) }
        ensures ready { OnOk result (IsReady self.new) }
        ensures work { OnOk result (work_of self.new.core ≡ work_of self.old.core) }
        ensures costs { OnOk result (self.new.costs ≡ self.old.costs) }
        ensures plan { OnOk result (plan_in self.new ≡ plan_in self.old) }
        ensures made { OnOk result (HasMade self.old.costs (work_of self.old.core)
            (times_in self.old) (core_of self.old.core) (due_of due)
            (times_in self.new) (core_of self.new.core)) }
        ensures steps { OnOk result (HaveBeenMade self.old self.new (event_of due.event)) }
    {
        if self.make_silent(due) {
            return Ok(());
        }
        self.make_seen(due)
    }

    /// Makes the next event, where it is a word by a micro-op. Otherwise nothing changes.
    fn make_silent(&mut self, due: Due) -> bool
        requires ready { IsReady self.old }
        requires within { AreWithin self.old.core.layout.nodes (2 ^ 100) (times_in self.old) }
        requires few { self.old.count.steps ≤ 2 ^ 100 }
        requires next { next (work_of self.old.core) (times_in self.old) (core_of self.old.core)
            ≡ Some (due_of due) }
        ensures ready { result ≡ true → IsReady self.new }
        ensures work { work_of self.new.core ≡ work_of self.old.core }
        ensures costs { self.new.costs ≡ self.old.costs }
        ensures plan { plan_in self.new ≡ plan_in self.old }
        ensures made { result ≡ true → HasMade self.old.costs (work_of self.old.core)
            (times_in self.old) (core_of self.old.core) (due_of due)
            (times_in self.new) (core_of self.new.core) }
        ensures steps { result ≡ true → HaveBeenMade self.old self.new (event_of due.event) }
        ensures kept { result ≡ false → IsKept self.old self.new }
    {
        match due.event {
            Event::Exec(node) => self.make_silent_word(due, node),
            Event::Take { .. } => false,
        }
    }

    /// Executes the next word of a node, which is the next event, by a micro-op, where that serves
    /// it. Otherwise nothing changes.
    fn make_silent_word(&mut self, due: Due, node: u8) -> bool
        requires ready { IsReady self.old }
        requires within { AreWithin self.old.core.layout.nodes (2 ^ 100) (times_in self.old) }
        requires few { self.old.count.steps ≤ 2 ^ 100 }
        requires next { next (work_of self.old.core) (times_in self.old) (core_of self.old.core)
            ≡ Some (due_of due) }
        requires word { event_of due.event ≡ Exec node }
        ensures ready { result ≡ true → IsReady self.new }
        ensures work { work_of self.new.core ≡ work_of self.old.core }
        ensures costs { self.new.costs ≡ self.old.costs }
        ensures plan { plan_in self.new ≡ plan_in self.old }
        ensures made { result ≡ true → HasMade self.old.costs (work_of self.old.core)
            (times_in self.old) (core_of self.old.core) (due_of due)
            (times_in self.new) (core_of self.new.core) }
        ensures steps { result ≡ true → HaveBeenMade self.old self.new (event_of due.event) }
        ensures kept { result ≡ false → IsKept self.old self.new }
    {
        let count = self.core.layout().nodes();
        let Some(commits) = silent_commits(self.core.node(node), &self.count.kinds) else {
            return false;
        };
        if !self.core.exec_silent(node) {
            return false;
        }
        self.clocks.count_word(count, node);
        self.count.add(steps_of_word(commits));
        true
    }

    /// Makes the next event, and counts what was seen of it.
    fn make_seen(&mut self, due: Due) -> Result<(), AllocError>
        requires ready { IsReady self.old }
        requires within { AreWithin self.old.core.layout.nodes (2 ^ 100) (times_in self.old) }
        requires few { self.old.count.steps ≤ 2 ^ 100 }
        requires next { next (work_of self.old.core) (times_in self.old) (core_of self.old.core)
            ≡ Some (due_of due) }
        ensures ready { OnOk result (IsReady self.new) }
        ensures work { OnOk result (work_of self.new.core ≡ work_of self.old.core) }
        ensures costs { OnOk result (self.new.costs ≡ self.old.costs) }
        ensures plan { OnOk result (plan_in self.new ≡ plan_in self.old) }
        ensures made { OnOk result (HasMade self.old.costs (work_of self.old.core)
            (times_in self.old) (core_of self.old.core) (due_of due)
            (times_in self.new) (core_of self.new.core)) }
        ensures steps { OnOk result (HaveBeenMade self.old self.new (event_of due.event)) }
    {
        let standing = self.core.node(node_of(due.event)).standing();
        let sight = self.count.sight_of(&self.core, due.event);
        let mut seen = self.core.step_seen(due.event)?;
        let steps = steps_of_event(&self.core, due.event, sight, seen.printed);
        self.count.add(steps);
        self.clocks
            .pass(&self.costs, self.core.layout(), standing, due, &mut seen)
    }

    /// What the run gives, once every node is over.
    fn timed(&self, alloc: Global) -> Result<Timed, AllocError>
        requires ready { IsReady self.now }
        requires within { AreWithin self.now.core.layout.nodes (2 ^ 127) (times_in self.now) }
        requires over { IsOver (work_of self.now.core) (core_of self.now.core) }
        ensures outcome { IfOk result (λ t. (events : List Stamped)
            × StandsForOwnRun (work_of self.now.core) (core_of self.now.core) events
            × IsOutcomeOf (work_of self.now.core) (run_of events) (outcome_of t.outcome)) }
        ensures times { IfOk result (λ t. HasEnded self.now.core.layout.nodes (times_in self.now)
            t.spent.items t.time) }
        ensures steps { IfOk result (λ t. t.steps ≡ self.now.count.steps) }
    {
        let outcome = self.core.outcome(alloc)?;
        let count = self.core.layout().nodes();
        let time = self.clocks.last(count);
        Ok(Timed {
            outcome,
            spent: self.clocks.until(alloc, count, time)?,
            time,
            steps: self.count.steps,
        })
    }
}

/// Whether any node executes a word.
fn is_any(words: &[u32; 16], count: u8) -> bool
    requires { count ≤ 16 }
    ensures { result ≡ true → (k : ℕ) × (k < count) × (1 ≤ slice_index_or words.now k 0) }
{
    for node in 0..count {
        if words[node as usize] > 0 {
            return true;
        }
    }
    false
}
