//! A walk along a recorded run, event by event.

ghost use Rattle.std.specs.Prelude.{◌≡◌, ◌^◌, ◌<◌, List, length, IfOk, OnOk};
ghost use Rattle.event_text.specs.run_trace.Given.{traced_of};
ghost use Rattle.event_text.specs.run_trace.Traced.{Traced as OfEvent};
ghost use Rattle.event_text.specs.run_trace.Tracing.{HasTraced, HasGoneOn, IsFewer, IsSame};
ghost use Rattle.event_text.specs.run_trace.Tracing.{record_traced, work_traced};
ghost use Rattle.recorded_run.specs.Walks.{TellsWhole};

use debugged_run::time_machine::one_memory::Pick;
use event_text::run_trace::replay::dsm_core::{Core, Work};
use event_text::run_trace::replay::rewriting_law::interleaving_law;
use event_text::run_trace::replay::run_record::Record;
use event_text::run_trace::replay::{ReplayRefused, WordsAhead, replay_law};
use event_text::run_trace::{Traced, Tracer, is_miss};
use record_picks::pick_of;
use std::alloc::{AllocError, Global};
use templates::{Code, Plan};

/// An event, by its stamp and its node.
#[derive(Clone, Copy)]
pub struct LastEvent {
    pub stamp: u64,
    pub node: u8,
}

/// A walk along a recorded run.
#[derive(Drop)]
pub struct Walk<'a> {
    tracer: Tracer<'a>,
    /// How many picks the events make.
    picks: usize,
    /// The last event, if one was made.
    last: Option<LastEvent>,
    /// No fewer events make as many picks.
    fewest: bool,
}

impl<'a> Walk<'a> {
    ghost use Rattle.std.specs.Prelude.{◌≡◌, ◌<◌, ◌≤◌, ℕ, List, [], length, true, IfOk, OnOk};
    ghost use Rattle.templates.specs.Code.{HasCode};
    ghost use Rattle.event_text.specs.replay.rewriting_law.Bounds.{RunsRewritten};
    ghost use Rattle.event_text.specs.replay.dsm_core.CoreParts.{work_in};
    ghost use Rattle.event_text.specs.replay.run_record.Record.{IsRecord};
    ghost use Rattle.event_text.specs.replay.Way.{IsStretch, core_in};
    ghost use Rattle.event_text.specs.run_trace.Tracing.{events_to_trace, replayer_in};
    ghost use Rattle.recorded_run.specs.Shown.{AreFewest};
    ghost use Rattle.recorded_run.specs.Walks.{CountsPicks, GoesOn, GoesToNext, HasCounted};
    ghost use Rattle.recorded_run.specs.Walks.{HasCountedOn, HasWalked, IsAlong, IsCounting};
    ghost use Rattle.recorded_run.specs.Walks.{IsOfPicks, IsWalking, MakesOne, StaysAlong};
    ghost use Rattle.recorded_run.specs.Walks.{comes_to, tracer_of};

    /// A walk at the start of a run.
    pub(crate) fn new(
        alloc: Global,
        work: &Work<'a>,
        plan: &'a Plan,
        code: &'a Code,
        kept: &'a Record,
    ) -> Result<Walk<'a>, AllocError>
        requires rewritten { RunsRewritten (work_in work.now) }
        requires code { HasCode (work_in work.now).program code.now }
        requires record { IsRecord kept.now }
        requires nodes { (work_in work.now).layout.nodes ≡ kept.now.nodes }
        ensures start { IfOk result (λ w. HasWalked w []) }
        ensures along { IfOk result (λ w. IsAlong (work_in work.now) plan.now kept.now w) }
        ensures comes { (k : ℕ) → IfOk result (λ w. comes_to w k ≡ true) }
    {
        Ok(Walk {
            tracer: Tracer::new(alloc, work, plan, code, kept)?,
            picks: 0,
            last: None,
            fewest: true,
        })
    }

    /// The nodes, as the events have left them.
    pub(crate) fn core(&self) -> &Core<'a>
        ensures { result.now ≡ core_in (replayer_in (tracer_of self.now)) }
    {
        self.tracer.core()
    }

    /// How many picks the events make.
    pub(crate) fn picks(&self) -> usize
        ensures { result ≡ self.now.picks }
    {
        self.picks
    }

    /// The last event, if one was made.
    pub(crate) fn last(&self) -> Option<LastEvent>
        ensures { result ≡ self.now.last }
    {
        self.last
    }

    /// Whether the walk comes to the fewest events that make `picks` picks.
    pub(crate) fn comes_to(&self, picks: usize) -> bool
        ensures { result ≡ comes_to self.now picks }
    {
        self.picks < picks || self.picks == picks && self.fewest
    }

    /// Makes the next event, and says what it did; `None` where all were made. The run stands for
    /// these picks.
    fn next(&mut self, picks: &[Pick]) -> Result<Option<Traced>, AllocError>
        requires counting { IsCounting self.old }
        requires of_picks { IsOfPicks self.old picks.now }
        ensures goes { (seen : List OfEvent) → HasCounted self.old seen
            → IfOk result (GoesOn self.new seen) }
        ensures makes { IfOk result (MakesOne self.old self.new) }
        ensures counts { IfOk result (CountsPicks self.new picks.now) }
        ensures same { OnOk result (StaysAlong self.old self.new) }
        ensures fewer { IfOk result (IsFewer (tracer_of self.old) (tracer_of self.new)) }
    {
        interleaving_law();
        replay_law();
        // brings: the number of picks has room
        let _most = count_of(picks);
        let Some(event) = next_event(&mut self.tracer)? else {
            return Ok(None);
        };
        let makes = pick_of(&event).is_some();
        self.picks += usize::from(makes);
        self.last = Some(LastEvent {
            stamp: event.stamp,
            node: event.node,
        });
        self.fewest = makes;
        Ok(Some(event))
    }

    /// Makes words that only compute or access memory, as long as such words come next, up to
    /// `most` picks. After them it isn't known which event was the last.
    fn make_silent(&mut self, most: usize)
        requires counting { IsCounting self.old }
        requires few { self.old.picks ≤ most }
        ensures counted { (seen : List OfEvent) → HasCounted self.old seen
            → HasCountedOn self.new seen }
        ensures few { self.new.picks ≤ most }
        ensures same { StaysAlong self.old self.new }
        ensures left { events_to_trace (tracer_of self.new)
            ≤ events_to_trace (tracer_of self.old) }
    {
        while self.picks < most {
            let Some(stretch) = self.tracer.words_ahead() else {
                return;
            };
            if !self.make_stretch(stretch, most) {
                return;
            }
        }
    }

    /// Makes words of a stretch, as long as they only compute or access memory, up to `most` picks.
    /// It says whether it made all, and more picks are left.
    fn make_stretch(&mut self, stretch: WordsAhead, most: usize) -> bool
        requires counting { IsCounting self.old }
        requires stretch { IsStretch (replayer_in (tracer_of self.old)) stretch }
        requires some { 0 < stretch.words }
        requires few { self.old.picks < most }
        ensures counted { (seen : List OfEvent) → HasCounted self.old seen
            → HasCountedOn self.new seen }
        ensures few { self.new.picks ≤ most }
        ensures same { StaysAlong self.old self.new }
        ensures left { events_to_trace (tracer_of self.new)
            ≤ events_to_trace (tracer_of self.old) }
        ensures fewer { result ≡ true → events_to_trace (tracer_of self.new)
            < events_to_trace (tracer_of self.old) }
    {
        let mut stretch = stretch;
        while stretch.words > 0 {
            let Some(commits) = self.tracer.make_silent_word(&mut stretch) else {
                return false;
            };
            self.picks += usize::from(commits);
            if self.picks >= most {
                return false;
            }
        }
        true
    }

    /// Makes the fewest events that make `position` picks.
    pub(crate) fn go_to(&mut self, picks: &[Pick], position: usize) -> Result<(), AllocError>
        requires walking { IsWalking self.old }
        requires of_picks { IsOfPicks self.old picks.now }
        requires comes { comes_to self.old position ≡ true }
        requires within { position ≤ length picks.now }
        ensures there { OnOk result
            ((seen : List OfEvent) × HasWalked self.new seen × AreFewest position seen) }
        ensures same { OnOk result (StaysAlong self.old self.new) }
    {
        while self.picks < position {
            self.make_silent(position - 1);
            let Some(_) = self.next(picks)? else {
                unreachable!()
            };
        }
        Ok(())
    }

    /// Makes the events up to the next that is a miss, and says what that did; `None` where none
    /// is.
    pub(crate) fn go_to_miss(&mut self, picks: &[Pick]) -> Result<Option<Traced>, AllocError>
        requires walking { IsWalking self.old }
        requires of_picks { IsOfPicks self.old picks.now }
        ensures goes { (seen : List OfEvent) → HasWalked self.old seen
            → IfOk result (GoesToNext self.new seen) }
        ensures counts { IfOk result (CountsPicks self.new picks.now) }
        ensures same { OnOk result (StaysAlong self.old self.new) }
    {
        while let Some(event) = self.next(picks)? {
            if is_miss(&event.what) {
                return Ok(Some(event));
            }
        }
        Ok(None)
    }
}

/// What the next event of a whole run does; `None` where all were made.
fn next_event(tracer: &mut Tracer<'_>) -> Result<Option<Traced>, AllocError>
    requires traced { (seen : List OfEvent) × HasTraced tracer.old seen }
    requires whole { TellsWhole (work_traced tracer.old) (record_traced tracer.old) }
    ensures next { (seen : List OfEvent) → HasTraced tracer.old seen
        → IfOk result (HasGoneOn tracer.new seen) }
    ensures same { OnOk result (IsSame tracer.old tracer.new) }
    ensures fewer { IfOk result (IsFewer tracer.old tracer.new) }
{
    replay_law();
    match tracer.next() {
        Ok(event) => Ok(event),
        Err(ReplayRefused::Broken { .. }) => unreachable!(),
        Err(ReplayRefused::OutOfMemory) => Err(AllocError),
    }
}

/// How many picks there are.
fn count_of(picks: &[Pick]) -> usize
    ensures value { result ≡ length picks.now }
    ensures room { result < 2 ^ 64 }
{
    picks.len()
}
