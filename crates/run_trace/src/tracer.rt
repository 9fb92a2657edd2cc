//! A recorded run that is made once more, event by event, as values.

ghost use Rattle.std.specs.Prelude.{◌≡◌};
ghost use Rattle.run_trace.specs.Taking.{block_of_first};

use crate::kinds::CommitKinds;
use crate::passed::{Until, WordPassed, ending, reached_by_touch};
use crate::takes::{sight_of, take_traced};
use crate::traced::{Traced, What};
use crate::words::{accessed_at, before_word, commits, commits_silent, place_of, word_traced};
use block_layout::Block;
use replay::dsm_core::{Core, Event, Incoming, Work};
use replay::node_machine::Touch;
use replay::node_model::jump_map::Image;
use replay::run_record::Record;
use replay::{ReplayRefused, Replayer, WordsAhead};
use std::alloc::{AllocError, Global};
use templates::{Code, Plan};
use word_visits::Visits;

/// A recorded run that is made once more, event by event.
#[derive(Drop)]
pub struct Tracer<'a> {
    /// How far the run was made.
    pub replayer: Replayer<'a>,
    plan: &'a Plan,
    kinds: CommitKinds,
}

/// Where the words of a stretch were stopped.
#[derive(Clone, Copy)]
enum StretchEnd {
    /// After a word that ends the pass.
    Ended(WordPassed),
    /// Before an event that does more than to access memory.
    Before,
    /// After its last word.
    Through,
}

impl<'a> Tracer<'a> {
    ghost use Rattle.std.specs.Prelude.{◌≡◌, ◌⊎◌, ◌<◌, ◌≤◌, ℕ, List, [], IfOk, OnOk, IsErrOf};
    ghost use Rattle.std.specs.Prelude.{◌≢◌, ◌++◌, All, IfSome, option_to_list};
    ghost use Rattle.std.specs.Option.{option_map};
    ghost use Rattle.templates.specs.Code.{HasCode};
    ghost use Rattle.replay.specs.node_model.Core.{Exec, Take};
    ghost use Rattle.replay.specs.rewriting_law.Bounds.{RunsRewritten};
    ghost use Rattle.replay.specs.node_machine.Touch.{IsTouch};
    ghost use Rattle.word_visits.specs.Visits.{AreCounted};
    ghost use Rattle.word_visits.specs.VisitTables.{visits_of};
    ghost use Rattle.replay.specs.dsm_core.CoreParts.{work_in, core_of};
    ghost use Rattle.replay.specs.dsm_core.CoreWords.{HasPassedWords};
    ghost use Rattle.replay.specs.run_record.Record.{IsRecord};
    ghost use Rattle.replay.specs.Told.{Told};
    ghost use Rattle.replay.specs.Refusals.{IsFirstBroken, IsUnfinished};
    ghost use Rattle.replay.specs.Way.{HasMade, IsRunning, IsNextOf, IsStretch, core_in};
    ghost use Rattle.replay.specs.Way.{IsLessBy, IsWordLess};
    ghost use Rattle.replay.specs.declared.refused.ReplayRule.{ReplayRule as Rules};
    ghost use Rattle.replay.specs.declared.refused.ReplayRefused.TheVariants.{Broken};
    ghost use Rattle.run_trace.specs.Traced.{Traced as OfEvent};
    ghost use Rattle.run_trace.specs.Tracing.{HasTraced, HasGoneOn, HasTracedOne, IsSame};
    ghost use Rattle.run_trace.specs.Tracing.{IsFewer, HasKinds, HasTracedIfSilent};
    ghost use Rattle.run_trace.specs.Tracing.{AreVisitsOf, HasTracedWords, kinds_traced};
    ghost use Rattle.run_trace.specs.Visited.{CommitByNumber, commits_visited};
    ghost use Rattle.run_trace.specs.Tracing.{events_to_trace};
    ghost use Rattle.run_trace.specs.Tracing.{work_traced, plan_traced, record_traced, replayer_in};
    ghost use Rattle.run_trace.specs.Passing.{HasPassedOn, passed_of, word_ended};

    /// The run at its start, of rewritten code that the plan says.
    pub fn new(
        alloc: Global,
        work: &Work<'a>,
        plan: &'a Plan,
        code: &Code,
        rec: &'a Record,
    ) -> Result<Tracer<'a>, AllocError>
        requires rewritten { RunsRewritten (work_in work.now) }
        requires code { HasCode (work_in work.now).program code.now }
        requires record { IsRecord rec.now }
        requires nodes { (work_in work.now).layout.nodes ≡ rec.now.nodes }
        ensures start { IfOk result (λ t. HasTraced t []) }
        ensures work { IfOk result (λ t. work_traced t ≡ work_in work.now) }
        ensures plan { IfOk result (λ t. plan_traced t ≡ plan.now) }
        ensures rec { IfOk result (λ t. record_traced t ≡ rec.now) }
    {
        Ok(Tracer {
            replayer: Replayer::new(alloc, work, rec)?,
            plan,
            kinds: CommitKinds::of(alloc, work.image, plan, code)?,
        })
    }

    /// The core, as the events made so far have left it.
    pub fn core(&self) -> &Core<'a>
        ensures value { result.now ≡ core_in (replayer_in self.now) }
    {
        self.replayer.core()
    }

    /// What the next event does; None where all were made and each node is over. Fails where an
    /// event can't be made as the record tells of it.
    pub fn next(&mut self) -> Result<Option<Traced>, ReplayRefused>
        requires traced { (seen : List OfEvent) × HasTraced self.old seen }
        ensures next { (seen : List OfEvent) → HasTraced self.old seen
            → IfOk result (HasGoneOn self.new seen) }
        ensures same { OnOk result (IsSame self.old self.new) }
        ensures fewer { IfOk result (IsFewer self.old self.new) }
        ensures refused { (rule : Rules) (node entry : ℕ)
            → IsErrOf result (Broken rule node entry)
            → IsFirstBroken (work_traced self.old) (record_traced self.old) rule node entry
            ⊎ IsUnfinished (work_traced self.old) (record_traced self.old) rule node entry }
    {
        let Some(event) = self.replayer.next() else {
            self.replayer.finish()?;
            return Ok(None);
        };
        let traced = match event {
            Event::Exec(node) => self.word(node)?,
            Event::Take { node, from } => self.take(node, from)?,
        };
        Ok(Some(traced))
    }

    /// The words of one node that come before the events of all others, where the next event is a
    /// word that its node may execute. They are at least one.
    pub fn words_ahead(&self) -> Option<WordsAhead>
        requires traced { (seen : List OfEvent) × HasTraced self.now seen }
        ensures words { IfSome result (IsStretch (replayer_in self.now)) }
        ensures some { IfSome result (λ s. 0 < s.words) }
    {
        self.replayer.words_ahead()
    }

    /// Makes the next word of a stretch, where all that it does is to compute or to access memory,
    /// and says whether it commits a step of the original. `None` where it does more: then nothing
    /// is made, and `next` makes that word.
    #[inline(always)]
    pub fn make_silent_word(&mut self, stretch: &mut WordsAhead) -> Option<bool>
        requires traced { (seen : List OfEvent) × HasTraced self.old seen }
        requires stretch { IsStretch (replayer_in self.old) stretch.old }
        requires some { 0 < stretch.old.words }
        ensures made { (seen : List OfEvent) → HasTraced self.old seen
            → HasTracedIfSilent self.old self.new seen stretch.old.node result }
        ensures stretch { IfSome result (λ _. IsStretch (replayer_in self.new) stretch.new) }
        ensures less { IfSome result (λ _. IsWordLess stretch.old stretch.new) }
        ensures fewer { IfSome result (λ _. events_to_trace self.new < events_to_trace self.old) }
        ensures most { events_to_trace self.new ≤ events_to_trace self.old }
        ensures same { IsSame self.old self.new }
    {
        let node = self.replayer.core().node(stretch.node);
        let commits = commits_silent(self.kinds.at(node.at()), node)?;
        if self.replayer.make_silent_word(stretch) {
            Some(commits)
        } else {
            None
        }
    }

    /// The visits of all words of the run, where none was executed yet. The image is the run's.
    pub fn no_visits(&self, alloc: Global, image: &Image) -> Result<Visits, AllocError>
        requires image { image.now ≡ (work_traced self.now).image }
        ensures visits { IfOk result (AreVisitsOf self.now) }
        ensures none { IfOk result (λ visits. All (λ v. v.times ≡ 0) (visits_of visits)) }
    {
        self.kinds.no_visits(alloc, image)
    }

    /// Whether the word of a number commits a step of the original each time that it counts.
    pub fn commits_visited(&self, number: usize) -> bool
        ensures value { result ≡ commits_visited (kinds_traced self.now) number }
    {
        self.kinds.commits_visited(number)
    }

    /// Makes words of a stretch one by one, as long as all that they do is to compute or to access
    /// memory, and they count among the visits. It gives how many.
    pub fn make_silent_words(&mut self, stretch: &mut WordsAhead, visits: &mut Visits) -> u64
        requires traced { (seen : List OfEvent) × HasTraced self.old seen }
        requires stretch { IsStretch (replayer_in self.old) stretch.old }
        requires visits { AreVisitsOf self.old visits.old }
        ensures made { (seen : List OfEvent) (h : HasTraced self.old seen)
            → HasTracedWords self.new seen h.before stretch.old.node result }
        ensures passed { HasPassedWords (work_traced self.old) stretch.old.node result
            (core_of (core_in (replayer_in self.old))) (core_of (core_in (replayer_in self.new))) }
        ensures counted { AreCounted (work_traced self.old) result
            ((core_of (core_in (replayer_in self.old))).nodes stretch.old.node)
            (visits_of visits.old) (visits_of visits.new) }
        ensures commits { CommitByNumber (work_traced self.old) (plan_traced self.old)
            (kinds_traced self.old) stretch.old.node result
            (core_of (core_in (replayer_in self.old))) }
        ensures visits { AreVisitsOf self.new visits.new }
        ensures stretch { IsStretch (replayer_in self.new) stretch.new }
        ensures left { IsLessBy result stretch.old stretch.new }
        ensures fewer { 0 < result → events_to_trace self.new < events_to_trace self.old }
        ensures most { events_to_trace self.new ≤ events_to_trace self.old }
        ensures same { IsSame self.old self.new }
    {
        self.replayer.make_silent_words(stretch, visits)
    }

    /// Makes words that only compute or access memory, up to the first whose access ends the pass,
    /// and says what that did. `None` where an event comes before it that does more: `next` makes
    /// that one; and where all were made.
    pub fn run_until(&mut self, until: Until) -> Option<WordPassed>
        requires traced { (seen : List OfEvent) × HasTraced self.old seen }
        ensures passed { (seen : List OfEvent) → HasTraced self.old seen
            → HasPassedOn until self.new seen result }
        ensures fewer { IfSome result (λ w. events_to_trace self.new < events_to_trace self.old) }
        ensures most { events_to_trace self.new ≤ events_to_trace self.old }
        ensures same { IsSame self.old self.new }
    {
        while let Some(stretch) = self.replayer.words_ahead() {
            match self.run_ahead(stretch, until) {
                StretchEnd::Ended(word) => return Some(word),
                StretchEnd::Before => return None,
                StretchEnd::Through => {}
            }
        }
        None
    }

    /// Makes words of a stretch, up to the first whose access ends the pass.
    fn run_ahead(&mut self, stretch: WordsAhead, until: Until) -> StretchEnd
        requires traced { (seen : List OfEvent) × HasTraced self.old seen }
        requires stretch { IsStretch (replayer_in self.old) stretch }
        requires some { 0 < stretch.words }
        ensures passed { (seen : List OfEvent) → HasTraced self.old seen
            → HasPassedOn until self.new seen (word_ended result) }
        ensures fewer { result ≢ StretchEnd.Before
            → events_to_trace self.new < events_to_trace self.old }
        ensures most { events_to_trace self.new ≤ events_to_trace self.old }
        ensures same { IsSame self.old self.new }
    {
        let mut stretch = stretch;
        while stretch.words > 0 {
            let Some(touch) = self.replayer.core().node(stretch.node).touch() else {
                return StretchEnd::Before;
            };
            if let Some(touch) = ending(until, touch) {
                return match self.run_to_access(&mut stretch, touch) {
                    Some(word) => StretchEnd::Ended(word),
                    None => StretchEnd::Before,
                };
            }
            if !self.replayer.make_silent_word(&mut stretch) {
                return StretchEnd::Before;
            }
        }
        StretchEnd::Through
    }

    /// Makes the next word of a stretch, which touches memory so, and says what it did.
    fn run_to_access(&mut self, stretch: &mut WordsAhead, touch: Touch) -> Option<WordPassed>
        requires traced { (seen : List OfEvent) × HasTraced self.old seen }
        requires stretch { IsStretch (replayer_in self.old) stretch.old }
        requires some { 0 < stretch.old.words }
        requires touch { IsTouch (work_traced self.old)
            ((core_of (core_in (replayer_in self.old))).nodes stretch.old.node) touch }
        ensures passed { (seen : List OfEvent) → HasTraced self.old seen
            → HasTraced self.new (seen ++ option_to_list (option_map passed_of result)) }
        ensures fewer { IfSome result (λ w. events_to_trace self.new < events_to_trace self.old) }
        ensures most { events_to_trace self.new ≤ events_to_trace self.old }
        ensures same { IsSame self.old self.new }
    {
        let node = self.replayer.core().node(stretch.node);
        let reached = reached_by_touch(node, touch)?;
        let place = place_of(node);
        let kind = self.kinds.at(node.at());
        if !self.replayer.make_silent_word(stretch) {
            return None;
        }
        let core = self.replayer.core();
        Some(WordPassed {
            stamp: core.node(stretch.node).stamp(),
            node: stretch.node,
            place,
            commits: commits(kind, Some(reached), false, false),
            access: accessed_at(core.layout(), reached),
        })
    }

    /// What the next event does, which is a word. Fails where it can't be made as the record tells
    /// of it.
    pub fn word(&mut self, node: u8) -> Result<Traced, ReplayRefused>
        requires running { IsRunning (replayer_in self.old) }
        requires kinds { HasKinds self.old }
        requires next { IsNextOf (replayer_in self.old) (Exec node) }
        ensures made { (before : List Told) → HasMade (replayer_in self.old) before
            → IfOk result (HasTracedOne self.old self.new before (Exec node)) }
        ensures same { OnOk result (IsSame self.old self.new) }
        ensures fewer { OnOk result
            (events_to_trace self.new < events_to_trace self.old) }
        ensures refused { (rule : Rules) (i entry : ℕ) → IsErrOf result (Broken rule i entry)
            → IsFirstBroken (work_traced self.old) (record_traced self.old) rule i entry }
    {
        let before = before_word(self.replayer.core().node(node), &self.kinds);
        let seen = self.replayer.make(Event::Exec(node))?;
        let core = self.replayer.core();
        let after = core.node(node);
        Ok(Traced {
            stamp: after.stamp(),
            node,
            what: What::Word(word_traced(before, seen, core.layout(), after)),
        })
    }

    /// What the next event does, which is a take. Fails where it can't be made as the record tells
    /// of it.
    pub fn take(&mut self, node: u8, from: u8) -> Result<Traced, ReplayRefused>
        requires running { IsRunning (replayer_in self.old) }
        requires next { IsNextOf (replayer_in self.old) (Take node from) }
        ensures made { (before : List Told) → HasMade (replayer_in self.old) before
            → IfOk result (HasTracedOne self.old self.new before (Take node from)) }
        ensures same { OnOk result (IsSame self.old self.new) }
        ensures fewer { OnOk result
            (events_to_trace self.new < events_to_trace self.old) }
        ensures refused { (rule : Rules) (i entry : ℕ) → IsErrOf result (Broken rule i entry)
            → IsFirstBroken (work_traced self.old) (record_traced self.old) rule i entry }
    {
        let core = self.replayer.core();
        let first = core.first(from, node);
        let block = block_in(first);
        let before = sight_of(core.node(node), core.layout(), block);
        let seen = self.replayer.make(Event::Take { node, from })?;
        let Some(incoming) = first else {
            unreachable!()
        };
        let core = self.replayer.core();
        let after = core.node(node);
        let now = sight_of(after, core.layout(), block);
        let nodes = core.layout().nodes();
        Ok(Traced {
            stamp: after.stamp(),
            node,
            what: What::Take(take_traced(from, incoming, before, seen, now, nodes)),
        })
    }
}

/// The block of a message, if there is one.
fn block_in(first: Option<Incoming>) -> Option<Block>
    ensures { result ≡ block_of_first first }
{
    match first {
        Some(incoming) => incoming.header.block,
        None => None,
    }
}
