//! A recorded run whose words are counted.

ghost use Rattle.std.specs.Prelude.{◌≡◌, ◌<◌, ◌≤◌, ◌++◌, ℕ, All, List, length, slice_index_or};
ghost use Rattle.std.specs.Prelude.{IfOk};
ghost use Rattle.check_costs.specs.declared.labels.Label.{Label as OfWord};
ghost use Rattle.check_costs.specs.Given.{IsTallyOf};
ghost use Rattle.check_costs.specs.Tally.{Executed};
ghost use Rattle.word_visits.specs.VisitTables.{visits_of};
ghost use Rattle.run_trace.specs.node_model.jump_map.Image.{number_of_word};
ghost use Rattle.run_trace.specs.Given.{what_of};
ghost use Rattle.run_trace.specs.Traced as trace;
ghost use Rattle.run_trace.specs.Tracing.{kinds_traced};
ghost use Rattle.run_costs.specs.Counting.{word_by, words_by};

use crate::RunCosts;
use crate::nodes::nodes_of;
use check_costs::elf_symbols::Symbols;
use check_costs::{Label, Tally, labels_of};
use run_trace::replay::dsm_core::{Event, Work};
use run_trace::replay::node_model::jump_map::IMAGE_BASE;
use run_trace::replay::node_model::jump_map::templates::{Code, Plan};
use run_trace::replay::run_record::Record;
use run_trace::replay::{ReplayRefused, WordsAhead};
use run_trace::{Traced, Tracer, What};
use std::alloc::{AllocError, Global};
use word_visits::Visits;

/// A recorded run that is made once more, and what its words count so far.
#[derive(Drop)]
pub(crate) struct Counting<'a> {
    tracer: Tracer<'a>,
    /// The labels of the words of rewritten code.
    labels: Vec<Label>,
    /// How often each word of rewritten code was executed in a stretch.
    visits: Visits,
    /// What the other words count.
    tally: Tally,
}

impl<'a> Counting<'a> {
    ghost use Rattle.std.specs.Prelude.{◌≡◌, ◌⊎◌, ◌<◌, ◌≤◌, ℕ, List, [], true, length, map};
    ghost use Rattle.std.specs.Prelude.{IfOk, OnOk, IsErrOf};
    ghost use Rattle.std.specs.List.{range_with_len};
    ghost use Rattle.check_costs.specs.elf_symbols.Symbols.{Symbol};
    ghost use Rattle.check_costs.specs.Tally.{tally_of};
    ghost use Rattle.run_trace.specs.node_model.Core.{Exec, Take};
    ghost use Rattle.run_trace.specs.node_model.Outcome.{counts_after};
    ghost use Rattle.run_trace.specs.node_model.jump_map.Image.{IsRewriting};
    ghost use Rattle.run_trace.specs.node_model.jump_map.templates.Code.{HasCode};
    ghost use Rattle.run_trace.specs.replay.Refusals.{IsFirstBroken, IsUnfinished};
    ghost use Rattle.run_trace.specs.replay.Way.{IsNextOf, IsStretch, IsWordLess};
    ghost use Rattle.run_trace.specs.replay.declared.refused.ReplayRule.{ReplayRule as Rules};
    ghost use Rattle.run_trace.specs.replay.declared.refused.ReplayRefused.TheVariants.{Broken};
    ghost use Rattle.run_trace.specs.replay.dsm_core.CoreParts as core;
    ghost use Rattle.run_trace.specs.replay.rewriting_law.Bounds.{RunsRewritten};
    ghost use Rattle.run_trace.specs.replay.run_record.Record.{IsRecord};
    ghost use Rattle.run_trace.specs.Traced.{Traced as OfEvent};
    ghost use Rattle.run_trace.specs.Tracing.{events_to_trace, replayer_in};
    ghost use Rattle.run_costs.specs.Costs.{next_word};
    ghost use Rattle.run_costs.specs.Counting.{HasCounted, HasCountedMore};
    ghost use Rattle.run_costs.specs.Counting.{HasGoneOn, IsFewer, IsSameRun};
    ghost use Rattle.run_costs.specs.Counting.{event_seen, words_seen};
    ghost use Rattle.run_costs.specs.Counting.{work_in, plan_in, record_in, node_in};

    /// At the start of a run.
    pub(crate) fn new(
        alloc: Global,
        work: &Work<'a>,
        plan: &'a Plan,
        code: &Code,
        rec: &'a Record,
        symbols: &Symbols<'_>,
    ) -> Result<Counting<'a>, AllocError>
        requires rewritten { RunsRewritten (core.work_in work.now) }
        requires plan { IsRewriting (core.work_in work.now).program plan.now
            (core.work_in work.now).image }
        requires code { HasCode (core.work_in work.now).program code.now }
        requires record { IsRecord rec.now }
        requires nodes { (core.work_in work.now).layout.nodes ≡ rec.now.nodes }
        ensures start { IfOk result (λ c. HasCounted symbols.now c []) }
        ensures work { IfOk result (λ c. work_in c ≡ core.work_in work.now) }
        ensures plan { IfOk result (λ c. plan_in c ≡ plan.now) }
        ensures rec { IfOk result (λ c. record_in c ≡ rec.now) }
    {
        let tracer = Tracer::new(alloc, work, plan, code, rec)?;
        Ok(Counting {
            visits: tracer.no_visits(alloc, work.image)?,
            tracer,
            labels: labels_of(alloc, symbols, code, plan)?,
            tally: Tally::new(alloc, symbols.functions().len())?,
        })
    }

    /// Makes words that only compute or access memory, as long as such words come next, and counts
    /// them. Fails where a count has no room.
    pub(crate) fn count_silent(&mut self) -> Result<(), AllocError>
        requires counted { (symbols : List Symbol) × (seen : List OfEvent)
            × HasCounted symbols self.old seen }
        ensures counted { (symbols : List Symbol) (seen : List OfEvent)
            → HasCounted symbols self.old seen
            → OnOk result (HasCountedMore symbols self.new seen) }
        ensures same { OnOk result (IsSameRun self.old self.new) }
        ensures most { OnOk result
            (events_to_trace self.new.tracer ≤ events_to_trace self.old.tracer) }
    {
        while let Some(stretch) = self.tracer.words_ahead() {
            if !self.count_stretch(stretch)? {
                return Ok(());
            }
        }
        Ok(())
    }

    /// Makes words of a stretch, as long as they only compute or access memory, and counts them. It
    /// says whether it made all. Fails where a count has no room.
    fn count_stretch(&mut self, stretch: WordsAhead) -> Result<bool, AllocError>
        requires counted { (symbols : List Symbol) × (seen : List OfEvent)
            × HasCounted symbols self.old seen }
        requires stretch { IsStretch (replayer_in self.old.tracer) stretch }
        requires some { 0 < stretch.words }
        ensures counted { (symbols : List Symbol) (seen : List OfEvent)
            → HasCounted symbols self.old seen
            → OnOk result (HasCountedMore symbols self.new seen) }
        ensures same { OnOk result (IsSameRun self.old self.new) }
        ensures most { OnOk result
            (events_to_trace self.new.tracer ≤ events_to_trace self.old.tracer) }
        ensures fewer { IfOk result (λ all. all ≡ true
            → events_to_trace self.new.tracer < events_to_trace self.old.tracer) }
    {
        let mut stretch = stretch;
        self.count_words(&mut stretch);
        while stretch.words > 0 {
            if !self.count_silent_word(&mut stretch)? {
                return Ok(false);
            }
            self.count_words(&mut stretch);
        }
        Ok(true)
    }

    /// Makes words of a stretch, as long as they only compute or access memory and tell by their
    /// numbers whether they commit, and counts them by these.
    fn count_words(&mut self, stretch: &mut WordsAhead)
        requires counted { (symbols : List Symbol) × (seen : List OfEvent)
            × HasCounted symbols self.old seen }
        requires stretch { IsStretch (replayer_in self.old.tracer) stretch.old }
        ensures counted { (symbols : List Symbol) (seen : List OfEvent)
            → HasCounted symbols self.old seen → HasCountedMore symbols self.new seen }
        ensures stretch { IsStretch (replayer_in self.new.tracer) stretch.new }
        ensures less { stretch.new.words ≤ stretch.old.words }
        ensures fewer { stretch.new.words < stretch.old.words
            → events_to_trace self.new.tracer < events_to_trace self.old.tracer }
        ensures most { events_to_trace self.new.tracer ≤ events_to_trace self.old.tracer }
        ensures same { IsSameRun self.old self.new }
    {
        self.tracer.make_silent_words(stretch, &mut self.visits);
    }

    /// Makes the next word of a stretch and counts it, where all that it does is to compute or to
    /// access memory; else it makes none. It says whether it did. Fails where a count has no room.
    #[inline(always)]
    fn count_silent_word(&mut self, stretch: &mut WordsAhead) -> Result<bool, AllocError>
        requires counted { (symbols : List Symbol) × (seen : List OfEvent)
            × HasCounted symbols self.old seen }
        requires stretch { IsStretch (replayer_in self.old.tracer) stretch.old }
        requires some { 0 < stretch.old.words }
        ensures counted { (symbols : List Symbol) (seen : List OfEvent)
            → HasCounted symbols self.old seen
            → OnOk result (HasCountedMore symbols self.new seen) }
        ensures stretch { IfOk result (λ made. made ≡ true
            → IsStretch (replayer_in self.new.tracer) stretch.new) }
        ensures less { IfOk result (λ made. made ≡ true
            → IsWordLess stretch.old stretch.new) }
        ensures same { OnOk result (IsSameRun self.old self.new) }
        ensures most { OnOk result
            (events_to_trace self.new.tracer ≤ events_to_trace self.old.tracer) }
        ensures fewer { IfOk result (λ made. made ≡ true
            → events_to_trace self.new.tracer < events_to_trace self.old.tracer) }
    {
        let label = self.next_label(stretch.node);
        let Some(commits) = self.tracer.make_silent_word(stretch) else {
            return Ok(false);
        };
        self.tally.add(label, commits)?;
        Ok(true)
    }

    /// The label of the word that a node executes next.
    #[inline(always)]
    fn next_label(&self, node: u8) -> Label
        requires counted { (symbols : List Symbol) × (seen : List OfEvent)
            × HasCounted symbols self.now seen }
        requires node { node < (work_in self.now).layout.nodes }
        ensures label { (symbols : List Symbol) (seen : List OfEvent)
            → HasCounted symbols self.now seen
            → result ≡ (next_word symbols (work_in self.now) (plan_in self.now)
            (node_in self.now node)).label }
        ensures function { result.function < length self.now.tally.counts.items }
    {
        label_at(&self.labels, self.tracer.core().node(node).at())
    }

    /// Makes the next event, and says whether there was one. Fails where it can't be made as the
    /// record tells of it, where a node isn't over after all, or where a count has no room.
    pub(crate) fn next(&mut self) -> Result<bool, ReplayRefused>
        requires counted { (symbols : List Symbol) × (seen : List OfEvent)
            × HasCounted symbols self.old seen }
        ensures next { (symbols : List Symbol) (seen : List OfEvent)
            → HasCounted symbols self.old seen
            → IfOk result (HasGoneOn symbols self.new seen) }
        ensures same { OnOk result (IsSameRun self.old self.new) }
        ensures fewer { IfOk result (IsFewer self.old self.new) }
        ensures refused { (rule : Rules) (node entry : ℕ)
            → IsErrOf result (Broken rule node entry)
            → IsFirstBroken (work_in self.old) (record_in self.old) rule node entry
            ⊎ IsUnfinished (work_in self.old) (record_in self.old) rule node entry }
    {
        let Some(event) = self.tracer.replayer.next() else {
            self.tracer.replayer.finish()?;
            return Ok(false);
        };
        self.make(event)?;
        Ok(true)
    }

    /// Makes the next event.
    fn make(&mut self, event: Event) -> Result<(), ReplayRefused>
        requires counted { (symbols : List Symbol) × (seen : List OfEvent)
            × HasCounted symbols self.old seen }
        requires next { IsNextOf self.old.tracer.replayer (core.event_of event) }
        ensures counted { (symbols : List Symbol) (seen : List OfEvent)
            → HasCounted symbols self.old seen
            → OnOk result (HasCountedMore symbols self.new seen) }
        ensures same { OnOk result (IsSameRun self.old self.new) }
        ensures fewer { OnOk result
            (events_to_trace self.new.tracer < events_to_trace self.old.tracer) }
        ensures refused { (rule : Rules) (i entry : ℕ) → IsErrOf result (Broken rule i entry)
            → IsFirstBroken (work_in self.old) (record_in self.old) rule i entry }
    {
        match event {
            Event::Exec(node) => self.word(node),
            Event::Take { node, from } => self.take(node, from),
        }
    }

    /// Makes the next event, which is a word, and counts it.
    fn word(&mut self, node: u8) -> Result<(), ReplayRefused>
        requires counted { (symbols : List Symbol) × (seen : List OfEvent)
            × HasCounted symbols self.old seen }
        requires next { IsNextOf self.old.tracer.replayer (Exec node) }
        ensures counted { (symbols : List Symbol) (seen : List OfEvent)
            → HasCounted symbols self.old seen
            → OnOk result (HasCountedMore symbols self.new seen) }
        ensures same { OnOk result (IsSameRun self.old self.new) }
        ensures fewer { OnOk result
            (events_to_trace self.new.tracer < events_to_trace self.old.tracer) }
        ensures refused { (rule : Rules) (i entry : ℕ) → IsErrOf result (Broken rule i entry)
            → IsFirstBroken (work_in self.old) (record_in self.old) rule i entry }
    {
        let label = self.next_label(node);
        let traced = self.tracer.word(node)?;
        self.tally.add(label, commits(&traced))?;
        Ok(())
    }

    /// Makes the next event, which is a take.
    fn take(&mut self, node: u8, from: u8) -> Result<(), ReplayRefused>
        requires counted { (symbols : List Symbol) × (seen : List OfEvent)
            × HasCounted symbols self.old seen }
        requires next { IsNextOf self.old.tracer.replayer (Take node from) }
        ensures counted { (symbols : List Symbol) (seen : List OfEvent)
            → HasCounted symbols self.old seen
            → OnOk result (HasCountedMore symbols self.new seen) }
        ensures same { OnOk result (IsSameRun self.old self.new) }
        ensures fewer { OnOk result
            (events_to_trace self.new.tracer < events_to_trace self.old.tracer) }
        ensures refused { (rule : Rules) (i entry : ℕ) → IsErrOf result (Broken rule i entry)
            → IsFirstBroken (work_in self.old) (record_in self.old) rule i entry }
    {
        self.tracer.replayer.make(Event::Take { node, from })?;
        Ok(())
    }

    /// What was counted, and what the nodes count.
    pub(crate) fn costs(self, alloc: Global) -> Result<RunCosts, AllocError>
        requires counted { (symbols : List Symbol) × (seen : List OfEvent)
            × HasCounted symbols self seen }
        ensures counts { (symbols : List Symbol) (seen : List OfEvent)
            → HasCounted symbols self.entry seen
            → IfOk result (λ c. c.counts.items ≡ tally_of (length symbols)
            (words_seen symbols (work_in self.entry) (plan_in self.entry) seen)) }
        ensures nodes { (symbols : List Symbol) (seen : List OfEvent)
            → HasCounted symbols self.entry seen
            → IfOk result (λ c. c.nodes.items
            ≡ counts_after (work_in self.entry) (map event_seen seen)) }
    {
        let nodes = nodes_of(alloc, self.tracer.replayer.core())?;
        let tally = with_visits(alloc, self.tally, &self.labels, &self.visits, &self.tracer)?;
        Ok(RunCosts {
            counts: tally.into_counts(),
            nodes,
        })
    }
}

/// A tally, with the words that visits stand for besides. Fails where a count has no room, and for
/// want of memory.
fn with_visits(
    alloc: Global,
    tally: Tally,
    labels: &[Label],
    visits: &Visits,
    tracer: &Tracer<'_>,
) -> Result<Tally, AllocError>
    requires some { 0 < length labels.now }
    requires tally { (functions : ℕ) × (words : List Executed) × IsTallyOf functions words tally
        × All (λ l. l.function ≤ functions) labels.now }
    ensures { (first : OfWord) (functions : ℕ) (words : List Executed)
        → slice_index_or labels.now 0 first ≡ first → IsTallyOf functions words tally
        → IfOk result (IsTallyOf functions
        (words ++ words_by (word_by first labels.now (kinds_traced tracer.now)) 0
        (visits_of visits.now))) }
{
    let mut tally = tally;
    let times = visits.times(alloc)?;
    for number in 0..visits.len() {
        let commits = tracer.commits_visited(number);
        tally.add_words(label_of(labels, number), times[number], commits)?;
    }
    Ok(tally)
}

/// The label of the word at an address. The first label stands for an address without one.
fn label_at(labels: &[Label], at: u32) -> Label
    requires some { 0 < length labels.now }
    ensures { (first : OfWord) → slice_index_or labels.now 0 first ≡ first
        → result ≡ slice_index_or labels.now (number_of_word at) first }
{
    label_of(labels, (at.saturating_sub(IMAGE_BASE) / 4) as usize)
}

/// The label of the word of a number. The first label stands for a number without one.
fn label_of(labels: &[Label], number: usize) -> Label
    requires some { 0 < length labels.now }
    ensures { (first : OfWord) → slice_index_or labels.now 0 first ≡ first
        → result ≡ slice_index_or labels.now number first }
{
    if number < labels.len() {
        labels[number]
    } else {
        labels[0]
    }
}

/// Whether an event commits a step of the original.
fn commits(event: &Traced) -> bool
    ensures { (w : trace.OfWord) → what_of event.now.what ≡ trace.Word w → result ≡ w.commits }
{
    match &event.what {
        What::Word(word) => word.commits,
        What::Take(_) => false,
    }
}
