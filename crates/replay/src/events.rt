//! Makes the events that a record tells of.

use crate::cursor::{Cursors, First};
use crate::refused::{ReplayRefused, ReplayRule};
use dsm_core::node_machine::node_words::WordLoop;
use dsm_core::{Core, Event, Outcome, Seen, Work};
use run_order::node_model::{Entry, Standing};
use run_record::Record;
use std::alloc::{AllocError, Global};

/// Words of one node that come before the events of all others.
#[derive(Clone, Copy)]
pub struct WordsAhead {
    pub node: u8,
    /// How many they are.
    pub words: u64,
    /// The entry of the node's journal that tells of them.
    pub(crate) entry: Entry,
}

/// A recorded run that is made once more: a core, and how far the journals of a record were
/// followed to it.
#[derive(Drop)]
pub struct Replayer<'a> {
    core: Core<'a>,
    cursors: Cursors<'a>,
}

impl<'a> Replayer<'a> {
    ghost use Rattle.std.specs.Prelude.{◌≡◌, ◌≤◌, ◌<◌, ◌+◌, ◌↔◌, ℕ, true, length, IfOk, OnOk};
    ghost use Rattle.std.specs.Prelude.{false, IfSome};
    ghost use Rattle.std.specs.Prelude.{IsErrOf, MatchOption, List, []};
    ghost use Rattle.run_order.specs.node_model.Core.{Exec, Take, May, IsOver};
    ghost use Rattle.dsm_core.specs.rewriting_law.Bounds.{RunsRewritten};
    ghost use Rattle.dsm_core.specs.CoreParts.{work_in, work_of, core_of, outcome_of};
    ghost use Rattle.dsm_core.specs.CoreParts.{event_of};
    ghost use Rattle.dsm_core.specs.CoreWords.{HasPassedWords};
    ghost use Rattle.dsm_core.specs.node_machine.jump_map.Image.{Cell};
    ghost use Rattle.run_record.specs.Record.{IsRecord};
    ghost use Rattle.replay.specs.Refusals.{IsFirstBroken, IsUnfinished};
    ghost use Rattle.replay.specs.Replay.{IsReplay, TellsWholeRun};
    ghost use Rattle.replay.specs.Way.{IsRunning, AreThrough, IsSame, IsEntryOf, IsFirst};
    ghost use Rattle.replay.specs.Way.{ComesFirst, HasFollowed, cursor_at, last_at, entries_at};
    ghost use Rattle.replay.specs.Way.{all_left, HasMade, HasMadeOne, IsNextOf, IsNextWord};
    ghost use Rattle.replay.specs.Way.{IsNextTake, HasMadeWord, HasMadeWords, IsStretch};
    ghost use Rattle.replay.specs.Way.{IsLessBy, IsWordLess};
    ghost use Rattle.replay.specs.Way.{core_in, record_in, events_left};
    ghost use Rattle.replay.specs.Told.{Told};
    ghost use Rattle.replay.specs.declared.refused.ReplayRule.{ReplayRule as Rules};
    ghost use Rattle.replay.specs.declared.refused.ReplayRule.TheVariants.{NotThere};
    ghost use Rattle.replay.specs.declared.refused.ReplayRefused.TheVariants.{Broken};

    /// The core at the start, and the journals at theirs.
    pub fn new(alloc: Global, work: &Work<'a>, rec: &'a Record) -> Result<Replayer<'a>, AllocError>
        requires rewritten { RunsRewritten (work_in work.now) }
        requires record { IsRecord rec.now }
        requires nodes { (work_in work.now).layout.nodes ≡ rec.now.nodes }
        ensures running { IfOk result IsRunning }
        ensures made { IfOk result (λ r. HasMade r []) }
        ensures work { IfOk result (λ r. work_of (core_in r) ≡ work_in work.now) }
        ensures rec { IfOk result (λ r. record_in r ≡ rec.now) }
    {
        let core = Core::new(alloc, work)?;
        let cursors = Cursors::new(rec);
        Ok(Replayer { core, cursors })
    }

    /// The core, as the events made so far have left it.
    pub fn core(&self) -> &Core<'a>
        ensures value { result.now ≡ core_in self.now }
    {
        &self.core
    }

    /// The event that the record tells of next.
    pub fn next(&self) -> Option<Event>
        requires running { IsRunning self.now }
        ensures { MatchOption result (AreThrough self.now)
            (λ event. IsNextOf self.now (event_of event)) }
    {
        let node = self.cursors.first()?.node;
        let Some(entry) = self.cursors.entry(node) else {
            unreachable!()
        };
        if self.cursors.at(node).words < entry.words {
            return Some(Event::Exec(node));
        }
        Some(Event::Take {
            node,
            from: entry.from,
        })
    }

    /// Makes the event that the record tells of next, and tells what it sends and wants. Fails
    /// where it can't be made as it is told of.
    pub fn make(&mut self, event: Event) -> Result<Seen, ReplayRefused>
        requires running { IsRunning self.old }
        requires next { IsNextOf self.old (event_of event) }
        ensures made { (before : List Told) → HasMade self.old before → IfOk result
            (HasMadeOne self.old self.new before (event_of event)) }
        ensures same { OnOk result (IsSame self.old self.new) }
        ensures fewer { OnOk result (events_left self.new < events_left self.old) }
        ensures refused { (rule : Rules) (i entry : ℕ)
            → IsErrOf result (Broken rule i entry)
            → IsFirstBroken (work_of (core_in self.old)) (record_in self.old) rule i entry }
    {
        match event {
            Event::Exec(node) => self.make_word(node),
            Event::Take { node, from } => self.make_take(node, from),
        }
    }

    /// The words that the record tells of next, where its next event is a word and the node may
    /// execute it: those that come before the events of all other nodes. They are at least one.
    pub fn words_ahead(&self) -> Option<WordsAhead>
        requires running { IsRunning self.now }
        ensures words { IfSome result (IsStretch self.now) }
        ensures some { IfSome result (λ s. 0 < s.words) }
    {
        let first = self.cursors.first()?;
        let node = first.node;
        let Some(entry) = self.cursors.entry(node) else {
            unreachable!()
        };
        let cursor = self.cursors.at(node);
        if cursor.words >= entry.words || !self.core.enabled(Event::Exec(node)) {
            return None;
        }
        Some(WordsAhead {
            node,
            words: (entry.words - cursor.words).min(first.to - cursor.last),
            entry,
        })
    }

    /// Makes the next word of a stretch by its micro-op, where that serves it: such a word sends
    /// nothing and prints nothing. It says whether it did; where it didn't, nothing has changed.
    #[inline(always)]
    pub fn make_silent_word(&mut self, stretch: &mut WordsAhead) -> bool
        requires running { IsRunning self.old }
        requires stretch { IsStretch self.old stretch.old }
        requires some { 0 < stretch.old.words }
        ensures passed { (before : List Told) → HasMade self.old before → result ≡ true
            → HasMadeWord self.old self.new before stretch.old.node }
        ensures stretch { result ≡ true → IsStretch self.new stretch.new }
        ensures fewer { result ≡ true → events_left self.new < events_left self.old }
        ensures left { result ≡ true → IsWordLess stretch.old stretch.new }
        ensures kept { result ≡ false → (before : List Told) → HasMade self.old before
            → HasMade self.new before }
        ensures same { IsSame self.old self.new }
    {
        if !self.core.exec_silent(stretch.node) {
            return false;
        }
        self.cursors.follow_word(stretch.node, stretch.entry);
        stretch.words -= 1;
        true
    }

    /// Makes words of a stretch by a loop, as long as they print nothing and send nothing, and the
    /// node may execute another after them. It gives how many.
    pub fn make_silent_words<L: WordLoop>(&mut self, stretch: &mut WordsAhead, by: &mut L) -> u64
        requires running { IsRunning self.old }
        requires stretch { IsStretch self.old stretch.old }
        requires goes_over { L.goes_over (work_of (core_in self.old)).image by.old }
        ensures made { (before : List Told) → HasMade self.old before
            → HasMadeWords self.new before stretch.old.node result }
        ensures passed { HasPassedWords (work_of (core_in self.old)) stretch.old.node result
            (core_of (core_in self.old)) (core_of (core_in self.new)) }
        ensures learns { L.learns (work_of (core_in self.old)) result
            ((core_of (core_in self.old)).nodes stretch.old.node) by.old by.new }
        ensures stays { (image : List Cell) → L.goes_over image by.old
            → L.goes_over image by.new }
        ensures stretch { IsStretch self.new stretch.new }
        ensures left { IsLessBy result stretch.old stretch.new }
        ensures fewer { 0 < result → events_left self.new < events_left self.old }
        ensures most { events_left self.new ≤ events_left self.old }
        ensures same { IsSame self.old self.new }
    {
        let words = self.core.run_by(stretch.node, by, stretch.words);
        self.cursors
            .follow_words(stretch.node, stretch.entry, words);
        stretch.words -= words;
        words
    }

    /// Makes the next event, which is a word.
    fn make_word(&mut self, node: u8) -> Result<Seen, ReplayRefused>
        requires running { IsRunning self.old }
        requires next { IsNextWord self.old.cursors node }
        ensures made { (before : List Told) → HasMade self.old before → IfOk result
            (HasMadeOne self.old self.new before (Exec node)) }
        ensures same { OnOk result (IsSame self.old self.new) }
        ensures fewer { OnOk result (events_left self.new < events_left self.old) }
        ensures refused { (rule : Rules) (i entry : ℕ)
            → IsErrOf result (Broken rule i entry) → IsFirstBroken (work_of self.old.core)
            self.old.cursors.rec.now rule i entry }
    {
        let Some(entry) = self.cursors.entry(node) else {
            unreachable!()
        };
        if !self.core.enabled(Event::Exec(node)) {
            return Err(self.broken(ReplayRule::NotThere, node));
        }
        let seen = self.core.step_seen(Event::Exec(node))?;
        self.cursors.follow_word(node, entry);
        Ok(seen)
    }

    /// Makes the next event, which is a take.
    fn make_take(&mut self, node: u8, from: u8) -> Result<Seen, ReplayRefused>
        requires running { IsRunning self.old }
        requires next { IsNextTake self.old.cursors node from }
        ensures made { (before : List Told) → HasMade self.old before → IfOk result
            (HasMadeOne self.old self.new before (Take node from)) }
        ensures same { OnOk result (IsSame self.old self.new) }
        ensures fewer { OnOk result (events_left self.new < events_left self.old) }
        ensures refused { (rule : Rules) (i entry : ℕ)
            → IsErrOf result (Broken rule i entry) → IsFirstBroken (work_of self.old.core)
            self.old.cursors.rec.now rule i entry }
    {
        let Some(entry) = self.cursors.entry(node) else {
            unreachable!()
        };
        self.take(node, entry)
    }

    /// Makes all events, by (stamp, node). Fails with the first that can't be made as it is told
    /// of.
    pub(crate) fn make_all(&mut self) -> Result<(), ReplayRefused>
        requires running { IsRunning self.old }
        ensures running { OnOk result (IsRunning self.new) }
        ensures through { OnOk result (AreThrough self.new) }
        ensures same { OnOk result (IsSame self.old self.new) }
        ensures refused { (rule : Rules) (node entry : ℕ)
            → IsErrOf result (Broken rule node entry) → IsFirstBroken (work_of self.old.core)
            self.old.cursors.rec.now rule node entry }
    {
        while let Some(first) = self.cursors.first() {
            self.make_first(first)?;
        }
        Ok(())
    }

    /// Makes the next event of the node that comes first, and more of its words that do.
    fn make_first(&mut self, first: First) -> Result<(), ReplayRefused>
        requires running { IsRunning self.old }
        requires first { IsFirst self.old.cursors self.old.cursors.rec.now.nodes first }
        ensures running { OnOk result (IsRunning self.new) }
        ensures fewer { OnOk result (all_left self.new.cursors < all_left self.old.cursors) }
        ensures same { OnOk result (IsSame self.old self.new) }
        ensures refused { (rule : Rules) (i entry : ℕ)
            → IsErrOf result (Broken rule i entry) → IsFirstBroken (work_of self.old.core)
            self.old.cursors.rec.now rule i entry }
    {
        let node = first.node;
        let Some(entry) = self.cursors.entry(node) else {
            unreachable!()
        };
        let cursor = self.cursors.at(node);
        if cursor.words < entry.words {
            let words = (entry.words - cursor.words).min(first.to - cursor.last);
            return self.execute(node, entry, words);
        }
        self.take(node, entry)?;
        Ok(())
    }

    /// A node executes `words` words of an entry, which come before the events of all others.
    fn execute(&mut self, node: u8, entry: Entry, words: u64) -> Result<(), ReplayRefused>
        requires running { IsRunning self.old }
        requires node { node < self.old.cursors.rec.now.nodes }
        requires entry { IsEntryOf self.old.cursors node entry }
        requires words { (cursor_at self.old.cursors node).words + words ≤ entry.words }
        requires first { ComesFirst self.old.cursors self.old.cursors.rec.now.nodes
            (last_at self.old.cursors node + words) node }
        ensures running { OnOk result (IsRunning self.new) }
        ensures followed { let c = cursor_at self.old.cursors node in OnOk result (HasFollowed
            self.old.cursors node
            (record { takes = c.takes; words = c.words + words; last = c.last + words })
            self.new.cursors) }
        ensures same { OnOk result (IsSame self.old self.new) }
        ensures refused { (rule : Rules) (i number : ℕ)
            → IsErrOf result (Broken rule i number) → IsFirstBroken (work_of self.old.core)
            self.old.cursors.rec.now rule i number }
    {
        let mut may = self.core.enabled(Event::Exec(node));
        let mut made = 0;
        while made < words {
            if !may {
                return Err(self.broken(ReplayRule::NotThere, node));
            }
            made += self.silent_words(node, entry, words - made);
            if made < words {
                may = self.word(node, entry)?;
                made += 1;
            }
        }
        Ok(())
    }

    /// A node executes words of an entry, which come before the events of all others, as long as
    /// they print nothing and send nothing, at most `most`. It gives how many.
    fn silent_words(&mut self, node: u8, entry: Entry, most: u64) -> u64
        requires running { IsRunning self.old }
        requires node { node < self.old.cursors.rec.now.nodes }
        requires entry { IsEntryOf self.old.cursors node entry }
        requires words { (cursor_at self.old.cursors node).words + most ≤ entry.words }
        requires first { ComesFirst self.old.cursors self.old.cursors.rec.now.nodes
            (last_at self.old.cursors node + most) node }
        requires may { May (work_of self.old.core) (core_of self.old.core) (Exec node) }
        ensures running { IsRunning self.new }
        ensures followed { let c = cursor_at self.old.cursors node in HasFollowed
            self.old.cursors node
            (record { takes = c.takes; words = c.words + result; last = c.last + result })
            self.new.cursors }
        ensures same { IsSame self.old self.new }
        ensures most { result ≤ most }
        ensures may { May (work_of self.new.core) (core_of self.new.core) (Exec node) }
    {
        let words = self.core.run_silent(node, most);
        self.cursors.follow_words(node, entry, words);
        words
    }

    /// A node executes a word of an entry, which comes before the events of all others, and whether
    /// it may execute another.
    fn word(&mut self, node: u8, entry: Entry) -> Result<bool, AllocError>
        requires running { IsRunning self.old }
        requires node { node < self.old.cursors.rec.now.nodes }
        requires entry { IsEntryOf self.old.cursors node entry }
        requires word { (cursor_at self.old.cursors node).words < entry.words }
        requires first { ComesFirst self.old.cursors self.old.cursors.rec.now.nodes
            (last_at self.old.cursors node + 1) node }
        requires may { May (work_of self.old.core) (core_of self.old.core) (Exec node) }
        ensures running { IfOk result (λ _. IsRunning self.new) }
        ensures followed { let c = cursor_at self.old.cursors node in IfOk result (λ _. HasFollowed
            self.old.cursors node
            (record { takes = c.takes; words = c.words + 1; last = c.last + 1 })
            self.new.cursors) }
        ensures same { IfOk result (λ _. IsSame self.old self.new) }
        ensures may { IfOk result (λ may. (may ≡ true)
            ↔ May (work_of self.new.core) (core_of self.new.core) (Exec node)) }
    {
        if self.core.exec_silent(node) {
            self.cursors.follow_word(node, entry);
            return Ok(true);
        }
        self.core.step(Event::Exec(node))?;
        self.cursors.follow_word(node, entry);
        Ok(self.core.enabled(Event::Exec(node)))
    }

    /// A node makes the take of an entry, which comes before the events of all others.
    fn take(&mut self, node: u8, entry: Entry) -> Result<Seen, ReplayRefused>
        requires running { IsRunning self.old }
        requires node { node < self.old.cursors.rec.now.nodes }
        requires entry { IsEntryOf self.old.cursors node entry }
        requires words { entry.words ≤ (cursor_at self.old.cursors node).words }
        requires first { ComesFirst self.old.cursors self.old.cursors.rec.now.nodes
            entry.stamp node }
        ensures running { OnOk result (IsRunning self.new) }
        ensures made { (before : List Told) → HasMade self.old before → IfOk result
            (HasMadeOne self.old self.new before (Take node entry.from)) }
        ensures followed { let c = cursor_at self.old.cursors node in OnOk result (HasFollowed
            self.old.cursors node
            (record { takes = c.takes + 1; words = 0; last = entry.stamp })
            self.new.cursors) }
        ensures same { OnOk result (IsSame self.old self.new) }
        ensures refused { (rule : Rules) (i number : ℕ)
            → IsErrOf result (Broken rule i number) → IsFirstBroken (work_of self.old.core)
            self.old.cursors.rec.now rule i number }
    {
        let from = entry.from;
        if !self.core.has_wire(from, node) {
            return Err(self.broken(ReplayRule::NoMessage, node));
        }
        if !self.core.enabled(Event::Take { node, from }) {
            return Err(self.broken(ReplayRule::NotThere, node));
        }
        let seen = self.core.step_seen(Event::Take { node, from })?;
        if self.core.node(node).stamp() != entry.stamp {
            return Err(self.broken(ReplayRule::Stamp, node));
        }
        self.cursors.follow_take(node, entry);
        Ok(seen)
    }

    /// The refusal of a node's next event.
    fn broken(&self, rule: ReplayRule, node: u8) -> ReplayRefused
        requires record { IsRecord self.now.cursors.rec.now }
        requires node { node < self.now.cursors.rec.now.nodes }
        requires left { (cursor_at self.now.cursors node).takes
            < length (entries_at self.now.cursors node) }
        ensures value { result
            ≡ Broken rule node ((cursor_at self.now.cursors node).takes + 1) }
    {
        ReplayRefused::Broken {
            rule,
            node,
            entry: self.cursors.number(node),
        }
    }

    /// Looks whether each node is over, where all events were made. Fails with the least node that
    /// isn't.
    pub fn finish(&self) -> Result<(), ReplayRefused>
        requires running { IsRunning self.now }
        requires through { AreThrough self.now }
        ensures whole { (before : List Told) → HasMade self.now before → OnOk result
            (TellsWholeRun (work_of (core_in self.now)) (record_in self.now) before) }
        ensures over { OnOk result
            (IsOver (work_of (core_in self.now)) (core_of (core_in self.now))) }
        ensures refused { (rule : Rules) (node entry : ℕ)
            → IsErrOf result (Broken rule node entry)
            → IsUnfinished (work_of (core_in self.now)) (record_in self.now) rule node entry }
    {
        for node in 0..self.core.layout().nodes() {
            let Standing::Over = self.core.node(node).standing() else {
                return Err(self.unfinished(node));
            };
        }
        Ok(())
    }

    /// What the core gives, where all events were made. Fails with the least node that isn't over.
    pub(crate) fn outcome(&self, alloc: Global) -> Result<Outcome, ReplayRefused>
        requires running { IsRunning self.now }
        requires through { AreThrough self.now }
        ensures ok { IfOk result (λ o. IsReplay (work_of self.now.core)
            self.now.cursors.rec.now (outcome_of o)) }
        ensures refused { (rule : Rules) (node entry : ℕ)
            → IsErrOf result (Broken rule node entry) → IsUnfinished (work_of self.now.core)
            self.now.cursors.rec.now rule node entry }
    {
        self.finish()?;
        Ok(self.core.outcome(alloc)?)
    }

    /// The refusal of a node whose journal ends too early.
    fn unfinished(&self, node: u8) -> ReplayRefused
        requires record { IsRecord self.now.cursors.rec.now }
        requires node { node < self.now.cursors.rec.now.nodes }
        ensures value { result
            ≡ Broken NotThere node (length (entries_at self.now.cursors node) + 1) }
    {
        ReplayRefused::Broken {
            rule: ReplayRule::NotThere,
            node,
            entry: self.cursors.journal(node).len() + 1,
        }
    }
}
