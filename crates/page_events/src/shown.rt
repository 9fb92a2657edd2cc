//! The events that a page shows.

ghost use Rattle.std.specs.Prelude.{◌≡◌, ◌≤◌, List, map, length};
ghost use Rattle.event_text.specs.run_trace.Given.{traced_of};
ghost use Rattle.event_text.specs.run_trace.Passing.{passed_of};
ghost use Rattle.page_events.specs.Shown as model;

use dsm_messages::Headers;
use event_text::run_trace::{Tallied, Traced, What, WordPassed, WordTraced};
use std::alloc::{AllocError, Global};
use std::marker::Model;

/// How many events a page shows at most.
const MOST: usize = 400;

/// The first 400 of the events that were added, and the stamp of the one after them, if there is
/// one: of all others nothing is kept.
#[derive(Drop)]
pub struct Shown {
    events: Vec<Traced>,
    behind: Option<u64>,
}

impl Model for Shown {
    ghost use Rattle.std.specs.Prelude.{◌≤◌, map, length};
    ghost use Rattle.event_text.specs.run_trace.Given.{traced_of};
    ghost use Rattle.page_events.specs.Shown.{Kept};

    ghost Value = { Kept };

    ghost view = { λ s. record { events = map traced_of s.events.items; behind = s.behind } };

    ghost invariant = { λ s. length s.events.items ≤ 400 };
}

impl Shown {
    ghost use Rattle.std.specs.Prelude.{◌≡◌, ◌≤◌, ◌++◌, [], ◌∷◌, List, map, length, OnOk};
    ghost use Rattle.std.specs.Prelude.{true, is_some};
    ghost use Rattle.event_text.specs.run_trace.Given.{traced_of};
    ghost use Rattle.event_text.specs.run_trace.Passing.{passed_of};
    ghost use Rattle.event_text.specs.run_trace.Traced.{Traced as OfEvent};
    ghost use Rattle.page_events.specs.Shown.{kept};

    /// No event.
    pub fn new(alloc: Global) -> Shown
        ensures { result ≡ kept [] }
    {
        Shown {
            events: Vec::new(alloc),
            behind: None,
        }
    }

    /// One event more.
    pub fn add(&mut self, event: Traced) -> Result<(), AllocError>
        ensures { (seen : List OfEvent) → self.old ≡ kept seen
            → OnOk result (self.new ≡ kept (seen ++ traced_of event ∷ [])) }
    {
        if self.events.len() < MOST {
            self.events.push(event)?;
        } else if self.behind.is_none() {
            self.behind = Some(event.stamp);
        }
        Ok(())
    }

    /// One word more, which only accesses memory.
    pub fn add_passed(&mut self, word: &WordPassed) -> Result<(), AllocError>
        ensures { (seen : List OfEvent) → self.old ≡ kept seen
            → OnOk result (self.new ≡ kept (seen ++ passed_of word.now ∷ [])) }
    {
        self.add(event_of(word))
    }

    /// Whether the first 400 are there and one is after them: of what is added from here on
    /// nothing is kept.
    pub fn is_full(&self) -> bool
        ensures value { result ≡ is_some self.now.behind }
        ensures full { result ≡ true → (seen more : List OfEvent) → self.now ≡ kept seen
            → kept (seen ++ more) ≡ kept seen }
    {
        self.behind.is_some()
    }

    /// The events.
    pub fn events(&self) -> &[Traced]
        ensures events { map traced_of result.now ≡ self.now.events }
        ensures few { length result.now ≤ 400 }
    {
        &self.events
    }

    /// How many events.
    pub fn count(&self) -> u32
        ensures value { result ≡ length self.now.events }
        ensures few { result ≤ 400 }
    {
        self.events.len() as u32
    }

    /// The stamp of the first event after them.
    pub fn behind(&self) -> Option<u64>
        ensures { result ≡ self.now.behind }
    {
        self.behind
    }
}

/// A word that only accesses memory, as an event.
fn event_of(word: &WordPassed) -> Traced
    ensures { traced_of result ≡ passed_of word.now }
{
    Traced {
        stamp: word.stamp,
        node: word.node,
        what: What::Word(WordTraced {
            place: word.place,
            commits: word.commits,
            access: Some(word.access),
            wants: None,
            tally: Tallied::Nothing,
            printed: None,
            sends: Headers::new(),
            end: None,
        }),
    }
}
