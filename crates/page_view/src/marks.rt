//! What is drawn on a node's line at an event of its own.

ghost use Rattle.std.specs.Prelude.{◌≡◌, ◌++◌, OnOk};
ghost use Rattle.page_events.specs.node_machine.Wanted.{wanted_in};
ghost use Rattle.page_events.specs.run_trace.Given.{what_of};
ghost use Rattle.page_view.specs.Marks as model;

use page_events::node_machine::{Wanted, WantedBlocks};
use page_events::run_trace::{AccessKind, Accessed, What};
use page_events::{Spot, push_at};
use state_table::State;
use std::alloc::AllocError;

/// What is drawn on a node's line at an event of its own.
#[derive(Clone, Copy)]
pub(crate) enum Mark {
    /// A box with the letter of the state that a block has now.
    Holds(State),
    /// A ring around the box of the state in which a block is missed.
    Misses(State),
    /// An open dot, and a full one.
    Reads,
    Writes,
    /// A dash, where no block is shown.
    Acts,
}

/// The mark of an event.
pub(crate) fn mark_of(what: &What) -> Mark
    ensures { result ≡ model.mark_of (what_of what.now) }
{
    match what {
        What::Word(word) => mark_of_word(&word.wants, word.access),
        What::Take(take) => match take.becomes {
            Some(state) => Mark::Holds(state),
            None => Mark::Acts,
        },
    }
}

/// The mark of a word: of its first want, else of its access.
fn mark_of_word(wants: &Option<WantedBlocks>, access: Option<Accessed>) -> Mark
    ensures { result ≡ model.mark_of_word (wanted_in wants.now) access }
{
    match wants {
        Some(wants) => mark_of_want(&wants.first),
        None => mark_of_access(access),
    }
}

/// The mark of a want.
fn mark_of_want(want: &Wanted) -> Mark
    ensures { result ≡ model.mark_of_want want.now }
{
    match want.state {
        Some(state) if want.asks => Mark::Misses(state),
        Some(state) => Mark::Holds(state),
        None => Mark::Acts,
    }
}

/// The mark of an access.
fn mark_of_access(access: Option<Accessed>) -> Mark
    ensures { result ≡ model.mark_of_access access }
{
    match access {
        Some(accessed) => match accessed.kind {
            AccessKind::Reads => Mark::Reads,
            AccessKind::Writes | AccessKind::Exchanges => Mark::Writes,
            AccessKind::WritesNot => Mark::Acts,
        },
        None => Mark::Acts,
    }
}

/// Appends the drawing of a mark.
pub(crate) fn push_mark(out: &mut Vec<u8>, mark: Mark, spot: Spot) -> Result<(), AllocError>
    ensures { OnOk result (out.new.items ≡ out.old.items ++ model.mark_text mark spot) }
{
    out.extend_from_slice(b"<use href='#")?;
    out.extend_from_slice(mark_name(mark))?;
    out.extend_from_slice(b"'")?;
    push_at(out, spot)?;
    out.extend_from_slice(b"/>")
}

/// The name of a mark's drawing.
fn mark_name(mark: Mark) -> &'static [u8]
    ensures { result.now ≡ model.mark_name mark }
{
    match mark {
        Mark::Holds(State::Exclusive) => b"e",
        Mark::Holds(State::Shared) => b"s",
        Mark::Holds(State::Invalid) => b"i",
        Mark::Holds(State::Pending) => b"p",
        Mark::Misses(State::Exclusive) => b"miss-e",
        Mark::Misses(State::Shared) => b"miss-s",
        Mark::Misses(State::Invalid) => b"miss-i",
        Mark::Misses(State::Pending) => b"miss-p",
        Mark::Reads => b"reads",
        Mark::Writes => b"writes",
        Mark::Acts => b"acts",
    }
}
