//! What is looked for among the events of a page.

ghost use Rattle.std.specs.Prelude.{◌≡◌, ◌+◌, ◌≤◌, if◌then◌else◌};
ghost use Rattle.event_text.specs.node_machine.Wanted.{wanted_in};
ghost use Rattle.event_text.specs.run_trace.Given.{what_of, traced_of};
ghost use Rattle.page_events.specs.Sought as model;

use crate::shown::Shown;
use block_layout::Block;
use event_text::node_machine::{Wanted, WantedBlocks};
use event_text::run_trace::{Traced, What, is_miss};
use event_text::{block_reached, is_block};

/// What is looked for among the events of a page.
#[derive(Clone, Copy)]
pub enum Sought {
    /// The event of a node with this stamp.
    Event {
        node: u8,
        stamp: u64,
    },
    /// The node goes on, later than this stamp.
    GoesOn {
        node: u8,
        after: u64,
    },
    /// The node misses a block, before this stamp.
    Misses {
        node: u8,
        before: u64,
    },
    /// The node takes a message about a block that another sent with this stamp.
    Takes {
        node: u8,
        from: u8,
        sent: u64,
        block: Block,
    },
    /// Any event about a block.
    About(Block),
    /// A miss of a block.
    MissOf(Block),
    /// The take of a message about a block.
    TakeOf(Block),
}

/// Whether this event is looked for.
fn is_sought(sought: Sought, event: &Traced) -> bool
    ensures { result ≡ model.is_sought sought (traced_of event.now) }
{
    match sought {
        Sought::Event { node, stamp } => event.node == node && event.stamp == stamp,
        Sought::GoesOn { node, after } => {
            event.node == node && (after < event.stamp && goes_on(&event.what))
        }
        Sought::Misses { node, before } => {
            event.node == node && (event.stamp < before && is_miss(&event.what))
        }
        Sought::Takes {
            node,
            from,
            sent,
            block,
        } => event.node == node && is_take_from(from, sent, block, &event.what),
        Sought::About(block) => is_about(block, &event.what),
        Sought::MissOf(block) => is_miss_of(block, &event.what),
        Sought::TakeOf(block) => is_take_of(block, &event.what),
    }
}

/// Whether the node waits no more.
pub fn goes_on(what: &What) -> bool
    ensures { result ≡ model.goes_on (what_of what.now) }
{
    match what {
        What::Word(_) => false,
        What::Take(take) => take.resumes,
    }
}

/// Whether a message about a block is taken that a node sent with this stamp.
fn is_take_from(from: u8, sent: u64, block: Block, what: &What) -> bool
    ensures { result ≡ model.is_take_from from sent block (what_of what.now) }
{
    match what {
        What::Word(_) => false,
        What::Take(take) => {
            take.from == from && (take.sent == sent && is_block(block, take.message.block))
        }
    }
}

/// Whether an event is about a block.
fn is_about(block: Block, what: &What) -> bool
    ensures { result ≡ model.is_about block (what_of what.now) }
{
    is_block(block, first_block(what)) || is_block(block, other_block(what))
}

/// The block that an event is about, if there is one.
pub fn first_block(what: &What) -> Option<Block>
    ensures { result ≡ model.first_block (what_of what.now) }
{
    match what {
        What::Word(word) => match &word.wants {
            Some(wants) => wants.first.block,
            None => block_reached(word.access),
        },
        What::Take(take) => take.message.block,
    }
}

/// The other block that an event is about, if there are two.
pub fn other_block(what: &What) -> Option<Block>
    ensures { result ≡ model.other_block (what_of what.now) }
{
    match what {
        What::Word(word) => match &word.wants {
            Some(wants) => block_wanted(wants.other),
            None => None,
        },
        What::Take(_) => None,
    }
}

/// The block that is wanted.
fn block_wanted(want: Option<Wanted>) -> Option<Block>
    ensures { result ≡ model.block_wanted want }
{
    match want {
        Some(want) => want.block,
        None => None,
    }
}

/// Whether a word misses a block.
fn is_miss_of(block: Block, what: &What) -> bool
    ensures { result ≡ model.is_miss_of block (what_of what.now) }
{
    match what {
        What::Word(word) => one_asks_for(block, &word.wants),
        What::Take(_) => false,
    }
}

/// Whether one of the wants asks for this block.
fn one_asks_for(block: Block, wants: &Option<WantedBlocks>) -> bool
    ensures { result ≡ model.one_asks_for block (wanted_in wants.now) }
{
    match wants {
        Some(wants) => {
            asks_for(block, wants.first)
                || match wants.other {
                    Some(other) => asks_for(block, other),
                    None => false,
                }
        }
        None => false,
    }
}

/// Whether a want asks for this block.
fn asks_for(block: Block, want: Wanted) -> bool
    ensures { result ≡ model.asks_for block want }
{
    want.asks && is_block(block, want.block)
}

/// Whether a message about a block is taken.
fn is_take_of(block: Block, what: &What) -> bool
    ensures { result ≡ model.is_take_of block (what_of what.now) }
{
    match what {
        What::Word(_) => false,
        What::Take(take) => is_block(block, take.message.block),
    }
}

/// The row of the first event that is looked for. None where the page has none.
pub fn row_of(shown: &Shown, sought: Sought) -> Option<u16>
    ensures { result ≡ model.row_of shown.now.events sought }
{
    let mut row = 0;
    for event in shown.events() {
        if is_sought(sought, event) {
            return Some(row);
        }
        row += 1;
    }
    None
}

/// A count, with one more where this holds.
fn counted(count: u32, holds: bool) -> u32
    requires few { count ≤ 400 }
    ensures { result ≡ (if holds then count + 1 else count) }
{
    if holds { count + 1 } else { count }
}

/// How many of the events are looked for.
pub fn count_of(shown: &Shown, sought: Sought) -> u32
    ensures { result ≡ model.count_of shown.now.events sought }
{
    let mut count = 0;
    for event in shown.events() {
        count = counted(count, is_sought(sought, event));
    }
    count
}
