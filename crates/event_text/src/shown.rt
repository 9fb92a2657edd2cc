//! Which events of a trace have a line.

ghost use Rattle.std.specs.Prelude.{◌≡◌, ◌++◌, OnOk, true};
ghost use Rattle.std.specs.Option.{option_map_or};
ghost use Rattle.run_trace.specs.node_machine.Wanted.{wanted_in};
ghost use Rattle.run_trace.specs.Given.{word_of, what_of, traced_of};
ghost use Rattle.run_trace.specs.Passing.{passed_of};
ghost use Rattle.event_text.specs.Shown as model;

use block_layout::Block;
use run_trace::node_machine::WantedBlocks;
use run_trace::{Accessed, Traced, What, WordPassed, WordTraced};
use std::alloc::AllocError;

/// Which events are asked for.
#[derive(Clone, Copy)]
pub struct EventFilter {
    /// The first and the last stamp.
    pub from: u64,
    pub to: u64,
    /// One node's, or those of all.
    pub node: Option<u8>,
    /// Those about one block, or about any or none.
    pub block: Option<Block>,
    /// Words too that access no shared memory, want nothing, print nothing and don't end.
    pub words: bool,
}

/// Whether an event has a line.
pub fn is_shown(options: &EventFilter, event: &Traced) -> bool
    ensures { result ≡ model.is_shown options.now (traced_of event.now) }
{
    options.from <= event.stamp
        && event.stamp <= options.to
        && is_of_node(options.node, event.node)
        && is_about_any(options.block, &event.what)
        && is_of_kind(options.words, &event.what)
}

/// Whether a word that only accesses memory has a line.
pub fn is_passed_shown(options: &EventFilter, word: &WordPassed) -> bool
    ensures { result ≡ model.is_shown options.now (passed_of word.now) }
{
    options.from <= word.stamp
        && word.stamp <= options.to
        && is_of_node(options.node, word.node)
        && accesses_any(options.block, word.access.block)
        && (options.words || word.access.block.is_some())
}

/// Whether a block is accessed, where one is asked for.
fn accesses_any(block: Option<Block>, of: Option<Block>) -> bool
    ensures { result ≡ option_map_or (λ b. model.is_block b of) block true }
{
    match block {
        Some(block) => is_block(block, of),
        None => true,
    }
}

/// Whether an event is of a node, where one is asked for.
fn is_of_node(node: Option<u8>, of: u8) -> bool
    ensures { result ≡ model.is_of_node node of }
{
    match node {
        Some(node) => node == of,
        None => true,
    }
}

/// Whether an event is about a block, where one is asked for.
fn is_about_any(block: Option<Block>, what: &What) -> bool
    ensures { result ≡ option_map_or (λ b. model.is_about b (what_of what.now)) block true }
{
    match block {
        Some(block) => is_about(block, what),
        None => true,
    }
}

/// Whether an event is about a block.
fn is_about(block: Block, what: &What) -> bool
    ensures { result ≡ model.is_about block (what_of what.now) }
{
    match what {
        What::Word(word) => {
            is_block(block, block_reached(word.access)) || one_wants(block, word.wants)
        }
        What::Take(take) => is_block(block, take.message.block),
    }
}

/// Whether this is the block.
pub fn is_block(block: Block, of: Option<Block>) -> bool
    ensures { result ≡ model.is_block block of }
{
    match of {
        Some(of) => of == block,
        None => false,
    }
}

/// Whether one of the wants is of the block.
fn one_wants(block: Block, wants: Option<WantedBlocks>) -> bool
    ensures { result ≡ model.one_wants block (wanted_in wants) }
{
    match wants {
        Some(wants) => {
            is_block(block, wants.first.block)
                || match wants.other {
                    Some(other) => is_block(block, other.block),
                    None => false,
                }
        }
        None => false,
    }
}

/// The block that is accessed.
pub fn block_reached(access: Option<Accessed>) -> Option<Block>
    ensures { result ≡ model.block_reached access }
{
    match access {
        Some(accessed) => accessed.block,
        None => None,
    }
}

/// Whether an event is a take, or a word that is asked for.
fn is_of_kind(words: bool, what: &What) -> bool
    ensures { result ≡ model.is_of_kind words (what_of what.now) }
{
    match what {
        What::Word(word) => words || is_eventful(word),
        What::Take(_) => true,
    }
}

/// Whether a word accesses shared memory, wants a block, prints or ends.
fn is_eventful(word: &WordTraced) -> bool
    ensures { result ≡ model.is_eventful (word_of word.now) }
{
    block_reached(word.access).is_some()
        || word.wants.is_some()
        || word.printed.is_some()
        || word.end.is_some()
}

/// Appends the first line of a trace.
pub fn push_head(out: &mut Vec<u8>) -> Result<(), AllocError>
    ensures { OnOk result (out.new.items ≡ out.old.items ++ model.head) }
{
    out.extend_from_slice(b"stamp node: what it did\n")?;
    Ok(())
}
