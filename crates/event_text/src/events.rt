//! The line of an event.

ghost use Rattle.std.specs.Prelude.{◌≡◌, ◌++◌, OnOk};
ghost use Rattle.run_trace.specs.Given.{word_of, what_of, traced_of};
ghost use Rattle.run_trace.specs.Passing.{passed_of};
ghost use Rattle.event_text.specs.Events as model;

use crate::parts::{
    push_accessed, push_decimal, push_if, push_number, push_original, push_sends, push_tally,
    push_wants,
};
use crate::takes::push_take;
use exec_map::Program;
use run_trace::{Traced, What, WordPassed, WordTraced};
use rv32_text::push_word;
use std::alloc::AllocError;
use templates::Place;

/// Appends the line of an event of a program.
pub fn push_event(
    out: &mut Vec<u8>,
    program: &Program<'_>,
    event: &Traced,
) -> Result<(), AllocError>
    ensures { OnOk result (out.new.items
        ≡ out.old.items ++ model.event_line program.now (traced_of event.now)) }
{
    push_maker(out, event.stamp, event.node)?;
    push_what(out, program, &event.what)?;
    out.extend_from_slice(b"\n")?;
    Ok(())
}

/// Appends the line of a word of a program that only accesses memory.
pub fn push_passed(
    out: &mut Vec<u8>,
    program: &Program<'_>,
    word: &WordPassed,
) -> Result<(), AllocError>
    ensures { OnOk result (out.new.items
        ≡ out.old.items ++ model.event_line program.now (passed_of word.now)) }
{
    push_maker(out, word.stamp, word.node)?;
    push_where(out, program, word.place)?;
    push_accessed(out, &Some(word.access))?;
    push_if(out, word.commits, b"; commits")?;
    out.extend_from_slice(b"\n")?;
    Ok(())
}

/// Appends the stamp of an event, and the node that made it.
fn push_maker(out: &mut Vec<u8>, stamp: u64, node: u8) -> Result<(), AllocError>
    ensures { OnOk result (out.new.items ≡ out.old.items ++ model.maker_text stamp node) }
{
    push_decimal(out, stamp)?;
    out.extend_from_slice(b" node ")?;
    push_decimal(out, u64::from(node))?;
    out.extend_from_slice(b": ")?;
    Ok(())
}

/// Appends what an event did.
fn push_what(out: &mut Vec<u8>, program: &Program<'_>, what: &What) -> Result<(), AllocError>
    ensures { OnOk result
        (out.new.items ≡ out.old.items ++ model.what_text program.now (what_of what.now)) }
{
    match what {
        What::Word(word) => push_word_event(out, program, word),
        What::Take(take) => push_take(out, take),
    }
}

/// Appends what a word did.
fn push_word_event(
    out: &mut Vec<u8>,
    program: &Program<'_>,
    word: &WordTraced,
) -> Result<(), AllocError>
    ensures { OnOk result
        (out.new.items ≡ out.old.items ++ model.word_text program.now (word_of word.now)) }
{
    push_where(out, program, word.place)?;
    push_accessed(out, &word.access)?;
    push_wants(out, &word.wants)?;
    push_effects(out, word)?;
    push_sends(out, word.sends.as_slice())?;
    push_if(out, word.end.is_some(), b"; ends")?;
    Ok(())
}

/// Appends what a word counts and prints, and whether it commits.
fn push_effects(out: &mut Vec<u8>, word: &WordTraced) -> Result<(), AllocError>
    ensures { OnOk result (out.new.items ≡ out.old.items ++ model.effects_text (word_of word.now)) }
{
    push_tally(out, word.tally)?;
    push_number(out, b"; prints ", word.printed)?;
    push_if(out, word.commits, b"; commits")?;
    Ok(())
}

/// Appends where a word stands, and the instruction of the original there.
fn push_where(
    out: &mut Vec<u8>,
    program: &Program<'_>,
    place: Option<Place>,
) -> Result<(), AllocError>
    ensures { OnOk result
        (out.new.items ≡ out.old.items ++ model.place_text program.now place) }
{
    match place {
        None => out.extend_from_slice(b"no place")?,
        Some(place) => {
            push_word(out, place.address)?;
            push_original(out, place.address, program.word_at(place.address))?;
        }
    }
    Ok(())
}
