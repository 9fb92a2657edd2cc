//! What each event did, in a row of its own.

ghost use Rattle.std.specs.Prelude.{◌≡◌, ◌++◌, OnOk};
ghost use Rattle.page_events.specs.node_machine.Wanted.{wanted_in};
ghost use Rattle.page_events.specs.run_trace.Given.{traced_of, word_of, take_of, what_of};
ghost use Rattle.page_view.specs.Rows as model;

use crate::marks::{mark_of, push_mark};
use block_layout::Layout;
use exec_map::Program;
use page_events::event_text::{
    access_name, need_name, push_decimal, push_event, push_header, push_if, push_number,
    push_original, push_state,
};
use page_events::node_machine::{Wanted, WantedBlocks};
use page_events::run_trace::{Accessed, TakeTraced, Traced, What, WordTraced, is_miss};
use page_events::{Shown, Spot, push_count, push_escaped, push_node, spot_of};
use std::alloc::{AllocError, Global};
use templates::Place;

/// Appends the instruction of the original at a place.
fn push_place(
    out: &mut Vec<u8>,
    program: &Program<'_>,
    place: Option<Place>,
) -> Result<(), AllocError>
    ensures { OnOk result (out.new.items
        ≡ out.old.items ++ model.place_text program.now place) }
{
    match place {
        Some(place) => push_original(out, place.address, program.word_at(place.address)),
        None => out.extend_from_slice(b" no place"),
    }
}

/// Appends an access of a block, if there was one.
fn push_access(out: &mut Vec<u8>, access: Option<Accessed>) -> Result<(), AllocError>
    ensures { OnOk result (out.new.items ≡ out.old.items ++ model.access_text access) }
{
    let Some(accessed) = access else {
        return Ok(());
    };
    let Some(block) = accessed.block else {
        return Ok(());
    };
    out.extend_from_slice(access_name(accessed.kind))?;
    out.extend_from_slice(b"block ")?;
    push_count(out, block)
}

/// Appends a want, and whether a message asks for the block.
fn push_want(out: &mut Vec<u8>, want: &Wanted) -> Result<(), AllocError>
    ensures { OnOk result (out.new.items ≡ out.old.items ++ model.want_text want.now) }
{
    let asks: &[u8] = if want.asks { b"; misses" } else { b"; has" };
    out.extend_from_slice(asks)?;
    if let Some(block) = want.block {
        out.extend_from_slice(b" block ")?;
        push_count(out, block)?;
    }
    out.extend_from_slice(need_name(want.need))
}

/// Appends the wants of a word.
fn push_wants(out: &mut Vec<u8>, wants: &Option<WantedBlocks>) -> Result<(), AllocError>
    ensures { OnOk result
        (out.new.items ≡ out.old.items ++ model.wants_text (wanted_in wants.now)) }
{
    if let Some(wants) = wants {
        push_want(out, &wants.first)?;
        if let Some(other) = &wants.other {
            push_want(out, other)?;
        }
    }
    Ok(())
}

/// Appends what a word did.
fn push_word(out: &mut Vec<u8>, program: &Program<'_>, word: &WordTraced) -> Result<(), AllocError>
    ensures { OnOk result
        (out.new.items ≡ out.old.items ++ model.word_text program.now (word_of word.now)) }
{
    push_place(out, program, word.place)?;
    push_access(out, word.access)?;
    push_wants(out, &word.wants)?;
    push_number(out, b"; prints ", word.printed)?;
    push_if(out, word.end.is_some(), b"; ends")
}

/// Appends what a take did.
fn push_take(out: &mut Vec<u8>, take: &TakeTraced) -> Result<(), AllocError>
    ensures { OnOk result (out.new.items ≡ out.old.items ++ model.take_text (take_of take.now)) }
{
    out.extend_from_slice(b" ")?;
    push_header(out, &take.message)?;
    push_state(out, b"; ", take.was)?;
    push_state(out, b" to ", take.becomes)?;
    push_if(out, take.resumes, b"; goes on")?;
    push_if(out, take.end.is_some(), b"; ends")
}

/// Appends what an event did.
fn push_what(out: &mut Vec<u8>, program: &Program<'_>, what: &What) -> Result<(), AllocError>
    ensures { OnOk result
        (out.new.items ≡ out.old.items ++ model.what_text program.now (what_of what.now)) }
{
    match what {
        What::Word(word) => push_word(out, program, word),
        What::Take(take) => push_take(out, take),
    }
}

/// Appends the whole line of an event, as it is read out.
fn push_title(
    alloc: Global,
    out: &mut Vec<u8>,
    program: &Program<'_>,
    event: &Traced,
) -> Result<(), AllocError>
    ensures { OnOk result (out.new.items
        ≡ out.old.items ++ model.title_text program.now (traced_of event.now)) }
{
    let mut line = Vec::new(alloc);
    push_event(&mut line, program, event)?;
    out.extend_from_slice(b"<title>")?;
    push_escaped(out, &line)?;
    out.extend_from_slice(b"</title>")
}

/// Appends the stamp of an event, at the left.
fn push_stamp(out: &mut Vec<u8>, stamp: u64, y: u32) -> Result<(), AllocError>
    ensures { OnOk result (out.new.items ≡ out.old.items ++ model.stamp_text stamp y) }
{
    out.extend_from_slice(b"<text class='stamp' x='44' y='")?;
    push_count(out, y)?;
    out.extend_from_slice(b"'>")?;
    push_decimal(out, stamp)?;
    out.extend_from_slice(b"</text>")
}

/// Appends the node of an event.
fn push_maker(out: &mut Vec<u8>, node: u8) -> Result<(), AllocError>
    ensures { OnOk result (out.new.items ≡ out.old.items ++ model.maker_text node) }
{
    out.extend_from_slice(b"<tspan>")?;
    push_node(out, node)?;
    out.extend_from_slice(b"</tspan>")
}

/// Appends what an event did, as HTML shows it.
fn push_did(
    alloc: Global,
    out: &mut Vec<u8>,
    program: &Program<'_>,
    what: &What,
) -> Result<(), AllocError>
    ensures { OnOk result
        (out.new.items ≡ out.old.items ++ model.did_text program.now (what_of what.now)) }
{
    let mut told = Vec::new(alloc);
    push_what(&mut told, program, what)?;
    push_escaped(out, &told)
}

/// Appends the node of an event and what it did, at the right.
fn push_told(
    alloc: Global,
    out: &mut Vec<u8>,
    program: &Program<'_>,
    event: &Traced,
    y: u32,
) -> Result<(), AllocError>
    ensures { OnOk result (out.new.items
        ≡ out.old.items ++ model.told_text program.now (traced_of event.now) y) }
{
    out.extend_from_slice(b"<text x='440' y='")?;
    push_count(out, y)?;
    out.extend_from_slice(b"'>")?;
    push_maker(out, event.node)?;
    push_did(alloc, out, program, &event.what)?;
    out.extend_from_slice(b"</text>")
}

/// Where a row begins: that of a miss has a class of its own.
fn class_of(what: &What) -> &'static [u8]
    ensures { result.now ≡ model.class_of (what_of what.now) }
{
    if is_miss(what) {
        b"<g class='miss'>"
    } else {
        b"<g>"
    }
}

/// Appends where the row of an event begins, and how it is read out.
fn push_group(
    alloc: Global,
    out: &mut Vec<u8>,
    program: &Program<'_>,
    event: &Traced,
) -> Result<(), AllocError>
    ensures { OnOk result (out.new.items
        ≡ out.old.items ++ model.group_text program.now (traced_of event.now)) }
{
    out.extend_from_slice(class_of(&event.what))?;
    push_title(alloc, out, program, event)
}

/// Appends the stamp of an event, and its mark at this place.
fn push_marked(out: &mut Vec<u8>, event: &Traced, spot: Spot) -> Result<(), AllocError>
    ensures { OnOk result
        (out.new.items ≡ out.old.items ++ model.marked_text (traced_of event.now) spot) }
{
    push_stamp(out, event.stamp, spot.y)?;
    push_mark(out, mark_of(&event.what), spot)
}

/// Appends the row of an event that is at this place.
fn push_row_at(
    alloc: Global,
    out: &mut Vec<u8>,
    program: &Program<'_>,
    event: &Traced,
    spot: Spot,
) -> Result<(), AllocError>
    ensures { OnOk result (out.new.items
        ≡ out.old.items ++ model.row_text program.now (traced_of event.now) spot) }
{
    push_group(alloc, out, program, event)?;
    push_marked(out, event, spot)?;
    push_told(alloc, out, program, event, spot.y)?;
    out.extend_from_slice(b"</g>\n")
}

/// Appends the row of an event.
fn push_row(
    alloc: Global,
    out: &mut Vec<u8>,
    program: &Program<'_>,
    layout: &Layout,
    shown: &Shown,
    event: &Traced,
) -> Result<(), AllocError>
    ensures { OnOk result (out.new.items ≡ out.old.items ++ model.row_of program.now
        layout.now.nodes shown.now.events (traced_of event.now)) }
{
    push_row_at(alloc, out, program, event, spot_of(layout, shown, event))
}

/// Appends the rows of all events.
pub(crate) fn push_rows(
    alloc: Global,
    out: &mut Vec<u8>,
    program: &Program<'_>,
    layout: &Layout,
    shown: &Shown,
) -> Result<(), AllocError>
    ensures { OnOk result (out.new.items ≡ out.old.items
        ++ model.rows_text program.now layout.now.nodes shown.now.events) }
{
    for event in shown.events() {
        push_row(alloc, out, program, layout, shown, event)?;
    }
    Ok(())
}
