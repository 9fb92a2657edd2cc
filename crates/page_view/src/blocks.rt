//! The table of the blocks that events of the page are about.

ghost use Rattle.std.specs.Prelude.{◌≡◌, ◌<◌, ◌++◌, OnOk};
ghost use Rattle.block_layout.specs.Layout.{blocks, home};
ghost use Rattle.page_events.specs.run_trace.Given.{traced_of};
ghost use Rattle.page_view.specs.Blocks as model;
ghost use Rattle.page_events.specs.Sought.{count_of as count_events};

use block_layout::{Block, Layout, layout_law};
use page_events::event_text::push_address;
use page_events::run_trace::Traced;
use page_events::{Shown, Sought, count_of, first_block, other_block, own_row, push_count, row_of};
use std::alloc::AllocError;

/// Appends the first and the last address of a block.
fn push_range(out: &mut Vec<u8>, layout: &Layout, block: Block) -> Result<(), AllocError>
    requires block { block < blocks layout.now }
    ensures { OnOk result (out.new.items ≡ out.old.items ++ model.range_text layout.now block) }
{
    layout_law();
    let _blocks = layout.blocks();
    let first = layout.first_line(block);
    let last = first + (layout.lines(block) - 1);
    push_address(out, 64 * first)?;
    out.extend_from_slice(b" to ")?;
    push_address(out, 64 * last + 63)
}

/// Appends a cell of the table with a number.
fn push_cell(out: &mut Vec<u8>, n: u32) -> Result<(), AllocError>
    ensures { OnOk result (out.new.items ≡ out.old.items ++ model.cell_text n) }
{
    out.extend_from_slice(b"<td>")?;
    push_count(out, n)?;
    out.extend_from_slice(b"</td>")
}

/// Appends the cell with the addresses of a block.
fn push_addresses(out: &mut Vec<u8>, layout: &Layout, block: Block) -> Result<(), AllocError>
    requires block { block < blocks layout.now }
    ensures { OnOk result
        (out.new.items ≡ out.old.items ++ model.addresses_text layout.now block) }
{
    out.extend_from_slice(b"<td>")?;
    push_range(out, layout, block)?;
    out.extend_from_slice(b"</td>")
}

/// Appends the cell with the home of a block.
fn push_home(out: &mut Vec<u8>, layout: &Layout, block: Block) -> Result<(), AllocError>
    requires block { block < blocks layout.now }
    ensures { OnOk result
        (out.new.items ≡ out.old.items ++ model.cell_text (home layout.now block)) }
{
    push_cell(out, u32::from(layout.home(block)))
}

/// Appends the cell with how many events of the page are sought.
fn push_number(out: &mut Vec<u8>, shown: &Shown, sought: Sought) -> Result<(), AllocError>
    ensures { OnOk result (out.new.items
        ≡ out.old.items ++ model.cell_text (count_events shown.now.events sought)) }
{
    push_cell(out, count_of(shown, sought))
}

/// Appends the row of a block.
fn push_row(
    out: &mut Vec<u8>,
    layout: &Layout,
    shown: &Shown,
    block: Block,
) -> Result<(), AllocError>
    requires block { block < blocks layout.now }
    ensures { OnOk result (out.new.items
        ≡ out.old.items ++ model.row_text layout.now shown.now.events block) }
{
    out.extend_from_slice(b"<tr>")?;
    push_cell(out, block)?;
    push_addresses(out, layout, block)?;
    push_home(out, layout, block)?;
    push_number(out, shown, Sought::MissOf(block))?;
    push_number(out, shown, Sought::TakeOf(block))?;
    out.extend_from_slice(b"</tr>\n")
}

/// Whether this is the first event of the page about a block.
fn is_first_about(shown: &Shown, event: &Traced, block: Block) -> bool
    ensures { result ≡ model.is_first_about shown.now.events (traced_of event.now) block }
{
    match (row_of(shown, Sought::About(block)), own_row(shown, event)) {
        (Some(first), Some(own)) => first == own,
        _ => false,
    }
}

/// Appends the row of a block, if there is one and this is the first event about it.
fn push_row_if(
    out: &mut Vec<u8>,
    layout: &Layout,
    shown: &Shown,
    event: &Traced,
    block: Option<Block>,
) -> Result<(), AllocError>
    ensures { OnOk result (out.new.items ≡ out.old.items
        ++ model.row_text_if layout.now shown.now.events (traced_of event.now) block) }
{
    match block {
        Some(block) if block < layout.blocks() && is_first_about(shown, event, block) => {
            push_row(out, layout, shown, block)
        }
        _ => Ok(()),
    }
}

/// Appends the rows of the blocks that an event is the first about.
fn push_rows_of(
    out: &mut Vec<u8>,
    layout: &Layout,
    shown: &Shown,
    event: &Traced,
) -> Result<(), AllocError>
    ensures { OnOk result (out.new.items ≡ out.old.items
        ++ model.rows_of layout.now shown.now.events (traced_of event.now)) }
{
    push_row_if(out, layout, shown, event, first_block(&event.what))?;
    push_row_if(out, layout, shown, event, other_block(&event.what))
}

/// Appends the rows of the blocks that events of the page are about.
pub(crate) fn push_block_rows(
    out: &mut Vec<u8>,
    layout: &Layout,
    shown: &Shown,
) -> Result<(), AllocError>
    ensures { OnOk result (out.new.items
        ≡ out.old.items ++ model.rows_text layout.now shown.now.events) }
{
    for event in shown.events() {
        push_rows_of(out, layout, shown, event)?;
    }
    Ok(())
}
