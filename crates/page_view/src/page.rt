//! The page.

ghost use Rattle.std.specs.Prelude.{◌≡◌, ◌++◌, None, OnOk, codes};
ghost use Rattle.page_events.specs.event_text.Parts.{number_text};
ghost use Rattle.page_view.specs.Page as model;

use crate::blocks::push_block_rows;
use crate::figure::push_figure;
use crate::frame::{Fixed, push_fixed};
use block_layout::Layout;
use exec_map::Program;
use page_events::event_text::push_decimal;
use page_events::{Shown, push_count, push_escaped};
use std::alloc::{AllocError, Global};

/// What a page shows.
#[derive(Clone, Copy)]
pub struct Page<'a> {
    /// The program that ran.
    pub program: &'a Program<'a>,
    /// Its blocks and nodes.
    pub layout: &'a Layout,
    /// The events.
    pub shown: &'a Shown,
    /// The last stamp that was asked for, if one was.
    pub to: Option<u64>,
}

/// Appends the page.
pub fn push_page(alloc: Global, out: &mut Vec<u8>, page: &Page<'_>) -> Result<(), AllocError>
    ensures { OnOk result (out.new.items ≡ out.old.items ++ model.text_of page.now.program.now
        page.now.layout.now page.now.to page.now.shown.now) }
{
    push_start(out, page.layout)?;
    push_events(alloc, out, page.shown, page.to)?;
    push_aside(out, page.layout, page.shown)?;
    push_figure(alloc, out, page)?;
    push_fixed(out, Fixed::End)
}

/// Appends what stands before the body, and the heading.
fn push_start(out: &mut Vec<u8>, layout: &Layout) -> Result<(), AllocError>
    ensures { OnOk result (out.new.items ≡ out.old.items ++ model.start_text layout.now.nodes) }
{
    push_top(out, layout)?;
    push_heading(out, layout)
}

/// Appends which events the page shows, and how those after them are shown.
fn push_events(
    alloc: Global,
    out: &mut Vec<u8>,
    shown: &Shown,
    to: Option<u64>,
) -> Result<(), AllocError>
    ensures { OnOk result (out.new.items ≡ out.old.items ++ model.events_text to shown.now) }
{
    push_range(out, shown)?;
    push_next(alloc, out, shown.behind(), to)
}

/// Appends the name of the page.
fn push_name(out: &mut Vec<u8>, layout: &Layout) -> Result<(), AllocError>
    ensures { OnOk result (out.new.items ≡ out.old.items ++ model.name_text layout.now.nodes) }
{
    out.extend_from_slice(b"A run of ")?;
    push_count(out, u32::from(layout.nodes()))?;
    out.extend_from_slice(b" nodes")
}

/// Appends what stands before the body.
fn push_top(out: &mut Vec<u8>, layout: &Layout) -> Result<(), AllocError>
    ensures { OnOk result (out.new.items ≡ out.old.items ++ model.top_text layout.now.nodes) }
{
    push_fixed(out, Fixed::Top)?;
    push_name(out, layout)?;
    out.extend_from_slice(b"</title>\n<style>\n")?;
    push_fixed(out, Fixed::Style)
}

/// Appends the heading.
fn push_heading(out: &mut Vec<u8>, layout: &Layout) -> Result<(), AllocError>
    ensures { OnOk result
        (out.new.items ≡ out.old.items ++ model.heading_text layout.now.nodes) }
{
    out.extend_from_slice(b"</style>\n</head>\n<body>\n<h1>")?;
    push_name(out, layout)?;
    out.extend_from_slice(b"</h1>\n")
}

/// The stamp of the first event of a page.
fn first_stamp(shown: &Shown) -> Option<u64>
    ensures { result ≡ model.first_stamp shown.now.events }
{
    match shown.events().first() {
        Some(event) => Some(event.stamp),
        None => None,
    }
}

/// The stamp of the last event of a page.
fn last_stamp(shown: &Shown) -> Option<u64>
    ensures { result ≡ model.last_stamp None shown.now.events }
{
    let mut last = None;
    for event in shown.events() {
        last = Some(event.stamp);
    }
    last
}

/// Appends how many events there are, and their first and last stamp.
fn push_stamps(out: &mut Vec<u8>, count: u32, first: u64, last: u64) -> Result<(), AllocError>
    ensures { OnOk result
        (out.new.items ≡ out.old.items ++ model.stamps_text count first last) }
{
    out.extend_from_slice(b"<p>")?;
    push_count(out, count)?;
    out.extend_from_slice(b" events, with stamps from ")?;
    push_between(out, first, last)
}

/// Appends the first and the last stamp.
fn push_between(out: &mut Vec<u8>, first: u64, last: u64) -> Result<(), AllocError>
    ensures { OnOk result
        (out.new.items ≡ out.old.items ++ model.between_text first last) }
{
    push_decimal(out, first)?;
    out.extend_from_slice(b" to ")?;
    push_decimal(out, last)?;
    out.extend_from_slice(b".</p>\n")
}

/// Appends how many events the page shows, and from which stamp to which.
fn push_range(out: &mut Vec<u8>, shown: &Shown) -> Result<(), AllocError>
    ensures { OnOk result
        (out.new.items ≡ out.old.items ++ model.range_text shown.now.events) }
{
    match (first_stamp(shown), last_stamp(shown)) {
        (Some(first), Some(last)) => push_stamps(out, shown.count(), first, last),
        _ => out.extend_from_slice(b"<p>No such event.</p>\n"),
    }
}

/// Appends how the events after those of the page are shown, if there are any.
fn push_next(
    alloc: Global,
    out: &mut Vec<u8>,
    behind: Option<u64>,
    to: Option<u64>,
) -> Result<(), AllocError>
    ensures { OnOk result (out.new.items ≡ out.old.items ++ model.next_text to behind) }
{
    match behind {
        Some(stamp) => push_following(alloc, out, stamp, to),
        None => Ok(()),
    }
}

/// Appends how the events from a stamp on are shown.
fn push_following(
    alloc: Global,
    out: &mut Vec<u8>,
    from: u64,
    to: Option<u64>,
) -> Result<(), AllocError>
    ensures { OnOk result (out.new.items ≡ out.old.items ++ model.following_text from to) }
{
    let mut words = Vec::new(alloc);
    push_words(&mut words, from, to)?;
    out.extend_from_slice(b"<p>More follow: <code>")?;
    push_escaped(out, &words)?;
    out.extend_from_slice(b"</code></p>\n")
}

/// Appends the command line of a page from a stamp on.
fn push_words(out: &mut Vec<u8>, from: u64, to: Option<u64>) -> Result<(), AllocError>
    ensures { OnOk result (out.new.items ≡ out.old.items ++ model.words_text from to) }
{
    push_fixed(out, Fixed::Command)?;
    push_decimal(out, from)?;
    push_last(out, to)
}

/// Appends the word for the last stamp, if one was asked for.
fn push_last(out: &mut Vec<u8>, to: Option<u64>) -> Result<(), AllocError>
    ensures { OnOk result
        (out.new.items ≡ out.old.items ++ number_text (codes " --to ") to) }
{
    if let Some(to) = to {
        out.extend_from_slice(b" --to ")?;
        push_decimal(out, to)?;
    }
    Ok(())
}

/// Appends the table of the blocks.
fn push_table(out: &mut Vec<u8>, layout: &Layout, shown: &Shown) -> Result<(), AllocError>
    ensures { OnOk result (out.new.items
        ≡ out.old.items ++ model.table_text layout.now shown.now.events) }
{
    push_fixed(out, Fixed::Table)?;
    push_block_rows(out, layout, shown)?;
    out.extend_from_slice(b"</tbody>\n</table>\n")
}

/// Appends what stands beside the diagram: the legend and the table.
fn push_aside(out: &mut Vec<u8>, layout: &Layout, shown: &Shown) -> Result<(), AllocError>
    ensures { OnOk result (out.new.items
        ≡ out.old.items ++ model.aside_text layout.now shown.now.events) }
{
    out.extend_from_slice(b"<main>\n<aside>\n")?;
    push_legend(out)?;
    push_table(out, layout, shown)?;
    out.extend_from_slice(b"</aside>\n<div>\n")
}

/// Appends what the drawings mean.
fn push_legend(out: &mut Vec<u8>) -> Result<(), AllocError>
    ensures { OnOk result (out.new.items ≡ out.old.items ++ model.legend_text) }
{
    push_fixed(out, Fixed::Marks)?;
    push_fixed(out, Fixed::Legend)?;
    push_fixed(out, Fixed::Notes)
}
