//! The diagram.

ghost use Rattle.std.specs.Prelude.{◌≡◌, ◌++◌, OnOk};
ghost use Rattle.page_view.specs.Figure as model;

use crate::arrows::push_arrows;
use crate::frame::{Fixed, push_fixed};
use crate::page::Page;
use crate::rows::push_rows;
use crate::waits::push_waits;
use block_layout::Layout;
use page_events::{Shown, push_edge, push_line_of, push_node};
use std::alloc::{AllocError, Global};

/// Appends the name of a node, above its line.
fn push_head_of(out: &mut Vec<u8>, layout: &Layout, node: u8) -> Result<(), AllocError>
    ensures { OnOk result (out.new.items
        ≡ out.old.items ++ model.head_of layout.now.nodes node) }
{
    out.extend_from_slice(b"<text class='node' x='")?;
    push_line_of(out, layout, node)?;
    out.extend_from_slice(b"' y='30'>")?;
    push_node(out, node)?;
    out.extend_from_slice(b"</text>")
}

/// Appends the names of all nodes.
fn push_names(out: &mut Vec<u8>, layout: &Layout) -> Result<(), AllocError>
    ensures { OnOk result (out.new.items
        ≡ out.old.items ++ model.heads_of layout.now.nodes layout.now.nodes) }
{
    for node in 0..layout.nodes() {
        push_head_of(out, layout, node)?;
    }
    Ok(())
}

/// Appends the heads of the columns.
fn push_heads(out: &mut Vec<u8>, layout: &Layout) -> Result<(), AllocError>
    ensures { OnOk result (out.new.items ≡ out.old.items ++ model.heads_text layout.now.nodes) }
{
    push_fixed(out, Fixed::Columns)?;
    push_names(out, layout)?;
    out.extend_from_slice(b"</svg></div>\n")
}

/// Appends the line of a node.
fn push_line(out: &mut Vec<u8>, layout: &Layout, shown: &Shown, node: u8) -> Result<(), AllocError>
    ensures { OnOk result (out.new.items
        ≡ out.old.items ++ model.line_text layout.now.nodes shown.now.events node) }
{
    out.extend_from_slice(b"<path class='line' d='M")?;
    push_line_of(out, layout, node)?;
    out.extend_from_slice(b" 0V")?;
    push_edge(out, shown)?;
    out.extend_from_slice(b"'/>\n")
}

/// Appends the lines of all nodes.
fn push_lines(out: &mut Vec<u8>, layout: &Layout, shown: &Shown) -> Result<(), AllocError>
    ensures { OnOk result (out.new.items
        ≡ out.old.items ++ model.lines_of layout.now.nodes shown.now.events layout.now.nodes) }
{
    for node in 0..layout.nodes() {
        push_line(out, layout, shown, node)?;
    }
    Ok(())
}

/// Appends where the diagram begins.
fn push_opening(out: &mut Vec<u8>, shown: &Shown) -> Result<(), AllocError>
    ensures { OnOk result
        (out.new.items ≡ out.old.items ++ model.opening_text shown.now.events) }
{
    push_fixed(out, Fixed::Opening)?;
    push_edge(out, shown)?;
    out.extend_from_slice(b"'>\n")?;
    push_fixed(out, Fixed::Drawings)
}

/// Appends the diagram.
pub(crate) fn push_figure(
    alloc: Global,
    out: &mut Vec<u8>,
    page: &Page<'_>,
) -> Result<(), AllocError>
    ensures { OnOk result (out.new.items ≡ out.old.items ++ model.figure_text
        page.now.program.now page.now.layout.now.nodes page.now.shown.now.events) }
{
    push_heads(out, page.layout)?;
    push_opening(out, page.shown)?;
    push_ways(alloc, out, page.layout, page.shown)?;
    push_rows(alloc, out, page.program, page.layout, page.shown)?;
    out.extend_from_slice(b"</svg>\n")
}

/// Appends the nodes' lines, and over them the waits and the messages.
fn push_ways(
    alloc: Global,
    out: &mut Vec<u8>,
    layout: &Layout,
    shown: &Shown,
) -> Result<(), AllocError>
    ensures { OnOk result (out.new.items
        ≡ out.old.items ++ model.ways_text layout.now.nodes shown.now.events) }
{
    push_lines(out, layout, shown)?;
    push_waits(out, layout, shown)?;
    push_arrows(alloc, out, layout, shown)
}
