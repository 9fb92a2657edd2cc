//! Where things are drawn, in pixels: a line down the page for each node, a row for each event.

ghost use Rattle.std.specs.Prelude.{◌≡◌, ◌++◌, OnOk};
ghost use Rattle.std.specs.Fmt.{decimal};
ghost use Rattle.event_text.specs.run_trace.Given.{traced_of};
ghost use Rattle.page_events.specs.Places as model;

use crate::shown::Shown;
use crate::sought::{Sought, row_of};
use block_layout::Layout;
use event_text::push_decimal;
use event_text::run_trace::Traced;
use std::alloc::AllocError;

/// The lines of the nodes begin here.
const LEFT: u32 = 48;

/// They have this room together.
const WIDTH: u32 = 336;

/// A place of the diagram.
#[derive(Clone, Copy)]
pub struct Spot {
    pub x: u32,
    pub y: u32,
}

/// How far from the left the line of a node is.
pub fn line_of(layout: &Layout, node: u8) -> u32
    ensures { result ≡ model.line_of layout.now.nodes node }
{
    let room = WIDTH / u32::from(layout.nodes());
    LEFT + room * u32::from(node) + room / 2
}

/// How far down a row is. Without one it is the upper edge.
pub fn down_from(row: Option<u16>) -> u32
    ensures { result ≡ model.down_from row }
{
    match row {
        Some(row) => 18 * u32::from(row) + 18,
        None => 0,
    }
}

/// How far down a row is. Without one it is the lower edge.
pub fn down_to(shown: &Shown, row: Option<u16>) -> u32
    ensures { result ≡ model.down_to shown.now.events row }
{
    match row {
        Some(row) => 18 * u32::from(row) + 18,
        None => lower_edge(shown),
    }
}

/// How far down the diagram ends.
pub fn lower_edge(shown: &Shown) -> u32
    ensures { result ≡ model.lower_edge shown.now.events }
{
    18 * shown.count() + 18
}

/// The row of an event.
pub fn own_row(shown: &Shown, event: &Traced) -> Option<u16>
    ensures { result ≡ model.own_row shown.now.events (traced_of event.now) }
{
    row_of(
        shown,
        Sought::Event {
            node: event.node,
            stamp: event.stamp,
        },
    )
}

/// Where a node is at an event of its own.
pub fn spot_of(layout: &Layout, shown: &Shown, event: &Traced) -> Spot
    ensures { result ≡ model.spot_of layout.now.nodes shown.now.events (traced_of event.now) }
{
    Spot {
        x: line_of(layout, event.node),
        y: down_from(own_row(shown, event)),
    }
}

/// Appends a number.
pub fn push_count(out: &mut Vec<u8>, n: u32) -> Result<(), AllocError>
    ensures { OnOk result (out.new.items ≡ out.old.items ++ decimal n) }
{
    push_decimal(out, u64::from(n))
}

/// Appends the number of a node.
pub fn push_node(out: &mut Vec<u8>, node: u8) -> Result<(), AllocError>
    ensures { OnOk result (out.new.items ≡ out.old.items ++ decimal node) }
{
    push_decimal(out, u64::from(node))
}

/// Appends how far from the left the line of a node is.
pub fn push_line_of(out: &mut Vec<u8>, layout: &Layout, node: u8) -> Result<(), AllocError>
    ensures { OnOk result
        (out.new.items ≡ out.old.items ++ decimal (model.line_of layout.now.nodes node)) }
{
    push_count(out, line_of(layout, node))
}

/// Appends how far down the diagram ends.
pub fn push_edge(out: &mut Vec<u8>, shown: &Shown) -> Result<(), AllocError>
    ensures { OnOk result
        (out.new.items ≡ out.old.items ++ decimal (model.lower_edge shown.now.events)) }
{
    push_count(out, lower_edge(shown))
}

/// Appends the two numbers of a place, as a path has them.
pub fn push_spot(out: &mut Vec<u8>, spot: Spot) -> Result<(), AllocError>
    ensures { OnOk result (out.new.items ≡ out.old.items ++ model.spot_text spot) }
{
    push_count(out, spot.x)?;
    out.extend_from_slice(b" ")?;
    push_count(out, spot.y)
}

/// Appends a place as attributes.
pub fn push_at(out: &mut Vec<u8>, spot: Spot) -> Result<(), AllocError>
    ensures { OnOk result (out.new.items ≡ out.old.items ++ model.at_text spot) }
{
    out.extend_from_slice(b" x='")?;
    push_count(out, spot.x)?;
    out.extend_from_slice(b"' y='")?;
    push_count(out, spot.y)?;
    out.extend_from_slice(b"'")
}
