//! The chart of the speed-up by the number of nodes.

ghost use Rattle.std.specs.Prelude.{◌≡◌, ◌<◌, ◌≤◌, ◌^◌, ◌++◌, OnOk, IfSome};
ghost use Rattle.speedup_page.specs.Chart as model;

use crate::frame::{Fixed, push_fixed};
use crate::row::{Row, speedup_of};
use crate::text::{push_hundredths, push_numbered};
use run_limits::NodeCount;
use std::alloc::AllocError;

/// The room that a speed-up in hundredths wants: 1, 2, 4, 8 or 16 times as fast.
fn room_for(speedup: Option<u128>) -> u128
    ensures value { result ≡ model.room_for speedup }
    ensures some { 1 ≤ result }
    ensures most { result ≤ 16 }
{
    match speedup {
        None => 1,
        Some(hundredths) => {
            if hundredths <= 100 {
                1
            } else if hundredths <= 200 {
                2
            } else if hundredths <= 400 {
                4
            } else if hundredths <= 800 {
                8
            } else {
                16
            }
        }
    }
}

/// The room that rows want.
fn room_of(base: Option<u64>, rows: &[Row]) -> u128
    ensures value { result ≡ model.room_of base rows.now }
    ensures some { 1 ≤ result }
    ensures most { result ≤ 16 }
{
    let mut room = 1;
    for row in rows {
        room = room.max(room_for(speedup_of(base, row)));
    }
    room
}

/// How far from the left a number of nodes is, in pixels.
fn across(most: NodeCount, nodes: u8) -> u128
    ensures value { result ≡ model.across most nodes }
    ensures left { 56 ≤ result }
    ensures right { result < 2 ^ 64 }
{
    56 + 640 * u128::from(nodes) / u128::from(most.number())
}

/// How far down a speed-up in hundredths is, in pixels.
fn down(room: u128, hundredths: u128) -> u128
    requires some { 1 ≤ room }
    requires most { room ≤ 16 }
    requires fits { hundredths < 2 ^ 71 }
    ensures value { result ≡ model.down room hundredths }
    ensures within { result ≤ 336 }
{
    336 - (320 * hundredths / (100 * room)).min(320)
}

/// Appends a line at a number of quarters of the room, with the speed-up there.
fn push_quarter(out: &mut Vec<u8>, room: u128, quarters: u128) -> Result<(), AllocError>
    requires most { room ≤ 16 }
    requires within { quarters ≤ 4 }
    ensures { OnOk result (out.new.items ≡ out.old.items ++ model.quarter_text room quarters) }
{
    let y = 336 - 80 * quarters;
    push_numbered(out, b"<path class='grid' d='M56 ", y)?;
    push_numbered(out, b"H696'/><text class='scale' x='50' y='", y)?;
    out.extend_from_slice(b"'>")?;
    push_hundredths(out, 25 * room * quarters)?;
    out.extend_from_slice(b"</text>\n")
}

/// Appends the lines for the quarters of the room.
fn push_grid(out: &mut Vec<u8>, room: u128) -> Result<(), AllocError>
    requires most { room ≤ 16 }
    ensures { OnOk result (out.new.items ≡ out.old.items ++ model.grid_text room) }
{
    push_quarter(out, room, 0)?;
    push_quarter(out, room, 1)?;
    push_quarter(out, room, 2)?;
    push_quarter(out, room, 3)?;
    push_quarter(out, room, 4)
}

/// Appends the line on which n nodes are n times as fast, up to a place.
fn push_ideal_to(out: &mut Vec<u8>, x: u128, y: u128) -> Result<(), AllocError>
    requires { 56 ≤ x }
    ensures { OnOk result (out.new.items ≡ out.old.items ++ model.ideal_to x y) }
{
    push_numbered(out, b"<path class='ideal' d='M56 336L", x)?;
    push_numbered(out, b" ", y)?;
    push_numbered(out, b"'/><text class='scale' x='", x - 8)?;
    push_numbered(out, b"' y='", y)?;
    out.extend_from_slice(b"'>ideal</text>\n")
}

/// Appends that line as far as there is room and nodes.
fn push_ideal(out: &mut Vec<u8>, most: NodeCount, room: u128) -> Result<(), AllocError>
    requires some { 1 ≤ room }
    requires most { room ≤ 16 }
    ensures { OnOk result (out.new.items ≡ out.old.items ++ model.ideal_text most room) }
{
    let end = most.as_u8().min(room as u8);
    push_ideal_to(out, across(most, end), down(room, 100 * u128::from(end)))
}

/// Appends where a row's speed-up is, as the line has it.
fn push_corner(
    out: &mut Vec<u8>,
    most: NodeCount,
    room: u128,
    nodes: u8,
    speedup: Option<u128>,
) -> Result<(), AllocError>
    requires some { 1 ≤ room }
    requires most { room ≤ 16 }
    requires fits { IfSome speedup (λ s. s < 2 ^ 71) }
    ensures { OnOk result
        (out.new.items ≡ out.old.items ++ model.corner_text most room nodes speedup) }
{
    match speedup {
        None => Ok(()),
        Some(hundredths) => {
            push_numbered(out, b" ", across(most, nodes))?;
            push_numbered(out, b",", down(room, hundredths))
        }
    }
}

/// Appends where all rows' speed-ups are.
fn push_corners(
    out: &mut Vec<u8>,
    most: NodeCount,
    room: u128,
    base: Option<u64>,
    rows: &[Row],
) -> Result<(), AllocError>
    requires some { 1 ≤ room }
    requires most { room ≤ 16 }
    ensures { OnOk result
        (out.new.items ≡ out.old.items ++ model.corners_text most room base rows.now) }
{
    for row in rows {
        push_corner(out, most, room, row.nodes, speedup_of(base, row))?;
    }
    Ok(())
}

/// Appends the line from speed-up to speed-up.
fn push_line(
    out: &mut Vec<u8>,
    most: NodeCount,
    room: u128,
    base: Option<u64>,
    rows: &[Row],
) -> Result<(), AllocError>
    requires some { 1 ≤ room }
    requires most { room ≤ 16 }
    ensures { OnOk result
        (out.new.items ≡ out.old.items ++ model.line_text most room base rows.now) }
{
    out.extend_from_slice(b"<polyline class='line' points='")?;
    push_corners(out, most, room, base, rows)?;
    out.extend_from_slice(b"'/>\n")
}

/// How far down the number of a mark stands: below it, or above it where it would meet the numbers
/// of nodes.
fn beside(y: u128) -> u128
    requires { y ≤ 336 }
    ensures { result ≡ model.beside y }
{
    if y <= 316 { y + 13 } else { y - 11 }
}

/// Appends the mark of a speed-up, at this place, with its number.
fn push_mark_at(out: &mut Vec<u8>, x: u128, y: u128, hundredths: u128) -> Result<(), AllocError>
    requires x { x < 2 ^ 64 }
    requires y { y ≤ 336 }
    ensures { OnOk result (out.new.items ≡ out.old.items ++ model.mark_at x y hundredths) }
{
    push_numbered(out, b"<circle class='mark' r='4' cx='", x)?;
    push_numbered(out, b"' cy='", y)?;
    push_numbered(out, b"'/><text class='value' x='", x + 7)?;
    push_numbered(out, b"' y='", beside(y))?;
    out.extend_from_slice(b"'>")?;
    push_hundredths(out, hundredths)?;
    out.extend_from_slice(b"</text>\n")
}

/// Appends the mark of a row's speed-up, if it has one.
fn push_mark(
    out: &mut Vec<u8>,
    most: NodeCount,
    room: u128,
    nodes: u8,
    speedup: Option<u128>,
) -> Result<(), AllocError>
    requires some { 1 ≤ room }
    requires most { room ≤ 16 }
    requires fits { IfSome speedup (λ s. s < 2 ^ 71) }
    ensures { OnOk result
        (out.new.items ≡ out.old.items ++ model.mark_text most room nodes speedup) }
{
    match speedup {
        None => Ok(()),
        Some(hundredths) => push_mark_at(
            out,
            across(most, nodes),
            down(room, hundredths),
            hundredths,
        ),
    }
}

/// Appends how many nodes a row has, below the chart.
fn push_nodes(out: &mut Vec<u8>, most: NodeCount, nodes: u8) -> Result<(), AllocError>
    ensures { OnOk result (out.new.items ≡ out.old.items ++ model.nodes_text most nodes) }
{
    push_numbered(out, b"<text class='node' x='", across(most, nodes))?;
    push_numbered(out, b"' y='350'>", u128::from(nodes))?;
    out.extend_from_slice(b"</text>\n")
}

/// Appends what is drawn of a row apart from the line.
fn push_row(
    out: &mut Vec<u8>,
    most: NodeCount,
    room: u128,
    base: Option<u64>,
    row: &Row,
) -> Result<(), AllocError>
    requires some { 1 ≤ room }
    requires most { room ≤ 16 }
    ensures { OnOk result
        (out.new.items ≡ out.old.items ++ model.row_text most room base row.now) }
{
    push_nodes(out, most, row.nodes)?;
    push_mark(out, most, room, row.nodes, speedup_of(base, row))
}

/// Appends what is drawn of all rows apart from the line.
fn push_rows(
    out: &mut Vec<u8>,
    most: NodeCount,
    room: u128,
    base: Option<u64>,
    rows: &[Row],
) -> Result<(), AllocError>
    requires some { 1 ≤ room }
    requires most { room ≤ 16 }
    ensures { OnOk result
        (out.new.items ≡ out.old.items ++ model.rows_text most room base rows.now) }
{
    for row in rows {
        push_row(out, most, room, base, row)?;
    }
    Ok(())
}

/// Appends all that is drawn.
fn push_drawn(
    out: &mut Vec<u8>,
    most: NodeCount,
    room: u128,
    base: Option<u64>,
    rows: &[Row],
) -> Result<(), AllocError>
    requires some { 1 ≤ room }
    requires most { room ≤ 16 }
    ensures { OnOk result
        (out.new.items ≡ out.old.items ++ model.drawn_text most room base rows.now) }
{
    push_grid(out, room)?;
    push_ideal(out, most, room)?;
    push_line(out, most, room, base, rows)?;
    push_rows(out, most, room, base, rows)
}

/// Appends the chart.
pub(crate) fn push_chart(
    out: &mut Vec<u8>,
    most: NodeCount,
    base: Option<u64>,
    rows: &[Row],
) -> Result<(), AllocError>
    ensures { OnOk result (out.new.items ≡ out.old.items ++ model.chart_text most base rows.now) }
{
    push_fixed(out, Fixed::Chart)?;
    push_drawn(out, most, room_of(base, rows), base, rows)?;
    out.extend_from_slice(b"</svg>\n")
}
