//! The numbers as a table.

ghost use Rattle.std.specs.Prelude.{◌≡◌, ◌+◌, ◌≤◌, ◌^◌, ◌++◌, All, OnOk};
ghost use Rattle.speedup_page.specs.Table as model;
ghost use Rattle.speedup_page.specs.Rows.{IsFit, whole_of};

use crate::frame::{Fixed, push_fixed};
use crate::row::{Ended, Row, Shares, share_of, speedup_of, trap_name};
use crate::text::{push_hundredths, push_numbered};
use std::alloc::AllocError;

/// Appends a speed-up, where there is one.
fn push_some(out: &mut Vec<u8>, speedup: Option<u128>) -> Result<(), AllocError>
    ensures { OnOk result (out.new.items ≡ out.old.items ++ model.some_text speedup) }
{
    match speedup {
        None => out.extend_from_slice(b"none"),
        Some(hundredths) => push_hundredths(out, hundredths),
    }
}

/// Appends the speed-up of a row, or what keeps it from one.
fn push_speedup(out: &mut Vec<u8>, base: Option<u64>, row: &Row) -> Result<(), AllocError>
    ensures { OnOk result (out.new.items ≡ out.old.items ++ model.speedup_text base row.now) }
{
    match row.ended {
        Ended::Whole => push_some(out, speedup_of(base, row)),
        Ended::Trapped(trap) => out.extend_from_slice(trap_name(trap)),
        Ended::Stopped => out.extend_from_slice(b"stopped"),
    }
}

/// Appends what was spent on one thing, and its share of the whole.
fn push_cell(out: &mut Vec<u8>, whole: u128, part: u128) -> Result<(), AllocError>
    requires { part ≤ 2 ^ 110 }
    ensures { OnOk result (out.new.items ≡ out.old.items ++ model.cell_text whole part) }
{
    push_numbered(out, b"<td>", part)?;
    push_numbered(out, b"<small>", share_of(100, whole, part))?;
    out.extend_from_slice(b"%</small></td>")
}

/// Appends what was spent on each thing, and how many of the words are of the original.
fn push_cells(out: &mut Vec<u8>, whole: u128, steps: u128, spent: &Shares) -> Result<(), AllocError>
    requires { whole_of spent.now + steps ≤ 2 ^ 110 }
    ensures { OnOk result
        (out.new.items ≡ out.old.items ++ model.cells_text whole steps spent.now) }
{
    push_cell(out, whole, spent.words)?;
    push_cell(out, spent.words, steps)?;
    push_cell(out, whole, spent.to_read)?;
    push_cell(out, whole, spent.to_write)?;
    push_cell(out, whole, spent.handling)?;
    push_cell(out, whole, spent.idle)
}

/// Appends the line of a row.
fn push_line(out: &mut Vec<u8>, base: Option<u64>, row: &Row) -> Result<(), AllocError>
    requires { IsFit row.now }
    ensures { OnOk result (out.new.items ≡ out.old.items ++ model.line_text base row.now) }
{
    push_numbered(out, b"<tr><th>", u128::from(row.nodes))?;
    push_numbered(out, b"</th><td>", row.time)?;
    out.extend_from_slice(b"</td><td>")?;
    push_speedup(out, base, row)?;
    out.extend_from_slice(b"</td>")?;
    push_cells(out, row.spent.whole(), row.steps, &row.spent)?;
    out.extend_from_slice(b"</tr>\n")
}

/// Appends the lines of rows.
fn push_lines(out: &mut Vec<u8>, base: Option<u64>, rows: &[Row]) -> Result<(), AllocError>
    requires { All IsFit rows.now }
    ensures { OnOk result (out.new.items ≡ out.old.items ++ model.lines_text base rows.now) }
{
    for row in rows {
        push_line(out, base, row)?;
    }
    Ok(())
}

/// Appends the table.
pub(crate) fn push_table(
    out: &mut Vec<u8>,
    base: Option<u64>,
    rows: &[Row],
) -> Result<(), AllocError>
    requires { All IsFit rows.now }
    ensures { OnOk result (out.new.items ≡ out.old.items ++ model.table_text base rows.now) }
{
    push_fixed(out, Fixed::Table)?;
    push_lines(out, base, rows)?;
    out.extend_from_slice(b"</tbody>\n</table>\n")
}
