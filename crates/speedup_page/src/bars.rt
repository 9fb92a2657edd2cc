//! Where time goes, as bars.

ghost use Rattle.std.specs.Prelude.{◌≡◌, ◌+◌, ◌<◌, ◌≤◌, ◌^◌, ◌++◌, All, OnOk};
ghost use Rattle.speedup_page.specs.Bars as model;
ghost use Rattle.speedup_page.specs.Rows.{IsFit, whole_of};

use crate::frame::{Fixed, bytes_of, push_fixed};
use crate::row::{Row, Shares, share_of};
use crate::text::push_numbered;
use std::alloc::AllocError;

/// How many pixels a bar has.
const WIDTH: u128 = 600;

/// Appends a part of a bar that is so far down, of a kind, between two places.
fn push_piece(
    out: &mut Vec<u8>,
    kind: &[u8],
    y: u128,
    from: u128,
    to: u128,
) -> Result<(), AllocError>
    requires { from < 2 ^ 127 }
    ensures { OnOk result
        (out.new.items ≡ out.old.items ++ model.piece_text kind.now y from to) }
{
    out.extend_from_slice(b"<rect class='")?;
    out.extend_from_slice(kind)?;
    push_numbered(out, b"' x='", 88 + from)?;
    push_numbered(out, b"' width='", to.saturating_sub(from))?;
    push_numbered(out, b"' y='", y)?;
    out.extend_from_slice(b"' height='18'/>\n")
}

/// Appends the parts of words: those of the original, and after them those that checks add.
fn push_words(
    out: &mut Vec<u8>,
    y: u128,
    whole: u128,
    words: u128,
    steps: u128,
) -> Result<(), AllocError>
    requires { words ≤ 2 ^ 110 }
    ensures { OnOk result
        (out.new.items ≡ out.old.items ++ model.words_text y whole words steps) }
{
    let middle = share_of(WIDTH, whole, words.min(steps));
    let end = share_of(WIDTH, whole, words);
    push_piece(out, b"steps", y, 0, middle)?;
    push_piece(out, b"checks", y, middle, end)
}

/// Appends the parts of waits, after what was spent before.
fn push_waits(
    out: &mut Vec<u8>,
    y: u128,
    whole: u128,
    before: u128,
    spent: &Shares,
) -> Result<(), AllocError>
    requires { before + spent.now.to_read + spent.now.to_write ≤ 2 ^ 110 }
    ensures { OnOk result
        (out.new.items ≡ out.old.items ++ model.waits_text y whole before spent.now) }
{
    let begin = share_of(WIDTH, whole, before);
    let middle = share_of(WIDTH, whole, before + spent.to_read);
    let end = share_of(WIDTH, whole, before + spent.to_read + spent.to_write);
    push_piece(out, b"reads", y, begin, middle)?;
    push_piece(out, b"writes", y, middle, end)
}

/// Appends the parts of handling and of idle nodes, after what was spent before.
fn push_rest(
    out: &mut Vec<u8>,
    y: u128,
    whole: u128,
    before: u128,
    spent: &Shares,
) -> Result<(), AllocError>
    requires { before + spent.now.handling ≤ 2 ^ 110 }
    ensures { OnOk result
        (out.new.items ≡ out.old.items ++ model.rest_text y whole before spent.now) }
{
    let begin = share_of(WIDTH, whole, before);
    let end = share_of(WIDTH, whole, before + spent.handling);
    push_piece(out, b"handles", y, begin, end)?;
    push_piece(out, b"idles", y, end, WIDTH)
}

/// Appends the parts of a bar.
fn push_pieces(
    out: &mut Vec<u8>,
    y: u128,
    whole: u128,
    steps: u128,
    spent: &Shares,
) -> Result<(), AllocError>
    requires { whole_of spent.now ≤ 2 ^ 110 }
    ensures { OnOk result
        (out.new.items ≡ out.old.items ++ model.pieces_text y whole steps spent.now) }
{
    push_words(out, y, whole, spent.words, steps)?;
    push_waits(out, y, whole, spent.words, spent)?;
    let before = spent.words + spent.to_read + spent.to_write;
    push_rest(out, y, whole, before, spent)
}

/// Appends how many nodes a row has, and its bar.
fn push_bar(out: &mut Vec<u8>, y: u128, row: &Row) -> Result<(), AllocError>
    requires low { y < 2 ^ 100 }
    requires fits { IsFit row.now }
    ensures { OnOk result (out.new.items ≡ out.old.items ++ model.bar_text y row.now) }
{
    push_numbered(out, b"<text class='scale' x='80' y='", y + 9)?;
    push_numbered(out, b"'>", u128::from(row.nodes))?;
    out.extend_from_slice(b"</text>\n")?;
    push_pieces(out, y, row.spent.whole(), row.steps, &row.spent)
}

/// Appends the bars of rows, one below the other.
fn push_each(out: &mut Vec<u8>, rows: &[Row]) -> Result<(), AllocError>
    requires { All IsFit rows.now }
    ensures { OnOk result (out.new.items ≡ out.old.items ++ model.bars_from 4 rows.now) }
{
    let mut y = 4;
    for row in rows {
        push_bar(out, y, row)?;
        y += 26;
    }
    Ok(())
}

/// Appends the bars of rows, and what they mean.
pub(crate) fn push_bars(out: &mut Vec<u8>, rows: &[Row]) -> Result<(), AllocError>
    requires { All IsFit rows.now }
    ensures { OnOk result (out.new.items ≡ out.old.items ++ model.bars_text rows.now) }
{
    push_numbered(out, bytes_of(Fixed::Bars), 26 * rows.len() as u128)?;
    out.extend_from_slice(b"'>\n")?;
    push_each(out, rows)?;
    out.extend_from_slice(b"</svg>\n")?;
    push_fixed(out, Fixed::Legend)
}
