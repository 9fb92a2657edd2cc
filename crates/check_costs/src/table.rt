//! The counts of functions as a table.

ghost use Rattle.std.specs.Prelude.{◌≡◌, ◌+◌, ◌<◌, ◌∷◌, ◌++◌, [], ℕ, length, nat_lt, IfOk, OnOk};
ghost use Rattle.std.specs.Prelude.{if◌then◌else◌};
ghost use Rattle.check_costs.specs.Counts.{total};
ghost use Rattle.check_costs.specs.Text as model;
ghost use Rattle.check_costs.specs.Text.{IsOrder, IsTable, AreUpTo};

use crate::counts::WordCounts;
use elf_symbols::{Symbols, push_shown};
use itoa::Buffer;
use std::alloc::{AllocError, Global};

/// How many characters a column takes at least, after the space before it.
const WIDTH: usize = 7;

/// What the first column of a table counts: the instructions of code, or the steps of a run.
#[derive(Clone, Copy, PartialEq, Eq)]
pub enum Counted {
    Instructions,
    Steps,
}

/// A row of the table: a function by its number, and its counts.
#[derive(Clone, Copy)]
pub struct FunctionCounts {
    pub function: usize,
    pub counts: WordCounts,
}

/// The table of these counts, as a text: a line for each function that has words, those with most
/// words added first, and last the line of their sum. Fails also where a count has no room.
pub fn table_of(
    alloc: Global,
    counted: Counted,
    symbols: &Symbols<'_>,
    counts: &[WordCounts],
) -> Result<Vec<u8>, AllocError>
    ensures { IfOk result (λ text. IsTable counted symbols.now counts.now text.items) }
{
    let ranked = in_order(alloc, counts)?;
    let sum = sum_of(counts)?;
    let mut text = Vec::new(alloc);
    push_head(counted, &mut text)?;
    push_rows(symbols, &ranked, &mut text)?;
    push_sum(&sum, &mut text)?;
    Ok(text)
}

/// The sum of counts. Fails where that has no room.
fn sum_of(counts: &[WordCounts]) -> Result<WordCounts, AllocError>
    ensures { IfOk result (λ c. c ≡ total counts.now) }
{
    let mut sum = WordCounts::of(0, &[]);
    for more in counts {
        match sum.plus(more) {
            Some(both) => sum = both,
            None => return Err(AllocError),
        }
    }
    Ok(sum)
}

/// The rows of functions that have words, those with most words added first.
fn in_order(alloc: Global, counts: &[WordCounts]) -> Result<Vec<FunctionCounts>, AllocError>
    ensures { IfOk result (λ v. IsOrder (model.rows counts.now) v.items) }
{
    let mut rows = rows_of(alloc, counts)?;
    sort(&mut rows)?;
    Ok(rows)
}

/// Sorts rows by the words added, the most first, and those that add as many by their functions.
fn sort(rows: &mut Vec<FunctionCounts>) -> Result<(), AllocError>
    requires { (n : ℕ) × AreUpTo rows.old.items n }
    ensures { OnOk result (IsOrder rows.old.items rows.new.items) }
{
    rows.sort_by_key(|r| usize::MAX - added(&r.counts))?;
    Ok(())
}

/// The words that the original hasn't.
fn added(counts: &WordCounts) -> usize
    ensures { result ≡ model.added counts.now }
{
    counts.words.saturating_sub(counts.instructions)
}

/// The rows of functions that have words, in the order of the table.
fn rows_of(alloc: Global, counts: &[WordCounts]) -> Result<Vec<FunctionCounts>, AllocError>
    ensures value { IfOk result (λ v. v.items ≡ model.rows counts.now) }
    ensures ascending { IfOk result (λ v. AreUpTo v.items (length counts.now)) }
{
    let mut rows = Vec::new(alloc);
    for function in 0..counts.len() {
        push_row(&mut rows, row_at(counts, function))?;
    }
    Ok(rows)
}

/// The row of a function.
fn row_at(counts: &[WordCounts], function: usize) -> FunctionCounts
    requires { function < length counts.now }
    ensures { result ≡ model.row_at counts.now function }
{
    FunctionCounts {
        function,
        counts: counts[function],
    }
}

/// Appends a row, if it has words.
fn push_row(rows: &mut Vec<FunctionCounts>, row: FunctionCounts) -> Result<(), AllocError>
    ensures items { OnOk result (rows.new.items
        ≡ rows.old.items ++ (if nat_lt 0 row.counts.words then row ∷ [] else [])) }
    ensures ascending { OnOk result
        (AreUpTo rows.old.items row.function → AreUpTo rows.new.items (row.function + 1)) }
{
    if row.counts.words > 0 {
        rows.push(row)?;
    }
    Ok(())
}

/// Appends the line that says what stands in the columns.
#[tactic(auto, unfolding(crate::specs::Text::columns))]
fn push_head(counted: Counted, out: &mut Vec<u8>) -> Result<(), AllocError>
    ensures { OnOk result (out.new.items ≡ out.old.items ++ model.head counted) }
{
    push_first_column(counted, out)?;
    out.extend_from_slice(b"   words per 100     own    flag   state   store")?;
    out.extend_from_slice(b"   batch    poll    jump   spill  function\n")?;
    Ok(())
}

/// Appends what the first column counts.
fn push_first_column(counted: Counted, out: &mut Vec<u8>) -> Result<(), AllocError>
    ensures { OnOk result (out.new.items ≡ out.old.items ++ model.first_column counted) }
{
    match counted {
        Counted::Instructions => out.extend_from_slice(b"  instrs")?,
        Counted::Steps => out.extend_from_slice(b"   steps")?,
    }
    Ok(())
}

/// Appends the lines of rows.
fn push_rows(
    symbols: &Symbols<'_>,
    rows: &[FunctionCounts],
    out: &mut Vec<u8>,
) -> Result<(), AllocError>
    ensures { OnOk result (out.new.items
        ≡ out.old.items ++ model.row_lines symbols.now rows.now) }
{
    for row in rows {
        push_line(symbols, row, out)?;
    }
    Ok(())
}

/// Appends the line of a row: its numbers, and the name of its function.
fn push_line(
    symbols: &Symbols<'_>,
    row: &FunctionCounts,
    out: &mut Vec<u8>,
) -> Result<(), AllocError>
    ensures { OnOk result (out.new.items
        ≡ out.old.items ++ model.row_line symbols.now row.now) }
{
    push_numbers(&row.counts, out)?;
    out.extend_from_slice(b"  ")?;
    push_name(symbols, row.function, out)?;
    out.extend_from_slice(b"\n")?;
    Ok(())
}

/// Appends the line of a sum.
fn push_sum(sum: &WordCounts, out: &mut Vec<u8>) -> Result<(), AllocError>
    ensures { OnOk result (out.new.items ≡ out.old.items ++ model.sum_line sum.now) }
{
    push_numbers(sum, out)?;
    out.extend_from_slice(b"  all code\n")?;
    Ok(())
}

/// Appends the name of a function, as it is shown.
fn push_name(symbols: &Symbols<'_>, function: usize, out: &mut Vec<u8>) -> Result<(), AllocError>
    ensures { OnOk result (out.new.items
        ≡ out.old.items ++ model.name_of symbols.now function) }
{
    match symbols.functions().get(function) {
        Some(symbol) => push_shown(out, symbol.name)?,
        None => out.extend_from_slice(b"in no function")?,
    }
    Ok(())
}

/// Appends the numbers of a line.
fn push_numbers(counts: &WordCounts, out: &mut Vec<u8>) -> Result<(), AllocError>
    ensures { OnOk result (out.new.items ≡ out.old.items ++ model.numbers_text counts.now) }
{
    push_number(counts.instructions, out)?;
    push_number(counts.words, out)?;
    push_per_hundred(counts.words, counts.instructions, out)?;
    push_checks(counts, out)?;
    push_others(counts, out)?;
    Ok(())
}

/// Appends the words of the original, and those that check its accesses.
fn push_checks(counts: &WordCounts, out: &mut Vec<u8>) -> Result<(), AllocError>
    ensures { OnOk result (out.new.items ≡ out.old.items ++ model.checks_text counts.now) }
{
    push_number(counts.own, out)?;
    push_number(counts.flag_checks, out)?;
    push_number(counts.state_checks, out)?;
    push_number(counts.store_checks, out)?;
    Ok(())
}

/// Appends the words of the other kinds.
fn push_others(counts: &WordCounts, out: &mut Vec<u8>) -> Result<(), AllocError>
    ensures { OnOk result (out.new.items ≡ out.old.items ++ model.others_text counts.now) }
{
    push_number(counts.batches, out)?;
    push_number(counts.polls, out)?;
    push_number(counts.jumps, out)?;
    push_number(counts.spills, out)?;
    Ok(())
}

/// Appends how many words there are for 100 instructions.
fn push_per_hundred(words: usize, instructions: usize, out: &mut Vec<u8>) -> Result<(), AllocError>
    ensures { OnOk result (out.new.items
        ≡ out.old.items ++ model.column (model.per_hundred words instructions)) }
{
    if instructions == 0 {
        return push_column(b"-", out);
    }
    let mut buffer = Buffer::new();
    let hundreds = words as u128 * 100 / instructions as u128;
    push_column(buffer.format(hundreds).as_bytes(), out)
}

/// Appends a number in its column.
fn push_number(n: usize, out: &mut Vec<u8>) -> Result<(), AllocError>
    ensures { OnOk result (out.new.items ≡ out.old.items ++ model.number n) }
{
    let mut buffer = Buffer::new();
    push_column(buffer.format(n).as_bytes(), out)
}

/// Appends a text at the right of its column, after a space at least.
fn push_column(text: &[u8], out: &mut Vec<u8>) -> Result<(), AllocError>
    ensures { OnOk result (out.new.items ≡ out.old.items ++ model.column text.now) }
{
    out.push(b' ')?;
    out.resize(out.len() + WIDTH.saturating_sub(text.len()), b' ')?;
    out.extend_from_slice(text)?;
    Ok(())
}
