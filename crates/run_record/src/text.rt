//! The text of a record, put at the end of what is there.

ghost use Rattle.std.specs.Prelude.{◌≡◌, ◌++◌, ◌∷◌, [], ℕ, All, OnOk};
ghost use Rattle.std.specs.Fmt.{decimal};
ghost use Rattle.rv32_text.specs.Listing.{word_digits};
ghost use Rattle.run_record.specs.Lists.{items_of};
ghost use Rattle.run_record.specs.Record.{IsRecord, AreTakesBehind};
ghost use Rattle.run_record.specs.Text as model;

use crate::Record;
use crate::line::TakeLine;
use crate::version::Version;
use block_layout::BlockRange;
use itoa::Buffer;
use node_model::Entry;
use rv32_text::push_word;
use std::alloc::AllocError;

/// Appends the text of a record.
#[tactic(auto, unfolding(crate::specs::Text::record_text))]
pub(crate) fn push_record(text: &mut Vec<u8>, r: &Record) -> Result<(), AllocError>
    requires record { IsRecord r.now }
    ensures { OnOk result (text.new.items ≡ text.old.items ++ model.record_text r.now) }
{
    push_head(text, r)?;
    push_blocks(text, r.blocks.as_slice())?;
    push_journals(text, Version::of_code(r.code), r.journals.as_slice())?;
    Ok(())
}

/// Appends the lines that stand before those of the blocks.
fn push_head(text: &mut Vec<u8>, r: &Record) -> Result<(), AllocError>
    ensures { OnOk result (text.new.items ≡ text.old.items ++ model.head r.now) }
{
    text.extend_from_slice(Version::of_code(r.code).line())?;
    push_settings(text, r)?;
    Ok(())
}

/// Appends the lines of the nodes, the budget, the batching and the rewritten words.
fn push_settings(text: &mut Vec<u8>, r: &Record) -> Result<(), AllocError>
    ensures { OnOk result (text.new.items ≡ text.old.items ++ model.settings r.now) }
{
    push_number_line(text, b"nodes ", u64::from(r.nodes))?;
    push_number_line(text, b"budget ", r.budget)?;
    text.extend_from_slice(batch_line(r.batch))?;
    push_code(text, r.code)?;
    Ok(())
}

/// Appends the line of the rewritten words, where their number is named.
fn push_code(text: &mut Vec<u8>, code: Option<u32>) -> Result<(), AllocError>
    ensures { OnOk result (text.new.items ≡ text.old.items ++ model.code_line code) }
{
    match code {
        Some(words) => push_number_line(text, b"code ", u64::from(words)),
        None => Ok(()),
    }
}

/// The line that says whether checks were batched.
fn batch_line(batch: bool) -> &'static [u8]
    ensures { result.now ≡ model.batch_line batch }
{
    if batch { b"batch 1\n" } else { b"batch 0\n" }
}

/// Appends a line for each range.
fn push_blocks(text: &mut Vec<u8>, ranges: &[BlockRange]) -> Result<(), AllocError>
    ensures { OnOk result (text.new.items ≡ text.old.items ++ model.block_lines ranges.now) }
{
    for range in ranges {
        push_block(text, *range)?;
    }
    Ok(())
}

/// Appends the line of a range.
fn push_block(text: &mut Vec<u8>, range: BlockRange) -> Result<(), AllocError>
    ensures { OnOk result (text.new.items ≡ text.old.items ++ model.block_line range) }
{
    push_place(text, b"block 0x", range.start)?;
    push_place(text, b" 0x", range.length)?;
    push_number_after(text, b" ", u64::from(range.block))?;
    push_home(text, range.home)?;
    Ok(())
}

/// Appends the end of a range's line.
fn push_home(text: &mut Vec<u8>, home: Option<u8>) -> Result<(), AllocError>
    ensures { OnOk result (text.new.items ≡ text.old.items ++ model.home_end home) }
{
    match home {
        Some(node) => push_number_line(text, b" ", u64::from(node)),
        None => text.extend_from_slice(b" *\n"),
    }
}

/// Appends the lines of each node, from 0 on.
fn push_journals(
    text: &mut Vec<u8>,
    version: Version,
    journals: &[Vec<Entry>],
) -> Result<(), AllocError>
    requires { (nodes : ℕ) × All (AreTakesBehind nodes 0) (items_of journals.now) }
    ensures { OnOk result (text.new.items ≡ text.old.items
        ++ model.journal_lines version 0 (items_of journals.now)) }
{
    for (node, journal) in journals.iter().enumerate() {
        push_journal(text, version, node as u64, journal)?;
    }
    Ok(())
}

/// Appends the lines of a node.
fn push_journal(
    text: &mut Vec<u8>,
    version: Version,
    node: u64,
    journal: &[Entry],
) -> Result<(), AllocError>
    requires { (nodes : ℕ) × AreTakesBehind nodes 0 journal.now }
    ensures { OnOk result (text.new.items ≡ text.old.items
        ++ model.journal_lines version node (journal.now ∷ [])) }
{
    push_number_line(text, b"node ", node)?;
    push_takes(text, version, journal)?;
    text.extend_from_slice(b"end\n")?;
    Ok(())
}

/// Appends a line for each take. The first comes after stamp 0.
fn push_takes(text: &mut Vec<u8>, version: Version, journal: &[Entry]) -> Result<(), AllocError>
    requires { (nodes : ℕ) × AreTakesBehind nodes 0 journal.now }
    ensures { OnOk result (text.new.items
        ≡ text.old.items ++ model.take_lines version 0 journal.now) }
{
    let mut last = 0;
    for entry in journal {
        push_take(text, version.line_of(last, *entry))?;
        last = entry.stamp;
    }
    Ok(())
}

/// Appends the line of a take.
fn push_take(text: &mut Vec<u8>, take: TakeLine) -> Result<(), AllocError>
    ensures { OnOk result (text.new.items ≡ text.old.items ++ model.take_line take) }
{
    push_number_after(text, b"take ", take.stamp_or_gap)?;
    push_number_after(text, b" ", take.from)?;
    push_number_line(text, b" ", take.words)?;
    Ok(())
}

/// Appends a word and an address in eight hexadecimal digits.
fn push_place(text: &mut Vec<u8>, name: &[u8], address: u32) -> Result<(), AllocError>
    ensures { OnOk result (text.new.items ≡ text.old.items ++ (name.now ++ word_digits address)) }
{
    text.extend_from_slice(name)?;
    push_word(text, address)?;
    Ok(())
}

/// Appends a word and a number, and ends the line.
fn push_number_line(text: &mut Vec<u8>, name: &[u8], number: u64) -> Result<(), AllocError>
    ensures { OnOk result (text.new.items ≡ text.old.items ++ model.number_line name.now number) }
{
    push_number_after(text, name, number)?;
    text.extend_from_slice(b"\n")?;
    Ok(())
}

/// Appends a word and a number.
fn push_number_after(text: &mut Vec<u8>, name: &[u8], number: u64) -> Result<(), AllocError>
    ensures { OnOk result (text.new.items ≡ text.old.items ++ (name.now ++ decimal number)) }
{
    let mut buffer = Buffer::new();
    text.extend_from_slice(name)?;
    text.extend_from_slice(buffer.format(number).as_bytes())?;
    Ok(())
}
