//! How an image is made of a plan: count, find the places' heads, and write each sequence.

ghost use Rattle.std.specs.Prelude.{◌≡◌, ◌+◌, ◌^◌, ◌<◌, ◌≤◌, ℕ, true, length, IfOk, OnOk, IsErrOf};
ghost use Rattle.rv32_decode.specs.Fields.{signed};
ghost use Rattle.runtime_words.specs.Reading.{read_word};
ghost use Rattle.templates.specs.Plans.{AscendsFrom};
ghost use Rattle.templates.specs.Code.{code_of};
ghost use Rattle.templates.specs.Sequences.{batch_sequence, items_of};
ghost use Rattle.jump_map.specs.Heads.{program_with};
ghost use Rattle.jump_map.specs.Image.{HasRunsOf, part_of_entry, entry_items, address_in, is_near};
ghost use Rattle.jump_map.specs.Image.{distance, jump_word, address_of_word, most_words};
ghost use Rattle.jump_map.specs.Building.{HasWords, word_count, HasStarts, IsOverlong, HasRunOf};
ghost use Rattle.jump_map.specs.Building.{reads_at, batch_items, AddsItem, AddsItems, AddsPart};

use crate::cells::Cells;
use crate::heads::{Heads, PlaceIndex};
use crate::image::{ImageRefused, MOST_WORDS};
use runtime_words::{RtWord, WordNumber, encode_word};
use rv32_decode::{Instr, JumpOffset, Reg};
use std::alloc::{AllocError, Global};
use templates::{
    Code, Item, Part, Place, Plan, PlanEntry, Words, batch_lengths, expand, expand_batch,
    reload_count, sequence_length,
};

/// How many words a JAL reaches downwards, and one word fewer upwards.
const REACH: u32 = 0x4_0000;

/// The words of a plan, and where those of each place begin.
///
/// Fails with the number of words where they are more than rewritten code may have.
pub(crate) fn build(
    alloc: Global,
    code: &Code,
    plan: &Plan,
) -> Result<(Cells, PlaceIndex), ImageRefused>
    requires ascends { AscendsFrom 0 plan.now }
    requires runs { HasRunsOf code.now plan.now }
    ensures words { IfOk result (λ r. HasWords code.now plan.now r.0) }
    ensures few { IfOk result (λ r. length r.0 ≤ most_words) }
    ensures starts { IfOk result (λ r. HasStarts code.now plan.now r.1) }
    ensures too_large { (w : ℕ) →
        IsErrOf result (ImageRefused.CodeTooLarge w) → IsOverlong code.now plan.now w }
{
    let total = count_words(code, plan.entries());
    if total > MOST_WORDS as u64 {
        return Err(ImageRefused::CodeTooLarge(total));
    }
    let heads = find_heads(alloc, code, plan.entries(), total as u32)?;
    let cells = write_cells(alloc, code, plan.entries(), &heads)?;
    Ok((cells, heads.into_index()))
}

/// The number of words of a plan.
fn count_words(code: &Code, entries: &[PlanEntry]) -> u64
    requires few { length entries.now < 2 ^ 32 }
    requires runs { HasRunsOf code.now entries.now }
    ensures value { result ≡ word_count code.now entries.now }
{
    let mut total: u64 = 1;
    for entry in entries {
        total += u64::from(entry_length(entry, code));
    }
    total
}

/// The number of words of an entry.
fn entry_length(entry: &PlanEntry, code: &Code) -> u8
    requires run { HasRunOf code.now entry.now }
    ensures value { result ≡ length (entry_items (program_with code.now) entry.now) }
    ensures short { result ≤ 56 }
{
    batch_length(entry, code) + sequence_length(entry, code.at(entry.address))
}

/// The number of words of the batch of an entry: none, where no run starts there.
fn batch_length(entry: &PlanEntry, code: &Code) -> u8
    requires run { HasRunOf code.now entry.now }
    ensures value { result ≡ length (batch_sequence (code_of code.now) entry.now) }
    ensures short { result ≤ 42 }
{
    if entry.run == 0 {
        return 0;
    }
    let lengths = batch_lengths(entry, code);
    lengths.head + (lengths.fast + lengths.fallback)
}

/// Where the words of each place begin.
fn find_heads(
    alloc: Global,
    code: &Code,
    entries: &[PlanEntry],
    total: u32,
) -> Result<Heads, AllocError>
    requires ascends { AscendsFrom 0 entries.now }
    requires runs { HasRunsOf code.now entries.now }
    requires total { total ≡ word_count code.now entries.now }
    requires few { total ≤ most_words }
    ensures starts { IfOk result (λ h. HasStarts code.now entries.now h.starts) }
    ensures total { IfOk result (λ h. h.total ≡ total) }
{
    let mut index = PlaceIndex::with_capacity(alloc, entries.len())?;
    let mut next: u32 = 1;
    for entry in entries {
        let single = next + u32::from(batch_length(entry, code));
        index.push(entry.address, next, single)?;
        next = single + u32::from(sequence_length(entry, code.at(entry.address)));
    }
    Ok(Heads::new(index, total))
}

/// The words of a plan: word 0, and the sequences of each place.
fn write_cells(
    alloc: Global,
    code: &Code,
    entries: &[PlanEntry],
    heads: &Heads,
) -> Result<Cells, AllocError>
    requires runs { HasRunsOf code.now entries.now }
    requires total { heads.now.total ≡ word_count code.now entries.now }
    requires few { heads.now.total ≤ most_words }
    requires starts { HasStarts code.now entries.now heads.now.starts }
    ensures words { IfOk result (λ cells. HasWords code.now entries.now cells) }
{
    let mut cells = Cells::with_capacity(alloc, heads.total())?;
    cells.push(encode_word(RtWord::TrapOff), None)?;
    let mut sequence = Words::new(alloc);
    for entry in entries {
        write_batch(&mut cells, &mut sequence, entry, code, heads)?;
        write_single(&mut cells, &mut sequence, entry, code, heads)?;
    }
    Ok(cells)
}

/// Appends the words of the batch of an entry: none, where no run starts there.
fn write_batch(
    cells: &mut Cells,
    sequence: &mut Words,
    entry: &PlanEntry,
    code: &Code,
    heads: &Heads,
) -> Result<(), AllocError>
    requires run { HasRunOf code.now entry.now }
    requires room { length cells.old + length (batch_sequence (code_of code.now) entry.now)
        ≤ most_words }
    ensures words { let items = batch_items (program_with code.now) entry.now in
        OnOk result (AddsItems heads.now items cells.old cells.new) }
{
    if entry.run == 0 {
        return Ok(());
    }
    sequence.clear();
    expand_batch(entry, code, sequence)?;
    let lengths = batch_lengths(entry, code);
    let (head, rest) = sequence.items().split_at(usize::from(lengths.head));
    let (fast, fallback) = rest.split_at(usize::from(lengths.fast));
    write_part(cells, entry, code, Part::Head, head, heads)?;
    write_part(cells, entry, code, Part::Fast, fast, heads)?;
    write_part(cells, entry, code, Part::Fallback, fallback, heads)?;
    Ok(())
}

/// Appends the words of a place's single sequence.
fn write_single(
    cells: &mut Cells,
    sequence: &mut Words,
    entry: &PlanEntry,
    code: &Code,
    heads: &Heads,
) -> Result<(), AllocError>
    requires run { HasRunOf code.now entry.now }
    requires room { let items = items_of entry.now (code_of code.now entry.now.address) in
        length cells.old + length items ≤ most_words }
    ensures words { let items = part_of_entry (program_with code.now) entry.now Part.Single in
        OnOk result (AddsItems heads.now items cells.old cells.new) }
{
    sequence.clear();
    expand(entry, code.at(entry.address), sequence)?;
    write_part(cells, entry, code, Part::Single, sequence.items(), heads)?;
    Ok(())
}

/// Appends the words of a part of an entry's sequences.
fn write_part(
    cells: &mut Cells,
    entry: &PlanEntry,
    code: &Code,
    part: Part,
    items: &[Item],
    heads: &Heads,
) -> Result<(), AllocError>
    requires run { HasRunOf code.now entry.now }
    requires short { length items.now ≤ 42 }
    requires room { length cells.old + length items.now ≤ most_words }
    ensures words { OnOk result (AddsPart heads.now entry.now part items.now cells.old cells.new) }
    ensures count { OnOk result (length cells.new ≡ length cells.old + length items.now) }
{
    let mut word: u8 = 0;
    for item in items {
        let place = Place {
            address: address_in(entry, code, part, word),
            part,
            word,
        };
        write_item(cells, place, item, heads)?;
        word += 1;
    }
    Ok(())
}

/// Where a word of a part belongs: each original word of a run's fast part to its own place, and
/// every other word to the entry's.
fn address_in(entry: &PlanEntry, code: &Code, part: Part, word: u8) -> u32
    requires run { HasRunOf code.now entry.now }
    ensures value { result ≡ address_in entry.now part word }
{
    match part {
        Part::Fast => fast_address(entry, code, word),
        Part::Single | Part::Head | Part::Fallback => entry.address,
    }
}

/// Where a word of a run's fast part belongs.
fn fast_address(entry: &PlanEntry, code: &Code, word: u8) -> u32
    requires run { HasRunOf code.now entry.now }
    ensures value { result ≡ address_in entry.now Part.Fast word }
{
    let first = reload_count(&entry.batch);
    if first <= word && word - first < entry.run {
        code.address_behind(entry.address, word - first)
    } else {
        entry.address
    }
}

/// Appends the word of an item.
fn write_item(cells: &mut Cells, place: Place, item: &Item, heads: &Heads) -> Result<(), AllocError>
    requires room { length cells.old < most_words }
    ensures word { OnOk result (AddsItem heads.now place item.now cells.old cells.new) }
    ensures count { OnOk result (length cells.new ≡ length cells.old + 1) }
{
    let own = cells.len() as u32;
    cells.push(word_of(item, own, heads), Some(place))?;
    Ok(())
}

/// The word of an item, which is the word of that number.
fn word_of(item: &Item, own: u32, heads: &Heads) -> u32
    requires own { own ≤ most_words }
    ensures reads { read_word result ≡ reads_at heads.now own item.now }
{
    match item {
        Item::Fixed(word) => *word,
        Item::Jump { place, .. } => encode_word(jump_word(own, heads.number(*place))),
    }
}

/// The word of one number that goes to the word of another.
fn jump_word(own: u32, head: u32) -> RtWord
    requires own { own ≤ most_words }
    requires head { head ≤ most_words }
    ensures value { result ≡ jump_word (address_of_word own) (address_of_word head) }
{
    if is_near(own, head) {
        RtWord::Native(Instr::Jal {
            rd: Reg::ZERO,
            offset: distance(head, own),
        })
    } else {
        RtWord::Far(WordNumber::new(head))
    }
}

/// Whether a JAL reaches from one word to another.
fn is_near(own: u32, head: u32) -> bool
    requires own { own ≤ most_words }
    requires head { head ≤ most_words }
    ensures { result ≡ is_near (address_of_word own) (address_of_word head) }
{
    own <= head + REACH && head < own + REACH
}

/// The distance from one word to another that a JAL reaches.
fn distance(head: u32, own: u32) -> JumpOffset
    requires head { head ≤ most_words }
    requires own { own ≤ most_words }
    requires near { is_near (address_of_word own) (address_of_word head) ≡ true }
    ensures { result ≡ signed 32 (distance (address_of_word own) (address_of_word head)) }
{
    if own <= head {
        JumpOffset::new((4 * (head - own)) as i32)
    } else {
        JumpOffset::new(-((4 * (own - head)) as i32))
    }
}
