//! Reads a layout's text.

ghost use Rattle.std.specs.Prelude.{◌≡◌, ℕ, ◌+◌, ◌<◌, ◌≤◌, true, false, ◌∷◌, [], length};
ghost use Rattle.std.specs.Prelude.{position, ◌==◌, IfSome, IfOk, IsErrOf};
ghost use Rattle.std.specs.Prelude.{MatchBool, MatchOption};
ghost use Rattle.block_layout.specs.Layout as model;
ghost use Rattle.block_layout.specs.Layout.{Shape, IsValid};
ghost use Rattle.block_layout.specs.Text.{text_lines, IsLayoutOf, IsFirstFault, IsFirstBroken};
ghost use Rattle.block_layout.specs.Reading.{IsCutRange, IsNew, IsAllShared, LacksShared, Overlaps};
ghost use Rattle.block_layout.specs.Reading.{IsSound, IsBroken, IsAdded, IsFault, IsTaken};
ghost use Rattle.block_layout.specs.Reading.{lines_left};
ghost use Rattle.block_layout.specs.declared.refused.LayoutRule.{LayoutRule as Rules};

use crate::index::Index;
use crate::layout::{BlockRange, LINE_BYTES, Layout};
use crate::named::NamedRanges;
use crate::ranges::Ranges;
use crate::refused::{LayoutRefused, LayoutRule};
use crate::text::{fields_of, says_nothing};
use std::alloc::{AllocError, Global};

/// Whether a block may have this size.
fn is_block_size(bytes: u32) -> bool
    ensures { result ≡ model.is_block_size bytes }
{
    matches!(bytes, 64 | 128 | 256 | 512 | 1024 | 2048 | 4096)
}

/// Whether a range is one block or more.
fn is_whole(range: &BlockRange) -> bool
    requires { model.is_block_size range.now.block ≡ true }
    ensures { result ≡ model.is_whole range.now }
{
    range.length > 0 && range.start % range.block == 0 && range.length % range.block == 0
}

/// Whether each line of a range is shared.
fn is_shared(shared: &Ranges, range: &BlockRange) -> bool
    requires { IsCutRange range.now }
    ensures { MatchBool result (IsAllShared shared.now range.now)
        (LacksShared shared.now range.now) }
{
    let first = range.start / LINE_BYTES;
    for line in first..first + range.length / LINE_BYTES {
        if !shared.has(line) {
            return false;
        }
    }
    true
}

/// Whether no line of a range is in one of the ranges named.
fn is_new(named: &NamedRanges, range: &BlockRange) -> bool
    requires { IsCutRange range.now }
    ensures { MatchBool result (IsNew named.now range.now)
        (Overlaps named.now range.now) }
{
    let first = range.start / LINE_BYTES;
    for line in first..first + range.length / LINE_BYTES {
        if named.range_of(line).is_some() {
            return false;
        }
    }
    true
}

/// The first rule that a range breaks, after the ranges named.
fn rule_broken(
    shared: &Ranges,
    nodes: u8,
    named: &NamedRanges,
    range: &BlockRange,
) -> Option<LayoutRule>
    ensures { MatchOption result (IsSound shared.now nodes named.now range.now)
        (IsBroken shared.now nodes named.now range.now) }
{
    if !is_block_size(range.block) {
        return Some(LayoutRule::BlockSize);
    }
    if !is_whole(range) {
        return Some(LayoutRule::Unaligned);
    }
    if !is_shared(shared, range) {
        return Some(LayoutRule::NotShared);
    }
    if !is_new(named, range) {
        return Some(LayoutRule::Overlap);
    }
    if range.home.is_some_and(|home| home >= nodes) {
        return Some(LayoutRule::Home);
    }
    None
}

/// The ranges named with one more. The range has a number: that of its line, or its own.
fn with_range(
    shared: &Ranges,
    nodes: u8,
    named: NamedRanges,
    range: BlockRange,
    number: usize,
) -> Result<NamedRanges, LayoutRefused>
    requires { IsValid (record { shared = shared.now; named = named; nodes = nodes }) }
    ensures ok { IfOk result (IsAdded shared.now nodes named range) }
    ensures broken { (rule : Rules) (n : ℕ) → IsErrOf result (LayoutRefused.Broken rule n)
        → (n ≡ number) × IsBroken shared.now nodes named range rule }
{
    if let Some(rule) = rule_broken(shared, nodes, &named, &range) {
        return Err(LayoutRefused::Broken { rule, line: number });
    }
    Ok(named.with(range)?)
}

/// The ranges named with what a line adds. The line has a number.
fn with_line(
    shared: &Ranges,
    nodes: u8,
    named: NamedRanges,
    line: &[u8],
    number: usize,
) -> Result<NamedRanges, LayoutRefused>
    requires { IsValid (record { shared = shared.now; named = named; nodes = nodes }) }
    ensures ok { IfOk result (IsTaken shared.now nodes named line.now) }
    ensures fault { (rule : Rules) (n : ℕ) → IsErrOf result (LayoutRefused.Broken rule n)
        → (n ≡ number) × IsFault shared.now nodes named line.now rule }
{
    if says_nothing(line) {
        return Ok(named);
    }
    let Some(range) = fields_of(line) else {
        return Err(LayoutRefused::Broken {
            rule: LayoutRule::Syntax,
            line: number,
        });
    };
    with_range(shared, nodes, named, range, number)
}

/// The place of the first line feed.
fn line_feed_in(text: &[u8]) -> Option<usize>
    ensures { result ≡ position (λ c. c == 10) text.now }
{
    text.iter().position(|byte| *byte == b'\n')
}

/// The first line of a text, and what stands after its line feed.
fn split_line(text: &[u8]) -> (&[u8], Option<&[u8]>)
    ensures lines { text_lines text.now ≡ result.0.now ∷ lines_left result.1 }
    ensures shorter { IfSome result.1 (λ behind. length behind.now < length text.now) }
{
    match line_feed_in(text) {
        Some(end) => (&text[..end], Some(&text[end + 1..])),
        None => (text, None),
    }
}

/// The ranges that a text names.
fn named_in(
    alloc: Global,
    text: &[u8],
    shared: &Ranges,
    nodes: u8,
) -> Result<NamedRanges, LayoutRefused>
    requires { IsValid (record { shared = shared.now; named = []; nodes = nodes }) }
    ensures ok { IfOk result (λ named. IsLayoutOf text.now shared.now nodes
        (record { shared = shared.now; named = named; nodes = nodes })) }
    ensures fault { (rule : Rules) (n : ℕ) → IsErrOf result (LayoutRefused.Broken rule n)
        → IsFirstFault text.now shared.now nodes rule n }
{
    let mut named = NamedRanges::new(alloc);
    let mut rest = Some(text);
    let mut number = 0;
    while let Some(lines) = rest {
        let (line, behind) = split_line(lines);
        number += 1;
        named = with_line(shared, nodes, named, line, number)?;
        rest = behind;
    }
    Ok(named)
}

/// The layout of these parts.
fn layout_of(
    alloc: Global,
    shared: Ranges,
    named: NamedRanges,
    nodes: u8,
) -> Result<Layout, AllocError>
    ghost s: { Shape }
    requires parts { s ≡ record { shared = shared; named = named; nodes = nodes } }
    requires valid { IsValid s }
    ensures { IfOk result (λ l. l ≡ s) }
{
    let index = Index::new(alloc, &shared, &named)?;
    Ok(Layout::new(shared, named.into_vec(), nodes, index))
}

/// The layout without ranges, over shared lines and 1 to 16 nodes: that of an empty text.
pub fn default_layout(alloc: Global, ranges: &Ranges, n: u8) -> Result<Layout, AllocError>
    requires some { 0 < n }
    requires few { n ≤ 16 }
    ensures value { IfOk result
        (λ l. l ≡ record { shared = ranges.now; named = []; nodes = n }) }
    ensures valid { IfOk result IsValid }
{
    let shared = ranges.copy(alloc)?;
    let layout = layout_of(alloc, shared, NamedRanges::new(alloc), n)?;
    Ok(layout)
}

/// Reads the layout of a text over ranges of shared lines and 1 to 16 nodes.
///
/// Lines of the text end with a line feed; the last may lack it. An empty line, a line of spaces
/// and a line that begins with `#` say nothing. Each other line names a range by four fields with
/// spaces between them: its start and its length, each `0x` and 1 to 8 hexadecimal digits; the
/// bytes of a block, 1 to 5 decimal digits; and the home, 1 to 2 decimal digits, or `*` where homes
/// go round. An empty text is the layout without ranges.
///
/// Fails with the first line that breaks a rule, and the first rule that it breaks.
pub fn read_layout(
    alloc: Global,
    text: &[u8],
    ranges: &Ranges,
    n: u8,
) -> Result<Layout, LayoutRefused>
    requires some { 0 < n }
    requires few { n ≤ 16 }
    ensures ok { IfOk result (IsLayoutOf text.now ranges.now n) }
    ensures refused { (rule : Rules) (line : ℕ) → IsErrOf result (LayoutRefused.Broken rule line)
        → IsFirstFault text.now ranges.now n rule line }
{
    let shared = ranges.copy(alloc)?;
    let named = named_in(alloc, text, ranges, n)?;
    Ok(layout_of(alloc, shared, named, n)?)
}

/// The layout with these ranges, over ranges of shared lines and 1 to 16 nodes.
///
/// Fails with the first range that breaks a rule, counted from 1, and the first rule that it
/// breaks.
pub fn layout_with(
    alloc: Global,
    named: &[BlockRange],
    ranges: &Ranges,
    n: u8,
) -> Result<Layout, LayoutRefused>
    requires some { 0 < n }
    requires few { n ≤ 16 }
    ensures value { IfOk result
        (λ l. l ≡ record { shared = ranges.now; named = named.now; nodes = n }) }
    ensures valid { IfOk result IsValid }
    ensures refused { (rule : Rules) (number : ℕ)
        → IsErrOf result (LayoutRefused.Broken rule number)
        → IsFirstBroken named.now ranges.now n rule number }
{
    let shared = ranges.copy(alloc)?;
    let mut taken = NamedRanges::new(alloc);
    for (place, range) in named.iter().enumerate() {
        taken = with_range(ranges, n, taken, *range, place + 1)?;
    }
    Ok(layout_of(alloc, shared, taken, n)?)
}
