//! Layouts that are read, and what each faulty line is refused for.

ghost use Rattle.std.specs.Prelude.{◌<◌, ◌≤◌};

use block_layout::{BlockRange, Layout, LayoutRefused, Lines, Ranges, layout_with, read_layout};
use std::alloc::{AllocError, Global};
use std::test::Fail;

/// `lines` shared lines from the address 0x20000 on.
fn shared(alloc: Global, lines: u32) -> Result<Ranges, AllocError>
    requires some { 0 < lines }
    requires few { lines ≤ 128 }
{
    let mut items = Vec::new(alloc);
    items.push(Lines {
        first: 0x800,
        lines,
    })?;
    Ok(Ranges::new(items))
}

/// The number and the line of the refusal, over one shared line and one node.
fn fault_in(alloc: Global, text: &str) -> Result<Option<(u8, usize)>, Fail> {
    let ranges = shared(alloc, 1)?;
    match read_layout(alloc, text.as_bytes(), &ranges, 1) {
        Ok(_) => Ok(None),
        Err(LayoutRefused::Broken { rule, line }) => Ok(Some((rule.number(), line))),
        Err(error) => Err(Fail::from(error)),
    }
}

/// Texts of layouts, and the number and the line of the refusal, where one is refused.
static TEXTS: [(&str, Option<(u8, usize)>); 14] = [
    ("", None),
    ("\n  \n# one line\n0x00020000   0x40 00064 *", None),
    ("0x20000 0x40 64 00\n", None),
    ("0x20000 0x40 64 0 \n", Some((30, 1))),
    (" 0x20000 0x40 64 0\n", Some((30, 1))),
    ("0x20000\t0x40 64 0\n", Some((30, 1))),
    ("\n0x20000 0x40 64 0\r\n", Some((30, 2))),
    ("0x020020000 0x40 64 0\n", Some((30, 1))),
    ("0x20000 0x40 96 0\n", Some((31, 1))),
    ("0x20020 0x40 64 *\n", Some((32, 1))),
    ("0x20000 0xffffffff 64 0\n", Some((32, 1))),
    ("0x20000 0x80 64 0\n", Some((33, 1))),
    ("0x20000 0x40 64 0\n0x20000 0x40 64 0\n", Some((34, 2))),
    ("0x20000 0x40 64 99\n", Some((35, 1))),
];

/// Fails the test where a text isn't judged so.
fn try_text(alloc: Global, text: &str, wanted: Option<(u8, usize)>) -> Result<(), Fail> {
    if fault_in(alloc, text)? == wanted {
        return Ok(());
    }
    Err(Fail::new(format_args!("{text}")))
}

#[test]
fn judges_lines(rt: HostRuntime) -> Result<(), Fail> {
    for &(text, wanted) in &TEXTS {
        try_text(rt.alloc(), text, wanted)?;
    }
    Ok(())
}

/// Lines, and the block of each.
static BLOCKS: [(u32, Option<u32>); 8] = [
    (0x7ff, None),
    (0x800, Some(0)),
    (0x83f, Some(0)),
    (0x840, Some(1)),
    (0x841, Some(1)),
    (0x842, Some(2)),
    (0x87f, Some(63)),
    (0x880, None),
];

/// Blocks: the home of each, its first line, how many it has, and how many are before it.
static PLACES: [(u32, u8, u32, u32, u32); 3] = [
    (0, 0, 0x800, 64, 0),
    (1, 1, 0x840, 2, 0x40),
    (63, 1, 0x87f, 1, 0x7f),
];

/// Whether lines have these blocks.
fn has_blocks(layout: &Layout) -> bool {
    for &(line, wanted) in &BLOCKS {
        if layout.block_of(line) != wanted {
            return false;
        }
    }
    layout.blocks() == 64 && layout.shared_lines() == 128
}

/// Whether a block has this home, this first line, this number of lines, and this number before it.
fn has_place(layout: &Layout, block: u32, home: u8, first: u32, lines: u32, start: u32) -> bool {
    block < layout.blocks()
        && layout.home(block) == home
        && layout.first_line(block) == first
        && layout.lines(block) == lines
        && layout.start(block) == start
}

/// Whether blocks have these places.
fn has_places(layout: &Layout) -> bool {
    for &(block, home, first, lines, start) in &PLACES {
        if !has_place(layout, block, home, first, lines, start) {
            return false;
        }
    }
    true
}

#[test]
fn numbers_blocks(rt: HostRuntime) -> Result<(), Fail> {
    let ranges = shared(rt.alloc(), 128)?;
    let text = b"0x21000 0x80 128 *\n0x20000 0x1000 4096 0\n";
    let layout = read_layout(rt.alloc(), text, &ranges, 2)?;
    if has_blocks(&layout) && has_places(&layout) {
        return Ok(());
    }
    Err(Fail::from("other blocks"))
}

/// A page of shared lines, with node 1 for its home.
const PAGE: BlockRange = BlockRange {
    start: 0x20000,
    length: 0x1000,
    block: 4096,
    home: Some(1),
};

/// The number and the line of the refusal of the page, named twice.
fn fault_of_two(alloc: Global, ranges: &Ranges) -> Result<(u8, usize), Fail> {
    match layout_with(alloc, &[PAGE, PAGE], ranges, 2) {
        Err(LayoutRefused::Broken { rule, line }) => Ok((rule.number(), line)),
        _ => Err(Fail::from("taken twice")),
    }
}

#[test]
fn takes_ranges(rt: HostRuntime) -> Result<(), Fail> {
    let ranges = shared(rt.alloc(), 128)?;
    let layout = layout_with(rt.alloc(), &[PAGE], &ranges, 2)?;
    let taken = layout.blocks() == 65 && layout.ranges() == [PAGE].as_slice();
    if taken && fault_of_two(rt.alloc(), &ranges)? == (34, 2) {
        return Ok(());
    }
    Err(Fail::from("other ranges"))
}
