//! The index of a layout: its blocks as pieces of equal blocks, ascending.

ghost use Rattle.std.specs.Prelude.{◌≡◌, ℕ, ◌+◌, ◌*◌, ◌^◌, ◌<◌, ◌≤◌, true, [], IfOk, OnOk, All};
ghost use Rattle.std.specs.Prelude.{IsTrue, ◌↔◌, find};
ghost use Rattle.block_layout.specs.Layout.{Shape, IsValid, is_shared, is_among, names, lines_in};
ghost use Rattle.block_layout.specs.Layout.{named_home};
ghost use Rattle.block_layout.specs.Index.{IsIndexBelow, AddsPiece, IsFollowedBy};

use crate::layout::{Block, LINE_BYTES};
use crate::named::NamedRanges;
use crate::ranges::{Lines, Ranges};
use std::alloc::{AllocError, Global};

/// Blocks of one size and home, one after another.
#[derive(Clone, Copy)]
pub(crate) struct BlockRun {
    /// The first line.
    pub(crate) first: u32,
    /// How many lines each block has.
    pub(crate) size: u32,
    /// How many blocks there are.
    pub(crate) count: u32,
    /// Their home, where one is named.
    pub(crate) home: Option<u8>,
    /// The number of the first block.
    pub(crate) block: Block,
    /// The number of shared lines before the first block.
    pub(crate) start: u32,
}

/// The blocks and shared lines below a line.
#[derive(Drop)]
pub(crate) struct Index {
    /// The blocks, ascending.
    pub(crate) pieces: Vec<BlockRun>,
    /// How many blocks there are.
    pub(crate) blocks: u32,
    /// How many shared lines there are.
    pub(crate) lines: u32,
}

impl BlockRun {
    /// Whether a piece goes on with the blocks of this one.
    fn is_followed_by(&self, next: &BlockRun) -> bool
        requires { self.now.first + self.now.count * self.now.size ≤ next.now.first }
        ensures { IsTrue result ↔ IsFollowedBy self.now next.now }
    {
        self.size == next.size
            && self.home == next.home
            && self.first + self.count * self.size == next.first
    }
}

/// Adds a block to the pieces, as one of the last piece's where it goes on with them.
fn add_piece(pieces: &mut Vec<BlockRun>, next: BlockRun) -> Result<(), AllocError>
    requires ends { All (λ p. p.first + p.count * p.size ≤ next.first) pieces.old.items }
    requires counts { All (λ p. p.count ≤ 2 ^ 26) pieces.old.items }
    ensures { OnOk result (AddsPiece pieces.old.items next pieces.new.items) }
{
    let Some(last) = pieces.pop() else {
        pieces.push(next)?;
        return Ok(());
    };
    if last.is_followed_by(&next) {
        pieces.push(BlockRun {
            count: last.count + 1,
            ..last
        })?;
        return Ok(());
    }
    pieces.push(last)?;
    pieces.push(next)?;
    Ok(())
}

/// How many lines the block of a line has, and the home that is named for it.
fn block_at(named: &NamedRanges, line: u32) -> (u32, Option<u8>)
    ensures size { result.0 ≡ lines_in (find (names line) named.now) }
    ensures home { result.1 ≡ named_home (find (names line) named.now) }
{
    match named.range_of(line) {
        Some(range) => (range.block / LINE_BYTES, range.home),
        None => (1, None),
    }
}

/// Adds a shared line to the index of the lines below it.
fn add_line(index: &mut Index, named: &NamedRanges, line: u32) -> Result<(), AllocError>
    ghost s: { Shape }
    requires valid { IsValid s }
    requires named { named.now ≡ s.named }
    requires shared { is_shared s line ≡ true }
    requires below { IsIndexBelow s line index.old }
    ensures { OnOk result (IsIndexBelow s (line + 1) index.new) }
{
    let (size, home) = block_at(named, line);
    if line % size != 0 {
        index.lines += 1;
        return Ok(());
    }
    let next = BlockRun {
        first: line,
        size,
        count: 1,
        home,
        block: index.blocks,
        start: index.lines,
    };
    add_piece(&mut index.pieces, next)?;
    index.blocks += 1;
    index.lines += 1;
    Ok(())
}

/// Adds the lines of a range of shared lines to the index of the lines below it.
fn add_lines(index: &mut Index, named: &NamedRanges, range: &Lines) -> Result<(), AllocError>
    ghost s: { Shape }
    requires valid { IsValid s }
    requires named { named.now ≡ s.named }
    requires shared { (line : ℕ) → is_among line range.now ≡ true → is_shared s line ≡ true }
    requires low { range.now.first + range.now.lines ≤ 2 ^ 26 }
    requires below { IsIndexBelow s range.now.first index.old }
    ensures { OnOk result (IsIndexBelow s (range.now.first + range.now.lines) index.new) }
{
    for line in range.first..range.first + range.lines {
        add_line(index, named, line)?;
    }
    Ok(())
}

impl Index {
    /// The index of all lines.
    pub(crate) fn new(
        alloc: Global,
        shared: &Ranges,
        named: &NamedRanges,
    ) -> Result<Index, AllocError>
        ghost s: { Shape }
        requires valid { IsValid s }
        requires shared { shared.now ≡ s.shared }
        requires named { named.now ≡ s.named }
        ensures { IfOk result (IsIndexBelow s (2 ^ 26)) }
    {
        let mut index = Index {
            pieces: Vec::new(alloc),
            blocks: 0,
            lines: 0,
        };
        for range in shared.as_slice() {
            add_lines(&mut index, named, range)?;
        }
        Ok(index)
    }

    /// The same index once more.
    pub(crate) fn copy(&self, alloc: Global) -> Result<Index, AllocError>
        ensures pieces { IfOk result (λ x. x.pieces.items ≡ self.now.pieces.items) }
        ensures blocks { IfOk result (λ x. x.blocks ≡ self.now.blocks) }
        ensures lines { IfOk result (λ x. x.lines ≡ self.now.lines) }
    {
        Ok(Index {
            pieces: Vec::from_slice(alloc, &self.pieces)?,
            blocks: self.blocks,
            lines: self.lines,
        })
    }
}
