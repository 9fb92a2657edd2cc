//! A layout, and its look-ups.

ghost use Rattle.std.specs.Prelude.{◌≡◌, ◌<◌, ◌≤◌, IfOk};
ghost use Rattle.block_layout.specs.Layout as model;
ghost use Rattle.block_layout.specs.Layout.{IsValid, has_line};
ghost use Rattle.block_layout.specs.Index.{IsLastBegun, IsPieceOf};

use crate::index::{BlockRun, Index};
use crate::ranges::Ranges;
use std::alloc::{AllocError, Global};
use std::marker::Model;

/// The bytes of a line.
pub const LINE_BYTES: u32 = 64;

/// The bytes of a page, by which homes go round.
const PAGE_BYTES: u32 = 4096;

/// The number of a block.
pub type Block = u32;

/// A range of shared memory, in bytes.
#[derive(Clone, Copy, PartialEq, Eq)]
pub struct BlockRange {
    /// The address of the first byte.
    pub start: u32,
    /// How many bytes it has.
    pub length: u32,
    /// How many bytes each of its blocks has.
    pub block: u32,
    /// The home of its blocks, where one is named.
    pub home: Option<u8>,
}

/// The blocks of the shared lines. Contracts see the shared lines, the named ranges and the number
/// of nodes.
#[derive(Drop)]
pub struct Layout {
    shared: Ranges,
    named: Vec<BlockRange>,
    nodes: u8,
    index: Index,
}

impl Model for Layout {
    ghost use Rattle.block_layout.specs.Layout.{Shape};
    ghost use Rattle.block_layout.specs.Index.{IsIndex};

    ghost Value = { Shape };

    ghost view = { λ l. record { shared = l.shared; named = l.named.items; nodes = l.nodes } };

    ghost invariant = { λ l. IsIndex
        (record { shared = l.shared; named = l.named.items; nodes = l.nodes }) l.index };
}

impl Layout {
    ghost use Rattle.std.specs.Prelude.{◌≡◌, ◌<◌, ◌≤◌, IfOk};
    ghost use Rattle.block_layout.specs.Layout as model;
    ghost use Rattle.block_layout.specs.Layout.{IsValid};
    ghost use Rattle.block_layout.specs.Index.{IsIndex, IsLastBegun, IsPieceOf};

    /// The layout of these parts.
    pub(crate) fn new(shared: Ranges, named: Vec<BlockRange>, nodes: u8, index: Index) -> Layout
        requires { IsIndex (record { shared = shared; named = named.items; nodes = nodes }) index }
        ensures { result ≡ record { shared = shared; named = named.items; nodes = nodes } }
    {
        Layout {
            shared,
            named,
            nodes,
            index,
        }
    }

    /// The same layout once more.
    pub fn copy(&self, alloc: Global) -> Result<Layout, AllocError>
        ensures { IfOk result (λ l. l ≡ self.now) }
    {
        Ok(Layout {
            shared: self.shared.copy(alloc)?,
            named: Vec::from_slice(alloc, &self.named)?,
            nodes: self.nodes,
            index: self.index.copy(alloc)?,
        })
    }

    /// The number of nodes.
    pub fn nodes(&self) -> u8
        ensures nodes { result ≡ self.now.nodes }
        ensures valid { IsValid self.now }
    {
        self.nodes
    }

    /// The named ranges, in the order of the text.
    pub fn ranges(&self) -> &[BlockRange]
        ensures { result.now ≡ self.now.named }
    {
        &self.named
    }

    /// The number of blocks.
    pub fn blocks(&self) -> u32
        ensures blocks { result ≡ model.blocks self.now }
        ensures valid { IsValid self.now }
    {
        self.index.blocks
    }

    /// The number of shared lines.
    pub fn shared_lines(&self) -> u32
        ensures { result ≡ model.shared_lines self.now }
    {
        self.index.lines
    }

    /// The block of a line. None exactly where the line isn't shared.
    pub fn block_of(&self, line: u32) -> Option<Block>
        ensures { result ≡ model.block_of self.now line }
    {
        let piece = self.piece_before(line)?;
        let place = (line - piece.first) / piece.size;
        if place < piece.count {
            Some(piece.block + place)
        } else {
            None
        }
    }

    /// The place of a line among the shared lines, counted from 0. None exactly where the line
    /// isn't shared.
    pub fn place_of(&self, line: u32) -> Option<u32>
        ensures { result ≡ model.place_of self.now line }
    {
        let piece = self.piece_before(line)?;
        let place = line - piece.first;
        if place / piece.size < piece.count {
            Some(piece.start + place)
        } else {
            None
        }
    }

    /// The last piece that begins at a line or below.
    fn piece_before(&self, line: u32) -> Option<BlockRun>
        ensures { IsLastBegun self.now line result }
    {
        let pieces = &self.index.pieces;
        let behind = pieces.partition_point(|piece| piece.first <= line);
        if behind == 0 {
            None
        } else {
            Some(pieces[behind - 1])
        }
    }

    /// The piece that has a block.
    fn piece_of(&self, block: Block) -> BlockRun
        requires { block < model.blocks self.now }
        ensures { IsPieceOf self.now block result }
    {
        let pieces = &self.index.pieces;
        let behind = pieces.partition_point(|piece| piece.block <= block);
        pieces[behind - 1]
    }

    /// The home of a block.
    pub fn home(&self, block: Block) -> u8
        requires { block < model.blocks self.now }
        ensures home { result ≡ model.home self.now block }
        ensures node { result < self.now.nodes }
    {
        let piece = self.piece_of(block);
        match piece.home {
            Some(home) => home,
            None => {
                let first = piece.first + (block - piece.block) * piece.size;
                (LINE_BYTES * first / PAGE_BYTES % u32::from(self.nodes)) as u8
            }
        }
    }

    /// The first line of a block.
    pub fn first_line(&self, block: Block) -> u32
        requires { block < model.blocks self.now }
        ensures { result ≡ model.first_line self.now block }
    {
        let piece = self.piece_of(block);
        piece.first + (block - piece.block) * piece.size
    }

    /// The number of lines of a block.
    pub fn lines(&self, block: Block) -> u32
        requires { block < model.blocks self.now }
        ensures lines { result ≡ model.lines self.now block }
        ensures few { result ≤ 64 }
    {
        self.piece_of(block).size
    }

    /// The number of shared lines before a block.
    pub fn start(&self, block: Block) -> u32
        requires { block < model.blocks self.now }
        ensures { result ≡ model.start self.now block }
    {
        let piece = self.piece_of(block);
        piece.start + (block - piece.block) * piece.size
    }

    /// Whether a block has a line.
    pub fn has_line(&self, block: Block, line: u32) -> bool
        requires { block < model.blocks self.now }
        ensures { result ≡ model.has_line self.now block line }
    {
        let piece = self.piece_of(block);
        let first = piece.first + (block - piece.block) * piece.size;
        line >= first && line - first < piece.size
    }
}
