//! The bytes of the lines that processors share.

ghost use Rattle.std.specs.Prelude.{◌≡◌, ◌+◌, ◌-◌, ◌*◌, ◌/◌, ◌%◌, ◌^◌, ◌<◌, ℕ, true, false};
ghost use Rattle.std.specs.Prelude.{Some, None, IfOk, MatchOption, is_some, if◌then◌else◌, length};
ghost use Rattle.rv32_decode.specs.Widths.{is_aligned};
ghost use Rattle.byte_range.specs.Memory.{raw, stored};

use crate::range::ByteRange;
use block_layout::LINE_BYTES;
use rv32_decode::Width;
use std::alloc::{AllocError, Global};
use std::marker::Model;

/// Lines of 64 bytes, one after another: the number of the first, and how many there are.
#[derive(Clone, Copy, PartialEq, Eq)]
pub struct LineRange {
    pub first: u32,
    pub count: u32,
}

/// A range of lines, and how many lines the ranges before it have.
#[derive(Clone, Copy)]
struct PlacedRange {
    lines: LineRange,
    start: u32,
}

/// The bytes of the lines of ascending ranges, one line after the other. Contracts see the ranges
/// and the list of the bytes.
#[derive(Drop)]
pub struct LineMemory {
    pieces: Vec<PlacedRange>,
    /// The first address of the first range.
    base: u32,
    /// How many bytes the first range has.
    len: u32,
    /// The bytes, by their place: address 0 is that of the first line's first byte.
    flat: ByteRange,
}

impl Model for LineMemory {
    ghost use Rattle.std.specs.Prelude.{map};
    ghost use Rattle.byte_range.specs.Lines.{LineBytes};
    ghost use Rattle.byte_range.specs.Pieces.{lines_of, IsLineMemory};

    ghost Value = { LineBytes };

    ghost view = { λ m. record { ranges = map lines_of m.pieces.items; bytes = m.flat.bytes } };

    ghost invariant = { λ m. IsLineMemory m.pieces.items m.base m.len m.flat };
}

impl LineMemory {
    ghost use Rattle.byte_range.specs.Lines.{place_of, line_count, lines_memory, Ascend};
    ghost use Rattle.byte_range.specs.Pieces.{offset_in, IsPieceOf};

    /// The bytes of the lines of ranges, which ascend below line 2^25.
    pub fn of(alloc: Global, ranges: &[LineRange], bytes: Vec<u8>) -> Result<LineMemory, AllocError>
        requires ascend { Ascend 0 ranges.now }
        requires whole { length bytes.items ≡ 64 * line_count ranges.now }
        ensures ranges { IfOk result (λ m. m.ranges ≡ ranges.now) }
        ensures bytes { IfOk result (λ m. m.bytes ≡ bytes.items) }
    {
        let mut pieces = Vec::with_capacity(alloc, ranges.len())?;
        let mut start = 0;
        for lines in ranges {
            pieces.push(PlacedRange {
                lines: *lines,
                start,
            })?;
            start += lines.count;
        }
        let (base, len) = match ranges.first() {
            Some(lines) => (LINE_BYTES * lines.first, LINE_BYTES * lines.count),
            None => (0, 0),
        };
        Ok(LineMemory {
            pieces,
            base,
            len,
            flat: ByteRange::of_bytes(0, bytes),
        })
    }

    /// What holds of each byte of the lines. A caller uses the clause; the call does nothing.
    pub fn law(&self)
        ensures small { (outside : ℕ → ℕ) (a : ℕ)
            → is_some (place_of self.now.ranges (a / 64)) ≡ true
            → lines_memory self.now outside a < 2 ^ 8 }
    {
        self.flat.law();
    }

    /// The place of a line among the lines of all ranges, from 0; `None` exactly where no range has
    /// it.
    #[inline(always)]
    pub fn place(&self, line: u32) -> Option<u32>
        requires { line < 2 ^ 26 }
        ensures value { result ≡ place_of self.now.ranges line }
    {
        Some(self.offset(LINE_BYTES * line)? / LINE_BYTES)
    }

    /// Where an address's byte stands among the bytes.
    #[inline(always)]
    fn offset(&self, address: u32) -> Option<u32>
        ensures { result ≡ offset_in self.now.ranges address }
    {
        let offset = address.wrapping_sub(self.base);
        if offset < self.len {
            Some(offset)
        } else if self.pieces.len() < 2 {
            None
        } else {
            self.offset_by_halving(address)
        }
    }

    /// Where an address's byte stands among the bytes, whichever range has it.
    #[inline(never)]
    fn offset_by_halving(&self, address: u32) -> Option<u32>
        ensures { result ≡ offset_in self.now.ranges address }
    {
        let line = address / LINE_BYTES;
        let piece = self.last_piece(line)?;
        let within = line - piece.lines.first;
        if within < piece.lines.count {
            Some(LINE_BYTES * (piece.start + within) + address % LINE_BYTES)
        } else {
            None
        }
    }

    /// The last range that starts at a line or before it: no other one has the line.
    fn last_piece(&self, line: u32) -> Option<PlacedRange>
        ensures { MatchOption result (place_of self.now.ranges line ≡ None)
            (IsPieceOf self.now.ranges line) }
    {
        let behind = self
            .pieces
            .partition_point(|piece| piece.lines.first <= line);
        Some(self.pieces[behind.checked_sub(1)?])
    }

    /// The little-endian number that the bytes from an address on make. `None` exactly where no
    /// range has the address's line.
    #[inline(always)]
    pub fn load(&self, width: Width, address: u32) -> Option<u32>
        requires { is_aligned width address ≡ true }
        ensures found { is_some result ≡ is_some (place_of self.now.ranges (address / 64)) }
        ensures value { (outside : ℕ → ℕ) (n : ℕ) → result ≡ Some n
            → n ≡ raw width (lines_memory self.now outside) address }
        ensures byte { (n : ℕ) → result ≡ Some n → width ≡ Width.Byte → n < 2 ^ 8 }
    {
        let offset = self.offset(address)?;
        Some(self.flat.load(width, offset))
    }

    /// Puts the low bits of a value into the bytes from an address on, little-endian, and says
    /// whether a range has the address's line; elsewhere nothing changes.
    #[inline(always)]
    pub fn store(&mut self, width: Width, address: u32, value: u32) -> bool
        requires { is_aligned width address ≡ true }
        ensures found { result ≡ is_some (place_of self.old.ranges (address / 64)) }
        ensures bytes { (outside : ℕ → ℕ) → lines_memory self.new outside ≡
            (if is_some (place_of self.old.ranges (address / 64))
            then stored width (lines_memory self.old outside) address value
            else lines_memory self.old outside) }
        ensures elsewhere { result ≡ false → self.new ≡ self.old }
        ensures ranges { self.new.ranges ≡ self.old.ranges }
    {
        match self.offset(address) {
            Some(offset) => {
                self.flat.store(width, offset, value);
                true
            }
            None => false,
        }
    }
}
