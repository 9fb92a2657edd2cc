//! The bytes of a node's copy.

ghost use Rattle.std.specs.Prelude.{◌≡◌, ◌+◌, ◌-◌, ◌*◌, ◌/◌, ◌^◌, ◌<◌, ◌≤◌, ℕ, [], true, map, IfOk};
ghost use Rattle.std.specs.Prelude.{length, slice_index};
ghost use Rattle.block_layout.specs.Layout.{is_shared, shared_lines, blocks, lines, first_line};
ghost use Rattle.block_layout.specs.Update.{changed};
ghost use Rattle.rv32_decode.specs.Widths.{is_aligned};
ghost use Rattle.byte_range.specs.Memory.{raw, stored};
ghost use Rattle.flag_memory.specs.Copy.{memory, bytes_of, place};
ghost use Rattle.flag_memory.specs.Flag.{flags};
ghost use Rattle.flag_memory.specs.FirstBytes.{first_byte, AreFirstBytes};
ghost use Rattle.flag_memory.specs.Ranges.{range_of};
ghost use Rattle.flag_memory.specs.Bytes.{overwritten, IsByteWritten, IsWritten, AreWritten};

use crate::first::{FirstBytes, FirstRange};
use block_layout::{Block, Layout, layout_law};
use buf_pool::Buf;
use byte_range::{bytes_law, load_at, store_at};
use rv32_decode::Width;
use std::alloc::{AllocError, Global};
use std::marker::Model;

/// A node's copy of the shared memory. Contracts see the layout that it was made with, and the
/// bytes of the shared lines, ascending.
#[derive(Drop)]
pub struct Copy32 {
    layout: Layout,
    bytes: Vec<u8>,
}

impl Model for Copy32 {
    ghost use Rattle.flag_memory.specs.Copy.{Copy as Seen, IsCopy};

    ghost Value = { Seen };

    ghost view = { λ c. record { layout = c.layout; bytes = c.bytes.items } };

    ghost invariant = { λ c. IsCopy c.layout c.bytes.items };
}

impl Copy32 {
    /// A copy that holds the first contents of the shared lines, and 0 where there are none.
    pub fn new(alloc: Global, layout: &Layout, first: &FirstBytes<'_>) -> Result<Copy32, AllocError>
        ensures layout { IfOk result (λ c. c.layout ≡ layout.now) }
        ensures bytes { IfOk result (λ c. (a : ℕ) → is_shared layout.now (a / 64) ≡ true →
            memory c a ≡ first_byte first.now a) }
    {
        layout_law();
        // brings: the layout is valid
        let _blocks = layout.blocks();
        let mut bytes = Vec::new(alloc);
        bytes.resize(64 * layout.shared_lines() as usize, 0)?;
        write_all(&mut bytes, layout, first.as_slice());
        Ok(Copy32 {
            layout: layout.copy(alloc)?,
            bytes,
        })
    }

    /// The little-endian number that the bytes from an address on make.
    pub fn load(&self, address: u32, width: Width) -> u32
        requires shared { is_shared self.now.layout (address / 64) ≡ true }
        requires aligned { is_aligned width address ≡ true }
        ensures value { result ≡ raw width (memory self.now) address }
        ensures byte { width ≡ Width.Byte → result < 2 ^ 8 }
    {
        layout_law();
        match self.layout.place_of(address / 64) {
            Some(place) => {
                let at = 64 * place as usize + (address % 64) as usize;
                load_at(&self.bytes, at, width)
            }
            None => unreachable!(),
        }
    }

    /// The little-endian number that the bytes from an address on make, where it is known at which
    /// place of the copy they begin.
    #[inline(always)]
    pub fn load_at(&self, address: u32, at: u32, width: Width) -> u32
        requires shared { is_shared self.now.layout (address / 64) ≡ true }
        requires aligned { is_aligned width address ≡ true }
        requires place { at ≡ place self.now.layout address }
        ensures value { result ≡ raw width (memory self.now) address }
        ensures byte { width ≡ Width.Byte → result < 2 ^ 8 }
    {
        layout_law();
        load_at(&self.bytes, at as usize, width)
    }

    /// Puts the low bits of a value into the bytes from an address on, little-endian.
    pub fn store(&mut self, address: u32, width: Width, value: u32)
        requires shared { is_shared self.old.layout (address / 64) ≡ true }
        requires aligned { is_aligned width address ≡ true }
        ensures memory { memory self.new ≡ stored width (memory self.old) address value }
        ensures layout { self.new.layout ≡ self.old.layout }
    {
        layout_law();
        match self.layout.place_of(address / 64) {
            Some(place) => {
                let at = 64 * place as usize + (address % 64) as usize;
                store_at(&mut self.bytes, at, width, value);
            }
            None => unreachable!(),
        }
    }

    /// Puts the low bits of a value into the bytes from an address on, little-endian, where it is
    /// known at which place of the copy they begin.
    #[inline(always)]
    pub fn store_at(&mut self, address: u32, at: u32, width: Width, value: u32)
        requires shared { is_shared self.old.layout (address / 64) ≡ true }
        requires aligned { is_aligned width address ≡ true }
        requires place { at ≡ place self.old.layout address }
        ensures memory { memory self.new ≡ stored width (memory self.old) address value }
        ensures layout { self.new.layout ≡ self.old.layout }
    {
        layout_law();
        store_at(&mut self.bytes, at as usize, width, value);
    }

    /// Makes a buffer hold the bytes of a block.
    pub fn take(&self, block: Block, buf: &mut Buf)
        requires block { block < blocks self.now.layout }
        requires room { 64 * lines self.now.layout block ≤ buf.old.room }
        ensures { buf.new ≡ record buf.old { bytes = bytes_of self.now block } }
    {
        layout_law();
        let start = 64 * self.layout.start(block) as usize;
        let len = 64 * self.layout.lines(block) as usize;
        let bytes = &self.bytes;
        buf.fill(&bytes[start..start + len]);
    }

    /// Gives a block these bytes.
    pub fn put(&mut self, block: Block, bytes: &[u8])
        requires block { block < blocks self.old.layout }
        requires len { length bytes.now ≡ 64 * lines self.old.layout block }
        ensures bytes { bytes_of self.new ≡ changed (bytes_of self.old) block bytes.now }
        ensures layout { self.new.layout ≡ self.old.layout }
    {
        layout_law();
        let start = 64 * self.layout.start(block) as usize;
        overwrite(&mut self.bytes, start, bytes);
    }

    /// Makes each word of a block the flag word.
    pub fn fill_flag(&mut self, block: Block)
        requires { block < blocks self.old.layout }
        ensures bytes { let n = 64 * lines self.old.layout block in
            bytes_of self.new ≡ changed (bytes_of self.old) block (flags n) }
        ensures layout { self.new.layout ≡ self.old.layout }
    {
        layout_law();
        let start = 64 * self.layout.start(block) as usize;
        let len = 64 * self.layout.lines(block) as usize;
        fill_at(&mut self.bytes, start, len);
    }
}

/// The bytes of a block are those of its addresses, and each is one. A caller uses the clauses; the
/// call does nothing.
pub fn copy_law(copy: &Copy32)
    ensures len { (b : ℕ) → b < blocks copy.now.layout →
        length (bytes_of copy.now b) ≡ 64 * lines copy.now.layout b }
    ensures bytes { (b k : ℕ) → b < blocks copy.now.layout → k < 64 * lines copy.now.layout b →
        slice_index (bytes_of copy.now b) k
        ≡ memory copy.now (64 * first_line copy.now.layout b + k) }
    ensures small { (a : ℕ) → memory copy.now a < 2 ^ 8 }
{
    layout_law();
    bytes_law(&copy.bytes);
    // brings: the copy has 64 bytes of each shared line of a valid layout
    let _layout = &copy.layout;
}

/// Puts the first contents at their addresses, where those are shared.
fn write_all(bytes: &mut [u8], layout: &Layout, ranges: &[FirstRange<'_>])
    requires ranges { AreFirstBytes (map range_of ranges.now) }
    requires start { AreWritten layout.now bytes.old [] }
    ensures { AreWritten layout.now bytes.new (map range_of ranges.now) }
{
    for range in ranges {
        write(bytes, layout, range.address, range.bytes);
    }
}

/// Puts bytes at the addresses from one on, where those are shared.
fn write(bytes: &mut [u8], layout: &Layout, address: u32, from: &[u8])
    requires fits { address + length from.now ≤ 2 ^ 32 }
    requires len { length bytes.old ≡ 64 * shared_lines layout.now }
    ensures { IsWritten layout.now bytes.old bytes.new address (length from.now) from.now }
{
    for (i, byte) in from.iter().enumerate() {
        write_byte(bytes, layout, address + i as u32, *byte);
    }
}

/// Puts a byte at an address, where it is shared.
fn write_byte(bytes: &mut [u8], layout: &Layout, address: u32, byte: u8)
    requires { length bytes.old ≡ 64 * shared_lines layout.now }
    ensures { IsByteWritten layout.now bytes.old bytes.new address byte }
{
    layout_law();
    // brings: the layout is valid
    let _blocks = layout.blocks();
    match layout.place_of(address / 64) {
        Some(place) => bytes[64 * place as usize + (address % 64) as usize] = byte,
        None => {}
    }
}

/// Puts bytes into others, from a place on.
fn overwrite(all: &mut [u8], start: usize, bytes: &[u8])
    requires { start + length bytes.now ≤ length all.old }
    ensures { all.new ≡ overwritten all.old start bytes.now }
{
    let part = &mut all[start..start + bytes.len()];
    part.copy_from_slice(bytes);
}

/// Fills so many bytes with flag words, from a place on.
fn fill_at(all: &mut [u8], start: usize, len: usize)
    requires { start + len ≤ length all.old }
    ensures { all.new ≡ overwritten all.old start (flags len) }
{
    fill(&mut all[start..start + len]);
}

/// Makes each word the flag word.
fn fill(words: &mut [u8])
    ensures { words.new ≡ flags (length words.old) }
{
    for (i, byte) in words.iter_mut().enumerate() {
        *byte = if i % 4 == 0 { 3 } else { 255 };
    }
}
