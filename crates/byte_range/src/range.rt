//! A range of bytes that starts at an address.

ghost use Rattle.std.specs.Prelude.{◌≡◌, ◌+◌, ◌-◌, ◌^◌, ◌<◌, ◌≤◌, ◌++◌, ℕ, IfOk, length};
ghost use Rattle.std.specs.Prelude.{replicate};
ghost use Rattle.rv32_decode.specs.Widths.{size_of};
ghost use Rattle.byte_range.specs.Memory.{raw, stored};
ghost use Rattle.byte_range.specs.Range.{holds, memory_of};

use crate::bytes::{bytes_law, load_at, store_at};
use rv32_decode::Width;
use std::alloc::{AllocError, Global};
use std::marker::Model;

/// The bytes of the addresses from a first one on. Contracts see the first address and the list of
/// the bytes.
#[derive(Drop)]
pub struct ByteRange {
    base: u32,
    bytes: Vec<u8>,
}

impl Model for ByteRange {
    ghost use Rattle.std.specs.Prelude.{◌+◌, ◌^◌, ◌≤◌, length};
    ghost use Rattle.byte_range.specs.Range.{Range};

    ghost Value = { Range };

    ghost view = { λ r. record { base = r.base; bytes = r.bytes.items } };

    ghost invariant = { λ r. r.base + length r.bytes.items ≤ 2 ^ 32 };
}

impl ByteRange {
    /// `len` zero bytes from an address on.
    pub fn zeros(alloc: Global, base: u32, len: usize) -> Result<ByteRange, AllocError>
        requires { base + len ≤ 2 ^ 32 }
        ensures { IfOk result (λ r. r ≡ record { base = base; bytes = replicate len 0 }) }
    {
        ByteRange::of(alloc, base, &[], len)
    }

    /// `len` bytes from an address on: those given, and then zeros.
    pub fn of(alloc: Global, base: u32, bytes: &[u8], len: usize) -> Result<ByteRange, AllocError>
        requires ends { base + len ≤ 2 ^ 32 }
        requires fits { length bytes.now ≤ len }
        ensures { IfOk result (λ r. r ≡ record {
          base = base;
          bytes = bytes.now ++ replicate (len - length bytes.now) 0;
        }) }
    {
        let mut all = Vec::with_capacity(alloc, len)?;
        all.extend_from_slice(bytes)?;
        all.resize(len, 0)?;
        Ok(ByteRange { base, bytes: all })
    }

    /// These bytes, from an address on.
    pub fn of_bytes(base: u32, bytes: Vec<u8>) -> ByteRange
        requires { base + length bytes.items ≤ 2 ^ 32 }
        ensures { result ≡ record { base = base; bytes = bytes.items } }
    {
        ByteRange { base, bytes }
    }

    /// What holds of each byte of a memory that is the range. A caller uses the clause; the call
    /// does nothing.
    pub fn law(&self)
        ensures small { (outside : ℕ → ℕ) (a : ℕ) → outside a < 2 ^ 8
            → memory_of self.now outside a < 2 ^ 8 }
    {
        bytes_law(&self.bytes);
    }

    /// Whether the range has a byte for the address.
    #[inline]
    pub fn holds(&self, address: u32) -> bool
        ensures { result ≡ holds self.now address }
    {
        address >= self.base && ((address - self.base) as usize) < self.bytes.len()
    }

    /// The little-endian number that the bytes from an address on make.
    #[inline(always)]
    pub fn load(&self, width: Width, address: u32) -> u32
        requires starts { self.now.base ≤ address }
        requires ends { address + size_of width ≤ self.now.base + length self.now.bytes }
        ensures value { (outside : ℕ → ℕ) →
            result ≡ raw width (memory_of self.now outside) address }
        ensures byte { width ≡ Width.Byte → result < 2 ^ 8 }
    {
        load_at(&self.bytes, (address - self.base) as usize, width)
    }

    /// Puts the low bits of a value into the bytes from an address on, little-endian.
    #[inline(always)]
    pub fn store(&mut self, width: Width, address: u32, value: u32)
        requires starts { self.old.base ≤ address }
        requires ends { address + size_of width ≤ self.old.base + length self.old.bytes }
        ensures bytes { (outside : ℕ → ℕ) → memory_of self.new outside ≡
            stored width (memory_of self.old outside) address value }
        ensures base { self.new.base ≡ self.old.base }
        ensures len { length self.new.bytes ≡ length self.old.bytes }
    {
        let at = (address - self.base) as usize;
        store_at(&mut self.bytes, at, width, value);
    }
}
