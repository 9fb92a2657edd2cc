//! The bytes of a processor's own window.

ghost use Rattle.std.specs.Prelude.{◌≡◌, ◌^◌, ◌<◌, ℕ, true, Some, None};
ghost use Rattle.std.specs.Prelude.{IfOk, if◌then◌else◌};
ghost use Rattle.rv32_decode.specs.Widths.{is_aligned};
ghost use Rattle.byte_range.specs.Memory.{raw, stored};
ghost use Rattle.byte_range.specs.Window.{window_memory, is_in_window};

use crate::range::ByteRange;
use rv32_decode::Width;
use std::alloc::{AllocError, Global};
use std::marker::Model;

/// The first address of the window. A program's segments end there or below it.
pub const WINDOW_START: u32 = 0x7fff_0000;

/// How many bytes the window has.
const LENGTH: u32 = 0x1_0000;

/// The bytes of the window 0x7fff0000 to 0x7fffffff. Contracts see them as a range.
#[derive(Drop)]
pub struct Window {
    bytes: ByteRange,
}

impl Model for Window {
    ghost use Rattle.byte_range.specs.Range.{Range};
    ghost use Rattle.byte_range.specs.Window.{IsWindow};

    ghost Value = { Range };

    ghost view = { λ w. w.bytes };

    ghost invariant = { λ w. IsWindow w.bytes };
}

impl Window {
    /// A window of zeros.
    pub fn zeros(alloc: Global) -> Result<Window, AllocError>
        ensures zeros { IfOk result (λ w. window_memory w ≡ (λ _. 0)) }
    {
        Ok(Window {
            bytes: ByteRange::zeros(alloc, WINDOW_START, LENGTH as usize)?,
        })
    }

    /// What holds of each byte of the window. A caller uses the clause; the call does nothing.
    pub fn law(&self)
        ensures small { (a : ℕ) → window_memory self.now a < 2 ^ 8 }
    {
        self.bytes.law();
    }

    /// The little-endian number that the bytes from an address on make. `None` exactly where the
    /// address isn't in the window.
    #[inline(always)]
    pub fn load(&self, width: Width, address: u32) -> Option<u32>
        requires { is_aligned width address ≡ true }
        ensures value { result ≡
            (if is_in_window address
            then Some (raw width (window_memory self.now) address) else None) }
        ensures byte { (n : ℕ) → result ≡ Some n → width ≡ Width.Byte → n < 2 ^ 8 }
    {
        if address.wrapping_sub(WINDOW_START) < LENGTH {
            Some(self.bytes.load(width, address))
        } else {
            None
        }
    }

    /// Puts the low bits of a value into the bytes from an address on, little-endian, and says
    /// whether the address is in the window; elsewhere nothing changes.
    #[inline(always)]
    pub fn store(&mut self, width: Width, address: u32, value: u32) -> bool
        requires { is_aligned width address ≡ true }
        ensures found { result ≡ is_in_window address }
        ensures bytes { window_memory self.new ≡
            (if is_in_window address then stored width (window_memory self.old) address value
            else window_memory self.old) }
    {
        let inside = address.wrapping_sub(WINDOW_START) < LENGTH;
        if inside {
            self.bytes.store(width, address, value);
        }
        inside
    }
}
