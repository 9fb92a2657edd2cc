//! Loads and stores of bytes in a slice.

ghost use Rattle.std.specs.Prelude.{◌≡◌, ◌+◌, ◌^◌, ◌<◌, ◌≤◌, ℕ, length, slice_index};
ghost use Rattle.rv32_decode.specs.Widths.{size_of};
ghost use Rattle.byte_range.specs.Memory.{raw, stored};

use rv32_decode::Width;

/// The little-endian number that the bytes from a place on make.
#[inline(always)]
pub fn load_at(bytes: &[u8], at: usize, width: Width) -> u32
    requires { at + size_of width ≤ length bytes.now }
    ensures value { result ≡ raw width (slice_index bytes.now) at }
    ensures byte { width ≡ Width.Byte → result < 2 ^ 8 }
{
    match width {
        Width::Byte => u32::from(bytes[at]),
        Width::Half => u32::from(u16::from_le_bytes([bytes[at], bytes[at + 1]])),
        Width::Word => {
            u32::from_le_bytes([bytes[at], bytes[at + 1], bytes[at + 2], bytes[at + 3]])
        }
    }
}

/// Puts the low bits of a value into the bytes from a place on, little-endian.
#[inline(always)]
pub fn store_at(bytes: &mut [u8], at: usize, width: Width, value: u32)
    requires { at + size_of width ≤ length bytes.old }
    ensures { slice_index bytes.new ≡ stored width (slice_index bytes.old) at value }
{
    let [first, second, third, fourth] = value.to_le_bytes();
    match width {
        Width::Byte => bytes[at] = first,
        Width::Half => {
            bytes[at] = first;
            bytes[at + 1] = second;
        }
        Width::Word => {
            bytes[at] = first;
            bytes[at + 1] = second;
            bytes[at + 2] = third;
            bytes[at + 3] = fourth;
        }
    }
}

/// What holds of each byte. A caller uses the clause; the call does nothing.
pub fn bytes_law(bytes: &[u8])
    ensures small { (k : ℕ) → slice_index bytes.now k < 2 ^ 8 }
{
    // brings: each byte fits
    let _count = bytes.len();
}
