//! Little-endian numbers at offsets of a file.

ghost use Rattle.std.specs.Prelude.{◌≡◌, ◌+◌, ◌≤◌, length};
ghost use Rattle.elf32_read.specs.Fields as model;

/// The halfword at an offset.
pub fn half_at(file: &[u8], offset: usize) -> u16
    requires { offset + 2 ≤ length file.now }
    ensures { result ≡ model.half_at file.now offset }
{
    u16::from_le_bytes([file[offset], file[offset + 1]])
}

/// The word at an offset.
pub fn word_at(file: &[u8], offset: usize) -> u32
    requires { offset + 4 ≤ length file.now }
    ensures { result ≡ model.word_at file.now offset }
{
    let low = half_at(file, offset);
    let high = half_at(file, offset + 2);
    u32::from(low) + (u32::from(high) << 16)
}
