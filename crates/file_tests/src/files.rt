//! The file of a small program, byte by byte.

use std::alloc::{AllocError, Global};

/// The headers of an executable with 32 bytes of code and 3 of data, as little-endian words.
static HEADERS: [u32; 29] = [
    // e_ident, e_type and e_machine, e_version, e_entry, e_phoff, e_shoff, e_flags
    0x464c457f, 0x00010101, 0, 0, 0x00f30002, 1, 0x10000, 52, 0, 0,
    // e_ehsize and e_phentsize, e_phnum and e_shentsize, e_shnum and e_shstrndx
    0x00200034, 2, 0,
    // the code's program header
    1, 0x1000, 0x10000, 0x10000, 32, 32, 5, 0x1000,
    // the data's program header
    1, 0x2000, 0x20000, 0x20000, 3, 3, 6, 0x1000,
];

/// The code of a program that writes `hi` and ends.
pub static CODE: [u32; 8] = [
    0x000205b7, 0x00100513, 0x00300613, 0x04000893, 0x00000073, 0x00000513, 0x05d00893, 0x00000073,
];

/// Appends words, each with its low byte first.
pub fn push_words(bytes: &mut Vec<u8>, words: &[u32]) -> Result<(), AllocError> {
    for word in words {
        bytes.extend_from_slice(&word.to_le_bytes())?;
    }
    Ok(())
}

/// The file of eight words of code and of the data `hi`, with a line's end.
pub fn example(alloc: Global, code: &[u32; 8]) -> Result<Vec<u8>, AllocError> {
    let mut file = Vec::new(alloc);
    push_words(&mut file, &HEADERS)?;
    file.resize(0x1000, 0)?;
    push_words(&mut file, code)?;
    file.resize(0x2000, 0)?;
    file.extend_from_slice(b"hi\n")?;
    Ok(file)
}
