//! Files of executables, and texts.

use elf32_read::read_elf;
use exec_map::accept;
use rewriter::{Options, rewrite};
use rv32_asm::assemble;
use std::alloc::{AllocError, Global};
use std::test::Fail;

/// The file header of an executable with two program headers and no section header, and the start
/// of the code's program header.
const HEADERS: &str = "464c457f 00010101 00000000 00000000 00f30002 00000001 00010000 00000034
    00000000 00000000 00200034 00000002 00000000 00000001 00001000 00010000 00010000";

/// Appends words, each of eight hexadecimal digits, with spaces between them.
pub fn push_words(bytes: &mut Vec<u8>, words: &str) -> Result<(), Fail> {
    for word in words.split_whitespace() {
        let word = u32::from_str_radix(word, 16)?;
        bytes.extend_from_slice(&word.to_le_bytes())?;
    }
    Ok(())
}

/// Appends the number of bytes in the file and that in memory.
pub fn push_sizes(bytes: &mut Vec<u8>, in_file: usize, in_memory: u32) -> Result<(), Fail> {
    bytes.extend_from_slice(&u32::try_from(in_file)?.to_le_bytes())?;
    bytes.extend_from_slice(&in_memory.to_le_bytes())?;
    Ok(())
}

/// Appends the words of an assembly text. The first stands at 0x10000. A semicolon ends a line, as
/// a line feed does.
pub fn push_code(alloc: Global, bytes: &mut Vec<u8>, text: &str) -> Result<(), Fail> {
    let lines = text.replace(alloc, ";", "\n")?;
    let text = text_of(alloc, &[".segment rx 0x10000\n", &lines])?;
    let assembled = assemble(alloc, text.as_bytes())?;
    let elf = assembled.elf(alloc)?;
    for segment in elf.segments() {
        bytes.extend_from_slice(segment.bytes)?;
    }
    Ok(())
}

/// The executable of this code and data. The data's memory has `data_size` bytes. The code is an
/// assembly text.
pub fn executable(alloc: Global, code: &str, data: &[u8], data_size: u32) -> Result<Vec<u8>, Fail> {
    let mut words = Vec::new(alloc);
    push_code(alloc, &mut words, code)?;
    let mut file = Vec::new(alloc);
    push_words(&mut file, HEADERS)?;
    push_sizes(&mut file, words.len(), u32::try_from(words.len())?)?;
    push_words(
        &mut file,
        "00000005 00001000 00000001 00002000 00020000 00020000",
    )?;
    push_sizes(&mut file, data.len(), data_size)?;
    push_words(&mut file, "00000006 00001000")?;
    file.resize(0x1000, 0)?;
    file.extend_from_slice(&words)?;
    file.resize(0x2000, 0)?;
    file.extend_from_slice(data)?;
    Ok(file)
}

/// Some texts, one after another.
pub fn text_of(alloc: Global, parts: &[&str]) -> Result<String, AllocError> {
    let mut text = String::new(alloc);
    for part in parts {
        text.push_str(part)?;
    }
    Ok(text)
}

/// The file of the rewritten program of an executable, with batches.
pub fn rewritten_file(alloc: Global, file: &[u8]) -> Result<Vec<u8>, Fail> {
    let elf = read_elf(alloc, file)?;
    let program = accept(alloc, &elf)?;
    let rewritten = rewrite(alloc, &program, Options { batch: true })?;
    let mut out = Vec::new(alloc);
    rewritten.to_elf(alloc, &elf, &mut out)?;
    Ok(out)
}
