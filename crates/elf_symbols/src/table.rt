//! The symbol table of an executable.

ghost use Rattle.std.specs.Prelude.{◌≡◌, ◌+◌, ◌*◌, ◌≤◌, ◌++◌, ◌==◌, length, map, position};
ghost use Rattle.std.specs.Prelude.{IfOk, OnOk};
ghost use Rattle.elf32_read.specs.Fields as fields;
ghost use Rattle.elf32_read.specs.Reading as reading;
ghost use Rattle.elf_symbols.specs.Given.{symbol_of};
ghost use Rattle.elf_symbols.specs.Symbols as model;

use crate::Symbol;
use std::alloc::{AllocError, Global};

/// The length of a symbol in bytes.
const SYMBOL_SIZE: usize = 16;

/// The type of a symbol that is a function (STT_FUNC).
const FUNCTION: u8 = 2;

/// The functions of a table, whose names stand in the bytes of names.
pub(crate) fn functions_in<'a>(
    alloc: Global,
    table: &[u8],
    names: &'a [u8],
) -> Result<Vec<Symbol<'a>>, AllocError>
    ensures { IfOk result (λ all.
        map symbol_of all.items ≡ model.functions_in table.now names.now) }
{
    let mut all = Vec::new(alloc);
    for index in 0..table.len() / SYMBOL_SIZE {
        push_function(&mut all, table, names, index)?;
    }
    Ok(all)
}

/// Appends the symbol of a number, if it is a function with a name.
fn push_function<'a>(
    all: &mut Vec<Symbol<'a>>,
    table: &[u8],
    names: &'a [u8],
    index: usize,
) -> Result<(), AllocError>
    requires { 16 * index + 16 ≤ length table.now }
    ensures { OnOk result (map symbol_of all.new.items
        ≡ map symbol_of all.old.items ++ model.function_in table.now names.now index) }
{
    let symbol = symbol_in(table, names, index);
    if table[SYMBOL_SIZE * index + 12] % 16 == FUNCTION && !symbol.name.is_empty() {
        all.push(symbol)?;
    }
    Ok(())
}

/// The symbol of a number.
fn symbol_in<'a>(table: &[u8], names: &'a [u8], index: usize) -> Symbol<'a>
    requires { 16 * index + 16 ≤ length table.now }
    ensures { symbol_of result ≡ model.symbol_in table.now names.now index }
{
    let start = SYMBOL_SIZE * index;
    Symbol {
        name: name_at(names, word_at(table, start)),
        value: word_at(table, start + 4),
        size: word_at(table, start + 8),
    }
}

/// The halfword at an offset.
fn half_at(table: &[u8], offset: usize) -> u16
    requires { offset + 2 ≤ length table.now }
    ensures { result ≡ fields.half_at table.now offset }
{
    u16::from_le_bytes([table[offset], table[offset + 1]])
}

/// The word at an offset.
fn word_at(table: &[u8], offset: usize) -> u32
    requires { offset + 4 ≤ length table.now }
    ensures { result ≡ fields.word_at table.now offset }
{
    let low = half_at(table, offset);
    let high = half_at(table, offset + 2);
    u32::from(low) + (u32::from(high) << 16)
}

/// The name at an offset in the names: the bytes up to the first that is zero, and none where none
/// is.
fn name_at(names: &[u8], offset: u32) -> &[u8]
    ensures { result.now ≡ reading.name_at names.now offset }
{
    let start = offset as usize;
    if start > names.len() {
        return &[];
    }
    let rest = &names[start..];
    match zero_in(rest) {
        Some(end) => &rest[..end],
        None => &[],
    }
}

/// The place of the first zero byte.
fn zero_in(bytes: &[u8]) -> Option<usize>
    ensures { result ≡ position (λ c. c == 0) bytes.now }
{
    bytes.iter().position(|byte| *byte == 0)
}
