#![tactic(auto)]
//! The functions that an executable names, by its symbol table.

ghost use Rattle.std.specs.Prelude.{◌≡◌, ◌++◌, ◌∷◌, [], List, IfOk, map};
ghost use Rattle.elf32_read.specs.Segments.{section_of};
ghost use Rattle.elf_symbols.specs.Given.{IsFound, symbol_of};
ghost use Rattle.elf_symbols.specs.Symbols as model;

mod shown;
mod table;

use elf32_read::{Elf, Section};
pub use shown::push_shown;
use std::alloc::{AllocError, Global};
use std::marker::Model;
use table::functions_in;

/// A function that an executable names.
#[derive(Clone, Copy)]
pub struct Symbol<'a> {
    pub name: &'a [u8],
    /// The address of its first byte.
    pub value: u32,
    /// How many bytes it has.
    pub size: u32,
}

impl<'a> Symbol<'a> {
    ghost use Rattle.std.specs.Prelude.{◌≡◌};
    ghost use Rattle.elf_symbols.specs.Given.{symbol_of};
    ghost use Rattle.elf_symbols.specs.Symbols.{covers};

    /// Whether the byte at an address is one of the function's.
    fn covers(&self, address: u32) -> bool
        ensures { result ≡ covers address (symbol_of self.now) }
    {
        address >= self.value && address - self.value < self.size
    }
}

/// The functions that an executable names, in the order of its table.
#[derive(Drop)]
pub struct Symbols<'a> {
    functions: Vec<Symbol<'a>>,
}

impl<'a> Model for Symbols<'a> {
    ghost use Rattle.std.specs.Prelude.{List, map};
    ghost use Rattle.elf_symbols.specs.Given.{symbol_of};
    ghost use Rattle.elf_symbols.specs.Symbols.{Symbol as OfFunction};

    ghost Value = { List OfFunction };

    ghost view = { λ s. map symbol_of s.functions.items };
}

impl<'a> Symbols<'a> {
    ghost use Rattle.std.specs.Prelude.{◌≡◌, ◌+◌, ◌<◌, ◌≤◌, map, IfOk, IfSome};
    ghost use Rattle.std.specs.Option.{option_map};
    ghost use Rattle.elf_symbols.specs.Given.{symbol_of};
    ghost use Rattle.elf_symbols.specs.Symbols.{functions_of, symbol_at};

    /// Those of an executable, by its sections `.symtab` and `.strtab`; none where it has no such.
    pub fn of(alloc: Global, elf: &Elf<'a>) -> Result<Symbols<'a>, AllocError>
        ensures { IfOk result (λ s. s ≡ functions_of elf.now) }
    {
        let sections = elf.sections();
        let table = bytes_named(sections, b".symtab");
        let names = bytes_named(sections, b".strtab");
        Ok(Symbols {
            functions: functions_in(alloc, table, names)?,
        })
    }

    /// The functions, in the order of the table.
    pub fn functions(&self) -> &[Symbol<'a>]
        ensures { map symbol_of result.now ≡ self.now }
    {
        &self.functions
    }

    /// The function that has the byte at an address: of several the one that begins last, and of
    /// several such the first of the table. Takes time in proportion to the functions.
    #[tactic(auto, using(crate::proofs::Finding::found_is))]
    pub fn symbol_at(&self, address: u32) -> Option<Symbol<'a>>
        ensures function { option_map symbol_of result ≡ symbol_at self.now address }
        ensures within { IfSome result (λ s.
            (s.value ≤ address) × (address < s.value + s.size)) }
    {
        last_at(&self.functions, address)
    }
}

/// Of the functions that have the byte at an address the first that begins last.
fn last_at<'a>(functions: &[Symbol<'a>], address: u32) -> Option<Symbol<'a>>
    ensures found { IsFound (map symbol_of functions.now) address result }
{
    let mut found = None;
    for symbol in functions {
        found = later(found, *symbol, address);
    }
    found
}

/// The function at an address, of those so far and of one more.
#[tactic(auto, using(crate::proofs::Finding::passed_by, crate::proofs::Finding::stays))]
fn later<'a>(found: Option<Symbol<'a>>, symbol: Symbol<'a>, address: u32) -> Option<Symbol<'a>>
    ensures { (seen : List model.Symbol) → IsFound seen address found.entry
        → IsFound (seen ++ symbol_of symbol.entry ∷ []) address result }
{
    if !symbol.covers(address) {
        return found;
    }
    match found {
        None => Some(symbol),
        Some(other) => {
            if other.value >= symbol.value {
                Some(other)
            } else {
                Some(symbol)
            }
        }
    }
}

/// The bytes of the first section of a name, or none.
fn bytes_named<'a>(sections: &[Section<'a>], name: &[u8]) -> &'a [u8]
    ensures { result.now ≡ model.bytes_named name.now (map section_of sections.now) }
{
    for section in sections {
        if section.name == name {
            return section.bytes;
        }
    }
    &[]
}
