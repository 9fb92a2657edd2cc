//! Lines, and ranges of them.

ghost use Rattle.std.specs.Prelude.{◌≡◌, IfOk};
ghost use Rattle.block_layout.specs.Layout.{AreRanges, is_in};

use std::alloc::{AllocError, Global};
use std::marker::Model;

/// Lines of 64 bytes, one after another: the number of the first, and how many there are.
#[derive(Clone, Copy, PartialEq, Eq)]
pub struct Lines {
    pub first: u32,
    pub lines: u32,
}

/// Ranges of lines below 2^26, ascending, without overlap and without an empty one. Contracts see
/// the list of them.
///
/// A line is in them or not; `LineClasses` of `state_table` has a byte for each line as well.
#[derive(Drop)]
pub struct Ranges {
    items: Vec<Lines>,
}

impl Model for Ranges {
    ghost use Rattle.std.specs.Prelude.{List};
    ghost use Rattle.block_layout.specs.declared.ranges.Lines.{Lines};
    ghost use Rattle.block_layout.specs.Layout.{AreRanges};

    ghost Value = { List Lines };

    ghost view = { λ r. r.items.items };

    ghost invariant = { λ r. AreRanges r.items.items };
}

impl Ranges {
    /// The ranges of a list. Takes no memory.
    pub fn new(items: Vec<Lines>) -> Ranges
        requires { AreRanges items.items }
        ensures { result ≡ items.items }
    {
        Ranges { items }
    }

    /// The ranges, ascending.
    pub fn as_slice(&self) -> &[Lines]
        ensures value { result.now ≡ self.now }
        ensures ranges { AreRanges self.now }
    {
        &self.items
    }

    /// The same ranges once more.
    pub fn copy(&self, alloc: Global) -> Result<Ranges, AllocError>
        ensures value { IfOk result (λ r. r ≡ self.now) }
        ensures ranges { AreRanges self.now }
    {
        Ok(Ranges {
            items: Vec::from_slice(alloc, &self.items)?,
        })
    }

    /// Whether a range has the line.
    pub fn has(&self, line: u32) -> bool
        ensures { result ≡ is_in self.now line }
    {
        let items = &self.items;
        let behind = items.partition_point(|range| range.first <= line);
        if behind == 0 {
            return false;
        }
        let range = items[behind - 1];
        line - range.first < range.lines
    }
}
