//! The lines that no protocol changes.

ghost use Rattle.std.specs.Prelude.{◌≡◌, IfOk};
ghost use Rattle.state_table.specs.LineClasses.{AreClasses, class_byte};

use crate::UNMAPPED;
use std::alloc::{AllocError, Global};
use std::marker::Model;

/// Lines of 64 bytes, one after another, and their state byte.
#[derive(Clone, Copy)]
pub struct LineClass {
    /// The number of the first line.
    pub first: u32,
    /// How many lines there are.
    pub lines: u32,
    /// The byte of each.
    pub byte: u8,
}

/// Classes of lines below 2^26, ascending and without overlap. Contracts see the list of them.
///
/// Unlike `Ranges` of `block_layout` they give each line a byte, and an empty class is no fault.
#[derive(Drop)]
pub struct LineClasses {
    items: Vec<LineClass>,
}

impl Model for LineClasses {
    ghost use Rattle.std.specs.Prelude.{List};
    ghost use Rattle.state_table.specs.declared.classes.LineClass.{LineClass};
    ghost use Rattle.state_table.specs.LineClasses.{AreClasses};

    ghost Value = { List LineClass };

    ghost view = { λ c. c.items.items };

    ghost invariant = { λ c. AreClasses c.items.items };
}

impl LineClasses {
    /// The classes of a list. Takes no memory.
    pub fn new(items: Vec<LineClass>) -> LineClasses
        requires { AreClasses items.items }
        ensures { result ≡ items.items }
    {
        LineClasses { items }
    }

    /// The classes, ascending.
    pub fn as_slice(&self) -> &[LineClass]
        ensures value { result.now ≡ self.now }
        ensures classes { AreClasses self.now }
    {
        &self.items
    }

    /// The same classes once more.
    pub fn copy(&self, alloc: Global) -> Result<LineClasses, AllocError>
        ensures { IfOk result (λ c. c ≡ self.now) }
    {
        Ok(LineClasses {
            items: Vec::from_slice(alloc, &self.items)?,
        })
    }

    /// The byte of a line.
    pub fn byte(&self, line: u32) -> u8
        ensures { result ≡ class_byte self.now line }
    {
        byte_in(&self.items, line)
    }
}

/// The byte of a line, by halving.
fn byte_in(items: &[LineClass], line: u32) -> u8
    requires { AreClasses items.now }
    ensures { result ≡ class_byte items.now line }
{
    let place = items.partition_point(|class| class.first <= line);
    if place > 0 && line - items[place - 1].first < items[place - 1].lines {
        items[place - 1].byte
    } else {
        UNMAPPED
    }
}
