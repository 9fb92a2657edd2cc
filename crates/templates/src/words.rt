//! The words of sequences before jumps have their distances.

ghost use Rattle.std.specs.Prelude.{◌≡◌, ◌<◌, ◌++◌, [], length, slice_get, Some, OnOk, OnErr};

use std::alloc::{AllocError, Global};
use std::marker::Model;

/// A word of a sequence.
#[derive(Clone, Copy, PartialEq, Eq)]
pub enum Item {
    /// A word as it stands in the image.
    Fixed(u32),
    /// A jump to a place: to the head of its sequences, or to its single sequence.
    Jump { place: u32, head: bool },
}

impl Default for Item {
    fn default() -> Item
        ensures value { result ≡ Item.Fixed 0 }
    {
        Item::Fixed(0)
    }
}

/// The words of sequences, one after another. Contracts see their list.
#[derive(Drop)]
pub struct Words {
    items: Vec<Item>,
}

impl Model for Words {
    ghost use Rattle.std.specs.Prelude.{List};
    ghost use Rattle.templates.specs.declared.words.Item.{Item};

    ghost Value = { List Item };

    ghost view = { λ w. w.items.items };
}

impl Words {
    /// No word as yet.
    pub fn new(alloc: Global) -> Words
        ensures value { result ≡ [] }
    {
        Words {
            items: Vec::new(alloc),
        }
    }

    /// The number of words.
    pub fn len(&self) -> usize
        ensures value { result ≡ length self.now }
    {
        self.items.len()
    }

    /// The word of a number.
    pub fn get(&self, k: usize) -> Item
        requires within { k < length self.now }
        ensures value { slice_get self.now k ≡ Some result }
    {
        self.items[k]
    }

    /// The words, in order.
    pub fn items(&self) -> &[Item]
        ensures value { result.now ≡ self.now }
    {
        &self.items
    }

    /// Drops all words, and keeps their memory.
    pub fn clear(&mut self)
        ensures value { self.new ≡ [] }
    {
        self.items.clear();
    }

    /// Appends words.
    pub(crate) fn extend(&mut self, items: &[Item]) -> Result<(), AllocError>
        ensures ok { OnOk result (self.new ≡ self.old ++ items.now) }
        ensures err { OnErr result (self.new ≡ self.old) }
    {
        self.items.extend_from_slice(items)?;
        Ok(())
    }
}
