//! The lists that a record has.

ghost use Rattle.std.specs.Prelude.{◌≡◌};
ghost use Rattle.run_record.specs.Lists.{items_of};

use block_layout::BlockRange;
use node_model::Entry;
use std::marker::Model;

/// The ranges of a layout, in its order. Contracts see the list of them.
#[derive(Drop)]
pub struct Blocks {
    ranges: Vec<BlockRange>,
}

impl Model for Blocks {
    ghost use Rattle.std.specs.Prelude.{List};
    ghost use Rattle.block_layout.specs.declared.layout.BlockRange.{BlockRange};

    ghost Value = { List BlockRange };

    ghost view = { λ b. b.ranges.items };
}

impl Blocks {
    /// The ranges of a vector. Takes no memory.
    pub fn of(ranges: Vec<BlockRange>) -> Blocks
        ensures { result ≡ ranges.items }
    {
        Blocks { ranges }
    }

    /// The ranges.
    pub fn as_slice(&self) -> &[BlockRange]
        ensures { result.now ≡ self.now }
    {
        &self.ranges
    }
}

/// For each node, from 0 on, the messages that it took. Contracts see the list of the lists.
#[derive(Drop)]
pub struct Journals {
    journals: Vec<Vec<Entry>>,
}

impl Model for Journals {
    ghost use Rattle.std.specs.Prelude.{List};
    ghost use Rattle.node_model.specs.declared.Entry.{Entry};
    ghost use Rattle.run_record.specs.Lists.{items_of};

    ghost Value = { List (List Entry) };

    ghost view = { λ j. items_of j.journals.items };
}

impl Journals {
    /// The journals of a vector. Takes no memory.
    pub fn of(journals: Vec<Vec<Entry>>) -> Journals
        ensures { result ≡ items_of journals.items }
    {
        Journals { journals }
    }

    /// The journals.
    pub fn as_slice(&self) -> &[Vec<Entry>]
        ensures { items_of result.now ≡ self.now }
    {
        &self.journals
    }
}
