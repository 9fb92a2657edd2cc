//! The ranges that a text names.

ghost use Rattle.std.specs.Prelude.{◌≡◌, ◌+◌, ◌/◌, ◌<◌, List, []};
ghost use Rattle.std.specs.Prelude.{◌∷◌, ◌++◌, find, IfOk};
ghost use Rattle.block_layout.specs.Layout.{names};
ghost use Rattle.block_layout.specs.Reading.{IsNew, IsCutRange};

use crate::layout::{BlockRange, LINE_BYTES};
use std::alloc::{AllocError, Global};
use std::collections::BTreeMap;
use std::marker::Model;

/// Ranges that have no line in common, and an index of their lines. Contracts see the list of the
/// ranges, in the order in which they came.
#[derive(Drop)]
pub(crate) struct NamedRanges {
    ranges: Vec<BlockRange>,
    range_at: BTreeMap<u32, BlockRange>,
}

impl Model for NamedRanges {
    ghost use Rattle.std.specs.Prelude.{List};
    ghost use Rattle.block_layout.specs.declared.layout.BlockRange.{BlockRange};
    ghost use Rattle.block_layout.specs.Reading.{MapsLines};

    ghost Value = { List BlockRange };

    ghost view = { λ n. n.ranges.items };

    ghost invariant = { λ n. MapsLines n.range_at n.ranges.items };
}

impl NamedRanges {
    /// No range.
    pub(crate) fn new(alloc: Global) -> NamedRanges
        ensures { result ≡ [] }
    {
        NamedRanges {
            ranges: Vec::new(alloc),
            range_at: BTreeMap::new(alloc),
        }
    }

    /// The list of the ranges.
    pub(crate) fn into_vec(self) -> Vec<BlockRange>
        ensures { result.items ≡ self }
    {
        let NamedRanges { ranges, .. } = self;
        ranges
    }

    /// The range that has a line.
    pub(crate) fn range_of(&self, line: u32) -> Option<BlockRange>
        ensures { result ≡ find (names line) self.now }
    {
        self.range_at.get(&line).copied()
    }

    /// The ranges with one more.
    pub(crate) fn with(self, range: BlockRange) -> Result<NamedRanges, AllocError>
        requires whole { IsCutRange range }
        requires new { IsNew self range }
        ensures { IfOk result (λ n. n ≡ self ++ range ∷ []) }
    {
        let NamedRanges {
            mut ranges,
            mut range_at,
        } = self;
        let first = range.start / LINE_BYTES;
        for line in first..first + range.length / LINE_BYTES {
            range_at.insert(line, range)?;
        }
        ranges.push(range)?;
        Ok(NamedRanges { ranges, range_at })
    }
}
