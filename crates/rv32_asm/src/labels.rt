//! The names of a text, and their addresses.

ghost use Rattle.std.specs.Prelude.{◌≡◌};

use crate::places::SegmentsSoFar;
use rv32_lines::Statement;
use std::alloc::{AllocError, Global};
use std::collections::BTreeMap;

/// Where a name stands first.
#[derive(Clone, Copy)]
pub(crate) struct Label {
    /// How many lines stand before it.
    pub line: usize,
    /// The address of the next byte; none before every segment.
    pub address: Option<u128>,
}

/// The names of a text.
#[derive(Drop)]
pub(crate) struct Labels<'a> {
    first: BTreeMap<&'a [u8], Label>,
}

impl<'a> Labels<'a> {
    ghost use Rattle.std.specs.Prelude.{◌≡◌, List, IfOk};
    ghost use Rattle.rv32_lines.specs.Reading.{AreReadStatements};
    ghost use Rattle.rv32_lines.specs.Statements.{Statement as Statements};
    ghost use Rattle.rv32_asm.specs.Standing.{found, AreLabels};

    /// The names of statements.
    pub(crate) fn of(alloc: Global, statements: &[Statement<'a>]) -> Result<Labels<'a>, AllocError>
        ensures { IfOk result (λ labels. (all : List Statements)
            → AreReadStatements statements.now all → AreLabels all labels) }
    {
        let mut first = BTreeMap::new(alloc);
        let mut place = SegmentsSoFar::first();
        for (line, statement) in statements.iter().enumerate() {
            if let Statement::Label { name } = statement {
                if !first.contains_key(name) {
                    let address = place.here();
                    first.insert(*name, Label { line, address })?;
                }
            }
            place = place.behind(statement);
        }
        Ok(Labels { first })
    }

    /// Where a name stands first.
    pub(crate) fn find(&self, name: &'a [u8]) -> Option<Label>
        ensures { result ≡ found self.now name.now }
    {
        self.first.get(&name).copied()
    }
}
