//! Why a record's text is refused.

use std::alloc::{AllocError, AllocFailed};
use thiserror::Error;

/// The rules of a record's text, in the order in which a line is judged.
#[derive(Clone, Copy, Debug, PartialEq, Eq)]
pub enum RecordRule {
    /// The line is in the grammar, and isn't lacking.
    Syntax,
    /// The words before a take, and the take, have stamps of their own after the node's last,
    /// below 2^63.
    Stamps,
    /// There are 1 to 16 nodes, their lines are in order, and a sender is a node.
    Node,
    /// The version is 1 or 2.
    Version,
    /// The number of rewritten words is that of the code which is run. The text alone never breaks
    /// this.
    Code,
}

impl RecordRule {
    ghost use Rattle.std.specs.Prelude.{◌≡◌};
    ghost use Rattle.run_record.specs.Rules.{number_of};
    ghost use Rattle.run_record.specs.declared.refused.RecordRefused.TheVariants.{Broken};

    /// The number of the refusal: 40 to 43, or 47.
    pub fn number(self) -> u8
        ensures { result ≡ number_of self }
    {
        match self {
            RecordRule::Syntax => 40,
            RecordRule::Stamps => 41,
            RecordRule::Node => 42,
            RecordRule::Version => 43,
            RecordRule::Code => 47,
        }
    }

    /// A line of this number breaks the rule.
    pub(crate) fn at(self, line: usize) -> RecordRefused
        ensures { result ≡ Broken self line }
    {
        RecordRefused::Broken { rule: self, line }
    }
}

/// Why there is no record.
#[derive(Debug, Drop, Error)]
pub enum RecordRefused {
    /// A line of the text, counted from 1, breaks a rule. A line that is lacking has the number
    /// after the last line's.
    #[error("{rule:?} at line {line}")]
    Broken { rule: RecordRule, line: usize },
    /// There was no memory for the record.
    #[error("out of memory")]
    OutOfMemory,
}

impl From<AllocError> for RecordRefused {
    ghost use Rattle.std.specs.Prelude.{◌≡◌};
    ghost use Rattle.run_record.specs.declared.refused.RecordRefused.TheVariants.{OutOfMemory};

    ghost from_gives = { λ _ e. e ≡ OutOfMemory };

    fn from(_error: AllocError) -> RecordRefused {
        RecordRefused::OutOfMemory
    }
}

impl<T: Drop> From<AllocFailed<T>> for RecordRefused {
    ghost use Rattle.std.specs.Prelude.{◌≡◌};
    ghost use Rattle.run_record.specs.declared.refused.RecordRefused.TheVariants.{OutOfMemory};

    ghost from_gives = { λ _ e. e ≡ OutOfMemory };

    fn from(_error: AllocFailed<T>) -> RecordRefused {
        RecordRefused::OutOfMemory
    }
}
