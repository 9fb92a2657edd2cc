//! Why a text is refused.

use std::alloc::{AllocError, AllocFailed};
use thiserror::Error;

/// The rules of a text, in the order in which a line is judged.
#[derive(Clone, Copy, Debug, PartialEq, Eq)]
pub enum AsmRule {
    /// The line is in the grammar.
    Syntax,
    /// The numbers of an instruction fit it, its target is in its reach, and the entry's address
    /// is below 2^32.
    Range,
    /// A name that is used stands on one name line, and there is one entry at most.
    Name,
    /// What appends, names or adds stands in a segment, words stand at multiples of 4, and nothing
    /// is appended after zeros.
    Place,
    /// The segment ends at 2^32 or below, there are at most 999 segments, and at most 2^24 bytes
    /// are appended.
    Size,
    /// There is a segment.
    Empty,
}

impl AsmRule {
    ghost use Rattle.std.specs.Prelude.{◌≡◌};
    ghost use Rattle.rv32_asm.specs.Rules.{number_of};

    /// The number of the refusal: 60 to 65.
    pub fn number(self) -> u8
        ensures { result ≡ number_of self }
    {
        match self {
            AsmRule::Syntax => 60,
            AsmRule::Range => 61,
            AsmRule::Name => 62,
            AsmRule::Place => 63,
            AsmRule::Size => 64,
            AsmRule::Empty => 65,
        }
    }
}

/// Why there is no executable.
#[derive(Debug, Drop, Error)]
pub enum AsmRefused {
    /// A line of the text, counted from 1, breaks a rule.
    #[error("{rule:?} at line {line}")]
    Broken { rule: AsmRule, line: usize },
    /// There was no memory for the executable.
    #[error("out of memory")]
    OutOfMemory,
}

impl From<AllocError> for AsmRefused {
    ghost use Rattle.std.specs.Prelude.{◌≡◌};
    ghost use Rattle.rv32_asm.specs.declared.refused.AsmRefused.TheVariants.{OutOfMemory};

    ghost from_gives = { λ _ e. e ≡ OutOfMemory };

    fn from(_error: AllocError) -> AsmRefused {
        AsmRefused::OutOfMemory
    }
}

impl<T: Drop> From<AllocFailed<T>> for AsmRefused {
    ghost use Rattle.std.specs.Prelude.{◌≡◌};
    ghost use Rattle.rv32_asm.specs.declared.refused.AsmRefused.TheVariants.{OutOfMemory};

    ghost from_gives = { λ _ e. e ≡ OutOfMemory };

    fn from(_error: AllocFailed<T>) -> AsmRefused {
        AsmRefused::OutOfMemory
    }
}
