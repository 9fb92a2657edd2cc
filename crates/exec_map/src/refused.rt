//! Why an executable is refused.

ghost use Rattle.std.specs.Prelude.{◌≡◌};

use crate::Class;
use std::alloc::{AllocError, AllocFailed};
use thiserror::Error;

/// The rules that refuse an executable, in the order in which they are judged.
///
/// Segments and sections are numbered from 0 by their places in the lists of the executable. Those
/// of size 0 are ignored, but count.
#[derive(Clone, Copy, Debug, PartialEq, Eq)]
pub enum ProgramRule {
    /// The segment ends above 0x7fff0000.
    TooHigh { segment: usize },
    /// Both segments have a byte in the same line.
    Overlap { first: usize, second: usize },
    /// The segment is writable and executable.
    WritableCode { segment: usize },
    /// There is no code word.
    NoCode,
    /// More than 262,144 lines are shared, or are read-only.
    TooMuch { class: Class },
    /// The entry is not the address of a code word.
    EntryNotCode { address: u32 },
    /// The word at the address is no instruction.
    Unsupported { address: u32, word: u32 },
    /// The section of code has an address or a size that is not a multiple of four, or no
    /// executable segment's file bytes have all of it.
    CodeAlign { section: usize },
    /// There are more than 999 segments.
    TooManySegments { count: usize },
}

impl ProgramRule {
    ghost use Rattle.exec_map.specs.Refusals.{number_of};

    /// The number of the refusal: 12 to 19, or 22.
    pub fn number(self) -> u8
        ensures { result ≡ number_of self }
    {
        match self {
            ProgramRule::TooHigh { .. } => 12,
            ProgramRule::Overlap { .. } => 13,
            ProgramRule::WritableCode { .. } => 14,
            ProgramRule::NoCode => 15,
            ProgramRule::TooMuch { .. } => 16,
            ProgramRule::EntryNotCode { .. } => 17,
            ProgramRule::Unsupported { .. } => 18,
            ProgramRule::CodeAlign { .. } => 19,
            ProgramRule::TooManySegments { .. } => 22,
        }
    }
}

/// Why there is no program.
#[derive(Debug, Drop, Error)]
pub enum ProgramRefused {
    /// The rule fits the executable, and none before it.
    #[error("{0:?}")]
    Broken(ProgramRule),
    /// There was no memory for the ranges of the program.
    #[error("out of memory")]
    OutOfMemory,
}

impl From<AllocError> for ProgramRefused {
    ghost use Rattle.std.specs.Prelude.{◌≡◌};
    ghost use Rattle.exec_map.specs.declared.refused.ProgramRefused.TheVariants.{OutOfMemory};

    ghost from_gives = { λ _ e. e ≡ OutOfMemory };

    fn from(_error: AllocError) -> ProgramRefused {
        ProgramRefused::OutOfMemory
    }
}

impl<T: Drop> From<AllocFailed<T>> for ProgramRefused {
    ghost use Rattle.std.specs.Prelude.{◌≡◌};
    ghost use Rattle.exec_map.specs.declared.refused.ProgramRefused.TheVariants.{OutOfMemory};

    ghost from_gives = { λ _ e. e ≡ OutOfMemory };

    fn from(_error: AllocFailed<T>) -> ProgramRefused {
        ProgramRefused::OutOfMemory
    }
}
