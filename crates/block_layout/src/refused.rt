//! Why a layout's text is refused.

ghost use Rattle.std.specs.Prelude.{◌≡◌};
ghost use Rattle.block_layout.specs.Text.{number_of};

use std::alloc::{AllocError, AllocFailed};
use thiserror::Error;

/// The rules of a layout's text, in the order in which a line is judged.
#[derive(Clone, Copy, Debug, PartialEq, Eq)]
pub enum LayoutRule {
    /// The line is in the grammar.
    Syntax,
    /// The block has 64, 128, 256, 512, 1024, 2048 or 4096 bytes.
    BlockSize,
    /// Start and length are multiples of the block, and the length is not 0.
    Unaligned,
    /// Each line of the range is shared.
    NotShared,
    /// No line of the range is in an earlier line's range.
    Overlap,
    /// The home is a node.
    Home,
}

impl LayoutRule {
    ghost use Rattle.block_layout.specs.Text.{number_of};

    /// The number of the refusal: 30 to 35.
    pub fn number(self) -> u8
        ensures { result ≡ number_of self }
    {
        match self {
            LayoutRule::Syntax => 30,
            LayoutRule::BlockSize => 31,
            LayoutRule::Unaligned => 32,
            LayoutRule::NotShared => 33,
            LayoutRule::Overlap => 34,
            LayoutRule::Home => 35,
        }
    }
}

/// Why there is no layout.
#[derive(Debug, Drop, Error)]
pub enum LayoutRefused {
    /// A line of the text, or a range of a list, counted from 1, breaks a rule.
    #[error("{rule:?} at line {line}")]
    Broken { rule: LayoutRule, line: usize },
    /// There was no memory for the layout.
    #[error("out of memory")]
    OutOfMemory,
}

impl From<AllocError> for LayoutRefused {
    ghost use Rattle.std.specs.Prelude.{◌≡◌};
    ghost use Rattle.block_layout.specs.declared.refused.LayoutRefused.TheVariants.{OutOfMemory};

    ghost from_gives = { λ _ e. e ≡ OutOfMemory };

    fn from(_error: AllocError) -> LayoutRefused {
        LayoutRefused::OutOfMemory
    }
}

impl<T: Drop> From<AllocFailed<T>> for LayoutRefused {
    ghost use Rattle.std.specs.Prelude.{◌≡◌};
    ghost use Rattle.block_layout.specs.declared.refused.LayoutRefused.TheVariants.{OutOfMemory};

    ghost from_gives = { λ _ e. e ≡ OutOfMemory };

    fn from(_error: AllocFailed<T>) -> LayoutRefused {
        LayoutRefused::OutOfMemory
    }
}
