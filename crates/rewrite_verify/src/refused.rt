//! Why a file isn't that of a rewriting.

ghost use Rattle.std.specs.Prelude.{◌≡◌};

use std::alloc::AllocError;
use thiserror::Error;

/// Why a file isn't that of a rewriting of its original, in the order in which it is judged.
#[derive(Debug, Drop, Error)]
pub enum VerifyRefused {
    /// There isn't exactly one section of a plan, or it hasn't eight bytes for each place.
    #[error("NoPlan")]
    NoPlan,
    /// The plan's bytes of the place at the address are those of no entry that serves it, or start
    /// a run that shares an address with an earlier one; the lowest such place.
    #[error("BadPlan")]
    BadPlan(u32),
    /// The plan has more words than an image may have.
    #[error("CodeTooLarge")]
    CodeTooLarge(u64),
    /// There isn't exactly one section of a map, or its bytes are others.
    #[error("BadMap")]
    BadMap,
    /// The word at the address is another one, and none before it; or, at the first word's address,
    /// the segments after the original's aren't one of as many words.
    #[error("BadCode")]
    BadCode(u32),
    /// The flags, the entry, a segment of the original's or the list of sections is another one.
    #[error("BadFile")]
    BadFile,
    #[error("out of memory")]
    OutOfMemory,
}

impl From<AllocError> for VerifyRefused {
    ghost use Rattle.std.specs.Prelude.{◌≡◌};
    ghost use Rattle.rewrite_verify.specs.declared.refused.VerifyRefused.TheVariants.{OutOfMemory};

    ghost from_gives = { λ _ e. e ≡ OutOfMemory };

    fn from(_error: AllocError) -> VerifyRefused {
        VerifyRefused::OutOfMemory
    }
}
