#![tactic(auto)]
//! Where the bytes of an input come from, one after another.
//!
//! The clauses of [`Source`] speak of the bytes that are still to come and of a count of faults.
//! The standard input tells no bytes, since no contract can know them.

ghost use Rattle.std.specs.Prelude.{◌≡◌, ◌≤◌, ◌∷◌, [], IfNone, IfOk, IfSome, OnErr, OnOk};
ghost use Rattle.dsm_io.specs.Causes.{Rose};
ghost use Rattle.byte_source.specs.Sources.{Gives, IsAtEnd, SourceState};

mod memory;
mod real;

pub use memory::MemSource;
pub use real::StdSource;

/// The input could not be read.
#[derive(Drop)]
pub struct SourceFailed;

/// What gives bytes, as an input does.
pub trait Source {
    /// The bytes that are still to come, or `None` where they are hidden, and how often it has
    /// failed.
    ghost state: { Self → SourceState };

    /// Gives the next byte, or `None` where no more come.
    ///
    /// A fault loses no byte.
    fn next(&mut self) -> Result<Option<u8>, SourceFailed>
        ensures gives { IfOk result (λ next. IfSome next (λ byte.
            Gives (state self.old).rest (byte ∷ []) (state self.new).rest)) }
        ensures end { IfOk result (λ next. IfNone next (IsAtEnd (state self.old).rest)) }
        ensures stays { IfOk result (λ next. IfNone next
            ((state self.new).rest ≡ (state self.old).rest)) }
        ensures nothing { OnErr result ((state self.new).rest ≡ (state self.old).rest) }

        // The count rises with a fault alone, and never falls.
        ensures fault { OnErr result (Rose (state self.old).faults (state self.new).faults) }
        ensures no_fault { OnOk result ((state self.new).faults ≡ (state self.old).faults) }
        ensures more_faults { (state self.old).faults ≤ (state self.new).faults };
}
