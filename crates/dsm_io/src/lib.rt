#![tactic(auto)]
//! The outside of a program: its files, its sinks, and its words.
//!
//! Whatever a program reads or writes goes through the traits [`Files`] and [`Sink`], whose clauses
//! speak of what a name holds, of the bytes that a sink took, and of counts of faults. An
//! implementation over the real system tells no contents, since no contract can know them.

ghost use Rattle.std.specs.Prelude.{◌≡◌, ◌≢◌, ◌≤◌, ◌<◌, ◌↔◌, ℕ, List, length, IfOk, OnOk, IfSome};
ghost use Rattle.std.specs.Prelude.{IfNone, IsErr, IsErrOf, IsSome};
ghost use Rattle.dsm_io.specs.Causes.{Rose, Appends, AppendsPrefix};
ghost use Rattle.dsm_io.specs.States.{FilesState, SinkState};

use std::alloc::{AllocError, Global};
use thiserror::Error;

mod memory;
mod real;
mod schedule;
mod store;
mod sure;
mod text;

pub use memory::{MemFiles, MemSink};
pub use real::{RealFiles, StdSink};
pub use sure::{SureFiles, SureSink};
pub use text::Text;

/// Why a file was not read or written.
#[derive(Debug, Drop, Error)]
pub enum FileError {
    #[error("the file could not be read or written")]
    Failed,
    #[error("the file is longer than {limit} bytes")]
    TooLong { limit: u64 },
    #[error("out of memory")]
    OutOfMemory,
}

impl From<AllocError> for FileError {
    ghost use Rattle.std.specs.Prelude.{◌≡◌};
    ghost use Rattle.dsm_io.specs.declared.FileError.TheVariants.{OutOfMemory};

    ghost from_gives = { λ _ e. e ≡ OutOfMemory };

    fn from(_error: AllocError) -> FileError {
        FileError::OutOfMemory
    }
}

/// Why a sink did not take a whole piece.
#[derive(Debug, Drop, Error)]
pub enum SinkError {
    #[error("the output could not be written")]
    Failed,
    #[error("out of memory")]
    OutOfMemory,
}

impl From<AllocError> for SinkError {
    ghost use Rattle.std.specs.Prelude.{◌≡◌};
    ghost use Rattle.dsm_io.specs.declared.SinkError.TheVariants.{OutOfMemory};

    ghost from_gives = { λ _ e. e ≡ OutOfMemory };

    fn from(_error: AllocError) -> SinkError {
        SinkError::OutOfMemory
    }
}

/// Files, each under its name.
pub trait Files {
    /// What each name holds, or `None` where that is hidden, and how many reads and writes of it
    /// have failed.
    ghost state: { Self → FilesState };

    /// Gives the bytes of the file, at most `limit`.
    ///
    /// `TooLong` comes for a file that is longer, and `Failed` where it cannot be read.
    fn read(&mut self, alloc: Global, name: &str, limit: u64) -> Result<Vec<u8>, FileError>
        ensures bytes { IfOk result (λ v.
            IfSome ((state self.old).held name.now) (λ content. v.items ≡ content)) }
        ensures fits { IfOk result (λ v. length v.items ≤ limit) }
        ensures fault { IsErrOf result FileError.Failed →
            Rose ((state self.old).failed_reads name.now) ((state self.new).failed_reads name.now) }

        // Where the content is known, `TooLong` comes exactly where it is longer than the limit and
        // the read is not `Failed`; where it is hidden, only where the count of failed reads rose.
        ensures longer { IfSome ((state self.old).held name.now) (λ content.
            limit < length content → IsErr result) }
        ensures too_long { (l : ℕ) → IsErrOf result (FileError.TooLong l) →
            IfSome ((state self.old).held name.now) (λ content. limit < length content) }
        ensures hidden { (l : ℕ) → IsErrOf result (FileError.TooLong l) →
            IfNone ((state self.old).held name.now)
            (Rose ((state self.old).failed_reads name.now)
            ((state self.new).failed_reads name.now)) }
        ensures same_limit { (l : ℕ) → IsErrOf result (FileError.TooLong l) → l ≡ limit }

        ensures same_counts { IsErrOf result FileError.OutOfMemory → (n : List ℕ) →
            ((state self.new).failed_reads n ≡ (state self.old).failed_reads n)
            × ((state self.new).failed_writes n ≡ (state self.old).failed_writes n) }

        ensures contents { (n : List ℕ) → (state self.new).held n ≡ (state self.old).held n }
        ensures reads { (n : List ℕ) →
            (state self.old).failed_reads n ≤ (state self.new).failed_reads n }
        ensures writes { (n : List ℕ) →
            (state self.old).failed_writes n ≤ (state self.new).failed_writes n };

    /// Makes the file hold `bytes`.
    ///
    /// After `Failed` it may hold anything; after `OutOfMemory` it holds what it held.
    fn write(&mut self, name: &str, bytes: &[u8]) -> Result<(), FileError>
        ensures holds { OnOk result
            (IfSome ((state self.new).held name.now) (λ content. content ≡ bytes.now)) }
        ensures same_kind { IsSome ((state self.new).held name.now) ↔
            IsSome ((state self.old).held name.now) }
        ensures fault { IsErrOf result FileError.Failed →
            Rose ((state self.old).failed_writes name.now)
            ((state self.new).failed_writes name.now) }
        ensures never_too_long { (l : ℕ) → IsErrOf result (FileError.TooLong l) → ⊥ }
        ensures unchanged { IsErrOf result FileError.OutOfMemory →
            (state self.new).held name.now ≡ (state self.old).held name.now }
        ensures same_counts { IsErrOf result FileError.OutOfMemory → (n : List ℕ) →
            ((state self.new).failed_reads n ≡ (state self.old).failed_reads n)
            × ((state self.new).failed_writes n ≡ (state self.old).failed_writes n) }

        ensures others { (n : List ℕ) → n ≢ name.now →
            (state self.new).held n ≡ (state self.old).held n }
        ensures reads { (n : List ℕ) →
            (state self.old).failed_reads n ≤ (state self.new).failed_reads n }
        ensures writes { (n : List ℕ) →
            (state self.old).failed_writes n ≤ (state self.new).failed_writes n };
}

/// What takes bytes, as an output does.
pub trait Sink {
    /// The bytes taken so far, or `None` where they are hidden; how often it has failed; and how
    /// many puts were refused because it was out of memory.
    ghost state: { Self → SinkState };

    /// Appends the whole piece.
    ///
    /// It is a fault where a piece isn't empty and nothing of it is taken. After `OutOfMemory`
    /// nothing of it is taken.
    fn put(&mut self, piece: &[u8]) -> Result<(), SinkError>
        ensures takes { OnOk result
            (Appends (state self.old).taken (state self.new).taken piece.now) }
        ensures fault { IsErrOf result SinkError.Failed →
            Rose (state self.old).faults (state self.new).faults }
        ensures prefix { IsErrOf result SinkError.Failed →
            AppendsPrefix (state self.old).taken (state self.new).taken piece.now }
        ensures refusal { IsErrOf result SinkError.OutOfMemory →
            Rose (state self.old).refusals (state self.new).refusals }
        ensures nothing { IsErrOf result SinkError.OutOfMemory →
            (state self.new).taken ≡ (state self.old).taken }

        // Each count rises with its own error alone, and never falls.
        ensures same_faults { result ≢ Err SinkError.Failed →
            (state self.new).faults ≡ (state self.old).faults }
        ensures same_refusals { result ≢ Err SinkError.OutOfMemory →
            (state self.new).refusals ≡ (state self.old).refusals }
        ensures more_faults { (state self.old).faults ≤ (state self.new).faults }
        ensures more_refusals { (state self.old).refusals ≤ (state self.new).refusals };
}
