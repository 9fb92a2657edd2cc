//! Files and a sink in memory that never fail.

ghost use Rattle.std.specs.Prelude.{◌≡◌, ◌≢◌, ◌<◌, ◌≤◌, ◌++◌, ℕ, List, [], length, option_copied};
ghost use Rattle.std.specs.Prelude.{IfOk, IfSome, IfErr, OnOk, OnErr, IsErr, IsErrOf};
ghost use Rattle.dsm_io.specs.Causes.{next_count};
ghost use Rattle.dsm_io.specs.Pairs.{first_content, content_of, Writes};

use crate::store::Store;
use crate::{FileError, Files, Sink, SinkError};
use std::alloc::Global;
use std::marker::Model;

/// Files in memory that never fail.
///
/// A name that nothing was written to holds no bytes.
#[derive(Drop)]
pub struct SureFiles {
    store: Store,
}

impl Model for SureFiles {
    ghost use Rattle.std.specs.Prelude.{List, ℕ};

    ghost Value = { List (List ℕ × List ℕ) };

    ghost view = { λ s. s.store };
}

impl SureFiles {
    /// No files.
    pub fn new(alloc: Global) -> SureFiles
        ensures held { (n : List ℕ) → (⟦<SureFiles as Files>⟧.state result).held n ≡ Some [] }
        ensures pairs { result ≡ [] }
    {
        SureFiles {
            store: Store::new(alloc, Vec::new(alloc)),
        }
    }

    /// What was last written to the name, or `None` where nothing was.
    pub fn held(&self, name: &str) -> Option<&[u8]>
        ensures first { option_copied result ≡ first_content self.now name.now }
        ensures held { IfSome result (λ bytes.
            (⟦<SureFiles as Files>⟧.state self.now).held name.now ≡ Some bytes.now) }
    {
        self.store.content(name)
    }
}

impl Files for SureFiles {
    ghost use Rattle.std.specs.Prelude.{Some};
    ghost use Rattle.dsm_io.specs.Causes.{next_count};
    ghost use Rattle.dsm_io.specs.Pairs.{content_of};

    ghost state = { λ s. record {
      held = λ n. Some (content_of s n);
      failed_reads = λ _. 0;
      failed_writes = λ _. 0;
    } };

    fn read(&mut self, alloc: Global, name: &str, limit: u64) -> Result<Vec<u8>, FileError>
        ensures bytes { IfOk result (λ v. v.items ≡ content_of self.old name.now) }
        ensures fits { IfOk result (λ v. length v.items ≤ limit) }
        ensures longer { limit < length (content_of self.old name.now) → IsErr result }
        ensures too_long { (l : ℕ) → IsErrOf result (FileError.TooLong l) →
            limit < length (content_of self.old name.now) }
        ensures same_limit { (l : ℕ) → IsErrOf result (FileError.TooLong l) → l ≡ limit }
        ensures never_failed { result ≢ Err FileError.Failed }
        ensures unchanged { self.new ≡ self.old }
    {
        let Some(content) = self.store.content(name) else {
            return Ok(Vec::new(alloc));
        };
        if content.len() as u64 > limit {
            return Err(FileError::TooLong { limit });
        }
        let bytes = Vec::from_slice(alloc, content)?;
        Ok(bytes)
    }

    fn write(&mut self, name: &str, bytes: &[u8]) -> Result<(), FileError>
        ensures writes { OnOk result (Writes self.old self.new name.now bytes.now) }
        ensures only_memory { IfErr result (λ e. e ≡ FileError.OutOfMemory) }
        ensures unchanged { OnErr result (self.new ≡ self.old) }
    {
        self.store.put(name, bytes)?;
        Ok(())
    }
}

/// A sink in memory that never fails.
#[derive(Drop)]
pub struct SureSink {
    taken: Vec<u8>,
    refusals: u64,
}

impl Model for SureSink {
    ghost use Rattle.dsm_io.specs.Memory.{SureBytes};

    ghost Value = { SureBytes };

    ghost view = { λ s. record { taken = s.taken.items; refusals = s.refusals } };
}

impl SureSink {
    /// A sink that has taken nothing.
    pub fn new(alloc: Global) -> SureSink
        ensures taken { (⟦<SureSink as Sink>⟧.state result).taken ≡ Some [] }
        ensures refusals { (⟦<SureSink as Sink>⟧.state result).refusals ≡ 0 }
    {
        SureSink {
            taken: Vec::new(alloc),
            refusals: 0,
        }
    }

    /// The bytes taken so far.
    pub fn taken(&self) -> &[u8]
        ensures { (⟦<SureSink as Sink>⟧.state self.now).taken ≡ Some result.now }
    {
        &self.taken
    }
}

impl Sink for SureSink {
    ghost use Rattle.std.specs.Prelude.{Some};

    ghost state = { λ s. record { taken = Some s.taken; faults = 0; refusals = s.refusals } };

    fn put(&mut self, piece: &[u8]) -> Result<(), SinkError>
        ensures takes { OnOk result (self.new.taken ≡ self.old.taken ++ piece.now) }
        ensures only_memory { IfErr result (λ e. e ≡ SinkError.OutOfMemory) }
        ensures unchanged { OnErr result (self.new.taken ≡ self.old.taken) }
        ensures refusal { OnErr result (self.new.refusals ≡ next_count self.old.refusals) }
        ensures no_refusal { OnOk result (self.new.refusals ≡ self.old.refusals) }
        ensures more_refusals { self.old.refusals ≤ self.new.refusals }
    {
        match self.taken.extend_from_slice(piece) {
            Ok(()) => Ok(()),
            Err(_) => {
                self.refusals = self.refusals.saturating_add(1);
                Err(SinkError::OutOfMemory)
            }
        }
    }
}
