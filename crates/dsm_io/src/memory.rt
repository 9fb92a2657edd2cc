//! Files and a sink in memory, of whose calls some are to fail.

ghost use Rattle.std.specs.Prelude.{◌≡◌, ◌≢◌, ◌<◌, ◌≤◌, ◌↔◌, ◌⊎◌, ◌++◌, ℕ, List, [], map, length};
ghost use Rattle.std.specs.Prelude.{option_copied, IfOk, IfSome, OnOk, OnErr, IsErr, IsErrOf};
ghost use Rattle.dsm_io.specs.Pairs.{first_content, content_of, Writes};
ghost use Rattle.dsm_io.specs.Schedule.{IsDue, schedule_of, after_call, after_fault};

use crate::schedule::Schedule;
use crate::store::Store;
use crate::{FileError, Files, Sink, SinkError, Text};
use std::alloc::Global;
use std::marker::Model;

/// Files in memory, of whose calls those with given numbers fail.
///
/// The calls of `read` and `write` are numbered together, from 1. A name that has no file holds no
/// bytes, and a read of it is a fault.
#[derive(Drop)]
pub struct MemFiles {
    store: Store,
    schedule: Schedule,
}

impl Model for MemFiles {
    ghost use Rattle.dsm_io.specs.Memory.{HeldFiles};

    ghost Value = { HeldFiles };

    ghost view = { λ s. record { pairs = s.store; schedule = s.schedule } };
}

impl MemFiles {
    /// Files of these names and contents, and the numbers of the calls that are to fail. The first
    /// pair of a name counts.
    pub fn new(alloc: Global, held: Vec<(Text, Vec<u8>)>, fails: Vec<u64>) -> MemFiles
        ensures held { (n : List ℕ) →
            (⟦<MemFiles as Files>⟧.state result).held n ≡ Some (content_of result.pairs n) }
        ensures pairs { result.pairs ≡ map (λ p. (p.0, p.1.items)) held.items }
        ensures fails { result.schedule ≡ schedule_of fails.items }
    {
        MemFiles {
            store: Store::new(alloc, held),
            schedule: Schedule::new(fails),
        }
    }

    /// What the name holds, or `None` where it has no file.
    pub fn held(&self, name: &str) -> Option<&[u8]>
        ensures first { option_copied result ≡ first_content self.now.pairs name.now }
        ensures held { IfSome result (λ bytes.
            (⟦<MemFiles as Files>⟧.state self.now).held name.now ≡ Some bytes.now) }
    {
        self.store.content(name)
    }
}

impl Files for MemFiles {
    ghost use Rattle.std.specs.Prelude.{Some};
    ghost use Rattle.dsm_io.specs.Pairs.{content_of};

    ghost state = { λ s. record {
      held = λ n. Some (content_of s.pairs n);
      failed_reads = λ _. s.schedule.faults;
      failed_writes = λ _. s.schedule.faults;
    } };

    fn read(&mut self, alloc: Global, name: &str, limit: u64) -> Result<Vec<u8>, FileError>
        ensures bytes { IfOk result (λ v. first_content self.old.pairs name.now ≡ Some v.items) }
        ensures fits { IfOk result (λ v. length v.items ≤ limit) }
        ensures longer { IfSome (first_content self.old.pairs name.now) (λ content.
            limit < length content → IsErr result) }
        ensures too_long { (l : ℕ) → IsErrOf result (FileError.TooLong l) →
            IfSome (first_content self.old.pairs name.now) (λ content. limit < length content) }
        ensures same_limit { (l : ℕ) → IsErrOf result (FileError.TooLong l) → l ≡ limit }
        ensures same_pairs { self.new.pairs ≡ self.old.pairs }

        // It fails where the call is due, and where the name has no file.
        ensures due { IsErrOf result FileError.Failed ↔
            (IsDue self.old.schedule ⊎ (first_content self.old.pairs name.now ≡ None)) }
        ensures fault { IsErrOf result FileError.Failed →
            self.new.schedule ≡ after_fault self.old.schedule }
        ensures no_fault { result ≢ Err FileError.Failed →
            self.new.schedule ≡ after_call self.old.schedule }
        ensures counts { self.old.schedule.faults ≤ self.new.schedule.faults }
    {
        if self.schedule.call() {
            return Err(FileError::Failed);
        }
        let Some(content) = self.store.content(name) else {
            self.schedule.fault();
            return Err(FileError::Failed);
        };
        if content.len() as u64 > limit {
            return Err(FileError::TooLong { limit });
        }
        let bytes = Vec::from_slice(alloc, content)?;
        Ok(bytes)
    }

    fn write(&mut self, name: &str, bytes: &[u8]) -> Result<(), FileError>
        ensures writes { OnOk result (Writes self.old.pairs self.new.pairs name.now bytes.now) }
        ensures unchanged { OnErr result (self.new.pairs ≡ self.old.pairs) }
        ensures never_too_long { (l : ℕ) → IsErrOf result (FileError.TooLong l) → ⊥ }

        ensures due { IsErrOf result FileError.Failed ↔ IsDue self.old.schedule }
        ensures fault { IsErrOf result FileError.Failed →
            self.new.schedule ≡ after_fault self.old.schedule }
        ensures no_fault { result ≢ Err FileError.Failed →
            self.new.schedule ≡ after_call self.old.schedule }
        ensures counts { self.old.schedule.faults ≤ self.new.schedule.faults }
    {
        if self.schedule.call() {
            return Err(FileError::Failed);
        }
        self.store.put(name, bytes)?;
        Ok(())
    }
}

/// A sink in memory, of whose calls those with given numbers fail, or are refused as if it were out
/// of memory.
///
/// The calls are numbered from 1, and those that don't fail are numbered among themselves for the
/// refusals. A call that fails or is refused takes nothing of its piece.
#[derive(Drop)]
pub struct MemSink {
    taken: Vec<u8>,
    schedule: Schedule,
    memory: Schedule,
}

impl Model for MemSink {
    ghost use Rattle.dsm_io.specs.Memory.{TakenBytes};

    ghost Value = { TakenBytes };

    ghost view = { λ s. record {
      taken = s.taken.items;
      schedule = s.schedule;
      memory = s.memory;
    } };
}

impl MemSink {
    /// A sink that has taken nothing, with the numbers of the calls that are to fail.
    pub fn new(alloc: Global, fails: Vec<u64>) -> MemSink
        ensures taken { (⟦<MemSink as Sink>⟧.state result).taken ≡ Some [] }
        ensures fails { result.schedule ≡ schedule_of fails.items }
        ensures no_refusals { result.memory ≡ schedule_of [] }
    {
        MemSink::with_refusals(alloc, fails, Vec::new(alloc))
    }

    /// A sink that has taken nothing, with the numbers of the calls that are to fail, and those of
    /// the calls that are to be refused, among the calls that don't fail.
    pub fn with_refusals(alloc: Global, fails: Vec<u64>, refusals: Vec<u64>) -> MemSink
        ensures taken { (⟦<MemSink as Sink>⟧.state result).taken ≡ Some [] }
        ensures fails { result.schedule ≡ schedule_of fails.items }
        ensures refusals { result.memory ≡ schedule_of refusals.items }
    {
        MemSink {
            taken: Vec::new(alloc),
            schedule: Schedule::new(fails),
            memory: Schedule::new(refusals),
        }
    }

    /// The bytes taken so far.
    pub fn taken(&self) -> &[u8]
        ensures { (⟦<MemSink as Sink>⟧.state self.now).taken ≡ Some result.now }
    {
        &self.taken
    }
}

impl Sink for MemSink {
    ghost use Rattle.std.specs.Prelude.{Some};

    ghost state = { λ s. record {
      taken = Some s.taken;
      faults = s.schedule.faults;
      refusals = s.memory.faults;
    } };

    fn put(&mut self, piece: &[u8]) -> Result<(), SinkError>
        ensures takes { OnOk result (self.new.taken ≡ self.old.taken ++ piece.now) }
        ensures unchanged { OnErr result (self.new.taken ≡ self.old.taken) }

        // It fails exactly where the call is due to.
        ensures due { IsErrOf result SinkError.Failed ↔ IsDue self.old.schedule }
        ensures fault { IsErrOf result SinkError.Failed →
            self.new.schedule ≡ after_fault self.old.schedule }
        ensures no_fault { result ≢ Err SinkError.Failed →
            self.new.schedule ≡ after_call self.old.schedule }
        ensures more_faults { self.old.schedule.faults ≤ self.new.schedule.faults }

        // It is refused where the call is due to be, and wherever the allocator refuses.
        ensures undue { OnOk result (IsDue self.old.memory → ⊥) }
        ensures refusal { IsErrOf result SinkError.OutOfMemory →
            self.new.memory ≡ after_fault self.old.memory }
        ensures no_refusal { OnOk result (self.new.memory ≡ after_call self.old.memory) }
        ensures same_memory { IsErrOf result SinkError.Failed → self.new.memory ≡ self.old.memory }
        ensures more_refusals { self.old.memory.faults ≤ self.new.memory.faults }
    {
        if self.schedule.call() {
            return Err(SinkError::Failed);
        }
        if self.memory.call() {
            return Err(SinkError::OutOfMemory);
        }
        match self.taken.extend_from_slice(piece) {
            Ok(()) => Ok(()),
            Err(_) => {
                self.memory.fault();
                Err(SinkError::OutOfMemory)
            }
        }
    }
}
