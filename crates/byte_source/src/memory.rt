//! A source in memory, of whose calls some are to fail.

ghost use Rattle.std.specs.Prelude.{◌≡◌, ◌≤◌, ◌+◌, ◌↔◌, ◌∷◌, [], drop, IfOk, IfSome, IfNone};
ghost use Rattle.std.specs.Prelude.{IsErr, OnErr, OnOk, Some};
ghost use Rattle.dsm_io.specs.Schedule.{IsDue, after_call, after_fault, schedule_of};

use crate::{Source, SourceFailed};
use std::marker::Model;

/// Bytes in memory, of whose calls those with given numbers fail. The calls are numbered from 1.
#[derive(Drop)]
pub struct MemSource {
    bytes: Vec<u8>,
    given: usize,
    fails: Vec<u64>,
    calls: u64,
    faults: u64,
}

impl Model for MemSource {
    ghost use Rattle.std.specs.Prelude.{drop, ◌≤◌, length};
    ghost use Rattle.byte_source.specs.Sources.{HeldBytes};

    ghost Value = { HeldBytes };

    ghost view = { λ s. record {
      rest = drop s.given s.bytes.items;
      schedule = record { fails = s.fails.items; calls = s.calls; faults = s.faults };
    } };

    ghost invariant = { λ s. s.given ≤ length s.bytes.items };
}

impl MemSource {
    /// A source of these bytes, with the numbers of the calls that are to fail.
    pub fn new(bytes: Vec<u8>, fails: Vec<u64>) -> MemSource
        ensures rest { (⟦<MemSource as Source>⟧.state result).rest ≡ Some bytes.items }
        ensures fails { result.schedule ≡ schedule_of fails.items }
    {
        MemSource {
            bytes,
            given: 0,
            fails,
            calls: 0,
            faults: 0,
        }
    }
}

impl Source for MemSource {
    ghost use Rattle.std.specs.Prelude.{Some};

    ghost state = { λ s. record { rest = Some s.rest; faults = s.schedule.faults } };

    fn next(&mut self) -> Result<Option<u8>, SourceFailed>
        ensures gives { IfOk result (λ next. IfSome next (λ byte.
            self.old.rest ≡ byte ∷ self.new.rest)) }
        ensures end { IfOk result (λ next. IfNone next (self.old.rest ≡ [])) }
        ensures stays { IfOk result (λ next. IfNone next (self.new.rest ≡ self.old.rest)) }
        ensures nothing { OnErr result (self.new.rest ≡ self.old.rest) }

        // It fails exactly where the call is due to.
        ensures due { IsErr result ↔ IsDue self.old.schedule }
        ensures fault { OnErr result (self.new.schedule ≡ after_fault self.old.schedule) }
        ensures no_fault { OnOk result (self.new.schedule ≡ after_call self.old.schedule) }
        ensures more_faults { self.old.schedule.faults ≤ self.new.schedule.faults }
    {
        self.calls = self.calls.saturating_add(1);
        if self.fails.contains(&self.calls) {
            self.faults = self.faults.saturating_add(1);
            return Err(SourceFailed);
        }
        let Some(byte) = self.bytes.get(self.given) else {
            return Ok(None);
        };
        let byte = *byte;
        self.given += 1;
        Ok(Some(byte))
    }
}
