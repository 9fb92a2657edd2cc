//! Which calls are to fail.

ghost use Rattle.std.specs.Prelude.{◌≡◌, ◌≤◌, ◌↔◌, IsTrue, if◌then◌else◌};
ghost use Rattle.dsm_io.specs.Causes.{next_count};
ghost use Rattle.dsm_io.specs.Schedule.{IsDue, schedule_of, after_call, after_fault};

use std::marker::Model;

/// Which calls are to fail, by their numbers from 1, with the counts of calls and of faults.
#[derive(Drop)]
pub(crate) struct Schedule {
    fails: Vec<u64>,
    calls: u64,
    faults: u64,
}

impl Model for Schedule {
    ghost use Rattle.dsm_io.specs.Schedule.{Schedule as TheSchedule};

    ghost Value = { TheSchedule };

    ghost view = { λ s. record { fails = s.fails.items; calls = s.calls; faults = s.faults } };
}

impl Schedule {
    pub(crate) fn new(fails: Vec<u64>) -> Schedule
        ensures { result ≡ schedule_of fails.items }
    {
        Schedule {
            fails,
            calls: 0,
            faults: 0,
        }
    }

    /// Counts a call, and as a fault if it is one of those that are to fail. Tells which.
    pub(crate) fn call(&mut self) -> bool
        ensures due { IsTrue result ↔ IsDue self.old }
        ensures counts { self.new ≡ (if result then after_fault self.old else after_call self.old) }
        ensures rises { self.old.faults ≤ self.new.faults }
    {
        self.calls = self.calls.saturating_add(1);
        let due = self.fails.contains(&self.calls);
        if due {
            self.faults = self.faults.saturating_add(1);
        }
        due
    }

    /// Counts a fault of another cause.
    pub(crate) fn fault(&mut self)
        ensures counts { self.new ≡ record self.old { faults = next_count self.old.faults } }
        ensures rises { self.old.faults ≤ self.new.faults }
    {
        self.faults = self.faults.saturating_add(1);
    }
}
