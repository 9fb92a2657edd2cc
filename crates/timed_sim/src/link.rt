//! When the messages on a link arrive.

ghost use Rattle.std.specs.Prelude.{◌≡◌, ◌++◌, ◌∷◌, [], max, slice_get, OnOk};
ghost use Rattle.timed_sim.specs.Clock.{last_of, behind_first};

use std::alloc::{AllocError, Global};
use std::marker::Model;

/// When the messages on their way from one node to another arrive, in order.
#[derive(Drop)]
pub(crate) struct Arrivals {
    times: Vec<u128>,
}

impl Model for Arrivals {
    ghost use Rattle.std.specs.Prelude.{ℕ, List};

    ghost Value = { List ℕ };

    ghost view = { λ l. l.times.items };
}

impl Arrivals {
    /// A link with no message on its way.
    pub(crate) fn new(alloc: Global) -> Arrivals
        ensures none { result ≡ [] }
    {
        Arrivals {
            times: Vec::new(alloc),
        }
    }

    /// When the first message arrives; `None` exactly where there is none.
    pub(crate) fn first(&self) -> Option<u128>
        ensures value { result ≡ slice_get self.now 0 }
    {
        if self.times.is_empty() {
            return None;
        }
        Some(self.times[0])
    }

    /// The first message is on its way no more.
    pub(crate) fn take(&mut self)
        ensures value { self.new ≡ behind_first self.old }
    {
        if !self.times.is_empty() {
            let _ = self.times.remove(0);
        }
    }

    /// A message is sent that is to arrive at a time, but not before the last.
    pub(crate) fn send(&mut self, time: u128) -> Result<(), AllocError>
        ensures sent { OnOk result (self.new ≡ self.old ++ max time (last_of self.old) ∷ []) }
    {
        let last = self.last();
        self.times.push(time.max(last))?;
        Ok(())
    }

    /// When the last message arrives; 0 where there is none.
    fn last(&self) -> u128
        ensures value { result ≡ last_of self.now }
    {
        let count = self.times.len();
        if count == 0 {
            return 0;
        }
        self.times[count - 1]
    }
}
