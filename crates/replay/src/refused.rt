//! Why a record is refused that doesn't tell of a whole run.

use std::alloc::AllocError;
use thiserror::Error;

/// The rules of a record's events, in the order in which an event is judged.
#[derive(Clone, Copy, Debug, PartialEq, Eq)]
pub enum ReplayRule {
    /// A take finds a message from its sender.
    NoMessage,
    /// A node stands where it may make the event; and after all events it is over.
    NotThere,
    /// A take has the stamp that its node gives it.
    Stamp,
}

impl ReplayRule {
    ghost use Rattle.std.specs.Prelude.{◌≡◌};
    ghost use Rattle.replay.specs.Refusals.{number_of};

    /// The number of the refusal: 44 to 46.
    pub fn number(self) -> u8
        ensures value { result ≡ number_of self }
    {
        match self {
            ReplayRule::NoMessage => 44,
            ReplayRule::NotThere => 45,
            ReplayRule::Stamp => 46,
        }
    }
}

/// Why a record wasn't made once more.
#[derive(Debug, Drop, Error)]
pub enum ReplayRefused {
    /// An event breaks a rule. The entry of the node that tells of it is counted from 1; the end of
    /// the node's journal is the entry after its takes.
    #[error("{rule:?} at node {node} entry {entry}")]
    Broken {
        rule: ReplayRule,
        node: u8,
        entry: usize,
    },
    #[error("out of memory")]
    OutOfMemory,
}

impl From<AllocError> for ReplayRefused {
    ghost use Rattle.std.specs.Prelude.{◌≡◌};
    ghost use Rattle.replay.specs.declared.refused.ReplayRefused.TheVariants.{OutOfMemory};

    ghost from_gives = { λ _ e. e ≡ OutOfMemory };

    fn from(_error: AllocError) -> ReplayRefused {
        ReplayRefused::OutOfMemory
    }
}
