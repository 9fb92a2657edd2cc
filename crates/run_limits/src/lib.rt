#![tactic(auto)]
//! The limits of a run: numbers, each of a type that holds its range, and the bound of stamps.

ghost use Rattle.std.specs.Prelude.{◌≡◌, ◌*◌, ◌^◌, ◌<◌, MatchOption};
ghost use Rattle.run_limits.specs.Ranges.{IsWithin};

use std::marker::Model;

/// Each event's stamp is below this.
pub const STAMPS: u64 = 1 << 56;

/// A number from `LOW` to `HIGH`. Contracts see the number.
#[derive(Clone, Copy, PartialEq, Eq)]
pub struct Ranged<const LOW: u64, const HIGH: u64> {
    number: u64,
}

impl<const LOW: u64, const HIGH: u64> Model for Ranged<LOW, HIGH> {
    ghost use Rattle.std.specs.Prelude.{ℕ};
    ghost use Rattle.run_limits.specs.Ranges.{IsWithin};

    ghost Value = { ℕ };

    ghost view = { λ r. r.number };

    ghost inverse = { λ n. record { number = n } };

    ghost invariant = { λ r. IsWithin LOW HIGH r.number };
}

impl<const LOW: u64, const HIGH: u64> Ranged<LOW, HIGH> {
    /// The number, or `None` where it is out of range.
    pub fn of(number: u64) -> Option<Ranged<LOW, HIGH>>
        ensures { MatchOption result (IsWithin LOW HIGH number → ⊥)
            (λ r. (r ≡ number) × IsWithin LOW HIGH number) }
    {
        if number < LOW || number > HIGH {
            return None;
        }
        Some(Ranged { number })
    }

    /// The number.
    pub fn number(self) -> u64
        ensures value { result ≡ self.entry }
        ensures range { IsWithin LOW HIGH result }
    {
        self.number
    }

    /// The number, of a range of bytes.
    pub fn as_u8(self) -> u8
        requires { HIGH < 2 ^ 8 }
        ensures value { result ≡ self.entry }
        ensures range { IsWithin LOW HIGH result }
    {
        self.number as u8
    }

    /// The number, of a range of words.
    pub fn as_u32(self) -> u32
        requires { HIGH < 2 ^ 32 }
        ensures value { result ≡ self.entry }
        ensures range { IsWithin LOW HIGH result }
    {
        self.number as u32
    }
}

/// How many words, or steps of the original, a processor may execute.
pub type Budget = Ranged<1, 0x1_0000_0000>;

/// How many nodes a run has, or processors of the original.
pub type NodeCount = Ranged<1, 16>;

/// How many processors each node of a run has, where it has several.
pub type LaneCount = Ranged<2, 4>;

impl NodeCount {
    /// The one node of a run that has no more.
    pub const ONE: NodeCount = Ranged { number: 1 };
}

impl LaneCount {
    /// How many processors so many nodes have together.
    pub fn on(self, nodes: NodeCount) -> u8
        ensures { result ≡ nodes * self }
    {
        nodes.as_u8() * self.as_u8()
    }
}
