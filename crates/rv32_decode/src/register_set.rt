//! Sets of registers.

ghost use Rattle.std.specs.Prelude.{◌≡◌, ℕ, ◌<◌, ◌↔◌, ◌⊎◌, IsTrue};

use crate::parts::Reg;
use std::marker::Model;

/// A set of registers, seen as a number whose bit `r` says whether register `r` is a member.
#[derive(Clone, Copy, PartialEq, Eq)]
pub struct RegSet {
    bits: u32,
}

impl Model for RegSet {
    ghost use Rattle.std.specs.Prelude.{ℕ};

    ghost Value = { ℕ };

    ghost view = { λ s. s.bits };

    ghost inverse = { λ n. record { bits = n } };
}

impl RegSet {
    ghost use Rattle.rv32_decode.specs.Registers.{IsMember};

    /// The set with no member.
    pub fn empty() -> RegSet
        ensures { (r : ℕ) → ¬ IsMember result r }
    {
        RegSet { bits: 0 }
    }

    /// The set of all registers.
    pub fn all() -> RegSet
        ensures { (r : ℕ) → r < 32 → IsMember result r }
    {
        RegSet { bits: u32::MAX }
    }

    /// The set of a number: its bit `r` says whether register `r` is a member.
    pub fn of_bits(bits: u32) -> RegSet
        ensures value { result ≡ bits }
    {
        RegSet { bits }
    }

    /// The set as a number.
    pub fn bits(self) -> u32
        ensures value { result ≡ self }
    {
        self.bits
    }

    /// Whether the register is a member.
    pub fn has(self, r: Reg) -> bool
        ensures { IsTrue result ↔ IsMember self r }
    {
        (self.bits >> r.number()) & 1 == 1
    }

    /// The set with the register.
    pub fn with(self, r: Reg) -> RegSet
        ensures { (q : ℕ) → q < 32 → (IsMember result q ↔ (IsMember self q ⊎ (q ≡ r))) }
    {
        RegSet {
            bits: self.bits | (1 << r.number()),
        }
    }

    /// The members of either set.
    pub fn union(self, other: RegSet) -> RegSet
        ensures { (q : ℕ) → q < 32 → (IsMember result q ↔ (IsMember self q ⊎ IsMember other q)) }
    {
        RegSet {
            bits: self.bits | other.bits,
        }
    }

    /// The members of this set that are no members of the other.
    pub fn difference(self, other: RegSet) -> RegSet
        ensures { (q : ℕ) → q < 32 → (IsMember result q ↔ (IsMember self q × ¬ IsMember other q)) }
    {
        RegSet {
            bits: self.bits & !other.bits,
        }
    }
}
