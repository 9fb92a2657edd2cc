//! The registers of a processor.

ghost use Rattle.std.specs.Prelude.{◌≡◌, ℕ};
ghost use Rattle.rv32_step.specs.Registers.{reg, put, registers_of, first_values};

use rv32_decode::Reg;
use std::marker::Model;

/// The 32 registers of a processor. Contracts see the list of their values.
#[derive(Drop)]
pub struct Registers {
    values: [u32; 32],
}

impl Model for Registers {
    ghost use Rattle.std.specs.Prelude.{List, ℕ, ◌≡◌, slice_index};

    ghost Value = { List ℕ };

    ghost view = { λ r. r.values };

    ghost invariant = { λ r. slice_index r.values 0 ≡ 0 };
}

impl Registers {
    /// What a processor begins with, where there are `processors`.
    pub fn first(processor: u8, processors: u8) -> Registers
        ensures { result ≡ first_values processor processors }
    {
        let mut values = [0; 32];
        values[2] = 0x7fff_fff0;
        values[10] = u32::from(processor);
        values[11] = u32::from(processors);
        Registers { values }
    }

    /// The same values once more.
    pub fn copy(&self) -> Registers
        ensures { result ≡ self.now }
    {
        Registers {
            values: self.values,
        }
    }

    #[tactic(auto, using(crate::proofs::RegisterLemmas::reads))]
    /// The value of a register.
    pub fn get(&self, r: Reg) -> u32
        ensures { result ≡ reg (registers_of self.now) r }
    {
        self.values[r.number() as usize]
    }

    #[tactic(auto, using(crate::proofs::RegisterLemmas::writes))]
    /// Puts a value into a register; one put into x0 is lost.
    pub fn set(&mut self, r: Reg, value: u32)
        ensures { registers_of self.new ≡ put (registers_of self.old) r value }
    {
        self.values[r.number() as usize] = value;
        self.values[0] = 0;
    }
}
