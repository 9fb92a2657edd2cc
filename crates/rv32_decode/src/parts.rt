//! The parts of an instruction, each of a type that holds its range.

ghost use Rattle.std.specs.Prelude.{◌≡◌, ◌+◌, ◌-◌, ◌*◌, ◌%◌, ◌^◌, ◌<◌, ◌≤◌, ℕ, ℤ, pos, negsuc};
ghost use Rattle.std.specs.Prelude.{◌≤ℤ◌, cond, nat_lt};
ghost use Rattle.rv32_decode.specs.Fields.{field, imm_i, imm_s, imm_b, imm_j, signed, unsigned};

use std::marker::Model;

/// A register, x0 to x31.
#[derive(Clone, Copy, PartialEq, Eq)]
pub struct Reg {
    number: u8,
}

impl Model for Reg {
    ghost use Rattle.std.specs.Prelude.{ℕ, ◌<◌};

    ghost Value = { ℕ };

    ghost view = { λ r. r.number };

    ghost inverse = { λ n. record { number = n } };

    ghost invariant = { λ r. r.number < 32 };
}

impl Reg {
    /// x0, which reads 0.
    pub const ZERO: Reg = Reg { number: 0 };

    /// x10, the first argument and the result of a call.
    pub const A0: Reg = Reg { number: 10 };

    /// x11, the second argument.
    pub const A1: Reg = Reg { number: 11 };

    /// x12, the third argument.
    pub const A2: Reg = Reg { number: 12 };

    /// x17, the number of a call.
    pub const A7: Reg = Reg { number: 17 };

    /// The register of a number from 0 to 31.
    pub fn new(number: u8) -> Reg
        requires { number < 32 }
        ensures { result ≡ number }
    {
        Reg { number }
    }

    /// The register's number.
    pub fn number(self) -> u8
        ensures value { result ≡ self }
        ensures small { result < 32 }
    {
        self.number
    }

    /// The register's number in the bits from a place on.
    pub(crate) fn bits(self, low: u32) -> u32
        requires { low < 26 }
        ensures value { result ≡ self * 2 ^ low }
        ensures small { self < 32 }
    {
        u32::from(self.number) << low
    }

    /// The register that a word names from a place on.
    pub(crate) fn of(word: u32, low: u32) -> Reg
        requires { low < 28 }
        ensures { result ≡ field word low 5 }
    {
        Reg {
            number: ((word >> low) & 0x1f) as u8,
        }
    }
}

/// The upper 20 bits of a word, as LUI and AUIPC have them.
#[derive(Clone, Copy, PartialEq, Eq)]
pub struct Upper {
    value: u32,
}

impl Model for Upper {
    ghost use Rattle.std.specs.Prelude.{ℕ, ◌<◌, ◌^◌};

    ghost Value = { ℕ };

    ghost view = { λ u. u.value };

    ghost inverse = { λ n. record { value = n } };

    ghost invariant = { λ u. u.value < 2 ^ 20 };
}

impl Upper {
    /// The upper part of a number below 2^20.
    pub fn new(value: u32) -> Upper
        requires { value < 2 ^ 20 }
        ensures { result ≡ value }
    {
        Upper { value }
    }

    /// The number, not shifted.
    pub fn value(self) -> u32
        ensures value { result ≡ self }
        ensures small { result < 2 ^ 20 }
    {
        self.value
    }

    /// Bits 31 to 12 of a word.
    pub(crate) fn of(word: u32) -> Upper
        ensures { result ≡ field word 12 20 }
    {
        Upper { value: word >> 12 }
    }
}

/// A signed number of 12 bits: -2048 to 2047.
#[derive(Clone, Copy, PartialEq, Eq)]
pub struct Imm12 {
    value: i32,
}

impl Model for Imm12 {
    ghost use Rattle.std.specs.Prelude.{ℤ, pos, ◌≤ℤ◌, negsuc};

    ghost Value = { ℤ };

    ghost view = { λ i. i.value };

    ghost inverse = { λ z. record { value = z } };

    ghost invariant = { λ i. (negsuc 2047 ≤ℤ i.value) × (i.value ≤ℤ pos 2047) };
}

impl Imm12 {
    /// The number from -2048 to 2047.
    pub fn new(value: i32) -> Imm12
        requires low { negsuc 2047 ≤ℤ value }
        requires high { value ≤ℤ pos 2047 }
        ensures { result ≡ value }
    {
        Imm12 { value }
    }

    /// The number.
    pub fn value(self) -> i32
        ensures value { result ≡ self }
        ensures low { negsuc 2047 ≤ℤ result }
        ensures high { result ≤ℤ pos 2047 }
    {
        self.value
    }

    /// The number as a word of two's complement.
    pub fn word(self) -> u32
        ensures { result ≡ unsigned 32 self }
    {
        self.value.cast_unsigned()
    }

    /// The number as 12 bits of two's complement.
    pub(crate) fn bits(self) -> u32
        ensures value { result ≡ unsigned 12 self }
        ensures small { result < 2 ^ 12 }
        ensures again { signed 12 result ≡ self }
    {
        self.value.cast_unsigned() & 0xfff
    }

    /// The immediate of format I.
    pub(crate) fn of_load(word: u32) -> Imm12
        ensures { result ≡ imm_i word }
    {
        Imm12 {
            value: extended(word >> 20, 1 << 11),
        }
    }

    /// The immediate of format S.
    pub(crate) fn of_store(word: u32) -> Imm12
        ensures { result ≡ imm_s word }
    {
        Imm12 {
            value: extended(((word >> 25) << 5) + ((word >> 7) & 0x1f), 1 << 11),
        }
    }
}

/// The even distance of a branch: -4096 to 4094 bytes.
#[derive(Clone, Copy, PartialEq, Eq)]
pub struct BranchOffset {
    value: i32,
}

impl Model for BranchOffset {
    ghost use Rattle.std.specs.Prelude.{ℤ, ◌≡◌, ◌%◌, pos, ◌≤ℤ◌, negsuc};
    ghost use Rattle.rv32_decode.specs.Fields.{unsigned};

    ghost Value = { ℤ };

    ghost view = { λ i. i.value };

    ghost inverse = { λ z. record { value = z } };

    ghost invariant = { λ i. (negsuc 4095 ≤ℤ i.value) × (i.value ≤ℤ pos 4094)
        × (unsigned 32 i.value % 2 ≡ 0) };
}

impl BranchOffset {
    /// The distance as a word of two's complement.
    pub fn word(self) -> u32
        ensures { result ≡ unsigned 32 self }
    {
        self.value.cast_unsigned()
    }

    /// The even number from -4096 to 4094.
    pub fn new(value: i32) -> BranchOffset
        requires low { negsuc 4095 ≤ℤ value }
        requires high { value ≤ℤ pos 4094 }
        requires even { unsigned 32 value % 2 ≡ 0 }
        ensures { result ≡ value }
    {
        BranchOffset { value }
    }

    /// The number of bytes.
    pub fn value(self) -> i32
        ensures value { result ≡ self }
        ensures low { negsuc 4095 ≤ℤ result }
        ensures high { result ≤ℤ pos 4094 }
        ensures even { unsigned 32 result % 2 ≡ 0 }
    {
        self.value
    }

    /// The number as 13 bits of two's complement.
    pub(crate) fn bits(self) -> u32
        ensures value { result ≡ unsigned 13 self }
        ensures small { result < 2 ^ 13 }
        ensures even { result % 2 ≡ 0 }
        ensures again { signed 13 result ≡ self }
    {
        self.value.cast_unsigned() & 0x1fff
    }

    /// The immediate of format B.
    pub(crate) fn of(word: u32) -> BranchOffset
        ensures { result ≡ imm_b word }
    {
        let number = ((word >> 31) << 12)
            + (((word >> 7) & 1) << 11)
            + (((word >> 25) & 0x3f) << 5)
            + (((word >> 8) & 0xf) << 1);
        BranchOffset {
            value: extended(number, 1 << 12),
        }
    }
}

/// The even distance of a JAL: -1048576 to 1048574 bytes.
#[derive(Clone, Copy, PartialEq, Eq)]
pub struct JumpOffset {
    value: i32,
}

impl Model for JumpOffset {
    ghost use Rattle.std.specs.Prelude.{ℤ, ◌≡◌, ◌%◌, pos, ◌≤ℤ◌, negsuc};
    ghost use Rattle.rv32_decode.specs.Fields.{unsigned};

    ghost Value = { ℤ };

    ghost view = { λ i. i.value };

    ghost inverse = { λ z. record { value = z } };

    ghost invariant = { λ i. (negsuc 1048575 ≤ℤ i.value) × (i.value ≤ℤ pos 1048574)
        × (unsigned 32 i.value % 2 ≡ 0) };
}

impl JumpOffset {
    /// The distance as a word of two's complement.
    pub fn word(self) -> u32
        ensures { result ≡ unsigned 32 self }
    {
        self.value.cast_unsigned()
    }

    /// The even number from -1048576 to 1048574.
    pub fn new(value: i32) -> JumpOffset
        requires low { negsuc 1048575 ≤ℤ value }
        requires high { value ≤ℤ pos 1048574 }
        requires even { unsigned 32 value % 2 ≡ 0 }
        ensures { result ≡ value }
    {
        JumpOffset { value }
    }

    /// The number of bytes.
    pub fn value(self) -> i32
        ensures value { result ≡ self }
        ensures low { negsuc 1048575 ≤ℤ result }
        ensures high { result ≤ℤ pos 1048574 }
        ensures even { unsigned 32 result % 2 ≡ 0 }
    {
        self.value
    }

    /// The number as 21 bits of two's complement.
    pub(crate) fn bits(self) -> u32
        ensures value { result ≡ unsigned 21 self }
        ensures small { result < 2 ^ 21 }
        ensures even { result % 2 ≡ 0 }
        ensures again { signed 21 result ≡ self }
    {
        self.value.cast_unsigned() & 0x1f_ffff
    }

    /// The immediate of format J.
    pub(crate) fn of(word: u32) -> JumpOffset
        ensures { result ≡ imm_j word }
    {
        let number = ((word >> 31) << 20)
            + (((word >> 12) & 0xff) << 12)
            + (((word >> 20) & 1) << 11)
            + (((word >> 21) & 0x3ff) << 1);
        JumpOffset {
            value: extended(number, 1 << 20),
        }
    }
}

/// The amount of a shift by an immediate: 0 to 31 bits.
#[derive(Clone, Copy, PartialEq, Eq)]
pub struct Amount {
    value: u8,
}

impl Model for Amount {
    ghost use Rattle.std.specs.Prelude.{ℕ, ◌<◌};

    ghost Value = { ℕ };

    ghost view = { λ a. a.value };

    ghost inverse = { λ n. record { value = n } };

    ghost invariant = { λ a. a.value < 32 };
}

impl Amount {
    /// The number from 0 to 31.
    pub fn new(value: u8) -> Amount
        requires { value < 32 }
        ensures { result ≡ value }
    {
        Amount { value }
    }

    /// The number of bits.
    pub fn value(self) -> u8
        ensures value { result ≡ self }
        ensures small { result < 32 }
    {
        self.value
    }

    /// Bits 24 to 20 of a word.
    pub(crate) fn of(word: u32) -> Amount
        ensures { result ≡ field word 20 5 }
    {
        Amount {
            value: ((word >> 20) & 0x1f) as u8,
        }
    }
}

/// Bits 31 to 20 of a FENCE: its fence mode, predecessors and successors.
#[derive(Clone, Copy, PartialEq, Eq)]
pub struct FenceBits {
    value: u16,
}

impl Model for FenceBits {
    ghost use Rattle.std.specs.Prelude.{ℕ, ◌<◌, ◌^◌};

    ghost Value = { ℕ };

    ghost view = { λ f. f.value };

    ghost inverse = { λ n. record { value = n } };

    ghost invariant = { λ f. f.value < 2 ^ 12 };
}

impl FenceBits {
    /// The bits of a number below 2^12.
    pub fn new(value: u16) -> FenceBits
        requires { value < 2 ^ 12 }
        ensures { result ≡ value }
    {
        FenceBits { value }
    }

    /// The bits as a number.
    pub fn value(self) -> u16
        ensures value { result ≡ self }
        ensures small { result < 2 ^ 12 }
    {
        self.value
    }

    /// Bits 31 to 20 of a word.
    pub(crate) fn of(word: u32) -> FenceBits
        ensures { result ≡ field word 20 12 }
    {
        FenceBits {
            value: (word >> 20) as u16,
        }
    }
}

/// A number read as two's complement, whose top bit weighs `sign`.
fn extended(number: u32, sign: u32) -> i32
    requires fits { number < 2 * sign }
    requires small { sign ≤ 2 ^ 20 }
    ensures { result ≡ cond (nat_lt number sign) (pos number) (negsuc (2 * sign - 1 - number)) }
{
    if number < sign {
        number as i32
    } else {
        number as i32 - 2 * sign as i32
    }
}
