//! The number of a word of rewritten code, of a type that holds its range.

ghost use Rattle.std.specs.Prelude.{◌≡◌, ◌+◌, ◌*◌, ◌/◌, ◌%◌, ◌^◌, ◌<◌};
ghost use Rattle.runtime_words.specs.Reading.{far_number};

use std::marker::Model;

/// The number of a word of rewritten code, below 2^22. Word 0 is the first.
#[derive(Clone, Copy, PartialEq, Eq)]
pub struct WordNumber {
    value: u32,
}

impl Model for WordNumber {
    ghost use Rattle.std.specs.Prelude.{ℕ, ◌<◌, ◌^◌};

    ghost Value = { ℕ };

    ghost view = { λ k. k.value };

    ghost inverse = { λ n. record { value = n } };

    ghost invariant = { λ k. k.value < 2 ^ 22 };
}

impl WordNumber {
    /// The number below 2^22.
    pub fn new(value: u32) -> WordNumber
        requires { value < 2 ^ 22 }
        ensures { result ≡ value }
    {
        WordNumber { value }
    }

    /// The number.
    pub fn value(self) -> u32
        ensures value { result ≡ self }
        ensures small { result < 2 ^ 22 }
    {
        self.value
    }

    /// The number in the fields of a far jump.
    pub(crate) fn bits(self) -> u32
        ensures value { result ≡ self / 32 * 2 ^ 15 + self % 32 * 2 ^ 7 }
        ensures small { self < 2 ^ 22 }
    {
        ((self.value >> 5) << 15) + ((self.value & 0x1f) << 7)
    }

    /// The number that the fields of a far jump make.
    pub(crate) fn of(word: u32) -> WordNumber
        ensures { result ≡ far_number word }
    {
        WordNumber {
            value: ((word >> 15) << 5) + ((word >> 7) & 0x1f),
        }
    }
}
