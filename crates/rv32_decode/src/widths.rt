//! The widths of loads and stores.

ghost use Rattle.std.specs.Prelude.{◌≡◌, ◌%◌};
ghost use Rattle.rv32_decode.specs.Widths as model;

use crate::{LoadKind, Width};

impl Width {
    /// How many bytes an access of this width has: 1, 2 or 4.
    pub fn bytes(self) -> u8
        ensures value { result ≡ model.size_of self }
    {
        match self {
            Width::Byte => 1,
            Width::Half => 2,
            Width::Word => 4,
        }
    }

    /// Whether the address is a multiple of the width in bytes.
    pub fn is_aligned(self, address: u32) -> bool
        ensures value { result ≡ model.is_aligned self address }
    {
        match self {
            Width::Byte => true,
            Width::Half => address % 2 == 0,
            Width::Word => address % 4 == 0,
        }
    }
}

impl LoadKind {
    /// How much a load of this kind reads.
    pub fn width(self) -> Width
        ensures value { result ≡ model.width_of self }
    {
        match self {
            LoadKind::Byte | LoadKind::ByteU => Width::Byte,
            LoadKind::Half | LoadKind::HalfU => Width::Half,
            LoadKind::Word => Width::Word,
        }
    }
}
