//! What a link carries.

ghost use Rattle.std.specs.Prelude.{◌≡◌, IfOk};

use std::alloc::AllocError;

/// An item that can be sent more than once.
pub trait Piece {
    /// An equal item, which shares nothing with this one.
    fn copy(&self) -> Result<Self, AllocError>
        ensures { IfOk result (λ copied. copied ≡ self.now) };
}

/// An item with its number: 0 for the first item that was offered, 1 for the second, and so on.
#[derive(Drop)]
pub struct Packet<T> {
    pub number: u64,
    pub item: T,
}
