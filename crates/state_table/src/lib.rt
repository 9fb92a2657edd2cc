#![tactic(auto)]
//! The state of each line at a node, as the checks of rewritten code read it.
//!
//! A shared line has the state of its block. The byte of a line is found by its place among the
//! shared lines; the other lines of the program have a byte that never changes. What a byte allows
//! is told by [`is_readable`], [`is_writable`], [`is_fixed`] and [`is_mapped`].

ghost use Rattle.std.specs.Prelude.{◌≡◌};
ghost use Rattle.state_table.specs.declared.State.{State as AnyState};
ghost use Rattle.state_table.specs.StateByte.{byte_of, can_read, can_write, is_shared};
ghost use Rattle.state_table.specs.StateByte.{is_readable_state, is_writable_state, state_in_wait};

mod classes;
mod state_byte;
mod states;

pub use classes::{LineClass, LineClasses};
pub use state_byte::{is_fixed, is_mapped, is_readable, is_writable};
pub use states::States;

/// The byte of a line that the node may read and write: an exclusive or a private one.
pub const EXCLUSIVE: u8 = 0;
/// The byte of a shared line that the node may read.
pub const SHARED: u8 = 1;
/// The byte of an invalid line.
pub const INVALID: u8 = 3;
/// The byte of a read-only line.
pub const READ_ONLY: u8 = 5;
/// The byte of a line that isn't mapped.
pub const UNMAPPED: u8 = 7;
/// The byte of an invalid line that the node has asked for.
pub const PENDING: u8 = 11;

/// The state of a block at a node.
#[derive(Clone, Copy, PartialEq, Eq)]
pub enum State {
    /// The node may read and write it, and no other node may use it.
    Exclusive,
    /// The node may read it.
    Shared,
    /// The node may not use it.
    Invalid,
    /// The node may not use it, and has asked for it.
    Pending,
}

impl State {
    /// The byte of each line of a block in this state.
    pub fn byte(self) -> u8
        ensures { result ≡ byte_of self }
    {
        match self {
            State::Exclusive => EXCLUSIVE,
            State::Shared => SHARED,
            State::Invalid => INVALID,
            State::Pending => PENDING,
        }
    }

    /// Whether the node may read a block in this state.
    pub fn can_read(self) -> bool
        ensures { result ≡ can_read self }
    {
        match self {
            State::Exclusive | State::Shared => true,
            State::Invalid | State::Pending => false,
        }
    }

    /// Whether the node may write a block in this state.
    pub fn can_write(self) -> bool
        ensures { result ≡ can_write self }
    {
        self == State::Exclusive
    }

    /// Whether the node shares a block in this state: it may read it, and not write it.
    pub fn is_shared(self) -> bool
        ensures { result ≡ is_shared self }
    {
        self == State::Shared
    }

    /// The state of a block in this state once the node waits for it.
    pub fn in_wait(self) -> State
        ensures { result ≡ state_in_wait self }
    {
        match self {
            State::Invalid => State::Pending,
            State::Exclusive | State::Shared | State::Pending => self,
        }
    }
}

/// What the checks of rewritten code read off a byte. A caller uses the clauses; the call does
/// nothing.
pub fn state_byte_law()
    ensures readable { (s : AnyState) → is_readable_state (byte_of s) ≡ can_read s }
    ensures writable { (s : AnyState) → is_writable_state (byte_of s) ≡ can_write s }
{}
