//! The state bytes of a node.

ghost use Rattle.std.specs.Prelude.{◌≡◌, ◌/◌, ◌<◌, ◌≤◌, ℕ, Some, IfOk, length};
ghost use Rattle.block_layout.specs.Layout.{blocks, place_of};
ghost use Rattle.block_layout.specs.Update.{changed};
ghost use Rattle.state_table.specs.States.{state_of, line_byte};
ghost use Rattle.state_table.specs.StateByte.{byte_of, state_with};
ghost use Rattle.state_table.specs.Fill.{IsFilled};

use crate::classes::LineClasses;
use crate::{EXCLUSIVE, INVALID, PENDING, SHARED, State};
use block_layout::{Block, Layout, layout_law};
use std::alloc::{AllocError, Global};
use std::marker::Model;

/// The state bytes of a node. Contracts see the layout that it was made with, the classes of the
/// other lines, and the bytes of the shared lines, ascending.
#[derive(Drop)]
pub struct States {
    layout: Layout,
    program: LineClasses,
    bytes: Vec<u8>,
}

impl Model for States {
    ghost use Rattle.state_table.specs.States.{States as Seen, AreStates};

    ghost Value = { Seen };

    ghost view = { λ s. record { layout = s.layout; program = s.program; bytes = s.bytes.items } };

    ghost invariant = { λ s. AreStates s.layout s.bytes.items };
}

impl States {
    /// The states of a node that has no block yet: each is invalid.
    pub fn new(
        alloc: Global,
        layout: &Layout,
        program_bytes: &LineClasses,
    ) -> Result<States, AllocError>
        ensures layout { IfOk result (λ s. s.layout ≡ layout.now) }
        ensures program { IfOk result (λ s. s.program ≡ program_bytes.now) }
        ensures states { IfOk result (λ s. (b : ℕ) → state_of s b ≡ State.Invalid) }
    {
        layout_law();
        // brings: the layout is valid
        let _blocks = layout.blocks();
        let mut bytes = Vec::new(alloc);
        bytes.resize(layout.shared_lines() as usize, INVALID)?;
        Ok(States {
            layout: layout.copy(alloc)?,
            program: program_bytes.copy(alloc)?,
            bytes,
        })
    }

    /// The byte of the line of an address.
    pub fn byte(&self, address: u32) -> u8
        ensures { result ≡ line_byte self.now (address / 64) }
    {
        layout_law();
        let line = address / 64;
        match self.layout.place_of(line) {
            Some(place) => self.bytes[place as usize],
            None => self.program.byte(line),
        }
    }

    /// The byte of a shared line, where its place among the shared lines is known.
    #[inline(always)]
    pub fn byte_at(&self, line: u32, place: u32) -> u8
        requires { place_of self.now.layout line ≡ Some place }
        ensures { result ≡ line_byte self.now line }
    {
        layout_law();
        self.bytes[place as usize]
    }

    /// The state of a block.
    pub fn state(&self, block: Block) -> State
        requires { block < blocks self.now.layout }
        ensures { result ≡ state_of self.now block }
    {
        layout_law();
        state_of_byte(self.bytes[self.layout.start(block) as usize])
    }

    /// Gives all lines of a block the byte of a state.
    pub fn set(&mut self, block: Block, state: State)
        requires { block < blocks self.old.layout }
        ensures states { state_of self.new ≡ changed (state_of self.old) block state }
        ensures layout { self.new.layout ≡ self.old.layout }
        ensures program { self.new.program ≡ self.old.program }
    {
        layout_law();
        let start = self.layout.start(block) as usize;
        let end = start + self.layout.lines(block) as usize;
        fill(&mut self.bytes, start, end, state.byte());
    }
}

/// The state whose byte this is. A read-only line and one that isn't mapped are in no block, so that
/// theirs is none of these.
fn state_of_byte(byte: u8) -> State
    requires state { byte ≡ byte_of (state_with byte) }
    ensures { result ≡ state_with byte }
{
    match byte {
        EXCLUSIVE => State::Exclusive,
        SHARED => State::Shared,
        INVALID => State::Invalid,
        PENDING => State::Pending,
        _ => unreachable!(),
    }
}

/// Puts a byte at the places from `start` on up to `end`.
fn fill(bytes: &mut [u8], start: usize, end: usize, byte: u8)
    requires order { start ≤ end }
    requires bound { end ≤ length bytes.old }
    ensures { IsFilled bytes.old bytes.new start end byte }
{
    for place in start..end {
        bytes[place] = byte;
    }
}
