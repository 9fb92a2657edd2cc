#![tactic(auto)]
//! Buffers that travel with messages, and the pool of a node's own.
//!
//! Shasta's reply to a miss brings the block's bytes. Here they come back in a buffer that the
//! requester took from its own pool and sent along with its request, so that no message takes
//! memory. A buffer is moved: who has it is in one place. A copy, for a message that a network may
//! lose, is another buffer, and takes memory.

ghost use Rattle.std.specs.Prelude.{◌≡◌, ◌<◌, ◌≤◌, length, IfOk};
ghost use Rattle.buf_pool.specs.Pool.{empty_buffer, one_more, one_less};

use std::alloc::{AllocError, Global};
use std::marker::Model;

/// A buffer. Contracts see the bytes that it holds, and for how many it has room.
#[derive(Drop)]
pub struct Buf {
    bytes: Vec<u8>,
    room: u32,
}

impl Model for Buf {
    ghost use Rattle.std.specs.Prelude.{◌≤◌, length};
    ghost use Rattle.std.specs.Vec.{vec_capacity};
    ghost use Rattle.buf_pool.specs.Pool.{Buffer};

    ghost Value = { Buffer };

    ghost view = { λ b. record { bytes = b.bytes.items; room = b.room } };

    ghost invariant = { λ b. b.room ≤ vec_capacity b.bytes };
}

impl Buf {
    /// A buffer that holds no bytes.
    fn new(alloc: Global, room: u32) -> Result<Buf, AllocError>
        ensures { IfOk result (λ b. b ≡ empty_buffer room) }
    {
        Ok(Buf {
            bytes: Vec::with_capacity(alloc, room as usize)?,
            room,
        })
    }

    /// The bytes that it holds.
    pub fn bytes(&self) -> &[u8]
        ensures { result.now ≡ self.now.bytes }
    {
        &self.bytes
    }

    /// For how many bytes it has room.
    pub fn room(&self) -> u32
        ensures { result ≡ self.now.room }
    {
        self.room
    }

    /// A buffer of the same room that holds the same bytes.
    pub fn copy(&self) -> Result<Buf, AllocError>
        ensures { IfOk result (λ b. b ≡ self.now) }
    {
        let mut bytes = Vec::with_capacity(*self.bytes.allocator(), self.room as usize)?;
        bytes.extend_from_slice(&self.bytes)?;
        Ok(Buf {
            bytes,
            room: self.room,
        })
    }

    /// Makes it hold these bytes, in place of those before.
    pub fn fill(&mut self, bytes: &[u8])
        requires { length bytes.now ≤ self.old.room }
        ensures { self.new ≡ record self.old { bytes = bytes.now } }
    {
        self.bytes.clear();
        match self.bytes.extend_from_slice(bytes) {
            Ok(()) => {}
            Err(_) => unreachable!(),
        }
    }

    /// The buffer without its bytes, of a room that is no larger.
    fn emptied(mut self, room: u32) -> Buf
        requires { room ≤ self.room }
        ensures { result ≡ empty_buffer room }
    {
        self.bytes.clear();
        Buf {
            bytes: self.bytes,
            room,
        }
    }
}

/// A pool of buffers of one room that hold no bytes. Contracts see how many are in it, how many
/// slots it has, and the room in bytes.
#[derive(Drop)]
pub struct Pool {
    free: Vec<Buf>,
    slots: u8,
    bytes: u32,
}

impl Model for Pool {
    ghost use Rattle.std.specs.Prelude.{◌≡◌, ◌≤◌, length, All};
    ghost use Rattle.std.specs.Vec.{vec_capacity};
    ghost use Rattle.buf_pool.specs.Pool.{Slots, Buffer, empty_buffer};

    ghost Value = { Slots };

    ghost view = { λ p. record { free = length p.free.items; slots = p.slots; bytes = p.bytes } };

    ghost invariant = { λ p. (p.bytes ≤ 4096)
        × (p.slots ≤ vec_capacity p.free)
        × (length p.free.items ≤ p.slots)
        × All (λ (b : Buffer). b ≡ empty_buffer p.bytes) p.free.items };
}

impl Pool {
    /// A pool of `slots` buffers, each with room for `bytes` bytes.
    pub fn new(alloc: Global, slots: u8, bytes: u32) -> Result<Pool, AllocError>
        requires { bytes ≤ 4096 }
        ensures { IfOk result (λ p. p ≡ record { free = slots; slots = slots; bytes = bytes }) }
    {
        let mut free = Vec::with_capacity(alloc, slots as usize)?;
        for _slot in 0..slots {
            free.push_reserved(Buf::new(alloc, bytes)?);
        }
        Ok(Pool { free, slots, bytes })
    }

    /// How many buffers are in the pool.
    pub fn free(&self) -> u8
        ensures free { result ≡ self.now.free }
        ensures within { self.now.free ≤ self.now.slots }
    {
        // brings: there are no more buffers than slots
        let _slots = self.slots;
        self.free.len() as u8
    }

    /// For how many bytes its buffers have room.
    pub fn bytes(&self) -> u32
        ensures bytes { result ≡ self.now.bytes }
        ensures few { self.now.bytes ≤ 4096 }
    {
        self.bytes
    }

    /// Takes a buffer out of the pool.
    pub fn take(&mut self) -> Buf
        requires { 0 < self.old.free }
        ensures buffer { result ≡ empty_buffer self.old.bytes }
        ensures pool { self.new ≡ one_less self.old }
    {
        match self.free.pop() {
            Some(buf) => buf,
            None => unreachable!(),
        }
    }

    /// Puts a buffer into the pool, without the bytes that it holds.
    pub fn give(&mut self, buf: Buf)
        requires slot { self.old.free < self.old.slots }
        requires room { self.old.bytes ≤ buf.room }
        ensures { self.new ≡ one_more self.old }
    {
        self.free.push_reserved(buf.emptied(self.bytes));
    }
}
