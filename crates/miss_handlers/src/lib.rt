#![tactic(auto)]
//! A node's waits, and its replies to messages.
//!
//! A node that misses a block waits for it: [`Waits::want`]. [`Waits::on`] has the rows of the
//! table of messages for the node that has a block or waits for it, and completes the waits. No row
//! sends more than one message: [`Waits::reply`] is the same, and gives that one.
//!
//! It hands on the whole protocol: [`home_directory`], [`state_table`], [`flag_memory`],
//! [`dsm_messages`] and [`llsc`].

ghost use Rattle.std.specs.Prelude.{◌≡◌, ◌<◌, ◌≤◌, [], None, Some, IfOk, length};
ghost use Rattle.std.specs.Prelude.{MatchOption, option_map};
ghost use Rattle.home_directory.specs.declared.wait.Wait.{Wait};
ghost use Rattle.block_layout.specs.Layout.{blocks};
ghost use Rattle.home_directory.specs.state_table.States.{state_of};
ghost use Rattle.home_directory.specs.Table.{meets, request};
ghost use Rattle.miss_handlers.specs.Waits.{AreWaits, wait_of};
ghost use Rattle.miss_handlers.specs.Effects.{miss_of, states_after, waits_after, pool_after_miss};
ghost use Rattle.miss_handlers.specs.Effects.{post_of, buffers};

mod replies;
mod search;

use crate::search::find;
use block_layout::{Block, Layout};
use buf_pool::{Buf, Pool};
pub use home_directory;
use home_directory::Wait;
use home_directory::dsm_messages::{Message, Need, Post};
use home_directory::state_table::{State, States};
pub use home_directory::{dsm_messages, flag_memory, state_table};
pub use llsc;
use std::alloc::{AllocError, Global};
use std::marker::Model;

/// How many blocks a node may wait for, each with a buffer.
pub const WAITS: u8 = 2;

/// The bytes for which a buffer has room: those of the largest block.
pub const BUFFER_BYTES: u32 = 4096;

/// A wait, and the block that it is for.
#[derive(Drop)]
pub struct Waiting {
    block: Block,
    wait: Wait,
}

/// The waits of a node: at most two, of different blocks. Contracts see the layout that they were
/// made with, and the list of the waits.
#[derive(Drop)]
pub struct Waits {
    layout: Layout,
    waits: Vec<Waiting>,
}

impl Model for Waits {
    ghost use Rattle.std.specs.Prelude.{◌≤◌, length};
    ghost use Rattle.std.specs.Vec.{vec_capacity};
    ghost use Rattle.miss_handlers.specs.Waits.{NodeWaits, AreWaits};

    ghost Value = { NodeWaits };

    ghost view = { λ w. record { layout = w.layout; waits = w.waits.items } };

    ghost invariant = { λ w. (2 ≤ vec_capacity w.waits)
        × (length w.waits.items ≤ 2)
        × AreWaits w.layout w.waits.items };
}

impl Waits {
    /// No wait.
    pub fn new(alloc: Global, layout: &Layout) -> Result<Waits, AllocError>
        ensures { IfOk result (λ w. w ≡ record { layout = layout.now; waits = [] }) }
    {
        Ok(Waits {
            layout: layout.copy(alloc)?,
            waits: Vec::with_capacity(alloc, WAITS as usize)?,
        })
    }

    /// The number of waits.
    pub fn pending(&self) -> u8
        ensures count { result ≡ length self.now.waits }
        ensures few { result ≤ 2 }
        ensures waits { AreWaits self.now.layout self.now.waits }
    {
        self.waits.len() as u8
    }

    /// The wait for a block.
    pub fn wait(&self, block: Block) -> Option<&Wait>
        ensures value { MatchOption result (wait_of self.now block ≡ None)
            (λ w. wait_of self.now block ≡ Some w.now) }
    {
        match find(&self.waits, block) {
            Some(place) => Some(&self.waits[place].wait),
            None => None,
        }
    }

    /// What a block is waited for, or `None` where there is no wait for it.
    pub fn need_of(&self, block: Block) -> Option<Need>
        ensures need { result ≡ option_map (λ (w : Wait). w.need) (wait_of self.now block) }
    {
        match find(&self.waits, block) {
            Some(place) => Some(self.waits[place].wait.need),
            None => None,
        }
    }

    /// Begins a wait, and gives the message to the home. None exactly where the block meets the
    /// need as it is; then nothing changes.
    #[tactic(auto, using(crate::proofs::Lists::add_is, crate::proofs::Lists::add_good))]
    pub fn want(
        &mut self,
        block: Block,
        need: Need,
        states: &mut States,
        pool: &mut Pool,
    ) -> Option<Post>
        requires block { block < blocks self.old.layout }
        requires none { wait_of self.old block ≡ None }
        requires few { length self.old.waits < 2 }
        requires buffer { 0 < pool.old.free }
        requires states { states.old.layout ≡ self.old.layout }
        ensures post { result ≡ post_of (miss_of self.old states.old pool.old block need) }
        ensures state { let miss = miss_of self.old states.old pool.old block need in
            state_of states.new ≡ states_after (state_of states.old) block miss }
        ensures wait { let miss = miss_of self.old states.old pool.old block need in
            wait_of self.new ≡ waits_after (wait_of self.old) block miss }
        ensures pool { let miss = miss_of self.old states.old pool.old block need in
            pool.new ≡ pool_after_miss pool.old miss }
        ensures count { buffers pool.new self.new ≡ buffers pool.old self.old }
        ensures layout { self.new.layout ≡ self.old.layout }
        ensures states_layout { states.new.layout ≡ states.old.layout }
        ensures program { states.new.program ≡ states.old.program }
    {
        let state = states.state(block);
        if meets(need, state) {
            return None;
        }
        let buf = pool.take();
        let wait = Wait {
            need,
            answer: None,
            counted: 0,
        };
        self.add(block, wait);
        states.set(block, state.in_wait());
        Some(Post {
            to: self.layout.home(block),
            message: request(need, block, buf),
        })
    }
}

/// Whether a state meets a need.
fn meets(need: Need, state: State) -> bool
    ensures { result ≡ meets need state }
{
    match need {
        Need::Read => state.can_read(),
        Need::Write => state.can_write(),
    }
}

/// The message that asks the home for a block.
fn request(need: Need, block: Block, buf: Buf) -> Message
    ensures { result ≡ request need block buf }
{
    match need {
        Need::Read => Message::Read { block, buf },
        Need::Write => Message::Write { block, buf },
    }
}
