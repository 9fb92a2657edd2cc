//! The rows of the table of messages for a node that has a block or waits for it.

ghost use Rattle.std.specs.Prelude.{◌≡◌, ◌+◌, ◌*◌, ◌<◌, ◌≤◌, [], true, Some, None, is_some, length};
ghost use Rattle.std.specs.Prelude.{if◌then◌else◌};
ghost use Rattle.std.specs.Option.{option_to_list, ForSome};
ghost use Rattle.block_layout.specs.Layout.{blocks, lines};
ghost use Rattle.block_layout.specs.Update.{changed};
ghost use Rattle.llsc.specs.Reservation.{cleared};
ghost use Rattle.home_directory.specs.state_table.States.{state_of};
ghost use Rattle.home_directory.specs.flag_memory.Flag.{flags};
ghost use Rattle.home_directory.specs.flag_memory.Copy.{bytes_of};
ghost use Rattle.home_directory.specs.Table.{is_complete, state_for, state_without};
ghost use Rattle.home_directory.specs.Table.{bytes_by};
ghost use Rattle.miss_handlers.specs.Waits.{wait_of, IsWaitFor, IsAnswerFor};
ghost use Rattle.miss_handlers.specs.Search.{acks_in, bringing, takes_answer};
ghost use Rattle.miss_handlers.specs.Effects.{node_blocks, message_effect, HasEffect, pool_after};
ghost use Rattle.miss_handlers.specs.Effects.{buffers};
ghost use Rattle.miss_handlers.specs.Completion.{completion_of};

use crate::search::{find, is_waited_for, takes_ack, takes_data, takes_grant};
use crate::{BUFFER_BYTES, Waiting, Waits};
use block_layout::Block;
use buf_pool::{Buf, Pool};
use home_directory::dsm_messages::{Message, Need, Post, Sends, push_some};
use home_directory::flag_memory::Copy32;
use home_directory::state_table::{State, States};
use home_directory::{Answer, Wait};
use llsc::Reservation;

impl Waits {
    /// A message from a node: the row that the table has for it, or none, and what that sends. The
    /// messages to a home and the last of a node have no row here.
    pub fn on(
        &mut self,
        from: u8,
        message: Message,
        states: &mut States,
        copy: &mut Copy32,
        held: &mut Reservation,
        pool: &mut Pool,
    ) -> Sends
        requires pool { pool.old.free + length self.old.waits ≤ pool.old.slots }
        requires states { states.old.layout ≡ self.old.layout }
        requires copy { copy.old.layout ≡ self.old.layout }
        ensures effect { let old = node_blocks self.old states.old copy.old held.old in
            let new = node_blocks self.new states.new copy.new held.new in
            let effect = message_effect self.old.layout old from message in
            HasEffect new result.items effect }
        ensures pool { let old = node_blocks self.old states.old copy.old held.old in
            let effect = message_effect self.old.layout old from message in
            pool.new ≡ pool_after pool.old effect.gives_back }
        ensures count { buffers pool.new self.new ≡ buffers pool.old self.old }
        ensures layout { self.new.layout ≡ self.old.layout }
        ensures states_layout { states.new.layout ≡ states.old.layout }
        ensures program { states.new.program ≡ states.old.program }
        ensures copy_layout { copy.new.layout ≡ copy.old.layout }
    {
        let mut sends = Sends::new();
        let post = self.reply(from, message, states, copy, held, pool);
        push_some(&mut sends, post);
        sends
    }

    /// The same as `on`; it gives the one message that the row sends, where it sends one.
    pub fn reply(
        &mut self,
        from: u8,
        message: Message,
        states: &mut States,
        copy: &mut Copy32,
        held: &mut Reservation,
        pool: &mut Pool,
    ) -> Option<Post>
        requires pool { pool.old.free + length self.old.waits ≤ pool.old.slots }
        requires states { states.old.layout ≡ self.old.layout }
        requires copy { copy.old.layout ≡ self.old.layout }
        ensures effect { let old = node_blocks self.old states.old copy.old held.old in
            let new = node_blocks self.new states.new copy.new held.new in
            let effect = message_effect self.old.layout old from message in
            HasEffect new (option_to_list result) effect }
        ensures pool { let old = node_blocks self.old states.old copy.old held.old in
            let effect = message_effect self.old.layout old from message in
            pool.new ≡ pool_after pool.old effect.gives_back }
        ensures count { buffers pool.new self.new ≡ buffers pool.old self.old }
        ensures layout { self.new.layout ≡ self.old.layout }
        ensures states_layout { states.new.layout ≡ states.old.layout }
        ensures program { states.new.program ≡ states.old.program }
        ensures copy_layout { copy.new.layout ≡ copy.old.layout }
    {
        match message {
            Message::FwdRead {
                block,
                requester,
                buf,
            } => self.fwd_read(from, block, requester, buf, states, copy, held),
            Message::FwdWrite {
                block,
                requester,
                acks,
                buf,
            } => self.fwd_write(from, block, requester, acks, buf, states, copy, held),
            Message::Inval { block, requester } => {
                self.inval(from, block, requester, states, copy, held)
            }
            Message::Data { block, acks, buf } => {
                let answer = Answer::ByData { acks, buf };
                self.answer(from, block, answer, states, copy, held, pool)
            }
            Message::Grant { block, acks, buf } => {
                let answer = Answer::ByGrant { acks, buf };
                self.answer(from, block, answer, states, copy, held, pool)
            }
            Message::Ack { block } => self.ack(from, block, states, copy, held, pool),
            Message::Read { .. } | Message::Write { .. } | Message::Done { .. } | Message::Bye => {
                None
            }
        }
    }

    /// FwdRead.
    #[tactic(auto, using(crate::proofs::Lists::changed_same, crate::proofs::Lists::changed_twice, crate::proofs::Lists::changed_back))]
    fn fwd_read(
        &self,
        from: u8,
        block: Block,
        requester: u8,
        mut buf: Buf,
        states: &mut States,
        copy: &Copy32,
        held: &Reservation,
    ) -> Option<Post>
        requires states { states.old.layout ≡ self.now.layout }
        requires copy { copy.now.layout ≡ self.now.layout }
        ensures effect { let old = node_blocks self.now states.old copy.now held.now in
            let new = node_blocks self.now states.new copy.now held.now in
            let message = (Message.FwdRead block requester buf) in
            let effect = message_effect self.now.layout old from message in
            HasEffect new (option_to_list result) effect }
        ensures states_layout { states.new.layout ≡ states.old.layout }
        ensures program { states.new.program ≡ states.old.program }
    {
        if block < self.layout.blocks()
            && from == self.layout.home(block)
            && states.state(block).can_read()
            && requester < self.layout.nodes()
            && 64 * self.layout.lines(block) <= buf.room()
        {
            copy.take(block, &mut buf);
            states.set(block, State::Shared);
            Some(Post {
                to: requester,
                message: Message::Data {
                    block,
                    acks: 0,
                    buf,
                },
            })
        } else {
            None
        }
    }

    /// FwdWrite.
    #[tactic(auto, using(crate::proofs::Lists::changed_same, crate::proofs::Lists::changed_twice, crate::proofs::Lists::changed_back))]
    fn fwd_write(
        &self,
        from: u8,
        block: Block,
        requester: u8,
        acks: u8,
        mut buf: Buf,
        states: &mut States,
        copy: &mut Copy32,
        held: &mut Reservation,
    ) -> Option<Post>
        requires states { states.old.layout ≡ self.now.layout }
        requires copy { copy.old.layout ≡ self.now.layout }
        ensures effect { let old = node_blocks self.now states.old copy.old held.old in
            let new = node_blocks self.now states.new copy.new held.new in
            let message = (Message.FwdWrite block requester acks buf) in
            let effect = message_effect self.now.layout old from message in
            HasEffect new (option_to_list result) effect }
        ensures states_layout { states.new.layout ≡ states.old.layout }
        ensures program { states.new.program ≡ states.old.program }
        ensures copy_layout { copy.new.layout ≡ copy.old.layout }
    {
        if block < self.layout.blocks()
            && from == self.layout.home(block)
            && states.state(block).can_read()
            && requester < self.layout.nodes()
            && 64 * self.layout.lines(block) <= buf.room()
        {
            copy.take(block, &mut buf);
            self.give_up(block, states, copy, held);
            Some(Post {
                to: requester,
                message: Message::Data { block, acks, buf },
            })
        } else {
            None
        }
    }

    /// Inval.
    fn inval(
        &self,
        from: u8,
        block: Block,
        requester: u8,
        states: &mut States,
        copy: &mut Copy32,
        held: &mut Reservation,
    ) -> Option<Post>
        requires states { states.old.layout ≡ self.now.layout }
        requires copy { copy.old.layout ≡ self.now.layout }
        ensures effect { let old = node_blocks self.now states.old copy.old held.old in
            let new = node_blocks self.now states.new copy.new held.new in
            let effect = message_effect self.now.layout old from (Message.Inval block requester) in
            HasEffect new (option_to_list result) effect }
        ensures states_layout { states.new.layout ≡ states.old.layout }
        ensures program { states.new.program ≡ states.old.program }
        ensures copy_layout { copy.new.layout ≡ copy.old.layout }
    {
        if block < self.layout.blocks()
            && from == self.layout.home(block)
            && states.state(block).is_shared()
            && requester < self.layout.nodes()
        {
            self.give_up(block, states, copy, held);
            Some(Post {
                to: requester,
                message: Message::Ack { block },
            })
        } else {
            None
        }
    }

    /// Leaves a block to another node.
    fn give_up(&self, block: Block, states: &mut States, copy: &mut Copy32, held: &mut Reservation)
        requires block { block < blocks self.now.layout }
        requires states { states.old.layout ≡ self.now.layout }
        requires copy { copy.old.layout ≡ self.now.layout }
        ensures states { let state = state_without (wait_of self.now block) in
            state_of states.new ≡ changed (state_of states.old) block state }
        ensures bytes { let n = 64 * lines self.now.layout block in
            bytes_of copy.new ≡ changed (bytes_of copy.old) block (flags n) }
        ensures held { held.new ≡ cleared self.now.layout block held.old }
        ensures states_layout { states.new.layout ≡ states.old.layout }
        ensures program { states.new.program ≡ states.old.program }
        ensures copy_layout { copy.new.layout ≡ copy.old.layout }
    {
        states.set(block, state_without(self.waits_for(block)));
        copy.fill_flag(block);
        held.clear_block(&self.layout, block);
    }

    /// Data, or Grant: the message that brings an answer.
    #[tactic(auto, using(crate::proofs::Lists::changed_same, crate::proofs::Lists::changed_twice, crate::proofs::Lists::changed_back))]
    fn answer(
        &mut self,
        from: u8,
        block: Block,
        answer: Answer,
        states: &mut States,
        copy: &mut Copy32,
        held: &Reservation,
        pool: &mut Pool,
    ) -> Option<Post>
        requires pool { pool.old.free + length self.old.waits ≤ pool.old.slots }
        requires states { states.old.layout ≡ self.old.layout }
        requires copy { copy.old.layout ≡ self.old.layout }
        ensures effect { let old = node_blocks self.old states.old copy.old held.now in
            let new = node_blocks self.new states.new copy.new held.now in
            let effect = message_effect self.old.layout old from (bringing block answer) in
            HasEffect new (option_to_list result) effect }
        ensures pool { let old = node_blocks self.old states.old copy.old held.now in
            let effect = message_effect self.old.layout old from (bringing block answer) in
            pool.new ≡ pool_after pool.old effect.gives_back }
        ensures count { buffers pool.new self.new ≡ buffers pool.old self.old }
        ensures layout { self.new.layout ≡ self.old.layout }
        ensures states_layout { states.new.layout ≡ states.old.layout }
        ensures program { states.new.program ≡ states.old.program }
        ensures copy_layout { copy.new.layout ≡ copy.old.layout }
    {
        if !self.takes(from, block, &answer, states) {
            return None;
        }
        match self.take_out(block) {
            None => unreachable!(),
            Some(wait) => {
                let wait = Wait {
                    need: wait.need,
                    answer: Some(answer),
                    counted: wait.counted,
                };
                self.complete_or_keep(block, wait, states, copy, pool)
            }
        }
    }

    /// Whether the wait for a block takes an answer from a node.
    fn takes(&self, from: u8, block: Block, answer: &Answer, states: &States) -> bool
        requires { states.now.layout ≡ self.now.layout }
        ensures value { let state = state_of states.now in
            result ≡ takes_answer self.now state from block answer.now }
    {
        if block >= self.layout.blocks() {
            return false;
        }
        match answer {
            Answer::ByData { buf, .. } => {
                buf.room() >= BUFFER_BYTES
                    && buf.bytes().len() == 64 * self.layout.lines(block) as usize
                    && takes_data(&self.waits, block)
            }
            Answer::ByGrant { buf, .. } => {
                buf.room() >= BUFFER_BYTES
                    && from == self.layout.home(block)
                    && states.state(block).is_shared()
                    && takes_grant(&self.waits, block)
            }
        }
    }

    /// Ack.
    #[tactic(auto, using(crate::proofs::Lists::changed_same, crate::proofs::Lists::changed_twice, crate::proofs::Lists::changed_back))]
    fn ack(
        &mut self,
        from: u8,
        block: Block,
        states: &mut States,
        copy: &mut Copy32,
        held: &Reservation,
        pool: &mut Pool,
    ) -> Option<Post>
        requires pool { pool.old.free + length self.old.waits ≤ pool.old.slots }
        requires states { states.old.layout ≡ self.old.layout }
        requires copy { copy.old.layout ≡ self.old.layout }
        ensures effect { let old = node_blocks self.old states.old copy.old held.now in
            let new = node_blocks self.new states.new copy.new held.now in
            let effect = message_effect self.old.layout old from (Message.Ack block) in
            HasEffect new (option_to_list result) effect }
        ensures pool { let old = node_blocks self.old states.old copy.old held.now in
            let effect = message_effect self.old.layout old from (Message.Ack block) in
            pool.new ≡ pool_after pool.old effect.gives_back }
        ensures count { buffers pool.new self.new ≡ buffers pool.old self.old }
        ensures layout { self.new.layout ≡ self.old.layout }
        ensures states_layout { states.new.layout ≡ states.old.layout }
        ensures program { states.new.program ≡ states.old.program }
        ensures copy_layout { copy.new.layout ≡ copy.old.layout }
    {
        if block >= self.layout.blocks() {
            return None;
        }
        if !takes_ack(&self.waits, block) {
            return None;
        }
        match self.take_out(block) {
            None => unreachable!(),
            Some(wait) => {
                let wait = Wait {
                    need: wait.need,
                    answer: wait.answer,
                    counted: wait.counted + 1,
                };
                self.complete_or_keep(block, wait, states, copy, pool)
            }
        }
    }

    /// Goes on with a wait that is out of the list, or completes it.
    #[tactic(auto, using(crate::proofs::Lists::changed_same, crate::proofs::Lists::changed_twice, crate::proofs::Lists::changed_back))]
    fn complete_or_keep(
        &mut self,
        block: Block,
        wait: Wait,
        states: &mut States,
        copy: &mut Copy32,
        pool: &mut Pool,
    ) -> Option<Post>
        requires none { wait_of self.old block ≡ None }
        requires good { IsWaitFor self.old.layout block wait }
        requires few { length self.old.waits < 2 }
        requires slot { pool.old.free < pool.old.slots }
        requires states { states.old.layout ≡ self.old.layout }
        requires copy { copy.old.layout ≡ self.old.layout }
        ensures states { let row = completion_of self.old states.old copy.old block wait in
            state_of states.new ≡ changed (state_of states.old) block row.block.state }
        ensures bytes { let row = completion_of self.old states.old copy.old block wait in
            bytes_of copy.new ≡ changed (bytes_of copy.old) block row.block.bytes }
        ensures wait { let row = completion_of self.old states.old copy.old block wait in
            wait_of self.new ≡ changed (wait_of self.old) block row.block.wait }
        ensures sends { let row = completion_of self.old states.old copy.old block wait in
            option_to_list result ≡ row.sends }
        ensures pool { let row = completion_of self.old states.old copy.old block wait in
            pool.new ≡ pool_after pool.old row.gives_back }
        ensures count { buffers pool.new self.new ≡ buffers pool.old self.old + 1 }
        ensures layout { self.new.layout ≡ self.old.layout }
        ensures states_layout { states.new.layout ≡ states.old.layout }
        ensures program { states.new.program ≡ states.old.program }
        ensures copy_layout { copy.new.layout ≡ copy.old.layout }
    {
        if !is_complete(&wait.answer, wait.counted) {
            self.add(block, wait);
            return None;
        }
        states.set(block, state_for(wait.need));
        use_answer(wait.answer, block, copy, pool);
        Some(Post {
            to: self.layout.home(block),
            message: Message::Done { block },
        })
    }

    /// Whether there is a wait for a block.
    pub fn waits_for(&self, block: Block) -> bool
        ensures value { result ≡ is_some (wait_of self.now block) }
    {
        is_waited_for(&self.waits, block)
    }

    /// Takes the wait for a block out of the list.
    #[tactic(auto, using(crate::proofs::Lists::remove_is, crate::proofs::Lists::remove_good, crate::proofs::Lists::good_at, crate::proofs::Lists::gone_is))]
    fn take_out(&mut self, block: Block) -> Option<Wait>
        ensures found { result ≡ wait_of self.old block }
        ensures rest { wait_of self.new ≡ changed (wait_of self.old) block None }
        ensures gone { wait_of self.new block ≡ None }
        ensures layout { self.new.layout ≡ self.old.layout }
        ensures good { ForSome result (IsWaitFor self.old.layout block) }
        ensures len { let out = length (option_to_list result) in
            length self.new.waits + out ≡ length self.old.waits }
        ensures few { length self.old.waits ≤ 2 }
    {
        match find(&self.waits, block) {
            None => None,
            Some(k) => {
                let waiting = self.waits.remove(k);
                Some(waiting.wait)
            }
        }
    }

    /// Adds a wait for a block to the list.
    #[tactic(auto, using(crate::proofs::Lists::add_is, crate::proofs::Lists::add_good))]
    pub(crate) fn add(&mut self, block: Block, wait: Wait)
        requires none { wait_of self.old block ≡ None }
        requires good { IsWaitFor self.old.layout block wait }
        requires few { length self.old.waits < 2 }
        ensures wait { wait_of self.new ≡ changed (wait_of self.old) block (Some wait) }
        ensures layout { self.new.layout ≡ self.old.layout }
        ensures len { length self.new.waits ≡ length self.old.waits + 1 }
    {
        self.waits.push_reserved(Waiting { block, wait });
    }
}

/// The state of a block that another node gets.
fn state_without(waits: bool) -> State
    ensures { result ≡ (if waits then State.Pending else State.Invalid) }
{
    if waits {
        State::Pending
    } else {
        State::Invalid
    }
}

/// Whether a wait with this answer has counted the Acks that the answer says.
fn is_complete(answer: &Option<Answer>, counted: u8) -> bool
    ensures { result ≡ is_complete answer.now counted }
{
    match answer {
        None => false,
        Some(answer) => acks_of(answer) == counted,
    }
}

/// The number of Acks that an answer says.
fn acks_of(answer: &Answer) -> u8
    ensures { result ≡ acks_in answer.now }
{
    match answer {
        Answer::ByData { acks, .. } => *acks,
        Answer::ByGrant { acks, .. } => *acks,
    }
}

/// The state of a block that was wanted so.
fn state_for(need: Need) -> State
    ensures { result ≡ state_for need }
{
    match need {
        Need::Read => State::Shared,
        Need::Write => State::Exclusive,
    }
}

/// Puts the bytes of an answer into the copy, and its buffer into the pool.
fn use_answer(answer: Option<Answer>, block: Block, copy: &mut Copy32, pool: &mut Pool)
    requires block { block < blocks copy.old.layout }
    requires good { IsAnswerFor copy.old.layout block answer }
    requires some { is_some answer ≡ true }
    requires slot { pool.old.free < pool.old.slots }
    ensures bytes { let bytes = bytes_by (bytes_of copy.old block) answer in
        bytes_of copy.new ≡ changed (bytes_of copy.old) block bytes }
    ensures layout { copy.new.layout ≡ copy.old.layout }
    ensures pool { pool.new ≡ pool_after pool.old true }
{
    // brings: the pool's buffers have room for at most 4096 bytes
    let _room = pool.bytes();
    match answer {
        Some(Answer::ByData { buf, .. }) => {
            copy.put(block, buf.bytes());
            pool.give(buf);
        }
        Some(Answer::ByGrant { buf, .. }) => pool.give(buf),
        None => {}
    }
}
