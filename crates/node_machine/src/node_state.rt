//! What a node stores, and its events. How the parts fit together is said by each call's clauses,
//! and kept by the type of the node above it.

ghost use Rattle.std.specs.Prelude.{◌≡◌, ◌+◌, ◌^◌, ◌<◌, ◌≤◌, ◌++◌, ◌⊎◌};
ghost use Rattle.std.specs.Prelude.{if◌then◌else◌, ℕ, List, [], true, false, None, Option, length};
ghost use Rattle.node_words.specs.node_model.Node as model;
ghost use Rattle.node_words.specs.node_model.Turns as turns;
ghost use Rattle.node_words.specs.node_memory.Shelf.{ground_of, local_of};
ghost use Rattle.node_words.specs.Kept.{wants_by};
ghost use Rattle.node_words.specs.jump_map.Image.{Cell};
ghost use Rattle.node_machine.specs.Wanted.{wants_along, wanted_in, wants_of_word};
ghost use Rattle.node_machine.specs.NodeState.{work_of, node_of, layout_of, with_parts, phase_of};
ghost use Rattle.node_machine.specs.NodeState.{HasRoom, IsNode, IsProtocolState, AreCountsBelow};
ghost use Rattle.node_machine.specs.NodeState.{HasBegun, with_all};
ghost use Rattle.node_machine.specs.ProtocolState.{turn_by, AreUnmet};
ghost use Rattle.node_machine.specs.Runs.{HasExecuted, GoesOnBy};

use crate::phase::{Phase, phase_on};
use crate::protocol_state::ProtocolState;
use crate::states::{LaneState, SharedState};
use crate::wanted::WantedBlocks;
use node_words::dsm_messages::{Message, Post, Sends, Wire};
use node_words::{ExecState, Following, PlainLoop, WordLoop};
use run_limits::STAMPS;

/// What a node did in one event, but for what it sent.
#[derive(Drop)]
pub struct BareTurn {
    /// The stamp of the event.
    pub stamp: u64,
    /// The byte that it printed.
    pub output: Option<u8>,
}

/// What a word did by the path that serves every word, but for what it sent, and what it wants.
#[derive(Drop)]
pub struct WordTurn {
    pub turn: BareTurn,
    pub wants: Option<WantedBlocks>,
}

/// What a node of one processor stores: what is the processor's own, and what it would share.
#[derive(Drop)]
pub struct NodeState<'a> {
    pub lane: LaneState<'a>,
    pub shared: SharedState<'a>,
}

impl<'a> NodeState<'a> {
    /// Executes one word, and leaves what it sends, in order.
    pub fn exec(&mut self, sends: &mut Sends) -> BareTurn
        requires node { IsNode self.old }
        requires may { model.can_execute (node_of self.old).phase ≡ true }
        requires room { HasRoom self.old }
        requires stamp { self.old.shared.stamp < 2 ^ 56 }
        ensures turn { turn_by (node_of self.new) sends.new.items result.output
            ≡ turns.word_turn (work_of self.old) (node_of self.old) }
        ensures stamp { result.stamp ≡ self.new.shared.stamp }
        ensures work { work_of self.new ≡ work_of self.old }
        ensures node { IsNode self.new }
    {
        sends.clear();
        if self.exec_silent() {
            return BareTurn {
                stamp: self.shared.stamp,
                output: None,
            };
        }
        self.serve_word(sends)
    }

    /// Executes one word by the path that serves every word. Leaves what it sends, in order, and
    /// says what the word wants.
    pub fn exec_with_wants(&mut self, sends: &mut Sends) -> WordTurn
        requires node { IsNode self.old }
        requires may { model.can_execute (node_of self.old).phase ≡ true }
        requires room { HasRoom self.old }
        requires stamp { self.old.shared.stamp < 2 ^ 56 }
        ensures turn { turn_by (node_of self.new) sends.new.items result.turn.output
            ≡ turns.word_turn (work_of self.old) (node_of self.old) }
        ensures wants { wanted_in result.wants
            ≡ wants_of_word (work_of self.old) (node_of self.old) }
        ensures stamp { result.turn.stamp ≡ self.new.shared.stamp }
        ensures work { work_of self.new ≡ work_of self.old }
        ensures node { IsNode self.new }
    {
        sends.clear();
        self.serve_seen(sends)
    }

    /// Executes the next word by its micro-op, where that serves it and the budget has a further
    /// word for after it. Otherwise nothing changes.
    #[inline]
    pub fn exec_silent(&mut self) -> bool
        requires node { IsNode self.old }
        requires may { model.can_execute (node_of self.old).phase ≡ true }
        requires stamp { self.old.shared.stamp < 2 ^ 56 }
        ensures passed { result ≡ true →
            (turns.word_turn (work_of self.old) (node_of self.old)
            ≡ turns.silent (node_of self.new))
            × (model.can_execute (node_of self.new).phase ≡ true) }
        ensures same { result ≡ false → self.new ≡ self.old }
        ensures work { work_of self.new ≡ work_of self.old }
        ensures node { IsNode self.new }
    {
        if self.lane.executed + 1 >= self.lane.budget.number() {
            return false;
        }
        match self.shared.body.step_at(self.lane.image, self.lane.at) {
            Some(at) => {
                self.lane.at = at;
                self.lane.executed += 1;
                self.shared.stamp += 1;
                self.lane.phase = Phase::Running;
                true
            }
            None => false,
        }
    }

    /// Executes words by a loop, as long as they print nothing and send nothing: at most `most`,
    /// fewer than the budget has left, and fewer than there are stamps left. It gives how many.
    pub fn run_by<L: WordLoop>(&mut self, by: &mut L, most: u64) -> u64
        requires node { IsNode self.old }
        requires may { model.can_execute (node_of self.old).phase ≡ true }
        requires stamp { self.old.shared.stamp < 2 ^ 56 }
        requires goes_over { L.goes_over (work_of self.old).image by.old }
        ensures goes_on { GoesOnBy (work_of self.old) result (node_of self.old) (node_of self.new) }
        ensures learns { L.learns (work_of self.old) result (node_of self.old) by.old by.new }
        ensures stays { (image : List Cell) → L.goes_over image by.old
            → L.goes_over image by.new }
        ensures may { model.can_execute (node_of self.new).phase ≡ true }
        ensures most { result ≤ most }
        ensures stamp { self.new.shared.stamp < 2 ^ 56 }
        ensures room { HasRoom self.old → HasRoom self.new }
        ensures work { work_of self.new ≡ work_of self.old }
        ensures node { IsNode self.new }
    {
        let left = most_words(
            self.lane.budget.number() - self.lane.executed - 1,
            STAMPS - self.shared.stamp - 1,
        );
        let most = most_words(most, left);
        let stretch = by.run(&mut self.shared.body, self.lane.image, self.lane.at, most);
        self.lane.at = stretch.at;
        self.lane.executed += stretch.words;
        self.shared.stamp += stretch.words;
        self.lane.phase = phase_on(self.lane.phase, stretch.words);
        stretch.words
    }

    /// Executes words: as many as `run_silent` does, which print nothing and send nothing, and one
    /// more. It leaves what that sends, in order.
    pub fn run_until_send(&mut self, sends: &mut Sends) -> BareTurn
        requires node { IsNode self.old }
        requires may { model.can_execute (node_of self.old).phase ≡ true }
        requires room { HasRoom self.old }
        requires stamp { self.old.shared.stamp < 2 ^ 56 }
        ensures ran { HasExecuted (work_of self.old) (node_of self.old) (node_of self.new)
            sends.new.items result.output }
        ensures stamp { result.stamp ≡ self.new.shared.stamp }
        ensures work { work_of self.new ≡ work_of self.old }
        ensures node { IsNode self.new }
    {
        sends.clear();
        self.run_by(&mut PlainLoop, u64::MAX);
        self.serve_word(sends)
    }

    /// Takes a message from a node, and leaves what it sends, in order.
    pub fn take(&mut self, from: u8, wire: Wire, sends: &mut Sends) -> BareTurn
        requires node { IsNode self.old }
        requires room { HasRoom self.old }
        requires stamp { self.old.shared.stamp < 2 ^ 56 }
        requires wire { wire.stamp < 2 ^ 56 }
        ensures turn { turn_by (node_of self.new) sends.new.items result.output
            ≡ turns.take_turn (work_of self.old) (node_of self.old) from wire }
        ensures stamp { result.stamp ≡ self.new.shared.stamp }
        ensures work { work_of self.new ≡ work_of self.old }
        ensures node { IsNode self.new }
    {
        let was_ended = self.lane.has_ended();
        let executed = self.lane.executed;
        self.shared.note_take(from, wire.stamp, executed);
        let shared = &mut self.shared;
        handle(
            &mut shared.protocol,
            &mut shared.body,
            &mut shared.byes,
            from,
            wire.message,
            sends,
        );
        let pending = shared.protocol.waits.pending();
        self.lane.resume(&mut self.shared.body, pending);
        if was_ended {
            return BareTurn {
                stamp: self.shared.stamp,
                output: None,
            };
        }
        self.turn(sends, None)
    }

    /// Executes one word by the path that serves every word.
    fn serve_word(&mut self, sends: &mut Sends) -> BareTurn
        requires nothing { sends.old.items ≡ [] }
        requires node { IsNode self.old }
        requires may { model.can_execute (node_of self.old).phase ≡ true }
        requires room { HasRoom self.old }
        requires stamp { self.old.shared.stamp < 2 ^ 56 }
        ensures turn { turn_by (node_of self.new) sends.new.items result.output
            ≡ turns.word_turn (work_of self.old) (node_of self.old) }
        ensures stamp { result.stamp ≡ self.new.shared.stamp }
        ensures work { work_of self.new ≡ work_of self.old }
        ensures node { IsNode self.new }
    {
        self.serve_seen(sends).turn
    }

    /// Executes the next word by the path that serves every word, and says what it wants.
    fn serve_seen(&mut self, sends: &mut Sends) -> WordTurn
        requires nothing { sends.old.items ≡ [] }
        requires node { IsNode self.old }
        requires may { model.can_execute (node_of self.old).phase ≡ true }
        requires room { HasRoom self.old }
        requires stamp { self.old.shared.stamp < 2 ^ 56 }
        ensures turn { turn_by (node_of self.new) sends.new.items result.turn.output
            ≡ turns.word_turn (work_of self.old) (node_of self.old) }
        ensures wants { wanted_in result.wants
            ≡ wants_of_word (work_of self.old) (node_of self.old) }
        ensures stamp { result.turn.stamp ≡ self.new.shared.stamp }
        ensures work { work_of self.new ≡ work_of self.old }
        ensures node { IsNode self.new }
    {
        let served = self.shared.body.serve(self.lane.image, self.lane.at);
        self.lane.advance(served);
        self.shared.note_word(served.output);
        let shared = &mut self.shared;
        let wants = ask(
            &mut shared.protocol,
            &mut shared.body,
            served.following,
            sends,
        );
        WordTurn {
            turn: self.turn(sends, served.output),
            wants,
        }
    }

    /// The turn that ends with a node so, once this was sent and printed: a node that has just
    /// ended says so to all nodes.
    fn turn(&self, sends: &mut Sends, output: Option<u8>) -> BareTurn
        requires few { turns.is_ended (phase_of self.now.lane.phase) ≡ true
            → length sends.old.items ≤ 2 }
        ensures turn { turn_by (node_of self.now) sends.new.items result.output
            ≡ turns.with_byes (layout_of self.now.shared.body.value).nodes
            (turn_by (node_of self.now) sends.old.items output)
            (turns.is_ended (phase_of self.now.lane.phase)) }
        ensures stamp { result.stamp ≡ self.now.shared.stamp }
    {
        add_byes(sends, self.shared.body.local.nodes(), self.lane.has_ended());
        BareTurn {
            stamp: self.shared.stamp,
            output,
        }
    }
}

/// The lesser of two numbers of words.
pub fn most_words(a: u64, b: u64) -> u64
    ensures first { result ≤ a }
    ensures second { result ≤ b }
{
    if a < b { a } else { b }
}

/// A message from a node: a Bye is noted, another has its row.
#[tactic(auto, using(crate::proofs::TakeLemmas::members_set))]
pub fn handle(
    protocol: &mut ProtocolState,
    body: &mut ExecState<'_>,
    byes: &mut [bool; 256],
    from: u8,
    message: Message,
    sends: &mut Sends,
)
    requires protocol { IsProtocolState (layout_of body.old) protocol.old }
    requires counts { AreCountsBelow (2 ^ 63) body.old.counts }
    ensures turn { (n : model.Node) → n.me ≡ protocol.old.directory.me →
        turns.handled (layout_of body.old) (with_all n body.old protocol.old byes.old) from message
        ≡ turn_by (with_all n body.new protocol.new byes.new) sends.new.items None }
    ensures few { (length sends.new.items ≤ 1)
        ⊎ (length protocol.new.waits.waits ≡ length protocol.old.waits.waits) }
    ensures none { length protocol.old.waits.waits ≡ 0 → length protocol.new.waits.waits ≡ 0 }
    ensures protocol { IsProtocolState (layout_of body.old) protocol.new }
    ensures me { protocol.new.directory.me ≡ protocol.old.directory.me }
    ensures lane { body.new.lane ≡ body.old.lane }
    ensures ground { ground_of body.new.local ≡ ground_of body.old.local }
    ensures counts { (most : ℕ) → AreCountsBelow most body.old.counts
        → AreCountsBelow (most + 18) body.new.counts }
{
    match message {
        Message::Bye => {
            byes[from as usize] = true;
            sends.clear();
        }
        message => protocol.handle(body, from, message, sends),
    }
}

/// Asks for what a word wants, and tells what it finds.
fn ask(
    protocol: &mut ProtocolState,
    body: &mut ExecState<'_>,
    following: Following,
    sends: &mut Sends,
) -> Option<WantedBlocks>
    requires nothing { sends.old.items ≡ [] }
    requires protocol { IsProtocolState (layout_of body.old) protocol.old }
    requires idle { length protocol.old.waits.waits ≡ 0 }
    requires counts { AreCountsBelow (2 ^ 62) body.old.counts }
    ensures turn { (n : model.Node) (p : Option ℕ) → turns.want_all (layout_of body.old)
        (turn_by (with_parts n body.old protocol.old) [] p)
        (turns.each_block_once (layout_of body.old) (wants_by following))
        ≡ turn_by (with_parts n body.new protocol.new) sends.new.items p }
    ensures wants { (n : model.Node) (p : Option ℕ) → wants_along (layout_of body.old)
        (turn_by (with_parts n body.old protocol.old) [] p)
        (turns.each_block_once (layout_of body.old) (wants_by following)) ≡ wanted_in result }
    ensures begun { AreUnmet (local_of body.old.local) (wants_by following) →
        HasBegun following (length protocol.new.waits.waits) }
    ensures silent { wants_by following ≡ [] → sends.new.items ≡ [] }
    ensures protocol { IsProtocolState (layout_of body.old) protocol.new }
    ensures directory { protocol.new.directory ≡ protocol.old.directory }
    ensures lane { body.new.lane ≡ body.old.lane }
    ensures ground { ground_of body.new.local ≡ ground_of body.old.local }
    ensures counts { (most : ℕ) → AreCountsBelow most body.old.counts
        → AreCountsBelow (most + 2) body.new.counts }
{
    match following {
        Following::Waits(_, wants) => Some(protocol.want(body, wants, sends)),
        Following::GoesOn | Following::Leaves(_) => None,
    }
}

/// Sends a Bye to every node, after what is sent before, where the node has ended.
pub fn add_byes(sends: &mut Sends, nodes: u8, ended: bool)
    requires few { ended ≡ true → length sends.old.items ≤ 2 }
    requires nodes { nodes ≤ 16 }
    ensures { sends.new.items ≡ (if ended then sends.old.items ++ turns.byes_to nodes
        else sends.old.items) }
{
    if !ended {
        return;
    }
    for to in 0..nodes {
        sends.push(Post {
            to,
            message: Message::Bye,
        });
    }
}
