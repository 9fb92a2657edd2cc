//! A node: its processor, what words see of it, and its part of the protocol.

ghost use Rattle.std.specs.Prelude.{◌≡◌, ◌+◌, ◌^◌, ◌<◌, ◌==◌, ◌≤◌, true, false, None, IfOk, List};
ghost use Rattle.std.specs.Prelude.{OnOk, if◌then◌else◌, length, option_and_then, is_some};
ghost use Rattle.std.specs.Prelude.{MatchOption, Some, IfSome};
ghost use Rattle.block_layout.specs.Layout.{blocks};
ghost use Rattle.rv32_decode.specs.Widths.{width_of, is_aligned};
ghost use Rattle.node_words.specs.rv32_step.Registers.{registers_of};
ghost use Rattle.node_words.specs.rv32_step.Memory.{load_value};
ghost use Rattle.node_words.specs.jump_map.declared.image.ImageWord.{ImageWord};
ghost use Rattle.node_words.specs.exec_map.Contents.{program_of};
ghost use Rattle.node_words.specs.jump_map.Image.{Cell};
ghost use Rattle.node_words.specs.jump_map.Maps.{fetch};
ghost use Rattle.node_words.specs.home_directory.Effects.{members};
ghost use Rattle.node_words.specs.home_directory.Home.{count_of};
ghost use Rattle.node_words.specs.node_model.Node as model;
ghost use Rattle.node_words.specs.node_model.Turns as turns;
ghost use Rattle.node_machine.specs.Wanted.{wanted_in, wants_of_word};
ghost use Rattle.node_machine.specs.NodeState.{node_of, work_of, HasRoom};
ghost use Rattle.node_machine.specs.Runs.{HasExecuted, GoesOnBy};
ghost use Rattle.node_machine.specs.Touch.{IsTouch};
ghost use Rattle.node_machine.specs.UndoLogs.{TakesNodeBack};
ghost use Rattle.node_machine.specs.declared.node_state.NodeState.{NodeState as Stored};

use crate::node_state::{BareTurn, NodeState, WordTurn};
use crate::opening::first_local;
use crate::phase::Phase;
use crate::protocol_state::ProtocolState;
use crate::snapshot::Snapshot;
use crate::states::{LaneState, SharedState};
use crate::touch::Touch;
use crate::undo_log::NodeUndoLog;
use block_layout::{Block, Layout, layout_law};
use buf_pool::Pool;
use node_words::byte_range::Window;
use node_words::dsm_messages::{Sends, Wire};
use node_words::exec_map::{End, Program};
use node_words::home_directory::{Busy, Directory, Wait};
use node_words::jump_map::{Image, ImageWord};
use node_words::miss_handlers::{BUFFER_BYTES, WAITS, Waits};
use node_words::node_model::{Entry, NodeCounts, OutByte, Standing};
use node_words::runtime_words::RtWord;
use node_words::rv32_step::Registers;
use node_words::{ExecState, PlainLoop, ProcessorState, StoreLog, WordLoop, address_of, index_of};
use run_limits::Budget;
use rv32_decode::LoadKind;
use state_table::State;
use std::alloc::{AllocError, Global};
use std::marker::Model;

/// A node that runs rewritten code of a program.
#[derive(Drop)]
pub struct Node<'a> {
    inner: NodeState<'a>,
}

impl<'a> Model for Node<'a> {
    ghost use Rattle.node_machine.specs.declared.node_state.NodeState.{NodeState as Stored};
    ghost use Rattle.node_machine.specs.NodeState.{IsNode};

    ghost Value = { Stored };

    ghost view = { λ n. n.inner };

    ghost invariant = { λ n. IsNode n.inner };
}

impl<'a> Node<'a> {
    /// Node number `me` of a layout's at the start. It executes at most `budget` words.
    pub fn new(
        alloc: Global,
        image: &'a Image,
        program: &'a Program<'a>,
        layout: &Layout,
        me: u8,
        budget: Budget,
    ) -> Result<Node<'a>, AllocError>
        requires layout { model.IsLaidOver (program_of program.now) layout.now }
        requires node { me < layout.now.nodes }
        ensures opening { IfOk result
            (λ node. node_of node ≡ model.opening_node (work_of node) me) }
        ensures work { IfOk result (λ node. work_of node ≡ record {
          program = program_of program.now;
          image = image.now;
          layout = layout.now;
          budget = budget;
        }) }
    {
        // brings: the image's words have 32 bits, and are few enough
        let _ = image.len();
        // brings: the budget is in its range
        let _ = budget.number();
        let body = ExecState {
            lane: ProcessorState {
                registers: Registers::first(me, layout.nodes()),
                private: Window::zeros(alloc)?,
                written: 0,
                off: 0,
                spills: [0; 3],
            },
            local: first_local(alloc, program, layout, me)?,
            counts: NO_COUNTS,
            log: StoreLog::off(alloc),
        };
        let protocol = ProtocolState {
            directory: Directory::new(alloc, layout, me, layout.nodes())?,
            waits: Waits::new(alloc, layout)?,
            pool: Pool::new(alloc, WAITS, BUFFER_BYTES)?,
        };
        Ok(Node {
            inner: NodeState {
                lane: LaneState {
                    image,
                    budget,
                    at: index_of(image.new_of(program.entry()).unwrap_or(0)),
                    executed: 0,
                    phase: Phase::Running,
                },
                shared: SharedState {
                    body: Box::new(alloc, body)?,
                    protocol,
                    byes: [false; 256],
                    stamp: 0,
                    journal: Vec::new(alloc),
                    noted: 0,
                    output: Vec::new(alloc),
                },
            },
        })
    }

    /// How the processor ended; `None` exactly where it hasn't.
    pub fn end(&self) -> Option<End>
        ensures value { result ≡ model.end_of (node_of self.now).phase }
    {
        self.inner.lane.end()
    }

    /// What the node has counted.
    pub fn counts(&self) -> NodeCounts
        ensures value { result ≡ (node_of self.now).counts }
    {
        self.inner.shared.body.counts
    }

    /// How many buffers are in the node's pool: those of its two that it hasn't taken for a wait.
    pub fn free(&self) -> u8
        ensures { result + length self.now.shared.protocol.waits.waits ≡ 2 }
    {
        self.inner.shared.protocol.pool.free()
    }

    /// The stamp of the node's last event.
    pub fn stamp(&self) -> u64
        ensures value { result ≡ (node_of self.now).stamp }
    {
        self.inner.shared.stamp
    }

    /// What the node may do next.
    pub fn standing(&self) -> Standing
        ensures value { result ≡ model.standing_of (work_of self.now) (node_of self.now) }
    {
        match self.inner.lane.phase {
            Phase::Running => standing_at(self.inner.lane.next_word()),
            Phase::Resumed => Standing::Running,
            Phase::Waiting(_) => Standing::Waiting,
            Phase::Ended(_) => ended_standing(
                &self.inner.shared.byes,
                self.inner.shared.body.local.nodes(),
            ),
        }
    }

    /// The word at which the processor goes on; `None` where there is none.
    pub fn next_word(&self) -> Option<ImageWord>
        ensures value { result ≡ fetch (work_of self.now).image (node_of self.now).lane.at }
    {
        self.inner.lane.next_word()
    }

    /// What the next word does to memory, where its micro-op tells: that one counts nothing.
    #[inline(always)]
    pub fn touch(&self) -> Option<Touch>
        ensures { IfSome result (IsTouch (work_of self.now) (node_of self.now)) }
    {
        self.inner.touch()
    }

    /// The registers.
    pub fn registers(&self) -> &Registers
        ensures value { registers_of result.now ≡ (node_of self.now).lane.registers }
    {
        &self.inner.shared.body.lane.registers
    }

    /// What a load from an aligned address gives.
    pub fn value(&self, kind: LoadKind, address: u32) -> u32
        requires { is_aligned (width_of kind) address ≡ true }
        ensures value { result ≡ load_value kind (model.byte_at (work_of self.now).program
            (node_of self.now).lane (node_of self.now).local) address }
    {
        self.inner.shared.body.value(kind, address)
    }

    /// How many bytes a write in progress has written.
    pub fn written(&self) -> u32
        ensures value { result ≡ (node_of self.now).lane.written }
    {
        self.inner.shared.body.lane.written
    }

    /// The address that the processor has reserved.
    pub fn reserved(&self) -> Option<u32>
        ensures value { result ≡ (node_of self.now).local.reservation }
    {
        self.inner.shared.body.local.reserved()
    }

    /// The state of a block.
    pub fn state(&self, block: Block) -> State
        requires block { block < blocks (work_of self.now).layout }
        ensures value { result
            ≡ (turns.block_at (work_of self.now).layout (node_of self.now) block).state }
    {
        layout_law();
        self.inner.shared.body.local.laws();
        self.inner.shared.body.local.block_state(block)
    }

    /// Whether the node waits for a block.
    pub fn waits_for(&self, block: Block) -> bool
        ensures value { result ≡ is_some ((node_of self.now).wait block) }
    {
        self.inner.shared.protocol.waits.waits_for(block)
    }

    /// The wait for a block.
    pub fn wait(&self, block: Block) -> Option<&Wait>
        ensures value { MatchOption result ((node_of self.now).wait block ≡ None)
            (λ w. (node_of self.now).wait block ≡ Some w.now) }
    {
        self.inner.shared.protocol.waits.wait(block)
    }

    /// The request that the home of a block is busy with, where this node is the home.
    pub fn busy(&self, block: Block) -> Option<Busy>
        requires block { block < blocks (work_of self.now).layout }
        ensures value { result ≡ ((node_of self.now).entry block).busy }
    {
        self.inner.shared.protocol.directory.busy(block)
    }

    /// The owner of a block, where this node is the home.
    pub fn owner(&self, block: Block) -> u8
        requires block { block < blocks (work_of self.now).layout }
        ensures value { result ≡ ((node_of self.now).entry block).owner }
    {
        self.inner.shared.protocol.directory.owner(block)
    }

    /// Whether a node shares a block, where this node is the home.
    pub fn is_sharer(&self, block: Block, node: u8) -> bool
        requires block { block < blocks (work_of self.now).layout }
        requires node { node < 16 }
        ensures value { result ≡ ((node_of self.now).entry block).sharers node }
    {
        self.inner.shared.protocol.directory.is_sharer(block, node)
    }

    /// How many requests wait at this home.
    pub fn pending(&self) -> u8
        ensures value { result ≡ (node_of self.now).occupancy }
    {
        self.inner.shared.protocol.directory.pending()
    }

    /// The address of the word at which the processor goes on.
    pub fn at(&self) -> u32
        ensures value { result ≡ (node_of self.now).lane.at }
    {
        address_of(self.inner.lane.at)
    }

    /// The takes of messages, in order.
    pub fn journal(&self) -> &[Entry]
        ensures value { result.now ≡ (node_of self.now).journal }
    {
        &self.inner.shared.journal
    }

    /// The bytes that the node printed, in order.
    pub fn output(&self) -> &[OutByte]
        ensures value { result.now ≡ (node_of self.now).output }
    {
        &self.inner.shared.output
    }

    /// Makes room for one entry of the journal and one byte of output.
    pub fn room(&mut self) -> Result<(), AllocError>
        ensures node { node_of self.new ≡ node_of self.old }
        ensures work { work_of self.new ≡ work_of self.old }
        ensures room { OnOk result (HasRoom self.new) }
    {
        self.inner.shared.make_room()
    }

    /// Does what `exec` does, and leaves in a list what is sent, in order.
    pub fn exec_into(&mut self, sends: &mut Sends) -> BareTurn
        requires may { model.can_execute (node_of self.old).phase ≡ true }
        requires room { HasRoom self.old }
        requires stamp { (node_of self.old).stamp < 2 ^ 56 }
        ensures node { node_of self.new
            ≡ (turns.word_turn (work_of self.old) (node_of self.old)).node }
        ensures sends { sends.new.items
            ≡ (turns.word_turn (work_of self.old) (node_of self.old)).sends }
        ensures output { result.output
            ≡ (turns.word_turn (work_of self.old) (node_of self.old)).printed }
        ensures stamp { result.stamp ≡ (node_of self.new).stamp }
        ensures work { work_of self.new ≡ work_of self.old }
    {
        self.inner.exec(sends)
    }

    /// Executes one word by the path that serves every word. Leaves what it sends, in order, and
    /// says what the word wants.
    pub fn exec_with_wants(&mut self, sends: &mut Sends) -> WordTurn
        requires may { model.can_execute (node_of self.old).phase ≡ true }
        requires room { HasRoom self.old }
        requires stamp { (node_of self.old).stamp < 2 ^ 56 }
        ensures node { node_of self.new
            ≡ (turns.word_turn (work_of self.old) (node_of self.old)).node }
        ensures sends { sends.new.items
            ≡ (turns.word_turn (work_of self.old) (node_of self.old)).sends }
        ensures output { result.turn.output
            ≡ (turns.word_turn (work_of self.old) (node_of self.old)).printed }
        ensures wants { wanted_in result.wants
            ≡ wants_of_word (work_of self.old) (node_of self.old) }
        ensures stamp { result.turn.stamp ≡ (node_of self.new).stamp }
        ensures work { work_of self.new ≡ work_of self.old }
    {
        self.inner.exec_with_wants(sends)
    }

    /// Executes the next word by its micro-op, where that serves it and the budget has a further
    /// word for after it, and says whether it did. Otherwise nothing changes.
    #[inline]
    pub fn exec_silent(&mut self) -> bool
        requires may { model.can_execute (node_of self.old).phase ≡ true }
        requires stamp { (node_of self.old).stamp < 2 ^ 56 }
        ensures passed { result ≡ true →
            (turns.word_turn (work_of self.old) (node_of self.old)
            ≡ turns.silent (node_of self.new))
            × (model.can_execute (node_of self.new).phase ≡ true) }
        ensures same { result ≡ false → node_of self.new ≡ node_of self.old }
        ensures work { work_of self.new ≡ work_of self.old }
    {
        self.inner.exec_silent()
    }

    /// Executes words by their micro-ops, as long as those serve them and the undo log has room, at
    /// most `most`, and fewer than the budget has left; it gives how many. They print nothing and
    /// send nothing, and the undo log takes them back.
    pub fn run_undoable(&mut self, most: u32, undo_log: &mut NodeUndoLog) -> u64
        requires may { 1 ≤ most → model.can_execute (node_of self.old).phase ≡ true }
        requires stamp { (node_of self.old).stamp < 2 ^ 56 }
        ensures goes_on { GoesOnBy (work_of self.old) result (node_of self.old) (node_of self.new) }
        ensures may { model.can_execute (node_of self.old).phase ≡ true
            → model.can_execute (node_of self.new).phase ≡ true }
        ensures most { result ≤ most }
        ensures back { TakesNodeBack undo_log.new self.new self.old }
        ensures work { work_of self.new ≡ work_of self.old }
    {
        self.inner.run_undoable_by(&mut PlainLoop, most, undo_log)
    }

    /// Executes words by a loop, as long as they print nothing and send nothing and the undo log has
    /// room: at most so many, and fewer than the budget has left; it gives how many. The undo log
    /// takes them back.
    pub fn run_undoable_by<L: WordLoop>(
        &mut self,
        by: &mut L,
        most: u32,
        undo_log: &mut NodeUndoLog,
    ) -> u64
        requires may { 1 ≤ most → model.can_execute (node_of self.old).phase ≡ true }
        requires stamp { (node_of self.old).stamp < 2 ^ 56 }
        requires goes_over { L.goes_over (work_of self.old).image by.old }
        ensures goes_on { GoesOnBy (work_of self.old) result (node_of self.old) (node_of self.new) }
        ensures learns { L.learns (work_of self.old) result (node_of self.old) by.old by.new }
        ensures stays { (image : List Cell) → L.goes_over image by.old
            → L.goes_over image by.new }
        ensures may { model.can_execute (node_of self.old).phase ≡ true
            → model.can_execute (node_of self.new).phase ≡ true }
        ensures most { result ≤ most }
        ensures back { TakesNodeBack undo_log.new self.new self.old }
        ensures work { work_of self.new ≡ work_of self.old }
    {
        self.inner.run_undoable_by(by, most, undo_log)
    }

    /// Takes back the words of an undo log.
    pub fn take_back(&mut self, undo_log: &mut NodeUndoLog)
        requires back { (first : Stored) × TakesNodeBack undo_log.old self.old first }
        ensures back { (first : Stored) → TakesNodeBack undo_log.old self.old first
            → node_of self.new ≡ node_of first }
        ensures work { work_of self.new ≡ work_of self.old }
    {
        self.inner.take_back(undo_log);
    }

    /// Executes words, most of them by their micro-ops, as long as they print nothing and send
    /// nothing: at most `most`, fewer than the budget has left, and fewer than there are stamps
    /// left. It gives how many.
    pub fn run_silent(&mut self, most: u64) -> u64
        requires may { model.can_execute (node_of self.old).phase ≡ true }
        requires stamp { (node_of self.old).stamp < 2 ^ 56 }
        ensures goes_on { GoesOnBy (work_of self.old) result (node_of self.old) (node_of self.new) }
        ensures may { model.can_execute (node_of self.new).phase ≡ true }
        ensures most { result ≤ most }
        ensures stamp { (node_of self.new).stamp < 2 ^ 56 }
        ensures work { work_of self.new ≡ work_of self.old }
    {
        self.inner.run_by(&mut PlainLoop, most)
    }

    /// Executes words by a loop, as long as they print nothing and send nothing: at most `most`,
    /// fewer than the budget has left, and fewer than there are stamps left. It gives how many.
    pub fn run_by<L: WordLoop>(&mut self, by: &mut L, most: u64) -> u64
        requires may { model.can_execute (node_of self.old).phase ≡ true }
        requires stamp { (node_of self.old).stamp < 2 ^ 56 }
        requires goes_over { L.goes_over (work_of self.old).image by.old }
        ensures goes_on { GoesOnBy (work_of self.old) result (node_of self.old) (node_of self.new) }
        ensures learns { L.learns (work_of self.old) result (node_of self.old) by.old by.new }
        ensures stays { (image : List Cell) → L.goes_over image by.old
            → L.goes_over image by.new }
        ensures may { model.can_execute (node_of self.new).phase ≡ true }
        ensures most { result ≤ most }
        ensures stamp { (node_of self.new).stamp < 2 ^ 56 }
        ensures work { work_of self.new ≡ work_of self.old }
    {
        self.inner.run_by(by, most)
    }

    /// Executes words: as many as `run_silent` does, which print nothing and send nothing, and one
    /// more. It leaves what that sends, in order.
    pub fn run_until_send(&mut self, sends: &mut Sends) -> BareTurn
        requires may { model.can_execute (node_of self.old).phase ≡ true }
        requires room { HasRoom self.old }
        requires stamp { (node_of self.old).stamp < 2 ^ 56 }
        ensures ran { HasExecuted (work_of self.old) (node_of self.old) (node_of self.new)
            sends.new.items result.output }
        ensures stamp { result.stamp ≡ (node_of self.new).stamp }
        ensures work { work_of self.new ≡ work_of self.old }
    {
        self.inner.run_until_send(sends)
    }

    /// Where the node is.
    pub fn snapshot(&self) -> Snapshot {
        self.inner.snapshot()
    }

    /// Whether the node is where it was, with the same in its registers.
    pub fn is_at(&self, snapshot: &Snapshot) -> bool {
        self.inner.is_at(snapshot)
    }

    /// Whether the next word may change more than what a [`Snapshot`] keeps. One that waits, or
    /// that reserves an address, may change more too, and isn't counted.
    pub fn stirs(&self) -> bool {
        self.inner.stirs()
    }

    /// Does what `take` does, and leaves in a list what is sent, in order.
    pub fn take_into(&mut self, from: u8, wire: Wire, sends: &mut Sends) -> BareTurn
        requires room { HasRoom self.old }
        requires stamp { (node_of self.old).stamp < 2 ^ 56 }
        requires wire { wire.stamp < 2 ^ 56 }
        ensures node { node_of self.new
            ≡ (turns.take_turn (work_of self.old) (node_of self.old) from wire).node }
        ensures sends { sends.new.items
            ≡ (turns.take_turn (work_of self.old) (node_of self.old) from wire).sends }
        ensures output { result.output
            ≡ (turns.take_turn (work_of self.old) (node_of self.old) from wire).printed }
        ensures stamp { result.stamp ≡ (node_of self.new).stamp }
        ensures work { work_of self.new ≡ work_of self.old }
    {
        self.inner.take(from, wire, sends)
    }
}

/// What a node that runs may do next, by its next word.
pub fn standing_at(next: Option<ImageWord>) -> Standing
    ensures { result ≡ (if model.takes_messages (option_and_then (λ (w : ImageWord). w.what) next)
        then Standing.AtPoll else Standing.Running) }
{
    match next {
        Some(word) if takes_messages(word.what) => Standing::AtPoll,
        _ => Standing::Running,
    }
}

/// Whether a node may take messages at a word.
fn takes_messages(what: Option<RtWord>) -> bool
    ensures { result ≡ model.takes_messages what }
{
    matches!(what, Some(RtWord::Poll | RtWord::Call))
}

/// What a node that has ended may do next, by the Byes that it has taken.
pub fn ended_standing(byes: &[bool; 256], nodes: u8) -> Standing
    requires { nodes ≤ 16 }
    ensures { result ≡ (if count_of (members byes.now) nodes == nodes then Standing.Over
        else Standing.Ended) }
{
    if count(byes, nodes) == nodes {
        Standing::Over
    } else {
        Standing::Ended
    }
}

/// How many of the first `nodes` are true.
fn count(flags: &[bool; 256], nodes: u8) -> u8
    requires { nodes ≤ 16 }
    ensures { result ≡ count_of (members flags.now) nodes }
{
    let mut count = 0;
    for node in 0..nodes {
        if flags[node as usize] {
            count += 1;
        }
    }
    count
}

/// The counts of the start.
pub const NO_COUNTS: NodeCounts = NodeCounts {
    read: 0,
    exclusive: 0,
    upgrade: 0,
    falses: 0,
    invalidations: 0,
    fallbacks: 0,
    messages: 0,
};
