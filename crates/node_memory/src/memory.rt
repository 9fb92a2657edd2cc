//! What words see of their node: its copy of the shared bytes, and the state of each line.

ghost use Rattle.std.specs.Prelude.{◌≡◌, ◌+◌, ◌*◌, ◌/◌, ◌%◌, ◌^◌, ◌<◌, ◌≤◌, ℕ, true, false, Some};
ghost use Rattle.std.specs.Prelude.{None, MatchOption, IfSome, bit_and, bit_or, length};
ghost use Rattle.std.specs.Option.{option_to_list};
ghost use Rattle.exec_map.specs.Contents.{program_of, first_byte, is_private};
ghost use Rattle.exec_map.specs.rv32_program.declared.Class.TheVariants.{Shared, ReadOnly};
ghost use Rattle.exec_map.specs.rv32_program.Program.{class_at};
ghost use Rattle.rv32_decode.specs.Widths.{is_aligned};
ghost use Rattle.exec_map.specs.byte_range.Memory.{raw, stored};
ghost use Rattle.block_layout.specs.Layout.{blocks, block_of, is_shared};
ghost use Rattle.node_model.specs.llsc.Reservation.{holds};
ghost use Rattle.node_model.specs.state_table.States.{state_of};
ghost use Rattle.node_model.specs.miss_handlers.Waits.{wait_of};
ghost use Rattle.node_model.specs.miss_handlers.Effects.{HasEffect, message_effect, miss_of};
ghost use Rattle.node_model.specs.miss_handlers.Effects.{states_after, waits_after, pool_after};
ghost use Rattle.node_model.specs.miss_handlers.Effects.{pool_after_miss, post_of, buffers};
ghost use Rattle.node_model.specs.Node as model;
ghost use Rattle.node_memory.specs.Shelf.{ground_of, local_of, AreFirstLines, HasFixed, HasLines};
ghost use Rattle.node_memory.specs.Shelf.{IsPlace};
ghost use Rattle.node_memory.specs.Blocks.{ShelfLaws, blocks_at};
ghost use Rattle.node_memory.specs.Shelf.{IsLoaded};

use block_layout::{Block, Layout, Lines, layout_law};
use buf_pool::Pool;
use exec_map::byte_range::LineMemory;
use exec_map::{PRIVATE_FIRST, Program};
use node_model::dsm_messages::{Message, Need, Post};
use node_model::flag_memory::{Copy32, copy_law};
use node_model::llsc::Reservation;
use node_model::miss_handlers::Waits;
use node_model::state_table::{EXCLUSIVE, READ_ONLY, State, States, is_readable, is_writable};
use rv32_decode::Width;
use std::marker::Model;
use std::mem::swap;

/// What words see of their node.
#[derive(Drop)]
pub struct NodeMemory<'a> {
    program: &'a Program<'a>,
    layout: Layout,
    /// The first address of the first shared lines that stand one behind the other.
    base: u32,
    /// How many bytes they have.
    len: u32,
    states: States,
    copy: Copy32,
    /// The read-only lines.
    fixed: LineMemory,
    reservation: Reservation,
}

impl<'a> Model for NodeMemory<'a> {
    ghost use Rattle.std.specs.Prelude.{◌≡◌};
    ghost use Rattle.node_memory.specs.Shelf.{Shelf, HasLines, HasFixed, AreFirstLines};

    ghost Value = { Shelf };

    ghost view = { λ l. record {
      program = l.program.now;
      states = l.states;
      copy = l.copy;
      reservation = l.reservation;
    } };

    ghost invariant = { λ l. HasLines l.program.now l.states l.copy
        × (l.layout ≡ l.copy.layout)
        × AreFirstLines l.layout l.base l.len
        × HasFixed l.program.now l.fixed };
}

impl<'a> NodeMemory<'a> {
    /// What words see of a node with these states and bytes of the shared lines, and these
    /// read-only lines, where nothing is reserved.
    pub fn new(
        program: &'a Program<'a>,
        layout: Layout,
        states: States,
        copy: Copy32,
        fixed: LineMemory,
    ) -> NodeMemory<'a>
        requires layout { copy.layout ≡ layout }
        requires lines { HasLines program.now states copy }
        requires fixed { HasFixed program.now fixed }
        ensures parts { result ≡ record {
          program = program.now;
          states = states;
          copy = copy;
          reservation = None;
        } }
    {
        let first = first_lines(&layout);
        NodeMemory {
            program,
            base: 64 * first.first,
            len: 64 * first.lines,
            layout,
            states,
            copy,
            fixed,
            reservation: Reservation::new(),
        }
    }

    /// What holds of what words see. A caller uses the clauses; the call does nothing.
    pub fn laws(&self)
        ensures { ShelfLaws self.now }
    {
        // brings: the layout is valid
        let _layout = self.layout.nodes();
        copy_law(&self.copy);
    }

    /// What holds of each byte that words load. A caller uses the clauses; the call does nothing.
    pub fn bytes_law(&self)
        ensures shared { (a : ℕ) → (local_of self.now).copy a < 2 ^ 8 }
        ensures fixed { (a : ℕ) → class_at (program_of self.now.program) a ≡ ReadOnly
            → first_byte self.now.program a < 2 ^ 8 }
    {
        copy_law(&self.copy);
        self.fixed.law();
    }

    /// The address that the processor has reserved.
    pub fn reserved(&self) -> Option<u32>
        ensures { result ≡ (local_of self.now).reservation }
    {
        self.reservation.address()
    }

    /// Whether the processor has reserved an address.
    pub fn holds(&self, address: u32) -> bool
        ensures { result ≡ holds (local_of self.now).reservation address }
    {
        self.reservation.holds(address)
    }

    /// Gives the processor another reservation.
    pub fn reserve(&mut self, address: u32)
        ensures local { local_of self.new
            ≡ record (local_of self.old) { reservation = Some address } }
        ensures ground { ground_of self.new ≡ ground_of self.old }
    {
        self.reservation.set(address);
    }

    /// Ends the reservation, where there is one.
    pub fn end_reservation(&mut self)
        ensures local { local_of self.new ≡ record (local_of self.old) { reservation = None } }
        ensures ground { ground_of self.new ≡ ground_of self.old }
    {
        self.reservation.end();
    }

    /// Puts another reservation in the place of the processor's, which `other` is then.
    pub fn swap_reservation(&mut self, other: &mut Reservation)
        ensures local { self.new ≡ record self.old { reservation = other.old } }
        ensures other { other.new ≡ self.old.reservation }
    {
        swap(&mut self.reservation, other);
    }

    /// The block of the line of an address. `None` exactly where the line isn't shared.
    pub fn block_of(&self, address: u32) -> Option<Block>
        ensures { result ≡ block_of self.now.copy.layout (address / 64) }
    {
        self.layout.block_of(address / 64)
    }

    /// The number of nodes.
    pub fn nodes(&self) -> u8
        ensures nodes { result ≡ self.now.copy.layout.nodes }
        ensures few { result ≤ 16 }
    {
        self.layout.nodes()
    }

    /// The state of a block.
    pub fn block_state(&self, block: Block) -> State
        requires { block < blocks self.now.copy.layout }
        ensures { result ≡ state_of self.now.states block }
    {
        self.states.state(block)
    }

    /// The state byte of a line.
    #[inline(always)]
    pub fn state(&self, line: u32) -> u8
        requires { line < 2 ^ 26 }
        ensures { result ≡ (local_of self.now).state line }
    {
        if is_private(line) {
            // brings: the state byte of a private line
            self.laws();
            return EXCLUSIVE;
        }
        match self.place(64 * line) {
            Some(at) => self.states.byte_at(line, at / 64),
            None => self.fixed_state(line),
        }
    }

    /// The state byte of a line that isn't shared.
    #[inline(never)]
    fn fixed_state(&self, line: u32) -> u8
        requires line { line < 2 ^ 26 }
        requires fixed { is_shared self.now.copy.layout line ≡ false }
        ensures { result ≡ (local_of self.now).state line }
    {
        match self.fixed.place(line) {
            Some(_) => READ_ONLY,
            None => self.states.byte(64 * line),
        }
    }

    /// At which place of the shared bytes that of an address stands. `None` exactly where its line
    /// isn't shared.
    #[inline(always)]
    fn place(&self, address: u32) -> Option<u32>
        ensures { IsPlace self.now.copy.layout address result }
    {
        let place = address.wrapping_sub(self.base);
        if place < self.len {
            Some(place)
        } else {
            self.place_behind(address)
        }
    }

    /// At which place of the shared bytes that of an address stands, found by the layout.
    #[inline(never)]
    fn place_behind(&self, address: u32) -> Option<u32>
        ensures { IsPlace self.now.copy.layout address result }
    {
        layout_law();
        // brings: the layout is valid
        let _ = self.layout.nodes();
        match self.layout.place_of(address / 64) {
            Some(place) => Some(64 * place + address % 64),
            None => None,
        }
    }

    /// The number that the bytes of a shared line from an address on make. `None` exactly where the
    /// line isn't shared.
    #[inline(always)]
    pub fn load(&self, width: Width, address: u32) -> Option<u32>
        requires { is_aligned width address ≡ true }
        ensures value { MatchOption result
            (class_at (program_of self.now.program) address ≡ Shared → ⊥)
            (λ n. (class_at (program_of self.now.program) address ≡ Shared) × (address < 2 ^ 31)
            × (n ≡ raw width (local_of self.now).copy address)) }
        ensures byte { (n : ℕ) → result ≡ Some n → width ≡ Width.Byte → n < 2 ^ 8 }
    {
        match self.place(address) {
            Some(at) => Some(self.copy.load_at(address, at, width)),
            None => None,
        }
    }

    /// At which place of the shared bytes that of an address stands, where its line is one of the
    /// first and the address is aligned.
    #[inline(always)]
    fn near(&self, width: Width, address: u32) -> Option<u32>
        ensures aligned { IfSome result (λ at. is_aligned width address ≡ true) }
        ensures place { IfSome result (λ at. IsPlace self.now.copy.layout address (Some at)) }
    {
        let place = address.wrapping_sub(self.base);
        if place < self.len && width.is_aligned(address) {
            Some(place)
        } else {
            None
        }
    }

    /// The number that the bytes of one of the first shared lines make. `None` elsewhere, and where
    /// the address is misaligned.
    #[inline(always)]
    pub fn load_near(&self, width: Width, address: u32) -> Option<u32>
        ensures value { IfSome result (IsLoaded self.now width address) }
    {
        match self.near(width, address) {
            Some(at) => Some(self.copy.load_at(address, at, width)),
            None => None,
        }
    }

    /// What is loaded from an aligned address of one of the first shared lines, where this may be
    /// read; else `None`.
    #[inline(always)]
    pub fn load_readable(&self, width: Width, address: u32) -> Option<u32>
        ensures value { IfSome result (IsLoaded self.now width address) }
        ensures readable { IfSome result (λ n.
            model.is_readable_state ((local_of self.now).state (address / 64)) ≡ true) }
    {
        let at = self.near(width, address)?;
        if is_readable(self.states.byte_at(address / 64, at / 64)) {
            Some(self.copy.load_at(address, at, width))
        } else {
            None
        }
    }

    /// Puts the low bits of a value into the bytes of one of the first shared lines, and says
    /// whether it does: not elsewhere, and not where the address is misaligned.
    #[inline(always)]
    pub fn store_near(&mut self, width: Width, address: u32, value: u32) -> bool
        ensures elsewhere { result ≡ false → self.new ≡ self.old }
        ensures aligned { result ≡ true → is_aligned width address ≡ true }
        ensures shared { result ≡ true →
            (class_at (program_of self.old.program) address ≡ Shared) × (address < 2 ^ 31) }
        ensures local { result ≡ true → local_of self.new ≡ record (local_of self.old) {
          copy = stored width (local_of self.old).copy address value;
        } }
        ensures ground { ground_of self.new ≡ ground_of self.old }
    {
        match self.near(width, address) {
            Some(at) => {
                self.copy.store_at(address, at, width, value);
                true
            }
            None => false,
        }
    }

    /// Stores at an aligned address of one of the first shared lines, where this may be written,
    /// and says whether it does; else nothing changes.
    #[inline(always)]
    pub fn store_writable(&mut self, width: Width, address: u32, value: u32) -> bool
        ensures elsewhere { result ≡ false → self.new ≡ self.old }
        ensures aligned { result ≡ true → is_aligned width address ≡ true }
        ensures shared { result ≡ true →
            (class_at (program_of self.old.program) address ≡ Shared) × (address < 2 ^ 31) }
        ensures local { result ≡ true → local_of self.new ≡ record (local_of self.old) {
          copy = stored width (local_of self.old).copy address value;
        } }
        ensures writable { result ≡ true →
            model.is_writable_state ((local_of self.old).state (address / 64)) ≡ true }
        ensures ground { ground_of self.new ≡ ground_of self.old }
    {
        match self.near(width, address) {
            Some(at) if is_writable(self.states.byte_at(address / 64, at / 64)) => {
                self.copy.store_at(address, at, width, value);
                true
            }
            _ => false,
        }
    }

    /// The state byte of the line of the second of two addresses, where these bits are clear in the
    /// state bytes of both lines; else `None`.
    #[inline(always)]
    pub fn second_state(&self, bits: u8, low: u32, high: u32) -> Option<u8>
        ensures state { IfSome result (λ state. state ≡ (local_of self.now).state (high / 64)) }
        ensures clear { IfSome result (λ state.
            bit_and (bit_or ((local_of self.now).state (low / 64)) state) bits ≡ 0) }
        ensures small { IfSome result (λ state.
            bit_or ((local_of self.now).state (low / 64)) state < 2 ^ 8) }
    {
        let Some(one) = self.near(Width::Byte, low) else {
            return self.second_state_far(bits, low, high);
        };
        let Some(other) = self.near(Width::Byte, high) else {
            return self.second_state_far(bits, low, high);
        };
        let first = self.states.byte_at(low / 64, one / 64);
        let second = self.states.byte_at(high / 64, other / 64);
        if (first | second) & bits == 0 {
            Some(second)
        } else {
            None
        }
    }

    /// The state of the second of two lines, whichever they are.
    #[inline(never)]
    fn second_state_far(&self, bits: u8, low: u32, high: u32) -> Option<u8>
        ensures state { IfSome result (λ state. state ≡ (local_of self.now).state (high / 64)) }
        ensures clear { IfSome result (λ state.
            bit_and (bit_or ((local_of self.now).state (low / 64)) state) bits ≡ 0) }
        ensures small { IfSome result (λ state.
            bit_or ((local_of self.now).state (low / 64)) state < 2 ^ 8) }
    {
        let first = self.state(low / 64);
        let second = self.state(high / 64);
        if (first | second) & bits == 0 {
            Some(second)
        } else {
            None
        }
    }

    /// Puts the low bits of a value into the bytes of a shared line from an address on, and says
    /// whether the line is shared; elsewhere nothing changes.
    #[inline(always)]
    pub fn store(&mut self, width: Width, address: u32, value: u32) -> bool
        requires { is_aligned width address ≡ true }
        ensures elsewhere { result ≡ false →
            (self.new ≡ self.old) × (class_at (program_of self.old.program) address ≡ Shared → ⊥) }
        ensures shared { result ≡ true →
            (class_at (program_of self.old.program) address ≡ Shared) × (address < 2 ^ 31) }
        ensures local { result ≡ true → local_of self.new ≡ record (local_of self.old) {
          copy = stored width (local_of self.old).copy address value;
        } }
        ensures ground { ground_of self.new ≡ ground_of self.old }
    {
        match self.place(address) {
            Some(at) => {
                self.copy.store_at(address, at, width, value);
                true
            }
            None => false,
        }
    }

    /// The number that the bytes of a read-only line from an address on make. `None` exactly where
    /// the line isn't read-only.
    #[inline(always)]
    pub fn load_fixed(&self, width: Width, address: u32) -> Option<u32>
        requires { is_aligned width address ≡ true }
        ensures value { MatchOption result
            (class_at (program_of self.now.program) address ≡ ReadOnly → ⊥)
            (λ n. (class_at (program_of self.now.program) address ≡ ReadOnly) × (address < 2 ^ 31)
            × (n ≡ raw width (first_byte self.now.program) address)) }
        ensures byte { (n : ℕ) → result ≡ Some n → width ≡ Width.Byte → n < 2 ^ 8 }
    {
        self.fixed.load(width, address)
    }

    /// Begins a wait for a block, and gives the message to the home. None where the block meets
    /// the need.
    pub fn want(
        &mut self,
        block: Block,
        need: Need,
        waits: &mut Waits,
        pool: &mut Pool,
    ) -> Option<Post>
        requires block { block < blocks waits.old.layout }
        requires none { wait_of waits.old block ≡ None }
        requires few { length waits.old.waits < 2 }
        requires buffer { 0 < pool.old.free }
        requires layout { waits.old.layout ≡ self.old.copy.layout }
        ensures post { result ≡ post_of (miss_of waits.old self.old.states pool.old block need) }
        ensures state { let miss = miss_of waits.old self.old.states pool.old block need in
            state_of self.new.states ≡ states_after (state_of self.old.states) block miss }
        ensures wait { let miss = miss_of waits.old self.old.states pool.old block need in
            wait_of waits.new ≡ waits_after (wait_of waits.old) block miss }
        ensures pool { let miss = miss_of waits.old self.old.states pool.old block need in
            pool.new ≡ pool_after_miss pool.old miss }
        ensures count { buffers pool.new waits.new ≡ buffers pool.old waits.old }
        ensures layout { waits.new.layout ≡ waits.old.layout }
        ensures states_layout { self.new.states.layout ≡ self.old.states.layout }
        ensures classes { self.new.states.program ≡ self.old.states.program }
        ensures program { self.new.program ≡ self.old.program }
        ensures copy { self.new.copy ≡ self.old.copy }
        ensures reservation { self.new.reservation ≡ self.old.reservation }
    {
        waits.want(block, need, &mut self.states, pool)
    }

    /// A message that isn't for a home: the row that the table has for it, or none, and what that
    /// sends.
    pub fn reply(
        &mut self,
        from: u8,
        message: Message,
        waits: &mut Waits,
        pool: &mut Pool,
    ) -> Option<Post>
        requires pool { pool.old.free + length waits.old.waits ≤ pool.old.slots }
        requires layout { waits.old.layout ≡ self.old.copy.layout }
        ensures effect { let old = blocks_at waits.old self.old in
            HasEffect (blocks_at waits.new self.new) (option_to_list result)
            (message_effect waits.old.layout old from message) }
        ensures pool { let old = blocks_at waits.old self.old in
            let effect = message_effect waits.old.layout old from message in
            pool.new ≡ pool_after pool.old effect.gives_back }
        ensures count { buffers pool.new waits.new ≡ buffers pool.old waits.old }
        ensures layout { waits.new.layout ≡ waits.old.layout }
        ensures states_layout { self.new.states.layout ≡ self.old.states.layout }
        ensures classes { self.new.states.program ≡ self.old.states.program }
        ensures program { self.new.program ≡ self.old.program }
        ensures copy_layout { self.new.copy.layout ≡ self.old.copy.layout }
    {
        waits.reply(
            from,
            message,
            &mut self.states,
            &mut self.copy,
            &mut self.reservation,
            pool,
        )
    }
}

/// How many lines the private window has.
const WINDOW_LINES: u32 = 0x400;

/// Whether a line is one of the private window.
#[inline(always)]
fn is_private(line: u32) -> bool
    ensures { result ≡ is_private line }
{
    PRIVATE_FIRST <= line && line < PRIVATE_FIRST + WINDOW_LINES
}

/// No more lines are taken for the first ones, but for those of one block.
const MOST_LINES: u32 = 1 << 25;

/// The first shared lines that stand one behind the other; not always all of them.
fn first_lines(layout: &Layout) -> Lines
    ensures first { AreFirstLines layout.now (64 * result.first) (64 * result.lines) }
    ensures low { result.first < 2 ^ 26 }
    ensures few { result.lines < 2 ^ 26 }
{
    layout_law();
    let count = layout.blocks();
    if count == 0 {
        return Lines { first: 0, lines: 0 };
    }
    let first = layout.first_line(0);
    let mut lines = 0;
    for block in 0..count {
        if lines >= MOST_LINES {
            break;
        }
        if layout.first_line(block) != first + lines {
            break;
        }
        if layout.start(block) != lines {
            break;
        }
        lines += layout.lines(block);
    }
    Lines { first, lines }
}
