//! One processor, and what its next word does.

ghost use Rattle.std.specs.Prelude.{◌≡◌, ◌+◌, ◌/◌, ◌%◌, ◌^◌, ◌<◌, ◌&&◌, not, is_some, ℕ};
ghost use Rattle.std.specs.Prelude.{true, false, Some, None, MatchOption, IfOk};
ghost use Rattle.std.specs.Prelude.{OnErr};
ghost use Rattle.exec_map.specs.Contents.{program_of, is_shared};
ghost use Rattle.byte_range.specs.Memory.{raw};
ghost use Rattle.rv32_decode.specs.Widths.{is_aligned};
ghost use Rattle.rv32_program.specs.Program.{class_at, is_writable};
ghost use Rattle.rv32_step.specs.Registers.{registers_of};
ghost use Rattle.rv32_step.specs.OneMemory as model;
ghost use Rattle.llsc.specs.Reservation.{holds as model_holds};
ghost use Rattle.rv32_program.specs.declared.Class.TheVariants.{Unmapped};
ghost use Rattle.micro_op.specs.Micro.{index_address};
ghost use Rattle.one_memory.specs.Machine.{MemoryParts, processor_of, at_index, after_move};
ghost use Rattle.one_memory.specs.Machine.{byte_seen, IsStored, Answers, Meets, Steps};
ghost use Rattle.one_memory.specs.Stretches.{reaches_or_stands};

use crate::memory::Memory;
use block_layout::Block;
use byte_range::Window;
use exec_map::Exit;
use run_limits::NodeCount;
use rv32_decode::{AmoOp, LoadKind, Reg, Width};
use rv32_ops::{amo, extend};
use rv32_step::{CallStep, Demand, Registers, call_step, cut_short, demand_of};
use std::alloc::{AllocError, Global};

/// What words read and write of their processor: its registers, the bytes of its own window, and
/// the bytes that a write in progress has written.
#[derive(Drop)]
pub struct OriginalState {
    pub registers: Registers,
    pub window: Window,
    pub written: u32,
}

/// A processor: the index of its next word, what words read and write of it, and its exit.
#[derive(Drop)]
pub struct Processor {
    pub at: u32,
    pub body: OriginalState,
    pub exit: Option<Exit>,
}

/// Where a step leads.
#[derive(Clone, Copy)]
pub enum StepTarget {
    /// To the next word.
    Next,
    /// To the word with this index.
    To(u32),
    /// The processor ends.
    Ends(Exit),
}

impl Processor {
    /// Processor `number` of `nodes` at the start, at the entry.
    pub fn new(
        alloc: Global,
        number: u8,
        nodes: NodeCount,
        entry: u32,
    ) -> Result<Processor, AllocError>
        requires { entry % 4 ≡ 0 }
        ensures { (original : model.Original) → original.program.entry ≡ entry
            → original.nodes ≡ nodes
            → IfOk result (λ k. processor_of k ≡ model.first_processor original number) }
    {
        Ok(Processor {
            at: entry / 4,
            body: OriginalState {
                registers: Registers::first(number, nodes.as_u8()),
                window: Window::zeros(alloc)?,
                written: 0,
            },
            exit: None,
        })
    }

    /// How the processor ended, where it has.
    pub fn exit(&self) -> Option<Exit>
        ensures { result ≡ self.now.exit }
    {
        self.exit
    }

    /// Whether it has no exit, and is about to store into a block.
    pub fn is_storing(&self, memory: &Memory<'_>, block: Block) -> bool
        ensures { result ≡ (not (is_some self.now.exit)
            && reaches_or_stands (program_of memory.now.program) memory.now.layout block
            (registers_of self.now.body.registers) (index_address 0 self.now.at)) }
    {
        if self.exit.is_some() {
            return false;
        }
        memory.is_reached(block, &self.body.registers, address_of(self.at))
    }
}

/// Executes the word with an index, by its instruction.
pub fn step_slow(
    p: u8,
    at: u32,
    body: &mut OriginalState,
    memory: &mut Memory<'_>,
) -> Result<StepTarget, AllocError>
    requires { p < 16 }
    ensures ok { IfOk result (Steps p at memory.old body.old memory.new body.new) }
    ensures program { memory.new.program ≡ memory.old.program }
    ensures layout { memory.new.layout ≡ memory.old.layout }
    ensures err_body { OnErr result (body.new ≡ body.old) }
    ensures err_memory { OnErr result (memory.new ≡ memory.old) }
{
    let pc = address_of(at);
    match memory.code_at(pc) {
        Some(i) => meet(demand_of(i, &body.registers, pc), p, at, body, memory),
        None => Ok(StepTarget::Ends(Exit::Fetch(pc))),
    }
}

/// The address of the word with an index.
#[inline(always)]
pub fn address_of(at: u32) -> u32
    ensures { result ≡ index_address 0 at }
{
    at.wrapping_mul(4)
}

/// Does what the word with an index demands.
#[inline(always)]
fn meet(
    d: Demand,
    p: u8,
    at: u32,
    body: &mut OriginalState,
    memory: &mut Memory<'_>,
) -> Result<StepTarget, AllocError>
    requires { p < 16 }
    ensures ok { IfOk result (Meets p d at memory.old body.old memory.new body.new) }
    ensures program { memory.new.program ≡ memory.old.program }
    ensures layout { memory.new.layout ≡ memory.old.layout }
    ensures err_body { OnErr result (body.new ≡ body.old) }
    ensures err_memory { OnErr result (memory.new ≡ memory.old) }
{
    match d {
        Demand::Sets(r, value) => {
            body.registers.set(r, value);
            Ok(StepTarget::Next)
        }
        Demand::Continues => Ok(StepTarget::Next),
        Demand::Jumps(r, target) => Ok(jump(r, target, at, body)),
        Demand::Branches(target) => Ok(go_to(target, at)),
        Demand::Loads(kind, r, address) => Ok(load(kind, r, address, at, body, memory)),
        Demand::Stores(width, address, value) => {
            Ok(store(width, address, value, p, at, body, memory))
        }
        Demand::Calls => call(at, body, memory),
        Demand::Traps(exit) => Ok(StepTarget::Ends(exit)),
        Demand::Reserves(r, address) => Ok(load_reserved(r, address, p, at, body, memory)),
        Demand::StoresIf(r, address, value) => {
            Ok(store_conditional(r, address, value, p, at, body, memory))
        }
        Demand::Updates(op, r, address, value) => {
            Ok(update(op, r, address, value, p, at, body, memory))
        }
    }
}

/// Goes to a target, with the address of the next word in a register.
#[inline(always)]
fn jump(r: Reg, target: u32, at: u32, body: &mut OriginalState) -> StepTarget
    ensures { (p : ℕ) (m : MemoryParts) →
        Meets p (Demand.Jumps r target) at m body.old m body.new result }
{
    if target % 4 == 0 {
        body.registers.set(r, address_of(at.wrapping_add(1)));
        StepTarget::To(target / 4)
    } else {
        StepTarget::Ends(Exit::Misaligned(address_of(at)))
    }
}

/// Goes to a target.
#[inline(always)]
fn go_to(target: u32, at: u32) -> StepTarget
    ensures { (p : ℕ) (m : MemoryParts) (body : OriginalState) →
        Meets p (Demand.Branches target) at m body m body result }
{
    if target % 4 == 0 {
        StepTarget::To(target / 4)
    } else {
        StepTarget::Ends(Exit::Misaligned(address_of(at)))
    }
}

/// Loads into a register, where the access may be made.
#[inline(always)]
fn load(
    kind: LoadKind,
    r: Reg,
    address: u32,
    at: u32,
    body: &mut OriginalState,
    memory: &Memory<'_>,
) -> StepTarget
    ensures { (p : ℕ) → Meets p (Demand.Loads kind r address) at
        memory.now body.old memory.now body.new result }
{
    let width = kind.width();
    if !width.is_aligned(address) {
        return StepTarget::Ends(Exit::Misaligned(address_of(at)));
    }
    match read(width, address, body, memory) {
        Some(number) => {
            body.registers.set(r, extend(kind, number));
            StepTarget::Next
        }
        None => StepTarget::Ends(Exit::Access(address_of(at))),
    }
}

/// The number that an aligned access reads; `None` where the line isn't mapped.
#[inline(always)]
pub fn read(width: Width, address: u32, body: &OriginalState, memory: &Memory<'_>) -> Option<u32>
    requires { is_aligned width address ≡ true }
    ensures { MatchOption result
        (class_at (program_of memory.now.program) address ≡ Unmapped)
        (λ n. (class_at (program_of memory.now.program) address ≡ Unmapped → ⊥)
        × (n ≡ raw width (byte_seen memory.now body.now) address)) }
{
    match memory.load(width, address) {
        Some(number) => Some(number),
        None => read_apart(width, address, body, memory),
    }
}

/// What is read where the line isn't shared.
#[inline(always)]
fn read_apart(width: Width, address: u32, body: &OriginalState, memory: &Memory<'_>) -> Option<u32>
    requires aligned { is_aligned width address ≡ true }
    requires apart { is_shared (class_at (program_of memory.now.program) address) ≡ false }
    ensures { MatchOption result
        (class_at (program_of memory.now.program) address ≡ Unmapped)
        (λ n. (class_at (program_of memory.now.program) address ≡ Unmapped → ⊥)
        × (n ≡ raw width (byte_seen memory.now body.now) address)) }
{
    match body.window.load(width, address) {
        Some(number) => Some(number),
        None => memory.load_first(width, address),
    }
}

/// Stores the low bits of a value, where the access may be made.
#[inline(always)]
fn store(
    width: Width,
    address: u32,
    value: u32,
    p: u8,
    at: u32,
    body: &mut OriginalState,
    memory: &mut Memory<'_>,
) -> StepTarget
    ensures ok { Meets p (Demand.Stores width address value) at
        memory.old body.old memory.new body.new result }
    ensures program { memory.new.program ≡ memory.old.program }
    ensures layout { memory.new.layout ≡ memory.old.layout }
{
    if !width.is_aligned(address) {
        return StepTarget::Ends(Exit::Misaligned(address_of(at)));
    }
    if put_at(width, address, value, p, body, memory) {
        StepTarget::Next
    } else {
        StepTarget::Ends(Exit::Access(address_of(at)))
    }
}

/// Puts the low bits of a value at an address, as processor `p`, and ends what the others have
/// reserved there. Gives whether that may be done; else nothing changes.
#[inline(always)]
pub fn put_at(
    width: Width,
    address: u32,
    value: u32,
    p: u8,
    body: &mut OriginalState,
    memory: &mut Memory<'_>,
) -> bool
    requires { is_aligned width address ≡ true }
    ensures may { result ≡ is_writable (class_at (program_of memory.old.program) address) }
    ensures stored { result ≡ true →
        IsStored p width address value memory.old body.old memory.new body.new }
    ensures kept_body { result ≡ false → body.new ≡ body.old }
    ensures kept_memory { result ≡ false → memory.new ≡ memory.old }
    ensures program { memory.new.program ≡ memory.old.program }
    ensures layout { memory.new.layout ≡ memory.old.layout }
{
    if memory.store(width, address, value) {
        memory.end_others(p, address);
        return true;
    }
    put_apart(width, address, value, p, body, memory)
}

/// Stores where the line isn't shared.
#[inline(always)]
fn put_apart(
    width: Width,
    address: u32,
    value: u32,
    p: u8,
    body: &mut OriginalState,
    memory: &mut Memory<'_>,
) -> bool
    requires aligned { is_aligned width address ≡ true }
    requires apart { is_shared (class_at (program_of memory.old.program) address) ≡ false }
    ensures may { result ≡ is_writable (class_at (program_of memory.old.program) address) }
    ensures stored { result ≡ true →
        IsStored p width address value memory.old body.old memory.new body.new }
    ensures kept_body { result ≡ false → body.new ≡ body.old }
    ensures kept_memory { result ≡ false → memory.new ≡ memory.old }
    ensures program { memory.new.program ≡ memory.old.program }
    ensures layout { memory.new.layout ≡ memory.old.layout }
{
    match body.window.load(width, address) {
        Some(_) => {
            body.window.store(width, address, value);
            memory.end_others(p, address);
            true
        }
        None => false,
    }
}

/// Loads the word of an address into a register, and reserves the address.
#[inline(never)]
fn load_reserved(
    r: Reg,
    address: u32,
    p: u8,
    at: u32,
    body: &mut OriginalState,
    memory: &mut Memory<'_>,
) -> StepTarget
    requires { p < 16 }
    ensures ok { Meets p (Demand.Reserves r address) at
        memory.old body.old memory.new body.new result }
    ensures program { memory.new.program ≡ memory.old.program }
    ensures layout { memory.new.layout ≡ memory.old.layout }
{
    if !Width::Word.is_aligned(address) {
        return StepTarget::Ends(Exit::Misaligned(address_of(at)));
    }
    match read(Width::Word, address, body, memory) {
        Some(word) => {
            body.registers.set(r, word);
            memory.reserve(p, Some(address));
            StepTarget::Next
        }
        None => StepTarget::Ends(Exit::Access(address_of(at))),
    }
}

/// Stores a word where its address is reserved; a register gets 0 then, and else 1.
#[inline(never)]
fn store_conditional(
    r: Reg,
    address: u32,
    value: u32,
    p: u8,
    at: u32,
    body: &mut OriginalState,
    memory: &mut Memory<'_>,
) -> StepTarget
    requires { p < 16 }
    ensures ok { Meets p (Demand.StoresIf r address value) at
        memory.old body.old memory.new body.new result }
    ensures program { memory.new.program ≡ memory.old.program }
    ensures layout { memory.new.layout ≡ memory.old.layout }
{
    if !Width::Word.is_aligned(address) {
        return StepTarget::Ends(Exit::Misaligned(address_of(at)));
    }
    if !memory.may_store(address) {
        return StepTarget::Ends(Exit::Access(address_of(at)));
    }
    if !holds(memory.reservation(p), address) {
        body.registers.set(r, 1);
        memory.reserve(p, None);
        return StepTarget::Next;
    }
    put_at(Width::Word, address, value, p, body, memory);
    body.registers.set(r, 0);
    memory.reserve(p, None);
    StepTarget::Next
}

/// Whether this address is reserved.
fn holds(reserved: Option<u32>, address: u32) -> bool
    ensures { result ≡ model_holds reserved address }
{
    match reserved {
        Some(own) => own == address,
        None => false,
    }
}

/// Puts what an operation makes of a word in the word's place, and the word into a register.
#[inline(never)]
fn update(
    op: AmoOp,
    r: Reg,
    address: u32,
    value: u32,
    p: u8,
    at: u32,
    body: &mut OriginalState,
    memory: &mut Memory<'_>,
) -> StepTarget
    ensures ok { Meets p (Demand.Updates op r address value) at
        memory.old body.old memory.new body.new result }
    ensures program { memory.new.program ≡ memory.old.program }
    ensures layout { memory.new.layout ≡ memory.old.layout }
{
    if !Width::Word.is_aligned(address) {
        return StepTarget::Ends(Exit::Misaligned(address_of(at)));
    }
    let Some(old) = read(Width::Word, address, body, memory) else {
        return StepTarget::Ends(Exit::Access(address_of(at)));
    };
    let new = amo(op, old, value);
    if put_at(Width::Word, address, new, p, body, memory) {
        body.registers.set(r, old);
        StepTarget::Next
    } else {
        StepTarget::Ends(Exit::Access(address_of(at)))
    }
}

/// Makes one step of a call.
#[inline(never)]
fn call(
    at: u32,
    body: &mut OriginalState,
    memory: &mut Memory<'_>,
) -> Result<StepTarget, AllocError>
    ensures ok { (p : ℕ) → IfOk result
        (Meets p Demand.Calls at memory.old body.old memory.new body.new) }
    ensures program { memory.new.program ≡ memory.old.program }
    ensures layout { memory.new.layout ≡ memory.old.layout }
    ensures err_body { OnErr result (body.new ≡ body.old) }
    ensures err_memory { OnErr result (memory.new ≡ memory.old) }
{
    match call_step(&body.registers, body.written) {
        CallStep::Ends(code) => Ok(StepTarget::Ends(Exit::Code(code))),
        CallStep::Returns(value) => Ok(return_with(value, body)),
        CallStep::Puts(address) => put(address, at, body, memory),
    }
}

/// Ends a call with a result.
fn return_with(value: u32, body: &mut OriginalState) -> StepTarget
    ensures next { result ≡ StepTarget.Next }
    ensures value { (at : ℕ) → processor_of (at_index ((at + 1) % 2 ^ 32) body.new)
        ≡ model.after_call (processor_of (at_index at body.old)) value }
{
    body.registers.set(Reg::A0, value);
    body.written = 0;
    StepTarget::Next
}

/// Prints the byte of an address, or ends the write where the address isn't mapped.
fn put(
    address: u32,
    at: u32,
    body: &mut OriginalState,
    memory: &mut Memory<'_>,
) -> Result<StepTarget, AllocError>
    requires { body.old.written + 1 < 2 ^ 32 }
    ensures ok { (p : ℕ) → IfOk result (λ move. Answers p
        (model.request_of_call (program_of memory.old.program) (processor_of (at_index at body.old))
        (CallStep.Puts address))
        memory.old (at_index at body.old) memory.new (after_move move at body.new)) }
    ensures program { memory.new.program ≡ memory.old.program }
    ensures layout { memory.new.layout ≡ memory.old.layout }
    ensures err_body { OnErr result (body.new ≡ body.old) }
    ensures err_memory { OnErr result (memory.new ≡ memory.old) }
{
    match read_byte(address, body, memory) {
        Some(byte) => {
            memory.print(byte)?;
            body.written += 1;
            Ok(StepTarget::To(at))
        }
        None => {
            let written = body.written;
            Ok(return_with(cut_short(written), body))
        }
    }
}

/// The byte of an address; `None` where the line isn't mapped.
pub fn read_byte(address: u32, body: &OriginalState, memory: &Memory<'_>) -> Option<u8>
    ensures { MatchOption result
        (class_at (program_of memory.now.program) address ≡ Unmapped)
        (λ n. (class_at (program_of memory.now.program) address ≡ Unmapped → ⊥)
        × (n ≡ byte_seen memory.now body.now address)) }
{
    match memory.load(Width::Byte, address) {
        Some(number) => Some(number as u8),
        None => match body.window.load(Width::Byte, address) {
            Some(number) => Some(number as u8),
            None => memory.first_byte(address),
        },
    }
}
