//! The step that a processor makes next, before it is made.

ghost use Rattle.std.specs.Prelude.{◌≡◌, ◌<◌, ◌&&◌, ◌==◌, if◌then◌else◌, Some, None};
ghost use Rattle.exec_map.specs.Contents.{program_of};
ghost use Rattle.llsc.specs.Reservation.{holds as model_holds};
ghost use Rattle.rv32_decode.specs.Widths.{size_of, is_aligned};
ghost use Rattle.rv32_program.specs.Program.{class_at, is_mapped, is_writable};
ghost use Rattle.rv32_step.specs.OneMemory as model;
ghost use Rattle.one_memory.specs.Machine.{original_of, state_of};
ghost use Rattle.one_memory.specs.Shown.{pick_of};
ghost use Rattle.time_machine.specs.Hits.{IsOfOne};
ghost use Rattle.time_machine.specs.Stops.{came_by as model_came, next_step as model_step};
ghost use Rattle.time_machine.specs.Stops.{step_by, touch_of};

use exec_map::{Class, Program};
use one_memory::{OneMemory, Pick};
use rv32_decode::Width;
use rv32_step::{CallStep, Demand, call_step, demand_of};

/// How a step touches memory.
#[derive(Clone, Copy)]
pub(crate) enum TouchKind {
    Reads,
    Writes,
    /// It reads a word, and writes it anew.
    Exchanges,
}

/// The bytes that a step touches.
#[derive(Clone, Copy)]
pub(crate) struct TouchedBytes {
    pub kind: TouchKind,
    pub address: u32,
    pub size: u8,
}

/// A step that comes next: whose it is, the address of its instruction, unless it goes on with a
/// call, and what it touches.
#[derive(Clone, Copy)]
pub(crate) struct NextStep {
    pub processor: u8,
    pub start: Option<u32>,
    pub touch: Option<TouchedBytes>,
}

/// The step that a pick is, if it is one.
pub(crate) fn step_of(
    program: &Program<'_>,
    machine: &OneMemory<'_>,
    pick: Pick,
) -> Option<NextStep>
    requires program { (original_of machine.now).program ≡ program_of program.now }
    requires allowed { model.Allowed (original_of machine.now) (state_of machine.now)
        (pick_of pick) }
    ensures { result ≡ step_by (original_of machine.now) (state_of machine.now) (pick_of pick) }
{
    match pick {
        Pick::Step(p) => Some(next_step(program, machine, p)),
        Pick::Break { .. } => None,
    }
}

/// Where the processor of a pick stands, unless it goes on with a call. None for a break.
pub(crate) fn came_by(machine: &OneMemory<'_>, pick: Pick) -> Option<u32>
    requires { IsOfOne (original_of machine.now).nodes (pick_of pick) }
    ensures { result ≡ model_came (original_of machine.now) (state_of machine.now) (pick_of pick) }
{
    match pick {
        Pick::Step(p) => start(machine, p),
        Pick::Break { .. } => None,
    }
}

/// The step that processor `p` makes next.
fn next_step(program: &Program<'_>, machine: &OneMemory<'_>, p: u8) -> NextStep
    requires program { (original_of machine.now).program ≡ program_of program.now }
    requires node { p < (original_of machine.now).nodes }
    ensures { result ≡ model_step (original_of machine.now) (state_of machine.now) p }
{
    NextStep {
        processor: p,
        start: start(machine, p),
        touch: touch_of_step(program, machine, p),
    }
}

/// The address at which a processor begins its next step, unless it goes on with a call.
fn start(machine: &OneMemory<'_>, p: u8) -> Option<u32>
    requires { p < (original_of machine.now).nodes }
    ensures { result ≡ (if ((state_of machine.now).processors p).written == 0
        then Some ((state_of machine.now).processors p).pc else None) }
{
    if machine.written(p) == 0 {
        Some(machine.pc(p))
    } else {
        None
    }
}

/// What the next step of processor `p` touches.
fn touch_of_step(program: &Program<'_>, machine: &OneMemory<'_>, p: u8) -> Option<TouchedBytes>
    requires program { (original_of machine.now).program ≡ program_of program.now }
    requires node { p < (original_of machine.now).nodes }
    ensures { result ≡ touch_of
        (model.step (original_of machine.now) (state_of machine.now) p).access }
{
    let pc = machine.pc(p);
    let instruction = program.code_at(pc)?;
    touch_of_demand(
        demand_of(instruction, machine.registers(p), pc),
        program,
        machine,
        p,
    )
}

/// What processor `p` touches where it meets a demand.
fn touch_of_demand(
    d: Demand,
    program: &Program<'_>,
    machine: &OneMemory<'_>,
    p: u8,
) -> Option<TouchedBytes>
    requires program { (original_of machine.now).program ≡ program_of program.now }
    requires node { p < (original_of machine.now).nodes }
    ensures { let original = original_of machine.now in let s = state_of machine.now in
        result ≡ touch_of (model.access_by original s p (s.processors p)
        (model.request_for original.program (s.processors p) d)) }
{
    match d {
        Demand::Loads(kind, _, address) => read(program, kind.width(), address),
        Demand::Reserves(_, address) => read(program, Width::Word, address),
        Demand::Calls => {
            match call_step(machine.registers(p), machine.written(p)) {
                CallStep::Puts(address) => read(program, Width::Byte, address),
                CallStep::Ends(_) => None,
                CallStep::Returns(_) => None,
            }
        }
        Demand::Stores(width, address, _) => write(program, TouchKind::Writes, width, address),
        Demand::Updates(_, _, address, _) => {
            write(program, TouchKind::Exchanges, Width::Word, address)
        }
        Demand::StoresIf(_, address, _) => {
            if holds(machine.reservation(p), address) {
                write(program, TouchKind::Writes, Width::Word, address)
            } else {
                None
            }
        }
        Demand::Sets(..) | Demand::Continues | Demand::Jumps(..) | Demand::Branches(_) => None,
        Demand::Traps(_) => None,
    }
}

/// Whether this address is reserved.
fn holds(reserved: Option<u32>, address: u32) -> bool
    ensures { result ≡ model_holds reserved address }
{
    match reserved {
        Some(own) => own == address,
        None => false,
    }
}

/// A read of an address, where it may be made.
fn read(program: &Program<'_>, width: Width, address: u32) -> Option<TouchedBytes>
    ensures { result ≡ (if is_aligned width address
        && is_mapped (class_at (program_of program.now) address)
        then Some (record { kind = TouchKind.Reads; address = address; size = size_of width })
        else None) }
{
    if !width.is_aligned(address) {
        return None;
    }
    match program.class(address / 64) {
        Class::Unmapped => None,
        Class::Shared | Class::ReadOnly | Class::Private => {
            Some(touched(TouchKind::Reads, width, address))
        }
    }
}

/// A write to an address, where it may be made.
fn write(program: &Program<'_>, kind: TouchKind, width: Width, address: u32) -> Option<TouchedBytes>
    ensures { result ≡ (if is_aligned width address
        && is_writable (class_at (program_of program.now) address)
        then Some (record { kind = kind; address = address; size = size_of width })
        else None) }
{
    if !width.is_aligned(address) {
        return None;
    }
    match program.class(address / 64) {
        Class::Shared | Class::Private => Some(touched(kind, width, address)),
        Class::ReadOnly | Class::Unmapped => None,
    }
}

/// The bytes of an access of this width.
fn touched(kind: TouchKind, width: Width, address: u32) -> TouchedBytes
    ensures { result ≡ record { kind = kind; address = address; size = size_of width } }
{
    TouchedBytes {
        kind,
        address,
        size: width.bytes(),
    }
}
