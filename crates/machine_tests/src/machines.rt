//! Steps of the original on one memory, reservations and breaks, and what an order chooses.

ghost use Rattle.std.specs.Prelude.{◌≡◌, ◌<◌};
ghost use Rattle.one_memory.specs.Machine.{original_of};

use block_layout::{Layout, default_layout};
use elf32_read::read_elf;
use exec_map::{Exit, Program, accept};
use one_memory::{OneMemory, StepRefused};
use random_order::order_of;
use run_limits::NodeCount;
use std::alloc::{AllocError, Global};
use std::test::Fail;
use test_calls::files::executable;
use test_calls::samples::HI;

/// Makes `steps` steps of a processor.
fn run(machine: &mut OneMemory<'_>, p: u8, steps: usize) -> Result<(), StepRefused>
    requires { p < (original_of machine.old).nodes }
    ensures { original_of machine.new ≡ original_of machine.old }
{
    for _ in 0..steps {
        machine.step(p)?;
    }
    Ok(())
}

/// The steps of a whole run of the program: 4 instructions, 4 steps of the write, 3 instructions.
const WHOLE: usize = 11;

/// Whether two processors printed these bytes and have these exits.
fn stand(machine: &OneMemory<'_>, output: &[u8], exits: [Option<Exit>; 2]) -> bool
    requires { (original_of machine.now).nodes ≡ 2 }
{
    machine.output() == output && [machine.exit(0), machine.exit(1)] == exits
}

/// Whether processor 1 prints and ends, and then processor 0.
fn print_and_end(machine: &mut OneMemory<'_>) -> Result<bool, Fail>
    requires { (original_of machine.old).nodes ≡ 2 }
{
    let exit = Some(Exit::Code(0));
    run(machine, 1, WHOLE)?;
    let first = stand(machine, b"hi\n", [None, exit]);
    let ended = machine.step(1) == Err(StepRefused::Ended(1));
    run(machine, 0, WHOLE)?;
    Ok(first && ended && stand(machine, b"hi\nhi\n", [exit, exit]))
}

/// What processor 1 does while processor 0 has a reservation: a number of instructions that do
/// nothing, and a word. Whether the word ends the reservation, and whether processor 1 may break it
/// before.
struct Case {
    /// Puts the address to be reserved in x7; x5 is 0x20000.
    address: &'static str,
    nothing: usize,
    word: &'static str,
    ends: bool,
    breaks: bool,
}

static CASES: [Case; 9] = [
    // into the block
    Case {
        address: "addi x7, x5, 0",
        nothing: 0,
        word: "sw x0, 4(x5)",
        ends: true,
        breaks: true,
    },
    // into the next block
    Case {
        address: "addi x7, x5, 0",
        nothing: 0,
        word: "sw x0, 64(x5)",
        ends: false,
        breaks: false,
    },
    Case {
        address: "addi x7, x5, 0",
        nothing: 0,
        word: "amoadd.w x0, x0, (x5)",
        ends: true,
        breaks: true,
    },
    // it fails, since processor 1 has no reservation
    Case {
        address: "addi x7, x5, 0",
        nothing: 0,
        word: "sc.w x0, x0, (x5)",
        ends: false,
        breaks: true,
    },
    // each in its own window
    Case {
        address: "addi x7, x2, -16",
        nothing: 0,
        word: "sw x0, -16(x2)",
        ends: false,
        breaks: false,
    },
    // the same, and sw x0, 4(x5)
    Case {
        address: "addi x7, x2, -16",
        nothing: 0,
        word: "sw x0, 4(x5)",
        ends: false,
        breaks: false,
    },
    // a stretch of 16 instructions
    Case {
        address: "addi x7, x5, 0",
        nothing: 15,
        word: "sw x0, 4(x5)",
        ends: true,
        breaks: true,
    },
    // a stretch of 17
    Case {
        address: "addi x7, x5, 0",
        nothing: 16,
        word: "sw x0, 4(x5)",
        ends: true,
        breaks: false,
    },
    // an AMO after another instruction
    Case {
        address: "addi x7, x5, 0",
        nothing: 1,
        word: "amoadd.w x0, x0, (x5)",
        ends: true,
        breaks: false,
    },
];

/// Both processors compute the address. Processor 0 reserves it and stores there, and exits;
/// processor 1 does what the case says.
fn code_of(alloc: Global, case: &Case) -> Result<String, AllocError> {
    let mut code = String::from_str(alloc, "lui x5, 0x20; ")?;
    code.push_str(case.address)?;
    code.push_str("; bne x10, x0, other; lr.w x6, (x7); sc.w x10, x6, (x7); ")?;
    code.push_str("addi x17, x0, 93; ecall; other:; ")?;
    for _ in 0..case.nothing {
        code.push_str("addi x0, x0, 0; ")?;
    }
    code.push_str(case.word)?;
    code.push_str("; ebreak")?;
    Ok(code)
}

/// Tries to break the reservation of processor `p` by processor `q`, and fails the test where that
/// may be done otherwise.
fn try_break(machine: &mut OneMemory<'_>, p: u8, q: u8, may: bool) -> Result<(), Fail>
    requires own { p < (original_of machine.old).nodes }
    requires other { q < (original_of machine.old).nodes }
    ensures { original_of machine.new ≡ original_of machine.old }
{
    if machine.break_reservation(p, q).is_ok() == may {
        Ok(())
    } else {
        Err(Fail::from("a break that may be made otherwise"))
    }
}

/// What processor 1 does while processor 0 has its reservation.
fn act(machine: &mut OneMemory<'_>, case: &Case, breaks: bool) -> Result<(), Fail>
    requires { (original_of machine.old).nodes ≡ 2 }
    ensures { original_of machine.new ≡ original_of machine.old }
{
    if breaks {
        return try_break(machine, 0, 1, case.breaks);
    }
    run(machine, 1, case.nothing)?;
    run(machine, 1, 1)?;
    Ok(())
}

/// How processor 0 ends, where processor 1 acts after its LR.
fn end_of(machine: &mut OneMemory<'_>, case: &Case, breaks: bool) -> Result<Option<Exit>, Fail>
    requires { (original_of machine.old).nodes ≡ 2 }
{
    run(machine, 0, 4)?;
    run(machine, 1, 3)?;
    act(machine, case, breaks)?;
    try_break(machine, 0, 0, false)?;
    try_break(machine, 1, 0, false)?;
    run(machine, 0, 3)?;
    Ok(machine.exit(0))
}

/// What two processors do.
#[derive(Clone, Copy)]
enum Play<'a> {
    Print,
    /// Processor 1 makes the steps of the case.
    Act(&'a Case),
    /// Processor 1 tries to break the reservation.
    Break(&'a Case),
}

/// Whether two processors do so as they should.
fn does(machine: &mut OneMemory<'_>, what: Play<'_>) -> Result<bool, Fail>
    requires { (original_of machine.old).nodes ≡ 2 }
{
    match what {
        Play::Print => print_and_end(machine),
        Play::Act(case) => {
            let end = end_of(machine, case, false)?;
            Ok(end == Some(Exit::Code(u8::from(case.ends))))
        }
        Play::Break(case) => {
            let end = end_of(machine, case, true)?;
            Ok(end == Some(Exit::Code(u8::from(case.breaks))))
        }
    }
}

/// The default layout of a program for two processors.
fn layout_of(alloc: Global, program: &Program<'_>) -> Result<Layout, Fail> {
    let ranges = program.shared_ranges(alloc)?;
    let layout = default_layout(alloc, &ranges, 2)?;
    Ok(layout)
}

/// Whether two processors of a program do so as they should.
fn does_on(alloc: Global, program: &Program<'_>, what: Play<'_>) -> Result<bool, Fail> {
    let Some(nodes) = NodeCount::of(2) else {
        return Err(Fail::from("two is a number of nodes"));
    };
    let layout = layout_of(alloc, program)?;
    let mut machine = OneMemory::new(alloc, program, &layout, nodes)?;
    does(&mut machine, what)
}

/// Fails the test where two processors of this program, whose data's memory has 128 bytes, do
/// otherwise than they should.
fn try_play(alloc: Global, code: &str, what: Play<'_>) -> Result<(), Fail> {
    let file = executable(alloc, code, b"hi\n", 128)?;
    let elf = read_elf(alloc, &file)?;
    let program = accept(alloc, &elf)?;
    if does_on(alloc, &program, what)? {
        return Ok(());
    }
    Err(Fail::from("two processors that do otherwise"))
}

#[test]
fn two_processors_print_and_end(rt: HostRuntime) -> Result<(), Fail> {
    try_play(rt.alloc(), HI, Play::Print)
}

#[test]
fn others_end_reservations(rt: HostRuntime) -> Result<(), Fail> {
    let alloc = rt.alloc();
    for case in &CASES {
        let code = code_of(alloc, case)?;
        try_play(alloc, &code, Play::Act(case))?;
        try_play(alloc, &code, Play::Break(case))?;
    }
    Ok(())
}

#[test]
fn an_order_chooses() -> Result<(), Fail> {
    for (count, choices) in [(65536, [0x3c6e, 0x4750, 0xd1cc, 0xaaf9]), (2, [0, 0, 0, 1])] {
        let mut order = order_of(0);
        for choice in choices {
            if order.next(count) != choice {
                return Err(Fail::new(format_args!("among {count}")));
            }
        }
    }
    Ok(())
}
