//! The flow graph, the dead registers and the scratch registers of a few programs.

ghost use Rattle.std.specs.Prelude.{◌≡◌};

use check_plan::plan_checks;
use elf32_read::read_elf;
use exec_map::{Program, accept};
use flow_graph::Graph;
use liveness::Live;
use rv32_decode::Reg;
use std::alloc::Global;
use std::test::Fail;
use templates::{Plan, Scratch};
use test_calls::files::executable;

/// Counts down, stores, and then stays where it is.
pub(crate) const LOOP: &str = "addi x5, x0, 3
again:
addi x5, x5, -1
bne x5, x0, again
addi x6, x0, 1
sw x6, 0(x7)
stay:
jal x0, stay
";

const CALL: &str = "addi x10, x0, 0; addi x17, x0, 93; ecall; lw x6, 0(x5); ecall";

const ODD_BRANCH: &str = "lb x6, 0(x5)
beq x5, x6, 0x00010006
addi x7, x0, 1
jalr x0, 0(x1)
ebreak
";

/// The successors of a code word, whether it goes back, and whether anywhere.
type Edges = (Option<u32>, Option<u32>, bool, bool);

/// The sets of the registers that are dead after and at a code word, as bits with x0 among them,
/// and whether x10 is dead after and at it.
type Dead = (u32, u32, bool, bool);

/// A scratch register: its number, and whether it is spilled.
type Chosen = (u8, bool);

/// What is known of a program, at addresses: its edges, its dead registers, and the scratch
/// registers s and t of its sequences.
struct Known {
    code: &'static str,
    edges: &'static [(u32, Option<Edges>)],
    dead: &'static [(u32, Option<Dead>)],
    scratches: &'static [(u32, Option<(Chosen, Chosen)>)],
}

static KNOWN: [Known; 3] = [
    Known {
        code: LOOP,
        edges: &[
            (
                0x00010008,
                Some((Some(0x0001000c), Some(0x00010004), true, false)),
            ),
            (0x00010018, None),
        ],
        dead: &[
            // x5 and x7 are used in the loop and after it; the loop's head defines x5
            (0x00010000, Some((0xffffff5f, 0xffffff7f, true, true))),
            (0x00010004, Some((0xffffff5f, 0xffffff5f, true, true))),
            (0x00010008, Some((0xffffff5f, 0xffffff5f, true, true))),
            (0x0001000c, Some((0xffffff3f, 0xffffff7f, true, true))),
            // what follows jumps to itself for ever
            (0x00010010, Some((0xffffffff, 0xffffff3f, true, true))),
        ],
        scratches: &[
            // all are dead after the store
            (0x00010010, Some(((1, false), (2, false)))),
        ],
    },
    Known {
        code: CALL,
        edges: &[],
        dead: &[
            // a call uses every register, and goes on
            (0x00010000, Some((0x00020001, 0x00020401, false, true))),
            (0x00010004, Some((0x00000001, 0x00020001, false, false))),
            (0x00010008, Some((0x00000041, 0x00000001, false, false))),
            (0x0001000c, Some((0x00000001, 0x00000041, false, false))),
        ],
        scratches: &[
            // none is dead after the load, which takes one
            (0x0001000c, Some(((1, true), (0, false)))),
        ],
    },
    Known {
        code: ODD_BRANCH,
        edges: &[],
        dead: &[
            // a target that isn't a multiple of four is no successor
            (0x00010004, Some((0x00000081, 0x00000081, false, false))),
            // nothing is dead after an indirect jump and a break
            (0x0001000c, Some((0x00000001, 0x00000001, false, false))),
            (0x00010010, Some((0x00000001, 0x00000001, false, false))),
        ],
        scratches: &[
            // x7 alone is dead
            (0x00010000, Some(((7, false), (1, true)))),
            (0x00010014, Some(((0, false), (0, false)))),
        ],
    },
];

/// The edges of the code word at an address.
fn edges_of(graph: &Graph, address: u32) -> Option<Edges> {
    let _instruction = graph.code().at(address)?;
    let next = graph.next(address);
    let goes_back = graph.back(address);
    Some((
        next.first,
        next.second,
        goes_back,
        graph.any_target(address),
    ))
}

/// The registers that are dead after and at the code word at an address, and whether one is.
fn dead_of(live: &Live<'_>, address: u32, r: Reg) -> Option<Dead>
    requires nonzero { r ≡ 10 }
{
    let _instruction = live.graph().code().at(address)?;
    let after = live.all_dead(address).bits() | 1;
    let at = live.all_dead_at(address).bits() | 1;
    Some((after, at, live.dead(address, r), live.dead_at(address, r)))
}

/// The scratch registers s and t at an address.
fn scratches_of(plan: &Plan, address: u32) -> Option<(Chosen, Chosen)> {
    for entry in plan.entries() {
        if entry.address == address {
            return Some((chosen(&entry.single.s), chosen(&entry.single.t)));
        }
    }
    None
}

fn chosen(scratch: &Scratch) -> Chosen {
    (scratch.register.number(), scratch.spilled)
}

/// Whether the edges at addresses are so.
fn has_edges(graph: &Graph, all: &[(u32, Option<Edges>)]) -> bool {
    for (address, edges) in all {
        if edges_of(graph, *address) != *edges {
            return false;
        }
    }
    true
}

/// Whether the dead registers at addresses are so.
fn has_dead(live: &Live<'_>, all: &[(u32, Option<Dead>)]) -> bool {
    for (address, dead) in all {
        if dead_of(live, *address, Reg::A0) != *dead {
            return false;
        }
    }
    true
}

/// Whether the scratch registers at addresses are so.
fn has_scratches(plan: &Plan, all: &[(u32, Option<(Chosen, Chosen)>)]) -> bool {
    for (address, scratches) in all {
        if scratches_of(plan, *address) != *scratches {
            return false;
        }
    }
    true
}

/// Whether all that is known of a program is so.
fn is_known(live: &Live<'_>, plan: &Plan, known: &Known) -> bool {
    has_edges(live.graph(), known.edges)
        && has_dead(live, known.dead)
        && has_scratches(plan, known.scratches)
}

/// Whether all of it is so of a program's graph.
fn is_so(alloc: Global, program: &Program<'_>, known: &Known) -> Result<bool, Fail> {
    let graph = Graph::of(alloc, program)?;
    let live = Live::of(alloc, &graph)?;
    let plan = plan_checks(alloc, &live)?;
    Ok(is_known(&live, &plan, known))
}

/// Fails the test where something else is so of a program.
fn try_known(alloc: Global, known: &Known) -> Result<(), Fail> {
    let file = executable(alloc, known.code, b"\x05", 64)?;
    let elf = read_elf(alloc, &file)?;
    let program = accept(alloc, &elf)?;
    if is_so(alloc, &program, known)? {
        return Ok(());
    }
    let code = known.code;
    Err(Fail::new(format_args!("the program {code}")))
}

#[test]
fn edges_dead_registers_and_scratches(rt: HostRuntime) -> Result<(), Fail> {
    for known in &KNOWN {
        try_known(rt.alloc(), known)?;
    }
    Ok(())
}
