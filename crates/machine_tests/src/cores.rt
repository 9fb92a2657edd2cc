//! Nodes that run rewritten code, event by event, to the end, and in threads of their own.

ghost use Rattle.std.specs.Prelude.{◌≡◌, ◌<◌, ◌≤◌, IfOk};
ghost use Rattle.block_layout.specs.Layout.{IsValid};
ghost use Rattle.exec_map.specs.Contents.{program_of};
ghost use Rattle.jump_map.specs.Image.{IsRewriting};
ghost use Rattle.node_model.specs.Node.{IsLaidOver};

use block_layout::{Layout, default_layout};
use elf32_read::{Elf, read_elf};
use exec_map::{End, Exit, Program, accept};
use lossy_sim::dsm_core::{Core, Event, Work};
use node_machine::{Entry, Node, NodeCounts, Standing};
use node_threads::{OpenGate, race_with};
use rewriter::{Options, Rewritten, rewrite};
use run_limits::Budget;
use std::alloc::{AllocError, Global};
use std::sync::Wait;
use std::test::Fail;
use std::thread::Threads;
use test_calls::files::executable;
use test_calls::samples::HI;
use workload::program_of as generate;

/// A processor other than 0 loads a shared word; each exits with code 0.
const ROW: &str = "lui x5, 0x20
beq x10, x0, end
lw x6, 0(x5)
end:
addi x10, x0, 0
addi x17, x0, 93
ecall
";

/// A processor other than 0 stores a shared word; each exits with code 0.
const STRANGER: &str = "lui x5, 0x20
beq x10, x0, end
sw x6, 0(x5)
end:
addi x10, x0, 0
addi x17, x0, 93
ecall
";

/// Each processor loads a shared word, writes no byte, stores the word and exits with code 0.
const SHARERS: &str = "lui x5, 0x20
lw x6, 0(x5)
addi x10, x0, 1
addi x11, x5, 0
addi x12, x0, 0
addi x17, x0, 64
ecall
sw x6, 0(x5)
addi x10, x0, 0
addi x17, x0, 93
ecall
";

/// What a node counts that sent `messages` messages, and nothing else.
fn sent(messages: u64) -> NodeCounts {
    NodeCounts {
        read: 0,
        exclusive: 0,
        upgrade: 0,
        falses: 0,
        invalidations: 0,
        fallbacks: 0,
        messages,
    }
}

/// The default layout of `nodes` nodes.
pub(crate) fn layout_over(alloc: Global, program: &Program<'_>, nodes: u8) -> Result<Layout, Fail>
    requires some { 0 < nodes }
    requires few { nodes ≤ 16 }
    ensures valid { IfOk result IsValid }
    ensures laid_over { IfOk result (λ layout. IsLaidOver (program_of program.now) layout) }
    ensures nodes { IfOk result (λ layout. layout.nodes ≡ nodes) }
{
    let ranges = program.shared_ranges(alloc)?;
    let layout = default_layout(alloc, &ranges, nodes)?;
    Ok(layout)
}

/// The nodes of a layout at the start.
fn core_of<'a>(
    alloc: Global,
    rewritten: &'a Rewritten,
    program: &'a Program<'a>,
    layout: &'a Layout,
) -> Result<Core<'a>, Fail>
    requires valid { IsValid layout.now }
    requires laid_over { IsLaidOver (program_of program.now) layout.now }
    requires rewriting { IsRewriting (program_of program.now) rewritten.now.plan
        rewritten.now.image }
{
    let Some(budget) = Budget::of(100_000_000) else {
        return Err(Fail::from("a hundred million is a budget"));
    };
    // For the proof alone.
    let _ = program.entry();
    let _ = budget.number();
    let work = Work {
        program,
        image: rewritten.image(),
        layout,
        budget,
    };
    let core = Core::new(alloc, &work)?;
    Ok(core)
}

/// Makes an event where it is allowed, and tells whether it is.
fn make(core: &mut Core<'_>, event: Event) -> Result<bool, AllocError> {
    if core.enabled(event) {
        core.step(event)?;
        return Ok(true);
    }
    Ok(false)
}

/// Each of two nodes takes a message from each where it may, and executes a word where it may.
fn round(core: &mut Core<'_>) -> Result<(), AllocError> {
    for node in 0..2 {
        make(core, Event::Take { node, from: 0 })?;
        make(core, Event::Take { node, from: 1 })?;
        make(core, Event::Exec(node))?;
    }
    Ok(())
}

/// Whether a node printed the three bytes, ended with code 0, and is over.
fn has_ended(node: &Node<'_>) -> bool {
    for (out, byte) in node.output().iter().zip(b"hi\n") {
        if out.byte != *byte {
            return false;
        }
    }
    node.output().len() == 3
        && node.end() == Some(End::Exited(Exit::Code(0)))
        && node.standing() == Standing::Over
}

/// Whether two nodes print until they are over, where neither is at the start.
fn have_printed(core: &mut Core<'_>) -> Result<bool, AllocError> {
    if core.is_over() || core.enabled(Event::Exec(2)) || core.enabled(TAKE) {
        return Ok(false);
    }
    for _ in 0..100 {
        round(core)?;
    }
    let all = core.is_over() && core.layout().nodes() == 2;
    Ok(all && has_ended(core.node(0)) && has_ended(core.node(1)))
}

/// What may not happen at the start, where no message is there.
const TAKE: Event = Event::Take { node: 0, from: 1 };

/// What two sharers do that then both want to write. A node that executes goes on until it stands
/// at a poll or waits.
static SHARING: [Event; 18] = [
    Event::Exec(0),
    Event::Exec(1),
    // the Read, as it is forwarded; the Data; the Done
    Event::Take { node: 0, from: 1 },
    Event::Take { node: 0, from: 0 },
    Event::Take { node: 1, from: 0 },
    Event::Take { node: 0, from: 1 },
    Event::Exec(1),
    Event::Exec(0),
    Event::Exec(1),
    // the Write of node 0, which makes the home busy; the Write of node 1, which waits there
    Event::Take { node: 0, from: 0 },
    Event::Take { node: 0, from: 1 },
    // the Inval; the Grant; the Ack, by which node 0 has the block
    Event::Take { node: 1, from: 0 },
    Event::Take { node: 0, from: 0 },
    Event::Take { node: 0, from: 1 },
    Event::Exec(0),
    // the Done; the Write of node 1, as it is forwarded; the Data
    Event::Take { node: 0, from: 0 },
    Event::Take { node: 0, from: 0 },
    Event::Take { node: 1, from: 0 },
];

/// Makes events, and fails where one isn't allowed.
fn play(core: &mut Core<'_>, events: &[Event]) -> Result<(), Fail> {
    for event in events {
        if !make(core, *event)? {
            return Err(Fail::from("an event that is allowed"));
        }
        if let Event::Exec(node) = event {
            execute_to_end(core, *node)?;
        }
    }
    Ok(())
}

/// A node executes words until it stands at a poll or waits, a hundred at most.
fn execute_to_end(core: &mut Core<'_>, node: u8) -> Result<(), AllocError> {
    for _ in 0..100 {
        if node >= core.layout().nodes() || core.node(node).standing() != Standing::Running {
            return Ok(());
        }
        make(core, Event::Exec(node))?;
    }
    Ok(())
}

/// Whether two nodes share a block, and each then writes it in its turn.
fn have_shared(core: &mut Core<'_>) -> Result<bool, Fail> {
    play(core, &SHARING)?;
    core.finish()?;
    if core.layout().nodes() != 2 {
        return Ok(false);
    }
    for node in 0..2 {
        let counts = core.node(node).counts();
        if counts.upgrade != 1 || counts.exclusive != 0 || counts.invalidations != 1 {
            return Ok(false);
        }
    }
    Ok(true)
}

/// The takes of the node that has a block, and of the node that reads it.
static HOME: [Entry; 5] = [
    Entry {
        stamp: 7,
        from: 0,
        words: 6,
    },
    Entry {
        stamp: 9,
        from: 1,
        words: 0,
    },
    Entry {
        stamp: 10,
        from: 0,
        words: 0,
    },
    Entry {
        stamp: 12,
        from: 1,
        words: 0,
    },
    Entry {
        stamp: 16,
        from: 1,
        words: 0,
    },
];

static READER: [Entry; 3] = [
    Entry {
        stamp: 9,
        from: 0,
        words: 8,
    },
    Entry {
        stamp: 11,
        from: 0,
        words: 0,
    },
    Entry {
        stamp: 16,
        from: 1,
        words: 4,
    },
];

/// Whether each node ended with code 0, the first sent `messages` messages and counted nothing
/// else, and each other read one block and sent two messages.
fn have_read(core: &Core<'_>, messages: u64) -> bool {
    let reader = NodeCounts { read: 1, ..sent(2) };
    for node in 0..core.layout().nodes() {
        let counts = if node == 0 { sent(messages) } else { reader };
        let end = core.node(node).end();
        if end != Some(End::Exited(Exit::Code(0))) || core.node(node).counts() != counts {
            return false;
        }
    }
    core.is_over()
}

/// Whether two nodes have read, with these takes.
fn is_row(core: &Core<'_>) -> bool {
    core.layout().nodes() == 2
        && have_read(core, 2)
        && core.node(0).journal() == HOME.as_slice()
        && core.node(1).journal() == READER.as_slice()
}

/// Whether two nodes that are finished have read, also where the core is put together again.
fn is_kept(mut core: Core<'_>) -> Result<bool, Fail> {
    core.finish()?;
    let before = is_row(&core);
    let again = Core::put_together(core.take_apart());
    Ok(before && is_row(&again))
}

/// Whether two nodes that run to their ends print these bytes, end with code 0 and count so.
fn has_outcome(
    alloc: Global,
    mut core: Core<'_>,
    output: &[u8],
    counts: &[NodeCounts],
) -> Result<bool, AllocError> {
    core.finish()?;
    let outcome = core.outcome(alloc)?;
    let ends = [End::Exited(Exit::Code(0)); 2];
    let told = outcome.output.as_slice() == output && outcome.ends.as_slice() == ends.as_slice();
    Ok(told && outcome.counts.as_slice() == counts)
}

/// What four nodes print of the generated executable of number 0: eight times the sum that one of
/// them adds, which is 250078.
const SUM: &[u8] = b"001e86f0\n";

/// Whether four nodes in threads, over links that hold one wire, print the sum and end with code 0.
fn have_added(
    rt: &(impl Threads + Wait + Sync + AllocGlobal),
    core: Core<'_>,
) -> Result<bool, AllocError> {
    let raced = race_with(rt, rt.alloc(), core, 1, &OpenGate)?;
    let outcome = raced.outcome(rt.alloc())?;
    let ends = [End::Exited(Exit::Code(0)); 4];
    Ok(outcome.output.as_slice() == SUM && outcome.ends.as_slice() == ends.as_slice())
}

/// Whether nodes in threads, over links that hold one wire, have read, and the first sent 30
/// messages.
fn have_raced(
    rt: &(impl Threads + Wait + Sync + AllocGlobal),
    core: Core<'_>,
) -> Result<bool, AllocError> {
    let raced = race_with(rt, rt.alloc(), core, 1, &OpenGate)?;
    Ok(have_read(&raced, 30))
}

/// What nodes are to do.
#[derive(Clone, Copy)]
enum Case {
    /// In threads, over links that hold one wire, four of them add what the generated executable
    /// adds.
    Add,
    /// Two of them finish, print these bytes, and count so.
    Finish(&'static [u8], [NodeCounts; 2]),
    Print,
    Read,
    Share,
    /// In threads, over links that hold one wire.
    Race,
}

/// Has nodes do so, and tells whether they did.
fn does(
    rt: &(impl Threads + Wait + Sync + AllocGlobal),
    mut core: Core<'_>,
    case: Case,
) -> Result<bool, Fail> {
    let done = match case {
        Case::Finish(output, counts) => has_outcome(rt.alloc(), core, output, counts.as_slice())?,
        Case::Print => have_printed(&mut core)?,
        Case::Read => is_kept(core)?,
        Case::Share => have_shared(&mut core)?,
        Case::Add => have_added(rt, core)?,
        Case::Race => have_raced(rt, core)?,
    };
    Ok(done)
}

/// Has the nodes of a rewritten program do so, and tells whether they did.
fn has_come(
    rt: &(impl Threads + Wait + Sync + AllocGlobal),
    rewritten: &Rewritten,
    program: &Program<'_>,
    nodes: u8,
    case: Case,
) -> Result<bool, Fail>
    requires some { 0 < nodes }
    requires few { nodes ≤ 16 }
    requires rewriting { IsRewriting (program_of program.now) rewritten.now.plan
        rewritten.now.image }
{
    let alloc = rt.alloc();
    let layout = layout_over(alloc, program, nodes)?;
    let core = core_of(alloc, rewritten, program, &layout)?;
    does(rt, core, case)
}

/// Has nodes of the program with this code and data do so, and fails the test where they don't.
fn try_case(
    rt: &(impl Threads + Wait + Sync + AllocGlobal),
    code: &str,
    data: (&[u8], u32),
    nodes: u8,
    case: Case,
) -> Result<(), Fail>
    requires some { 0 < nodes }
    requires few { nodes ≤ 16 }
{
    let file = executable(rt.alloc(), code, data.0, data.1)?;
    let elf = read_elf(rt.alloc(), &file)?;
    try_elf(rt, &elf, nodes, case)
}

/// Has nodes of the program of an executable do so, and fails the test where they don't.
fn try_elf(
    rt: &(impl Threads + Wait + Sync + AllocGlobal),
    elf: &Elf<'_>,
    nodes: u8,
    case: Case,
) -> Result<(), Fail>
    requires some { 0 < nodes }
    requires few { nodes ≤ 16 }
{
    let alloc = rt.alloc();
    let program = accept(alloc, elf)?;
    let rewritten = rewrite(alloc, &program, Options { batch: true })?;
    if has_come(rt, &rewritten, &program, nodes, case)? {
        return Ok(());
    }
    Err(Fail::from("the end of each node, its output, its takes and its counts"))
}

/// A word of data, and the size of its memory.
const SEVEN: (&[u8], u32) = (&[7, 0, 0, 0], 64);

#[test]
fn two_nodes_print_read_and_share(rt: HostRuntime) -> Result<(), Fail> {
    try_case(&rt, HI, (b"hi\n", 3), 2, Case::Print)?;
    try_case(&rt, ROW, SEVEN, 2, Case::Read)?;
    try_case(&rt, SHARERS, SEVEN, 2, Case::Share)
}

/// The home sends the forwarded request and the data of each miss; and for an upgrade the Inval to
/// itself, the Grant and the Ack.
#[test]
fn outcomes_of_two_nodes(rt: HostRuntime) -> Result<(), Fail> {
    let reader = NodeCounts { read: 1, ..sent(2) };
    try_case(
        &rt,
        HI,
        (b"hi\n", 3),
        2,
        Case::Finish(b"hi\nhi\n", [sent(2), reader]),
    )?;
    try_case(&rt, ROW, SEVEN, 2, Case::Finish(b"", [sent(2), reader]))?;
    let home = NodeCounts {
        invalidations: 1,
        ..sent(2)
    };
    let stranger = NodeCounts {
        exclusive: 1,
        ..sent(2)
    };
    try_case(&rt, STRANGER, SEVEN, 2, Case::Finish(b"", [home, stranger]))?;
    let home = NodeCounts {
        invalidations: 1,
        ..sent(5)
    };
    let sharer = NodeCounts {
        read: 1,
        upgrade: 1,
        ..sent(4)
    };
    try_case(&rt, SHARERS, SEVEN, 2, Case::Finish(b"", [home, sharer]))
}

#[test]
fn sixteen_nodes_over_links_of_one_wire(rt: HostRuntime) -> Result<(), Fail> {
    try_case(&rt, ROW, SEVEN, 16, Case::Race)
}

/// As over longer links, the generated executable of number 0 prints eight times the sum.
#[test]
fn four_nodes_add_over_links_of_one_wire(rt: HostRuntime) -> Result<(), Fail> {
    let generated = generate(rt.alloc(), 0)?;
    let elf = generated.elf(rt.alloc())?;
    try_elf(&rt, &elf, 4, Case::Add)
}
