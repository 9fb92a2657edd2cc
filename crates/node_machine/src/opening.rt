//! What words see of their node at the start.

ghost use Rattle.std.specs.Prelude.{◌≡◌, ◌*◌, ◌<◌, ℕ, IfOk, OnOk};
ghost use Rattle.node_words.specs.exec_map.Contents.{program_of};
ghost use Rattle.block_layout.specs.Layout.{blocks};
ghost use Rattle.block_layout.specs.Update.{changed};
ghost use Rattle.state_table.specs.States.{state_of};
ghost use Rattle.node_words.specs.flag_memory.Copy.{bytes_of};
ghost use Rattle.node_words.specs.node_model.Node as model;
ghost use Rattle.node_words.specs.node_memory.Shelf.{local_of};
ghost use Rattle.node_machine.specs.Opening.{AreFixedClasses, classes_of, opening_state};
ghost use Rattle.node_machine.specs.Opening.{opening_bytes};

use block_layout::{Block, Layout, layout_law};
use node_words::NodeMemory;
use node_words::exec_map::{Lines, PRIVATE_FIRST, Program, first_bytes_law, read_only_memory};
use node_words::flag_memory::{Copy32, FirstBytes, copy_law};
use state_table::{EXCLUSIVE, LineClass, LineClasses, READ_ONLY, State, States};
use std::alloc::{AllocError, Global};

/// What words see of node `me` at the start.
pub fn first_local<'a>(
    alloc: Global,
    program: &'a Program<'a>,
    layout: &Layout,
    me: u8,
) -> Result<NodeMemory<'a>, AllocError>
    requires layout { model.IsLaidOver (program_of program.now) layout.now }
    ensures program { IfOk result (λ l. l.program ≡ program.now) }
    ensures layout { IfOk result (λ l. l.copy.layout ≡ layout.now) }
    ensures local { IfOk result (λ l. (work : model.Work) → work.program ≡ program_of program.now
        → work.layout ≡ layout.now → local_of l ≡ model.first_local work me) }
{
    layout_law();
    first_bytes_law();
    // brings: the program is one that no rule refuses
    let _ = program.entry();
    // brings: the layout is valid
    let _ = layout.nodes();
    let classes = fixed_classes(alloc, program)?;
    let mut states = States::new(alloc, layout, &classes)?;
    let mut copy = Copy32::new(alloc, layout, &FirstBytes::new(Vec::new(alloc)))?;
    open_blocks(alloc, program, layout, me, &mut states, &mut copy)?;
    copy_law(&copy);
    let fixed = read_only_memory(alloc, program)?;
    Ok(NodeMemory::new(program, layout.copy(alloc)?, states, copy, fixed))
}

/// The state bytes of the lines that aren't shared.
fn fixed_classes(alloc: Global, program: &Program<'_>) -> Result<LineClasses, AllocError>
    ensures { IfOk result (AreFixedClasses program.now) }
{
    // brings: the program is one that no rule refuses
    let _ = program.entry();
    let ranges = program.read_only_ranges(alloc)?;
    Ok(LineClasses::new(all_classes(alloc, ranges.as_slice())?))
}

/// The classes of read-only lines and of the private window.
fn all_classes(alloc: Global, ranges: &[Lines]) -> Result<Vec<LineClass>, AllocError>
    ensures { IfOk result (λ v. v.items ≡ classes_of ranges.now) }
{
    let mut classes = Vec::new(alloc);
    for lines in ranges {
        classes.push(LineClass {
            first: lines.first,
            lines: lines.lines,
            byte: READ_ONLY,
        })?;
    }
    classes.push(LineClass {
        first: PRIVATE_FIRST,
        lines: WINDOW_LINES,
        byte: EXCLUSIVE,
    })?;
    Ok(classes)
}

/// How many lines the private window has.
const WINDOW_LINES: u32 = 0x400;

/// Gives the blocks that are homed at a node their first bytes, and makes them exclusive there;
/// flags the others.
fn open_blocks(
    alloc: Global,
    program: &Program<'_>,
    layout: &Layout,
    me: u8,
    states: &mut States,
    copy: &mut Copy32,
) -> Result<(), AllocError>
    requires states { states.old.layout ≡ layout.now }
    requires copy { copy.old.layout ≡ layout.now }
    requires invalid { (b : ℕ) → b < blocks layout.now → state_of states.old b ≡ State.Invalid }
    ensures state { OnOk result ((b : ℕ) → b < blocks layout.now → state_of states.new b
        ≡ opening_state layout.now me b) }
    ensures bytes { OnOk result ((b : ℕ) → b < blocks layout.now → bytes_of copy.new b
        ≡ opening_bytes program.now layout.now me b) }
    ensures states_layout { states.new.layout ≡ states.old.layout }
    ensures classes { states.new.program ≡ states.old.program }
    ensures copy_layout { copy.new.layout ≡ copy.old.layout }
{
    let mut bytes = Vec::new(alloc);
    for block in 0..layout.blocks() {
        open_block(program, layout, me, block, &mut bytes, states, copy)?;
    }
    Ok(())
}

/// Opens one block: at its home it is exclusive, with its first bytes; elsewhere it is flagged.
fn open_block(
    program: &Program<'_>,
    layout: &Layout,
    me: u8,
    block: Block,
    bytes: &mut Vec<u8>,
    states: &mut States,
    copy: &mut Copy32,
) -> Result<(), AllocError>
    requires block { block < blocks layout.now }
    requires states { states.old.layout ≡ layout.now }
    requires copy { copy.old.layout ≡ layout.now }
    requires invalid { state_of states.old block ≡ State.Invalid }
    ensures state { OnOk result (state_of states.new
        ≡ changed (state_of states.old) block (opening_state layout.now me block)) }
    ensures bytes { OnOk result (bytes_of copy.new
        ≡ changed (bytes_of copy.old) block (opening_bytes program.now layout.now me block)) }
    ensures states_layout { states.new.layout ≡ states.old.layout }
    ensures classes { states.new.program ≡ states.old.program }
    ensures copy_layout { copy.new.layout ≡ copy.old.layout }
{
    layout_law();
    first_bytes_law();
    // brings: the layout is valid
    let _ = layout.nodes();
    if layout.home(block) != me {
        copy.fill_flag(block);
        return Ok(());
    }
    bytes.clear();
    program.bytes0(
        64 * layout.first_line(block),
        64 * layout.lines(block) as usize,
        bytes,
    )?;
    states.set(block, State::Exclusive);
    copy.put(block, bytes);
    Ok(())
}
