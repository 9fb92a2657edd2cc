//! The layout of a run.

ghost use Rattle.std.specs.Prelude.{option_map, IfOk, IfErr};
ghost use Rattle.block_layout.specs.Layout.{IsValid};
ghost use Rattle.text_output.specs.Failures.{IsRefusal, IsNever};
ghost use Rattle.judged_files.specs.Layouts.{IsLayoutOfExecutable};
ghost use Rattle.judged_files.specs.Refusals.{IsFaultyLayout};
ghost use Rattle.judged_files.specs.Records.{AreFaultyBlocks, IsLayoutOfBlocks};
ghost use Rattle.run_limits.specs.Ranges.{IsNodeCount};

use crate::refusal::layout_line;
use block_layout::{Layout, LayoutRefused, default_layout, layout_with, read_layout};
use exec_map::Program;
use run_limits::NodeCount;
use run_record::Record;
use std::alloc::Global;
use text_output::Failure;

/// The layout of a program's shared lines for so many nodes: that of a text, or, where there is
/// none, that where each line is a block.
pub fn layout_for(
    alloc: Global,
    program: &Program<'_>,
    text: Option<&[u8]>,
    nodes: NodeCount,
) -> Result<Layout, Failure>
    ensures ok { IfOk result
        (IsLayoutOfExecutable program.now (option_map (λ text. text.now) text.entry) nodes) }
    ensures valid { IfOk result IsValid }
    ensures refused { IfErr result (IsRefusal IsNever
        (IsFaultyLayout program.now (option_map (λ text. text.now) text.entry) nodes)) }
{
    let ranges = program.shared_ranges(alloc)?;
    let Some(text) = text else {
        return Ok(default_layout(alloc, &ranges, nodes.as_u8())?);
    };
    match read_layout(alloc, text, &ranges, nodes.as_u8()) {
        Ok(layout) => Ok(layout),
        Err(LayoutRefused::Broken { rule, line }) => {
            Err(Failure::Layout(layout_line(alloc, rule, line)?))
        }
        Err(LayoutRefused::OutOfMemory) => Err(Failure::OutOfMemory),
    }
}

/// The layout of a record's blocks over a program's shared lines, for as many nodes.
pub fn layout_of_blocks(
    alloc: Global,
    program: &Program<'_>,
    kept: &Record,
) -> Result<Layout, Failure>
    requires nodes { IsNodeCount kept.now.nodes }
    ensures ok { IfOk result (IsLayoutOfBlocks program.now kept.now) }
    ensures valid { IfOk result IsValid }
    ensures refused { IfErr result (IsRefusal IsNever (AreFaultyBlocks program.now kept.now)) }
{
    let ranges = program.shared_ranges(alloc)?;
    match layout_with(alloc, kept.blocks.as_slice(), &ranges, kept.nodes) {
        Ok(layout) => Ok(layout),
        Err(LayoutRefused::Broken { rule, line }) => {
            Err(Failure::Layout(layout_line(alloc, rule, line)?))
        }
        Err(LayoutRefused::OutOfMemory) => Err(Failure::OutOfMemory),
    }
}
