//! The memory that a program starts with, by flat lines: those that are shared, and those that no
//! processor may write.

ghost use Rattle.std.specs.Prelude.{◌≡◌, IfOk};
ghost use Rattle.exec_map.specs.Contents.{first_byte};
ghost use Rattle.block_layout.specs.Layout.{AreRanges};
ghost use Rattle.byte_range.specs.Lines.{lines_memory, Ascend};
ghost use Rattle.exec_map.specs.SharedLines.{HasSharedLines, HasReadOnlyLines};
ghost use Rattle.exec_map.specs.Ranges.{line_ranges};

use crate::{Lines, Program, first_bytes_law};
use byte_range::{LineMemory, LineRange};
use std::alloc::{AllocError, Global};

/// The bytes that the shared lines of a program start with, of each line 64.
pub fn shared_memory(alloc: Global, program: &Program<'_>) -> Result<LineMemory, AllocError>
    ensures bytes { IfOk result (λ m.
        lines_memory m (first_byte program.now) ≡ first_byte program.now) }
    ensures lines { IfOk result (HasSharedLines program.now) }
{
    // brings: the program is one that no rule refuses
    let _ = program.entry();
    let ranges = program.shared_ranges(alloc)?;
    memory_of(alloc, program, ranges.as_slice())
}

/// The bytes of the read-only lines of a program, of each line 64.
pub fn read_only_memory(alloc: Global, program: &Program<'_>) -> Result<LineMemory, AllocError>
    ensures bytes { IfOk result (λ m.
        lines_memory m (first_byte program.now) ≡ first_byte program.now) }
    ensures lines { IfOk result (HasReadOnlyLines program.now) }
{
    // brings: the program is one that no rule refuses
    let _ = program.entry();
    let ranges = program.read_only_ranges(alloc)?;
    memory_of(alloc, program, ranges.as_slice())
}

/// The bytes that the lines of ranges start with.
fn memory_of(
    alloc: Global,
    program: &Program<'_>,
    ranges: &[Lines],
) -> Result<LineMemory, AllocError>
    requires some { AreRanges ranges.now }
    requires ascend { Ascend 0 (line_ranges ranges.now) }
    ensures bytes { IfOk result (λ m.
        lines_memory m (first_byte program.now) ≡ first_byte program.now) }
    ensures ranges { IfOk result (λ m. m.ranges ≡ line_ranges ranges.now) }
{
    first_bytes_law();
    let mut pieces = Vec::new(alloc);
    let mut bytes = Vec::new(alloc);
    for lines in ranges {
        pieces.push(LineRange {
            first: lines.first,
            count: lines.lines,
        })?;
        program.bytes0(64 * lines.first, 64 * lines.lines as usize, &mut bytes)?;
    }
    LineMemory::of(alloc, &pieces, bytes)
}
