//! The address map: where a program's memory ends, and what rewritten code has above it.

/// The address after the last byte of a program's memory.
pub const MEMORY_END: u32 = 0x8000_0000;

/// The address of the state byte of line 0: the state table begins where memory ends. The bytes of
/// the other lines follow in their order.
pub const STATE_TABLE: u32 = MEMORY_END;

/// How many state bytes there are: one for each line.
pub const STATE_LINES: u32 = 0x0400_0000;

/// The lowest address of a spill word, in which sequences keep a register. The three of them, of
/// four bytes each, are the last words of all.
pub const SPILLS: u32 = 0xffff_fff4;
