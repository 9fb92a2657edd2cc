#![tactic(auto)]
//! Writes ELF32 executables in a layout of this project's own.

ghost use Rattle.std.specs.Prelude.{◌≡◌, [], true, OnErr, OnOk};
ghost use Rattle.elf32_write.specs.Layout.{file_of};
ghost use Rattle.elf32_write.specs.Writable.{HasWords, is_writable};
ghost use Rattle.elf32_read.specs.Elf.{Elf as Fields};
ghost use Rattle.elf32_read.specs.Reading.{elf_of};
ghost use Rattle.elf32_read.specs.Refusals.{IsReadable};

mod bytes;
mod offsets;
mod plain;
mod sections;
mod segments;
mod table;

use elf32_read::Elf;
pub use plain::writable;
use std::alloc::AllocError;

/// Writes the file of an executable. Where memory is wanted, `out` is left empty.
///
/// Takes time in proportion to the file.
pub fn write_elf(e: &Elf<'_>, out: &mut Vec<u8>) -> Result<(), AllocError>
    requires writable { is_writable e.now ≡ true }
    requires empty { out.old.items ≡ [] }
    ensures ok { OnOk result (out.new.items ≡ file_of e.now) }
    ensures readable { OnOk result (IsReadable out.new.items) }
    ensures reads_back { OnOk result (elf_of out.new.items ≡ e.now) }
    ensures err { OnErr result (out.new.items ≡ []) }
{
    let outcome = push_file(e, out);
    if outcome.is_err() {
        out.clear();
    }
    outcome
}

/// Appends the file of an executable, or a part of it where memory is wanted.
fn push_file(e: &Elf<'_>, out: &mut Vec<u8>) -> Result<(), AllocError>
    requires writable { is_writable e.now ≡ true }
    requires empty { out.old.items ≡ [] }
    ensures ok { OnOk result (out.new.items ≡ file_of e.now) }
    ensures readable { OnOk result (IsReadable out.new.items) }
    ensures reads_back { OnOk result (elf_of out.new.items ≡ e.now) }
{
    let segments = e.segments();
    let sections = e.sections();
    let end = offsets::segments_end(segments);
    let table = table::table_of(end, sections);
    table::push_file_header(out, e.entry(), e.flags(), segments.len() as u16, table)?;
    segments::push_program_table(out, segments)?;
    segments::push_segment_bytes(out, segments)?;
    sections::push_section_part(out, sections)?;
    Ok(())
}

/// The file of each writable executable is readable, and reads as that executable again.
pub fn write_law()
    ensures readable { (e : Fields) → HasWords e → is_writable e ≡ true → IsReadable (file_of e) }
    ensures reads_back { (e : Fields) → HasWords e → is_writable e ≡ true
        → elf_of (file_of e) ≡ e }
{}
