//! The rules that a file is judged by.

ghost use Rattle.std.specs.Prelude.{◌≡◌, ◌+◌, ◌≤◌, position, length, IfSome, IfNone};
ghost use Rattle.std.specs.Prelude.{Some};
ghost use Rattle.elf32_read.specs.Fields as fields;
ghost use Rattle.elf32_read.specs.Refusals as model;
ghost use Rattle.elf32_read.specs.Reading as reading;
ghost use Rattle.elf32_read.specs.Judging.{HasTables, NoRuleBelow};

use crate::FileRule;
use crate::headers::{
    FILE_HEADER_SIZE, FileHeader, PROGRAM_HEADER_SIZE, ProgramHeader, SECTION_HEADER_SIZE,
    file_header, program_header,
};
use crate::limits::{ADDRESS_END, TOTAL_STORE_ORDER};

/// The type of an executable.
const EXECUTABLE: u16 = 2;

/// The machine RISC-V.
const RISCV: u16 = 243;

const LOADABLE: u32 = 1;

const DYNAMIC_LINKING: u32 = 2;

const INTERPRETER: u32 = 3;

/// The first rule that fits the file.
pub fn first_broken(file: &[u8]) -> Option<FileRule>
    ensures some { IfSome result (model.IsRefusedBy file.now) }
    ensures none { IfNone result (model.IsReadable file.now) }
{
    if let Some(rule) = broken_by_start(file) {
        return Some(rule);
    }
    let header = file_header(file);
    if let Some(rule) = broken_by_header(file, header) {
        return Some(rule);
    }
    broken_by_segments(file, header)
}

/// The first rule on the first bytes that fits.
fn broken_by_start(file: &[u8]) -> Option<FileRule>
    ensures some { IfSome result (model.IsRefusedBy file.now) }
    ensures none { IfNone result (NoRuleBelow file.now 4) }
    ensures long { IfNone result (52 ≤ length file.now) }
{
    if file.len() < FILE_HEADER_SIZE {
        return Some(FileRule::Short);
    }
    if !is_elf(file) {
        return Some(FileRule::NotElf);
    }
    if !is_elf32(file) {
        return Some(FileRule::NotElf32);
    }
    None
}

/// Whether the file begins with the magic number.
fn is_elf(file: &[u8]) -> bool
    ensures { result ≡ model.is_elf file.now }
{
    file.starts_with(&[0x7f, b'E', b'L', b'F'])
}

/// Whether the file is one of 32 bits, little-endian and of version 1.
fn is_elf32(file: &[u8]) -> bool
    requires { 52 ≤ length file.now }
    ensures { result ≡ model.is_elf32 file.now }
{
    file[4] == 1 && file[5] == 1 && file[6] == 1
}

/// The first rule on the ELF header that fits, of those from that on its type on.
fn broken_by_header(file: &[u8], header: FileHeader) -> Option<FileRule>
    requires header { header ≡ fields.file_header file.now }
    requires before { NoRuleBelow file.now 4 }
    ensures some { IfSome result (model.IsRefusedBy file.now) }
    ensures none { IfNone result (NoRuleBelow file.now 9) }
    ensures tables { IfNone result (HasTables file.now header) }
{
    let kind = header.e_type;
    if kind != EXECUTABLE {
        return Some(FileRule::NotExec { kind });
    }
    let machine = header.e_machine;
    if machine != RISCV {
        return Some(FileRule::NotRiscv { machine });
    }
    let value = header.e_flags;
    if value != 0 && value != TOTAL_STORE_ORDER {
        return Some(FileRule::Flags { value });
    }
    if !has_program_table(file, header) {
        return Some(FileRule::ProgramTable);
    }
    if !has_section_table(file, header) {
        return Some(FileRule::SectionTable);
    }
    None
}

/// Whether there are program headers, and the file has all of them.
fn has_program_table(file: &[u8], header: FileHeader) -> bool
    requires { header ≡ fields.file_header file.now }
    ensures { result ≡ model.has_program_table file.now }
{
    let size = u32::from(PROGRAM_HEADER_SIZE) * u32::from(header.e_phnum);
    header.e_phnum != 0
        && header.e_phentsize == PROGRAM_HEADER_SIZE
        && has_range(file, header.e_phoff, size)
}

/// Whether there are no section headers, or the file has all of them.
fn has_section_table(file: &[u8], header: FileHeader) -> bool
    requires { header ≡ fields.file_header file.now }
    ensures { result ≡ model.has_section_table file.now }
{
    let size = u32::from(SECTION_HEADER_SIZE) * u32::from(header.e_shnum);
    header.e_shnum == 0
        || header.e_shentsize == SECTION_HEADER_SIZE && has_range(file, header.e_shoff, size)
}

/// Whether `size` bytes from an offset on are in the file.
pub fn has_range(file: &[u8], offset: u32, size: u32) -> bool
    ensures { result ≡ reading.has_range file.now offset size }
{
    u64::from(offset) + u64::from(size) <= file.len() as u64
}

/// The first rule on program headers that fits. Each rule is judged on all headers before the next.
fn broken_by_segments(file: &[u8], header: FileHeader) -> Option<FileRule>
    requires tables { HasTables file.now header }
    requires before { NoRuleBelow file.now 9 }
    ensures some { IfSome result (model.IsRefusedBy file.now) }
    ensures none { IfNone result (model.IsReadable file.now) }
{
    if let Some(header) = first_dynamic(file, header) {
        return Some(FileRule::Dynamic { header });
    }
    if let Some(header) = first_outside(file, header) {
        return Some(FileRule::SegmentOutside { header });
    }
    let header = first_of_wrong_sizes(file, header)?;
    Some(FileRule::SegmentSizes { header })
}

/// The first program header that asks for a dynamic linker or an interpreter.
fn first_dynamic(file: &[u8], header: FileHeader) -> Option<u16>
    requires { HasTables file.now header }
    ensures { result ≡ position model.is_dynamic (fields.program_headers file.now) }
{
    for index in 0..header.e_phnum {
        if is_dynamic(program_header(file, header, index)) {
            return Some(index);
        }
    }
    None
}

/// The first program header of a loadable segment whose bytes are not all in the file.
fn first_outside(file: &[u8], header: FileHeader) -> Option<u16>
    requires { HasTables file.now header }
    ensures { result ≡ position (model.is_outside file.now) (fields.program_headers file.now) }
{
    for index in 0..header.e_phnum {
        if is_outside(file, program_header(file, header, index)) {
            return Some(index);
        }
    }
    None
}

/// The first program header of a loadable segment whose sizes are wrong.
fn first_of_wrong_sizes(file: &[u8], header: FileHeader) -> Option<u16>
    requires { HasTables file.now header }
    ensures { result ≡ position model.has_wrong_sizes (fields.program_headers file.now) }
{
    for index in 0..header.e_phnum {
        if has_wrong_sizes(program_header(file, header, index)) {
            return Some(index);
        }
    }
    None
}

/// Whether the header asks for a dynamic linker or an interpreter.
fn is_dynamic(h: ProgramHeader) -> bool
    ensures { result ≡ model.is_dynamic h }
{
    h.p_type == DYNAMIC_LINKING || h.p_type == INTERPRETER
}

/// Whether the header is that of a loadable segment.
pub fn is_load(h: ProgramHeader) -> bool
    ensures { result ≡ reading.is_load h }
{
    h.p_type == LOADABLE
}

/// Whether the header is that of a loadable segment whose bytes are not all in the file.
fn is_outside(file: &[u8], h: ProgramHeader) -> bool
    ensures { result ≡ model.is_outside file.now h }
{
    is_load(h) && !has_range(file, h.p_offset, h.p_filesz)
}

/// Whether the header is that of a loadable segment that has more bytes in the file than in memory,
/// or that ends above all addresses.
fn has_wrong_sizes(h: ProgramHeader) -> bool
    ensures { result ≡ model.has_wrong_sizes h }
{
    is_load(h)
        && (h.p_filesz > h.p_memsz || u64::from(h.p_vaddr) + u64::from(h.p_memsz) > ADDRESS_END)
}
