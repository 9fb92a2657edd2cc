//! The ELF header, and the headers of programs and sections: the fields that are read, by their
//! names in the System V ABI ("Object Files", "Program Loading").

ghost use Rattle.std.specs.Prelude.{◌≡◌, ◌+◌, ◌<◌, ◌≤◌, length};
ghost use Rattle.elf32_read.specs.Fields as model;
ghost use Rattle.elf32_read.specs.Judging.{HasTables};

use crate::fields::{half_at, word_at};

/// The length of the ELF header in bytes.
pub const FILE_HEADER_SIZE: usize = 52;

/// The length of a program header in bytes.
pub const PROGRAM_HEADER_SIZE: u16 = 32;

/// The length of a section header in bytes.
pub const SECTION_HEADER_SIZE: u16 = 40;

/// The ELF header.
#[derive(Clone, Copy)]
pub struct FileHeader {
    pub e_type: u16,
    pub e_machine: u16,
    pub e_entry: u32,
    pub e_phoff: u32,
    pub e_shoff: u32,
    pub e_flags: u32,
    pub e_phentsize: u16,
    pub e_phnum: u16,
    pub e_shentsize: u16,
    pub e_shnum: u16,
    pub e_shstrndx: u16,
}

/// A program header.
#[derive(Clone, Copy)]
pub struct ProgramHeader {
    pub p_type: u32,
    pub p_offset: u32,
    pub p_vaddr: u32,
    pub p_filesz: u32,
    pub p_memsz: u32,
    pub p_flags: u32,
}

/// A section header.
#[derive(Clone, Copy)]
pub struct SectionHeader {
    pub sh_name: u32,
    pub sh_type: u32,
    pub sh_flags: u32,
    pub sh_addr: u32,
    pub sh_offset: u32,
    pub sh_size: u32,
}

/// The ELF header of a file.
pub fn file_header(file: &[u8]) -> FileHeader
    requires { 52 ≤ length file.now }
    ensures { result ≡ model.file_header file.now }
{
    FileHeader {
        e_type: half_at(file, 16),
        e_machine: half_at(file, 18),
        e_entry: word_at(file, 24),
        e_phoff: word_at(file, 28),
        e_shoff: word_at(file, 32),
        e_flags: word_at(file, 36),
        e_phentsize: half_at(file, 42),
        e_phnum: half_at(file, 44),
        e_shentsize: half_at(file, 46),
        e_shnum: half_at(file, 48),
        e_shstrndx: half_at(file, 50),
    }
}

/// The program header of a number.
pub fn program_header(file: &[u8], header: FileHeader, index: u16) -> ProgramHeader
    requires tables { HasTables file.now header }
    requires index { index < header.e_phnum }
    ensures { result ≡ model.program_header file.now index }
{
    let offset = header.e_phoff as usize + usize::from(PROGRAM_HEADER_SIZE) * usize::from(index);
    ProgramHeader {
        p_type: word_at(file, offset),
        p_offset: word_at(file, offset + 4),
        p_vaddr: word_at(file, offset + 8),
        p_filesz: word_at(file, offset + 16),
        p_memsz: word_at(file, offset + 20),
        p_flags: word_at(file, offset + 24),
    }
}

/// The section header of a number.
pub fn section_header(file: &[u8], header: FileHeader, index: u16) -> SectionHeader
    requires tables { HasTables file.now header }
    requires index { index < header.e_shnum }
    ensures { result ≡ model.section_header file.now index }
{
    let offset = header.e_shoff as usize + usize::from(SECTION_HEADER_SIZE) * usize::from(index);
    SectionHeader {
        sh_name: word_at(file, offset),
        sh_type: word_at(file, offset + 4),
        sh_flags: word_at(file, offset + 8),
        sh_addr: word_at(file, offset + 12),
        sh_offset: word_at(file, offset + 16),
        sh_size: word_at(file, offset + 20),
    }
}
