//! Why a file is refused.

ghost use Rattle.std.specs.Prelude.{◌≡◌};

use std::alloc::AllocError;
use thiserror::Error;

/// The rules that refuse a file, in the order in which they are judged.
///
/// Program headers are numbered from 0.
#[derive(Clone, Copy, Debug, PartialEq, Eq)]
pub enum FileRule {
    /// The file has fewer than 52 bytes.
    Short,
    /// The file does not begin with the magic number.
    NotElf,
    /// The file is not one of 32 bits, little-endian and of version 1.
    NotElf32,
    /// The type (e_type) is not that of an executable.
    NotExec { kind: u16 },
    /// The machine (e_machine) is not RISC-V.
    NotRiscv { machine: u16 },
    /// The processor's flags (e_flags) have one besides 0x10.
    Flags { value: u32 },
    /// There is no program header, or they are not of 32 bytes or not all in the file.
    ProgramTable,
    /// There are section headers that are not of 40 bytes or not all in the file.
    SectionTable,
    /// The program header asks for a dynamic linker or an interpreter.
    Dynamic { header: u16 },
    /// The file does not have all bytes of the loadable segment.
    SegmentOutside { header: u16 },
    /// The loadable segment has more bytes in the file than in memory, or ends above 2^32.
    SegmentSizes { header: u16 },
}

impl FileRule {
    ghost use Rattle.elf32_read.specs.Refusals.{number_of};

    /// The number of the refusal: 1 to 11.
    pub fn number(self) -> u8
        ensures value { result ≡ number_of self }
    {
        match self {
            FileRule::Short => 1,
            FileRule::NotElf => 2,
            FileRule::NotElf32 => 3,
            FileRule::NotExec { .. } => 4,
            FileRule::NotRiscv { .. } => 5,
            FileRule::Flags { .. } => 6,
            FileRule::ProgramTable => 7,
            FileRule::SectionTable => 8,
            FileRule::Dynamic { .. } => 9,
            FileRule::SegmentOutside { .. } => 10,
            FileRule::SegmentSizes { .. } => 11,
        }
    }
}

/// Why there is no executable.
#[derive(Debug, Drop, Error)]
pub enum ElfRefused {
    /// The rule fits the file, and none before it.
    #[error("{0:?}")]
    Broken(FileRule),
    /// There was no memory for the lists of segments and sections.
    #[error("out of memory")]
    OutOfMemory,
}

impl From<AllocError> for ElfRefused {
    ghost use Rattle.std.specs.Prelude.{◌≡◌};
    ghost use Rattle.elf32_read.specs.declared.refused.ElfRefused.TheVariants.{OutOfMemory};

    ghost from_gives = { λ _ e. e ≡ OutOfMemory };

    fn from(_error: AllocError) -> ElfRefused {
        ElfRefused::OutOfMemory
    }
}
