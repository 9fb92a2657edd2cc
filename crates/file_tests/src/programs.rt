//! The program of a file: its lines, its first memory, its code, and what is refused.

use crate::files::{CODE, example};
use elf32_read::read_elf;
use exec_map::{Class, Lines, Program, ProgramRefused, ProgramRule, accept};
use rv32_decode::{Instr, Width};
use std::alloc::{AllocError, Global};
use std::test::Fail;

/// Whether a program has the lines of the file.
fn has_lines(alloc: Global, program: &Program<'_>) -> Result<bool, AllocError> {
    let shared = program.shared_ranges(alloc)?;
    let lines = Lines {
        first: 0x800,
        lines: 1,
    };
    Ok(
        shared.as_slice() == [lines].as_slice()
            && program.class(0x10000 / 64) == Class::ReadOnly
            && program.class(0x20000 / 64) == Class::Shared
            && program.class(0x7fff0000 / 64) == Class::Private,
    )
}

/// Whether a program has the data and the code of the file.
fn has_contents(alloc: Global, program: &Program<'_>) -> Result<bool, AllocError> {
    let mut bytes = Vec::new(alloc);
    program.bytes0(0x20001, 4, &mut bytes)?;
    Ok(
        bytes.as_slice() == b"i\n\0\0".as_slice()
            && program.load0(Width::Word, 0x20000) == 0x000a6968
            && program.code_at(0x10010) == Some(Instr::Ecall)
            && program.next_code(0x1001d).is_none(),
    )
}

#[test]
fn maps_code_and_data(rt: HostRuntime) -> Result<(), Fail> {
    let file = example(rt.alloc(), &CODE)?;
    let executable = read_elf(rt.alloc(), &file)?;
    let program = accept(rt.alloc(), &executable)?;
    if has_lines(rt.alloc(), &program)? && has_contents(rt.alloc(), &program)? {
        return Ok(());
    }
    Err(Fail::from("other lines, other data or other code"))
}

/// The same code with another first word, which is `csrrs x5, cycle, x0`.
static UNSUPPORTED: [u32; 8] = [
    0xc00022f3, 0x00100513, 0x00300613, 0x04000893, 0x00000073, 0x00000513, 0x05d00893, 0x00000073,
];

#[test]
fn refuses_an_unsupported_word(rt: HostRuntime) -> Result<(), Fail> {
    let file = example(rt.alloc(), &UNSUPPORTED)?;
    let executable = read_elf(rt.alloc(), &file)?;
    let refused = accept(rt.alloc(), &executable).err().ok_or("accepted")?;
    let ProgramRefused::Broken(rule) = refused else {
        return Err("out of memory".into());
    };
    let expected = ProgramRule::Unsupported {
        address: 0x10000,
        word: 0xc00022f3,
    };
    if rule == expected && rule.number() == 18 {
        return Ok(());
    }
    Err(Fail::from("another refusal"))
}
