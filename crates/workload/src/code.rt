//! The code that a number makes, part by part.

ghost use Rattle.std.specs.Prelude.{◌≡◌, ◌*◌, ◌/◌, ◌%◌, ◌<◌, ◌≤◌, ◌++◌, IfOk, OnOk, length};
ghost use Rattle.workload.specs.Generated as model;

use crate::assembler::{add, addi, amoadd, beq, blt, bne, jump, lui, lw, sb, slli, srli, sw};
use random_order::after;
use rv32_decode::Instr;
use std::alloc::{AllocError, Global};

/// How many groups there are.
const GROUP_COUNT: u32 = 8000;

/// The code of a number.
pub fn instructions(alloc: Global, number: u32) -> Result<Vec<Instr>, AllocError>
    ensures { IfOk result (λ code. code.items ≡ model.instructions number) }
{
    let groups = groups(alloc, number)?;
    let mut code = Vec::new(alloc);
    code.extend_from_slice(&opening())?;
    code.extend_from_slice(&groups)?;
    code.extend_from_slice(&again(groups.len()))?;
    code.extend_from_slice(&meeting())?;
    code.extend_from_slice(&summing())?;
    code.extend_from_slice(&writing())?;
    code.extend_from_slice(&leaving())?;
    Ok(code)
}

/// The groups, of the numbers that follow one.
fn groups(alloc: Global, number: u32) -> Result<Vec<Instr>, AllocError>
    ensures items { IfOk result (λ code. code.items ≡ model.groups model.group_count number) }
    ensures few { IfOk result (λ code. length code.items ≤ 3 * model.group_count) }
{
    let mut code = Vec::new(alloc);
    let mut ahead = number;
    for _group in 0..GROUP_COUNT {
        ahead = after(ahead);
        push_group(&mut code, ahead)?;
    }
    Ok(code)
}

/// Appends the group of a number.
fn push_group(code: &mut Vec<Instr>, number: u32) -> Result<(), AllocError>
    ensures { OnOk result (code.new.items ≡ code.old.items ++ model.group_of number) }
{
    let base = page_register(number);
    let offset = offset_of(number);
    match number >> 30 {
        0 => code.push(lw(12, offset.into(), base))?,
        1 => code.extend_from_slice(&[
            addi(13, 0, addend_of(number).into()),
            addi(14, base, offset.into()),
            amoadd(13, 14),
        ])?,
        2 => code.extend_from_slice(&[
            lw(12, offset.into(), base),
            lw(15, beside(offset).into(), base),
        ])?,
        _ => code.push(sw(13, -4 - i32::from(offset), 2))?,
    }
    Ok(())
}

/// The register that holds the address of a number's page.
fn page_register(number: u32) -> u8
    ensures value { result ≡ model.base_of number }
    ensures register { result < 32 }
{
    match (number >> 26) % 4 {
        0 => 8,
        1 => 18,
        2 => 19,
        _ => 20,
    }
}

/// The offset of a number's word in its page.
fn offset_of(number: u32) -> u16
    ensures value { result ≡ model.offset_of number }
    ensures word { result % 4 ≡ 0 }
    ensures within { result ≤ 2044 }
{
    ((number >> 16) % 512 * 4) as u16
}

/// The offset of the word beside one, of a pair.
fn beside(offset: u16) -> u16
    requires word { offset % 4 ≡ 0 }
    requires within { offset ≤ 2044 }
    ensures value { result ≡ model.beside offset }
    ensures within { result ≤ 2044 }
{
    if offset / 4 % 2 == 0 {
        offset + 4
    } else {
        offset - 4
    }
}

/// What a number adds.
fn addend_of(number: u32) -> u8
    ensures { result ≡ model.addend_of number }
{
    ((number >> 8) % 256) as u8
}

/// The addresses of the pages, and that the groups are executed twice.
fn opening() -> [Instr; 6]
    ensures { result ≡ model.opening }
{
    [
        lui(8, 0x200),
        lui(18, 0x201),
        lui(19, 0x202),
        lui(20, 0x203),
        addi(9, 0, 2),
        addi(13, 0, 0),
    ]
}

/// Back to the groups, which take `words` words, until they have been executed twice.
fn again(words: usize) -> [Instr; 3]
    requires { words ≤ 3 * model.group_count }
    ensures { result ≡ model.again words }
{
    [addi(9, 9, -1), beq(9, 0, 8), jump(-4 * (words as i32 + 2))]
}

/// Each processor counts itself; the first one waits until all have, and the others go on to the
/// exit.
fn meeting() -> [Instr; 6]
    ensures { result ≡ model.meeting }
{
    [
        lui(5, 0x204),
        addi(6, 0, 1),
        amoadd(6, 5),
        bne(10, 0, 140),
        lw(7, 0, 5),
        bne(7, 11, -4),
    ]
}

/// The sum of the first 512 words of each of the four pages.
fn summing() -> [Instr; 13]
    ensures { result ≡ model.summing }
{
    [
        addi(16, 0, 0),
        addi(21, 0, 4),
        addi(22, 0, 512),
        addi(23, 8, 0),
        lw(24, 0, 23),
        add(16, 16, 24),
        addi(23, 23, 4),
        addi(22, 22, -1),
        bne(22, 0, -16),
        lui(25, 1),
        add(8, 8, 25),
        addi(21, 21, -1),
        bne(21, 0, -40),
    ]
}

/// The sum's eight hexadecimal digits and a line feed, written.
fn writing() -> [Instr; 19]
    ensures { result ≡ model.writing }
{
    [
        addi(22, 0, 8),
        addi(23, 5, 64),
        srli(24, 16, 28),
        slli(16, 16, 4),
        addi(26, 24, -10),
        addi(24, 24, 48),
        blt(26, 0, 8),
        addi(24, 24, 39),
        sb(24, 0, 23),
        addi(23, 23, 1),
        addi(22, 22, -1),
        bne(22, 0, -36),
        addi(24, 0, 10),
        sb(24, 0, 23),
        addi(10, 0, 1),
        addi(11, 5, 64),
        addi(12, 0, 9),
        addi(17, 0, 64),
        Instr::Ecall,
    ]
}

/// The exit, with code 0.
fn leaving() -> [Instr; 3]
    ensures { result ≡ model.leaving }
{
    [addi(10, 0, 0), addi(17, 0, 93), Instr::Ecall]
}
