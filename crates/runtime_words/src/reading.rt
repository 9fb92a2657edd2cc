//! From words to what they are in rewritten code.

ghost use Rattle.std.specs.Prelude.{◌≡◌, ◌^◌, ◌<◌};
ghost use Rattle.std.specs.Option.{option_map};
ghost use Rattle.rv32_decode.specs.Rows.{instruction_of};
ghost use Rattle.rv32_decode.specs.Fields.{field, imm_i, signed};
ghost use Rattle.runtime_words.specs.Reading.{read_word, custom_0, custom_1, batch_of, prepare_of};
ghost use Rattle.runtime_words.specs.Reading.{width_of_log};

use crate::{RtWord, WordNumber};
use rv32_decode::{Imm12, Reg, Width, decode};

/// The major opcode custom-0.
pub(crate) const CUSTOM_0: u32 = 0x0b;

/// The major opcode custom-1.
const CUSTOM_1: u32 = 0x2b;

/// The word of `Poll`.
pub(crate) const POLL: u32 = 0x200b;

/// The word of `Call`.
pub(crate) const CALL: u32 = 0x300b;

/// The word of `TrapFetch`.
pub(crate) const TRAP_FETCH: u32 = 0x2b;

/// The word of `TrapOff`.
pub(crate) const TRAP_OFF: u32 = 0x102b;

/// The word of `TrapIllegal`.
pub(crate) const TRAP_ILLEGAL: u32 = 0x202b;

/// The word of `TrapEbreak`.
pub(crate) const TRAP_EBREAK: u32 = 0x302b;

/// What a word is in rewritten code; None where it is no word of it.
pub fn read_word(word: u32) -> Option<RtWord>
    ensures { result ≡ read_word word }
{
    let opcode = opcode(word);
    if opcode == CUSTOM_0 {
        read_custom_0(word)
    } else if opcode == CUSTOM_1 {
        read_custom_1(word)
    } else {
        read_native(word)
    }
}

/// The major opcode of a word.
fn opcode(word: u32) -> u32
    ensures { result ≡ field word 0 7 }
{
    word & 0x7f
}

/// The instruction of a word.
fn read_native(word: u32) -> Option<RtWord>
    ensures { result ≡ option_map RtWord.Native (instruction_of word) }
{
    Some(RtWord::Native(decode(word)?))
}

/// What a word of custom-0 is.
fn read_custom_0(word: u32) -> Option<RtWord>
    ensures { result ≡ custom_0 word (field word 12 3) }
{
    let rd = register(word, 7);
    let rs1 = register(word, 15);
    let imm = immediate(word);
    match (word >> 12) & 7 {
        0 => Some(RtWord::MissR {
            width: width_of(rd.number())?,
            rs1,
            imm,
        }),
        1 => Some(RtWord::MissW {
            width: width_of(rd.number())?,
            rs1,
            imm,
        }),
        _ if word == POLL => Some(RtWord::Poll),
        _ if word == CALL => Some(RtWord::Call),
        4 => Some(RtWord::Xjalr { rd, rs1, imm }),
        5 => read_batch(word),
        6 => read_prepare(word),
        7 => Some(RtWord::Far(WordNumber::of(word))),
        _ => None,
    }
}

/// What a word of custom-0 with the funct3 of batch is.
fn read_batch(word: u32) -> Option<RtWord>
    ensures value { result ≡ batch_of word }
{
    let stores = (word >> 7) & 0x1f;
    if stores < 2 && word >> 25 == 0 {
        Some(RtWord::Batch {
            stores: stores == 1,
            rs1: register(word, 15),
            rs2: register(word, 20),
        })
    } else {
        None
    }
}

/// What a word of custom-0 with the funct3 of sc.prepare is.
fn read_prepare(word: u32) -> Option<RtWord>
    ensures { result ≡ prepare_of word }
{
    if (word >> 7) & 0x1f == 0 && word >> 20 == 0 {
        Some(RtWord::Prepare {
            rs1: register(word, 15),
        })
    } else {
        None
    }
}

/// What a word of custom-1 is.
fn read_custom_1(word: u32) -> Option<RtWord>
    ensures { result ≡ custom_1 word }
{
    match word {
        TRAP_FETCH => Some(RtWord::TrapFetch),
        TRAP_OFF => Some(RtWord::TrapOff),
        TRAP_ILLEGAL => Some(RtWord::TrapIllegal),
        TRAP_EBREAK => Some(RtWord::TrapEbreak),
        _ => None,
    }
}

/// The register that a word names from a place on.
fn register(word: u32, low: u32) -> Reg
    requires { low < 28 }
    ensures { result ≡ field word low 5 }
{
    Reg::new(((word >> low) & 0x1f) as u8)
}

/// The immediate of format I.
fn immediate(word: u32) -> Imm12
    ensures { result ≡ imm_i word }
{
    imm_of_bits(word >> 20)
}

/// The number of 12 bits of two's complement.
pub fn imm_of_bits(bits: u32) -> Imm12
    requires { bits < 2 ^ 12 }
    ensures { result ≡ signed 12 bits }
{
    if bits < 0x800 {
        Imm12::new(bits as i32)
    } else {
        Imm12::new(bits as i32 - 0x1000)
    }
}

/// The width that has this logarithm.
fn width_of(logarithm: u8) -> Option<Width>
    ensures { result ≡ width_of_log logarithm }
{
    match logarithm {
        0 => Some(Width::Byte),
        1 => Some(Width::Half),
        2 => Some(Width::Word),
        _ => None,
    }
}
