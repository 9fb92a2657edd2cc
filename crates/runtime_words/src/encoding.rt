//! From what words are in rewritten code to the words.

ghost use Rattle.std.specs.Prelude.{◌≡◌, ◌^◌, ◌<◌, ℕ, Some};
ghost use Rattle.rv32_decode.specs.Fields.{field, imm_i, signed};
ghost use Rattle.runtime_words.specs.Reading.{read_word, width_of_log};

use crate::reading::{CALL, CUSTOM_0, POLL, TRAP_EBREAK, TRAP_FETCH, TRAP_ILLEGAL, TRAP_OFF};
use crate::{RtWord, WordNumber};
use rv32_decode::{Imm12, Reg, Width, encode};

/// The word of `Batch` of a run that only loads, with x0 twice.
const BATCH: u32 = 0x500b;

/// The word of `Prepare` with x0.
const PREPARE: u32 = 0x600b;

/// The word of `Far` of word 0.
const FAR: u32 = 0x700b;

/// The word that reads as this one: no other word of 32 bits does.
#[tactic(auto, using(crate::proofs::WordLemmas::one_word))]
pub fn encode_word(what: RtWord) -> u32
    ensures again { read_word result ≡ Some what }
    ensures only { (word : ℕ) → word < 2 ^ 32 → read_word word ≡ Some what → word ≡ result }
{
    assembled(what)
}

/// A word that reads as this one.
fn assembled(what: RtWord) -> u32
    ensures again { read_word result ≡ Some what }
{
    match what {
        RtWord::Native(i) => encode(i),
        RtWord::MissR { width, rs1, imm } => miss_r_word(width, rs1, imm),
        RtWord::MissW { width, rs1, imm } => miss_w_word(width, rs1, imm),
        RtWord::Poll => POLL,
        RtWord::Call => CALL,
        RtWord::Xjalr { rd, rs1, imm } => xjalr_word(rd, rs1, imm),
        RtWord::Batch { stores, rs1, rs2 } => batch_word(stores, rs1, rs2),
        RtWord::Prepare { rs1 } => prepare_word(rs1),
        RtWord::Far(number) => far_word(number),
        RtWord::TrapFetch => TRAP_FETCH,
        RtWord::TrapOff => TRAP_OFF,
        RtWord::TrapIllegal => TRAP_ILLEGAL,
        RtWord::TrapEbreak => TRAP_EBREAK,
    }
}

/// The word of `MissR`.
fn miss_r_word(width: Width, rs1: Reg, imm: Imm12) -> u32
    ensures { read_word result ≡ Some (RtWord.MissR width rs1 imm) }
{
    custom_0_word(0, logarithm(width), rs1, imm)
}

/// The word of `MissW`.
fn miss_w_word(width: Width, rs1: Reg, imm: Imm12) -> u32
    ensures { read_word result ≡ Some (RtWord.MissW width rs1 imm) }
{
    custom_0_word(1, logarithm(width), rs1, imm)
}

/// The word of `Xjalr`.
fn xjalr_word(rd: Reg, rs1: Reg, imm: Imm12) -> u32
    ensures { read_word result ≡ Some (RtWord.Xjalr rd rs1 imm) }
{
    custom_0_word(4, u32::from(rd.number()), rs1, imm)
}

/// The word of `Batch`.
fn batch_word(stores: bool, rs1: Reg, rs2: Reg) -> u32
    ensures again { read_word result ≡ Some (RtWord.Batch stores rs1 rs2) }
{
    (u32::from(rs2.number()) << 20)
        + (u32::from(rs1.number()) << 15)
        + (u32::from(stores) << 7)
        + BATCH
}

/// The word of `Prepare`.
fn prepare_word(rs1: Reg) -> u32
    ensures { read_word result ≡ Some (RtWord.Prepare rs1) }
{
    (u32::from(rs1.number()) << 15) + PREPARE
}

/// The word of `Far`.
fn far_word(number: WordNumber) -> u32
    ensures { read_word result ≡ Some (RtWord.Far number) }
{
    number.bits() + FAR
}

/// The logarithm of a width.
fn logarithm(width: Width) -> u32
    ensures value { width_of_log result ≡ Some width }
    ensures small { result < 32 }
{
    match width {
        Width::Byte => 0,
        Width::Half => 1,
        Width::Word => 2,
    }
}

/// The word of custom-0 with these fields.
fn custom_0_word(funct3: u32, rd: u32, rs1: Reg, imm: Imm12) -> u32
    requires funct3 { funct3 < 8 }
    requires rd { rd < 32 }
    ensures opcode { field result 0 7 ≡ 0x0b }
    ensures rd { field result 7 5 ≡ rd }
    ensures funct3 { field result 12 3 ≡ funct3 }
    ensures rs1 { field result 15 5 ≡ rs1 }
    ensures imm { imm_i result ≡ imm }
{
    (immediate_bits(imm) << 20)
        + (u32::from(rs1.number()) << 15)
        + (funct3 << 12)
        + (rd << 7)
        + CUSTOM_0
}

/// The immediate as 12 bits of two's complement.
fn immediate_bits(imm: Imm12) -> u32
    ensures small { result < 2 ^ 12 }
    ensures again { signed 12 result ≡ imm }
{
    imm.value().cast_unsigned() & 0xfff
}
