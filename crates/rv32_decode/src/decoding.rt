//! From words to instructions, by the fields of a word.

ghost use Rattle.std.specs.Prelude.{◌≡◌, ◌-◌, ◌^◌, ◌<◌, ◌≤◌, ℕ, ◌⊎◌, count_by};
ghost use Rattle.std.specs.Prelude.{Some};
ghost use Rattle.rv32_decode.specs.Fields.{field, bit};
ghost use Rattle.rv32_decode.specs.Rows.{instruction_of, rows, fits, branch_table, load_table};
ghost use Rattle.rv32_decode.specs.Rows.{store_table, imm_table, shift_table, op_table, amo_table};
ghost use Rattle.rv32_decode.specs.Tables.{entry, entry_of_two};
ghost use Rattle.rv32_decode.specs.Words.{IsInRange, word_of};
ghost use Rattle.rv32_decode.specs.declared.Instr.{Instr};

use crate::parts::{Amount, BranchOffset, FenceBits, Imm12, JumpOffset, Reg, Upper};
use crate::{AmoOp, Cond, IllegalWord, ImmOp, Instr, LoadKind, Op, ShiftOp, Width, opcodes};

/// The instruction of a word; None exactly where no row of the instruction table fits the word.
#[tactic(auto, using(crate::proofs::Groups::opcodes_alone))]
pub fn decode(word: u32) -> Option<Instr>
    ensures { result ≡ instruction_of word }
{
    match opcode(word) {
        opcodes::LUI => Some(Instr::Lui {
            rd: Reg::of(word, 7),
            upper: Upper::of(word),
        }),
        opcodes::AUIPC => Some(Instr::Auipc {
            rd: Reg::of(word, 7),
            upper: Upper::of(word),
        }),
        opcodes::JAL => Some(Instr::Jal {
            rd: Reg::of(word, 7),
            offset: JumpOffset::of(word),
        }),
        opcodes::JALR => jalr(word),
        opcodes::BRANCH => branch(word),
        opcodes::LOAD => load(word),
        opcodes::STORE => store(word),
        opcodes::OP_IMM => op_imm(word),
        opcodes::OP => op(word),
        opcodes::MISC_MEM => misc_mem(word),
        opcodes::AMO => amo(word),
        opcodes::SYSTEM => system(word),
        // no major opcodes, but those of the words that are accepted as illegal
        0 | 0x7f => illegal(word),
        _ => None,
    }
}

/// At most one row of the instruction table fits a word.
pub fn rows_law()
    ensures { (word : ℕ) → count_by (fits word) rows ≤ 1 }
{}

/// The parts of the instruction of any word are within the ranges of their types.
pub fn ranges_law()
    ensures { (word : ℕ) (i : Instr) → instruction_of word ≡ Some i → IsInRange i }
{}

/// A word that has an instruction is that instruction's word.
pub fn words_law()
    ensures words { (word : ℕ) (i : Instr) → word < 2 ^ 32 → instruction_of word ≡ Some i
        → word ≡ word_of i }
{}

fn opcode(word: u32) -> u32
    ensures { result ≡ field word 0 7 }
{
    word & 0x7f
}

fn funct3(word: u32) -> u32
    ensures { result ≡ field word 12 3 }
{
    (word >> 12) & 7
}

fn funct5(word: u32) -> u32
    ensures { result ≡ field word 27 5 }
{
    word >> 27
}

fn funct7(word: u32) -> u32
    ensures { result ≡ field word 25 7 }
{
    word >> 25
}

fn flag(word: u32, place: u32) -> bool
    requires { place < 32 }
    ensures { result ≡ bit word place }
{
    (word >> place) & 1 == 1
}

#[tactic(auto, using(crate::proofs::Reading::jalr_some, crate::proofs::Reading::jalr_none))]
fn jalr(word: u32) -> Option<Instr>
    requires { field word 0 7 ≡ 0x67 }
    ensures { result ≡ instruction_of word }
{
    if funct3(word) == 0 {
        Some(Instr::Jalr {
            rd: Reg::of(word, 7),
            rs1: Reg::of(word, 15),
            imm: Imm12::of_load(word),
        })
    } else {
        None
    }
}

#[tactic(auto, using(crate::proofs::Reading::branch_some, crate::proofs::Reading::branch_none))]
fn branch(word: u32) -> Option<Instr>
    requires { field word 0 7 ≡ 0x63 }
    ensures { result ≡ instruction_of word }
{
    let cond = condition(funct3(word))?;
    Some(Instr::Branch {
        cond,
        rs1: Reg::of(word, 15),
        rs2: Reg::of(word, 20),
        offset: BranchOffset::of(word),
    })
}

fn condition(funct3: u32) -> Option<Cond>
    ensures { result ≡ entry branch_table funct3 }
{
    match funct3 {
        0 => Some(Cond::Eq),
        1 => Some(Cond::Ne),
        4 => Some(Cond::Lt),
        5 => Some(Cond::Ge),
        6 => Some(Cond::Ltu),
        7 => Some(Cond::Geu),
        _ => None,
    }
}

#[tactic(auto, using(crate::proofs::Reading::load_some, crate::proofs::Reading::load_none))]
fn load(word: u32) -> Option<Instr>
    requires { field word 0 7 ≡ 0x03 }
    ensures { result ≡ instruction_of word }
{
    let kind = load_kind(funct3(word))?;
    Some(Instr::Load {
        kind,
        rd: Reg::of(word, 7),
        rs1: Reg::of(word, 15),
        imm: Imm12::of_load(word),
    })
}

fn load_kind(funct3: u32) -> Option<LoadKind>
    ensures { result ≡ entry load_table funct3 }
{
    match funct3 {
        0 => Some(LoadKind::Byte),
        1 => Some(LoadKind::Half),
        2 => Some(LoadKind::Word),
        4 => Some(LoadKind::ByteU),
        5 => Some(LoadKind::HalfU),
        _ => None,
    }
}

#[tactic(auto, using(crate::proofs::Reading::store_some, crate::proofs::Reading::store_none))]
fn store(word: u32) -> Option<Instr>
    requires { field word 0 7 ≡ 0x23 }
    ensures { result ≡ instruction_of word }
{
    let width = store_width(funct3(word))?;
    Some(Instr::Store {
        width,
        rs1: Reg::of(word, 15),
        rs2: Reg::of(word, 20),
        imm: Imm12::of_store(word),
    })
}

fn store_width(funct3: u32) -> Option<Width>
    ensures { result ≡ entry store_table funct3 }
{
    match funct3 {
        0 => Some(Width::Byte),
        1 => Some(Width::Half),
        2 => Some(Width::Word),
        _ => None,
    }
}

#[tactic(auto, using(crate::proofs::Reading::immediates))]
fn op_imm(word: u32) -> Option<Instr>
    requires { field word 0 7 ≡ 0x13 }
    ensures { result ≡ instruction_of word }
{
    match immediate_operation(funct3(word)) {
        Some(op) => Some(Instr::OpImm {
            op,
            rd: Reg::of(word, 7),
            rs1: Reg::of(word, 15),
            imm: Imm12::of_load(word),
        }),
        None => {
            let op = shift(funct7(word), funct3(word))?;
            Some(Instr::ShiftImm {
                op,
                rd: Reg::of(word, 7),
                rs1: Reg::of(word, 15),
                amount: Amount::of(word),
            })
        }
    }
}

fn immediate_operation(funct3: u32) -> Option<ImmOp>
    ensures { result ≡ entry imm_table funct3 }
{
    match funct3 {
        0 => Some(ImmOp::Add),
        2 => Some(ImmOp::Slt),
        3 => Some(ImmOp::Sltu),
        4 => Some(ImmOp::Xor),
        6 => Some(ImmOp::Or),
        7 => Some(ImmOp::And),
        _ => None,
    }
}

fn shift(funct7: u32, funct3: u32) -> Option<ShiftOp>
    ensures { result ≡ entry_of_two shift_table funct7 funct3 }
{
    match (funct7, funct3) {
        (0, 1) => Some(ShiftOp::Sll),
        (0, 5) => Some(ShiftOp::Srl),
        (0x20, 5) => Some(ShiftOp::Sra),
        _ => None,
    }
}

#[tactic(auto, using(crate::proofs::Reading::op_some, crate::proofs::Reading::op_none))]
fn op(word: u32) -> Option<Instr>
    requires { field word 0 7 ≡ 0x33 }
    ensures { result ≡ instruction_of word }
{
    let op = operation(funct7(word), funct3(word))?;
    Some(Instr::Op {
        op,
        rd: Reg::of(word, 7),
        rs1: Reg::of(word, 15),
        rs2: Reg::of(word, 20),
    })
}

fn operation(funct7: u32, funct3: u32) -> Option<Op>
    ensures { result ≡ entry_of_two op_table funct7 funct3 }
{
    match (funct7, funct3) {
        (0, 0) => Some(Op::Add),
        (0x20, 0) => Some(Op::Sub),
        (0, 1) => Some(Op::Sll),
        (0, 2) => Some(Op::Slt),
        (0, 3) => Some(Op::Sltu),
        (0, 4) => Some(Op::Xor),
        (0, 5) => Some(Op::Srl),
        (0x20, 5) => Some(Op::Sra),
        (0, 6) => Some(Op::Or),
        (0, 7) => Some(Op::And),
        (1, 0) => Some(Op::Mul),
        (1, 1) => Some(Op::Mulh),
        (1, 2) => Some(Op::Mulhsu),
        (1, 3) => Some(Op::Mulhu),
        (1, 4) => Some(Op::Div),
        (1, 5) => Some(Op::Divu),
        (1, 6) => Some(Op::Rem),
        (1, 7) => Some(Op::Remu),
        _ => None,
    }
}

#[tactic(auto, using(crate::proofs::Reading::fence_some, crate::proofs::Reading::fence_none))]
fn misc_mem(word: u32) -> Option<Instr>
    requires { field word 0 7 ≡ 0x0f }
    ensures { result ≡ instruction_of word }
{
    if funct3(word) == 0 {
        Some(Instr::Fence {
            rd: Reg::of(word, 7),
            rs1: Reg::of(word, 15),
            bits: FenceBits::of(word),
        })
    } else {
        None
    }
}

#[tactic(auto, using(crate::proofs::Groups::amo_width_is))]
fn amo(word: u32) -> Option<Instr>
    requires { field word 0 7 ≡ 0x2f }
    ensures { result ≡ instruction_of word }
{
    if funct3(word) == 2 {
        atomic(word)
    } else {
        None
    }
}

/// The instructions of AMO on words.
#[tactic(auto, using(crate::proofs::Reading::atomics))]
fn atomic(word: u32) -> Option<Instr>
    requires opcode { field word 0 7 ≡ 0x2f }
    requires width { field word 12 3 ≡ 2 }
    ensures { result ≡ instruction_of word }
{
    match funct5(word) {
        2 => load_reserved(word),
        3 => Some(Instr::Sc {
            rd: Reg::of(word, 7),
            rs1: Reg::of(word, 15),
            rs2: Reg::of(word, 20),
            aq: flag(word, 26),
            rl: flag(word, 25),
        }),
        code => {
            let op = atomic_operation(code)?;
            Some(Instr::Amo {
                op,
                rd: Reg::of(word, 7),
                rs1: Reg::of(word, 15),
                rs2: Reg::of(word, 20),
                aq: flag(word, 26),
                rl: flag(word, 25),
            })
        }
    }
}

#[tactic(auto, using(crate::proofs::Reading::lr_some, crate::proofs::Reading::lr_none))]
fn load_reserved(word: u32) -> Option<Instr>
    requires opcode { field word 0 7 ≡ 0x2f }
    requires width { field word 12 3 ≡ 2 }
    requires funct5 { field word 27 5 ≡ 2 }
    ensures { result ≡ instruction_of word }
{
    if Reg::of(word, 20).number() == 0 {
        Some(Instr::Lr {
            rd: Reg::of(word, 7),
            rs1: Reg::of(word, 15),
            aq: flag(word, 26),
            rl: flag(word, 25),
        })
    } else {
        None
    }
}

fn atomic_operation(funct5: u32) -> Option<AmoOp>
    ensures { result ≡ entry amo_table funct5 }
{
    match funct5 {
        1 => Some(AmoOp::Swap),
        0 => Some(AmoOp::Add),
        4 => Some(AmoOp::Xor),
        12 => Some(AmoOp::And),
        8 => Some(AmoOp::Or),
        16 => Some(AmoOp::Min),
        20 => Some(AmoOp::Max),
        24 => Some(AmoOp::Minu),
        28 => Some(AmoOp::Maxu),
        _ => None,
    }
}

#[tactic(auto, using(crate::proofs::Reading::system_words))]
fn system(word: u32) -> Option<Instr>
    requires { field word 0 7 ≡ 0x73 }
    ensures { result ≡ instruction_of word }
{
    match word {
        0x73 => Some(Instr::Ecall),
        0x10_0073 => Some(Instr::Ebreak),
        0xc000_1073 => Some(Instr::Illegal {
            word: IllegalWord::CycleWrite,
        }),
        _ => None,
    }
}

#[tactic(auto, using(crate::proofs::Reading::illegal_words))]
fn illegal(word: u32) -> Option<Instr>
    requires { (field word 0 7 ≡ 0) ⊎ (field word 0 7 ≡ 0x7f) }
    ensures { result ≡ instruction_of word }
{
    match word {
        0 => Some(Instr::Illegal {
            word: IllegalWord::Zeros,
        }),
        0xffff_ffff => Some(Instr::Illegal {
            word: IllegalWord::Ones,
        }),
        _ => None,
    }
}
