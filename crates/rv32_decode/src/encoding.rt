//! From instructions to words, by the six formats.

ghost use Rattle.std.specs.Prelude.{◌≡◌, ◌+◌, ◌^◌, ◌<◌, ℕ, Some};
ghost use Rattle.rv32_decode.specs.Codes.{branch_code, load_code, store_code, imm_code};
ghost use Rattle.rv32_decode.specs.Codes.{shift_codes, op_codes, amo_code, illegal_word, ordered};
ghost use Rattle.rv32_decode.specs.Formats.{r_word, i_word, s_word, b_word, u_word, j_word};
ghost use Rattle.rv32_decode.specs.Rows.{instruction_of};
ghost use Rattle.rv32_decode.specs.Words.{word_of, IsInRange};

use crate::opcodes::{AMO, AUIPC, BRANCH, JAL, JALR, LOAD, LUI, MISC_MEM, OP, OP_IMM, STORE};
use crate::parts::{Amount, Reg};
use crate::{AmoOp, Cond, IllegalWord, ImmOp, Instr, LoadKind, Op, ShiftOp, Width};

#[tactic(auto, using(crate::proofs::Again::word_again, crate::proofs::Rebuilt::only_word))]
/// The word of an instruction.
pub fn encode(i: Instr) -> u32
    ensures again { instruction_of result ≡ Some i }
    ensures only { (word : ℕ) → word < 2 ^ 32 → instruction_of word ≡ Some i → word ≡ result }
{
    formatted(i)
}

/// The word of an instruction, by its format.
fn formatted(i: Instr) -> u32
    ensures word { result ≡ word_of i }
    ensures ranges { IsInRange i }
{
    match i {
        Instr::Lui { rd, upper } => format_u(upper.value(), rd, LUI),
        Instr::Auipc { rd, upper } => format_u(upper.value(), rd, AUIPC),
        Instr::Jal { rd, offset } => format_j(offset.bits(), rd, JAL),
        Instr::Jalr { rd, rs1, imm } => format_i(imm.bits(), rs1, 0, rd, JALR),
        Instr::Branch {
            cond,
            rs1,
            rs2,
            offset,
        } => format_b(offset.bits(), rs2, rs1, branch_code(cond), BRANCH),
        Instr::Load { kind, rd, rs1, imm } => format_i(imm.bits(), rs1, load_code(kind), rd, LOAD),
        Instr::Store {
            width,
            rs1,
            rs2,
            imm,
        } => format_s(imm.bits(), rs2, rs1, store_code(width), STORE),
        Instr::OpImm { op, rd, rs1, imm } => format_i(
            imm.bits(),
            rs1,
            immediate_code(op),
            rd,
            OP_IMM,
        ),
        Instr::ShiftImm {
            op,
            rd,
            rs1,
            amount,
        } => format_shift(op, amount, rs1, rd),
        Instr::Op { op, rd, rs1, rs2 } => {
            let (funct7, funct3) = operation_codes(op);
            format_r(funct7, rs2, rs1, funct3, rd, OP)
        }
        Instr::Fence { rd, rs1, bits } => format_i(u32::from(bits.value()), rs1, 0, rd, MISC_MEM),
        Instr::Ecall => 0x73,
        Instr::Ebreak => 0x10_0073,
        Instr::Lr { rd, rs1, aq, rl } => format_r(ordered(2, aq, rl), Reg::ZERO, rs1, 2, rd, AMO),
        Instr::Sc {
            rd,
            rs1,
            rs2,
            aq,
            rl,
        } => format_r(ordered(3, aq, rl), rs2, rs1, 2, rd, AMO),
        Instr::Amo {
            op,
            rd,
            rs1,
            rs2,
            aq,
            rl,
        } => format_r(ordered(atomic_code(op), aq, rl), rs2, rs1, 2, rd, AMO),
        Instr::Illegal { word } => illegal_word(word),
    }
}

fn format_r(funct7: u32, rs2: Reg, rs1: Reg, funct3: u32, rd: Reg, opcode: u32) -> u32
    requires funct7 { funct7 < 128 }
    requires funct3 { funct3 < 8 }
    requires opcode { opcode < 128 }
    ensures word { result ≡ r_word funct7 rs2 rs1 funct3 rd opcode }
    ensures rs2 { rs2 < 32 }
    ensures rs1 { rs1 < 32 }
    ensures rd { rd < 32 }
{
    (funct7 << 25) + rs2.bits(20) + rs1.bits(15) + (funct3 << 12) + rd.bits(7) + opcode
}

fn format_i(imm: u32, rs1: Reg, funct3: u32, rd: Reg, opcode: u32) -> u32
    requires imm { imm < 2 ^ 12 }
    requires funct3 { funct3 < 8 }
    requires opcode { opcode < 128 }
    ensures word { result ≡ i_word imm rs1 funct3 rd opcode }
    ensures rs1 { rs1 < 32 }
    ensures rd { rd < 32 }
{
    (imm << 20) + rs1.bits(15) + (funct3 << 12) + rd.bits(7) + opcode
}

/// A shift by an immediate: funct7 stands above the amount, which has the place of rs2.
fn format_shift(op: ShiftOp, amount: Amount, rs1: Reg, rd: Reg) -> u32
    ensures word { result ≡ r_word (shift_codes op).0 amount rs1 (shift_codes op).1 rd 0x13 }
    ensures amount { amount < 32 }
    ensures rs1 { rs1 < 32 }
    ensures rd { rd < 32 }
{
    let (funct7, funct3) = shift_codes(op);
    let imm = (funct7 << 5) + u32::from(amount.value());
    format_i(imm, rs1, funct3, rd, OP_IMM)
}

fn format_s(imm: u32, rs2: Reg, rs1: Reg, funct3: u32, opcode: u32) -> u32
    requires imm { imm < 2 ^ 12 }
    requires funct3 { funct3 < 8 }
    requires opcode { opcode < 128 }
    ensures word { result ≡ s_word imm rs2 rs1 funct3 opcode }
    ensures rs2 { rs2 < 32 }
    ensures rs1 { rs1 < 32 }
{
    ((imm >> 5) << 25) + rs2.bits(20) + rs1.bits(15) + (funct3 << 12) + ((imm & 0x1f) << 7) + opcode
}

fn format_b(imm: u32, rs2: Reg, rs1: Reg, funct3: u32, opcode: u32) -> u32
    requires imm { imm < 2 ^ 13 }
    requires funct3 { funct3 < 8 }
    requires opcode { opcode < 128 }
    ensures word { result ≡ b_word imm rs2 rs1 funct3 opcode }
    ensures rs2 { rs2 < 32 }
    ensures rs1 { rs1 < 32 }
{
    ((imm >> 12) << 31)
        + (((imm >> 5) & 0x3f) << 25)
        + rs2.bits(20)
        + rs1.bits(15)
        + (funct3 << 12)
        + (((imm >> 1) & 0xf) << 8)
        + (((imm >> 11) & 1) << 7)
        + opcode
}

fn format_u(imm: u32, rd: Reg, opcode: u32) -> u32
    requires imm { imm < 2 ^ 20 }
    requires opcode { opcode < 128 }
    ensures word { result ≡ u_word imm rd opcode }
    ensures rd { rd < 32 }
{
    (imm << 12) + rd.bits(7) + opcode
}

fn format_j(imm: u32, rd: Reg, opcode: u32) -> u32
    requires imm { imm < 2 ^ 21 }
    requires opcode { opcode < 128 }
    ensures word { result ≡ j_word imm rd opcode }
    ensures rd { rd < 32 }
{
    ((imm >> 20) << 31)
        + (((imm >> 1) & 0x3ff) << 21)
        + (((imm >> 11) & 1) << 20)
        + (((imm >> 12) & 0xff) << 12)
        + rd.bits(7)
        + opcode
}

/// funct7 of AMO: funct5, then aq and rl.
fn ordered(funct5: u32, aq: bool, rl: bool) -> u32
    requires { funct5 < 32 }
    ensures { result ≡ ordered funct5 aq rl }
{
    (funct5 << 2) + (u32::from(aq) << 1) + u32::from(rl)
}

fn branch_code(cond: Cond) -> u32
    ensures { result ≡ branch_code cond }
{
    match cond {
        Cond::Eq => 0,
        Cond::Ne => 1,
        Cond::Lt => 4,
        Cond::Ge => 5,
        Cond::Ltu => 6,
        Cond::Geu => 7,
    }
}

fn load_code(kind: LoadKind) -> u32
    ensures { result ≡ load_code kind }
{
    match kind {
        LoadKind::Byte => 0,
        LoadKind::Half => 1,
        LoadKind::Word => 2,
        LoadKind::ByteU => 4,
        LoadKind::HalfU => 5,
    }
}

fn store_code(width: Width) -> u32
    ensures { result ≡ store_code width }
{
    match width {
        Width::Byte => 0,
        Width::Half => 1,
        Width::Word => 2,
    }
}

fn immediate_code(op: ImmOp) -> u32
    ensures { result ≡ imm_code op }
{
    match op {
        ImmOp::Add => 0,
        ImmOp::Slt => 2,
        ImmOp::Sltu => 3,
        ImmOp::Xor => 4,
        ImmOp::Or => 6,
        ImmOp::And => 7,
    }
}

fn shift_codes(op: ShiftOp) -> (u32, u32)
    ensures { result ≡ shift_codes op }
{
    match op {
        ShiftOp::Sll => (0, 1),
        ShiftOp::Srl => (0, 5),
        ShiftOp::Sra => (0x20, 5),
    }
}

fn operation_codes(op: Op) -> (u32, u32)
    ensures { result ≡ op_codes op }
{
    match op {
        Op::Add => (0, 0),
        Op::Sub => (0x20, 0),
        Op::Sll => (0, 1),
        Op::Slt => (0, 2),
        Op::Sltu => (0, 3),
        Op::Xor => (0, 4),
        Op::Srl => (0, 5),
        Op::Sra => (0x20, 5),
        Op::Or => (0, 6),
        Op::And => (0, 7),
        Op::Mul => (1, 0),
        Op::Mulh => (1, 1),
        Op::Mulhsu => (1, 2),
        Op::Mulhu => (1, 3),
        Op::Div => (1, 4),
        Op::Divu => (1, 5),
        Op::Rem => (1, 6),
        Op::Remu => (1, 7),
    }
}

fn atomic_code(op: AmoOp) -> u32
    ensures { result ≡ amo_code op }
{
    match op {
        AmoOp::Swap => 1,
        AmoOp::Add => 0,
        AmoOp::Xor => 4,
        AmoOp::And => 12,
        AmoOp::Or => 8,
        AmoOp::Min => 16,
        AmoOp::Max => 20,
        AmoOp::Minu => 24,
        AmoOp::Maxu => 28,
    }
}

fn illegal_word(word: IllegalWord) -> u32
    ensures { result ≡ illegal_word word }
{
    match word {
        IllegalWord::Zeros => 0,
        IllegalWord::Ones => 0xffff_ffff,
        IllegalWord::CycleWrite => 0xc000_1073,
    }
}
