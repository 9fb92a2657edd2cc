//! Instructions, read.

ghost use Rattle.std.specs.Prelude.{◌≡◌, ℕ, ℤ, pos, negsuc, ◌≤ℤ◌, ◌<◌, ◌^◌, ◌++◌};
ghost use Rattle.std.specs.Prelude.{codes, true, IfSome, MatchOption};
ghost use Rattle.rv32_decode.specs.declared.Instr.TheVariants as model;
ghost use Rattle.rv32_lines.specs.Reading.{capped, clipped, IsReadCommand, is_mark};
ghost use Rattle.rv32_lines.specs.Reading.{BeginsWithSpace, mnemonic_in, operands_in, HasOperands};
ghost use Rattle.rv32_lines.specs.Reading.{IsCommandWith, IsCommandWithout};
ghost use Rattle.std.specs.List.{list_all};
ghost use Rattle.rv32_lines.specs.Statements.{IsTarget, IsWritten, SaysInstruction};
ghost use Rattle.rv32_lines.specs.Texts.{Target as Targets, Written, Plain, Jump, Conditional};
ghost use Rattle.rv32_lines.specs.Texts.{register, base, signed_numeral, indexed, shift_by};
ghost use Rattle.rv32_lines.specs.Texts.{upper_digits, target_text};

use crate::heads::behind;
use crate::mnemonics::{Mnemonic, mnemonic_of};
use crate::operands::{
    Target, register_base, register_indexed, register_target, register_upper, registers_base,
    registers_immediate, registers_target, three_registers,
};
use rv32_decode::{
    AmoOp, Amount, Cond, FenceBits, IllegalWord, Imm12, ImmOp, Instr, LoadKind, Op, Reg, ShiftOp,
    Upper, Width,
};

/// An instruction as it is written.
#[derive(Clone, Copy)]
pub enum WrittenInstruction<'a> {
    Plain {
        instruction: Instr,
    },
    Jump {
        rd: Reg,
        to: Target<'a>,
    },
    Conditional {
        cond: Cond,
        rs1: Reg,
        rs2: Reg,
        to: Target<'a>,
    },
    /// A number doesn't fit.
    OutOfRange,
}

/// The register of a number.
fn reg(number: u32) -> Option<Reg>
    ensures number { (r : ℕ) → number ≡ capped r
        → MatchOption result (r < 32 → ⊥) (λ g. g ≡ r) }
    ensures low { IfSome result (λ g. g < 32) }
{
    if number < 32 {
        Some(Reg::new(number as u8))
    } else {
        None
    }
}

/// The immediate of 12 bits.
fn imm12(value: i64) -> Option<Imm12>
    ensures { (z : ℤ) → value ≡ clipped z
        → MatchOption result (negsuc 2047 ≤ℤ z → z ≤ℤ pos 2047 → ⊥) (λ i. i ≡ z) }
{
    if value >= -2048 && value <= 2047 {
        Some(Imm12::new(value as i32))
    } else {
        None
    }
}

/// The upper 20 bits.
fn upper20(value: u32) -> Option<Upper>
    ensures { (n : ℕ) → value ≡ capped n
        → MatchOption result (n < 2 ^ 20 → ⊥) (λ u. u ≡ n) }
{
    if value < 1 << 20 {
        Some(Upper::new(value))
    } else {
        None
    }
}

/// The amount of a shift.
fn amount5(value: i64) -> Option<Amount>
    ensures { (z : ℤ) → value ≡ clipped z
        → MatchOption result (pos 0 ≤ℤ z → z ≤ℤ pos 31 → ⊥) (λ a. pos a ≡ z) }
{
    if value >= 0 && value < 32 {
        Some(Amount::new(value as u8))
    } else {
        None
    }
}

/// LUI, by its operands.
fn lui(text: &[u8]) -> Option<WrittenInstruction<'_>>
    ensures some { IfSome result (λ c. (rd n : ℕ)
        × (text.now ≡ register rd ++ (codes ", " ++ upper_digits n))
        × IsReadCommand c (Plain (model.Lui rd n))) }
    ensures only { (rd n : ℕ)
        → text.now ≡ register rd ++ (codes ", " ++ upper_digits n)
        → MatchOption result ⊥ (λ c. IsReadCommand c (Plain (model.Lui rd n))) }
{
    let (rd, upper) = register_upper(text)?;
    let (Some(rd), Some(upper)) = (reg(rd), upper20(upper)) else {
        return Some(WrittenInstruction::OutOfRange);
    };
    Some(WrittenInstruction::Plain {
        instruction: Instr::Lui { rd, upper },
    })
}

/// AUIPC, by its operands.
fn auipc(text: &[u8]) -> Option<WrittenInstruction<'_>>
    ensures some { IfSome result (λ c. (rd n : ℕ)
        × (text.now ≡ register rd ++ (codes ", " ++ upper_digits n))
        × IsReadCommand c (Plain (model.Auipc rd n))) }
    ensures only { (rd n : ℕ)
        → text.now ≡ register rd ++ (codes ", " ++ upper_digits n)
        → MatchOption result ⊥ (λ c. IsReadCommand c (Plain (model.Auipc rd n))) }
{
    let (rd, upper) = register_upper(text)?;
    let (Some(rd), Some(upper)) = (reg(rd), upper20(upper)) else {
        return Some(WrittenInstruction::OutOfRange);
    };
    Some(WrittenInstruction::Plain {
        instruction: Instr::Auipc { rd, upper },
    })
}

/// JALR, by its operands.
fn jalr(text: &[u8]) -> Option<WrittenInstruction<'_>>
    ensures some { IfSome result (λ c. (rd r : ℕ) × (z : ℤ)
        × (text.now ≡ register rd ++ (codes ", " ++ indexed z r))
        × IsReadCommand c (Plain (model.Jalr rd r z))) }
    ensures only { (rd r : ℕ) (z : ℤ)
        → text.now ≡ register rd ++ (codes ", " ++ indexed z r)
        → MatchOption result ⊥ (λ c. IsReadCommand c (Plain (model.Jalr rd r z))) }
{
    let (rd, address) = register_indexed(text)?;
    let (Some(rd), Some(rs1), Some(imm)) = (reg(rd), reg(address.base), imm12(address.imm)) else {
        return Some(WrittenInstruction::OutOfRange);
    };
    Some(WrittenInstruction::Plain {
        instruction: Instr::Jalr { rd, rs1, imm },
    })
}

/// A load, by its operands.
fn load(kind: LoadKind, text: &[u8]) -> Option<WrittenInstruction<'_>>
    ensures some { IfSome result (λ c. (rd r : ℕ) × (z : ℤ)
        × (text.now ≡ register rd ++ (codes ", " ++ indexed z r))
        × IsReadCommand c (Plain (model.Load kind rd r z))) }
    ensures only { (rd r : ℕ) (z : ℤ)
        → text.now ≡ register rd ++ (codes ", " ++ indexed z r)
        → MatchOption result ⊥ (λ c. IsReadCommand c (Plain (model.Load kind rd r z))) }
{
    let (rd, address) = register_indexed(text)?;
    let (Some(rd), Some(rs1), Some(imm)) = (reg(rd), reg(address.base), imm12(address.imm)) else {
        return Some(WrittenInstruction::OutOfRange);
    };
    Some(WrittenInstruction::Plain {
        instruction: Instr::Load { kind, rd, rs1, imm },
    })
}

/// A store, by its operands.
fn store(width: Width, text: &[u8]) -> Option<WrittenInstruction<'_>>
    ensures some { IfSome result (λ c. (rd r : ℕ) × (z : ℤ)
        × (text.now ≡ register rd ++ (codes ", " ++ indexed z r))
        × IsReadCommand c (Plain (model.Store width r rd z))) }
    ensures only { (rd r : ℕ) (z : ℤ)
        → text.now ≡ register rd ++ (codes ", " ++ indexed z r)
        → MatchOption result ⊥ (λ c. IsReadCommand c (Plain (model.Store width r rd z))) }
{
    let (rs2, address) = register_indexed(text)?;
    let (Some(rs2), Some(rs1), Some(imm)) = (reg(rs2), reg(address.base), imm12(address.imm)) else {
        return Some(WrittenInstruction::OutOfRange);
    };
    Some(WrittenInstruction::Plain {
        instruction: Instr::Store {
            width,
            rs1,
            rs2,
            imm,
        },
    })
}

/// An operation on a register and an immediate, by its operands.
fn op_imm(op: ImmOp, text: &[u8]) -> Option<WrittenInstruction<'_>>
    ensures some { IfSome result (λ c. (rd r : ℕ) × (z : ℤ)
        × (text.now ≡ register rd ++ (codes ", " ++ register r ++ (codes ", " ++ signed_numeral z)))
        × IsReadCommand c (Plain (model.OpImm op rd r z))) }
    ensures only { (rd r : ℕ) (z : ℤ)
        → text.now ≡ register rd ++ (codes ", " ++ register r ++ (codes ", " ++ signed_numeral z))
        → MatchOption result ⊥ (λ c. IsReadCommand c (Plain (model.OpImm op rd r z))) }
{
    let (rd, rs1, imm) = registers_immediate(text)?;
    let (Some(rd), Some(rs1), Some(imm)) = (reg(rd), reg(rs1), imm12(imm)) else {
        return Some(WrittenInstruction::OutOfRange);
    };
    Some(WrittenInstruction::Plain {
        instruction: Instr::OpImm { op, rd, rs1, imm },
    })
}

/// A shift by an immediate, by its operands.
#[tactic(auto, using(crate::proofs::Signs::shift_far, crate::proofs::Signs::shift_is))]
fn shift_imm(op: ShiftOp, text: &[u8]) -> Option<WrittenInstruction<'_>>
    ensures some { IfSome result (λ c. (rd r : ℕ) × (z : ℤ)
        × (text.now ≡ register rd ++ (codes ", " ++ register r ++ (codes ", " ++ signed_numeral z)))
        × IsReadCommand c (shift_by op rd r z)) }
    ensures only { (rd r : ℕ) (z : ℤ)
        → text.now ≡ register rd ++ (codes ", " ++ register r ++ (codes ", " ++ signed_numeral z))
        → MatchOption result ⊥ (λ c. IsReadCommand c (shift_by op rd r z)) }
{
    let (rd, rs1, amount) = registers_immediate(text)?;
    let (Some(rd), Some(rs1), Some(amount)) = (reg(rd), reg(rs1), amount5(amount)) else {
        return Some(WrittenInstruction::OutOfRange);
    };
    Some(WrittenInstruction::Plain {
        instruction: Instr::ShiftImm {
            op,
            rd,
            rs1,
            amount,
        },
    })
}

/// An operation on two registers, by its operands.
fn op_registers(op: Op, text: &[u8]) -> Option<WrittenInstruction<'_>>
    ensures some { IfSome result (λ c. (rd r n : ℕ)
        × (text.now ≡ register rd ++ (codes ", " ++ register r ++ (codes ", " ++ register n)))
        × IsReadCommand c (Plain (model.Op op rd r n))) }
    ensures only { (rd r n : ℕ)
        → text.now ≡ register rd ++ (codes ", " ++ register r ++ (codes ", " ++ register n))
        → MatchOption result ⊥ (λ c. IsReadCommand c (Plain (model.Op op rd r n))) }
{
    let (rd, rs1, rs2) = three_registers(text)?;
    let (Some(rd), Some(rs1), Some(rs2)) = (reg(rd), reg(rs1), reg(rs2)) else {
        return Some(WrittenInstruction::OutOfRange);
    };
    Some(WrittenInstruction::Plain {
        instruction: Instr::Op { op, rd, rs1, rs2 },
    })
}

/// LR, by its operands.
fn load_reserved(aq: bool, rl: bool, text: &[u8]) -> Option<WrittenInstruction<'_>>
    ensures some { IfSome result (λ c. (rd r : ℕ)
        × (text.now ≡ register rd ++ (codes ", " ++ base r))
        × IsReadCommand c (Plain (model.Lr rd r aq rl))) }
    ensures only { (rd r : ℕ)
        → text.now ≡ register rd ++ (codes ", " ++ base r)
        → MatchOption result ⊥ (λ c. IsReadCommand c (Plain (model.Lr rd r aq rl))) }
{
    let (rd, rs1) = register_base(text)?;
    let (Some(rd), Some(rs1)) = (reg(rd), reg(rs1)) else {
        return Some(WrittenInstruction::OutOfRange);
    };
    Some(WrittenInstruction::Plain {
        instruction: Instr::Lr { rd, rs1, aq, rl },
    })
}

/// SC, by its operands.
fn store_conditional(aq: bool, rl: bool, text: &[u8]) -> Option<WrittenInstruction<'_>>
    ensures some { IfSome result (λ c. (rd r n : ℕ)
        × (text.now ≡ register rd ++ (codes ", " ++ register n ++ (codes ", " ++ base r)))
        × IsReadCommand c (Plain (model.Sc rd r n aq rl))) }
    ensures only { (rd r n : ℕ)
        → text.now ≡ register rd ++ (codes ", " ++ register n ++ (codes ", " ++ base r))
        → MatchOption result ⊥ (λ c. IsReadCommand c (Plain (model.Sc rd r n aq rl))) }
{
    let (rd, rs2, rs1) = registers_base(text)?;
    let (Some(rd), Some(rs1), Some(rs2)) = (reg(rd), reg(rs1), reg(rs2)) else {
        return Some(WrittenInstruction::OutOfRange);
    };
    Some(WrittenInstruction::Plain {
        instruction: Instr::Sc {
            rd,
            rs1,
            rs2,
            aq,
            rl,
        },
    })
}

/// A read-modify-write, by its operands.
fn read_modify_write(op: AmoOp, aq: bool, rl: bool, text: &[u8]) -> Option<WrittenInstruction<'_>>
    ensures some { IfSome result (λ c. (rd r n : ℕ)
        × (text.now ≡ register rd ++ (codes ", " ++ register n ++ (codes ", " ++ base r)))
        × IsReadCommand c (Plain (model.Amo op rd r n aq rl))) }
    ensures only { (rd r n : ℕ)
        → text.now ≡ register rd ++ (codes ", " ++ register n ++ (codes ", " ++ base r))
        → MatchOption result ⊥ (λ c. IsReadCommand c (Plain (model.Amo op rd r n aq rl))) }
{
    let (rd, rs2, rs1) = registers_base(text)?;
    let (Some(rd), Some(rs1), Some(rs2)) = (reg(rd), reg(rs1), reg(rs2)) else {
        return Some(WrittenInstruction::OutOfRange);
    };
    Some(WrittenInstruction::Plain {
        instruction: Instr::Amo {
            op,
            rd,
            rs1,
            rs2,
            aq,
            rl,
        },
    })
}

/// JAL, by its operands.
fn jump(text: &[u8]) -> Option<WrittenInstruction<'_>>
    ensures some { IfSome result (λ c. (rd : ℕ) × (to : Targets) × IsTarget to
        × (text.now ≡ register rd ++ (codes ", " ++ target_text to))
        × IsReadCommand c (Jump rd to)) }
    ensures only { (rd : ℕ) (to : Targets) → IsTarget to
        → text.now ≡ register rd ++ (codes ", " ++ target_text to)
        → MatchOption result ⊥ (λ c. IsReadCommand c (Jump rd to)) }
{
    let (rd, to) = register_target(text)?;
    let Some(rd) = reg(rd) else {
        return Some(WrittenInstruction::OutOfRange);
    };
    Some(WrittenInstruction::Jump { rd, to })
}

/// A branch, by its operands.
fn conditional(cond: Cond, text: &[u8]) -> Option<WrittenInstruction<'_>>
    ensures some { IfSome result (λ c. (r n : ℕ) × (to : Targets) × IsTarget to
        × (text.now ≡ register r ++ (codes ", " ++ register n ++ (codes ", " ++ target_text to)))
        × IsReadCommand c (Conditional cond r n to)) }
    ensures only { (r n : ℕ) (to : Targets) → IsTarget to
        → text.now ≡ register r ++ (codes ", " ++ register n ++ (codes ", " ++ target_text to))
        → MatchOption result ⊥ (λ c. IsReadCommand c (Conditional cond r n to)) }
{
    let (rs1, rs2, to) = registers_target(text)?;
    let (Some(rs1), Some(rs2)) = (reg(rs1), reg(rs2)) else {
        return Some(WrittenInstruction::OutOfRange);
    };
    Some(WrittenInstruction::Conditional { cond, rs1, rs2, to })
}

/// What stands before the first space, and what stands from it on.
#[tactic(auto, using(crate::proofs::Cutting::all_more, crate::proofs::Forms::space_at, crate::proofs::Forms::space_last))]
fn split_word(text: &[u8]) -> (&[u8], &[u8])
    ensures parts { text.now ≡ result.0.now ++ result.1.now }
    ensures marks { list_all is_mark result.0.now ≡ true }
    ensures ends { BeginsWithSpace result.1.now }
{
    let mut end = 0;
    while end < text.len() && text[end] != b' ' {
        end += 1;
    }
    text.split_at(end)
}

/// An instruction.
pub(crate) fn command_of(line: &[u8]) -> Option<WrittenInstruction<'_>>
    ensures some { IfSome result (λ c. (w : Written) × SaysInstruction line.now w
        × IsReadCommand c w) }
    ensures only { (w : Written) → SaysInstruction line.now w
        → MatchOption result ⊥ (λ c. IsReadCommand c w) }
{
    let (name, rest) = split_word(line);
    let mnemonic = mnemonic_of(name)?;
    match behind(rest, b" ") {
        Some(operands) => with_operands(mnemonic, operands),
        None => without_operands(mnemonic),
    }
}

/// An instruction without operands.
fn without_operands(mnemonic: Mnemonic) -> Option<WrittenInstruction<'static>>
    ensures some { IfSome result (λ c. (w : Written) × IsCommandWithout mnemonic c w) }
    ensures only { (w : Written) → IsWritten w → (HasOperands w → ⊥) → mnemonic_in w ≡ mnemonic
        → MatchOption result ⊥ (λ c. IsReadCommand c w) }
{
    match mnemonic {
        Mnemonic::Fence => Some(WrittenInstruction::Plain {
            instruction: Instr::Fence {
                rd: Reg::ZERO,
                rs1: Reg::ZERO,
                bits: FenceBits::new(0xff),
            },
        }),
        Mnemonic::Ecall => Some(WrittenInstruction::Plain {
            instruction: Instr::Ecall,
        }),
        Mnemonic::Ebreak => Some(WrittenInstruction::Plain {
            instruction: Instr::Ebreak,
        }),
        Mnemonic::Illegal => Some(WrittenInstruction::Plain {
            instruction: Instr::Illegal {
                word: IllegalWord::Zeros,
            },
        }),
        _ => None,
    }
}

/// An instruction of a mnemonic and operands.
#[tactic(auto, using(crate::proofs::Forms::finds_all, crate::proofs::Forms::gives_all))]
fn with_operands(mnemonic: Mnemonic, text: &[u8]) -> Option<WrittenInstruction<'_>>
    ensures some { IfSome result (λ c. (w : Written) × IsCommandWith mnemonic text.now c w) }
    ensures only { (w : Written) → IsWritten w → HasOperands w → mnemonic_in w ≡ mnemonic
        → text.now ≡ operands_in w → MatchOption result ⊥ (λ c. IsReadCommand c w) }
{
    match mnemonic {
        Mnemonic::Lui => lui(text),
        Mnemonic::Auipc => auipc(text),
        Mnemonic::Jal => jump(text),
        Mnemonic::Jalr => jalr(text),
        Mnemonic::Branch { cond } => conditional(cond, text),
        Mnemonic::Load { kind } => load(kind, text),
        Mnemonic::Store { width } => store(width, text),
        Mnemonic::OpImm { op } => op_imm(op, text),
        Mnemonic::ShiftImm { op } => shift_imm(op, text),
        Mnemonic::Op { op } => op_registers(op, text),
        Mnemonic::Lr { aq, rl } => load_reserved(aq, rl, text),
        Mnemonic::Sc { aq, rl } => store_conditional(aq, rl, text),
        Mnemonic::Amo { op, aq, rl } => read_modify_write(op, aq, rl, text),
        _ => None,
    }
}
