//! The templates: the sequence of each place.

ghost use Rattle.std.specs.Prelude.{◌≡◌, ◌+◌, ◌*◌, ◌%◌, ◌<◌, ◌≤◌, [], Some};
ghost use Rattle.std.specs.Prelude.{length, OnOk, OnErr, pos};
ghost use Rattle.arrayvec.specs.ArrayVec.{array_vec_len};
ghost use Rattle.templates.specs.Sequences.{upper_part, lower_part, constant, to_head, spill};
ghost use Rattle.templates.specs.Sequences.{spills, reload, reloads, state_look};
ghost use Rattle.templates.specs.Sequences.{flag_load_sequence, read_sequence, write_sequence};
ghost use Rattle.templates.specs.Sequences.{load_sequence, store_sequence};
ghost use Rattle.templates.specs.Sequences.{checking, own};
ghost use Rattle.templates.specs.Sequences.{inverse, spill_offset, items_of};
ghost use Rattle.templates.specs.Sequences.{instruction_items};
ghost use Rattle.templates.specs.Plans.{is_flag_checked};
ghost use Rattle.templates.specs.Expansion.{Appends};
ghost use Rattle.templates.specs.Writing.{IsWritten, IsLonger, jump_items, branch_items};

use crate::plans::{PlanEntry, Scratch, Scratches, is_flag_checked};
use crate::words::{Item, Words};
use arrayvec::ArrayVec;
use runtime_words::{FLAG_WORD, RtWord, encode_word, imm_of_bits};
use rv32_decode::{
    Amount, BranchOffset, Cond, Imm12, ImmOp, Instr, JumpOffset, LoadKind, Op, Reg, ShiftOp, Upper,
    Width,
};
use rv32_program::addresses::STATE_TABLE;
use std::alloc::AllocError;

/// The single sequence of a place while it is put together: no template has more words.
type Sequence = ArrayVec<Item, 14>;

/// Appends the single sequence of a place: of a stop, or of a code word's instruction.
///
/// Where memory is lacking, `out` is as before.
pub fn expand(entry: &PlanEntry, code: Option<Instr>, out: &mut Words) -> Result<(), AllocError>
    ensures ok { OnOk result (Appends out.old out.new (items_of entry.now code)) }
    ensures err { OnErr result (out.new ≡ out.old) }
    ensures short { length (items_of entry.now code) ≤ 14 }
{
    let mut sequence = Sequence::new();
    push_sequence(&mut sequence, entry, code);
    out.extend(sequence.as_slice())?;
    Ok(())
}

/// Appends the sequence of a place to an empty one.
fn push_sequence(sequence: &mut Sequence, entry: &PlanEntry, code: Option<Instr>)
    requires empty { sequence.old.items ≡ [] }
    ensures words { IsWritten sequence.new.items (items_of entry.now code) }
{
    if entry.polls {
        push(sequence, RtWord::Poll);
    }
    match code {
        None => push(sequence, RtWord::TrapFetch),
        Some(i) => push_instruction(sequence, entry.address, &entry.single, &i),
    }
}

/// Appends the sequence of an instruction.
fn push_instruction(sequence: &mut Sequence, address: u32, scratches: &Scratches, i: &Instr)
    requires room { array_vec_len sequence.old ≤ 1 }
    ensures words { let items = instruction_items address scratches.now i.now in
        IsLonger sequence.old.items sequence.new.items items }
{
    match i {
        Instr::Auipc { rd, upper } => {
            push_constant(sequence, *rd, address.wrapping_add(upper.value() << 12));
        }
        Instr::Jal { rd, offset } => {
            push_jump(
                sequence,
                *rd,
                address.wrapping_add(4),
                address.wrapping_add(offset.word()),
            );
        }
        Instr::Jalr { rd, rs1, imm } => {
            push(
                sequence,
                RtWord::Xjalr {
                    rd: *rd,
                    rs1: *rs1,
                    imm: *imm,
                },
            );
        }
        Instr::Branch {
            cond,
            rs1,
            rs2,
            offset,
        } => {
            push_branch(
                sequence,
                *cond,
                *rs1,
                *rs2,
                address.wrapping_add(offset.word()),
            );
        }
        Instr::Load { kind, rd, rs1, imm } => {
            push_load(sequence, scratches, *kind, *rd, *rs1, *imm);
        }
        Instr::Store {
            width,
            rs1,
            rs2,
            imm,
        } => push_store(sequence, scratches, *width, *rs1, *rs2, *imm),
        Instr::Lr { rs1, .. } => {
            push_read(sequence, scratches, Width::Word, *rs1, Imm12::new(0), *i);
        }
        Instr::Sc { rs1, .. } => {
            push(sequence, RtWord::Prepare { rs1: *rs1 });
            push_native(sequence, *i);
        }
        Instr::Amo { rs1, .. } => {
            push_write(sequence, scratches, Width::Word, *rs1, Imm12::new(0), *i);
        }
        Instr::Ecall => push(sequence, RtWord::Call),
        Instr::Ebreak => push(sequence, RtWord::TrapEbreak),
        Instr::Illegal { .. } => push(sequence, RtWord::TrapIllegal),
        Instr::Lui { .. }
        | Instr::OpImm { .. }
        | Instr::ShiftImm { .. }
        | Instr::Op { .. }
        | Instr::Fence { .. } => push_native(sequence, *i),
    }
}

/// Appends a load, by its value or its line's state.
fn push_load(
    sequence: &mut Sequence,
    scratches: &Scratches,
    kind: LoadKind,
    rd: Reg,
    rs1: Reg,
    imm: Imm12,
)
    requires room { array_vec_len sequence.old ≤ 1 }
    ensures words { let by_value = is_flag_checked kind rd rs1 in
        let items = load_sequence by_value scratches.now kind rd rs1 imm in
        IsLonger sequence.old.items sequence.new.items items }
{
    if is_flag_checked(kind, rd, rs1) {
        push_flag_load(sequence, scratches, rd, rs1, imm);
    } else {
        let load = Instr::Load { kind, rd, rs1, imm };
        push_read(sequence, scratches, kind.width(), rs1, imm, load);
    }
}

/// Appends a load that looks at its value.
fn push_flag_load(sequence: &mut Sequence, scratches: &Scratches, rd: Reg, rs1: Reg, imm: Imm12)
    requires room { array_vec_len sequence.old ≤ 1 }
    ensures words { let items = flag_load_sequence scratches.now rd rs1 imm in
        IsLonger sequence.old.items sequence.new.items items }
{
    let s = scratches.s.register;
    push_spill(sequence, 0, scratches.s);
    push_native(sequence, add_immediate(s, rs1, imm));
    push_native(sequence, branch_by(Cond::Lt, s, Reg::ZERO, 16));
    push_native(sequence, load_word(rd, rs1, imm));
    push_native(sequence, add_immediate(s, Reg::ZERO, lower_part(FLAG_WORD)));
    push_native(sequence, branch_by(Cond::Ne, rd, s, 12));
    push(
        sequence,
        RtWord::MissR {
            width: Width::Word,
            rs1,
            imm,
        },
    );
    push_native(sequence, load_word(rd, rs1, imm));
    push_reload(sequence, 0, scratches.s);
}

/// Appends an instruction that reads, after a test of its line's state.
fn push_read(
    sequence: &mut Sequence,
    scratches: &Scratches,
    width: Width,
    rs1: Reg,
    imm: Imm12,
    i: Instr,
)
    requires room { array_vec_len sequence.old ≤ 1 }
    ensures words { let items = read_sequence scratches.now width rs1 imm i in
        IsLonger sequence.old.items sequence.new.items items }
{
    let s = scratches.s.register;
    push_spills(sequence, scratches);
    push_state_look(sequence, scratches, rs1, imm);
    push_native(
        sequence,
        Instr::OpImm {
            op: ImmOp::And,
            rd: s,
            rs1: s,
            imm: Imm12::new(2),
        },
    );
    push_native(sequence, branch_by(Cond::Eq, s, Reg::ZERO, 8));
    push(sequence, RtWord::MissR { width, rs1, imm });
    push_native(sequence, i);
    push_reloads(sequence, scratches);
}

/// Appends a store whose line's state is tested.
fn push_store(
    sequence: &mut Sequence,
    scratches: &Scratches,
    width: Width,
    rs1: Reg,
    rs2: Reg,
    imm: Imm12,
)
    requires room { array_vec_len sequence.old ≤ 1 }
    ensures words { let items = store_sequence scratches.now width rs1 rs2 imm in
        IsLonger sequence.old.items sequence.new.items items }
{
    let store = Instr::Store {
        width,
        rs1,
        rs2,
        imm,
    };
    push_write(sequence, scratches, width, rs1, imm, store);
}

/// Appends an instruction that writes, after a test of its line's state.
fn push_write(
    sequence: &mut Sequence,
    scratches: &Scratches,
    width: Width,
    rs1: Reg,
    imm: Imm12,
    i: Instr,
)
    requires room { array_vec_len sequence.old ≤ 1 }
    ensures words { let items = write_sequence scratches.now width rs1 imm i in
        IsLonger sequence.old.items sequence.new.items items }
{
    push_spills(sequence, scratches);
    push_state_look(sequence, scratches, rs1, imm);
    push_native(
        sequence,
        branch_by(Cond::Eq, scratches.s.register, Reg::ZERO, 8),
    );
    push(sequence, RtWord::MissW { width, rs1, imm });
    push_native(sequence, i);
    push_reloads(sequence, scratches);
}

/// Appends the spills of s and t.
fn push_spills(sequence: &mut Sequence, scratches: &Scratches)
    requires room { array_vec_len sequence.old ≤ 12 }
    ensures words { IsLonger sequence.old.items sequence.new.items (spills scratches.now []) }
    ensures count { array_vec_len sequence.new ≤ array_vec_len sequence.old + 2 }
{
    push_spill(sequence, 0, scratches.s);
    push_spill(sequence, 1, scratches.t);
}

/// Appends the reloads of s and t.
fn push_reloads(sequence: &mut Sequence, scratches: &Scratches)
    requires room { array_vec_len sequence.old ≤ 12 }
    ensures words { IsLonger sequence.old.items sequence.new.items (reloads scratches.now) }
{
    push_reload(sequence, 0, scratches.s);
    push_reload(sequence, 1, scratches.t);
}

/// Appends the spill of a register to a spill word, where it is spilled.
pub(crate) fn push_spill<const N: usize>(
    sequence: &mut ArrayVec<Item, N>,
    word: u8,
    scratch: Scratch,
)
    requires room { array_vec_len sequence.old < N }
    requires word { word < 3 }
    ensures words { IsLonger sequence.old.items sequence.new.items (spill word scratch []) }
    ensures count { array_vec_len sequence.new ≤ array_vec_len sequence.old + 1 }
{
    if scratch.spilled {
        push_native(
            sequence,
            Instr::Store {
                width: Width::Word,
                rs1: Reg::ZERO,
                rs2: scratch.register,
                imm: spill_offset(word),
            },
        );
    }
}

/// Appends the reload of a register from a spill word, where it is spilled.
pub(crate) fn push_reload<const N: usize>(
    sequence: &mut ArrayVec<Item, N>,
    word: u8,
    scratch: Scratch,
)
    requires room { array_vec_len sequence.old < N }
    requires word { word < 3 }
    ensures words { IsLonger sequence.old.items sequence.new.items (reload word scratch []) }
    ensures count { array_vec_len sequence.new ≤ array_vec_len sequence.old + 1 }
{
    if scratch.spilled {
        let reload = load_word(scratch.register, Reg::ZERO, spill_offset(word));
        push_native(sequence, reload);
    }
}

/// Where a spill word stands: -4, -8 or -12.
fn spill_offset(word: u8) -> Imm12
    requires small { word < 3 }
    ensures value { result ≡ spill_offset word }
{
    Imm12::new(-4 - 4 * i32::from(word))
}

/// Appends what reads the state byte of an address's line into s.
pub(crate) fn push_state_look<const N: usize>(
    sequence: &mut ArrayVec<Item, N>,
    scratches: &Scratches,
    rs1: Reg,
    imm: Imm12,
)
    requires room { array_vec_len sequence.old + 5 ≤ N }
    ensures words { let x = scratches.now in
        IsLonger sequence.old.items sequence.new.items (state_look x rs1 imm []) }
    ensures count { array_vec_len sequence.new ≡ array_vec_len sequence.old + 5 }
{
    let s = scratches.s.register;
    let t = scratches.t.register;
    push_native(sequence, add_immediate(s, rs1, imm));
    push_native(
        sequence,
        Instr::Lui {
            rd: t,
            upper: Upper::new(STATE_TABLE / 0x1000),
        },
    );
    push_native(
        sequence,
        Instr::ShiftImm {
            op: ShiftOp::Srl,
            rd: s,
            rs1: s,
            amount: Amount::new(6),
        },
    );
    push_native(
        sequence,
        Instr::Op {
            op: Op::Add,
            rd: s,
            rs1: s,
            rs2: t,
        },
    );
    push_native(
        sequence,
        Instr::Load {
            kind: LoadKind::ByteU,
            rd: s,
            rs1: s,
            imm: Imm12::new(0),
        },
    );
}

/// Appends the two instructions that put a number into a register.
fn push_constant(sequence: &mut Sequence, rd: Reg, number: u32)
    requires room { array_vec_len sequence.old ≤ 1 }
    ensures words { IsLonger sequence.old.items sequence.new.items (constant rd number []) }
    ensures count { array_vec_len sequence.new ≡ array_vec_len sequence.old + 2 }
{
    push_native(
        sequence,
        Instr::Lui {
            rd,
            upper: upper_part(number),
        },
    );
    push_native(sequence, add_immediate(rd, rd, lower_part(number)));
}

/// Appends a jump that puts the next original address into rd, or one that ends the processor.
fn push_jump(sequence: &mut Sequence, rd: Reg, next: u32, target: u32)
    requires room { array_vec_len sequence.old ≤ 1 }
    ensures words { IsLonger sequence.old.items sequence.new.items (jump_items rd next target) }
{
    if target % 4 == 0 {
        push_constant(sequence, rd, next);
        push_to_head(sequence, target);
    } else {
        push_native(
            sequence,
            Instr::Jal {
                rd: Reg::ZERO,
                offset: JumpOffset::new(2),
            },
        );
    }
}

/// Appends a branch past a jump where the original isn't taken, or one that ends the processor.
fn push_branch(sequence: &mut Sequence, cond: Cond, rs1: Reg, rs2: Reg, target: u32)
    requires room { array_vec_len sequence.old ≤ 1 }
    ensures words { let items = branch_items cond rs1 rs2 target in
        IsLonger sequence.old.items sequence.new.items items }
{
    if target % 4 == 0 {
        push_native(sequence, branch_by(inverse(cond), rs1, rs2, 8));
        push_to_head(sequence, target);
    } else {
        push_native(sequence, branch_by(cond, rs1, rs2, 2));
    }
}

/// Appends an instruction of the original machine.
pub(crate) fn push_native<const N: usize>(sequence: &mut ArrayVec<Item, N>, i: Instr)
    requires room { array_vec_len sequence.old < N }
    ensures words { IsLonger sequence.old.items sequence.new.items (own i []) }
    ensures count { array_vec_len sequence.new ≡ array_vec_len sequence.old + 1 }
{
    push(sequence, RtWord::Native(i));
}

/// Appends a word that is executed.
pub(crate) fn push<const N: usize>(sequence: &mut ArrayVec<Item, N>, what: RtWord)
    requires room { array_vec_len sequence.old < N }
    ensures words { IsLonger sequence.old.items sequence.new.items (checking what []) }
    ensures count { array_vec_len sequence.new ≡ array_vec_len sequence.old + 1 }
{
    sequence.push(Item::Fixed(encode_word(what)));
}

/// Appends a jump to the head of a place.
pub(crate) fn push_to_head<const N: usize>(sequence: &mut ArrayVec<Item, N>, place: u32)
    requires room { array_vec_len sequence.old < N }
    ensures words { IsLonger sequence.old.items sequence.new.items (to_head place) }
{
    sequence.push(Item::Jump { place, head: true });
}

/// Adds an immediate to a register.
pub(crate) fn add_immediate(rd: Reg, rs1: Reg, imm: Imm12) -> Instr
    ensures { result ≡ Instr.OpImm ImmOp.Add rd rs1 imm }
{
    Instr::OpImm {
        op: ImmOp::Add,
        rd,
        rs1,
        imm,
    }
}

/// Loads a word.
fn load_word(rd: Reg, rs1: Reg, imm: Imm12) -> Instr
    ensures { result ≡ Instr.Load LoadKind.Word rd rs1 imm }
{
    Instr::Load {
        kind: LoadKind::Word,
        rd,
        rs1,
        imm,
    }
}

/// Branches `offset` bytes on.
pub(crate) fn branch_by(cond: Cond, rs1: Reg, rs2: Reg, offset: u8) -> Instr
    requires even { offset % 2 ≡ 0 }
    ensures { result ≡ Instr.Branch cond rs1 rs2 (pos offset) }
{
    Instr::Branch {
        cond,
        rs1,
        rs2,
        offset: BranchOffset::new(i32::from(offset)),
    }
}

/// The condition that holds where this one doesn't.
fn inverse(cond: Cond) -> Cond
    ensures { result ≡ inverse cond }
{
    match cond {
        Cond::Eq => Cond::Ne,
        Cond::Ne => Cond::Eq,
        Cond::Lt => Cond::Ge,
        Cond::Ge => Cond::Lt,
        Cond::Ltu => Cond::Geu,
        Cond::Geu => Cond::Ltu,
    }
}

/// The upper 20 bits of a number, for a lower part that is added.
fn upper_part(number: u32) -> Upper
    ensures { result ≡ upper_part number }
{
    Upper::new(((u64::from(number) + 0x800) / 0x1000 % 0x10_0000) as u32)
}

/// The lower 12 bits of a number, as two's complement.
fn lower_part(number: u32) -> Imm12
    ensures { result ≡ lower_part number }
{
    imm_of_bits(number % 0x1000)
}
