//! Batches: the sequence of a run, whose accesses are served by one check.

ghost use Rattle.std.specs.Prelude.{◌≡◌, ◌+◌, ◌*◌, ◌≤◌, ◌≤ℤ◌, [], length, pos, OnOk, OnErr};
ghost use Rattle.arrayvec.specs.ArrayVec.{array_vec_len};
ghost use Rattle.templates.specs.declared.places.Part.TheVariants.{Head, Fast, Fallback};
ghost use Rattle.templates.specs.Code.{code_of};
ghost use Rattle.templates.specs.Runs.{IsRun, code_from, reach_at};
ghost use Rattle.templates.specs.Sequences.{batch_sequence, items_in, head_items, run_items};
ghost use Rattle.templates.specs.Sequences.{spills_of_run, reloads_of_run, mask_readable};
ghost use Rattle.templates.specs.Expansion.{Appends};
ghost use Rattle.templates.specs.Writing.{IsLonger, run_states, run_wait};

use crate::code::Code;
use crate::counting::reload_count;
use crate::plans::{PlanEntry, Scratches};
use crate::reaches::Reach;
use crate::sequences::{
    add_immediate, branch_by, push, push_native, push_reload, push_spill, push_state_look,
    push_to_head,
};
use crate::words::{Item, Words};
use arrayvec::ArrayVec;
use runtime_words::RtWord;
use rv32_decode::{Amount, Cond, Imm12, ImmOp, Instr, JumpOffset, LoadKind, Op, Reg, ShiftOp};
use std::alloc::AllocError;

/// How many words the parts of a batch have.
#[derive(Clone, Copy, PartialEq, Eq)]
pub struct BatchLengths {
    pub head: u8,
    pub fast: u8,
    pub fallback: u8,
}

/// The batch sequence of a run while it is put together: no run has more words.
type BatchSequence = ArrayVec<Item, 42>;

/// Appends the batch sequence of the run that starts at an entry's place.
///
/// Where memory is lacking, `out` is as before.
pub fn expand_batch(entry: &PlanEntry, code: &Code, out: &mut Words) -> Result<(), AllocError>
    requires run { IsRun (code_of code.now) entry.now.address entry.now.run }
    ensures ok { let batch = batch_sequence (code_of code.now) entry.now in
        OnOk result (Appends out.old out.new batch) }
    ensures err { OnErr result (out.new ≡ out.old) }
    ensures short { length (batch_sequence (code_of code.now) entry.now) ≤ 42 }
{
    let mut sequence = BatchSequence::new();
    let lengths = batch_lengths(entry, code);
    push_head(&mut sequence, entry, code, lengths.fast);
    push_fast(&mut sequence, entry, code);
    push_reloads(&mut sequence, &entry.batch);
    out.extend(sequence.as_slice())?;
    Ok(())
}

/// The numbers of words of the three parts of a batch.
pub fn batch_lengths(entry: &PlanEntry, code: &Code) -> BatchLengths
    requires run { IsRun (code_of code.now) entry.now.address entry.now.run }
    ensures head { result.head ≡ length (items_in (code_of code.now) entry.now Head) }
    ensures fast { result.fast ≡ length (items_in (code_of code.now) entry.now Fast) }
    ensures fallback { result.fallback ≡ length (items_in (code_of code.now) entry.now Fallback) }
    ensures short { result.head + (result.fast + result.fallback) ≤ 42 }
{
    let reach = reach_of_run(code, entry.address, entry.run);
    let spilled = reload_count(&entry.batch);
    BatchLengths {
        head: 15 + spilled + u8::from(!reach.stores),
        fast: spilled + entry.run + 1,
        fallback: spilled,
    }
}

/// What a run reaches.
fn reach_of_run(code: &Code, address: u32, count: u8) -> Reach
    requires run { IsRun (code_of code.now) address count }
    ensures value { result ≡ reach_at (code_of code.now) address count }
{
    let mut reach = Reach::of_first(code.at(address));
    for k in 1..count {
        if let Some(i) = code.behind(address, k) {
            reach = reach.with(&i);
        }
    }
    reach
}

/// Appends the head of a batch: the check of its run.
fn push_head(sequence: &mut BatchSequence, entry: &PlanEntry, code: &Code, fast: u8)
    requires empty { sequence.old.items ≡ [] }
    requires run { IsRun (code_of code.now) entry.now.address entry.now.run }
    requires fast { fast ≡ length (items_in (code_of code.now) entry.now Fast) }
    ensures words { let items = items_in (code_of code.now) entry.now Head in
        IsLonger sequence.old.items sequence.new.items items }
    ensures count { array_vec_len sequence.new ≤ 19 }
{
    let reach = reach_of_run(code, entry.address, entry.run);
    push_check(sequence, &entry.batch, &reach, fast);
}

/// Appends the check of a run that reaches so far.
fn push_check(sequence: &mut BatchSequence, scratches: &Scratches, reach: &Reach, fast: u8)
    requires empty { sequence.old.items ≡ [] }
    requires ordered { reach.now.low ≤ℤ reach.now.high }
    requires immediate { reach.now.high ≤ℤ pos 2047 }
    ensures words { let items = head_items scratches.now reach.now fast in
        IsLonger sequence.old.items sequence.new.items items }
    ensures count { array_vec_len sequence.new ≤ 19 }
{
    let high = high_offset(reach);
    push_spills(sequence, scratches);
    push_states(sequence, scratches, reach, high);
    push_mask(sequence, reach.stores, scratches.s.register);
    push_wait(sequence, scratches, reach, high, fast);
}

/// The offset of the last byte of a reach.
fn high_offset(reach: &Reach) -> Imm12
    requires ordered { reach.now.low ≤ℤ reach.now.high }
    requires immediate { reach.now.high ≤ℤ pos 2047 }
    ensures value { result ≡ reach.now.high }
{
    // brings: the offset of the first byte is at least -2048
    let _ = reach.low.value();
    Imm12::new(reach.high)
}

/// Appends what reads the state bytes of both lines into s.
fn push_states(sequence: &mut BatchSequence, scratches: &Scratches, reach: &Reach, high: Imm12)
    requires room { array_vec_len sequence.old ≤ 3 }
    requires high { high ≡ reach.now.high }
    ensures words { let items = run_states scratches.now reach.now [] in
        IsLonger sequence.old.items sequence.new.items items }
    ensures count { array_vec_len sequence.new ≡ array_vec_len sequence.old + 10 }
{
    let s = scratches.s.register;
    let t = scratches.t.register;
    let u = scratches.u.register;
    push_state_look(sequence, scratches, reach.base, reach.low);
    push_native(sequence, add_immediate(u, reach.base, high));
    push_native(sequence, line_of(u));
    push_native(sequence, operate(Op::Add, u, t));
    push_native(sequence, load_byte(u));
    push_native(sequence, operate(Op::Or, s, u));
}

/// Appends what leaves the second bit of the states alone, where the run only loads.
fn push_mask(sequence: &mut BatchSequence, stores: bool, s: Reg)
    requires room { array_vec_len sequence.old ≤ 13 }
    ensures words { let items = mask_readable stores s [] in
        IsLonger sequence.old.items sequence.new.items items }
    ensures count { array_vec_len sequence.new ≤ array_vec_len sequence.old + 1 }
{
    if !stores {
        let mask = Instr::OpImm {
            op: ImmOp::And,
            rd: s,
            rs1: s,
            imm: Imm12::new(2),
        };
        push_native(sequence, mask);
    }
}

/// Appends what begins a wait unless the states let the run go on, and leads to the fallback.
fn push_wait(
    sequence: &mut BatchSequence,
    scratches: &Scratches,
    reach: &Reach,
    high: Imm12,
    fast: u8,
)
    requires room { array_vec_len sequence.old ≤ 14 }
    requires high { high ≡ reach.now.high }
    ensures words { let items = run_wait scratches.now reach.now fast in
        IsLonger sequence.old.items sequence.new.items items }
    ensures count { array_vec_len sequence.new ≡ array_vec_len sequence.old + 5 }
{
    let s = scratches.s.register;
    let u = scratches.u.register;
    push_native(sequence, branch_by(Cond::Eq, s, Reg::ZERO, 20));
    push_native(sequence, add_immediate(s, reach.base, reach.low));
    push_native(sequence, add_immediate(u, reach.base, high));
    push(
        sequence,
        RtWord::Batch {
            stores: reach.stores,
            rs1: s,
            rs2: u,
        },
    );
    push_native(sequence, jump_past(fast));
}

/// Appends the fast part of a batch: the run's words, and a jump to the place after them.
fn push_fast(sequence: &mut BatchSequence, entry: &PlanEntry, code: &Code)
    requires room { array_vec_len sequence.old ≤ 19 }
    requires run { IsRun (code_of code.now) entry.now.address entry.now.run }
    ensures words { let items = items_in (code_of code.now) entry.now Fast in
        IsLonger sequence.old.items sequence.new.items items }
    ensures count { array_vec_len sequence.new ≤ array_vec_len sequence.old + 20 }
{
    push_reloads(sequence, &entry.batch);
    push_run(sequence, code, entry.address, entry.run);
    push_to_head(sequence, code.address_behind(entry.address, entry.run));
}

/// Appends the words of a run.
fn push_run(sequence: &mut BatchSequence, code: &Code, address: u32, count: u8)
    requires room { array_vec_len sequence.old ≤ 22 }
    requires few { count ≤ 16 }
    ensures words { let items = run_items (code_from (code_of code.now) address count) [] in
        IsLonger sequence.old.items sequence.new.items items }
    ensures count { array_vec_len sequence.new ≤ array_vec_len sequence.old + count }
{
    for k in 0..count {
        if let Some(i) = code.behind(address, k) {
            push_native(sequence, i);
        }
    }
}

/// Appends the spills of s, t and u.
fn push_spills(sequence: &mut BatchSequence, scratches: &Scratches)
    requires room { array_vec_len sequence.old ≤ 39 }
    ensures words { let items = spills_of_run scratches.now [] in
        IsLonger sequence.old.items sequence.new.items items }
    ensures count { array_vec_len sequence.new ≤ array_vec_len sequence.old + 3 }
{
    push_spill(sequence, 0, scratches.s);
    push_spill(sequence, 1, scratches.t);
    push_spill(sequence, 2, scratches.u);
}

/// Appends the reloads of s, t and u.
fn push_reloads(sequence: &mut BatchSequence, scratches: &Scratches)
    requires room { array_vec_len sequence.old ≤ 39 }
    ensures words { let items = reloads_of_run scratches.now [] in
        IsLonger sequence.old.items sequence.new.items items }
    ensures count { array_vec_len sequence.new ≤ array_vec_len sequence.old + 3 }
{
    push_reload(sequence, 0, scratches.s);
    push_reload(sequence, 1, scratches.t);
    push_reload(sequence, 2, scratches.u);
}

/// The number of the line of an address, in the register that holds it.
fn line_of(register: Reg) -> Instr
    ensures value { result ≡ Instr.ShiftImm ShiftOp.Srl register register 6 }
{
    Instr::ShiftImm {
        op: ShiftOp::Srl,
        rd: register,
        rs1: register,
        amount: Amount::new(6),
    }
}

/// An operation on two registers, with its result in the first.
fn operate(op: Op, first: Reg, second: Reg) -> Instr
    ensures value { result ≡ Instr.Op op first first second }
{
    Instr::Op {
        op,
        rd: first,
        rs1: first,
        rs2: second,
    }
}

/// Loads a byte to the register that holds its address.
fn load_byte(register: Reg) -> Instr
    ensures value { result ≡ Instr.Load LoadKind.ByteU register register (pos 0) }
{
    Instr::Load {
        kind: LoadKind::ByteU,
        rd: register,
        rs1: register,
        imm: Imm12::new(0),
    }
}

/// Jumps past `words` words.
fn jump_past(words: u8) -> Instr
    ensures value { result ≡ Instr.Jal 0 (pos (4 * (words + 1))) }
{
    Instr::Jal {
        rd: Reg::ZERO,
        offset: JumpOffset::new(4 * (i32::from(words) + 1)),
    }
}
