//! Where whole sequences of an image begin that are executed at once.
//!
//! Each test reads the words that stand there: so nothing is asked of the plan that they come from.
//! A test of a word that isn't there finds a word that is slow.

ghost use Rattle.std.specs.Prelude.{◌≡◌, ◌≢◌, ◌+◌, ◌-◌, ◌^◌, ◌<◌, ◌≤◌, ℕ, List, Some, true, length};
ghost use Rattle.std.specs.Prelude.{IfOk, IfSome};
ghost use Rattle.micro_op.specs.Kinds.{branch_kind};
ghost use Rattle.micro_op.specs.declared.micro_op.MicroOp.{MicroOp};
ghost use Rattle.jump_map.specs.Image.{most_words};
ghost use Rattle.jump_map.specs.Strides.{AreApart, Begins, HasStrides, IsEntry, IsFlagged, IsJump};
ghost use Rattle.jump_map.specs.Strides.{IsInside, IsNumber, IsPlain, IsWhole};
ghost use Rattle.jump_map.specs.Strides.{IsOver, IsPolled, IsRead, IsReadHead, IsStride, IsWrite};
ghost use Rattle.jump_map.specs.Strides.{IsWriteHead, Keep, LooksTwice, StandFrom, StandsAt};
ghost use Rattle.jump_map.specs.Strides.{TakeBack, flag_look, keep, mask, op_of, scratch_of, skip};
ghost use Rattle.jump_map.specs.Strides.{spill_address, state_look, take_back};

use crate::strides::StrideKind;
use micro_op::{MicroKind, MicroOp};
use runtime_words::FLAG_WORD;
use rv32_decode::{Cond, Reg};
use rv32_program::addresses::{SPILLS, STATE_TABLE};
use std::alloc::{AllocError, Global};

/// The stride of each word.
pub(crate) fn find_strides(alloc: Global, micros: &[MicroOp]) -> Result<Vec<StrideKind>, AllocError>
    requires few { length micros.now ≤ most_words }
    ensures { IfOk result (λ strides. HasStrides micros.now strides.items) }
{
    let mut strides = Vec::with_capacity(alloc, micros.len())?;
    for k in 0..micros.len() {
        strides.push(stride_at(micros, k))?;
    }
    Ok(strides)
}

/// The stride of the word of a number.
fn stride_at(micros: &[MicroOp], k: usize) -> StrideKind
    requires few { length micros.now ≤ most_words }
    requires here { k < length micros.now }
    ensures { IsStride micros.now k result }
{
    let first = alone_at(micros, k);
    if k + 1 == micros.len() {
        return first;
    }
    match first {
        StrideKind::AddImm => add_imm_then(alone_at(micros, k + 1)),
        StrideKind::Add => add_then(alone_at(micros, k + 1)),
        StrideKind::SllImm => sll_imm_then(alone_at(micros, k + 1)),
        StrideKind::Mul => mul_then(alone_at(micros, k + 1)),
        _ => first,
    }
}

/// The stride of the word of a number, without the one after it.
fn alone_at(micros: &[MicroOp], k: usize) -> StrideKind
    requires few { length micros.now ≤ most_words }
    requires here { k < length micros.now }
    ensures { IsStride micros.now k result }
{
    let op = word(micros, k);
    let kind = kind_at(micros, k, &op);
    if is_inside(kind, &op, k, micros.len()) {
        kind
    } else {
        StrideKind::Slow
    }
}

/// What is executed at once from the word of a number on, which has this micro-op.
fn kind_at(micros: &[MicroOp], k: usize, op: &MicroOp) -> StrideKind
    requires few { k < most_words }
    ensures plain { IsPlain result op.now }
    ensures whole { IsWhole result micros.now k }
{
    match whole_at(micros, k, op) {
        Some(kind) => kind,
        None => StrideKind::plain(op),
    }
}

/// Whether what a stride of one word leads to is one of the first `words` words.
fn is_inside(kind: StrideKind, op: &MicroOp, k: usize, words: usize) -> bool
    requires { k < words }
    ensures { result ≡ true → IsInside kind op.now k words }
{
    let next = k + 1 < words;
    let inside = (op.imm as usize) < words;
    match kind {
        StrideKind::Slow | StrideKind::EnterBy => true,
        StrideKind::Jump | StrideKind::Link => inside,
        StrideKind::BranchEq
        | StrideKind::BranchNe
        | StrideKind::BranchLt
        | StrideKind::BranchGe
        | StrideKind::BranchLtu
        | StrideKind::BranchGeu => next && inside,
        _ => next,
    }
}

/// A sum with a number, and what stands after it, where both are executed at once.
fn add_imm_then(second: StrideKind) -> StrideKind
    ensures { (micros : List MicroOp) (k : ℕ) → IsStride micros k StrideKind.AddImm
        → IsStride micros (k + 1) second → IsStride micros k result }
{
    match second {
        StrideKind::AddImm => StrideKind::AddImmThenAddImm,
        StrideKind::Add => StrideKind::AddImmThenAdd,
        StrideKind::OverEq => StrideKind::AddImmThenOverEq,
        StrideKind::OverNe => StrideKind::AddImmThenOverNe,
        StrideKind::OverLt => StrideKind::AddImmThenOverLt,
        StrideKind::OverGe => StrideKind::AddImmThenOverGe,
        StrideKind::OverLtu => StrideKind::AddImmThenOverLtu,
        StrideKind::OverGeu => StrideKind::AddImmThenOverGeu,
        StrideKind::PollOverEq => StrideKind::AddImmThenPollOverEq,
        StrideKind::PollOverNe => StrideKind::AddImmThenPollOverNe,
        StrideKind::PollOverLt => StrideKind::AddImmThenPollOverLt,
        StrideKind::PollOverGe => StrideKind::AddImmThenPollOverGe,
        StrideKind::PollOverLtu => StrideKind::AddImmThenPollOverLtu,
        StrideKind::PollOverGeu => StrideKind::AddImmThenPollOverGeu,
        _ => StrideKind::AddImm,
    }
}

/// A sum of two registers, and what stands after it, where both are executed at once.
fn add_then(second: StrideKind) -> StrideKind
    ensures { (micros : List MicroOp) (k : ℕ) → IsStride micros k StrideKind.Add
        → IsStride micros (k + 1) second → IsStride micros k result }
{
    match second {
        StrideKind::AddImm => StrideKind::AddThenAddImm,
        StrideKind::Add => StrideKind::AddThenAdd,
        StrideKind::OverEq => StrideKind::AddThenOverEq,
        StrideKind::OverNe => StrideKind::AddThenOverNe,
        StrideKind::OverLt => StrideKind::AddThenOverLt,
        StrideKind::OverGe => StrideKind::AddThenOverGe,
        StrideKind::OverLtu => StrideKind::AddThenOverLtu,
        StrideKind::OverGeu => StrideKind::AddThenOverGeu,
        StrideKind::PollOverEq => StrideKind::AddThenPollOverEq,
        StrideKind::PollOverNe => StrideKind::AddThenPollOverNe,
        StrideKind::PollOverLt => StrideKind::AddThenPollOverLt,
        StrideKind::PollOverGe => StrideKind::AddThenPollOverGe,
        StrideKind::PollOverLtu => StrideKind::AddThenPollOverLtu,
        StrideKind::PollOverGeu => StrideKind::AddThenPollOverGeu,
        _ => StrideKind::Add,
    }
}

/// A shift to the left by a number, and what stands after it, where both are executed at once.
fn sll_imm_then(second: StrideKind) -> StrideKind
    ensures { (micros : List MicroOp) (k : ℕ) → IsStride micros k StrideKind.SllImm
        → IsStride micros (k + 1) second → IsStride micros k result }
{
    match second {
        StrideKind::AddImm => StrideKind::SllImmThenAddImm,
        StrideKind::Add => StrideKind::SllImmThenAdd,
        _ => StrideKind::SllImm,
    }
}

/// A product, and what stands after it, where both are executed at once.
fn mul_then(second: StrideKind) -> StrideKind
    ensures { (micros : List MicroOp) (k : ℕ) → IsStride micros k StrideKind.Mul
        → IsStride micros (k + 1) second → IsStride micros k result }
{
    match second {
        StrideKind::AddImm => StrideKind::MulThenAddImm,
        StrideKind::Add => StrideKind::MulThenAdd,
        _ => StrideKind::Mul,
    }
}

/// The sequence that begins with a word, which has this micro-op.
fn whole_at(micros: &[MicroOp], k: usize, op: &MicroOp) -> Option<StrideKind>
    requires few { k < most_words }
    ensures { IfSome result (Begins micros.now k) }
{
    match op.kind {
        MicroKind::Nothing => polled_at(micros, k),
        MicroKind::Constant => number_at(micros, k),
        MicroKind::AddImm => check_at(micros, k, 0),
        MicroKind::StoreWord if op.rs1 == Reg::ZERO => spilled_at(micros, k),
        _ => match over_at(micros, k) {
            Some(c) => Some(over(c)),
            None => None,
        },
    }
}

/// A poll, and what is executed with it.
fn polled_at(micros: &[MicroOp], k: usize) -> Option<StrideKind>
    requires few { k < most_words }
    ensures { IfSome result (Begins micros.now k) }
{
    if !polls_at(micros, k) {
        return None;
    }
    if jumps_at(micros, k + 1) {
        return Some(StrideKind::PollJump);
    }
    if enters_at(micros, k + 1) {
        return Some(StrideKind::PollEnter);
    }
    match over_at(micros, k + 1) {
        Some(c) => Some(poll_over(c)),
        None => None,
    }
}

/// A branch past the jump after it, to another word.
fn over_at(micros: &[MicroOp], k: usize) -> Option<Cond>
    requires few { k ≤ most_words }
    ensures { IfSome result (λ c. IsOver micros.now k (branch_kind c)) }
{
    let op = word(micros, k);
    if op.imm as usize != k + 2 || k + 2 >= micros.len() || !jumps_at(micros, k + 1) {
        return None;
    }
    match op.kind {
        MicroKind::BranchEq => Some(Cond::Eq),
        MicroKind::BranchNe => Some(Cond::Ne),
        MicroKind::BranchLt => Some(Cond::Lt),
        MicroKind::BranchGe => Some(Cond::Ge),
        MicroKind::BranchLtu => Some(Cond::Ltu),
        MicroKind::BranchGeu => Some(Cond::Geu),
        _ => None,
    }
}

/// The kind of a branch past the jump after it.
fn over(c: Cond) -> StrideKind
    ensures { (micros : List MicroOp) (k : ℕ) → IsOver micros k (branch_kind c)
        → Begins micros k result }
{
    match c {
        Cond::Eq => StrideKind::OverEq,
        Cond::Ne => StrideKind::OverNe,
        Cond::Lt => StrideKind::OverLt,
        Cond::Ge => StrideKind::OverGe,
        Cond::Ltu => StrideKind::OverLtu,
        Cond::Geu => StrideKind::OverGeu,
    }
}

/// The branch past a jump and that jump, after a poll.
fn poll_over(c: Cond) -> StrideKind
    ensures { (micros : List MicroOp) (k : ℕ) → IsPolled micros k
        → IsOver micros (k + 1) (branch_kind c) → Begins micros k result }
{
    match c {
        Cond::Eq => StrideKind::PollOverEq,
        Cond::Ne => StrideKind::PollOverNe,
        Cond::Lt => StrideKind::PollOverLt,
        Cond::Ge => StrideKind::PollOverGe,
        Cond::Ltu => StrideKind::PollOverLtu,
        Cond::Geu => StrideKind::PollOverGeu,
    }
}

/// A jump that keeps no link, to another word.
fn jumps_at(micros: &[MicroOp], k: usize) -> bool
    ensures { result ≡ true → IsJump micros.now k }
{
    let op = word(micros, k);
    op.kind == MicroKind::Jump && op.rd == Reg::ZERO && (op.imm as usize) < micros.len()
}

/// A word that changes nothing.
fn polls_at(micros: &[MicroOp], k: usize) -> bool
    ensures { result ≡ true → IsPolled micros.now k }
{
    word(micros, k).kind == MicroKind::Nothing
}

/// An indirect jump.
fn enters_at(micros: &[MicroOp], k: usize) -> bool
    ensures { result ≡ true → IsEntry micros.now k }
{
    word(micros, k).kind == MicroKind::EnterBy
}

/// The words that put a number into a register, and maybe a jump.
fn number_at(micros: &[MicroOp], k: usize) -> Option<StrideKind>
    requires few { k < most_words }
    ensures { IfSome result (Begins micros.now k) }
{
    if !is_number(micros, k) {
        None
    } else if jumps_at(micros, k + 2) {
        Some(StrideKind::Call)
    } else {
        Some(StrideKind::Number)
    }
}

/// Whether two words put a number into a register, with another one after them.
fn is_number(micros: &[MicroOp], k: usize) -> bool
    requires few { k < most_words }
    ensures { result ≡ true → IsNumber micros.now k }
{
    let upper = word(micros, k);
    let lower = word(micros, k + 1);
    upper.kind == MicroKind::Constant
        && upper.rd != Reg::ZERO
        && lower.kind == MicroKind::AddImm
        && lower.rd == upper.rd
        && lower.rs1 == upper.rd
        && k + 2 < micros.len()
}

/// A check that begins with a spill.
fn spilled_at(micros: &[MicroOp], k: usize) -> Option<StrideKind>
    requires few { k < most_words }
    ensures { IfSome result (Begins micros.now k) }
{
    if let Some(kind) = check_at(micros, k, 1) {
        return Some(kind);
    }
    if let Some(kind) = check_at(micros, k, 2) {
        return Some(kind);
    }
    head_at(micros, k, 3)
}

/// A check with `spilled` scratch registers spilled.
fn check_at(micros: &[MicroOp], k: usize, spilled: usize) -> Option<StrideKind>
    requires few { k < most_words }
    requires spilled { spilled ≤ 3 }
    ensures { IfSome result (Begins micros.now k) }
{
    if let Some(kind) = flag_at(micros, k, spilled) {
        return Some(kind);
    }
    if let Some(kind) = head_at(micros, k, spilled) {
        return Some(kind);
    }
    if let Some(kind) = read_at(micros, k, spilled) {
        return Some(kind);
    }
    write_at(micros, k, spilled)
}

/// A load whose line's state is tested, with `spilled` registers spilled.
fn read_at(micros: &[MicroOp], k: usize, spilled: usize) -> Option<StrideKind>
    requires few { k < most_words }
    requires spilled { spilled ≤ 3 }
    ensures { IfSome result (Begins micros.now k) }
{
    let first = k + spilled;
    let look = word(micros, first);
    let s = look.rd;
    let t = word(micros, first + 1).rd;
    let load = word(micros, first + 8);
    if keeps(micros, k, &[s, t], spilled)
        && reads_state(micros, first, t, &look)
        && stands(micros, first + 5, &[mask(s), skip(s, first + 8)])
        && is_same_access(&load, &look)
        && is_neither(load.rd, s, t)
        && takes(micros, first + 9, &[s, t], spilled)
    {
        read(load.kind, spilled)
    } else {
        None
    }
}

/// The kind of a load with `spilled` registers spilled.
fn read(kind: MicroKind, spilled: usize) -> Option<StrideKind>
    ensures { (micros : List MicroOp) (k : ℕ) → IsRead micros k spilled kind
        → IfSome result (Begins micros k) }
{
    match (kind, spilled) {
        (MicroKind::LoadByte, 0) => Some(StrideKind::ReadByte0),
        (MicroKind::LoadHalf, 0) => Some(StrideKind::ReadHalf0),
        (MicroKind::LoadWord, 0) => Some(StrideKind::ReadWord0),
        (MicroKind::LoadByteU, 0) => Some(StrideKind::ReadByteU0),
        (MicroKind::LoadHalfU, 0) => Some(StrideKind::ReadHalfU0),
        (MicroKind::LoadByte, 1) => Some(StrideKind::ReadByte1),
        (MicroKind::LoadHalf, 1) => Some(StrideKind::ReadHalf1),
        (MicroKind::LoadWord, 1) => Some(StrideKind::ReadWord1),
        (MicroKind::LoadByteU, 1) => Some(StrideKind::ReadByteU1),
        (MicroKind::LoadHalfU, 1) => Some(StrideKind::ReadHalfU1),
        (MicroKind::LoadByte, 2) => Some(StrideKind::ReadByte2),
        (MicroKind::LoadHalf, 2) => Some(StrideKind::ReadHalf2),
        (MicroKind::LoadWord, 2) => Some(StrideKind::ReadWord2),
        (MicroKind::LoadByteU, 2) => Some(StrideKind::ReadByteU2),
        (MicroKind::LoadHalfU, 2) => Some(StrideKind::ReadHalfU2),
        _ => None,
    }
}

/// A store whose line's state is tested, with `spilled` registers spilled.
fn write_at(micros: &[MicroOp], k: usize, spilled: usize) -> Option<StrideKind>
    requires few { k < most_words }
    requires spilled { spilled ≤ 3 }
    ensures { IfSome result (Begins micros.now k) }
{
    let first = k + spilled;
    let look = word(micros, first);
    let s = look.rd;
    let t = word(micros, first + 1).rd;
    let store = word(micros, first + 7);
    if keeps(micros, k, &[s, t], spilled)
        && reads_state(micros, first, t, &look)
        && stands(micros, first + 5, &[skip(s, first + 7)])
        && is_same_access(&store, &look)
        && is_neither(store.rs2, s, t)
        && takes(micros, first + 8, &[s, t], spilled)
    {
        write(store.kind, spilled)
    } else {
        None
    }
}

/// The kind of a store with `spilled` registers spilled.
fn write(kind: MicroKind, spilled: usize) -> Option<StrideKind>
    ensures { (micros : List MicroOp) (k : ℕ) → IsWrite micros k spilled kind
        → IfSome result (Begins micros k) }
{
    match (kind, spilled) {
        (MicroKind::StoreByte, 0) => Some(StrideKind::WriteByte0),
        (MicroKind::StoreHalf, 0) => Some(StrideKind::WriteHalf0),
        (MicroKind::StoreWord, 0) => Some(StrideKind::WriteWord0),
        (MicroKind::StoreByte, 1) => Some(StrideKind::WriteByte1),
        (MicroKind::StoreHalf, 1) => Some(StrideKind::WriteHalf1),
        (MicroKind::StoreWord, 1) => Some(StrideKind::WriteWord1),
        (MicroKind::StoreByte, 2) => Some(StrideKind::WriteByte2),
        (MicroKind::StoreHalf, 2) => Some(StrideKind::WriteHalf2),
        (MicroKind::StoreWord, 2) => Some(StrideKind::WriteWord2),
        _ => None,
    }
}

/// Whether an access is at the address that another word makes, and is there.
fn is_same_access(access: &MicroOp, look: &MicroOp) -> bool
    ensures there { result ≡ true → access.now.kind ≡ MicroKind.Slow → ⊥ }
    ensures base { result ≡ true → access.now.rs1 ≡ look.now.rs1 }
    ensures imm { result ≡ true → access.now.imm ≡ look.now.imm }
{
    access.kind != MicroKind::Slow && access.rs1 == look.rs1 && access.imm == look.imm
}

/// Whether a register is neither of two.
fn is_neither(r: Reg, s: Reg, t: Reg) -> bool
    ensures { result ≡ true → (r ≢ s) × (r ≢ t) }
{
    r != s && r != t
}

/// A load that looks at its value, with `spilled` registers spilled.
fn flag_at(micros: &[MicroOp], k: usize, spilled: usize) -> Option<StrideKind>
    requires few { k < most_words }
    requires spilled { spilled ≤ 3 }
    ensures { IfSome result (Begins micros.now k) }
{
    let first = k + spilled;
    let look = word(micros, first);
    let s = look.rd;
    let v = word(micros, first + 2).rd;
    if reads_value(micros, first, v, &look)
        && keeps(micros, k, &[s], spilled)
        && takes(micros, first + 7, &[s], spilled)
    {
        flag(spilled)
    } else {
        None
    }
}

/// Whether words from that of a number on load a value into v, and go on past the check after them
/// where it isn't the flag word. The first is this one.
fn reads_value(micros: &[MicroOp], k: usize, v: Reg, look: &MicroOp) -> bool
    requires few { k < 2 ^ 32 - 7 }
    ensures apart { result ≡ true → (look.now.rd ≢ v) × (look.now.rd ≢ look.now.rs1) }
    ensures kept { result ≡ true → (look.now.rd ≢ 0) × (v ≢ 0) }
    ensures stand { result ≡ true
        → StandFrom micros.now k (flag_look k look.now.rd v look.now.rs1 look.now.imm) }
{
    let s = look.rd;
    let apart = s != v && s != look.rs1 && s != Reg::ZERO && v != Reg::ZERO;
    let words = [
        adds(s, look.rs1, look.imm),
        test(MicroKind::BranchLt, s, Reg::ZERO, k + 5),
        op_by(MicroKind::LoadWord, v, look.rs1, Reg::ZERO, look.imm),
        adds(s, Reg::ZERO, FLAG_WORD),
        test(MicroKind::BranchNe, v, s, k + 7),
    ];
    apart && stands(micros, k, &words)
}

/// The kind of a load that looks at its value.
fn flag(spilled: usize) -> Option<StrideKind>
    ensures { (micros : List MicroOp) (k : ℕ) → IsFlagged micros k spilled
        → IfSome result (Begins micros k) }
{
    match spilled {
        0 => Some(StrideKind::Flag0),
        1 => Some(StrideKind::Flag1),
        _ => None,
    }
}

/// The head of a batch with `spilled` registers spilled, and the reloads after it.
fn head_at(micros: &[MicroOp], k: usize, spilled: usize) -> Option<StrideKind>
    requires few { k < most_words }
    requires spilled { spilled ≤ 3 }
    ensures { IfSome result (Begins micros.now k) }
{
    let first = k + spilled;
    let look = word(micros, first);
    let s = look.rd;
    let t = word(micros, first + 1).rd;
    let high = word(micros, first + 5);
    let u = high.rd;
    if !looks_twice(micros, k, t, &look, &high, spilled) {
        return None;
    }
    if stands(micros, first + 10, &[mask(s), skip(s, first + 16)])
        && takes(micros, first + 16, &[s, t, u], spilled)
    {
        return read_head(spilled);
    }
    if stands(micros, first + 10, &[skip(s, first + 15)])
        && takes(micros, first + 15, &[s, t, u], spilled)
    {
        return write_head(spilled);
    }
    None
}

/// Whether the words after `spilled` spills look at both lines of a batch.
fn looks_twice(
    micros: &[MicroOp],
    k: usize,
    t: Reg,
    low: &MicroOp,
    high: &MicroOp,
    spilled: usize,
) -> bool
    requires few { k < most_words }
    requires spilled { spilled ≤ 3 }
    ensures { result ≡ true
        → LooksTwice micros.now k spilled (scratch_of low.now t) high.now.rd high.now.imm }
{
    let first = k + spilled;
    let s = low.rd;
    let u = high.rd;
    let second = [
        adds(u, low.rs1, high.imm),
        line(u),
        op_by(MicroKind::Add, u, u, t, 0),
        state(u),
        op_by(MicroKind::Or, s, s, u, 0),
    ];
    u != s
        && u != t
        && u != Reg::ZERO
        && keeps(micros, k, &[s, t, u], spilled)
        && reads_state(micros, first, t, low)
        && stands(micros, first + 5, &second)
}

/// The head of a batch that only loads.
fn read_head(spilled: usize) -> Option<StrideKind>
    ensures { (micros : List MicroOp) (k : ℕ) → IsReadHead micros k spilled
        → IfSome result (Begins micros k) }
{
    match spilled {
        0 => Some(StrideKind::ReadHead0),
        1 => Some(StrideKind::ReadHead1),
        2 => Some(StrideKind::ReadHead2),
        3 => Some(StrideKind::ReadHead3),
        _ => None,
    }
}

/// The head of a batch that stores.
fn write_head(spilled: usize) -> Option<StrideKind>
    ensures { (micros : List MicroOp) (k : ℕ) → IsWriteHead micros k spilled
        → IfSome result (Begins micros k) }
{
    match spilled {
        0 => Some(StrideKind::WriteHead0),
        1 => Some(StrideKind::WriteHead1),
        2 => Some(StrideKind::WriteHead2),
        3 => Some(StrideKind::WriteHead3),
        _ => None,
    }
}

/// Whether the words from number `k` on keep the last `spilled` of these registers, each in the
/// spill word of its number.
fn keeps(micros: &[MicroOp], k: usize, registers: &[Reg], spilled: usize) -> bool
    requires few { k < 2 ^ 32 }
    requires spilled { spilled ≤ 3 }
    requires short { length registers.now ≤ 3 }
    ensures { result ≡ true → Keep micros.now k spilled registers.now }
{
    let kept = registers.len().saturating_sub(spilled);
    for i in 0..spilled {
        match registers.get(kept + i) {
            Some(r) if is_at(micros, k + i, &keep(*r, kept + i)) => {}
            _ => return false,
        }
    }
    true
}

/// Whether they take them back, with another word after them.
fn takes(micros: &[MicroOp], k: usize, registers: &[Reg], spilled: usize) -> bool
    requires few { k < 2 ^ 32 }
    requires spilled { spilled ≤ 3 }
    requires short { length registers.now ≤ 3 }
    ensures back { result ≡ true → TakeBack micros.now k spilled registers.now }
    ensures next { result ≡ true → k + spilled < length micros.now }
{
    let kept = registers.len().saturating_sub(spilled);
    for i in 0..spilled {
        match registers.get(kept + i) {
            Some(r) if is_at(micros, k + i, &take_back(*r, kept + i)) => {}
            _ => return false,
        }
    }
    k + spilled < micros.len()
}

/// Keeps a register in the spill word of a number.
fn keep(r: Reg, i: usize) -> MicroOp
    ensures { i < 3 → result ≡ keep r i }
{
    op_by(MicroKind::StoreWord, Reg::ZERO, Reg::ZERO, r, spill_word(i))
}

/// Takes it back.
fn take_back(r: Reg, i: usize) -> MicroOp
    ensures { i < 3 → result ≡ take_back r i }
{
    op_by(MicroKind::LoadWord, r, Reg::ZERO, Reg::ZERO, spill_word(i))
}

/// The address of the spill word of a number.
fn spill_word(i: usize) -> u32
    ensures { i < 3 → result ≡ spill_address i }
{
    match i {
        0 => SPILLS + 8,
        1 => SPILLS + 4,
        _ => SPILLS,
    }
}

/// Whether words from that of a number on read the state of the line of an address, which they
/// leave in a register that they don't change. The first is this one, and the second has this rd.
fn reads_state(micros: &[MicroOp], k: usize, t: Reg, look: &MicroOp) -> bool
    requires few { k < 2 ^ 32 }
    ensures apart { result ≡ true → AreApart (scratch_of look.now t) }
    ensures stand { result ≡ true
        → StandFrom micros.now k (state_look look.now.rd t look.now.rs1 look.now.imm) }
{
    let s = look.rd;
    let apart = s != t && s != Reg::ZERO && t != Reg::ZERO && s != look.rs1 && t != look.rs1;
    let words = [
        adds(s, look.rs1, look.imm),
        op_by(MicroKind::Constant, t, Reg::ZERO, Reg::ZERO, STATE_TABLE),
        line(s),
        op_by(MicroKind::Add, s, s, t, 0),
        state(s),
    ];
    apart && stands(micros, k, &words)
}

/// The sum of a register and a number.
fn adds(rd: Reg, rs1: Reg, imm: u32) -> MicroOp
    ensures { result ≡ op_of MicroKind.AddImm rd rs1 0 imm }
{
    op_by(MicroKind::AddImm, rd, rs1, Reg::ZERO, imm)
}

/// The number of the line of the address in a register.
fn line(s: Reg) -> MicroOp
    ensures { result ≡ op_of MicroKind.SrlImm s s 0 6 }
{
    op_by(MicroKind::SrlImm, s, s, Reg::ZERO, 6)
}

/// The state byte at the address in a register.
fn state(s: Reg) -> MicroOp
    ensures { result ≡ op_of MicroKind.LoadByteU s s 0 0 }
{
    op_by(MicroKind::LoadByteU, s, s, Reg::ZERO, 0)
}

/// What leaves of s the bit that says that a line can't be read.
fn mask(s: Reg) -> MicroOp
    ensures { result ≡ mask s }
{
    op_by(MicroKind::AndImm, s, s, Reg::ZERO, 2)
}

/// The branch to the word of a number where s is zero.
fn skip(s: Reg, to: usize) -> MicroOp
    requires { to < 2 ^ 32 }
    ensures { result ≡ skip s to }
{
    test(MicroKind::BranchEq, s, Reg::ZERO, to)
}

/// A branch to the word of a number.
fn test(kind: MicroKind, rs1: Reg, rs2: Reg, to: usize) -> MicroOp
    requires { to < 2 ^ 32 }
    ensures { result ≡ op_of kind 0 rs1 rs2 to }
{
    op_by(kind, Reg::ZERO, rs1, rs2, to as u32)
}

/// A micro-op by its parts.
fn op_by(kind: MicroKind, rd: Reg, rs1: Reg, rs2: Reg, imm: u32) -> MicroOp
    ensures { result ≡ op_of kind rd rs1 rs2 imm }
{
    MicroOp {
        kind,
        rd,
        rs1,
        rs2,
        imm,
    }
}

/// Whether these micro-ops stand from the word of a number on.
fn stands(micros: &[MicroOp], k: usize, ops: &[MicroOp]) -> bool
    requires few { k < 2 ^ 32 }
    requires short { length ops.now ≤ 8 }
    ensures { result ≡ true → StandFrom micros.now k ops.now }
{
    for i in 0..ops.len() {
        if !is_at(micros, k + i, &ops[i]) {
            return false;
        }
    }
    true
}

/// Whether a micro-op stands at the word of a number.
fn is_at(micros: &[MicroOp], k: usize, op: &MicroOp) -> bool
    ensures { result ≡ true → StandsAt micros.now k op.now }
{
    match micros.get(k) {
        Some(there) => is_same(there, op),
        None => false,
    }
}

/// Whether two micro-ops are the same.
fn is_same(one: &MicroOp, other: &MicroOp) -> bool
    ensures { result ≡ true → one.now ≡ other.now }
{
    if one.kind == other.kind && one.rd == other.rd && one.rs1 == other.rs1 {
        one.rs2 == other.rs2 && one.imm == other.imm
    } else {
        false
    }
}

/// The micro-op of the word of a number; a slow one, where there is none.
fn word(micros: &[MicroOp], k: usize) -> MicroOp
    ensures same { (m : MicroOp) → StandsAt micros.now k m → result ≡ m }
    ensures there { (result.kind ≡ MicroKind.Slow → ⊥) → StandsAt micros.now k result }
{
    match micros.get(k) {
        Some(op) => *op,
        None => MicroOp::SLOW,
    }
}
