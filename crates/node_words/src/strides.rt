//! Words in a row, by strides: one `match` for each, be it a word, a whole sequence or a pair.

ghost use Rattle.std.specs.Prelude.{◌≡◌, ◌+◌, ◌-◌, ◌^◌, ◌<◌, ◌≤◌, ℕ, false, None, length};
ghost use Rattle.std.specs.Prelude.{true};
ghost use Rattle.node_memory.specs.rv32_step.Registers.{registers_of};
ghost use Rattle.node_memory.specs.micro_op.Micro.{meaning_of};
ghost use Rattle.node_memory.specs.jump_map.Image.{image_base, most_words};
ghost use Rattle.node_memory.specs.jump_map.Micro.{AreMicrosOf};
ghost use Rattle.node_memory.specs.jump_map.Strides.{HasStrides, IsInside, IsPlain, IsStride};
ghost use Rattle.node_memory.specs.jump_map.Strides.{StandsAt};
ghost use Rattle.node_words.specs.GoingOn.{BodyGoesOn, GoesFurther};
ghost use Rattle.node_memory.specs.Shelf.{ground_of};
ghost use Rattle.node_words.specs.Kept.{StepsTo};
ghost use Rattle.node_words.specs.Strides.{IsTried, StepsBy, StridesBy};
ghost use Rattle.node_words.specs.Trails.{trail_of};
ghost use Rattle.node_words.specs.UndoLogs.{StaysUndoable};

use crate::exec_state::ExecState;
use crate::serve::Progress;
use node_memory::jump_map::{Image, StrideKind};
use node_memory::micro_op::MicroOp;
use rv32_decode::{Cond, LoadKind, Op, Width};

/// No stride has more words.
pub const MOST_AT_ONCE: u32 = 18;

/// The number of the next word, and how many more words there may be.
#[derive(Clone, Copy)]
pub struct Going {
    pub at: usize,
    pub left: u32,
}

impl Going {
    /// `words` words were executed, and the word `further` words on follows.
    #[inline(always)]
    pub(crate) fn on(&mut self, words: u32, further: usize)
        requires room { words ≤ self.old.left }
        requires low { self.old.at + further < 2 ^ 32 }
        ensures at { self.new.at ≡ self.old.at + further }
        ensures left { self.new.left + words ≡ self.old.left }
    {
        self.at += further;
        self.left -= words;
    }

    /// `words` words were executed, and the word of a number follows.
    #[inline(always)]
    pub fn to(&mut self, words: u32, number: usize)
        requires room { words ≤ self.old.left }
        requires low { number < 2 ^ 32 }
        ensures at { self.new.at ≡ number }
        ensures low { self.new.at < 2 ^ 32 }
        ensures left { self.new.left + words ≡ self.old.left }
    {
        self.at = number;
        self.left -= words;
    }
}

impl<'a> ExecState<'a> {
    /// Executes words from an index on by their micro-ops, and silent ones that have none, and at
    /// most `most`.
    #[inline(never)]
    pub fn run(&mut self, image: &Image, from: u32, most: u64) -> Progress
        requires { length image.now ≤ most_words }
        ensures words { BodyGoesOn image.now most from self.old result.words result.at self.new }
        ensures most { result.words ≤ most }
        ensures ground { ground_of self.new.local ≡ ground_of self.old.local }
        ensures counts { self.new.counts ≡ self.old.counts }
        ensures undoable { StaysUndoable self.old self.new }
    {
        let (micros, strides) = image.tables();
        let budget = most.min(u32::MAX as u64) as u32;
        let mut going = Going {
            at: from as usize,
            left: budget,
        };
        if going.at >= strides.len() {
            return self.run_rest(image, going, budget);
        }
        while going.left >= MOST_AT_ONCE {
            let here = going;
            let kind = stride_at(micros, strides, here.at);
            if !self.stride(kind, image, micros, &mut going) {
                match self.step_apart(image, here.at as u32) {
                    Some(next) => {
                        going = here;
                        going.to(1, next as usize);
                        if going.at >= strides.len() {
                            return self.run_rest(image, going, budget);
                        }
                    }
                    None => {
                        return Progress {
                            at: here.at as u32,
                            words: (budget - here.left) as u64,
                        };
                    }
                }
            }
        }
        self.run_rest(image, going, budget)
    }

    /// Executes the words that are left of a budget one by one, and gives how many were executed of
    /// the whole budget.
    #[inline(never)]
    fn run_rest(&mut self, image: &Image, going: Going, budget: u32) -> Progress
        requires few { length image.now ≤ most_words }
        requires left { going.left ≤ budget }
        requires low { going.at < 2 ^ 32 }
        ensures goes { GoesFurther image.now self.old going.at (budget - going.left) self.new
            result.at result.words }
        ensures most { result.words ≤ budget }
        ensures counts { self.new.counts ≡ self.old.counts }
        ensures undoable { StaysUndoable self.old self.new }
    {
        let last = self.run_singly(image, going.at as u32, going.left as u64);
        Progress {
            at: last.at,
            words: (budget - going.left) as u64 + last.words,
        }
    }

    /// Executes the stride from the next word on, which is of this kind. Says whether it does; else
    /// nothing changes. Where it does, a word of the image follows.
    #[tactic(auto, using(crate::proofs::UndoLogLemmas::undoable_same))]
    #[inline(always)]
    pub fn stride(
        &mut self,
        kind: StrideKind,
        image: &Image,
        micros: &[MicroOp],
        going: &mut Going,
    ) -> bool
        requires few { length image.now ≤ most_words }
        requires micros { AreMicrosOf image.now micros.now }
        requires room { 18 ≤ going.old.left }
        requires is { IsStride micros.now going.old.at kind }
        ensures tried { IsTried result
            (StridesBy image.now (trail_of kind going.old.at) going.old self.old going.new self.new)
            going.old self.old going.new self.new }
        ensures inside { result ≡ true → going.new.at < length micros.now }
        ensures counts { self.new.counts ≡ self.old.counts }
        ensures undoable { StaysUndoable self.old self.new }
    {
        let op = op_at(micros, going.at, kind);
        match kind {
            StrideKind::Slow => false,
            StrideKind::Nothing => self.nothing(op, going),
            StrideKind::Constant => self.constant(op, going),
            StrideKind::Jump => self.jump_by(op, going),
            StrideKind::Link => self.link(op, going),
            StrideKind::EnterBy => self.enter_by(op, image, going),
            StrideKind::BranchEq => self.branch(Cond::Eq, op, going),
            StrideKind::BranchNe => self.branch(Cond::Ne, op, going),
            StrideKind::BranchLt => self.branch(Cond::Lt, op, going),
            StrideKind::BranchGe => self.branch(Cond::Ge, op, going),
            StrideKind::BranchLtu => self.branch(Cond::Ltu, op, going),
            StrideKind::BranchGeu => self.branch(Cond::Geu, op, going),
            StrideKind::LoadByte => self.load_by(LoadKind::Byte, op, going),
            StrideKind::LoadHalf => self.load_by(LoadKind::Half, op, going),
            StrideKind::LoadWord => self.load_by(LoadKind::Word, op, going),
            StrideKind::LoadByteU => self.load_by(LoadKind::ByteU, op, going),
            StrideKind::LoadHalfU => self.load_by(LoadKind::HalfU, op, going),
            StrideKind::StoreByte => self.store_by(Width::Byte, op, going),
            StrideKind::StoreHalf => self.store_by(Width::Half, op, going),
            StrideKind::StoreWord => self.store_by(Width::Word, op, going),
            StrideKind::AddImm => self.by_immediate(Op::Add, op, going),
            StrideKind::SltImm => self.by_immediate(Op::Slt, op, going),
            StrideKind::SltuImm => self.by_immediate(Op::Sltu, op, going),
            StrideKind::XorImm => self.by_immediate(Op::Xor, op, going),
            StrideKind::OrImm => self.by_immediate(Op::Or, op, going),
            StrideKind::AndImm => self.by_immediate(Op::And, op, going),
            StrideKind::SllImm => self.by_immediate(Op::Sll, op, going),
            StrideKind::SrlImm => self.by_immediate(Op::Srl, op, going),
            StrideKind::SraImm => self.by_immediate(Op::Sra, op, going),
            StrideKind::Add => self.by_registers(Op::Add, op, going),
            StrideKind::Sub => self.by_registers(Op::Sub, op, going),
            StrideKind::Sll => self.by_registers(Op::Sll, op, going),
            StrideKind::Slt => self.by_registers(Op::Slt, op, going),
            StrideKind::Sltu => self.by_registers(Op::Sltu, op, going),
            StrideKind::Xor => self.by_registers(Op::Xor, op, going),
            StrideKind::Srl => self.by_registers(Op::Srl, op, going),
            StrideKind::Sra => self.by_registers(Op::Sra, op, going),
            StrideKind::Or => self.by_registers(Op::Or, op, going),
            StrideKind::And => self.by_registers(Op::And, op, going),
            StrideKind::Mul => self.by_registers(Op::Mul, op, going),
            StrideKind::Mulh => self.by_slow(Op::Mulh, op, going),
            StrideKind::Mulhsu => self.by_slow(Op::Mulhsu, op, going),
            StrideKind::Mulhu => self.by_slow(Op::Mulhu, op, going),
            StrideKind::Div => self.by_slow(Op::Div, op, going),
            StrideKind::Divu => self.by_slow(Op::Divu, op, going),
            StrideKind::Rem => self.by_slow(Op::Rem, op, going),
            StrideKind::Remu => self.by_slow(Op::Remu, op, going),
            StrideKind::OverEq => self.over(Cond::Eq, 0, micros, going),
            StrideKind::OverNe => self.over(Cond::Ne, 0, micros, going),
            StrideKind::OverLt => self.over(Cond::Lt, 0, micros, going),
            StrideKind::OverGe => self.over(Cond::Ge, 0, micros, going),
            StrideKind::OverLtu => self.over(Cond::Ltu, 0, micros, going),
            StrideKind::OverGeu => self.over(Cond::Geu, 0, micros, going),
            StrideKind::PollOverEq => self.over(Cond::Eq, 1, micros, going),
            StrideKind::PollOverNe => self.over(Cond::Ne, 1, micros, going),
            StrideKind::PollOverLt => self.over(Cond::Lt, 1, micros, going),
            StrideKind::PollOverGe => self.over(Cond::Ge, 1, micros, going),
            StrideKind::PollOverLtu => self.over(Cond::Ltu, 1, micros, going),
            StrideKind::PollOverGeu => self.over(Cond::Geu, 1, micros, going),
            StrideKind::PollJump => self.poll_jump(micros, going),
            StrideKind::PollEnter => self.poll_enter(image, micros, going),
            StrideKind::Number => self.number(micros, going),
            StrideKind::Call => self.far_call(micros, going),
            StrideKind::ReadByte0 => self.read(LoadKind::Byte, 0, micros, going),
            StrideKind::ReadHalf0 => self.read(LoadKind::Half, 0, micros, going),
            StrideKind::ReadWord0 => self.read(LoadKind::Word, 0, micros, going),
            StrideKind::ReadByteU0 => self.read(LoadKind::ByteU, 0, micros, going),
            StrideKind::ReadHalfU0 => self.read(LoadKind::HalfU, 0, micros, going),
            StrideKind::ReadByte1 => self.read(LoadKind::Byte, 1, micros, going),
            StrideKind::ReadHalf1 => self.read(LoadKind::Half, 1, micros, going),
            StrideKind::ReadWord1 => self.read(LoadKind::Word, 1, micros, going),
            StrideKind::ReadByteU1 => self.read(LoadKind::ByteU, 1, micros, going),
            StrideKind::ReadHalfU1 => self.read(LoadKind::HalfU, 1, micros, going),
            StrideKind::ReadByte2 => self.read(LoadKind::Byte, 2, micros, going),
            StrideKind::ReadHalf2 => self.read(LoadKind::Half, 2, micros, going),
            StrideKind::ReadWord2 => self.read(LoadKind::Word, 2, micros, going),
            StrideKind::ReadByteU2 => self.read(LoadKind::ByteU, 2, micros, going),
            StrideKind::ReadHalfU2 => self.read(LoadKind::HalfU, 2, micros, going),
            StrideKind::WriteByte0 => self.write(Width::Byte, 0, micros, going),
            StrideKind::WriteHalf0 => self.write(Width::Half, 0, micros, going),
            StrideKind::WriteWord0 => self.write(Width::Word, 0, micros, going),
            StrideKind::WriteByte1 => self.write(Width::Byte, 1, micros, going),
            StrideKind::WriteHalf1 => self.write(Width::Half, 1, micros, going),
            StrideKind::WriteWord1 => self.write(Width::Word, 1, micros, going),
            StrideKind::WriteByte2 => self.write(Width::Byte, 2, micros, going),
            StrideKind::WriteHalf2 => self.write(Width::Half, 2, micros, going),
            StrideKind::WriteWord2 => self.write(Width::Word, 2, micros, going),
            StrideKind::Flag0 => self.flag(0, micros, going),
            StrideKind::Flag1 => self.flag(1, micros, going),
            StrideKind::ReadHead0 => self.read_head(0, micros, going),
            StrideKind::ReadHead1 => self.read_head(1, micros, going),
            StrideKind::ReadHead2 => self.read_head(2, micros, going),
            StrideKind::ReadHead3 => self.read_head(3, micros, going),
            StrideKind::WriteHead0 => self.write_head(0, micros, going),
            StrideKind::WriteHead1 => self.write_head(1, micros, going),
            StrideKind::WriteHead2 => self.write_head(2, micros, going),
            StrideKind::WriteHead3 => self.write_head(3, micros, going),
            StrideKind::AddImmThenAddImm => self.imm_then_add(Op::Add, false, op, micros, going),
            StrideKind::AddImmThenAdd => self.imm_then_add(Op::Add, true, op, micros, going),
            StrideKind::AddThenAddImm => self.registers_then_add(Op::Add, false, op, micros, going),
            StrideKind::AddThenAdd => self.registers_then_add(Op::Add, true, op, micros, going),
            StrideKind::SllImmThenAddImm => self.imm_then_add(Op::Sll, false, op, micros, going),
            StrideKind::SllImmThenAdd => self.imm_then_add(Op::Sll, true, op, micros, going),
            StrideKind::MulThenAddImm => self.registers_then_add(Op::Mul, false, op, micros, going),
            StrideKind::MulThenAdd => self.registers_then_add(Op::Mul, true, op, micros, going),
            StrideKind::AddImmThenOverEq => self.add_over(false, Cond::Eq, 0, op, micros, going),
            StrideKind::AddImmThenOverNe => self.add_over(false, Cond::Ne, 0, op, micros, going),
            StrideKind::AddImmThenOverLt => self.add_over(false, Cond::Lt, 0, op, micros, going),
            StrideKind::AddImmThenOverGe => self.add_over(false, Cond::Ge, 0, op, micros, going),
            StrideKind::AddImmThenOverLtu => self.add_over(false, Cond::Ltu, 0, op, micros, going),
            StrideKind::AddImmThenOverGeu => self.add_over(false, Cond::Geu, 0, op, micros, going),
            StrideKind::AddImmThenPollOverEq => self.add_over(
                false,
                Cond::Eq,
                1,
                op,
                micros,
                going,
            ),
            StrideKind::AddImmThenPollOverNe => self.add_over(
                false,
                Cond::Ne,
                1,
                op,
                micros,
                going,
            ),
            StrideKind::AddImmThenPollOverLt => self.add_over(
                false,
                Cond::Lt,
                1,
                op,
                micros,
                going,
            ),
            StrideKind::AddImmThenPollOverGe => self.add_over(
                false,
                Cond::Ge,
                1,
                op,
                micros,
                going,
            ),
            StrideKind::AddImmThenPollOverLtu => self.add_over(
                false,
                Cond::Ltu,
                1,
                op,
                micros,
                going,
            ),
            StrideKind::AddImmThenPollOverGeu => self.add_over(
                false,
                Cond::Geu,
                1,
                op,
                micros,
                going,
            ),
            StrideKind::AddThenOverEq => self.add_over(true, Cond::Eq, 0, op, micros, going),
            StrideKind::AddThenOverNe => self.add_over(true, Cond::Ne, 0, op, micros, going),
            StrideKind::AddThenOverLt => self.add_over(true, Cond::Lt, 0, op, micros, going),
            StrideKind::AddThenOverGe => self.add_over(true, Cond::Ge, 0, op, micros, going),
            StrideKind::AddThenOverLtu => self.add_over(true, Cond::Ltu, 0, op, micros, going),
            StrideKind::AddThenOverGeu => self.add_over(true, Cond::Geu, 0, op, micros, going),
            StrideKind::AddThenPollOverEq => self.add_over(true, Cond::Eq, 1, op, micros, going),
            StrideKind::AddThenPollOverNe => self.add_over(true, Cond::Ne, 1, op, micros, going),
            StrideKind::AddThenPollOverLt => self.add_over(true, Cond::Lt, 1, op, micros, going),
            StrideKind::AddThenPollOverGe => self.add_over(true, Cond::Ge, 1, op, micros, going),
            StrideKind::AddThenPollOverLtu => self.add_over(true, Cond::Ltu, 1, op, micros, going),
            StrideKind::AddThenPollOverGeu => self.add_over(true, Cond::Geu, 1, op, micros, going),
        }
    }

    /// Executes words from an index on one by one, and at most `most`.
    #[inline(never)]
    fn run_singly(&mut self, image: &Image, from: u32, most: u64) -> Progress
        requires { length image.now ≤ most_words }
        ensures goes { (words : ℕ) → GoesFurther image.now self.old from words self.new result.at
            (words + result.words) }
        ensures most { result.words ≤ most }
        ensures counts { self.new.counts ≡ self.old.counts }
        ensures undoable { StaysUndoable self.old self.new }
    {
        let mut at = from;
        let mut words = 0;
        while words < most {
            match self.step_on(image, at) {
                Some(next) => at = next,
                None => break,
            }
            words += 1;
        }
        Progress { at, words }
    }

    /// Executes a micro-op at an index, and gives the index of the word that follows. `None` where
    /// the path that serves every word has to; then nothing changed.
    #[inline(always)]
    pub(crate) fn step(&mut self, image: &Image, op: &MicroOp, at: u32) -> Option<u32>
        requires low { at < most_words }
        ensures steps { StepsTo image.now
            (meaning_of image_base op.now (registers_of self.old.lane.registers)) at
            self.old.lane self.old.local self.new.lane self.new.local result }
        ensures counts { self.new.counts ≡ self.old.counts }
        ensures log { result ≡ None → self.new.log ≡ self.old.log }
        ensures undoable { StaysUndoable self.old self.new }
    {
        let mut going = Going {
            at: at as usize,
            left: 1,
        };
        if self.one(StrideKind::plain(op), image, op, &mut going) {
            Some(going.at as u32)
        } else {
            None
        }
    }

    /// Executes the next word, whose micro-op has this kind of stride. Says whether it does; else
    /// nothing changes.
    #[tactic(auto, using(crate::proofs::UndoLogLemmas::undoable_same))]
    #[inline(always)]
    pub(crate) fn one(
        &mut self,
        kind: StrideKind,
        image: &Image,
        op: &MicroOp,
        going: &mut Going,
    ) -> bool
        requires plain { IsPlain kind op.now }
        requires room { 0 < going.old.left }
        requires low { going.old.at < most_words }
        ensures tried { IsTried result
            (StepsBy image.now op.now going.old self.old going.new self.new)
            going.old self.old going.new self.new }
        ensures inside { (words : ℕ) → length image.now ≤ words
            → IsInside kind op.now going.old.at words → result ≡ true → going.new.at < words }
        ensures counts { self.new.counts ≡ self.old.counts }
        ensures log { result ≡ false → self.new.log ≡ self.old.log }
        ensures undoable { StaysUndoable self.old self.new }
    {
        match kind {
            StrideKind::Nothing => self.nothing(op, going),
            StrideKind::Constant => self.constant(op, going),
            StrideKind::Jump => self.jump_by(op, going),
            StrideKind::Link => self.link(op, going),
            StrideKind::EnterBy => self.enter_by(op, image, going),
            StrideKind::BranchEq => self.branch(Cond::Eq, op, going),
            StrideKind::BranchNe => self.branch(Cond::Ne, op, going),
            StrideKind::BranchLt => self.branch(Cond::Lt, op, going),
            StrideKind::BranchGe => self.branch(Cond::Ge, op, going),
            StrideKind::BranchLtu => self.branch(Cond::Ltu, op, going),
            StrideKind::BranchGeu => self.branch(Cond::Geu, op, going),
            StrideKind::LoadByte => self.load_by(LoadKind::Byte, op, going),
            StrideKind::LoadHalf => self.load_by(LoadKind::Half, op, going),
            StrideKind::LoadWord => self.load_by(LoadKind::Word, op, going),
            StrideKind::LoadByteU => self.load_by(LoadKind::ByteU, op, going),
            StrideKind::LoadHalfU => self.load_by(LoadKind::HalfU, op, going),
            StrideKind::StoreByte => self.store_by(Width::Byte, op, going),
            StrideKind::StoreHalf => self.store_by(Width::Half, op, going),
            StrideKind::StoreWord => self.store_by(Width::Word, op, going),
            StrideKind::AddImm => self.by_immediate(Op::Add, op, going),
            StrideKind::SltImm => self.by_immediate(Op::Slt, op, going),
            StrideKind::SltuImm => self.by_immediate(Op::Sltu, op, going),
            StrideKind::XorImm => self.by_immediate(Op::Xor, op, going),
            StrideKind::OrImm => self.by_immediate(Op::Or, op, going),
            StrideKind::AndImm => self.by_immediate(Op::And, op, going),
            StrideKind::SllImm => self.by_immediate(Op::Sll, op, going),
            StrideKind::SrlImm => self.by_immediate(Op::Srl, op, going),
            StrideKind::SraImm => self.by_immediate(Op::Sra, op, going),
            StrideKind::Add => self.by_registers(Op::Add, op, going),
            StrideKind::Sub => self.by_registers(Op::Sub, op, going),
            StrideKind::Sll => self.by_registers(Op::Sll, op, going),
            StrideKind::Slt => self.by_registers(Op::Slt, op, going),
            StrideKind::Sltu => self.by_registers(Op::Sltu, op, going),
            StrideKind::Xor => self.by_registers(Op::Xor, op, going),
            StrideKind::Srl => self.by_registers(Op::Srl, op, going),
            StrideKind::Sra => self.by_registers(Op::Sra, op, going),
            StrideKind::Or => self.by_registers(Op::Or, op, going),
            StrideKind::And => self.by_registers(Op::And, op, going),
            StrideKind::Mul => self.by_registers(Op::Mul, op, going),
            StrideKind::Mulh => self.by_slow(Op::Mulh, op, going),
            StrideKind::Mulhsu => self.by_slow(Op::Mulhsu, op, going),
            StrideKind::Mulhu => self.by_slow(Op::Mulhu, op, going),
            StrideKind::Div => self.by_slow(Op::Div, op, going),
            StrideKind::Divu => self.by_slow(Op::Divu, op, going),
            StrideKind::Rem => self.by_slow(Op::Rem, op, going),
            StrideKind::Remu => self.by_slow(Op::Remu, op, going),
            // Slow, and whole sequences
            _ => false,
        }
    }
}

/// The kind of stride of the word of a number.
#[inline(always)]
fn stride_at(micros: &[MicroOp], strides: &[StrideKind], at: usize) -> StrideKind
    requires strides { HasStrides micros.now strides.now }
    requires inside { at < length strides.now }
    ensures { IsStride micros.now at result }
{
    strides[at]
}

/// The micro-op of a word that has a stride of this kind.
#[inline(always)]
fn op_at<'m>(micros: &'m [MicroOp], at: usize, kind: StrideKind) -> &'m MicroOp
    requires few { length micros.now ≤ most_words }
    requires there { IsStride micros.now at kind }
    ensures there { StandsAt micros.now at result.now }
    ensures plain { IsPlain kind result.now }
    ensures inside { IsInside kind result.now at (length micros.now) }
    ensures low { at < most_words }
{
    &micros[at]
}
