//! What a whole sequence does.
//!
//! Each function says whether it has done what the words of the sequence do one after another.
//! Where a check fails it hasn't: then nothing has changed, and the words are executed one by one.

ghost use Rattle.std.specs.Prelude.{◌≡◌, ◌+◌, ◌*◌, ◌%◌, ◌^◌, ◌<◌, ◌≤◌, ℕ, true, false, length};
ghost use Rattle.std.specs.Prelude.{bit_and, bit_or};
ghost use Rattle.node_memory.specs.micro_op.Kinds.{branch_kind, kind_of_load, store_kind};
ghost use Rattle.node_memory.specs.micro_op.declared.micro_op.MicroOp.{MicroOp};
ghost use Rattle.node_memory.specs.micro_op.Micro as micro;
ghost use Rattle.node_memory.specs.micro_op.Micro.{meaning_of};
ghost use Rattle.node_memory.specs.rv32_step.Registers.{registers_of};
ghost use Rattle.node_memory.specs.jump_map.Image.{image_base, most_words};
ghost use Rattle.node_memory.specs.jump_map.Micro.{AreMicrosOf};
ghost use Rattle.node_memory.specs.jump_map.Strides.{IsEntry, IsFlagged, IsHead, IsJump, IsNumber};
ghost use Rattle.node_memory.specs.jump_map.Strides.{IsOver, IsPolled, IsRead, IsReadHead, IsWrite};
ghost use Rattle.node_memory.specs.jump_map.Strides.{IsWord, IsWriteHead, StandsAt};
ghost use Rattle.node_memory.specs.node_model.Node.{set_register};
ghost use Rattle.node_words.specs.Kept.{lane_of};
ghost use Rattle.node_words.specs.Strides.{IsStriddenBy, IsTried, StridesBy, checked, flagged};
ghost use Rattle.node_words.specs.Strides.{left_by_check, straight};
ghost use Rattle.node_words.specs.Strides.{left_by_head, left_one, state_at, add_kind};
ghost use Rattle.node_words.specs.UndoLogs.{StaysUndoable};

use crate::exec_state::ExecState;
use crate::strides::Going;
use node_memory::jump_map::Image;
use node_memory::micro_op::MicroOp;
use node_memory::runtime_words::FLAG_WORD;
use rv32_decode::{Cond, LoadKind, Op, Reg, Width};
use rv32_program::addresses::STATE_TABLE;

impl<'a> ExecState<'a> {
    /// A branch past a jump, and that jump, after `behind` words that change nothing.
    #[inline]
    pub(crate) fn over(&self, c: Cond, behind: usize, micros: &[MicroOp], going: &mut Going) -> bool
        requires room { behind + 2 ≤ going.old.left }
        requires low { going.old.at ≤ most_words }
        requires few { behind ≤ 1 }
        requires polls { (i : ℕ) → i < behind → IsPolled micros.now (going.old.at + i) }
        requires there { IsOver micros.now (going.old.at + behind) (branch_kind c) }
        ensures strides { IsStriddenBy micros.now (straight (2 + behind)) result going.old self.now
            going.new self.now }
        ensures inside { going.new.at < length micros.now }
        ensures done { result ≡ true }
    {
        let first = going.at + behind;
        let words = behind as u32;
        if self.holds(c, &micros[first]) {
            going.on(words + 1, behind + 2);
        } else {
            going.to(words + 2, micros[first + 1].imm as usize);
        }
        true
    }

    /// An operation on a register and the immediate, and the sum after it.
    #[inline]
    pub(crate) fn imm_then_add(
        &mut self,
        o: Op,
        registers: bool,
        op: &MicroOp,
        micros: &[MicroOp],
        going: &mut Going,
    ) -> bool
        requires room { 18 ≤ going.old.left }
        requires low { going.old.at < most_words }
        requires here { StandsAt micros.now going.old.at op.now }
        requires means { meaning_of image_base op.now (registers_of self.old.lane.registers)
            ≡ micro.by_immediate o op.now (registers_of self.old.lane.registers) }
        requires sum { IsWord micros.now (going.old.at + 1) (add_kind registers) }
        ensures strides { IsStriddenBy micros.now (straight 2) result going.old self.old
            going.new self.new }
        ensures inside { going.new.at < length micros.now }
        ensures counts { self.new.counts ≡ self.old.counts }
        ensures undoable { StaysUndoable self.old self.new }
    {
        let second = &micros[going.at + 1];
        self.by_immediate(o, op, going);
        self.add(registers, second, going)
    }

    /// An operation on two registers, and the sum after it.
    #[inline]
    pub(crate) fn registers_then_add(
        &mut self,
        o: Op,
        registers: bool,
        op: &MicroOp,
        micros: &[MicroOp],
        going: &mut Going,
    ) -> bool
        requires room { 18 ≤ going.old.left }
        requires low { going.old.at < most_words }
        requires here { StandsAt micros.now going.old.at op.now }
        requires means { meaning_of image_base op.now (registers_of self.old.lane.registers)
            ≡ micro.by_registers o op.now (registers_of self.old.lane.registers) }
        requires sum { IsWord micros.now (going.old.at + 1) (add_kind registers) }
        ensures strides { IsStriddenBy micros.now (straight 2) result going.old self.old
            going.new self.new }
        ensures inside { going.new.at < length micros.now }
        ensures counts { self.new.counts ≡ self.old.counts }
        ensures undoable { StaysUndoable self.old self.new }
    {
        let second = &micros[going.at + 1];
        self.by_registers(o, op, going);
        self.add(registers, second, going)
    }

    /// A sum, and after it a branch past a jump, and that jump, after words that change nothing.
    #[inline]
    pub(crate) fn add_over(
        &mut self,
        registers: bool,
        c: Cond,
        behind: usize,
        op: &MicroOp,
        micros: &[MicroOp],
        going: &mut Going,
    ) -> bool
        requires room { 18 ≤ going.old.left }
        requires low { going.old.at < most_words }
        requires here { StandsAt micros.now going.old.at op.now }
        requires sum { op.now.kind ≡ add_kind registers }
        requires few { behind ≤ 1 }
        requires polls { (i : ℕ) → i < behind → IsPolled micros.now (going.old.at + 1 + i) }
        requires there { IsOver micros.now (going.old.at + 1 + behind) (branch_kind c) }
        ensures strides { IsStriddenBy micros.now (straight (3 + behind)) result going.old self.old
            going.new self.new }
        ensures inside { going.new.at < length micros.now }
        ensures counts { self.new.counts ≡ self.old.counts }
        ensures undoable { StaysUndoable self.old self.new }
    {
        self.add(registers, op, going);
        self.over(c, behind, micros, going)
    }

    /// A poll and a jump.
    #[inline]
    pub(crate) fn poll_jump(&self, micros: &[MicroOp], going: &mut Going) -> bool
        requires room { 18 ≤ going.old.left }
        requires poll { IsPolled micros.now going.old.at }
        requires there { IsJump micros.now (going.old.at + 1) }
        ensures strides { IsStriddenBy micros.now (straight 2) result going.old self.now
            going.new self.now }
        ensures inside { going.new.at < length micros.now }
    {
        self.jump(2, &micros[going.at + 1], going)
    }

    /// A poll and an indirect jump.
    #[inline]
    pub(crate) fn poll_enter(&self, image: &Image, micros: &[MicroOp], going: &mut Going) -> bool
        requires room { 18 ≤ going.old.left }
        requires few { length image.now ≤ most_words }
        requires micros { AreMicrosOf image.now micros.now }
        requires poll { IsPolled micros.now going.old.at }
        requires there { IsEntry micros.now (going.old.at + 1) }
        ensures tried { IsTried result
            (StridesBy image.now (straight 2) going.old self.now going.new self.now)
            going.old self.now going.new self.now }
        ensures inside { result ≡ true → going.new.at < length image.now }
    {
        self.enter(2, &micros[going.at + 1], image, going)
    }

    /// Two words that put a number into a register.
    #[inline]
    pub(crate) fn number(&mut self, micros: &[MicroOp], going: &mut Going) -> bool
        requires room { 18 ≤ going.old.left }
        requires low { going.old.at < most_words }
        requires there { IsNumber micros.now going.old.at }
        ensures strides { IsStriddenBy micros.now (straight 2) result going.old self.old
            going.new self.new }
        ensures inside { going.new.at < length micros.now }
        ensures counts { self.new.counts ≡ self.old.counts }
        ensures undoable { StaysUndoable self.old self.new }
    {
        self.put_number(micros, going);
        going.on(2, 2);
        true
    }

    /// The two words that put a number into a register, and a jump.
    #[inline]
    pub(crate) fn far_call(&mut self, micros: &[MicroOp], going: &mut Going) -> bool
        requires room { 18 ≤ going.old.left }
        requires there { IsNumber micros.now going.old.at }
        requires jump { IsJump micros.now (going.old.at + 2) }
        ensures strides { IsStriddenBy micros.now (straight 3) result going.old self.old
            going.new self.new }
        ensures inside { going.new.at < length micros.now }
        ensures counts { self.new.counts ≡ self.old.counts }
        ensures undoable { StaysUndoable self.old self.new }
    {
        self.put_number(micros, going);
        self.jump(3, &micros[going.at + 2], going)
    }

    /// Puts a number that two words have into a register.
    #[inline(always)]
    fn put_number(&mut self, micros: &[MicroOp], going: &Going)
        requires there { IsNumber micros.now going.now.at }
        ensures lane { (upper lower : MicroOp) → StandsAt micros.now going.now.at upper
            → StandsAt micros.now (going.now.at + 1) lower → (at : ℕ)
            → lane_of self.new.lane at ≡ set_register (lane_of self.old.lane at) upper.rd
            ((upper.imm + lower.imm) % 2 ^ 32) }
        ensures local { self.new.local ≡ self.old.local }
        ensures counts { self.new.counts ≡ self.old.counts }
        ensures undoable { StaysUndoable self.old self.new }
    {
        let upper = &micros[going.at];
        let number = upper.imm.wrapping_add(micros[going.at + 1].imm);
        self.lane.registers.set(upper.rd, number);
    }

    /// A load whose line's state is tested, with `spilled` registers spilled.
    #[tactic(auto, using(crate::proofs::UndoLogLemmas::undoable_same))]
    #[inline]
    pub(crate) fn read(
        &mut self,
        kind: LoadKind,
        spilled: usize,
        micros: &[MicroOp],
        going: &mut Going,
    ) -> bool
        requires room { 18 ≤ going.old.left }
        requires low { going.old.at < most_words }
        requires few { spilled ≤ 2 }
        requires there { IsRead micros.now going.old.at spilled (kind_of_load kind) }
        ensures strides { IsStriddenBy micros.now (checked (9 + 2 * spilled) (1 + spilled))
            result going.old self.old going.new self.new }
        ensures inside { result ≡ true → going.new.at < length micros.now }
        ensures counts { self.new.counts ≡ self.old.counts }
        ensures undoable { StaysUndoable self.old self.new }
    {
        let first = going.at + spilled;
        let look = &micros[first];
        match self.value_checked(kind, self.sum_by(look)) {
            Some(value) => {
                self.leave(spilled, look.rd, micros[first + 1].rd);
                self.lane.registers.set(micros[first + 8].rd, value);
                going.on(8 + 2 * spilled as u32, 9 + 2 * spilled);
                true
            }
            None => false,
        }
    }

    /// A store whose line's state is tested, with `spilled` registers spilled.
    #[inline]
    pub(crate) fn write(
        &mut self,
        width: Width,
        spilled: usize,
        micros: &[MicroOp],
        going: &mut Going,
    ) -> bool
        requires room { 18 ≤ going.old.left }
        requires low { going.old.at < most_words }
        requires few { spilled ≤ 2 }
        requires there { IsWrite micros.now going.old.at spilled (store_kind width) }
        ensures strides { IsStriddenBy micros.now (checked (8 + 2 * spilled) (1 + spilled))
            result going.old self.old going.new self.new }
        ensures inside { result ≡ true → going.new.at < length micros.now }
        ensures counts { self.new.counts ≡ self.old.counts }
        ensures undoable { StaysUndoable self.old self.new }
    {
        let first = going.at + spilled;
        let look = &micros[first];
        let address = self.sum_by(look);
        if !self.log.admits(&self.lane, &self.local, width, address) {
            return false;
        }
        let value = self.lane.registers.get(micros[first + 7].rs2);
        if self.put_checked(width, address, value) {
            self.leave(spilled, look.rd, micros[first + 1].rd);
            going.on(7 + 2 * spilled as u32, 8 + 2 * spilled);
            true
        } else {
            false
        }
    }

    /// A load that looks at its value, with `spilled` registers spilled.
    #[tactic(auto, using(crate::proofs::UndoLogLemmas::undoable_same))]
    #[inline]
    pub(crate) fn flag(&mut self, spilled: usize, micros: &[MicroOp], going: &mut Going) -> bool
        requires room { 18 ≤ going.old.left }
        requires low { going.old.at < most_words }
        requires few { spilled ≤ 1 }
        requires there { IsFlagged micros.now going.old.at spilled }
        ensures strides { IsStriddenBy micros.now (flagged going.old.at spilled)
            result going.old self.old going.new self.new }
        ensures inside { result ≡ true → going.new.at < length micros.now }
        ensures counts { self.new.counts ≡ self.old.counts }
        ensures undoable { StaysUndoable self.old self.new }
    {
        let first = going.at + spilled;
        let look = &micros[first];
        match self.value_unlike_flag(self.sum_by(look)) {
            Some(value) => {
                self.leave_one(spilled == 1, 0, look.rd, FLAG_WORD);
                self.lane.registers.set(micros[first + 2].rd, value);
                going.on(5 + 2 * spilled as u32, 7 + 2 * spilled);
                true
            }
            None => false,
        }
    }

    /// The head of a batch that only loads, with `spilled` registers spilled.
    #[inline(always)]
    pub(crate) fn read_head(
        &mut self,
        spilled: usize,
        micros: &[MicroOp],
        going: &mut Going,
    ) -> bool
        requires room { 18 ≤ going.old.left }
        requires low { going.old.at < most_words }
        requires few { spilled ≤ 3 }
        requires there { IsReadHead micros.now going.old.at spilled }
        ensures strides { IsStriddenBy micros.now (checked (16 + 2 * spilled) spilled)
            result going.old self.old going.new self.new }
        ensures inside { result ≡ true → going.new.at < length micros.now }
        ensures counts { self.new.counts ≡ self.old.counts }
        ensures undoable { StaysUndoable self.old self.new }
    {
        if self.head(2, spilled, micros, going) {
            going.on(12 + 2 * spilled as u32, 16 + 2 * spilled);
            true
        } else {
            false
        }
    }

    /// The head of a batch that stores, with `spilled` registers spilled.
    #[inline(always)]
    pub(crate) fn write_head(
        &mut self,
        spilled: usize,
        micros: &[MicroOp],
        going: &mut Going,
    ) -> bool
        requires room { 18 ≤ going.old.left }
        requires low { going.old.at < most_words }
        requires few { spilled ≤ 3 }
        requires there { IsWriteHead micros.now going.old.at spilled }
        ensures strides { IsStriddenBy micros.now (checked (15 + 2 * spilled) spilled)
            result going.old self.old going.new self.new }
        ensures inside { result ≡ true → going.new.at < length micros.now }
        ensures counts { self.new.counts ≡ self.old.counts }
        ensures undoable { StaysUndoable self.old self.new }
    {
        if self.head(0xff, spilled, micros, going) {
            going.on(11 + 2 * spilled as u32, 15 + 2 * spilled);
            true
        } else {
            false
        }
    }

    /// Tests that these bits of the states of both lines of a batch are clear, and leaves the
    /// scratch registers as its head does.
    #[tactic(auto, using(crate::proofs::UndoLogLemmas::undoable_same))]
    #[inline]
    fn head(&mut self, bits: u8, spilled: usize, micros: &[MicroOp], going: &Going) -> bool
        requires few { spilled ≤ 3 }
        requires there { IsHead micros.now going.now.at spilled }
        requires next { going.now.at + spilled + 6 < length micros.now }
        ensures lane { result ≡ true → (there : IsHead micros.now going.now.at spilled)
            → (at : ℕ) → lane_of self.new.lane at ≡ left_by_head spilled there.x.s there.x.t
            there.u (state_at self.old there.x.base there.high) (lane_of self.old.lane at) }
        ensures clear { result ≡ true → (there : IsHead micros.now going.now.at spilled)
            → bit_and (bit_or (state_at self.old there.x.base there.x.imm)
            (state_at self.old there.x.base there.high)) bits ≡ 0 }
        ensures small { result ≡ true → (there : IsHead micros.now going.now.at spilled)
            → bit_or (state_at self.old there.x.base there.x.imm)
            (state_at self.old there.x.base there.high) < 2 ^ 8 }
        ensures local { self.new.local ≡ self.old.local }
        ensures same { result ≡ false → self.new.lane ≡ self.old.lane }
        ensures counts { self.new.counts ≡ self.old.counts }
        ensures undoable { StaysUndoable self.old self.new }
    {
        let first = going.at + spilled;
        let low = &micros[first];
        let high = &micros[first + 5];
        match self
            .local
            .second_state(bits, self.sum_by(low), self.sum_by(high))
        {
            Some(state) => {
                self.leave_one(spilled == 3, 0, low.rd, 0);
                self.leave_one(spilled >= 2, 1, micros[first + 1].rd, STATE_TABLE);
                self.leave_one(spilled >= 1, 2, high.rd, u32::from(state));
                true
            }
            None => false,
        }
    }

    /// Leaves both scratch registers of a check as it does, with `spilled` spilled.
    #[inline(always)]
    fn leave(&mut self, spilled: usize, s: Reg, t: Reg)
        ensures lane { (at : ℕ) → lane_of self.new.lane at
            ≡ left_by_check spilled s t (lane_of self.old.lane at) }
        ensures local { self.new.local ≡ self.old.local }
        ensures counts { self.new.counts ≡ self.old.counts }
        ensures undoable { StaysUndoable self.old self.new }
    {
        self.leave_one(spilled == 2, 0, s, 0);
        self.leave_one(spilled >= 1, 1, t, STATE_TABLE);
    }

    /// Leaves a scratch register as a check does: spilled it keeps its value, which stands in the
    /// spill word of a number too; else it has another one.
    #[inline(always)]
    fn leave_one(&mut self, spilled: bool, word: usize, r: Reg, value: u32)
        requires { word < 3 }
        ensures lane { (at : ℕ) → lane_of self.new.lane at
            ≡ left_one spilled word r value (lane_of self.old.lane at) }
        ensures local { self.new.local ≡ self.old.local }
        ensures counts { self.new.counts ≡ self.old.counts }
        ensures undoable { StaysUndoable self.old self.new }
    {
        if spilled {
            self.lane.spills[word] = self.lane.registers.get(r);
        } else {
            self.lane.registers.set(r, value);
        }
    }
}
