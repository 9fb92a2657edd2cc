//! What one word does, by its micro-op.
//!
//! Each function says whether it has done what the micro-op does. Where it hasn't, nothing has
//! changed, and the word is left to the path that serves every word.

ghost use Rattle.std.specs.Prelude.{◌≡◌, ◌≢◌, ◌+◌, ◌*◌, ◌/◌, ◌^◌, ◌<◌, ◌≤◌, ℕ, List, Some};
ghost use Rattle.std.specs.Prelude.{IfSome, true, false, length};
ghost use Rattle.rv32_decode.specs.declared.LoadKind.{LoadKind};
ghost use Rattle.rv32_ops.specs.Operations as operations;
ghost use Rattle.node_memory.specs.rv32_step.Registers.{reg, registers_of};
ghost use Rattle.node_memory.specs.rv32_step.declared.Demand.TheVariants.{Continues, Jumps};
ghost use Rattle.node_memory.specs.rv32_step.declared.Demand.TheVariants.{Loads, Sets};
ghost use Rattle.node_memory.specs.micro_op.Micro as micro;
ghost use Rattle.node_memory.specs.micro_op.declared.MicroKind.TheVariants as micro_kind;
ghost use Rattle.node_memory.specs.micro_op.Micro.{Demands, Enters, meaning_of, sum_address};
ghost use Rattle.node_memory.specs.jump_map.Image.{Cell, image_base, most_words};
ghost use Rattle.node_memory.specs.node_model.Node as model;
ghost use Rattle.node_memory.specs.node_model.Node.{set_register};
ghost use Rattle.node_words.specs.Address.{word_address};
ghost use Rattle.node_words.specs.GoingOn.{DoesNext};
ghost use Rattle.node_memory.specs.exec_map.Contents.{program_of};
ghost use Rattle.rv32_decode.specs.Widths.{is_aligned, width_of};
ghost use Rattle.node_memory.specs.Shelf.{ground_of, local_of};
ghost use Rattle.node_words.specs.Kept.{LeavesBehind, StepsTo, lane_of};
ghost use Rattle.node_words.specs.Strides.{Gives, IsStored, IsStoredOr, IsTried, StepsBy};
ghost use Rattle.node_words.specs.Strides.{add_kind};
ghost use Rattle.node_words.specs.UndoLogs.{StaysUndoable};

use crate::exec_state::{ExecState, is_in_window};
use crate::lane::address_of;
use crate::strides::Going;
use node_memory::jump_map::{IMAGE_BASE, Image};
use node_memory::micro_op::MicroOp;
use node_memory::node_model::state_table::{is_readable, is_writable};
use node_memory::runtime_words::FLAG_WORD;
use rv32_decode::{Cond, LoadKind, Op, Reg, Width};
use rv32_ops::{alu, extend, taken};

impl<'a> ExecState<'a> {
    /// A word that changes nothing.
    #[inline]
    pub(crate) fn nothing(&self, op: &MicroOp, going: &mut Going) -> bool
        requires room { 0 < going.old.left }
        requires low { going.old.at ≤ most_words }
        requires means { meaning_of image_base op.now (registers_of self.now.lane.registers)
            ≡ Demands Continues }
        ensures tried { (image : List Cell) → IsTried result
            (StepsBy image op.now going.old self.now going.new self.now)
            going.old self.now going.new self.now }
        ensures next { going.new.at ≡ going.old.at + 1 }
    {
        going.on(1, 1);
        true
    }

    /// Puts a number into a register.
    #[inline]
    pub(crate) fn constant(&mut self, op: &MicroOp, going: &mut Going) -> bool
        requires room { 0 < going.old.left }
        requires low { going.old.at ≤ most_words }
        requires means { meaning_of image_base op.now (registers_of self.old.lane.registers)
            ≡ Demands (Sets op.now.rd op.now.imm) }
        ensures tried { (image : List Cell) → IsTried result
            (StepsBy image op.now going.old self.old going.new self.new)
            going.old self.old going.new self.new }
        ensures next { going.new.at ≡ going.old.at + 1 }
        ensures counts { self.new.counts ≡ self.old.counts }
        ensures log { self.new.log ≡ self.old.log }
        ensures undoable { StaysUndoable self.old self.new }
    {
        self.lane.registers.set(op.rd, op.imm);
        going.on(1, 1);
        true
    }

    /// An operation on a register and the immediate.
    #[inline(always)]
    pub(crate) fn by_immediate(&mut self, o: Op, op: &MicroOp, going: &mut Going) -> bool
        requires room { 0 < going.old.left }
        requires low { going.old.at ≤ most_words }
        requires means { meaning_of image_base op.now (registers_of self.old.lane.registers)
            ≡ micro.by_immediate o op.now (registers_of self.old.lane.registers) }
        ensures tried { (image : List Cell) → IsTried result
            (StepsBy image op.now going.old self.old going.new self.new)
            going.old self.old going.new self.new }
        ensures counts { self.new.counts ≡ self.old.counts }
        ensures log { self.new.log ≡ self.old.log }
        ensures undoable { StaysUndoable self.old self.new }
        ensures next { going.new.at ≡ going.old.at + 1 }
        ensures left { going.new.left + 1 ≡ going.old.left }
        ensures done { result ≡ true }
    {
        let value = alu(o, self.lane.registers.get(op.rs1), op.imm);
        self.lane.registers.set(op.rd, value);
        going.on(1, 1);
        true
    }

    /// An operation on two registers.
    #[inline(always)]
    pub(crate) fn by_registers(&mut self, o: Op, op: &MicroOp, going: &mut Going) -> bool
        requires room { 0 < going.old.left }
        requires low { going.old.at ≤ most_words }
        requires means { meaning_of image_base op.now (registers_of self.old.lane.registers)
            ≡ micro.by_registers o op.now (registers_of self.old.lane.registers) }
        ensures tried { (image : List Cell) → IsTried result
            (StepsBy image op.now going.old self.old going.new self.new)
            going.old self.old going.new self.new }
        ensures counts { self.new.counts ≡ self.old.counts }
        ensures log { self.new.log ≡ self.old.log }
        ensures undoable { StaysUndoable self.old self.new }
        ensures next { going.new.at ≡ going.old.at + 1 }
        ensures left { going.new.left + 1 ≡ going.old.left }
        ensures done { result ≡ true }
    {
        let a = self.lane.registers.get(op.rs1);
        let value = alu(o, a, self.lane.registers.get(op.rs2));
        self.lane.registers.set(op.rd, value);
        going.on(1, 1);
        true
    }

    /// A sum of two registers, or of a register and the immediate.
    #[inline(always)]
    pub(crate) fn add(&mut self, registers: bool, op: &MicroOp, going: &mut Going) -> bool
        requires room { 0 < going.old.left }
        requires low { going.old.at ≤ most_words }
        requires is { op.now.kind ≡ add_kind registers }
        ensures tried { (image : List Cell) → IsTried result
            (StepsBy image op.now going.old self.old going.new self.new)
            going.old self.old going.new self.new }
        ensures next { going.new.at ≡ going.old.at + 1 }
        ensures left { going.new.left + 1 ≡ going.old.left }
        ensures done { result ≡ true }
        ensures counts { self.new.counts ≡ self.old.counts }
        ensures undoable { StaysUndoable self.old self.new }
    {
        if registers {
            self.by_registers(Op::Add, op, going)
        } else {
            self.by_immediate(Op::Add, op, going)
        }
    }

    /// A slow operation on two registers.
    #[inline]
    pub(crate) fn by_slow(&mut self, o: Op, op: &MicroOp, going: &mut Going) -> bool
        requires room { 0 < going.old.left }
        requires low { going.old.at ≤ most_words }
        requires means { meaning_of image_base op.now (registers_of self.old.lane.registers)
            ≡ micro.by_registers o op.now (registers_of self.old.lane.registers) }
        ensures tried { (image : List Cell) → IsTried result
            (StepsBy image op.now going.old self.old going.new self.new)
            going.old self.old going.new self.new }
        ensures next { going.new.at ≡ going.old.at + 1 }
        ensures counts { self.new.counts ≡ self.old.counts }
        ensures log { self.new.log ≡ self.old.log }
        ensures undoable { StaysUndoable self.old self.new }
    {
        self.put_result(o, op.rd, op.rs1, op.rs2);
        going.on(1, 1);
        true
    }

    /// Puts the result of an operation on two registers into a register.
    #[inline(never)]
    fn put_result(&mut self, o: Op, rd: Reg, rs1: Reg, rs2: Reg)
        ensures lane { let registers = registers_of self.old.lane.registers in (at : ℕ)
            → lane_of self.new.lane at ≡ set_register (lane_of self.old.lane at) rd
            (operations.alu o (reg registers rs1) (reg registers rs2)) }
        ensures local { self.new.local ≡ self.old.local }
        ensures counts { self.new.counts ≡ self.old.counts }
        ensures log { self.new.log ≡ self.old.log }
        ensures undoable { StaysUndoable self.old self.new }
    {
        let a = self.lane.registers.get(rs1);
        let value = alu(o, a, self.lane.registers.get(rs2));
        self.lane.registers.set(rd, value);
    }

    /// A jump that keeps no link, where it is the last of `words` words.
    #[inline(always)]
    pub(crate) fn jump(&self, words: u32, op: &MicroOp, going: &mut Going) -> bool
        requires room { words ≤ going.old.left }
        ensures left { going.new.left + words ≡ going.old.left }
        ensures at { going.new.at ≡ op.now.imm }
        ensures low { going.new.at < 2 ^ 32 }
        ensures done { result ≡ true }
    {
        going.to(words, op.imm as usize);
        true
    }

    /// A jump that keeps no link, by itself.
    #[inline]
    pub(crate) fn jump_by(&self, op: &MicroOp, going: &mut Going) -> bool
        requires room { 0 < going.old.left }
        requires is { op.now.kind ≡ micro_kind.Jump }
        requires keeps_none { op.now.rd ≡ 0 }
        ensures tried { (image : List Cell) → IsTried result
            (StepsBy image op.now going.old self.now going.new self.now)
            going.old self.now going.new self.now }
        ensures to { going.new.at ≡ op.now.imm }
    {
        self.jump(1, op, going)
    }

    /// A jump that keeps the address of the next word in a register.
    #[inline]
    pub(crate) fn link(&mut self, op: &MicroOp, going: &mut Going) -> bool
        requires room { 0 < going.old.left }
        requires low { going.old.at ≤ most_words }
        requires means { meaning_of image_base op.now (registers_of self.old.lane.registers)
            ≡ Demands (Jumps op.now.rd (word_address op.now.imm)) }
        ensures tried { (image : List Cell) → IsTried result
            (StepsBy image op.now going.old self.old going.new self.new)
            going.old self.old going.new self.new }
        ensures to { going.new.at ≡ op.now.imm }
        ensures counts { self.new.counts ≡ self.old.counts }
        ensures log { self.new.log ≡ self.old.log }
        ensures undoable { StaysUndoable self.old self.new }
    {
        let next = address_of(going.at as u32 + 1);
        self.lane.registers.set(op.rd, next);
        going.to(1, op.imm as usize);
        true
    }

    /// Enters the sequence of an original address, where it is the last of `words` words.
    #[inline(always)]
    pub(crate) fn enter(&self, words: u32, op: &MicroOp, image: &Image, going: &mut Going) -> bool
        requires room { words ≤ going.old.left }
        ensures left { result ≡ true → going.new.left + words ≡ going.old.left }
        ensures steps { result ≡ true → (at : ℕ) → StepsTo image.now
            (Enters (sum_address op.now (registers_of self.now.lane.registers) / 2 * 2)) at
            self.now.lane self.now.local self.now.lane self.now.local (Some going.new.at) }
        ensures low { result ≡ true → going.new.at < 2 ^ 32 }
        ensures inside { result ≡ true → going.new.at < length image.now }
        ensures none { result ≡ false → going.new ≡ going.old }
    {
        let original = self.sum_by(op) / 2 * 2;
        if original % 4 != 0 {
            return false;
        }
        match image.new_of(original) {
            Some(new) => {
                going.to(words, ((new - IMAGE_BASE) / 4) as usize);
                true
            }
            None => false,
        }
    }

    /// An indirect jump, by itself.
    #[inline(always)]
    pub(crate) fn enter_by(&self, op: &MicroOp, image: &Image, going: &mut Going) -> bool
        requires room { 0 < going.old.left }
        requires means { meaning_of image_base op.now (registers_of self.now.lane.registers)
            ≡ Enters (sum_address op.now (registers_of self.now.lane.registers) / 2 * 2) }
        ensures tried { IsTried result
            (StepsBy image.now op.now going.old self.now going.new self.now)
            going.old self.now going.new self.now }
        ensures inside { result ≡ true → going.new.at < length image.now }
    {
        self.enter(1, op, image, going)
    }

    /// A branch.
    #[inline]
    pub(crate) fn branch(&self, c: Cond, op: &MicroOp, going: &mut Going) -> bool
        requires room { 0 < going.old.left }
        requires low { going.old.at ≤ most_words }
        requires means { meaning_of image_base op.now (registers_of self.now.lane.registers)
            ≡ micro.branches c image_base op.now (registers_of self.now.lane.registers) }
        ensures tried { (image : List Cell) → IsTried result
            (StepsBy image op.now going.old self.now going.new self.now)
            going.old self.now going.new self.now }
        ensures inside { (words : ℕ) → going.old.at + 1 < words → op.now.imm < words
            → going.new.at < words }
    {
        if self.holds(c, op) {
            going.to(1, op.imm as usize);
        } else {
            going.on(1, 1);
        }
        true
    }

    /// A load, where it is aligned.
    #[inline]
    pub(crate) fn load_by(&mut self, kind: LoadKind, op: &MicroOp, going: &mut Going) -> bool
        requires room { 0 < going.old.left }
        requires low { going.old.at ≤ most_words }
        requires means { meaning_of image_base op.now (registers_of self.old.lane.registers)
            ≡ micro.loads kind op.now (registers_of self.old.lane.registers) }
        ensures tried { (image : List Cell) → IsTried result
            (StepsBy image op.now going.old self.old going.new self.new)
            going.old self.old going.new self.new }
        ensures next { result ≡ true → going.new.at ≡ going.old.at + 1 }
        ensures counts { self.new.counts ≡ self.old.counts }
        ensures log { self.new.log ≡ self.old.log }
        ensures undoable { StaysUndoable self.old self.new }
    {
        match self.local.load_near(kind.width(), self.sum_by(op)) {
            Some(raw) => {
                self.lane.registers.set(op.rd, extend(kind, raw));
                going.on(1, 1);
                true
            }
            None => {
                if self.load_far(kind, op) {
                    going.on(1, 1);
                    true
                } else {
                    false
                }
            }
        }
    }

    /// Loads wherever the address lies, and says whether it does: not where it is misaligned, or
    /// neither of a line nor of the window.
    #[tactic(auto, using(crate::proofs::UndoLogLemmas::undoable_same))]
    #[inline(always)]
    fn load_far(&mut self, kind: LoadKind, op: &MicroOp) -> bool
        ensures does { result ≡ true → DoesNext self.old
            (Loads kind op.now.rd (sum_address op.now (registers_of self.old.lane.registers)))
            self.new }
        ensures same { result ≡ false → (self.new.lane ≡ self.old.lane)
            × (self.new.local ≡ self.old.local) }
        ensures counts { self.new.counts ≡ self.old.counts }
        ensures log { self.new.log ≡ self.old.log }
        ensures undoable { StaysUndoable self.old self.new }
    {
        let address = self.sum_by(op);
        if kind.width().is_aligned(address) {
            self.load_apart(kind, op.rd, address);
            true
        } else {
            false
        }
    }

    /// A store, where it is aligned.
    #[inline]
    pub(crate) fn store_by(&mut self, width: Width, op: &MicroOp, going: &mut Going) -> bool
        requires room { 0 < going.old.left }
        requires low { going.old.at ≤ most_words }
        requires means { meaning_of image_base op.now (registers_of self.old.lane.registers)
            ≡ micro.stores width op.now (registers_of self.old.lane.registers) }
        ensures tried { (image : List Cell) → IsTried result
            (StepsBy image op.now going.old self.old going.new self.new)
            going.old self.old going.new self.new }
        ensures next { result ≡ true → going.new.at ≡ going.old.at + 1 }
        ensures counts { self.new.counts ≡ self.old.counts }
        ensures log { result ≡ false → self.new.log ≡ self.old.log }
        ensures undoable { StaysUndoable self.old self.new }
    {
        let address = self.sum_by(op);
        if !self.log.admits(&self.lane, &self.local, width, address) {
            return false;
        }
        let value = self.lane.registers.get(op.rs2);
        if self.local.store_near(width, address, value) {
            going.on(1, 1);
            true
        } else if self.store_far(width, op) {
            going.on(1, 1);
            true
        } else {
            false
        }
    }

    /// Stores wherever the address lies, and says whether it does.
    #[inline(never)]
    fn store_far(&mut self, width: Width, op: &MicroOp) -> bool
        ensures aligned { result ≡ is_aligned width
            (sum_address op.now (registers_of self.old.lane.registers)) }
        ensures leaves { result ≡ true → (at : ℕ)
            → let registers = registers_of self.old.lane.registers in
            let address = sum_address op.now registers in
            LeavesBehind
            (model.store (program_of self.old.local.program) (lane_of self.old.lane at)
            (local_of self.old.local) width address (reg registers op.now.rs2)
            (model.region_of address)) (ground_of self.old.local) at self.new.lane
            self.new.local }
        ensures same { result ≡ false → (self.new.lane ≡ self.old.lane)
            × (self.new.local ≡ self.old.local) }
        ensures counts { self.new.counts ≡ self.old.counts }
        ensures log { self.new.log ≡ self.old.log }
    {
        let address = self.sum_by(op);
        if width.is_aligned(address) {
            let value = self.lane.registers.get(op.rs2);
            self.store(width, address, value);
            true
        } else {
            false
        }
    }

    /// Whether a condition holds of the registers of a micro-op.
    #[inline(always)]
    pub(crate) fn holds(&self, c: Cond, op: &MicroOp) -> bool
        ensures { let registers = registers_of self.now.lane.registers in
            result ≡ operations.taken c (reg registers op.now.rs1) (reg registers op.now.rs2) }
    {
        let a = self.lane.registers.get(op.rs1);
        taken(c, a, self.lane.registers.get(op.rs2))
    }

    /// The address that rs1 and the immediate of a micro-op make.
    #[inline(always)]
    pub fn sum_by(&self, op: &MicroOp) -> u32
        ensures { result ≡ sum_address op.now (registers_of self.now.lane.registers) }
    {
        self.lane.registers.get(op.rs1).wrapping_add(op.imm)
    }

    /// What a load from an address gives, where its line may be read; `None` also where it is
    /// misaligned, or neither of a line nor of the window.
    #[inline(always)]
    pub(crate) fn value_checked(&self, kind: LoadKind, address: u32) -> Option<u32>
        ensures value { IfSome result (Gives self.now kind address) }
        ensures readable { IfSome result (λ value.
            model.is_readable_state ((local_of self.now.local).state (address / 64)) ≡ true) }
    {
        match self.local.load_readable(kind.width(), address) {
            Some(raw) => Some(extend(kind, raw)),
            None => self.value_readable(kind, address),
        }
    }

    /// What a load from an address gives where its line may be read, whichever line it is. Each
    /// line of the window may be.
    #[inline(never)]
    fn value_readable(&self, kind: LoadKind, address: u32) -> Option<u32>
        ensures value { IfSome result (Gives self.now kind address) }
        ensures readable { IfSome result (λ value.
            model.is_readable_state ((local_of self.now.local).state (address / 64)) ≡ true) }
    {
        let width = kind.width();
        if !width.is_aligned(address) {
            return None;
        }
        match self.lane.private.load(width, address) {
            Some(raw) => {
                // brings: the state byte of a line of the window
                self.local.laws();
                Some(extend(kind, raw))
            }
            None => self.readable_outside(kind, address),
        }
    }

    /// What a load from an aligned address outside the window gives, where its line may be read.
    #[inline(never)]
    fn readable_outside(&self, kind: LoadKind, address: u32) -> Option<u32>
        requires { is_aligned (width_of kind) address ≡ true }
        ensures value { IfSome result (Gives self.now kind address) }
        ensures readable { IfSome result (λ value.
            model.is_readable_state ((local_of self.now.local).state (address / 64)) ≡ true) }
    {
        if is_readable(self.local.state(address / 64)) {
            self.value_outside(kind, address)
        } else {
            None
        }
    }

    /// The word of an address, where it isn't the flag word.
    #[inline(always)]
    pub fn value_unlike_flag(&self, address: u32) -> Option<u32>
        ensures value { IfSome result (Gives self.now LoadKind.Word address) }
        ensures unlike { IfSome result (λ value. value ≢ 0xffffff03) }
    {
        match self.value_at(LoadKind::Word, address) {
            Some(value) if value != FLAG_WORD => Some(value),
            _ => None,
        }
    }

    /// What a load from an address gives; `None` where it is misaligned, or neither of a line nor
    /// of the window.
    #[inline(always)]
    fn value_at(&self, kind: LoadKind, address: u32) -> Option<u32>
        ensures value { IfSome result (Gives self.now kind address) }
    {
        match self.local.load_near(kind.width(), address) {
            Some(raw) => Some(extend(kind, raw)),
            None => self.value_far(kind, address),
        }
    }

    /// What a load from an address gives, whichever line it is.
    #[inline(always)]
    fn value_far(&self, kind: LoadKind, address: u32) -> Option<u32>
        ensures value { IfSome result (Gives self.now kind address) }
    {
        let width = kind.width();
        if !width.is_aligned(address) {
            return None;
        }
        match self.lane.private.load(width, address) {
            Some(raw) => Some(extend(kind, raw)),
            None => self.value_outside(kind, address),
        }
    }

    /// What a load from an aligned address outside the window gives.
    #[inline(never)]
    fn value_outside(&self, kind: LoadKind, address: u32) -> Option<u32>
        requires { is_aligned (width_of kind) address ≡ true }
        ensures value { IfSome result (Gives self.now kind address) }
    {
        let width = kind.width();
        if let Some(raw) = self.local.load_fixed(width, address) {
            return Some(extend(kind, raw));
        }
        match self.local.load(width, address) {
            Some(raw) => Some(extend(kind, raw)),
            None => None,
        }
    }

    /// Stores at an address where its line may be written, and says whether it does: also not where
    /// it is misaligned, or neither of a shared line nor of the window.
    #[inline(always)]
    pub(crate) fn put_checked(&mut self, width: Width, address: u32, value: u32) -> bool
        ensures stores { IsStoredOr result (IsStored self.old width address value self.new)
            self.old self.new }
        ensures writable { result ≡ true →
            model.is_writable_state ((local_of self.old.local).state (address / 64)) ≡ true }
        ensures counts { self.new.counts ≡ self.old.counts }
        ensures log { self.new.log ≡ self.old.log }
    {
        if self.local.store_writable(width, address, value) {
            return true;
        }
        self.put_far(width, address, value)
    }

    /// Stores at an address where its line may be written, whichever line it is. Each line of the
    /// window may be.
    #[inline(never)]
    fn put_far(&mut self, width: Width, address: u32, value: u32) -> bool
        ensures stores { IsStoredOr result (IsStored self.old width address value self.new)
            self.old self.new }
        ensures writable { result ≡ true →
            model.is_writable_state ((local_of self.old.local).state (address / 64)) ≡ true }
        ensures counts { self.new.counts ≡ self.old.counts }
        ensures log { self.new.log ≡ self.old.log }
    {
        if !width.is_aligned(address) {
            return false;
        }
        if is_in_window(address) {
            // brings: the state byte of a line of the window
            self.local.laws();
            let _ = self.lane.private.store(width, address, value);
            return true;
        }
        self.put_outside(width, address, value)
    }

    /// Stores at an aligned address outside the window, where its line may be written.
    #[inline(never)]
    fn put_outside(&mut self, width: Width, address: u32, value: u32) -> bool
        requires { is_aligned width address ≡ true }
        ensures stores { IsStoredOr result (IsStored self.old width address value self.new)
            self.old self.new }
        ensures writable { result ≡ true →
            model.is_writable_state ((local_of self.old.local).state (address / 64)) ≡ true }
        ensures counts { self.new.counts ≡ self.old.counts }
        ensures log { self.new.log ≡ self.old.log }
    {
        if !is_writable(self.local.state(address / 64)) {
            return false;
        }
        self.local.store(width, address, value)
    }
}
