//! What a node's next word does to memory, as far as its micro-op tells.

ghost use Rattle.std.specs.Prelude.{ℕ, IfSome};
ghost use Rattle.node_words.specs.micro_op.Micro.{sum_address};
ghost use Rattle.node_words.specs.rv32_step.declared.Demand.TheVariants.{Loads, Stores};
ghost use Rattle.node_words.specs.node_model.Node.{native};
ghost use Rattle.node_machine.specs.NodeState.{node_of, work_of, IsNode};
ghost use Rattle.node_machine.specs.Touch.{IsAccess, IsTouch};

use crate::node_state::NodeState;
use node_words::micro_op::{MicroKind, MicroOp};
use rv32_decode::{LoadKind, Width};
use rv32_program::addresses::MEMORY_END;

/// What a word does to memory.
#[derive(Clone, Copy, Debug, PartialEq, Eq)]
pub enum Touch {
    Nothing,
    /// It reads so much at an address.
    Reads(LoadKind, u32),
    /// It writes so much at an address.
    Writes(Width, u32),
}

impl<'a> NodeState<'a> {
    /// What the next word does to memory, where its micro-op tells.
    #[inline(always)]
    pub fn touch(&self) -> Option<Touch>
        requires node { IsNode self.now }
        ensures { IfSome result (IsTouch (work_of self.now) (node_of self.now)) }
    {
        let op = self.lane.image.micro(self.lane.at)?;
        match op.kind {
            MicroKind::Slow | MicroKind::JumpBy => None,
            MicroKind::LoadByte => Some(self.reads(LoadKind::Byte, op)),
            MicroKind::LoadHalf => Some(self.reads(LoadKind::Half, op)),
            MicroKind::LoadWord => Some(self.reads(LoadKind::Word, op)),
            MicroKind::LoadByteU => Some(self.reads(LoadKind::ByteU, op)),
            MicroKind::LoadHalfU => Some(self.reads(LoadKind::HalfU, op)),
            MicroKind::StoreByte => Some(self.writes(Width::Byte, op)),
            MicroKind::StoreHalf => Some(self.writes(Width::Half, op)),
            MicroKind::StoreWord => Some(self.writes(Width::Word, op)),
            _ => Some(Touch::Nothing),
        }
    }

    /// What a micro-op reads.
    #[inline(always)]
    fn reads(&self, kind: LoadKind, op: &MicroOp) -> Touch
        ensures access { let work = work_of self.now in let n = node_of self.now in
            (place at rd : ℕ) → IsAccess work n result (native work.program place at n.lane n.local
            (Loads kind rd (sum_address op.now n.lane.registers))).access }
    {
        let address = self.address_by(op);
        if address < MEMORY_END && kind.width().is_aligned(address) {
            Touch::Reads(kind, address)
        } else {
            Touch::Nothing
        }
    }

    /// What a micro-op writes.
    #[inline(always)]
    fn writes(&self, width: Width, op: &MicroOp) -> Touch
        ensures access { let work = work_of self.now in let n = node_of self.now in
            (place at value : ℕ) → IsAccess work n result (native work.program place at n.lane
            n.local (Stores width (sum_address op.now n.lane.registers) value)).access }
    {
        let address = self.address_by(op);
        if address < MEMORY_END && width.is_aligned(address) {
            Touch::Writes(width, address)
        } else {
            Touch::Nothing
        }
    }
}
