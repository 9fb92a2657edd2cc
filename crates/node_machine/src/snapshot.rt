//! Where a node was, to see whether it comes round in a loop that changes nothing.

ghost use Rattle.std.specs.Prelude.{◌≡◌};
ghost use Rattle.node_words.specs.micro_op.Micro.{sum_address};
ghost use Rattle.node_machine.specs.NodeState.{node_of};

use crate::node_state::NodeState;
use node_words::jump_map::ImageWord;
use node_words::micro_op::{MicroKind, MicroOp};
use node_words::runtime_words::RtWord;
use rv32_decode::{Instr, Reg};
use rv32_program::addresses::SPILLS;

/// Where a node was: the index of its next word, what its registers held, and what the words held
/// in which sequences keep registers.
#[derive(Clone, Copy, Debug, PartialEq, Eq)]
pub struct Snapshot {
    at: u32,
    registers: [u32; 32],
    spills: [u32; 3],
}

impl<'a> NodeState<'a> {
    /// Where the node is.
    pub fn snapshot(&self) -> Snapshot {
        let mut registers = [0; 32];
        for number in 1..32_u8 {
            registers[number as usize] = self.shared.body.lane.registers.get(Reg::new(number));
        }
        Snapshot {
            at: self.lane.at,
            registers,
            spills: self.shared.body.lane.spills,
        }
    }

    /// Whether the node is where it was, with the same in its registers.
    pub fn is_at(&self, snapshot: &Snapshot) -> bool {
        self.lane.at == snapshot.at && self.snapshot() == *snapshot
    }

    /// Whether the next word may change more than what a [`Snapshot`] keeps. One that waits, or
    /// that reserves an address, may change more too, and isn't counted.
    pub fn stirs(&self) -> bool {
        match self.lane.image.micro(self.lane.at) {
            Some(op) => match op.kind {
                MicroKind::StoreByte | MicroKind::StoreHalf => true,
                MicroKind::StoreWord => self.address_by(op) < SPILLS,
                MicroKind::Slow => word_stirs(self.lane.next_word()),
                _ => false,
            },
            None => true,
        }
    }

    /// The address that a micro-op loads from or stores to.
    #[inline(always)]
    pub(crate) fn address_by(&self, op: &MicroOp) -> u32
        ensures { result ≡ sum_address op.now (node_of self.now).lane.registers }
    {
        self.shared
            .body
            .lane
            .registers
            .get(op.rs1)
            .wrapping_add(op.imm)
    }
}

/// Whether a word that no micro-op serves may change more than registers.
fn word_stirs(word: Option<ImageWord>) -> bool {
    match word {
        Some(word) => !matches!(
            word.what,
            Some(
                RtWord::Native(Instr::Lr { .. } | Instr::Jalr { .. })
                    | RtWord::MissR { .. }
                    | RtWord::MissW { .. }
                    | RtWord::Batch { .. }
                    | RtWord::Xjalr { .. }
                    | RtWord::Poll
            )
        ),
        None => true,
    }
}
