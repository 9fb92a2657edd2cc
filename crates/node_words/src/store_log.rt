//! What stores overwrite, where that is noted.

ghost use Rattle.std.specs.Prelude.{◌≡◌, ℕ, true, false};
ghost use Rattle.rv32_decode.specs.Widths.{is_aligned};
ghost use Rattle.node_memory.specs.exec_map.Contents.{program_of};
ghost use Rattle.node_memory.specs.node_model.Node as model;
ghost use Rattle.node_memory.specs.Shelf.{local_of};
ghost use Rattle.node_words.specs.Kept.{lane_of};
ghost use Rattle.node_words.specs.UndoLogs.{HasBytes, Notes};

use crate::exec_state::memory_of;
use crate::lane::ProcessorState;
use node_memory::NodeMemory;
use rv32_decode::Width;
use std::alloc::Global;

/// What a store overwrote.
#[derive(Clone, Copy, Debug, PartialEq, Eq)]
pub struct Note {
    pub width: Width,
    pub address: u32,
    pub value: u32,
}

/// What stores overwrite, in their order, while that is noted.
#[derive(Drop)]
pub struct StoreLog {
    /// Whether stores are noted.
    pub on: bool,
    /// What those overwrote that are noted.
    pub notes: Vec<Note>,
}

impl StoreLog {
    /// A log without room, into which no store is noted. It takes no memory.
    pub fn off(alloc: Global) -> StoreLog
        ensures off { result.on ≡ false }
    {
        StoreLog {
            on: false,
            notes: Vec::new(alloc),
        }
    }

    /// Notes what a store at an address overwrites, where stores are noted, and says whether the
    /// store may be made: not where it is misaligned or there is no room; then nothing is noted.
    #[inline(always)]
    pub(crate) fn admits(
        &mut self,
        lane: &ProcessorState,
        local: &NodeMemory<'_>,
        width: Width,
        address: u32,
    ) -> bool
        ensures noted { result ≡ true → self.old.on ≡ true → (at : ℕ)
            → Notes (model.byte_at (program_of local.now.program) (lane_of lane.now at)
            (local_of local.now)) width address self.old.notes.items self.new.notes.items }
        ensures kept { result ≡ false → self.new ≡ self.old }
        ensures off { self.old.on ≡ false → self.new ≡ self.old }
        ensures on { self.new.on ≡ self.old.on }
    {
        !self.on || self.note(lane, local, width, address)
    }

    /// Notes what a store at an address overwrites, and says whether the store may be made.
    #[inline(never)]
    fn note(
        &mut self,
        lane: &ProcessorState,
        local: &NodeMemory<'_>,
        width: Width,
        address: u32,
    ) -> bool
        ensures noted { result ≡ true → (at : ℕ)
            → Notes (model.byte_at (program_of local.now.program) (lane_of lane.now at)
            (local_of local.now)) width address self.old.notes.items self.new.notes.items }
        ensures kept { result ≡ false → self.new ≡ self.old }
        ensures on { self.new.on ≡ self.old.on }
    {
        if !width.is_aligned(address) || self.notes.len() >= self.notes.capacity() {
            return false;
        }
        let value = old_bytes(lane, local, width, address);
        self.notes.push_reserved(Note {
            width,
            address,
            value,
        });
        true
    }
}

/// The number that the bytes from an aligned address on make.
#[inline(always)]
fn old_bytes(lane: &ProcessorState, local: &NodeMemory<'_>, width: Width, address: u32) -> u32
    requires { is_aligned width address ≡ true }
    ensures { (at : ℕ) → HasBytes (model.byte_at (program_of local.now.program)
        (lane_of lane.now at) (local_of local.now)) width address result }
{
    // brings: each byte is one
    local.bytes_law();
    lane.private.law();
    if let Some(value) = local.load_near(width, address) {
        return value;
    }
    if let Some(value) = lane.private.load(width, address) {
        return value;
    }
    memory_of(lane, local, width, address)
}
