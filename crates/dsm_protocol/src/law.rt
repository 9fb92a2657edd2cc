//! The law of the nodes' buffers.

ghost use Rattle.std.specs.Prelude.{ℕ};
ghost use Rattle.block_layout.specs.Layout.{Shape, IsValid};
ghost use Rattle.dsm_protocol.specs.Buffers.{AreInOnePlace};
ghost use Rattle.dsm_protocol.specs.Holds.{Holds};
ghost use Rattle.dsm_protocol.specs.World.{World};

use block_layout::layout_law;

/// The law of buffers, which callers use by its clause; the call does nothing. Of all nodes and
/// lists to which a protocol list leads: as long as a node waits for a block, the buffer that it
/// took for it is in one message, one request that waits at the block's home or one answered wait.
pub fn buffer_law()
    ensures { (l : Shape) (w : World) (memory : ℕ → ℕ) → IsValid l → Holds l w memory
        → AreInOnePlace l w }
{
    layout_law();
}
