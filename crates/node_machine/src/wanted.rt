//! What a word wants of blocks, as it is looked at.

ghost use Rattle.std.specs.Prelude.{◌≡◌, not, false};
ghost use Rattle.std.specs.Option.{option_map_or};
ghost use Rattle.node_words.specs.home_directory.Table.{meets};
ghost use Rattle.node_words.specs.node_model.Node as model;
ghost use Rattle.node_words.specs.node_memory.Shelf.{local_of, want_of};
ghost use Rattle.node_machine.specs.Wanted as look;

use block_layout::{Block, layout_law};
use node_words::dsm_messages::Need;
use node_words::{NodeMemory, Want};
use state_table::State;

/// A block that a word wants.
#[derive(Clone, Copy)]
pub struct Wanted {
    pub address: u32,
    pub need: Need,
    /// None where the line is in no block.
    pub block: Option<Block>,
    /// The state of the block at the node before.
    pub state: Option<State>,
    /// Whether a message asks for it.
    pub asks: bool,
}

/// The blocks that a word wants, each once.
#[derive(Clone, Copy)]
pub struct WantedBlocks {
    pub first: Wanted,
    pub other: Option<Wanted>,
}

/// What is wanted, as the node is now.
pub fn wanted_of(local: &NodeMemory<'_>, want: Want) -> Wanted
    ensures { (n : model.Node) → n.local ≡ local_of local.now → result
        ≡ look.wanted local.now.copy.layout n (want_of want)
        (look.block_with local.now.copy.layout want.at) }
{
    layout_law();
    local.laws();
    let block = local.block_of(want.at);
    let state = match block {
        Some(block) => Some(local.block_state(block)),
        None => None,
    };
    Wanted {
        address: want.at,
        need: want.need,
        block,
        state,
        asks: is_unmet(want.need, state),
    }
}

/// Whether there is a block in a state that doesn't meet the need.
fn is_unmet(need: Need, state: Option<State>) -> bool
    ensures { result ≡ option_map_or (λ s. not (meets need s)) state false }
{
    match (state, need) {
        (None, _) => false,
        (Some(state), Need::Read) => !state.can_read(),
        (Some(state), Need::Write) => !state.can_write(),
    }
}
