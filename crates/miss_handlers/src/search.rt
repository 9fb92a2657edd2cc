//! The wait for a block, by a search of the list.

ghost use Rattle.std.specs.Prelude.{◌≡◌, is_some};
ghost use Rattle.miss_handlers.specs.Waits.{wait_in};
ghost use Rattle.miss_handlers.specs.Search.{takes_data, takes_ack, takes_grant, IsWaitAt};

use crate::Waiting;
use block_layout::Block;
use home_directory::dsm_messages::Need;

/// How many Acks a wait counts at most: one of each node.
const MOST_ACKS: u8 = 16;

/// Whether there is a wait for a block.
pub fn is_waited_for(waits: &[Waiting], block: Block) -> bool
    ensures { result ≡ is_some (wait_in waits.now block) }
{
    for waiting in waits {
        if block == waiting.block {
            return true;
        }
    }
    false
}

/// Whether there is a wait for a block that has no answer.
pub fn takes_data(waits: &[Waiting], block: Block) -> bool
    ensures { result ≡ takes_data (wait_in waits.now block) }
{
    for waiting in waits {
        if block == waiting.block {
            return waiting.wait.answer.is_none();
        }
    }
    false
}

/// Whether there is a wait for writing a block that counts one Ack more.
pub fn takes_ack(waits: &[Waiting], block: Block) -> bool
    ensures { result ≡ takes_ack (wait_in waits.now block) }
{
    for waiting in waits {
        if block == waiting.block {
            return waiting.wait.need == Need::Write && waiting.wait.counted < MOST_ACKS;
        }
    }
    false
}

/// Whether there is a wait for writing a block that has no answer.
pub fn takes_grant(waits: &[Waiting], block: Block) -> bool
    ensures { result ≡ takes_grant (wait_in waits.now block) }
{
    for waiting in waits {
        if block == waiting.block {
            return waiting.wait.need == Need::Write && waiting.wait.answer.is_none();
        }
    }
    false
}

/// Where the wait for a block stands.
pub fn find(waits: &[Waiting], block: Block) -> Option<usize>
    ensures { IsWaitAt block waits.now result }
{
    for (k, waiting) in waits.iter().enumerate() {
        if block == waiting.block {
            return Some(k);
        }
    }
    None
}
