//! Misses: words that ask for a block.

ghost use Rattle.std.specs.Prelude.{◌≡◌};
ghost use Rattle.replay.specs.node_machine.Wanted.{wanted_in};
ghost use Rattle.run_trace.specs.Given.{what_of};
ghost use Rattle.run_trace.specs.Misses as model;

use crate::traced::What;
use replay::node_machine::WantedBlocks;

/// Whether an event is a word that asks for a block.
pub fn is_miss(what: &What) -> bool
    ensures { result ≡ model.is_miss (what_of what.now) }
{
    match what {
        What::Word(word) => one_asks(&word.wants),
        What::Take(_) => false,
    }
}

/// Whether one of the wants asks for its block.
fn one_asks(wants: &Option<WantedBlocks>) -> bool
    ensures { result ≡ model.one_asks (wanted_in wants.now) }
{
    match wants {
        Some(wants) => {
            wants.first.asks
                || match wants.other {
                    Some(other) => other.asks,
                    None => false,
                }
        }
        None => false,
    }
}
