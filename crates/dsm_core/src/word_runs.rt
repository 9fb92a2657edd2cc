//! Words of a node in a row.

ghost use Rattle.std.specs.Prelude.{◌≡◌, ◌≤◌, List, length};
ghost use Rattle.node_machine.specs.jump_map.Image.{Cell};
ghost use Rattle.dsm_core.specs.CoreSteps.{CanExecute, HasLearned, HavePassedWords, HaveImage};
ghost use Rattle.dsm_core.specs.CoreSteps.{SameWorks};

use node_machine::Node;
use node_machine::node_words::WordLoop;

/// A node executes words by a loop, as long as they print nothing and send nothing, at most so many,
/// and it is given how many.
pub(crate) fn run_by<L: WordLoop>(
    nodes: &mut Vec<Node<'_>>,
    count: u8,
    node: u8,
    by: &mut L,
    most: u64,
) -> u64
    requires count { length nodes.old.items ≡ count }
    requires allowed { CanExecute count nodes.old.items node }
    requires goes_over { HaveImage nodes.old.items (λ image. L.goes_over image by.old) }
    ensures count { length nodes.new.items ≡ count }
    ensures works { SameWorks nodes.old.items nodes.new.items }
    ensures passed { HavePassedWords count node result nodes.old.items nodes.new.items }
    ensures learns { HasLearned count node result nodes.old.items
        (λ work k n. L.learns work k n by.old by.new) }
    ensures stays { (image : List Cell) → L.goes_over image by.old
        → L.goes_over image by.new }
    ensures most { result ≤ most }
{
    nodes[node as usize].run_by(by, most)
}
