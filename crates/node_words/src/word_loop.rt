//! What executes words in a row.

ghost use Rattle.std.specs.Prelude.{◌≡◌, ◌≤◌, ℕ, List, length};
ghost use Rattle.node_memory.specs.jump_map.Image.{Cell, most_words};
ghost use Rattle.node_memory.specs.node_model.Node.{Node, Work};
ghost use Rattle.node_memory.specs.Shelf.{ground_of};
ghost use Rattle.node_words.specs.GoingOn.{BodyGoesOn, BodyTells};
ghost use Rattle.node_words.specs.UndoLogs.{StaysUndoable};

use crate::exec_state::ExecState;
use crate::serve::Progress;
use node_memory::jump_map::Image;

/// A loop over words: it executes one after another, as long as they print nothing and send
/// nothing. It may learn something of the words that it executes.
pub trait WordLoop {
    /// Whether the loop goes over the words of an image.
    ghost goes_over: { List Cell → Self → Type 0 };

    /// What the loop learns of so many next words of a node: what it is before them, and after.
    ghost learns: { Work → ℕ → Node → Self → Self → Type 0 };

    /// Executes words from an index on, and at most so many.
    fn run(&mut self, body: &mut ExecState<'_>, image: &Image, from: u32, most: u64) -> Progress
        requires few { length image.now ≤ most_words }
        requires goes_over { goes_over image.now self.old }
        ensures words { BodyGoesOn image.now most from body.old result.words result.at body.new }
        ensures learns { BodyTells (λ work words n. learns work words n self.old self.new) image.now
            most from body.old result.words }
        ensures stays { (other : List Cell) → goes_over other self.old → goes_over other self.new }
        ensures most { result.words ≤ most }
        ensures ground { ground_of body.new.local ≡ ground_of body.old.local }
        ensures counts { body.new.counts ≡ body.old.counts }
        ensures undoable { StaysUndoable body.old body.new };
}

/// The loop that learns nothing.
#[derive(Clone, Copy, Debug)]
pub struct PlainLoop;

impl WordLoop for PlainLoop {
    ghost goes_over = { λ image l. Unit {0} };

    ghost learns = { λ work words n l m. Unit {0} };

    #[inline(always)]
    fn run(&mut self, body: &mut ExecState<'_>, image: &Image, from: u32, most: u64) -> Progress {
        body.run(image, from, most)
    }
}
