//! Which blocks several nodes write, each at words of its own.

ghost use Rattle.std.specs.Prelude.{◌≡◌, ◌++◌, ◌∷◌, ℕ, List, [], Some, OnOk};
ghost use Rattle.std.specs.Ordering.{nat_cmp};
ghost use Rattle.std.specs.BTreeMap.{get};
ghost use Rattle.block_layout.specs.Update.{changed};
ghost use Rattle.event_text.specs.run_trace.Passing.{is_write};
ghost use Rattle.block_view.specs.Sharing as model;
ghost use Rattle.block_view.specs.Writers.{IsWriterOf, write_of};

use block_layout::Block;
use event_text::run_trace::{AccessKind, Accessed, Traced, What};
use std::alloc::{AllocError, Global};
use std::collections::BTreeMap;

/// Who writes in a block.
#[derive(Clone, Copy)]
pub(crate) enum Writer {
    Nobody,
    One(u8),
    Several,
}

/// The aligned words of four bytes that are written, each by its address / 4.
#[derive(Drop)]
pub(crate) struct WrittenWords {
    /// The node that wrote each first.
    pub first: BTreeMap<u32, u8>,
    /// Another node has written one of them too.
    pub meet: bool,
}

impl WrittenWords {
    ghost use Rattle.std.specs.Prelude.{◌++◌, ◌∷◌, List, [], OnOk};
    ghost use Rattle.block_view.specs.Sharing.{Write};
    ghost use Rattle.block_view.specs.Writers.{AreWordsOf, write_of};

    /// No words.
    fn new(alloc: Global) -> WrittenWords
        ensures { AreWordsOf result [] }
    {
        WrittenWords {
            first: BTreeMap::new(alloc),
            meet: false,
        }
    }

    /// A node has written a word.
    #[tactic(auto, using(crate::proofs::Writing::words))]
    fn add(&mut self, node: u8, word: u32) -> Result<(), AllocError>
        ensures { OnOk result ((ws : List Write) → AreWordsOf self.old ws
            → AreWordsOf self.new (ws ++ write_of node word ∷ [])) }
    {
        match self.first.get(&word).copied() {
            None => put_first(&mut self.first, word, node)?,
            Some(first) if first != node => self.meet = true,
            Some(_) => {}
        }
        Ok(())
    }
}

/// Notes the node that has written a word first.
fn put_first(first: &mut BTreeMap<u32, u8>, word: u32, node: u8) -> Result<(), AllocError>
    ensures { OnOk result ((a : ℕ) → get nat_cmp first.new a
        ≡ changed (λ k. get nat_cmp first.old k) word (Some node) a) }
{
    first.insert(word, node)?;
    Ok(())
}

/// The writes in a block.
#[derive(Drop)]
pub(crate) struct Writers {
    pub who: Writer,
    pub words: WrittenWords,
}

impl Writers {
    ghost use Rattle.std.specs.Prelude.{◌≡◌, ◌++◌, ◌∷◌, List, [], OnOk};
    ghost use Rattle.block_view.specs.Sharing.{Write};
    ghost use Rattle.block_view.specs.Writers.{AreWritersOf, write_of, says_shared};

    /// Of a block that nobody has written.
    fn new(alloc: Global) -> Writers
        ensures { AreWritersOf result [] }
    {
        Writers {
            who: Writer::Nobody,
            words: WrittenWords::new(alloc),
        }
    }

    /// A node has written a word.
    fn add(&mut self, node: u8, word: u32) -> Result<(), AllocError>
        ensures { OnOk result ((ws : List Write) → AreWritersOf self.old ws
            → AreWritersOf self.new (ws ++ write_of node word ∷ [])) }
    {
        self.words.add(node, word)?;
        self.who = with_node(self.who, node);
        Ok(())
    }

    /// Whether several nodes write in the block, and no two of them the same word.
    fn are_apart(&self) -> bool
        ensures { result ≡ says_shared self.now }
    {
        matches!(self.who, Writer::Several) && !self.words.meet
    }
}

/// Who writes in a block, after a node has written a word of it.
#[tactic(auto, using(crate::proofs::Writing::writers))]
fn with_node(who: Writer, node: u8) -> Writer
    ensures { (ws : List model.Write) (word : ℕ) → IsWriterOf who ws
        → IsWriterOf result (ws ++ write_of node word ∷ []) }
{
    match who {
        Writer::Nobody => Writer::One(node),
        Writer::One(first) if first == node => who,
        _ => Writer::Several,
    }
}

/// Whether an access of a kind writes.
fn is_write(kind: AccessKind) -> bool
    ensures { result ≡ is_write kind }
{
    match kind {
        AccessKind::Writes | AccessKind::Exchanges => true,
        AccessKind::Reads | AccessKind::WritesNot => false,
    }
}

/// The writes in each block.
#[derive(Drop)]
pub(crate) struct Sharing {
    pub blocks: Vec<Writers>,
}

impl Sharing {
    ghost use Rattle.std.specs.Prelude.{◌≡◌, ◌<◌, ℕ, List, [], length, IfOk, OnOk};
    ghost use Rattle.event_text.specs.run_trace.Given.{traced_of};
    ghost use Rattle.block_view.specs.Sharing.{Write};
    ghost use Rattle.block_view.specs.Writers.{AreSharedBy, writes_by, writes_with, shared_in};

    /// The sharing of `blocks` blocks that nobody has written.
    pub(crate) fn new(alloc: Global, blocks: u32) -> Result<Sharing, AllocError>
        ensures count { IfOk result (λ s. length s.blocks.items ≡ blocks) }
        ensures none { IfOk result (λ s. AreSharedBy s.blocks.items (λ b. [])) }
    {
        let mut writers = Vec::new(alloc);
        for _ in 0..blocks {
            writers.push(Writers::new(alloc))?;
        }
        Ok(Sharing { blocks: writers })
    }

    /// An event was made.
    pub(crate) fn add(&mut self, event: &Traced) -> Result<(), AllocError>
        ensures count { length self.new.blocks.items ≡ length self.old.blocks.items }
        ensures writes { OnOk result ((writes : ℕ → List Write)
            → AreSharedBy self.old.blocks.items writes
            → AreSharedBy self.new.blocks.items (writes_by writes (traced_of event.now))) }
    {
        match &event.what {
            What::Word(word) => self.add_access(event.node, word.access),
            What::Take(_) => Ok(()),
        }
    }

    /// A node has accessed memory.
    pub(crate) fn add_access(
        &mut self,
        node: u8,
        access: Option<Accessed>,
    ) -> Result<(), AllocError>
        ensures count { length self.new.blocks.items ≡ length self.old.blocks.items }
        ensures writes { OnOk result ((writes : ℕ → List Write)
            → AreSharedBy self.old.blocks.items writes
            → AreSharedBy self.new.blocks.items (writes_with writes node access)) }
    {
        let Some(accessed) = access else {
            return Ok(());
        };
        if !is_write(accessed.kind) {
            return Ok(());
        }
        match accessed.block {
            Some(block) if (block as usize) < self.blocks.len() => {
                self.blocks[block as usize].add(node, accessed.address / 4)
            }
            _ => Ok(()),
        }
    }

    /// Whether several nodes write in a block, each at words of its own.
    #[tactic(auto, using(crate::proofs::Writing::found_shared))]
    pub(crate) fn is_falsely_shared(&self, block: Block) -> bool
        requires { block < length self.now.blocks.items }
        ensures { result ≡ shared_in self.now.blocks.items block }
    {
        self.blocks[block as usize].are_apart()
    }
}
