//! Nodes that wait, each once.

ghost use Rattle.std.specs.Prelude.{◌≡◌, ◌<◌, ℕ, true, false, length, slice_set, get_or};
ghost use Rattle.std.specs.Prelude.{IfOk, OnOk, IfSome, IfNone};
ghost use Rattle.liveness.specs.Marks.{Marks};

use std::alloc::{AllocError, Global};

/// Nodes that wait: a stack, and a flag for each node that says whether it stands there.
#[derive(Drop)]
pub struct Worklist {
    pub queue: Vec<u32>,
    pub queued: Vec<bool>,
    ghost once: { Marks queue.items queued.items },
}

impl Worklist {
    /// No node of n waits.
    pub fn empty(alloc: Global, n: usize) -> Result<Worklist, AllocError>
        ensures { IfOk result (λ work. length work.queued.items ≡ n) }
    {
        let queued = vec![in alloc; false; n]?;
        let queue = Vec::new(alloc);
        Ok(Worklist { queue, queued })
    }

    /// Each of n nodes waits.
    pub fn full(alloc: Global, n: u32) -> Result<Worklist, AllocError>
        ensures length { IfOk result (λ work. length work.queued.items ≡ n) }
        ensures each { IfOk result (λ work. (k : ℕ) → k < n
            → get_or work.queued.items k false ≡ true) }
    {
        let mut work = Worklist::empty(alloc, n as usize)?;
        for i in 0..n {
            work.push(i)?;
        }
        Ok(work)
    }

    /// The node waits, if it didn't.
    pub fn push(&mut self, p: u32) -> Result<(), AllocError>
        requires { p < length self.old.queued.items }
        ensures { OnOk result (self.new.queued.items ≡ slice_set self.old.queued.items p true) }
    {
        if !self.queued[p as usize] {
            self.queue.push(p)?;
            self.queued[p as usize] = true;
        }
        Ok(())
    }

    /// A node that waited, which no longer does.
    pub fn pop(&mut self) -> Option<u32>
        ensures some { IfSome result (λ i. get_or self.old.queued.items i false ≡ true) }
        ensures changed { IfSome result (λ i.
            self.new.queued.items ≡ slice_set self.old.queued.items i false) }
        ensures none { IfNone result ((k : ℕ) → get_or self.old.queued.items k false ≡ false) }
    {
        let i = self.queue.pop()?;
        self.queued[i as usize] = false;
        Some(i)
    }
}
