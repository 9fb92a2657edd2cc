//! The predecessors of each node.

ghost use Rattle.std.specs.Prelude.{◌≡◌, ◌<◌, ◌+◌, ◌*◌, ◌/◌, ◌^◌, ℕ, true, false, length};
ghost use Rattle.std.specs.Prelude.{get_or, OnOk, IfOk, Some};
ghost use Rattle.liveness.specs.Chains.{Falls, Within, IsInto, StayInto};
ghost use Rattle.liveness.specs.Leads.{Leads};

use crate::node::FlowNode;
use crate::work::Worklist;
use std::alloc::{AllocError, Global};

/// For each node the last edge into it, and for each edge the one before it into the same node.
/// Edge e is numbered e + 1, and 0 is none. The edges 2 p and 2 p + 1 are those of node p.
#[derive(Drop)]
pub struct Predecessors {
    pub heads: Vec<u32>,
    pub links: Vec<u32>,
    ghost falls: { Falls links.items },
    ghost within: { Within heads.items links.items },
}

impl Predecessors {
    /// Of n nodes with no edge.
    fn none(alloc: Global, n: usize) -> Result<Predecessors, AllocError>
        ensures heads { IfOk result (λ back. length back.heads.items ≡ n) }
        ensures links { IfOk result (λ back. length back.links.items ≡ 0) }
    {
        let heads = vec![in alloc; 0u32; n]?;
        let links = Vec::new(alloc);
        Ok(Predecessors { heads, links })
    }

    /// Adds the next edge.
    fn add(&mut self, target: Option<u32>) -> Result<(), AllocError>
        requires room { length self.old.links.items + 1 < 2 ^ 32 }
        ensures heads { OnOk result (length self.new.heads.items ≡ length self.old.heads.items) }
        ensures links { OnOk result
            (length self.new.links.items ≡ length self.old.links.items + 1) }
        ensures kept { OnOk result (StayInto self.old.heads.items self.old.links.items
            self.new.heads.items self.new.links.items) }
        ensures added { OnOk result ((b : ℕ) → target ≡ Some b → b < length self.old.heads.items
            → IsInto self.new.heads.items self.new.links.items (length self.old.links.items) b) }
    {
        match target {
            Some(b) if (b as usize) < self.heads.len() => self.enter(b),
            _ => self.pass(),
        }
    }

    /// Adds the next edge, into node b.
    fn enter(&mut self, b: u32) -> Result<(), AllocError>
        requires room { length self.old.links.items + 1 < 2 ^ 32 }
        requires within { b < length self.old.heads.items }
        ensures heads { OnOk result (length self.new.heads.items ≡ length self.old.heads.items) }
        ensures links { OnOk result
            (length self.new.links.items ≡ length self.old.links.items + 1) }
        ensures kept { OnOk result (StayInto self.old.heads.items self.old.links.items
            self.new.heads.items self.new.links.items) }
        ensures added { OnOk result
            (IsInto self.new.heads.items self.new.links.items (length self.old.links.items) b) }
    {
        let before = self.heads[b as usize];
        self.links.push(before)?;
        self.heads[b as usize] = self.links.len() as u32;
        Ok(())
    }

    /// The next edge leads nowhere.
    fn pass(&mut self) -> Result<(), AllocError>
        requires room { length self.old.links.items + 1 < 2 ^ 32 }
        ensures heads { OnOk result (self.new.heads.items ≡ self.old.heads.items) }
        ensures links { OnOk result
            (length self.new.links.items ≡ length self.old.links.items + 1) }
        ensures kept { OnOk result (StayInto self.old.heads.items self.old.links.items
            self.new.heads.items self.new.links.items) }
    {
        self.links.push(0)?;
        Ok(())
    }

    /// The edges of these nodes.
    pub fn of(alloc: Global, nodes: &[FlowNode]) -> Result<Predecessors, AllocError>
        requires few { length nodes.now < 2 ^ 31 }
        ensures heads { IfOk result (λ back. length back.heads.items ≡ length nodes.now) }
        ensures links { IfOk result (λ back. length back.links.items ≡ 2 * length nodes.now) }
        ensures each { IfOk result (λ back.
            Leads nodes.now (length nodes.now) back.heads.items back.links.items) }
    {
        let mut back = Predecessors::none(alloc, nodes.len())?;
        for node in nodes {
            back.add(node.first)?;
            back.add(node.second)?;
        }
        Ok(back)
    }

    /// Each predecessor of node i waits.
    pub fn mark(&self, i: usize, work: &mut Worklist) -> Result<(), AllocError>
        requires i { i < length self.now.heads.items }
        requires work { length self.now.links.items ≡ 2 * length work.old.queued.items }
        ensures length { OnOk result (length work.new.queued.items ≡ length work.old.queued.items) }
        ensures marked { OnOk result ((e : ℕ) → IsInto self.now.heads.items self.now.links.items e i
            → get_or work.new.queued.items (e / 2) false ≡ true) }
        ensures kept { OnOk result ((x : ℕ) → get_or work.old.queued.items x false ≡ true
            → get_or work.new.queued.items x false ≡ true) }
    {
        let mut edge = self.heads[i];
        while edge != 0 {
            let k = edge - 1;
            work.push(k / 2)?;
            edge = self.links[k as usize];
        }
        Ok(())
    }
}
