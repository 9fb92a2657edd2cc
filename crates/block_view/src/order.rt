//! The blocks by what they cost.

ghost use Rattle.std.specs.Prelude.{◌≡◌, ◌<◌, ◌++◌, ◌∷◌, [], ℕ, List, OnOk, IfOk, length, nat_lt};
ghost use Rattle.std.specs.Prelude.{All, if◌then◌else◌};
ghost use Rattle.node_model.specs.declared.NodeCounts.{NodeCounts as OfNode};
ghost use Rattle.event_text.specs.run_trace.Traced.{Traced as OfEvent};
ghost use Rattle.block_view.specs.Counts.{block_counts, misses_of, messages_in};
ghost use Rattle.block_view.specs.Kept.{AreCostsOf};
ghost use Rattle.block_view.specs.Order as model;
ghost use Rattle.block_view.specs.Order.{IsOrder, AreUpTo};

use crate::costs::Costs;
use block_layout::Block;
use std::alloc::{AllocError, Global};

/// A block, and how many messages were sent about it.
#[derive(Clone, Copy)]
pub struct Ranked {
    pub block: Block,
    pub cost: u64,
}

/// The blocks that cost something, those that cost most first. Fails also where a cost has no room.
pub(crate) fn in_order(
    alloc: Global,
    costs: &Costs,
    blocks: u32,
    nodes: u8,
) -> Result<Vec<Ranked>, AllocError>
    requires { length costs.now.blocks.items ≡ blocks }
    ensures order { (seen : List OfEvent)
        → AreCostsOf costs.now.blocks.items (λ b i. block_counts b i seen) (λ b. misses_of b seen)
        → IfOk result (λ r. IsOrder (model.costly nodes blocks seen) r.items) }
    ensures below { IfOk result (λ r. All (λ x. x.block < blocks) r.items) }
{
    let mut ranked = costly(alloc, costs, blocks, nodes)?;
    sort(&mut ranked)?;
    Ok(ranked)
}

/// The blocks that cost something, ascending. Fails also where a cost has no room.
fn costly(alloc: Global, costs: &Costs, blocks: u32, nodes: u8) -> Result<Vec<Ranked>, AllocError>
    requires { length costs.now.blocks.items ≡ blocks }
    ensures value { (seen : List OfEvent)
        → AreCostsOf costs.now.blocks.items (λ b i. block_counts b i seen) (λ b. misses_of b seen)
        → IfOk result (λ r. r.items ≡ model.costly nodes blocks seen) }
    ensures ascending { IfOk result (λ r. AreUpTo r.items blocks) }
{
    let mut ranked = Vec::new(alloc);
    for block in 0..blocks {
        let cost = cost_at(costs, block, nodes)?;
        push_costly(&mut ranked, Ranked { block, cost })?;
    }
    Ok(ranked)
}

/// What a block costs. Fails where that has no room.
fn cost_at(costs: &Costs, block: Block, nodes: u8) -> Result<u64, AllocError>
    requires { block < length costs.now.blocks.items }
    ensures { (counts : ℕ → ℕ → OfNode) (places : ℕ → List ℕ)
        → AreCostsOf costs.now.blocks.items counts places
        → IfOk result (λ n. n ≡ messages_in (counts block) nodes) }
{
    costs.blocks[block as usize].cost(nodes)
}

/// Appends a block, if it costs something.
fn push_costly(ranked: &mut Vec<Ranked>, block: Ranked) -> Result<(), AllocError>
    ensures { OnOk result (ranked.new.items
        ≡ ranked.old.items ++ (if nat_lt 0 block.cost then block ∷ [] else [])) }
{
    if block.cost > 0 {
        ranked.push(block)?;
    }
    Ok(())
}

/// Sorts blocks by their costs, the greatest first, and those that cost the same by their numbers.
fn sort(ranked: &mut Vec<Ranked>) -> Result<(), AllocError>
    requires { (n : ℕ) × AreUpTo ranked.old.items n }
    ensures { OnOk result (IsOrder ranked.old.items ranked.new.items) }
{
    ranked.sort_by_key(|r| u64::MAX - r.cost)?;
    Ok(())
}
