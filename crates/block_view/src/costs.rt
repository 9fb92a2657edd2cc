//! What each block costs: what the nodes count of it, and which code has asked for it.

ghost use Rattle.std.specs.Prelude.{◌≡◌, ◌+◌, ℕ, IfSome, OnOk};
ghost use Rattle.block_layout.specs.Update.{changed};
ghost use Rattle.node_model.specs.Turns as turns;
ghost use Rattle.std.specs.Option.{option_map};
ghost use Rattle.node_model.specs.Node.{counts_after};
ghost use Rattle.event_text.specs.node_machine.Wanted.{wanted_in};
ghost use Rattle.event_text.specs.run_trace.Given.{what_of, tally_of};
ghost use Rattle.event_text.specs.run_trace.Sums.{count_asked, count_wants, count_in};
ghost use Rattle.block_view.specs.Kept.{counts_at, noted};
ghost use Rattle.block_view.specs.Text.{IsNoted};
ghost use Rattle.std.specs.Ordering.{nat_cmp};
ghost use Rattle.std.specs.BTreeMap.{get};

use block_layout::Block;
use event_text::node_machine::{NO_COUNTS, NodeCounts, Wanted, WantedBlocks};
use event_text::run_trace::{TakeTraced, Tallied, Traced, What, WordTraced};
use home_directory::dsm_messages::Need;
use state_table::State;
use std::alloc::{AllocError, Global};
use std::collections::BTreeMap;
use templates::Place;

/// What a block costs.
#[derive(Drop)]
pub(crate) struct BlockCosts {
    /// What each node counts of it, of the nodes up to the last that has counted.
    pub nodes: Vec<NodeCounts>,
    /// How often the code at each of these addresses of the original has asked for it.
    pub misses: BTreeMap<u32, u64>,
}

impl BlockCosts {
    ghost use Rattle.std.specs.Prelude.{◌≡◌, ◌++◌, ℕ, List, [], IfOk, OnOk};
    ghost use Rattle.block_view.specs.Counts.{messages_in};
    ghost use Rattle.block_layout.specs.Update.{changed};
    ghost use Rattle.node_model.specs.declared.NodeCounts.{NodeCounts as OfNode};
    ghost use Rattle.node_model.specs.Node.{no_counts};
    ghost use Rattle.node_model.specs.Turns as turns;
    ghost use Rattle.event_text.specs.run_trace.Sums.{count_asked};
    ghost use Rattle.block_view.specs.Kept.{IsCostOf, counts_at, place_asked};

    /// Of a block that has cost nothing.
    pub(crate) fn new(alloc: Global) -> BlockCosts
        ensures { IsCostOf result (λ i. no_counts) [] }
    {
        BlockCosts {
            nodes: Vec::new(alloc),
            misses: BTreeMap::new(alloc),
        }
    }

    /// What a node counts of the block.
    pub(crate) fn of_node(&self, node: u8) -> NodeCounts
        ensures { result ≡ counts_at self.now.nodes.items node }
    {
        counts_of(&self.nodes, node)
    }

    #[tactic(auto, using(crate::proofs::Costing::one_node_more))]
    /// How many messages the first `nodes` nodes have sent about the block. Fails where that has no
    /// room.
    pub(crate) fn cost(&self, nodes: u8) -> Result<u64, AllocError>
        ensures { (counts : ℕ → OfNode) (places : List ℕ) → IsCostOf self.now counts places
            → IfOk result (λ n. n ≡ messages_in counts nodes) }
    {
        let mut cost: u64 = 0;
        for node in 0..nodes {
            let Some(sum) = cost.checked_add(self.of_node(node).messages) else {
                return Err(AllocError);
            };
            cost = sum;
        }
        Ok(cost)
    }

    /// A node has wanted the block, by the code at a place. Fails also where a count has no room.
    pub(crate) fn want(
        &mut self,
        node: u8,
        place: Option<u32>,
        wanted: &Wanted,
    ) -> Result<(), AllocError>
        ensures { OnOk result ((counts : ℕ → OfNode) (places : List ℕ)
            → IsCostOf self.old counts places
            → IsCostOf self.new (changed counts node (count_asked wanted.now (counts node)))
            (places ++ place_asked place wanted.now.asks)) }
    {
        if !wanted.asks {
            return Ok(());
        }
        let Some(counts) = with_want(self.of_node(node), wanted) else {
            return Err(AllocError);
        };
        put_counts(&mut self.nodes, node, counts)?;
        if let Some(address) = place {
            note(&mut self.misses, address)?;
        }
        Ok(())
    }

    /// A node has taken a message about the block. Fails also where a count has no room.
    pub(crate) fn take(&mut self, node: u8, gives_up: bool, sends: usize) -> Result<(), AllocError>
        ensures { OnOk result ((counts : ℕ → OfNode) (places : List ℕ)
            → IsCostOf self.old counts places
            → IsCostOf self.new (changed counts node (turns.count_row gives_up sends (counts node)))
            places) }
    {
        let Some(counts) = with_row(self.of_node(node), gives_up, sends) else {
            return Err(AllocError);
        };
        put_counts(&mut self.nodes, node, counts)?;
        Ok(())
    }
}

/// What a node counts, where the nodes up to the last that has counted have these counts.
fn counts_of(counts: &[NodeCounts], node: u8) -> NodeCounts
    ensures { result ≡ counts_at counts.now node }
{
    let index = node as usize;
    if index < counts.len() {
        counts[index]
    } else {
        NO_COUNTS
    }
}

/// Sets what a node counts.
fn put_counts(counts: &mut Vec<NodeCounts>, node: u8, value: NodeCounts) -> Result<(), AllocError>
    ensures { OnOk result ((i : ℕ) → counts_at counts.new.items i
        ≡ changed (counts_at counts.old.items) node value i) }
{
    let index = node as usize;
    for _ in counts.len()..index + 1 {
        counts.push(NO_COUNTS)?;
    }
    counts[index] = value;
    Ok(())
}

/// Notes that code at an address has asked once more.
fn note(misses: &mut BTreeMap<u32, u64>, address: u32) -> Result<(), AllocError>
    ensures count { OnOk result ((a : ℕ) → noted misses.new a
        ≡ changed (noted misses.old) address (noted misses.old address + 1) a) }
    ensures some { OnOk result (((a : ℕ) → IsNoted (get nat_cmp misses.old a))
        → (a : ℕ) → IsNoted (get nat_cmp misses.new a)) }
{
    let before = misses.get(&address).copied().unwrap_or(0);
    let Some(now) = before.checked_add(1) else {
        return Err(AllocError);
    };
    misses.insert(address, now)?;
    Ok(())
}

/// The address of a place, if there is one.
fn address_of(place: Option<Place>) -> Option<u32>
    ensures { result ≡ option_map (λ p. p.address) place }
{
    match place {
        Some(place) => Some(place.address),
        None => None,
    }
}

/// What a node counts after an event of its own, if there is room.
pub(crate) fn counted(counts: NodeCounts, what: &What) -> Option<NodeCounts>
    ensures { IfSome result (λ c. c ≡ count_in (what_of what.now) counts) }
{
    match what {
        What::Word(word) => with_wants(with_tally(counts, word.tally)?, &word.wants),
        What::Take(take) => {
            let counts = with_row(counts, take.gives_up, take.sends.len())?;
            with_tally(counts, take.tally)
        }
    }
}

/// The counts after a tally, if there is room.
fn with_tally(counts: NodeCounts, tally: Tallied) -> Option<NodeCounts>
    ensures { IfSome result (λ c. c ≡ counts_after (tally_of tally) counts) }
{
    match tally {
        Tallied::Nothing => Some(counts),
        Tallied::FalseMiss => Some(NodeCounts {
            falses: counts.falses.checked_add(1)?,
            ..counts
        }),
        Tallied::FallsBack => Some(NodeCounts {
            fallbacks: counts.fallbacks.checked_add(1)?,
            ..counts
        }),
    }
}

/// The counts after blocks were wanted, if there is room.
fn with_wants(counts: NodeCounts, wants: &Option<WantedBlocks>) -> Option<NodeCounts>
    ensures { IfSome result (λ c. c ≡ count_wants (wanted_in wants.now) counts) }
{
    let Some(wants) = wants else {
        return Some(counts);
    };
    let counts = with_want(counts, &wants.first)?;
    match &wants.other {
        Some(other) => with_want(counts, other),
        None => Some(counts),
    }
}

/// The counts after a block was wanted, if there is room.
fn with_want(counts: NodeCounts, wanted: &Wanted) -> Option<NodeCounts>
    ensures { IfSome result (λ c. c ≡ count_asked wanted.now counts) }
{
    match wanted.state {
        Some(state) if wanted.asks => with_request(counts, wanted.need, state),
        _ => Some(counts),
    }
}

/// The counts after a Read or a Write was sent for a block in a state, if there is room.
fn with_request(counts: NodeCounts, need: Need, state: State) -> Option<NodeCounts>
    ensures { IfSome result (λ c. c ≡ turns.count_want need state counts) }
{
    let messages = counts.messages.checked_add(1)?;
    let counts = match need {
        Need::Read => NodeCounts {
            read: counts.read.checked_add(1)?,
            messages,
            ..counts
        },
        Need::Write if state.can_read() => NodeCounts {
            upgrade: counts.upgrade.checked_add(1)?,
            messages,
            ..counts
        },
        Need::Write => NodeCounts {
            exclusive: counts.exclusive.checked_add(1)?,
            messages,
            ..counts
        },
    };
    Some(counts)
}

/// The counts after a message was taken, which gave up a block or didn't, if there is room.
fn with_row(counts: NodeCounts, gives_up: bool, sends: usize) -> Option<NodeCounts>
    ensures { IfSome result (λ c. c ≡ turns.count_row gives_up sends counts) }
{
    let invalidations = if gives_up {
        counts.invalidations.checked_add(1)?
    } else {
        counts.invalidations
    };
    Some(NodeCounts {
        invalidations,
        messages: counts.messages.checked_add(sends as u64)?,
        ..counts
    })
}

/// What the blocks cost.
#[derive(Drop)]
pub(crate) struct Costs {
    pub blocks: Vec<BlockCosts>,
}

impl Costs {
    ghost use Rattle.std.specs.Prelude.{◌≡◌, ℕ, List, [], length, IfOk, OnOk};
    ghost use Rattle.std.specs.Option.{option_map};
    ghost use Rattle.node_model.specs.declared.NodeCounts.{NodeCounts as OfNode};
    ghost use Rattle.node_model.specs.Node.{no_counts};
    ghost use Rattle.event_text.specs.run_trace.Given.{what_of, traced_of, word_of, take_of};
    ghost use Rattle.event_text.specs.run_trace.Traced.{Word, Taken};
    ghost use Rattle.block_view.specs.Kept.{AreCostsOf, counts_with, places_with, counts_by};
    ghost use Rattle.block_view.specs.Kept.{places_by, places_for, counts_for, counts_at};
    ghost use Rattle.block_view.specs.Kept.{counts_in, sites_in};
    ghost use Rattle.std.specs.Prelude.{◌<◌};

    #[tactic(auto, using(crate::proofs::Costing::none_more))]
    /// The costs of `blocks` blocks that have cost nothing.
    pub(crate) fn new(alloc: Global, blocks: u32) -> Result<Costs, AllocError>
        ensures count { IfOk result (λ s. length s.blocks.items ≡ blocks) }
        ensures none { IfOk result (λ s. AreCostsOf s.blocks.items (λ b i. no_counts) (λ b. [])) }
    {
        let mut costs = Vec::new(alloc);
        for _ in 0..blocks {
            costs.push(BlockCosts::new(alloc))?;
        }
        Ok(Costs { blocks: costs })
    }

    /// What a block costs.
    #[tactic(auto, using(crate::proofs::Texts::found_counts, crate::proofs::Texts::found_sites))]
    pub(crate) fn of_block(&self, block: Block) -> &BlockCosts
        requires { block < length self.now.blocks.items }
        ensures counts { counts_at result.now.nodes.items
            ≡ counts_in self.now.blocks.items block }
        ensures sites { result.now.misses.entries ≡ sites_in self.now.blocks.items block }
    {
        &self.blocks[block as usize]
    }

    /// An event was made.
    pub(crate) fn add(&mut self, event: &Traced) -> Result<(), AllocError>
        ensures count { length self.new.blocks.items ≡ length self.old.blocks.items }
        ensures costs { OnOk result ((counts : ℕ → ℕ → OfNode) (places : ℕ → List ℕ)
            → AreCostsOf self.old.blocks.items counts places
            → AreCostsOf self.new.blocks.items (counts_by counts (traced_of event.now))
            (places_by places (traced_of event.now))) }
    {
        match &event.what {
            What::Word(word) => self.add_word(event.node, word),
            What::Take(take) => self.add_take(event.node, take),
        }
    }

    /// A word was executed.
    fn add_word(&mut self, node: u8, word: &WordTraced) -> Result<(), AllocError>
        ensures count { length self.new.blocks.items ≡ length self.old.blocks.items }
        ensures costs { OnOk result ((counts : ℕ → ℕ → OfNode) (places : ℕ → List ℕ)
            → AreCostsOf self.old.blocks.items counts places
            → AreCostsOf self.new.blocks.items (counts_for counts node (Word (word_of word.now)))
            (places_for places (Word (word_of word.now)))) }
    {
        let Some(wants) = &word.wants else {
            return Ok(());
        };
        let place = address_of(word.place);
        self.want(node, place, &wants.first)?;
        if let Some(other) = &wants.other {
            self.want(node, place, other)?;
        }
        Ok(())
    }

    /// A node has wanted a block, by the code at a place.
    fn want(&mut self, node: u8, place: Option<u32>, wanted: &Wanted) -> Result<(), AllocError>
        ensures count { length self.new.blocks.items ≡ length self.old.blocks.items }
        ensures costs { OnOk result ((counts : ℕ → ℕ → OfNode) (places : ℕ → List ℕ)
            → AreCostsOf self.old.blocks.items counts places
            → AreCostsOf self.new.blocks.items (counts_with counts node wanted.now)
            (places_with places place wanted.now)) }
    {
        match wanted.block {
            Some(block) if (block as usize) < self.blocks.len() => {
                self.blocks[block as usize].want(node, place, wanted)
            }
            _ => Ok(()),
        }
    }

    /// A message was taken.
    fn add_take(&mut self, node: u8, take: &TakeTraced) -> Result<(), AllocError>
        ensures count { length self.new.blocks.items ≡ length self.old.blocks.items }
        ensures costs { OnOk result ((counts : ℕ → ℕ → OfNode) (places : ℕ → List ℕ)
            → AreCostsOf self.old.blocks.items counts places
            → AreCostsOf self.new.blocks.items (counts_for counts node (Taken (take_of take.now)))
            places) }
    {
        match take.message.block {
            Some(block) if (block as usize) < self.blocks.len() => {
                self.blocks[block as usize].take(node, take.gives_up, take.sends.len())
            }
            _ => Ok(()),
        }
    }
}
