//! Sums over the events of a run.

use crate::costs::Costs;
use crate::sharing::Sharing;
use crate::totals::Totals;
use block_layout::Layout;
use event_text::node_machine::NodeCounts;
use event_text::run_trace::{Traced, WordPassed};
use std::alloc::{AllocError, Global};

/// Sums over the events of a run: what each block costs, what each node counts, and which nodes
/// write in each block. Takes memory in proportion to the blocks, the addresses that ask and the
/// words that are written, and for an event time in proportion to the logarithm of these.
#[derive(Drop)]
pub struct Sums<'a> {
    pub(crate) layout: &'a Layout,
    pub(crate) costs: Costs,
    pub(crate) totals: Totals,
    pub(crate) sharing: Sharing,
}

impl<'a> Sums<'a> {
    ghost use Rattle.std.specs.Prelude.{◌≡◌, ◌++◌, ◌∷◌, List, [], All, IfOk, OnOk};
    ghost use Rattle.event_text.specs.run_trace.Given.{traced_of};
    ghost use Rattle.event_text.specs.run_trace.Traced.{Traced as OfEvent};
    ghost use Rattle.event_text.specs.run_trace.Passing.{IsPassed, passed_of};
    ghost use Rattle.event_text.specs.run_trace.declared.passed.Until.TheVariants.{Write};
    ghost use Rattle.event_text.specs.run_trace.Sums.{counts_by_node};
    ghost use Rattle.block_view.specs.Kept.{AreSumsOf, layout_in};

    /// The sums of no event, over the blocks of a layout.
    pub fn new(alloc: Global, layout: &'a Layout) -> Result<Sums<'a>, AllocError>
        ensures none { IfOk result (λ s. AreSumsOf s []) }
        ensures layout { IfOk result (λ s. layout_in s ≡ layout.now) }
    {
        let costs = Costs::new(alloc, layout.blocks())?;
        let totals = Totals::new(alloc, layout.nodes())?;
        let sharing = Sharing::new(alloc, layout.blocks())?;
        Ok(Sums {
            layout,
            costs,
            totals,
            sharing,
        })
    }

    /// One event more. Fails also where a count has no room.
    pub fn add(&mut self, event: &Traced) -> Result<(), AllocError>
        ensures more { OnOk result ((seen : List OfEvent) → AreSumsOf self.old seen
            → AreSumsOf self.new (seen ++ traced_of event.now ∷ [])) }
        ensures layout { OnOk result (layout_in self.new ≡ layout_in self.old) }
    {
        self.costs.add(event)?;
        self.totals.add(event)?;
        self.sharing.add(event)?;
        Ok(())
    }

    /// One word more, which only accesses memory. Fails also where a count has no room.
    pub fn add_passed(&mut self, word: &WordPassed) -> Result<(), AllocError>
        ensures more { OnOk result ((seen : List OfEvent) → AreSumsOf self.old seen
            → AreSumsOf self.new (seen ++ passed_of word.now ∷ [])) }
        ensures layout { OnOk result (layout_in self.new ≡ layout_in self.old) }
    {
        self.sharing.add_access(word.node, Some(word.access))
    }

    /// Words that only compute or read change no sum; the call does nothing.
    pub fn laws(&self)
        ensures passed { (seen more : List OfEvent) → AreSumsOf self.now seen
            → All (IsPassed Write) more → AreSumsOf self.now (seen ++ more) }
    {}

    /// What each node counts in all, as `run` says it.
    pub fn nodes(&self) -> &[NodeCounts]
        ensures { (seen : List OfEvent) → AreSumsOf self.now seen
            → result.now ≡ counts_by_node (layout_in self.now).nodes seen }
    {
        &self.totals.nodes
    }
}
