//! How many words nodes can execute before anything else begins.

ghost use Rattle.std.specs.Prelude.{◌≡◌, ◌^◌, ◌<◌, ◌≤◌, ℕ, slice_index_or, length};
ghost use Rattle.std.specs.Option.{option_map};
ghost use Rattle.dsm_core.specs.CoreParts.{work_of, core_of};
ghost use Rattle.block_layout.specs.Update.{changed};
ghost use Rattle.timed_sim.specs.Clock.{nothing_spent};
ghost use Rattle.timed_sim.specs.Stored.{due_of, times_of, AreClocks, AreSameTimes, AreWithin};
ghost use Rattle.timed_sim.specs.Stretches.{AreFree, IsFree, IsFrom, more_words, with_words};
ghost use Rattle.timed_sim.specs.Stretches.{words_until};

use crate::clocks::Clocks;
use crate::due::Due;
use dsm_core::Core;

impl Clocks {
    /// A time before which nodes execute words alone, and none more than `most`.
    pub(crate) fn free_until(&self, core: &Core<'_>, most: u32) -> u128
        requires most { most ≤ 4096 }
        requires clocks { AreClocks core.now.layout.nodes self.now }
        requires within { AreWithin core.now.layout.nodes (2 ^ 100)
            (times_of core.now.layout.nodes self.now) }
        ensures { AreFree (work_of core.now) (times_of core.now.layout.nodes self.now)
            (core_of core.now) result }
    {
        let mut end = u128::MAX;
        for node in 0..core.layout().nodes() {
            end = end.min(self.node_free_until(core, node, most));
        }
        end
    }

    /// A time before which a node executes words alone, and no more than `most`.
    fn node_free_until(&self, core: &Core<'_>, node: u8, most: u32) -> u128
        requires most { most ≤ 4096 }
        requires clocks { AreClocks core.now.layout.nodes self.now }
        requires within { AreWithin core.now.layout.nodes (2 ^ 100)
            (times_of core.now.layout.nodes self.now) }
        requires node { node < core.now.layout.nodes }
        ensures { IsFree (work_of core.now) (times_of core.now.layout.nodes self.now)
            (core_of core.now) result node }
    {
        if !core.node(node).standing().may_execute() {
            return time_of(self.next_of(core, node));
        }
        let first = time_of(self.first_to(core.layout().nodes(), node));
        first.min(self.spent[node as usize].clock() + u128::from(most))
    }

    /// How many words each node executes until a time.
    pub(crate) fn words_until(&self, core: &Core<'_>, end: u128) -> [u32; 16]
        requires clocks { AreClocks core.now.layout.nodes self.now }
        requires within { AreWithin core.now.layout.nodes (2 ^ 100)
            (times_of core.now.layout.nodes self.now) }
        requires nodes { core.now.layout.nodes ≤ 16 }
        requires free { AreFree (work_of core.now) (times_of core.now.layout.nodes self.now)
            (core_of core.now) end }
        ensures words { (i : ℕ) → i < core.now.layout.nodes → slice_index_or result i 0
            ≡ words_until (work_of core.now) (times_of core.now.layout.nodes self.now)
            (core_of core.now) end i }
        ensures few { (i : ℕ) → i < core.now.layout.nodes → slice_index_or result i 0 ≤ 4096 }
    {
        let mut words = [0; 16];
        for node in 0..core.layout().nodes() {
            words[node as usize] = self.node_words_until(core, end, node);
        }
        words
    }

    /// How many words a node executes until a time.
    fn node_words_until(&self, core: &Core<'_>, end: u128, node: u8) -> u32
        requires clocks { AreClocks core.now.layout.nodes self.now }
        requires within { AreWithin core.now.layout.nodes (2 ^ 100)
            (times_of core.now.layout.nodes self.now) }
        requires node { node < core.now.layout.nodes }
        requires free { IsFree (work_of core.now) (times_of core.now.layout.nodes self.now)
            (core_of core.now) end node }
        ensures words { result
            ≡ words_until (work_of core.now) (times_of core.now.layout.nodes self.now)
            (core_of core.now) end node }
        ensures few { result ≤ 4096 }
    {
        if !core.node(node).standing().may_execute() {
            return 0;
        }
        end.saturating_sub(self.spent[node as usize].clock()) as u32
    }

    /// What a node's clock shows once it has executed `words` words.
    pub(crate) fn time_after(&self, count: u8, node: u8, words: u64) -> u128
        requires clocks { AreClocks count self.now }
        requires within { AreWithin count (2 ^ 100) (times_of count self.now) }
    {
        match self.spent.get(node as usize) {
            Some(spent) => spent.clock() + u128::from(words),
            None => 0,
        }
    }

    /// Each node has executed its number of words, which want nothing and send nothing.
    pub(crate) fn count_words(&mut self, count: u8, words: &[u32; 16])
        requires clocks { AreClocks count self.old }
        requires few { count ≤ 16 }
        requires within { AreWithin count (2 ^ 100) (times_of count self.old) }
        ensures clocks { AreClocks count self.new }
        ensures times { AreSameTimes count (times_of count self.new)
            (with_words (λ i. slice_index_or words.now i 0) (times_of count self.old)) }
    {
        for node in 0..count {
            self.add_words(node, words[node as usize]);
        }
    }

    /// A node has executed `words` words.
    fn add_words(&mut self, node: u8, words: u32)
        requires node { node < length self.old.spent.items }
        requires few { (slice_index_or self.old.spent.items node nothing_spent).words ≤ 2 ^ 100 }
        ensures spent { (i : ℕ) → slice_index_or self.new.spent.items i nothing_spent
            ≡ changed (λ k. slice_index_or self.old.spent.items k nothing_spent) node
            (more_words words (slice_index_or self.old.spent.items node nothing_spent)) i }
        ensures len { length self.new.spent.items ≡ length self.old.spent.items }
        ensures needs { self.new.needs ≡ self.old.needs }
        ensures links { self.new.links ≡ self.old.links }
    {
        let mut spent = self.spent[node as usize];
        spent.words += u128::from(words);
        self.spent[node as usize] = spent;
    }
}

/// When it begins; never, where it is none.
fn time_of(due: Option<Due>) -> u128
    ensures { IsFrom result (option_map due_of due) }
{
    match due {
        Some(due) => due.time,
        None => u128::MAX,
    }
}
