//! The clocks of nodes, and when the messages between them arrive.

ghost use Rattle.std.specs.Prelude.{◌≡◌, ◌+◌, ◌^◌, ◌<◌, ◌≤◌, map, IfOk, OnOk};
ghost use Rattle.std.specs.Option.{option_map};
ghost use Rattle.std.specs.List.{range_with_len};
ghost use Rattle.dsm_core.specs.node_machine.Wanted.{wanted_in};
ghost use Rattle.dsm_core.specs.CoreParts.{work_of, core_of, event_of};
ghost use Rattle.dsm_core.specs.run_order.OwnRun.{node_of};
ghost use Rattle.timed_sim.specs.Clock.{AreInRange, opening_times, clock_of};
ghost use Rattle.timed_sim.specs.Clock.{first_to, next_of, next, last_clock, idle_until};
ghost use Rattle.timed_sim.specs.Clock.{with_gap, spent_after, need_after, times_by};
ghost use Rattle.timed_sim.specs.Stored.{due_of, times_of, AreClocks, AreSameTimes, AreWithin};
ghost use Rattle.timed_sim.specs.Stored.{IsBelow, with_word};

use crate::costs::{Costs, NOTHING, Spent};
use crate::due::{Due, at_poll, earlier, from_clock, node_of};
use crate::link::Arrivals;
use crate::links::{first_from, new_links, send, take};
use block_layout::Layout;
use dsm_core::node_machine::{Standing, WantedBlocks};
use dsm_core::rewriting_law::dsm_messages::Need;
use dsm_core::{Core, Event, Seen};
use std::alloc::{AllocError, Global};

/// What nodes have spent their time on, and when the messages between them arrive.
#[derive(Drop)]
pub(crate) struct Clocks {
    /// What each node has spent.
    pub(crate) spent: Vec<Spent>,
    /// What the last word of each that wanted a block wanted it for.
    pub(crate) needs: Vec<Need>,
    /// The links between them.
    pub(crate) links: Vec<Arrivals>,
}

impl Clocks {
    /// The clocks of `count` nodes at the start.
    pub(crate) fn new(alloc: Global, count: u8) -> Result<Clocks, AllocError>
        requires few { count ≤ 16 }
        ensures clocks { IfOk result (AreClocks count) }
        ensures opening { IfOk result (λ c. AreSameTimes count (times_of count c) opening_times) }
    {
        let mut spent = Vec::with_capacity(alloc, count as usize)?;
        let mut needs = Vec::with_capacity(alloc, count as usize)?;
        for _node in 0..count {
            spent.push_reserved(NOTHING);
            needs.push_reserved(Need::Read);
        }
        Ok(Clocks {
            spent,
            needs,
            links: new_links(alloc, count)?,
        })
    }

    /// A node takes the message that arrives first.
    pub(crate) fn first_to(&self, count: u8, node: u8) -> Option<Due>
        requires clocks { AreClocks count self.now }
        requires node { node < count }
        ensures { option_map due_of result ≡ first_to count (times_of count self.now) node }
    {
        let mut first = None;
        for from in 0..count {
            first = earlier(first, first_from(&self.links, count, from, node));
        }
        first
    }

    /// The next event of a node.
    pub(crate) fn next_of(&self, core: &Core<'_>, node: u8) -> Option<Due>
        requires clocks { AreClocks core.now.layout.nodes self.now }
        requires within { AreWithin core.now.layout.nodes (2 ^ 127)
            (times_of core.now.layout.nodes self.now) }
        requires node { node < core.now.layout.nodes }
        ensures { option_map due_of result ≡ next_of (work_of core.now)
            (times_of core.now.layout.nodes self.now) (core_of core.now) node }
    {
        let word = Due {
            time: self.spent[node as usize].clock(),
            event: Event::Exec(node),
        };
        let count = core.layout().nodes();
        match core.node(node).standing() {
            Standing::Running => Some(word),
            Standing::AtPoll => Some(at_poll(word, self.first_to(count, node))),
            Standing::Waiting | Standing::Ended => {
                from_clock(word.time, self.first_to(count, node))
            }
            Standing::Over => None,
        }
    }

    /// Of all nodes' next events the one that begins first, and of equals that of the least node.
    pub(crate) fn next(&self, core: &Core<'_>) -> Option<Due>
        requires clocks { AreClocks core.now.layout.nodes self.now }
        requires within { AreWithin core.now.layout.nodes (2 ^ 127)
            (times_of core.now.layout.nodes self.now) }
        ensures { option_map due_of result ≡ next (work_of core.now)
            (times_of core.now.layout.nodes self.now) (core_of core.now) }
    {
        let mut first = None;
        for node in 0..core.layout().nodes() {
            first = earlier(first, self.next_of(core, node));
        }
        first
    }

    /// An event passes: what it sends is sent when it ends.
    pub(crate) fn pass(
        &mut self,
        costs: &Costs,
        layout: &Layout,
        standing: Standing,
        due: Due,
        seen: &mut Seen,
    ) -> Result<(), AllocError>
        requires clocks { AreClocks layout.now.nodes self.old }
        requires costs { AreInRange costs.now }
        requires below { IsBelow layout.now.nodes (event_of due.event) }
        requires time { clock_of ((times_of layout.now.nodes self.old).spent
            (node_of (event_of due.event))) ≤ due.time }
        requires few { due.time ≤ 2 ^ 100 }
        ensures clocks { OnOk result (AreClocks layout.now.nodes self.new) }
        ensures times { OnOk result (AreSameTimes layout.now.nodes
            (times_of layout.now.nodes self.new)
            (times_by costs.now layout.now standing (wanted_in seen.old.wants) seen.old.sends.items
            (times_of layout.now.nodes self.old) (due_of due))) }
    {
        let node = node_of(due.event);
        let need = self.needs[node as usize];
        let spent = spent_after(self.spent[node as usize], costs, standing, need, due);
        self.spent[node as usize] = spent;
        self.needs[node as usize] = need_after(seen.wants, need);
        take(&mut self.links, layout.nodes(), due.event);
        send(
            &mut self.links,
            costs,
            layout,
            node,
            spent.clock(),
            &mut seen.sends,
        )
    }

    /// A node has executed a word that wants nothing and sends nothing.
    pub(crate) fn count_word(&mut self, count: u8, node: u8)
        requires clocks { AreClocks count self.old }
        requires node { node < count }
        requires few { clock_of ((times_of count self.old).spent node) ≤ 2 ^ 100 }
        ensures clocks { AreClocks count self.new }
        ensures times { AreSameTimes count (times_of count self.new)
            (with_word node (times_of count self.old)) }
    {
        let mut spent = self.spent[node as usize];
        spent.words += 1;
        self.spent[node as usize] = spent;
    }

    /// The last clock.
    pub(crate) fn last(&self, count: u8) -> u128
        requires clocks { AreClocks count self.now }
        requires within { AreWithin count (2 ^ 127) (times_of count self.now) }
        ensures { result ≡ last_clock count (times_of count self.now).spent }
    {
        let mut last = 0;
        for node in 0..count {
            last = last.max(self.spent[node as usize].clock());
        }
        last
    }

    /// What each node has spent, once all have been idle until the last clock.
    pub(crate) fn until(
        &self,
        alloc: Global,
        count: u8,
        last: u128,
    ) -> Result<Vec<Spent>, AllocError>
        requires clocks { AreClocks count self.now }
        requires within { AreWithin count (2 ^ 127) (times_of count self.now) }
        requires last { last ≡ last_clock count (times_of count self.now).spent }
        ensures { IfOk result (λ v. v.items ≡ map
            (λ i. idle_until last ((times_of count self.now).spent i)) (range_with_len 0 count)) }
    {
        let mut all = Vec::with_capacity(alloc, count as usize)?;
        for node in 0..count {
            all.push_reserved(self.spent[node as usize].idle_until(last));
        }
        Ok(all)
    }
}

/// What a node has spent after an event: the time until it begins, and what it takes.
fn spent_after(spent: Spent, costs: &Costs, standing: Standing, need: Need, due: Due) -> Spent
    requires costs { AreInRange costs.now }
    requires time { clock_of spent ≤ due.time }
    requires few { due.time ≤ 2 ^ 100 }
    ensures spent { result ≡ spent_after costs.now standing need (due_of due) spent }
    ensures clock { clock_of result ≤ due.time + 1000000 }
{
    let gap = due.time - spent.clock();
    let mut after = with_gap(spent, standing, need, gap);
    match due.event {
        Event::Exec(_) => after.words += 1,
        Event::Take { .. } => after.handling += u128::from(costs.handling),
    }
    after
}

/// Until an event begins a node waits to read, or to write, or has ended and is idle.
fn with_gap(mut spent: Spent, standing: Standing, need: Need, gap: u128) -> Spent
    requires fits { clock_of spent + gap ≤ 2 ^ 127 }
    ensures spent { result ≡ with_gap standing need gap spent }
    ensures clock { clock_of result ≡ clock_of spent + gap }
{
    match (standing, need) {
        (Standing::Waiting, Need::Read) => spent.to_read += gap,
        (Standing::Waiting, Need::Write) => spent.to_write += gap,
        _ => spent.idle += gap,
    }
    spent
}

/// What the first block was wanted for, if a word wanted any.
fn need_after(wants: Option<WantedBlocks>, need: Need) -> Need
    ensures { result ≡ need_after (wanted_in wants) need }
{
    match wants {
        Some(wants) => wants.first.need,
        None => need,
    }
}
