//! The events of a core that are allowed, listed node by node.

ghost use Rattle.std.specs.Prelude.{◌≡◌, ◌≢◌, ◌≤◌, ◌<◌, ◌+◌, ◌++◌, ℕ, [], true, false, map};
ghost use Rattle.std.specs.Prelude.{filter, length, slice_get, slice_index_or, Some, IfOk};
ghost use Rattle.std.specs.Vec.{vec_capacity};
ghost use Rattle.std.specs.List.{range_with_len};
ghost use Rattle.random_order.specs.Orders.{how_often};
ghost use Rattle.dsm_core.specs.node_model.Node.{standing_of};
ghost use Rattle.dsm_core.specs.node_model.Core.{Exec, Take, May, may_take};
ghost use Rattle.dsm_core.specs.CoreParts.{work_of, core_of, event_of};
ghost use Rattle.shared_sim.specs.ByOrder.{choices, events_at, is_allowed};
ghost use Rattle.shared_sim.specs.Listing.{HasShape, Tells, TellsAll, Lists, IsCalm, HasRowRoom};
ghost use Rattle.shared_sim.specs.Turns.{HasNoMail};
ghost use Rattle.shared_sim.specs.Windows.{picks_of};

use dsm_core::{Core, Event};
use std::alloc::{AllocError, Global};

/// The events of a core that are allowed, node by node.
#[derive(Drop)]
pub(crate) struct Listing {
    /// Those of each node: its word, and then its takes by sender.
    pub(crate) nodes: Vec<Vec<Event>>,
    /// How many there are.
    pub(crate) count: u32,
    /// The nodes to which no message is on its way.
    pub(crate) no_mail: [bool; 16],
    /// Whether no message is on its way to any node.
    pub(crate) calm: bool,
}

impl Listing {
    /// The events of a core.
    pub(crate) fn new(alloc: Global, core: &Core<'_>) -> Result<Listing, AllocError>
        requires few { core.now.layout.nodes ≤ 16 }
        ensures lists { IfOk result (Lists core.now) }
    {
        let mut listing = Listing {
            nodes: empty_rows(alloc, core.layout().nodes())?,
            count: 0,
            no_mail: [false; 16],
            calm: false,
        };
        for node in 0..core.layout().nodes() {
            listing.list(core, node);
        }
        listing.sum_up(core);
        Ok(listing)
    }

    /// Lists the events of a node.
    fn list(&mut self, core: &Core<'_>, node: u8)
        requires few { core.now.layout.nodes ≤ 16 }
        requires node { node < core.now.layout.nodes }
        requires shape { HasShape core.now.layout.nodes self.old }
        ensures shape { HasShape core.now.layout.nodes self.new }
        ensures told { Tells core.now self.new node }
        ensures kept { (i : ℕ) → i ≢ node → Tells core.now self.old i → Tells core.now self.new i }
    {
        let mail = core.has_mail(node);
        self.no_mail[node as usize] = !mail;
        let events = &mut self.nodes[node as usize];
        events.clear();
        list_events(core, node, mail, events);
    }

    /// Counts the events, and sees whether no message is on its way.
    fn sum_up(&mut self, core: &Core<'_>)
        requires few { core.now.layout.nodes ≤ 16 }
        requires shape { HasShape core.now.layout.nodes self.old }
        requires told { TellsAll core.now self.old }
        ensures lists { Lists core.now self.new }
    {
        let mut count = 0;
        let mut calm = true;
        for node in 0..core.layout().nodes() {
            count += self.nodes[node as usize].len() as u32;
            calm = calm && self.no_mail[node as usize];
        }
        self.count = count;
        self.calm = calm;
    }

    /// Lists the events of a node again, where those of the others are listed.
    pub(crate) fn list_again(&mut self, core: &Core<'_>, node: u8)
        requires few { core.now.layout.nodes ≤ 16 }
        requires node { node < core.now.layout.nodes }
        requires shape { HasShape core.now.layout.nodes self.old }
        requires others { (i : ℕ) → i < core.now.layout.nodes → i ≢ node
            → Tells core.now self.old i }
        ensures lists { Lists core.now self.new }
    {
        self.list(core, node);
        self.sum_up(core);
    }

    /// Lists the events of a node again, and those of the nodes to which it has sent, where those
    /// of the others are listed.
    pub(crate) fn list_after(&mut self, core: &Core<'_>, node: u8)
        requires few { core.now.layout.nodes ≤ 16 }
        requires node { node < core.now.layout.nodes }
        requires shape { HasShape core.now.layout.nodes self.old }
        requires others { (i : ℕ) → i < core.now.layout.nodes → i ≢ node
            → (core_of core.now).list node i ≡ [] → Tells core.now self.old i }
        ensures lists { Lists core.now self.new }
    {
        for other in 0..core.layout().nodes() {
            if other == node || core.has_wire(node, other) {
                self.list(core, other);
            }
        }
        self.sum_up(core);
    }

    /// The event at a place.
    pub(crate) fn at(&self, core: &Core<'_>, place: u32) -> Event
        requires lists { Lists core.now self.now }
        requires place { place < length (choices (work_of core.now) (core_of core.now)) }
        ensures picked { slice_get (choices (work_of core.now) (core_of core.now)) place
            ≡ Some (event_of result) }
    {
        let mut left = place as usize;
        for node in 0..core.layout().nodes() {
            let events = &self.nodes[node as usize];
            if left < events.len() {
                return events[left];
            }
            left -= events.len();
        }
        unreachable!()
    }

    /// How many words each node executes, where each place is chosen so often and no message is on
    /// its way.
    pub(crate) fn words(&self, core: &Core<'_>, tally: &[u32; 16]) -> [u32; 16]
        requires lists { Lists core.now self.now }
        requires calm { IsCalm core.now.layout.nodes (core_of core.now) }
        ensures words { (turns number : ℕ)
            → ((place : ℕ) → place < 16 → slice_index_or tally.now place 0
            ≡ how_often place (length (choices (work_of core.now) (core_of core.now))) turns number)
            → (i : ℕ) → i < core.now.layout.nodes → slice_index_or result i 0
            ≡ picks_of i (choices (work_of core.now) (core_of core.now)) turns number }
        ensures may { (i : ℕ) → i < core.now.layout.nodes → 1 ≤ slice_index_or result i 0
            → May (work_of core.now) (core_of core.now) (Exec i) }
    {
        let mut words = [0; 16];
        let mut place = 0;
        for node in 0..core.layout().nodes() {
            if !self.nodes[node as usize].is_empty() {
                words[node as usize] = tally[place];
                place += 1;
            }
        }
        words
    }

    /// At which place the word of a node stands, where no message is on its way.
    pub(crate) fn place(&self, node: u8) -> u32 {
        let mut place = 0;
        for other in 0..node {
            if (other as usize) < self.nodes.len() && !self.nodes[other as usize].is_empty() {
                place += 1;
            }
        }
        place
    }
}

/// Rows with room for the events of `count` nodes.
fn empty_rows(alloc: Global, count: u8) -> Result<Vec<Vec<Event>>, AllocError>
    ensures count { IfOk result (λ rows. length rows.items ≡ count) }
    ensures room { IfOk result (λ rows. (i : ℕ) → i < count → HasRowRoom count rows.items i) }
{
    let mut rows = Vec::with_capacity(alloc, count as usize)?;
    for _node in 0..count {
        rows.push_reserved(Vec::with_capacity(alloc, 1 + count as usize)?);
    }
    Ok(rows)
}

/// Adds the events of a node that are allowed; none but a node with mail may take any.
fn list_events(core: &Core<'_>, node: u8, mail: bool, events: &mut Vec<Event>)
    requires node { node < core.now.layout.nodes }
    requires mail { mail ≡ false → HasNoMail core.now.layout.nodes (core_of core.now) node }
    requires nodes { core.now.layout.nodes ≤ 16 }
    requires room { length events.old.items + 1 + core.now.layout.nodes ≤ vec_capacity events.old }
    ensures listed { map event_of events.new.items ≡ map event_of events.old.items
        ++ filter (is_allowed (work_of core.now) (core_of core.now))
        (events_at core.now.layout.nodes node) }
    ensures few { length events.new.items
        ≤ length events.old.items + 1 + core.now.layout.nodes }
    ensures room { vec_capacity events.new ≡ vec_capacity events.old }
{
    let word = Event::Exec(node);
    if core.enabled(word) {
        events.push_reserved(word);
    }
    if mail {
        list_takes(core, node, events);
    }
}

/// Adds the takes of a node that are allowed.
fn list_takes(core: &Core<'_>, node: u8, events: &mut Vec<Event>)
    requires node { node < core.now.layout.nodes }
    requires nodes { core.now.layout.nodes ≤ 16 }
    requires room { length events.old.items + core.now.layout.nodes ≤ vec_capacity events.old }
    ensures listed { map event_of events.new.items ≡ map event_of events.old.items
        ++ filter (is_allowed (work_of core.now) (core_of core.now))
        (map (λ j. Take node j) (range_with_len 0 core.now.layout.nodes)) }
    ensures few { length events.new.items ≤ length events.old.items + core.now.layout.nodes }
    ensures room { vec_capacity events.new ≡ vec_capacity events.old }
{
    if !may_take(core, node) {
        return;
    }
    for from in 0..core.layout().nodes() {
        if core.has_wire(from, node) {
            events.push_reserved(Event::Take { node, from });
        }
    }
}

/// Whether a node may take messages.
fn may_take(core: &Core<'_>, node: u8) -> bool
    requires node { node < core.now.layout.nodes }
    ensures value { result
        ≡ may_take (standing_of (work_of core.now) ((core_of core.now).nodes node)) }
{
    core.node(node).standing().may_take()
}
