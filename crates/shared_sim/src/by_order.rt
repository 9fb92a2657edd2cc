//! A core whose events follow an order.

ghost use Rattle.std.specs.Prelude.{◌≡◌, ◌≤◌, ◌<◌, [], ◌∷◌, true, false, length};
ghost use Rattle.std.specs.Prelude.{Some, IfOk, OnOk, MatchOption};
ghost use Rattle.dsm_core.specs.node_model.Core.{Exec, May, IsOver, AreAlike, event_step};
ghost use Rattle.dsm_core.specs.node_model.Core.{opening_core};
ghost use Rattle.dsm_core.specs.rewriting_law.Bounds.{RunsRewritten};
ghost use Rattle.dsm_core.specs.CoreParts.{work_of, work_in, core_of, event_of, outcome_of};
ghost use Rattle.shared_sim.specs.ByOrder.{IsOutcomeByOrder, choices};
ghost use Rattle.shared_sim.specs.Listing.{IsCalm};
ghost use Rattle.shared_sim.specs.Turns.{IsReady, LeadsOn, HasNoMail, maker};

use crate::listing::Listing;
use dsm_core::rewriting_law::progress_law;
use dsm_core::{Core, Event, Outcome, StoppedEarly, UndoLogs, Work};
use random_order::{Order, order_of};
use std::alloc::{AllocError, Global};

/// Runs the nodes of a layout to their ends, on one thread: at each turn the order of a number
/// picks one of the events that are allowed, which are listed node by node, its word and then its
/// takes by sender.
pub fn simulate(alloc: Global, work: &Work<'_>, order: u32) -> Result<Outcome, AllocError>
    requires rewritten { RunsRewritten (work_in work.now) }
    ensures outcome { IfOk result (λ o. IsOutcomeByOrder (work_in work.now) order (outcome_of o)) }
{
    progress_law();
    let mut run = OrderedRun::new(alloc, work, order)?;
    for _turn in 0..u64::MAX {
        if run.is_over() {
            return run.core.outcome(alloc);
        }
        run.turns()?;
    }
    unreachable!()
}

/// The fewest turns that are made at once.
const LEAST_WINDOW: u32 = 16;

/// The most turns that are made at once.
const MOST_WINDOW: u32 = 4096;

/// A core on its way, the order that picks its events, and those that are allowed now.
#[derive(Drop)]
struct OrderedRun<'a> {
    core: Core<'a>,
    order: Order,
    listing: Listing,
    undo_logs: UndoLogs,
    /// How many turns are tried at once, where no message is on its way.
    window: u32,
}

impl<'a> OrderedRun<'a> {
    /// The core at the start, and the order of a number.
    fn new(alloc: Global, work: &Work<'a>, order: u32) -> Result<OrderedRun<'a>, AllocError>
        requires rewritten { RunsRewritten (work_in work.now) }
        ensures ready { IfOk result IsReady }
        ensures opening { IfOk result (λ r. core_of r.core ≡ opening_core (work_of r.core)) }
        ensures work { IfOk result (λ r. work_of r.core ≡ work_in work.now) }
        ensures order { IfOk result (λ r. r.order ≡ order) }
    {
        let core = Core::new(alloc, work)?;
        let listing = Listing::new(alloc, &core)?;
        let undo_logs = UndoLogs::new(alloc, core.layout().nodes())?;
        Ok(OrderedRun {
            core,
            order: order_of(order),
            listing,
            undo_logs,
            window: LEAST_WINDOW,
        })
    }

    /// Whether every node is over. Else some event is allowed.
    fn is_over(&self) -> bool
        requires ready { IsReady self.now }
        ensures over { result ≡ true → IsOver (work_of self.now.core) (core_of self.now.core) }
        ensures none { result ≡ true
            → choices (work_of self.now.core) (core_of self.now.core) ≡ [] }
        ensures some { result ≡ false
            → 1 ≤ length (choices (work_of self.now.core) (core_of self.now.core)) }
    {
        if self.listing.count > 0 {
            return false;
        }
        self.core.promises();
        true
    }

    /// Makes the events that the order picks next, one at least.
    fn turns(&mut self) -> Result<(), AllocError>
        requires ready { IsReady self.old }
        requires some { 1 ≤ length (choices (work_of self.old.core) (core_of self.old.core)) }
        ensures ready { OnOk result (IsReady self.new) }
        ensures work { OnOk result (work_of self.new.core ≡ work_of self.old.core) }
        ensures leads { OnOk result (LeadsOn (work_of self.old.core) 1
            self.old.order (core_of self.old.core) self.new.order (core_of self.new.core)) }
    {
        if let Some(node) = self.lone_node() {
            return self.turns_on(node);
        }
        if self.listing.calm {
            return self.calm_turns();
        }
        self.turn()
    }

    /// Makes the events that the order picks next, one at least, where no message is on its way.
    fn calm_turns(&mut self) -> Result<(), AllocError>
        requires ready { IsReady self.old }
        requires some { 1 ≤ length (choices (work_of self.old.core) (core_of self.old.core)) }
        requires calm { IsCalm self.old.core.layout.nodes (core_of self.old.core) }
        ensures ready { OnOk result (IsReady self.new) }
        ensures work { OnOk result (work_of self.new.core ≡ work_of self.old.core) }
        ensures leads { OnOk result (LeadsOn (work_of self.old.core) 1
            self.old.order (core_of self.old.core) self.new.order (core_of self.new.core)) }
    {
        if self.run_window() {
            return Ok(());
        }
        self.turn()
    }

    /// The node whose word is the one event that is allowed, where no message is on its way to it.
    fn lone_node(&self) -> Option<u8>
        requires ready { IsReady self.now }
        ensures { MatchOption result (Unit {0}) (λ node.
            (choices (work_of self.now.core) (core_of self.now.core) ≡ Exec node ∷ [])
            × HasNoMail self.now.core.layout.nodes (core_of self.now.core) node) }
    {
        if self.listing.count != 1 {
            return None;
        }
        match self.listing.at(&self.core, 0) {
            Event::Exec(node) if self.listing.no_mail[node as usize] => Some(node),
            _ => None,
        }
    }

    /// Executes words of a node, one each turn, as long as each is the one event that is allowed.
    fn turns_on(&mut self, node: u8) -> Result<(), AllocError>
        requires ready { IsReady self.old }
        requires alone { choices (work_of self.old.core) (core_of self.old.core) ≡ Exec node ∷ [] }
        requires mail { HasNoMail self.old.core.layout.nodes (core_of self.old.core) node }
        ensures ready { OnOk result (IsReady self.new) }
        ensures work { OnOk result (work_of self.new.core ≡ work_of self.old.core) }
        ensures leads { OnOk result (LeadsOn (work_of self.old.core) 1
            self.old.order (core_of self.old.core) self.new.order (core_of self.new.core)) }
    {
        let words = self.core.run_until_send(node)?;
        self.order.skip(words);
        self.listing.list_after(&self.core, node);
        Ok(())
    }

    /// Makes the event that the order picks.
    fn turn(&mut self) -> Result<(), AllocError>
        requires ready { IsReady self.old }
        requires some { 1 ≤ length (choices (work_of self.old.core) (core_of self.old.core)) }
        ensures ready { OnOk result (IsReady self.new) }
        ensures work { OnOk result (work_of self.new.core ≡ work_of self.old.core) }
        ensures leads { OnOk result (LeadsOn (work_of self.old.core) 1
            self.old.order (core_of self.old.core) self.new.order (core_of self.new.core)) }
    {
        let place = self.order.next(self.listing.count);
        let event = self.listing.at(&self.core, place);
        if self.exec_silent(event) {
            return Ok(());
        }
        self.core.step(event)?;
        self.listing.list_after(&self.core, node_of(event));
        Ok(())
    }

    /// Makes an event that is allowed, where it is a word by a micro-op. Otherwise nothing changes.
    fn exec_silent(&mut self, event: Event) -> bool
        requires ready { IsReady self.old }
        requires may { May (work_of self.old.core) (core_of self.old.core) (event_of event) }
        ensures event { result ≡ true → AreAlike self.old.core.layout.nodes (core_of self.new.core)
            (event_step (work_of self.old.core) (core_of self.old.core) (event_of event)) }
        ensures kept { result ≡ false → core_of self.new.core ≡ core_of self.old.core }
        ensures ready { IsReady self.new }
        ensures work { work_of self.new.core ≡ work_of self.old.core }
        ensures order { self.new.order ≡ self.old.order }
    {
        match event {
            Event::Exec(node) => self.exec_silent_word(node),
            Event::Take { .. } => false,
        }
    }

    /// Executes a word of a node by a micro-op, where that serves it. Otherwise nothing changes.
    fn exec_silent_word(&mut self, node: u8) -> bool
        requires ready { IsReady self.old }
        requires may { May (work_of self.old.core) (core_of self.old.core) (Exec node) }
        ensures event { result ≡ true → AreAlike self.old.core.layout.nodes (core_of self.new.core)
            (event_step (work_of self.old.core) (core_of self.old.core) (Exec node)) }
        ensures kept { result ≡ false → core_of self.new.core ≡ core_of self.old.core }
        ensures ready { IsReady self.new }
        ensures work { work_of self.new.core ≡ work_of self.old.core }
        ensures order { self.new.order ≡ self.old.order }
    {
        if !self.core.exec_silent(node) {
            return false;
        }
        if self.listing.no_mail[node as usize] {
            return true;
        }
        self.listing.list_again(&self.core, node);
        true
    }

    /// Makes some of the turns that come next at once, where no message is on its way: as many as
    /// the window, or those before a node stops. It says whether it made the whole window.
    fn run_window(&mut self) -> bool
        requires ready { IsReady self.old }
        requires some { 1 ≤ length (choices (work_of self.old.core) (core_of self.old.core)) }
        requires calm { IsCalm self.old.core.layout.nodes (core_of self.old.core) }
        ensures ready { IsReady self.new }
        ensures work { work_of self.new.core ≡ work_of self.old.core }
        ensures some { 1 ≤ length (choices (work_of self.new.core) (core_of self.new.core)) }
        ensures made { result ≡ true → LeadsOn (work_of self.old.core) 1
            self.old.order (core_of self.old.core) self.new.order (core_of self.new.core) }
        ensures leads { LeadsOn (work_of self.old.core) 0
            self.old.order (core_of self.old.core) self.new.order (core_of self.new.core) }
    {
        let turns = self.window.max(LEAST_WINDOW);
        if let Err(stop) = self.run_turns(turns) {
            self.window = self.run_before(stop, turns);
            return false;
        }
        self.window = turns.saturating_mul(2).min(MOST_WINDOW);
        true
    }

    /// Makes the turns before a node stops, where these aren't few, and tells how many they are.
    fn run_before(&mut self, stop: StoppedEarly, most: u32) -> u32
        requires ready { IsReady self.old }
        requires some { 1 ≤ length (choices (work_of self.old.core) (core_of self.old.core)) }
        requires calm { IsCalm self.old.core.layout.nodes (core_of self.old.core) }
        ensures ready { IsReady self.new }
        ensures work { work_of self.new.core ≡ work_of self.old.core }
        ensures some { 1 ≤ length (choices (work_of self.new.core) (core_of self.new.core)) }
        ensures leads { LeadsOn (work_of self.old.core) 0
            self.old.order (core_of self.old.core) self.new.order (core_of self.new.core) }
    {
        let place = self.listing.place(stop.node);
        let turns = self
            .order
            .turns_until(place, stop.words, self.listing.count, most);
        if turns >= LEAST_WINDOW / 2 {
            let _ = self.run_turns(turns);
        }
        turns
    }

    /// Makes `turns` turns at once, where no message is on its way and each of them is a word by a
    /// micro-op. Otherwise nothing changes, and the answer tells a node that stops before.
    fn run_turns(&mut self, turns: u32) -> Result<(), StoppedEarly>
        requires ready { IsReady self.old }
        requires some { 1 ≤ length (choices (work_of self.old.core) (core_of self.old.core)) }
        requires calm { IsCalm self.old.core.layout.nodes (core_of self.old.core) }
        ensures ready { IsReady self.new }
        ensures work { work_of self.new.core ≡ work_of self.old.core }
        ensures some { 1 ≤ length (choices (work_of self.new.core) (core_of self.new.core)) }
        ensures leads { IfOk result (λ u. LeadsOn (work_of self.old.core) turns
            self.old.order (core_of self.old.core) self.new.order (core_of self.new.core)) }
        ensures calm { IsCalm self.new.core.layout.nodes (core_of self.new.core) }
        ensures on { LeadsOn (work_of self.old.core) 0
            self.old.order (core_of self.old.core) self.new.order (core_of self.new.core) }
        ensures window { self.new.window ≡ self.old.window }
    {
        let tally = self.order.tally(turns, self.listing.count);
        let words = self.listing.words(&self.core, &tally);
        self.core.run_each_undoable(&words, &mut self.undo_logs)?;
        self.order.skip(turns as u64);
        Ok(())
    }
}

/// The node of an event.
fn node_of(event: Event) -> u8
    ensures { result ≡ maker (event_of event) }
{
    match event {
        Event::Exec(node) => node,
        Event::Take { node, .. } => node,
    }
}
