//! Nodes over lossy links, by an order and a loss.

ghost use Rattle.std.specs.Prelude.{◌≡◌, ◌+◌, ◌*◌, ◌^◌, ◌≤◌, ◌↔◌, true, length, IfOk, OnOk};
ghost use Rattle.dsm_core.specs.rewriting_law.Bounds.{RunsRewritten};
ghost use Rattle.dsm_core.specs.CoreParts.{work_in, work_of, outcome_of};
ghost use Rattle.lossy_sim.specs.Runs.{IsReady, IsInRange, IsListed, HasPicked, HasTurned};
ghost use Rattle.lossy_sim.specs.Runs.{state_in};
ghost use Rattle.lossy_sim.specs.Stored.{HaveOfferedFew, HaveSentFewer};
ghost use Rattle.lossy_sim.specs.WithLoss.{AreAllOver, HaveNetworkTurns, IsOutcomeWithLoss};
ghost use Rattle.lossy_sim.specs.WithLoss.{opening_state};

use crate::links::Link;
use crate::listing::{are_over, list};
use crate::loss_law;
use crate::nodes::{make, network_turn, new_links};
use dsm_core::rewriting_law::progress_law;
use dsm_core::run_order::stamp_law;
use dsm_core::{Core, Event, Outcome, Parts, Work};
use random_order::{Order, order_of};
use std::alloc::{AllocError, Global};

/// Each turn whose number is a multiple of this is the network's.
const ROUND: u64 = 4;

/// Runs the nodes of a layout to their ends, on one thread, over links that lose, repeat and keep
/// back packets. The order of a number picks the nodes' events among those that are allowed, and
/// the order of another what the network does. Turns are counted from 1: one whose number is a
/// multiple of 4 is the network's, and so is one at which the nodes may make no event.
pub fn lossy_simulate(
    alloc: Global,
    work: &Work<'_>,
    order: u32,
    loss: u32,
) -> Result<Outcome, AllocError>
    requires rewritten { RunsRewritten (work_in work.now) }
    ensures outcome { IfOk result (λ o. IsOutcomeWithLoss (work_in work.now) order loss
        (outcome_of o)) }
{
    loss_law();
    progress_law();
    stamp_law();
    let mut run = LossyRun::new(alloc, work, order, loss)?;
    for turn in 1..u64::MAX {
        if run.is_over() {
            return Core::put_together(run.parts).outcome(alloc);
        }
        run.turn(turn)?;
    }
    unreachable!()
}

/// Nodes over lossy links on their way.
#[derive(Drop)]
struct LossyRun<'a> {
    /// The nodes. Their lists stay empty: what is under way is on the links.
    parts: Parts<'a>,
    /// The links by sender and then receiver.
    links: Vec<Link>,
    /// What picks the nodes' events.
    order: Order,
    /// What decides on packets.
    losses: Order,
    /// The events that the nodes may make now.
    choices: Vec<Event>,
}

impl<'a> LossyRun<'a> {
    /// The nodes at the start, and links on which nothing is under way.
    fn new(
        alloc: Global,
        work: &Work<'a>,
        order: u32,
        loss: u32,
    ) -> Result<LossyRun<'a>, AllocError>
        requires rewritten { RunsRewritten (work_in work.now) }
        ensures ready { IfOk result IsReady }
        ensures opening { IfOk result (λ r. state_in (work_in work.now) r
            ≡ opening_state (work_in work.now) order loss) }
        ensures work { IfOk result (λ r. work_of r.parts ≡ work_in work.now) }
    {
        let parts = Core::new(alloc, work)?.take_apart();
        let count = parts.layout.nodes();
        let most = count as usize * (1 + count as usize);
        Ok(LossyRun {
            links: new_links(alloc, count)?,
            order: order_of(order),
            losses: order_of(loss),
            choices: Vec::with_capacity(alloc, most)?,
            parts,
        })
    }

    /// Whether every node is over.
    fn is_over(&self) -> bool
        requires ready { IsReady self.now }
        ensures value { (result ≡ true) ↔ AreAllOver (work_of self.now.parts)
            (state_in (work_of self.now.parts) self.now) }
    {
        are_over(&self.parts.nodes, self.parts.layout.nodes())
    }

    /// The turn of a number: the network's, or else the order picks an event.
    fn turn(&mut self, turn: u64) -> Result<(), AllocError>
        requires ready { IsReady self.old }
        requires range { IsInRange (work_of self.old.parts) self.old }
        requires few { HaveSentFewer (2 ^ 62) self.old.links.items self.old.parts.layout.nodes }
        ensures ready { OnOk result (IsReady self.new) }
        ensures work { OnOk result (work_of self.new.parts ≡ work_of self.old.parts) }
        ensures turn { OnOk result (HasTurned (work_of self.old.parts) turn
            (state_in (work_of self.old.parts) self.old)
            (state_in (work_of self.old.parts) self.new)) }
        ensures few { OnOk result (HaveOfferedFew 18 self.old.links.items self.new.links.items
            self.old.parts.layout.nodes) }
    {
        if turn % ROUND == 0 {
            return self.network_turn();
        }
        let count = self.parts.layout.nodes();
        list(&self.parts.nodes, &self.links, count, &mut self.choices);
        if self.choices.is_empty() {
            return self.network_turn();
        }
        self.event()
    }

    /// The network's turn.
    fn network_turn(&mut self) -> Result<(), AllocError>
        requires ready { IsReady self.old }
        ensures ready { OnOk result (IsReady self.new) }
        ensures work { OnOk result (work_of self.new.parts ≡ work_of self.old.parts) }
        ensures turns { OnOk result (HaveNetworkTurns self.old.parts.layout.nodes
            (state_in (work_of self.old.parts) self.old)
            (state_in (work_of self.old.parts) self.new)) }
        ensures few { OnOk result (HaveOfferedFew 18 self.old.links.items self.new.links.items
            self.old.parts.layout.nodes) }
    {
        let count = self.parts.layout.nodes();
        network_turn(&mut self.links, count, &mut self.losses)
    }

    /// Makes the event that the order picks among those that are listed.
    fn event(&mut self) -> Result<(), AllocError>
        requires ready { IsReady self.old }
        requires range { IsInRange (work_of self.old.parts) self.old }
        requires few { HaveSentFewer (2 ^ 62) self.old.links.items self.old.parts.layout.nodes }
        requires listed { IsListed (work_of self.old.parts) self.old }
        requires some { 1 ≤ length self.old.choices.items }
        requires most { length self.old.choices.items ≤ 16 * (1 + 16) }
        ensures ready { OnOk result (IsReady self.new) }
        ensures work { OnOk result (work_of self.new.parts ≡ work_of self.old.parts) }
        ensures picked { OnOk result (HasPicked (work_of self.old.parts)
            (state_in (work_of self.old.parts) self.old)
            (state_in (work_of self.old.parts) self.new)) }
        ensures few { OnOk result (HaveOfferedFew 18 self.old.links.items self.new.links.items
            self.old.parts.layout.nodes) }
    {
        let place = self.order.next(self.choices.len() as u32);
        let event = self.choices[place as usize];
        let count = self.parts.layout.nodes();
        let parts = &mut self.parts;
        make(
            &mut parts.nodes,
            &mut self.links,
            &mut parts.sends,
            count,
            event,
        )
    }
}
