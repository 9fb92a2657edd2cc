//! One worker: a node, the ends of its links, and the wires that wait for room.

ghost use Rattle.std.specs.Prelude.{◌≡◌, ◌<◌, ◌++◌, ◌^◌, ℕ, List, None, Ok, true, false, OnOk};
ghost use Rattle.std.specs.Prelude.{IfOk, length};
ghost use Rattle.dsm_messages.specs.declared.messages.Wire.{Wire};
ghost use Rattle.dsm_protocol.specs.node_model.declared.Standing.TheVariants.{AtPoll};
ghost use Rattle.dsm_protocol.specs.node_model.Core.{may_execute, may_take, wires_to};
ghost use Rattle.dsm_core.specs.node_machine.NodeState.{node_of};
ghost use Rattle.node_threads.specs.Works.{Works, HasRows, standing, waiting};

use crate::gate::Gate;
use crate::pace::{Burst, Pace, State};
use crate::signals::Signals;
use dsm_core::node_machine::{Node, Standing};
use dsm_messages::{Sends, Wire};
use fifo_link::{Full, SendEnd, TakeEnd};
use message_queues::send_all;
use run_limits::STAMPS;
use std::alloc::AllocError;
use std::collections::VecDeque;
use std::sync::Wait;

/// How many single steps are made at most on the way to a poll.
const STEPS: u32 = 1000;

/// How many words a spin loop has at most, where it is detected.
const SPIN_LOOP: u32 = 128;

/// A node that makes its events by itself, with links to and from all nodes.
#[derive(Drop)]
pub struct Worker<'a> {
    /// The node.
    pub node: Node<'a>,
    /// The node's number, which the gate is told.
    pub number: u8,
    /// How many events it has made, which the gate is told.
    pub events: u64,
    /// The sending end of the link to each node.
    pub sends: Vec<SendEnd>,
    /// The taking end of the link from each node.
    pub takes: Vec<TakeEnd>,
    /// The outbox for each node: what waits for room on the link there.
    pub outboxes: Vec<VecDeque<Wire>>,
    /// A wire that came from a link and wasn't taken, and its sender.
    pub undelivered: Option<(u8, Wire)>,
    /// Where an event leaves what it sends, until that stands in the outboxes.
    pub outgoing: Sends,
}

/// Moves wires from an outbox to its link while there is room. Says whether any was moved.
fn flush<R: Wait>(rt: &R, end: &mut SendEnd, out: &mut VecDeque<Wire>) -> Result<bool, AllocError>
    ensures link { end.new.link ≡ end.old.link }
    ensures capacity { end.new.capacity ≡ end.old.capacity }
    ensures wires { OnOk result ((pushed : List Wire)
        × (end.new.wires ≡ end.old.wires ++ pushed)
        × (out.old.items ≡ pushed ++ out.new.items)) }
{
    let mut moved = false;
    while let Some(wire) = out.pop_front() {
        match end.push(rt, wire) {
            Ok(()) => moved = true,
            Err(Full(wire)) => {
                out.push_front(wire)?;
                return Ok(moved);
            }
        }
    }
    Ok(moved)
}

/// Puts what an event sends into the outboxes.
fn queue_sends(
    outboxes: &mut Vec<VecDeque<Wire>>,
    stamp: u64,
    sends: &mut Sends,
) -> Result<(), AllocError>
    ensures wires { OnOk result ((k : ℕ) → k < length outboxes.old.items
        → waiting outboxes.new.items k
        ≡ waiting outboxes.old.items k ++ wires_to stamp k sends.old.items) }
    ensures len { length outboxes.new.items ≡ length outboxes.old.items }
{
    let nodes = outboxes.len();
    send_all(outboxes, 0, nodes, stamp, sends)?;
    Ok(())
}

/// Goes through the gate before an event, after `events` events.
fn pass_gate<G: Gate>(gate: &G, number: u8, events: &mut u64) {
    gate.turn(number, *events);
    *events = events.wrapping_add(1);
}

/// Tells a node that something was sent to it.
fn tell<G: Gate>(gate: &G, signals: &Signals, node: usize) {
    if let Ok(number) = u8::try_from(node) {
        if gate.tells(number) {
            signals.notify(node);
        }
    }
}

impl<'a> Worker<'a> {
    /// Works until its node is over and nothing waits for room, or all nodes have waited for long,
    /// or a stamp is out of range.
    pub fn work<R: Wait, G: Gate>(
        self,
        rt: &R,
        gate: &G,
        signals: &Signals,
    ) -> Result<Worker<'a>, AllocError>
        requires rows { HasRows self }
        requires undelivered { self.undelivered ≡ None }
        ensures works { IfOk result (λ w. Works self.entry w) }
    {
        let mut worker = self;
        let mut pace = Pace::new();
        for _ in rt.forever() {
            if worker.is_done() || pace.is_over() {
                return Ok(worker);
            }
            if !worker.round(rt, gate, signals, &mut pace)? {
                pace.rest(rt, signals, worker.number);
            }
        }
        unreachable!()
    }

    /// Whether there is nothing more to do: a stamp is out of range, or the node is over and
    /// nothing waits for room.
    fn is_done(&self) -> bool
        ensures undelivered { result ≡ false → self.now.undelivered ≡ None }
        ensures stamp { result ≡ false → (node_of self.now.node).stamp < 2 ^ 56 }
    {
        if self.undelivered.is_some() || self.node.stamp() >= STAMPS {
            return true;
        }
        self.node.standing().is_over() && !self.has_outgoing()
    }

    /// Whether an outbox holds something.
    fn has_outgoing(&self) -> bool {
        !self.outboxes.iter().all(|out| out.is_empty())
    }

    /// Moves what waits to the links that have room, and then does what the node may. Says whether
    /// there was anything to do.
    fn round<R: Wait, G: Gate>(
        &mut self,
        rt: &R,
        gate: &G,
        signals: &Signals,
        pace: &mut Pace,
    ) -> Result<bool, AllocError>
        requires rows { HasRows self.old }
        requires undelivered { self.old.undelivered ≡ None }
        requires stamp { (node_of self.old.node).stamp < 2 ^ 56 }
        ensures works { OnOk result (Works self.old self.new) }
    {
        let moved = self.flush_all(rt, gate, signals, pace)?;
        pace.poll(signals, self.number);
        let did = self.act(rt, gate, pace)?;
        Ok(moved || did)
    }

    /// Does what the node may. Says whether there was anything to do.
    fn act<R: Wait, G: Gate>(
        &mut self,
        rt: &R,
        gate: &G,
        pace: &mut Pace,
    ) -> Result<bool, AllocError>
        requires rows { HasRows self.old }
        requires undelivered { self.old.undelivered ≡ None }
        requires stamp { (node_of self.old.node).stamp < 2 ^ 56 }
        ensures works { OnOk result (Works self.old self.new) }
    {
        match self.node.standing() {
            Standing::Running => self.run(gate, pace),
            Standing::AtPoll => self.poll(rt, gate, pace),
            Standing::Waiting | Standing::Ended => self.poll_links(rt, gate, pace),
            Standing::Over => Ok(false),
        }
    }

    /// Moves what waits to the links that have room, and tells the nodes that it is for.
    fn flush_all<R: Wait, G: Gate>(
        &mut self,
        rt: &R,
        gate: &G,
        signals: &Signals,
        pace: &mut Pace,
    ) -> Result<bool, AllocError>
        requires rows { HasRows self.old }
        requires undelivered { self.old.undelivered ≡ None }
        ensures undelivered { self.new.undelivered ≡ None }
        ensures node { self.new.node ≡ self.old.node }
        ensures works { OnOk result (Works self.old self.new) }
    {
        if !pace.outgoing {
            return Ok(false);
        }
        let mut moved = false;
        for k in 0..self.sends.len() {
            if flush(rt, &mut self.sends[k], &mut self.outboxes[k])? {
                moved = true;
                tell(gate, signals, k);
            }
        }
        pace.outgoing = self.has_outgoing();
        Ok(moved)
    }

    /// Takes a message that is there, and where there is none goes on through the poll.
    fn poll<R: Wait, G: Gate>(
        &mut self,
        rt: &R,
        gate: &G,
        pace: &mut Pace,
    ) -> Result<bool, AllocError>
        requires rows { HasRows self.old }
        requires undelivered { self.old.undelivered ≡ None }
        requires stamp { (node_of self.old.node).stamp < 2 ^ 56 }
        requires at { standing self.old.node ≡ AtPoll }
        ensures works { OnOk result (Works self.old self.new) }
    {
        if self.poll_links(rt, gate, pace)? {
            return Ok(true);
        }
        self.run(gate, pace)
    }

    /// Executes words: where a message is there, up to the next poll. A node that spins executes
    /// none until a message is there. Says whether there was anything to do.
    fn run<G: Gate>(&mut self, gate: &G, pace: &mut Pace) -> Result<bool, AllocError>
        requires rows { HasRows self.old }
        requires undelivered { self.old.undelivered ≡ None }
        requires stamp { (node_of self.old.node).stamp < 2 ^ 56 }
        requires may { may_execute (standing self.old.node) ≡ true }
        ensures works { OnOk result (Works self.old self.new) }
    {
        match pace.state {
            State::Idle => self.run_on(gate, pace),
            State::Spinning => Ok(false),
            State::HasMail => {
                self.step_to_poll(gate, pace)?;
                Ok(true)
            }
        }
    }

    /// Executes words where no message is there, or finds out that its node spins. Says whether
    /// there was anything to do.
    fn run_on<G: Gate>(&mut self, gate: &G, pace: &mut Pace) -> Result<bool, AllocError>
        requires rows { HasRows self.old }
        requires undelivered { self.old.undelivered ≡ None }
        requires stamp { (node_of self.old.node).stamp < 2 ^ 56 }
        requires may { may_execute (standing self.old.node) ≡ true }
        ensures works { OnOk result (Works self.old self.new) }
    {
        if pace.may_spin() {
            let spins = self.detect_spin_loop(gate, pace)?;
            pace.looked_for_spin_loop(spins);
            return Ok(!spins);
        }
        if gate.is_open() {
            self.run_burst(pace)?;
        } else {
            self.step_to_poll(gate, pace)?;
            pace.stepped();
        }
        Ok(true)
    }

    /// Executes a burst of words, through polls, without a call of the gate.
    fn run_burst(&mut self, pace: &mut Pace) -> Result<(), AllocError>
        requires rows { HasRows self.old }
        requires undelivered { self.old.undelivered ≡ None }
        requires stamp { (node_of self.old.node).stamp < 2 ^ 56 }
        requires may { may_execute (standing self.old.node) ≡ true }
        ensures works { OnOk result (Works self.old self.new) }
    {
        let most = pace.burst_words();
        let words = self.node.run_silent(most);
        if words < most {
            pace.ran(Burst::Stopped(words));
            return self.exec(pace);
        }
        pace.ran(Burst::Whole);
        Ok(())
    }

    /// Executes words one by one, up to the next poll.
    fn step_to_poll<G: Gate>(&mut self, gate: &G, pace: &mut Pace) -> Result<(), AllocError>
        requires rows { HasRows self.old }
        requires undelivered { self.old.undelivered ≡ None }
        requires stamp { (node_of self.old.node).stamp < 2 ^ 56 }
        requires may { may_execute (standing self.old.node) ≡ true }
        ensures works { OnOk result (Works self.old self.new) }
    {
        for _ in 0..STEPS {
            self.word(gate, pace)?;
            if !self.may_go_on() || self.is_at_poll() {
                return Ok(());
            }
        }
        Ok(())
    }

    /// Executes words one by one, until the node is where it was with nothing changed between, or
    /// until that can't be. Says whether it spins: then it would do so again and again, unless it
    /// took a message.
    fn detect_spin_loop<G: Gate>(&mut self, gate: &G, pace: &mut Pace) -> Result<bool, AllocError>
        requires rows { HasRows self.old }
        requires undelivered { self.old.undelivered ≡ None }
        requires stamp { (node_of self.old.node).stamp < 2 ^ 56 }
        requires may { may_execute (standing self.old.node) ≡ true }
        ensures works { OnOk result (Works self.old self.new) }
    {
        let mark = self.node.snapshot();
        for _ in 0..SPIN_LOOP {
            if self.node.stirs() {
                return Ok(false);
            }
            self.word(gate, pace)?;
            if !self.may_go_on() {
                return Ok(false);
            }
            if self.node.is_at(&mark) {
                return Ok(true);
            }
        }
        Ok(false)
    }

    /// Whether the node may execute a word, and has a stamp for it.
    fn may_go_on(&self) -> bool
        ensures stamp { result ≡ true → (node_of self.now.node).stamp < 2 ^ 56 }
        ensures may { result ≡ true → may_execute (standing self.now.node) ≡ true }
    {
        if self.node.stamp() >= STAMPS {
            return false;
        }
        self.node.standing().may_execute()
    }

    /// Whether the node is at a poll.
    fn is_at_poll(&self) -> bool {
        matches!(self.node.standing(), Standing::AtPoll)
    }

    /// Passes the gate, and executes a word.
    fn word<G: Gate>(&mut self, gate: &G, pace: &mut Pace) -> Result<(), AllocError>
        requires rows { HasRows self.old }
        requires undelivered { self.old.undelivered ≡ None }
        requires stamp { (node_of self.old.node).stamp < 2 ^ 56 }
        requires may { may_execute (standing self.old.node) ≡ true }
        ensures undelivered { self.new.undelivered ≡ None }
        ensures works { OnOk result (Works self.old self.new) }
    {
        pass_gate(gate, self.number, &mut self.events);
        if self.node.exec_silent() {
            return Ok(());
        }
        self.exec(pace)
    }

    /// Executes a word.
    fn exec(&mut self, pace: &mut Pace) -> Result<(), AllocError>
        requires rows { HasRows self.old }
        requires undelivered { self.old.undelivered ≡ None }
        requires stamp { (node_of self.old.node).stamp < 2 ^ 56 }
        requires may { may_execute (standing self.old.node) ≡ true }
        ensures undelivered { self.new.undelivered ≡ None }
        ensures works { OnOk result (Works self.old self.new) }
    {
        self.node.room()?;
        let turn = self.node.exec_into(&mut self.outgoing);
        if !self.outgoing.is_empty() {
            pace.outgoing = true;
        }
        queue_sends(&mut self.outboxes, turn.stamp, &mut self.outgoing)
    }

    /// Looks at the links by sender, and takes the first message that is there. Says whether there
    /// was one. Where no signal was rung since the links were empty, it looks at none.
    fn poll_links<R: Wait, G: Gate>(
        &mut self,
        rt: &R,
        gate: &G,
        pace: &mut Pace,
    ) -> Result<bool, AllocError>
        requires rows { HasRows self.old }
        requires undelivered { self.old.undelivered ≡ None }
        requires stamp { (node_of self.old.node).stamp < 2 ^ 56 }
        requires may { may_take (standing self.old.node) ≡ true }
        ensures works { OnOk result (Works self.old self.new) }
        ensures none { result ≡ Ok false
            → (self.new.undelivered ≡ None) × (self.new.node ≡ self.old.node) }
    {
        if !pace.has_mail() {
            return Ok(false);
        }
        let links = self.takes.len().min(255) as u8;
        for from in 0..links {
            if self.poll_link(rt, gate, from)? {
                pace.took();
                pace.outgoing = true;
                return Ok(true);
            }
        }
        pace.found_none();
        Ok(false)
    }

    /// Looks at the link from a node, and takes a message that is there. Where its stamp is out of
    /// range it stays in undelivered.
    fn poll_link<R: Wait, G: Gate>(
        &mut self,
        rt: &R,
        gate: &G,
        from: u8,
    ) -> Result<bool, AllocError>
        requires rows { HasRows self.old }
        requires from { from < length self.old.takes.items }
        requires undelivered { self.old.undelivered ≡ None }
        requires stamp { (node_of self.old.node).stamp < 2 ^ 56 }
        requires may { may_take (standing self.old.node) ≡ true }
        ensures works { OnOk result (Works self.old self.new) }
        ensures none { result ≡ Ok false
            → (self.new.undelivered ≡ None) × (self.new.node ≡ self.old.node) }
    {
        let Some(wire) = self.takes[usize::from(from)].pop(rt) else {
            return Ok(false);
        };
        if wire.stamp >= STAMPS {
            self.undelivered = Some((from, wire));
            return Ok(true);
        }
        pass_gate(gate, self.number, &mut self.events);
        self.node.room()?;
        let turn = self.node.take_into(from, wire, &mut self.outgoing);
        queue_sends(&mut self.outboxes, turn.stamp, &mut self.outgoing)?;
        Ok(true)
    }
}
