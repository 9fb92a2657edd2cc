//! The two ends of a link.
ghost use Rattle.std.specs.Prelude.{◌≡◌, ◌≤◌, [], ◌∷◌, ◌++◌, length};
ghost use Rattle.std.specs.Prelude.{IsErr, IfOk, MatchResult, MatchOption};

use crate::rule::{Hand, Pushes, Ring, Takes, TwoEnds};
use crossbeam_queue::Pass;
use dsm_messages::Wire;
use std::alloc::{AllocError, Global};
use std::collections::VecDeque;
use std::marker::Model;
use std::sync::{Arc, Wait};

/// The end at which wires are pushed. Contracts see the link, its capacity and what was sent.
#[derive(Drop)]
pub struct SendEnd {
    ring: Arc<Ring, Global>,
    pass: Pass<Wire, Hand>,
}

impl Model for SendEnd {
    ghost use Rattle.std.specs.Prelude.{◌≡◌, true, false, []};
    ghost use Rattle.crossbeam_queue.specs.Passes.{view as known, IsPassOf, ruled_capacity};
    ghost use Rattle.fifo_link.specs.End.{End};
    ghost use Rattle.fifo_link.specs.Rule.{hand};

    ghost Value = { End };

    ghost view = { λ e. record {
      link = e.pass.table_id;
      capacity = ruled_capacity e.ring.value;
      wires = (known e.pass).sent;
    } };

    ghost invariant = { λ e. IsPassOf e.ring.value e.pass
        × (known e.pass ≡ hand true false (known e.pass).sent []) };
}

/// The end at which wires are popped. Contracts see the link, its capacity and what was taken.
#[derive(Drop)]
pub struct TakeEnd {
    ring: Arc<Ring, Global>,
    pass: Pass<Wire, Hand>,
}

impl Model for TakeEnd {
    ghost use Rattle.std.specs.Prelude.{◌≡◌, true, false, []};
    ghost use Rattle.crossbeam_queue.specs.Passes.{view as known, IsPassOf, ruled_capacity};
    ghost use Rattle.fifo_link.specs.End.{End};
    ghost use Rattle.fifo_link.specs.Rule.{hand};

    ghost Value = { End };

    ghost view = { λ e. record {
      link = e.pass.table_id;
      capacity = ruled_capacity e.ring.value;
      wires = (known e.pass).taken;
    } };

    ghost invariant = { λ e. IsPassOf e.ring.value e.pass
        × (known e.pass ≡ hand false true [] (known e.pass).taken) };
}

/// A wire that found its ring full.
#[derive(Drop)]
pub struct Full(pub Wire);

/// A new link, whose ring holds `capacity` wires: its two ends.
pub fn link(alloc: Global, capacity: usize) -> Result<(SendEnd, TakeEnd), AllocError>
    requires room { (1 ≤ capacity) × (capacity ≤ 4096) }
    ensures one { IfOk result (λ e. e.0.link ≡ e.1.link) }
    ensures capacity { IfOk result (λ e.
        (e.0.capacity ≡ capacity) × (e.1.capacity ≡ capacity)) }
    ensures empty { IfOk result (λ e. (e.0.wires ≡ []) × (e.1.wires ≡ [])) }
{
    let (ring, mut pass) = Ring::ruled(alloc, capacity)?;
    let other = ring.another::<TwoEnds>(&mut pass);
    let ring = Arc::new(alloc, ring)?;
    let again = Arc::try_clone(&ring)?;
    Ok((
        SendEnd { ring, pass },
        TakeEnd {
            ring: again,
            pass: other,
        },
    ))
}

impl SendEnd {
    /// Puts the wire after all that was sent, or hands it back, which the ring does where it held
    /// its capacity at a moment of the call.
    pub fn push<R: Wait>(&mut self, rt: &R, wire: Wire) -> Result<(), Full>
        ensures link { self.new.link ≡ self.old.link }
        ensures capacity { self.new.capacity ≡ self.old.capacity }
        ensures sent { MatchResult result (λ _. self.new.wires ≡ self.old.wires ++ wire ∷ [])
            (λ full. (full.0 ≡ wire) × (self.new.wires ≡ self.old.wires)) }
        // As many wires as the ring holds were sent before.
        ensures full { IsErr result → self.old.capacity ≤ length self.old.wires }
    {
        match self.ring.push_as::<Pushes, R>(rt, &mut self.pass, wire) {
            Ok(()) => Ok(()),
            Err(back) => Err(Full(back)),
        }
    }
}

impl TakeEnd {
    /// Takes the wire at the front; `None` only where the ring was empty at a moment of the call.
    pub fn pop<R: Wait>(&mut self, rt: &R) -> Option<Wire>
        ensures link { self.new.link ≡ self.old.link }
        ensures capacity { self.new.capacity ≡ self.old.capacity }
        ensures taken { MatchOption result (self.new.wires ≡ self.old.wires)
            (λ wire. self.new.wires ≡ self.old.wires ++ wire ∷ []) }
    {
        self.ring.pop_as::<Takes, R>(rt, &mut self.pass)
    }
}

/// What is left of a link, whose two ends end here: what was sent is what was taken, and then this.
pub fn rejoin<R: Wait>(
    rt: &R,
    alloc: Global,
    sender: SendEnd,
    taker: TakeEnd,
) -> Result<VecDeque<Wire>, AllocError>
    requires one { sender.link ≡ taker.link }
    ensures left { IfOk result (λ left. sender.wires ≡ taker.wires ++ left.items) }
{
    let SendEnd { ring, mut pass } = sender;
    let TakeEnd {
        ring: again,
        pass: other,
    } = taker;
    ring.absorb::<TwoEnds>(&mut pass, other);
    drop(again);
    let mut left = VecDeque::new(alloc);
    for _ in rt.forever() {
        match ring.pop_as::<Takes, R>(rt, &mut pass) {
            Some(wire) => left.push_back(wire)?,
            None => return Ok(left),
        }
    }
    unreachable!()
}
