//! Links.

ghost use Rattle.std.specs.Prelude.{◌≡◌};

use dsm_messages::{Message, Wire};
use fifo_link::{Full, SendEnd, TakeEnd, link, rejoin};
use std::collections::VecDeque;
use std::sync::Wait;
use std::test::Fail;

fn wire(stamp: u64) -> Wire {
    Wire {
        stamp,
        message: Message::Bye,
    }
}

/// Pushes the wire of this stamp, and gives the stamp of the wire that is handed back, if one is.
fn handed_back(rt: &impl Wait, sender: &mut SendEnd, stamp: u64) -> Option<u64>
    ensures { sender.new.link ≡ sender.old.link }
{
    match sender.push(rt, wire(stamp)) {
        Ok(()) => None,
        Err(Full(back)) => Some(back.stamp),
    }
}

/// Pops a wire, and gives its stamp, if there is one.
fn popped(rt: &impl Wait, taker: &mut TakeEnd) -> Option<u64>
    ensures { taker.new.link ≡ taker.old.link }
{
    match taker.pop(rt) {
        Some(taken) => Some(taken.stamp),
        None => None,
    }
}

/// Whether one wire is left, and has this stamp.
fn is_left(mut left: VecDeque<Wire>, stamp: u64) -> bool {
    let alone = left.len() == 1;
    match left.pop_front() {
        Some(kept) => alone && kept.stamp == stamp,
        None => false,
    }
}

#[test]
fn a_link_of_one_wire(rt: HostRuntime) -> Result<(), Fail> {
    let (mut sender, mut taker) = link(rt.alloc(), 1)?;
    let first = handed_back(&rt, &mut sender, 1);
    let full = handed_back(&rt, &mut sender, 2);
    let taken = popped(&rt, &mut taker);
    let second = handed_back(&rt, &mut sender, 2);
    let left = rejoin(&rt, rt.alloc(), sender, taker)?;
    if [first, full, taken, second] == [None, Some(2), Some(1), None] && is_left(left, 2) {
        return Ok(());
    }
    Err(Fail::from("other wires"))
}
