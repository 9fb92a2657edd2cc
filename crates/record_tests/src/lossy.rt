//! Three items over a lossy link whose window is two.

use lossy_link::{Packet, Piece, Receiver, Sender};
use std::alloc::{AllocError, Global};
use std::test::Fail;

/// What the link carries.
#[derive(Clone, Copy, PartialEq, Eq)]
struct Letter(char);

impl Piece for Letter {
    fn copy(&self) -> Result<Letter, AllocError> {
        Ok(*self)
    }
}

/// The number and the item of the packet after `k` others.
fn made(sender: &Sender<Letter>, k: u8) -> Result<Option<(u64, char)>, AllocError> {
    match sender.packet(k)? {
        Some(packet) => {
            let Letter(letter) = packet.item;
            Ok(Some((packet.number, letter)))
        }
        None => Ok(None),
    }
}

/// The packet of this number and item.
fn packet(number: u64, item: char) -> Packet<Letter> {
    Packet {
        number,
        item: Letter(item),
    }
}

/// A sender of the three items.
fn sender_of_three(alloc: Global) -> Result<Sender<Letter>, AllocError> {
    let mut sender = Sender::new(alloc, 2)?;
    sender.offer(Letter('a'))?;
    sender.offer(Letter('b'))?;
    sender.offer(Letter('c'))?;
    Ok(sender)
}

/// Whether the packets of the first two are made, and no third.
fn makes_two(sender: &Sender<Letter>) -> Result<bool, AllocError> {
    for (k, wanted) in [(0, Some((0, 'a'))), (1, Some((1, 'b'))), (2, None)] {
        if made(sender, k)? != wanted {
            return Ok(false);
        }
    }
    Ok(true)
}

/// Whether the packet of the third is made where all before this number are acknowledged.
fn makes_the_third(sender: &mut Sender<Letter>, acked: u64) -> Result<bool, AllocError> {
    sender.acked(acked);
    Ok(made(sender, 0)? == Some((2, 'c')))
}

/// Whether the second packet is held once, and delivers nothing.
fn holds_the_second(receiver: &mut Receiver<Letter>) -> bool {
    receiver.receive(packet(1, 'b'))
        && !receiver.receive(packet(1, 'b'))
        && receiver.deliver().is_none()
}

/// Whether the first packet then delivers two items in their order, and no third.
fn delivers_two(receiver: &mut Receiver<Letter>) -> bool {
    receiver.receive(packet(0, 'a'))
        && receiver.deliver() == Some(Letter('a'))
        && receiver.deliver() == Some(Letter('b'))
        && receiver.deliver().is_none()
        && receiver.next() == 2
}

#[test]
fn delivers_three_items_in_order(rt: HostRuntime) -> Result<(), Fail> {
    let mut sender = sender_of_three(rt.alloc())?;
    let mut receiver = Receiver::new(rt.alloc(), 2)?;
    let two = makes_two(&sender)? && holds_the_second(&mut receiver) && delivers_two(&mut receiver);
    if two && makes_the_third(&mut sender, 2)? && makes_the_third(&mut sender, 9)? {
        return Ok(());
    }
    Err(Fail::from("another packet or item"))
}
