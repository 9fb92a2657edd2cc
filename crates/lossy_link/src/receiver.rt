//! The end of a link at which items are delivered.

ghost use Rattle.std.specs.Prelude.{◌≡◌, None, IfOk, MatchOption, is_some};
ghost use Rattle.lossy_link.specs.Sender.{IsWindow};
ghost use Rattle.lossy_link.specs.Receiver.{Delivers, new_receiver, held};
ghost use Rattle.lossy_link.specs.Packets.{Receives};

use crate::packet::Packet;
use std::alloc::{AllocError, Global};
use std::collections::VecDeque;
use std::marker::Model;

// Packets of this number and above are never taken, so numbers don't run out.
const NUMBERS: u64 = 1 << 63;

/// The receiver of a link. Contracts see the number of the next item to be delivered, and what is
/// held of the items of the window, which begins with that one.
#[derive(Drop)]
pub struct Receiver<T> {
    places: VecDeque<Option<T>>,
    next: u64,
}

impl<T> Model for Receiver<T> {
    ghost use Rattle.lossy_link.specs.Receiver.{Receiving, IsSound};

    ghost Value = { Receiving T };

    ghost view = { λ r. record { next = r.next; places = r.places.items } };

    ghost invariant = { λ r. IsSound r.next r.places.items };
}

impl<T: Drop> Receiver<T> {
    /// A receiver that holds nothing. A window is a number of items, from 1 to 64.
    pub fn new(alloc: Global, window: u8) -> Result<Receiver<T>, AllocError>
        requires { IsWindow window }
        ensures { IfOk result (λ r. r ≡ new_receiver window) }
    {
        let mut places = VecDeque::with_capacity(alloc, window as usize)?;
        for _place in 0..window {
            places.push_back_reserved(None);
        }
        Ok(Receiver { places, next: 0 })
    }

    /// The number of the next item to be delivered, which is how many were.
    pub fn next(&self) -> u64
        ensures { result ≡ self.now.next }
    {
        self.next
    }

    /// Whether the next item is held.
    pub fn holds_next(&self) -> bool
        ensures { result ≡ is_some (held self.now self.now.next) }
    {
        self.places[0].is_some()
    }

    /// Holds the packet's item, unless its number is out of the window or it is held already, and
    /// says whether it does.
    pub fn receive(&mut self, packet: Packet<T>) -> bool
        ensures { Receives self.old packet result self.new }
    {
        let Packet { number, item } = packet;
        if number >= NUMBERS || number < self.next {
            return false;
        }
        let ahead = number - self.next;
        if ahead >= self.places.len() as u64 || self.places[ahead as usize].is_some() {
            return false;
        }
        self.places[ahead as usize] = Some(item);
        true
    }

    /// The next item, which is held no longer; or `None` where it isn't held, which changes
    /// nothing.
    pub fn deliver(&mut self) -> Option<T>
        ensures delivers { MatchOption result (held self.old self.old.next ≡ None)
            (λ item. Delivers self.old item self.new) }
        ensures nothing { result ≡ None → self.new ≡ self.old }
    {
        let item = self.places[0].take()?;
        self.places.rotate_left(1);
        self.next += 1;
        Some(item)
    }
}
