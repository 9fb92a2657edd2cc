//! The end of a link at which items are offered.

ghost use Rattle.std.specs.Prelude.{◌≡◌, ◌^◌, ◌<◌, None, Ok, IfOk, OnOk, OnErr, MatchOption};
ghost use Rattle.std.specs.Prelude.{min, length};
ghost use Rattle.lossy_link.specs.Sender.{IsWindow, Offers, Acknowledges};
ghost use Rattle.lossy_link.specs.Sender.{new_sender, number_offered, IsInWindow};
ghost use Rattle.lossy_link.specs.Packets.{Makes};

use crate::packet::{Packet, Piece};
use std::alloc::{AllocError, Global};
use std::collections::VecDeque;
use std::marker::Model;

/// The sender of a link. Contracts see its window, how many items are acknowledged, and the items
/// that were offered after them.
#[derive(Drop)]
pub struct Sender<T> {
    items: VecDeque<T>,
    acknowledged: u64,
    window: u8,
}

impl<T> Model for Sender<T> {
    ghost use Rattle.std.specs.Prelude.{◌+◌, ◌^◌, ◌≤◌, length};
    ghost use Rattle.lossy_link.specs.Sender.{Sending, IsWindow};

    ghost Value = { Sending T };

    ghost view = { λ s. record {
      window = s.window;
      acknowledged = s.acknowledged;
      items = s.items.items;
    } };

    ghost invariant = { λ s. IsWindow s.window
        × (s.acknowledged + length s.items.items ≤ 2 ^ 63) };
}

impl<T> Sender<T> {
    /// A sender to which nothing was offered. A window is a number of items, from 1 to 64.
    pub fn new(alloc: Global, window: u8) -> Result<Sender<T>, AllocError>
        requires { IsWindow window }
        ensures { IfOk result (λ s. s ≡ new_sender window) }
    {
        Ok(Sender {
            items: VecDeque::with_capacity(alloc, window as usize)?,
            acknowledged: 0,
            window,
        })
    }

    /// How many items stand in the window.
    pub fn in_window(&self) -> u8
        ensures { result ≡ min self.now.window (length self.now.items) }
    {
        let count = self.items.len();
        if count < self.window as usize {
            count as u8
        } else {
            self.window
        }
    }

    /// A packet of the item with `k` items before it that aren't acknowledged, if it is within the
    /// window.
    pub fn packet(&self, k: u8) -> Result<Option<Packet<T>>, AllocError>
    where
        T: Piece,
        ensures makes { IfOk result (λ made. MatchOption made (IsInWindow self.now k → ⊥)
            (λ p. Makes self.now k p)) }
        // Where there is no such item, no memory is taken.
        ensures none { (IsInWindow self.now k → ⊥) → result ≡ Ok None }
    {
        if k >= self.window {
            return Ok(None);
        }
        match self.items.get(k as usize) {
            Some(item) => Ok(Some(Packet {
                number: self.acknowledged + k as u64,
                item: item.copy()?,
            })),
            None => Ok(None),
        }
    }
}

impl<T: Drop> Sender<T> {
    /// Puts the item after the others.
    pub fn offer(&mut self, item: T) -> Result<(), AllocError>
        requires { number_offered self.old < 2 ^ 63 }
        ensures offers { OnOk result (Offers self.old item self.new) }
        ensures nothing { OnErr result (self.new ≡ self.old) }
    {
        self.items.push_back(item)?;
        Ok(())
    }

    /// Takes note that the receiver's next item is the one of this number: those before it are
    /// acknowledged. An old acknowledgement, or one of items that weren't offered, changes nothing.
    pub fn acked(&mut self, next: u64)
        ensures { Acknowledges self.old next self.new }
    {
        if next <= self.acknowledged || next > self.acknowledged + self.items.len() as u64 {
            return;
        }
        self.items.drain(..(next - self.acknowledged) as usize);
        self.acknowledged = next;
    }
}
