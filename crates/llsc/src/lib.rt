#![tactic(auto)]
//! The reservation of a processor, for LR and SC.
//!
//! A reservation is one address. It ends where the node loses the block of that address, since
//! another node may write there then.

ghost use Rattle.std.specs.Prelude.{◌≡◌, ◌<◌, None, Some};
ghost use Rattle.block_layout.specs.Layout.{blocks};
ghost use Rattle.llsc.specs.Reservation.{holds, cleared};

use block_layout::Layout;
use std::marker::Model;

/// The reservation of a processor. Contracts see the address that it has reserved, or none.
#[derive(Drop)]
pub struct Reservation {
    address: Option<u32>,
}

impl Model for Reservation {
    ghost use Rattle.std.specs.Prelude.{ℕ, Option};

    ghost Value = { Option ℕ };

    ghost view = { λ r. r.address };
}

impl Reservation {
    /// No reservation.
    pub fn new() -> Reservation
        ensures { result ≡ None }
    {
        Reservation { address: None }
    }

    /// Reserves an address, in place of the one before.
    pub fn set(&mut self, address: u32)
        ensures { self.new ≡ Some address }
    {
        self.address = Some(address);
    }

    /// The address that is reserved.
    pub fn address(&self) -> Option<u32>
        ensures { result ≡ self.now }
    {
        self.address
    }

    /// Ends the reservation, where there is one.
    pub fn end(&mut self)
        ensures { self.new ≡ None }
    {
        self.address = None;
    }

    /// Ends the reservation where its address is in the block.
    pub fn clear_block(&mut self, layout: &Layout, block: u32)
        requires { block < blocks layout.now }
        ensures { self.new ≡ cleared layout.now block self.old }
    {
        if let Some(address) = self.address {
            if layout.has_line(block, address / 64) {
                self.address = None;
            }
        }
    }

    /// Whether this address is reserved.
    pub fn holds(&self, address: u32) -> bool
        ensures { result ≡ holds self.now address }
    {
        match self.address {
            Some(reserved) => reserved == address,
            None => false,
        }
    }
}
