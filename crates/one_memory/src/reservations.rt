//! The reservations of the processors.

ghost use Rattle.std.specs.Prelude.{◌≡◌, ◌<◌, ◌==◌, if◌then◌else◌, None};
ghost use Rattle.block_layout.specs.Layout.{blocks};
ghost use Rattle.rv32_step.specs.Reservations as model;
ghost use Rattle.llsc.specs.Reservation.{cleared};
ghost use Rattle.one_memory.specs.Machine.{reserved_in};

use block_layout::{Block, Layout, layout_law};
use std::marker::Model;

/// The most processors that there may be.
const MOST: usize = 16;

/// The address that each processor has reserved, or none. Contracts see the list of these.
#[derive(Drop)]
pub struct Reservations {
    each: [Option<u32>; MOST],
    /// Whether any processor may have one.
    any: bool,
}

impl Model for Reservations {
    ghost use Rattle.std.specs.Prelude.{◌≡◌, ℕ, List, Option, None, false, length};
    ghost use Rattle.one_memory.specs.Machine.{reserved_in};

    ghost Value = { List (Option ℕ) };

    ghost view = { λ r. r.each };

    ghost invariant = { λ r. (length r.each ≡ 16)
        × (r.any ≡ false → reserved_in r.each ≡ (λ p. None)) };
}

impl Reservations {
    /// No reservation.
    pub fn new() -> Reservations
        ensures { reserved_in result ≡ (λ p. None) }
    {
        Reservations {
            each: [None; MOST],
            any: false,
        }
    }

    /// The same reservations once more.
    pub fn copy(&self) -> Reservations
        ensures { result ≡ self.now }
    {
        Reservations {
            each: self.each,
            any: self.any,
        }
    }

    /// The address that processor `p` has reserved.
    pub fn get(&self, p: u8) -> Option<u32>
        requires { p < 16 }
        ensures { result ≡ reserved_in self.now p }
    {
        self.each[p as usize]
    }

    /// Gives processor `p` another reservation, or none.
    pub fn set(&mut self, p: u8, reserved: Option<u32>)
        requires { p < 16 }
        ensures { reserved_in self.new
            ≡ model.with_reservation (reserved_in self.old) p reserved }
    {
        self.each[p as usize] = reserved;
        self.any = true;
    }

    /// Ends what the others have reserved in the block of an address, to which processor `p` has
    /// stored.
    #[inline(always)]
    pub fn end_others(&mut self, layout: &Layout, p: u8, address: u32)
        ensures { reserved_in self.new
            ≡ model.after_store_by layout.now p address (reserved_in self.old) }
    {
        if self.any {
            self.end_each(layout, p, address);
        }
    }

    /// Looks at the reservation of each other processor, and ends those of the block. It finds
    /// anew whether any is left.
    #[inline(never)]
    fn end_each(&mut self, layout: &Layout, p: u8, address: u32)
        ensures { reserved_in self.new
            ≡ model.after_store_by layout.now p address (reserved_in self.old) }
    {
        let mut any = false;
        for q in 0..MOST {
            let reserved = after_store(layout, p as usize, address, q, self.each[q]);
            self.each[q] = reserved;
            any = any || reserved.is_some();
        }
        self.any = any;
    }
}

/// What processor `q` has reserved after a store of processor `p` to an address.
fn after_store(
    layout: &Layout,
    p: usize,
    address: u32,
    q: usize,
    reserved: Option<u32>,
) -> Option<u32>
    ensures { result ≡ (if q == p then reserved
        else model.after_other layout.now address reserved) }
{
    if q == p {
        return reserved;
    }
    layout_law();
    // brings: the layout is valid
    let _valid = layout.nodes();
    match layout.block_of(address / 64) {
        Some(block) => after_loss(layout, block, reserved),
        None => reserved,
    }
}

/// A reservation after another processor's store into a block.
fn after_loss(layout: &Layout, block: Block, reserved: Option<u32>) -> Option<u32>
    requires { block < blocks layout.now }
    ensures { result ≡ cleared layout.now block reserved }
{
    match reserved {
        Some(own) => {
            if layout.has_line(block, own / 64) {
                None
            } else {
                reserved
            }
        }
        None => None,
    }
}
