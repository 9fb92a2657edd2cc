//! A link between two nodes, and what the network does with its packets.

ghost use Rattle.std.specs.Prelude.{◌≡◌, ◌+◌, ◌^◌, ◌<◌, ◌==◌, ◌&&◌, not, ℕ, [], ◌∷◌, ◌++◌, true};
ghost use Rattle.std.specs.Prelude.{if◌then◌else◌, IfOk, OnOk};
ghost use Rattle.std.proofs.Common.{ap, append-nil, lt_of_lt_of_le, sym};
ghost use Rattle.random_order.specs.Orders.{following, choice};
ghost use Rattle.lossy_link.specs.Sender.{number_offered};
ghost use Rattle.lossy_link.specs.Receiver.{Receiving, Delivers};
ghost use Rattle.lossy_sim.specs.Links.{LossyLink, HasNetworkTurn, new_link, with_offered};
ghost use Rattle.lossy_sim.specs.Links.{packet_at, packets_drawn, in_a_row, is_given};
ghost use Rattle.lossy_sim.specs.WithLoss.{has_next};
ghost use Rattle.lossy_sim.specs.Draws.{HasBrought, HasReceived};

use dsm_messages::Wire;
use lossy_link::{Packet, Receiver, Sender};
use message_queues::Channel;
use random_order::Order;
use std::alloc::{AllocError, Global};
use std::marker::Model;

/// How many items the window of a link has.
const WINDOW: u8 = 8;

/// How many draws in a row may lose packet 0, or the acknowledgement.
const MOST_LOST: u8 = 7;

/// A draw is one of this number.
const DRAWS: u32 = 4;

/// A link from one node to another.
#[derive(Drop)]
pub(crate) struct Link {
    sender: Sender<Wire>,
    receiver: Receiver<Wire>,
    /// The packets that were kept back at the last network turn, by number.
    kept: Vec<Packet<Wire>>,
    /// How many of the last draws for packet 0 were 0 in a row, at most 7.
    lost: u8,
    /// How many of the last draws for the acknowledgement were 0 in a row, at most 7.
    silent: u8,
}

impl Model for Link {
    ghost use Rattle.std.specs.Prelude.{◌≡◌, ◌≤◌};
    ghost use Rattle.lossy_sim.specs.Links.{LossyLink};

    ghost Value = { LossyLink };

    ghost view = { λ l. record {
      sender = l.sender;
      receiver = l.receiver;
      kept = l.kept.items;
      lost = l.lost;
      silent = l.silent;
    } };

    ghost invariant = { λ l. (l.sender.window ≡ 8) × (l.lost ≤ 7) × (l.silent ≤ 7) };
}

/// A link over a network that loses, repeats and keeps back packets.
impl Channel for Link {
    ghost has_sent = { λ l wires m. m ≡ with_offered l wires };

    ghost has_room = { λ l k. (j : ℕ) → j < k → number_offered l.sender + j < 2 ^ 63 };

    ghost may_fail = { true };

    fn send(&mut self, wire: Wire) -> Result<(), AllocError> {
        self.offer(wire)?;
        Ok(())
    }

    ghost none_sent = { λ l. ap
        (λ items. record l { sender = record l.sender { items = items } })
        (sym (append-nil l.sender.items)) };

    ghost fewer_fit = { λ l j k less room i low. room i (lt_of_lt_of_le low less) };
}

impl Link {
    /// A link on which nothing is under way.
    pub(crate) fn new(alloc: Global) -> Result<Link, AllocError>
        ensures new { IfOk result (λ l. l ≡ new_link) }
    {
        Ok(Link {
            sender: Sender::new(alloc, WINDOW)?,
            receiver: Receiver::new(alloc, WINDOW)?,
            kept: Vec::new(alloc),
            lost: 0,
            silent: 0,
        })
    }

    /// Puts a message after those that are under way.
    fn offer(&mut self, wire: Wire) -> Result<(), AllocError>
        requires few { number_offered self.old.sender < 2 ^ 63 }
        ensures offered { OnOk result (self.new ≡ with_offered self.old (wire ∷ [])) }
    {
        self.sender.offer(wire)
    }

    /// Whether the next message has come.
    pub(crate) fn has_next(&self) -> bool
        ensures { result ≡ has_next self.now.receiver }
    {
        self.receiver.holds_next()
    }

    /// The next message, which has come.
    pub(crate) fn deliver(&mut self) -> Wire
        requires next { has_next self.old.receiver ≡ true }
        ensures delivers { (r : Receiving Wire) × Delivers self.old.receiver result r
            × (self.new ≡ record self.old { receiver = r }) }
    {
        match self.receiver.deliver() {
            Some(wire) => wire,
            None => unreachable!(),
        }
    }

    /// What the network does at one of its turns: the packets that it kept back are received, then
    /// each packet of the window has its draw, and then the acknowledgement.
    pub(crate) fn network_turn(&mut self, losses: &mut Order) -> Result<(), AllocError>
        ensures turn { OnOk result (HasNetworkTurn losses.old self.old losses.new self.new) }
    {
        self.bring_kept();
        for k in 0..self.sender.in_window() {
            self.bring(k, losses)?;
        }
        self.acknowledge(losses);
        Ok(())
    }

    /// The packets that were kept back are received, in order.
    fn bring_kept(&mut self)
        ensures { (number : ℕ) → HasBrought number 0 self.old number self.new }
    {
        while !self.kept.is_empty() {
            let packet = self.kept.remove(0);
            self.receiver.receive(packet);
        }
    }

    /// Draws for the packet after k others: 0 loses it, 1 brings it twice, 2 brings it, 3 keeps it
    /// back.
    fn bring(&mut self, k: u8, losses: &mut Order) -> Result<(), AllocError>
        requires there { k < packets_drawn self.old }
        ensures brought { OnOk result ((l : LossyLink) (number : ℕ)
            → HasBrought number k l losses.old self.old
            → HasBrought number (k + 1) l losses.new self.new) }
    {
        match self.draw(k, losses) {
            0 => Ok(()),
            1 => {
                self.receive(k)?;
                self.receive(k)
            }
            2 => self.receive(k),
            _ => self.keep(k),
        }
    }

    /// The next draw, for the packet after k others. Packet 0 is brought whatever is drawn where
    /// the last seven draws for it were 0.
    fn draw(&mut self, k: u8, losses: &mut Order) -> u32
        ensures draw { let drawn = choice 4 (following losses.old) in result
            ≡ (if k == 0 && self.old.lost == 7 && not (drawn == 1) then 2 else drawn) }
        ensures link { self.new ≡ record self.old {
          lost =
              (if k == 0 then in_a_row self.old.lost (choice 4 (following losses.old))
              else self.old.lost);
        } }
        ensures draws { losses.new ≡ following losses.old }
    {
        let drawn = losses.next(DRAWS);
        if k != 0 {
            return drawn;
        }
        let forced = self.lost == MOST_LOST && drawn != 1;
        self.lost = one_more(self.lost, drawn);
        if forced { 2 } else { drawn }
    }

    /// The packet after k others is received.
    fn receive(&mut self, k: u8) -> Result<(), AllocError>
        requires there { k < packets_drawn self.old }
        ensures received { OnOk result (HasReceived k self.old self.new) }
    {
        let packet = self.packet(k)?;
        self.receiver.receive(packet);
        Ok(())
    }

    /// The packet after k others is kept back.
    fn keep(&mut self, k: u8) -> Result<(), AllocError>
        requires there { k < packets_drawn self.old }
        ensures kept { OnOk result (self.new
            ≡ record self.old { kept = self.old.kept ++ packet_at self.old.sender k }) }
    {
        let packet = self.packet(k)?;
        self.kept.push(packet)?;
        Ok(())
    }

    /// The packet after k others.
    fn packet(&self, k: u8) -> Result<Packet<Wire>, AllocError>
        requires there { k < packets_drawn self.now }
        ensures packet { IfOk result (λ p. packet_at self.now.sender k ≡ p ∷ []) }
    {
        match self.sender.packet(k)? {
            Some(packet) => Ok(packet),
            None => unreachable!(),
        }
    }

    /// Draws for the acknowledgement: 0 loses it, unless the last seven draws were 0.
    fn acknowledge(&mut self, losses: &mut Order)
        ensures turn { (l : LossyLink) (number : ℕ)
            → HasBrought number (packets_drawn l) l losses.old self.old
            → HasNetworkTurn number l losses.new self.new }
    {
        let drawn = losses.next(DRAWS);
        let given = is_given(self.silent, drawn);
        if given {
            self.sender.acked(self.receiver.next());
        }
        self.silent = one_more(self.silent, drawn);
    }
}

/// Whether an acknowledgement is given, where `silent` draws in a row were 0 before this one.
fn is_given(silent: u8, drawn: u32) -> bool
    ensures { result ≡ is_given silent drawn }
{
    silent == MOST_LOST || drawn != 0
}

/// How many draws in a row were 0, at most 7, after one more.
fn one_more(row: u8, drawn: u32) -> u8
    ensures { result ≡ in_a_row row drawn }
{
    if drawn != 0 {
        0
    } else if row >= MOST_LOST {
        MOST_LOST
    } else {
        row + 1
    }
}
