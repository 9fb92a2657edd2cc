#![tactic(auto)]
//! A reliable link over a network that loses, repeats and reorders packets.
//!
//! A [`Sender`] numbers the items that are offered, and keeps each until it is acknowledged, so
//! that a packet of it can be made again. A [`Receiver`] holds the items that came before those
//! ahead of them, and delivers each item once, in order. A packet carries one item of the window:
//! so one that is lost is sent again by itself.
//!
//! What carries packets and acknowledgements is the caller's matter. [`prefix_law`] says what is
//! delivered, whatever becomes of them.

ghost use Rattle.std.specs.Prelude.{◌≡◌, ℕ, ◌^◌, ◌<◌, ◌≤◌, ◌⊎◌, List, Some, length};
ghost use Rattle.lossy_link.specs.Runs.{Event, Link, IsLossyRun, IsPrefix};
ghost use Rattle.lossy_link.specs.Runs.{new_link, offered, delivered};
ghost use Rattle.lossy_link.specs.Sender.{number_offered};
ghost use Rattle.lossy_link.specs.Receiver.{IsWanted, held};
ghost use Rattle.lossy_link.specs.Packets.{Makes};
ghost use Rattle.lossy_link.specs.declared.packet.Packet.{Packet};

mod packet;
mod receiver;
mod sender;

pub use packet::{Packet, Piece};
pub use receiver::Receiver;
pub use sender::Sender;

/// The law of lossy links, which callers use by its clauses; the call does nothing. Each clause
/// speaks of every lossy run of a new link, of any window.
pub fn prefix_law<T>()
    // What is delivered is what was offered, from the first item on: nothing is missing, doubled or
    // out of order.
    ensures prefix { (window : ℕ) (events : List (Event T)) (link : Link T)
        → IsLossyRun (new_link window) events link
        → IsPrefix (delivered events) (offered events) }
    // The items acknowledged, which are the first ones, were all delivered.
    ensures acknowledged { (window : ℕ) (events : List (Event T)) (link : Link T)
        → IsLossyRun (new_link window) events link
        → link.sender.acknowledged ≤ length (delivered events) }
    // The sender counts what was offered, and the receiver what is delivered.
    ensures counts_offered { (window : ℕ) (events : List (Event T)) (link : Link T)
        → IsLossyRun (new_link window) events link
        → number_offered link.sender ≡ length (offered events) }
    ensures counts_delivered { (window : ℕ) (events : List (Event T)) (link : Link T)
        → IsLossyRun (new_link window) events link
        → link.receiver.next ≡ length (delivered events) }
    // No window is in the way: a packet that the sender makes, of an item that wasn't delivered, is
    // one that the receiver takes, or its item is held.
    ensures goes_on { (window : ℕ) (events : List (Event T)) (link : Link T) (k : ℕ)
        (packet : Packet T) → IsLossyRun (new_link window) events link
        → Makes link.sender k packet → packet.number < 2 ^ 63 → link.receiver.next ≤ packet.number
        → IsWanted link.receiver packet.number
        ⊎ (held link.receiver packet.number ≡ Some packet.item) }
{}
