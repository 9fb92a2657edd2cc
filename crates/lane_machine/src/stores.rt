//! Where a word stores: there the reservations of its node's other lanes end.

ghost use Rattle.std.specs.Prelude.{◌≡◌, ℕ, List, Some, None};
ghost use Rattle.llsc.specs.Reservation.{holds};
ghost use Rattle.node_machine.specs.jump_map.Maps.{fetch};
ghost use Rattle.node_machine.specs.jump_map.Image.{Cell};
ghost use Rattle.rv32_program.specs.Program.{Program};
ghost use Rattle.lane_model.specs.node_model.Node as model;
ghost use Rattle.node_machine.specs.node_words.Address.{word_address};
ghost use Rattle.node_machine.specs.node_words.Kept.{lane_of};
ghost use Rattle.lane_machine.specs.Words.{stored_by};

use node_machine::jump_map::ImageWord;
use node_machine::node_words::{ProcessorState, address_of};
use runtime_words::RtWord;
use rv32_decode::Width;
use rv32_program::addresses::MEMORY_END;
use rv32_step::{Demand, demand_of};

/// The address at which the word with an index stores, where it does.
pub(crate) fn stored_at(
    fetched: Option<ImageWord>,
    lane: &ProcessorState,
    reserved: Option<u32>,
    at: u32,
) -> Option<u32>
    ensures { (program : Program) (image : List Cell) (n : model.NodeMemory)
        → fetch image (word_address at) ≡ fetched → n.reservation ≡ reserved
        → result ≡ stored_by
        (model.next_outcome program image (lane_of lane.now (word_address at)) n).access }
{
    match fetched {
        None => None,
        Some(word) => match word.what {
            None => None,
            Some(what) => stored_in(what, lane, reserved, at),
        },
    }
}

/// The address at which a word of rewritten code stores, where it does.
fn stored_in(what: RtWord, lane: &ProcessorState, reserved: Option<u32>, at: u32) -> Option<u32>
    ensures { (program : Program) (place : ℕ) (n : model.NodeMemory) → n.reservation ≡ reserved
        → let l = lane_of lane.now (word_address at) in
        result ≡ stored_by (model.execute program place (word_address at) what l n).access }
{
    match what {
        RtWord::Native(i) => { stored_on(demand_of(i, &lane.registers, address_of(at)), reserved) }
        _ => None,
    }
}

/// The address at which what a native instruction demands stores.
fn stored_on(demand: Demand, reserved: Option<u32>) -> Option<u32>
    ensures { (program : Program) (place at : ℕ) (l : model.ProcessorState) (n : model.NodeMemory)
        → n.reservation ≡ reserved
        → result ≡ stored_by (model.native program place at l n demand).access }
{
    match demand {
        Demand::Stores(width, address, _) => {
            if width.is_aligned(address) && address < MEMORY_END {
                Some(address)
            } else {
                None
            }
        }
        Demand::StoresIf(_, address, _) => {
            if Width::Word.is_aligned(address) && is_held(reserved, address) {
                Some(address)
            } else {
                None
            }
        }
        Demand::Updates(_, _, address, _) => {
            if Width::Word.is_aligned(address) {
                Some(address)
            } else {
                None
            }
        }
        Demand::Sets(..)
        | Demand::Continues
        | Demand::Jumps(..)
        | Demand::Branches(_)
        | Demand::Loads(..)
        | Demand::Calls
        | Demand::Traps(_)
        | Demand::Reserves(..) => None,
    }
}

/// Whether an address is the reserved one.
fn is_held(reserved: Option<u32>, address: u32) -> bool
    ensures { result ≡ holds reserved address }
{
    match reserved {
        Some(held) => held == address,
        None => false,
    }
}
