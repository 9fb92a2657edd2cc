//! What a node keeps for each of its lanes: the lane's reservation, its waits, and the buffers of
//! its own.

ghost use Rattle.std.specs.Prelude.{◌≡◌, ◌<◌, ◌≤◌, is_some, option_map, length};
ghost use Rattle.home_directory.specs.declared.wait.Wait.{Wait};
ghost use Rattle.lane_machine.specs.Waits.{wait_among, held_in, waits_in, all_waits};
ghost use Rattle.lane_machine.specs.Places.{in_use};

use block_layout::Block;
use buf_pool::Pool;
use home_directory::dsm_messages::Need;
use llsc::Reservation;
use node_machine::ProtocolState;
use node_machine::miss_handlers::Waits;
use node_machine::node_words::{ExecState, ProcessorState};
use std::mem::swap;

/// What a node keeps for one of its lanes.
#[derive(Drop)]
pub(crate) struct LaneProtocol {
    /// The address that the lane has reserved.
    pub reservation: Reservation,
    /// The blocks that the node asked for on behalf of the lane.
    pub waits: Waits,
    /// The buffers for those waits.
    pub pool: Pool,
}

/// Puts the waits and the buffers of a place in use, and those in use into the place.
pub(crate) fn swap_waits(protocol: &mut ProtocolState, place: &mut LaneProtocol)
    ensures protocol { protocol.new ≡ record protocol.old {
      waits = place.old.waits;
      pool = place.old.pool;
    } }
    ensures place { place.new ≡ record place.old {
      waits = protocol.old.waits;
      pool = protocol.old.pool;
    } }
{
    swap(&mut protocol.waits, &mut place.waits);
    swap(&mut protocol.pool, &mut place.pool);
}

/// Moves a processor's state to another place. What is left there belongs to no processor.
#[inline(always)]
pub(crate) fn move_state(from: &mut ProcessorState, to: &mut ProcessorState)
    ensures { to.new ≡ from.old }
{
    to.registers = from.registers.copy();
    swap(&mut to.private, &mut from.private);
    to.written = from.written;
    to.off = from.off;
    to.spills = from.spills;
}

/// Puts a lane and its reservation in use, and what is in use in their place.
#[inline(always)]
pub(crate) fn swap_body(
    body: &mut ExecState<'_>,
    lane: &mut ProcessorState,
    place: &mut LaneProtocol,
)
    ensures body { body.new ≡ in_use body.old lane.old place.old }
    ensures lane { lane.new ≡ body.old.lane }
    ensures place { place.new ≡ record place.old { reservation = body.old.local.reservation } }
{
    swap(&mut body.lane, lane);
    body.local.swap_reservation(&mut place.reservation);
}

/// Puts a lane and its place in use, and what is in use in their place.
pub(crate) fn swap_lane(
    body: &mut ExecState<'_>,
    protocol: &mut ProtocolState,
    lane: &mut ProcessorState,
    place: &mut LaneProtocol,
)
    ensures body { body.new ≡ record body.old {
      lane = lane.old;
      local = record body.old.local { reservation = place.old.reservation };
    } }
    ensures protocol { protocol.new ≡ record protocol.old {
      waits = place.old.waits;
      pool = place.old.pool;
    } }
    ensures lane { lane.new ≡ body.old.lane }
    ensures place { place.new ≡ record {
      reservation = body.old.local.reservation;
      waits = protocol.old.waits;
      pool = protocol.old.pool;
    } }
{
    swap_body(body, lane, place);
    swap_waits(protocol, place);
}

/// What the node waits for of a block, or `None` where it has no wait for it.
pub(crate) fn need_of(
    protocol: &ProtocolState,
    places: &[LaneProtocol],
    block: Block,
) -> Option<Need>
    ensures { result ≡ option_map (λ (w : Wait). w.need)
        (wait_among (all_waits protocol.now places.now) block) }
{
    if let Some(need) = protocol.waits.need_of(block) {
        return Some(need);
    }
    for place in places {
        if let Some(need) = place.waits.need_of(block) {
            return Some(need);
        }
    }
    None
}

/// Whether one of the lanes waits for a block.
pub(crate) fn is_waited_for(places: &[LaneProtocol], block: Block) -> bool
    ensures { result ≡ is_some (wait_among (waits_in places.now) block) }
{
    for place in places {
        if place.waits.waits_for(block) {
            return true;
        }
    }
    false
}

/// The lane that holds the wait for a block: lane 0 where there is no wait.
pub(crate) fn holder_of(places: &[LaneProtocol], block: Block) -> u8
    requires few { length places.now ≤ 4 }
    requires some { 0 < length places.now }
    ensures lane { result < length places.now }
    ensures holder { result ≡ held_in (waits_in places.now) block }
{
    for (lane, place) in places.iter().enumerate() {
        if place.waits.waits_for(block) {
            return lane as u8;
        }
    }
    0
}
