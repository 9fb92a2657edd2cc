//! What a run is to stop at.

ghost use Rattle.std.specs.Prelude.{◌≡◌, ◌+◌, ◌<◌, ◌==◌, false, position};
ghost use Rattle.std.specs.Option.{option_map_or};
ghost use Rattle.time_machine.specs.Stops as model;

use crate::step::{NextStep, TouchKind, TouchedBytes};

/// What a run is to stop at.
#[derive(Clone, Copy, PartialEq, Eq)]
pub enum StopPoint {
    /// A step that begins at this address.
    At(u32),
    /// A step of the processor of this number.
    StepOf(u8),
    /// A step of any processor that touches what is watched.
    Watch(Watch),
    /// A step of the processor of this number that begins at this address. Forwards it is met as
    /// soon as the processor has come there.
    AtOf(u8, u32),
    /// A step of the processor of this number that touches what is watched.
    WatchOf(u8, Watch),
}

/// Bytes from an address on that are watched.
#[derive(Clone, Copy, PartialEq, Eq)]
pub struct Watch {
    pub kind: WatchKind,
    pub address: u32,
    pub size: u32,
}

/// How bytes are watched. An exchange of a word reads and writes it.
#[derive(Clone, Copy, PartialEq, Eq)]
pub enum WatchKind {
    Write,
    Read,
    Access,
}

/// The first of the stops that a step hits, if it is one.
pub(crate) fn first_hit(stops: &[StopPoint], step: Option<NextStep>) -> Option<usize>
    ensures { result ≡ position (model.is_hit step) stops.now }
{
    stops.iter().position(|stop| is_hit(step, *stop))
}

/// The first of the stops that is met between a step that was made, where its processor came to,
/// and the next.
pub(crate) fn first_met(
    stops: &[StopPoint],
    made: Option<NextStep>,
    next: Option<NextStep>,
    came: Option<u32>,
) -> Option<usize>
    ensures { result ≡ position (model.is_met made next came) stops.now }
{
    stops
        .iter()
        .position(|stop| is_met(made, next, came, *stop))
}

/// Whether a stop is met between a step that was made, where its processor came to, and the next.
fn is_met(
    made: Option<NextStep>,
    next: Option<NextStep>,
    came: Option<u32>,
    stop: StopPoint,
) -> bool
    ensures { result ≡ model.is_met made next came stop }
{
    match stop {
        StopPoint::At(_) => is_hit(next, stop),
        StopPoint::AtOf(p, address) => is_hit(made, StopPoint::StepOf(p))
            && begins_at(came, address),
        StopPoint::StepOf(_) | StopPoint::Watch(_) | StopPoint::WatchOf(..) => is_hit(made, stop),
    }
}

/// Whether a step hits a stop, if it is one.
fn is_hit(step: Option<NextStep>, stop: StopPoint) -> bool
    ensures { result ≡ model.is_hit step stop }
{
    match step {
        Some(step) => hits(stop, step),
        None => false,
    }
}

/// Whether a step hits a stop.
fn hits(stop: StopPoint, step: NextStep) -> bool
    ensures { result ≡ model.hits stop step }
{
    match stop {
        StopPoint::At(address) => begins_at(step.start, address),
        StopPoint::StepOf(p) => step.processor == p,
        StopPoint::Watch(watch) => touches(step.touch, watch),
        StopPoint::AtOf(p, address) => step.processor == p && begins_at(step.start, address),
        StopPoint::WatchOf(p, watch) => step.processor == p && touches(step.touch, watch),
    }
}

/// Whether a step begins at an address.
fn begins_at(start: Option<u32>, address: u32) -> bool
    ensures { result ≡ option_map_or (λ pc. pc == address) start false }
{
    match start {
        Some(pc) => pc == address,
        None => false,
    }
}

/// Whether a step touches what is watched.
fn touches(touch: Option<TouchedBytes>, watch: Watch) -> bool
    ensures { result ≡ option_map_or (model.is_watched watch) touch false }
{
    match touch {
        Some(touch) => is_watched(watch, touch),
        None => false,
    }
}

/// Whether the bytes touched are watched.
fn is_watched(watch: Watch, touch: TouchedBytes) -> bool
    ensures { result ≡ model.is_watched watch touch }
{
    let watched = u64::from(watch.address);
    let touched = u64::from(touch.address);
    concerns(watch.kind, touch.kind)
        && watched < touched + u64::from(touch.size)
        && touched < watched + u64::from(watch.size)
}

/// Whether a watch concerns steps that touch memory so.
fn concerns(watch: WatchKind, touch: TouchKind) -> bool
    ensures { result ≡ model.concerns watch touch }
{
    match (watch, touch) {
        (WatchKind::Write, TouchKind::Reads) | (WatchKind::Read, TouchKind::Writes) => false,
        _ => true,
    }
}
