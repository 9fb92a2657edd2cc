//! Points of the debugger as stops of a run, and what is told of a stop.

ghost use Rattle.std.specs.Prelude.{◌≡◌, IfOk, filter, map};
ghost use Rattle.debugged_run.specs.Motions as model;

use gdb_session::gdb_remote::{Point, PointKind};
use gdb_session::{MotionReach, Stop as Told, Why};
use std::alloc::{AllocError, Global};
use time_machine::one_memory::Pick;
use time_machine::{StopPoint, Watch, WatchKind};

/// What a motion stops at.
pub(crate) fn stops_of(
    alloc: Global,
    reach: MotionReach,
    points: &[Point],
) -> Result<Vec<StopPoint>, AllocError>
    ensures { IfOk result (λ stops. stops.items ≡ model.stops_of reach points.now) }
{
    match reach {
        MotionReach::Run => stops_at(alloc, points),
        MotionReach::RunOf { processor } => stops_of_one(alloc, number(processor), points),
        MotionReach::Step { processor } => {
            let mut stops = Vec::new(alloc);
            stops.push(StopPoint::StepOf(number(processor)))?;
            Ok(stops)
        }
    }
}

/// The points, watchpoints first.
pub(crate) fn watches_first(alloc: Global, points: &[Point]) -> Result<Vec<Point>, AllocError>
    ensures { IfOk result (λ first. first.items ≡ model.watches_first points.now) }
{
    let mut first = watches_of(alloc, points)?;
    let places = places_of(alloc, points)?;
    first.extend_from_slice(&places)?;
    Ok(first)
}

/// The points that watch bytes.
fn watches_of(alloc: Global, points: &[Point]) -> Result<Vec<Point>, AllocError>
    ensures { IfOk result (λ watches. watches.items ≡ filter model.is_watch points.now) }
{
    let mut watches = Vec::from_slice(alloc, points)?;
    watches.retain(|point| is_watch(*point));
    Ok(watches)
}

/// The points that stop executions.
pub(crate) fn places_of(alloc: Global, points: &[Point]) -> Result<Vec<Point>, AllocError>
    ensures { IfOk result (λ places. places.items ≡ filter model.is_place points.now) }
{
    let mut places = Vec::from_slice(alloc, points)?;
    places.retain(|point| !is_watch(*point));
    Ok(places)
}

/// A processor's number; 255 stands for each that there can't be.
fn number(processor: u16) -> u8
    ensures { result ≡ model.number processor }
{
    processor.min(255) as u8
}

/// The stops at points, of any processor.
pub(crate) fn stops_at(alloc: Global, points: &[Point]) -> Result<Vec<StopPoint>, AllocError>
    ensures { IfOk result (λ stops. stops.items ≡ map model.stop_at points.now) }
{
    let mut stops = Vec::new(alloc);
    for point in points {
        stops.push(stop_at(*point))?;
    }
    Ok(stops)
}

/// The stops at points, of one processor alone.
fn stops_of_one(alloc: Global, p: u8, points: &[Point]) -> Result<Vec<StopPoint>, AllocError>
    ensures { IfOk result (λ stops.
        stops.items ≡ map (λ x. model.alone p (model.stop_at x)) points.now) }
{
    let mut stops = Vec::new(alloc);
    for point in points {
        stops.push(alone(p, stop_at(*point)))?;
    }
    Ok(stops)
}

/// What a point stops: an execution at its address, or an access to its bytes.
fn stop_at(point: Point) -> StopPoint
    ensures { result ≡ model.stop_at point }
{
    match point.kind {
        PointKind::Software | PointKind::Hardware => StopPoint::At(point.address),
        PointKind::Write => StopPoint::Watch(watch_by(WatchKind::Write, point)),
        PointKind::Read => StopPoint::Watch(watch_by(WatchKind::Read, point)),
        PointKind::Access => StopPoint::Watch(watch_by(WatchKind::Access, point)),
    }
}

/// The bytes that a point watches.
fn watch_by(kind: WatchKind, point: Point) -> Watch
    ensures { result ≡ model.watch_by kind point }
{
    Watch {
        kind,
        address: point.address,
        size: point.length,
    }
}

/// A stop, of one processor alone.
fn alone(p: u8, stop: StopPoint) -> StopPoint
    ensures { result ≡ model.alone p stop }
{
    match stop {
        StopPoint::At(address) => StopPoint::AtOf(p, address),
        StopPoint::Watch(watch) => StopPoint::WatchOf(p, watch),
        StopPoint::StepOf(_) | StopPoint::AtOf(..) | StopPoint::WatchOf(..) => stop,
    }
}

/// The point that was met, where a stop was, and the motion stops at points.
pub(crate) fn point_met(reach: MotionReach, points: &[Point], stop: Option<usize>) -> Option<Point>
    ensures { result ≡ model.point_met reach points.now stop }
{
    match stop {
        Some(i) => point_at(reach, points, i),
        None => None,
    }
}

/// The point with a number, where the motion stops at points.
fn point_at(reach: MotionReach, points: &[Point], i: usize) -> Option<Point>
    ensures { result ≡ model.point_at reach points.now i }
{
    match reach {
        MotionReach::Run | MotionReach::RunOf { .. } => {
            let point = points.get(i)?;
            Some(*point)
        }
        MotionReach::Step { .. } => None,
    }
}

/// Whether a point that was met watches bytes.
pub(crate) fn watches(point: Option<Point>) -> bool
    ensures { result ≡ model.watches point }
{
    match point {
        Some(point) => is_watch(point),
        None => false,
    }
}

/// Whether a point watches bytes.
fn is_watch(point: Point) -> bool
    ensures { result ≡ model.is_watch point }
{
    match point.kind {
        PointKind::Software | PointKind::Hardware => false,
        PointKind::Write | PointKind::Read | PointKind::Access => true,
    }
}

/// Where a run forwards stands that met a point: before the access, if that is watched.
pub(crate) fn before_access(point: Option<Point>, position: usize) -> usize
    ensures { result ≡ model.before_access point position }
{
    if watches(point) {
        position.saturating_sub(1)
    } else {
        position
    }
}

/// What is told of a position where a stop was met, or the end of the run.
pub(crate) fn told_forwards(
    reach: MotionReach,
    picks: &[Pick],
    point: Option<Point>,
    met: Option<usize>,
    position: usize,
) -> Told
    ensures { result ≡ model.told_forwards reach picks.now point met position }
{
    Told {
        processor: mover_at(picks, pick_met(reach, point, position)),
        why: why_of(met, point, Why::End),
    }
}

/// What is told of a position where a stop was hit, or the beginning of the run.
pub(crate) fn told_backwards(
    picks: &[Pick],
    point: Option<Point>,
    hit: Option<usize>,
    position: usize,
) -> Told
    ensures { result ≡ model.told_backwards picks.now point hit position }
{
    Told {
        processor: mover_at(picks, position),
        why: why_of(hit, point, Why::Beginning),
    }
}

/// What is told of a place at which a run stands already.
pub(crate) fn told_here(picks: &[Pick], point: Point, position: usize) -> Told
    ensures { result ≡ model.told_here picks.now point position }
{
    Told {
        processor: mover_at(picks, position),
        why: why_at(point),
    }
}

/// The pick that a stop concerns: forwards, an address is met by a run of any processor before the
/// pick that begins there, and all else after the pick.
fn pick_met(reach: MotionReach, point: Option<Point>, position: usize) -> usize
    ensures { result ≡ model.pick_met reach point position }
{
    match (reach, point) {
        (MotionReach::Run, Some(point)) if !is_watch(point) => position,
        (MotionReach::Run | MotionReach::RunOf { .. } | MotionReach::Step { .. }, _) =>
            position.saturating_sub(1),
    }
}

/// Why a motion stopped at a point.
fn why_at(point: Point) -> Why
    ensures { result ≡ model.why_at point }
{
    Why::Point {
        kind: point.kind,
        address: point.address,
    }
}

/// Why a motion stopped: at a point, or after the step that it was to make; or it met nothing.
fn why_of(stop: Option<usize>, point: Option<Point>, otherwise: Why) -> Why
    ensures { result ≡ model.why_of stop point otherwise }
{
    match (stop, point) {
        (None, _) => otherwise,
        (Some(_), Some(point)) => why_at(point),
        (Some(_), None) => Why::Stepped,
    }
}

/// The processor of the pick with a number, or processor 0 where there is none.
pub fn mover_at(picks: &[Pick], k: usize) -> u16
    ensures { result ≡ model.mover_at picks.now k }
{
    match picks.get(k) {
        Some(pick) => mover(*pick),
        None => 0,
    }
}

/// The processor of a pick: one that makes a step, or whose reservation is broken.
fn mover(pick: Pick) -> u16
    ensures { result ≡ model.mover pick }
{
    match pick {
        Pick::Step(p) => u16::from(p),
        Pick::Break { of, .. } => u16::from(of),
    }
}
