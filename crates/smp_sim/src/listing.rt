//! The events of a core that are allowed, listed.

ghost use Rattle.std.specs.Prelude.{◌≡◌, ◌<◌, ◌≤◌, ◌+◌, ◌++◌, [], ◌∷◌, map, filter, length};
ghost use Rattle.std.specs.Vec.{vec_capacity};
ghost use Rattle.smp_sim.specs.CoreParts.{core_of, event_of, work_of};
ghost use Rattle.smp_sim.specs.ByOrder.{choices, is_allowed, takes_at};
ghost use Rattle.smp_sim.specs.Listing.{IsThere};

use crate::cores::{SmpCore, SmpEvent};

/// The most events that may be allowed at once: a word of each of 16 processors, and 16 takes of
/// each of 16 nodes.
pub(crate) const MOST_EVENTS: usize = 16 + 16 * 16;

/// Lists the events of a core that are allowed: the words of the processors, and then the takes of
/// each node by sender.
pub(crate) fn list_events(core: &SmpCore<'_>, events: &mut Vec<SmpEvent>)
    requires room { 272 ≤ vec_capacity events.old }
    ensures listed { map event_of events.new.items ≡ choices (work_of core.now) (core_of core.now) }
    ensures few { length events.new.items ≤ 272 }
    ensures room { vec_capacity events.new ≡ vec_capacity events.old }
{
    events.clear();
    for processor in 0..core.node_count() * core.lanes() {
        list_event(core, SmpEvent::Exec(processor), events);
    }
    for node in 0..core.node_count() {
        list_takes(core, node, events);
    }
}

/// Adds the takes of a node that are allowed.
fn list_takes(core: &SmpCore<'_>, node: u8, events: &mut Vec<SmpEvent>)
    requires node { node < core.now.layout.nodes }
    requires room { length events.old.items + core.now.layout.nodes ≤ vec_capacity events.old }
    ensures listed { map event_of events.new.items ≡ map event_of events.old.items
        ++ filter (is_allowed (work_of core.now) (core_of core.now))
        (takes_at core.now.layout.nodes node) }
    ensures few { length events.new.items ≤ length events.old.items + core.now.layout.nodes }
    ensures room { vec_capacity events.new ≡ vec_capacity events.old }
{
    for from in 0..core.node_count() {
        list_event(core, SmpEvent::Take { node, from }, events);
    }
}

/// Adds an event, where it is allowed.
fn list_event(core: &SmpCore<'_>, event: SmpEvent, events: &mut Vec<SmpEvent>)
    requires there { IsThere (work_of core.now) (event_of event) }
    requires room { length events.old.items < vec_capacity events.old }
    ensures listed { map event_of events.new.items ≡ map event_of events.old.items
        ++ filter (is_allowed (work_of core.now) (core_of core.now)) (event_of event ∷ []) }
    ensures few { length events.new.items ≤ length events.old.items + 1 }
    ensures room { vec_capacity events.new ≡ vec_capacity events.old }
{
    if core.enabled(event) {
        events.push_reserved(event);
    }
}
