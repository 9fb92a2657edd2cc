//! Events, and when they begin.

ghost use Rattle.std.specs.Prelude.{◌≡◌};
ghost use Rattle.std.specs.Option.{option_map};
ghost use Rattle.dsm_core.specs.CoreParts.{event_of};
ghost use Rattle.dsm_core.specs.run_order.OwnRun.{node_of};
ghost use Rattle.timed_sim.specs.Clock.{earlier, at_poll, from_clock};
ghost use Rattle.timed_sim.specs.Stored.{due_of};

use dsm_core::Event;

/// An event, and when it begins.
#[derive(Clone, Copy)]
pub(crate) struct Due {
    pub(crate) time: u128,
    pub(crate) event: Event,
}

/// The one that begins first, and of equals the one before.
pub(crate) fn earlier(first: Option<Due>, other: Option<Due>) -> Option<Due>
    ensures { option_map due_of result
        ≡ earlier (option_map due_of first) (option_map due_of other) }
{
    match (first, other) {
        (None, _) => other,
        (Some(_), None) => first,
        (Some(one), Some(two)) => { if two.time < one.time { other } else { first } }
    }
}

/// At a poll: the message, where it has arrived by the clock, and else the word.
pub(crate) fn at_poll(word: Due, take: Option<Due>) -> Due
    ensures { due_of result ≡ at_poll (due_of word) (option_map due_of take) }
{
    match take {
        Some(take) if take.time <= word.time => Due {
            time: word.time,
            event: take.event,
        },
        _ => word,
    }
}

/// A message is taken at the clock, or when it arrives, if that is later.
pub(crate) fn from_clock(clock: u128, take: Option<Due>) -> Option<Due>
    ensures { option_map due_of result ≡ from_clock clock (option_map due_of take) }
{
    let take = take?;
    Some(Due {
        time: clock.max(take.time),
        event: take.event,
    })
}

/// The node of an event.
pub(crate) fn node_of(event: Event) -> u8
    ensures { result ≡ node_of (event_of event) }
{
    match event {
        Event::Exec(node) => node,
        Event::Take { node, .. } => node,
    }
}
