//! What a worker passes before each of its events.

/// What a worker passes before each of its events. The node of a core that has one node alone has
/// no worker, and what a core does once its workers are done it does by itself: no gate is called
/// then.
pub trait Gate {
    /// Is called with the worker's node and the number of events that it has made. It means nothing
    /// to any contract: an implementation may hold the worker up, or let it pass.
    fn turn(&self, node: u8, events: u64);

    /// Whether it lets every worker pass at once. A worker makes many events in a row without a
    /// call of an open gate, and doesn't count them.
    fn is_open(&self) -> bool {
        false
    }

    /// Whether a node is told that something was sent to it. One that isn't told finds it once it
    /// looks by itself, as each does after some milliseconds at most.
    fn tells(&self, _node: u8) -> bool {
        true
    }
}

/// The gate that lets every worker pass at once.
#[derive(Clone, Copy)]
pub struct OpenGate;

impl Gate for OpenGate {
    fn turn(&self, _node: u8, _events: u64) {}

    fn is_open(&self) -> bool {
        true
    }
}
