//! The gate of the tests.

use commands::Gate;
use std::sync::atomic::{AtomicBool, AtomicU64, Ordering};
use std::thread;

/// A gate that counts the calls of each of two nodes, and keeps the greatest number of events that
/// node 1 was told to have made. It may hold back the second event of node 0 until node 1 has made
/// one, for a million turns at most; where these were not enough it is late. It may be open, and it
/// may keep from every node that something was sent to it.
#[derive(Drop)]
pub struct CountingGate {
    holds: bool,
    open: bool,
    silent: bool,
    calls: [AtomicU64; 2],
    made: AtomicU64,
    late: AtomicBool,
}

impl CountingGate {
    /// A gate that was never passed, and whether it holds node 0 back.
    pub fn new(holds: bool) -> CountingGate {
        CountingGate::of(holds, false, false)
    }

    /// A gate that is open.
    pub fn open() -> CountingGate {
        CountingGate::of(false, true, false)
    }

    /// A gate by which no node is told that something was sent to it, and whether it is open.
    pub fn silent(open: bool) -> CountingGate {
        CountingGate::of(false, open, true)
    }

    fn of(holds: bool, open: bool, silent: bool) -> CountingGate {
        CountingGate {
            holds,
            open,
            silent,
            calls: [AtomicU64::new(0), AtomicU64::new(0)],
            made: AtomicU64::new(0),
            late: AtomicBool::new(false),
        }
    }

    /// Whether node 1 made no event in a million turns.
    pub fn is_late(&self) -> bool {
        self.late.load(Ordering::SeqCst)
    }

    /// The greatest number of events that node 1 was told to have made.
    pub fn made(&self) -> u64 {
        self.made.load(Ordering::SeqCst)
    }

    /// How often each node came by.
    pub fn calls(&self) -> [u64; 2] {
        let [home, other] = &self.calls;
        [home.load(Ordering::SeqCst), other.load(Ordering::SeqCst)]
    }
}

impl Gate for CountingGate {
    fn turn(&self, node: u8, events: u64) {
        if let Some(calls) = self.calls.get(usize::from(node)) {
            calls.fetch_add(1, Ordering::SeqCst);
        }
        if node == 1 {
            self.made.fetch_max(events, Ordering::SeqCst);
        }
        if self.holds && node == 0 && events == 1 {
            for _turn in 0..1_000_000 {
                if self.made.load(Ordering::SeqCst) > 0 {
                    return;
                }
                thread::yield_now();
            }
            self.late.store(true, Ordering::SeqCst);
        }
    }

    fn is_open(&self) -> bool {
        self.open
    }

    fn tells(&self, _node: u8) -> bool {
        !self.silent
    }
}
