//! Signals, one for each node: who sends something to a node rings its signal.
//!
//! They are hints. No contract rests on them, and what is sent is found without them too, later.

use std::alloc::{AllocError, Global};
use std::sync::Wait;
use std::sync::atomic::{AtomicU64, Ordering};
use std::time::Duration;

/// Nothing was sent since the node looked.
const IDLE: u64 = 0;

/// Something was sent.
const NOTIFIED: u64 = 1;

/// The node sleeps, and nothing was sent since it looked.
const ASLEEP: u64 = 2;

/// How many milliseconds a node sleeps at most.
const NAP: u64 = 4;

/// A word that many threads look at, with nothing else on its lines of the host.
#[derive(Drop)]
struct PaddedWord {
    _before: [u64; 16],
    word: AtomicU64,
    _after: [u64; 16],
}

impl PaddedWord {
    fn new(value: u64) -> PaddedWord {
        PaddedWord {
            _before: [0; 16],
            word: AtomicU64::new(value),
            _after: [0; 16],
        }
    }

    /// Makes one value of another. Says whether it had that one.
    fn exchange(&self, from: u64, to: u64) -> bool {
        self.word
            .compare_exchange(from, to, Ordering::SeqCst, Ordering::SeqCst)
            .is_ok()
    }
}

/// The signals of nodes.
#[derive(Drop)]
pub struct Signals {
    signals: Vec<PaddedWord>,
    /// How many nodes have not begun to work, sleep or work no more.
    away: PaddedWord,
}

impl Signals {
    /// The signals of `nodes` nodes; none was rung. No node has begun to work: where a thread can't
    /// be started, a node begins when the one before it gives up.
    pub fn new(alloc: Global, nodes: usize) -> Result<Signals, AllocError> {
        let mut signals = Vec::new(alloc);
        for _ in 0..nodes {
            signals.push(PaddedWord::new(IDLE))?;
        }
        Ok(Signals {
            signals,
            away: PaddedWord::new(nodes as u64),
        })
    }

    /// Notifies a node, and wakes the node where it sleeps.
    pub fn notify(&self, node: usize) {
        if let Some(signal) = self.signals.get(node) {
            let word = &signal.word;
            if word.load(Ordering::SeqCst) != NOTIFIED
                && word.swap(NOTIFIED, Ordering::SeqCst) == ASLEEP
            {
                word.wake_one();
            }
        }
    }

    /// Whether a node's signal was rung since the last call. What was sent before it was rung is on
    /// its link by now: so a node that looks at its links after this call misses nothing.
    pub fn poll(&self, node: u8) -> bool {
        match self.signals.get(usize::from(node)) {
            Some(signal) => {
                signal.word.load(Ordering::SeqCst) == NOTIFIED && signal.exchange(NOTIFIED, IDLE)
            }
            None => true,
        }
    }

    /// Sleeps until the node's signal is rung, or for some milliseconds. Says whether no node
    /// worked then.
    pub fn sleep<R: Wait>(&self, rt: &R, node: u8) -> bool {
        let Some(signal) = self.signals.get(usize::from(node)) else {
            return false;
        };
        if !signal.exchange(IDLE, ASLEEP) {
            return false;
        }
        self.leave();
        signal
            .word
            .park_timeout(rt, ASLEEP as u32, Duration::from_millis(NAP));
        let away = self.away.word.fetch_sub(1, Ordering::SeqCst);
        signal.exchange(ASLEEP, IDLE) && away >= self.signals.len() as u64
    }

    /// A node begins to work.
    pub fn enter(&self) {
        self.away.word.fetch_sub(1, Ordering::SeqCst);
    }

    /// A node works no more.
    pub fn leave(&self) {
        self.away.word.fetch_add(1, Ordering::SeqCst);
    }
}
