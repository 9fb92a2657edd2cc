//! What a worker does next: hints, which mean nothing to any contract.

use crate::signals::Signals;
use std::sync::Wait;
use std::{hint, thread};

/// The words of the first burst after a message, and of the longest.
const FIRST: u64 = 32;

const LONGEST: u64 = 1024;

/// After how many words without a message a worker looks first whether its node spins, and how many
/// lie between two such looks at most.
const SPIN_WORDS: u64 = 480;

const MOST_SPIN_WORDS: u64 = 1 << 17;

/// How many words the single steps to the next poll are taken for.
const STEPS: u64 = 16;

/// How many looks in a row find nothing before a worker lets other threads run between two, and how
/// many before it sleeps between two: more, where something waits for room on a link.
const SPINS: u32 = 200;

const POLLS: u32 = 260;

const CROWDED_POLLS: u32 = 4000;

/// How many sleeps in a row, in which no node worked, before a worker gives up.
const SLEEPS: u32 = 30;

/// After how many bursts a worker lets other threads run, and looks at its links though it heard
/// nothing: with more nodes than processors, a node that computes would keep the one that others
/// wait for from running.
const BURSTS: u32 = 64;

/// What a worker knows of its links and its node.
#[derive(Clone, Copy)]
pub enum State {
    /// Its links held nothing when it looked.
    Idle,
    /// Its links held nothing when it looked, and its node spins in a loop that changes nothing.
    Spinning,
    /// Its links may hold something that it hasn't taken.
    HasMail,
}

/// How a burst ended.
#[derive(Clone, Copy)]
pub enum Burst {
    /// All its words were executed.
    Whole,
    /// It stopped after so many words.
    Stopped(u64),
}

/// How a worker goes on.
#[derive(Clone, Copy)]
pub struct Pace {
    /// What it knows of its links and its node.
    pub state: State,
    /// Whether its outboxes may hold something.
    pub outgoing: bool,
    /// How many words the next burst has.
    burst: u64,
    /// How many words it has made since it took a message, and after how many it looks whether its
    /// node spins.
    made: u64,
    until: u64,
    /// How many bursts, or single steps to a poll, it has made since it let other threads run.
    bursts: u32,
    /// How many looks in a row found nothing.
    polls: u32,
    /// In how many sleeps in a row no node worked.
    sleeps: u32,
}

impl Pace {
    /// That of a worker that has just begun.
    pub fn new() -> Pace {
        Pace {
            state: State::HasMail,
            outgoing: true,
            burst: FIRST,
            made: 0,
            until: SPIN_WORDS,
            bursts: 0,
            polls: 0,
            sleeps: 0,
        }
    }

    /// Whether its links may hold something that it hasn't taken.
    pub fn has_mail(&self) -> bool {
        matches!(self.state, State::HasMail)
    }

    /// How many words the next burst has.
    pub fn burst_words(&self) -> u64 {
        self.burst
    }

    /// It has taken a message.
    pub fn took(&mut self) {
        self.burst = FIRST;
        self.made = 0;
        self.until = SPIN_WORDS;
        self.goes_on();
    }

    /// It has looked at its links, and they held nothing.
    pub fn found_none(&mut self) {
        self.state = State::Idle;
    }

    /// It has done something.
    pub fn goes_on(&mut self) {
        self.polls = 0;
        self.sleeps = 0;
    }

    /// It has made a burst.
    pub fn ran(&mut self, burst: Burst) {
        let words = match burst {
            Burst::Whole => self.burst,
            Burst::Stopped(words) => words,
        };
        self.goes_on();
        self.made = self.made.saturating_add(words).saturating_add(1);
        if matches!(burst, Burst::Whole) && self.burst < LONGEST {
            self.burst = self.burst.saturating_mul(2);
        }
        self.lets_others_run();
    }

    /// It has made single steps to the next poll.
    pub fn stepped(&mut self) {
        self.goes_on();
        self.made = self.made.saturating_add(STEPS);
        self.lets_others_run();
    }

    /// Lets other threads run, and looks at its links, once in a while.
    fn lets_others_run(&mut self) {
        self.bursts = self.bursts.saturating_add(1);
        if self.bursts >= BURSTS {
            self.bursts = 0;
            self.state = State::HasMail;
            thread::yield_now();
        }
    }

    /// Whether it is time to look whether its node spins.
    pub fn may_spin(&self) -> bool {
        self.made >= self.until
    }

    /// It has looked whether its node spins, while its links held nothing.
    pub fn looked_for_spin_loop(&mut self, spins: bool) {
        if spins {
            self.state = State::Spinning;
        } else {
            self.goes_on();
            self.until = self
                .made
                .saturating_add(self.made.min(MOST_SPIN_WORDS) + SPIN_WORDS);
        }
    }

    /// Listens whether its node's signal was rung.
    pub fn poll(&mut self, signals: &Signals, node: u8) {
        if signals.poll(node) {
            self.state = State::HasMail;
        }
    }

    /// Rests between two looks, where the first found nothing. Another worker that runs answers
    /// within a few of them; for one that doesn't, other threads are let run; and then it sleeps.
    /// When it wakes it looks, whatever woke it.
    pub fn rest<R: Wait>(&mut self, rt: &R, signals: &Signals, node: u8) {
        let most = if self.outgoing { CROWDED_POLLS } else { POLLS };
        if self.polls < SPINS {
            self.polls += 1;
            hint::spin_loop();
        } else if self.polls < most {
            self.polls += 1;
            thread::yield_now();
        } else {
            let all = signals.sleep(rt, node);
            self.sleeps = if all {
                self.sleeps.saturating_add(1)
            } else {
                0
            };
            self.state = State::HasMail;
            self.until = 0;
        }
    }

    /// Whether no node has worked for long.
    pub fn is_over(&self) -> bool {
        self.sleeps >= SLEEPS
    }
}
