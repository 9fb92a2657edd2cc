//! What events cost, and what nodes have spent their time on.

ghost use Rattle.std.specs.Prelude.{◌≡◌, ◌+◌, ◌^◌, ◌<◌, ◌≤◌, All, length};
ghost use Rattle.timed_sim.specs.Clock.{both_spent, clock_of, idle_until, total_spent};

/// What messages cost, in the time of one word. Each is a million at most.
#[derive(Clone, Copy, PartialEq, Eq)]
pub struct Costs {
    /// How long a message to another node is on its way.
    pub latency: u32,
    /// How much longer for each line of bytes that it carries.
    pub line: u32,
    /// What taking a message costs the node that takes it.
    pub handling: u32,
}

/// What a node has spent its time on, in the time of one word.
#[derive(Clone, Copy, PartialEq, Eq)]
pub struct Spent {
    /// Words that it executed.
    pub words: u128,
    /// Waiting to read.
    pub to_read: u128,
    /// Waiting to write.
    pub to_write: u128,
    /// Taking messages.
    pub handling: u128,
    /// Waiting once it has ended.
    pub idle: u128,
}

/// What a node has spent at the start.
pub(crate) const NOTHING: Spent = Spent {
    words: 0,
    to_read: 0,
    to_write: 0,
    handling: 0,
    idle: 0,
};

impl Spent {
    /// The clock of the node, which shows all that it has spent.
    pub fn clock(&self) -> u128
        requires fits { clock_of self.now < 2 ^ 128 }
        ensures value { result ≡ clock_of self.now }
    {
        self.words + self.to_read + self.to_write + self.handling + self.idle
    }

    /// What two nodes have spent together.
    fn with(&self, other: &Spent) -> Spent
        requires fits { clock_of self.now + clock_of other.now < 2 ^ 128 }
        ensures value { result ≡ both_spent self.now other.now }
    {
        Spent {
            words: self.words + other.words,
            to_read: self.to_read + other.to_read,
            to_write: self.to_write + other.to_write,
            handling: self.handling + other.handling,
            idle: self.idle + other.idle,
        }
    }

    /// What the node has spent once it has been idle until a time.
    pub(crate) fn idle_until(mut self, time: u128) -> Spent
        requires time { clock_of self ≤ time }
        ensures value { result ≡ idle_until time self }
    {
        let clock = self.clock();
        self.idle += time - clock;
        self
    }
}

/// What up to 16 nodes have spent together.
pub fn total_spent(spent: &[Spent]) -> Spent
    requires few { length spent.now ≤ 16 }
    requires fits { All (λ s. clock_of s ≤ 2 ^ 100) spent.now }
    ensures value { result ≡ total_spent spent.now }
    ensures most { clock_of result ≤ 2 ^ 104 }
{
    let mut total = NOTHING;
    for more in spent {
        total = total.with(more);
    }
    total
}
