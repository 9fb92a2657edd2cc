//! What a run on a number of nodes took, and what is computed of it.

ghost use Rattle.std.specs.Prelude.{◌≡◌, ◌<◌, ◌≤◌, ◌^◌, IfSome};
ghost use Rattle.speedup_page.specs.Rows as model;
ghost use Rattle.speedup_page.specs.Rows.{whole_of};

/// The trap by which a processor ended.
#[derive(Clone, Copy, PartialEq, Eq)]
pub enum Trap {
    Ebreak,
    Illegal,
    Misaligned,
    Access,
    Fetch,
}

/// How a run ended.
#[derive(Clone, Copy, PartialEq, Eq)]
pub enum Ended {
    /// Each processor by its exit call.
    Whole,
    /// A processor by a trap: the one with the lowest number that did.
    Trapped(Trap),
    /// No processor by a trap; the budget stopped one.
    Stopped,
}

/// How many steps the original makes on one processor.
#[derive(Clone, Copy, PartialEq, Eq)]
pub enum Base {
    /// This number, up to its exit call.
    Steps(u64),
    /// It ends by a trap.
    Trapped(Trap),
    /// The budget stops it.
    Stopped,
}

impl Base {
    /// The number of steps, where the original ends by its exit call.
    pub(crate) fn steps(self) -> Option<u64>
        ensures { result ≡ model.steps_of self }
    {
        match self {
            Base::Steps(steps) => Some(steps),
            Base::Trapped(_) | Base::Stopped => None,
        }
    }
}

/// The name of a trap.
pub(crate) fn trap_name(trap: Trap) -> &'static [u8]
    ensures { result.now ≡ model.trap_name trap }
{
    match trap {
        Trap::Ebreak => b"ebreak",
        Trap::Illegal => b"illegal",
        Trap::Misaligned => b"misaligned",
        Trap::Access => b"access",
        Trap::Fetch => b"fetch",
    }
}

/// What a run on a number of nodes took.
#[derive(Clone, Copy, PartialEq, Eq)]
pub struct Row {
    pub nodes: u8,
    pub ended: Ended,
    /// The time at which the last node is over. The unit is what a node takes for one word.
    pub time: u128,
    /// How many steps of the original all processors make.
    pub steps: u128,
    pub spent: Shares,
}

/// What the nodes of a run spent their time on together, in the time of one word.
#[derive(Clone, Copy, PartialEq, Eq)]
pub struct Shares {
    /// Words that they executed.
    pub words: u128,
    /// Waiting to read.
    pub to_read: u128,
    /// Waiting to write.
    pub to_write: u128,
    /// Taking messages.
    pub handling: u128,
    /// Waiting once they have ended.
    pub idle: u128,
}

impl Shares {
    /// All that they spent.
    pub(crate) fn whole(&self) -> u128
        requires { whole_of self.now ≤ 2 ^ 110 }
        ensures value { result ≡ whole_of self.now }
    {
        self.words + self.to_read + self.to_write + self.handling + self.idle
    }
}

/// The speed-up over the original, which makes `base` steps on one processor, in hundredths. `None`
/// where not all processors of both ended by the exit call.
pub(crate) fn speedup_of(base: Option<u64>, row: &Row) -> Option<u128>
    ensures value { result ≡ model.speedup_of base row.now }
    ensures most { IfSome result (λ s. s < 2 ^ 71) }
{
    match base {
        None => None,
        Some(steps) => match row.ended {
            Ended::Whole => Some(100 * u128::from(steps) / row.time.max(1)),
            Ended::Trapped(_) | Ended::Stopped => None,
        },
    }
}

/// How many parts a part of the whole has, where the whole has `parts`.
pub(crate) fn share_of(parts: u128, whole: u128, part: u128) -> u128
    requires few { parts ≤ 1000 }
    requires fits { part ≤ 2 ^ 110 }
    ensures { result ≡ model.share_of parts whole part }
{
    parts * part / whole.max(1)
}
