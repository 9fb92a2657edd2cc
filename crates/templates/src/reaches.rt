//! What the accesses of a run reach.

ghost use Rattle.std.specs.Prelude.{◌≡◌, ◌∷◌, []};
ghost use Rattle.templates.specs.Runs.{reach_by, span_by, lesser, greater};
ghost use Rattle.templates.specs.Reaches.{access_reach, Extends, is_near, first_reach, join};

use rv32_decode::{Imm12, Instr, Reg, Width};

/// What instructions reach that access memory by one register: the offsets of the least byte and of
/// the greatest, and whether they store.
#[derive(Clone, Copy, PartialEq, Eq)]
pub struct Reach {
    pub base: Reg,
    pub low: Imm12,
    pub high: i32,
    pub stores: bool,
}

impl Reach {
    /// What an access reaches; None exactly where the instruction accesses no memory.
    pub fn of(i: &Instr) -> Option<Reach>
        ensures value { result ≡ access_reach i.now }
    {
        match i {
            Instr::Load { kind, rs1, imm, .. } => {
                Some(Reach::of_access(*rs1, *imm, kind.width(), false))
            }
            Instr::Store {
                width,
                rs1,
                imm,
                ..
            } => Some(Reach::of_access(*rs1, *imm, *width, true)),
            _ => None,
        }
    }

    /// What an access by a base register reaches.
    fn of_access(base: Reg, low: Imm12, width: Width, stores: bool) -> Reach
        ensures value { result ≡ reach_by (span_by base low width ∷ []) stores }
    {
        Reach {
            base,
            low,
            high: low.value() + i32::from(width.bytes() - 1),
            stores,
        }
    }

    /// What the first instruction reaches; nothing, where there is none or it accesses no memory.
    pub(crate) fn of_first(i: Option<Instr>) -> Reach
        ensures value { result ≡ first_reach i }
    {
        let nothing = Reach {
            base: Reg::ZERO,
            low: Imm12::new(0),
            high: 0,
            stores: false,
        };
        match i {
            Some(i) => Reach::of(&i).unwrap_or(nothing),
            None => nothing,
        }
    }

    /// What instructions that begin with an access reach, with one more after them.
    pub fn with(self, i: &Instr) -> Reach
        ensures value { Extends self i.now result }
    {
        match Reach::of(i) {
            Some(more) => self.joined(more),
            None => self,
        }
    }

    /// What two reach by the first one's base register.
    fn joined(self, more: Reach) -> Reach
        ensures value { result ≡ join self more }
    {
        Reach {
            base: self.base,
            low: lesser(self.low, more.low),
            high: greater(self.high, more.high),
            stores: self.stores || more.stores,
        }
    }

    /// Whether the accesses lie within 64 bytes, whose offsets an immediate can have.
    pub fn is_near(&self) -> bool
        ensures value { result ≡ is_near self.now }
    {
        self.high <= self.low.value() + 63 && self.high <= 2047
    }
}

/// The lesser of two offsets.
fn lesser(x: Imm12, y: Imm12) -> Imm12
    ensures value { result ≡ lesser x y }
{
    if x.value() <= y.value() { x } else { y }
}

/// The greater of two offsets.
fn greater(x: i32, y: i32) -> i32
    ensures value { result ≡ greater x y }
{
    if x <= y { y } else { x }
}
