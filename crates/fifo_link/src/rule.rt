//! The rule of a link's ring.
use crossbeam_queue::RuledArrayQueue;
use crossbeam_queue::protocol::{Join, Lesson, Outcome, Protocol, Split};
use dsm_messages::Wire;
use std::collections::LinkedList;

// What a pass may do, and what it has sent and taken. No value of it is made.
pub struct Hand {
    pub sends: bool,
    pub takes: bool,
    pub sent: LinkedList<Wire>,
    pub taken: LinkedList<Wire>,
}

pub struct InOrder;

impl Protocol<Wire, Hand> for InOrder {
    ghost use Rattle.std.specs.Prelude.{true, []};
    ghost use Rattle.fifo_link.specs.Rule.{hand, Linked};

    ghost holds = { Linked };

    ghost first = { hand true true [] [] };
}

// The two ends part.
pub struct TwoEnds;

impl Split<Hand> for TwoEnds {
    ghost use Rattle.std.specs.Prelude.{true, false, []};
    ghost use Rattle.fifo_link.specs.Rule.{hand};

    ghost left = { λ v. hand true false v.sent [] };

    ghost right = { λ v. hand false true [] v.taken };
}

impl Join<Hand> for TwoEnds {
    ghost use Rattle.std.specs.Prelude.{true, false, []};
    ghost use Rattle.fifo_link.specs.Rule.{hand};

    ghost both = { λ v w. hand true true v.sent w.taken };

    ghost spent = { hand false false [] [] };
}

// A push tells of the wire; one that finds the ring full, that it holds the last that were sent.
pub struct Pushes;

impl Outcome<Wire, Hand> for Pushes {
    ghost use Rattle.std.specs.Prelude.{◌≡◌, [], ◌∷◌, ◌++◌};
    ghost use Rattle.fifo_link.specs.Rule.{hand};

    ghost then = { λ v x w. w ≡ hand v.sends v.takes (v.sent ++ x ∷ []) v.taken };
}

impl Lesson<Wire, Hand> for Pushes {
    ghost use Rattle.fifo_link.specs.Rule.{EndsWith};

    ghost fact = { λ v items. EndsWith v.sent items };
}

// A pop tells of the wire; one that finds the ring empty, where the pass has both ends, that all
// that was sent was taken.
pub struct Takes;

impl Outcome<Wire, Hand> for Takes {
    ghost use Rattle.std.specs.Prelude.{◌≡◌, [], ◌∷◌, ◌++◌};
    ghost use Rattle.fifo_link.specs.Rule.{hand};

    ghost then = { λ v x w. w ≡ hand v.sends v.takes v.sent (v.taken ++ x ∷ []) };
}

impl Lesson<Wire, Hand> for Takes {
    ghost use Rattle.std.specs.Prelude.{◌≡◌, true, ◌++◌};

    ghost fact = { λ v items. v.sends ≡ true → v.sent ≡ v.taken ++ items };
}

pub type Ring = RuledArrayQueue<Wire, Hand, InOrder>;
