//! What a session is about: a run of processors, seen from where it stands.

ghost use Rattle.std.specs.Prelude.{◌≡◌, ◌<◌, ℕ, List, Option, IfOk, OnOk};
ghost use Rattle.gdb_session.specs.Views.{View};
ghost use Rattle.gdb_remote.specs.declared.request.Point.{Point as Points};
ghost use Rattle.gdb_session.specs.declared.target.Doing.{Doing as Doings};
ghost use Rattle.gdb_session.specs.declared.target.Motion.{Motion as Motions};
ghost use Rattle.gdb_session.specs.declared.target.Stop.{Stop as Stops};

use gdb_remote::{Direction, Point, PointKind};
use std::alloc::{AllocError, Global};

/// The number of the program counter among the registers.
pub const PC: u32 = 32;

/// What a processor does where the run stands.
#[derive(Clone, Copy)]
pub enum Doing {
    /// It may execute an instruction.
    Runs,
    /// It ended by itself.
    Exited,
    /// Its budget is used up.
    Stopped,
    /// It waits for a block of memory.
    Waits { block: u32 },
}

/// How far a run goes.
#[derive(Clone, Copy)]
pub enum MotionReach {
    /// To a point, or to the end of the run.
    Run,
    /// To a point of this processor, or to the end of the run: the debugger awaits no stop of
    /// another.
    RunOf { processor: u16 },
    /// Over one instruction of this processor.
    Step { processor: u16 },
}

/// How a run goes on.
#[derive(Clone, Copy)]
pub struct Motion {
    pub direction: Direction,
    pub reach: MotionReach,
}

/// Why a run stopped.
#[derive(Clone, Copy)]
pub enum Why {
    /// It went as far as it was to go.
    Stepped,
    /// It came to a point, by this address.
    Point { kind: PointKind, address: u32 },
    /// It came to its beginning.
    Beginning,
    /// It came to its end.
    End,
    /// The debugger interrupted it.
    Interrupted,
}

/// Where a run stopped: at which processor, and why.
#[derive(Clone, Copy)]
pub struct Stop {
    pub processor: u16,
    pub why: Why,
}

/// What a command tells.
#[derive(Drop)]
pub struct Told {
    pub text: Vec<u8>,
    /// Where the run stands then, if the command moved it.
    pub stop: Option<Stop>,
}

/// A run of processors, which can be looked at, and goes forwards and backwards.
pub trait Target {
    /// What is seen of the run.
    ghost view: { Self → View };

    /// Whether a processor does this, where the run stands.
    ghost does: { Self → ℕ → Doings → Type 0 };

    /// Whether a motion, among these points, goes from one place of the run to another, and stops
    /// there so.
    ghost moves: { Self → Motions → List Points → Stops → Self → Type 0 };

    /// Whether a command tells this text, and where the run stands then, if it moved the run; and
    /// leaves the run so.
    ghost tells: { Self → List ℕ → List ℕ → Option Stops → Self → Type 0 };

    /// The number of processors.
    fn processors(&self) -> u16
        ensures { result ≡ (view self.now).processors };

    /// A register of a processor.
    fn register(&self, processor: u16, number: u32) -> u32
        requires processor { processor < (view self.now).processors }
        requires number { number < 33 }
        ensures { result ≡ (view self.now).register processor number };

    /// The byte that a processor has at an address, if the address is mapped.
    fn byte(&self, processor: u16, address: u32) -> Option<u8>
        requires { processor < (view self.now).processors }
        ensures { result ≡ (view self.now).byte processor address };

    /// What a processor does.
    fn doing(&mut self, alloc: Global, processor: u16) -> Result<Doing, AllocError>
        requires { processor < (view self.old).processors }
        ensures does { IfOk result (λ doing. does self.old processor doing) }
        ensures same { OnOk result (self.new ≡ self.old) };

    /// Goes on, and says where it stopped, and why.
    fn go(&mut self, motion: Motion, points: &[Point]) -> Result<Stop, AllocError>
        ensures { IfOk result (λ stop. moves self.old motion points.now stop self.new) };

    /// Does a command, and tells what comes of it.
    fn command(&mut self, alloc: Global, text: &[u8]) -> Result<Told, AllocError>
        ensures { IfOk result
            (λ told. tells self.old text.now told.text.items told.stop self.new) };
}
