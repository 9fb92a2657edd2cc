//! Requests: what a debugger asks for.

ghost use Rattle.std.specs.Prelude.{◌≡◌};
ghost use Rattle.gdb_remote.specs.Requests.{request_of, request_with};

use crate::arguments::{
    action_with, alone, choose_to_move_with, choose_with, clear_point_with, description_with, go,
    is_alive_with, look, memory_with, register_with, set, set_point_with, signalled,
    thread_text_with,
};
use crate::words::{Keyword, word_of};

/// A run of the thread that is chosen to move.
const RUN: Extent = Extent::Run {
    thread: Thread::Any,
};

/// A step of the thread that is chosen to move.
const STEP: Extent = Extent::Step {
    thread: Thread::Any,
};

/// A thread, as a request names it.
#[derive(Clone, Copy)]
pub enum Thread {
    All,
    Any,
    /// The thread of a processor, whose number is one higher than the processor's.
    Of { processor: u16 },
}

/// What a point stops.
#[derive(Clone, Copy)]
pub enum PointKind {
    /// An execution, where the debugger would write a breakpoint into memory.
    Software,
    /// An execution.
    Hardware,
    /// A write.
    Write,
    /// A read.
    Read,
    /// A read or a write.
    Access,
}

/// A breakpoint or a watchpoint, of any processor.
#[derive(Clone, Copy)]
pub struct Point {
    pub kind: PointKind,
    pub address: u32,
    /// How many bytes are watched; of a breakpoint, how long its instruction is.
    pub length: u32,
}

/// Which way a run goes.
#[derive(Clone, Copy)]
pub enum Direction {
    Forwards,
    Backwards,
}

/// What only looks: nothing is changed by it.
#[derive(Clone, Copy)]
pub enum Look {
    /// Why the run stopped last.
    Status,
    /// All registers.
    Registers,
    Register { number: u64 },
    Memory { address: u32, length: u64 },
    /// What the target can do.
    Features,
    /// A piece of the description of the registers.
    Description { offset: u64, length: u64 },
    /// The threads.
    Threads,
    /// The threads after those that were told; there are none.
    MoreThreads,
    /// Whether there is such a thread.
    IsAlive { thread: Thread },
    CurrentThread,
    /// Whether the debugger came to a process that was there.
    Attached,
    /// Which actions `vCont` has.
    Actions,
}

/// What sets something for later requests.
#[derive(Clone, Copy)]
pub enum SessionSetting {
    /// The thread whose registers and memory are told.
    Choose { thread: Thread },
    /// The thread that steps.
    ChooseToMove { thread: Thread },
    SetPoint { point: Point },
    ClearPoint { point: Point },
    /// Packets are acknowledged no longer.
    NoAcknowledgements,
}

/// How far a run goes.
#[derive(Clone, Copy)]
pub enum Extent {
    /// To a point of this thread, or to the end of the run.
    Run { thread: Thread },
    /// Over one instruction of this thread.
    Step { thread: Thread },
}

/// What a debugger asks for.
#[derive(Clone, Copy)]
pub enum DebuggerRequest {
    Look {
        look: Look,
    },
    /// What a thread does, in words.
    ThreadText {
        thread: Thread,
    },
    Set {
        setting: SessionSetting,
    },
    Go {
        direction: Direction,
        extent: Extent,
    },
    /// A command for the target, whose text stands after the word.
    Monitor,
    /// The debugger leaves.
    Detach,
    /// The debugger leaves, and awaits no answer.
    Kill,
    /// Registers or memory would be written, or the run would go on elsewhere.
    Write,
    /// A request whose arguments can't be read.
    Malformed,
    /// No request of this target.
    Unknown,
}

/// The request that a packet's body spells.
#[tactic(auto, unfolding(crate::specs::Requests::request_of))]
pub fn request_of(text: &[u8]) -> DebuggerRequest
    ensures { result ≡ request_of text.now }
{
    match word_of(text) {
        Some((word, rest)) => request_with(word, rest),
        None => DebuggerRequest::Unknown,
    }
}

/// The request of a word and what stands after it.
fn request_with(word: Keyword, rest: &[u8]) -> DebuggerRequest
    ensures { result ≡ request_with word rest.now }
{
    match word {
        Keyword::Status => alone(rest, look(Look::Status)),
        Keyword::Registers => alone(rest, look(Look::Registers)),
        Keyword::Register => register_with(rest),
        Keyword::Memory => memory_with(rest),
        Keyword::Features => look(Look::Features),
        Keyword::Description => description_with(rest),
        Keyword::Threads => alone(rest, look(Look::Threads)),
        Keyword::MoreThreads => alone(rest, look(Look::MoreThreads)),
        Keyword::ThreadText => thread_text_with(rest),
        Keyword::IsAlive => is_alive_with(rest),
        Keyword::CurrentThread => alone(rest, look(Look::CurrentThread)),
        Keyword::Attached => look(Look::Attached),
        Keyword::Actions => alone(rest, look(Look::Actions)),
        Keyword::Choose => choose_with(rest),
        Keyword::ChooseToMove => choose_to_move_with(rest),
        Keyword::SetPoint => set_point_with(rest),
        Keyword::ClearPoint => clear_point_with(rest),
        Keyword::NoAcknowledgements => alone(rest, set(SessionSetting::NoAcknowledgements)),
        Keyword::Act => action_with(rest),
        Keyword::Continue => alone(rest, go(Direction::Forwards, RUN)),
        Keyword::ContinueWith => signalled(rest, go(Direction::Forwards, RUN)),
        Keyword::Step => alone(rest, go(Direction::Forwards, STEP)),
        Keyword::StepWith => signalled(rest, go(Direction::Forwards, STEP)),
        Keyword::ContinueBack => alone(rest, go(Direction::Backwards, RUN)),
        Keyword::StepBack => alone(rest, go(Direction::Backwards, STEP)),
        Keyword::Monitor => DebuggerRequest::Monitor,
        Keyword::Detach => DebuggerRequest::Detach,
        Keyword::Kill => DebuggerRequest::Kill,
        Keyword::WriteRegisters
        | Keyword::WriteRegister
        | Keyword::WriteMemory
        | Keyword::WriteBytes => { DebuggerRequest::Write }
    }
}
