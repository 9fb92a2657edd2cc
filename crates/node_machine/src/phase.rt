//! Whether a processor runs, waits or has ended.

ghost use Rattle.std.specs.Prelude.{◌≡◌};
ghost use Rattle.node_words.specs.node_model.Node as model;
ghost use Rattle.node_words.specs.node_model.Turns as turns;
ghost use Rattle.node_words.specs.Kept.{phase_by};
ghost use Rattle.node_words.specs.GoingOn.{phase_on};
ghost use Rattle.node_machine.specs.NodeState.{phase_of};

use node_words::exec_map::End;
use node_words::{Following, Resume};
use run_limits::Budget;

/// Whether a processor runs, has just got what it waited for, waits for blocks, or has ended.
#[derive(Clone, Copy, PartialEq, Eq)]
pub enum Phase {
    Running,
    Resumed,
    Waiting(Resume),
    Ended(End),
}

/// The phase of a node that may execute words, after `words` that go on.
pub fn phase_on(phase: Phase, words: u64) -> Phase
    ensures { phase_of result ≡ phase_on (phase_of phase) words }
{
    if words == 0 { phase } else { Phase::Running }
}

/// The phase of a node that has executed `executed` words and has nothing pending: the one given,
/// or stopped by its budget.
pub fn stop_or(budget: Budget, executed: u64, phase: Phase) -> Phase
    ensures { phase_of result ≡ model.stop_or budget executed (phase_of phase) }
{
    if executed == budget.number() {
        Phase::Ended(End::Stopped(executed))
    } else {
        phase
    }
}

/// The phase after a word, by what follows it.
pub fn phase_by(budget: Budget, executed: u64, following: Following) -> Phase
    ensures { phase_of result ≡ phase_by budget executed following }
{
    match following {
        Following::GoesOn => stop_or(budget, executed, Phase::Running),
        Following::Waits(resume, _) => Phase::Waiting(resume),
        Following::Leaves(exit) => Phase::Ended(End::Exited(exit)),
    }
}

/// Whether a processor has ended.
pub fn is_ended(phase: Phase) -> bool
    ensures { result ≡ turns.is_ended (phase_of phase) }
{
    match phase {
        Phase::Ended(_) => true,
        _ => false,
    }
}
