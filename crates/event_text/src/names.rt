//! The names that the lines of a trace use.

ghost use Rattle.std.specs.Prelude.{◌≡◌};
ghost use Rattle.event_text.specs.Names as model;

use dsm_messages::{MessageKind, Need};
use run_trace::AccessKind;
use state_table::State;

/// The name of a kind of messages.
pub fn message_name(kind: MessageKind) -> &'static [u8]
    ensures { result.now ≡ model.message_name kind }
{
    match kind {
        MessageKind::Read => b"Read",
        MessageKind::Write => b"Write",
        MessageKind::FwdRead => b"FwdRead",
        MessageKind::FwdWrite => b"FwdWrite",
        MessageKind::Inval => b"Inval",
        MessageKind::Data => b"Data",
        MessageKind::Grant => b"Grant",
        MessageKind::Ack => b"Ack",
        MessageKind::Done => b"Done",
        MessageKind::Bye => b"Bye",
    }
}

/// The name of a block's state.
pub fn state_name(state: State) -> &'static [u8]
    ensures { result.now ≡ model.state_name state }
{
    match state {
        State::Exclusive => b"exclusive",
        State::Shared => b"shared",
        State::Invalid => b"invalid",
        State::Pending => b"pending",
    }
}

/// The name of a kind of accesses, between `; ` and a space.
pub fn access_name(kind: AccessKind) -> &'static [u8]
    ensures { result.now ≡ model.access_name kind }
{
    match kind {
        AccessKind::Reads => b"; reads ",
        AccessKind::Writes => b"; writes ",
        AccessKind::WritesNot => b"; no longer reserved ",
        AccessKind::Exchanges => b"; exchanges ",
    }
}

/// What a block is wanted for, after a space.
pub fn need_name(need: Need) -> &'static [u8]
    ensures { result.now ≡ model.need_name need }
{
    match need {
        Need::Read => b" to read",
        Need::Write => b" to write",
    }
}

/// The row that a message of this kind met: whether it sent something, and whether it ended a wait.
pub(crate) fn row_name(kind: MessageKind, sends: bool, completes: bool) -> &'static [u8]
    ensures { result.now ≡ model.row_name kind sends completes }
{
    match kind {
        MessageKind::Read | MessageKind::Write => begins_name(sends),
        MessageKind::FwdRead => b"; shares",
        MessageKind::FwdWrite | MessageKind::Inval => b"; gives up",
        MessageKind::Data | MessageKind::Grant | MessageKind::Ack => answer_name(completes),
        MessageKind::Done => next_name(sends),
        MessageKind::Bye => b"",
    }
}

/// Where a request was begun at the home, or waits there.
fn begins_name(sends: bool) -> &'static [u8]
    ensures { result.now ≡ model.begins_name sends }
{
    if sends {
        b"; begins"
    } else {
        b"; waits at its home"
    }
}

/// Where a request was done, and the home begins another, or none.
fn next_name(sends: bool) -> &'static [u8]
    ensures { result.now ≡ model.next_name sends }
{
    if sends {
        b"; done, and the next begins"
    } else {
        b"; done"
    }
}

/// Where an answer ends the wait, or more of them come.
fn answer_name(completes: bool) -> &'static [u8]
    ensures { result.now ≡ model.answer_name completes }
{
    if completes {
        b"; completes"
    } else {
        b"; more answers to come"
    }
}
