//! What stands after the word of a request.

ghost use Rattle.std.specs.Prelude.{◌≡◌, ◌<◌, ◌==◌, Some, None, IfSome, MatchOption};
ghost use Rattle.std.specs.Prelude.{length, position};
ghost use Rattle.gdb_remote.specs.Requests as model;
ghost use Rattle.gdb_remote.specs.declared.words.Keyword.TheVariants as word;

use crate::hexadecimal::number_of;
use crate::request::{
    DebuggerRequest, Direction, Extent, Look, Point, PointKind, SessionSetting, Thread,
};

pub(crate) fn look(look: Look) -> DebuggerRequest
    ensures { result ≡ DebuggerRequest.Look look }
{
    DebuggerRequest::Look { look }
}

pub(crate) fn set(setting: SessionSetting) -> DebuggerRequest
    ensures { result ≡ DebuggerRequest.Set setting }
{
    DebuggerRequest::Set { setting }
}

pub(crate) fn go(direction: Direction, extent: Extent) -> DebuggerRequest
    ensures { result ≡ DebuggerRequest.Go direction extent }
{
    DebuggerRequest::Go { direction, extent }
}

/// A request that has no arguments.
pub(crate) fn alone(rest: &[u8], request: DebuggerRequest) -> DebuggerRequest
    ensures { result ≡ model.alone rest.now request }
{
    if rest.is_empty() {
        request
    } else {
        DebuggerRequest::Unknown
    }
}

/// A request whose argument is a signal, which the target doesn't get.
pub(crate) fn signalled(rest: &[u8], request: DebuggerRequest) -> DebuggerRequest
    ensures { result ≡ model.signalled rest.now request }
{
    match number_of(rest) {
        Some(_) => request,
        None => DebuggerRequest::Malformed,
    }
}

/// The place of the first of this byte.
fn place_of(text: &[u8], at: u8) -> Option<usize>
    ensures value { result ≡ position (λ b. b == at) text.now }
    ensures within { IfSome result (λ i. i < length text.now) }
{
    text.iter().position(|byte| *byte == at)
}

/// What stands before the first of this byte, and after it.
fn cut(text: &[u8], at: u8) -> Option<(&[u8], &[u8])>
    ensures { MatchOption result (model.cut at text.now ≡ None)
        (λ p. model.cut at text.now ≡ Some (p.0.now, p.1.now)) }
{
    let place = place_of(text, at)?;
    let (front, _) = text.split_at(place);
    let (_, rest) = text.split_at(place + 1);
    Some((front, rest))
}

/// What stands before the first of this byte, or all where there is none.
fn front(text: &[u8], at: u8) -> &[u8]
    ensures { result.now ≡ model.front at text.now }
{
    match cut(text, at) {
        Some((front, _)) => front,
        None => text,
    }
}

/// A number of 32 bits.
fn word_number(text: &[u8]) -> Option<u32>
    ensures { result ≡ model.word_number text.now }
{
    let number = number_of(text)?;
    if number < 1 << 32 {
        Some(number as u32)
    } else {
        None
    }
}

/// Two numbers with a comma between them.
fn number_pair(text: &[u8]) -> Option<(u64, u64)>
    ensures { result ≡ model.number_pair text.now }
{
    let (first, second) = cut(text, b',')?;
    let first = number_of(first)?;
    let second = number_of(second)?;
    Some((first, second))
}

/// The thread that has a number.
fn numbered_thread(number: u64) -> Option<Thread>
    ensures { result ≡ model.numbered_thread number }
{
    if number == 0 {
        return Some(Thread::Any);
    }
    if number <= 1 << 16 {
        return Some(Thread::Of {
            processor: (number - 1) as u16,
        });
    }
    None
}

/// The thread that a text names.
fn thread_of(text: &[u8]) -> Option<Thread>
    ensures { result ≡ model.thread_of text.now }
{
    if text == b"-1".as_slice() {
        return Some(Thread::All);
    }
    let number = number_of(text)?;
    numbered_thread(number)
}

/// The kind of a point that has a number.
fn kind_of(number: u64) -> Option<PointKind>
    ensures { result ≡ model.kind_of number }
{
    match number {
        0 => Some(PointKind::Software),
        1 => Some(PointKind::Hardware),
        2 => Some(PointKind::Write),
        3 => Some(PointKind::Read),
        4 => Some(PointKind::Access),
        _ => None,
    }
}

/// The point that a text names.
fn point_of(text: &[u8]) -> Option<Point>
    ensures { result ≡ model.point_of text.now }
{
    let (kind, place) = cut(text, b',')?;
    let number = number_of(kind)?;
    let kind = kind_of(number)?;
    let (address, length) = cut(place, b',')?;
    let address = word_number(address)?;
    let length = word_number(length)?;
    Some(Point {
        kind,
        address,
        length,
    })
}

pub(crate) fn register_with(rest: &[u8]) -> DebuggerRequest
    ensures { result ≡ model.request_with word.Register rest.now }
{
    match number_of(rest) {
        Some(number) => look(Look::Register { number }),
        None => DebuggerRequest::Malformed,
    }
}

pub(crate) fn memory_with(rest: &[u8]) -> DebuggerRequest
    ensures { result ≡ model.request_with word.Memory rest.now }
{
    match memory_of(rest) {
        Some((address, length)) => look(Look::Memory { address, length }),
        None => DebuggerRequest::Malformed,
    }
}

/// An address, and how many bytes are wanted.
fn memory_of(text: &[u8]) -> Option<(u32, u64)>
    ensures { result ≡ model.memory_of text.now }
{
    let (address, length) = cut(text, b',')?;
    let address = word_number(address)?;
    let length = number_of(length)?;
    Some((address, length))
}

pub(crate) fn description_with(rest: &[u8]) -> DebuggerRequest
    ensures { result ≡ model.request_with word.Description rest.now }
{
    match number_pair(rest) {
        Some((offset, length)) => look(Look::Description { offset, length }),
        None => DebuggerRequest::Malformed,
    }
}

pub(crate) fn thread_text_with(rest: &[u8]) -> DebuggerRequest
    ensures { result ≡ model.request_with word.ThreadText rest.now }
{
    match thread_of(rest) {
        Some(thread) => DebuggerRequest::ThreadText { thread },
        None => DebuggerRequest::Malformed,
    }
}

pub(crate) fn is_alive_with(rest: &[u8]) -> DebuggerRequest
    ensures { result ≡ model.request_with word.IsAlive rest.now }
{
    match thread_of(rest) {
        Some(thread) => look(Look::IsAlive { thread }),
        None => DebuggerRequest::Malformed,
    }
}

pub(crate) fn choose_with(rest: &[u8]) -> DebuggerRequest
    ensures { result ≡ model.request_with word.Choose rest.now }
{
    match thread_of(rest) {
        Some(thread) => set(SessionSetting::Choose { thread }),
        None => DebuggerRequest::Malformed,
    }
}

pub(crate) fn choose_to_move_with(rest: &[u8]) -> DebuggerRequest
    ensures { result ≡ model.request_with word.ChooseToMove rest.now }
{
    match thread_of(rest) {
        Some(thread) => set(SessionSetting::ChooseToMove { thread }),
        None => DebuggerRequest::Malformed,
    }
}

pub(crate) fn set_point_with(rest: &[u8]) -> DebuggerRequest
    ensures { result ≡ model.request_with word.SetPoint rest.now }
{
    match point_of(rest) {
        Some(point) => set(SessionSetting::SetPoint { point }),
        None => DebuggerRequest::Malformed,
    }
}

pub(crate) fn clear_point_with(rest: &[u8]) -> DebuggerRequest
    ensures { result ≡ model.request_with word.ClearPoint rest.now }
{
    match point_of(rest) {
        Some(point) => set(SessionSetting::ClearPoint { point }),
        None => DebuggerRequest::Malformed,
    }
}

/// The request of the first action of threads.
pub(crate) fn action_with(rest: &[u8]) -> DebuggerRequest
    ensures { result ≡ model.request_with word.Act rest.now }
{
    match first_action(front(rest, b';')) {
        Some(request) => request,
        None => DebuggerRequest::Malformed,
    }
}

/// The request of an action, which may name a thread.
fn first_action(action: &[u8]) -> Option<DebuggerRequest>
    ensures { result ≡ model.first_action action.now }
{
    match cut(action, b':') {
        Some((verb, name)) => act(verb, thread_of(name)?),
        None => act(action, Thread::All),
    }
}

/// The request of an action of this thread. Signals are left out.
fn act(verb: &[u8], thread: Thread) -> Option<DebuggerRequest>
    ensures { result ≡ model.act verb.now thread }
{
    if verb.starts_with(b"c") || verb.starts_with(b"C") {
        return Some(go(Direction::Forwards, Extent::Run { thread }));
    }
    if verb.starts_with(b"s") || verb.starts_with(b"S") {
        return Some(go(Direction::Forwards, Extent::Step { thread }));
    }
    None
}
