//! A session: one answer to each request.

ghost use Rattle.std.specs.Prelude.{◌≡◌, ◌++◌, ◌<◌, [], drop, option_map, OnOk, IfOk, IfSome};
ghost use Rattle.gdb_session.specs.Answers.{AnswersRequest, Goes, GoesSo, Tells, TellsDoing};
ghost use Rattle.gdb_session.specs.Answers.{after_request};
ghost use Rattle.gdb_remote.specs.Hexadecimal.{bytes_of};
ghost use Rattle.gdb_remote.specs.Requests.{request_of};
ghost use Rattle.gdb_session.specs.Sessions as model;

use crate::look::push_look;
use crate::target::{Motion, MotionReach, Stop, Target, Why};
use crate::telling::{push_doing, push_stop};
use gdb_remote::{
    DebuggerRequest, Direction, Extent, Point, PointKind, SessionSetting, Thread, bytes_of,
    push_bytes, request_of,
};
use std::alloc::{AllocError, Global};
use std::marker::Model;

/// As many points can be set.
const MOST_POINTS: usize = 64;

/// Where the text of a command begins.
const COMMAND: usize = 6;

/// Whether the debugger stays.
#[derive(Clone, Copy)]
pub enum After {
    GoesOn,
    /// It leaves with the answer.
    Leaves,
    /// It leaves, and awaits no answer.
    IsKilled,
}

/// What a debugger has chosen and set.
#[derive(Drop)]
pub struct Session {
    /// The processor that is looked at.
    pub(crate) general: u16,
    /// The thread that steps.
    moving: Thread,
    points: Vec<Point>,
    /// Where the run stopped last.
    pub(crate) stop: Stop,
    /// Whether packets are acknowledged.
    acknowledges: bool,
}

impl Model for Session {
    ghost use Rattle.gdb_session.specs.Sessions as model;

    ghost Value = { model.Session };

    ghost view = { λ s. record {
      general = s.general;
      moving = s.moving;
      points = s.points.items;
      stop = s.stop;
      acknowledges = s.acknowledges;
    } };
}

impl Session {
    /// A session at the beginning of a run.
    pub fn new(alloc: Global) -> Session
        ensures { result ≡ model.new_session }
    {
        Session {
            general: 0,
            moving: Thread::Any,
            points: Vec::new(alloc),
            stop: Stop {
                processor: 0,
                why: Why::Stepped,
            },
            acknowledges: true,
        }
    }

    /// Whether packets are acknowledged.
    pub fn acknowledges(&self) -> bool
        ensures { result ≡ self.now.acknowledges }
    {
        self.acknowledges
    }

    /// Answers the request of a packet's body, and says whether the debugger stays. The answer is
    /// appended.
    pub fn answer<T: Target>(
        &mut self,
        alloc: Global,
        target: &mut T,
        body: &[u8],
        out: &mut Vec<u8>,
    ) -> Result<After, AllocError>
        requires empty { out.old.items ≡ [] }
        ensures answers { OnOk result (AnswersRequest T.view T.does T.moves T.tells
            (record {
              session = self.old;
              target = target.old;
              session_after = self.new;
              target_after = target.new;
              answer = out.new.items;
            }) body.now (request_of body.now)) }
        ensures after { IfOk result (λ after. after ≡ after_request (request_of body.now)) }
    {
        let request = request_of(body);
        self.answer_request(alloc, target, request, body, out)
    }

    /// Answers a request, whose packet has this body.
    fn answer_request<T: Target>(
        &mut self,
        alloc: Global,
        target: &mut T,
        request: DebuggerRequest,
        body: &[u8],
        out: &mut Vec<u8>,
    ) -> Result<After, AllocError>
        requires empty { out.old.items ≡ [] }
        ensures answers { OnOk result (AnswersRequest T.view T.does T.moves T.tells
            (record {
              session = self.old;
              target = target.old;
              session_after = self.new;
              target_after = target.new;
              answer = out.new.items;
            }) body.now request) }
        ensures after { IfOk result (λ after. after ≡ after_request request) }
    {
        match request {
            DebuggerRequest::Look { look } => {
                push_look(alloc, self, target, look, out)?;
                Ok(After::GoesOn)
            }
            DebuggerRequest::ThreadText { thread } => {
                tell_thread(alloc, target, thread, out)?;
                Ok(After::GoesOn)
            }
            DebuggerRequest::Set { setting } => {
                let processors = target.processors();
                self.set(processors, setting, out)?;
                Ok(After::GoesOn)
            }
            DebuggerRequest::Go { direction, extent } => {
                self.go(target, direction, extent, out)?;
                Ok(After::GoesOn)
            }
            DebuggerRequest::Monitor => {
                self.command(alloc, target, body, out)?;
                Ok(After::GoesOn)
            }
            DebuggerRequest::Detach => {
                out.extend_from_slice(b"OK")?;
                Ok(After::Leaves)
            }
            DebuggerRequest::Kill => Ok(After::IsKilled),
            DebuggerRequest::Write => {
                out.extend_from_slice(b"E30")?;
                Ok(After::GoesOn)
            }
            DebuggerRequest::Malformed => {
                out.extend_from_slice(b"E01")?;
                Ok(After::GoesOn)
            }
            DebuggerRequest::Unknown => Ok(After::GoesOn),
        }
    }

    /// Sets something for later requests.
    fn set(
        &mut self,
        processors: u16,
        setting: SessionSetting,
        out: &mut Vec<u8>,
    ) -> Result<(), AllocError>
        ensures session { OnOk result (self.new ≡ model.after_setting self.old processors setting) }
        ensures text { OnOk result
            (out.new.items ≡ out.old.items ++ model.setting_text self.old processors setting) }
    {
        match setting {
            SessionSetting::Choose { thread } => self.choose(processors, thread, out),
            SessionSetting::ChooseToMove { thread } => self.choose_to_move(processors, thread, out),
            SessionSetting::SetPoint { point } => self.set_point(point, out),
            SessionSetting::ClearPoint { point } => {
                remove_point(&mut self.points, point);
                out.extend_from_slice(b"OK")
            }
            SessionSetting::NoAcknowledgements => {
                self.acknowledges = false;
                out.extend_from_slice(b"OK")
            }
        }
    }

    /// From now on this thread is looked at, if there is such a one.
    fn choose(
        &mut self,
        processors: u16,
        thread: Thread,
        out: &mut Vec<u8>,
    ) -> Result<(), AllocError>
        ensures session { OnOk result
            (self.new ≡ model.after_setting self.old processors (SessionSetting.Choose thread)) }
        ensures text { OnOk result (out.new.items ≡ out.old.items
            ++ model.setting_text self.old processors (SessionSetting.Choose thread)) }
    {
        if !is_choice(processors, thread) {
            return out.extend_from_slice(b"E01");
        }
        self.general = processor_or(self.general, thread);
        out.extend_from_slice(b"OK")
    }

    /// From now on this thread moves, if there is such a one.
    fn choose_to_move(
        &mut self,
        processors: u16,
        thread: Thread,
        out: &mut Vec<u8>,
    ) -> Result<(), AllocError>
        ensures session { OnOk result (self.new
            ≡ model.after_setting self.old processors (SessionSetting.ChooseToMove thread)) }
        ensures text { OnOk result (out.new.items ≡ out.old.items
            ++ model.setting_text self.old processors (SessionSetting.ChooseToMove thread)) }
    {
        if !is_choice(processors, thread) {
            return out.extend_from_slice(b"E01");
        }
        self.moving = thread;
        out.extend_from_slice(b"OK")
    }

    /// Sets a point, if there is room for it.
    fn set_point(&mut self, point: Point, out: &mut Vec<u8>) -> Result<(), AllocError>
        ensures session { OnOk result
            (self.new ≡ model.after_setting self.old 0 (SessionSetting.SetPoint point)) }
        ensures text { OnOk result (out.new.items ≡ out.old.items
            ++ model.setting_text self.old 0 (SessionSetting.SetPoint point)) }
    {
        remove_point(&mut self.points, point);
        if self.points.len() >= MOST_POINTS {
            return out.extend_from_slice(b"E02");
        }
        self.points.push(point)?;
        out.extend_from_slice(b"OK")
    }

    /// The run goes on.
    fn go<T: Target>(
        &mut self,
        target: &mut T,
        direction: Direction,
        extent: Extent,
        out: &mut Vec<u8>,
    ) -> Result<(), AllocError>
        requires empty { out.old.items ≡ [] }
        ensures { OnOk result (Goes T.view T.moves
            (record {
              session = self.old;
              target = target.old;
              session_after = self.new;
              target_after = target.new;
              answer = out.new.items;
            }) direction extent) }
    {
        let reach = self.reach_of(target.processors(), extent);
        self.go_so(target, direction, reach, out)
    }

    /// The run goes on as far as this, if it can.
    fn go_so<T: Target>(
        &mut self,
        target: &mut T,
        direction: Direction,
        reach: Option<MotionReach>,
        out: &mut Vec<u8>,
    ) -> Result<(), AllocError>
        requires empty { out.old.items ≡ [] }
        ensures { OnOk result (GoesSo T.moves
            (record {
              session = self.old;
              target = target.old;
              session_after = self.new;
              target_after = target.new;
              answer = out.new.items;
            }) direction reach) }
    {
        let Some(reach) = reach else {
            return out.extend_from_slice(b"E01");
        };
        let stop = target.go(Motion { direction, reach }, &self.points)?;
        self.general = stop.processor;
        self.stop = stop;
        push_stop(out, stop)
    }

    /// Does the command of a packet's body.
    fn command<T: Target>(
        &mut self,
        alloc: Global,
        target: &mut T,
        body: &[u8],
        out: &mut Vec<u8>,
    ) -> Result<(), AllocError>
        requires empty { out.old.items ≡ [] }
        ensures { OnOk result (Tells T.tells
            (record {
              session = self.old;
              target = target.old;
              session_after = self.new;
              target_after = target.new;
              answer = out.new.items;
            }) (bytes_of (drop 6 body.now))) }
    {
        let command = bytes_of(alloc, behind_word(body))?;
        self.do_command(alloc, target, command, out)
    }

    /// Does a command, if its bytes could be read. It may move the run.
    fn do_command<T: Target>(
        &mut self,
        alloc: Global,
        target: &mut T,
        command: Option<Vec<u8>>,
        out: &mut Vec<u8>,
    ) -> Result<(), AllocError>
        requires empty { out.old.items ≡ [] }
        ensures { OnOk result (Tells T.tells
            (record {
              session = self.old;
              target = target.old;
              session_after = self.new;
              target_after = target.new;
              answer = out.new.items;
            }) (option_map (λ v. v.items) command)) }
    {
        let Some(command) = command else {
            return out.extend_from_slice(b"E01");
        };
        let told = target.command(alloc, &command)?;
        if let Some(stop) = told.stop {
            self.stop = stop;
        }
        push_told(out, &told.text)
    }

    /// How far a run goes, if the processor that steps is one that there is.
    fn reach_of(&self, processors: u16, extent: Extent) -> Option<MotionReach>
        ensures { result ≡ model.reach_among self.now processors extent }
    {
        match extent {
            Extent::Run { thread } => run_of(processors, self.moving_of(thread)),
            Extent::Step { thread } => {
                step_of(
                    processors,
                    processor_or(self.general, self.moving_of(thread)),
                )
            }
        }
    }

    /// The thread that moves, where any may.
    fn moving_of(&self, thread: Thread) -> Thread
        ensures { result ≡ model.moving_of self.now thread }
    {
        match thread {
            Thread::Any => self.moving,
            Thread::All | Thread::Of { .. } => thread,
        }
    }
}

/// Tells what a thread does, in words.
fn tell_thread<T: Target>(
    alloc: Global,
    target: &mut T,
    thread: Thread,
    out: &mut Vec<u8>,
) -> Result<(), AllocError>
    requires empty { out.old.items ≡ [] }
    ensures tells { OnOk result (TellsDoing T.does target.old
        (model.processor_among (T.view target.old).processors thread) out.new.items) }
    ensures same { OnOk result (target.new ≡ target.old) }
{
    let processor = processor_among(target.processors(), thread);
    tell_doing(alloc, target, processor, out)
}

/// Tells what a processor does, in words, if there is such a one.
fn tell_doing<T: Target>(
    alloc: Global,
    target: &mut T,
    processor: Option<u16>,
    out: &mut Vec<u8>,
) -> Result<(), AllocError>
    requires empty { out.old.items ≡ [] }
    requires within { IfSome processor (λ p. p < (T.view target.old).processors) }
    ensures tells { OnOk result (TellsDoing T.does target.old processor out.new.items) }
    ensures same { OnOk result (target.new ≡ target.old) }
{
    let Some(processor) = processor else {
        return out.extend_from_slice(b"E01");
    };
    let doing = target.doing(alloc, processor)?;
    let mut text = Vec::new(alloc);
    push_doing(&mut text, doing)?;
    push_bytes(out, &text)
}

/// The digits of a command.
fn behind_word(body: &[u8]) -> &[u8]
    ensures { result.now ≡ drop 6 body.now }
{
    if body.len() < COMMAND {
        return b"";
    }
    body.split_at(COMMAND).1
}

/// Appends what a command told.
fn push_told(out: &mut Vec<u8>, told: &[u8]) -> Result<(), AllocError>
    ensures { OnOk result (out.new.items ≡ out.old.items ++ model.told_text told.now) }
{
    if told.is_empty() {
        return out.extend_from_slice(b"OK");
    }
    push_bytes(out, told)
}

/// Whether a thread can be chosen.
fn is_choice(processors: u16, thread: Thread) -> bool
    ensures { result ≡ model.is_choice processors thread }
{
    match thread {
        Thread::All | Thread::Any => true,
        Thread::Of { processor } => processor < processors,
    }
}

/// The processor of a thread, if there is such a one.
fn processor_among(processors: u16, thread: Thread) -> Option<u16>
    ensures value { result ≡ model.processor_among processors thread }
    ensures within { IfSome result (λ p. p < processors) }
{
    match thread {
        Thread::Of { processor } if processor < processors => Some(processor),
        Thread::All | Thread::Any | Thread::Of { .. } => None,
    }
}

/// The processor that is chosen by a thread, where that names one.
fn processor_or(processor: u16, thread: Thread) -> u16
    ensures { result ≡ model.processor_or processor thread }
{
    match thread {
        Thread::All | Thread::Any => processor,
        Thread::Of { processor } => processor,
    }
}

/// How far a run of a thread goes, if there is its processor.
fn run_of(processors: u16, thread: Thread) -> Option<MotionReach>
    ensures { result ≡ model.run_of processors thread }
{
    match thread {
        Thread::All | Thread::Any => Some(MotionReach::Run),
        Thread::Of { processor } if processor < processors => Some(MotionReach::RunOf {
            processor,
        }),
        Thread::Of { .. } => None,
    }
}

/// A step of a processor, if there is such a one.
fn step_of(processors: u16, processor: u16) -> Option<MotionReach>
    ensures { result ≡ model.step_of processors processor }
{
    if processor < processors {
        Some(MotionReach::Step { processor })
    } else {
        None
    }
}

/// Takes out the points of this kind and place.
fn remove_point(points: &mut Vec<Point>, point: Point)
    ensures { points.new.items ≡ model.without point points.old.items }
{
    points.retain(|other| !is_same(point, *other));
}

/// Whether two points have one kind and one place.
fn is_same(one: Point, other: Point) -> bool
    ensures { result ≡ model.is_same one other }
{
    kind_number(one.kind) == kind_number(other.kind)
        && one.address == other.address
        && one.length == other.length
}

/// The number of a kind of points, as requests have it.
fn kind_number(kind: PointKind) -> u8
    ensures { result ≡ model.kind_number kind }
{
    match kind {
        PointKind::Software => 0,
        PointKind::Hardware => 1,
        PointKind::Write => 2,
        PointKind::Read => 3,
        PointKind::Access => 4,
    }
}
