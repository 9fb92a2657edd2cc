//! A server: what is put back for the bytes of a debugger.

ghost use Rattle.std.specs.Prelude.{◌≡◌, ◌++◌, [], IfOk, OnOk, List, ℕ};
ghost use Rattle.gdb_session.specs.Answers.{AnswersRequest, after_request};
ghost use Rattle.gdb_remote.specs.Frames.{framed};
ghost use Rattle.gdb_remote.specs.Readings.{new_reading, step};
ghost use Rattle.gdb_remote.specs.Requests.{request_of};
ghost use Rattle.gdb_session.specs.Servers as model;
ghost use Rattle.gdb_session.specs.Sessions.{new_session};

use crate::session::{After, Session};
use crate::target::Target;
use gdb_remote::{PacketEvent, Reader, push_framed};
use std::alloc::{AllocError, Global};
use std::marker::Model;

/// Serves a debugger: reads its bytes, and answers its requests.
#[derive(Drop)]
pub struct Server {
    reader: Reader,
    session: Session,
    /// The packet that was put last.
    last: Vec<u8>,
}

impl Model for Server {
    ghost use Rattle.gdb_session.specs.Servers as model;

    ghost Value = { model.Server };

    ghost view = { λ s. record { reading = s.reader; session = s.session; last = s.last.items } };
}

impl Server {
    /// A server at the beginning of a run.
    pub fn new(alloc: Global) -> Server
        ensures { result ≡ record { reading = new_reading; session = new_session; last = [] } }
    {
        Server {
            reader: Reader::new(alloc),
            session: Session::new(alloc),
            last: Vec::new(alloc),
        }
    }

    /// Reads a byte, appends what is put back at once, and says whether a request is to be
    /// answered. What was put back is to go out before the answer is made, which may take long.
    pub fn read(&mut self, alloc: Global, byte: u8, out: &mut Vec<u8>) -> Result<bool, AllocError>
        ensures reading { OnOk result (self.new.reading ≡ (step self.old.reading byte).reading) }
        ensures session { OnOk result (self.new.session ≡ self.old.session) }
        ensures last { OnOk result (self.new.last
            ≡ model.last_after self.old.last (step self.old.reading byte).event) }
        ensures puts { OnOk result (out.new.items ≡ out.old.items
            ++ model.put_for self.old.session self.old.last (step self.old.reading byte).event) }
        ensures asked { IfOk result (λ asked.
            asked ≡ model.is_request (step self.old.reading byte).event) }
    {
        let event = self.reader.read(byte)?;
        self.hear(alloc, event, out)
    }

    /// Appends what is put back for an event, and says whether a request is to be answered.
    fn hear(
        &mut self,
        alloc: Global,
        event: Option<PacketEvent>,
        out: &mut Vec<u8>,
    ) -> Result<bool, AllocError>
        ensures reading { self.new.reading ≡ self.old.reading }
        ensures session { self.new.session ≡ self.old.session }
        ensures last { OnOk result (self.new.last ≡ model.last_after self.old.last event) }
        ensures puts { OnOk result (out.new.items ≡ out.old.items
            ++ model.put_for self.old.session self.old.last event) }
        ensures asked { IfOk result (λ asked. asked ≡ model.is_request event) }
    {
        match event {
            Some(PacketEvent::Packet) => {
                self.acknowledge(b'+', out)?;
                return Ok(true);
            }
            Some(PacketEvent::Damaged) => self.acknowledge(b'-', out)?,
            Some(PacketEvent::TooLong) => {
                self.acknowledge(b'+', out)?;
                self.put(alloc, b"E01", out)?;
            }
            Some(PacketEvent::AskedAgain) => out.extend_from_slice(&self.last)?,
            Some(PacketEvent::Interrupt) | Some(PacketEvent::Acknowledged) | None => {}
        }
        Ok(false)
    }

    /// Appends an acknowledgement, where there are any.
    fn acknowledge(&self, sign: u8, out: &mut Vec<u8>) -> Result<(), AllocError>
        ensures { OnOk result
            (out.new.items ≡ out.old.items ++ model.acknowledgement self.now.session sign) }
    {
        if self.session.acknowledges() {
            out.push(sign)?;
        }
        Ok(())
    }

    /// Appends the packet of a body, and keeps it.
    fn put(&mut self, alloc: Global, body: &[u8], out: &mut Vec<u8>) -> Result<(), AllocError>
        ensures reading { self.new.reading ≡ self.old.reading }
        ensures session { self.new.session ≡ self.old.session }
        ensures last { OnOk result (self.new.last ≡ framed body.now) }
        ensures puts { OnOk result (out.new.items ≡ out.old.items ++ framed body.now) }
    {
        self.last.clear();
        push_framed(alloc, &mut self.last, body)?;
        out.extend_from_slice(&self.last)
    }

    /// Answers the request that was read last, appends the packet of the answer, and says whether
    /// the debugger stays.
    pub fn answer<T: Target>(
        &mut self,
        alloc: Global,
        target: &mut T,
        out: &mut Vec<u8>,
    ) -> Result<After, AllocError>
        ensures reading { OnOk result (self.new.reading ≡ self.old.reading) }
        ensures answers { IfOk result (λ after. (answer : List ℕ)
            × AnswersRequest T.view T.does T.moves T.tells
            (record {
              session = self.old.session;
              target = target.old;
              session_after = self.new.session;
              target_after = target.new;
              answer = answer;
            })
            self.old.reading.body (request_of self.old.reading.body)
            × (out.new.items ≡ out.old.items ++ model.packet_of after answer)
            × (self.new.last ≡ model.last_behind after self.old.last answer)) }
        ensures after { IfOk result (λ after.
            after ≡ after_request (request_of self.old.reading.body)) }
    {
        let mut body = Vec::new(alloc);
        let after = self
            .session
            .answer(alloc, target, self.reader.body(), &mut body)?;
        self.put_answer(alloc, after, &body, out)?;
        Ok(after)
    }

    /// Appends the packet of an answer, if one is awaited.
    fn put_answer(
        &mut self,
        alloc: Global,
        after: After,
        body: &[u8],
        out: &mut Vec<u8>,
    ) -> Result<(), AllocError>
        ensures reading { self.new.reading ≡ self.old.reading }
        ensures session { self.new.session ≡ self.old.session }
        ensures last { OnOk result (self.new.last
            ≡ model.last_behind after self.old.last body.now) }
        ensures puts { OnOk result
            (out.new.items ≡ out.old.items ++ model.packet_of after body.now) }
    {
        match after {
            After::GoesOn | After::Leaves => self.put(alloc, body, out),
            After::IsKilled => Ok(()),
        }
    }
}
