//! Packets, as they are read: byte by byte, so that it is all one in which pieces they come.

ghost use Rattle.std.specs.Prelude.{◌≡◌, Some, IfOk, OnErr, OnOk};
ghost use Rattle.gdb_remote.specs.Readings.{step, within_step, escaped_step, skipping_step, gained};
ghost use Rattle.gdb_remote.specs.Readings.{judged, begun, new_reading, between_step};

use crate::frame::{ESCAPE, ESCAPE_BIT};
use crate::hexadecimal::byte_of;
use std::alloc::{AllocError, Global};
use std::marker::Model;

/// No longer body is read.
pub const PACKET_SIZE: usize = 4096;

/// What the debugger sends in place of a packet, to stop a run.
pub const INTERRUPT: u8 = 3;

/// Where a reader stands.
#[derive(Clone, Copy)]
pub enum ReaderState {
    /// Between two packets.
    Between,
    /// After a `$`.
    Within,
    /// After a `}` that escapes the next byte.
    Escaped,
    /// After the `#`.
    High,
    /// After the first digit of the checksum.
    Low { high: u8 },
    /// In a packet that is too long.
    Skipping,
}

/// What a byte ends.
#[derive(Clone, Copy)]
pub enum PacketEvent {
    /// A packet, with the checksum that it has to have.
    Packet,
    /// A packet with another checksum.
    Damaged,
    /// A packet that is too long.
    TooLong,
    /// The debugger asks to stop.
    Interrupt,
    /// The debugger has the last packet.
    Acknowledged,
    /// The debugger asks for the last packet once more.
    AskedAgain,
}

/// A reader of packets.
#[derive(Drop)]
pub struct Reader {
    phase: ReaderState,
    body: Vec<u8>,
    /// The sum of what was sent, modulo 256.
    sum: u8,
}

impl Model for Reader {
    ghost use Rattle.gdb_remote.specs.Readings.{Reading};

    ghost Value = { Reading };

    ghost view = { λ r. record { phase = r.phase; body = r.body.items; sum = r.sum } };
}

impl Reader {
    /// A reader that stands between two packets.
    pub fn new(alloc: Global) -> Reader
        ensures { result ≡ new_reading }
    {
        Reader {
            phase: ReaderState::Between,
            body: Vec::new(alloc),
            sum: 0,
        }
    }

    /// The body of the packet that ended last.
    pub fn body(&self) -> &[u8]
        ensures { result.now ≡ self.now.body }
    {
        &self.body
    }

    /// Reads a byte, and says what it ends. Where memory runs out, nothing is read.
    pub fn read(&mut self, byte: u8) -> Result<Option<PacketEvent>, AllocError>
        ensures event { IfOk result (λ e. e ≡ (step self.old byte).event) }
        ensures reading { OnOk result (self.new ≡ (step self.old byte).reading) }
        ensures err { OnErr result (self.new ≡ self.old) }
    {
        match self.phase {
            ReaderState::Between => Ok(self.read_between(byte)),
            ReaderState::Within => {
                self.read_within(byte)?;
                Ok(None)
            }
            ReaderState::Escaped => {
                self.read_escaped(byte)?;
                Ok(None)
            }
            ReaderState::High => {
                self.phase = ReaderState::Low { high: byte };
                Ok(None)
            }
            ReaderState::Low { high } => Ok(Some(self.judge(high, byte))),
            ReaderState::Skipping => Ok(self.skip(byte)),
        }
    }

    /// Reads a byte between two packets.
    fn read_between(&mut self, byte: u8) -> Option<PacketEvent>
        ensures event { result ≡ (between_step self.old byte).event }
        ensures reading { self.new ≡ (between_step self.old byte).reading }
    {
        match byte {
            b'$' => {
                self.begin();
                None
            }
            INTERRUPT => Some(PacketEvent::Interrupt),
            b'+' => Some(PacketEvent::Acknowledged),
            b'-' => Some(PacketEvent::AskedAgain),
            _ => None,
        }
    }

    /// Begins a packet.
    fn begin(&mut self)
        ensures { self.new ≡ begun }
    {
        self.phase = ReaderState::Within;
        self.body.clear();
        self.sum = 0;
    }

    /// Reads a byte of what is sent.
    fn read_within(&mut self, byte: u8) -> Result<(), AllocError>
        ensures reading { OnOk result (self.new ≡ (within_step self.old byte).reading) }
        ensures err { OnErr result (self.new ≡ self.old) }
    {
        match byte {
            b'#' => self.phase = ReaderState::High,
            b'$' => self.begin(),
            ESCAPE => {
                self.phase = ReaderState::Escaped;
                self.sum = self.sum.wrapping_add(byte);
            }
            _ => self.gain(byte, byte)?,
        }
        Ok(())
    }

    /// Reads a byte of what is sent that is escaped.
    fn read_escaped(&mut self, byte: u8) -> Result<(), AllocError>
        ensures reading { OnOk result (self.new ≡ (escaped_step self.old byte).reading) }
        ensures err { OnErr result (self.new ≡ self.old) }
    {
        match byte {
            b'#' => self.phase = ReaderState::High,
            b'$' => self.begin(),
            _ => self.gain(byte, byte ^ ESCAPE_BIT)?,
        }
        Ok(())
    }

    /// One more byte of the body, unless that would be too long; it was sent so.
    fn gain(&mut self, sent: u8, meant: u8) -> Result<(), AllocError>
        ensures reading { OnOk result (self.new ≡ (gained self.old sent meant).reading) }
        ensures err { OnErr result (self.new ≡ self.old) }
    {
        if self.body.len() >= PACKET_SIZE {
            self.phase = ReaderState::Skipping;
            return Ok(());
        }
        self.body.push(meant)?;
        self.phase = ReaderState::Within;
        self.sum = self.sum.wrapping_add(sent);
        Ok(())
    }

    /// Judges the checksum that was sent.
    fn judge(&mut self, high: u8, low: u8) -> PacketEvent
        ensures event { Some result ≡ (judged self.old high low).event }
        ensures reading { self.new ≡ (judged self.old high low).reading }
    {
        self.phase = ReaderState::Between;
        match byte_of(high, low) {
            Some(sum) if sum == self.sum => PacketEvent::Packet,
            _ => PacketEvent::Damaged,
        }
    }

    /// Passes a byte of a packet that is too long.
    fn skip(&mut self, byte: u8) -> Option<PacketEvent>
        ensures event { result ≡ (skipping_step self.old byte).event }
        ensures reading { self.new ≡ (skipping_step self.old byte).reading }
    {
        match byte {
            b'#' => {
                self.phase = ReaderState::Between;
                Some(PacketEvent::TooLong)
            }
            b'$' => {
                self.begin();
                None
            }
            _ => None,
        }
    }
}
