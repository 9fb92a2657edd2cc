//! The adapters of the real files and the two outputs of a program.

ghost use Rattle.std.specs.Prelude.{◌≡◌, ℕ, List};

use crate::{FileError, Files, Sink, SinkError};
use std::alloc::Global;
use std::fs::File;
use std::io;
use std::io::{ErrorKind, Read, Write};

/// The files of the system, whose contents are hidden.
#[derive(Drop)]
pub struct RealFiles {
    rt: HostRuntime,
    faults: u64,
}

impl RealFiles {
    /// The files that the runtime reaches.
    pub fn new(rt: HostRuntime) -> RealFiles
        ensures reads { (n : List ℕ) → (⟦<RealFiles as Files>⟧.state result).failed_reads n ≡ 0 }
        ensures writes { (n : List ℕ) → (⟦<RealFiles as Files>⟧.state result).failed_writes n ≡ 0 }
    {
        RealFiles { rt, faults: 0 }
    }
}

impl Files for RealFiles {
    ghost use Rattle.std.specs.Prelude.{None};

    ghost state = { λ s. record {
      held = λ _. None;
      failed_reads = λ _. s.faults;
      failed_writes = λ _. s.faults;
    } };

    fn read(&mut self, alloc: Global, name: &str, limit: u64) -> Result<Vec<u8>, FileError> {
        match read_file(&self.rt, alloc, name, limit) {
            Ok(bytes) if bytes.len() as u64 <= limit => Ok(bytes),
            Ok(_) => {
                self.faults = self.faults.saturating_add(1);
                Err(FileError::TooLong { limit })
            }
            Err(error) if error.kind() == ErrorKind::OutOfMemory => Err(FileError::OutOfMemory),
            Err(_) => {
                self.faults = self.faults.saturating_add(1);
                Err(FileError::Failed)
            }
        }
    }

    fn write(&mut self, name: &str, bytes: &[u8]) -> Result<(), FileError> {
        match write_file(&self.rt, name, bytes) {
            Ok(()) => Ok(()),
            Err(_) => {
                self.faults = self.faults.saturating_add(1);
                Err(FileError::Failed)
            }
        }
    }
}

/// The bytes of a file. No more than one past the limit are read.
fn read_file(rt: &HostRuntime, alloc: Global, name: &str, limit: u64) -> io::Result<Vec<u8>> {
    let mut bytes = Vec::new(alloc);
    let file = File::open(rt, name)?;
    file.take(limit.saturating_add(1)).read_to_end(&mut bytes)?;
    Ok(bytes)
}

fn write_file(rt: &HostRuntime, name: &str, bytes: &[u8]) -> io::Result<()> {
    let mut file = File::create(rt, name)?;
    file.write_all(bytes)?;
    file.flush()
}

/// One of the two outputs of a program.
#[derive(Clone, Copy)]
enum Stream {
    Output,
    Errors,
}

/// The standard output or the standard error, whose bytes are hidden. It takes no memory, so its
/// count of refusals is 0.
#[derive(Drop)]
pub struct StdSink {
    rt: HostRuntime,
    stream: Stream,
    faults: u64,
}

impl StdSink {
    /// The standard output.
    pub fn output(rt: HostRuntime) -> StdSink
        ensures { (⟦<StdSink as Sink>⟧.state result).faults ≡ 0 }
    {
        StdSink {
            rt,
            stream: Stream::Output,
            faults: 0,
        }
    }

    /// The standard error.
    pub fn errors(rt: HostRuntime) -> StdSink
        ensures { (⟦<StdSink as Sink>⟧.state result).faults ≡ 0 }
    {
        StdSink {
            rt,
            stream: Stream::Errors,
            faults: 0,
        }
    }
}

impl Sink for StdSink {
    ghost use Rattle.std.specs.Prelude.{None};

    ghost state = { λ s. record { taken = None; faults = s.faults; refusals = 0 } };

    fn put(&mut self, piece: &[u8]) -> Result<(), SinkError> {
        let written = match self.stream {
            Stream::Output => write_piece(self.rt.stdout(), piece),
            Stream::Errors => write_piece(self.rt.stderr(), piece),
        };
        match written {
            Ok(()) => Ok(()),
            Err(_) => {
                self.faults = self.faults.saturating_add(1);
                Err(SinkError::Failed)
            }
        }
    }
}

/// Writes the whole piece. A stream that takes none of it is an error.
fn write_piece(mut stream: impl Write + Drop, piece: &[u8]) -> io::Result<()> {
    stream.write_all(piece)?;
    stream.flush()
}
