//! The standard input of a program.

ghost use Rattle.std.specs.Prelude.{◌≡◌};

use crate::{Source, SourceFailed};
use std::io;
use std::io::Read;

/// The standard input, whose bytes are hidden. It is read byte by byte, so none is held back.
#[derive(Drop)]
pub struct StdSource {
    rt: HostRuntime,
    faults: u64,
}

impl StdSource {
    /// The standard input.
    pub fn new(rt: HostRuntime) -> StdSource
        ensures { (⟦<StdSource as Source>⟧.state result).faults ≡ 0 }
    {
        StdSource { rt, faults: 0 }
    }
}

impl Source for StdSource {
    ghost use Rattle.std.specs.Prelude.{None};

    ghost state = { λ s. record { rest = None; faults = s.faults } };

    fn next(&mut self) -> Result<Option<u8>, SourceFailed> {
        match read_byte(self.rt.stdin()) {
            Ok(next) => Ok(next),
            Err(_) => {
                self.faults = self.faults.saturating_add(1);
                Err(SourceFailed)
            }
        }
    }
}

/// The next byte of a stream, or none at its end.
fn read_byte(mut stream: impl Read + Drop) -> io::Result<Option<u8>> {
    let mut byte = [0u8; 1];
    let count = stream.read(&mut byte)?;
    if count == 0 {
        return Ok(None);
    }
    Ok(Some(byte[0]))
}
