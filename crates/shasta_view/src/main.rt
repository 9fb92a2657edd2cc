#![tactic(auto)]
//! `shasta_view` shows what `shasta` does: the rewritten code of an RV32 executable.

use byte_source::StdSource;
use dsm_io::{RealFiles, StdSink, Text};
use std::alloc::AllocError;
use std::env;
use std::io::ErrorKind;
use std::process::ExitCode;
use views::{shasta_view, tell_out_of_memory};

fn main(rt: HostRuntime) -> ExitCode {
    let mut files = RealFiles::new(rt);
    let mut source = StdSource::new(rt);
    let mut out = StdSink::output(rt);
    let mut err = StdSink::errors(rt);
    let status = match words(&rt) {
        Ok(words) => shasta_view(
            rt.alloc(),
            &words,
            &mut files,
            &mut source,
            &mut out,
            &mut err,
        ),
        Err(_) => tell_out_of_memory(&mut err),
    };
    ExitCode::from(status)
}

/// The words after the program's name. There are none where some word is not UTF-8, since such
/// words ask for nothing.
fn words(rt: &HostRuntime) -> Result<Vec<Text>, AllocError> {
    let mut words = Vec::new(rt.alloc());
    match env::args(rt) {
        Ok(args) => {
            for word in args.skip(1) {
                words.push(Text::of(word))?;
            }
        }
        Err(error) if error.kind() == ErrorKind::OutOfMemory => return Err(AllocError),
        Err(_) => {}
    }
    Ok(words)
}
