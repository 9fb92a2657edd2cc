//! The outside of a call in memory: its files, its output and its errors; and what a call did.

use crate::files::text_of;
use dsm_io::{Files, MemFiles, MemSink, Text};
use std::alloc::{AllocError, Global};
use std::str::from_utf8;
use std::test::Fail;

/// The line of a node that counted nothing.
pub const NODE: &str =
    "node 0 read 0 exclusive 0 upgrade 0 false 0 invalidations 0 fallbacks 0 messages 0\n";

/// Files with these names and contents; the calls with these numbers fail.
fn files_of(alloc: Global, all: &[(&str, &[u8])], fails: &[u64]) -> Result<MemFiles, Fail> {
    let mut held = Vec::new(alloc);
    for (name, bytes) in all {
        let name = Text::of(String::from_str(alloc, name)?);
        held.push((name, bytes.to_vec(alloc)?))?;
    }
    Ok(MemFiles::new(alloc, held, fails.to_vec(alloc)?))
}

/// The numbers of the calls that are to fail, of the files, and of the puts to the output and to
/// the errors; and of the puts that are to be refused memory.
#[derive(Clone, Copy)]
pub struct Faults<'a> {
    pub files: &'a [u64],
    pub out: &'a [u64],
    pub err: &'a [u64],
    pub out_memory: &'a [u64],
    pub err_memory: &'a [u64],
}

/// No call fails.
pub const NO_FAULTS: Faults<'static> = Faults {
    files: &[],
    out: &[],
    err: &[],
    out_memory: &[],
    err_memory: &[],
};

/// Files in memory, and the calls that are to fail.
#[derive(Clone, Copy)]
pub struct Held<'a> {
    pub files: &'a [(&'a str, &'a [u8])],
    pub faults: Faults<'a>,
}

/// What a call did: its status, what the output and the errors took, and what a file then holds.
#[derive(Drop)]
pub struct Called {
    pub status: u8,
    pub out: Vec<u8>,
    pub err: Vec<u8>,
    pub written: Vec<u8>,
}

/// A sink whose puts with these numbers fail, or are refused memory.
fn sink_of(alloc: Global, fails: &[u64], refusals: &[u64]) -> Result<MemSink, AllocError> {
    let fails = fails.to_vec(alloc)?;
    Ok(MemSink::with_refusals(alloc, fails, refusals.to_vec(alloc)?))
}

/// The words of a line, between its spaces; none of an empty line.
pub fn words_of(alloc: Global, line: &str) -> Result<Vec<Text>, AllocError> {
    let mut words = Vec::new(alloc);
    if line.is_empty() {
        return Ok(words);
    }
    for word in line.split(' ') {
        words.push(Text::of(String::from_str(alloc, word)?))?;
    }
    Ok(words)
}

/// The outside of a call: its files, its output and its errors.
#[derive(Drop)]
pub struct Outside {
    pub files: MemFiles,
    pub out: MemSink,
    pub err: MemSink,
}

impl Outside {
    /// The outside where these files are held and these calls fail.
    pub fn of(alloc: Global, held: Held<'_>) -> Result<Outside, Fail> {
        let faults = held.faults;
        let files = files_of(alloc, held.files, faults.files)?;
        let out = sink_of(alloc, faults.out, faults.out_memory)?;
        let err = sink_of(alloc, faults.err, faults.err_memory)?;
        Ok(Outside { files, out, err })
    }

    /// What a call with this status left there, and what a file then holds; nothing where it isn't
    /// read.
    pub fn left(&mut self, alloc: Global, status: u8, written: &str) -> Result<Called, Fail> {
        let written = match self.files.read(alloc, written, 0x200_0000) {
            Ok(bytes) => bytes,
            Err(_) => Vec::new(alloc),
        };
        Ok(Called {
            status,
            out: self.out.taken().to_vec(alloc)?,
            err: self.err.taken().to_vec(alloc)?,
            written,
        })
    }
}

/// What a call answers: its status, the parts of what the output takes, and what the errors take.
#[derive(Clone, Copy)]
pub struct Expected<'a> {
    pub status: u8,
    pub out: &'a [&'a str],
    pub err: &'a str,
}

/// Fails the test where bytes are another text than this.
pub fn expect_text(bytes: &[u8], wanted: &str) -> Result<(), Fail> {
    let text = from_utf8(bytes)?;
    if text == wanted {
        return Ok(());
    }
    Err(Fail::new(format_args!("{text}")))
}

impl Called {
    /// Fails the test where the call of these words didn't do its work, or put other bytes.
    pub fn expect_bytes(&self, words: &str, out: &[u8]) -> Result<(), Fail> {
        if self.status == 0 && self.out.as_slice() == out && self.err.is_empty() {
            return Ok(());
        }
        let status = self.status;
        Err(Fail::new(format_args!("{words}: {status}")))
    }

    /// Fails the test where the call of these words answered otherwise.
    pub fn expect(&self, alloc: Global, words: &str, answer: &Expected<'_>) -> Result<(), Fail> {
        let out = from_utf8(&self.out)?;
        let err = from_utf8(&self.err)?;
        let wanted = text_of(alloc, answer.out)?;
        if out == wanted.as_str() && err == answer.err && self.status == answer.status {
            return Ok(());
        }
        let status = self.status;
        Err(Fail::new(format_args!("{words}: {status}: {err}: {out}")))
    }
}

/// Files whose calls never fail.
pub fn sure<'a>(files: &'a [(&'a str, &'a [u8])]) -> Held<'a> {
    Held {
        files,
        faults: NO_FAULTS,
    }
}
