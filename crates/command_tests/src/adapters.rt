//! The adapters of the real system.

use commands::{Gate, OpenGate};
use dsm_io::{FileError, Files, RealFiles, Sink, StdSink, Text};
use std::alloc::{AllocError, Global};
use std::fs;
use std::test::Fail;
use test_calls::calls::expect_text;

/// The bytes of a real file, or the text of the error.
fn told(
    alloc: Global,
    files: &mut RealFiles,
    name: &str,
    limit: u64,
) -> Result<Vec<u8>, AllocError> {
    match files.read(alloc, name, limit) {
        Ok(bytes) => Ok(bytes),
        Err(error) => Ok(format!(in alloc; "{error}")?.into_bytes()),
    }
}

/// Names of files, how many bytes may be read, and what is read, or the text of the error.
static READS: [(&str, u64, &str); 3] = [
    ("dsm_io_real_file", 13, "12 characters"),
    ("dsm_io_real_file", 12, "the file is longer than 12 bytes"),
    (
        "dsm_io_no_file",
        12,
        "the file could not be read or written",
    ),
];

/// Fails the test where a real file is read otherwise.
fn try_read(
    alloc: Global,
    files: &mut RealFiles,
    name: &str,
    limit: u64,
    wanted: &str,
) -> Result<(), Fail> {
    expect_text(&told(alloc, files, name, limit)?, wanted)
}

#[test]
fn real_files_come_back_or_fail(rt: HostRuntime) -> Result<(), Fail> {
    let mut files = RealFiles::new(rt);
    files.write("dsm_io_real_file", b"12 characters")?;
    for &(name, limit, wanted) in &READS {
        try_read(rt.alloc(), &mut files, name, limit, wanted)?;
    }
    fs::remove_file(&rt, "dsm_io_real_file")?;
    match files.write("dsm_io_no_directory/file", b"") {
        Err(FileError::Failed) => Ok(()),
        _ => Err(Fail::from("written, or another error")),
    }
}

#[test]
fn words_streams_and_the_gate(rt: HostRuntime) -> Result<(), Fail> {
    let word = Text::of(String::from_str(rt.alloc(), "größe")?);
    StdSink::output(rt).put(b"to the output\n")?;
    StdSink::errors(rt).put(b"to the errors\n")?;
    OpenGate.turn(0, 0);
    expect_text(word.as_str().as_bytes(), "größe")
}
