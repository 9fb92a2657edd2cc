//! Rows of tables: programs and how they end, and calls and their answers.

use crate::calls::try_held;
use std::alloc::Global;
use std::sync::Wait;
use std::test::Fail;
use std::thread::Threads;
use test_calls::calls::{Expected, NODE};
use test_calls::files::{executable, push_code, text_of};

/// What IN holds: bytes; or the executable of code, an assembly text, and of data, whose memory has
/// this size.
#[derive(Clone, Copy)]
pub enum Input {
    Bytes(&'static [u8]),
    Program(&'static str, &'static [u8], u32),
}

/// Calls where IN holds an input, and L and -x a text, and the answer of each: its status, the
/// parts of its output, and its errors.
#[derive(Drop)]
pub struct Case {
    pub input: Input,
    pub text: &'static str,
    pub calls: &'static [&'static str],
    pub status: u8,
    pub out: &'static [&'static str],
    pub err: &'static str,
}

/// The bytes of an input.
pub fn bytes_of(alloc: Global, input: Input) -> Result<Vec<u8>, Fail> {
    match input {
        Input::Bytes(bytes) => Ok(bytes.to_vec(alloc)?),
        Input::Program(code, data, size) => executable(alloc, code, data, size),
    }
}

/// Makes each call where IN holds a file, and L and -x a text, and fails the test where it answers
/// otherwise.
fn try_with(
    rt: &(impl Threads + Wait + Sync + AllocGlobal),
    file: &[u8],
    text: &[u8],
    calls: &[&str],
    answer: &Expected<'_>,
) -> Result<(), Fail> {
    let files = [("IN", file), ("L", text), ("-x", text)];
    try_held(rt, &files, calls, answer)
}

/// Makes the calls of a case, and fails the test where one answers otherwise.
pub fn try_case(rt: &(impl Threads + Wait + Sync + AllocGlobal), case: &Case) -> Result<(), Fail> {
    let file = bytes_of(rt.alloc(), case.input)?;
    let answer = Expected {
        status: case.status,
        out: case.out,
        err: case.err,
    };
    try_with(rt, &file, case.text.as_bytes(), case.calls, &answer)
}

/// Makes the calls of each case.
pub fn try_cases(
    rt: &(impl Threads + Wait + Sync + AllocGlobal),
    cases: &[Case],
) -> Result<(), Fail> {
    for case in cases {
        try_case(rt, case)?;
    }
    Ok(())
}

/// Makes each call of a file, and fails the test where it doesn't print a text alone.
fn try_text(
    rt: &(impl Threads + Wait + Sync + AllocGlobal),
    file: &[u8],
    calls: &[&str],
    status: u8,
    text: &str,
) -> Result<(), Fail> {
    let answer = Expected {
        status,
        out: &[text],
        err: "",
    };
    try_held(rt, &[("IN", file)], calls, &answer)
}

/// Executes a program that prints nothing, whose data's memory has 64 bytes, on one memory and
/// rewritten, by `run` and by `sim`, and fails the test where it ends otherwise or its node counts
/// something. Its code and its data are assembly texts.
pub fn try_program(
    rt: &(impl Threads + Wait + Sync + AllocGlobal),
    code: &str,
    data: &str,
    end: &str,
) -> Result<(), Fail> {
    let alloc = rt.alloc();
    let mut bytes = Vec::new(alloc);
    push_code(alloc, &mut bytes, data)?;
    let file = executable(alloc, code, &bytes, 64)?;
    let status = u8::from(end != "exit 0");
    let one = text_of(alloc, &["output 0\n\nprocessor 0 ", end, "\n"])?;
    let run = text_of(alloc, &[&one, NODE])?;
    try_text(rt, &file, &["one IN"], status, &one)?;
    try_text(rt, &file, &["run IN", "sim IN"], status, &run)
}

/// Executes each program of these codes and data, whose ends are the third texts.
pub fn try_programs(
    rt: &(impl Threads + Wait + Sync + AllocGlobal),
    programs: &[(&str, &str, &str)],
) -> Result<(), Fail> {
    for (code, data, end) in programs {
        try_program(rt, code, data, end)?;
    }
    Ok(())
}

/// Executes each program of these codes, whose data's memory has zeros, and whose ends are the
/// second texts.
pub fn try_codes(
    rt: &(impl Threads + Wait + Sync + AllocGlobal),
    programs: &[(&str, &str)],
) -> Result<(), Fail> {
    for (code, end) in programs {
        try_program(rt, code, "", end)?;
    }
    Ok(())
}
