//! The code words of a program as a list.

ghost use Rattle.std.specs.Prelude.{IfOk};
ghost use Rattle.exec_map.specs.Contents.{program_of};
ghost use Rattle.templates.specs.Code.{HasCode};

use exec_map::Program;
use std::alloc::{AllocError, Global};
use templates::Code;

/// The code words of a program.
pub(crate) fn collect_code(alloc: Global, program: &Program<'_>) -> Result<Code, AllocError>
    ensures value { IfOk result (λ code. HasCode (program_of program.now) code) }
{
    let mut code = Code::new(alloc);
    let mut from = 0;
    while let Some(address) = program.next_code(from) {
        if let Some(instruction) = program.code_at(address) {
            code.push(address, instruction)?;
        }
        from = address + 4;
    }
    Ok(code)
}
