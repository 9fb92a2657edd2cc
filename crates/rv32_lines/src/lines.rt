//! The lines of a text.

ghost use Rattle.std.specs.Prelude.{◌≡◌, ◌<◌, ◌∷◌, ◌++◌, List, true, length, IfOk};
ghost use Rattle.std.specs.List.{list_all};
ghost use Rattle.rv32_lines.specs.Reading.{is_in_line, BeginsWithFeed, AreReadStatements};
ghost use Rattle.rv32_lines.specs.Statements.{lines_of, IsReading, Statement as Statements};

use crate::statements::{Statement, statement_of};
use std::alloc::{AllocError, Global};

/// What stands before the first line feed, and what stands from it on.
#[tactic(auto, using(crate::proofs::Cutting::all_more, crate::proofs::LinesOf::feed_at, crate::proofs::LinesOf::feed_last))]
fn split_at_feed(text: &[u8]) -> (&[u8], &[u8])
    ensures parts { text.now ≡ result.0.now ++ result.1.now }
    ensures line { list_all is_in_line result.0.now ≡ true }
    ensures ends { BeginsWithFeed result.1.now }
{
    let mut end = 0;
    while end < text.len() && text[end] != b'\n' {
        end += 1;
    }
    text.split_at(end)
}

/// The first line of a text, and what stands after its line feed.
#[tactic(auto, using(crate::proofs::LinesOf::only_line, crate::proofs::LinesOf::first_line, crate::proofs::LinesOf::first_shorter))]
fn split_line(text: &[u8]) -> (&[u8], &[u8])
    requires { 0 < length text.now }
    ensures lines { lines_of text.now ≡ result.0.now ∷ lines_of result.1.now }
    ensures shorter { length result.1.now < length text.now }
{
    let (line, rest) = split_at_feed(text);
    match rest {
        [_, behind @ ..] => (line, behind),
        [] => (line, rest),
    }
}

/// What the lines of a text say. After a last line feed there is no line.
pub fn statements_of(alloc: Global, text: &[u8]) -> Result<Vec<Statement<'_>>, AllocError>
    ensures { IfOk result (λ v. (statements : List Statements) × IsReading text.now statements
        × AreReadStatements v.items statements) }
{
    let mut statements = Vec::new(alloc);
    let mut rest = text;
    while !rest.is_empty() {
        let (line, behind) = split_line(rest);
        if statements.push(statement_of(line)).is_err() {
            return Err(AllocError);
        }
        rest = behind;
    }
    Ok(statements)
}
