//! The lines of a text, one after another.

ghost use Rattle.std.specs.Prelude.{◌≡◌, ◌==◌, ◌+◌, ◌++◌, ℕ, List, true, ◌≤◌, ◌<◌, [], ◌∷◌, length};
ghost use Rattle.std.specs.Prelude.{take, drop, position, IfOk, IfErr};
ghost use Rattle.run_record.specs.Reading.{Left, IsNext, IsLack, IsFault};
ghost use Rattle.run_record.specs.Rules.{Nothing, text_lines};

use crate::refused::{RecordRefused, RecordRule};
use std::marker::Model;

/// A line, with its line feed, and its number.
#[derive(Clone, Copy)]
pub(crate) struct Line<'a> {
    pub text: &'a [u8],
    pub number: usize,
}

/// The lines that are left.
#[derive(Drop)]
pub(crate) struct TextLines<'a> {
    bytes: &'a [u8],
    number: usize,
}

impl<'a> Model for TextLines<'a> {
    ghost use Rattle.std.specs.Prelude.{◌^◌, ◌+◌, ◌≤◌, length};
    ghost use Rattle.run_record.specs.Reading.{Left};

    ghost Value = { Left };

    ghost view = { λ l. record { bytes = l.bytes.now; number = l.number } };

    ghost invariant = { λ l. l.number + length l.bytes.now ≤ 2 ^ 63 };
}

/// The place of the first line feed.
fn line_feed_in(text: &[u8]) -> Option<usize>
    ensures { result ≡ position (λ c. c == 10) text.now }
{
    text.iter().position(|byte| *byte == b'\n')
}

/// How many bytes the first line of a text has.
fn first_line_length(text: &[u8]) -> usize
    requires { 0 < length text.now }
    ensures some { 0 < result }
    ensures within { result ≤ length text.now }
    ensures line { text_lines text.now ≡ take result text.now ∷ text_lines (drop result text.now) }
{
    match line_feed_in(text) {
        Some(end) => end + 1,
        None => text.len(),
    }
}

impl<'a> TextLines<'a> {
    /// All lines of a text.
    pub(crate) fn of(text: &'a [u8]) -> TextLines<'a>
        ensures { result ≡ record { bytes = text.now; number = 1 } }
    {
        TextLines {
            bytes: text,
            number: 1,
        }
    }

    /// The next line. Fails where no line is left.
    pub(crate) fn next_line(&mut self) -> Result<Line<'a>, RecordRefused>
        ensures ok { IfOk result (λ l. IsNext self.old l.text.now l.number self.new) }
        ensures err { IfErr result (IsLack self.old) }
    {
        if self.bytes.is_empty() {
            return Err(RecordRule::Syntax.at(self.number));
        }
        let (text, rest) = self.bytes.split_at(first_line_length(self.bytes));
        let number = self.number;
        self.bytes = rest;
        self.number = number + 1;
        Ok(Line { text, number })
    }

    /// Whether what is left begins with a word.
    pub(crate) fn begin_with(&self, word: &[u8]) -> bool
        ensures yes { (rest : List ℕ) → self.now.bytes ≡ word.now ++ rest → result ≡ true }
        ensures only { result ≡ true → (rest : List ℕ) × (self.now.bytes ≡ word.now ++ rest) }
    {
        self.bytes.starts_with(word)
    }

    /// Fails where a line is left.
    pub(crate) fn end(&self) -> Result<(), RecordRefused>
        ensures ok { IfOk result (λ _. self.now.bytes ≡ []) }
        ensures err { IfErr result (IsFault Nothing self.now) }
    {
        if self.bytes.is_empty() {
            return Ok(());
        }
        Err(RecordRule::Syntax.at(self.number))
    }
}
