//! What a line of the text says.

ghost use Rattle.std.specs.Prelude.{◌≡◌, ℕ, ◌^◌, ◌<◌, ◌++◌, List, codes, replicate, reverse, true};
ghost use Rattle.std.specs.Prelude.{Some, IfSome, MatchOption};
ghost use Rattle.rv32_text.specs.Listing.{word_digits};
ghost use Rattle.rv32_lines.specs.Reading.{IsReadStatement, SaysDigits, IsDirective};
ghost use Rattle.rv32_lines.specs.Statements.{IsNumber, IsKind, is_decimal_digit};
ghost use Rattle.rv32_lines.specs.Statements.{is_hexadecimal_digit, is_name, begins_bare, IsBare};
ghost use Rattle.rv32_lines.specs.Statements.{IsRead, Says};
ghost use Rattle.rv32_lines.specs.Statements as model;
ghost use Rattle.rv32_lines.specs.Texts.{Written};

use crate::commands::{WrittenInstruction, command_of};
use crate::heads::{before, behind};
use crate::names::is_name;
use crate::numerals::{Base, are_digits, number_of, value_of};

/// The digits of a word.
const WORD_DIGITS: usize = 8;

/// The most bytes of a line.
const MOST_BYTES: usize = 64;

/// What a line says.
#[derive(Clone, Copy)]
pub enum Statement<'a> {
    Nothing,
    /// A segment starts.
    Segment { flags: u32, start: u32 },
    /// The name of the next byte.
    Label { name: &'a [u8] },
    /// Bytes, two digits each.
    Bytes { digits: &'a [u8] },
    Word { word: u32 },
    /// Bytes that are zero.
    Space { count: u32 },
    /// Zeros past the bytes of the segment.
    Zero { count: u32 },
    /// The name of the entry.
    Entry { name: &'a [u8] },
    Instruction { command: WrittenInstruction<'a> },
    /// The line isn't in the grammar.
    Unread,
}

/// A line without the spaces at its head.
#[tactic(auto, using(crate::proofs::Bare::space_more, crate::proofs::Bare::begins_at, crate::proofs::Bare::begins_last))]
fn without_head(line: &[u8]) -> &[u8]
    ensures parts { (n : ℕ) × (line.now ≡ replicate n 32 ++ result.now) }
    ensures begins { begins_bare result.now ≡ true }
{
    let mut start = 0;
    while start < line.len() && line[start] == b' ' {
        start += 1;
    }
    line.split_at(start).1
}

/// A line without the spaces at its end.
#[tactic(auto, using(crate::proofs::Bare::space_before, crate::proofs::Bare::ends_at))]
fn without_end(line: &[u8]) -> &[u8]
    ensures parts { (n : ℕ) × (line.now ≡ result.now ++ replicate n 32) }
    ensures ends { begins_bare (reverse result.now) ≡ true }
{
    let mut end = line.len();
    while end > 0 && line[end - 1] == b' ' {
        end -= 1;
    }
    line.split_at(end).0
}

/// A line without the spaces at its ends.
fn bare(line: &[u8]) -> &[u8]
    ensures { IsBare line.now result.now }
{
    without_end(without_head(line))
}

/// What a line says, where spaces at its ends count for nothing.
pub(crate) fn statement_of(line: &[u8]) -> Statement<'_>
    ensures { (s : model.Statement) × IsRead line.now s × IsReadStatement result s }
{
    match said(bare(line)) {
        Some(statement) => statement,
        None => Statement::Unread,
    }
}

/// What a line says that has no space at its ends.
fn said(line: &[u8]) -> Option<Statement<'_>>
    ensures some { IfSome result (λ r. (s : model.Statement) × Says line.now s
        × IsReadStatement r s) }
    ensures only { (s : model.Statement) → Says line.now s
        → MatchOption result ⊥ (λ r. IsReadStatement r s) }
{
    let [first, ..] = line else {
        return Some(Statement::Nothing);
    };
    if *first == b'#' {
        return Some(Statement::Nothing);
    }
    if *first == b'.' {
        return directive(line);
    }
    label_or_command(line)
}

/// A name with its colon, or an instruction.
fn label_or_command(line: &[u8]) -> Option<Statement<'_>>
    ensures some { IfSome result (λ r. (s : model.Statement) × Says line.now s
        × IsReadStatement r s) }
    ensures label { (name : List ℕ) → Says line.now (model.Label name)
        → MatchOption result ⊥ (λ r. IsReadStatement r (model.Label name)) }
    ensures command { (w : Written) → Says line.now (model.Instruction w)
        → MatchOption result ⊥ (λ r. IsReadStatement r (model.Instruction w)) }
{
    if let Some(name) = label(line) {
        return Some(Statement::Label { name });
    }
    match command_of(line) {
        Some(command) => Some(Statement::Instruction { command }),
        None => None,
    }
}

/// The name before a colon.
fn label(line: &[u8]) -> Option<&[u8]>
    ensures some { IfSome result (λ n. Says line.now (model.Label n.now)) }
    ensures only { (name : List ℕ) → Says line.now (model.Label name)
        → MatchOption result ⊥ (λ n. n.now ≡ name) }
{
    let name = before(line, b":")?;
    if is_name(name) { Some(name) } else { None }
}

/// A line that begins with a point.
fn directive(line: &[u8]) -> Option<Statement<'_>>
    ensures some { IfSome result (λ r. (s : model.Statement) × Says line.now s
        × IsReadStatement r s) }
    ensures only { (s : model.Statement) → IsDirective s → Says line.now s
        → MatchOption result ⊥ (λ r. IsReadStatement r s) }
{
    if let Some(rest) = behind(line, b".segment ") {
        return segment(rest);
    }
    if let Some(digits) = behind(line, b".bytes ") {
        return bytes(digits);
    }
    if let Some(digits) = behind(line, b".word 0x") {
        return word(digits);
    }
    if let Some(digits) = behind(line, b".space ") {
        return space(digits);
    }
    if let Some(digits) = behind(line, b".zero ") {
        return zero(digits);
    }
    let name = behind(line, b".entry ")?;
    entry(name)
}

/// A number of bytes that are zero.
fn space(digits: &[u8]) -> Option<Statement<'_>>
    ensures some { IfSome result (λ r. (n : ℕ) × IsNumber 10 is_decimal_digit digits.now n
        × IsReadStatement r (model.Space n)) }
    ensures only { (n : ℕ) → IsNumber 10 is_decimal_digit digits.now n
        → MatchOption result ⊥ (λ r. IsReadStatement r (model.Space n)) }
{
    let count = number_of(digits, Base::Decimal)?;
    Some(Statement::Space { count })
}

/// A number of zeros past the bytes.
fn zero(digits: &[u8]) -> Option<Statement<'_>>
    ensures some { IfSome result (λ r. (n : ℕ) × IsNumber 10 is_decimal_digit digits.now n
        × IsReadStatement r (model.Zero n)) }
    ensures only { (n : ℕ) → IsNumber 10 is_decimal_digit digits.now n
        → MatchOption result ⊥ (λ r. IsReadStatement r (model.Zero n)) }
{
    let count = number_of(digits, Base::Decimal)?;
    Some(Statement::Zero { count })
}

/// The name of the entry.
fn entry(name: &[u8]) -> Option<Statement<'_>>
    ensures some { IfSome result (λ r. (is_name name.now ≡ true)
        × IsReadStatement r (model.Entry name.now)) }
    ensures only { is_name name.now ≡ true
        → MatchOption result ⊥ (λ r. IsReadStatement r (model.Entry name.now)) }
{
    if is_name(name) {
        Some(Statement::Entry { name })
    } else {
        None
    }
}

/// The permissions of a segment, and what stands after their word and a space.
fn kind_then(text: &[u8]) -> Option<(u32, &[u8])>
    ensures some { IfSome result (λ p. (kind : List ℕ) × IsKind kind p.0
        × (text.now ≡ kind ++ (codes " " ++ p.1.now))) }
    ensures only { (kind rest : List ℕ) (flags : ℕ) → IsKind kind flags
        → text.now ≡ kind ++ (codes " " ++ rest)
        → MatchOption result ⊥ (λ p. (p.0 ≡ flags) × (p.1.now ≡ rest)) }
{
    if let Some(rest) = behind(text, b"r ") {
        return Some((4, rest));
    }
    if let Some(rest) = behind(text, b"rx ") {
        return Some((5, rest));
    }
    let rest = behind(text, b"rw ")?;
    Some((6, rest))
}

/// The permissions and the address of a segment.
fn segment(text: &[u8]) -> Option<Statement<'_>>
    ensures some { IfSome result (λ s. (kind digits : List ℕ) × (flags start : ℕ)
        × IsKind kind flags × IsNumber 16 is_hexadecimal_digit digits start
        × (text.now ≡ kind ++ (codes " 0x" ++ digits))
        × IsReadStatement s (model.Segment flags start)) }
    ensures only { (kind digits : List ℕ) (flags start : ℕ) → IsKind kind flags
        → IsNumber 16 is_hexadecimal_digit digits start
        → text.now ≡ kind ++ (codes " 0x" ++ digits)
        → MatchOption result ⊥ (λ s. IsReadStatement s (model.Segment flags start)) }
{
    let (flags, rest) = kind_then(text)?;
    let digits = behind(rest, b"0x")?;
    let start = number_of(digits, Base::Hexadecimal)?;
    Some(Statement::Segment { flags, start })
}

/// Bytes of two digits each.
fn bytes(digits: &[u8]) -> Option<Statement<'_>>
    ensures some { IfSome result (λ s. (bs : List ℕ) × SaysDigits digits.now bs
        × IsReadStatement s (model.Bytes bs)) }
    ensures only { (bs : List ℕ) → SaysDigits digits.now bs
        → MatchOption result ⊥ (λ s. IsReadStatement s (model.Bytes bs)) }
{
    let length = digits.len();
    if length % 2 != 0 {
        return None;
    }
    if length == 0 {
        return None;
    }
    if length > 2 * MOST_BYTES {
        return None;
    }
    if !are_digits(digits, Base::Hexadecimal) {
        return None;
    }
    Some(Statement::Bytes { digits })
}

/// A word of eight digits.
fn word(digits: &[u8]) -> Option<Statement<'_>>
    ensures some { IfSome result (λ s. (w : ℕ) × (w < 2 ^ 32) × (digits.now ≡ word_digits w)
        × IsReadStatement s (model.Word w)) }
    ensures only { (w : ℕ) → w < 2 ^ 32 → digits.now ≡ word_digits w
        → MatchOption result ⊥ (λ s. IsReadStatement s (model.Word w)) }
{
    if digits.len() != WORD_DIGITS {
        return None;
    }
    if !are_digits(digits, Base::Hexadecimal) {
        return None;
    }
    let word = value_of(digits, Base::Hexadecimal);
    Some(Statement::Word { word })
}
