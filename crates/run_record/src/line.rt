//! A line of a record's text, taken apart.

ghost use Rattle.std.specs.Prelude.{◌≡◌, ℕ, ◌==◌, ◌<◌, ◌≤◌, ◌^◌, ◌++◌, Bool, false, List, codes};
ghost use Rattle.std.specs.Prelude.{length, position, IfSome, MatchOption, Option, Some};
ghost use Rattle.std.specs.Fmt.{decimal, digit_glyph};
ghost use Rattle.rv32_text.specs.Listing.{word_digits};
ghost use Rattle.block_layout.specs.declared.layout.BlockRange.{BlockRange as Ranges};
ghost use Rattle.run_record.specs.Reading.{IsNumberThen, IsPlaceThen};
ghost use Rattle.run_record.specs.Rules.{HasNumber, HasRange, HasTake};
ghost use Rattle.run_record.specs.Text as model;
ghost use Rattle.run_record.specs.declared.line.TakeLine.{TakeLine as TakeLines};

use block_layout::BlockRange;
use itoa::Buffer;

/// No number of a record is as high.
pub(crate) const NUMBER_END: u64 = 1 << 63;

/// The highest block size that five digits write.
const MOST_BLOCK: u64 = 99_999;

/// The highest home that two digits write.
const MOST_HOME: u64 = 99;

/// The digits of an address.
const ADDRESS_DIGITS: usize = 8;

/// What a line of a take says. The sender may be no node.
#[derive(Clone, Copy)]
pub struct TakeLine {
    /// The stamp in the first version, and in the second how far the stamp is above the least that
    /// the take may have.
    pub stamp_or_gap: u64,
    pub from: u64,
    pub words: u64,
}

/// What stands after a word.
fn behind<'a>(text: &'a [u8], word: &[u8]) -> Option<&'a [u8]>
    ensures some { IfSome result (λ r. text.now ≡ word.now ++ r.now) }
    ensures only { (rest : List ℕ) → text.now ≡ word.now ++ rest
        → MatchOption result ⊥ (λ r. r.now ≡ rest) }
{
    text.strip_prefix(word)
}

/// The text without the line feed at its end.
fn without_line_feed(text: &[u8]) -> Option<&[u8]>
    ensures some { IfSome result (λ r. text.now ≡ r.now ++ codes "\n") }
    ensures only { (front : List ℕ) → text.now ≡ front ++ codes "\n"
        → MatchOption result ⊥ (λ r. r.now ≡ front) }
{
    text.strip_suffix(b"\n")
}

/// The place of the first space.
fn space_in(text: &[u8]) -> Option<usize>
    ensures { result ≡ position (λ c. c == 32) text.now }
{
    text.iter().position(|byte| *byte == b' ')
}

/// The number of a text that has exactly the digits that would be written of it.
fn number_of(digits: &[u8]) -> Option<u64>
    ensures some { IfSome result (λ n. (digits.now ≡ decimal n) × (n < 2 ^ 63)) }
    ensures only { (n : ℕ) → n < 2 ^ 63 → digits.now ≡ decimal n → result ≡ Some n }
{
    let Ok(text) = std::str::from_utf8(digits) else {
        return None;
    };
    let Ok(number) = text.parse::<u64>() else {
        return None;
    };
    let mut buffer = Buffer::new();
    if buffer.format(number).as_bytes() != digits || number >= NUMBER_END {
        return None;
    }
    Some(number)
}

/// The number of a line that has this word and a number.
pub(crate) fn number_line(line: &[u8], word: &[u8]) -> Option<u64>
    ensures some { IfSome result (HasNumber line.now word.now) }
    ensures only { (n : ℕ) → HasNumber line.now word.now n → result ≡ Some n }
{
    let ended = behind(line, word)?;
    let digits = without_line_feed(ended)?;
    number_of(digits)
}

/// The number after a word, and what stands from the next space on.
fn number_then<'a>(text: &'a [u8], word: &[u8]) -> Option<(u64, &'a [u8])>
    ensures some { IfSome result (λ p. IsNumberThen text.now word.now p.0 p.1.now) }
    ensures only { (n : ℕ) (rest : List ℕ) → IsNumberThen text.now word.now n rest
        → MatchOption result ⊥ (λ p. (p.0 ≡ n) × (p.1.now ≡ rest)) }
{
    let spaced = behind(text, word)?;
    let end = space_in(spaced)?;
    let (digits, rest) = spaced.split_at(end);
    let number = number_of(digits)?;
    Some((number, rest))
}

/// The value of a hexadecimal digit, in lower case.
fn hexadecimal_value(byte: u8) -> Option<u32>
    ensures some { IfSome result (λ v. (v < 16) × (byte ≡ digit_glyph false v)) }
    ensures only { (v : ℕ) → v < 16 → byte ≡ digit_glyph false v → result ≡ Some v }
{
    match byte {
        b'0'..=b'9' => Some(u32::from(byte - b'0')),
        b'a'..=b'f' => Some(u32::from(byte - b'a') + 10),
        _ => None,
    }
}

/// The address of eight hexadecimal digits.
fn address_of(digits: &[u8]) -> Option<u32>
    requires { length digits.now ≡ 8 }
    ensures some { IfSome result (λ n. digits.now ≡ word_digits n) }
    ensures only { (n : ℕ) → n < 2 ^ 32 → digits.now ≡ word_digits n → result ≡ Some n }
{
    let mut address = 0;
    for digit in digits {
        address = address * 16 + hexadecimal_value(*digit)?;
    }
    Some(address)
}

/// The address after a word, and what follows it.
fn place_then<'a>(text: &'a [u8], word: &[u8]) -> Option<(u32, &'a [u8])>
    ensures some { IfSome result (λ p. IsPlaceThen text.now word.now p.0 p.1.now) }
    ensures only { (n : ℕ) (rest : List ℕ) → IsPlaceThen text.now word.now n rest
        → MatchOption result ⊥ (λ p. (p.0 ≡ n) × (p.1.now ≡ rest)) }
{
    let place = behind(text, word)?;
    if place.len() < ADDRESS_DIGITS {
        return None;
    }
    let (digits, rest) = place.split_at(ADDRESS_DIGITS);
    let address = address_of(digits)?;
    Some((address, rest))
}

/// The home that the end of a range's line names: none for a star.
fn home_of(end: &[u8]) -> Option<Option<u8>>
    ensures some { IfSome result (λ h. (end.now ≡ model.home_end h) × IfSome h (λ n. n ≤ 99)) }
    ensures only { (h : Option ℕ) → IfSome h (λ n. n ≤ 99) → end.now ≡ model.home_end h
        → result ≡ Some h }
{
    if end == b" *\n".as_slice() {
        return Some(None);
    }
    let home = number_line(end, b" ")?;
    if home > MOST_HOME {
        return None;
    }
    Some(Some(home as u8))
}

/// The block size after a space, and the end of the line.
fn size_then(text: &[u8]) -> Option<(u32, &[u8])>
    ensures some { IfSome result (λ p. (p.0 ≤ 99999)
        × IsNumberThen text.now (codes " ") p.0 p.1.now) }
    ensures only { (n : ℕ) (rest : List ℕ) → n ≤ 99999
        → IsNumberThen text.now (codes " ") n rest
        → MatchOption result ⊥ (λ p. (p.0 ≡ n) × (p.1.now ≡ rest)) }
{
    let (block, rest) = number_then(text, b" ")?;
    if block > MOST_BLOCK {
        return None;
    }
    Some((block as u32, rest))
}

/// The range that a line names.
pub(crate) fn range_of(line: &[u8]) -> Option<BlockRange>
    ensures some { IfSome result (HasRange line.now) }
    ensures only { (r : Ranges) → HasRange line.now r → result ≡ Some r }
{
    let (start, from_length) = place_then(line, b"block 0x")?;
    let (length, from_size) = place_then(from_length, b" 0x")?;
    let (block, end) = size_then(from_size)?;
    let home = home_of(end)?;
    Some(BlockRange {
        start,
        length,
        block,
        home,
    })
}

/// What the line of a take says.
pub(crate) fn take_of(line: &[u8]) -> Option<TakeLine>
    ensures some { IfSome result (HasTake line.now) }
    ensures only { (t : TakeLines) → HasTake line.now t → result ≡ Some t }
{
    let (stamp_or_gap, from_sender) = number_then(line, b"take ")?;
    let (from, from_words) = number_then(from_sender, b" ")?;
    let words = number_line(from_words, b" ")?;
    Some(TakeLine {
        stamp_or_gap,
        from,
        words,
    })
}

/// Whether checks were batched, by the line that says it.
pub(crate) fn batch_of(line: &[u8]) -> Option<bool>
    ensures some { IfSome result (λ b. line.now ≡ model.batch_line b) }
    ensures only { (b : Bool) → line.now ≡ model.batch_line b → result ≡ Some b }
{
    if line == b"batch 0\n".as_slice() {
        return Some(false);
    }
    if line == b"batch 1\n".as_slice() {
        return Some(true);
    }
    None
}
