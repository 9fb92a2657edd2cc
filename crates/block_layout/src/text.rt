//! A line of a layout's text.

ghost use Rattle.std.specs.Prelude.{◌≡◌, ℕ, ◌==◌, ◌≤◌, ◌<◌, ◌^◌, not, List, position, IfSome};
ghost use Rattle.std.specs.Prelude.{MatchOption, Option, Some};
ghost use Rattle.std.specs.Prelude.{length};
ghost use Rattle.std.specs.List.{list_all};
ghost use Rattle.std.specs.Str.Parse.{AllDigits, digits_value};
ghost use Rattle.block_layout.specs.Text.{HasFields, IsHexadecimal, IsDecimal, IsHomeWord};
ghost use Rattle.block_layout.specs.Text.{says_nothing};
ghost use Rattle.block_layout.specs.Parts.{SplitsAtGap, AreWords, AreFields};
ghost use Rattle.block_layout.specs.declared.layout.BlockRange.{BlockRange as Fields};

use crate::layout::BlockRange;

/// The most digits of an address or a length.
const MOST_ADDRESS_DIGITS: usize = 8;

/// The most digits of a block size.
const MOST_BLOCK_DIGITS: usize = 5;

/// The most digits of a home.
const MOST_HOME_DIGITS: usize = 2;

/// Whether a line has spaces alone.
fn is_blank(line: &[u8]) -> bool
    ensures { result ≡ list_all (λ c. c == 32) line.now }
{
    line.iter().all(|byte| *byte == b' ')
}

/// Whether a line says nothing.
pub(crate) fn says_nothing(line: &[u8]) -> bool
    ensures { result ≡ says_nothing line.now }
{
    is_blank(line) || line[0] == b'#'
}

/// The number that digits in a radix write, in either case: none where a byte is no such digit.
fn number_in(digits: &[u8], radix: u32) -> Option<u32>
    requires some { 2 ≤ radix }
    requires few { radix ≤ 36 }
    requires small { radix ^ length digits.now ≤ 2 ^ 32 }
    ensures { MatchOption result (AllDigits radix digits.now → ⊥)
        (λ n. AllDigits radix digits.now × (digits_value radix digits.now ≡ n)) }
{
    let mut number = 0;
    for byte in digits {
        let digit = char::from(*byte).to_digit(radix)?;
        number = number * radix + digit;
    }
    Some(number)
}

/// The number of a hexadecimal word.
fn hexadecimal(word: &[u8]) -> Option<u32>
    ensures some { IfSome result (IsHexadecimal word.now) }
    ensures only { (n : ℕ) → IsHexadecimal word.now n → result ≡ Some n }
{
    let digits = word.strip_prefix(b"0x")?;
    if digits.is_empty() || digits.len() > MOST_ADDRESS_DIGITS {
        return None;
    }
    number_in(digits, 16)
}

/// The number of a decimal word, which has at most `most` digits.
fn decimal(word: &[u8], most: usize) -> Option<u32>
    requires { most ≤ 5 }
    ensures some { IfSome result (IsDecimal most word.now) }
    ensures only { (n : ℕ) → IsDecimal most word.now n → result ≡ Some n }
    ensures low { IfSome result (λ n. n < 10 ^ most) }
{
    if word.is_empty() || word.len() > most {
        return None;
    }
    number_in(word, 10)
}

/// The home that a word names: none for a star.
fn home_of(word: &[u8]) -> Option<Option<u8>>
    ensures some { IfSome result (IsHomeWord word.now) }
    ensures only { (h : Option ℕ) → IsHomeWord word.now h → result ≡ Some h }
{
    if word == b"*".as_slice() {
        return Some(None);
    }
    let home = decimal(word, MOST_HOME_DIGITS)?;
    Some(Some(home as u8))
}

/// The place of the first space.
fn space_in(text: &[u8]) -> Option<usize>
    ensures { result ≡ position (λ c. c == 32) text.now }
{
    text.iter().position(|byte| *byte == b' ')
}

/// The place of the first byte that is no space.
fn mark_in(text: &[u8]) -> Option<usize>
    ensures { result ≡ position (λ c. not (c == 32)) text.now }
{
    text.iter().position(|byte| *byte != b' ')
}

/// A word, and what stands after the spaces that follow it.
fn split_word(text: &[u8]) -> Option<(&[u8], &[u8])>
    ensures some { IfSome result (λ p. SplitsAtGap text.now p.0.now p.1.now) }
    ensures only { (word rest : List ℕ) → SplitsAtGap text.now word rest
        → MatchOption result ⊥ (λ p. (p.0.now ≡ word) × (p.1.now ≡ rest)) }
{
    let end = space_in(text)?;
    let (word, behind) = text.split_at(end);
    let gap = mark_in(behind)?;
    Some((word, &behind[gap..]))
}

/// The words of a line.
#[derive(Clone, Copy)]
struct LineFields<'a> {
    start: &'a [u8],
    length: &'a [u8],
    block: &'a [u8],
    home: &'a [u8],
}

/// The four words of a line.
fn words_of(line: &[u8]) -> Option<LineFields<'_>>
    ensures some { IfSome result
        (λ w. AreWords line.now w.start.now w.length.now w.block.now w.home.now) }
    ensures only { (a b c d : List ℕ) → AreWords line.now a b c d → MatchOption result ⊥
        (λ w. (w.start.now ≡ a) × (w.length.now ≡ b) × (w.block.now ≡ c) × (w.home.now ≡ d)) }
{
    let (start, behind) = split_word(line)?;
    let (length, behind) = split_word(behind)?;
    let (block, home) = split_word(behind)?;
    Some(LineFields {
        start,
        length,
        block,
        home,
    })
}

/// The range that four words name.
fn range_of(start: &[u8], length: &[u8], block: &[u8], home: &[u8]) -> Option<BlockRange>
    ensures some { IfSome result (AreFields start.now length.now block.now home.now) }
    ensures only { (r : Fields) → AreFields start.now length.now block.now home.now r
        → result ≡ Some r }
{
    Some(BlockRange {
        start: hexadecimal(start)?,
        length: hexadecimal(length)?,
        block: decimal(block, MOST_BLOCK_DIGITS)?,
        home: home_of(home)?,
    })
}

/// The range that a line names. None exactly where the line isn't four fields.
pub(crate) fn fields_of(line: &[u8]) -> Option<BlockRange>
    ensures some { IfSome result (HasFields line.now) }
    ensures only { (r : Fields) → HasFields line.now r → result ≡ Some r }
{
    let words = words_of(line)?;
    range_of(words.start, words.length, words.block, words.home)
}
