//! Numbers, and addresses.

ghost use Rattle.std.specs.Prelude.{◌≡◌, ◌≢◌, ◌++◌, ℕ, List, MatchOption, codes};
ghost use Rattle.command_line.specs.Asks.{IsAddress, IsNumber, most_digits};

/// The most hexadecimal digits of an address.
const MOST_ADDRESS_DIGITS: usize = 8;

/// The number from `low` to `high` that decimal digits write: 1 to 10 of them, or 1 to 17 where
/// `high` is greater than 2^32.
pub(crate) fn number_of(text: &str, low: u64, high: u64) -> Option<u64>
    ensures { MatchOption result ((n : ℕ) → IsNumber low high text.now n → ⊥)
        (λ n. IsNumber low high text.now n) }
{
    if text.len() > most_digits(high) || text.starts_with('+') {
        return None;
    }
    match text.parse::<u64>() {
        Ok(number) if low <= number && number <= high => Some(number),
        _ => None,
    }
}

/// The most digits of a number that is at most `high`.
fn most_digits(high: u64) -> usize
    ensures { result ≡ most_digits high }
{
    if high <= 1 << 32 { 10 } else { 17 }
}

/// The address that 1 to 8 hexadecimal digits after `0x` write.
pub(crate) fn address_of(text: &str) -> Option<u32>
    ensures { MatchOption result ((a : ℕ) → IsAddress text.now a → ⊥)
        (λ a. IsAddress text.now a) }
{
    let digits = behind_mark(text)?;
    if digits.len() > MOST_ADDRESS_DIGITS || digits.starts_with('+') {
        return None;
    }
    match u32::from_str_radix(digits, 16) {
        Ok(address) => Some(address),
        Err(_) => None,
    }
}

/// What stands after `0x`.
fn behind_mark(text: &str) -> Option<&str>
    ensures { MatchOption result ((digits : List ℕ) → text.now ≢ codes "0x" ++ digits)
        (λ digits. text.now ≡ codes "0x" ++ digits.now) }
{
    text.strip_prefix("0x")
}
