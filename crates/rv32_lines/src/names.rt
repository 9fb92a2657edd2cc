//! Names.

ghost use Rattle.std.specs.Prelude.{◌≡◌};
ghost use Rattle.std.specs.List.{list_all};
ghost use Rattle.rv32_lines.specs.Statements.{is_letter, is_name_byte, is_name};

/// The most bytes of a name.
const MOST_BYTES: usize = 31;

/// Whether a byte is a lower-case letter.
fn is_letter(byte: u8) -> bool
    ensures { result ≡ is_letter byte }
{
    b'a' <= byte && byte <= b'z'
}

/// Whether a byte may stand in a name after its first.
fn is_name_byte(byte: u8) -> bool
    ensures { result ≡ is_name_byte byte }
{
    is_letter(byte) || (b'0' <= byte && byte <= b'9') || byte == b'_'
}

/// Whether all bytes may stand in a name after its first.
fn are_name_bytes(text: &[u8]) -> bool
    ensures { result ≡ list_all is_name_byte text.now }
{
    text.iter().all(|byte| is_name_byte(*byte))
}

/// Whether a text is a name: 1 to 31 lower-case letters, digits and `_`, a letter first.
pub(crate) fn is_name(text: &[u8]) -> bool
    ensures { result ≡ is_name text.now }
{
    match text {
        [first, behind @ ..] => {
            is_letter(*first) && are_name_bytes(behind) && behind.len() < MOST_BYTES
        }
        [] => false,
    }
}
