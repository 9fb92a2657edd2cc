//! The commands of `monitor`, by their texts.

ghost use Rattle.std.specs.Prelude.{◌≡◌, ◌<◌, IfSome};
ghost use Rattle.gdb_session.specs.gdb_remote.Hexadecimal.{digit_value};
ghost use Rattle.recorded_run.specs.Commands as model;

/// An address has 32 bits: no digit may follow one from here on.
const LAST_DIGIT: u32 = 1 << 28;

/// A command of `monitor`.
#[derive(Clone, Copy)]
pub enum Command {
    /// Where the run and its nodes stand.
    Where,
    /// What was printed.
    Output,
    /// What the node of this number does, and what it waits for.
    Node(u8),
    /// What the home of this address' block keeps of it, and its state at each node.
    Block(u32),
    /// After the next word that wants a block.
    Miss,
    /// Back to before the last write of the byte at this address.
    BackToWrite(u32),
    Unknown,
}

/// The command that a text says.
pub(crate) fn command_of(text: &[u8]) -> Command
    ensures { result ≡ model.command_of text.now }
{
    if text == b"where".as_slice() {
        return Command::Where;
    }
    if text == b"output".as_slice() {
        return Command::Output;
    }
    if text == b"miss".as_slice() {
        return Command::Miss;
    }
    if let Some(command) = about_node(text) {
        return command;
    }
    if let Some(command) = about_block(text) {
        return command;
    }
    match about_write(text) {
        Some(command) => command,
        None => Command::Unknown,
    }
}

/// The command about a node that a text says, if it says one.
fn about_node(text: &[u8]) -> Option<Command>
    ensures { result ≡ model.about_node text.now }
{
    let rest = text.strip_prefix(b"node ")?;
    let node = node_of(rest)?;
    Some(Command::Node(node))
}

/// The command about a block that a text says, if it says one.
fn about_block(text: &[u8]) -> Option<Command>
    ensures { result ≡ model.about_block text.now }
{
    let rest = text.strip_prefix(b"block ")?;
    let address = address_of(rest)?;
    Some(Command::Block(address))
}

/// The command about a write that a text says, if it says one.
fn about_write(text: &[u8]) -> Option<Command>
    ensures { result ≡ model.about_write text.now }
{
    let rest = text.strip_prefix(b"back-to-write ")?;
    let address = address_of(rest)?;
    Some(Command::BackToWrite(address))
}

/// The value of a decimal digit.
fn digit_of(digit: u8) -> Option<u8>
    ensures { result ≡ model.digit_of digit }
{
    match digit {
        b'0'..=b'9' => Some(digit - b'0'),
        _ => None,
    }
}

/// The number that one or two decimal digits write.
fn node_of(text: &[u8]) -> Option<u8>
    ensures { result ≡ model.node_of text.now }
{
    if text.len() == 1 {
        return digit_of(text[0]);
    }
    if text.len() != 2 {
        return None;
    }
    let tens = digit_of(text[0])?;
    let ones = digit_of(text[1])?;
    Some(10 * tens + ones)
}

/// The address that hexadecimal digits after `0x` write.
fn address_of(text: &[u8]) -> Option<u32>
    ensures { result ≡ model.address_of text.now }
{
    let digits = text.strip_prefix(b"0x")?;
    number_of(digits)
}

/// The number that hexadecimal digits write, if it has at most 32 bits.
fn number_of(digits: &[u8]) -> Option<u32>
    ensures { result ≡ model.number_of digits.now }
{
    if digits.is_empty() {
        return None;
    }
    let mut number = 0u32;
    for digit in digits {
        if number >= LAST_DIGIT {
            return None;
        }
        number = 16 * number + u32::from(value_of(*digit)?);
    }
    Some(number)
}

/// The value of a hexadecimal digit, in either case.
fn value_of(digit: u8) -> Option<u8>
    ensures value { result ≡ digit_value digit }
    ensures small { IfSome result (λ v. v < 16) }
{
    match digit {
        b'0'..=b'9' => Some(digit - b'0'),
        b'a'..=b'f' => Some(digit - b'a' + 10),
        b'A'..=b'F' => Some(digit - b'A' + 10),
        _ => None,
    }
}
