//! Packets, as they are sent.

ghost use Rattle.std.specs.Prelude.{◌≡◌, ◌++◌, OnOk};
ghost use Rattle.gdb_remote.specs.Frames.{checksum, escape_of, framed};

use crate::hexadecimal::push_byte;
use std::alloc::{AllocError, Global};

/// What a byte after it is escaped by.
pub(crate) const ESCAPE: u8 = b'}';

/// The bit in which an escaped byte differs.
pub(crate) const ESCAPE_BIT: u8 = 32;

/// The sum of the bytes, modulo 256.
fn checksum(sent: &[u8]) -> u8
    ensures { result ≡ checksum sent.now }
{
    let mut total = 0u8;
    for byte in sent {
        total = total.wrapping_add(*byte);
    }
    total
}

/// Appends the packet of a body.
pub fn push_framed(alloc: Global, out: &mut Vec<u8>, body: &[u8]) -> Result<(), AllocError>
    ensures { OnOk result (out.new.items ≡ out.old.items ++ framed body.now) }
{
    let mut sent = Vec::new(alloc);
    for byte in body {
        push_escaped(&mut sent, *byte)?;
    }
    out.push(b'$')?;
    out.extend_from_slice(&sent)?;
    out.push(b'#')?;
    push_byte(out, checksum(&sent))
}

/// Appends one byte of a body.
fn push_escaped(out: &mut Vec<u8>, byte: u8) -> Result<(), AllocError>
    ensures { OnOk result (out.new.items ≡ out.old.items ++ escape_of byte) }
{
    if byte == b'#' || byte == b'$' || byte == b'*' || byte == ESCAPE {
        out.push(ESCAPE)?;
        out.push(byte ^ ESCAPE_BIT)?;
        return Ok(());
    }
    out.push(byte)?;
    Ok(())
}
