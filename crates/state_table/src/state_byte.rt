//! What the state byte of a line says.

ghost use Rattle.std.specs.Prelude.{◌≡◌};
ghost use Rattle.state_table.specs.StateByte.{is_fixed_state, is_mapped_state};
ghost use Rattle.state_table.specs.StateByte.{is_readable_state, is_writable_state};

use crate::{EXCLUSIVE, READ_ONLY, UNMAPPED};

/// The bit that is set in the byte of each line that the node may not read.
const UNREADABLE: u8 = 2;

/// Whether a line with this state byte is mapped.
#[inline(always)]
pub fn is_mapped(state: u8) -> bool
    ensures { result ≡ is_mapped_state state }
{
    state != UNMAPPED
}

/// Whether a line with this state byte may be read.
#[inline(always)]
pub fn is_readable(state: u8) -> bool
    ensures { result ≡ is_readable_state state }
{
    state & UNREADABLE == 0
}

/// Whether a line with this state byte may not be written by anyone.
#[inline(always)]
pub fn is_fixed(state: u8) -> bool
    ensures { result ≡ is_fixed_state state }
{
    state == READ_ONLY || state == UNMAPPED
}

/// Whether a line with this state byte may be written.
#[inline(always)]
pub fn is_writable(state: u8) -> bool
    ensures { result ≡ is_writable_state state }
{
    state == EXCLUSIVE
}
