//! The first contents of the shared memory.

ghost use Rattle.std.specs.Prelude.{◌≡◌, map};
ghost use Rattle.flag_memory.specs.Ranges.{range_of};
ghost use Rattle.flag_memory.specs.FirstBytes.{AreFirstBytes};

use std::marker::Model;

/// Bytes from an address on.
#[derive(Clone, Copy)]
pub struct FirstRange<'a> {
    /// The address of the first byte.
    pub address: u32,
    /// The bytes.
    pub bytes: &'a [u8],
}

/// Ranges of bytes at addresses, ascending and without overlap. Contracts see the list of them.
#[derive(Drop)]
pub struct FirstBytes<'a> {
    items: Vec<FirstRange<'a>>,
}

impl<'a> Model for FirstBytes<'a> {
    ghost use Rattle.std.specs.Prelude.{List, map};
    ghost use Rattle.flag_memory.specs.Ranges.{range_of};
    ghost use Rattle.flag_memory.specs.FirstBytes.{FirstRange as Seen, AreFirstBytes};

    ghost Value = { List Seen };

    ghost view = { λ f. map range_of f.items.items };

    ghost invariant = { λ f. AreFirstBytes (map range_of f.items.items) };
}

impl<'a> FirstBytes<'a> {
    /// The ranges of a list. Takes no memory.
    pub fn new(items: Vec<FirstRange<'a>>) -> FirstBytes<'a>
        requires { AreFirstBytes (map range_of items.items) }
        ensures { result ≡ map range_of items.entry.items }
    {
        FirstBytes { items }
    }

    /// The ranges, ascending.
    pub fn as_slice(&self) -> &[FirstRange<'a>]
        ensures value { map range_of result.now ≡ self.now }
        ensures ranges { AreFirstBytes self.now }
    {
        &self.items
    }
}
