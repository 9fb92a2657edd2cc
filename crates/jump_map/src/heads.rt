//! Where the words of each place begin, by a guess or by halving.

ghost use Rattle.std.specs.Prelude.{◌≡◌, ◌+◌, ◌<◌, ◌≤◌, ◌++◌, ◌∷◌, [], IfOk, OnOk, OnErr};
ghost use Rattle.std.specs.Prelude.{IfSome, Some};
ghost use Rattle.jump_map.specs.Heads.{start, start_of, head_start, single_start, end_of};
ghost use Rattle.jump_map.specs.Heads.{head_number};
ghost use Rattle.jump_map.specs.Image.{most_words};

use std::alloc::{AllocError, Global};
use std::marker::Model;

/// Where the words of a place begin: the number of the first, at its head, and that of the first of
/// its single sequence.
#[derive(Clone, Copy)]
pub(crate) struct PlaceStart {
    address: u32,
    head: u32,
    single: u32,
}

/// Where the words of each place begin. Contracts see the list of the places.
#[derive(Drop)]
pub(crate) struct PlaceIndex {
    starts: Vec<PlaceStart>,
}

impl Model for PlaceIndex {
    ghost use Rattle.std.specs.Prelude.{List};
    ghost use Rattle.jump_map.specs.declared.heads.PlaceStart.{PlaceStart};

    ghost Value = { List PlaceStart };

    ghost use Rattle.jump_map.specs.Heads.{Ascends};

    ghost view = { λ i. i.starts.items };

    ghost invariant = { λ i. Ascends 0 i.starts.items };
}

impl PlaceIndex {
    /// No place as yet, and room for `places` places.
    pub(crate) fn with_capacity(alloc: Global, places: usize) -> Result<PlaceIndex, AllocError>
        ensures value { IfOk result (λ index. index ≡ []) }
    {
        Ok(PlaceIndex {
            starts: Vec::with_capacity(alloc, places)?,
        })
    }

    /// Appends a place, which is above the last one.
    pub(crate) fn push(&mut self, address: u32, head: u32, single: u32) -> Result<(), AllocError>
        requires above { end_of self.old ≤ address }
        requires head { head ≤ most_words }
        requires single { single ≤ most_words }
        ensures ok { OnOk result (self.new ≡ self.old ++ start address head single ∷ []) }
        ensures err { OnErr result (self.new ≡ self.old) }
    {
        self.starts.push(PlaceStart {
            address,
            head,
            single,
        })?;
        Ok(())
    }

    /// The number of the first word of a place; None where the address is no place.
    pub(crate) fn head(&self, address: u32) -> Option<u32>
        ensures value { result ≡ head_start self.now address }
        ensures low { IfSome result (λ k. k ≤ most_words) }
    {
        match self.find(address) {
            Some(start) => Some(start.head),
            None => None,
        }
    }

    /// The number of the first word of a place's single sequence; None where the address is no
    /// place.
    pub(crate) fn single(&self, address: u32) -> Option<u32>
        ensures value { result ≡ single_start self.now address }
        ensures low { IfSome result (λ k. k ≤ most_words) }
    {
        match self.find(address) {
            Some(start) => Some(start.single),
            None => None,
        }
    }

    /// Where the words of a place begin, where no gap is between the first place and this one; else
    /// None.
    fn guess(&self, address: u32) -> Option<PlaceStart>
        ensures value { IfSome result (λ s. Some s ≡ start_of self.now address) }
        ensures head { IfSome result (λ s. s.head ≤ most_words) }
        ensures single { IfSome result (λ s. s.single ≤ most_words) }
    {
        let first = self.starts.first()?;
        let k = (address.wrapping_sub(first.address) / 4) as usize;
        let start = self.starts.get(k)?;
        if start.address == address {
            Some(*start)
        } else {
            None
        }
    }

    /// Where the words of a place begin; None where the address is no place.
    fn find(&self, address: u32) -> Option<PlaceStart>
        ensures value { result ≡ start_of self.now address }
        ensures head { IfSome result (λ s. s.head ≤ most_words) }
        ensures single { IfSome result (λ s. s.single ≤ most_words) }
    {
        if let Some(start) = self.guess(address) {
            return Some(start);
        }
        match self.starts.binary_search_by_key(&address, |s| s.address) {
            Ok(k) => Some(self.starts[k]),
            Err(_) => None,
        }
    }
}

/// Where the words of each place begin, and how many words there are.
#[derive(Drop)]
pub(crate) struct Heads {
    index: PlaceIndex,
    total: u32,
}

impl Model for Heads {
    ghost use Rattle.std.specs.Prelude.{◌≤◌};
    ghost use Rattle.jump_map.specs.HeadsValue.{HeadsValue};

    ghost Value = { HeadsValue };

    ghost use Rattle.jump_map.specs.Image.{most_words};

    ghost view = { λ h. record { starts = h.index; total = h.total } };

    ghost invariant = { λ h. h.total ≤ most_words };
}

impl Heads {
    /// The places of a plan of `total` words.
    pub(crate) fn new(index: PlaceIndex, total: u32) -> Heads
        requires few { total ≤ most_words }
        ensures value { result ≡ record { starts = index; total = total } }
    {
        Heads { index, total }
    }

    /// The number of the first word of a place; of an address that is none, that of all words.
    pub(crate) fn number(&self, address: u32) -> u32
        ensures value { result ≡ head_number self.now address }
        ensures few { result ≤ most_words }
    {
        match self.index.head(address) {
            Some(word) => word,
            None => self.total,
        }
    }

    /// The number of all words.
    pub(crate) fn total(&self) -> u32
        ensures value { result ≡ self.now.total }
    {
        self.total
    }

    /// The places alone.
    pub(crate) fn into_index(self) -> PlaceIndex
        ensures value { result ≡ self.starts }
    {
        self.index
    }
}
