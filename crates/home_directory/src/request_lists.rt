//! The requests that wait at a home.
//!
//! They stand in one array of 32 places. The requests for one block form a list through the array,
//! and so do the empty places: each place has the number of the next. So a request joins its
//! block's list, and the first of a list leaves it, in constant time.

ghost use Rattle.std.specs.Prelude.{◌≡◌, ◌<◌, false, [], IfOk, length, nat_le};
ghost use Rattle.home_directory.specs.Home.{waits};
ghost use Rattle.home_directory.specs.Effects.{requests_for};
ghost use Rattle.home_directory.specs.Lists.{IsFirstTaken, HasJoined};

use crate::directory::Request;
use block_layout::Block;
use std::alloc::{AllocError, Global};
use std::marker::Model;

/// How many requests may wait at a home.
const MOST_WAITING: u8 = 32;

/// A place for a request: it holds one, or is empty. It has the number of the next in its list.
#[derive(Drop)]
pub struct Slot {
    request: Option<Request>,
    next: Option<u8>,
}

/// The first and the last place of a list.
#[derive(Clone, Copy)]
pub struct ListEnds {
    first: u8,
    last: u8,
}

/// The list of a block's requests, and which nodes have one in it.
#[derive(Clone, Copy)]
pub struct BlockList {
    ends: Option<ListEnds>,
    asked: [bool; 16],
}

/// The requests that wait at a home. Contracts see for how many blocks there is a list, and the
/// requests, where those for one block stand in order of arrival.
#[derive(Drop)]
pub struct RequestLists {
    places: Vec<Slot>,
    lists: Vec<BlockList>,
    empty: Option<u8>,
    len: u8,
}

impl Model for RequestLists {
    ghost use Rattle.std.specs.Prelude.{length};
    ghost use Rattle.home_directory.specs.Lists.{Requests as Seen, IsKept, all_of};

    ghost Value = { Seen };

    ghost view = { λ w. record {
      blocks = length w.lists.items;
      requests = all_of w.places.items w.lists.items;
    } };

    ghost invariant = { λ w. IsKept w.places.items w.lists.items w.empty w.len };
}

impl RequestLists {
    /// Room for the requests of so many blocks: none waits.
    pub fn new(alloc: Global, blocks: u32) -> Result<RequestLists, AllocError>
        ensures { IfOk result (λ w. w ≡ record { blocks = blocks; requests = [] }) }
    {
        let mut places = Vec::with_capacity(alloc, MOST_WAITING as usize)?;
        let mut empty = None;
        for place in 0..MOST_WAITING {
            places.push_reserved(Slot {
                request: None,
                next: empty,
            });
            empty = Some(place);
        }
        let mut lists = Vec::new(alloc);
        let list = BlockList {
            ends: None,
            asked: [false; 16],
        };
        lists.resize(blocks as usize, list)?;
        Ok(RequestLists {
            places,
            lists,
            empty,
            len: 0,
        })
    }

    /// How many requests wait.
    pub fn len(&self) -> u8
        ensures { result ≡ length self.now.requests }
    {
        self.len
    }

    /// Whether 32 requests wait.
    pub fn is_full(&self) -> bool
        ensures { result ≡ nat_le 32 (length self.now.requests) }
    {
        self.len >= MOST_WAITING
    }

    /// Whether a request of a node for a block waits.
    pub fn has(&self, block: Block, from: u8) -> bool
        requires block { block < self.now.blocks }
        requires node { from < 16 }
        ensures { result ≡ waits (requests_for block self.now.requests) from }
    {
        self.lists[block as usize].asked[from as usize]
    }

    /// Puts a request behind those for its block.
    pub fn join(&mut self, request: Request)
        requires block { request.block < self.old.blocks }
        requires node { request.from < 16 }
        requires room { length self.old.requests < 32 }
        requires once { waits (requests_for request.block self.old.requests) request.from ≡ false }
        ensures joined { HasJoined self.old.requests self.new.requests request }
        ensures blocks { self.new.blocks ≡ self.old.blocks }
    {
        let block = request.block;
        let from = request.from;
        let number = match self.empty {
            Some(number) => number,
            None => unreachable!(),
        };
        let place = &mut self.places[number as usize];
        self.empty = place.next;
        *place = Slot {
            request: Some(request),
            next: None,
        };
        let list = &mut self.lists[block as usize];
        list.asked[from as usize] = true;
        let first = match list.ends {
            None => number,
            Some(ends) => {
                self.places[ends.last as usize].next = Some(number);
                ends.first
            }
        };
        list.ends = Some(ListEnds {
            first,
            last: number,
        });
        self.len += 1;
    }

    /// Takes the first request for a block out of its list.
    pub fn take_first(&mut self, block: Block) -> Option<Request>
        requires { block < self.old.blocks }
        ensures first { IsFirstTaken block self.old.requests self.new.requests result }
        ensures blocks { self.new.blocks ≡ self.old.blocks }
    {
        let list = &mut self.lists[block as usize];
        let ends = match list.ends {
            Some(ends) => ends,
            None => return None,
        };
        let place = &mut self.places[ends.first as usize];
        let request = match place.request.take() {
            Some(request) => request,
            None => unreachable!(),
        };
        let next = place.next;
        place.next = self.empty;
        self.empty = Some(ends.first);
        list.asked[request.from as usize] = false;
        list.ends = match next {
            Some(first) => Some(ListEnds {
                first,
                last: ends.last,
            }),
            None => None,
        };
        self.len -= 1;
        Some(request)
    }
}
