//! How far a processor has got among the words of a region.

ghost use Rattle.std.specs.Prelude.{◌≡◌, ◌+◌, ◌%◌, ◌^◌, ◌<◌, ◌≤◌, true};
ghost use Rattle.one_memory.specs.Going.{place_of};

use std::marker::Model;

/// The index of a region's first word and how many words it has, the place of the next word in it,
/// and how many more words there may be. Contracts see these.
#[derive(Drop)]
pub struct Going {
    first: u32,
    count: usize,
    at: usize,
    /// The place where no more words may be executed, if none of them jumps.
    stop: usize,
    /// The lesser of that and the count.
    limit: usize,
}

impl Model for Going {
    ghost use Rattle.std.specs.Prelude.{◌+◌, ◌-◌, ◌^◌, ◌≤◌};
    ghost use Rattle.one_memory.specs.Going.{GoingParts};

    ghost Value = { GoingParts };

    ghost view = { λ g. record {
      extent = record { first = g.first; count = g.count };
      at = g.at;
      left = g.stop - g.at;
    } };

    ghost invariant = { λ g. (g.at ≤ g.stop) × (g.stop ≤ g.at + 2 ^ 62) × (g.limit ≤ g.stop)
        × (g.limit ≤ g.count) };
}

impl Going {
    /// From the word with an index on, in a region, where `left` words may follow.
    #[inline(always)]
    pub fn from(first: u32, count: usize, index: u32, left: u64) -> Going
        requires { left ≤ 2 ^ 62 }
        ensures extent { result.extent ≡ record { first = first; count = count } }
        ensures place { place_of result ≡ index }
        ensures left { result.left ≡ left }
    {
        let at = index.wrapping_sub(first) as usize;
        let stop = at + left as usize;
        Going {
            first,
            count,
            at,
            stop,
            limit: stop.min(count),
        }
    }

    /// Whether the region has the next word, and it may be executed.
    #[inline(always)]
    pub fn goes(&self) -> bool
        ensures room { result ≡ true → 0 < self.now.left }
        ensures within { result ≡ true → self.now.at < self.now.extent.count }
    {
        self.at < self.limit
    }

    /// The place of the next word.
    #[inline(always)]
    pub fn at(&self) -> usize
        ensures { result ≡ self.now.at }
    {
        self.at
    }

    /// How many more words there may be.
    #[inline(always)]
    pub fn left(&self) -> u64
        ensures { result ≡ self.now.left }
    {
        (self.stop - self.at) as u64
    }

    /// The index of the next word.
    #[inline(always)]
    pub fn index(&self) -> u32
        ensures { result ≡ place_of self.now }
    {
        self.first.wrapping_add((self.at % (1 << 32)) as u32)
    }

    /// A word was executed, and the next one follows.
    #[inline(always)]
    pub fn on(&mut self)
        requires { 0 < self.old.left }
        ensures extent { self.new.extent ≡ self.old.extent }
        ensures place { place_of self.new ≡ (place_of self.old + 1) % 2 ^ 32 }
        ensures left { self.new.left + 1 ≡ self.old.left }
    {
        self.at += 1;
    }

    /// A word was executed, and the word with an index follows.
    #[inline(always)]
    pub fn to(&mut self, index: u32)
        requires { 0 < self.old.left }
        ensures extent { self.new.extent ≡ self.old.extent }
        ensures place { place_of self.new ≡ index }
        ensures left { self.new.left + 1 ≡ self.old.left }
    {
        let left = self.stop - self.at - 1;
        self.at = index.wrapping_sub(self.first) as usize;
        self.stop = self.at + left;
        self.limit = self.stop.min(self.count);
    }
}
