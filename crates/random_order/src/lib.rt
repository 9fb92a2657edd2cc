#![tactic(auto)]
//! The order that a number makes: the choices of a run on one thread, one after another.

ghost use Rattle.std.specs.Prelude.{◌≡◌, ◌^◌, ◌<◌, ◌≤◌, ◌+◌, ◌/◌, ℕ, slice_index_or};
ghost use Rattle.random_order.specs.Orders.{following, choice, after_turns, how_often};

use std::marker::Model;

/// A sequence of choices. Contracts see its number.
///
/// The next choice is made before it is asked for, among as many as at the last time: so it is
/// known by the time that a caller needs it, where it chooses among as many again.
#[derive(Drop)]
pub struct Order {
    number: u32,
    /// The number that follows.
    ahead: u32,
    /// Among how many the next choice was made.
    count: u32,
    /// The next choice among a number of places.
    place: u32,
}

impl Model for Order {
    ghost use Rattle.std.specs.Prelude.{ℕ, ◌<◌, ◌^◌, ◌≡◌, ◌≤◌};
    ghost use Rattle.random_order.specs.Orders.{following, choice};

    ghost Value = { ℕ };

    ghost view = { λ o. o.number };

    ghost invariant = { λ o. (o.number < 2 ^ 32)
        × (o.ahead ≡ following o.number)
        × (1 ≤ o.count)
        × (o.place ≡ choice o.count o.ahead) };
}

/// The order that begins with a number.
pub fn order_of(number: u32) -> Order
    ensures { result ≡ number }
{
    let ahead = after(number);
    Order {
        number,
        ahead,
        count: 1,
        place: 0,
    }
}

impl Order {
    /// The next choice among `count`, from 0 on.
    #[inline]
    pub fn next(&mut self, count: u32) -> u32
        requires some { 1 ≤ count }
        requires few { count ≤ 65536 }
        ensures goes_on { self.new ≡ following self.old }
        ensures chooses { result ≡ choice count (following self.old) }
        ensures among { result < count }
    {
        let place = if count == self.count {
            self.place
        } else {
            choose(self.ahead, count)
        };
        let ahead = after(self.ahead);
        self.number = self.ahead;
        self.ahead = ahead;
        self.count = count;
        self.place = choose(ahead, count);
        place
    }

    /// Goes on by `turns` turns, as if the next choice had been asked for as often. The map of
    /// twice as many turns is the map made twice, so this takes a step for each bit of `turns`.
    pub fn skip(&mut self, turns: u64)
        ensures goes_on { self.new ≡ after_turns turns self.old }
    {
        let mut left = turns;
        let mut factor = FACTOR;
        let mut step = STEP;
        let mut number = self.number;
        while left > 0 {
            if left % 2 == 1 {
                number = number.wrapping_mul(factor).wrapping_add(step);
            }
            step = factor.wrapping_mul(step).wrapping_add(step);
            factor = factor.wrapping_mul(factor);
            left /= 2;
        }
        let ahead = after(number);
        self.number = number;
        self.ahead = ahead;
        self.place = choose(ahead, self.count);
    }

    /// How often the next `turns` turns choose each place among `count`. The order stays where it
    /// is.
    pub fn tally(&self, turns: u32, count: u32) -> [u32; 16]
        requires some { 1 ≤ count }
        requires few { count ≤ 16 }
        ensures often { (place : ℕ) → place < 16
            → slice_index_or result place 0 ≡ how_often place count turns self.now }
    {
        match count {
            2 => tally_known(self.number, turns, 2),
            4 => tally_known(self.number, turns, 4),
            8 => tally_known(self.number, turns, 8),
            16 => tally_known(self.number, turns, 16),
            _ => tally_any(self.number, turns, count),
        }
    }

    /// How many turns, at most `most`, choose a place among `count` no more often than `times`.
    pub fn turns_until(&self, place: u32, times: u64, count: u32, most: u32) -> u32
        requires some { 1 ≤ count }
        ensures most { result ≤ most }
        ensures within { how_often place count result self.now ≤ times }
    {
        let reciprocal = reciprocal_of(count);
        let mut number = self.number;
        let mut often = 0;
        for turn in 0..most {
            number = after(number);
            if choose_by(number, count, reciprocal) == place {
                if often == times {
                    return turn;
                }
                often += 1;
            }
        }
        most
    }
}

/// The number that follows a number.
#[inline(always)]
pub fn after(number: u32) -> u32
    ensures { result ≡ following number }
{
    number.wrapping_mul(FACTOR).wrapping_add(STEP)
}

/// The number that follows the one that follows a number.
#[inline(always)]
#[tactic(auto, using(crate::proofs::Turns::two_turns))]
fn after_two(number: u32) -> u32
    ensures { result ≡ following (following number) }
{
    number.wrapping_mul(FACTOR_TWICE).wrapping_add(STEP_TWICE)
}

/// How often the turns after a number choose each place among `count`, which is known where the
/// call stands: a remainder by a power of two is then a mask. Each number is made from the last but
/// one, so two of them are under way at a time.
#[inline(always)]
fn tally_known(number: u32, turns: u32, count: u32) -> [u32; 16]
    requires some { 1 ≤ count }
    requires few { count ≤ 16 }
    ensures often { (place : ℕ) → place < 16
        → slice_index_or result place 0 ≡ how_often place count turns number }
{
    let mut tally = [0; 16];
    let mut next = after(number);
    let mut second = after(next);
    for _turn in 0..turns {
        tally[choose(next, count) as usize] += 1;
        let third = after_two(next);
        next = second;
        second = third;
    }
    tally
}

/// How often each place is chosen among any count, by its reciprocal.
fn tally_any(number: u32, turns: u32, count: u32) -> [u32; 16]
    requires some { 1 ≤ count }
    requires few { count ≤ 16 }
    ensures often { (place : ℕ) → place < 16
        → slice_index_or result place 0 ≡ how_often place count turns number }
{
    let reciprocal = reciprocal_of(count);
    let mut tally = [0; 16];
    let mut next = after(number);
    let mut second = after(next);
    for _turn in 0..turns {
        tally[choose_by(next, count, reciprocal) as usize] += 1;
        let third = after_two(next);
        next = second;
        second = third;
    }
    tally
}

/// What a number chooses among `count`.
#[inline(always)]
fn choose(number: u32, count: u32) -> u32
    requires { 1 ≤ count }
    ensures { result ≡ choice count number }
{
    (number >> 16) % count
}

/// What a number is multiplied by in place of a division by `count`.
fn reciprocal_of(count: u32) -> u64
    requires some { 1 ≤ count }
    ensures { result ≡ 2 ^ 32 / count + 1 }
{
    (1 << 32) / count as u64 + 1
}

/// What a number chooses among `count`, by its reciprocal: a multiplication takes less time than a
/// division.
#[inline(always)]
fn choose_by(number: u32, count: u32, reciprocal: u64) -> u32
    requires some { 1 ≤ count }
    requires reciprocal { reciprocal ≡ 2 ^ 32 / count + 1 }
    ensures { result ≡ choice count number }
{
    let upper = (number >> 16) as u64;
    let quotient = (upper * reciprocal) >> 32;
    (upper - quotient * count as u64) as u32
}

/// What a number is multiplied by to make the one that follows.
const FACTOR: u32 = 1_664_525;

/// What is added then.
const STEP: u32 = 1_013_904_223;

/// What a number is multiplied by to make the one after two turns.
const FACTOR_TWICE: u32 = 389_569_705;

/// What is added then.
const STEP_TWICE: u32 = 1_196_435_762;
