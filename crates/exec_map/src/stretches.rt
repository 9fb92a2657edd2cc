//! Numbers as a list of stretches, ascending.

ghost use Rattle.std.specs.Prelude.{◌≡◌, ◌+◌, ◌%◌, ◌<◌, ◌≤◌, ◌&&◌, ℕ, true, false, length, All};
ghost use Rattle.std.specs.Prelude.{AllPairs, IfOk, IfNone, IfSome};
ghost use Rattle.std.specs.List.{AllWithin};
ghost use Rattle.std.specs.List.Sorted.{IsNonDecreasingBy};
ghost use Rattle.exec_map.specs.Index.{AreNumberRanges, IsSome, IsOfWords, have};

use std::alloc::{AllocError, Global};

/// The numbers from a first one to before an end.
#[derive(Clone, Copy)]
pub struct NumberRange {
    pub first: u32,
    pub end: u32,
}

/// How many of the stretches end at or below a number.
fn ended(stretches: &[NumberRange], number: u32) -> usize
    requires { AreNumberRanges stretches.now }
    ensures ended { AllWithin (λ r. r.end ≤ number) stretches.now 0 result }
    ensures ahead { AllWithin (λ r. number < r.end) stretches.now result (length stretches.now) }
{
    stretches.partition_point(|r| r.end <= number)
}

/// Whether a number is in one of the stretches.
pub fn has(stretches: &[NumberRange], number: u32) -> bool
    requires { AreNumberRanges stretches.now }
    ensures { result ≡ have stretches.now number }
{
    let place = ended(stretches, number);
    match stretches.get(place) {
        Some(r) => r.first <= number,
        None => false,
    }
}

/// The least number of the stretches at or above another.
pub fn next(stretches: &[NumberRange], from: u32) -> Option<u32>
    requires { AreNumberRanges stretches.now }
    ensures from { IfSome result (λ n. from ≤ n) }
    ensures some { IfSome result (λ n. have stretches.now n ≡ true) }
    ensures least { IfSome result (λ n. (m : ℕ) → from ≤ m → m < n → have stretches.now m ≡ false) }
    ensures none { IfNone result ((m : ℕ) → from ≤ m → have stretches.now m ≡ false) }
    ensures whole { from % 4 ≡ 0 → All IsOfWords stretches.now → IfSome result (λ n. n % 4 ≡ 0) }
    ensures low { (end : ℕ) → All (λ r. r.end ≤ end) stretches.now → IfSome result (λ n. n < end) }
{
    let place = ended(stretches, from);
    let r = stretches.get(place)?;
    Some(from.max(r.first))
}

/// The numbers of some ranges, in the least number of ranges.
pub fn merged(alloc: Global, stretches: &[NumberRange]) -> Result<Vec<NumberRange>, AllocError>
    requires some { All IsSome stretches.now }
    requires sorted { IsNonDecreasingBy (λ r. r.first) stretches.now }
    ensures stretches { IfOk result (λ v. AreNumberRanges v.items) }
    ensures apart { IfOk result (λ v. AllPairs (λ r q. r.end < q.first) v.items) }
    ensures whole { All IsOfWords stretches.now → IfOk result (λ v. All IsOfWords v.items) }
    ensures numbers { (n : ℕ) → IfOk result (λ v. have v.items n ≡ have stretches.now n) }
{
    let mut merged = Vec::new(alloc);
    let Some((first, rest)) = stretches.split_first() else {
        return Ok(merged);
    };
    let mut last = *first;
    for r in rest {
        if r.first <= last.end {
            last = NumberRange {
                first: last.first,
                end: last.end.max(r.end),
            };
        } else {
            merged.push(last)?;
            last = *r;
        }
    }
    merged.push(last)?;
    Ok(merged)
}

/// The numbers that two lists of stretches have in common.
pub fn common(
    alloc: Global,
    left: &[NumberRange],
    right: &[NumberRange],
) -> Result<Vec<NumberRange>, AllocError>
    requires left { AreNumberRanges left.now }
    requires right { AreNumberRanges right.now }
    ensures stretches { IfOk result (λ v. AreNumberRanges v.items) }
    ensures whole { All IsOfWords left.now → All IsOfWords right.now
        → IfOk result (λ v. All IsOfWords v.items) }
    ensures numbers { (n : ℕ) → IfOk result (λ v.
        have v.items n ≡ have left.now n && have right.now n) }
{
    let mut common = Vec::new(alloc);
    let mut i = 0;
    let mut j = 0;
    while i < left.len() && j < right.len() {
        let first = left[i].first.max(right[j].first);
        let end = left[i].end.min(right[j].end);
        if first < end {
            common.push(NumberRange { first, end })?;
        }
        if left[i].end <= right[j].end {
            i += 1;
        } else {
            j += 1;
        }
    }
    Ok(common)
}
