//! The places of a program, and where the words of rewritten code stand.

ghost use Rattle.std.specs.Prelude.{◌≡◌, ◌+◌, ◌%◌, ◌*◌, ◌^◌, ◌<◌, ◌≤◌, ◌++◌, length, IfOk, OnOk};
ghost use Rattle.std.specs.List.Sorted.{IsStrictlyIncreasing};
ghost use Rattle.rv32_program.specs.Targets.{aligned, aligned_target};
ghost use Rattle.templates.specs.Code.{Ascends, code_of};
ghost use Rattle.templates.specs.Places.{HasPlaces};
ghost use Rattle.templates.specs.Candidates.{places_of, candidates};

use crate::code::{Code, CodeWord};
use rv32_decode::Instr;
use std::alloc::{AllocError, Global};

/// A part of a place's sequences.
#[derive(Clone, Copy, PartialEq, Eq)]
pub enum Part {
    /// The sequence of the place by itself.
    Single,
    /// The check of a run of accesses that starts at the place.
    Head,
    /// The run's own words after one check.
    Fast,
    /// The way from the check to the single sequences.
    Fallback,
}

/// Where a rewritten word stands: its place, the part there, and its number in the part, from 0. In
/// the fast part of a run each of the run's own words has its own address; every other word of a
/// batch has that of the run's first place.
#[derive(Clone, Copy, PartialEq, Eq)]
pub struct Place {
    pub address: u32,
    pub part: Part,
    pub word: u8,
}

/// The places of a program, ascending: its code words, and the stops next to them and where direct
/// jumps go.
pub fn list_places(alloc: Global, code: &Code) -> Result<Vec<u32>, AllocError>
    ensures ascending { IfOk result (λ v. IsStrictlyIncreasing v.items) }
    ensures places { IfOk result (λ v. HasPlaces (code_of code.now) v.items) }
    ensures few { IfOk result (λ v. length v.items ≤ 3 * 2 ^ 30) }
{
    let mut places = candidates(alloc, code.words())?;
    places.sort()?;
    places.dedup();
    Ok(places)
}

/// The places of code words, in any order, some of them more than once.
fn candidates(alloc: Global, words: &[CodeWord]) -> Result<Vec<u32>, AllocError>
    requires ascends { Ascends 0 words.now }
    ensures value { IfOk result (λ v. v.items ≡ candidates words.now) }
{
    let mut places = Vec::new(alloc);
    for word in words {
        push_places(word, &mut places)?;
    }
    Ok(places)
}

/// Appends the place of a code word, the one after it, and the one where it jumps.
fn push_places(word: &CodeWord, places: &mut Vec<u32>) -> Result<(), AllocError>
    requires { word.now.address + 4 < 2 ^ 32 }
    ensures { OnOk result (places.new.items ≡ places.old.items ++ places_of word.now) }
{
    places.push(word.address)?;
    places.push(word.address + 4)?;
    if let Some(target) = aligned_target(&word.instruction, word.address) {
        places.push(target)?;
    }
    Ok(())
}

/// Where a direct jump or branch goes, where that is a multiple of four.
pub(crate) fn aligned_target(i: &Instr, address: u32) -> Option<u32>
    ensures { result ≡ aligned_target i.now address }
{
    match i {
        Instr::Jal { offset, .. } => aligned(address.wrapping_add(offset.word())),
        Instr::Branch { offset, .. } => aligned(address.wrapping_add(offset.word())),
        _ => None,
    }
}

/// The address, where it is a multiple of four.
fn aligned(address: u32) -> Option<u32>
    ensures { result ≡ aligned address }
{
    if address % 4 == 0 {
        Some(address)
    } else {
        None
    }
}
