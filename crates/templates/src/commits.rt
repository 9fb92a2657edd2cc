//! When a word of rewritten code commits a step of the original.

ghost use Rattle.std.specs.Prelude.{◌≡◌, List, find, length, option_copied};
ghost use Rattle.templates.specs.Code.{code_of};
ghost use Rattle.templates.specs.Runs.{code_from};
ghost use Rattle.templates.specs.Sequences.{SequenceItem, items_of, items_in, place_items};
ghost use Rattle.templates.specs.Sequences.{instruction_items};
ghost use Rattle.templates.specs.Commits.{is_word_of, IsCommitKind};
ghost use Rattle.templates.specs.Committing.{CommitsAt, IsLoadCommit, IsFlagLoadCommit, kind_at};

use crate::code::Code;
use crate::counting::{reload_count, spilled_count};
use crate::places::{Part, Place};
use crate::plans::{Plan, PlanEntry, Scratches, is_flag_checked};
use rv32_decode::{Instr, LoadKind, Reg};

/// When a word commits.
#[derive(Clone, Copy, PartialEq, Eq)]
pub enum CommitKind {
    Never,
    Always,
    /// Where the value that it loads isn't the flag word.
    IfNotFlag,
    /// Where it doesn't begin a wait.
    IfNoWait,
}

/// When the word at a place commits.
pub fn commit_at(plan: &Plan, code: &Code, place: Place) -> CommitKind
    ensures value { IsCommitKind plan.now code.now place result }
{
    match entry_of(plan.entries(), place) {
        Some(entry) => commit_in(entry, code, place.part, place.word),
        None => CommitKind::Never,
    }
}

/// The entry that a place's word belongs to.
fn entry_of(entries: &[PlanEntry], place: Place) -> Option<&PlanEntry>
    ensures value { option_copied result ≡ find (is_word_of place) entries.now }
{
    entries.iter().find(|e| is_word_of(e, place))
}

/// Whether a place's word is one of the entry's.
fn is_word_of(entry: &PlanEntry, place: Place) -> bool
    ensures value { result ≡ is_word_of place entry.now }
{
    match place.part {
        Part::Fast => {
            let behind = u64::from(entry.address) + 4 * u64::from(entry.run);
            entry.address <= place.address && u64::from(place.address) < behind
        }
        Part::Single | Part::Head | Part::Fallback => entry.address == place.address,
    }
}

/// When a word of a part of an entry's sequences commits.
fn commit_in(entry: &PlanEntry, code: &Code, part: Part, word: u8) -> CommitKind
    ensures value { result ≡ kind_at (items_in (code_of code.now) entry.now part) word }
{
    match part {
        Part::Single => commit_of(entry, code.at(entry.address), word),
        Part::Fast => commit_of_fast(entry, code, word),
        Part::Head | Part::Fallback => CommitKind::Never,
    }
}

/// When a word of the fast part of an entry's batch commits.
fn commit_of_fast(entry: &PlanEntry, code: &Code, word: u8) -> CommitKind
    ensures value { result ≡ kind_at (items_in (code_of code.now) entry.now Part.Fast) word }
{
    let first = reload_count(&entry.batch);
    if first <= word && word - first < words_of_run(code, entry.address, entry.run) {
        CommitKind::Always
    } else {
        CommitKind::Never
    }
}

/// The number of code words among `count` places, one after another.
fn words_of_run(code: &Code, address: u32, count: u8) -> u8
    ensures value { result ≡ length (code_from (code_of code.now) address count) }
{
    let mut words = 0;
    for k in 0..count {
        if code.behind(address, k).is_some() {
            words += 1;
        }
    }
    words
}

/// When a word of an entry's single sequence commits.
fn commit_of(entry: &PlanEntry, code: Option<Instr>, word: u8) -> CommitKind
    ensures value { result ≡ kind_at (items_of entry.now code) word }
{
    if !entry.polls {
        commit_of_place(entry.address, &entry.single, code, word)
    } else if word == 0 {
        CommitKind::Never
    } else {
        commit_of_place(entry.address, &entry.single, code, word - 1)
    }
}

/// When a word of a place's sequence commits, where no poll stands first.
fn commit_of_place(address: u32, scratches: &Scratches, code: Option<Instr>, word: u8) -> CommitKind
    ensures value { result ≡ kind_at (place_items address scratches.now code) word }
{
    match code {
        None => commit_of_one(0, CommitKind::Always, word),
        Some(i) => commit_of_instruction(address, scratches, &i, word),
    }
}

/// When a word of an instruction's sequence commits.
#[tactic(auto, using(crate::proofs::CommitLemmas::all_commits))]
fn commit_of_instruction(address: u32, scratches: &Scratches, i: &Instr, word: u8) -> CommitKind
    ensures value { result ≡ kind_at (instruction_items address scratches.now i.now) word }
{
    match i {
        Instr::Auipc { .. } => commit_of_one(1, CommitKind::Always, word),
        Instr::Jal { offset, .. } => {
            let target = address.wrapping_add(offset.word());
            let number = if target % 4 == 0 { 1 } else { 0 };
            commit_of_one(number, CommitKind::Always, word)
        }
        Instr::Load { kind, rd, rs1, .. } => commit_of_load(scratches, *kind, *rd, *rs1, word),
        Instr::Lr { .. } => commit_of_one(8 + spilled_count(scratches), CommitKind::Always, word),
        Instr::Sc { .. } => commit_of_one(1, CommitKind::Always, word),
        Instr::Store { .. } => {
            commit_of_one(7 + spilled_count(scratches), CommitKind::Always, word)
        }
        Instr::Amo { .. } => commit_of_one(7 + spilled_count(scratches), CommitKind::Always, word),
        Instr::Ecall => commit_of_one(0, CommitKind::IfNoWait, word),
        _ => commit_of_one(0, CommitKind::Always, word),
    }
}

/// When a word of a load's sequence commits.
fn commit_of_load(scratches: &Scratches, kind: LoadKind, rd: Reg, rs1: Reg, word: u8) -> CommitKind
    ensures value { IsLoadCommit scratches.now kind rd rs1 word result }
{
    if is_flag_checked(kind, rd, rs1) {
        commit_of_flag_load(scratches, word)
    } else {
        commit_of_one(8 + spilled_count(scratches), CommitKind::Always, word)
    }
}

/// When a word of a load's sequence commits, where that looks at its value.
fn commit_of_flag_load(scratches: &Scratches, word: u8) -> CommitKind
    ensures value { IsFlagLoadCommit scratches.now word result }
{
    let first = 2 + u8::from(scratches.s.spilled);
    if word == first {
        CommitKind::IfNotFlag
    } else if word == first + 4 {
        CommitKind::Always
    } else {
        CommitKind::Never
    }
}

/// When a word of a sequence commits that has one word of such a kind.
fn commit_of_one(number: u8, kind: CommitKind, word: u8) -> CommitKind
    ensures value { (items : List SequenceItem) →
        CommitsAt items number kind → result ≡ kind_at items word }
{
    if word == number {
        kind
    } else {
        CommitKind::Never
    }
}
