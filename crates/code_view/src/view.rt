//! The lines of rewritten code.

ghost use Rattle.std.specs.Prelude.{◌≡◌, ◌+◌, ◌^◌, ◌<◌, ◌≤◌, ◌++◌, [], length, IfOk, OnOk};
ghost use Rattle.exec_map.specs.Contents.{program_of};
ghost use Rattle.rv32_text.specs.Listing.{text_of_word};
ghost use Rattle.templates.specs.Code.{HasCode, code_of};
ghost use Rattle.templates.specs.Commits as model;
ghost use Rattle.templates.specs.Sequences.{batch_sequence};
ghost use Rattle.jump_map.specs.Image.{most_words};
ghost use Rattle.code_view.specs.Code.{head, padded, original_text, place_line, place_text};
ghost use Rattle.code_view.specs.Code.{cell_with, cell_line, word_line, word_lines, words_of};
ghost use Rattle.code_view.specs.Code.{numbers_text, notes_text, entry_text};
ghost use Rattle.code_view.specs.Code.{IsEntryShown};

use crate::names::{commit_mark, part_name};
use crate::plans::push_plan;
use crate::words::push_rewritten;
use exec_map::Program;
use jump_map::{IMAGE_BASE, Image};
use rv32_text::{push_word, push_word_text};
use std::alloc::{AllocError, Global};
use templates::{
    Code, CommitKind, Place, Plan, PlanEntry, batch_lengths, commit_at, sequence_length,
};

/// The lines that say what stands in the columns.
const HEAD: &str = concat!(
    "address   word     text                           ; template, scratch registers; run\n",
    "  address   word     place    part     c text\n",
    "c: * commits a step, ? unless the value is the flag, ~ unless it waits, . doesn't\n",
);

/// How many characters the text of a code word takes at least.
const TEXT_WIDTH: usize = 30;

/// What is shown: the rewriting of a program.
#[derive(Clone, Copy)]
pub struct CodeView<'a> {
    /// The program that was rewritten.
    pub program: &'a Program<'a>,
    /// Its code words.
    pub code: &'a Code,
    /// What is said of each place.
    pub plan: &'a Plan,
    /// The rewritten words.
    pub image: &'a Image,
}

impl<'a> CodeView<'a> {
    /// Appends what stands before the text of the first entry: the lines that explain the columns,
    /// and that of word 0.
    pub fn push_head(&self, alloc: Global, out: &mut Vec<u8>) -> Result<(), AllocError>
        requires code { HasCode (program_of self.now.program.now) self.now.code.now }
        ensures { OnOk result (out.new.items ≡ out.old.items ++ (head
            ++ word_line (program_of self.now.program.now) [] self.now.image.now 0)) }
    {
        let none = Plan::new(alloc);
        push_titles(out)?;
        self.push_word_line(&none, 0, out)?;
        Ok(())
    }

    /// Appends the line of an entry's place and those of its words. The first word has this number;
    /// the answer is the number of the word after the last.
    pub fn push_entry(
        &self,
        alloc: Global,
        entry: &PlanEntry,
        number: u32,
        out: &mut Vec<u8>,
    ) -> Result<u32, AllocError>
        requires shown { IsEntryShown self.now entry.now }
        requires few { number ≤ most_words }
        ensures text { OnOk result (out.new.items ≡ out.old.items
            ++ entry_text self.now.program.now self.now.image.now number entry.now) }
        ensures behind { IfOk result (λ n.
            n ≡ number + words_of (program_of self.now.program.now) entry.now) }
    {
        let mut own = Plan::new(alloc);
        own.push(*entry)?;
        self.push_place_line(entry, out)?;
        let words = self.words_of(entry);
        self.push_word_lines(&own, number, words, out)?;
        Ok(number + u32::from(words))
    }

    /// Appends the lines of `words` words, from this number on.
    fn push_word_lines(
        &self,
        own: &Plan,
        number: u32,
        words: u8,
        out: &mut Vec<u8>,
    ) -> Result<(), AllocError>
        requires code { HasCode (program_of self.now.program.now) self.now.code.now }
        requires few { number ≤ most_words }
        ensures { OnOk result (out.new.items ≡ out.old.items
            ++ word_lines (program_of self.now.program.now) own.now self.now.image.now
            number words) }
    {
        for k in 0..words {
            self.push_word_line(own, number + u32::from(k), out)?;
        }
        Ok(())
    }

    /// The number of an entry's words.
    fn words_of(&self, entry: &PlanEntry) -> u8
        requires shown { IsEntryShown self.now entry.now }
        ensures value { result ≡ words_of (program_of self.now.program.now) entry.now }
        ensures small { result ≤ 56 }
    {
        let single = sequence_length(entry, self.code.at(entry.address));
        self.batch_words_of(entry) + single
    }

    /// The number of the words of the batch that starts at an entry's place, if one does.
    fn batch_words_of(&self, entry: &PlanEntry) -> u8
        requires shown { IsEntryShown self.now entry.now }
        ensures value { result ≡ length (batch_sequence (code_of self.now.code.now) entry.now) }
        ensures small { result ≤ 42 }
    {
        if entry.run == 0 {
            return 0;
        }
        let lengths = batch_lengths(entry, self.code);
        lengths.head + (lengths.fast + lengths.fallback)
    }

    /// Appends the line of an entry's place.
    fn push_place_line(&self, entry: &PlanEntry, out: &mut Vec<u8>) -> Result<(), AllocError>
        ensures { OnOk result
            (out.new.items ≡ out.old.items ++ place_line self.now.program.now entry.now) }
    {
        push_word(out, entry.address)?;
        out.extend_from_slice(b": ")?;
        push_original(out, entry.address, self.program.word_at(entry.address))?;
        out.extend_from_slice(b" ; ")?;
        push_plan(out, entry)?;
        out.extend_from_slice(b"\n")?;
        Ok(())
    }

    /// Appends the line of the word of a number, if there is one, by the entries whose words it may
    /// be.
    #[tactic(auto, using(crate::proofs::Lines::line_none, crate::proofs::Lines::line_some))]
    fn push_word_line(&self, own: &Plan, number: u32, out: &mut Vec<u8>) -> Result<(), AllocError>
        requires code { HasCode (program_of self.now.program.now) self.now.code.now }
        requires few { number < 2 ^ 24 }
        ensures { OnOk result (out.new.items ≡ out.old.items
            ++ word_line (program_of self.now.program.now) own.now self.now.image.now number) }
    {
        let at = IMAGE_BASE + 4 * number;
        match self.image.word_at(at) {
            Some(word) => self.push_cell_line(own, at, word, self.image.old_of(at), out),
            None => Ok(()),
        }
    }

    /// Appends the line of a word at an address, which has this place.
    fn push_cell_line(
        &self,
        own: &Plan,
        at: u32,
        word: u32,
        place: Option<Place>,
        out: &mut Vec<u8>,
    ) -> Result<(), AllocError>
        requires code { HasCode (program_of self.now.program.now) self.now.code.now }
        ensures { OnOk result (out.new.items ≡ out.old.items
            ++ cell_line (program_of self.now.program.now) own.now at (cell_with word place)) }
    {
        push_numbers(out, at, word)?;
        push_notes(out, place, self.commit_of(own, place))?;
        push_rewritten(out, at, word)?;
        out.extend_from_slice(b"\n")?;
        Ok(())
    }

    /// When the word at a place commits, by the entries whose words it may be.
    fn commit_of(&self, own: &Plan, place: Option<Place>) -> CommitKind
        requires code { HasCode (program_of self.now.program.now) self.now.code.now }
        ensures { result ≡ model.commit_at (program_of self.now.program.now) own.now place }
    {
        match place {
            Some(place) => commit_at(own, self.code, place),
            None => CommitKind::Never,
        }
    }
}

/// Appends the lines that say what stands in the columns.
#[tactic(auto, unfolding(crate::specs::Code::head))]
fn push_titles(out: &mut Vec<u8>) -> Result<(), AllocError>
    ensures { OnOk result (out.new.items ≡ out.old.items ++ head) }
{
    out.extend_from_slice(HEAD.as_bytes())?;
    Ok(())
}

/// Appends a code word and its text, or that there is none.
fn push_original(out: &mut Vec<u8>, address: u32, word: Option<u32>) -> Result<(), AllocError>
    ensures { OnOk result (out.new.items ≡ out.old.items ++ original_text address word) }
{
    let Some(word) = word else {
        out.extend_from_slice(b"-------- no code word                  ")?;
        return Ok(());
    };
    push_word(out, word)?;
    out.extend_from_slice(b" ")?;
    push_padded(out, address, word)?;
    Ok(())
}

/// Appends the text of a code word, and spaces up to its width.
fn push_padded(out: &mut Vec<u8>, address: u32, word: u32) -> Result<(), AllocError>
    ensures { OnOk result
        (out.new.items ≡ out.old.items ++ padded 30 (text_of_word address word)) }
{
    let start = out.len();
    push_word_text(out, address, word)?;
    let used = out.len() - start;
    if used < TEXT_WIDTH {
        out.resize(start + TEXT_WIDTH, b' ')?;
    }
    Ok(())
}

/// Appends a word and its address.
fn push_numbers(out: &mut Vec<u8>, at: u32, word: u32) -> Result<(), AllocError>
    ensures { OnOk result (out.new.items ≡ out.old.items ++ numbers_text at word) }
{
    out.extend_from_slice(b"  ")?;
    push_word(out, at)?;
    out.extend_from_slice(b": ")?;
    push_word(out, word)?;
    out.extend_from_slice(b" ")?;
    Ok(())
}

/// Appends where a word belongs, and whether it commits.
fn push_notes(out: &mut Vec<u8>, place: Option<Place>, kind: CommitKind) -> Result<(), AllocError>
    ensures { OnOk result (out.new.items ≡ out.old.items ++ notes_text place kind) }
{
    push_place(out, place)?;
    out.extend_from_slice(b" ")?;
    out.extend_from_slice(commit_mark(kind))?;
    out.extend_from_slice(b" ")?;
    Ok(())
}

/// Appends a place and its part, or that there is none.
fn push_place(out: &mut Vec<u8>, place: Option<Place>) -> Result<(), AllocError>
    ensures { OnOk result (out.new.items ≡ out.old.items ++ place_text place) }
{
    let Some(place) = place else {
        out.extend_from_slice(b"no place         ")?;
        return Ok(());
    };
    push_word(out, place.address)?;
    out.extend_from_slice(b" ")?;
    out.extend_from_slice(part_name(place.part))?;
    Ok(())
}
