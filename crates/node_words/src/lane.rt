//! What is a processor's own, and what a word did.

ghost use Rattle.std.specs.Prelude.{◌≡◌, ◌%◌, None};
ghost use Rattle.node_words.specs.Address.{word_address};

use node_memory::byte_range::Window;
use node_memory::dsm_messages::Need;
use node_memory::exec_map::Exit;
use node_memory::jump_map::IMAGE_BASE;
use node_memory::rv32_step::Registers;
use node_memory::{Want, Wants};

/// A processor in rewritten code, but for the position of its next word.
#[derive(Drop)]
pub struct ProcessorState {
    pub registers: Registers,
    /// The bytes of its own window.
    pub private: Window,
    /// The bytes that a write in progress has written.
    pub written: u32,
    /// Where it went, when that was no place.
    pub off: u32,
    /// The words in which sequences keep registers.
    pub spills: [u32; 3],
}

/// Where a processor goes on once nothing that its word wanted is on its way.
#[derive(Clone, Copy, PartialEq, Eq)]
pub enum Resume {
    /// After the word.
    PastWord,
    /// At the word again.
    SameWord,
    /// Past the next word, where the lines of two addresses meet the need then; else at the next
    /// word.
    ByLines { need: Need, low: u32, high: u32 },
}

/// Where a processor goes after a word.
#[derive(Clone, Copy, PartialEq, Eq)]
pub enum Move {
    /// To the next word.
    Next,
    /// To the same word.
    Again,
    /// To the word with an index.
    To(u32),
    /// To the sequence of an original address.
    Enters(u32),
    /// Nowhere yet: it waits for blocks.
    Waits(Resume, Wants),
    /// Nowhere: it is ended.
    Leaves(Exit),
}

/// What a word counts.
#[derive(Clone, Copy, PartialEq, Eq)]
pub enum Tally {
    Nothing,
    /// A miss check for reading found a readable line.
    FalseMiss,
    /// A run goes to its single-checked sequences.
    FallsBack,
}

/// What a word printed and counts, and where the processor goes.
#[derive(Clone, Copy, PartialEq, Eq)]
pub struct WordOutcome {
    pub output: Option<u8>,
    pub tally: Tally,
    pub next: Move,
}

/// The processor goes on so, and nothing else happens.
pub fn only_moves(next: Move) -> WordOutcome
    ensures { result ≡ record { output = None; tally = Tally.Nothing; next = next } }
{
    WordOutcome {
        output: None,
        tally: Tally::Nothing,
        next,
    }
}

/// The processor waits until the line of an address may be read, or written.
pub fn wait_for(resume: Resume, at: u32, need: Need) -> WordOutcome
    ensures { result ≡ record {
      output = None;
      tally = Tally.Nothing;
      next = Move.Waits resume (record { first = record { at = at; need = need }; other = None });
    } }
{
    let first = Want { at, need };
    only_moves(Move::Waits(resume, Wants { first, other: None }))
}

/// The word ended the processor.
pub fn exit_by(exit: Exit) -> WordOutcome
    ensures { result ≡ record { output = None; tally = Tally.Nothing; next = Move.Leaves exit } }
{
    only_moves(Move::Leaves(exit))
}

/// The address of the word with an index: `IMAGE_BASE` and four for each word, modulo 2^32.
#[inline(always)]
pub fn address_of(index: u32) -> u32
    ensures { result ≡ word_address index }
{
    IMAGE_BASE.wrapping_add(index.wrapping_mul(4))
}

/// The index of the word at an address.
pub fn index_of(address: u32) -> u32
    requires { address % 4 ≡ 0 }
    ensures { word_address result ≡ address }
{
    address.wrapping_sub(IMAGE_BASE) / 4
}
