//! The flow graph of a program.

ghost use Rattle.std.specs.Prelude.{◌≡◌, ◌⊎◌, ◌↔◌, ◌+◌, ◌^◌, ◌<◌, ◌≤◌, ℕ, length, slice_get};
ghost use Rattle.std.specs.Prelude.{option_and_then, Some, IsSome, IfOk, IfSome};
ghost use Rattle.rv32_decode.specs.declared.Instr.{Instr as TheInstr};
ghost use Rattle.rv32_program.specs.Liveness.{Next as IsNext};
ghost use Rattle.exec_map.specs.Contents.{program_of};
ghost use Rattle.templates.specs.declared.code.CodeWord.{CodeWord as TheWord};
ghost use Rattle.templates.specs.Code.{HasCode, code_of, Ascends};
ghost use Rattle.flow_graph.specs.Edges.{next_of, goes_back, goes_anywhere, number_at, edges_of};

use crate::code::collect_code;
use crate::edges::{self, Edges, Next};
use exec_map::Program;
use std::alloc::{AllocError, Global};
use std::marker::Model;
use templates::{Code, CodeWord};

/// The code words of a program, with where control goes from each. Contracts see the list of the
/// code words.
#[derive(Drop)]
pub struct Graph {
    code: Code,
}

impl Model for Graph {
    ghost use Rattle.std.specs.Prelude.{List};
    ghost use Rattle.templates.specs.declared.code.CodeWord.{CodeWord};
    ghost use Rattle.templates.specs.Code.{Ascends};

    ghost Value = { List CodeWord };

    ghost view = { λ g. g.code };

    ghost invariant = { λ g. Ascends 0 g.code };
}

impl Graph {
    /// The graph of a program.
    pub fn of(alloc: Global, program: &Program<'_>) -> Result<Graph, AllocError>
        ensures code { IfOk result (λ g. HasCode (program_of program.now) g) }
    {
        let code = collect_code(alloc, program)?;
        Ok(Graph::new(code))
    }

    /// The graph of these code words.
    pub fn new(code: Code) -> Graph
        ensures value { result ≡ code }
    {
        // brings: the code words ascend
        let _words = code.words();
        Graph { code }
    }

    /// The code words.
    pub fn code(&self) -> &Code
        ensures value { result.now ≡ self.now }
        ensures ascends { Ascends 0 self.now }
        ensures few { length self.now ≤ 2 ^ 30 }
    {
        &self.code
    }

    /// The direct successors of the code word at an address.
    pub fn next(&self, i: u32) -> Next
        requires code_word { IsSome (code_of self.now i) }
        ensures value { (instruction : TheInstr) → code_of self.now i ≡ Some instruction
            → result ≡ next_of instruction i }
        ensures direct { (instruction : TheInstr) (b : ℕ) → code_of self.now i ≡ Some instruction
            → (IsNext instruction i b ↔ (result.first ≡ Some b ⊎ result.second ≡ Some b)) }
    {
        match self.code.at(i) {
            Some(instruction) => edges::next_of(&instruction, i),
            None => Next {
                first: None,
                second: None,
            },
        }
    }

    /// Whether a branch or JAL stands at an address that goes to that address or one below.
    pub fn back(&self, i: u32) -> bool
        requires code_word { IsSome (code_of self.now i) }
        ensures value { (instruction : TheInstr) → code_of self.now i ≡ Some instruction
            → result ≡ goes_back instruction i }
    {
        match self.code.at(i) {
            Some(instruction) => edges::goes_back(&instruction, i),
            None => false,
        }
    }

    /// Whether the code word at an address may go to any address.
    pub fn any_target(&self, i: u32) -> bool
        requires code_word { IsSome (code_of self.now i) }
        ensures value { (instruction : TheInstr) → code_of self.now i ≡ Some instruction
            → result ≡ goes_anywhere instruction }
    {
        match self.code.at(i) {
            Some(instruction) => edges::goes_anywhere(&instruction),
            None => false,
        }
    }

    /// The number of the code word at an address, from 0; None exactly where none stands there.
    pub fn number_at(&self, address: u32) -> Option<u32>
        ensures value { result ≡ number_at self.now address }
        ensures within { IfSome result (λ k. k < length self.now) }
    {
        match self
            .code
            .words()
            .binary_search_by_key(&address, |w| w.address)
        {
            Ok(k) => Some(k as u32),
            Err(_) => None,
        }
    }

    /// The direct successors of the code word of a number, by their numbers.
    pub fn edges(&self, k: u32) -> Edges
        requires within { k < length self.now }
        ensures value { (w : TheWord) → slice_get self.now k ≡ Some w
            → result ≡ edges_of self.now w }
    {
        let words = self.code().words();
        let word = &words[k as usize];
        let next = edges::next_of(&word.instruction, word.address);
        let first = follower(words, k, next.first);
        let second = self.number_of(next.second);
        Edges { first, second }
    }

    /// The number of the code word at an address, where there is one.
    fn number_of(&self, address: Option<u32>) -> Option<u32>
        ensures value { result ≡ option_and_then (number_at self.now) address }
    {
        let address = address?;
        self.number_at(address)
    }
}

/// The number of the code word right after word k, where its address is given.
fn follower(words: &[CodeWord], k: u32, address: Option<u32>) -> Option<u32>
    requires ascends { Ascends 0 words.now }
    requires after { (w : TheWord) (a : ℕ) → slice_get words.now k ≡ Some w → address ≡ Some a
        → a ≡ w.address + 4 }
    requires within { k < length words.now }
    requires few { length words.now ≤ 2 ^ 30 }
    ensures value { result ≡ option_and_then (number_at words.now) address }
{
    let address = address?;
    let word = words.get(k as usize + 1)?;
    if word.address == address {
        Some(k + 1)
    } else {
        None
    }
}
