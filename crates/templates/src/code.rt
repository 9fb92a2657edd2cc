//! The code of a program, as the rewriter takes it: its code words, ascending.

ghost use Rattle.std.specs.Prelude.{◌≡◌, ◌+◌, ◌*◌, ◌%◌, ◌^◌, ◌<◌, ◌≤◌, ◌++◌, ◌∷◌, [], length, OnOk};
ghost use Rattle.std.specs.Prelude.{OnErr};
ghost use Rattle.templates.specs.Code.{Ascends, code_word, end_of, code_of};
ghost use Rattle.templates.specs.Runs.{code_from};

use rv32_decode::Instr;
use std::alloc::{AllocError, Global};
use std::marker::Model;

/// A code word: its address, and the instruction that stands there.
#[derive(Clone, Copy, PartialEq, Eq)]
pub struct CodeWord {
    pub address: u32,
    pub instruction: Instr,
}

/// The code words of a program, at ascending multiples of four. Contracts see their list.
#[derive(Drop)]
pub struct Code {
    words: Vec<CodeWord>,
}

impl Model for Code {
    ghost use Rattle.std.specs.Prelude.{List};
    ghost use Rattle.templates.specs.declared.code.CodeWord.{CodeWord};
    ghost use Rattle.templates.specs.Code.{Ascends};

    ghost Value = { List CodeWord };

    ghost view = { λ c. c.words.items };

    ghost invariant = { λ c. Ascends 0 c.words.items };
}

impl Code {
    /// No code word as yet.
    pub fn new(alloc: Global) -> Code
        ensures value { result ≡ [] }
    {
        Code {
            words: Vec::new(alloc),
        }
    }

    /// Appends a code word, which stands after the last one.
    pub fn push(&mut self, address: u32, instruction: Instr) -> Result<(), AllocError>
        requires behind { end_of self.old ≤ address }
        requires aligned { address % 4 ≡ 0 }
        requires low { address + 4 < 2 ^ 32 }
        ensures ok { OnOk result (self.new ≡ self.old ++ code_word address instruction ∷ []) }
        ensures err { OnErr result (self.new ≡ self.old) }
    {
        self.words.push(CodeWord {
            address,
            instruction,
        })?;
        Ok(())
    }

    /// The code words, ascending.
    pub fn words(&self) -> &[CodeWord]
        ensures value { result.now ≡ self.now }
        ensures ascends { Ascends 0 self.now }
    {
        &self.words
    }

    /// The instruction `words` words after an address; None exactly where no code word stands
    /// there.
    pub(crate) fn behind(&self, address: u32, words: u8) -> Option<Instr>
        ensures value { result ≡ code_of self.now (address + 4 * words) }
    {
        // brings: the code words ascend, and end below 2^32
        let _ = &self.words;
        match address.checked_add(4 * u32::from(words)) {
            Some(there) => self.at(there),
            None => None,
        }
    }

    /// The address after `words` code words, one after another.
    pub fn address_behind(&self, address: u32, words: u8) -> u32
        requires coded { length (code_from (code_of self.now) address words) ≡ words }
        ensures value { result ≡ address + 4 * words }
    {
        // brings: the code words ascend, and end below 2^32
        let _ = &self.words;
        address + 4 * u32::from(words)
    }

    /// The instruction at an address; None exactly where no code word stands there.
    pub fn at(&self, address: u32) -> Option<Instr>
        ensures value { result ≡ code_of self.now address }
    {
        match self.words.binary_search_by_key(&address, |w| w.address) {
            Ok(k) => Some(self.words[k].instruction),
            Err(_) => None,
        }
    }
}
