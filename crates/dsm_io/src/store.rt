//! Names with their contents.

ghost use Rattle.std.specs.Prelude.{◌≡◌, map, position, bytes_eq, option_copied, OnOk, OnErr};
ghost use Rattle.dsm_io.specs.Pairs.{first_content, Writes};

use crate::Text;
use std::alloc::{AllocError, Global};
use std::marker::Model;

/// Names and contents. The first pair of a name counts.
#[derive(Drop)]
pub(crate) struct Store {
    alloc: Global,
    pairs: Vec<(Text, Vec<u8>)>,
}

impl Model for Store {
    ghost use Rattle.std.specs.Prelude.{List, ℕ, map};

    ghost Value = { List (List ℕ × List ℕ) };

    ghost view = { λ s. map (λ p. (p.0, p.1.items)) s.pairs.items };
}

/// The place of the first pair of a name.
fn place(pairs: &[(Text, Vec<u8>)], name: &str) -> Option<usize>
    ensures { result ≡ position (λ p. bytes_eq p.0 name.now) pairs.now }
{
    pairs.iter().position(|pair| pair.0.as_str() == name)
}

impl Store {
    pub(crate) fn new(alloc: Global, pairs: Vec<(Text, Vec<u8>)>) -> Store
        ensures { result ≡ map (λ p. (p.0, p.1.items)) pairs.items }
    {
        Store { alloc, pairs }
    }

    /// The content of the first pair of the name.
    pub(crate) fn content(&self, name: &str) -> Option<&[u8]>
        ensures { option_copied result ≡ first_content self.now name.now }
    {
        match place(&self.pairs, name) {
            Some(i) => Some(self.pairs[i].1.as_slice()),
            None => None,
        }
    }

    /// Makes the name hold the bytes, in its first pair or in a new one.
    pub(crate) fn put(&mut self, name: &str, bytes: &[u8]) -> Result<(), AllocError>
        ensures ok { OnOk result (Writes self.old self.new name.now bytes.now) }
        ensures err { OnErr result (self.new ≡ self.old) }
    {
        let content = Vec::from_slice(self.alloc, bytes)?;
        match place(&self.pairs, name) {
            Some(i) => {
                let pair = &mut self.pairs[i];
                pair.1 = content;
            }
            None => {
                let word = String::from_str(self.alloc, name)?;
                self.pairs.push((Text::of(word), content))?;
            }
        }
        Ok(())
    }
}
