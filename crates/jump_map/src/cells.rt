//! The words of an image, each beside what it reads as.

ghost use Rattle.std.specs.Prelude.{◌≡◌, ◌<◌, ◌≤◌, ◌++◌, ◌∷◌, [], length, slice_get};
ghost use Rattle.std.specs.Prelude.{option_and_then, IfOk, OnOk, OnErr, true};
ghost use Rattle.std.specs.List.{list_all};
ghost use Rattle.std.specs.Option.{option_map};
ghost use Rattle.jump_map.specs.Image.{is_word, read_cell, most_words};
ghost use Rattle.jump_map.specs.Storage.{cell};

use crate::image::ImageWord;
use runtime_words::{RtWord, read_word};
use std::alloc::{AllocError, Global};
use std::marker::Model;
use templates::Place;

/// A word, what it reads as, and its place.
#[derive(Clone, Copy)]
struct StoredCell {
    word: u32,
    what: Option<RtWord>,
    place: Option<Place>,
}

/// The words of an image. Contracts see each with its place.
#[derive(Drop)]
pub(crate) struct Cells {
    cells: Vec<StoredCell>,
}

impl Model for Cells {
    ghost use Rattle.std.specs.Prelude.{List, ◌≡◌, ◌≤◌, map, length, true};
    ghost use Rattle.std.specs.List.{list_all};
    ghost use Rattle.jump_map.specs.Image.{Cell};

    ghost Value = { List Cell };

    ghost use Rattle.jump_map.specs.Image.{is_word, most_words};
    ghost use Rattle.jump_map.specs.Storage.{shown, reading, stored};

    ghost view = { λ c. map shown c.cells.items };

    ghost invariant = { λ c.
        (map reading c.cells.items ≡ map stored c.cells.items)
        × (length c.cells.items ≤ most_words)
        × (list_all is_word (map shown c.cells.items) ≡ true) };
}

impl Cells {
    /// No word as yet, and room for `words` words.
    pub(crate) fn with_capacity(alloc: Global, words: u32) -> Result<Cells, AllocError>
        ensures value { IfOk result (λ cells. cells ≡ []) }
    {
        Ok(Cells {
            cells: Vec::with_capacity(alloc, words as usize)?,
        })
    }

    /// Appends a word.
    pub(crate) fn push(&mut self, word: u32, place: Option<Place>) -> Result<(), AllocError>
        requires room { length self.old < most_words }
        ensures ok { OnOk result (self.new ≡ self.old ++ cell word place ∷ []) }
        ensures err { OnErr result (self.new ≡ self.old) }
    {
        self.cells.push(StoredCell {
            word,
            what: read_word(word),
            place,
        })?;
        Ok(())
    }

    /// Each word has 32 bits.
    pub(crate) fn words_law(&self)
        ensures { list_all is_word self.now ≡ true }
    {
        // brings: each word has 32 bits
        let _ = &self.cells;
    }

    /// The number of words.
    pub(crate) fn len(&self) -> usize
        ensures value { result ≡ length self.now }
        ensures few { result ≤ most_words }
    {
        self.cells.len()
    }

    /// The word of a number.
    pub(crate) fn word(&self, k: usize) -> Option<u32>
        ensures value { result ≡ option_map (λ c. c.word) (slice_get self.now k) }
    {
        match self.cells.get(k) {
            Some(cell) => Some(cell.word),
            None => None,
        }
    }

    /// The place of the word of a number.
    pub(crate) fn place(&self, k: usize) -> Option<Place>
        ensures value { result ≡ option_and_then (λ c. c.place) (slice_get self.now k) }
    {
        match self.cells.get(k) {
            Some(cell) => cell.place,
            None => None,
        }
    }

    /// The word of a number, read.
    pub(crate) fn read(&self, k: usize) -> Option<ImageWord>
        ensures value { result ≡ option_map read_cell (slice_get self.now k) }
    {
        match self.cells.get(k) {
            Some(cell) => {
                Some(ImageWord {
                    what: cell.what,
                    place: cell.place,
                })
            }
            None => None,
        }
    }
}
