//! Rewritten code, and the maps between original and rewritten addresses.

ghost use Rattle.std.specs.Prelude.{◌≡◌, ◌≤◌, ℕ, List, length, option_copied, IfOk};
ghost use Rattle.std.specs.Prelude.{IsErrOf};
ghost use Rattle.templates.specs.rv32_program.Program.{Program};
ghost use Rattle.templates.specs.declared.plans.PlanEntry.{PlanEntry};
ghost use Rattle.templates.specs.Plans.{AscendsFrom};
ghost use Rattle.jump_map.specs.Image.{Cell, most_words, HasRunsOf, HasNoFar, Expands, IsRewriting};
ghost use Rattle.jump_map.specs.Image.{IsTooLong};
ghost use Rattle.jump_map.specs.Micro.{AreMicrosOf, IsMicroAnswer};
ghost use Rattle.jump_map.specs.Strides.{HasStrides};
ghost use Rattle.jump_map.specs.Maps.{index_of, new_of, old_of, word_at, fetch};

use crate::building::build;
use crate::cells::Cells;
use crate::heads::PlaceIndex;
use crate::micros::decode_cells;
use crate::sequences::find_strides;
use crate::strides::StrideKind;
use micro_op::MicroOp;
use runtime_words::RtWord;
use std::alloc::{AllocError, Global};
use std::marker::Model;
use templates::{Code, Place, Plan};
use thiserror::Error;

/// The address of word 0 of the rewritten code.
pub const IMAGE_BASE: u32 = 0xa000_0000;

/// The most words that rewritten code may have.
pub const MOST_WORDS: usize = 4_194_303;

/// Why a plan has no rewritten code.
#[derive(Debug, Drop, Error)]
pub enum ImageRefused {
    /// The plan has more words than rewritten code may have.
    #[error("CodeTooLarge {0} words")]
    CodeTooLarge(u64),
    #[error("out of memory")]
    OutOfMemory,
}

impl From<AllocError> for ImageRefused {
    ghost use Rattle.std.specs.Prelude.{◌≡◌};
    ghost use Rattle.jump_map.specs.declared.image.ImageRefused.TheVariants.{OutOfMemory};

    ghost from_gives = { λ _ e. e ≡ OutOfMemory };

    fn from(_error: AllocError) -> ImageRefused {
        ImageRefused::OutOfMemory
    }
}

/// What a word of an image is, None where it is no word of rewritten code; and its place. Word 0
/// has no place.
#[derive(Clone, Copy, PartialEq, Eq)]
pub struct ImageWord {
    pub what: Option<RtWord>,
    pub place: Option<Place>,
}

/// Rewritten code. Contracts see the list of its words, each with its place.
#[derive(Drop)]
pub struct Image {
    cells: Cells,
    index: PlaceIndex,
    micros: Vec<MicroOp>,
    strides: Vec<StrideKind>,
}

impl Model for Image {
    ghost use Rattle.std.specs.Prelude.{List, ℕ, ◌≡◌, position};
    ghost use Rattle.jump_map.specs.Image.{Cell};

    ghost Value = { List Cell };

    ghost use Rattle.jump_map.specs.Maps.{begins_at};
    ghost use Rattle.jump_map.specs.Heads.{single_start};
    ghost use Rattle.jump_map.specs.Decoding.{HasMicros};
    ghost use Rattle.jump_map.specs.Strides.{HasStrides};

    ghost view = { λ i. i.cells };

    ghost invariant = { λ i.
        ((a : ℕ) → single_start i.index a ≡ position (begins_at a) i.cells)
        × HasMicros i.cells i.micros.items
        × HasStrides i.micros.items i.strides.items };
}

impl Image {
    /// The words of a plan, whose entries ascend. Each entry has a word or more.
    ///
    /// Fails with the number of words where they are more than rewritten code may have.
    pub fn of(alloc: Global, code: &Code, plan: &Plan) -> Result<Image, ImageRefused>
        requires ascends { AscendsFrom 0 plan.now }
        requires runs { HasRunsOf code.now plan.now }
        ensures ok { IfOk result (λ image. Expands code.now plan.now image) }
        ensures entries { IfOk result (λ image. length plan.now ≤ length image) }
        ensures too_large { (w : ℕ) →
            IsErrOf result (ImageRefused.CodeTooLarge w) → IsTooLong code.now plan.now w }
    {
        match build(alloc, code, plan) {
            Ok((cells, index)) => {
                cells.words_law();
                let micros = decode_cells(alloc, &cells)?;
                let strides = find_strides(alloc, micros.as_slice())?;
                Ok(Image {
                    cells,
                    index,
                    micros,
                    strides,
                })
            }
            Err(refused) => Err(refused),
        }
    }

    /// The number of words.
    pub fn len(&self) -> usize
        ensures value { result ≡ length self.now }
        ensures few { result ≤ most_words }
    {
        self.cells.len()
    }

    /// The number of words, which takes no memory to say.
    pub fn words(&self) -> u32
        ensures value { result ≡ length self.now }
        ensures few { result ≤ most_words }
    {
        self.cells.len() as u32
    }

    /// The address of the first word of a place's single sequence; None exactly where the address
    /// is no place.
    pub fn new_of(&self, address: u32) -> Option<u32>
        ensures value { result ≡ new_of self.now address }
    {
        match self.index.single(address) {
            Some(k) => Some(IMAGE_BASE + 4 * k),
            None => None,
        }
    }

    /// The place of the word at an address; None exactly where that is no rewritten word or is
    /// word 0.
    pub fn old_of(&self, new: u32) -> Option<Place>
        ensures value { result ≡ old_of self.now new }
    {
        self.cells.place(index_of(new)?)
    }

    /// The word at an address; None exactly where that is no rewritten word.
    pub fn word_at(&self, new: u32) -> Option<u32>
        ensures value { result ≡ word_at self.now new }
    {
        self.cells.word(index_of(new)?)
    }

    /// The micro-ops of all words, and what is executed at once from each word on.
    #[inline(always)]
    pub fn tables(&self) -> (&[MicroOp], &[StrideKind])
        ensures micros { AreMicrosOf self.now result.0.now }
        ensures strides { HasStrides result.0.now result.1.now }
    {
        (self.micros.as_slice(), self.strides.as_slice())
    }

    /// The micro-op of the word of a number; None exactly where there is no such word.
    #[inline(always)]
    pub fn micro(&self, index: u32) -> Option<&MicroOp>
        ensures value { IsMicroAnswer self.now index (option_copied result) }
    {
        self.micros.get(index as usize)
    }

    /// The word at an address, read.
    pub fn fetch(&self, new: u32) -> Option<ImageWord>
        ensures value { result ≡ fetch self.now new }
    {
        self.cells.read(index_of(new)?)
    }
}

/// The number of the word at an address, where words stand there.
fn index_of(new: u32) -> Option<usize>
    ensures { result ≡ index_of new }
{
    if new >= IMAGE_BASE && new % 4 == 0 {
        Some(((new - IMAGE_BASE) / 4) as usize)
    } else {
        None
    }
}

/// A program has at most one rewriting by a plan, and one of at most 262,143 words has no far jump.
#[tactic(auto, using(crate::proofs::ImageLemmas::one_image, crate::proofs::NearLemmas::none_far))]
pub fn image_law()
    ensures one { (program : Program) (plan : List PlanEntry) (one other : List Cell) →
        IsRewriting program plan one → IsRewriting program plan other → one ≡ other }
    ensures near { (program : Program) (plan : List PlanEntry) (image : List Cell) →
        IsRewriting program plan image → length image ≤ 262143 → HasNoFar image }
{}
