//! The micro-ops of an image's words.

ghost use Rattle.std.specs.Prelude.{◌≡◌, ◌+◌, ◌*◌, ◌<◌, ℕ, Some, slice_get, IfOk};
ghost use Rattle.micro_op.specs.rv32_step.declared.Demand.TheVariants.{Jumps};
ghost use Rattle.micro_op.specs.Micro.{Meets, meaning_of};
ghost use Rattle.jump_map.specs.Image.{Cell, image_base, address_of_word, most_words, read_cell};
ghost use Rattle.jump_map.specs.Micro.{IsMicroWord};
ghost use Rattle.jump_map.specs.Decoding.{HasMicros};

use crate::cells::Cells;
use crate::image::IMAGE_BASE;
use micro_op::{MicroKind, MicroOp};
use runtime_words::{RtWord, WordNumber};
use rv32_decode::Reg;
use std::alloc::{AllocError, Global};

/// What a poll does.
const NOTHING: MicroOp = MicroOp {
    kind: MicroKind::Nothing,
    rd: Reg::ZERO,
    rs1: Reg::ZERO,
    rs2: Reg::ZERO,
    imm: 0,
};

/// What a far jump to the word of a number does.
fn far(number: WordNumber) -> MicroOp
    ensures value { (registers : ℕ → ℕ) →
        Meets (meaning_of image_base result registers) (Jumps 0 (address_of_word number)) }
{
    MicroOp {
        kind: MicroKind::Jump,
        rd: Reg::ZERO,
        rs1: Reg::ZERO,
        rs2: Reg::ZERO,
        imm: number.value(),
    }
}

/// The micro-op of each word.
pub(crate) fn decode_cells(alloc: Global, cells: &Cells) -> Result<Vec<MicroOp>, AllocError>
    ensures value { IfOk result (λ micros. HasMicros cells.now micros.items) }
{
    let mut micros = Vec::with_capacity(alloc, cells.len())?;
    for k in 0..cells.len() {
        micros.push(micro_at(cells, k))?;
    }
    Ok(micros)
}

/// The micro-op of the word of a number.
fn micro_at(cells: &Cells, k: usize) -> MicroOp
    requires few { k < most_words }
    ensures value { (c : Cell) → slice_get cells.now k ≡ Some c →
        IsMicroWord (address_of_word k) (read_cell c).what result }
{
    match cells.read(k) {
        Some(word) => micro_of(word.what, IMAGE_BASE + 4 * k as u32),
        None => MicroOp::SLOW,
    }
}

/// The micro-op of a word at an address.
fn micro_of(what: Option<RtWord>, address: u32) -> MicroOp
    ensures value { IsMicroWord address what result }
{
    match what {
        Some(word) => micro_of_word(&word, address),
        None => MicroOp::SLOW,
    }
}

/// The micro-op of a word of rewritten code at an address.
fn micro_of_word(word: &RtWord, address: u32) -> MicroOp
    ensures value { IsMicroWord address (Some word.now) result }
{
    match word {
        RtWord::Native(i) => MicroOp::of(*i, address, IMAGE_BASE),
        RtWord::Poll => NOTHING,
        RtWord::Xjalr { rd, rs1, imm } => MicroOp::entry(*rd, *rs1, *imm),
        RtWord::Far(number) => far(*number),
        _ => MicroOp::SLOW,
    }
}
