//! What a text tells.

ghost use Rattle.std.specs.Prelude.{◌≡◌, ℕ, ◌<◌, ◌^◌, IsSomeAnd};
ghost use Rattle.rv32_decode.specs.Rows.{instruction_of};
ghost use Rattle.rv32_decode.specs.Words.{IsInRange};
ghost use Rattle.rv32_decode.specs.declared.Instr.{Instr};
ghost use Rattle.rv32_text.specs.Listing.{text_of, text_of_word};
ghost use Rattle.rv32_text.specs.Telling.{ShowsAll};

use rv32_decode::{ranges_law, words_law};

/// At an address, the text of a word tells its instruction and the word itself, but for FENCE,
/// the illegal words and the words that no row of the instruction table fits.
#[tactic(auto, using(crate::proofs::Told::instruction_told, crate::proofs::Told::word_told))]
pub fn text_law()
    ensures instructions { (address : ℕ) (i j : Instr) → IsInRange i → IsInRange j → ShowsAll i
        → text_of address i ≡ text_of address j → i ≡ j }
    ensures words { (address v w : ℕ) → v < 2 ^ 32 → w < 2 ^ 32
        → IsSomeAnd (instruction_of v) ShowsAll
        → text_of_word address v ≡ text_of_word address w → v ≡ w }
{
    ranges_law();
    words_law();
}
