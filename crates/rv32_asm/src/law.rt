//! What holds of every text and its executable.

ghost use Rattle.std.specs.Prelude.{◌≡◌, ◌≢◌, ℕ, ◌<◌, ◌^◌, List, codes};
ghost use Rattle.elf32_read.specs.Elf.{Elf as Fields};
ghost use Rattle.rv32_text.specs.Listing.{text_of_word};
ghost use Rattle.rv32_lines.specs.Statements.{Statement as Statements, IsWritten};
ghost use Rattle.rv32_lines.specs.Texts.{Written};
ghost use Rattle.rv32_asm.specs.Assembling.{IsAssembled, IsWordOf};
ghost use Rattle.rv32_asm.specs.Listed.{IsListed, given_word};
ghost use Rattle.rv32_asm.specs.Rules.{IsFirstFault};
ghost use Rattle.rv32_asm.specs.declared.refused.AsmRule.{AsmRule as Rules};

use rv32_decode::ranges_law;
use rv32_lines::reading_law;
use rv32_text::text_law;

/// A text has one executable at most or one first fault at most, and never both. An instruction
/// after other lines has one word at most.
pub fn assembling_law()
    ensures words { (all before : List Statements) (w : Written) (a b : ℕ) → IsWritten w
        → IsWordOf all before w a → IsWordOf all before w b → a ≡ b }
    ensures one { (text : List ℕ) (a b : Fields) → IsAssembled text a → IsAssembled text b
        → a ≡ b }
    ensures faults { (text : List ℕ) (r q : Rules) (k l : ℕ) → IsFirstFault text r k
        → IsFirstFault text q l → (r ≡ q) × (k ≡ l) }
    ensures apart { (text : List ℕ) (a : Fields) (r : Rules) (k : ℕ) → IsAssembled text a
        → IsFirstFault text r k → ⊥ }
{
    reading_law();
    text_law();
}

/// The text that a listing gives for a word at an address says an instruction that has this word
/// there, unless it is `unknown`. The texts `fence` and `illegal`, which several words have, give
/// one word each.
pub fn listing_law()
    ensures words { (address word : ℕ) → word < 2 ^ 32
        → text_of_word address word ≢ codes "unknown"
        → IsListed address (text_of_word address word) (given_word word) }
{
    ranges_law();
}
