//! What a text says.

ghost use Rattle.std.specs.Prelude.{◌≡◌, ℕ, List};
ghost use Rattle.rv32_lines.specs.Statements.{IsReading, IsWritten, Statement as Statements};
ghost use Rattle.rv32_lines.specs.Texts.{Written, written_text};

/// A text has one reading at most: each of its lines says one statement or none. The text of an
/// instruction tells the instruction as it is written.
pub fn reading_law()
    ensures texts { (text : List ℕ) (a b : List Statements) → IsReading text a → IsReading text b
        → a ≡ b }
    ensures instructions { (a b : Written) → IsWritten a → IsWritten b
        → written_text a ≡ written_text b → a ≡ b }
{}
