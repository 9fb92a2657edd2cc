//! What a text tells.

ghost use Rattle.std.specs.Prelude.{◌≡◌, ℕ, List};
ghost use Rattle.run_record.specs.Record.{IsRecord};
ghost use Rattle.run_record.specs.Rules.{IsFirstFault};
ghost use Rattle.run_record.specs.Telling.{IsOfWords};
ghost use Rattle.run_record.specs.Text.{record_text};
ghost use Rattle.run_record.specs.declared.Record.{Record};
ghost use Rattle.run_record.specs.declared.refused.RecordRule.{RecordRule};

/// The text of a record tells the record. A text has one record or one first fault. A caller uses
/// the clauses; the call does nothing.
pub fn record_law()
    ensures one { (r s : Record) → IsRecord r → IsOfWords r → IsRecord s → IsOfWords s
        → record_text r ≡ record_text s → r ≡ s }
    ensures either { (r : Record) (rule : RecordRule) (line : ℕ) → IsRecord r → IsOfWords r
        → IsFirstFault (record_text r) rule line → ⊥ }
    ensures first { (text : List ℕ) (rule other : RecordRule) (line number : ℕ)
        → IsFirstFault text rule line → IsFirstFault text other number
        → (rule ≡ other) × (line ≡ number) }
{}
