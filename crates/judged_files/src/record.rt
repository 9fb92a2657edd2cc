//! The record of a run, out of a text.

ghost use Rattle.std.specs.Prelude.{length, IfErr, IfOk};
ghost use Rattle.run_record.specs.Record.{NamesOtherCode};
ghost use Rattle.text_output.specs.Failures.{IsRecordRefusal};
ghost use Rattle.judged_files.specs.Records.{IsFaultyText, IsOtherCode, IsTextOf};

use crate::refusal::record_line;
use rewrite_verify::jump_map::Image;
use run_record::{Record, RecordRefused, check_code, read_record};
use std::alloc::Global;
use text_output::Failure;

/// The record that a text is.
pub fn record_in(alloc: Global, text: &[u8]) -> Result<Record, Failure>
    ensures ok { IfOk result (λ kept. IsTextOf kept text.now) }
    ensures refused { IfErr result (IsRecordRefusal (IsFaultyText text.now)) }
{
    match read_record(alloc, text) {
        Ok(kept) => Ok(kept),
        Err(RecordRefused::Broken { rule, line }) => {
            Err(Failure::Record(record_line(alloc, rule, line)?))
        }
        Err(RecordRefused::OutOfMemory) => Err(Failure::OutOfMemory),
    }
}

/// Judges the number of rewritten words that a record names: it is that of this code.
pub fn judge_words(alloc: Global, kept: &Record, image: &Image) -> Result<(), Failure>
    ensures ok { IfOk result (λ _. NamesOtherCode kept.now (length image.now) → ⊥) }
    ensures refused { IfErr result
        (IsRecordRefusal (IsOtherCode kept.now (length image.now))) }
{
    match check_code(kept, image) {
        Ok(()) => Ok(()),
        Err(RecordRefused::Broken { rule, line }) => {
            Err(Failure::Record(record_line(alloc, rule, line)?))
        }
        Err(RecordRefused::OutOfMemory) => Err(Failure::OutOfMemory),
    }
}
