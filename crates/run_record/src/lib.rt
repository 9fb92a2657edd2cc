#![tactic(auto)]
//! The text of a record of a run, and the calls that write it and read it.

ghost use Rattle.std.specs.Prelude.{◌≡◌, [], length, OnOk, OnErr, IfOk, IfErr};
ghost use Rattle.run_record.specs.Record.{IsRecord, NamesOtherCode};
ghost use Rattle.run_record.specs.Text.{record_text};
ghost use Rattle.run_record.specs.declared.refused.RecordRule.TheVariants as rules;
ghost use Rattle.run_record.specs.declared.refused.RecordRefused.TheVariants.{Broken};

mod law;
mod line;
mod lines;
mod parts;
mod read;
mod refused;
mod text;
mod version;

pub use law::record_law;
use node_model::jump_map::Image;
pub use parts::{Blocks, Journals};
pub use read::read_record;
pub use refused::{RecordRefused, RecordRule};
use std::alloc::AllocError;
use text::push_record;

/// What is kept of a run, so that it can be run once more.
#[derive(Drop)]
pub struct Record {
    /// How many nodes it had.
    pub nodes: u8,
    /// How many words each node might execute.
    pub budget: u64,
    /// Whether its checks were batched.
    pub batch: bool,
    /// How many words its rewritten code had, where that is named.
    pub code: Option<u32>,
    /// The ranges of the layout.
    pub blocks: Blocks,
    /// The messages that each node took.
    pub journals: Journals,
}

/// The line of the number of rewritten words, counted from 1.
const CODE_LINE: usize = 5;

/// Writes the text of a record: in the second version where it names the number of rewritten words,
/// and else in the first. Where memory runs out, `out` is left empty.
pub fn write_record(r: &Record, out: &mut Vec<u8>) -> Result<(), AllocError>
    requires empty { out.old.items ≡ [] }
    requires record { IsRecord r.now }
    ensures ok { OnOk result (out.new.items ≡ record_text r.now) }
    ensures err { OnErr result (out.new.items ≡ []) }
{
    let outcome = push_record(out, r);
    if outcome.is_err() {
        out.clear();
    }
    outcome
}

/// Judges whether the rewritten code has as many words as the record names, where it names their
/// number. Takes no memory.
pub fn check_code(r: &Record, image: &Image) -> Result<(), RecordRefused>
    ensures ok { IfOk result (λ _. NamesOtherCode r.now (length image.now) → ⊥) }
    ensures refused { IfErr result (λ e. (e ≡ Broken rules.Code 5)
        × NamesOtherCode r.now (length image.now)) }
{
    match r.code {
        Some(words) if words as usize != image.len() => Err(RecordRule::Code.at(CODE_LINE)),
        _ => Ok(()),
    }
}
