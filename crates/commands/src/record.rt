//! The record of a run, into a file.

ghost use Rattle.std.specs.Prelude.{◌≡◌, ◌≢◌, ℕ, List, Some, map, IfErr, IfOk, IfSome, OnOk};
ghost use Rattle.std.specs.List.{range_with_len};
ghost use Rattle.dsm_core.specs.CoreParts.{work_of, core_of};
ghost use Rattle.run_record.specs.Lists.{items_of};
ghost use Rattle.run_record.specs.Text as model;
ghost use Rattle.command_line.specs.Meaning.{file_name};
ghost use Rattle.commands.specs.Failures.{IsRecordFailure};
ghost use Rattle.prepared_run.specs.Ready.{work_for};
ghost use Rattle.commands.specs.Headline.{held_by};
ghost use Rattle.commands.specs.Records.{record_at};

use dsm_core::Core;
use dsm_io::Files;
use node_model::Entry;
use prepared_run::Prepared;
use rewriting_law::progress_law;
use run_order::journal_law;
use run_record::{Blocks, Journals, Record, write_record};
use std::alloc::{AllocError, Global};
use text_output::{Failure, write_file};

/// Writes the record of a core's run into a file, where one is named.
pub fn write_record_of<F: Files>(
    alloc: Global,
    core: &Core<'_>,
    prepared: &Prepared<'_>,
    file: Option<&str>,
    files: &mut F,
) -> Result<(), Failure>
    requires same { work_of core.now ≡ work_for prepared.now }
    ensures holds { OnOk result (IfSome (held_by (F.state files.new) (file_name file.entry))
        (λ bytes. bytes ≡ model.record_text (record_at prepared.now.batches (work_of core.now)
        (core_of core.now)))) }
    ensures failure { IfErr result (IsRecordFailure (file_name file.entry) (F.state files.old)
        (F.state files.new)) }
    ensures others { (n : List ℕ) → (file_name file.entry ≢ Some n)
        → (F.state files.new).held n ≡ (F.state files.old).held n }
{
    let Some(name) = file else {
        return Ok(());
    };
    let text = record_text(alloc, core, prepared)?;
    write_file(alloc, files, name, &text)
}

/// The text of the record of a core's run.
fn record_text(
    alloc: Global,
    core: &Core<'_>,
    prepared: &Prepared<'_>,
) -> Result<Vec<u8>, AllocError>
    requires same { work_of core.now ≡ work_for prepared.now }
    ensures { IfOk result (λ text. text.items
        ≡ model.record_text (record_at prepared.now.batches (work_of core.now)
        (core_of core.now))) }
{
    let layout = core.layout();
    let record = Record {
        nodes: layout.nodes(),
        budget: prepared.budget.number(),
        batch: prepared.batches,
        code: Some(prepared.rewritten.image().len() as u32),
        blocks: Blocks::of(Vec::from_slice(alloc, layout.ranges())?),
        journals: Journals::of(journals(alloc, core)?),
    };
    let mut text = Vec::new(alloc);
    core.promises();
    journal_law();
    progress_law();
    write_record(&record, &mut text)?;
    Ok(text)
}

/// The messages that each node of a core took.
fn journals(alloc: Global, core: &Core<'_>) -> Result<Vec<Vec<Entry>>, AllocError>
    ensures { IfOk result (λ v. items_of v.items ≡ map (λ i. ((core_of core.now).nodes i).journal)
        (range_with_len 0 core.now.layout.nodes)) }
{
    let count = core.layout().nodes();
    let mut journals = Vec::new(alloc);
    for node in 0..count {
        journals.push(Vec::from_slice(alloc, core.node(node).journal())?)?;
    }
    Ok(journals)
}
