//! What a run of rewritten code is of: the program, its rewriting, and the layout.

ghost use Rattle.std.specs.Prelude.{◌≡◌, IfOk, IfErr};
ghost use Rattle.replay.specs.rewriting_law.Bounds.{RunsRewritten};
ghost use Rattle.replay.specs.dsm_core.CoreParts.{work_in};
ghost use Rattle.judged_files.specs.Executables.{ReadsAs};
ghost use Rattle.prepared_run.specs.Ready.{IsAskedWork, IsReadyFor, GivesRuns, work_for};
ghost use Rattle.text_output.specs.Failures.{IsRefusal};
ghost use Rattle.prepared_run.specs.Replays.{IsReplayRefusal, IsWorkOf};
ghost use Rattle.judged_files.specs.Given.{bytes_of};
ghost use Rattle.judged_files.specs.Refusals.{IsRunRefused, IsBadRunLayout};

use block_layout::Layout;
use elf32_read::Elf;
use exec_map::Program;
use judged_files::code::{judge_code, rewriting_of};
use judged_files::input::{Inputs, program_of};
use judged_files::layout::{layout_for, layout_of_blocks};
use judged_files::record::{judge_words, record_in};
use replay::dsm_core::Work;
use replay::rewriting_law::{bounds_law, interleaving_law, progress_law};
use replay::run_record::Record;
use rewrite_verify::rewriter::Rewritten;
use run_limits::{Budget, NodeCount};
use std::alloc::Global;
use text_output::Failure;

/// The parts of a run.
#[derive(Drop)]
pub struct Prepared<'a> {
    pub program: Program<'a>,
    pub rewritten: Rewritten,
    pub layout: Layout,
    pub budget: Budget,
    /// Whether the code was rewritten with batches, where it isn't that of a verified file.
    pub batches: bool,
}

impl<'a> Prepared<'a> {
    /// What the nodes run.
    pub fn work(&self) -> Work<'_>
        ensures value { work_in result ≡ work_for self.now }
    {
        Work {
            program: &self.program,
            image: self.rewritten.image(),
            layout: &self.layout,
            budget: self.budget,
        }
    }
}

/// Judges the executable, which was read, its rewriting or the verified file, the file of code and
/// the layout, in this order, and gives the parts of a run of these nodes.
pub fn prepare<'a>(
    alloc: Global,
    elf: &'a Elf<'_>,
    inputs: &Inputs<'_>,
    nodes: NodeCount,
    budget: Budget,
) -> Result<Prepared<'a>, Failure>
    requires reads { ReadsAs (bytes_of inputs.now).executable elf.now }
    ensures rewritten { IfOk result (λ p. RunsRewritten (work_for p)) }
    ensures batches { IfOk result (λ p. p.batches ≡ inputs.now.batches) }
    ensures runs { IfOk result (λ p. GivesRuns (bytes_of inputs.now) nodes budget (work_for p)) }
    ensures asked { IfOk result (λ p. IsAskedWork (bytes_of inputs.now) nodes budget p.program
        p.rewritten.plan (work_for p)) }
    ensures refused { IfErr result (IsRefusal (IsRunRefused (bytes_of inputs.now))
        (IsBadRunLayout (bytes_of inputs.now) nodes)) }
{
    let program = program_of(alloc, elf)?;
    let rewritten = rewriting_of(alloc, &program, elf, inputs.batches, inputs.verified)?;
    judge_code(alloc, elf, &rewritten, inputs.code)?;
    let layout = layout_for(alloc, &program, inputs.layout, nodes)?;
    // brings: the budget is in its range
    let _words = budget.number();
    interleaving_law();
    progress_law();
    bounds_law();
    Ok(Prepared {
        program,
        rewritten,
        layout,
        budget,
        batches: inputs.batches,
    })
}

/// Judges the executable, which was read, the text of the record, the rewriting or the verified
/// file, the number of words that the record names and the layout of its blocks, in this order, and
/// gives the parts of the record's run.
pub fn prepare_replay<'a>(
    alloc: Global,
    elf: &'a Elf<'_>,
    inputs: &Inputs<'_>,
) -> Result<(Prepared<'a>, Record), Failure>
    requires reads { ReadsAs (bytes_of inputs.now).executable elf.now }
    ensures rewritten { IfOk result (λ p. RunsRewritten (work_for p.0)) }
    ensures ready { IfOk result (λ p. IsReadyFor (bytes_of inputs.now) p.1 (work_for p.0)) }
    ensures asked { IfOk result (λ p. IsWorkOf (bytes_of inputs.now) p.1 p.0.program
        p.0.rewritten.plan (work_for p.0)) }
    ensures refused { IfErr result (IsReplayRefusal (bytes_of inputs.now)) }
{
    let program = program_of(alloc, elf)?;
    let kept = record_in(alloc, inputs.text)?;
    let rewritten = rewriting_of(alloc, &program, elf, kept.batch, inputs.verified)?;
    judge_words(alloc, &kept, rewritten.image())?;
    let layout = layout_of_blocks(alloc, &program, &kept)?;
    let Some(budget) = Budget::of(kept.budget) else {
        unreachable!();
    };
    interleaving_law();
    progress_law();
    bounds_law();
    let prepared = Prepared {
        program,
        rewritten,
        layout,
        budget,
        batches: kept.batch,
    };
    Ok((prepared, kept))
}
