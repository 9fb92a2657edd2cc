//! The text of an outcome, and its status.

ghost use Rattle.std.specs.Prelude.{◌≡◌, ◌≤◌, IfOk, IfErr};
ghost use Rattle.std.specs.List.{list_all};
ghost use Rattle.prepared_run.specs.Outcomes.{status_of, told, IsTextOfOutcome};
ghost use Rattle.prepared_run.specs.Processors.{is_success};
ghost use Rattle.replay.specs.dsm_core.CoreParts.{outcome_of};
ghost use Rattle.text_output.specs.Failures.{Puts, FailsAs, IsNever};

use crate::text::{outcome_head, outcome_tail};
use dsm_io::Sink;
use exec_map::{End, Exit};
use replay::dsm_core::Outcome;
use replay::node_model::NodeCounts;
use std::alloc::Global;
use text_output::{Failure, put};

/// Puts the text of the outcome of nodes, which may be brief, and gives its status.
pub fn put_told<O: Sink>(
    alloc: Global,
    outcome: &Outcome,
    brief: bool,
    out: &mut O,
) -> Result<u8, Failure>
    ensures ok { IfOk result (λ status.
        Puts (IsTextOfOutcome (told brief (outcome_of outcome.now))) status
        (O.state out.old) (O.state out.new)) }
    ensures failure { IfErr result (FailsAs
        (IsTextOfOutcome (told brief (outcome_of outcome.now))) IsNever IsNever (O.state out.old)
        (O.state out.new)) }
{
    if brief {
        put_outcome(alloc, &outcome.output, &outcome.ends, &[], out)
    } else {
        put_outcome(alloc, &outcome.output, &outcome.ends, &outcome.counts, out)
    }
}

/// Puts the text of an outcome, and gives its status.
pub fn put_outcome<O: Sink>(
    alloc: Global,
    output: &[u8],
    ends: &[End],
    counts: &[NodeCounts],
    out: &mut O,
) -> Result<u8, Failure>
    ensures ok { IfOk result (λ status. Puts (IsTextOfOutcome
        (record { output = output.now; ends = ends.now; counts = counts.now }))
        status (O.state out.old) (O.state out.new)) }
    ensures faults { IfOk result (λ status. (O.state out.new).faults ≡ (O.state out.old).faults) }
    ensures failure { IfErr result (FailsAs (IsTextOfOutcome
        (record { output = output.now; ends = ends.now; counts = counts.now }))
        IsNever IsNever (O.state out.old) (O.state out.new)) }
{
    let head = outcome_head(alloc, output)?;
    let tail = outcome_tail(alloc, ends, counts)?;
    put(out, &head)?;
    put(out, output)?;
    put(out, &tail)?;
    Ok(status(ends))
}

/// 0 where every processor ended by itself with code 0, else 1.
fn status(ends: &[End]) -> u8
    ensures value { (output : _) (counts : _) → result
        ≡ status_of (record { output = output; ends = ends.now; counts = counts }) }
    ensures range { result ≤ 1 }
{
    if all_succeeded(ends) { 0 } else { 1 }
}

fn all_succeeded(ends: &[End]) -> bool
    ensures { result ≡ list_all is_success ends.now }
{
    ends.iter().all(|end| is_success(*end))
}

fn is_success(end: End) -> bool
    ensures { result ≡ is_success end }
{
    match end {
        End::Exited(Exit::Code(code)) => code == 0,
        End::Exited(_) | End::Stopped(_) => false,
    }
}
