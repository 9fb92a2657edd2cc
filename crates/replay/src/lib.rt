#![tactic(auto)]
//! Makes the run of a record once more.
//!
//! It hands on what a run is and what is known of it: [`dsm_core`], [`node_machine`],
//! [`node_model`], [`run_record`], [`run_order`] and [`rewriting_law`].

ghost use Rattle.std.specs.Prelude.{◌≡◌, ℕ, ◌⊎◌, IfOk, IsErrOf};
ghost use Rattle.dsm_core.specs.rewriting_law.Bounds.{RunsRewritten};
ghost use Rattle.dsm_core.specs.CoreParts.{work_in, outcome_of};
ghost use Rattle.run_record.specs.Record.{IsRecord};
ghost use Rattle.replay.specs.Refusals.{IsFirstBroken, IsUnfinished};
ghost use Rattle.replay.specs.Replay.{IsReplay};
ghost use Rattle.replay.specs.declared.refused.ReplayRule.{ReplayRule as Rules};
ghost use Rattle.replay.specs.declared.refused.ReplayRefused.TheVariants.{Broken};

mod cursor;
mod events;
mod law;
mod refused;

pub use dsm_core;
pub use dsm_core::{node_machine, rewriting_law};
use dsm_core::{Outcome, Work};
pub use events::{Replayer, WordsAhead};
pub use law::replay_law;
pub use refused::{ReplayRefused, ReplayRule};
pub use run_order;
pub use run_order::node_model;
pub use run_record;
use run_record::Record;
use std::alloc::Global;

/// Makes the events that a record tells of, by (stamp, node), on a core that runs this, and gives
/// what the run gives. The layout has as many nodes as the record.
///
/// Fails with the first event that can't be made as it is told of, and the lowest rule that it
/// breaks; or, where all can be made, with the least node that isn't over then.
pub fn replay(alloc: Global, work: &Work<'_>, rec: &Record) -> Result<Outcome, ReplayRefused>
    requires rewritten { RunsRewritten (work_in work.now) }
    requires record { IsRecord rec.now }
    requires nodes { (work_in work.now).layout.nodes ≡ rec.now.nodes }
    ensures ok { IfOk result (λ o. IsReplay (work_in work.now) rec.now (outcome_of o)) }
    ensures refused { (rule : Rules) (node entry : ℕ)
        → IsErrOf result (Broken rule node entry)
        → IsFirstBroken (work_in work.now) rec.now rule node entry
        ⊎ IsUnfinished (work_in work.now) rec.now rule node entry }
{
    let mut run = Replayer::new(alloc, work, rec)?;
    run.make_all()?;
    run.outcome(alloc)
}
