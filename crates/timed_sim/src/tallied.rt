//! Words of each node, as long as they are tallied.

ghost use Rattle.std.specs.Prelude.{◌≡◌, ◌≤◌, ◌<◌, ℕ, IfOk, OnErr, slice_index_or};
ghost use Rattle.word_visits.specs.TallyTables.{AreTalliesIn, tallies_of};
ghost use Rattle.dsm_core.specs.node_model.Core as model;
ghost use Rattle.dsm_core.specs.node_model.Core.{May};
ghost use Rattle.dsm_core.specs.CoreParts.{work_of, core_of};
ghost use Rattle.dsm_core.specs.CoreWords.{HaveEachPassed};
ghost use Rattle.timed_sim.specs.Tallied.{AreEachTallied, steps_below};

use dsm_core::{Core, StoppedEarly, UndoLogs};
use word_visits::{Tallies, TallyLoop};

/// Each node executes so many words, by its number, where their micro-ops serve all of them and all
/// are tallied, and the answer gives how many of them count, of all nodes together. Such words print
/// nothing and send nothing, and a node that may execute a word still may. Otherwise nothing
/// changes, and the answer tells a node that stopped early.
pub(crate) fn run_each_tallied(
    core: &mut Core<'_>,
    words: &[u32; 16],
    undo_logs: &mut UndoLogs,
    tallies: &Tallies,
) -> Result<u64, StoppedEarly>
    requires undo_logs { undo_logs.old ≡ core.old.layout.nodes }
    requires nodes { core.old.layout.nodes ≤ 16 }
    requires enabled { (i : ℕ) → i < core.old.layout.nodes → 1 ≤ slice_index_or words.now i 0
        → May (work_of core.old) (core_of core.old) (model.Exec i) }
    requires table { AreTalliesIn (work_of core.old).image tallies.now }
    ensures passed { IfOk result (λ steps. HaveEachPassed (work_of core.old)
        (λ i. slice_index_or words.now i 0) (core_of core.old) (core_of core.new)) }
    ensures tallied { IfOk result (λ steps. AreEachTallied (work_of core.old)
        (λ i. slice_index_or words.now i 0) (core_of core.old) (tallies_of tallies.now)) }
    ensures steps { IfOk result (λ steps. steps ≡ steps_below (work_of core.old)
        (λ i. slice_index_or words.now i 0) core.old.layout.nodes (core_of core.old)
        (tallies_of tallies.now)) }
    ensures kept { OnErr result (core_of core.new ≡ core_of core.old) }
    ensures undo_logs { undo_logs.new ≡ undo_logs.old }
    ensures work { work_of core.new ≡ work_of core.old }
{
    let mut by = TallyLoop::new(tallies);
    core.run_each_by(&mut by, words, undo_logs)?;
    Ok(by.steps())
}
