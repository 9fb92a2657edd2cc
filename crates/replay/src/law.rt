//! What a record tells of. There is no code here.

ghost use Rattle.std.specs.Prelude.{◌≡◌, ℕ, List, map};
ghost use Rattle.run_order.specs.node_model.Node.{Work};
ghost use Rattle.run_order.specs.node_model.Core.{Core, IsOver};
ghost use Rattle.run_order.specs.OwnRun.{Stamped, StandsForOwnRun};
ghost use Rattle.dsm_core.specs.rewriting_law.Bounds.{RunsRewritten};
ghost use Rattle.run_record.specs.declared.Record.{Record};
ghost use Rattle.replay.specs.Told.{Told, AreToldBy, what_told};
ghost use Rattle.replay.specs.Refusals.{IsFirstBroken, IsUnfinished};
ghost use Rattle.replay.specs.Replay.{TellsWholeRun, HasJournalsOf};
ghost use Rattle.replay.specs.declared.refused.ReplayRule.{ReplayRule as Rules};

use dsm_core::rewriting_law::progress_law;
use run_order::journal_law;

/// The law of records, which the callers use by its clauses; the call does nothing.
pub fn replay_law()
    // A record tells of one list of events.
    ensures one { (r : Record) (told other : List Told) → AreToldBy r told → AreToldBy r other
        → told ≡ other }
    // A record that tells of a whole run isn't refused for an event, nor for its end.
    ensures either { (work : Work) (r : Record) (told : List Told) (rule : Rules)
        (node entry : ℕ) → TellsWholeRun work r told → IsFirstBroken work r rule node entry → ⊥ }
    ensures ended { (work : Work) (r : Record) (told : List Told) (rule : Rules)
        (node entry : ℕ) → TellsWholeRun work r told → IsUnfinished work r rule node entry → ⊥ }
    // The record of a core that is over tells of the core's own run.
    ensures again { (work : Work) (c : Core) (own : List Stamped) (r : Record)
        → RunsRewritten work → StandsForOwnRun work c own → IsOver work c
        → HasJournalsOf work c r → (told : List Told) × TellsWholeRun work r told
        × (map what_told told ≡ own) }
{
    progress_law();
    journal_law();
}
