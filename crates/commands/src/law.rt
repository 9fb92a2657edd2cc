//! What a run and a replay of its record print, and what the lines tell with which a record begins.
//! There is no code here.

ghost use Rattle.std.specs.Prelude.{◌≡◌, ◌⊎◌, ℕ, List};
ghost use Rattle.block_layout.specs.Layout.{Shape};
ghost use Rattle.dsm_io.specs.Causes.{Appends, AppendsPrefix};
ghost use Rattle.dsm_io.specs.States.{FilesState, SinkState};
ghost use Rattle.command_line.specs.Commands.{Command};
ghost use Rattle.commands.specs.Again.{IsReplayOf, PutOneText};
ghost use Rattle.commands.specs.Headline.{IsText, Prints, PrintsPrefix};
ghost use Rattle.commands.specs.Inputs.{inputs_of};
ghost use Rattle.commands.specs.Interleaved.{BeginsRecord};
ghost use Rattle.commands.specs.Refusals.{IsRefused, IsLayoutRefused, IsRecordRefused};

use block_layout::range_list_law;
use check_plan::plan_law;
use replay::replay_law;
use rewrite_verify::verify_law;
use rewriter::rewrite_law;
use rewriting_law::progress_law;
use run_order::journal_law;
use run_record::record_law;

/// The law of a `run` and a `replay` of the record that it left, which the callers use by its
/// clauses; the call does nothing.
pub fn run_and_replay_law()
    // What the `replay` prints, of the same executable and the same verified file, or none, is what
    // the `run` printed; and the status is the same.
    ensures prints { (ran replay : Command) (contents later : List ℕ → List ℕ)
        (left found : FilesState) (before now before_again now_again : SinkState)
        (status status_again : ℕ) → IsReplayOf contents later left ran replay
        → Prints ran contents left before now status
        → Prints replay later found before_again now_again status_again
        → PutOneText before now status before_again now_again status_again }
    // Where the `run` put no more than a prefix of its text, the `replay` prints the whole.
    ensures whole { (ran replay : Command) (contents later : List ℕ → List ℕ)
        (left found : FilesState) (before now before_again now_again : SinkState) (status : ℕ)
        → IsReplayOf contents later left ran replay → PrintsPrefix ran contents left before now
        → Prints replay later found before_again now_again status
        → (text : List ℕ) × AppendsPrefix before.taken now.taken text
        × Appends before_again.taken now_again.taken text }
    // And nothing refuses the `replay`: not its executable or verified file, nor the layout or the
    // events of the record.
    ensures taken { (ran replay : Command) (contents later : List ℕ → List ℕ) (left : FilesState)
        (text line : List ℕ) (status : ℕ) → IsReplayOf contents later left ran replay
        → IsText ran left (inputs_of ran contents) text status
        → IsRefused replay (inputs_of replay later) line
        ⊎ (IsLayoutRefused replay (inputs_of replay later) line
        ⊎ IsRecordRefused replay (inputs_of replay later) line) → ⊥ }
{
    plan_law();
    range_list_law();
    progress_law();
    journal_law();
    record_law();
    rewrite_law();
    verify_law();
    replay_law();
}

/// The law of the lines with which a record begins: they tell its nodes, its budget and its blocks.
/// A caller uses the clause; the call does nothing.
pub fn record_head_law()
    ensures one { (text : List ℕ) (layout other : Shape) (budget limit : ℕ)
        → BeginsRecord text layout budget → BeginsRecord text other limit
        → (layout.nodes ≡ other.nodes) × (budget ≡ limit) × (layout.named ≡ other.named) }
{}
