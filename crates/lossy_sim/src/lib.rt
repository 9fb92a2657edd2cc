#![tactic(auto)]
//! Runs of nodes on one thread, over links that lose, repeat and keep back packets.
//!
//! It hands on what it runs nodes by: [`dsm_core`] and [`shared_sim`].

ghost use Rattle.std.specs.Prelude.{◌+◌, ◌*◌, ◌≤◌, ℕ, List, length};
ghost use Rattle.node_model.specs.Node.{Work};
ghost use Rattle.node_model.specs.Core.{IsCoreRun, opening_core, after};
ghost use Rattle.dsm_core.specs.rewriting_law.Bounds.{RunsRewritten, most_events};
ghost use Rattle.lossy_sim.specs.UnderWay.{StandFor};
ghost use Rattle.lossy_sim.specs.WithLoss.{State, Turn, FollowsLoss, opening_state, ordinary};

mod links;
mod listing;
mod nodes;
mod run;

pub use dsm_core;
use dsm_core::rewriting_law::progress_law;
pub use run::lossy_simulate;
pub use shared_sim;

/// The law of runs with loss, which callers use by its clauses; the call does nothing. It holds of
/// whatever the nodes run.
pub fn loss_law()
    // The ordinary events of a run with loss are a core run: a turn of the network is none.
    ensures core_run { (work : Work) (order loss : ℕ) (turns : List Turn) (last : State)
        → FollowsLoss work 1 (opening_state work order loss) turns last
        → IsCoreRun work (opening_core work) (ordinary turns) }
    // Its nodes are those of the core which they reach, and the core's list from j to i is what was
    // offered there without what was delivered.
    ensures stands { (work : Work) (order loss : ℕ) (turns : List Turn) (last : State)
        → FollowsLoss work 1 (opening_state work order loss) turns last
        → StandFor work.layout.nodes last.nodes last.links
        (after work (opening_core work) (ordinary turns)) }
    // Where the nodes run rewritten code, no such run is of more turns than this: so one that goes
    // on until every node is over ends. Among any eight draws in a row for packet 0 of a link, or
    // for its acknowledgement, one lets it through.
    ensures ends { (work : Work) (order loss : ℕ) (turns : List Turn) (last : State)
        → RunsRewritten work → FollowsLoss work 1 (opening_state work order loss) turns last
        → length turns ≤ 26 * (most_events work + 1) }
{
    progress_law();
}
