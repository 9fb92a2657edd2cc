#![tactic(auto)]
//! What a recorded run stands for on one memory, pick by pick.

ghost use Rattle.std.specs.Prelude.{◌≡◌, ◌<◌, ◌≤◌, ◌⊎◌, ◌++◌, ◌∷◌, [], ℕ, List, map, true};
ghost use Rattle.std.specs.Prelude.{IfOk, OnOk, IsErrOf};
ghost use Rattle.std.specs.Prelude.{if◌then◌else◌};
ghost use Rattle.std.specs.Option.{option_map, option_to_list};
ghost use Rattle.rv32_step.specs.OneMemory.{Step};
ghost use Rattle.one_memory.specs.Shown.{pick_of as model_pick};
ghost use Rattle.run_trace.specs.Given.{traced_of, take_of};
ghost use Rattle.run_trace.specs.Traced.{Traced as OfEvent};
ghost use Rattle.run_trace.specs.Tracing.{HasTraced, IsSame, events_to_trace, replayer_in};
ghost use Rattle.run_trace.specs.replay.Way.{IsStretch};
ghost use Rattle.run_trace.specs.node_model.jump_map.Image.{IsRewriting};
ghost use Rattle.run_trace.specs.replay.Refusals.{IsFirstBroken, IsUnfinished};
ghost use Rattle.run_trace.specs.replay.declared.refused.ReplayRule.{ReplayRule as Rules};
ghost use Rattle.run_trace.specs.replay.declared.refused.ReplayRefused.TheVariants.{Broken};
ghost use Rattle.run_trace.specs.replay.dsm_core.CoreParts.{work_in};
ghost use Rattle.run_trace.specs.replay.rewriting_law.Bounds.{RunsRewritten};
ghost use Rattle.run_trace.specs.replay.run_record.Record.{IsRecord};
ghost use Rattle.templates.specs.Code.{HasCode};
ghost use Rattle.record_picks.specs.Picks.{ArePicksOf, IsInterleaved};
ghost use Rattle.record_picks.specs.Seen.{picks_seen, break_seen, HasPickedOn};

use one_memory::Pick;
use replay::dsm_core::Work;
use replay::rewriting_law::interleaving_law;
use replay::run_record::Record;
use replay::{ReplayRefused, WordsAhead};
use run_trace::{TakeTraced, Traced, Tracer, What};
use std::alloc::{AllocError, Global};
use templates::{Code, Plan};

/// The picks of the run on one memory that a record's run stands for, by the law of rewriting,
/// where the record tells of a whole run of rewritten code that the plan says.
///
/// Fails with the first event that can't be made as it is told of, as `replay` does.
pub fn picks_of_record(
    alloc: Global,
    work: &Work<'_>,
    plan: &Plan,
    code: &Code,
    rec: &Record,
) -> Result<Vec<Pick>, ReplayRefused>
    requires rewritten { RunsRewritten (work_in work.now) }
    requires plan { IsRewriting (work_in work.now).program plan.now (work_in work.now).image }
    requires code { HasCode (work_in work.now).program code.now }
    requires record { IsRecord rec.now }
    requires nodes { (work_in work.now).layout.nodes ≡ rec.now.nodes }
    ensures picks { IfOk result (λ picks.
        ArePicksOf (work_in work.now) plan.now rec.now (map model_pick picks.items)) }
    ensures allowed { IfOk result (λ picks.
        IsInterleaved (work_in work.now) (map model_pick picks.items)) }
    ensures refused { (rule : Rules) (node entry : ℕ) → IsErrOf result (Broken rule node entry)
        → IsFirstBroken (work_in work.now) rec.now rule node entry
        ⊎ IsUnfinished (work_in work.now) rec.now rule node entry }
{
    interleaving_law();
    let mut tracer = Tracer::new(alloc, work, plan, code, rec)?;
    let mut picks = Vec::new(alloc);
    loop {
        push_silent(&mut tracer, &mut picks)?;
        let Some(event) = tracer.next()? else {
            return Ok(picks);
        };
        push_if(&mut picks, pick_of(&event))?;
    }
}

/// Makes words that only compute or access memory, as long as such words come next, and appends the
/// steps that they commit.
fn push_silent(tracer: &mut Tracer<'_>, picks: &mut Vec<Pick>) -> Result<(), AllocError>
    requires traced { (seen : List OfEvent) × HasTraced tracer.old seen }
    ensures picked { (seen : List OfEvent) → HasTraced tracer.old seen → OnOk result
        (HasPickedOn tracer.new seen (map model_pick picks.old.items)
        (map model_pick picks.new.items)) }
    ensures same { OnOk result (IsSame tracer.old tracer.new) }
    ensures most { OnOk result (events_to_trace tracer.new ≤ events_to_trace tracer.old) }
{
    while let Some(stretch) = tracer.words_ahead() {
        if !push_stretch(tracer, stretch, picks)? {
            return Ok(());
        }
    }
    Ok(())
}

/// Makes words of a stretch, as long as they only compute or access memory, and appends the steps
/// that they commit. It says whether it made all.
fn push_stretch(
    tracer: &mut Tracer<'_>,
    stretch: WordsAhead,
    picks: &mut Vec<Pick>,
) -> Result<bool, AllocError>
    requires traced { (seen : List OfEvent) × HasTraced tracer.old seen }
    requires stretch { IsStretch (replayer_in tracer.old) stretch }
    requires some { 0 < stretch.words }
    ensures picked { (seen : List OfEvent) → HasTraced tracer.old seen → OnOk result
        (HasPickedOn tracer.new seen (map model_pick picks.old.items)
        (map model_pick picks.new.items)) }
    ensures same { OnOk result (IsSame tracer.old tracer.new) }
    ensures most { OnOk result (events_to_trace tracer.new ≤ events_to_trace tracer.old) }
    ensures fewer { IfOk result (λ all. all ≡ true
        → events_to_trace tracer.new < events_to_trace tracer.old) }
{
    let mut stretch = stretch;
    while stretch.words > 0 {
        let Some(commits) = tracer.make_silent_word(&mut stretch) else {
            return Ok(false);
        };
        push_if(picks, step_by(stretch.node, commits))?;
    }
    Ok(true)
}

/// Appends a pick, if there is one.
fn push_if(picks: &mut Vec<Pick>, pick: Option<Pick>) -> Result<(), AllocError>
    ensures { OnOk result (map model_pick picks.new.items
        ≡ map model_pick picks.old.items ++ option_to_list (option_map model_pick pick)) }
{
    match pick {
        Some(pick) => {
            picks.push(pick)?;
            Ok(())
        }
        None => Ok(()),
    }
}

/// The pick that an event stands for, if it stands for one.
pub fn pick_of(event: &Traced) -> Option<Pick>
    ensures { option_to_list (option_map model_pick result) ≡ picks_seen (traced_of event.now) }
{
    match &event.what {
        What::Word(word) => step_by(event.node, word.commits),
        What::Take(take) => break_by(event.node, take),
    }
}

/// The step of a word that commits.
fn step_by(node: u8, commits: bool) -> Option<Pick>
    ensures { option_to_list (option_map model_pick result)
        ≡ (if commits then Step node ∷ [] else []) }
{
    if commits {
        Some(Pick::Step(node))
    } else {
        None
    }
}

/// The break of a take that ends the node's reservation: it is for the node for which the message
/// takes the block away.
fn break_by(node: u8, take: &TakeTraced) -> Option<Pick>
    ensures { option_to_list (option_map model_pick result) ≡ break_seen node (take_of take.now) }
{
    if !take.clears {
        return None;
    }
    match take.message.requester {
        Some(by) => Some(Pick::Break { of: node, by }),
        None => None,
    }
}
