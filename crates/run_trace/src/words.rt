//! What a word did, by what is seen before and after it.

ghost use Rattle.std.specs.Prelude.{◌≡◌, ◌-◌, ◌||◌, List, false, if◌then◌else◌, length, take};
ghost use Rattle.std.specs.Prelude.{IfSome};
ghost use Rattle.std.specs.Option.{option_map};
ghost use Rattle.templates.specs.declared.plans.PlanEntry.{PlanEntry};
ghost use Rattle.replay.specs.node_model.jump_map.Maps.{old_of};
ghost use Rattle.replay.specs.node_model.Node.{Work, Node as OfNode, Tally, counts_after, word_outcome};
ghost use Rattle.replay.specs.node_machine.NodeState.{work_of, node_of};
ghost use Rattle.run_trace.specs.Given.{tally_of, word_of};
ghost use Rattle.run_trace.specs.Kinds.{AreKindsOf};
ghost use Rattle.run_trace.specs.Looks.{IsBefore, IsAfterWord, reached_by, accessed_at, is_exited};
ghost use Rattle.run_trace.specs.Looks.{access_seen};
ghost use Rattle.run_trace.specs.Looks.{commits_when, waits_in};
ghost use Rattle.run_trace.specs.Traced as trace;

use crate::kinds::CommitKinds;
use crate::passed::reached_by_touch;
use crate::reach::{Reached, WordAccess, reach_of};
use crate::traced::{AccessKind, Accessed, Tallied, WordTraced};
use block_layout::Layout;
use replay::dsm_core::Seen;
use replay::node_machine::{Node, NodeCounts, Standing};
use replay::node_model::home_directory::dsm_messages::Headers;
use runtime_words::FLAG_WORD;
use rv32_program::End;
use templates::{CommitKind, Place};

/// What is seen of a word before it.
#[derive(Clone, Copy)]
pub(crate) struct Before {
    pub place: Option<Place>,
    pub kind: CommitKind,
    pub reach: WordAccess,
    pub counts: NodeCounts,
}

/// What is seen of a node's next word.
pub(crate) fn before_word(node: &Node<'_>, kinds: &CommitKinds) -> Before
    ensures { (plan : List PlanEntry)
        → AreKindsOf (work_of node.now).program plan (work_of node.now).image kinds.now
        → IsBefore (work_of node.now) plan (node_of node.now) result }
{
    Before {
        place: place_of(node),
        kind: kinds.at(node.at()),
        reach: reach_of(node),
        counts: node.counts(),
    }
}

/// Where a node's next word stands.
pub(crate) fn place_of(node: &Node<'_>) -> Option<Place>
    ensures { result ≡ old_of (work_of node.now).image (node_of node.now).lane.at }
{
    match node.next_word() {
        Some(word) => word.place,
        None => None,
    }
}

/// What a word did, by what was seen before it, while it was made, and of its node after it.
pub(crate) fn word_traced(
    before: Before,
    seen: Seen,
    layout: &Layout,
    node: &Node<'_>,
) -> WordTraced
    ensures { (work : Work) (plan : List PlanEntry) (n : OfNode)
        → IsAfterWord work plan n before seen layout.now node.now
        → word_of result ≡ trace.word_traced work plan n }
{
    let end = node.end();
    let reached = reached(before.reach, seen.printed);
    let exits = exits(end);
    let waits = waits(node.standing());
    WordTraced {
        place: before.place,
        commits: commits(before.kind, reached, exits, waits),
        access: accessed(layout, reached),
        wants: seen.wants,
        tally: tally(before.counts, node.counts()),
        printed: seen.printed,
        sends: but_byes(seen.sends, end.is_some(), layout.nodes()),
        end,
    }
}

/// What a word reaches that prints this.
pub(crate) fn reached(reach: WordAccess, printed: Option<u8>) -> Option<Reached>
    ensures { result ≡ reached_by reach printed }
{
    match (reach, printed) {
        (WordAccess::At(reached), _) => Some(reached),
        (WordAccess::IfPrints(address), Some(byte)) => Some(Reached {
            kind: AccessKind::Reads,
            address,
            value: Some(u32::from(byte)),
        }),
        _ => None,
    }
}

/// An access, with its block.
fn accessed(layout: &Layout, reached: Option<Reached>) -> Option<Accessed>
    ensures { result ≡ option_map (accessed_at layout.now) reached }
{
    match reached {
        Some(reached) => Some(accessed_at(layout, reached)),
        None => None,
    }
}

/// What is reached, with its block.
pub(crate) fn accessed_at(layout: &Layout, reached: Reached) -> Accessed
    ensures { result ≡ accessed_at layout.now reached }
{
    Accessed {
        kind: reached.kind,
        address: reached.address,
        block: layout.block_of(reached.address / 64),
    }
}

/// Whether a processor has ended by an exit.
pub(crate) fn exits(end: Option<End>) -> bool
    ensures { result ≡ is_exited end }
{
    match end {
        Some(End::Exited(_)) => true,
        _ => false,
    }
}

/// Whether a node waits.
pub(crate) fn waits(standing: Standing) -> bool
    ensures { result ≡ waits_in standing }
{
    match standing {
        Standing::Waiting => true,
        _ => false,
    }
}

/// Whether a word commits a step of the original.
pub(crate) fn commits(kind: CommitKind, reached: Option<Reached>, exits: bool, waits: bool) -> bool
    ensures { result ≡ (exits || commits_when kind reached waits) }
{
    exits
        || match kind {
            CommitKind::Never => false,
            CommitKind::Always => true,
            CommitKind::IfNotFlag => reads_other(reached),
            CommitKind::IfNoWait => !waits,
        }
}

/// Whether a node's next word commits a step of the original, if its micro-op serves it; `None`
/// where that doesn't tell.
#[inline(always)]
pub(crate) fn commits_silent(kind: CommitKind, node: &Node<'_>) -> Option<bool>
    ensures { IfSome result (λ commits. commits ≡ commits_when kind
        (access_seen (word_outcome (work_of node.now) (node_of node.now)).access) false) }
{
    match kind {
        CommitKind::Never => Some(false),
        CommitKind::Always | CommitKind::IfNoWait => Some(true),
        CommitKind::IfNotFlag => Some(reads_other(reached_by_touch(node, node.touch()?))),
    }
}

/// Whether a value is read that isn't the flag word.
fn reads_other(reached: Option<Reached>) -> bool
    ensures { result ≡ commits_when CommitKind.IfNotFlag reached false }
{
    match reached {
        Some(
            Reached {
                value: Some(value),
                ..
            },
        ) => value != FLAG_WORD,
        _ => false,
    }
}

/// What was counted between, beside misses and messages.
pub(crate) fn tally(before: NodeCounts, after: NodeCounts) -> Tallied
    ensures { (t : Tally) → after.falses ≡ (counts_after t before).falses
        → after.fallbacks ≡ (counts_after t before).fallbacks → tally_of result ≡ t }
{
    if after.falses != before.falses {
        return Tallied::FalseMiss;
    }
    if after.fallbacks != before.fallbacks {
        return Tallied::FallsBack;
    }
    Tallied::Nothing
}

/// What was sent but for farewells, which come last where the processor ended.
pub(crate) fn but_byes(sends: Headers, ended: bool, nodes: u8) -> Headers
    ensures { result.items ≡ (if ended then take (length sends.items - nodes) sends.items
        else sends.items) }
{
    let mut sends = sends;
    if ended {
        let len = sends.len();
        sends.truncate(len.saturating_sub(nodes as usize));
    }
    sends
}
