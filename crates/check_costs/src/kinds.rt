//! What words of rewritten code are there for.

ghost use Rattle.std.specs.Prelude.{◌≡◌, ◌≤◌, length, replicate};
ghost use Rattle.check_costs.specs.Counts.{times};
ghost use Rattle.check_costs.specs.Kinds.{check_of};

use templates::Template;

/// What a word of rewritten code is there for.
#[derive(Clone, Copy, PartialEq, Eq)]
pub enum WordKind {
    /// It commits an instruction of the original. A load by its value has two such words, and one
    /// of them commits. An instruction of a run has one after the run's check, and one by itself.
    /// So what checks add is the number of all words less that of the instructions.
    Own,
    /// It checks a load by its value.
    FlagCheck,
    /// It checks a load, or an LR, by its line's state.
    StateCheck,
    /// It checks a store, an AMO or an SC.
    StoreCheck,
    /// It checks a run of accesses, or leads past it.
    Batch,
    /// It takes messages.
    Poll,
    /// It leads to another place, or puts together an address of the original: what a jump, a
    /// branch or a value of the pc takes besides its own word. Or it traps where there is no code.
    Jump,
    /// It saves a scratch register, or brings it back.
    Spill,
}

/// What the words of a place's own sequence are there for that don't commit, by its template.
pub(crate) fn check_of(template: Template) -> WordKind
    ensures { result ≡ check_of template }
{
    match template {
        Template::FlagLoad => WordKind::FlagCheck,
        Template::StateLoad => WordKind::StateCheck,
        Template::Store | Template::StoreCond => WordKind::StoreCheck,
        Template::Plain
        | Template::Const
        | Template::Branch
        | Template::BranchBad
        | Template::Jump
        | Template::JumpBad
        | Template::Indirect
        | Template::Call
        | Template::Trap
        | Template::Stop => WordKind::Jump,
    }
}

/// How many of these kinds are this one.
pub(crate) fn times(kind: WordKind, kinds: &[WordKind]) -> usize
    ensures value { result ≡ times kind kinds.now }
    ensures few { result ≤ length kinds.now }
{
    let mut count = 0;
    for other in kinds {
        if *other == kind {
            count += 1;
        }
    }
    count
}

/// How many of `words` words, all of one kind, are of another.
pub(crate) fn times_alike(other: WordKind, kind: WordKind, words: usize) -> usize
    ensures { result ≡ times other (replicate words kind) }
{
    if kind == other { words } else { 0 }
}
