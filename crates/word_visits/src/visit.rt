//! One entry of a table of visits, and the strides of one.

ghost use Rattle.std.specs.Prelude.{◌≡◌, ◌+◌, ◌^◌, ◌<◌, ◌≤◌, ℕ, Some, true, length};
ghost use Rattle.node_words.specs.Trails.{trail_of};
ghost use Rattle.word_visits.specs.Entries.{IsSlowedTo, behind_at, once_begun, once_ended};

use node_words::jump_map::StrideKind;
use node_words::micro_op::MicroOp;

/// No stride of a table goes over more words.
pub(crate) const MOST_REACH: usize = 22;

/// Whether a word looks, and the stretches of executed words that it begins and that end before it.
#[derive(Clone, Copy, Debug, PartialEq, Eq)]
pub(crate) struct Visit {
    pub(crate) looks: bool,
    pub(crate) begun: usize,
    pub(crate) ended: usize,
}

impl Visit {
    /// One more stretch begins at the word.
    #[inline(always)]
    pub(crate) fn begin(&mut self)
        requires { self.old.begun + 1 < 2 ^ 64 }
        ensures { self.new ≡ once_begun self.old }
    {
        self.begun += 1;
    }

    /// One more stretch ends before the word.
    #[inline(always)]
    pub(crate) fn end(&mut self)
        requires { self.old.ended + 1 < 2 ^ 64 }
        ensures { self.new ≡ once_ended self.old }
    {
        self.ended += 1;
    }
}

/// The micro-ops of an image's words, and what is executed at once from each on, where a table has
/// them. A word goes by itself, that is its stride is slow, where the stride would go over a word
/// that looks.
#[derive(Clone, Copy)]
pub(crate) struct StrideTables<'a> {
    pub(crate) micros: &'a [MicroOp],
    pub(crate) kinds: &'a [StrideKind],
}

/// How many of at most `most` words may be executed at once, where so many were counted already: the
/// count has room for them.
#[inline(always)]
pub(crate) fn most_counted(most: u64, counted: u64) -> u32
    ensures most { result ≤ most }
    ensures room { result + counted < 2 ^ 64 }
{
    most.min(u64::MAX - counted).min(u32::MAX as u64) as u32
}

/// The kind of a stride, where that is short; else the word goes by itself.
pub(crate) fn short_stride(kind: StrideKind) -> StrideKind
    ensures slowed { IsSlowedTo kind result }
    ensures short { (at : ℕ) → (trail_of result at).reach ≤ 22 }
{
    if trail_by(kind).reach <= MOST_REACH {
        kind
    } else {
        StrideKind::Slow
    }
}

/// How many words of the stride from a number on stand after its jump.
#[inline(always)]
pub(crate) fn behind_at(kinds: &[StrideKind], at: usize) -> usize
    requires inside { at < length kinds.now }
    ensures { result ≡ behind_at kinds.now at }
{
    trail_by(kinds[at]).behind
}

/// Where the words of a stride stand: how many from its first on, and how many of them after its
/// jump.
#[derive(Clone, Copy)]
pub(crate) struct Trail {
    pub(crate) reach: usize,
    pub(crate) behind: usize,
}

/// Where the words of a stride of a kind stand.
#[inline(always)]
pub(crate) fn trail_by(kind: StrideKind) -> Trail
    ensures reach { (at : ℕ) → result.reach ≡ (trail_of kind at).reach }
    ensures behind { (at : ℕ) → result.behind ≡ (trail_of kind at).behind }
{
    match kind {
        StrideKind::Slow => among(0, 0),
        StrideKind::OverEq
        | StrideKind::OverNe
        | StrideKind::OverLt
        | StrideKind::OverGe
        | StrideKind::OverLtu
        | StrideKind::OverGeu
        | StrideKind::PollJump
        | StrideKind::PollEnter
        | StrideKind::Number
        | StrideKind::AddImmThenAddImm
        | StrideKind::AddImmThenAdd
        | StrideKind::AddThenAddImm
        | StrideKind::AddThenAdd
        | StrideKind::SllImmThenAddImm
        | StrideKind::SllImmThenAdd
        | StrideKind::MulThenAddImm
        | StrideKind::MulThenAdd => among(2, 0),
        StrideKind::PollOverEq
        | StrideKind::PollOverNe
        | StrideKind::PollOverLt
        | StrideKind::PollOverGe
        | StrideKind::PollOverLtu
        | StrideKind::PollOverGeu
        | StrideKind::Call
        | StrideKind::AddImmThenOverEq
        | StrideKind::AddImmThenOverNe
        | StrideKind::AddImmThenOverLt
        | StrideKind::AddImmThenOverGe
        | StrideKind::AddImmThenOverLtu
        | StrideKind::AddImmThenOverGeu
        | StrideKind::AddThenOverEq
        | StrideKind::AddThenOverNe
        | StrideKind::AddThenOverLt
        | StrideKind::AddThenOverGe
        | StrideKind::AddThenOverLtu
        | StrideKind::AddThenOverGeu => among(3, 0),
        StrideKind::ReadByte0
        | StrideKind::ReadHalf0
        | StrideKind::ReadWord0
        | StrideKind::ReadByteU0
        | StrideKind::ReadHalfU0
        | StrideKind::Flag1 => among(9, 1),
        StrideKind::ReadByte1
        | StrideKind::ReadHalf1
        | StrideKind::ReadWord1
        | StrideKind::ReadByteU1
        | StrideKind::ReadHalfU1 => among(11, 2),
        StrideKind::ReadByte2
        | StrideKind::ReadHalf2
        | StrideKind::ReadWord2
        | StrideKind::ReadByteU2
        | StrideKind::ReadHalfU2 => among(13, 3),
        StrideKind::WriteByte0 | StrideKind::WriteHalf0 | StrideKind::WriteWord0 => among(8, 1),
        StrideKind::WriteByte1 | StrideKind::WriteHalf1 | StrideKind::WriteWord1 => among(10, 2),
        StrideKind::WriteByte2 | StrideKind::WriteHalf2 | StrideKind::WriteWord2 => among(12, 3),
        StrideKind::Flag0 => among(7, 0),
        StrideKind::ReadHead0 => among(16, 0),
        StrideKind::ReadHead1 => among(18, 1),
        StrideKind::ReadHead2 => among(20, 2),
        StrideKind::ReadHead3 => among(22, 3),
        StrideKind::WriteHead0 => among(15, 0),
        StrideKind::WriteHead1 => among(17, 1),
        StrideKind::WriteHead2 => among(19, 2),
        StrideKind::WriteHead3 => among(21, 3),
        StrideKind::AddImmThenPollOverEq
        | StrideKind::AddImmThenPollOverNe
        | StrideKind::AddImmThenPollOverLt
        | StrideKind::AddImmThenPollOverGe
        | StrideKind::AddImmThenPollOverLtu
        | StrideKind::AddImmThenPollOverGeu
        | StrideKind::AddThenPollOverEq
        | StrideKind::AddThenPollOverNe
        | StrideKind::AddThenPollOverLt
        | StrideKind::AddThenPollOverGe
        | StrideKind::AddThenPollOverLtu
        | StrideKind::AddThenPollOverGeu => among(4, 0),
        // Each other is a word by itself
        _ => among(1, 0),
    }
}

/// A trail of so many words, of which so many stand after the jump.
#[inline(always)]
fn among(reach: usize, behind: usize) -> Trail
    ensures reach { result.reach ≡ reach }
    ensures behind { result.behind ≡ behind }
{
    Trail { reach, behind }
}

/// Whether a stride of a kind goes over no word that looks so much further on, or reads there
/// something other than the flag word.
pub(crate) fn is_clear(kind: StrideKind, further: usize) -> bool
    ensures { result ≡ true → (at : ℕ) → further < (trail_of kind at).reach
        → (trail_of kind at).told ≡ Some (at + further) }
{
    match kind {
        StrideKind::Flag0 if further == 2 => true,
        StrideKind::Flag1 if further == 3 => true,
        _ => trail_by(kind).reach <= further,
    }
}
