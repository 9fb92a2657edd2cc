//! Words in a row, by strides, counted by their numbers.

ghost use Rattle.std.specs.Prelude.{◌≡◌, ◌+◌, ◌-◌, ◌^◌, ◌<◌, ◌≤◌, ℕ, Bool, List, true, length};
ghost use Rattle.std.specs.Prelude.{IfSome};
ghost use Rattle.node_words.specs.exec_map.Contents.{program_of};
ghost use Rattle.node_words.specs.jump_map.Image.{Cell, most_words};
ghost use Rattle.node_words.specs.jump_map.Micro.{AreMicrosOf, IsMicroAt};
ghost use Rattle.node_words.specs.jump_map.Strides.{HasStrides};
ghost use Rattle.node_words.specs.node_model.Node.{next_outcome};
ghost use Rattle.node_words.specs.node_memory.Shelf.{ground_of, local_of};
ghost use Rattle.node_words.specs.Address.{word_address};
ghost use Rattle.node_words.specs.GoingOn.{BodyGoesOn};
ghost use Rattle.node_words.specs.Kept.{StepsOr, lane_of};
ghost use Rattle.node_words.specs.Runs.{numbers_from, reads_other};
ghost use Rattle.node_words.specs.Strides.{IsTried};
ghost use Rattle.node_words.specs.UndoLogs.{StaysUndoable};
ghost use Rattle.word_visits.specs.Counting.{BodyIsCounted, PassesBy};
ghost use Rattle.word_visits.specs.Entries.{AreFree, behind_at};
ghost use Rattle.word_visits.specs.Entries.{begun_in, is_ordered, looks_in, visits_in};
ghost use Rattle.word_visits.specs.Visits.{visited_all};

use crate::visit::{StrideTables, Visit, behind_at, most_counted};
use crate::visits::Visits;
use node_words::jump_map::Image;
use node_words::micro_op::{MicroKind, MicroOp};
use node_words::{ExecState, Going, MOST_AT_ONCE, Progress, WordLoop};

/// The loop that counts how often it executes each word. It ends before a word that isn't counted:
/// one that looks and reads the flag word; any, where the image has more words than the table, or
/// once all counts together have no room.
impl WordLoop for Visits {
    ghost use Rattle.word_visits.specs.VisitTables.{AreVisitsIn, visits_of};
    ghost use Rattle.word_visits.specs.Visits.{AreCounted};

    ghost goes_over = { AreVisitsIn };

    ghost learns = { λ work words n v w. AreCounted work words n (visits_of v) (visits_of w) };

    fn run(&mut self, body: &mut ExecState<'_>, image: &Image, from: u32, most: u64) -> Progress {
        if self.entries.len() < self.kinds.len() {
            return Progress { at: from, words: 0 };
        }
        let most = most_counted(most, self.counted);
        let strides = StrideTables {
            micros: &self.micros,
            kinds: &self.kinds,
        };
        let done = pass_words(
            body,
            image,
            from,
            most,
            strides,
            &mut self.entries,
            &mut self.behind,
        );
        self.counted += done.words;
        done
    }
}

/// Executes words from an index on, as long as they are silent and count, and at most `most`. The
/// sum of the next word's number and of how many more there may be stays the same as long as words
/// stand one after another: they are one stretch.
#[inline(never)]
fn pass_words(
    body: &mut ExecState<'_>,
    image: &Image,
    from: u32,
    most: u32,
    strides: StrideTables<'_>,
    entries: &mut [Visit],
    behind: &mut usize,
) -> Progress
    requires few { length image.now ≤ most_words }
    requires micros { AreMicrosOf image.now strides.micros.now }
    requires strides { HasStrides strides.micros.now strides.kinds.now }
    requires enough { length strides.kinds.now ≤ length entries.old }
    requires free { AreFree (looks_in entries.old) strides.kinds.now }
    requires ordered { is_ordered 0 0 behind.old entries.old ≡ true }
    requires room { begun_in entries.old + most < 2 ^ 64 }
    ensures words { BodyGoesOn image.now most from body.old result.words result.at body.new }
    ensures visits { BodyIsCounted image.now most from body.old result.words
        (visits_in 0 0 entries.old) (visits_in 0 0 entries.new) }
    ensures looks { (k : ℕ) → looks_in entries.new k ≡ looks_in entries.old k }
    ensures ordered { is_ordered 0 0 behind.new entries.new ≡ true }
    ensures begun { begun_in entries.new ≤ begun_in entries.old + result.words }
    ensures most { result.words ≤ most }
    ensures ground { ground_of body.new.local ≡ ground_of body.old.local }
    ensures counts { body.new.counts ≡ body.old.counts }
    ensures undoable { StaysUndoable body.old body.new }
{
    let mut going = Going {
        at: from as usize,
        left: most,
    };
    if going.at >= strides.kinds.len() {
        return Progress { at: from, words: 0 };
    }
    let mut first = going.at;
    let mut line = going.at + going.left as usize;
    while going.left > 0 {
        let here = going.at;
        if pass_stride(body, image, strides, &mut going) {
            if going.at + going.left as usize != line {
                let last = behind_at(strides.kinds, here);
                count(entries, behind, first, line - going.left as usize - last);
                first = going.at - last;
                line = going.at + going.left as usize;
            }
        } else {
            match pass_one(body, image, entries[here].looks, here as u32) {
                Some(next) => {
                    going.to(1, next as usize);
                    if going.at + going.left as usize != line {
                        count(entries, behind, first, line - going.left as usize);
                        first = going.at;
                        line = going.at + going.left as usize;
                    }
                    if going.at >= strides.kinds.len() {
                        break;
                    }
                }
                None => break,
            }
        }
    }
    count(entries, behind, first, line - going.left as usize);
    Progress {
        at: going.at as u32,
        words: (most - going.left) as u64,
    }
}

/// Counts a stretch: the words from a number on that stand before another were executed once more.
#[inline(always)]
fn count(entries: &mut [Visit], behind: &mut usize, first: usize, end: usize)
    requires ordered { is_ordered 0 0 behind.old entries.old ≡ true }
    requires some { first ≤ end }
    requires within { first < end → end ≤ length entries.old }
    requires room { first < end → begun_in entries.old + 1 < 2 ^ 64 }
    ensures count { length entries.new ≡ length entries.old }
    ensures visits { visits_in 0 0 entries.new
        ≡ visited_all (numbers_from first (end - first)) (visits_in 0 0 entries.old) }
    ensures looks { (k : ℕ) → looks_in entries.new k ≡ looks_in entries.old k }
    ensures ordered { is_ordered 0 0 behind.new entries.new ≡ true }
    ensures begun { begun_in entries.new ≤ begun_in entries.old + 1 }
    ensures none { first ≡ end → entries.new ≡ entries.old }
{
    if first == end {
        return;
    }
    entries[first].begin();
    if end < entries.len() {
        entries[end].end();
    } else {
        *behind += 1;
    }
}

/// Executes the next word's stride, where there is room for it and it can be counted at once. Says
/// whether it does; else nothing changes. Where it does, a word of the image follows.
#[inline(always)]
pub(crate) fn pass_stride(
    body: &mut ExecState<'_>,
    image: &Image,
    strides: StrideTables<'_>,
    going: &mut Going,
) -> bool
    requires few { length image.now ≤ most_words }
    requires micros { AreMicrosOf image.now strides.micros.now }
    requires strides { HasStrides strides.micros.now strides.kinds.now }
    requires inside { going.old.at < length strides.kinds.now }
    ensures passed { (looks : ℕ → Bool) → AreFree looks strides.entry.kinds.now
        → IsTried result (PassesBy image.now looks (behind_at strides.entry.kinds.now going.old.at)
        going.old body.old going.new body.new) going.old body.old going.new body.new }
    ensures inside { result ≡ true → going.new.at < length strides.entry.kinds.now }
    ensures counts { body.new.counts ≡ body.old.counts }
    ensures undoable { StaysUndoable body.old body.new }
{
    if going.left < MOST_AT_ONCE {
        return false;
    }
    body.stride(strides.kinds[going.at], image, strides.micros, going)
}

/// Executes the word with an index, where it is silent and counts, in a call of its own: this keeps
/// the loop small. `None` for every other word; then nothing changed.
#[inline(never)]
pub(crate) fn pass_one(body: &mut ExecState<'_>, image: &Image, looks: bool, at: u32) -> Option<u32>
    requires { length image.now ≤ most_words }
    ensures steps { StepsOr image.now (next_outcome (program_of body.old.local.program)
        image.now (lane_of body.old.lane (word_address at)) (local_of body.old.local))
        body.old.lane body.old.local body.new.lane body.new.local result }
    ensures reads { IfSome result (λ _. looks ≡ true
        → reads_other (next_outcome (program_of body.old.local.program) image.now
        (lane_of body.old.lane (word_address at)) (local_of body.old.local)) ≡ true) }
    ensures counts { body.new.counts ≡ body.old.counts }
    ensures undoable { StaysUndoable body.old body.new }
{
    let op = image.micro(at)?;
    if !may_count(body, looks, op) {
        return None;
    }
    body.step_on(image, at)
}

/// Whether a word counts, by its micro-op: where it looks, that has to load a word other than
/// the flag word.
#[inline(always)]
fn may_count(body: &ExecState<'_>, looks: bool, op: &MicroOp) -> bool
    ensures { result ≡ true → looks ≡ true → (image : List Cell) (at : ℕ)
        → length image ≤ most_words → IsMicroAt image at op.now
        → reads_other (next_outcome (program_of body.now.local.program) image
        (lane_of body.now.lane (word_address at)) (local_of body.now.local)) ≡ true }
{
    if !looks {
        return true;
    }
    match op.kind {
        MicroKind::LoadWord => match body.value_unlike_flag(body.sum_by(op)) {
            Some(_value) => true,
            None => false,
        },
        _ => false,
    }
}
