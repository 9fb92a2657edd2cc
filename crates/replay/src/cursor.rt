//! How far the journals of a record were followed, and which event comes next.

use run_order::node_model::Entry;
use run_record::Record;

/// How far the journal of a node was followed.
#[derive(Clone, Copy)]
pub(crate) struct Cursor {
    /// The takes made.
    pub takes: usize,
    /// The words executed since the last take.
    pub words: u64,
    /// The stamp of the last event.
    pub last: u64,
}

/// The start of a journal.
const START: Cursor = Cursor {
    takes: 0,
    words: 0,
    last: 0,
};

/// The first of the next events of nodes.
#[derive(Clone, Copy)]
pub(crate) struct First {
    pub node: u8,
    pub stamp: u64,
    /// The last stamp of a word of that node before the next events of all others.
    pub to: u64,
}

/// The journals of a record, and how far each was followed, by node.
#[derive(Drop)]
pub(crate) struct Cursors<'a> {
    pub rec: &'a Record,
    pub cursors: [Cursor; 16],
}

impl<'a> Cursors<'a> {
    ghost use Rattle.std.specs.Prelude.{◌≡◌, ◌≤◌, ◌<◌, ◌+◌, ℕ, MatchOption, [], length};
    ghost use Rattle.run_record.specs.Record.{IsRecord};
    ghost use Rattle.replay.specs.Told.{told_in, entries_of};
    ghost use Rattle.replay.specs.Way.{AreLawful, IsNext, IsFirst, IsFirstBelow, HasFollowed};
    ghost use Rattle.replay.specs.Way.{IsEntryOf, cursor_at, entries_at, left_at, last_at};

    /// All journals at their start.
    pub(crate) fn new(rec: &'a Record) -> Cursors<'a>
        requires record { IsRecord rec.now }
        ensures rec { result.rec.now ≡ rec.now }
        ensures lawful { AreLawful result }
        ensures left { (i : ℕ) → left_at result i ≡ told_in i 1 0 (entries_of rec.now i) }
        ensures last { (i : ℕ) → last_at result i ≡ 0 }
    {
        Cursors {
            rec,
            cursors: [START; 16],
        }
    }

    /// The journal of a node.
    pub(crate) fn journal(&self, node: u8) -> &[Entry]
        requires record { IsRecord self.now.rec.now }
        requires node { node < self.now.rec.now.nodes }
        ensures value { result.now ≡ entries_at self.now node }
    {
        &self.rec.journals.as_slice()[node as usize]
    }

    /// How far the journal of a node was followed.
    pub(crate) fn at(&self, node: u8) -> Cursor
        requires record { IsRecord self.now.rec.now }
        requires node { node < self.now.rec.now.nodes }
        ensures value { result ≡ cursor_at self.now node }
    {
        self.cursors[node as usize]
    }

    /// The number of the entry that tells of a node's next event, counted from 1.
    pub(crate) fn number(&self, node: u8) -> usize
        requires record { IsRecord self.now.rec.now }
        requires node { node < self.now.rec.now.nodes }
        requires left { (cursor_at self.now node).takes < length (entries_at self.now node) }
        ensures value { result ≡ (cursor_at self.now node).takes + 1 }
    {
        // brings: a journal has fewer than 2^63 entries
        let _entries = self.journal(node).len();
        self.at(node).takes + 1
    }

    /// The entry that tells of a node's next event.
    pub(crate) fn entry(&self, node: u8) -> Option<Entry>
        requires record { IsRecord self.now.rec.now }
        requires node { node < self.now.rec.now.nodes }
        ensures { MatchOption result
            (length (entries_at self.now node) ≤ (cursor_at self.now node).takes)
            (IsEntryOf self.now node) }
    {
        let takes = self.at(node).takes;
        let journal = self.journal(node);
        if takes < journal.len() {
            return Some(journal[takes]);
        }
        None
    }

    /// The stamp of a node's next event.
    fn next(&self, node: u8) -> Option<u64>
        requires lawful { AreLawful self.now }
        requires node { node < self.now.rec.now.nodes }
        ensures { MatchOption result (left_at self.now node ≡ [])
            (λ stamp. IsNext node stamp (left_at self.now node)) }
    {
        let entry = self.entry(node)?;
        let cursor = self.at(node);
        if cursor.words < entry.words {
            return Some(cursor.last + 1);
        }
        Some(entry.stamp)
    }

    /// The node whose next event is the first of all, and up to which stamp its words come before
    /// the next events of all others.
    pub(crate) fn first(&self) -> Option<First>
        requires lawful { AreLawful self.now }
        ensures { MatchOption result
            ((i : ℕ) → i < self.now.rec.now.nodes → left_at self.now i ≡ [])
            (IsFirst self.now self.now.rec.now.nodes) }
    {
        let mut first = None;
        for node in 0..self.rec.nodes {
            first = self.first_among(first, node);
        }
        first
    }

    /// The first of the next events of the nodes up to a node, by that of the nodes below it.
    #[inline(always)]
    fn first_among(&self, first: Option<First>, node: u8) -> Option<First>
        requires lawful { AreLawful self.now }
        requires node { node < self.now.rec.now.nodes }
        requires first { IsFirstBelow self.now node first }
        ensures { IsFirstBelow self.now (node + 1) result }
    {
        let Some(stamp) = self.next(node) else {
            return first;
        };
        match first {
            Some(before) if before.stamp <= stamp => Some(First {
                to: before.to.min(stamp),
                ..before
            }),
            Some(before) => Some(First {
                node,
                stamp,
                to: before.stamp - 1,
            }),
            None => Some(First {
                node,
                stamp,
                to: u64::MAX,
            }),
        }
    }

    /// A node has executed `words` more words.
    pub(crate) fn follow_words(&mut self, node: u8, entry: Entry, words: u64)
        requires lawful { AreLawful self.old }
        requires node { node < self.old.rec.now.nodes }
        requires entry { IsEntryOf self.old node entry }
        requires words { (cursor_at self.old node).words + words ≤ entry.words }
        ensures followed { let c = cursor_at self.old node in HasFollowed self.old node
            (record { takes = c.takes; words = c.words + words; last = c.last + words }) self.new }
    {
        let cursor = &mut self.cursors[node as usize];
        cursor.words += words;
        cursor.last += words;
    }

    /// A node has executed a word more.
    pub(crate) fn follow_word(&mut self, node: u8, entry: Entry)
        requires lawful { AreLawful self.old }
        requires node { node < self.old.rec.now.nodes }
        requires entry { IsEntryOf self.old node entry }
        requires word { (cursor_at self.old node).words < entry.words }
        ensures followed { let c = cursor_at self.old node in HasFollowed self.old node
            (record { takes = c.takes; words = c.words + 1; last = c.last + 1 }) self.new }
    {
        let cursor = &mut self.cursors[node as usize];
        cursor.words += 1;
        cursor.last += 1;
    }

    /// A node has made a take.
    pub(crate) fn follow_take(&mut self, node: u8, entry: Entry)
        requires node { node < self.old.rec.now.nodes }
        requires record { IsRecord self.old.rec.now }
        requires entry { IsEntryOf self.old node entry }
        ensures followed { let c = cursor_at self.old node in HasFollowed self.old node
            (record { takes = c.takes + 1; words = 0; last = entry.stamp }) self.new }
    {
        let takes = self.number(node);
        self.cursors[node as usize] = Cursor {
            takes,
            words: 0,
            last: entry.stamp,
        };
    }
}
