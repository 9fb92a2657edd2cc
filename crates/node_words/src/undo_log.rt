//! What takes back words that were executed by their micro-ops.

ghost use Rattle.std.specs.Prelude.{◌≡◌, ◌<◌, ◌≤◌, true, All, List, length};
ghost use Rattle.node_memory.specs.exec_map.Contents.{program_of};
ghost use Rattle.node_memory.specs.jump_map.Image.{Cell, most_words};
ghost use Rattle.node_memory.specs.Shelf.{Shelf, ground_of, local_of};
ghost use Rattle.node_words.specs.GoingOn.{BodyGoesOn, BodyTells};
ghost use Rattle.node_words.specs.UndoLogs.{Saves, TakesBack, AreSame, IsAlignedNote};
ghost use Rattle.node_words.specs.UndoLogs.{held_of, taken_back};
ghost use Rattle.node_words.specs.declared.lane.ProcessorState as kept;

use crate::exec_state::ExecState;
use crate::lane::ProcessorState;
use crate::serve::Progress;
use crate::store_log::Note;
use crate::word_loop::WordLoop;
use node_memory::jump_map::Image;
use node_memory::rv32_step::Registers;
use std::alloc::{AllocError, Global};
use std::mem::swap;

/// How many stores an undo log keeps.
const MOST_NOTES: usize = 1024;

/// A processor's registers, and what else a word changes of its lane but the window.
#[derive(Drop)]
pub struct Saved {
    pub registers: Registers,
    pub written: u32,
    pub off: u32,
    pub spills: [u32; 3],
}

/// What takes words back that were executed by their micro-ops.
#[derive(Drop)]
pub struct UndoLog {
    pub saved: Saved,
    /// What the stores overwrote, in their order.
    pub notes: Vec<Note>,
}

impl UndoLog {
    /// An undo log of no words, with room for what they overwrite.
    pub fn new(alloc: Global) -> Result<UndoLog, AllocError> {
        Ok(UndoLog {
            saved: Saved {
                registers: Registers::first(0, 0),
                written: 0,
                off: 0,
                spills: [0; 3],
            },
            notes: Vec::with_capacity(alloc, MOST_NOTES)?,
        })
    }
}

impl<'a> ExecState<'a> {
    /// Executes words from an index on by a loop, as long as the undo log has room, and at most so
    /// many. The undo log takes them back.
    #[inline(never)]
    pub fn run_noting<L: WordLoop>(
        &mut self,
        by: &mut L,
        image: &Image,
        from: u32,
        most: u64,
        undo_log: &mut UndoLog,
    ) -> Progress
        requires few { length image.now ≤ most_words }
        requires goes_over { L.goes_over image.now by.old }
        ensures words { BodyGoesOn image.now most from self.old result.words result.at self.new }
        ensures learns { BodyTells (λ work k n. L.learns work k n by.old by.new) image.now
            most from self.old result.words }
        ensures stays { (other : List Cell) → L.goes_over other by.old
            → L.goes_over other by.new }
        ensures most { result.words ≤ most }
        ensures back { TakesBack undo_log.new.saved undo_log.new.notes.items self.new.lane
            self.new.local
            self.old.lane self.old.local }
        ensures counts { self.new.counts ≡ self.old.counts }
    {
        self.start_noting(undo_log);
        let progress = by.run(self, image, from, most);
        self.stop_noting(undo_log);
        progress
    }

    /// From here on, what stores overwrite is noted, and takes words back together with the undo
    /// log, which keeps the lane.
    pub fn start_noting(&mut self, undo_log: &mut UndoLog)
        ensures on { self.new.log.on ≡ true }
        ensures back { TakesBack undo_log.new.saved self.new.log.notes.items self.new.lane
            self.new.local self.old.lane self.old.local }
        ensures same { self.new ≡ record self.old { log = self.new.log } }
    {
        undo_log.saved = save(&self.lane);
        undo_log.notes.clear();
        swap(&mut self.log.notes, &mut undo_log.notes);
        self.log.on = true;
    }

    /// From here on, nothing is noted. The undo log has what was.
    pub fn stop_noting(&mut self, undo_log: &mut UndoLog)
        ensures notes { undo_log.new.notes.items ≡ self.old.log.notes.items }
        ensures saved { undo_log.new.saved ≡ undo_log.old.saved }
        ensures same { self.new ≡ record self.old { log = self.new.log } }
    {
        self.log.on = false;
        swap(&mut self.log.notes, &mut undo_log.notes);
    }

    /// Takes back the words of an undo log.
    #[inline(never)]
    pub fn take_back(&mut self, undo_log: &mut UndoLog)
        requires aligned { All IsAlignedNote undo_log.old.notes.items }
        ensures back { (first : kept.ProcessorState) (seen : Shelf)
            → TakesBack undo_log.old.saved undo_log.old.notes.items self.old.lane self.old.local
            first
            seen
            → AreSame self.new.lane self.new.local first seen }
        ensures ground { ground_of self.new.local ≡ ground_of self.old.local }
        ensures counts { self.new.counts ≡ self.old.counts }
    {
        self.put_back(&mut undo_log.notes);
        restore(&mut self.lane, &undo_log.saved);
    }

    /// Puts back what stores overwrote, the last first.
    fn put_back(&mut self, notes: &mut Vec<Note>)
        requires aligned { All IsAlignedNote notes.old.items }
        ensures held { held_of self.new.lane self.new.local
            ≡ taken_back (program_of self.old.local.program) notes.old.items
            (held_of self.old.lane self.old.local) }
        ensures state { (local_of self.new.local).state ≡ (local_of self.old.local).state }
        ensures reservation { self.new.local.reservation ≡ self.old.local.reservation }
        ensures ground { ground_of self.new.local ≡ ground_of self.old.local }
        ensures counts { self.new.counts ≡ self.old.counts }
    {
        while let Some(note) = notes.pop() {
            self.store(note.width, note.address, note.value);
        }
    }
}

/// What takes a lane back.
fn save(lane: &ProcessorState) -> Saved
    ensures { Saves result lane.now }
{
    Saved {
        registers: lane.registers.copy(),
        written: lane.written,
        off: lane.off,
        spills: lane.spills,
    }
}

/// Puts back what was saved of a lane.
fn restore(lane: &mut ProcessorState, saved: &Saved)
    ensures saved { Saves saved.now lane.new }
    ensures private { lane.new.private ≡ lane.old.private }
{
    lane.registers = saved.registers.copy();
    lane.written = saved.written;
    lane.off = saved.off;
    lane.spills = saved.spills;
}
