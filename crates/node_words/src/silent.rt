//! Words that no micro-op serves, and that print nothing, count nothing and wait for nothing: so
//! they are executed in a row with those that micro-ops serve.

ghost use Rattle.std.specs.Prelude.{◌≡◌, ◌*◌, ◌≤◌, ◌<◌, ℕ, List, length};
ghost use Rattle.node_memory.specs.exec_map.Contents.{program_of};
ghost use Rattle.node_memory.specs.rv32_step.Demands as demands;
ghost use Rattle.node_memory.specs.rv32_step.Registers.{registers_of};
ghost use Rattle.node_memory.specs.jump_map.Image.{Cell, most_words};
ghost use Rattle.node_memory.specs.node_model.Node as model;
ghost use Rattle.node_words.specs.Address.{word_address};
ghost use Rattle.node_memory.specs.Shelf.{Shelf, ground_of, local_of};
ghost use Rattle.node_words.specs.Kept.{StepsOr, Does, lane_of};
ghost use Rattle.node_words.specs.declared.lane.ProcessorState.{ProcessorState};
ghost use Rattle.node_words.specs.UndoLogs.{StaysUndoable};

use crate::exec_state::ExecState;
use crate::lane::{Move, Tally, WordOutcome, address_of};
use crate::slow_path::place_address;
use node_memory::jump_map::{IMAGE_BASE, Image, ImageWord};
use node_memory::runtime_words::RtWord;
use node_memory::rv32_step::Demand;
use rv32_decode::{Instr, Reg, Width};

impl<'a> ExecState<'a> {
    /// Executes the word with an index by its micro-op, or as a silent one that has none, and gives
    /// the index of the word that follows. `None` where the path that serves every word has to;
    /// then nothing changed.
    #[inline(always)]
    pub fn step_on(&mut self, image: &Image, at: u32) -> Option<u32>
        requires { length image.now ≤ most_words }
        ensures steps { StepsOr image.now (model.next_outcome (program_of self.old.local.program)
            image.now (lane_of self.old.lane (word_address at)) (local_of self.old.local))
            self.old.lane self.old.local self.new.lane self.new.local result }
        ensures counts { self.new.counts ≡ self.old.counts }
        ensures undoable { StaysUndoable self.old self.new }
    {
        match self.step_at(image, at) {
            Some(next) => Some(next),
            None => self.silent_at(image, at),
        }
    }

    /// Executes the word with an index where it is silent, in a call of its own: this keeps the
    /// loop small, and is for words that are seldom executed.
    #[inline(never)]
    pub(crate) fn step_apart(&mut self, image: &Image, at: u32) -> Option<u32>
        requires { length image.now ≤ most_words }
        ensures steps { StepsOr image.now (model.next_outcome (program_of self.old.local.program)
            image.now (lane_of self.old.lane (word_address at)) (local_of self.old.local))
            self.old.lane self.old.local self.new.lane self.new.local result }
        ensures counts { self.new.counts ≡ self.old.counts }
        ensures undoable { StaysUndoable self.old self.new }
    {
        self.step_on(image, at)
    }

    /// Executes the word with an index where it is silent: an indirect jump that keeps a link and
    /// enters a sequence, an access that is one step of an aligned word, or a check that finds its
    /// lines as it needs them. `None` for every other word; then nothing changed.
    #[tactic(auto, using(crate::proofs::UndoLogLemmas::undoable_same))]
    #[inline(never)]
    fn silent_at(&mut self, image: &Image, at: u32) -> Option<u32>
        ensures steps { StepsOr image.now (model.next_outcome (program_of self.old.local.program)
            image.now (lane_of self.old.lane (word_address at)) (local_of self.old.local))
            self.old.lane self.old.local self.new.lane self.new.local result }
        ensures counts { self.new.counts ≡ self.old.counts }
        ensures undoable { StaysUndoable self.old self.new }
    {
        match image.fetch(address_of(at)) {
            None => None,
            Some(fetched) => self.silent_read(image, fetched, at),
        }
    }

    /// Executes a word that was fetched, where it is silent; else `None`.
    #[tactic(auto, using(crate::proofs::UndoLogLemmas::undoable_same))]
    fn silent_read(&mut self, image: &Image, fetched: ImageWord, at: u32) -> Option<u32>
        ensures steps { StepsOr image.now (model.execute_read (program_of self.old.local.program)
            fetched.place fetched.what (lane_of self.old.lane (word_address at))
            (local_of self.old.local))
            self.old.lane self.old.local self.new.lane self.new.local result }
        ensures counts { self.new.counts ≡ self.old.counts }
        ensures undoable { StaysUndoable self.old self.new }
    {
        let place = place_address(fetched.place);
        match fetched.what {
            None => None,
            Some(what) => self.silent_by(image, place, what, at),
        }
    }

    /// Executes a word of a place, where it is silent; else `None`.
    #[tactic(auto, using(crate::proofs::UndoLogLemmas::undoable_same))]
    fn silent_by(&mut self, image: &Image, place: u32, what: RtWord, at: u32) -> Option<u32>
        ensures steps { let address = word_address at in
            StepsOr image.now (model.execute (program_of self.old.local.program) place address what
            (lane_of self.old.lane address) (local_of self.old.local))
            self.old.lane self.old.local self.new.lane self.new.local result }
        ensures counts { self.new.counts ≡ self.old.counts }
        ensures undoable { StaysUndoable self.old self.new }
    {
        match what {
            RtWord::Xjalr { rd, rs1, imm } => {
                self.enter_from(image, place, rd, self.sum(rs1, imm) / 2 * 2)
            }
            RtWord::Native(i) => self.silent_native(place, i, at),
            RtWord::MissW { width, rs1, imm } => {
                silent_check(self.miss_w(place, width, self.sum(rs1, imm)), at)
            }
            RtWord::Prepare { rs1 } => {
                silent_check(self.prepare(place, self.lane.registers.get(rs1)), at)
            }
            RtWord::Batch { stores, rs1, rs2 } => {
                silent_check(self.batch(stores, rs1, rs2, at), at)
            }
            _ => None,
        }
    }

    /// Enters the sequence of an original address, and keeps the address of the next place in a
    /// register. `None` where there is no such sequence; then nothing changed.
    #[tactic(auto, using(crate::proofs::UndoLogLemmas::undoable_same))]
    fn enter_from(&mut self, image: &Image, place: u32, rd: Reg, original: u32) -> Option<u32>
        ensures steps { (at : ℕ) → StepsOr image.now (model.indirect place
            (lane_of self.old.lane (word_address at)) (local_of self.old.local) rd original)
            self.old.lane self.old.local self.new.lane self.new.local result }
        ensures counts { self.new.counts ≡ self.old.counts }
        ensures undoable { StaysUndoable self.old self.new }
    {
        if original % 4 != 0 {
            return None;
        }
        let new = image.new_of(original)?;
        self.lane.registers.set(rd, place.wrapping_add(4));
        Some((new - IMAGE_BASE) / 4)
    }

    /// Executes a native word that accesses an aligned word in one step, where stores aren't noted.
    /// `None` for every other one; then nothing changed.
    #[tactic(auto, using(crate::proofs::UndoLogLemmas::undoable_off))]
    fn silent_native(&mut self, place: u32, i: Instr, at: u32) -> Option<u32>
        ensures steps { (image : List Cell) → let address = word_address at in
            StepsOr image (model.native (program_of self.old.local.program) place address
            (lane_of self.old.lane address) (local_of self.old.local)
            (demands.demand_of i (registers_of self.old.lane.registers) address))
            self.old.lane self.old.local self.new.lane self.new.local result }
        ensures counts { self.new.counts ≡ self.old.counts }
        ensures undoable { StaysUndoable self.old self.new }
    {
        if self.log.on {
            return None;
        }
        match self.demand(i, address_of(at)) {
            Demand::Reserves(r, address) if Width::Word.is_aligned(address) => {
                let _ = self.reserve_or_exit(place, r, address);
                Some(at.wrapping_add(1))
            }
            Demand::StoresIf(r, address, value) if Width::Word.is_aligned(address) => {
                let _ = self.store_if_or_exit(place, r, address, value);
                Some(at.wrapping_add(1))
            }
            Demand::Updates(op, r, address, value) if Width::Word.is_aligned(address) => {
                let _ = self.update_or_exit(place, op, r, address, value);
                Some(at.wrapping_add(1))
            }
            _ => None,
        }
    }
}

/// The index of the word that follows a check which changed nothing, where that was silent.
fn silent_check(outcome: WordOutcome, at: u32) -> Option<u32>
    ensures { (image : List Cell) (whole : model.WordOutcome) (l : ProcessorState) (s : Shelf)
        → Does whole (ground_of s) (word_address at) l s outcome
        → StepsOr image whole l s l s result }
{
    match outcome {
        WordOutcome {
            output: None,
            tally: Tally::Nothing,
            next: Move::Next,
        } => Some(at.wrapping_add(1)),
        WordOutcome {
            output: None,
            tally: Tally::Nothing,
            next: Move::To(index),
        } => Some(index),
        _ => None,
    }
}
