//! The path that serves every word.

ghost use Rattle.std.specs.Prelude.{◌≡◌, ◌+◌, ◌*◌, ◌/◌, ◌%◌, ◌^◌, ◌<◌, ℕ, true, None};
ghost use Rattle.node_memory.specs.exec_map.Contents.{program_of};
ghost use Rattle.rv32_program.specs.Targets.{offset_address};
ghost use Rattle.node_memory.specs.rv32_step.declared.Demand.TheVariants.{Sets, Jumps, Branches};
ghost use Rattle.node_memory.specs.rv32_step.declared.Demand.TheVariants.{Loads, Stores, Reserves};
ghost use Rattle.node_memory.specs.rv32_step.declared.Demand.TheVariants.{StoresIf, Updates};
ghost use Rattle.node_memory.specs.rv32_step.declared.CallStep.TheVariants.{Puts, Returns};
ghost use Rattle.node_memory.specs.rv32_step.Demands as demands;
ghost use Rattle.node_memory.specs.rv32_step.Registers.{reg, registers_of};
ghost use Rattle.node_memory.specs.byte_range.Memory.{raw};
ghost use Rattle.rv32_decode.specs.Widths.{is_aligned};
ghost use Rattle.node_memory.specs.rv32_step.Memory.{load_value};
ghost use Rattle.node_memory.specs.node_model.Node as model;
ghost use Rattle.node_words.specs.Address.{word_address};
ghost use Rattle.node_memory.specs.Shelf.{Shelf, ground_of, local_of};
ghost use Rattle.node_words.specs.Kept.{Does, lane_of};
ghost use Rattle.node_words.specs.declared.lane.ProcessorState.{ProcessorState};

use crate::exec_state::ExecState;
use crate::lane::{
    Move, Resume, Tally, WordOutcome, address_of, exit_by, index_of, only_moves, wait_for,
};
use node_memory::dsm_messages::Need;
use node_memory::exec_map::Exit;
use node_memory::jump_map::{Image, ImageWord};
use node_memory::node_model::state_table::{is_fixed, is_mapped, is_readable, is_writable};
use node_memory::node_model::templates::Place;
use node_memory::runtime_words::RtWord;
use node_memory::rv32_step::{CallStep, Demand, call_step, cut_short, demand_of};
use rv32_decode::{AmoOp, Imm12, Instr, LoadKind, Reg, Width};
use rv32_ops::amo;

impl<'a> ExecState<'a> {
    /// Executes the word with an index, and doesn't go on yet.
    pub(crate) fn execute_at(&mut self, image: &Image, at: u32) -> WordOutcome
        ensures does { Does (model.next_outcome (program_of self.old.local.program) image.now
            (lane_of self.old.lane (word_address at)) (local_of self.old.local))
            (ground_of self.old.local) (word_address at) self.new.lane self.new.local result }
        ensures counts { self.new.counts ≡ self.old.counts }
    {
        match image.fetch(address_of(at)) {
            None => exit_by(Exit::Fetch(address_of(at))),
            Some(fetched) => self.execute_read(fetched, at),
        }
    }

    /// Executes a word that was fetched.
    fn execute_read(&mut self, fetched: ImageWord, at: u32) -> WordOutcome
        ensures does { Does (model.execute_read (program_of self.old.local.program) fetched.place
            fetched.what (lane_of self.old.lane (word_address at)) (local_of self.old.local))
            (ground_of self.old.local) (word_address at) self.new.lane self.new.local result }
        ensures counts { self.new.counts ≡ self.old.counts }
    {
        let place = place_address(fetched.place);
        match fetched.what {
            None => exit_by(Exit::Fetch(address_of(at))),
            Some(what) => self.execute(place, what, at),
        }
    }

    /// Executes a word of a place.
    fn execute(&mut self, place: u32, what: RtWord, at: u32) -> WordOutcome
        ensures does { let address = word_address at in
            Does (model.execute (program_of self.old.local.program) place address what
            (lane_of self.old.lane address) (local_of self.old.local))
            (ground_of self.old.local) address self.new.lane self.new.local result }
        ensures counts { self.new.counts ≡ self.old.counts }
    {
        match what {
            RtWord::Native(i) => self.native(place, i, address_of(at)),
            RtWord::MissR { width, rs1, imm } => self.miss_r(place, width, self.sum(rs1, imm)),
            RtWord::MissW { width, rs1, imm } => self.miss_w(place, width, self.sum(rs1, imm)),
            RtWord::Poll => only_moves(Move::Next),
            RtWord::Call => self.call(),
            RtWord::Xjalr { rd, rs1, imm } => self.indirect(place, rd, self.sum(rs1, imm)),
            RtWord::Batch { stores, rs1, rs2 } => self.batch(stores, rs1, rs2, at),
            RtWord::Prepare { rs1 } => self.prepare(place, self.lane.registers.get(rs1)),
            RtWord::Far(number) => only_moves(Move::To(number.value())),
            RtWord::TrapFetch => exit_by(Exit::Fetch(place)),
            RtWord::TrapOff => exit_by(Exit::Fetch(self.lane.off)),
            RtWord::TrapIllegal => exit_by(Exit::Illegal(place)),
            RtWord::TrapEbreak => exit_by(Exit::Ebreak(place)),
        }
    }

    /// The address at a distance from a register's.
    pub(crate) fn sum(&self, rs1: Reg, imm: Imm12) -> u32
        ensures { result ≡
            offset_address (reg (registers_of self.now.lane.registers) rs1) imm }
    {
        self.lane.registers.get(rs1).wrapping_add(imm.word())
    }

    /// Executes a native instruction.
    fn native(&mut self, place: u32, i: Instr, at: u32) -> WordOutcome
        ensures does { Does (model.native (program_of self.old.local.program) place at
            (lane_of self.old.lane at) (local_of self.old.local)
            (demands.demand_of i (registers_of self.old.lane.registers) at))
            (ground_of self.old.local) at self.new.lane self.new.local result }
        ensures counts { self.new.counts ≡ self.old.counts }
    {
        self.meet(place, self.demand(i, at), at)
    }

    /// What a native instruction demands.
    pub(crate) fn demand(&self, i: Instr, at: u32) -> Demand
        ensures { result ≡ demands.demand_of i (registers_of self.now.lane.registers) at }
    {
        demand_of(i, &self.lane.registers, at)
    }

    /// Does what a native instruction demands.
    fn meet(&mut self, place: u32, demand: Demand, at: u32) -> WordOutcome
        ensures does { Does (model.native (program_of self.old.local.program) place at
            (lane_of self.old.lane at) (local_of self.old.local) demand)
            (ground_of self.old.local) at self.new.lane self.new.local result }
        ensures counts { self.new.counts ≡ self.old.counts }
    {
        match demand {
            Demand::Sets(r, value) => {
                self.lane.registers.set(r, value);
                only_moves(Move::Next)
            }
            Demand::Continues => only_moves(Move::Next),
            Demand::Jumps(r, target) => self.jump_to(place, r, target, at),
            Demand::Branches(target) => branch_to(place, target),
            Demand::Loads(kind, r, address) => self.load_or_exit(place, kind, r, address),
            Demand::Stores(width, address, value) => {
                self.store_or_exit(place, width, address, value)
            }
            Demand::Reserves(r, address) => self.reserve_or_exit(place, r, address),
            Demand::StoresIf(r, address, value) => {
                self.store_if_or_exit(place, r, address, value)
            }
            Demand::Updates(op, r, address, value) => {
                self.update_or_exit(place, op, r, address, value)
            }
            Demand::Calls | Demand::Traps(_) => exit_by(Exit::Fetch(at)),
        }
    }

    /// Jumps, and keeps the next address in a register.
    fn jump_to(&mut self, place: u32, r: Reg, target: u32, at: u32) -> WordOutcome
        ensures does { Does (model.native (program_of self.old.local.program) place at
            (lane_of self.old.lane at) (local_of self.old.local) (Jumps r target))
            (ground_of self.old.local) at self.new.lane self.new.local result }
        ensures counts { self.new.counts ≡ self.old.counts }
    {
        if target % 4 == 0 {
            self.lane.registers.set(r, at.wrapping_add(4));
            only_moves(Move::To(index_of(target)))
        } else {
            exit_by(Exit::Misaligned(place))
        }
    }

    /// An indirect jump, which keeps the original address of the next place in a register.
    fn indirect(&mut self, place: u32, rd: Reg, sum: u32) -> WordOutcome
        ensures does { (at : ℕ) → Does (model.indirect place (lane_of self.old.lane at)
            (local_of self.old.local) rd (sum / 2 * 2))
            (ground_of self.old.local) at self.new.lane self.new.local result }
        ensures counts { self.new.counts ≡ self.old.counts }
    {
        let target = sum / 2 * 2;
        if target % 4 == 0 {
            self.lane.registers.set(rd, place.wrapping_add(4));
            only_moves(Move::Enters(target))
        } else {
            exit_by(Exit::Misaligned(place))
        }
    }

    /// Loads where the address is aligned.
    fn load_or_exit(&mut self, place: u32, kind: LoadKind, r: Reg, address: u32) -> WordOutcome
        ensures does { (at : ℕ) → Does (model.native (program_of self.old.local.program) place at
            (lane_of self.old.lane at) (local_of self.old.local) (Loads kind r address))
            (ground_of self.old.local) at self.new.lane self.new.local result }
        ensures counts { self.new.counts ≡ self.old.counts }
    {
        if kind.width().is_aligned(address) {
            self.load(kind, r, address);
            only_moves(Move::Next)
        } else {
            exit_by(Exit::Misaligned(place))
        }
    }

    /// Stores where the address is aligned.
    fn store_or_exit(&mut self, place: u32, width: Width, address: u32, value: u32) -> WordOutcome
        ensures does { (at : ℕ) → Does (model.native (program_of self.old.local.program) place at
            (lane_of self.old.lane at) (local_of self.old.local) (Stores width address value))
            (ground_of self.old.local) at self.new.lane self.new.local result }
        ensures counts { self.new.counts ≡ self.old.counts }
    {
        if width.is_aligned(address) {
            self.store(width, address, value);
            only_moves(Move::Next)
        } else {
            exit_by(Exit::Misaligned(place))
        }
    }

    /// Loads the word of an aligned address, and reserves the address.
    pub(crate) fn reserve_or_exit(&mut self, place: u32, r: Reg, address: u32) -> WordOutcome
        ensures does { (at : ℕ) → Does (model.native (program_of self.old.local.program) place at
            (lane_of self.old.lane at) (local_of self.old.local) (Reserves r address))
            (ground_of self.old.local) at self.new.lane self.new.local result }
        ensures counts { self.new.counts ≡ self.old.counts }
    {
        if Width::Word.is_aligned(address) {
            self.load(LoadKind::Word, r, address);
            self.local.reserve(address);
            only_moves(Move::Next)
        } else {
            exit_by(Exit::Misaligned(place))
        }
    }

    /// Stores at an aligned address where it is reserved, and says in a register whether it did.
    pub(crate) fn store_if_or_exit(
        &mut self,
        place: u32,
        r: Reg,
        address: u32,
        value: u32,
    ) -> WordOutcome
        ensures does { (at : ℕ) → Does (model.native (program_of self.old.local.program) place at
            (lane_of self.old.lane at) (local_of self.old.local) (StoresIf r address value))
            (ground_of self.old.local) at self.new.lane self.new.local result }
        ensures counts { self.new.counts ≡ self.old.counts }
    {
        if !Width::Word.is_aligned(address) {
            return exit_by(Exit::Misaligned(place));
        }
        if !self.local.holds(address) {
            self.lane.registers.set(r, 1);
            self.local.end_reservation();
            return only_moves(Move::Next);
        }
        self.store(Width::Word, address, value);
        self.lane.registers.set(r, 0);
        self.local.end_reservation();
        only_moves(Move::Next)
    }

    /// Puts what an operation makes of the word of an aligned address there, and the word into a
    /// register.
    pub(crate) fn update_or_exit(
        &mut self,
        place: u32,
        op: AmoOp,
        r: Reg,
        address: u32,
        value: u32,
    ) -> WordOutcome
        ensures does { (at : ℕ) → Does (model.native (program_of self.old.local.program) place at
            (lane_of self.old.lane at) (local_of self.old.local) (Updates op r address value))
            (ground_of self.old.local) at self.new.lane self.new.local result }
        ensures counts { self.new.counts ≡ self.old.counts }
    {
        if Width::Word.is_aligned(address) {
            let old = self.word(address);
            self.store(Width::Word, address, amo(op, old, value));
            self.lane.registers.set(r, old);
            only_moves(Move::Next)
        } else {
            exit_by(Exit::Misaligned(place))
        }
    }

    /// The word of an aligned address.
    #[tactic(auto, unfolding(rv32_ops::specs::Operations::extend))]
    fn word(&self, address: u32) -> u32
        requires { is_aligned Width.Word address ≡ true }
        ensures { (at : ℕ) → result ≡ load_value LoadKind.Word
            (model.byte_at (program_of self.now.local.program) (lane_of self.now.lane at)
            (local_of self.now.local)) address }
    {
        self.memory(Width::Word, address)
    }

    /// Looks whether a conditional store may be made.
    pub(crate) fn prepare(&self, place: u32, address: u32) -> WordOutcome
        ensures { (at : ℕ) → Does (model.prepare place (lane_of self.now.lane at)
            (local_of self.now.local) address)
            (ground_of self.now.local) at self.now.lane self.now.local result }
    {
        if !Width::Word.is_aligned(address) {
            return exit_by(Exit::Misaligned(place));
        }
        let state = self.local.state(address / 64);
        if is_fixed(state) {
            exit_by(Exit::Access(place))
        } else if self.local.holds(address) && !is_writable(state) {
            wait_for(Resume::PastWord, address, Need::Write)
        } else {
            only_moves(Move::Next)
        }
    }

    /// Looks whether a line may be read.
    fn miss_r(&self, place: u32, width: Width, address: u32) -> WordOutcome
        ensures { (at : ℕ) → Does (model.miss_r place (lane_of self.now.lane at)
            (local_of self.now.local) width address)
            (ground_of self.now.local) at self.now.lane self.now.local result }
    {
        if !width.is_aligned(address) {
            return exit_by(Exit::Misaligned(place));
        }
        let state = self.local.state(address / 64);
        if !is_mapped(state) {
            exit_by(Exit::Access(place))
        } else if is_readable(state) {
            WordOutcome {
                output: None,
                tally: Tally::FalseMiss,
                next: Move::Next,
            }
        } else {
            wait_for(Resume::PastWord, address, Need::Read)
        }
    }

    /// Looks whether a line may be written.
    pub(crate) fn miss_w(&self, place: u32, width: Width, address: u32) -> WordOutcome
        ensures { (at : ℕ) → Does (model.miss_w place (lane_of self.now.lane at)
            (local_of self.now.local) width address)
            (ground_of self.now.local) at self.now.lane self.now.local result }
    {
        if !width.is_aligned(address) {
            return exit_by(Exit::Misaligned(place));
        }
        let state = self.local.state(address / 64);
        if is_fixed(state) {
            exit_by(Exit::Access(place))
        } else if is_writable(state) {
            only_moves(Move::Next)
        } else {
            wait_for(Resume::PastWord, address, Need::Write)
        }
    }

    /// Checks the two lines that a run reaches, by the addresses in two registers.
    pub(crate) fn batch(&self, stores: bool, rs1: Reg, rs2: Reg, at: u32) -> WordOutcome
        ensures does { let registers = registers_of self.now.lane.registers in
            Does (model.batch (lane_of self.now.lane (word_address at)) (local_of self.now.local)
            (model.need_of_run stores) (reg registers rs1) (reg registers rs2))
            (ground_of self.now.local) (word_address at) self.now.lane self.now.local result }
    {
        let low = self.lane.registers.get(rs1);
        let high = self.lane.registers.get(rs2);
        self.check_lines(need_of_run(stores), low, high, at)
    }

    /// Looks whether the lines of two addresses meet a need: then the run goes on past the next
    /// word. Where one refuses it the run falls back; else what isn't met is waited for.
    fn check_lines(&self, need: Need, low: u32, high: u32, at: u32) -> WordOutcome
        ensures does { Does (model.batch (lane_of self.now.lane (word_address at))
            (local_of self.now.local) need low high)
            (ground_of self.now.local) (word_address at) self.now.lane self.now.local result }
    {
        if self.local.one_refuses(need, low, high) {
            return fall_back();
        }
        match self.local.unmet_wants(need, low, high) {
            None => only_moves(Move::To(at.wrapping_add(2))),
            Some(wants) => only_moves(Move::Waits(Resume::ByLines { need, low, high }, wants)),
        }
    }

    /// Makes one step of a call.
    fn call(&mut self) -> WordOutcome
        ensures does { (at : ℕ) → Does (model.make_call (program_of self.old.local.program)
            (lane_of self.old.lane at) (local_of self.old.local)
            (demands.call_step (registers_of self.old.lane.registers) self.old.lane.written))
            (ground_of self.old.local) at self.new.lane self.new.local result }
        ensures counts { self.new.counts ≡ self.old.counts }
    {
        match call_step(&self.lane.registers, self.lane.written) {
            CallStep::Ends(code) => exit_by(Exit::Code(code)),
            CallStep::Returns(value) => self.return_with(value),
            CallStep::Puts(address) => self.put(address),
        }
    }

    /// Ends a call with a result.
    fn return_with(&mut self, value: u32) -> WordOutcome
        ensures does { (at : ℕ) → Does (model.only_moves (model.lane_after_call
            (lane_of self.old.lane at) value) (local_of self.old.local) model.Next)
            (ground_of self.old.local) at self.new.lane self.new.local result }
        ensures counts { self.new.counts ≡ self.old.counts }
    {
        self.lane.registers.set(Reg::A0, value);
        self.lane.written = 0;
        only_moves(Move::Next)
    }

    /// Prints the byte of an address, waits for it, or ends the write where the address isn't
    /// mapped.
    fn put(&mut self, address: u32) -> WordOutcome
        requires { self.old.lane.written + 1 < 2 ^ 32 }
        ensures does { (at : ℕ) → Does (model.make_call (program_of self.old.local.program)
            (lane_of self.old.lane at) (local_of self.old.local) (Puts address))
            (ground_of self.old.local) at self.new.lane self.new.local result }
        ensures counts { self.new.counts ≡ self.old.counts }
    {
        let state = self.local.state(address / 64);
        if !is_mapped(state) {
            return self.return_with(cut_short(self.lane.written));
        }
        if !is_readable(state) {
            return wait_for(Resume::SameWord, address, Need::Read);
        }
        let byte = self.byte(address);
        self.lane.written += 1;
        WordOutcome {
            output: Some(byte),
            tally: Tally::Nothing,
            next: Move::Again,
        }
    }

    /// The byte of an address.
    #[tactic(auto, unfolding(crate::specs::Bytes::raw))]
    fn byte(&self, address: u32) -> u8
        ensures { (at : ℕ) → result ≡ model.byte_at (program_of self.now.local.program)
            (lane_of self.now.lane at) (local_of self.now.local) address }
    {
        self.memory(Width::Byte, address) as u8
    }
}

/// Takes a branch.
fn branch_to(place: u32, target: u32) -> WordOutcome
    ensures { (l : ProcessorState) (s : Shelf) (at : ℕ)
        → Does (model.native (program_of s.program) place at
        (lane_of l at) (local_of s) (Branches target)) (ground_of s) at l s result }
{
    if target % 4 == 0 {
        only_moves(Move::To(index_of(target)))
    } else {
        exit_by(Exit::Misaligned(place))
    }
}

/// The address of a place, or 0 for word 0, which has none.
pub(crate) fn place_address(place: Option<Place>) -> u32
    ensures { result ≡ model.place_address place }
{
    match place {
        Some(place) => place.address,
        None => 0,
    }
}

/// What a run needs of its lines.
fn need_of_run(stores: bool) -> Need
    ensures value { result ≡ model.need_of_run stores }
{
    if stores { Need::Write } else { Need::Read }
}

/// A run goes to its single-checked sequences, by the next word.
fn fall_back() -> WordOutcome
    ensures value { result ≡ record {
      output = None;
      tally = Tally.FallsBack;
      next = Move.Next;
    } }
{
    WordOutcome {
        output: None,
        tally: Tally::FallsBack,
        next: Move::Next,
    }
}
