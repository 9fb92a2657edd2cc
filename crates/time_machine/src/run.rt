//! A run on one memory, by its picks.

ghost use Rattle.std.specs.Prelude.{◌≡◌, ◌+◌, ◌^◌, ◌<◌, ◌≤◌, length, IfOk, OnOk, OnErr};
ghost use Rattle.rv32_step.specs.OneMemory.{Allowed, after_pick};
ghost use Rattle.one_memory.specs.Machine.{original_of, state_of};
ghost use Rattle.one_memory.specs.Shown.{pick_of};
ghost use Rattle.time_machine.specs.Stand.{IsInterleaved, original_in, state_at};
ghost use Rattle.time_machine.specs.Checkpoints.{IsAt, IsOfRun, AreOfRun};
ghost use Rattle.time_machine.specs.Stops.{came_at, step_at};
ghost use Rattle.time_machine.specs.Hits.{IsLatest, later as model_later};

use crate::checkpoints::{Checkpoint, Checkpoints};
use crate::step::{NextStep, came_by, step_of};
use crate::stops::{StopPoint, first_hit};
use block_layout::Layout;
use exec_map::Program;
use one_memory::{OneMemory, Pick, StepRefused};
use run_limits::NodeCount;
use std::alloc::{AllocError, Global};
use std::marker::Model;

/// A program, the blocks of its shared lines, how many processors run it, and what happens.
#[derive(Drop)]
pub(crate) struct PickedRun<'a> {
    pub program: &'a Program<'a>,
    pub layout: &'a Layout,
    pub nodes: NodeCount,
    pub picks: Vec<Pick>,
}

impl<'a> Model for PickedRun<'a> {
    ghost use Rattle.time_machine.specs.Stand.{Run, IsInterleaved};

    ghost Value = { Run };

    ghost view = { λ r. record {
      program = r.program.now;
      layout = r.layout.now;
      nodes = r.nodes;
      picks = r.picks.items;
    } };

    ghost invariant = { λ r. IsInterleaved (record {
      program = r.program.now;
      layout = r.layout.now;
      nodes = r.nodes;
      picks = r.picks.items;
    }) };
}

/// A pick that hits a stop.
#[derive(Clone, Copy)]
pub(crate) struct Hit {
    pub pick: usize,
    pub stop: usize,
}

impl<'a> PickedRun<'a> {
    /// How many picks there are.
    pub fn len(&self) -> usize
        ensures value { result ≡ length self.now.picks }
        ensures fits { result < 2 ^ 64 }
    {
        self.picks.len()
    }

    /// The processors at the start.
    pub fn start(&self, alloc: Global) -> Result<OneMemory<'a>, AllocError>
        ensures original { IfOk result (λ m. original_of m ≡ original_in self.now) }
        ensures state { IfOk result (λ m. state_of m ≡ state_at self.now 0) }
    {
        OneMemory::new(alloc, self.program, self.layout, self.nodes)
    }

    /// Makes pick `k`. Fails, with nothing changed, where there is no memory for a byte of output.
    pub fn make(&self, machine: &mut OneMemory<'_>, k: usize) -> Result<(), AllocError>
        requires there { k < length self.now.picks }
        requires original { original_of machine.old ≡ original_in self.now }
        requires state { state_of machine.old ≡ state_at self.now k }
        ensures original { original_of machine.new ≡ original_in self.now }
        ensures ok { OnOk result (state_of machine.new ≡ state_at self.now (k + 1)) }
        ensures err { OnErr result (state_of machine.new ≡ state_at self.now k) }
    {
        make_pick(machine, self.picks[k])
    }

    /// The step that pick `k` is, if it is one.
    pub fn step(&self, machine: &OneMemory<'_>, k: usize) -> Option<NextStep>
        requires original { original_of machine.now ≡ original_in self.now }
        requires state { state_of machine.now ≡ state_at self.now k }
        ensures { result ≡ step_at self.now k }
    {
        let pick = *self.picks.get(k)?;
        step_of(self.program, machine, pick)
    }

    /// Where the processor of pick `k` stands after it, unless it goes on with a call. None for a
    /// break.
    pub fn came(&self, machine: &OneMemory<'_>, k: usize) -> Option<u32>
        requires there { k < length self.now.picks }
        requires original { original_of machine.now ≡ original_in self.now }
        requires state { state_of machine.now ≡ state_at self.now (k + 1) }
        ensures { result ≡ came_at self.now k }
    {
        came_by(machine, self.picks[k])
    }

    /// A copy of the processors at the nearest position up to this one where there is a checkpoint,
    /// or the processors at the start.
    pub fn checkpoint_before(
        &self,
        alloc: Global,
        checkpoints: &Checkpoints<'a>,
        position: usize,
    ) -> Result<Checkpoint<'a>, AllocError>
        requires { AreOfRun self.now checkpoints.now }
        ensures of_run { IfOk result (IsOfRun self.now) }
        ensures before { IfOk result (λ c. c.position ≤ position) }
    {
        match checkpoints.nearest(position) {
            Some(checkpoint) => Checkpoint::of(alloc, checkpoint.position, &checkpoint.machine),
            None => Ok(Checkpoint {
                position: 0,
                machine: self.start(alloc)?,
            }),
        }
    }

    /// The last pick before a position that hits one of the stops. Looks after the last checkpoint
    /// first, then after the one before it, and so on to the start.
    pub fn last_hit(
        &self,
        alloc: Global,
        checkpoints: &Checkpoints<'a>,
        stops: &[StopPoint],
        before: usize,
    ) -> Result<Option<Hit>, AllocError>
        requires of_run { AreOfRun self.now checkpoints.now }
        requires within { before ≤ length self.now.picks }
        ensures { IfOk result (IsLatest self.now stops.now 0 before) }
    {
        let mut end = before;
        while end > 0 {
            let from = self.checkpoint_before(alloc, checkpoints, end - 1)?;
            let start = from.position;
            if let Some(hit) = self.last_hit_from(start, from.machine, stops, end)? {
                return Ok(Some(hit));
            }
            end = start;
        }
        Ok(None)
    }

    /// The last pick that hits one of the stops, from where the processors stand up to a position.
    fn last_hit_from(
        &self,
        start: usize,
        mut machine: OneMemory<'_>,
        stops: &[StopPoint],
        before: usize,
    ) -> Result<Option<Hit>, AllocError>
        requires at { IsAt self.now start machine }
        requires ahead { start ≤ before }
        requires within { before ≤ length self.now.picks }
        ensures { IfOk result (IsLatest self.now stops.now start before) }
    {
        let mut latest = None;
        for k in start..before {
            let hit = first_hit(stops, self.step(&machine, k));
            latest = later(latest, k, hit);
            self.make(&mut machine, k)?;
        }
        Ok(latest)
    }
}

/// The later of two hits: pick `k` may hit a stop.
fn later(latest: Option<Hit>, k: usize, stop: Option<usize>) -> Option<Hit>
    ensures { result ≡ model_later latest k stop }
{
    match stop {
        Some(stop) => Some(Hit { pick: k, stop }),
        None => latest,
    }
}

/// Makes a pick. Fails, with nothing changed, where there is no memory for a byte of output.
fn make_pick(machine: &mut OneMemory<'_>, pick: Pick) -> Result<(), AllocError>
    requires { Allowed (original_of machine.old) (state_of machine.old) (pick_of pick) }
    ensures ok { OnOk result (state_of machine.new
        ≡ after_pick (original_of machine.old) (state_of machine.old) (pick_of pick)) }
    ensures err { OnErr result (state_of machine.new ≡ state_of machine.old) }
    ensures original { original_of machine.new ≡ original_of machine.old }
{
    match pick {
        Pick::Step(p) => match machine.step(p) {
            Ok(()) => Ok(()),
            Err(StepRefused::OutOfMemory) => Err(AllocError),
            Err(StepRefused::Ended(_)) => unreachable!(),
        },
        Pick::Break { of, by } => match machine.break_reservation(of, by) {
            Ok(()) => Ok(()),
            Err(_) => unreachable!(),
        },
    }
}
