//! A position in a run, and its moves.

ghost use Rattle.std.specs.Prelude.{◌≡◌, ◌+◌, ◌<◌, ◌≤◌, length, true, Some, None};
ghost use Rattle.std.specs.Prelude.{IfOk, OnOk, OnErr};
ghost use Rattle.one_memory.specs.Machine.{original_of, state_of};
ghost use Rattle.time_machine.specs.Stand.{Stand, IsInterleaved, original_in, state_at};
ghost use Rattle.time_machine.specs.Stops.{came_at, hit_at, step_at};
ghost use Rattle.time_machine.specs.Moves.{EndsForward, EndsBackward};

use crate::checkpoints::{Checkpoints, bytes_of_copy};
use crate::run::PickedRun;
use crate::step::NextStep;
use crate::stops::{StopPoint, first_hit, first_met};
use block_layout::Layout;
use exec_map::Program;
use one_memory::{OneMemory, Pick};
use run_limits::NodeCount;
use std::alloc::{AllocError, Global};
use std::marker::Model;

/// A position in a run on one memory, and the processors there. A move that runs out of memory may
/// end at any position.
#[derive(Drop)]
pub struct TimeMachine<'a> {
    run: PickedRun<'a>,
    checkpoints: Checkpoints<'a>,
    machine: OneMemory<'a>,
    position: usize,
}

impl<'a> Model for TimeMachine<'a> {
    ghost use Rattle.std.specs.Prelude.{◌≡◌, ◌≤◌, length};
    ghost use Rattle.one_memory.specs.Machine.{original_of, state_of};
    ghost use Rattle.time_machine.specs.Stand.{Stand, original_in, state_at};
    ghost use Rattle.time_machine.specs.Checkpoints.{AreOfRun};

    ghost Value = { Stand };

    ghost view = { λ m. record {
      run = m.run;
      position = m.position;
    } };

    ghost invariant = { λ m. (original_of m.machine ≡ original_in m.run)
        × (state_of m.machine ≡ state_at m.run m.position)
        × (m.position ≤ length m.run.picks)
        × AreOfRun m.run m.checkpoints };
}

impl<'a> TimeMachine<'a> {
    /// The run of these picks, at its start. It keeps copies of the processors on its way, in at
    /// most `megabytes` megabytes of 2^20 bytes.
    pub fn new(
        alloc: Global,
        program: &'a Program<'a>,
        layout: &'a Layout,
        nodes: NodeCount,
        megabytes: u32,
        picks: Vec<Pick>,
    ) -> Result<TimeMachine<'a>, AllocError>
        requires { IsInterleaved (record {
          program = program.now;
          layout = layout.now;
          nodes = nodes;
          picks = picks.items;
        }) }
        ensures { IfOk result (λ m. m ≡ record {
          run = record {
            program = program.now;
            layout = layout.now;
            nodes = nodes;
            picks = picks.items;
          };
          position = 0;
        }) }
    {
        let run = PickedRun {
            program,
            layout,
            nodes,
            picks,
        };
        let machine = run.start(alloc)?;
        let bytes = bytes_of_copy(alloc, program, nodes)?;
        Ok(TimeMachine {
            run,
            checkpoints: Checkpoints::new(alloc, megabytes, bytes),
            machine,
            position: 0,
        })
    }

    /// The processors, after the picks up to this position.
    pub fn machine(&self) -> &OneMemory<'a>
        ensures original { original_of result.now ≡ original_in self.now.run }
        ensures state { state_of result.now ≡ state_at self.now.run self.now.position }
    {
        &self.machine
    }

    /// How many picks have been made.
    pub fn position(&self) -> usize
        ensures value { result ≡ self.now.position }
        ensures within { result ≤ length self.now.run.picks }
    {
        self.position
    }

    /// All picks of the run.
    pub fn picks(&self) -> &[Pick]
        ensures { result.now ≡ self.now.run.picks }
    {
        &self.run.picks
    }

    /// Goes to a position. A pick forwards or backwards is one position more or less.
    pub fn go_to(&mut self, alloc: Global, position: usize) -> Result<(), AllocError>
        requires { position ≤ length self.old.run.picks }
        ensures run { self.new.run ≡ self.old.run }
        ensures ok { OnOk result (self.new.position ≡ position) }
    {
        self.rewind(alloc, position)?;
        while self.position() < position {
            self.advance()?;
        }
        Ok(())
    }

    /// Goes forwards to the first stop that is met, and gives the number of the first that is; or
    /// to a position, if none is met up to there.
    pub fn forward_to_stop(
        &mut self,
        stops: &[StopPoint],
        to: usize,
    ) -> Result<Option<usize>, AllocError>
        requires ahead { self.old.position ≤ to }
        requires within { to ≤ length self.old.run.picks }
        ensures run { self.new.run ≡ self.old.run }
        ensures ends { IfOk result (λ stop. EndsForward self.old.run stops.now self.old.position to
            stop self.new.position) }
    {
        let mut made = self.next_step();
        while self.position() < to {
            let came = self.advance()?;
            let next = self.next_step();
            if let Some(stop) = first_met(stops, made, next, came) {
                return Ok(Some(stop));
            }
            made = next;
        }
        Ok(None)
    }

    /// Goes backwards to before the last pick that hits a stop, and gives the number of the first
    /// stop that it hits; or to the start, if no pick hits any.
    pub fn back_to_stop(
        &mut self,
        alloc: Global,
        stops: &[StopPoint],
    ) -> Result<Option<usize>, AllocError>
        ensures run { self.new.run ≡ self.old.run }
        ensures ends { IfOk result (λ stop. EndsBackward self.old.run stops.now self.old.position
            stop self.new.position) }
    {
        let latest = self
            .run
            .last_hit(alloc, &self.checkpoints, stops, self.position)?;
        match latest {
            Some(hit) => {
                self.go_to(alloc, hit.pick)?;
                Ok(Some(hit.stop))
            }
            None => {
                self.go_to(alloc, 0)?;
                Ok(None)
            }
        }
    }

    /// Goes to the nearest checkpoint up to a position, or to the start, unless it stands nearer.
    fn rewind(&mut self, alloc: Global, position: usize) -> Result<(), AllocError>
        requires { position ≤ length self.old.run.picks }
        ensures run { self.new.run ≡ self.old.run }
        ensures ok { OnOk result (self.new.position ≤ position) }
    {
        if self.is_nearest(position) {
            return Ok(());
        }
        let checkpoint = self
            .run
            .checkpoint_before(alloc, &self.checkpoints, position)?;
        self.machine = checkpoint.machine;
        self.position = checkpoint.position;
        Ok(())
    }

    /// Whether it stands at a position or before it, and no checkpoint lies nearer.
    fn is_nearest(&self, position: usize) -> bool
        ensures { result ≡ true → self.now.position ≤ position }
    {
        if position < self.position {
            return false;
        }
        match self.checkpoints.nearest(position) {
            Some(checkpoint) => checkpoint.position <= self.position,
            None => true,
        }
    }

    /// Makes the next pick, and says where its processor stands after it, unless this goes on with
    /// a call. Fails, with nothing changed, where there is no memory for a byte of output.
    fn advance(&mut self) -> Result<Option<u32>, AllocError>
        requires { self.old.position < length self.old.run.picks }
        ensures run { self.new.run ≡ self.old.run }
        ensures ok { OnOk result (self.new.position ≡ self.old.position + 1) }
        ensures came { IfOk result (λ came. came ≡ came_at self.old.run self.old.position) }
        ensures err { OnErr result (self.new.position ≡ self.old.position) }
    {
        // brings: the number of picks has room
        let _picks = self.run.len();
        self.run.make(&mut self.machine, self.position)?;
        let came = self.run.came(&self.machine, self.position);
        self.position += 1;
        self.checkpoints.pass(self.position, &self.machine);
        Ok(came)
    }

    /// The first of the stops that the next step hits.
    pub fn hit_here(&self, stops: &[StopPoint]) -> Option<usize>
        ensures { result ≡ hit_at self.now.run stops.now self.now.position }
    {
        first_hit(stops, self.next_step())
    }

    /// The step that the next pick is, if it is one.
    fn next_step(&self) -> Option<NextStep>
        ensures { result ≡ step_at self.now.run self.now.position }
    {
        self.run.step(&self.machine, self.position)
    }
}
