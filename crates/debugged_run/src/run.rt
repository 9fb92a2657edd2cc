//! A run on one memory, as a target of the debugger.

ghost use Rattle.std.specs.Prelude.{◌≡◌, ◌<◌, ◌≤◌, true, length, IfOk, OnOk};
ghost use Rattle.debugged_run.specs.Commands.{told_of as model_told_of};
ghost use Rattle.debugged_run.specs.Motions.{Goes, GoesFrom, Moves, behind_access, watches};
ghost use Rattle.debugged_run.specs.Motions.{place_here as model_place, told_here as model_told};
ghost use Rattle.debugged_run.specs.Seen.{has_ended, register_seen};
ghost use Rattle.gdb_remote.specs.declared.request.Direction.TheVariants.{Backwards, Forwards};
ghost use Rattle.one_memory.specs.Shown.{byte_shown};
ghost use Rattle.time_machine.specs.Moves.{EndsBackward};
ghost use Rattle.time_machine.specs.Stand.{IsInterleaved, original_in, state_at};

use crate::commands::told_of;
use crate::stops::{
    before_access, places_of, point_met, stops_at, stops_of, told_backwards, told_forwards,
    told_here, watches, watches_first,
};
use block_layout::Layout;
use exec_map::Program;
use gdb_session::gdb_remote::{Direction, Point};
use gdb_session::{Doing, Motion, MotionReach, PC, Stop, Target, Told};
use run_limits::NodeCount;
use rv32_decode::Reg;
use std::alloc::{AllocError, Global};
use std::marker::Model;
use time_machine::one_memory::Pick;
use time_machine::{StopPoint, TimeMachine};

/// A run on one memory, and the position in it from which the debugger sees it. A motion that runs
/// out of memory may end at any position.
#[derive(Drop)]
pub struct DebuggedRun<'a> {
    alloc: Global,
    nodes: NodeCount,
    machine: TimeMachine<'a>,
}

impl<'a> Model for DebuggedRun<'a> {
    ghost use Rattle.std.specs.Prelude.{◌≡◌};
    ghost use Rattle.time_machine.specs.Stand.{Stand};

    ghost Value = { Stand };

    ghost view = { λ d. d.machine };

    ghost invariant = { λ d. d.nodes ≡ d.machine.run.nodes };
}

impl<'a> DebuggedRun<'a> {
    /// The run of these picks, at its start. It keeps copies of the processors on its way, in at
    /// most `megabytes` megabytes of 2^20 bytes.
    pub fn new(
        alloc: Global,
        program: &'a Program<'a>,
        layout: &'a Layout,
        nodes: NodeCount,
        megabytes: u32,
        picks: Vec<Pick>,
    ) -> Result<DebuggedRun<'a>, AllocError>
        requires { IsInterleaved (record {
          program = program.now;
          layout = layout.now;
          nodes = nodes;
          picks = picks.items;
        }) }
        ensures { IfOk result (λ d. d ≡ record {
          run = record {
            program = program.now;
            layout = layout.now;
            nodes = nodes;
            picks = picks.items;
          };
          position = 0;
        }) }
    {
        let machine = TimeMachine::new(alloc, program, layout, nodes, megabytes, picks)?;
        Ok(DebuggedRun {
            alloc,
            nodes,
            machine,
        })
    }

    /// How many picks have been made.
    pub fn position(&self) -> usize
        ensures value { result ≡ self.now.position }
        ensures within { result ≤ length self.now.run.picks }
    {
        self.machine.position()
    }

    /// All picks of the run.
    pub fn picks(&self) -> &[Pick]
        ensures { result.now ≡ self.now.run.picks }
    {
        self.machine.picks()
    }

    /// Goes to a position.
    pub fn go_to(&mut self, position: usize) -> Result<(), AllocError>
        requires { position ≤ length self.old.run.picks }
        ensures run { self.new.run ≡ self.old.run }
        ensures ok { OnOk result (self.new.position ≡ position) }
    {
        self.machine.go_to(self.alloc, position)
    }

    /// Goes backwards to before the last pick that hits a stop, and gives the number of the first
    /// stop that it hits; or to the start, if no pick hits any.
    pub fn back_to_stop(&mut self, stops: &[StopPoint]) -> Result<Option<usize>, AllocError>
        ensures run { self.new.run ≡ self.old.run }
        ensures ends { IfOk result (λ stop. EndsBackward self.old.run stops.now self.old.position
            stop self.new.position) }
    {
        self.machine.back_to_stop(self.alloc, stops)
    }

    /// Goes on, and says where it stopped, and why. It stays a position of this run, also where it
    /// fails.
    pub fn go_on(&mut self, motion: Motion, points: &[Point]) -> Result<Stop, AllocError>
        ensures run { self.new.run ≡ self.old.run }
        ensures moves { IfOk result (λ stop. Moves self.old motion points.now stop self.new) }
    {
        let points = watches_first(self.alloc, points)?;
        match motion.direction {
            Direction::Forwards => self.forwards(motion.reach, &points),
            Direction::Backwards => self.backwards(motion.reach, &points),
        }
    }

    /// Whether a processor has ended.
    pub fn has_ended(&self, processor: u16) -> bool
        requires { processor < self.now.run.nodes }
        ensures { result ≡ has_ended self.now processor }
    {
        self.machine
            .machine()
            .exit(self.number(processor))
            .is_some()
    }

    /// What a command tells.
    pub fn tell(&self, alloc: Global, command: &[u8]) -> Result<Vec<u8>, AllocError>
        ensures { IfOk result (λ told. told.items ≡ model_told_of self.now command.now) }
    {
        told_of(alloc, &self.machine, command)
    }

    /// Goes forwards to what the motion stops at, or to the end of the run.
    fn forwards(&mut self, reach: MotionReach, points: &[Point]) -> Result<Stop, AllocError>
        ensures run { self.new.run ≡ self.old.run }
        ensures goes { IfOk result (λ stop. Goes Forwards self.old.run reach points.now
            self.old.position stop self.new.position) }
    {
        match self.place_here(reach, points)? {
            Some(point) => Ok(self.told_here(point)),
            None => self.forwards_from_here(reach, points),
        }
    }

    /// Goes forwards from where it stands to what the motion stops at, or to the end of the run.
    fn forwards_from_here(
        &mut self,
        reach: MotionReach,
        points: &[Point],
    ) -> Result<Stop, AllocError>
        ensures run { self.new.run ≡ self.old.run }
        ensures goes { IfOk result (λ stop. GoesFrom None self.old.run reach points.now
            self.old.position stop self.new.position) }
    {
        // brings: the position is within the run
        let _from = self.machine.position();
        let stops = stops_of(self.alloc, reach, points)?;
        let last = self.machine.picks().len();
        let met = self.machine.forward_to_stop(&stops, last)?;
        let end = self.machine.position();
        let point = point_met(reach, points, met);
        self.machine.go_to(self.alloc, before_access(point, end))?;
        Ok(told_forwards(reach, self.machine.picks(), point, met, end))
    }

    /// What is told of a place at which the run stands already.
    fn told_here(&self, point: Point) -> Stop
        ensures { result ≡ model_told self.now.run.picks point self.now.position }
    {
        told_here(self.machine.picks(), point, self.machine.position())
    }

    /// The first of the places at which a run of any processor stands already.
    fn place_here(&self, reach: MotionReach, points: &[Point]) -> Result<Option<Point>, AllocError>
        ensures { IfOk result
            (λ x. x ≡ model_place self.now.run reach points.now self.now.position) }
    {
        match reach {
            MotionReach::Run => {
                let places = places_of(self.alloc, points)?;
                let stops = stops_at(self.alloc, &places)?;
                Ok(point_met(reach, &places, self.machine.hit_here(&stops)))
            }
            MotionReach::RunOf { .. } | MotionReach::Step { .. } => Ok(None),
        }
    }

    /// Goes backwards to what the motion stops at, or to the beginning of the run.
    fn backwards(&mut self, reach: MotionReach, points: &[Point]) -> Result<Stop, AllocError>
        ensures run { self.new.run ≡ self.old.run }
        ensures goes { IfOk result (λ stop. Goes Backwards self.old.run reach points.now
            self.old.position stop self.new.position) }
    {
        // brings: the position is within the run
        let _from = self.machine.position();
        let stops = stops_of(self.alloc, reach, points)?;
        let hit = self.machine.back_to_stop(self.alloc, &stops)?;
        let end = self.machine.position();
        let point = point_met(reach, points, hit);
        self.go_behind_access(point)?;
        Ok(told_backwards(self.machine.picks(), point, hit, end))
    }

    /// Goes after the access that comes next, if the point that was met watches it.
    fn go_behind_access(&mut self, point: Option<Point>) -> Result<(), AllocError>
        requires { watches point ≡ true → self.old.position < length self.old.run.picks }
        ensures run { self.new.run ≡ self.old.run }
        ensures ok { OnOk result (self.new.position ≡ behind_access point self.old.position) }
    {
        if watches(point) {
            // brings: the number of picks has room
            let _picks = self.machine.picks().len();
            let position = self.machine.position();
            self.machine.go_to(self.alloc, position + 1)?;
        }
        Ok(())
    }

    /// A register of processor `p`, or the address of its next instruction.
    fn register_of(&self, p: u8, number: u32) -> u32
        requires processor { p < self.now.run.nodes }
        requires number { number < 33 }
        ensures { result
            ≡ register_seen ((state_at self.now.run self.now.position).processors p) number }
    {
        let machine = self.machine.machine();
        if number == PC {
            machine.pc(p)
        } else {
            machine.registers(p).get(Reg::new(number as u8))
        }
    }

    /// The byte that processor `p` has at an address, if the address is mapped.
    fn byte_of(&self, p: u8, address: u32) -> Option<u8>
        requires { p < self.now.run.nodes }
        ensures { result ≡ byte_shown (original_in self.now.run)
            (state_at self.now.run self.now.position) p address }
    {
        self.machine.machine().byte(p, address)
    }

    /// The number of a processor, as the machine has it.
    fn number(&self, processor: u16) -> u8
        requires { processor < self.now.run.nodes }
        ensures { result ≡ processor }
    {
        // brings: there are at most 16 processors
        let _nodes = self.nodes.number();
        processor as u8
    }
}

impl<'a> Target for DebuggedRun<'a> {
    ghost use Rattle.debugged_run.specs.Commands.{Tells};
    ghost use Rattle.debugged_run.specs.Motions.{Moves};
    ghost use Rattle.debugged_run.specs.Seen.{Does, seen_from};

    ghost view = { seen_from };

    ghost does = { Does };

    ghost moves = { Moves };

    ghost tells = { Tells };

    fn processors(&self) -> u16 {
        u16::from(self.nodes.as_u8())
    }

    fn register(&self, processor: u16, number: u32) -> u32 {
        self.register_of(self.number(processor), number)
    }

    fn byte(&self, processor: u16, address: u32) -> Option<u8> {
        self.byte_of(self.number(processor), address)
    }

    fn doing(&mut self, _alloc: Global, processor: u16) -> Result<Doing, AllocError> {
        if self.has_ended(processor) {
            return Ok(Doing::Exited);
        }
        Ok(Doing::Runs)
    }

    fn go(&mut self, motion: Motion, points: &[Point]) -> Result<Stop, AllocError> {
        self.go_on(motion, points)
    }

    fn command(&mut self, alloc: Global, text: &[u8]) -> Result<Told, AllocError> {
        Ok(Told {
            text: self.tell(alloc, text)?,
            stop: None,
        })
    }
}
