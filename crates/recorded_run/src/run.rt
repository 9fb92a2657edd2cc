//! A recorded run, as a target of the debugger.

ghost use Rattle.std.specs.Prelude.{◌≡◌, ◌<◌, true, IfOk, OnOk, None, Some};
ghost use Rattle.recorded_run.specs.Tells as model;

use crate::command::{Command, command_of};
use crate::nodes::{block_text, doing_of, node_text};
use crate::texts::{no_miss_text, push_last, unknown_text, write_text};
use crate::walk::{LastEvent, Walk};
use block_layout::Layout;
use debugged_run::gdb_session::gdb_remote::Point;
use debugged_run::gdb_session::{Doing, Motion, Stop, Target, Told, Why};
use debugged_run::time_machine::one_memory::Pick;
use debugged_run::time_machine::{StopPoint, Watch, WatchKind};
use debugged_run::{DebuggedRun, mover_at};
use event_text::push_event;
use event_text::run_trace::replay::dsm_core::Work;
use event_text::run_trace::replay::run_record::Record;
use run_limits::NodeCount;
use std::alloc::{AllocError, Global};
use std::marker::Model;
use templates::{Code, Plan};

/// A recorded run, seen from a position in the run on one memory that it stands for. The nodes are
/// shown after the fewest events that make the picks up to there, or after the event to which a
/// command went. A motion or a command that runs out of memory may end at any position.
#[derive(Drop)]
pub struct RecordedRun<'a> {
    debugged: DebuggedRun<'a>,
    work: Work<'a>,
    plan: &'a Plan,
    code: &'a Code,
    kept: &'a Record,
    /// A walk that may be gone on with.
    walk: Option<Walk<'a>>,
    /// The event after which the walk stands where the nodes are shown, if one was named.
    behind: Option<LastEvent>,
}

impl<'a> Model for RecordedRun<'a> {
    ghost use Rattle.recorded_run.specs.Shown.{Recorded};
    ghost use Rattle.recorded_run.specs.Walks.{HoldsTogether};

    ghost Value = { Recorded };

    ghost view = { λ d. record {
      stand = d.debugged;
      image = d.work.image.now;
      budget = d.work.budget;
      plan = d.plan.now;
      kept = d.kept.now;
      behind = d.behind;
    } };

    ghost invariant = { λ d. HoldsTogether d.debugged d.work d.plan.now d.code.now d.kept.now d.walk
        d.behind };
}

impl<'a> RecordedRun<'a> {
    ghost use Rattle.templates.specs.Code.{HasCode};
    ghost use Rattle.event_text.specs.replay.dsm_core.CoreParts.{work_in};
    ghost use Rattle.event_text.specs.replay.run_record.Record.{IsRecord};
    ghost use Rattle.debugged_run.specs.time_machine.Stand.{IsInterleaved};
    ghost use Rattle.recorded_run.specs.declared.command.Command.TheVariants as commands;
    ghost use Rattle.recorded_run.specs.declared.walk.LastEvent.{LastEvent as Last};
    ghost use Rattle.recorded_run.specs.Tells.{DoesAsNode, TellsAs};
    ghost use Rattle.recorded_run.specs.Shown.{StandsFor};
    ghost use Rattle.recorded_run.specs.Walks.{IsAlongShown, IsWalking, StandsAt};
    ghost use Rattle.recorded_run.specs.Walks.{behind_none, comes_to};

    /// The run of a record, which stands for these picks, at its start. Of the run on one memory it
    /// keeps copies of the processors, in at most `megabytes` megabytes of 2^20 bytes.
    pub fn new(
        alloc: Global,
        work: &Work<'a>,
        plan: &'a Plan,
        code: &'a Code,
        kept: &'a Record,
        megabytes: u32,
        picks: Vec<Pick>,
    ) -> Result<RecordedRun<'a>, AllocError>
        requires code { HasCode (work_in work.now).program code.now }
        requires record { IsRecord kept.now }
        requires nodes { work.now.layout.now.nodes ≡ kept.now.nodes }
        requires picks { StandsFor (work_in work.now) plan.now kept.now picks.items }
        requires interleaved { IsInterleaved (record {
          program = work.now.program.now;
          layout = work.now.layout.now;
          nodes = work.now.layout.now.nodes;
          picks = picks.items;
        }) }
        ensures { IfOk result (λ d. d ≡ record {
          stand = record {
            run = record {
              program = work.now.program.now;
              layout = work.now.layout.now;
              nodes = work.now.layout.now.nodes;
              picks = picks.items;
            };
            position = 0;
          };
          image = work.now.image.now;
          budget = work.now.budget;
          plan = plan.now;
          kept = kept.now;
          behind = None;
        }) }
    {
        let nodes = nodes_of(work.layout);
        let debugged = DebuggedRun::new(alloc, work.program, work.layout, nodes, megabytes, picks)?;
        Ok(RecordedRun {
            debugged,
            work: Work {
                program: work.program,
                image: work.image,
                layout: work.layout,
                budget: work.budget,
            },
            plan,
            code,
            kept,
            walk: None,
            behind: None,
        })
    }

    /// A walk that comes to the position: the one that is kept, or one from the start.
    fn nearest_walk(&mut self, alloc: Global) -> Result<Walk<'a>, AllocError>
        requires { self.old.behind ≡ None }
        ensures along { IfOk result (IsAlongShown self.old) }
        ensures walking { IfOk result IsWalking }
        ensures comes { IfOk result (λ w. comes_to w self.old.stand.position ≡ true) }
        ensures run { self.new ≡ self.old }
    {
        let position = self.debugged.position();
        if let Some(walk) = self.walk.take() {
            if walk.comes_to(position) {
                return Ok(walk);
            }
        }
        Walk::new(alloc, &self.work, self.plan, self.code, self.kept)
    }

    /// A walk that stands where the nodes are shown. It is kept no longer.
    fn take_walk(&mut self, alloc: Global) -> Result<Walk<'a>, AllocError>
        ensures stands { IfOk result (StandsAt self.old) }
        ensures run { OnOk result (self.new ≡ behind_none self.old) }
    {
        if self.behind.is_some() {
            self.behind = None;
            let Some(walk) = self.walk.take() else {
                unreachable!()
            };
            return Ok(walk);
        }
        let mut walk = self.nearest_walk(alloc)?;
        let position = self.debugged.position();
        walk.go_to(self.debugged.picks(), position)?;
        Ok(walk)
    }

    /// Keeps a walk, and shows the nodes after an event, if one is named: the walk's last.
    fn keep(&mut self, walk: Walk<'a>, behind: Option<LastEvent>)
        requires along { IsAlongShown self.old walk }
        requires walking { IsWalking walk }
        requires there { (e : Last) → behind ≡ Some e → walk.last ≡ Some e }
        ensures { self.new ≡ record self.old { behind = behind } }
    {
        self.walk = Some(walk);
        self.behind = behind;
    }

    /// Tells where the run and its nodes stand.
    fn tell_where(&mut self, alloc: Global) -> Result<Vec<u8>, AllocError>
        ensures { IfOk result (λ told. TellsAs self.old commands.Where told.items self.new) }
    {
        let behind = self.behind;
        let walk = self.take_walk(alloc)?;
        let mut text = self.debugged.tell(alloc, b"where")?;
        push_last(&mut text, walk.last())?;
        self.keep(walk, behind);
        Ok(text)
    }

    /// Tells what a node does, and what it waits for.
    fn tell_node(&mut self, alloc: Global, node: u8) -> Result<Vec<u8>, AllocError>
        ensures { IfOk result (λ told. TellsAs self.old (commands.Node node) told.items self.new) }
    {
        let behind = self.behind;
        let walk = self.take_walk(alloc)?;
        let text = node_text(alloc, walk.core(), node)?;
        self.keep(walk, behind);
        Ok(text)
    }

    /// Tells what the home of an address' block keeps of it, and its state at each node.
    fn tell_block(&mut self, alloc: Global, address: u32) -> Result<Vec<u8>, AllocError>
        ensures { IfOk result
            (λ told. TellsAs self.old (commands.Block address) told.items self.new) }
    {
        let behind = self.behind;
        let walk = self.take_walk(alloc)?;
        let text = block_text(alloc, walk.core(), address)?;
        self.keep(walk, behind);
        Ok(text)
    }

    /// What the node of a processor does, where the nodes are shown.
    fn doing_of_node(&mut self, alloc: Global, processor: u16) -> Result<Doing, AllocError>
        requires { processor < self.old.stand.run.nodes }
        ensures does { IfOk result (DoesAsNode self.old processor) }
        ensures same { OnOk result (self.new ≡ self.old) }
    {
        let behind = self.behind;
        let walk = self.take_walk(alloc)?;
        let doing = doing_of(walk.core(), processor);
        self.keep(walk, behind);
        Ok(doing)
    }

    /// Goes after the next word that wants a block, and tells of it; or to the end of the run.
    fn go_to_miss(&mut self, alloc: Global) -> Result<Vec<u8>, AllocError>
        ensures { IfOk result (λ told. TellsAs self.old commands.Miss told.items self.new) }
    {
        let mut walk = self.take_walk(alloc)?;
        let Some(event) = walk.go_to_miss(self.debugged.picks())? else {
            let end = self.debugged.picks().len();
            self.debugged.go_to(end)?;
            return no_miss_text(alloc);
        };
        self.debugged.go_to(walk.picks())?;
        let mut text = Vec::new(alloc);
        push_event(&mut text, self.work.program, &event)?;
        let last = walk.last();
        self.keep(walk, last);
        Ok(text)
    }

    /// Whether the run is at its end, and the nodes aren't shown after an event that was named.
    fn is_at_end(&self) -> bool
        ensures { result ≡ model.is_at_end self.now }
    {
        self.behind.is_none() && self.debugged.position() == self.debugged.picks().len()
    }

    /// Does a command, and tells what comes of it.
    fn tell(&mut self, alloc: Global, command: Command) -> Result<Vec<u8>, AllocError>
        ensures { IfOk result (λ told. TellsAs self.old command told.items self.new) }
    {
        match command {
            Command::Where => self.tell_where(alloc),
            Command::Output => self.debugged.tell(alloc, b"output"),
            Command::Node(node) => self.tell_node(alloc, node),
            Command::Block(address) => self.tell_block(alloc, address),
            Command::Miss => self.go_to_miss(alloc),
            Command::BackToWrite(address) => self.go_back_to_write(alloc, address),
            Command::Unknown => unknown_text(alloc),
        }
    }

    /// Where the run stands after a command, if that moved it.
    fn stop_after(&self, command: Command) -> Option<Stop>
        ensures { result ≡ model.stop_after command self.now }
    {
        match command {
            Command::Miss | Command::BackToWrite(_) => Some(self.stands()),
            Command::Where
            | Command::Output
            | Command::Node(_)
            | Command::Block(_)
            | Command::Unknown => None,
        }
    }

    /// Where the run stands: at the processor of the node after whose event the nodes are shown,
    /// if one was named; else at that of the next pick, or of the last at the end.
    fn stands(&self) -> Stop
        ensures { result ≡ model.stands self.now }
    {
        if let Some(event) = self.behind {
            return Stop {
                processor: u16::from(event.node),
                why: Why::Stepped,
            };
        }
        let picks = self.debugged.picks();
        let position = self.debugged.position();
        Stop {
            processor: mover_at(picks, position.min(picks.len().saturating_sub(1))),
            why: why_at(picks, position),
        }
    }

    /// Goes back to before the last write of a byte, and tells whose it is; or to the start.
    fn go_back_to_write(&mut self, alloc: Global, address: u32) -> Result<Vec<u8>, AllocError>
        ensures { IfOk result
            (λ told. TellsAs self.old (commands.BackToWrite address) told.items self.new) }
    {
        self.behind = None;
        let writes = StopPoint::Watch(Watch {
            kind: WatchKind::Write,
            address,
            size: 1,
        });
        let hit = self.debugged.back_to_stop(&[writes])?;
        let position = self.debugged.position();
        let processor = mover_at(self.debugged.picks(), position);
        write_text(alloc, hit, processor)
    }
}

impl<'a> Target for RecordedRun<'a> {
    ghost use Rattle.recorded_run.specs.Shown.{shown_from};
    ghost use Rattle.recorded_run.specs.Tells.{Does, Moves, Tells};

    ghost view = { shown_from };

    ghost does = { Does };

    ghost moves = { Moves };

    ghost tells = { Tells };

    fn processors(&self) -> u16 {
        self.debugged.processors()
    }

    fn register(&self, processor: u16, number: u32) -> u32 {
        self.debugged.register(processor, number)
    }

    fn byte(&self, processor: u16, address: u32) -> Option<u8> {
        self.debugged.byte(processor, address)
    }

    fn doing(&mut self, alloc: Global, processor: u16) -> Result<Doing, AllocError> {
        if self.debugged.has_ended(processor) {
            return Ok(Doing::Exited);
        }
        if self.is_at_end() {
            return Ok(Doing::Stopped);
        }
        self.doing_of_node(alloc, processor)
    }

    fn go(&mut self, motion: Motion, points: &[Point]) -> Result<Stop, AllocError> {
        self.behind = None;
        self.debugged.go_on(motion, points)
    }

    fn command(&mut self, alloc: Global, text: &[u8]) -> Result<Told, AllocError> {
        let command = command_of(text);
        let text = self.tell(alloc, command)?;
        Ok(Told {
            text,
            stop: self.stop_after(command),
        })
    }
}

/// Why a run stands at a position.
fn why_at(picks: &[Pick], position: usize) -> Why
    ensures { result ≡ model.why_at picks.now position }
{
    if position == 0 {
        Why::Beginning
    } else if position == picks.len() {
        Why::End
    } else {
        Why::Stepped
    }
}

/// How many processors a run on this layout has.
fn nodes_of(layout: &Layout) -> NodeCount
    ensures { result ≡ layout.now.nodes }
{
    match NodeCount::of(u64::from(layout.nodes())) {
        Some(nodes) => nodes,
        None => unreachable!(),
    }
}
