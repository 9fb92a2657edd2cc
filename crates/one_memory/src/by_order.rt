//! Runs the original's processors on one memory, in the order that a number makes.

ghost use Rattle.std.specs.Prelude.{◌≡◌, ◌<◌, ◌∷◌, [], ◌&&◌, ℕ, None};
ghost use Rattle.std.specs.Prelude.{length, slice_index, IfOk, OnOk};
ghost use Rattle.exec_map.specs.Contents.{program_of};
ghost use Rattle.rv32_step.specs.OneMemory.{opening, step as model_step};
ghost use Rattle.one_memory.specs.Machine.{state_of, original_of};
ghost use Rattle.one_memory.specs.ByOrder.{IsRunByOrder, end_by, one_more, goes_on, ends_by};
ghost use Rattle.one_memory.specs.Running.{IsRunning, HasRun, steps_of};

use crate::{OneMemory, StepRefused};
use block_layout::Layout;
use exec_map::{End, Exit, Program};
use random_order::{Order, order_of};
use run_limits::{Budget, NodeCount};
use std::alloc::{AllocError, Global};

/// What a run left: the bytes printed, and how each processor ended.
#[derive(Drop)]
pub struct OriginalOutcome {
    pub output: Vec<u8>,
    pub ends: Vec<End>,
}

/// Processors under way: how many steps each has made, and which go on.
#[derive(Drop)]
struct OriginalRun<'a> {
    machine: OneMemory<'a>,
    nodes: NodeCount,
    /// After this number of steps a processor is stopped.
    budget: u64,
    steps: Vec<u64>,
    /// The processors that go on, ascending.
    live: Vec<u8>,
}

/// Runs the processors of a program, whose shared lines have these blocks, to their ends: by
/// themselves, or after `budget` steps.
pub fn run_by_order(
    alloc: Global,
    program: &Program<'_>,
    layout: &Layout,
    nodes: NodeCount,
    order: u32,
    budget: Budget,
) -> Result<OriginalOutcome, AllocError>
    ensures { IfOk result (λ r. IsRunByOrder
        (record { program = program_of program.now; layout = layout.now; nodes = nodes })
        budget order
        r.output.items r.ends.items) }
{
    let mut run = OriginalRun::new(alloc, program, layout, nodes, budget)?;
    let mut order = order_of(order);
    run.execute(&mut order)?;
    run.outcome(alloc)
}

impl<'a> OriginalRun<'a> {
    /// The processors of a program, whose shared lines have these blocks, at the start.
    fn new(
        alloc: Global,
        program: &'a Program<'a>,
        layout: &'a Layout,
        nodes: NodeCount,
        budget: Budget,
    ) -> Result<OriginalRun<'a>, AllocError>
        ensures running { IfOk result IsRunning }
        ensures opening { IfOk result (λ r. state_of r.machine ≡ opening (original_of r.machine)) }
        ensures steps { IfOk result (λ r. steps_of r ≡ (λ p. 0)) }
        ensures program { IfOk result (λ r.
            (original_of r.machine).program ≡ program_of program.now) }
        ensures layout { IfOk result (λ r. (original_of r.machine).layout ≡ layout.now) }
        ensures nodes { IfOk result (λ r. r.nodes ≡ nodes) }
        ensures budget { IfOk result (λ r. r.budget ≡ budget) }
    {
        Ok(OriginalRun {
            machine: OneMemory::new(alloc, program, layout, nodes)?,
            nodes,
            budget: budget.number(),
            steps: vec![in alloc; 0; nodes.number() as usize]?,
            live: (0..nodes.as_u8()).collect(alloc)?,
        })
    }

    /// Steps the processors that an order picks, until none goes on.
    fn execute(&mut self, order: &mut Order) -> Result<(), AllocError>
        requires { IsRunning self.old }
        ensures run { OnOk result (HasRun self.old order.old (state_of self.new.machine)) }
        ensures original { OnOk result
            (original_of self.new.machine ≡ original_of self.old.machine) }
        ensures nodes { OnOk result (self.new.nodes ≡ self.old.nodes) }
        ensures budget { OnOk result (self.new.budget ≡ self.old.budget) }
    {
        while self.live.len() > 1 {
            let place = order.next(self.live.len() as u32);
            self.step(place as usize)?;
        }
        if let Some(p) = self.live.first() {
            let p = *p;
            self.run_alone(p)?;
        }
        Ok(())
    }

    /// Steps the processor in this place of those that go on, and takes it from them where it goes
    /// on no more.
    fn step(&mut self, place: usize) -> Result<(), AllocError>
        requires running { IsRunning self.old }
        requires among { place < length self.old.live.items }
        ensures running { OnOk result (IsRunning self.new) }
        ensures state { OnOk result (state_of self.new.machine
            ≡ (model_step (original_of self.old.machine) (state_of self.old.machine)
            (slice_index self.old.live.items place)).state) }
        ensures steps { OnOk result
            (steps_of self.new
            ≡ one_more (steps_of self.old) (slice_index self.old.live.items place)) }
        ensures original { OnOk result
            (original_of self.new.machine ≡ original_of self.old.machine) }
        ensures nodes { OnOk result (self.new.nodes ≡ self.old.nodes) }
        ensures budget { OnOk result (self.new.budget ≡ self.old.budget) }
    {
        let p = self.live[place];
        advance(&mut self.machine, p)?;
        self.steps[p as usize] += 1;
        if !self.goes_on(p) {
            self.live.remove(place);
        }
        Ok(())
    }

    /// Whether a processor has no exit, and has made fewer steps than the budget.
    fn goes_on(&self, p: u8) -> bool
        requires node { p < (original_of self.now.machine).nodes }
        requires steps { p < length self.now.steps.items }
        ensures { result
            ≡ goes_on self.now.budget (steps_of self.now) (state_of self.now.machine) p }
    {
        self.machine.exit(p).is_none() && self.steps[p as usize] < self.budget
    }

    /// Steps the one processor that goes on, until it doesn't. Whichever number the order has next,
    /// it picks this one.
    fn run_alone(&mut self, p: u8) -> Result<(), AllocError>
        requires running { IsRunning self.old }
        requires alone { self.old.live.items ≡ p ∷ [] }
        ensures run { (number : ℕ) → OnOk result
            (HasRun self.old number (state_of self.new.machine)) }
        ensures original { OnOk result
            (original_of self.new.machine ≡ original_of self.old.machine) }
        ensures nodes { OnOk result (self.new.nodes ≡ self.old.nodes) }
        ensures budget { OnOk result (self.new.budget ≡ self.old.budget) }
    {
        let rest = self.budget - self.steps[p as usize];
        self.machine.run_alone(p, rest)?;
        Ok(())
    }

    /// What the run left, once no processor goes on.
    fn outcome(self, alloc: Global) -> Result<OriginalOutcome, AllocError>
        requires { (original_of self.machine).nodes ≡ self.nodes }
        ensures output { IfOk result (λ r.
            r.output.items ≡ (state_of self.entry.machine).output) }
        ensures ends { IfOk result (λ r. r.ends.items
            ≡ ends_by self.entry.budget (state_of self.entry.machine) self.entry.nodes) }
    {
        let ends = self.ends(alloc)?;
        let output = self.machine.into_output();
        Ok(OriginalOutcome { output, ends })
    }

    /// How each processor ended.
    fn ends(&self, alloc: Global) -> Result<Vec<End>, AllocError>
        requires { (original_of self.now.machine).nodes ≡ self.now.nodes }
        ensures { IfOk result (λ ends. ends.items
            ≡ ends_by self.now.budget (state_of self.now.machine) self.now.nodes) }
    {
        let mut ends = Vec::new(alloc);
        for p in 0..self.nodes.as_u8() {
            ends.push(end_of(self.machine.exit(p), self.budget))?;
        }
        Ok(ends)
    }
}

/// Executes one instruction of a processor that has no exit.
fn advance(machine: &mut OneMemory<'_>, p: u8) -> Result<(), AllocError>
    requires node { p < (original_of machine.old).nodes }
    requires runs { ((state_of machine.old).processors p).exit ≡ None }
    ensures state { OnOk result (state_of machine.new
        ≡ (model_step (original_of machine.old) (state_of machine.old) p).state) }
    ensures original { original_of machine.new ≡ original_of machine.old }
{
    match machine.step(p) {
        Ok(()) => Ok(()),
        Err(StepRefused::OutOfMemory) => Err(AllocError),
        Err(StepRefused::Ended(_)) => unreachable!(),
    }
}

/// How a processor ended: by its exit, or else by the budget.
fn end_of(exit: Option<Exit>, budget: u64) -> End
    ensures { result ≡ end_by budget exit }
{
    match exit {
        Some(exit) => End::Exited(exit),
        None => End::Stopped(budget),
    }
}
