//! Copies of the processors at positions of a run.

ghost use Rattle.std.specs.Prelude.{◌≡◌, ◌+◌, ◌*◌, ◌/◌, ◌<◌, ◌≤◌, IfOk, MatchOption, [], length};
ghost use Rattle.time_machine.specs.Stand.{Run};
ghost use Rattle.time_machine.specs.Checkpoints.{IsAt, IsOfRun, AreOfRun, AreBehind, IsNearest};

use block_layout::LINE_BYTES;
use exec_map::Program;
use one_memory::{OneMemory, contained_law};
use run_limits::NodeCount;
use std::alloc::{AllocError, Global};
use std::marker::Model;

/// A megabyte, in bytes.
const MEGABYTE: u64 = 0x10_0000;

/// The bytes of the instructions of a line, decoded.
const DECODED_BYTES: u64 = 256;

/// The bytes of a processor: its window, its registers, and what else it has.
const PROCESSOR_BYTES: u64 = 0x1_0000 + 256;

/// How many picks lie between the first checkpoints.
const FIRST_GAP: usize = 0x10_0000;

/// A copy of the processors at a position.
#[derive(Drop)]
pub(crate) struct Checkpoint<'a> {
    pub position: usize,
    pub machine: OneMemory<'a>,
}

impl<'a> Checkpoint<'a> {
    /// A copy of these processors, which stand at a position.
    pub fn of(
        alloc: Global,
        position: usize,
        machine: &OneMemory<'a>,
    ) -> Result<Checkpoint<'a>, AllocError>
        ensures of_run { (r : Run) → IsAt r position machine.now → IfOk result (IsOfRun r) }
        ensures position { IfOk result (λ c. c.position ≡ position) }
    {
        contained_law();
        Ok(Checkpoint {
            position,
            machine: machine.copy(alloc)?,
        })
    }
}

/// How many bytes a copy of the processors takes, without what they have printed.
pub(crate) fn bytes_of_copy(
    alloc: Global,
    program: &Program<'_>,
    nodes: NodeCount,
) -> Result<u64, AllocError> {
    let mut bytes = PROCESSOR_BYTES * nodes.number();
    for shared in program.shared_ranges(alloc)?.as_slice() {
        bytes = bytes.saturating_add(u64::from(LINE_BYTES) * u64::from(shared.lines));
    }
    for fixed in program.read_only_ranges(alloc)?.as_slice() {
        bytes = bytes.saturating_add(
            (u64::from(LINE_BYTES) + DECODED_BYTES) * u64::from(fixed.lines),
        );
    }
    Ok(bytes)
}

/// The checkpoints of a run, in the order in which they were kept. Contracts see the list of them.
#[derive(Drop)]
pub(crate) struct Checkpoints<'a> {
    alloc: Global,
    kept: Vec<Checkpoint<'a>>,
    /// How many bytes they may take together.
    room: u64,
    /// How many bytes one takes, without what was printed.
    bytes: u64,
    /// How many picks lie between two of them.
    gap: usize,
    /// From which position on another one is wanted.
    next: usize,
}

impl<'a> Model for Checkpoints<'a> {
    ghost use Rattle.std.specs.Prelude.{◌<◌, ◌≤◌, ◌/◌, List, length};
    ghost use Rattle.time_machine.specs.declared.checkpoints.Checkpoint.{Checkpoint};

    ghost Value = { List Checkpoint };

    ghost view = { λ c. c.kept.items };

    ghost invariant = { λ c. (0 < c.bytes) × (length c.kept.items ≤ c.room / c.bytes) };
}

impl<'a> Checkpoints<'a> {
    /// None yet. There may be as many as fit into `megabytes`, where one takes `bytes` bytes.
    pub fn new(alloc: Global, megabytes: u32, bytes: u64) -> Checkpoints<'a>
        ensures { result ≡ [] }
    {
        Checkpoints {
            alloc,
            kept: Vec::new(alloc),
            room: MEGABYTE * u64::from(megabytes),
            bytes: bytes.max(1),
            gap: FIRST_GAP,
            next: FIRST_GAP,
        }
    }

    /// The last one that doesn't lie after a position.
    pub fn nearest(&self, position: usize) -> Option<&Checkpoint<'a>>
        ensures { MatchOption result (AreBehind self.now 0 position)
            (λ c. IsNearest self.now position c.now) }
    {
        let mut place = self.kept.len();
        while place > 0 {
            place -= 1;
            let at = self.kept[place].position;
            if at <= position {
                return Some(&self.kept[place]);
            }
        }
        None
    }

    /// Keeps a copy of the processors, which have come to a position, if one is wanted there.
    #[inline(always)]
    pub fn pass(&mut self, position: usize, machine: &OneMemory<'a>)
        ensures { (r : Run) → AreOfRun r self.old → IsAt r position machine.now
            → AreOfRun r self.new }
    {
        if self.next <= position {
            self.keep(position, machine);
        }
    }

    /// Keeps a copy of the processors at a position, if there is memory for it. Where there is no
    /// room for it, every other checkpoint goes, and from now on twice as many picks lie between
    /// two.
    #[inline(never)]
    fn keep(&mut self, position: usize, machine: &OneMemory<'a>)
        ensures { (r : Run) → AreOfRun r self.old → IsAt r position machine.now
            → AreOfRun r self.new }
    {
        let size = self.bytes.saturating_add(machine.output().len() as u64);
        let most = (self.room / self.bytes).min(self.room / size);
        let full = self.kept.len() as u64 >= most;
        self.next = position.saturating_add(self.gap);
        if full {
            self.gap = self.gap.saturating_mul(2);
            thin(&mut self.kept);
        } else {
            let _kept = push(self.alloc, &mut self.kept, position, machine);
        }
    }
}

/// Appends a copy of the processors, which stand at a position. Fails, with nothing changed, where
/// there is no memory for it.
fn push<'a>(
    alloc: Global,
    kept: &mut Vec<Checkpoint<'a>>,
    position: usize,
    machine: &OneMemory<'a>,
) -> Result<(), AllocError>
    ensures of_run { (r : Run) → AreOfRun r kept.old.items → IsAt r position machine.now
        → AreOfRun r kept.new.items }
    ensures one { length kept.new.items ≤ length kept.old.items + 1 }
{
    let checkpoint = Checkpoint::of(alloc, position, machine)?;
    kept.push(checkpoint)?;
    Ok(())
}

/// Lets every other one go.
fn thin(kept: &mut Vec<Checkpoint<'_>>)
    ensures of_run { (r : Run) → AreOfRun r kept.old.items → AreOfRun r kept.new.items }
    ensures half { 2 * length kept.new.items ≤ length kept.old.items }
{
    let mut place = 0;
    while place < kept.len() {
        kept.remove(place);
        place += 1;
    }
}
