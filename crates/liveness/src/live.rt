//! Registers that are live and dead at the code words of a program.

ghost use Rattle.std.specs.Prelude.{◌≡◌, ◌≢◌, ◌<◌, ◌↔◌, ℕ, IsTrue, IsSome, IfOk, Some};
ghost use Rattle.rv32_decode.specs.declared.Instr.{Instr as TheInstr};
ghost use Rattle.rv32_decode.specs.Registers.{IsMember};
ghost use Rattle.rv32_program.specs.Liveness.{IsDeadAfter, IsDeadAt};
ghost use Rattle.templates.specs.Code.{code_of};

use crate::node::nodes_of;
use crate::sets::{dead_sets, live_sets};
use flow_graph::Graph;
use rv32_decode::{Reg, RegSet};
use std::alloc::{AllocError, Global};
use std::marker::Model;

/// The registers that are live at each code word of a graph, and dead after it. Contracts see the
/// list of the code words.
#[derive(Drop)]
pub struct Live<'a> {
    graph: &'a Graph,
    /// For each code word the set of the registers that are live at it.
    live: Vec<u32>,
    /// For each code word the set of the registers that are dead after it.
    dead: Vec<u32>,
}

impl<'a> Model for Live<'a> {
    ghost use Rattle.std.specs.Prelude.{List};
    ghost use Rattle.templates.specs.declared.code.CodeWord.{CodeWord};
    ghost use Rattle.templates.specs.Code.{Ascends};
    ghost use Rattle.liveness.specs.Nodes.{AreExact};

    ghost Value = { List CodeWord };

    ghost view = { λ l. l.graph.now };

    ghost invariant = { λ l. Ascends 0 l.graph.now
        × AreExact l.graph.now l.live.items l.dead.items };
}

impl<'a> Live<'a> {
    /// The registers that are live and dead at the code words of a graph.
    ///
    /// Takes time of the order of the code words, at most 32 times that.
    pub fn of(alloc: Global, graph: &'a Graph) -> Result<Live<'a>, AllocError>
        ensures code { IfOk result (λ l. l ≡ graph.now) }
    {
        let words = graph.code().words();
        let nodes = nodes_of(alloc, graph)?;
        let live = live_sets(alloc, &nodes)?;
        let dead = dead_sets(alloc, words, &nodes, &live)?;
        Ok(Live { graph, live, dead })
    }

    /// The graph.
    pub fn graph(&self) -> &Graph
        ensures value { result.now ≡ self.now }
    {
        self.graph
    }

    /// The registers that are dead after the code word at an address; of x0 nothing is said.
    pub fn all_dead(&self, i: u32) -> RegSet
        requires code_word { IsSome (code_of self.now i) }
        ensures members { (instruction : TheInstr) (r : ℕ) → code_of self.now i ≡ Some instruction
            → r ≢ 0 → r < 32
            → (IsMember result r ↔ IsDeadAfter (code_of self.now) r i instruction) }
    {
        match self.graph.number_at(i) {
            Some(k) => RegSet::of_bits(self.dead[k as usize]),
            None => RegSet::empty(),
        }
    }

    /// The registers that are dead at the code word at an address; of x0 nothing is said.
    pub fn all_dead_at(&self, i: u32) -> RegSet
        requires code_word { IsSome (code_of self.now i) }
        ensures members { (instruction : TheInstr) (r : ℕ) → code_of self.now i ≡ Some instruction
            → r ≢ 0 → r < 32
            → (IsMember result r ↔ IsDeadAt (code_of self.now) r i instruction) }
    {
        match self.graph.number_at(i) {
            Some(k) => {
                let live = self.live[k as usize];
                RegSet::of_bits(!live)
            }
            None => RegSet::empty(),
        }
    }

    /// Whether a register is dead after the code word at an address: on no path from a successor
    /// it is used before it is defined.
    pub fn dead(&self, i: u32, r: Reg) -> bool
        requires code_word { IsSome (code_of self.now i) }
        requires nonzero { r ≢ 0 }
        ensures dead { (instruction : TheInstr) → code_of self.now i ≡ Some instruction
            → (IsTrue result ↔ IsDeadAfter (code_of self.now) r i instruction) }
    {
        self.all_dead(i).has(r)
    }

    /// Whether a register is dead at the code word at an address: the instruction doesn't use it,
    /// and defines it or it is dead after.
    pub fn dead_at(&self, i: u32, r: Reg) -> bool
        requires code_word { IsSome (code_of self.now i) }
        requires nonzero { r ≢ 0 }
        ensures dead { (instruction : TheInstr) → code_of self.now i ≡ Some instruction
            → (IsTrue result ↔ IsDeadAt (code_of self.now) r i instruction) }
    {
        self.all_dead_at(i).has(r)
    }
}
