//! Code words as nodes of a graph, by their numbers.

ghost use Rattle.std.specs.Prelude.{◌≡◌, ◌≢◌, ◌<◌, ◌↔◌, ℕ, List, IfOk};
ghost use Rattle.rv32_decode.specs.Registers.{IsMember};
ghost use Rattle.rv32_program.specs.Liveness.{Uses, uses_all};
ghost use Rattle.templates.specs.declared.code.CodeWord.{CodeWord as TheWord};
ghost use Rattle.flow_graph.specs.Edges.{edges_of};
ghost use Rattle.liveness.specs.Nodes.{IsNode, AreNodes};

use flow_graph::{Edges, Graph};
use rv32_decode::{Instr, RegSet, defs, uses};
use std::alloc::{AllocError, Global};

/// One code word: the registers that it uses and defines, as sets of bits, and the numbers of the
/// code words where it leads.
#[derive(Clone, Copy)]
pub struct FlowNode {
    pub uses: u32,
    pub defs: u32,
    pub first: Option<u32>,
    pub second: Option<u32>,
}

/// The nodes of the code words.
pub fn nodes_of(alloc: Global, graph: &Graph) -> Result<Vec<FlowNode>, AllocError>
    ensures value { IfOk result (λ nodes. AreNodes graph.now nodes.items) }
{
    let words = graph.code().words();
    let mut nodes = Vec::with_capacity(alloc, words.len())?;
    for k in 0..words.len() as u32 {
        nodes.push(node_of(&words[k as usize].instruction, graph.edges(k)))?;
    }
    Ok(nodes)
}

/// The node of a code word with these edges.
fn node_of(i: &Instr, edges: Edges) -> FlowNode
    ensures value { (words : List TheWord) (w : TheWord) → w.instruction ≡ i.now
        → edges ≡ edges_of words w → IsNode words w result }
{
    FlowNode {
        uses: used_registers(i).bits(),
        defs: defs(*i).bits(),
        first: edges.first,
        second: edges.second,
    }
}

/// The registers that an instruction uses, or what follows it may; of x0 nothing is said.
pub fn used_registers(i: &Instr) -> RegSet
    ensures value { (r : ℕ) → r ≢ 0 → r < 32 → (IsMember result r ↔ Uses i.now r) }
{
    if uses_all(i) { RegSet::all() } else { uses(*i) }
}

/// Whether what follows may use every register.
fn uses_all(i: &Instr) -> bool
    ensures value { result ≡ uses_all i.now }
{
    match i {
        Instr::Jalr { .. } | Instr::Ecall | Instr::Ebreak | Instr::Illegal { .. } => true,
        _ => false,
    }
}
