//! The sets of the registers that are live at each node, by a worklist, and dead after it.

ghost use Rattle.std.specs.Prelude.{◌≡◌, ◌<◌, ◌^◌, ◌↔◌, ◌⊎◌, ℕ, length, IfOk, get_or};
ghost use Rattle.std.specs.Prelude.{slice_get, Some};
ghost use Rattle.rv32_decode.specs.Registers.{IsMember};
ghost use Rattle.rv32_program.specs.Liveness.{leaves_code};
ghost use Rattle.templates.specs.declared.code.CodeWord.{CodeWord as TheWord};
ghost use Rattle.liveness.specs.declared.node.FlowNode.{FlowNode as TheNode};
ghost use Rattle.liveness.specs.Nodes.{Needs, Next, set_of, IsUnneeded, Live as IsLive};

use crate::back::Predecessors;
use crate::node::FlowNode;
use crate::work::Worklist;
use rv32_decode::Instr;
use std::alloc::{AllocError, Global};
use templates::CodeWord;

/// The registers that are live at each node.
pub fn live_sets(alloc: Global, nodes: &[FlowNode]) -> Result<Vec<u32>, AllocError>
    requires few { length nodes.now < 2 ^ 31 }
    ensures count { IfOk result (λ sets. length sets.items ≡ length nodes.now) }
    ensures each { IfOk result (λ sets. (i r : ℕ) → r < 32
        → (IsMember (get_or sets.items i 0) r ↔ IsLive nodes.now r i)) }
{
    let back = Predecessors::of(alloc, nodes)?;
    let mut work = Worklist::full(alloc, nodes.len() as u32)?;
    let mut sets = vec![in alloc; 0u32; nodes.len()]?;
    while let Some(i) = work.pop() {
        let i = i as usize;
        let old = sets[i];
        let new = old | needed(&nodes[i], &sets);
        if new != old {
            sets[i] = new;
            back.mark(i, &mut work)?;
        }
    }
    Ok(sets)
}

/// The registers that are dead after each code word.
pub fn dead_sets(
    alloc: Global,
    words: &[CodeWord],
    nodes: &[FlowNode],
    sets: &[u32],
) -> Result<Vec<u32>, AllocError>
    requires count { length nodes.now ≡ length words.now }
    ensures count { IfOk result (λ dead. length dead.items ≡ length words.now) }
    ensures each { IfOk result (λ dead. (k : ℕ) (w : TheWord) (node : TheNode)
        → slice_get words.now k ≡ Some w → slice_get nodes.now k ≡ Some node
        → IsUnneeded w.instruction node sets.now (get_or dead.items k 0)) }
{
    let mut dead = Vec::with_capacity(alloc, words.len())?;
    for k in 0..words.len() {
        dead.push(unneeded(&words[k].instruction, &nodes[k], sets))?;
    }
    Ok(dead)
}

/// The registers that no successor needs, where the instruction doesn't leave the code.
fn unneeded(i: &Instr, node: &FlowNode, sets: &[u32]) -> u32
    ensures value { IsUnneeded i.now node.now sets.now result }
{
    if leaves_code(i) {
        0
    } else {
        !set_after(node, sets)
    }
}

/// Whether what follows an instruction isn't known.
fn leaves_code(i: &Instr) -> bool
    ensures value { result ≡ leaves_code i.now }
{
    match i {
        Instr::Jalr { .. } | Instr::Ebreak | Instr::Illegal { .. } => true,
        _ => false,
    }
}

/// What the successors of a node need.
fn set_after(node: &FlowNode, sets: &[u32]) -> u32
    ensures value { (r : ℕ) → IsMember result r
        ↔ ((b : ℕ) × Next node.now b × IsMember (get_or sets.now b 0) r) }
{
    set_of(sets, node.first) | set_of(sets, node.second)
}

/// The set at a node, if there is one.
fn set_of(sets: &[u32], node: Option<u32>) -> u32
    ensures value { result ≡ set_of sets.now node }
{
    match node {
        None => 0,
        Some(b) if (b as usize) < sets.len() => sets[b as usize],
        Some(_) => 0,
    }
}

/// What a node needs: what it uses, and what its successors need that it doesn't define.
fn needed(node: &FlowNode, sets: &[u32]) -> u32
    ensures value { (r : ℕ) → r < 32 → (IsMember result r ↔ Needs node.now sets.now r) }
{
    transfer(node.uses, node.defs, set_after(node, sets))
}

fn transfer(uses: u32, defs: u32, after: u32) -> u32
    ensures value { (r : ℕ) → r < 32 → (IsMember result r
        ↔ (IsMember uses r ⊎ (IsMember after r × ¬ IsMember defs r))) }
{
    uses | (after & !defs)
}
