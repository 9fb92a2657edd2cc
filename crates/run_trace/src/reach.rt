//! What a word reaches in memory.

ghost use Rattle.std.specs.Prelude.{◌≡◌, ℕ};
ghost use Rattle.rv32_program.specs.Program.{Program};
ghost use Rattle.replay.specs.node_model.Node as model;
ghost use Rattle.replay.specs.node_machine.NodeState.{work_of, node_of};
ghost use Rattle.replay.specs.node_model.rv32_step.declared.Demand.TheVariants.{Loads, Stores, StoresIf, Updates};
ghost use Rattle.replay.specs.node_model.rv32_step.declared.Demand.TheVariants.{Reserves};
ghost use Rattle.rv32_decode.specs.declared.AmoOp.{AmoOp};
ghost use Rattle.llsc.specs.Reservation.{holds};
ghost use Rattle.run_trace.specs.Looks.{IsReach};

use crate::traced::AccessKind;
use replay::node_machine::Node;
use replay::node_model::rv32_step::{CallStep, Demand, call_step, demand_of};
use runtime_words::RtWord;
use rv32_decode::{LoadKind, Width};
use rv32_program::addresses::MEMORY_END;

/// An access of memory, and the value that it reads.
#[derive(Clone, Copy)]
pub(crate) struct Reached {
    pub kind: AccessKind,
    pub address: u32,
    pub value: Option<u32>,
}

/// What a word reaches in memory, as far as the node tells before it.
#[derive(Clone, Copy)]
pub(crate) enum WordAccess {
    Nowhere,
    At(Reached),
    /// It reads a byte there, if it prints one.
    IfPrints(u32),
}

/// What a node's next word reaches.
pub(crate) fn reach_of(node: &Node<'_>) -> WordAccess
    ensures { IsReach result (model.word_outcome (work_of node.now) (node_of node.now)) }
{
    match node.next_word() {
        Some(word) => match word.what {
            Some(what) => reach_of_word(node, what),
            None => WordAccess::Nowhere,
        },
        None => WordAccess::Nowhere,
    }
}

/// What a word reaches at a node.
fn reach_of_word(node: &Node<'_>, word: RtWord) -> WordAccess
    ensures { (place : ℕ) → IsReach result (model.execute (work_of node.now).program place
        (node_of node.now).lane.at word (node_of node.now).lane (node_of node.now).local) }
{
    match word {
        RtWord::Native(i) => reach_by(node, demand_of(i, node.registers(), node.at())),
        RtWord::Call => reach_of_call(call_step(node.registers(), node.written())),
        _ => WordAccess::Nowhere,
    }
}

/// What one step of a call reaches.
fn reach_of_call(step: CallStep) -> WordAccess
    ensures { (program : Program) (l : model.ProcessorState) (n : model.NodeMemory)
        → IsReach result (model.make_call program l n step) }
{
    match step {
        CallStep::Puts(address) => WordAccess::IfPrints(address),
        CallStep::Ends(_) | CallStep::Returns(_) => WordAccess::Nowhere,
    }
}

/// What a demand reaches at a node.
fn reach_by(node: &Node<'_>, demand: Demand) -> WordAccess
    ensures { (place at : ℕ) → IsReach result (model.native (work_of node.now).program place at
        (node_of node.now).lane (node_of node.now).local demand) }
{
    match demand {
        Demand::Loads(kind, _, address) => load_reach(node, kind, address),
        Demand::Reserves(_, address) => load_reach(node, LoadKind::Word, address),
        Demand::Stores(width, address, _) => store_reach(width, address),
        Demand::StoresIf(_, address, _) => store_if_reach(node, address),
        Demand::Updates(_, _, address, _) => update_reach(node, address),
        _ => WordAccess::Nowhere,
    }
}

/// What a load reaches.
fn load_reach(node: &Node<'_>, kind: LoadKind, address: u32) -> WordAccess
    ensures loads { (place at r : ℕ) → IsReach result (model.native (work_of node.now).program
        place at (node_of node.now).lane (node_of node.now).local (Loads kind r address)) }
    ensures reserves { (place at r : ℕ) → kind ≡ LoadKind.Word → IsReach result (model.native
        (work_of node.now).program place at (node_of node.now).lane (node_of node.now).local
        (Reserves r address)) }
{
    if !kind.width().is_aligned(address) {
        return WordAccess::Nowhere;
    }
    if address >= MEMORY_END {
        return WordAccess::Nowhere;
    }
    WordAccess::At(Reached {
        kind: AccessKind::Reads,
        address,
        value: Some(node.value(kind, address)),
    })
}

/// What a store reaches.
fn store_reach(width: Width, address: u32) -> WordAccess
    ensures { (program : Program) (place at value : ℕ) (l : model.ProcessorState)
        (n : model.NodeMemory)
        → IsReach result (model.native program place at l n (Stores width address value)) }
{
    if !width.is_aligned(address) {
        return WordAccess::Nowhere;
    }
    if address >= MEMORY_END {
        return WordAccess::Nowhere;
    }
    WordAccess::At(Reached {
        kind: AccessKind::Writes,
        address,
        value: None,
    })
}

/// What a conditional store reaches.
fn store_if_reach(node: &Node<'_>, address: u32) -> WordAccess
    ensures { (place at r value : ℕ) → IsReach result (model.native (work_of node.now).program
        place at (node_of node.now).lane (node_of node.now).local (StoresIf r address value)) }
{
    if !Width::Word.is_aligned(address) {
        return WordAccess::Nowhere;
    }
    let kind = if is_reserved(node.reserved(), address) {
        AccessKind::Writes
    } else {
        AccessKind::WritesNot
    };
    WordAccess::At(Reached {
        kind,
        address,
        value: None,
    })
}

/// Whether an address is the one that is reserved.
fn is_reserved(reserved: Option<u32>, address: u32) -> bool
    ensures { result ≡ holds reserved address }
{
    match reserved {
        Some(at) => at == address,
        None => false,
    }
}

/// What an exchange reaches.
fn update_reach(node: &Node<'_>, address: u32) -> WordAccess
    ensures { (place at r value : ℕ) (o : AmoOp) → IsReach result (model.native
        (work_of node.now).program place at (node_of node.now).lane (node_of node.now).local
        (Updates o r address value)) }
{
    if !Width::Word.is_aligned(address) {
        return WordAccess::Nowhere;
    }
    WordAccess::At(Reached {
        kind: AccessKind::Exchanges,
        address,
        value: Some(node.value(LoadKind::Word, address)),
    })
}
