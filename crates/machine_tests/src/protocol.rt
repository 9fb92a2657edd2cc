//! The protocol without code, message by message: two nodes that upgrade at once, a write to a block
//! that sixteen nodes share, and requests that wait at a home.

ghost use Rattle.std.specs.Prelude.{◌≡◌, ◌<◌, ◌≤◌, IfOk};

use block_layout::{Layout, Lines, Ranges, default_layout};
use buf_pool::{Buf, Pool};
use dsm_protocol::Protocol;
use flag_memory::FirstBytes;
use home_directory::Directory;
use home_directory::dsm_messages::{Message, Need, Post};
use state_table::State;
use std::alloc::{AllocError, Global};
use std::test::Fail;

/// How many times all lists are looked through, at most, after a want.
const PASSES: u32 = 1000;

/// `nodes` nodes with `lines` blocks of a line each, from address 0x20000 on.
fn nodes_of(alloc: Global, lines: u32, nodes: u8) -> Result<Protocol, AllocError>
    requires some { 0 < lines }
    requires few { lines ≤ 65536 }
    requires one { 0 < nodes }
    requires most { nodes ≤ 16 }
{
    let layout = layout_of(alloc, lines, nodes)?;
    Protocol::new(alloc, &layout, &FirstBytes::new(Vec::new(alloc)), nodes)
}

/// The layout of `lines` lines from address 0x20000 on, each a block, for `nodes` nodes.
fn layout_of(alloc: Global, lines: u32, nodes: u8) -> Result<Layout, AllocError>
    requires some { 0 < lines }
    requires few { lines ≤ 65536 }
    requires one { 0 < nodes }
    requires most { nodes ≤ 16 }
    ensures nodes { IfOk result (λ l. l.nodes ≡ nodes) }
{
    let mut items = Vec::new(alloc);
    items.push(Lines {
        first: 0x800,
        lines,
    })?;
    default_layout(alloc, &Ranges::new(items), nodes)
}

/// A node wants a block. False where it asks nobody: it has the block, or waits for it or for two
/// others; or there is no such node or block.
fn want(protocol: &mut Protocol, node: u8, block: u32, need: Need) -> Result<bool, AllocError> {
    if node >= protocol.layout().nodes() || block >= protocol.layout().blocks() {
        return Ok(false);
    }
    if protocol.waits(node) == 2 || protocol.waits_for(node, block) {
        return Ok(false);
    }
    protocol.want(node, block, need)
}

/// Takes messages until no list has one. Gives how many.
fn take_all(protocol: &mut Protocol) -> Result<u64, AllocError> {
    let mut takes = 0u64;
    for _pass in 0..PASSES {
        let taken = take_each(protocol)?;
        if taken == 0 {
            break;
        }
        takes = takes.wrapping_add(taken);
    }
    Ok(takes)
}

/// Takes the first message of each list that has one. Gives how many.
fn take_each(protocol: &mut Protocol) -> Result<u64, AllocError> {
    let nodes = protocol.layout().nodes();
    let mut taken = 0u64;
    for node in 0..nodes {
        for from in 0..nodes {
            if take(protocol, node, from)? {
                taken = taken.wrapping_add(1);
            }
        }
    }
    Ok(taken)
}

/// A node takes the first message from another. False where there is none, or no such node.
fn take(protocol: &mut Protocol, node: u8, from: u8) -> Result<bool, AllocError> {
    let nodes = protocol.layout().nodes();
    if node >= nodes || from >= nodes || protocol.first(node, from).is_none() {
        return Ok(false);
    }
    protocol.take(node, from)?;
    Ok(true)
}

/// A message's kind, its requester or 0, and its number of Acks or 0.
fn parts(message: &Message) -> (&'static str, u8, u8) {
    match message {
        Message::Read { .. } => ("Read", 0, 0),
        Message::Write { .. } => ("Write", 0, 0),
        Message::FwdRead { requester, .. } => ("FwdRead", *requester, 0),
        Message::FwdWrite {
            requester,
            acks,
            ..
        } => ("FwdWrite", *requester, *acks),
        Message::Inval { requester, .. } => ("Inval", *requester, 0),
        Message::Data { acks, .. } => ("Data", 0, *acks),
        Message::Grant { acks, .. } => ("Grant", 0, *acks),
        Message::Ack { .. } => ("Ack", 0, 0),
        Message::Done { .. } => ("Done", 0, 0),
        Message::Bye => ("Bye", 0, 0),
    }
}

/// The first message from one node to another.
fn first(protocol: &Protocol, node: u8, from: u8) -> (&'static str, u8, u8) {
    let nodes = protocol.layout().nodes();
    if node >= nodes || from >= nodes {
        return ("no node", 0, 0);
    }
    match protocol.first(node, from) {
        Some(message) => parts(message),
        None => ("none", 0, 0),
    }
}

/// The state of block 0 at a node.
fn state(protocol: &Protocol, node: u8) -> &'static str {
    if node >= protocol.layout().nodes() || protocol.layout().blocks() == 0 {
        return "no node";
    }
    match protocol.state(node, 0) {
        State::Exclusive => "exclusive",
        State::Shared => "shared",
        State::Invalid => "invalid",
        State::Pending => "pending",
    }
}

/// A node takes a message of block 0: the node and the sender; the state there afterwards; and the
/// first message from the node to another then, with its requester and its number of Acks.
type TakeRow = (u8, u8, &'static str, u8, (&'static str, u8, u8));

static TAKES: [TakeRow; 6] = [
    (0, 0, "shared", 1, ("Inval", 0, 0)),
    (0, 1, "shared", 0, ("Grant", 0, 1)),
    (1, 0, "pending", 0, ("Ack", 0, 0)),
    (0, 0, "shared", 0, ("none", 0, 0)),
    (0, 1, "exclusive", 0, ("Done", 0, 0)),
    (0, 0, "exclusive", 0, ("FwdWrite", 1, 0)),
];

/// Has a node take a message, and fails the test where something else is so then.
fn try_take(protocol: &mut Protocol, row: &TakeRow) -> Result<(), Fail> {
    let (node, from, left, to, message) = *row;
    let taken = take(protocol, node, from)?;
    if taken && state(protocol, node) == left && first(protocol, to, node) == message {
        return Ok(());
    }
    Err(Fail::new(format_args!("node {node} takes from {from}")))
}

#[test]
fn two_sharers_upgrade_at_once(rt: HostRuntime) -> Result<(), Fail> {
    let mut protocol = nodes_of(rt.alloc(), 1, 2)?;
    let shared = want(&mut protocol, 1, 0, Need::Read)? && take_all(&mut protocol)? == 4;
    let both = want(&mut protocol, 0, 0, Need::Write)? && want(&mut protocol, 1, 0, Need::Write)?;
    if !shared || !both {
        return Err(Fail::from("no read, or not two wants to write"));
    }
    for row in &TAKES {
        try_take(&mut protocol, row)?;
    }
    Ok(())
}

/// Has a node want block 0, and fails the test where `takes` messages aren't received then.
fn try_want(protocol: &mut Protocol, node: u8, need: Need, takes: u64) -> Result<(), Fail> {
    if want(protocol, node, 0, need)? && take_all(protocol)? == takes {
        return Ok(());
    }
    Err(Fail::new(format_args!("node {node} wants")))
}

#[test]
fn write_among_sixteen_sharers_takes_33_messages(rt: HostRuntime) -> Result<(), Fail> {
    let mut protocol = nodes_of(rt.alloc(), 1, 16)?;
    for node in 1..16u8 {
        try_want(&mut protocol, node, Need::Read, 4)?;
    }
    try_want(&mut protocol, 3, Need::Write, 33)?;
    if state(&protocol, 3) == "exclusive" {
        return Ok(());
    }
    Err(Fail::from("the block isn't exclusive"))
}

/// A buffer with room for a block of one line.
fn buffer(alloc: Global) -> Result<Buf, AllocError> {
    let mut pool = Pool::new(alloc, 1, 64)?;
    Ok(pool.take())
}

#[test]
fn home_of_sixteen_sharers_answers_a_write(rt: HostRuntime) -> Result<(), Fail> {
    let layout = layout_of(rt.alloc(), 1, 16)?;
    let mut directory = Directory::new(rt.alloc(), &layout, 0, 16)?;
    for node in 1..16u8 {
        let forwards = directory.ask(node, 0, Need::Read, buffer(rt.alloc())?);
        let next = directory.done(node, 0);
        if forwards.len() != 1 || next.len() != 0 {
            return Err(Fail::new(format_args!("node {node} reads")));
        }
    }
    let sends = directory.ask(3, 0, Need::Write, buffer(rt.alloc())?);
    if are_answers(sends.as_slice()) {
        return Ok(());
    }
    Err(Fail::from("other messages"))
}

/// The receiver of a message, and its parts.
fn sent(post: &Post) -> (u8, (&'static str, u8, u8)) {
    (post.to, parts(&post.message))
}

/// Who has a block but node 3.
const OTHERS: [u8; 15] = [0, 1, 2, 4, 5, 6, 7, 8, 9, 10, 11, 12, 13, 14, 15];

/// Whether the others are sent an Inval each, and then node 3 a Grant that tells of 15 Acks.
fn are_answers(sends: &[Post]) -> bool {
    for (post, node) in sends.iter().zip(OTHERS) {
        if sent(post) != (node, ("Inval", 3, 0)) {
            return false;
        }
    }
    sends.len() == 16 && sent(&sends[15]) == (3, ("Grant", 0, 15))
}

/// What node 0 takes of two blocks: a Write, or a Done; the sender and the block; and the requester
/// of what is then sent, or 0.
const AT_HOME: [(bool, u8, u32, u8); 12] = [
    (true, 1, 0, 1),
    (true, 1, 1, 1),
    (true, 2, 0, 0),
    (true, 3, 1, 0),
    (true, 3, 0, 0),
    (true, 2, 1, 0),
    (false, 1, 0, 2),
    (false, 1, 1, 3),
    (false, 2, 0, 3),
    (false, 3, 1, 2),
    (false, 3, 0, 0),
    (false, 2, 1, 0),
];

#[test]
fn requests_for_two_blocks_wait_each_in_order(rt: HostRuntime) -> Result<(), Fail> {
    let layout = layout_of(rt.alloc(), 2, 4)?;
    let mut directory = Directory::new(rt.alloc(), &layout, 0, 4)?;
    for (asks, from, block, requester) in AT_HOME {
        let sends = if asks {
            let buf = buffer(rt.alloc())?;
            directory.ask(from, block, Need::Write, buf)
        } else {
            directory.done(from, block)
        };
        let begun = match sends.as_slice().first() {
            Some(post) => sent(post).1.1,
            None => 0,
        };
        if begun != requester {
            return Err(Fail::new(format_args!("from {from} of block {block}")));
        }
    }
    Ok(())
}
