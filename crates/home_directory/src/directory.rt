//! What a home keeps of its blocks.

ghost use Rattle.std.specs.Prelude.{◌≡◌, ◌<◌, ◌≤◌, ℕ, [], IfOk, length};
ghost use Rattle.block_layout.specs.Layout.{blocks};
ghost use Rattle.home_directory.specs.Home.{count_of, invals, done_with, first_entry};
ghost use Rattle.home_directory.specs.Table.{first_leaves};
ghost use Rattle.home_directory.specs.Effects.{entry_of, entries_of, is_home, ask_effect};
ghost use Rattle.home_directory.specs.Effects.{done_effect};
ghost use Rattle.home_directory.specs.Rows.{home_of, AreAfter, start_of, next_of, sharers_but};
ghost use Rattle.home_directory.specs.Rows.{after_request, after_done};

use crate::request_lists::RequestLists;
use block_layout::{Block, Layout};
use buf_pool::Buf;
use dsm_messages::{Message, Need, Post, Sends};
use std::alloc::{AllocError, Global};
use std::marker::Model;

/// The request that a home is busy with.
#[derive(Clone, Copy)]
pub struct Busy {
    /// What the node wants.
    pub need: Need,
    /// The node.
    pub node: u8,
}

/// The entry of a block, as it is stored.
#[derive(Clone, Copy)]
pub struct DirectoryEntry {
    owner: u8,
    sharers: [bool; 16],
    busy: Option<Busy>,
}

/// A request that waits at the home.
#[derive(Drop)]
pub struct Request {
    pub(crate) block: Block,
    pub(crate) from: u8,
    pub(crate) need: Need,
    pub(crate) buf: Buf,
}

/// The entries of a layout's blocks at a node, which is the home of some of them, and the requests
/// that wait there.
#[derive(Drop)]
pub struct Directory {
    layout: Layout,
    me: u8,
    entries: Vec<DirectoryEntry>,
    waiting: RequestLists,
}

impl Model for Directory {
    ghost use Rattle.std.specs.Prelude.{◌≡◌, ◌≤◌, ◌<◌, length};
    ghost use Rattle.block_layout.specs.Layout.{blocks};
    ghost use Rattle.home_directory.specs.Effects.{Directory as Seen};

    ghost Value = { Seen };

    ghost view = { λ d. record {
      layout = d.layout;
      me = d.me;
      entries = d.entries.items;
      waiting = d.waiting.requests;
    } };

    ghost invariant = { λ d. (length d.entries.items ≡ blocks d.layout)
        × (d.waiting.blocks ≡ blocks d.layout)
        × (d.layout.nodes ≤ 16) };
}

impl Directory {
    /// The directory of node `me` of `n` at the start: it is the owner of each block.
    ///
    /// Only the blocks that are homed at the node are ever looked at.
    pub fn new(alloc: Global, layout: &Layout, me: u8, n: u8) -> Result<Directory, AllocError>
        requires nodes { n ≡ layout.now.nodes }
        requires node { me < n }
        ensures layout { IfOk result (λ d. d.layout ≡ layout.now) }
        ensures me { IfOk result (λ d. d.me ≡ me) }
        ensures entries { IfOk result (λ d. (b : ℕ) → b < blocks layout.now →
            (entries_of d).entry b ≡ first_entry me) }
        ensures waiting { IfOk result (λ d. d.waiting ≡ []) }
    {
        // brings: the layout is valid, so that it has at most 16 nodes
        let _nodes = layout.nodes();
        let mut sharers = [false; 16];
        sharers[me as usize] = true;
        let first = DirectoryEntry {
            owner: me,
            sharers,
            busy: None,
        };
        let mut entries = Vec::new(alloc);
        entries.resize(layout.blocks() as usize, first)?;
        Ok(Directory {
            layout: layout.copy(alloc)?,
            me,
            entries,
            waiting: RequestLists::new(alloc, layout.blocks())?,
        })
    }

    /// Whether this node is the block's home.
    fn is_home(&self, block: Block) -> bool
        ensures { result ≡ is_home self.now block }
    {
        block < self.layout.blocks() && self.layout.home(block) == self.me
    }

    /// The request that a block's home is busy with.
    pub fn busy(&self, block: Block) -> Option<Busy>
        requires block { block < blocks self.now.layout }
        ensures value { result ≡ ((entries_of self.now).entry block).busy }
    {
        self.entries[block as usize].busy
    }

    /// The node that owns a block, where this node is the home.
    pub fn owner(&self, block: Block) -> u8
        requires block { block < blocks self.now.layout }
        ensures value { result ≡ ((entries_of self.now).entry block).owner }
    {
        self.entries[block as usize].owner
    }

    /// Whether a node shares a block, where this node is the home.
    pub fn is_sharer(&self, block: Block, node: u8) -> bool
        requires block { block < blocks self.now.layout }
        requires node { node < 16 }
        ensures value { result ≡ ((entries_of self.now).entry block).sharers node }
    {
        self.entries[block as usize].sharers[node as usize]
    }

    /// How many requests wait here.
    pub fn pending(&self) -> u8
        ensures value { result ≡ (entries_of self.now).occupancy }
    {
        self.waiting.len()
    }

    /// Read or Write from a node: the row that the table has for it, or none, and what is sent, in
    /// order.
    pub fn ask(&mut self, from: u8, block: Block, need: Need, buf: Buf) -> Sends
        ensures entries { entries_of self.new ≡ (ask_effect self.old from block need buf).entries }
        ensures sends { result.items ≡ (ask_effect self.old from block need buf).sends }
        ensures layout { self.new.layout ≡ self.old.layout }
        ensures me { self.new.me ≡ self.old.me }
    {
        let mut sends = Sends::new();
        self.ask_into(from, block, need, buf, &mut sends);
        sends
    }

    /// The same as `ask`, but for where it leaves what is sent: in an empty list.
    pub fn ask_into(&mut self, from: u8, block: Block, need: Need, buf: Buf, sends: &mut Sends)
        requires nothing { sends.old.items ≡ [] }
        ensures entries { entries_of self.new ≡ (ask_effect self.old from block need buf).entries }
        ensures sends { sends.new.items ≡ (ask_effect self.old from block need buf).sends }
        ensures layout { self.new.layout ≡ self.old.layout }
        ensures me { self.new.me ≡ self.old.me }
    {
        let nodes = self.layout.nodes();
        if !self.is_home(block) {
            return;
        }
        let entry = &mut self.entries[block as usize];
        let request = Request {
            block,
            from,
            need,
            buf,
        };
        ask_at(entry, &mut self.waiting, nodes, request, sends);
    }

    /// Done from a node: the row that the table has for it, or none, and what is sent, in order.
    pub fn done(&mut self, from: u8, block: Block) -> Sends
        ensures entries { entries_of self.new ≡ (done_effect self.old from block).entries }
        ensures sends { result.items ≡ (done_effect self.old from block).sends }
        ensures layout { self.new.layout ≡ self.old.layout }
        ensures me { self.new.me ≡ self.old.me }
    {
        let mut sends = Sends::new();
        self.done_into(from, block, &mut sends);
        sends
    }

    /// The same as `done`, but for where it leaves what is sent: in an empty list.
    pub fn done_into(&mut self, from: u8, block: Block, sends: &mut Sends)
        requires nothing { sends.old.items ≡ [] }
        ensures entries { entries_of self.new ≡ (done_effect self.old from block).entries }
        ensures sends { sends.new.items ≡ (done_effect self.old from block).sends }
        ensures layout { self.new.layout ≡ self.old.layout }
        ensures me { self.new.me ≡ self.old.me }
    {
        let nodes = self.layout.nodes();
        if !self.is_home(block) {
            return;
        }
        let entry = &mut self.entries[block as usize];
        done_at(entry, &mut self.waiting, nodes, block, from, sends);
    }
}

/// Read or Write from a node, at the entry of the block.
fn ask_at(
    entry: &mut DirectoryEntry,
    waiting: &mut RequestLists,
    nodes: u8,
    request: Request,
    sends: &mut Sends,
)
    requires nothing { sends.old.items ≡ [] }
    requires few { nodes ≤ 16 }
    requires block { request.block < waiting.old.blocks }
    ensures entry { let home = home_of entry.old waiting.old.requests request.block in
        entry_of entry.new ≡ (after_request nodes home request).home.entry }
    ensures waiting { let home = home_of entry.old waiting.old.requests request.block in
        AreAfter request.block waiting.old.requests waiting.new.requests
        (after_request nodes home request).home }
    ensures sends { let home = home_of entry.old waiting.old.requests request.block in
        sends.new.items ≡ (after_request nodes home request).sends }
    ensures blocks { waiting.new.blocks ≡ waiting.old.blocks }
{
    if request.from >= nodes {
        return;
    }
    match entry.busy {
        None => start(entry, nodes, request, sends),
        Some(busy) => {
            if busy.node != request.from
                && !waiting.has(request.block, request.from)
                && !waiting.is_full()
            {
                waiting.join(request);
            }
        }
    }
}

/// Done from a node, at the entry of the block.
fn done_at(
    entry: &mut DirectoryEntry,
    waiting: &mut RequestLists,
    nodes: u8,
    block: Block,
    from: u8,
    sends: &mut Sends,
)
    requires nothing { sends.old.items ≡ [] }
    requires few { nodes ≤ 16 }
    requires block { block < waiting.old.blocks }
    ensures entry { let home = home_of entry.old waiting.old.requests block in
        entry_of entry.new ≡ (after_done nodes home block from).home.entry }
    ensures waiting { let home = home_of entry.old waiting.old.requests block in
        AreAfter block waiting.old.requests waiting.new.requests
        (after_done nodes home block from).home }
    ensures sends { let home = home_of entry.old waiting.old.requests block in
        sends.new.items ≡ (after_done nodes home block from).sends }
    ensures blocks { waiting.new.blocks ≡ waiting.old.blocks }
{
    if from >= nodes {
        return;
    }
    match entry.busy {
        Some(busy) if busy.node == from => {
            end_request(entry, busy.need, from);
            start_next(entry, waiting, nodes, block, sends);
        }
        _ => {}
    }
}

/// Begins a request at a block that isn't busy, where it meets a row.
fn start(entry: &mut DirectoryEntry, nodes: u8, request: Request, sends: &mut Sends)
    requires nothing { sends.old.items ≡ [] }
    requires few { nodes ≤ 16 }
    requires node { request.from < nodes }
    ensures entry { entry_of entry.new ≡ (start_of nodes entry.old request).entry }
    ensures sends { sends.new.items ≡ (start_of nodes entry.old request).sends }
{
    let Request {
        block,
        from,
        need,
        buf,
    } = request;
    let sharer = entry.sharers[from as usize];
    match need {
        Need::Read => {
            if !sharer {
                entry.busy = Some(Busy { need, node: from });
                sends.push(Post {
                    to: entry.owner,
                    message: Message::FwdRead {
                        block,
                        requester: from,
                        buf,
                    },
                });
            }
        }
        Need::Write => {
            entry.busy = Some(Busy { need, node: from });
            if sharer {
                let acks = invalidate(sends, *entry, from, nodes, block, from);
                sends.push(Post {
                    to: from,
                    message: Message::Grant { block, acks, buf },
                });
            } else {
                let acks = invalidate(sends, *entry, entry.owner, nodes, block, from);
                sends.push(Post {
                    to: entry.owner,
                    message: Message::FwdWrite {
                        block,
                        requester: from,
                        acks,
                        buf,
                    },
                });
            }
        }
    }
}

/// Sends an Inval to each sharer but one, ascending, and gives their number.
fn invalidate(
    sends: &mut Sends,
    entry: DirectoryEntry,
    but: u8,
    nodes: u8,
    block: Block,
    requester: u8,
) -> u8
    requires few { nodes ≤ 16 }
    requires none { sends.old.items ≡ [] }
    ensures sends { sends.new.items ≡ invals (sharers_but entry but) block requester nodes }
    ensures count { result ≡ count_of (sharers_but entry but) nodes }
    ensures len { length sends.new.items ≤ 16 }
{
    let mut acks = 0;
    for node in 0..nodes {
        if entry.sharers[node as usize] && node != but {
            sends.push(Post {
                to: node,
                message: Message::Inval { block, requester },
            });
            acks += 1;
        }
    }
    acks
}

/// Begins the first request that waits for a block.
fn start_next(
    entry: &mut DirectoryEntry,
    waiting: &mut RequestLists,
    nodes: u8,
    block: Block,
    sends: &mut Sends,
)
    requires nothing { sends.old.items ≡ [] }
    requires few { nodes ≤ 16 }
    requires block { block < waiting.old.blocks }
    ensures entry { let next = next_of nodes entry.old block waiting.old.requests in
        entry_of entry.new ≡ next.entry }
    ensures waiting { let home = home_of entry.old waiting.old.requests block in
        AreAfter block waiting.old.requests waiting.new.requests (first_leaves home) }
    ensures sends { sends.new.items ≡ (next_of nodes entry.old block waiting.old.requests).sends }
    ensures blocks { waiting.new.blocks ≡ waiting.old.blocks }
{
    match waiting.take_first(block) {
        Some(request) => {
            if request.from >= nodes {
                return;
            }
            start(entry, nodes, request, sends);
        }
        None => {}
    }
}

/// The entry once a request is done.
#[tactic(auto, using(crate::proofs::Members::members_set, crate::proofs::Members::members_alone))]
fn end_request(entry: &mut DirectoryEntry, need: Need, node: u8)
    requires { node < 16 }
    ensures { entry_of entry.new ≡ done_with (entry_of entry.old) need node }
{
    entry.busy = None;
    match need {
        Need::Read => entry.sharers[node as usize] = true,
        Need::Write => {
            entry.owner = node;
            entry.sharers = [false; 16];
            entry.sharers[node as usize] = true;
        }
    }
}
