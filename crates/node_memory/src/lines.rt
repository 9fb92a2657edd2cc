//! What is wanted of lines, by their state bytes.

ghost use Rattle.std.specs.Prelude.{◌≡◌, ◌++◌};
ghost use Rattle.node_model.specs.Node as model;
ghost use Rattle.node_memory.specs.Shelf.{local_of, others_of, wants_in};

use crate::memory::NodeMemory;
use node_model::dsm_messages::Need;
use node_model::state_table::{is_fixed, is_mapped, is_readable, is_writable};

/// What a word wants: that the line of an address may be read, or written.
#[derive(Clone, Copy, PartialEq, Eq)]
pub struct Want {
    pub at: u32,
    pub need: Need,
}

/// What a word wants that waits: a line, and maybe another.
#[derive(Clone, Copy, PartialEq, Eq)]
pub struct Wants {
    pub first: Want,
    pub other: Option<Want>,
}

/// Whether a line with this state byte meets a need.
fn meets(need: Need, state: u8) -> bool
    ensures value { result ≡ model.meets_need need state }
{
    match need {
        Need::Read => is_readable(state),
        Need::Write => is_writable(state),
    }
}

/// Whether no message can make a line with this state byte meet a need.
fn refuses(need: Need, state: u8) -> bool
    ensures value { result ≡ model.refuses_need need state }
{
    match need {
        Need::Read => !is_mapped(state),
        Need::Write => is_fixed(state),
    }
}

impl<'a> NodeMemory<'a> {
    /// Whether the lines of two addresses meet a need.
    pub fn both_meet(&self, need: Need, low: u32, high: u32) -> bool
        ensures value { result ≡ model.both_meet (local_of self.now) need low high }
    {
        meets(need, self.state(low / 64)) && meets(need, self.state(high / 64))
    }

    /// Whether the line of one of two addresses refuses a need: no message can make it meet that.
    pub fn one_refuses(&self, need: Need, low: u32, high: u32) -> bool
        ensures value { result ≡ model.one_refuses (local_of self.now) need low high }
    {
        refuses(need, self.state(low / 64)) || refuses(need, self.state(high / 64))
    }

    /// What is wanted of the lines of two addresses: those that don't meet the need. `None` where
    /// both do.
    pub fn unmet_wants(&self, need: Need, low: u32, high: u32) -> Option<Wants>
        ensures value { let local = local_of self.now in
            wants_in result ≡ model.unmet local need low ++ model.unmet local need high }
    {
        let other = self.unmet_want(need, high);
        match self.unmet_want(need, low) {
            Some(first) => Some(Wants { first, other }),
            None => one_want(other),
        }
    }

    /// What is wanted of one line, where it doesn't meet the need.
    fn unmet_want(&self, need: Need, at: u32) -> Option<Want>
        ensures value { others_of result ≡ model.unmet (local_of self.now) need at }
    {
        if meets(need, self.state(at / 64)) {
            None
        } else {
            Some(Want { at, need })
        }
    }
}

/// One want alone.
fn one_want(want: Option<Want>) -> Option<Wants>
    ensures value { wants_in result ≡ others_of want }
{
    match want {
        Some(first) => Some(Wants { first, other: None }),
        None => None,
    }
}
