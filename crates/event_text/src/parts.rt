//! The parts of a line of a trace.

ghost use Rattle.std.specs.Prelude.{◌≡◌, ◌++◌, OnOk, codes};
ghost use Rattle.std.specs.Fmt.{decimal};
ghost use Rattle.run_trace.specs.node_machine.Wanted.{wanted_in};
ghost use Rattle.run_trace.specs.Given.{tally_of};
ghost use Rattle.event_text.specs.Parts as model;

use crate::names::{access_name, message_name, need_name, state_name};
use dsm_messages::{Header, Sent};
use itoa::Buffer;
use run_trace::node_machine::{Wanted, WantedBlocks};
use run_trace::{Accessed, Tallied};
use rv32_text::{push_word, push_word_text};
use state_table::State;
use std::alloc::AllocError;

/// Appends a number in decimal.
pub fn push_decimal(out: &mut Vec<u8>, n: u64) -> Result<(), AllocError>
    ensures { OnOk result (out.new.items ≡ out.old.items ++ decimal n) }
{
    let mut buffer = Buffer::new();
    out.extend_from_slice(buffer.format(n).as_bytes())?;
    Ok(())
}

/// Appends a number after a name, where there is one.
pub fn push_number(out: &mut Vec<u8>, name: &[u8], number: Option<u8>) -> Result<(), AllocError>
    ensures { OnOk result (out.new.items ≡ out.old.items ++ model.number_text name.now number) }
{
    if let Some(n) = number {
        out.extend_from_slice(name)?;
        push_decimal(out, u64::from(n))?;
    }
    Ok(())
}

/// Appends the number of a block, where there is one.
fn push_block(out: &mut Vec<u8>, block: Option<u32>) -> Result<(), AllocError>
    ensures { OnOk result
        (out.new.items ≡ out.old.items ++ model.number_text (codes " of block ") block) }
{
    if let Some(b) = block {
        out.extend_from_slice(b" of block ")?;
        push_decimal(out, u64::from(b))?;
    }
    Ok(())
}

/// Appends a text where this holds.
pub fn push_if(out: &mut Vec<u8>, holds: bool, text: &[u8]) -> Result<(), AllocError>
    ensures { OnOk result (out.new.items ≡ out.old.items ++ model.text_if holds text.now) }
{
    if holds {
        out.extend_from_slice(text)?;
    }
    Ok(())
}

/// Appends an address.
pub fn push_address(out: &mut Vec<u8>, address: u32) -> Result<(), AllocError>
    ensures { OnOk result (out.new.items ≡ out.old.items ++ model.address_text address) }
{
    out.extend_from_slice(b"0x")?;
    push_word(out, address)?;
    Ok(())
}

/// Appends a message, its block, for whom, and how many Acks come.
pub fn push_header(out: &mut Vec<u8>, header: &Header) -> Result<(), AllocError>
    ensures { OnOk result (out.new.items ≡ out.old.items ++ model.header_text header.now) }
{
    out.extend_from_slice(message_name(header.kind))?;
    push_block(out, header.block)?;
    push_number(out, b" for ", header.requester)?;
    push_number(out, b" acks ", header.acks)?;
    Ok(())
}

/// Appends a message that was sent.
fn push_sent(out: &mut Vec<u8>, sent: &Sent) -> Result<(), AllocError>
    ensures { OnOk result (out.new.items ≡ out.old.items ++ model.sent_text sent.now) }
{
    out.extend_from_slice(b"; sends ")?;
    push_header(out, &sent.header)?;
    out.extend_from_slice(b" to ")?;
    push_decimal(out, u64::from(sent.to))?;
    Ok(())
}

/// Appends the messages that were sent.
pub(crate) fn push_sends(out: &mut Vec<u8>, sends: &[Sent]) -> Result<(), AllocError>
    ensures { OnOk result (out.new.items ≡ out.old.items ++ model.sends_text sends.now) }
{
    for sent in sends {
        push_sent(out, sent)?;
    }
    Ok(())
}

/// Appends an access, if there was one.
pub(crate) fn push_accessed(out: &mut Vec<u8>, access: &Option<Accessed>) -> Result<(), AllocError>
    ensures { OnOk result (out.new.items ≡ out.old.items ++ model.accessed_text access.now) }
{
    if let Some(accessed) = access {
        out.extend_from_slice(access_name(accessed.kind))?;
        push_address(out, accessed.address)?;
        push_block(out, accessed.block)?;
    }
    Ok(())
}

/// Appends a state after a name, where there is one.
pub fn push_state(out: &mut Vec<u8>, name: &[u8], state: Option<State>) -> Result<(), AllocError>
    ensures { OnOk result (out.new.items ≡ out.old.items ++ model.state_text name.now state) }
{
    if let Some(state) = state {
        out.extend_from_slice(name)?;
        out.extend_from_slice(state_name(state))?;
    }
    Ok(())
}

/// Appends a block that was wanted.
fn push_wanted(out: &mut Vec<u8>, wanted: &Wanted) -> Result<(), AllocError>
    ensures { OnOk result (out.new.items ≡ out.old.items ++ model.wanted_text wanted.now) }
{
    out.extend_from_slice(b"; wants ")?;
    push_address(out, wanted.address)?;
    push_block(out, wanted.block)?;
    out.extend_from_slice(need_name(wanted.need))?;
    push_state(out, b", which is ", wanted.state)?;
    Ok(())
}

/// Appends the blocks that were wanted.
pub(crate) fn push_wants(out: &mut Vec<u8>, wants: &Option<WantedBlocks>) -> Result<(), AllocError>
    ensures { OnOk result
        (out.new.items ≡ out.old.items ++ model.wants_text (wanted_in wants.now)) }
{
    if let Some(wants) = wants {
        push_wanted(out, &wants.first)?;
        if let Some(other) = &wants.other {
            push_wanted(out, other)?;
        }
    }
    Ok(())
}

/// Appends what was counted.
pub(crate) fn push_tally(out: &mut Vec<u8>, tally: Tallied) -> Result<(), AllocError>
    ensures { OnOk result (out.new.items ≡ out.old.items ++ model.tally_text (tally_of tally)) }
{
    match tally {
        Tallied::Nothing => Ok(()),
        Tallied::FalseMiss => push_if(out, true, b"; a false miss"),
        Tallied::FallsBack => push_if(out, true, b"; falls back"),
    }
}

/// Appends an original word, where one stands there.
pub fn push_original(out: &mut Vec<u8>, address: u32, word: Option<u32>) -> Result<(), AllocError>
    ensures { OnOk result (out.new.items ≡ out.old.items ++ model.original_text address word) }
{
    match word {
        None => out.extend_from_slice(b" no code word")?,
        Some(word) => {
            out.extend_from_slice(b" ")?;
            push_word_text(out, address, word)?;
        }
    }
    Ok(())
}
