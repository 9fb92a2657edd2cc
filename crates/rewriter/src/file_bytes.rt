//! The bytes that a rewritten file has of a plan and of an image.

ghost use Rattle.std.specs.Prelude.{◌≡◌, ◌<◌, ◌+◌, length, slice_get, Some};
ghost use Rattle.std.specs.Prelude.{option_map, IfOk};
ghost use Rattle.jump_map.specs.Image.{most_words};
ghost use Rattle.rewriter.specs.RewrittenFile as model;

use jump_map::{IMAGE_BASE, Image};
use std::alloc::{AllocError, Global};
use templates::{Plan, PlanEntry, Scratch};

/// What stands in the highest bit of a plan's byte: a register is spilled, or a poll stands first.
pub const MARK: u8 = 0x80;

/// A scratch register as a byte.
fn scratch_byte(scratch: Scratch) -> u8
    ensures value { result ≡ model.scratch_byte scratch }
{
    let register = scratch.register.number();
    if scratch.spilled {
        register + MARK
    } else {
        register
    }
}

/// The template of a place as a byte.
fn template_byte(entry: &PlanEntry) -> u8
    ensures value { result ≡ model.template_byte entry.now }
{
    let template = entry.template.number();
    if entry.polls {
        template + MARK
    } else {
        template
    }
}

/// What the plan says of a place.
fn entry_bytes(entry: &PlanEntry) -> [u8; 8]
    ensures value { result ≡ model.entry_bytes entry.now }
{
    [
        template_byte(entry),
        scratch_byte(entry.single.s),
        scratch_byte(entry.single.t),
        scratch_byte(entry.single.u),
        entry.run,
        scratch_byte(entry.batch.s),
        scratch_byte(entry.batch.t),
        scratch_byte(entry.batch.u),
    ]
}

/// The bytes of a plan: eight for each place.
pub(crate) fn plan_bytes(alloc: Global, plan: &Plan) -> Result<Vec<u8>, AllocError>
    ensures value { IfOk result (λ bytes. bytes.items ≡ model.plan_bytes plan.now) }
{
    let mut bytes = Vec::new(alloc);
    for entry in plan.entries() {
        bytes.extend_from_slice(&entry_bytes(entry))?;
    }
    Ok(bytes)
}

/// Where an address stands in rewritten code; 0 where it is no place.
pub(crate) fn new_address(image: &Image, address: u32) -> u32
    ensures value { result ≡ model.new_address image.now address }
{
    image.new_of(address).unwrap_or(0)
}

/// The map of addresses: eight bytes for each place, the original address and the new one.
pub fn map_bytes(alloc: Global, image: &Image, plan: &Plan) -> Result<Vec<u8>, AllocError>
    ensures value { IfOk result (λ bytes. bytes.items ≡ model.map_bytes image.now plan.now) }
{
    let mut bytes = Vec::new(alloc);
    for entry in plan.entries() {
        bytes.extend_from_slice(&entry.address.to_le_bytes())?;
        bytes.extend_from_slice(&new_address(image, entry.address).to_le_bytes())?;
    }
    Ok(bytes)
}

/// The word of a number.
fn word_of(image: &Image, k: u32) -> u32
    requires within { k < length image.now }
    requires small { k < most_words }
    ensures value { option_map (λ cell. cell.word) (slice_get image.now k) ≡ Some result }
{
    image.word_at(IMAGE_BASE + 4 * k).unwrap_or(0)
}

/// The rewritten words.
pub fn code_bytes(alloc: Global, image: &Image) -> Result<Vec<u8>, AllocError>
    ensures value { IfOk result (λ bytes. bytes.items ≡ model.code_bytes image.now) }
{
    let mut bytes = Vec::new(alloc);
    for k in 0..image.len() as u32 {
        bytes.extend_from_slice(&word_of(image, k).to_le_bytes())?;
    }
    Ok(bytes)
}
