//! What the bytes of a plan say of one place.

ghost use Rattle.std.specs.Prelude.{◌≡◌, ◌<◌, Some, IfSome, length};
ghost use Rattle.templates.specs.declared.plans.PlanEntry.{PlanEntry as Entry};
ghost use Rattle.templates.specs.declared.plans.Scratch.{Scratch as OneScratch};
ghost use Rattle.templates.specs.declared.plans.Scratches.{Scratches as AllScratches};
ghost use Rattle.rewriter.specs.RewrittenFile as model;
ghost use Rattle.rewrite_verify.specs.Reading.{AreRegisters, SaysEntry};

use rewriter::MARK;
use rv32_decode::Reg;
use templates::{PlanEntry, Scratch, Scratches, Template};

/// The scratch register of a byte; None exactly where it is that of none.
fn read_scratch(byte: u8) -> Option<Scratch>
    ensures says { IfSome result (λ x. model.scratch_byte x ≡ byte) }
    ensures only { (x : OneScratch) → x.register < 32 → model.scratch_byte x ≡ byte
        → result ≡ Some x }
{
    let register = byte % MARK;
    if register < 32 {
        Some(Scratch {
            register: Reg::new(register),
            spilled: byte >= MARK,
        })
    } else {
        None
    }
}

/// The scratch registers of three bytes; None exactly where they are those of none.
fn read_scratches(bytes: &[u8]) -> Option<Scratches>
    requires three { length bytes.now ≡ 3 }
    ensures says { IfSome result (λ x. model.scratch_bytes x ≡ bytes.now) }
    ensures registers { IfSome result AreRegisters }
    ensures only { (x : AllScratches) → AreRegisters x → model.scratch_bytes x ≡ bytes.now
        → result ≡ Some x }
{
    Some(Scratches {
        s: read_scratch(bytes[0])?,
        t: read_scratch(bytes[1])?,
        u: read_scratch(bytes[2])?,
    })
}

/// The entry of the place at an address that eight bytes say; None exactly where they say none.
pub(crate) fn read_entry(address: u32, bytes: &[u8]) -> Option<PlanEntry>
    requires eight { length bytes.now ≡ 8 }
    ensures says { IfSome result (SaysEntry address bytes.now) }
    ensures only { (e : Entry) → SaysEntry address bytes.now e → result ≡ Some e }
{
    Some(PlanEntry {
        address,
        template: Template::of_number(bytes[0] % MARK)?,
        polls: bytes[0] >= MARK,
        single: read_scratches(&bytes[1..4])?,
        run: bytes[4],
        batch: read_scratches(&bytes[5..8])?,
    })
}
