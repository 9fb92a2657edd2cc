//! Scratch registers by what is dead.

ghost use Rattle.std.specs.Prelude.{◌≡◌, ◌<◌, Some, IfOk, IfErr, slice_get, slice_index_or};
ghost use Rattle.std.specs.Prelude.{take};
ghost use Rattle.rv32_decode.specs.Fields.{bit};
ghost use Rattle.templates.specs.Plans.{no_scratch};
ghost use Rattle.templates.specs.WholePlan.{in_order, scratches_of};
ghost use Rattle.check_plan.specs.Members.{members, both, IsPassed};

use rv32_decode::{Reg, RegSet};
use templates::{Scratch, Scratches};

/// No scratch register.
pub const NO_SCRATCH: Scratch = Scratch {
    register: Reg::ZERO,
    spilled: false,
};

/// No scratch registers.
pub const NO_SCRATCHES: Scratches = Scratches {
    s: NO_SCRATCH,
    t: NO_SCRATCH,
    u: NO_SCRATCH,
};

/// `count` scratch registers of these candidates but x0; the dead ones come first.
pub fn choose(candidates: RegSet, dead: RegSet, count: u8) -> Scratches
    ensures value { result
        ≡ scratches_of (take count (in_order (bit dead) (members candidates))) }
{
    if count == 0 {
        return NO_SCRATCHES;
    }
    let others = candidates.difference(dead);
    let dead = candidates.difference(others);
    Scratches {
        s: scratch(dead, others, 0, count),
        t: scratch(dead, others, 1, count),
        u: scratch(dead, others, 2, count),
    }
}

/// The scratch register of number k, where `count` are taken: the dead ones, then the others.
fn scratch(dead: RegSet, others: RegSet, k: u8, count: u8) -> Scratch
    ensures value { result ≡ slice_index_or (take count (both dead others)) k no_scratch }
{
    if k < count {
        candidate(dead, others, k)
    } else {
        NO_SCRATCH
    }
}

/// The candidate of number k: the dead ones, then the others.
fn candidate(dead: RegSet, others: RegSet, k: u8) -> Scratch
    ensures value { result ≡ slice_index_or (both dead others) k no_scratch }
{
    match member(dead, k) {
        Ok(register) => Scratch {
            register,
            spilled: false,
        },
        Err(left) => match member(others, left) {
            Ok(register) => Scratch {
                register,
                spilled: true,
            },
            Err(_) => NO_SCRATCH,
        },
    }
}

/// The member of number k of a set, without x0 and ascending; or, where the set has fewer, how many
/// of k are left.
fn member(set: RegSet, k: u8) -> Result<Reg, u8>
    ensures ok { IfOk result (λ r. slice_get (members set) k ≡ Some r) }
    ensures err { IfErr result (λ left. IsPassed set k left) }
{
    let mut left = k;
    for number in 1..32 {
        let register = Reg::new(number);
        if set.has(register) {
            if left == 0 {
                return Ok(register);
            }
            left -= 1;
        }
    }
    Err(left)
}
