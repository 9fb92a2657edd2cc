//! The forms of text: a mnemonic and its operands.

ghost use Rattle.std.specs.Prelude.{◌≡◌, ◌++◌, OnOk, OnErr, codes};
ghost use Rattle.std.specs.Fmt.{decimal, signed_decimal};
ghost use Rattle.rv32_text.specs.Growth.{Extends};
ghost use Rattle.rv32_text.specs.Listing.{register, base, indexed, upper_digits, target, with_two};
ghost use Rattle.rv32_text.specs.Listing.{with_three};

use crate::operands::{
    push_amount, push_base, push_immediate, push_indexed, push_register, push_target, push_upper,
};
use rv32_decode::{Amount, Imm12, Reg, Upper};
use std::alloc::AllocError;

/// `lui xD, 0xH`
pub(crate) fn put_upper(
    out: &mut Vec<u8>,
    name: &[u8],
    rd: Reg,
    upper: Upper,
) -> Result<(), AllocError>
    ensures ok { OnOk result (out.new.items ≡ out.old.items
        ++ with_two name.now (register rd) (upper_digits upper)) }
    ensures err { OnErr result (Extends out.old.items out.new.items) }
{
    push_first(out, name, rd)?;
    push_upper(out, upper)?;
    Ok(())
}

/// `jal xD, 0xTTTTTTTT`
pub(crate) fn put_jump(
    out: &mut Vec<u8>,
    name: &[u8],
    rd: Reg,
    address: u32,
    offset: i32,
) -> Result<(), AllocError>
    ensures ok { OnOk result (out.new.items ≡ out.old.items
        ++ with_two name.now (register rd) (target address offset)) }
    ensures err { OnErr result (Extends out.old.items out.new.items) }
{
    push_first(out, name, rd)?;
    push_target(out, address, offset)?;
    Ok(())
}

/// `beq xA, xB, 0xTTTTTTTT`
pub(crate) fn put_branch(
    out: &mut Vec<u8>,
    name: &[u8],
    rs1: Reg,
    rs2: Reg,
    address: u32,
    offset: i32,
) -> Result<(), AllocError>
    ensures ok { OnOk result (out.new.items ≡ out.old.items
        ++ with_three name.now (register rs1) (register rs2) (target address offset)) }
    ensures err { OnErr result (Extends out.old.items out.new.items) }
{
    push_first(out, name, rs1)?;
    push_second(out, rs2)?;
    push_target(out, address, offset)?;
    Ok(())
}

/// `lw xD, I(xA)`
pub(crate) fn put_indexed(
    out: &mut Vec<u8>,
    name: &[u8],
    first: Reg,
    imm: Imm12,
    rs1: Reg,
) -> Result<(), AllocError>
    ensures ok { OnOk result (out.new.items ≡ out.old.items
        ++ with_two name.now (register first) (indexed imm rs1)) }
    ensures err { OnErr result (Extends out.old.items out.new.items) }
{
    push_first(out, name, first)?;
    push_indexed(out, imm, rs1)?;
    Ok(())
}

/// `addi xD, xA, I`
pub(crate) fn put_immediate(
    out: &mut Vec<u8>,
    name: &[u8],
    rd: Reg,
    rs1: Reg,
    imm: Imm12,
) -> Result<(), AllocError>
    ensures ok { OnOk result (out.new.items ≡ out.old.items
        ++ with_three name.now (register rd) (register rs1) (signed_decimal imm)) }
    ensures err { OnErr result (Extends out.old.items out.new.items) }
{
    push_first(out, name, rd)?;
    push_second(out, rs1)?;
    push_immediate(out, imm)?;
    Ok(())
}

/// `slli xD, xA, N`
pub(crate) fn put_shift(
    out: &mut Vec<u8>,
    name: &[u8],
    rd: Reg,
    rs1: Reg,
    amount: Amount,
) -> Result<(), AllocError>
    ensures ok { OnOk result (out.new.items ≡ out.old.items
        ++ with_three name.now (register rd) (register rs1) (decimal amount)) }
    ensures err { OnErr result (Extends out.old.items out.new.items) }
{
    push_first(out, name, rd)?;
    push_second(out, rs1)?;
    push_amount(out, amount)?;
    Ok(())
}

/// `add xD, xA, xB`
pub(crate) fn put_register(
    out: &mut Vec<u8>,
    name: &[u8],
    rd: Reg,
    rs1: Reg,
    rs2: Reg,
) -> Result<(), AllocError>
    ensures ok { OnOk result (out.new.items ≡ out.old.items
        ++ with_three name.now (register rd) (register rs1) (register rs2)) }
    ensures err { OnErr result (Extends out.old.items out.new.items) }
{
    push_first(out, name, rd)?;
    push_second(out, rs1)?;
    push_register(out, rs2)?;
    Ok(())
}

/// `lr.w xD, (xA)`, with what the order adds to the mnemonic.
pub(crate) fn put_reserving(
    out: &mut Vec<u8>,
    name: &[u8],
    order: &[u8],
    rd: Reg,
    rs1: Reg,
) -> Result<(), AllocError>
    ensures ok { OnOk result (out.new.items ≡ out.old.items
        ++ with_two (name.now ++ order.now) (register rd) (base rs1)) }
    ensures err { OnErr result (Extends out.old.items out.new.items) }
{
    push_ordered_first(out, name, order, rd)?;
    push_base(out, rs1)?;
    Ok(())
}

/// `amoadd.w xD, xB, (xA)`, with what the order adds to the mnemonic.
pub(crate) fn put_atomic(
    out: &mut Vec<u8>,
    name: &[u8],
    order: &[u8],
    rd: Reg,
    rs2: Reg,
    rs1: Reg,
) -> Result<(), AllocError>
    ensures ok { OnOk result (out.new.items ≡ out.old.items
        ++ with_three (name.now ++ order.now) (register rd) (register rs2) (base rs1)) }
    ensures err { OnErr result (Extends out.old.items out.new.items) }
{
    push_ordered_first(out, name, order, rd)?;
    push_second(out, rs2)?;
    push_base(out, rs1)?;
    Ok(())
}

/// A mnemonic with what the order adds to it, and a register with its comma.
fn push_ordered_first(
    out: &mut Vec<u8>,
    name: &[u8],
    order: &[u8],
    r: Reg,
) -> Result<(), AllocError>
    ensures ok { OnOk result (out.new.items ≡ out.old.items
        ++ (name.now ++ order.now) ++ codes " " ++ register r ++ codes ", ") }
    ensures err { OnErr result (Extends out.old.items out.new.items) }
{
    out.extend_from_slice(name)?;
    push_first(out, order, r)?;
    Ok(())
}

/// A mnemonic, and a register with its comma.
fn push_first(out: &mut Vec<u8>, name: &[u8], r: Reg) -> Result<(), AllocError>
    ensures ok { OnOk result (out.new.items ≡
        out.old.items ++ name.now ++ codes " " ++ register r ++ codes ", ") }
    ensures err { OnErr result (Extends out.old.items out.new.items) }
{
    out.extend_from_slice(name)?;
    out.extend_from_slice(b" ")?;
    push_second(out, r)?;
    Ok(())
}

/// A register with its comma.
fn push_second(out: &mut Vec<u8>, r: Reg) -> Result<(), AllocError>
    ensures ok { OnOk result (out.new.items ≡ out.old.items ++ register r ++ codes ", ") }
    ensures err { OnErr result (Extends out.old.items out.new.items) }
{
    push_register(out, r)?;
    out.extend_from_slice(b", ")?;
    Ok(())
}
