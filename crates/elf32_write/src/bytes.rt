//! Little-endian numbers and zeros at the end of a file.

ghost use Rattle.std.specs.Prelude.{◌≡◌, ◌+◌, ◌-◌, ◌*◌, ◌≤◌, ◌++◌, length, vec_len, OnOk};
ghost use Rattle.std.specs.List.{flat_map};
ghost use Rattle.elf32_write.specs.Layout as model;

use std::alloc::AllocError;

/// Appends halfwords.
pub fn push_halves(out: &mut Vec<u8>, halves: &[u16]) -> Result<(), AllocError>
    ensures items { OnOk result (out.new.items ≡ out.old.items ++ flat_map model.half halves.now) }
    ensures len { OnOk result (vec_len out.new ≡ vec_len out.old + 2 * length halves.now) }
{
    for half in halves {
        out.extend_from_slice(&half.to_le_bytes())?;
    }
    Ok(())
}

/// Appends words.
pub fn push_words(out: &mut Vec<u8>, words: &[u32]) -> Result<(), AllocError>
    ensures items { OnOk result (out.new.items ≡ out.old.items ++ flat_map model.word words.now) }
    ensures len { OnOk result (vec_len out.new ≡ vec_len out.old + 4 * length words.now) }
{
    for word in words {
        out.extend_from_slice(&word.to_le_bytes())?;
    }
    Ok(())
}

/// Appends zeros up to an offset.
pub fn pad(out: &mut Vec<u8>, offset: usize) -> Result<(), AllocError>
    requires { vec_len out.old ≤ offset }
    ensures items { OnOk result
        (out.new.items ≡ out.old.items ++ model.zeros (offset - vec_len out.old)) }
    ensures len { OnOk result (vec_len out.new ≡ offset) }
{
    out.resize(offset, 0)?;
    Ok(())
}
