//! Texts within HTML.

ghost use Rattle.std.specs.Prelude.{◌≡◌, ◌++◌, ℕ, List, Contains, OnOk};
ghost use Rattle.page_events.specs.Escape.{escape_of, escaped};

use std::alloc::AllocError;

/// Appends a text as HTML shows it.
pub fn push_escaped(out: &mut Vec<u8>, text: &[u8]) -> Result<(), AllocError>
    ensures { OnOk result (out.new.items ≡ out.old.items ++ escaped text.now) }
{
    for byte in text {
        push_character(out, *byte)?;
    }
    Ok(())
}

/// Appends one byte of a text.
fn push_character(out: &mut Vec<u8>, byte: u8) -> Result<(), AllocError>
    ensures { OnOk result (out.new.items ≡ out.old.items ++ escape_of byte) }
{
    if byte == b'&' {
        return out.extend_from_slice(b"&amp;");
    }
    if byte == b'<' {
        return out.extend_from_slice(b"&lt;");
    }
    if byte == b'>' {
        return out.extend_from_slice(b"&gt;");
    }
    if byte == b'"' {
        return out.extend_from_slice(b"&quot;");
    }
    if byte == b'\'' {
        return out.extend_from_slice(b"&#39;");
    }
    out.push(byte)?;
    Ok(())
}

/// Of an escaped text no character begins a tag or ends one, and none ends an attribute. The call
/// does nothing.
pub fn escape_law()
    ensures less { (text : List ℕ) → Contains (escaped text) 60 → ⊥ }
    ensures greater { (text : List ℕ) → Contains (escaped text) 62 → ⊥ }
    ensures quote { (text : List ℕ) → Contains (escaped text) 34 → ⊥ }
    ensures apostrophe { (text : List ℕ) → Contains (escaped text) 39 → ⊥ }
{}
