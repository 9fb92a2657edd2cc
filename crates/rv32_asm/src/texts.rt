//! Texts that keep the rules.

ghost use Rattle.std.specs.Prelude.{ℕ, OnOk, IsErrOf};
ghost use Rattle.rv32_asm.specs.Rules.{IsSoundText, IsFirstFault};
ghost use Rattle.rv32_asm.specs.declared.refused.AsmRule.{AsmRule as Rules};
ghost use Rattle.rv32_asm.specs.declared.refused.AsmRefused.TheVariants as refused;

use crate::labels::Labels;
use crate::refused::AsmRefused;
use crate::rules::first_fault;
use rv32_lines::statements_of;
use std::alloc::Global;

/// Tells whether a text keeps the rules.
///
/// Lines end with a line feed; the last may lack it. Spaces at both ends of a line count for
/// nothing. An empty line and a line that begins with `#` say nothing. The others are `.segment`
/// with `r`, `rx` or `rw` and an address; `NAME:`; `.bytes`, `.word`, `.space` and `.zero`;
/// `.entry NAME`; and instructions, in the text of a listing, where a target may be a name.
///
/// Fails with the first line that breaks a rule, and the first rule that it breaks.
pub fn check_text(alloc: Global, text: &[u8]) -> Result<(), AsmRefused>
    ensures ok { OnOk result (IsSoundText text.now) }
    ensures refused { (rule : Rules) (line : ℕ)
        → IsErrOf result (refused.Broken rule line) → IsFirstFault text.now rule line }
{
    let statements = statements_of(alloc, text)?;
    let labels = Labels::of(alloc, &statements)?;
    match first_fault(&labels, &statements) {
        Some((rule, line)) => Err(AsmRefused::Broken { rule, line }),
        None => Ok(()),
    }
}
