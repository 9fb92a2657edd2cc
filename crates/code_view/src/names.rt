//! The names that the text of rewritten code uses.

ghost use Rattle.std.specs.Prelude.{◌≡◌};
ghost use Rattle.code_view.specs.Names.{template_name, part_name, commit_mark, width_letter};
ghost use Rattle.code_view.specs.Names.{batch_name};

use rv32_decode::Width;
use templates::{CommitKind, Part, Template};

/// How a place is served.
pub(crate) fn template_name(template: Template) -> &'static [u8]
    ensures { result.now ≡ template_name template }
{
    match template {
        Template::Plain => b"as it is",
        Template::Const => b"constant",
        Template::Branch => b"branch",
        Template::BranchBad => b"branch to no place",
        Template::Jump => b"jump",
        Template::JumpBad => b"jump to no place",
        Template::Indirect => b"indirect jump",
        Template::Call => b"call",
        Template::Trap => b"trap",
        Template::Stop => b"stop",
        Template::FlagLoad => b"load by its value",
        Template::StateLoad => b"load by the line's state",
        Template::Store => b"store",
        Template::StoreCond => b"conditional store",
    }
}

/// A part of a place's sequences, in eight characters.
pub(crate) fn part_name(part: Part) -> &'static [u8]
    ensures { result.now ≡ part_name part }
{
    match part {
        Part::Single => b"single  ",
        Part::Head => b"head    ",
        Part::Fast => b"fast    ",
        Part::Fallback => b"fallback",
    }
}

/// Whether a word commits a step of the original.
pub(crate) fn commit_mark(kind: CommitKind) -> &'static [u8]
    ensures { result.now ≡ commit_mark kind }
{
    match kind {
        CommitKind::Never => b".",
        CommitKind::Always => b"*",
        CommitKind::IfNotFlag => b"?",
        CommitKind::IfNoWait => b"~",
    }
}

/// How many bytes a miss is of.
pub(crate) fn width_letter(width: Width) -> &'static [u8]
    ensures { result.now ≡ width_letter width }
{
    match width {
        Width::Byte => b"b",
        Width::Half => b"h",
        Width::Word => b"w",
    }
}

/// The name of a run's check, by whether the run stores.
pub(crate) fn batch_name(stores: bool) -> &'static [u8]
    ensures { result.now ≡ batch_name stores }
{
    if stores { b"batch.w" } else { b"batch.r" }
}
