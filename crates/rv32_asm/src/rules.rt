//! The rules of a line, and the first line that breaks one.

ghost use Rattle.std.specs.Prelude.{◌≡◌, ◌+◌, ◌^◌, ◌<◌, ◌≤◌, ◌++◌, [], ◌∷◌, length, MatchBool};
ghost use Rattle.std.specs.Prelude.{IsSomeAnd, List};
ghost use Rattle.rv32_lines.specs.Reading.{IsReadStatement, AreReadStatements};
ghost use Rattle.rv32_lines.specs.Statements.{Statement as Statements, Entry, Label, Unread};
ghost use Rattle.rv32_asm.specs.Rules.{NeedsSegment, NeedsAlignment, IsMisplaced, IsPastLimits};
ghost use Rattle.rv32_asm.specs.Standing.{place_of, counted, AreLabels, IsLine, IsLowest};
ghost use Rattle.rv32_asm.specs.Standing.{IsLowestOfNames, IsFoundFault, TellsEntry};

use crate::labels::Labels;
use crate::places::{SegmentsSoFar, appends};
use crate::refused::AsmRule;
use crate::words::{ADDRESS_END, word_at};
use rv32_lines::Statement;

/// The most segments of a text.
const MOST_SEGMENTS: u128 = 999;

/// The most bytes that a text appends.
const MOST_APPENDED: u128 = 1 << 24;

/// The first line that breaks a rule, counted from 1, and the lowest rule that it breaks.
pub(crate) fn first_fault<'a>(
    labels: &Labels<'a>,
    statements: &[Statement<'a>],
) -> Option<(AsmRule, usize)>
    ensures { (all : List Statements) → AreReadStatements statements.now all
        → AreLabels all labels.now → IsFoundFault all result }
{
    let mut place = SegmentsSoFar::first();
    let mut has_entry = false;
    for (line, statement) in statements.iter().enumerate() {
        if let Some(rule) = broken_rule(labels, statement, line, place, has_entry) {
            return Some((rule, line + 1));
        }
        has_entry = has_entry_behind(has_entry, statement);
        place = place.behind(statement);
    }
    if place.segments == 0 {
        return Some((AsmRule::Empty, statements.len() + 1));
    }
    None
}

/// Whether an entry line stands before what follows a line.
fn has_entry_behind(has_entry: bool, statement: &Statement<'_>) -> bool
    ensures { (before : List Statements) (s : Statements) → IsReadStatement statement.now s
        → TellsEntry before has_entry → TellsEntry (before ++ s ∷ []) result }
{
    has_entry || matches!(statement, Statement::Entry { .. })
}

/// Whether a line isn't in the grammar.
fn is_unread(statement: &Statement<'_>) -> bool
    ensures { (s : Statements) → IsReadStatement statement.now s
        → MatchBool result (s ≡ Unread) (s ≡ Unread → ⊥) }
{
    matches!(statement, Statement::Unread)
}

/// The lowest rule that a line breaks.
fn broken_rule<'a>(
    labels: &Labels<'a>,
    statement: &Statement<'a>,
    line: usize,
    place: SegmentsSoFar,
    has_entry: bool,
) -> Option<AsmRule>
    requires { counted place < 2 ^ 127 }
    ensures { (all before : List Statements) (s : Statements)
        → IsLine labels.now statement.now line place has_entry all before s
        → IsLowest all before s result }
{
    if is_unread(statement) {
        return Some(AsmRule::Syntax);
    }
    if let Some(rule) = broken_name(labels, statement, line, place, has_entry) {
        return Some(rule);
    }
    if is_misplaced(place, statement) {
        return Some(AsmRule::Place);
    }
    if is_past_limits(place.behind(statement)) {
        return Some(AsmRule::Size);
    }
    None
}

/// The rule on numbers or names that a line breaks.
fn broken_name<'a>(
    labels: &Labels<'a>,
    statement: &Statement<'a>,
    line: usize,
    place: SegmentsSoFar,
    has_entry: bool,
) -> Option<AsmRule>
    requires { counted place < 2 ^ 127 }
    ensures { (all before : List Statements) (s : Statements)
        → IsLine labels.now statement.now line place has_entry all before s
        → IsLowestOfNames all before s result }
{
    match statement {
        Statement::Instruction { command } => match word_at(labels, place.here(), command) {
            Ok(_) => None,
            Err(rule) => Some(rule),
        },
        Statement::Entry { name } => broken_entry(labels, *name, has_entry),
        Statement::Label { name } => broken_label(labels, *name, line),
        _ => None,
    }
}

/// The rule that a name line breaks.
fn broken_label<'a>(labels: &Labels<'a>, name: &'a [u8], line: usize) -> Option<AsmRule>
    ensures { (all before rest : List Statements) → all ≡ before ++ Label name.now ∷ rest
        → AreLabels all labels.now → line ≡ length before
        → IsLowestOfNames all before (Label name.now) result }
{
    match labels.find(name) {
        Some(label) => {
            if label.line == line {
                None
            } else {
                Some(AsmRule::Name)
            }
        }
        None => Some(AsmRule::Name),
    }
}

/// The rule that an entry line breaks.
fn broken_entry<'a>(labels: &Labels<'a>, name: &'a [u8], has_entry: bool) -> Option<AsmRule>
    ensures { (all before : List Statements) → AreLabels all labels.now
        → TellsEntry before has_entry → IsLowestOfNames all before (Entry name.now) result }
{
    match labels.find(name) {
        None => Some(AsmRule::Name),
        Some(label) => {
            if is_high(label.address) {
                return Some(AsmRule::Range);
            }
            if has_entry { Some(AsmRule::Name) } else { None }
        }
    }
}

/// Whether an address is known, and not below 2^32.
fn is_high(address: Option<u128>) -> bool
    ensures { MatchBool result (IsSomeAnd address (λ a. 2 ^ 32 ≤ a))
        (IsSomeAnd address (λ a. 2 ^ 32 ≤ a) → ⊥) }
{
    match address {
        Some(address) => address >= ADDRESS_END,
        None => false,
    }
}

/// Whether a line is out of place.
fn is_misplaced(place: SegmentsSoFar, statement: &Statement<'_>) -> bool
    requires { counted place < 2 ^ 127 }
    ensures { (s : Statements) → IsReadStatement statement.now s
        → MatchBool result (IsMisplaced (place_of place) s) (IsMisplaced (place_of place) s → ⊥) }
{
    let Some(open) = place.last else {
        return needs_segment(statement);
    };
    if needs_alignment(statement) && open.end() % 4 != 0 {
        return true;
    }
    open.is_closed && appends(statement).is_some()
}

/// Whether a line appends, names or adds.
fn needs_segment(statement: &Statement<'_>) -> bool
    ensures { (s : Statements) → IsReadStatement statement.now s
        → MatchBool result (NeedsSegment s) (NeedsSegment s → ⊥) }
{
    matches!(statement, Statement::Label { .. } | Statement::Zero { .. })
        || appends(statement).is_some()
}

/// Whether a line stands at a multiple of 4.
fn needs_alignment(statement: &Statement<'_>) -> bool
    ensures { (s : Statements) → IsReadStatement statement.now s
        → MatchBool result (NeedsAlignment s) (NeedsAlignment s → ⊥) }
{
    matches!(
        statement,
        Statement::Word { .. } | Statement::Instruction { .. }
    )
}

/// Whether a place is past the limits.
fn is_past_limits(place: SegmentsSoFar) -> bool
    requires { counted place < 2 ^ 127 + 2 ^ 64 }
    ensures { MatchBool result (IsPastLimits (place_of place)) (IsPastLimits (place_of place) → ⊥) }
{
    if place.segments > MOST_SEGMENTS || place.appended > MOST_APPENDED {
        return true;
    }
    match place.last {
        Some(open) => open.end() > ADDRESS_END || open.bytes + open.zeros >= ADDRESS_END,
        None => false,
    }
}
