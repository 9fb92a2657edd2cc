//! Reads a record's text.

ghost use Rattle.std.specs.Prelude.{◌≡◌, ℕ, ◌+◌, ◌<◌, ◌≤◌, ◌^◌, ◌++◌, [], length, All, codes, IfOk};
ghost use Rattle.std.specs.Prelude.{IfErr, IfSome, IsErrOf, MatchResult, MatchOption};
ghost use Rattle.run_limits.specs.Ranges.{IsNodeCount, IsBudget};
ghost use Rattle.run_record.specs.Lists.{items_of};
ghost use Rattle.run_record.specs.Reading.{IsRead, IsFault};
ghost use Rattle.run_record.specs.Record.{IsRecord, IsBlockLine, IsTakeBehind, AreTakesBehind};
ghost use Rattle.run_record.specs.Record.{IsCodeLength};
ghost use Rattle.run_record.specs.Rules.{Nodes, Batch, Range, Node, Take, Nothing};
ghost use Rattle.run_record.specs.Rules.{awaited_behind_batch, node_awaited, IsFirstFault};
ghost use Rattle.run_record.specs.Rules as awaits;
ghost use Rattle.run_record.specs.Telling.{HasWords, IsOfWords};
ghost use Rattle.run_record.specs.Text as model;
ghost use Rattle.run_record.specs.declared.Record.{Record as Records};
ghost use Rattle.run_record.specs.declared.refused.RecordRule.{RecordRule as Rules};
ghost use Rattle.run_record.specs.declared.refused.RecordRefused.TheVariants.{OutOfMemory};
ghost use Rattle.run_record.specs.declared.version.Version.{Version as Versions};
ghost use Rattle.run_record.specs.declared.version.Version.TheVariants.{Second};

use crate::Record;
use crate::line::{batch_of, number_line, range_of, take_of};
use crate::lines::TextLines;
use crate::parts::{Blocks, Journals};
use crate::refused::{RecordRefused, RecordRule};
use crate::version::Version;
use block_layout::BlockRange;
use node_model::Entry;
use node_model::jump_map::MOST_WORDS;
use run_limits::{Budget, NodeCount};
use std::alloc::Global;

/// Reads the line of the version.
fn read_version(lines: &mut TextLines<'_>) -> Result<Version, RecordRefused>
    ensures ok { IfOk result (λ v. IsRead awaits.Version lines.old
        (model.version_line v) (Nodes v) lines.new) }
    ensures err { IfErr result (IsFault awaits.Version lines.old) }
{
    let line = lines.next_line()?;
    let Some(number) = number_line(line.text, b"shasta-record ") else {
        return Err(RecordRule::Syntax.at(line.number));
    };
    match Version::of_number(number) {
        Some(version) => Ok(version),
        None => Err(RecordRule::Version.at(line.number)),
    }
}

/// Reads the line of the number of nodes.
fn read_nodes(lines: &mut TextLines<'_>) -> Result<u8, RecordRefused>
    ensures count { IfOk result IsNodeCount }
    ensures ok { (v : Versions) → IfOk result (λ n. IsRead (Nodes v) lines.old
        (model.number_line (codes "nodes ") n) (awaits.Budget v n) lines.new) }
    ensures err { (v : Versions) → IfErr result (IsFault (Nodes v) lines.old) }
{
    let line = lines.next_line()?;
    let Some(number) = number_line(line.text, b"nodes ") else {
        return Err(RecordRule::Syntax.at(line.number));
    };
    match NodeCount::of(number) {
        Some(nodes) => Ok(nodes.as_u8()),
        None => Err(RecordRule::Node.at(line.number)),
    }
}

/// Reads the line of the budget.
fn read_budget(lines: &mut TextLines<'_>) -> Result<u64, RecordRefused>
    ensures budget { IfOk result IsBudget }
    ensures ok { (v : Versions) (nodes : ℕ) → IfOk result (λ n. IsRead (awaits.Budget v nodes)
        lines.old (model.number_line (codes "budget ") n) (Batch v nodes) lines.new) }
    ensures err { (v : Versions) (nodes : ℕ)
        → IfErr result (IsFault (awaits.Budget v nodes) lines.old) }
{
    let line = lines.next_line()?;
    let Some(number) = number_line(line.text, b"budget ") else {
        return Err(RecordRule::Syntax.at(line.number));
    };
    match Budget::of(number) {
        Some(budget) => Ok(budget.number()),
        None => Err(RecordRule::Syntax.at(line.number)),
    }
}

/// Reads the line of the batching.
fn read_batch(lines: &mut TextLines<'_>) -> Result<bool, RecordRefused>
    ensures ok { (v : Versions) (nodes : ℕ) → IfOk result (λ b. IsRead (Batch v nodes) lines.old
        (model.batch_line b) (awaited_behind_batch v nodes) lines.new) }
    ensures err { (v : Versions) (nodes : ℕ) → IfErr result (IsFault (Batch v nodes) lines.old) }
{
    let line = lines.next_line()?;
    match batch_of(line.text) {
        Some(batch) => Ok(batch),
        None => Err(RecordRule::Syntax.at(line.number)),
    }
}

/// Reads the line of the number of rewritten words, where the version has one.
fn read_code(lines: &mut TextLines<'_>, version: Version) -> Result<Option<u32>, RecordRefused>
    ensures version { IfOk result (λ c. model.version_of c ≡ version) }
    ensures code { IfOk result (λ c. IfSome c IsCodeLength) }
    ensures ok { (nodes : ℕ) → IfOk result (λ c. IsRead (awaited_behind_batch version nodes)
        lines.old (model.code_line c) (Range version nodes) lines.new) }
    ensures err { (nodes : ℕ)
        → IfErr result (IsFault (awaited_behind_batch version nodes) lines.old) }
{
    match version {
        Version::First => Ok(None),
        Version::Second => Ok(Some(read_words(lines)?)),
    }
}

/// Reads the line of the number of rewritten words.
fn read_words(lines: &mut TextLines<'_>) -> Result<u32, RecordRefused>
    ensures code { IfOk result IsCodeLength }
    ensures ok { (nodes : ℕ) → IfOk result (λ n. IsRead (awaits.Code nodes) lines.old
        (model.number_line (codes "code ") n) (Range Second nodes) lines.new) }
    ensures err { (nodes : ℕ) → IfErr result (IsFault (awaits.Code nodes) lines.old) }
{
    let line = lines.next_line()?;
    let Some(words) = number_line(line.text, b"code ") else {
        return Err(RecordRule::Syntax.at(line.number));
    };
    if words == 0 || words > MOST_WORDS as u64 {
        return Err(RecordRule::Syntax.at(line.number));
    }
    Ok(words as u32)
}

/// Reads the line of a range, where there is one.
fn read_range(lines: &mut TextLines<'_>) -> Result<Option<BlockRange>, RecordRefused>
    ensures ok { (v : Versions) (nodes : ℕ) → IfOk result (λ next. MatchOption next
        (IsRead (Range v nodes) lines.old [] (Node v nodes 0) lines.new)
        (λ r. IsRead (Range v nodes) lines.old (model.block_line r) (Range v nodes) lines.new)) }
    ensures range { IfOk result (λ next. IfSome next (λ r. IsBlockLine r × HasWords r)) }
    ensures err { (v : Versions) (nodes : ℕ)
        → IfErr result (IsFault (Range v nodes) lines.old) }
{
    if !lines.begin_with(b"block ") {
        return Ok(None);
    }
    let line = lines.next_line()?;
    match range_of(line.text) {
        Some(range) => Ok(Some(range)),
        None => Err(RecordRule::Syntax.at(line.number)),
    }
}

/// Reads the lines of the ranges.
fn read_ranges(alloc: Global, lines: &mut TextLines<'_>) -> Result<Vec<BlockRange>, RecordRefused>
    ensures ok { (v : Versions) (nodes : ℕ) → IfOk result (λ rs. IsRead (Range v nodes) lines.old
        (model.block_lines rs.items) (Node v nodes 0) lines.new) }
    ensures digits { IfOk result (λ rs. All IsBlockLine rs.items) }
    ensures words { IfOk result (λ rs. All HasWords rs.items) }
    ensures err { (v : Versions) (nodes : ℕ)
        → IfErr result (IsFault (Range v nodes) lines.old) }
{
    let mut ranges = Vec::new(alloc);
    while let Some(range) = read_range(lines)? {
        ranges.push(range)?;
    }
    Ok(ranges)
}

/// Reads the line of a node's number.
fn read_node(lines: &mut TextLines<'_>, node: u8) -> Result<(), RecordRefused>
    ensures ok { (v : Versions) (nodes : ℕ) → IfOk result (λ _. IsRead (Node v nodes node)
        lines.old (model.number_line (codes "node ") node) (Take v nodes node 0) lines.new) }
    ensures err { (v : Versions) (nodes : ℕ)
        → IfErr result (IsFault (Node v nodes node) lines.old) }
{
    let line = lines.next_line()?;
    let Some(number) = number_line(line.text, b"node ") else {
        return Err(RecordRule::Syntax.at(line.number));
    };
    if number != u64::from(node) {
        return Err(RecordRule::Node.at(line.number));
    }
    Ok(())
}

/// Reads a take after a stamp, or the end of its node.
fn read_take(
    lines: &mut TextLines<'_>,
    version: Version,
    nodes: u8,
    last: u64,
) -> Result<Option<Entry>, RecordRefused>
    requires few { nodes ≤ 16 }
    requires low { last < 2 ^ 63 }
    ensures ok { (node : ℕ) → IfOk result (λ next. MatchOption next
        (IsRead (Take version nodes node last) lines.old (codes "end\n")
        (node_awaited version nodes (node + 1)) lines.new)
        (λ e. IsRead (Take version nodes node last) lines.old
        (model.take_line (model.told_of version last e))
        (Take version nodes node e.stamp) lines.new)) }
    ensures take { IfOk result (λ next. IfSome next (IsTakeBehind nodes last)) }
    ensures err { (node : ℕ) → IfErr result (IsFault (Take version nodes node last) lines.old) }
{
    let line = lines.next_line()?;
    if line.text == b"end\n".as_slice() {
        return Ok(None);
    }
    let Some(take) = take_of(line.text) else {
        return Err(RecordRule::Syntax.at(line.number));
    };
    let Some(stamp) = version.stamp_of(last, take) else {
        return Err(RecordRule::Stamps.at(line.number));
    };
    if take.from >= u64::from(nodes) {
        return Err(RecordRule::Node.at(line.number));
    }
    Ok(Some(Entry {
        stamp,
        from: take.from as u8,
        words: take.words,
    }))
}

/// Reads the takes of a node, and its end.
fn read_takes(
    alloc: Global,
    lines: &mut TextLines<'_>,
    version: Version,
    nodes: u8,
) -> Result<Vec<Entry>, RecordRefused>
    requires few { nodes ≤ 16 }
    ensures ok { (node : ℕ) → IfOk result (λ es. IsRead (Take version nodes node 0) lines.old
        (model.take_lines version 0 es.items ++ codes "end\n")
        (node_awaited version nodes (node + 1)) lines.new) }
    ensures takes { IfOk result (λ es. AreTakesBehind nodes 0 es.items) }
    ensures err { (node : ℕ) → IfErr result (IsFault (Take version nodes node 0) lines.old) }
{
    let mut takes = Vec::new(alloc);
    let mut last = 0;
    while let Some(entry) = read_take(lines, version, nodes, last)? {
        last = entry.stamp;
        takes.push(entry)?;
    }
    Ok(takes)
}

/// Reads the lines of each node.
fn read_journals(
    alloc: Global,
    lines: &mut TextLines<'_>,
    version: Version,
    nodes: u8,
) -> Result<Vec<Vec<Entry>>, RecordRefused>
    requires { IsNodeCount nodes }
    ensures ok { IfOk result (λ js. IsRead (Node version nodes 0) lines.old
        (model.journal_lines version 0 (items_of js.items)) Nothing lines.new) }
    ensures each { IfOk result (λ js. length (items_of js.items) ≡ nodes) }
    ensures takes { IfOk result (λ js. All (AreTakesBehind nodes 0) (items_of js.items)) }
    ensures err { IfErr result (IsFault (Node version nodes 0) lines.old) }
{
    let mut journals = Vec::new(alloc);
    for node in 0..nodes {
        read_node(lines, node)?;
        journals.push(read_takes(alloc, lines, version, nodes)?)?;
    }
    Ok(journals)
}

/// Reads the record of a text.
fn record_of(alloc: Global, text: &[u8]) -> Result<Record, RecordRefused>
    ensures text { IfOk result (λ r. text.now ≡ model.record_text r) }
    ensures record { IfOk result IsRecord }
    ensures words { IfOk result IsOfWords }
    ensures err { IfErr result (IsFault awaits.Version (record { bytes = text.now; number = 1 })) }
{
    let mut lines = TextLines::of(text);
    let version = read_version(&mut lines)?;
    let nodes = read_nodes(&mut lines)?;
    let budget = read_budget(&mut lines)?;
    let batch = read_batch(&mut lines)?;
    let code = read_code(&mut lines, version)?;
    let ranges = read_ranges(alloc, &mut lines)?;
    let journals = read_journals(alloc, &mut lines, version, nodes)?;
    lines.end()?;
    Ok(Record {
        nodes,
        budget,
        batch,
        code,
        blocks: Blocks::of(ranges),
        journals: Journals::of(journals),
    })
}

/// Reads the record of a text, which is the text that `write_record` would write of it.
///
/// Each line ends with a line feed, and has fields with one space between them. Numbers are decimal
/// without leading zeros, and below 2^63. The lines are `shasta-record 1`; `nodes` and 1 to 16;
/// `budget` and 1 to 4294967296; `batch 0` or `batch 1`; for each range of the layout `block`, its
/// start and its length, each `0x` and eight hexadecimal digits in lower case, the bytes of a
/// block, up to 99999, and the home, up to 99, or `*`; and for each node `node` and its number, a
/// line `take` for each of its takes, with the stamp, the sender and the words executed since the
/// take before, and `end`. Nothing follows.
///
/// A text that begins with `shasta-record 2` has after its batching a line `code` with the number
/// of rewritten words, 1 to 4194303. In place of its stamp a take has the number by which this is
/// above the least that it may be: the stamp of the take before, and the words executed since then,
/// and 1.
///
/// Fails with the first line that breaks a rule, and the first rule that it breaks. A line that is
/// lacking has the number after the last line's.
pub fn read_record(alloc: Global, text: &[u8]) -> Result<Record, RecordRefused>
    ensures ok { IfOk result (λ r. (text.now ≡ model.record_text r) × IsRecord r) }
    ensures words { IfOk result IsOfWords }
    ensures refused { (rule : Rules) (line : ℕ) → IsErrOf result (RecordRefused.Broken rule line)
        → IsFirstFault text.now rule line }
    ensures complete { (r : Records) → IsRecord r → IsOfWords r → text.now ≡ model.record_text r
        → MatchResult result (λ s. s ≡ r) (λ e. e ≡ OutOfMemory) }
{
    record_of(alloc, text)
}
