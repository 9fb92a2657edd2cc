//! The executable of a text.

ghost use Rattle.std.specs.Prelude.{◌≡◌, ℕ, ◌^◌, ◌<◌, ◌++◌, List, [], replicate, IfOk, IfSome};
ghost use Rattle.std.specs.Prelude.{OnOk, IsErrOf};
ghost use Rattle.std.specs.Int.{bytes_low_first};
ghost use Rattle.std.specs.List.{concat};
ghost use Rattle.rv32_lines.specs.Reading.{AreReadStatements};
ghost use Rattle.rv32_lines.specs.Statements.{Statement as Statements};
ghost use Rattle.rv32_asm.specs.Assembling.{IsAssembled, AreBytesOf, AreBytesBehind, entry_name};
ghost use Rattle.rv32_asm.specs.Places.{IsNamed};
ghost use Rattle.rv32_asm.specs.Rules.{AreSound, IsFirstFault};
ghost use Rattle.rv32_asm.specs.Standing.{AreLabels, HasRoom, IsSoundLine, IsSoundReading};
ghost use Rattle.rv32_asm.specs.Standing.{IsFoundEntry, AreFitting, ArePieces, IsClosable, closed};
ghost use Rattle.rv32_asm.specs.Standing.{found, place_of};
ghost use Rattle.rv32_asm.specs.declared.refused.AsmRule.{AsmRule as Rules};
ghost use Rattle.rv32_asm.specs.declared.refused.AsmRefused.TheVariants as refused;

use crate::labels::Labels;
use crate::places::SegmentsSoFar;
use crate::refused::AsmRefused;
use crate::rules::first_fault;
use crate::words::word_at;
use elf32_read::{Elf, Segment};
use rv32_lines::{Statement, append_bytes, statements_of};
use std::alloc::{AllocError, Global};
use std::marker::Model;

/// A segment, and where its bytes stand among those that the lines append.
#[derive(Clone, Copy)]
struct AssembledSegment {
    flags: u32,
    start: u32,
    size: u32,
    first: usize,
    end: usize,
}

/// The executable of a text. Contracts see its fields, as those of a file.
#[derive(Drop)]
pub struct Assembled {
    entry: u32,
    /// The bytes that the lines append.
    bytes: Vec<u8>,
    pieces: Vec<AssembledSegment>,
}

impl Model for Assembled {
    ghost use Rattle.std.specs.Prelude.{◌≡◌, All, true};
    ghost use Rattle.elf32_read.specs.Elf.{Elf as Fields, is_in_limits};
    ghost use Rattle.rv32_asm.specs.Pieces.{elf_of, IsWithin};

    ghost Value = { Fields };

    ghost view = { λ a. elf_of a.entry a.bytes.items a.pieces.items };

    ghost invariant = { λ a. (is_in_limits (elf_of a.entry a.bytes.items a.pieces.items) ≡ true)
        × All (IsWithin a.bytes.items) a.pieces.items };
}

impl Assembled {
    ghost use Rattle.std.specs.Prelude.{◌≡◌, true, IfOk};
    ghost use Rattle.elf32_read.specs.Elf.{is_in_limits};

    /// The executable: flags 0, no sections, the segments in the order of the text.
    pub fn elf(&self, alloc: Global) -> Result<Elf<'_>, AllocError>
        ensures value { IfOk result (λ e. e ≡ self.now) }
        ensures limits { IfOk result (λ e. is_in_limits e ≡ true) }
    {
        let mut segments = Vec::new(alloc);
        for piece in &self.pieces {
            segments.push(Segment {
                flags: piece.flags,
                vaddr: piece.start,
                memsz: piece.size,
                bytes: &self.bytes[piece.first..piece.end],
            })?;
        }
        match Elf::make(self.entry, 0, segments, Vec::new(alloc)) {
            Some(elf) => Ok(elf),
            None => unreachable!(),
        }
    }
}

/// The executable of a text.
///
/// Lines end with a line feed; the last may lack it. Spaces at both ends of a line count for
/// nothing. An empty line and a line that begins with `#` say nothing. The others are `.segment`
/// with `r`, `rx` or `rw` and an address; `NAME:`; `.bytes`, `.word`, `.space` and `.zero`;
/// `.entry NAME`; and instructions, in the text of a listing, where a target may be a name.
///
/// Fails with the first line that breaks a rule, and the first rule that it breaks.
pub fn assemble(alloc: Global, text: &[u8]) -> Result<Assembled, AsmRefused>
    ensures ok { IfOk result (IsAssembled text.now) }
    ensures refused { (rule : Rules) (line : ℕ)
        → IsErrOf result (refused.Broken rule line) → IsFirstFault text.now rule line }
{
    let statements = statements_of(alloc, text)?;
    let labels = Labels::of(alloc, &statements)?;
    if let Some((rule, line)) = first_fault(&labels, &statements) {
        return Err(AsmRefused::Broken { rule, line });
    }
    let mut bytes = Vec::new(alloc);
    append_lines(&mut bytes, &labels, &statements)?;
    let pieces = pieces_of(alloc, &statements)?;
    let entry = entry_of(&labels, &statements);
    Ok(Assembled {
        entry,
        bytes,
        pieces,
    })
}

/// The entry: the address of the name of the entry line, or that of the first segment.
fn entry_of<'a>(labels: &Labels<'a>, statements: &[Statement<'a>]) -> u32
    requires { (all : List Statements) × IsSoundReading statements.now labels.now all }
    ensures { (all : List Statements) → IsSoundReading statements.now labels.now all
        → IsFoundEntry all (entry_name all) result }
{
    let mut first = None;
    for statement in statements {
        match statement {
            Statement::Entry { name } => return address_of(labels, *name),
            Statement::Segment { start, .. } => first = first.or(Some(*start)),
            _ => {}
        }
    }
    first.unwrap_or(0)
}

/// The address of a name; 0 where it has none.
fn address_of<'a>(labels: &Labels<'a>, name: &'a [u8]) -> u32
    requires { IfSome (found labels.now name.now)
        (λ label. IfSome label.address (λ a. a < 2 ^ 32)) }
    ensures { (all : List Statements) → AreLabels all labels.now
        → (address : ℕ) → IsNamed all name.now address → result ≡ address }
{
    match labels.find(name) {
        Some(label) => match label.address {
            Some(address) => address as u32,
            None => 0,
        },
        None => 0,
    }
}

/// The segments of statements.
fn pieces_of(
    alloc: Global,
    statements: &[Statement<'_>],
) -> Result<Vec<AssembledSegment>, AllocError>
    requires { (all : List Statements) × AreReadStatements statements.now all × AreSound all }
    ensures { IfOk result (λ pieces. (all : List Statements) (appended : List (List ℕ))
        → AreReadStatements statements.now all → AreSound all → AreFitting all appended
        → ArePieces all appended pieces.items) }
{
    let mut pieces = Vec::new(alloc);
    let mut place = SegmentsSoFar::first();
    for statement in statements {
        if let Statement::Segment { .. } = statement {
            close(&mut pieces, place)?;
        }
        place = place.behind(statement);
    }
    close(&mut pieces, place)?;
    Ok(pieces)
}

/// Adds the segment that ends at a place, if there is one.
fn close(pieces: &mut Vec<AssembledSegment>, place: SegmentsSoFar) -> Result<(), AllocError>
    requires { IsClosable (place_of place) }
    ensures { OnOk result (pieces.new.items ≡ pieces.old.items ++ closed (place_of place)) }
{
    if let Some(open) = place.last {
        pieces.push(AssembledSegment {
            flags: open.flags,
            start: open.start,
            size: (open.bytes + open.zeros) as u32,
            first: (place.appended - open.bytes) as usize,
            end: place.appended as usize,
        })?;
    }
    Ok(())
}

/// Appends the bytes of statements.
fn append_lines<'a>(
    bytes: &mut Vec<u8>,
    labels: &Labels<'a>,
    statements: &[Statement<'a>],
) -> Result<(), AllocError>
    requires { (all : List Statements) × IsSoundReading statements.now labels.now all }
    ensures { (all : List Statements) → IsSoundReading statements.now labels.now all
        → OnOk result ((appended : List (List ℕ)) × AreBytesBehind all [] all appended
        × (bytes.new.items ≡ bytes.old.items ++ concat appended)) }
{
    let mut place = SegmentsSoFar::first();
    for statement in statements {
        append_line(bytes, labels, place.here(), statement)?;
        place = place.behind(statement);
    }
    Ok(())
}

/// Appends the bytes of a statement at an address.
fn append_line<'a>(
    bytes: &mut Vec<u8>,
    labels: &Labels<'a>,
    at: Option<u128>,
    statement: &Statement<'a>,
) -> Result<(), AllocError>
    requires room { HasRoom at }
    requires sound { (all before : List Statements) × (s : Statements)
        × IsSoundLine labels.now statement.now at all before s }
    ensures { (all before : List Statements) (s : Statements)
        → IsSoundLine labels.now statement.now at all before s
        → OnOk result ((added : List ℕ) × (bytes.new.items ≡ bytes.old.items ++ added)
        × AreBytesOf all before s added) }
{
    match statement {
        Statement::Bytes { digits } => append_bytes(bytes, *digits),
        Statement::Word { word } => append_word(bytes, *word),
        Statement::Space { count } => append_zeros(bytes, *count),
        Statement::Instruction { command } => match word_at(labels, at, command) {
            Ok(Some(word)) => append_word(bytes, word),
            Ok(None) => Ok(()),
            Err(_) => Ok(()),
        },
        _ => Ok(()),
    }
}

/// Appends the bytes of a word, the lowest first.
fn append_word(bytes: &mut Vec<u8>, word: u32) -> Result<(), AllocError>
    ensures value { OnOk result (bytes.new.items
        ≡ bytes.old.items ++ bytes_low_first 0 4 word) }
    ensures low { word < 2 ^ 32 }
{
    bytes.extend_from_slice(&word.to_le_bytes())?;
    Ok(())
}

/// Appends bytes that are zero.
#[tactic(auto, using(crate::proofs::Appending::zero_more))]
fn append_zeros(bytes: &mut Vec<u8>, count: u32) -> Result<(), AllocError>
    ensures { OnOk result (bytes.new.items ≡ bytes.old.items ++ replicate count 0) }
{
    for _ in 0..count {
        bytes.push(0)?;
    }
    Ok(())
}
