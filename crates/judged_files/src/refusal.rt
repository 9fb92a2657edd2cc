//! The lines that say why an executable, a file of code, a verified one, a layout, a record or an
//! assembly text is refused.

ghost use Rattle.std.specs.Prelude.{◌≡◌, ◌++◌, IfOk, OnOk};
ghost use Rattle.std.specs.Fmt.{decimal};
ghost use Rattle.text_output.specs.Text.{hex8};
ghost use Rattle.judged_files.specs.Text as model;

use block_layout::LayoutRule;
use elf32_read::FileRule;
use exec_map::{Class, ProgramRule};
use rewrite_verify::VerifyRefused;
use rewrite_verify::rewriter::FilePart;
use run_record::RecordRule;
use rv32_asm::AsmRule;
use std::alloc::{AllocError, Global};
use text_output::{push_address, push_count, push_number};

/// What a file is read for.
#[derive(Clone, Copy)]
pub enum Subject {
    /// As the executable.
    Executable,
    /// As the file of its rewritten code, or as a verified one.
    Code,
}

impl Subject {
    /// The word for it.
    fn text(self) -> &'static [u8]
        ensures { result.now ≡ model.subject_text self }
    {
        match self {
            Subject::Executable => b"executable",
            Subject::Code => b"code",
        }
    }
}

/// The line of a rule that refuses a file, which was read for this.
pub fn file_line(alloc: Global, subject: Subject, rule: FileRule) -> Result<Vec<u8>, AllocError>
    ensures { IfOk result (λ line. line.items ≡ model.file_line subject rule) }
{
    let mut line = begin(alloc, subject, rule.number())?;
    push_file_rule(&mut line, rule)?;
    line.extend_from_slice(b"\n")?;
    Ok(line)
}

/// The line of a rule that refuses a program.
pub fn program_line(alloc: Global, rule: ProgramRule) -> Result<Vec<u8>, AllocError>
    ensures { IfOk result (λ line. line.items ≡ model.program_line rule) }
{
    let mut line = begin(alloc, Subject::Executable, rule.number())?;
    push_rule(&mut line, rule)?;
    line.extend_from_slice(b"\n")?;
    Ok(line)
}

/// The line that says how many words rewritten code would have.
pub fn too_many_words(alloc: Global, words: u64) -> Result<Vec<u8>, AllocError>
    ensures { IfOk result (λ line. line.items ≡ model.too_many_words words) }
{
    let mut line = begin(alloc, Subject::Executable, 20)?;
    line.extend_from_slice(b"CodeTooLarge ")?;
    push_number(&mut line, words)?;
    line.extend_from_slice(b" words\n")?;
    Ok(line)
}

/// The line that says in which part a file of code differs first from that of the rewriting.
pub fn code_line(alloc: Global, part: FilePart) -> Result<Vec<u8>, AllocError>
    ensures { IfOk result (λ line. line.items ≡ model.code_line part) }
{
    let mut line = begin(alloc, Subject::Code, 21)?;
    line.extend_from_slice(b"PlanRefused ")?;
    line.extend_from_slice(part_name(part))?;
    line.extend_from_slice(b"\n")?;
    Ok(line)
}

/// The line that says why a verified file is that of no rewriting.
pub fn verify_line(alloc: Global, refused: &VerifyRefused) -> Result<Vec<u8>, AllocError>
    ensures { IfOk result (λ line. line.items ≡ model.verify_line refused.now) }
{
    let mut line = begin(alloc, Subject::Code, verify_number(refused))?;
    push_verify_refused(&mut line, refused)?;
    line.extend_from_slice(b"\n")?;
    Ok(line)
}

/// The number of the reason. Want of memory has none, for which 0 stands.
fn verify_number(refused: &VerifyRefused) -> u8
    ensures { result ≡ model.verify_number refused.now }
{
    match refused {
        VerifyRefused::NoPlan => 50,
        VerifyRefused::BadPlan(_) => 51,
        VerifyRefused::CodeTooLarge(_) => 20,
        VerifyRefused::BadMap => 52,
        VerifyRefused::BadCode(_) => 53,
        VerifyRefused::BadFile => 54,
        VerifyRefused::OutOfMemory => 0,
    }
}

/// The name of a part.
fn part_name(part: FilePart) -> &'static [u8]
    ensures { result.now ≡ model.part_name part }
{
    match part {
        FilePart::Plan => b"Plan",
        FilePart::Map => b"Map",
        FilePart::Code => b"Code",
    }
}

/// The line of a rule that refuses a layout, and of the line that breaks it.
pub fn layout_line(alloc: Global, rule: LayoutRule, number: usize) -> Result<Vec<u8>, AllocError>
    ensures { IfOk result (λ line. line.items ≡ model.layout_line rule number) }
{
    let mut line = Vec::new(alloc);
    line.extend_from_slice(b"shasta: layout refused ")?;
    push_number(&mut line, u64::from(rule.number()))?;
    line.extend_from_slice(b" at line ")?;
    push_number(&mut line, number as u64)?;
    line.extend_from_slice(b"\n")?;
    Ok(line)
}

/// The line of a rule that refuses the text of a record, and of the line that breaks it.
pub fn record_line(alloc: Global, rule: RecordRule, number: usize) -> Result<Vec<u8>, AllocError>
    ensures { IfOk result (λ line. line.items ≡ model.record_line rule number) }
{
    let mut line = Vec::new(alloc);
    line.extend_from_slice(b"shasta: record refused ")?;
    push_number(&mut line, u64::from(rule.number()))?;
    line.extend_from_slice(b" at line ")?;
    push_number(&mut line, number as u64)?;
    line.extend_from_slice(b"\n")?;
    Ok(line)
}

/// The line of a rule that refuses an assembly text, and of the line that breaks it.
pub fn assembly_line(alloc: Global, rule: AsmRule, number: usize) -> Result<Vec<u8>, AllocError>
    ensures { IfOk result (λ line. line.items ≡ model.assembly_line rule number) }
{
    let mut line = Vec::new(alloc);
    line.extend_from_slice(b"shasta: text refused ")?;
    push_number(&mut line, u64::from(rule.number()))?;
    line.extend_from_slice(b" at line ")?;
    push_number(&mut line, number as u64)?;
    line.extend_from_slice(b"\n")?;
    Ok(line)
}

/// What each line begins with: what is refused, and the number.
fn begin(alloc: Global, subject: Subject, number: u8) -> Result<Vec<u8>, AllocError>
    ensures { IfOk result (λ line. line.items ≡ model.refusal_head subject number) }
{
    let mut line = Vec::new(alloc);
    line.extend_from_slice(b"shasta: ")?;
    line.extend_from_slice(subject.text())?;
    line.extend_from_slice(b" refused ")?;
    push_number(&mut line, u64::from(number))?;
    line.extend_from_slice(b" ")?;
    Ok(line)
}

/// Appends the name of a rule that refuses a file, and what it names.
fn push_file_rule(line: &mut Vec<u8>, rule: FileRule) -> Result<(), AllocError>
    ensures { OnOk result (line.new.items ≡ line.old.items ++ model.file_rule_text rule) }
{
    match rule {
        FileRule::Short => push_name(line, b"Short"),
        FileRule::NotElf => push_name(line, b"NotElf"),
        FileRule::NotElf32 => push_name(line, b"NotElf32"),
        FileRule::NotExec { kind } => push_index(line, b"NotExec type ", usize::from(kind)),
        FileRule::NotRiscv { machine } => {
            push_index(line, b"NotRiscv machine ", usize::from(machine))
        }
        FileRule::Flags { value } => push_place(line, b"Flags ", value),
        FileRule::ProgramTable => push_name(line, b"ProgramTable"),
        FileRule::SectionTable => push_name(line, b"SectionTable"),
        FileRule::Dynamic { header } => push_index(line, b"Dynamic header ", usize::from(header)),
        FileRule::SegmentOutside { header } => {
            push_index(line, b"SegmentOutside header ", usize::from(header))
        }
        FileRule::SegmentSizes { header } => {
            push_index(line, b"SegmentSizes header ", usize::from(header))
        }
    }
}

/// Appends the name of the reason why a verified file is that of no rewriting, and what it names.
fn push_verify_refused(line: &mut Vec<u8>, refused: &VerifyRefused) -> Result<(), AllocError>
    ensures { OnOk result (line.new.items ≡ line.old.items ++ model.verify_text refused.now) }
{
    match refused {
        VerifyRefused::NoPlan => push_name(line, b"NoPlan"),
        VerifyRefused::BadPlan(address) => push_place(line, b"BadPlan ", *address),
        VerifyRefused::CodeTooLarge(words) => {
            push_count(line, b"CodeTooLarge ", *words)?;
            line.extend_from_slice(b" words")?;
            Ok(())
        }
        VerifyRefused::BadMap => push_name(line, b"BadMap"),
        VerifyRefused::BadCode(address) => push_place(line, b"BadCode ", *address),
        VerifyRefused::BadFile => push_name(line, b"BadFile"),
        VerifyRefused::OutOfMemory => Ok(()),
    }
}

/// Appends the name of a rule that refuses a program, and what it names.
fn push_rule(line: &mut Vec<u8>, rule: ProgramRule) -> Result<(), AllocError>
    ensures { OnOk result (line.new.items ≡ line.old.items ++ model.rule_text rule) }
{
    match rule {
        ProgramRule::TooHigh { segment } => push_index(line, b"TooHigh segment ", segment),
        ProgramRule::Overlap { first, second } => {
            push_index(line, b"Overlap segments ", first)?;
            push_index(line, b" ", second)?;
            Ok(())
        }
        ProgramRule::WritableCode { segment } => {
            push_index(line, b"WritableCode segment ", segment)
        }
        ProgramRule::NoCode => push_name(line, b"NoCode"),
        ProgramRule::TooMuch { class } => {
            line.extend_from_slice(b"TooMuch ")?;
            line.extend_from_slice(class_name(class))?;
            Ok(())
        }
        ProgramRule::EntryNotCode { address } => push_place(line, b"EntryNotCode ", address),
        ProgramRule::Unsupported { address, word } => {
            push_place(line, b"Unsupported ", address)?;
            push_place(line, b" word ", word)?;
            Ok(())
        }
        ProgramRule::CodeAlign { section } => push_index(line, b"CodeAlign section ", section),
        ProgramRule::TooManySegments { count } => {
            push_index(line, b"TooManySegments ", count)?;
            line.extend_from_slice(b" segments")?;
            Ok(())
        }
    }
}

/// Appends a name.
fn push_name(line: &mut Vec<u8>, name: &[u8]) -> Result<(), AllocError>
    ensures { OnOk result (line.new.items ≡ line.old.items ++ name.now) }
{
    line.extend_from_slice(name)?;
    Ok(())
}

/// Appends a name and a number.
fn push_index(line: &mut Vec<u8>, name: &[u8], index: usize) -> Result<(), AllocError>
    ensures { OnOk result (line.new.items ≡ line.old.items ++ (name.now ++ decimal index)) }
{
    line.extend_from_slice(name)?;
    push_number(line, index as u64)?;
    Ok(())
}

/// Appends a name and a word in hexadecimal digits.
fn push_place(line: &mut Vec<u8>, name: &[u8], word: u32) -> Result<(), AllocError>
    ensures { OnOk result (line.new.items ≡ line.old.items ++ (name.now ++ hex8 word)) }
{
    line.extend_from_slice(name)?;
    push_address(line, word)?;
    Ok(())
}

/// The name of a class of which there is too much.
fn class_name(class: Class) -> &'static [u8]
    ensures { result.now ≡ model.class_name class }
{
    match class {
        Class::Shared => b"shared",
        Class::ReadOnly | Class::Private | Class::Unmapped => b"read-only",
    }
}
