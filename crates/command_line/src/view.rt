//! The words of the viewer's command line, and what they ask for.

ghost use Rattle.std.specs.Prelude.{◌≡◌, ℕ, codes, IfOk, IfSome, MatchOption, Option};
ghost use Rattle.command_line.specs.Costs.{IsCost};
ghost use Rattle.command_line.specs.Reading.{AreOfCode, AreOfTime, given_by, IsViewGiven, SaysAt};
ghost use Rattle.command_line.specs.Reading.{SaysMaybe, SaysMost, SaysNumber};
ghost use Rattle.command_line.specs.Table.{kind_of, view_text};
ghost use Rattle.command_line.specs.Views.{CodeArguments as AskedCode, TimeArguments as AskedTime};
ghost use Rattle.command_line.specs.Views.{View as Asked, AsksView};
ghost use Rattle.command_line.specs.Views.{code_of, meaning_of_view, time_of as asked_time};

use crate::number::address_of;
use crate::parsing::{Given, arguments_in, given_for, three_operands_in};
use crate::table::{Kind, Role, Setting, ViewWord};
use crate::{
    budget_in, file_in, flag_in, is_alone, maybe_number_in, name_in, nodes_in, number_in,
    one_or_two_operands_in, two_operands_in,
};
use clap::ArgMatches;
use dsm_io::Text;
use run_limits::{Budget, NodeCount, Ranged};
use std::alloc::{AllocError, Global};

/// What a message costs, in the time of one word.
pub type Cost = Ranged<0, 1_000_000>;

/// How much room checkpoints may take, in megabytes.
pub type Megabytes = Ranged<0, 1_000_000>;

/// What the viewer is to do.
#[derive(Clone, Copy, PartialEq, Eq)]
pub enum View<'a> {
    /// Tell how the viewer is called.
    Help,
    /// Show rewritten code.
    Code(CodeArguments<'a>),
    /// Show what each event of a recorded run did, a line an event. Where they are given, only
    /// events with stamps that are at least `from` and at most `to`, those that are about the
    /// block in which the address `block` lies, and those of the node `node`.
    Trace {
        run: RecordedFiles<'a>,
        from: Option<u64>,
        to: Option<u64>,
        block: Option<u32>,
        node: Option<u8>,
    },
    /// Show what each block cost in a recorded run.
    Blocks {
        run: RecordedFiles<'a>,
    },
    /// Write a page that draws a recorded run into the file `output`: where they are given, of
    /// events with stamps that are at least `from` and at most `to`.
    Page {
        run: RecordedFiles<'a>,
        output: &'a str,
        from: Option<u64>,
        to: Option<u64>,
    },
    /// Run nodes by a clock, and show what they spend their time on.
    Time(TimeArguments<'a>),
    /// Show what checks cost in rewritten code; or, where the file of a record is named, in its
    /// run.
    Cost {
        arguments: CodeArguments<'a>,
        record_file: Option<&'a str>,
    },
    /// Run 1 node by a clock, 2, 4 and so on to the most, and write a page of their speed-up into
    /// the file `output`.
    Speedup {
        arguments: TimeArguments<'a>,
        output: &'a str,
    },
    /// Show a recorded run to GDB, on one memory. Checkpoints of it take at most `memory`.
    Gdb {
        run: RecordedFiles<'a>,
        memory: Megabytes,
    },
}

/// What `code` and `cost` are given.
#[derive(Clone, Copy, PartialEq, Eq)]
pub struct CodeArguments<'a> {
    /// The file of the executable.
    pub file: &'a str,
    /// The file of a verified executable that has the code, where one is named.
    pub verified: Option<&'a str>,
    /// Whether no run of accesses shares a check.
    pub no_batch: bool,
}

/// The files of a recorded run.
#[derive(Clone, Copy, PartialEq, Eq)]
pub struct RecordedFiles<'a> {
    /// The file of the executable.
    pub file: &'a str,
    /// The file of the record.
    pub record_file: &'a str,
    /// The file of a verified executable that has the code, where one is named.
    pub verified: Option<&'a str>,
}

/// What `time` is given, and `speedup`, whose runs are of 1 node up to that number.
#[derive(Clone, Copy, PartialEq, Eq)]
pub struct TimeArguments<'a> {
    /// The file of the executable, whose rewritten code the nodes run.
    pub file: &'a str,
    pub nodes: NodeCount,
    /// How many words of each processor are run at most.
    pub budget: Budget,
    /// The file of a verified executable that has the code, where one is named.
    pub verified: Option<&'a str>,
    /// The file of the layout of the blocks, where one is named.
    pub layout: Option<&'a str>,
    /// Whether no run of accesses shares a check.
    pub no_batch: bool,
    /// How long a message to another node is on its way.
    pub latency: Cost,
    /// How much longer for each line of bytes that it carries.
    pub line: Cost,
    /// What taking a message costs the node that takes it.
    pub handling: Cost,
}

/// The view `--help`.
fn help_of<'a>(matches: &ArgMatches<'a>) -> Option<View<'a>>
    ensures { MatchOption result
        ((v : Asked) → IsViewGiven (codes "--help") (given_by matches.now) v → ⊥)
        (λ v. IsViewGiven (codes "--help") (given_by matches.now) (meaning_of_view v)) }
{
    match given_for(matches, Role::Operand) {
        Given::Nothing => Some(View::Help),
        Given::One(_) => None,
        Given::Two(_, _) => None,
        Given::More => None,
    }
}

/// What `code` and `cost` are given beside this file.
fn code_arguments_in<'a>(matches: &ArgMatches<'a>, file: &'a str) -> Option<CodeArguments<'a>>
    ensures given { MatchOption result
        ((a : AskedCode) → AreOfCode (given_by matches.now) a → ⊥)
        (λ a. AreOfCode (given_by matches.now) (code_of a)) }
    ensures file { IfSome result (λ a. a.file.now ≡ file.now) }
{
    let verified = name_in(matches, Setting::Verify)?;
    let no_batch = flag_in(matches, Setting::NoBatch)?;
    if !is_alone(verified, None, no_batch) {
        return None;
    }
    Some(CodeArguments {
        file,
        verified,
        no_batch,
    })
}

/// The view `code`.
fn code_of<'a>(matches: &ArgMatches<'a>) -> Option<View<'a>>
    ensures { MatchOption result
        ((v : Asked) → IsViewGiven (codes "code") (given_by matches.now) v → ⊥)
        (λ v. IsViewGiven (codes "code") (given_by matches.now) (meaning_of_view v)) }
{
    let file = file_in(matches)?;
    match code_arguments_in(matches, file) {
        Some(arguments) => Some(View::Code(arguments)),
        None => None,
    }
}

/// The view `cost`.
fn cost_of<'a>(matches: &ArgMatches<'a>) -> Option<View<'a>>
    ensures { MatchOption result
        ((v : Asked) → IsViewGiven (codes "cost") (given_by matches.now) v → ⊥)
        (λ v. IsViewGiven (codes "cost") (given_by matches.now) (meaning_of_view v)) }
{
    let (file, record_file) = one_or_two_operands_in(matches)?;
    match code_arguments_in(matches, file) {
        Some(arguments) => {
            if record_file.is_some() && arguments.no_batch {
                return None;
            }
            Some(View::Cost {
                arguments,
                record_file,
            })
        }
        None => None,
    }
}

/// The address that an option has. None in it where the option is not there.
fn address_in(matches: &ArgMatches<'_>) -> Option<Option<u32>>
    ensures { MatchOption result
        ((a : Option ℕ) → SaysAt (given_by matches.now) Setting.Block a → ⊥)
        (λ a. SaysAt (given_by matches.now) Setting.Block a) }
{
    match given_for(matches, Role::Option(Setting::Block)) {
        Given::Nothing => Some(None),
        Given::One(word) => {
            let address = address_of(word)?;
            Some(Some(address))
        }
        Given::Two(_, _) => None,
        Given::More => None,
    }
}

/// The number of a node. None in it where the option is not there.
fn node_in(matches: &ArgMatches<'_>) -> Option<Option<u8>>
    ensures { MatchOption result
        ((n : Option ℕ) → SaysMaybe (given_by matches.now) Setting.Node n → ⊥)
        (λ n. SaysMaybe (given_by matches.now) Setting.Node n) }
{
    match maybe_number_in(matches, Setting::Node)? {
        None => Some(None),
        Some(number) => match u8::try_from(number) {
            Ok(node) => Some(Some(node)),
            Err(_) => None,
        },
    }
}

/// The view `trace`.
fn trace_of<'a>(matches: &ArgMatches<'a>) -> Option<View<'a>>
    ensures { MatchOption result
        ((v : Asked) → IsViewGiven (codes "trace") (given_by matches.now) v → ⊥)
        (λ v. IsViewGiven (codes "trace") (given_by matches.now) (meaning_of_view v)) }
{
    let (file, record_file) = two_operands_in(matches)?;
    let verified = name_in(matches, Setting::Verify)?;
    let from = maybe_number_in(matches, Setting::From)?;
    let to = maybe_number_in(matches, Setting::To)?;
    let block = address_in(matches)?;
    let node = node_in(matches)?;
    let run = RecordedFiles {
        file,
        record_file,
        verified,
    };
    Some(View::Trace {
        run,
        from,
        to,
        block,
        node,
    })
}

/// The view `blocks`.
fn blocks_of<'a>(matches: &ArgMatches<'a>) -> Option<View<'a>>
    ensures { MatchOption result
        ((v : Asked) → IsViewGiven (codes "blocks") (given_by matches.now) v → ⊥)
        (λ v. IsViewGiven (codes "blocks") (given_by matches.now) (meaning_of_view v)) }
{
    let (file, record_file) = two_operands_in(matches)?;
    let verified = name_in(matches, Setting::Verify)?;
    let run = RecordedFiles {
        file,
        record_file,
        verified,
    };
    Some(View::Blocks { run })
}

/// The view `page`.
fn page_of<'a>(matches: &ArgMatches<'a>) -> Option<View<'a>>
    ensures { MatchOption result
        ((v : Asked) → IsViewGiven (codes "page") (given_by matches.now) v → ⊥)
        (λ v. IsViewGiven (codes "page") (given_by matches.now) (meaning_of_view v)) }
{
    let (file, record_file, output) = three_operands_in(matches)?;
    let verified = name_in(matches, Setting::Verify)?;
    let from = maybe_number_in(matches, Setting::From)?;
    let to = maybe_number_in(matches, Setting::To)?;
    let run = RecordedFiles {
        file,
        record_file,
        verified,
    };
    Some(View::Page {
        run,
        output,
        from,
        to,
    })
}

/// The cost that an option has.
fn cost_in(matches: &ArgMatches<'_>, setting: Setting) -> Option<Cost>
    requires kind { (default : ℕ) × IsCost default
        × (kind_of setting ≡ Kind.Number 0 1000000 default) }
    ensures { MatchOption result
        ((n : ℕ) → SaysNumber (given_by matches.now) setting n → ⊥)
        (λ c. SaysNumber (given_by matches.now) setting c) }
{
    let number = number_in(matches, setting)?;
    let cost = Cost::of(number)?;
    Some(cost)
}

/// What `time` and `speedup` are given beside this file and this count of nodes.
fn time_arguments_in<'a>(
    matches: &ArgMatches<'a>,
    file: &'a str,
    nodes: NodeCount,
) -> Option<TimeArguments<'a>>
    ensures given { MatchOption result
        ((a : AskedTime) → AreOfTime (given_by matches.now) a → ⊥)
        (λ a. AreOfTime (given_by matches.now) (asked_time a)) }
    ensures file { IfSome result (λ a. a.file.now ≡ file.now) }
    ensures nodes { IfSome result (λ a. a.nodes ≡ nodes) }
{
    let budget = budget_in(matches)?;
    let verified = name_in(matches, Setting::Verify)?;
    let layout = name_in(matches, Setting::Layout)?;
    let no_batch = flag_in(matches, Setting::NoBatch)?;
    let latency = cost_in(matches, Setting::Latency)?;
    let line = cost_in(matches, Setting::Line)?;
    let handling = cost_in(matches, Setting::Handling)?;
    if !is_alone(verified, None, no_batch) {
        return None;
    }
    Some(TimeArguments {
        file,
        nodes,
        budget,
        verified,
        layout,
        no_batch,
        latency,
        line,
        handling,
    })
}

/// The view `time`.
fn time_of<'a>(matches: &ArgMatches<'a>) -> Option<View<'a>>
    ensures { MatchOption result
        ((v : Asked) → IsViewGiven (codes "time") (given_by matches.now) v → ⊥)
        (λ v. IsViewGiven (codes "time") (given_by matches.now) (meaning_of_view v)) }
{
    let file = file_in(matches)?;
    let nodes = nodes_in(matches)?;
    match time_arguments_in(matches, file, nodes) {
        Some(arguments) => Some(View::Time(arguments)),
        None => None,
    }
}

/// The most nodes of `speedup`, which are 16 where the option is not there.
fn most_nodes_in(matches: &ArgMatches<'_>) -> Option<NodeCount>
    ensures { MatchOption result ((n : ℕ) → SaysMost (given_by matches.now) n → ⊥)
        (λ c. SaysMost (given_by matches.now) c) }
{
    match given_for(matches, Role::Option(Setting::Nodes)) {
        Given::Nothing => NodeCount::of(16),
        Given::One(_) => nodes_in(matches),
        Given::Two(_, _) => None,
        Given::More => None,
    }
}

/// The view `speedup`.
fn speedup_of<'a>(matches: &ArgMatches<'a>) -> Option<View<'a>>
    ensures { MatchOption result
        ((v : Asked) → IsViewGiven (codes "speedup") (given_by matches.now) v → ⊥)
        (λ v. IsViewGiven (codes "speedup") (given_by matches.now) (meaning_of_view v)) }
{
    let (file, output) = two_operands_in(matches)?;
    let nodes = most_nodes_in(matches)?;
    match time_arguments_in(matches, file, nodes) {
        Some(arguments) => Some(View::Speedup { arguments, output }),
        None => None,
    }
}

/// How much room the checkpoints of a run may take.
fn memory_in(matches: &ArgMatches<'_>) -> Option<Megabytes>
    ensures { MatchOption result
        ((n : ℕ) → SaysNumber (given_by matches.now) Setting.Memory n → ⊥)
        (λ m. SaysNumber (given_by matches.now) Setting.Memory m) }
{
    let number = number_in(matches, Setting::Memory)?;
    let memory = Megabytes::of(number)?;
    Some(memory)
}

/// The view `gdb`.
fn gdb_of<'a>(matches: &ArgMatches<'a>) -> Option<View<'a>>
    ensures { MatchOption result
        ((v : Asked) → IsViewGiven (codes "gdb") (given_by matches.now) v → ⊥)
        (λ v. IsViewGiven (codes "gdb") (given_by matches.now) (meaning_of_view v)) }
{
    let (file, record_file) = two_operands_in(matches)?;
    let verified = name_in(matches, Setting::Verify)?;
    let memory = memory_in(matches)?;
    let run = RecordedFiles {
        file,
        record_file,
        verified,
    };
    Some(View::Gdb { run, memory })
}

/// The view of a word that is a view's, with these arguments.
fn view_in<'a>(word: ViewWord, matches: &ArgMatches<'a>) -> Option<View<'a>>
    ensures { MatchOption result
        ((v : Asked) → IsViewGiven (view_text word) (given_by matches.now) v → ⊥)
        (λ v. IsViewGiven (view_text word) (given_by matches.now) (meaning_of_view v)) }
{
    match word {
        ViewWord::Help => help_of(matches),
        ViewWord::Code => code_of(matches),
        ViewWord::Trace => trace_of(matches),
        ViewWord::Blocks => blocks_of(matches),
        ViewWord::Page => page_of(matches),
        ViewWord::Time => time_of(matches),
        ViewWord::Cost => cost_of(matches),
        ViewWord::Speedup => speedup_of(matches),
        ViewWord::Gdb => gdb_of(matches),
    }
}

/// Reads the words after the viewer's name. None exactly where they ask for no view.
pub fn view_of(alloc: Global, words: &[Text]) -> Result<Option<View<'_>>, AllocError>
    ensures asks { IfOk result (λ r. MatchOption r ((v : Asked) → AsksView words.now v → ⊥)
        (λ v. AsksView words.now (meaning_of_view v))) }
    ensures only { (v w : Asked) → AsksView words.now v → AsksView words.now w → v ≡ w }
{
    let Some((word, arguments)) = words.split_first() else {
        return Ok(None);
    };
    let Some(word) = ViewWord::of(word.as_str()) else {
        return Ok(None);
    };
    match arguments_in(alloc, word.settings(), arguments)? {
        Some(matches) => Ok(view_in(word, &matches)),
        None => Ok(None),
    }
}
