#![tactic(auto)]
//! The words of the command lines, of the program's and of the viewer's, and what they ask for.

ghost use Rattle.std.specs.Prelude.{◌≡◌, ℕ, ◌-◌, ◌^◌, Bool, List, codes, Option};
ghost use Rattle.std.specs.Prelude.{option_map, IfOk, MatchOption};
ghost use Rattle.command_line.specs.Commands as model;
ghost use Rattle.command_line.specs.Tasks.{AreFew, is_alone};
ghost use Rattle.command_line.specs.Asks.{Asks, IsNumber};
ghost use Rattle.command_line.specs.Table.{text_of};
ghost use Rattle.command_line.specs.Meaning.{file_name, lanes_of, loss_of, meaning_of};
ghost use Rattle.command_line.specs.Reading.{AreOneOrTwo, AreTwo, Completes, IsOne, SaysFlag};
ghost use Rattle.command_line.specs.Reading.{SaysMaybe, SaysName, SaysNumber, given_by, id_of};

use clap::ArgMatches;
use dsm_io::Text;
use number::number_of;
use parsing::{Given, arguments_in, given_for};
use run_limits::{Budget, LaneCount, NodeCount};
use std::alloc::{AllocError, Global};
use table::{CommandWord, Kind, Role, Setting};

mod number;
mod parsing;
mod table;
mod view;

pub use view::{CodeArguments, Cost, Megabytes, RecordedFiles, TimeArguments, View, view_of};

/// What the program is to do.
#[derive(Clone, Copy)]
pub enum Command<'a> {
    /// Write the rewritten executable of the one in a file into another.
    Rewrite(RewriteArguments<'a>),
    /// Run nodes, each in a thread of its own.
    Run(RunArguments<'a>),
    /// List the code words of the executable in a file.
    List(ListArguments<'a>),
    /// Run processors of the original on one memory, by the order of a number.
    One(OneArguments<'a>),
    /// Run nodes by the order of a number.
    Sim(SimArguments<'a>),
    /// Make the run of a record once more.
    Replay(ReplayArguments<'a>),
    /// Write the executable that a number makes into a file.
    Generate(GenerateArguments<'a>),
    /// Write the executable of the assembly text in a file into another.
    Assemble(AssembleArguments<'a>),
}

/// What `rewrite` is given.
#[derive(Clone, Copy)]
pub struct RewriteArguments<'a> {
    /// The file of the executable.
    pub input: &'a str,
    /// The file that the rewritten executable goes into.
    pub output: &'a str,
    /// Whether no run of accesses shares a check.
    pub no_batch: bool,
}

/// What nodes run: what `run` and `sim` both are given.
#[derive(Clone, Copy)]
pub struct Execution<'a> {
    /// The file of the executable, whose rewritten code the nodes run.
    pub file: &'a str,
    pub nodes: NodeCount,
    /// How many words of each processor are run at most.
    pub budget: Budget,
    /// The file of the executable that has the code, where one is named.
    pub code: Option<&'a str>,
    /// The file of a verified executable that has it, which may go by another plan.
    pub verified: Option<&'a str>,
    /// The file of the layout of the blocks.
    pub layout: Option<&'a str>,
    /// Whether the text has no counts.
    pub brief: bool,
    /// Whether no run of accesses shares a check.
    pub no_batch: bool,
}

/// What `run` is given.
#[derive(Clone, Copy)]
pub struct RunArguments<'a> {
    pub execution: Execution<'a>,
    /// The file that the record of the run goes into, where one is named.
    pub record_file: Option<&'a str>,
}

/// What `list` is given.
#[derive(Clone, Copy)]
pub struct ListArguments<'a> {
    /// The file of the executable.
    pub file: &'a str,
}

/// What `one` is given.
#[derive(Clone, Copy)]
pub struct OneArguments<'a> {
    /// The file of the executable.
    pub file: &'a str,
    /// How many processors are run.
    pub nodes: NodeCount,
    /// The number of the order.
    pub order: u32,
    /// How many steps of each processor are made at most.
    pub budget: Budget,
    /// The file of the layout of the blocks, where one is named.
    pub layout: Option<&'a str>,
}

/// What `sim` is given.
#[derive(Clone, Copy)]
pub struct SimArguments<'a> {
    pub execution: Execution<'a>,
    /// The number of the order.
    pub order: u32,
    /// What the nodes and the links are like.
    pub machine: Machine,
}

/// What `replay` is given.
#[derive(Clone, Copy)]
pub struct ReplayArguments<'a> {
    /// The file of the executable.
    pub file: &'a str,
    /// The file of the record.
    pub record_file: &'a str,
    /// The file of a verified executable, where one is named.
    pub verified: Option<&'a str>,
    /// Whether the text has no counts.
    pub brief: bool,
}

/// What `gen` is given.
#[derive(Clone, Copy)]
pub struct GenerateArguments<'a> {
    pub number: u32,
    /// The file that the executable goes into.
    pub output: &'a str,
}

/// What `asm` is given.
#[derive(Clone, Copy)]
pub struct AssembleArguments<'a> {
    /// The file of the assembly text.
    pub text: &'a str,
    /// The file that the executable goes into.
    pub output: &'a str,
}

/// What the nodes of a run by an order, and the links between them, are like.
#[derive(Clone, Copy, PartialEq, Eq)]
pub enum Machine {
    /// Each node is one processor, and the links lose nothing.
    Plain,
    /// Each node is one processor, and the links lose packets, by the order of a number.
    Lossy(u32),
    /// Each node has this number of processors, at most 16 with those of the other nodes; and the
    /// links lose nothing.
    Lanes(LaneCount),
}

/// The one operand, the name of a file, which isn't empty.
fn file_in<'a>(matches: &ArgMatches<'a>) -> Option<&'a str>
    ensures { MatchOption result
        ((f : List ℕ) → IsOne f (given_by matches.now (id_of Role.Operand)) → ⊥)
        (λ f. IsOne f.now (given_by matches.now (id_of Role.Operand))) }
{
    match given_for(matches, Role::Operand) {
        Given::One(file) => { if file.is_empty() { None } else { Some(file) } }
        Given::Nothing | Given::Two(_, _) | Given::More => None,
    }
}

/// The two operands. Neither is empty.
fn two_operands_in<'a>(matches: &ArgMatches<'a>) -> Option<(&'a str, &'a str)>
    ensures { MatchOption result
        ((f g : List ℕ) → AreTwo f g (given_by matches.now (id_of Role.Operand)) → ⊥)
        (λ p. AreTwo p.0.now p.1.now (given_by matches.now (id_of Role.Operand))) }
{
    match given_for(matches, Role::Operand) {
        Given::Two(one, other) => {
            if one.is_empty() || other.is_empty() {
                None
            } else {
                Some((one, other))
            }
        }
        Given::Nothing | Given::One(_) | Given::More => None,
    }
}

/// The first operand, and the second where there is one. Neither is empty.
fn one_or_two_operands_in<'a>(matches: &ArgMatches<'a>) -> Option<(&'a str, Option<&'a str>)>
    ensures { MatchOption result
        ((f : List ℕ) (g : Option (List ℕ))
        → AreOneOrTwo f g (given_by matches.now (id_of Role.Operand)) → ⊥)
        (λ p. AreOneOrTwo p.0.now (file_name p.1) (given_by matches.now (id_of Role.Operand))) }
{
    match given_for(matches, Role::Operand) {
        Given::One(one) => {
            if one.is_empty() {
                None
            } else {
                Some((one, None))
            }
        }
        Given::Two(one, other) => {
            if one.is_empty() || other.is_empty() {
                None
            } else {
                Some((one, Some(other)))
            }
        }
        Given::Nothing | Given::More => None,
    }
}

/// The number of an option that has one.
fn number_in(matches: &ArgMatches<'_>, setting: Setting) -> Option<u64>
    ensures { MatchOption result
        ((n : ℕ) → SaysNumber (given_by matches.now) setting n → ⊥)
        (λ n. SaysNumber (given_by matches.now) setting n) }
{
    let Kind::Number { low, high, default } = setting.kind() else {
        return None;
    };
    match given_for(matches, Role::Option(setting)) {
        Given::Nothing => Some(default),
        Given::One(word) => number_of(word, low, high),
        Given::Two(_, _) => None,
        Given::More => None,
    }
}

/// The number of an option that may have one. None in it where the option is not there.
fn maybe_number_in(matches: &ArgMatches<'_>, setting: Setting) -> Option<Option<u64>>
    ensures { MatchOption result
        ((n : Option ℕ) → SaysMaybe (given_by matches.now) setting n → ⊥)
        (λ n. SaysMaybe (given_by matches.now) setting n) }
{
    let Kind::MaybeNumber { low, high } = setting.kind() else {
        return None;
    };
    match given_for(matches, Role::Option(setting)) {
        Given::Nothing => Some(None),
        Given::One(word) => {
            let number = number_of(word, low, high)?;
            Some(Some(number))
        }
        Given::Two(_, _) => None,
        Given::More => None,
    }
}

/// The name of the file of an option that has one. None in it where the option is not there.
fn name_in<'a>(matches: &ArgMatches<'a>, setting: Setting) -> Option<Option<&'a str>>
    ensures { MatchOption result
        ((n : Option (List ℕ)) → SaysName (given_by matches.now) setting n → ⊥)
        (λ n. SaysName (given_by matches.now) setting (option_map (λ name. name.now) n)) }
{
    let Kind::File(_) = setting.kind() else {
        return None;
    };
    match given_for(matches, Role::Option(setting)) {
        Given::Nothing => Some(None),
        Given::One(word) => {
            if word.is_empty() {
                None
            } else {
                Some(Some(word))
            }
        }
        Given::Two(_, _) => None,
        Given::More => None,
    }
}

/// The budget.
fn budget_in(matches: &ArgMatches<'_>) -> Option<Budget>
    ensures { MatchOption result
        ((n : ℕ) → SaysNumber (given_by matches.now) Setting.Budget n → ⊥)
        (λ b. SaysNumber (given_by matches.now) Setting.Budget b) }
{
    let number = number_in(matches, Setting::Budget)?;
    let budget = Budget::of(number)?;
    Some(budget)
}

/// The count of nodes.
fn nodes_in(matches: &ArgMatches<'_>) -> Option<NodeCount>
    ensures { MatchOption result
        ((n : ℕ) → SaysNumber (given_by matches.now) Setting.Nodes n → ⊥)
        (λ c. SaysNumber (given_by matches.now) Setting.Nodes c) }
{
    let number = number_in(matches, Setting::Nodes)?;
    let nodes = NodeCount::of(number)?;
    Some(nodes)
}

/// The number that makes an order.
fn order_in(matches: &ArgMatches<'_>) -> Option<u32>
    ensures { MatchOption result
        ((n : ℕ) → SaysNumber (given_by matches.now) Setting.Order n → ⊥)
        (λ o. SaysNumber (given_by matches.now) Setting.Order o) }
{
    let number = number_in(matches, Setting::Order)?;
    match u32::try_from(number) {
        Ok(order) => Some(order),
        Err(_) => None,
    }
}

/// The number of the loss. None in it where the links lose nothing.
fn loss_in(matches: &ArgMatches<'_>) -> Option<Option<u32>>
    ensures { MatchOption result
        ((n : Option ℕ) → SaysMaybe (given_by matches.now) Setting.Loss n → ⊥)
        (λ l. SaysMaybe (given_by matches.now) Setting.Loss l) }
{
    match maybe_number_in(matches, Setting::Loss)? {
        None => Some(None),
        Some(number) => match u32::try_from(number) {
            Ok(loss) => Some(Some(loss)),
            Err(_) => None,
        },
    }
}

/// How many processors each node has. None in it where each is one processor.
fn lanes_in(matches: &ArgMatches<'_>) -> Option<Option<LaneCount>>
    ensures { MatchOption result
        ((n : Option ℕ) → SaysMaybe (given_by matches.now) Setting.PerNode n → ⊥)
        (λ l. SaysMaybe (given_by matches.now) Setting.PerNode l) }
{
    match maybe_number_in(matches, Setting::PerNode)? {
        None => Some(None),
        Some(number) => {
            let lanes = LaneCount::of(number)?;
            Some(Some(lanes))
        }
    }
}

/// The machine of `nodes` nodes with this loss and `lanes` processors each, where there is one.
fn machine_of(nodes: NodeCount, loss: Option<u32>, lanes: Option<LaneCount>) -> Option<Machine>
    ensures { MatchOption result (AreFew nodes loss lanes → ⊥) (λ m. AreFew nodes loss lanes
        × (loss_of m ≡ loss) × (lanes_of m ≡ lanes)) }
{
    match lanes {
        None => match loss {
            None => Some(Machine::Plain),
            Some(loss) => Some(Machine::Lossy(loss)),
        },
        Some(lanes) => {
            if loss.is_none() && lanes.on(nodes) <= 16 {
                Some(Machine::Lanes(lanes))
            } else {
                None
            }
        }
    }
}

/// Whether a flag is there.
fn flag_in(matches: &ArgMatches<'_>, setting: Setting) -> Option<bool>
    ensures there { MatchOption result
        ((b : Bool) → SaysFlag (given_by matches.now) setting b → ⊥)
        (λ b. SaysFlag (given_by matches.now) setting b) }
{
    match given_for(matches, Role::Option(setting)) {
        Given::Nothing => Some(false),
        Given::One(_) => Some(true),
        Given::Two(_, _) => None,
        Given::More => None,
    }
}

/// Whether there is no verified file; or, beside it, no file of code and no flag for batches.
fn is_alone(verified: Option<&str>, code: Option<&str>, no_batch: bool) -> bool
    ensures { result ≡ is_alone (file_name verified.entry) (file_name code.entry) no_batch }
{
    match verified {
        None => true,
        Some(_) => match code {
            None => !no_batch,
            Some(_) => false,
        },
    }
}

/// The command `rewrite`.
fn rewrite_of<'a>(matches: &ArgMatches<'a>) -> Option<Command<'a>>
    ensures { MatchOption result
        ((c : model.Command) → Completes (codes "rewrite") (given_by matches.now) c → ⊥)
        (λ c. Completes (codes "rewrite") (given_by matches.now) (meaning_of c)) }
{
    let (input, output) = two_operands_in(matches)?;
    let no_batch = flag_in(matches, Setting::NoBatch)?;
    Some(Command::Rewrite(RewriteArguments {
        input,
        output,
        no_batch,
    }))
}

/// The command `run`, which goes without a record for one node alone.
fn run_of<'a>(matches: &ArgMatches<'a>) -> Option<Command<'a>>
    ensures { MatchOption result
        ((c : model.Command) → Completes (codes "run") (given_by matches.now) c → ⊥)
        (λ c. Completes (codes "run") (given_by matches.now) (meaning_of c)) }
{
    let file = file_in(matches)?;
    let nodes = nodes_in(matches)?;
    let budget = budget_in(matches)?;
    let code = name_in(matches, Setting::Code)?;
    let verified = name_in(matches, Setting::Verify)?;
    let layout = name_in(matches, Setting::Layout)?;
    let brief = flag_in(matches, Setting::Brief)?;
    let no_batch = flag_in(matches, Setting::NoBatch)?;
    let record_file = name_in(matches, Setting::Record)?;
    if record_file.is_none() && nodes.number() != 1 {
        return None;
    }
    if !is_alone(verified, code, no_batch) {
        return None;
    }
    let execution = Execution {
        file,
        nodes,
        budget,
        code,
        verified,
        layout,
        brief,
        no_batch,
    };
    Some(Command::Run(RunArguments {
        execution,
        record_file,
    }))
}

/// The command `list`.
fn list_of<'a>(matches: &ArgMatches<'a>) -> Option<Command<'a>>
    ensures { MatchOption result
        ((c : model.Command) → Completes (codes "list") (given_by matches.now) c → ⊥)
        (λ c. Completes (codes "list") (given_by matches.now) (meaning_of c)) }
{
    let file = file_in(matches)?;
    Some(Command::List(ListArguments { file }))
}

/// The command `one`.
fn one_of<'a>(matches: &ArgMatches<'a>) -> Option<Command<'a>>
    ensures { MatchOption result
        ((c : model.Command) → Completes (codes "one") (given_by matches.now) c → ⊥)
        (λ c. Completes (codes "one") (given_by matches.now) (meaning_of c)) }
{
    let file = file_in(matches)?;
    let nodes = nodes_in(matches)?;
    let order = order_in(matches)?;
    let budget = budget_in(matches)?;
    let layout = name_in(matches, Setting::Layout)?;
    Some(Command::One(OneArguments {
        file,
        nodes,
        order,
        budget,
        layout,
    }))
}

/// The command `sim`.
fn sim_of<'a>(matches: &ArgMatches<'a>) -> Option<Command<'a>>
    ensures { MatchOption result
        ((c : model.Command) → Completes (codes "sim") (given_by matches.now) c → ⊥)
        (λ c. Completes (codes "sim") (given_by matches.now) (meaning_of c)) }
{
    let file = file_in(matches)?;
    let nodes = nodes_in(matches)?;
    let budget = budget_in(matches)?;
    let code = name_in(matches, Setting::Code)?;
    let verified = name_in(matches, Setting::Verify)?;
    let layout = name_in(matches, Setting::Layout)?;
    let brief = flag_in(matches, Setting::Brief)?;
    let no_batch = flag_in(matches, Setting::NoBatch)?;
    let order = order_in(matches)?;
    let loss = loss_in(matches)?;
    let lanes = lanes_in(matches)?;
    let machine = machine_of(nodes, loss, lanes)?;
    if !is_alone(verified, code, no_batch) {
        return None;
    }
    let execution = Execution {
        file,
        nodes,
        budget,
        code,
        verified,
        layout,
        brief,
        no_batch,
    };
    Some(Command::Sim(SimArguments {
        execution,
        order,
        machine,
    }))
}

/// The command `replay`.
fn replay_of<'a>(matches: &ArgMatches<'a>) -> Option<Command<'a>>
    ensures { MatchOption result
        ((c : model.Command) → Completes (codes "replay") (given_by matches.now) c → ⊥)
        (λ c. Completes (codes "replay") (given_by matches.now) (meaning_of c)) }
{
    let (file, record_file) = two_operands_in(matches)?;
    let verified = name_in(matches, Setting::Verify)?;
    let brief = flag_in(matches, Setting::Brief)?;
    Some(Command::Replay(ReplayArguments {
        file,
        record_file,
        verified,
        brief,
    }))
}

/// The number of a word that makes an executable.
fn seed_of(word: &str) -> Option<u32>
    ensures { MatchOption result ((n : ℕ) → IsNumber 0 (2 ^ 32 - 1) word.now n → ⊥)
        (λ n. IsNumber 0 (2 ^ 32 - 1) word.now n) }
{
    let number = number_of(word, 0, u32::MAX as u64)?;
    match u32::try_from(number) {
        Ok(seed) => Some(seed),
        Err(_) => None,
    }
}

/// The command `gen`.
fn generate_of<'a>(matches: &ArgMatches<'a>) -> Option<Command<'a>>
    ensures { MatchOption result
        ((c : model.Command) → Completes (codes "gen") (given_by matches.now) c → ⊥)
        (λ c. Completes (codes "gen") (given_by matches.now) (meaning_of c)) }
{
    let (word, output) = two_operands_in(matches)?;
    let number = seed_of(word)?;
    Some(Command::Generate(GenerateArguments { number, output }))
}

/// The command `asm`.
fn assemble_of<'a>(matches: &ArgMatches<'a>) -> Option<Command<'a>>
    ensures { MatchOption result
        ((c : model.Command) → Completes (codes "asm") (given_by matches.now) c → ⊥)
        (λ c. Completes (codes "asm") (given_by matches.now) (meaning_of c)) }
{
    let (text, output) = two_operands_in(matches)?;
    Some(Command::Assemble(AssembleArguments { text, output }))
}

/// The command of a word that is a command's, with these arguments.
fn command_in<'a>(word: CommandWord, matches: &ArgMatches<'a>) -> Option<Command<'a>>
    ensures { MatchOption result
        ((c : model.Command) → Completes (text_of word) (given_by matches.now) c → ⊥)
        (λ c. Completes (text_of word) (given_by matches.now) (meaning_of c)) }
{
    match word {
        CommandWord::Rewrite => rewrite_of(matches),
        CommandWord::Run => run_of(matches),
        CommandWord::List => list_of(matches),
        CommandWord::One => one_of(matches),
        CommandWord::Sim => sim_of(matches),
        CommandWord::Replay => replay_of(matches),
        CommandWord::Generate => generate_of(matches),
        CommandWord::Assemble => assemble_of(matches),
    }
}

/// Reads the words after the program's name. None exactly where they ask for no command.
pub fn command_of(alloc: Global, words: &[Text]) -> Result<Option<Command<'_>>, AllocError>
    ensures asks { IfOk result (λ r. MatchOption r ((c : model.Command) → Asks words.now c → ⊥)
        (λ c. Asks words.now (meaning_of c))) }
    ensures only { (c d : model.Command) → Asks words.now c → Asks words.now d → c ≡ d }
{
    let Some((word, arguments)) = words.split_first() else {
        return Ok(None);
    };
    let Some(word) = CommandWord::of(word.as_str()) else {
        return Ok(None);
    };
    match arguments_in(alloc, word.settings(), arguments)? {
        Some(matches) => Ok(command_in(word, &matches)),
        None => Ok(None),
    }
}
