//! Lines that are commands, and lines that are not.

use command_line::{Command, command_of};
use dsm_io::Text;
use std::alloc::{AllocError, Global};
use std::test::Fail;
use test_calls::calls::words_of;

/// What a line asks of the file `a`, if it is a command: a count of nodes, an order and a budget, 0
/// for what the command lacks.
type Asked = Option<(u8, u32, u64)>;

/// Lines of `run` and `rewrite`.
static RUNS: [(&str, Asked); 51] = [
    ("rewrite a b", Some((0, 0, 0))),
    ("rewrite a", None),
    ("rewrite a b c", None),
    ("run a", Some((1, 0, 100_000_000))),
    ("run --budget=0000000005 a", Some((1, 0, 5))),
    ("run a --budget 4294967296", Some((1, 0, 4_294_967_296))),
    ("", None),
    ("run", None),
    ("run  a", None),
    ("run -", None),
    ("run a --", None),
    ("run -a", None),
    ("run --budget", None),
    ("run a --budget", None),
    ("run a --budget=", None),
    ("run a --budget 0", None),
    ("run a --budget +5", None),
    ("run a --budget 5 --budget=5", None),
    ("run a --budget 4294967297", None),
    ("run a --nodes 1", Some((1, 0, 100_000_000))),
    ("run a --nodes 2", None),
    ("run a --nodes 2 --record=r", Some((2, 0, 100_000_000))),
    ("run a --record r", Some((1, 0, 100_000_000))),
    ("run --record r --nodes 17 a", None),
    ("run a --record r --order 1", None),
    ("run a --nodes 2 --record=", None),
    ("run a --nodes 2 --record r --record=r", None),
    ("run a --layout=-x", Some((1, 0, 100_000_000))),
    ("run --layout x --budget 5 a", Some((1, 0, 5))),
    ("run a --layout -x", None),
    ("run a --layout=", None),
    ("run a --layout x --layout x", None),
    ("run a --code x --layout=y", Some((1, 0, 100_000_000))),
    ("run a --code", None),
    ("run a --code=", None),
    ("run a --code x --code=x", None),
    ("run a --verify x --layout=y", Some((1, 0, 100_000_000))),
    ("run a --verify", None),
    ("run a --verify=", None),
    ("run a --verify x --verify=x", None),
    ("run a --verify x --code y", None),
    ("run a --verify x --no-batch", None),
    ("run --brief a", Some((1, 0, 100_000_000))),
    ("run a --brief=x", None),
    ("run a --brief --brief", None),
    ("run a --no-batch --brief", Some((1, 0, 100_000_000))),
    ("run a --no-batch --no-batch", None),
    ("rewrite --no-batch a b", Some((0, 0, 0))),
    ("rewrite a b --brief", None),
    ("rewrite a b --verify x", None),
    ("run a --loss 5", None),
];

/// Lines of the other commands.
static OTHERS: [(&str, Asked); 69] = [
    ("list a", Some((0, 0, 0))),
    ("one a", Some((1, 0, 100_000_000))),
    ("one a --nodes 2 --order 0 --budget 5", Some((2, 0, 5))),
    (
        "one --order=4294967295 --nodes=16 a",
        Some((16, 4_294_967_295, 100_000_000)),
    ),
    ("sim a --record r", None),
    ("one a --no-batch", None),
    ("sim a --no-batch", Some((1, 0, 100_000_000))),
    ("one a --brief", None),
    ("sim a", Some((1, 0, 100_000_000))),
    (
        "sim --nodes 2 --order=3 --budget 4 --code x --layout=y --brief a",
        Some((2, 3, 4)),
    ),
    ("sim a --verify x", Some((1, 0, 100_000_000))),
    ("sim a --verify x --code y", None),
    ("sim a --verify x --no-batch", None),
    ("one a --verify x", None),
    ("sim a --loss 4294967295", Some((1, 0, 100_000_000))),
    (
        "sim --loss=0 --order 3 a --nodes 2",
        Some((2, 3, 100_000_000)),
    ),
    ("sim a --loss 4294967296", None),
    ("sim a --loss -1", None),
    ("sim a --loss", None),
    ("sim a --loss=", None),
    ("sim a --loss 5 --loss=5", None),
    ("one a --loss 5", None),
    ("sim a --per-node 2", Some((1, 0, 100_000_000))),
    (
        "sim --per-node=4 --nodes 4 a --order 5",
        Some((4, 5, 100_000_000)),
    ),
    ("sim a --nodes 5 --per-node 3", Some((5, 0, 100_000_000))),
    ("sim a --nodes 8 --per-node 2", Some((8, 0, 100_000_000))),
    ("sim a --nodes 5 --per-node 4", None),
    ("sim a --nodes 6 --per-node 3", None),
    ("sim a --nodes 9 --per-node 2", None),
    ("sim a --per-node 1", None),
    ("sim a --per-node 5", None),
    ("sim a --per-node 0", None),
    ("sim a --per-node", None),
    ("sim a --per-node=", None),
    ("sim a --per-node 2 --per-node=2", None),
    ("sim a --per-node 2 --loss 0", None),
    ("sim a --per 2", None),
    ("one a --per-node 2", None),
    ("run a --per-node 2", None),
    ("replay a r --per-node 2", None),
    ("replay a r --loss 5", None),
    ("sim --brief x a", None),
    ("sim a --brief= --nodes 2", None),
    ("one a --layout x --nodes 2", Some((2, 0, 100_000_000))),
    ("one a --code x", None),
    ("list a --layout x", None),
    ("one a --nodes 17", None),
    ("one a --order 00000000000", None),
    ("one a --order --nodes 1", None),
    ("one --help", None),
    ("list a --version", None),
    ("list a a", None),
    ("replay a r", Some((0, 0, 0))),
    ("replay --brief a r", Some((0, 0, 0))),
    ("replay a r --verify x", Some((0, 0, 0))),
    ("replay a r --verify x --code y", None),
    ("replay a", None),
    ("replay a r --no-batch", None),
    ("replay a r --nodes 2", None),
    ("gen 0 a", Some((0, 0, 0))),
    ("gen 4294967295 a", Some((0, 4_294_967_295, 0))),
    ("gen 4294967296 a", None),
    ("gen 00000000000 a", None),
    ("gen a 0", None),
    ("gen 0", None),
    ("gen 0 a --brief", None),
    ("asm a b", Some((0, 0, 0))),
    ("asm a", None),
    ("asm a b --brief", None),
];

/// The count of nodes, the order and the budget of a command, 0 for what it lacks, with its file.
fn parts_of<'a>(command: &Command<'a>) -> (&'a str, u8, u32, u64) {
    match command {
        Command::Rewrite(arguments) => (arguments.input, 0, 0, 0),
        Command::Run(arguments) => {
            let nodes = arguments.execution.nodes.as_u8();
            let budget = arguments.execution.budget.number();
            (arguments.execution.file, nodes, 0, budget)
        }
        Command::List(arguments) => (arguments.file, 0, 0, 0),
        Command::Replay(arguments) => (arguments.file, 0, 0, 0),
        Command::Generate(arguments) => (arguments.output, 0, arguments.number, 0),
        Command::Assemble(arguments) => (arguments.text, 0, 0, 0),
        Command::One(arguments) => {
            let nodes = arguments.nodes.as_u8();
            let budget = arguments.budget.number();
            (arguments.file, nodes, arguments.order, budget)
        }
        Command::Sim(arguments) => {
            let nodes = arguments.execution.nodes.as_u8();
            let budget = arguments.execution.budget.number();
            (arguments.execution.file, nodes, arguments.order, budget)
        }
    }
}

/// The parts of the command on the file `a` that words ask for.
fn asked_of(alloc: Global, words: &[Text]) -> Result<Asked, AllocError> {
    match command_of(alloc, words) {
        Ok(Some(command)) => match parts_of(&command) {
            ("a", nodes, order, budget) => Ok(Some((nodes, order, budget))),
            _ => Ok(None),
        },
        Ok(None) => Ok(None),
        Err(error) => Err(error),
    }
}

/// Reads each line, and fails the test where one asks for something else.
fn try_lines(alloc: Global, lines: &[(&str, Asked)]) -> Result<(), Fail> {
    for (line, wanted) in lines {
        let words = words_of(alloc, line)?;
        if asked_of(alloc, &words)? != *wanted {
            return Err(Fail::new(format_args!("{line}")));
        }
    }
    Ok(())
}

#[test]
fn reads_the_words_of_run_and_rewrite(rt: HostRuntime) -> Result<(), Fail> {
    try_lines(rt.alloc(), &RUNS)
}

#[test]
fn reads_the_words_of_other_commands(rt: HostRuntime) -> Result<(), Fail> {
    try_lines(rt.alloc(), &OTHERS)
}
