//! The arguments after a command's word, as `clap` reads them.

ghost use Rattle.std.specs.Prelude.{◌≡◌, ◌↔◌, [], ℕ, List, IsTrue, IfOk, MatchOption};
ghost use Rattle.std.specs.Prelude.{false};
ghost use Rattle.clap.specs.Words.{app_of, rule_of};
ghost use Rattle.command_line.specs.Asks.{Argument, IsPlain};
ghost use Rattle.command_line.specs.Reading.{IsCut, IsGivenAs, Reads, app_for, given_by};
ghost use Rattle.command_line.specs.Reading.{AreReadable, AreThree, IsLong, id_of, rule_for};

use crate::table::{Role, Setting};
use clap::error::ErrorKind;
use clap::{Arg, ArgAction, ArgMatches, Command};
use dsm_io::Text;
use std::alloc::{AllocError, Global};

/// The arguments of an option. Of a flag, which has none, each use counts as an empty text.
fn option_argument<'a>(alloc: Global, setting: Setting) -> Arg<'a>
    ensures rule { rule_of result ≡ rule_for setting }
    ensures local { result.global ≡ false }
{
    let name = setting.name();
    let argument = Arg::new(alloc, name).long(name).action(ArgAction::Append);
    if setting.takes_value() {
        argument
    } else {
        argument.num_args(0).default_missing_value("")
    }
}

/// A command with these options, and with any number of operands.
fn command_with<'a>(alloc: Global, settings: &[Setting]) -> Result<Command<'a>, AllocError>
    ensures { IfOk result (λ command. app_of command ≡ app_for settings.now) }
{
    let operands = Arg::new(alloc, Role::Operand.id()).action(ArgAction::Append);
    let mut command = Command::new(alloc, "shasta")
        .no_binary_name(true)
        .disable_help_flag(true)
        .disable_version_flag(true)
        .arg(operands)?;
    for setting in settings {
        command = command.arg(option_argument(alloc, *setting))?;
    }
    Ok(command)
}

/// Whether a word may stand by itself: as the name of a file, or as a value.
fn is_plain(word: &str) -> bool
    ensures { IsTrue result ↔ IsPlain word.now }
{
    !word.is_empty() && !word.starts_with('-')
}

/// Whether a word begins with two dashes and has more.
fn is_long(word: &str) -> bool
    ensures { IsTrue result ↔ IsLong word.now }
{
    let bytes = word.as_bytes();
    bytes.len() > 2 && bytes[0] == b'-' && bytes[1] == b'-'
}

/// Whether each word is.
fn are_readable(words: &[Text]) -> bool
    ensures { IsTrue result ↔ AreReadable words.now }
{
    for word in words {
        if !is_plain(word.as_str()) && !is_long(word.as_str()) {
            return false;
        }
    }
    true
}

/// The arguments that the words are. None exactly where they are none of a command with these
/// options.
pub(crate) fn arguments_in<'a>(
    alloc: Global,
    settings: &[Setting],
    words: &'a [Text],
) -> Result<Option<ArgMatches<'a>>, AllocError>
    ensures { IfOk result (λ r. MatchOption r
        ((arguments : List Argument) → IsCut settings.now words.now arguments → ⊥)
        (λ matches. Reads settings.now words.now matches)) }
{
    if !are_readable(words) {
        return Ok(None);
    }
    let command = command_with(alloc, settings)?;
    match command.try_get_matches_from(words) {
        Ok(matches) => Ok(Some(matches)),
        Err(error) => match error.kind() {
            ErrorKind::OutOfMemory => Err(AllocError),
            _ => Ok(None),
        },
    }
}

/// The texts that a role is given.
#[derive(Clone, Copy)]
pub(crate) enum Given<'a> {
    Nothing,
    One(&'a str),
    Two(&'a str, &'a str),
    More,
}

/// What a role is given.
pub(crate) fn given_for<'a>(matches: &ArgMatches<'a>, role: Role) -> Given<'a>
    ensures { IsGivenAs (given_by matches.now (id_of role)) result }
{
    let Some(words) = matches.get_raw(role.id()) else {
        return Given::Nothing;
    };
    match words {
        [] => Given::Nothing,
        [word] => Given::One(*word),
        [one, other] => Given::Two(*one, *other),
        _ => Given::More,
    }
}

/// The three operands. None is empty.
pub(crate) fn three_operands_in<'a>(matches: &ArgMatches<'a>) -> Option<(&'a str, &'a str, &'a str)>
    ensures { MatchOption result
        ((f g h : List ℕ) → AreThree f g h (given_by matches.now (id_of Role.Operand)) → ⊥)
        (λ p. AreThree p.0.now p.1.now p.2.now (given_by matches.now (id_of Role.Operand))) }
{
    let words = matches.get_raw(Role::Operand.id())?;
    match words {
        [] => None,
        [_] => None,
        [_, _] => None,
        [one, other, third] => {
            if one.is_empty() || other.is_empty() || third.is_empty() {
                None
            } else {
                Some((*one, *other, *third))
            }
        }
        _ => None,
    }
}
