//! The `clap` command of a syntax, built for each line and for the program's words, and what it finds in the words.
ghost use Rattle.std.specs.Prelude.{◌≡◌, false, true, IfOk, MatchResult, Some, map, option_map, string_bytes};
ghost use Rattle.clap.specs.Words.{app_of, first_of, found_of, rows_of, rule_of};
ghost use Rattle.facl_script.specs.Rows.{syntax_view, operand_view, option_view};
ghost use Rattle.facl_script.specs.Commands.{app_for, is_covered, operand_rule, option_rule, taken};
ghost use Rattle.facl_script.specs.Refusals.{IsRefusal};

use crate::syntax::{OperandRow, OptionRow, Syntax};
use crate::tool_fault::WordsFault;
use clap::{Arg, ArgAction, ArgMatches, Command};
use std::alloc::{AllocError, Global};

/// Makes a flag or an option an argument of `clap`.
fn option_arg<'a>(alloc: Global, row: &OptionRow, action: ArgAction) -> Arg<'a>
    ensures rule { rule_of result ≡ option_rule action (option_view row.now) }
    ensures local { result.global ≡ false }
{
    let mut arg = Arg::new(alloc, row.id).action(action);
    if let Some(short) = row.short {
        arg = arg.short(short);
    }
    if let Some(long) = row.long {
        arg = arg.long(long);
    }
    arg
}

/// Makes an operand an argument of `clap`.
fn operand_arg<'a>(alloc: Global, row: &OperandRow) -> Arg<'a>
    ensures rule { rule_of result ≡ operand_rule (operand_view row.now) }
    ensures local { result.global ≡ false }
{
    let action = if row.is_repeated {
        ArgAction::Append
    } else {
        ArgAction::Set
    };
    Arg::new(alloc, row.id)
        .required(row.is_required)
        .action(action)
}

/// Makes the `clap` command of a syntax: its arguments alone, with no help and no version, for words that do not
/// begin with a program's name.
fn command_for<'a>(alloc: Global, syntax: &Syntax) -> Result<Command<'a>, AllocError>
    ensures { IfOk result (λ c. app_of c ≡ app_for (syntax_view syntax.now)) }
{
    let mut command = Command::new(alloc, "facl")
        .no_binary_name(true)
        .disable_help_flag(true)
        .disable_version_flag(true);
    for flag in syntax.flags {
        command = command.arg(option_arg(alloc, flag, ArgAction::SetTrue))?;
    }
    for option in syntax.options {
        command = command.arg(option_arg(alloc, option, ArgAction::Set))?;
    }
    for operand in syntax.operands {
        command = command.arg(operand_arg(alloc, operand))?;
    }
    Ok(command)
}

/// Lets `clap` read the words; it may refuse them.
pub(crate) fn matches_for<'a>(
    alloc: Global,
    syntax: &Syntax,
    words: &'a [String],
) -> Result<ArgMatches<'a>, WordsFault>
    requires { is_covered (syntax_view syntax.now) ≡ true }
    ensures { MatchResult result
        (λ m. taken (syntax_view syntax.now) (map string_bytes words.entry.now) ≡ Some (rows_of (found_of m)))
        (IsRefusal (taken (syntax_view syntax.now) (map string_bytes words.entry.now))) }
{
    let command = command_for(alloc, syntax)?;
    let matches = command.try_get_matches_from(words)?;
    Ok(matches)
}

/// Copies the value of an option. `None` if it is absent.
pub(crate) fn value_of(
    alloc: Global,
    matches: &ArgMatches<'_>,
    id: &str,
) -> Result<Option<String>, AllocError>
    ensures { IfOk result (λ s.
        option_map string_bytes s ≡ first_of id.now (rows_of (found_of matches.now))) }
{
    match matches.get_str(id) {
        Some(text) => Ok(Some(String::from_str(alloc, text)?)),
        None => Ok(None),
    }
}
