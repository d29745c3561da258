//! What the crate `clap` is asked of a command's words.

ghost use Rattle.std.specs.Prelude.{◌≡◌, false, fold, map, IfOk};
ghost use Rattle.clap.specs.Words.{app_of, rule_of, with_rule};
ghost use Rattle.cmd_arguments.specs.Asked.{clap_command, bare_command, names_rule, rule_with};

use crate::table::{CommandName, OptionName};
use clap::{Arg, ArgAction, Command};
use std::alloc::{AllocError, Global};

/// The word by which the names are asked for. It is no option's name.
pub const NAMES: &str = "names";

/// A command of `clap` for one of ours. It knows no word for help or the version, and takes any number of names.
pub fn asked<'a>(alloc: Global, command: CommandName) -> Result<Command<'a>, AllocError>
    ensures { IfOk result (λ asked_of. app_of asked_of ≡ clap_command command) }
{
    let with_names = with_names(alloc, command)?;
    let with_flags = with_options(alloc, with_names, command.flags(), ArgAction::SetTrue)?;
    with_options(alloc, with_flags, command.options(), ArgAction::Set)
}

// The command with its names, before its flags and options.
fn with_names<'a>(alloc: Global, command: CommandName) -> Result<Command<'a>, AllocError>
    ensures { IfOk result (λ asked_of. app_of asked_of ≡ with_rule (bare_command command) names_rule) }
{
    Command::new(alloc, command.word())
        .no_binary_name(true)
        .disable_help_flag(true)
        .arg(names_argument(alloc))
}

// The command with options more, of which each does the same: takes a value, or is a flag.
fn with_options<'a>(
    alloc: Global,
    mut command: Command<'a>,
    options: &[OptionName],
    action: ArgAction,
) -> Result<Command<'a>, AllocError>
    ensures { IfOk result (λ r. app_of r ≡ fold with_rule (app_of command.entry) (map (rule_with action) options.now)) }
{
    for option in options {
        command = command.arg(option_argument(alloc, *option, action))?;
    }
    Ok(command)
}

fn names_argument<'a>(alloc: Global) -> Arg<'a>
    ensures rule { rule_of result ≡ names_rule }
    ensures local { result.global ≡ false }
{
    Arg::new(alloc, NAMES).action(ArgAction::Append)
}

fn option_argument<'a>(alloc: Global, option: OptionName, action: ArgAction) -> Arg<'a>
    ensures rule { rule_of result ≡ rule_with action option }
    ensures local { result.global ≡ false }
{
    Arg::new(alloc, option.name())
        .long(option.name())
        .action(action)
}
