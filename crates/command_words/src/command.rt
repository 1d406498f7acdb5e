//! The command as clap has it. It takes memory, and touches nothing else.

ghost use Rattle.std.specs.Prelude.{◌≡◌, false, IfOk};
ghost use Rattle.clap.specs.Words.{app_of, shape_of};
ghost use Rattle.clap.specs.declared.builder.command.Command.TheViews.{out-Command};
ghost use Rattle.command_words.specs.Words as asked;

use clap::{Arg, ArgAction, Command};
use std::alloc::{AllocError, Global};

/// The ids by which what was read is asked for.
pub const OPTION: &str = "option";

pub const TOGETHER: &str = "together";

pub const NUMBER: &str = "n";

/// The command whose words are read.
pub fn acquire<'a>(alloc: Global) -> Result<Command<'a>, AllocError>
    ensures { IfOk result (λ command. app_of command ≡ asked.acquire) }
{
    let command = Command::new(alloc, "acquire")
        .no_binary_name(true)
        .disable_help_flag(true)
        .disable_help_subcommand(true)
        .disable_version_flag(true)
        .subcommand_required(true)
        .subcommand(update(alloc)?)?
        .subcommand(generate(alloc)?)?;
    Ok(command)
}

/// `update`, with its option and its flag.
fn update<'a>(alloc: Global) -> Result<Command<'a>, AllocError>
    ensures shape { IfOk result (λ command. shape_of command ≡ asked.update_shape) }
    ensures local { IfOk result (λ command. (out-Command command).has_globals ≡ false) }
{
    let option = Arg::new(alloc, OPTION)
        .short('o')
        .long("option")
        .action(ArgAction::Append);
    let together = Arg::new(alloc, TOGETHER)
        .long("together")
        .action(ArgAction::SetTrue);
    let command = Command::new(alloc, "update").arg(option)?.arg(together)?;
    Ok(command)
}

/// `generate`, with its number.
fn generate<'a>(alloc: Global) -> Result<Command<'a>, AllocError>
    ensures shape { IfOk result (λ command. shape_of command ≡ asked.generate_shape) }
    ensures local { IfOk result (λ command. (out-Command command).has_globals ≡ false) }
{
    let number = Arg::new(alloc, NUMBER)
        .required(true)
        .action(ArgAction::Set);
    let command = Command::new(alloc, "generate").arg(number)?;
    Ok(command)
}
