ghost use Rattle.std.specs.Prelude.{◌≡◌, ◌∷◌, [], IfErr, IfOk, map};
ghost use Rattle.clap.specs.Words.{app_of, kind_of};
ghost use Rattle.rif_top.specs.CommandLine.{command_line};
ghost use Rattle.rif_top.specs.Commands.{AreAccepted, command_named, command_of};

use crate::command::Command;
use clap::Error;
use clap::error::ErrorKind;
use rif_values::{OutOfMemory, Text};
use std::alloc::{AllocError, Global};

/// The command that the words behind the program's name are, or none.
///
/// `clap` reads them. Words that are no command are told apart before it is asked: it would take some of them, as
/// `run --`, and to refuse the others would cost it memory. So its parse fails only for want of memory.
pub fn read_command(alloc: Global, words: &[Text]) -> Result<Option<Command>, OutOfMemory>
    ensures ok { IfOk result (λ command. command ≡ command_of words.now) }
    ensures err { IfErr result (λ _. AreAccepted words.now) }
{
    match words {
        [word] => read_word(alloc, word.as_str()),
        _ => Ok(None),
    }
}

fn read_word(alloc: Global, word: &str) -> Result<Option<Command>, OutOfMemory>
    ensures ok { IfOk result (λ command. command ≡ command_named word.now) }
    ensures err { IfErr result (λ _. AreAccepted (word.now ∷ [])) }
{
    if named(word).is_none() {
        return Ok(None);
    }
    let words = [word];
    match parsed(alloc, words.as_slice()) {
        Ok(command) => Ok(command),
        Err(error) => match error.kind() {
            ErrorKind::OutOfMemory => Err(OutOfMemory),
            _ => unreachable!(),
        },
    }
}

// What `clap` makes of words that are a command.
fn parsed<'a>(alloc: Global, words: &'a [&'a str]) -> Result<Option<Command>, Error>
    requires { AreAccepted (map (λ word. word.now) words.now) }
    ensures ok { IfOk result (λ command. command ≡ command_of (map (λ word. word.now) words.entry.now)) }
    ensures err { IfErr result (λ error. kind_of error ≡ ErrorKind.OutOfMemory) }
{
    let matches = commands(alloc)?.try_get_matches_from(words)?;
    Ok(match matches.subcommand_name() {
        Some(name) => named(name),
        None => None,
    })
}

// The commands, without the flags and the command that `clap` would add.
fn commands<'a>(alloc: Global) -> Result<clap::Command<'a>, AllocError>
    ensures { IfOk result (λ commands. app_of commands ≡ command_line) }
{
    clap::Command::new(alloc, "hauskimu")
        .no_binary_name(true)
        .disable_help_flag(true)
        .disable_version_flag(true)
        .disable_help_subcommand(true)
        .subcommand_required(true)
        .subcommand(clap::Command::new(alloc, "check"))?
        .subcommand(clap::Command::new(alloc, "run"))
}

fn named(word: &str) -> Option<Command>
    ensures { result ≡ command_named word.now }
{
    match word {
        "check" => Some(Command::Check),
        "run" => Some(Command::Run),
        _ => None,
    }
}
