//! The words as clap reads them.
ghost use Rattle.std.specs.Prelude.{◌≡◌, IfOk, IfSome, map, string_bytes};
ghost use Rattle.clap.specs.Simple.{app_of};
ghost use Rattle.hp_words.specs.Command.{words_app};
ghost use Rattle.hp_words.specs.Forms.{IsWithin, form_of};

use crate::form::Form;
use crate::verbs::form_of_values;
use clap::error::ErrorKind;
use clap::{Arg, ArgAction, Command};
use std::alloc::{AllocError, Global};

/// The name under which the values of the command are asked for.
const VALUES: &str = "words";

/// The form that words are, without the program's name, where they are one. The first `--` is dropped, and a word before it that begins
/// with `-` and is longer than one byte makes them none. Own.
pub fn form_of(alloc: Global, words: &[String]) -> Result<Option<Form>, AllocError>
    ensures form { IfOk result (λ form. form ≡ form_of (map string_bytes words.now)) }

    // A form that generates asks for 1 to 20,000 lines.
    ensures lines { IfOk result (λ form. IfSome form IsWithin) }
{
    let command = command(alloc)?;
    match command.try_get_matches_from(words) {
        Ok(matches) => match matches.get_strs(VALUES) {
            Some(values) => Ok(form_of_values(values)),
            None => Ok(None),
        },
        Err(error) => match error.kind() {
            ErrorKind::OutOfMemory => Err(AllocError),
            _ => Ok(None),
        },
    }
}

// A simple command: any number of values, and no option.
fn command<'a>(alloc: Global) -> Result<Command<'a>, AllocError>
    ensures { IfOk result (λ command. app_of command ≡ words_app) }
{
    let values = Arg::new(alloc, VALUES)
        .action(ArgAction::Append)
        .num_args(..);
    Command::new(alloc, "heapsim")
        .no_binary_name(true)
        .disable_help_flag(true)
        .arg(values)
}
