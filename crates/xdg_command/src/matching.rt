//! What a command of `clap` finds in the words.

ghost use Rattle.std.specs.Prelude.{◌≡◌, IfOk, map, true};
ghost use Rattle.std.specs.String.{string_bytes};
ghost use Rattle.clap.specs.Simple.{app_of};
ghost use Rattle.xdg_command.specs.Found.{Matches};
ghost use Rattle.xdg_command.specs.Syntax.{Table, app_in, is_right};

use clap::error::ErrorKind;
use clap::{ArgMatches, Command};
use xdg_base::OutOfMemory;

/// What is found in the words, or `None` where the command does not take them.
pub(crate) fn matches<'a>(
    syntax: Command<'a>,
    words: &'a [String],
) -> Result<Option<ArgMatches<'a>>, OutOfMemory>
    ensures { IfOk result (λ found. (t : Table) → is_right t ≡ true → app_of syntax.entry ≡ app_in t
        → Matches t (map string_bytes words.entry.now) found) }
{
    match syntax.try_get_matches_from(words) {
        Ok(found) => Ok(Some(found)),
        Err(error) => match error.kind() {
            ErrorKind::OutOfMemory => Err(OutOfMemory),
            _ => Ok(None),
        },
    }
}
