//! The commands and their options, row by row.

ghost use Rattle.std.specs.Prelude.{◌≡◌, map};
ghost use Rattle.command_words.specs.Table.{commands, options, row_in};

/// How an option is written.
#[derive(Clone, Copy, Debug, PartialEq, Eq)]
pub enum Way {
    /// With a value, and it must be given.
    Needed,
    /// With a value.
    Valued,
    /// Alone: the word behind it is not its value.
    Alone,
}

use Way::{Alone, Needed, Valued};

/// The words of the commands.
const COMMANDS: [&'static str; 6] = ["run", "debug", "asm", "thumb", "dis", "gen"];

/// An option: its command, its name without the dashes, and how it is written.
pub type OptionRow<'a> = (&'a str, &'a str, Way);

/// The options of the commands.
const OPTIONS: [OptionRow<'static>; 18] = [
    ("run", "cycles", Needed),
    ("run", "script", Valued),
    ("run", "pio", Valued),
    ("run", "probe", Valued),
    ("run", "part", Valued),
    ("run", "workers", Valued),
    ("run", "stats", Alone),
    ("run", "table", Alone),
    ("debug", "cycles", Needed),
    ("debug", "script", Valued),
    ("debug", "pio", Valued),
    ("debug", "part", Valued),
    ("debug", "table", Alone),
    ("dis", "side", Valued),
    ("dis", "opt", Valued),
    ("gen", "cycles", Needed),
    ("gen", "workers", Valued),
    ("gen", "stats", Alone),
];

/// The words of the commands.
#[tactic(auto, unfolding(crate::specs::Table::commands))]
pub fn commands<'a>() -> &'a [&'a str]
    ensures { map (λ word. word.now) result.now ≡ commands }
{
    &COMMANDS
}

/// The options of the commands.
#[tactic(auto, unfolding(crate::specs::Table::options))]
pub fn options<'a>() -> &'a [OptionRow<'a>]
    ensures { map row_in result.now ≡ options }
{
    &OPTIONS
}
