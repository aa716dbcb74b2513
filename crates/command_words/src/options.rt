//! Numbers among the words; and the normal form of a command line: a command, its argument, and its options in any order, each a name
//! with its value or a name alone.

ghost use Rattle.std.specs.Prelude.{◌≡◌, ◌<◌, ◌≤◌, [], length, map, IfSome, MatchOption};
ghost use Rattle.std.specs.Option.{option_map};
ghost use Rattle.std.specs.Str.{bytes_eq};
ghost use Rattle.std.specs.String.{string_bytes};
ghost use Rattle.command_words.specs.Numbers.{digits_from, number_of, number_within, number_below};
ghost use Rattle.command_words.specs.Table.{dashed};
ghost use Rattle.command_words.specs.Options.{is_command, is_alone, settings_of, setting_for, is_given, value_for, fits, is_of, are_options, is_normal, number_for};
ghost use Rattle.command_words.specs.Read.{IsFirst};

use crate::rows::{Way, commands, options};

/// The number of at most 20 decimal digits.
fn value_of(digits: &[u8]) -> Option<u128>
    requires { length digits.now ≤ 20 }
    ensures { result ≡ digits_from 0 digits.now }
{
    let mut value: u128 = 0;
    for digit in digits {
        if !digit.is_ascii_digit() {
            return None;
        }
        value = 10 * value + u128::from(*digit - b'0');
    }
    Some(value)
}

/// A number of 1 to 20 decimal digits, and no 0 before other digits.
fn number(word: &str) -> Option<u128>
    ensures { result ≡ number_of word.now }
{
    let digits = word.as_bytes();
    let [first, rest @ ..] = digits else {
        return None;
    };
    if rest.len() > 19 || (*first == b'0' && !rest.is_empty()) {
        return None;
    }
    value_of(digits)
}

/// A number from `low` to `high`.
pub fn number_within(low: u64, high: u64, word: &str) -> Option<u64>
    ensures value { result ≡ number_within low high word.now }
    ensures within { IfSome result (λ number. number ≤ high) }
{
    let number = number(word)?;
    if u128::from(low) <= number && number <= u128::from(high) {
        Some(number as u64)
    } else {
        None
    }
}

/// A number below a count.
pub fn number_below(count: usize, word: &str) -> Option<u64>
    ensures value { result ≡ number_below count word.now }
    ensures below { IfSome result (λ number. number < count) }
{
    let number = number(word)?;
    if number < count as u128 {
        Some(number as u64)
    } else {
        None
    }
}

/// Whether a word is a command.
fn is_command(word: &str) -> bool
    ensures { result ≡ is_command word.now }
{
    for command in commands() {
        if word == *command {
            return true;
        }
    }
    false
}

/// Whether a word is the option of this name.
fn names(word: &str, name: &str) -> bool
    ensures { result ≡ bytes_eq word.now (dashed name.now) }
{
    word.strip_prefix("--") == Some(name)
}

/// Whether an option of this name stands alone: the word behind it is not its value.
fn is_alone(word: &str) -> bool
    ensures { result ≡ is_alone word.now }
{
    for (_, name, way) in options() {
        if fits(*way, None) && names(word, name) {
            return true;
        }
    }
    false
}

/// The first option that the words write: its name, its value where it has one, and the words behind them.
fn first_setting<'a>(words: &'a [String]) -> Option<(&'a str, Option<&'a str>, &'a [String])>
    ensures { MatchOption result (words.now ≡ []) (λ first. IsFirst words.now first.0.now
        (option_map (λ value. value.now) first.1) first.2.now) }
{
    match words {
        [] => None,
        [name, value, rest @ ..] if !is_alone(name.as_str()) => {
            Some((name.as_str(), Some(value.as_str()), rest))
        }
        [name, rest @ ..] => Some((name.as_str(), None, rest)),
    }
}

/// The option of this name, if it is among these: its name and its value.
fn setting_for<'a>(name: &str, options: &'a [String]) -> Option<(&'a str, Option<&'a str>)>
    ensures { option_map (λ found. (found.0.now, option_map (λ value. value.now) found.1)) result
        ≡ setting_for name.now (settings_of (map string_bytes options.now)) }
{
    let mut left = options;
    while let Some((other, value, rest)) = first_setting(left) {
        if other == name {
            return Some((other, value));
        }
        left = rest;
    }
    None
}

/// The value of the option of this name.
pub fn value_for<'a>(name: &str, options: &'a [String]) -> Option<&'a str>
    ensures { option_map (λ value. value.now) result
        ≡ value_for name.now (settings_of (map string_bytes options.now)) }
{
    setting_for(name, options)?.1
}

/// Whether the option of this name is among these.
pub fn is_given(name: &str, options: &[String]) -> bool
    ensures { result ≡ is_given name.now (settings_of (map string_bytes options.now)) }
{
    setting_for(name, options).is_some()
}

/// Whether this may follow an option: a value that does not begin with a dash, or nothing.
fn fits(way: Way, value: Option<&str>) -> bool
    ensures { result ≡ fits way (option_map (λ text. text.now) value.entry) }
{
    match (way, value) {
        (Way::Alone, None) => true,
        (Way::Needed | Way::Valued, Some(value)) => !value.starts_with('-'),
        _ => false,
    }
}

/// Whether a command has the option.
fn is_of(command: &str, word: &str, value: Option<&str>) -> bool
    ensures { result ≡ is_of command.now (word.now, option_map (λ text. text.now) value.entry) }
{
    for (of, name, way) in options() {
        if *of == command && names(word, name) && fits(*way, value) {
            return true;
        }
    }
    false
}

/// Whether the words are options of a command, each at most once.
fn are_options(command: &str, options: &[String]) -> bool
    ensures { result ≡ are_options command.now (settings_of (map string_bytes options.now)) }
{
    let mut left = options;
    while let Some((name, value, rest)) = first_setting(left) {
        if !is_of(command, name, value) || is_given(name, rest) {
            return false;
        }
        left = rest;
    }
    true
}

/// Whether the words are a command, its argument, and its options, in normal form.
#[tactic(auto, unfolding(crate::specs::Options::is_normal))]
pub fn is_normal(words: &[String]) -> bool
    ensures { result ≡ is_normal (map string_bytes words.now) }
{
    let [command, argument, options @ ..] = words else {
        return false;
    };
    is_command(command.as_str())
        && !argument.starts_with('-')
        && are_options(command.as_str(), options)
}

/// The number of an option, from 0 to `high`; 0 where it is not given.
pub fn number_for(name: &str, high: u64, options: &[String]) -> Option<u64>
    ensures value { result ≡ number_for name.now high (settings_of (map string_bytes options.now)) }
    ensures within { IfSome result (λ number. number ≤ high) }
{
    match value_for(name, options) {
        None => Some(0),
        Some(value) => number_within(0, high, value),
    }
}
