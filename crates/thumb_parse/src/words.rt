//! Which token a word is.

ghost use Rattle.std.specs.Prelude.{◌≡◌};
ghost use Rattle.thumb_parse.specs.Words.{digits_of, directive_token, name_token, register_of, word_token};

use crate::mnemonic::find_mnemonic;
use crate::token::{Number, Span, Token};
use source_text::number_of;

/// How many digits a number may have.
const MOST_DIGITS: usize = 10;

/// The register that a word names.
fn register(word: &[u8]) -> Option<u8>
    ensures { result ≡ register_of word.now }
{
    match word {
        [b'r', digit @ b'0'..=b'9'] => Some(*digit - b'0'),
        [b's', b'p'] => Some(13),
        [b'l', b'r'] => Some(14),
        [b'p', b'c'] => Some(15),
        [b'r', b'1', digit @ b'0'..=b'5'] => Some(10 + (*digit - b'0')),
        _ => None,
    }
}

/// The number of a word without its sign.
fn digits_of(word: &[u8]) -> Option<u64>
    ensures { result ≡ digits_of word.now }
{
    match word {
        [first, second, digits @ ..] => {
            if *first == b'0' && *second == b'x' {
                number_of(16, MOST_DIGITS, digits)
            } else {
                number_of(10, MOST_DIGITS, word)
            }
        }
        _ => number_of(10, MOST_DIGITS, word),
    }
}

/// A word that begins with a letter or `_`.
fn name_token(start: usize, word: &[u8]) -> Token
    ensures { result ≡ name_token start word.now }
{
    if let Some(number) = register(word) {
        return Token::Register(number);
    }
    match find_mnemonic(word) {
        Some(mnemonic) => Token::Mnemonic(mnemonic),
        None => Token::Name(Span {
            start,
            count: word.len(),
        }),
    }
}

/// A word that begins with a point.
fn directive_token(word: &[u8]) -> Token
    ensures { result ≡ directive_token word.now }
{
    match find_mnemonic(word) {
        Some(directive) => Token::Mnemonic(directive),
        None => Token::Unfit,
    }
}

/// The token of a word that begins at this place of its line.
pub(crate) fn word_token(start: usize, word: &[u8]) -> Token
    ensures { result ≡ word_token start word.now }
{
    let [first, rest @ ..] = word else {
        return Token::Unfit;
    };
    if *first == b'-' {
        match digits_of(rest) {
            Some(down) => Token::Number(Number { up: 0, down }),
            None => Token::Unfit,
        }
    } else if *first == b'.' {
        directive_token(word)
    } else if first.is_ascii_digit() {
        match digits_of(word) {
            Some(up) => Token::Number(Number { up, down: 0 }),
            None => Token::Unfit,
        }
    } else {
        name_token(start, word)
    }
}
