//! The tokens of a line.

ghost use Rattle.std.specs.Prelude.{◌≡◌, ◌≤◌, ◌<◌, ◌+◌, ◌++◌, length, drop, OnOk, MatchResult, ⊤};
ghost use Rattle.std.specs.List.{list_all};
ghost use Rattle.thumb_parse.specs.Tokens.{begins_with_digit, begins_word, code_part, is_allowed, sign_of};
ghost use Rattle.thumb_parse.specs.descent.Tokens.{sign_tokens, tokens_from, tokens_of, word_tokens};

use crate::token::Token;
use crate::words::word_token;
use source_text::{find, is_word_byte};
use std::alloc::AllocError;

/// The part of a line before its comment.
pub fn code_part(line: &[u8]) -> &[u8]
    ensures { result.now ≡ code_part line.now }
{
    match find(line, b';') {
        Some(end) => &line[..end],
        None => line,
    }
}

fn sign(byte: u8) -> Option<Token>
    ensures { result ≡ sign_of byte }
{
    match byte {
        b',' => Some(Token::Comma),
        b':' => Some(Token::Colon),
        b'#' => Some(Token::Hash),
        b'[' => Some(Token::OpenBracket),
        b']' => Some(Token::CloseBracket),
        b'{' => Some(Token::OpenBrace),
        b'}' => Some(Token::CloseBrace),
        b'!' => Some(Token::Bang),
        b'+' => Some(Token::Plus),
        b'-' => Some(Token::Minus),
        _ => None,
    }
}

fn is_allowed(byte: u8) -> bool
    ensures { result ≡ is_allowed byte }
{
    is_word_byte(byte)
        || sign(byte).is_some()
        || byte == b' '
        || byte == b'\t'
        || byte == b'\r'
        || byte == b'.'
}

/// Whether each byte before the comment of a line may stand there.
pub fn are_allowed(code: &[u8]) -> bool
    ensures { result ≡ list_all is_allowed code.now }
{
    code.iter().all(|byte| is_allowed(*byte))
}

fn begins_with_digit(bytes: &[u8]) -> bool
    ensures { result ≡ begins_with_digit bytes.now }
{
    match bytes {
        [] => false,
        [first, ..] => first.is_ascii_digit(),
    }
}

/// Whether a byte begins a word, where it does not go on with one and these bytes follow it.
fn begins_word(byte: u8, after: &[u8]) -> bool
    ensures { result ≡ begins_word byte after.now }
{
    byte == b'.' || (byte == b'-' && begins_with_digit(after))
}

/// Appends the word between two places of a line, if there is one.
fn push_word(
    line: &[u8],
    start: usize,
    end: usize,
    tokens: &mut Vec<Token>,
) -> Result<(), AllocError>
    requires order { start ≤ end }
    requires within { end ≤ length line.now }
    ensures { OnOk result (tokens.new.items ≡ tokens.old.items ++ word_tokens line.now start end) }
{
    if start < end {
        tokens.push(word_token(start, &line[start..end]))?;
    }
    Ok(())
}

fn push_sign(byte: u8, tokens: &mut Vec<Token>) -> Result<(), AllocError>
    ensures { OnOk result (tokens.new.items ≡ tokens.old.items ++ sign_tokens byte) }
{
    if let Some(token) = sign(byte) {
        tokens.push(token)?;
    }
    Ok(())
}

/// Reads the byte at a place of a line, where a word may have begun at `start`, and gives where the next word may begin.
#[tactic(auto, using(std::proofs::lemmas::List::take_rest, crate::proofs::Scanning::read_begin, crate::proofs::Scanning::read_sign, crate::proofs::Scanning::read_word))]
fn read_byte(
    line: &[u8],
    start: usize,
    at: usize,
    tokens: &mut Vec<Token>,
) -> Result<usize, AllocError>
    requires order { start ≤ at }
    requires within { at < length line.now }
    ensures tokens { MatchResult result (λ next. tokens.old.items
        ++ tokens_from line.now start at (drop at line.now)
        ≡ tokens.new.items ++ tokens_from line.now next (at + 1) (drop (at + 1) line.now)) (λ _. ⊤) }
    ensures order { MatchResult result (λ next. next ≤ at + 1) (λ _. ⊤) }
{
    let byte = line[at];
    if is_word_byte(byte) {
        return Ok(start);
    }
    push_word(line, start, at, tokens)?;
    if begins_word(byte, &line[at + 1..]) {
        return Ok(at);
    }
    push_sign(byte, tokens)?;
    Ok(at + 1)
}

/// The tokens of a line, in place of those that were there.
#[tactic(auto, using(crate::proofs::Scanning::tokens_start, crate::proofs::Scanning::tokens_end))]
pub(crate) fn read_tokens(line: &[u8], tokens: &mut Vec<Token>) -> Result<(), AllocError>
    ensures { OnOk result (tokens.new.items ≡ tokens_of line.now) }
{
    tokens.clear();
    let mut start = 0;
    for at in 0..line.len() {
        start = read_byte(line, start, at, tokens)?;
    }
    push_word(line, start, line.len(), tokens)
}
