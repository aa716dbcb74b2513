//! From characters to tokens.

ghost use Rattle.std.specs.Prelude.{◌≡◌, ◌≤◌, ◌<◌, ◌+◌, ◌-◌, ◌^◌, ◌++◌, length, IfOk, IfErr, OnOk, Ok, option_to_list};
ghost use Rattle.pio_parse.specs.descent.Scan.{begins, ends, finishes, IsCharFault, IsStarted, without_token, scanned, sign_of, single_token, skips, steps, word_ends};

use crate::fault::PioFault;
use crate::token::{Directive, Token, TokenKind, span_of};
use crate::words::classify;
use source_text::{SourcePosition, is_word_byte, position_after};
use std::alloc::Global;

/// What the characters so far have begun.
#[derive(Clone, Copy)]
pub(crate) enum Mode {
    /// Nothing.
    Between,
    /// A word that started at this byte and position.
    Word(usize, SourcePosition),
    /// A colon, which may be the first of two.
    Colon(SourcePosition),
    /// A `!`, which `=` may follow.
    Bang(SourcePosition),
    /// A `/`, which must begin a comment.
    Slash(SourcePosition),
    /// The rest of a line that is not read.
    LineComment,
    /// A `/*` comment, and whether its last character is a `*`.
    BlockComment(SourcePosition, bool),
    /// The first line of a code block, and whether it has a word.
    Header(SourcePosition, bool),
    /// A code block, and whether its last character is a `%`.
    Code(SourcePosition, bool),
}

/// What a character does: a mode, after at most two tokens that it ends.
#[derive(Clone, Copy)]
pub(crate) struct Step {
    pub(crate) mode: Mode,
    pub(crate) first: Option<Token>,
    pub(crate) second: Option<Token>,
}

fn no_token(mode: Mode) -> Result<Step, SourcePosition>
    ensures { result ≡ Ok (without_token mode) }
{
    Ok(Step {
        mode,
        first: None,
        second: None,
    })
}

fn token(kind: TokenKind, position: SourcePosition) -> Token
    ensures { result ≡ record { kind = kind; position = position } }
{
    Token { kind, position }
}

fn single(kind: TokenKind, position: SourcePosition) -> Result<Step, SourcePosition>
    ensures { result ≡ Ok (single_token kind position) }
{
    Ok(Step {
        mode: Mode::Between,
        first: None,
        second: Some(Token { kind, position }),
    })
}

/// A character that stands between tokens.
fn begin(index: usize, byte: u8, position: SourcePosition) -> Result<Step, SourcePosition>
    ensures value { result ≡ begins index byte position }
    ensures started { IfOk result (λ s. IsStarted s.mode (index + 1)) }
{
    match byte {
        b' ' | b'\t' | b'\r' => no_token(Mode::Between),
        b'\n' => single(TokenKind::LineEnd, position),
        b':' => no_token(Mode::Colon(position)),
        b'!' => no_token(Mode::Bang(position)),
        b'/' => no_token(Mode::Slash(position)),
        b';' => no_token(Mode::LineComment),
        b'%' => no_token(Mode::Header(position, false)),
        b'.' => no_token(Mode::Word(index, position)),
        _ => match sign(byte) {
            Some(kind) => single(kind, position),
            None if is_word_byte(byte) => no_token(Mode::Word(index, position)),
            None => Err(position),
        },
    }
}

fn sign(byte: u8) -> Option<TokenKind>
    ensures { result ≡ sign_of byte }
{
    match byte {
        b',' => Some(TokenKind::Comma),
        b'[' => Some(TokenKind::OpenBracket),
        b']' => Some(TokenKind::CloseBracket),
        b'(' => Some(TokenKind::OpenParenthesis),
        b')' => Some(TokenKind::CloseParenthesis),
        b'+' => Some(TokenKind::Plus),
        b'-' => Some(TokenKind::Minus),
        b'*' => Some(TokenKind::Star),
        b'~' => Some(TokenKind::Tilde),
        _ => None,
    }
}

/// A token ends before this character, which then stands between tokens.
fn end(
    token: Token,
    index: usize,
    byte: u8,
    position: SourcePosition,
) -> Result<Step, SourcePosition>
    ensures value { result ≡ ends token index byte position }
    ensures started { IfOk result (λ s. IsStarted s.mode (index + 1)) }
{
    let step = begin(index, byte, position)?;
    Ok(Step {
        mode: step.mode,
        first: Some(token),
        second: step.second,
    })
}

/// A word ends before this character. After `.lang_opt` the rest of the line is not read.
fn end_word(
    word: &[u8],
    start: usize,
    begun: SourcePosition,
    byte: u8,
    index: usize,
    position: SourcePosition,
) -> Result<Step, SourcePosition>
    requires begun { start ≤ index }
    requires short { index < 2 ^ 32 }
    ensures value { result ≡ word_ends word.now start begun byte index position }
    ensures started { IfOk result (λ s. IsStarted s.mode (index + 1)) }
{
    let kind = classify(word, span_of(start, index));
    match kind {
        TokenKind::Directive(Directive::LangOpt) if byte != b'\n' => Ok(Step {
            mode: Mode::LineComment,
            first: Some(token(kind, begun)),
            second: None,
        }),
        _ => end(token(kind, begun), index, byte, position),
    }
}

/// What the character at `index` does in this mode.
fn advance(
    text: &[u8],
    index: usize,
    mode: Mode,
    byte: u8,
    position: SourcePosition,
) -> Result<Step, SourcePosition>
    requires inside { index ≤ length text.now }
    requires short { length text.now < 2 ^ 32 }
    requires started { IsStarted mode index }
    ensures value { result ≡ steps text.now index mode byte position }
    ensures started { IfOk result (λ s. IsStarted s.mode (index + 1)) }
{
    match mode {
        Mode::Between => begin(index, byte, position),
        Mode::Word(_, _) if is_word_byte(byte) => no_token(mode),
        Mode::Word(start, begun) => {
            end_word(&text[start..index], start, begun, byte, index, position)
        }
        Mode::Colon(begun) if byte == b':' => single(TokenKind::DoubleColon, begun),
        Mode::Colon(begun) => end(token(TokenKind::Colon, begun), index, byte, position),
        Mode::Bang(begun) if byte == b'=' => single(TokenKind::NotEqual, begun),
        Mode::Bang(begun) => end(token(TokenKind::Bang, begun), index, byte, position),
        _ => skip(index, mode, byte, position),
    }
}

/// What a character does in a comment, in a code block and after a `/`.
fn skip(
    index: usize,
    mode: Mode,
    byte: u8,
    position: SourcePosition,
) -> Result<Step, SourcePosition>
    ensures value { result ≡ skips mode byte position }
    ensures started { IfOk result (λ s. IsStarted s.mode (index + 1)) }
{
    match mode {
        Mode::Slash(begun) => match byte {
            b'/' => no_token(Mode::LineComment),
            b'*' => no_token(Mode::BlockComment(begun, false)),
            _ => Err(begun),
        },
        Mode::BlockComment(_, star) if star && byte == b'/' => no_token(Mode::Between),
        Mode::BlockComment(begun, _) => no_token(Mode::BlockComment(begun, byte == b'*')),
        Mode::Header(begun, named) => match byte {
            b'{' if named => no_token(Mode::Code(begun, false)),
            b'{' | b'%' | b'\n' => Err(begun),
            _ => no_token(Mode::Header(begun, named || byte != b' ')),
        },
        Mode::Code(_, percent) if percent && byte == b'}' => no_token(Mode::Between),
        Mode::Code(begun, _) => no_token(Mode::Code(begun, byte == b'%')),
        _ if byte == b'\n' => single(TokenKind::LineEnd, position),
        _ => no_token(Mode::LineComment),
    }
}

/// What the end of the file does: the last token, if one ends there.
fn finish(text: &[u8], mode: Mode) -> Result<Option<Token>, SourcePosition>
    requires short { length text.now < 2 ^ 32 }
    requires started { IsStarted mode (length text.now) }
    ensures { result ≡ finishes text.now mode }
{
    match mode {
        Mode::Between | Mode::LineComment => Ok(None),
        Mode::Word(start, begun) => {
            let kind = classify(&text[start..], span_of(start, text.len()));
            Ok(Some(token(kind, begun)))
        }
        Mode::Colon(begun) => Ok(Some(token(TokenKind::Colon, begun))),
        Mode::Bang(begun) => Ok(Some(token(TokenKind::Bang, begun))),
        Mode::Slash(begun)
        | Mode::BlockComment(begun, _)
        | Mode::Header(begun, _)
        | Mode::Code(begun, _) => Err(begun),
    }
}

/// The fault of a character that has no meaning at this position.
fn char_fault(position: SourcePosition) -> PioFault
    ensures { result ≡ PioFault.Char position.line position.column }
{
    PioFault::Char(u64::from(position.line), u64::from(position.column))
}

fn add(tokens: &mut Vec<Token>, token: Option<Token>) -> Result<(), PioFault>
    ensures ok { OnOk result (tokens.new.items ≡ tokens.old.items ++ option_to_list token) }
    ensures err { IfErr result (λ fault. fault ≡ PioFault.Memory) }
{
    if let Some(token) = token {
        tokens.push(token).map_err(|_| PioFault::Memory)?;
    }
    Ok(())
}

/// A position has 32 bits for its line and its column. There is no memory for the tokens of a longer file.
const LONGEST: usize = 0xffff_fff0;

/// The tokens of a file, the last of which is its end.
pub(crate) fn scan(alloc: Global, text: &[u8]) -> Result<Vec<Token>, PioFault>
    ensures ok { IfOk result (λ tokens. scanned text.now ≡ Ok tokens.items) }
    ensures err { IfErr result (IsCharFault (scanned text.now)) }
{
    if text.len() > LONGEST {
        return Err(PioFault::Memory);
    }
    let mut tokens = Vec::new(alloc);
    let mut mode = Mode::Between;
    let mut here = SourcePosition { line: 1, column: 1 };
    let mut after = here;
    for (index, byte) in text.iter().enumerate() {
        let done = match advance(text, index, mode, *byte, here) {
            Ok(done) => done,
            Err(position) => return Err(char_fault(position)),
        };
        add(&mut tokens, done.first)?;
        add(&mut tokens, done.second)?;
        mode = done.mode;
        after = SourcePosition {
            line: here.line,
            column: here.column + 1,
        };
        here = position_after(*byte, here);
    }
    match finish(text, mode) {
        Ok(last) => add(&mut tokens, last)?,
        Err(position) => return Err(char_fault(position)),
    }
    add(
        &mut tokens,
        Some(Token {
            kind: TokenKind::FileEnd,
            position: after,
        }),
    )?;
    Ok(tokens)
}
