//! Which token a run of letters, digits and signs is.

ghost use Rattle.std.specs.Prelude.{◌≡◌};
ghost use Rattle.pio_parse.specs.Words.{directive_kind_of, directive_name, directive_of, directives, keyword_name, keyword_of, keywords, name_kind_of, number_kind_of, number_of, same_word, word_kind};

use crate::token::{Directive, Keyword, Span, TokenKind};
use source_text::value_of_digits;

const KEYWORDS: [Keyword; 33] = [
    Keyword::Public,
    Keyword::Opt,
    Keyword::Pindirs,
    Keyword::Jmp,
    Keyword::Wait,
    Keyword::In,
    Keyword::Out,
    Keyword::Push,
    Keyword::Pull,
    Keyword::Mov,
    Keyword::Irq,
    Keyword::Set,
    Keyword::Nop,
    Keyword::Side,
    Keyword::Gpio,
    Keyword::Pin,
    Keyword::Rel,
    Keyword::Pins,
    Keyword::X,
    Keyword::Y,
    Keyword::Null,
    Keyword::Isr,
    Keyword::Osr,
    Keyword::Pc,
    Keyword::Exec,
    Keyword::Status,
    Keyword::IfFull,
    Keyword::IfEmpty,
    Keyword::Block,
    Keyword::NoBlock,
    Keyword::NoWait,
    Keyword::Clear,
    Keyword::Osre,
];

const DIRECTIVES: [Directive; 9] = [
    Directive::Program,
    Directive::Define,
    Directive::Origin,
    Directive::SideSet,
    Directive::WrapTarget,
    Directive::Wrap,
    Directive::Word,
    Directive::LangOpt,
    Directive::PioVersion,
];

/// The value that a number above 2^32 - 1 is kept as.
const TOO_LARGE: u64 = 4294967296;

fn keyword_text(keyword: Keyword) -> &'static [u8]
    ensures { result.now ≡ keyword_name keyword }
{
    match keyword {
        Keyword::Public => b"public",
        Keyword::Opt => b"opt",
        Keyword::Pindirs => b"pindirs",
        Keyword::Jmp => b"jmp",
        Keyword::Wait => b"wait",
        Keyword::In => b"in",
        Keyword::Out => b"out",
        Keyword::Push => b"push",
        Keyword::Pull => b"pull",
        Keyword::Mov => b"mov",
        Keyword::Irq => b"irq",
        Keyword::Set => b"set",
        Keyword::Nop => b"nop",
        Keyword::Side => b"side",
        Keyword::Gpio => b"gpio",
        Keyword::Pin => b"pin",
        Keyword::Rel => b"rel",
        Keyword::Pins => b"pins",
        Keyword::X => b"x",
        Keyword::Y => b"y",
        Keyword::Null => b"null",
        Keyword::Isr => b"isr",
        Keyword::Osr => b"osr",
        Keyword::Pc => b"pc",
        Keyword::Exec => b"exec",
        Keyword::Status => b"status",
        Keyword::IfFull => b"iffull",
        Keyword::IfEmpty => b"ifempty",
        Keyword::Block => b"block",
        Keyword::NoBlock => b"noblock",
        Keyword::NoWait => b"nowait",
        Keyword::Clear => b"clear",
        Keyword::Osre => b"osre",
    }
}

fn directive_text(directive: Directive) -> &'static [u8]
    ensures { result.now ≡ directive_name directive }
{
    match directive {
        Directive::Program => b"program",
        Directive::Define => b"define",
        Directive::Origin => b"origin",
        Directive::SideSet => b"side_set",
        Directive::WrapTarget => b"wrap_target",
        Directive::Wrap => b"wrap",
        Directive::Word => b"word",
        Directive::LangOpt => b"lang_opt",
        Directive::PioVersion => b"pio_version",
    }
}

/// Whether a word is this name, which has no upper-case letter, in any case.
fn is_same_word(name: &[u8], word: &[u8]) -> bool
    ensures { result ≡ same_word name.now word.now }
{
    match name {
        [] => word.is_empty(),
        [letter, name @ ..] => match word {
            [] => false,
            [byte, word @ ..] => {
                *letter == byte.to_ascii_lowercase() && is_same_word(name, word)
            }
        },
    }
}

fn find_keyword(word: &[u8]) -> Option<Keyword>
    ensures { result ≡ keyword_of word.now }
{
    KEYWORDS
        .iter()
        .copied()
        .find(|keyword| is_same_word(keyword_text(*keyword), word))
}

fn find_directive(word: &[u8]) -> Option<Directive>
    ensures { result ≡ directive_of word.now }
{
    DIRECTIVES
        .iter()
        .copied()
        .find(|directive| is_same_word(directive_text(*directive), word))
}

fn find_number(word: &[u8]) -> Option<u64>
    ensures { result ≡ number_of word.now }
{
    match word {
        [first, second, _, ..] => {
            if (*first == b'0') & (*second == b'x') {
                value_of_digits(16, TOO_LARGE, &word[2..])
            } else if (*first == b'0') & (*second == b'b') {
                value_of_digits(2, TOO_LARGE, &word[2..])
            } else {
                value_of_digits(10, TOO_LARGE, word)
            }
        }
        _ => value_of_digits(10, TOO_LARGE, word),
    }
}

fn directive_kind(name: &[u8]) -> TokenKind
    ensures { result ≡ directive_kind_of name.now }
{
    find_directive(name).map_or(TokenKind::Unfit, TokenKind::Directive)
}

fn number_kind(word: &[u8]) -> TokenKind
    ensures { result ≡ number_kind_of word.now }
{
    find_number(word).map_or(TokenKind::Unfit, TokenKind::Number)
}

fn name_kind(word: &[u8], span: Span) -> TokenKind
    ensures { result ≡ name_kind_of word.now span }
{
    find_keyword(word).map_or(TokenKind::Name(span), TokenKind::Keyword)
}

/// What a run of letters, digits and underscores is, perhaps with a point before it.
pub(crate) fn classify(word: &[u8], span: Span) -> TokenKind
    ensures { result ≡ word_kind word.now span }
{
    match word {
        [] => TokenKind::Name(span),
        [b'.', name @ ..] => directive_kind(name),
        [b'0'..=b'9', ..] => number_kind(word),
        _ => name_kind(word, span),
    }
}
