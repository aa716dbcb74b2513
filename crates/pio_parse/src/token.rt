//! Tokens and their positions.

ghost use Rattle.std.specs.Prelude.{◌≡◌, ◌<◌, ◌^◌};

use source_text::SourcePosition;

/// A range of a file's bytes.
#[derive(Clone, Copy)]
pub struct Span {
    /// The first byte.
    pub start: u32,
    /// The byte behind the last one.
    pub end: u32,
}

/// The bytes from `start` up to `end`.
pub(crate) fn span_of(start: usize, end: usize) -> Span
    requires start { start < 2 ^ 32 }
    requires end { end < 2 ^ 32 }
    ensures { result ≡ record { start = start; end = end } }
{
    Span {
        start: start as u32,
        end: end as u32,
    }
}

/// A word of the language that names nothing else (RP2040 Datasheet, 3.3).
#[derive(Clone, Copy)]
pub enum Keyword {
    Public,
    Opt,
    Pindirs,
    Jmp,
    Wait,
    In,
    Out,
    Push,
    Pull,
    Mov,
    Irq,
    Set,
    Nop,
    Side,
    Gpio,
    Pin,
    Rel,
    Pins,
    X,
    Y,
    Null,
    Isr,
    Osr,
    Pc,
    Exec,
    Status,
    IfFull,
    IfEmpty,
    Block,
    NoBlock,
    NoWait,
    Clear,
    Osre,
}

/// A word that begins with a point (RP2040 Datasheet, 3.3, Directives).
#[derive(Clone, Copy)]
pub enum Directive {
    Program,
    Define,
    Origin,
    SideSet,
    WrapTarget,
    Wrap,
    Word,
    LangOpt,
    PioVersion,
}

/// What a token is.
#[derive(Clone, Copy)]
pub enum TokenKind {
    /// A name, by its position in the file.
    Name(Span),
    Keyword(Keyword),
    Directive(Directive),
    /// A number; one above 2^32 - 1 is kept as 2^32.
    Number(u64),
    /// A run of letters and digits that is none of these.
    Unfit,
    Comma,
    Colon,
    DoubleColon,
    OpenBracket,
    CloseBracket,
    OpenParenthesis,
    CloseParenthesis,
    Plus,
    Minus,
    Star,
    Bang,
    NotEqual,
    Tilde,
    LineEnd,
    FileEnd,
}

/// A token and the position of its first character.
#[derive(Clone, Copy)]
pub struct Token {
    pub kind: TokenKind,
    pub position: SourcePosition,
}
