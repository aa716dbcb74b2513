//! The tokens of a line.

use crate::mnemonic::Mnemonic;

/// Where a name stands in its line.
#[derive(Clone, Copy)]
pub struct Span {
    /// The place of its first byte.
    pub start: usize,
    /// How many bytes it has.
    pub count: usize,
}

/// A number of a source: `up - down`, of which one is 0.
#[derive(Clone, Copy)]
pub struct Number {
    pub up: u64,
    pub down: u64,
}

/// A token of a line.
#[derive(Clone, Copy)]
pub enum Token {
    /// A word that is no register and no mnemonic.
    Name(Span),
    /// A register, 0 to 15.
    Register(u8),
    /// A mnemonic or a directive.
    Mnemonic(Mnemonic),
    Number(Number),
    Comma,
    Colon,
    Hash,
    OpenBracket,
    CloseBracket,
    OpenBrace,
    CloseBrace,
    Bang,
    Plus,
    Minus,
    /// What fits no form: a `.` alone, another directive, a word that begins with a digit and is no number.
    Unfit,
}
