//! The operands of an item, read from the tokens after its mnemonic.

ghost use Rattle.std.specs.Prelude.{◌≡◌, ◌≤◌, ◌+◌, ◌-◌};
ghost use Rattle.thumb_parse.specs.descent.Operands.{after_comma, after_register, after_second, index_of, list_from, list_of, list_step, list_whole, no_registers, operands_of, with_range, with_register, with_registers};
ghost use Rattle.thumb_parse.specs.Lists.{range_of, register_bit};

use crate::token::{Number, Span, Token};

/// The registers of a list.
#[derive(Clone, Copy)]
pub(crate) struct RegisterList {
    /// Bit k for register k.
    pub(crate) mask: u16,
    /// The least register that may follow.
    pub(crate) next: u64,
    /// Whether the list ascends.
    pub(crate) ascends: bool,
}

/// The operands of an item, by their shape.
#[derive(Clone, Copy)]
pub(crate) enum Operands {
    /// Nothing.
    Empty,
    /// `k`.
    Number(Number),
    /// `name`.
    Name(Span),
    /// `name+k`.
    NamePlus(Span, Number),
    /// `#k`.
    Immediate(Number),
    /// `#k, m`.
    ImmediateRegister(Number, u8),
    /// `m`.
    Register(u8),
    /// `d, m`.
    TwoRegisters(u8, u8),
    /// `d, n, m`.
    ThreeRegisters(u8, u8, u8),
    /// `d, #k`.
    RegisterImmediate(u8, Number),
    /// `d, n, #k`.
    RegistersImmediate(u8, u8, Number),
    /// `t, name`.
    RegisterName(u8, Span),
    /// `t, [n, m]`.
    IndexRegister(u8, u8, u8),
    /// `t, [n, #k]`.
    IndexImmediate(u8, u8, Number),
    /// `{list}`.
    List(RegisterList),
    /// `n!, {list}`.
    WriteBack(u8, RegisterList),
    /// `n, {list}`.
    RegisterAndList(u8, RegisterList),
}

/// What stands in a list up to a token of it.
#[derive(Clone, Copy)]
enum ListPart {
    /// A register has to follow.
    Open(RegisterList),
    /// A register, which may begin a range.
    One(RegisterList, u8),
    /// A register and `-`.
    To(RegisterList, u8),
    /// A whole range.
    Range(RegisterList),
    /// The list is closed.
    Closed(RegisterList),
    /// No list begins so.
    Misfit,
}

/// The bit of a register in a list.
pub(crate) fn register_bit(register: u8) -> u16
    ensures { result ≡ register_bit register }
{
    match register {
        0 => 1,
        1 => 2,
        2 => 4,
        3 => 8,
        4 => 0x10,
        5 => 0x20,
        6 => 0x40,
        7 => 0x80,
        8 => 0x100,
        9 => 0x200,
        10 => 0x400,
        11 => 0x800,
        12 => 0x1000,
        13 => 0x2000,
        14 => 0x4000,
        15 => 0x8000,
        _ => 0,
    }
}

impl RegisterList {
    ghost use Rattle.std.specs.Prelude.{◌≡◌};
    ghost use Rattle.thumb_parse.specs.descent.Operands.{no_registers, with_range, with_register};

    fn new() -> RegisterList
        ensures { result ≡ no_registers }
    {
        RegisterList {
            mask: 0,
            next: 0,
            ascends: true,
        }
    }

    /// One more register.
    fn with_register(self, register: u8) -> RegisterList
        ensures { result ≡ with_register self register }
    {
        RegisterList {
            mask: self.mask | register_bit(register),
            next: u64::from(register) + 1,
            ascends: self.ascends && self.next <= u64::from(register),
        }
    }

    /// The registers from `first` to `last`, or these two where `last` is below `first`.
    #[tactic(auto, using(crate::proofs::Lists::range_down, crate::proofs::Lists::range_up, crate::proofs::Lists::registers_more, crate::proofs::Lists::registers_none))]
    fn with_range(self, first: u8, last: u8) -> RegisterList
        ensures { result ≡ with_range self first last }
    {
        let mut list = self.with_register(first);
        if last < first {
            return list.with_register(last);
        }
        for register in first..last {
            list = list.with_register(register + 1);
        }
        list
    }
}

/// What stands in a list with one token more.
#[tactic(auto, unfolding(crate::specs::descent::Operands::list_step))]
fn list_step(part: ListPart, token: Token) -> ListPart
    ensures { result ≡ list_step part token }
{
    match part {
        ListPart::Open(list) => match token {
            Token::Register(first) => ListPart::One(list, first),
            _ => ListPart::Misfit,
        },
        ListPart::One(list, first) => match token {
            Token::Comma => ListPart::Open(list.with_register(first)),
            Token::CloseBrace => ListPart::Closed(list.with_register(first)),
            Token::Minus => ListPart::To(list, first),
            _ => ListPart::Misfit,
        },
        ListPart::To(list, first) => match token {
            Token::Register(last) => ListPart::Range(list.with_range(first, last)),
            _ => ListPart::Misfit,
        },
        ListPart::Range(list) => match token {
            Token::Comma => ListPart::Open(list),
            Token::CloseBrace => ListPart::Closed(list),
            _ => ListPart::Misfit,
        },
        ListPart::Closed(_) | ListPart::Misfit => ListPart::Misfit,
    }
}

/// The list of these tokens, which follow `{`.
fn list_of(tokens: &[Token]) -> Option<RegisterList>
    ensures { result ≡ list_of tokens.now }
{
    let mut part = ListPart::Open(RegisterList::new());
    for token in tokens {
        part = list_step(part, *token);
    }
    match part {
        ListPart::Closed(list) => Some(list),
        _ => None,
    }
}

/// The operands `t, [n,` and what follows.
fn index_of(t: u8, n: u8, tokens: &[Token]) -> Option<Operands>
    ensures { result ≡ index_of t n tokens.now }
{
    match tokens {
        [Token::Register(m), Token::CloseBracket] => Some(Operands::IndexRegister(t, n, *m)),
        [Token::Hash, Token::Number(k), Token::CloseBracket] => {
            Some(Operands::IndexImmediate(t, n, *k))
        }
        _ => None,
    }
}

/// The operands `d, m` and what follows.
fn after_second(d: u8, m: u8, tokens: &[Token]) -> Option<Operands>
    ensures { result ≡ after_second d m tokens.now }
{
    match tokens {
        [] => Some(Operands::TwoRegisters(d, m)),
        [Token::Comma, Token::Register(last)] => Some(Operands::ThreeRegisters(d, m, *last)),
        [Token::Comma, Token::Hash, Token::Number(k)] => {
            Some(Operands::RegistersImmediate(d, m, *k))
        }
        _ => None,
    }
}

/// The operands `d,` and what follows.
fn after_comma(d: u8, tokens: &[Token]) -> Option<Operands>
    ensures { result ≡ after_comma d tokens.now }
{
    match tokens {
        [Token::Register(m), rest @ ..] => after_second(d, *m, rest),
        [Token::Hash, Token::Number(k)] => Some(Operands::RegisterImmediate(d, *k)),
        [Token::Name(name)] => Some(Operands::RegisterName(d, *name)),
        [
            Token::OpenBracket,
            Token::Register(n),
            Token::Comma,
            rest @ ..,
        ] => index_of(d, *n, rest),
        [Token::OpenBrace, rest @ ..] => {
            list_of(rest).map(|list| Operands::RegisterAndList(d, list))
        }
        _ => None,
    }
}

/// The operands that begin with a register, and what follows it.
fn after_register(d: u8, tokens: &[Token]) -> Option<Operands>
    ensures { result ≡ after_register d tokens.now }
{
    match tokens {
        [] => Some(Operands::Register(d)),
        [Token::Comma, rest @ ..] => after_comma(d, rest),
        [Token::Bang, Token::Comma, Token::OpenBrace, rest @ ..] => {
            list_of(rest).map(|list| Operands::WriteBack(d, list))
        }
        _ => None,
    }
}

/// The operands of an item.
#[tactic(auto, unfolding(crate::specs::descent::Operands::operands_of))]
pub(crate) fn operands_of(tokens: &[Token]) -> Option<Operands>
    ensures { result ≡ operands_of tokens.now }
{
    match tokens {
        [] => Some(Operands::Empty),
        [Token::Register(d), rest @ ..] => after_register(*d, rest),
        [Token::Number(k)] => Some(Operands::Number(*k)),
        [Token::Name(name)] => Some(Operands::Name(*name)),
        [Token::Name(name), Token::Plus, Token::Number(k)] => Some(Operands::NamePlus(*name, *k)),
        [Token::Hash, Token::Number(k)] => Some(Operands::Immediate(*k)),
        [
            Token::Hash,
            Token::Number(k),
            Token::Comma,
            Token::Register(m),
        ] => { Some(Operands::ImmediateRegister(*k, *m)) }
        [Token::OpenBrace, rest @ ..] => list_of(rest).map(Operands::List),
        _ => None,
    }
}
