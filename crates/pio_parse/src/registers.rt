//! The registers that the operands of an instruction name.

ghost use Rattle.std.specs.Prelude.{◌≡◌};
ghost use Rattle.pio_parse.specs.descent.Calls.{Reads};
ghost use Rattle.pio_parse.specs.Registers.{in_source_of, mov_destination_of, mov_source_of, out_destination_of, set_destination_of};
ghost use Rattle.pio_parse.specs.descent.Instruction.{named_at};

use crate::cursor::{Stop, TokenCursor};
use crate::token::{Keyword, TokenKind};
use pio_words::{InSource, MovDestination, MovSource, OutDestination, SetDestination};

pub(crate) fn in_source(kind: TokenKind) -> Option<InSource>
    ensures { result ≡ in_source_of kind }
{
    match kind {
        TokenKind::Keyword(Keyword::Pins) => Some(InSource::Pins),
        TokenKind::Keyword(Keyword::X) => Some(InSource::X),
        TokenKind::Keyword(Keyword::Y) => Some(InSource::Y),
        TokenKind::Keyword(Keyword::Null) => Some(InSource::Null),
        TokenKind::Keyword(Keyword::Isr) => Some(InSource::Isr),
        TokenKind::Keyword(Keyword::Osr) => Some(InSource::Osr),
        _ => None,
    }
}

pub(crate) fn out_destination(kind: TokenKind) -> Option<OutDestination>
    ensures { result ≡ out_destination_of kind }
{
    match kind {
        TokenKind::Keyword(Keyword::Pins) => Some(OutDestination::Pins),
        TokenKind::Keyword(Keyword::X) => Some(OutDestination::X),
        TokenKind::Keyword(Keyword::Y) => Some(OutDestination::Y),
        TokenKind::Keyword(Keyword::Null) => Some(OutDestination::Null),
        TokenKind::Keyword(Keyword::Pindirs) => Some(OutDestination::Pindirs),
        TokenKind::Keyword(Keyword::Pc) => Some(OutDestination::Pc),
        TokenKind::Keyword(Keyword::Isr) => Some(OutDestination::Isr),
        TokenKind::Keyword(Keyword::Exec) => Some(OutDestination::Exec),
        _ => None,
    }
}

pub(crate) fn mov_destination(kind: TokenKind) -> Option<MovDestination>
    ensures { result ≡ mov_destination_of kind }
{
    match kind {
        TokenKind::Keyword(Keyword::Pins) => Some(MovDestination::Pins),
        TokenKind::Keyword(Keyword::X) => Some(MovDestination::X),
        TokenKind::Keyword(Keyword::Y) => Some(MovDestination::Y),
        TokenKind::Keyword(Keyword::Exec) => Some(MovDestination::Exec),
        TokenKind::Keyword(Keyword::Pc) => Some(MovDestination::Pc),
        TokenKind::Keyword(Keyword::Isr) => Some(MovDestination::Isr),
        TokenKind::Keyword(Keyword::Osr) => Some(MovDestination::Osr),
        _ => None,
    }
}

pub(crate) fn mov_source(kind: TokenKind) -> Option<MovSource>
    ensures { result ≡ mov_source_of kind }
{
    match kind {
        TokenKind::Keyword(Keyword::Pins) => Some(MovSource::Pins),
        TokenKind::Keyword(Keyword::X) => Some(MovSource::X),
        TokenKind::Keyword(Keyword::Y) => Some(MovSource::Y),
        TokenKind::Keyword(Keyword::Null) => Some(MovSource::Null),
        TokenKind::Keyword(Keyword::Status) => Some(MovSource::Status),
        TokenKind::Keyword(Keyword::Isr) => Some(MovSource::Isr),
        TokenKind::Keyword(Keyword::Osr) => Some(MovSource::Osr),
        _ => None,
    }
}

pub(crate) fn set_destination(kind: TokenKind) -> Option<SetDestination>
    ensures { result ≡ set_destination_of kind }
{
    match kind {
        TokenKind::Keyword(Keyword::Pins) => Some(SetDestination::Pins),
        TokenKind::Keyword(Keyword::X) => Some(SetDestination::X),
        TokenKind::Keyword(Keyword::Y) => Some(SetDestination::Y),
        TokenKind::Keyword(Keyword::Pindirs) => Some(SetDestination::Pindirs),
        _ => None,
    }
}

/// A word that has to name one of an instruction's registers.
pub(crate) fn read_named<T: Copy>(cursor: &mut TokenCursor, named: Option<T>) -> Result<T, Stop>
    ensures { Reads result cursor.new.rest.now (named_at named cursor.old.rest.now) }
{
    match named {
        Some(value) => {
            cursor.skip();
            Ok(value)
        }
        None => Err(cursor.fault()),
    }
}
