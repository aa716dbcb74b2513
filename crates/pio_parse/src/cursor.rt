//! The tokens of a line that are not read yet, and why a line is not read to its end.

ghost use Rattle.std.specs.Prelude.{◌≡◌, if◌then◌else◌};
ghost use Rattle.pio_parse.specs.descent.Calls.{Reads};
ghost use Rattle.pio_parse.specs.descent.Cursor.{after_head, expected};
ghost use Rattle.pio_parse.specs.Tokens.{head_kind, head_position};
ghost use Rattle.pio_parse.specs.declared.cursor.Stop.TheVariants.{Memory};

use crate::token::{Token, TokenKind};
use source_text::SourcePosition;
use std::alloc::{AllocError, AllocFailed};

/// Why a line is not read to its end.
#[derive(Drop)]
pub(crate) enum Stop {
    /// The token at this position fits nothing.
    Syntax(SourcePosition),
    /// Memory ran out.
    Memory,
}

impl From<AllocError> for Stop {
    ghost from_gives = { λ _ stop. stop ≡ Memory };

    fn from(_error: AllocError) -> Stop {
        Stop::Memory
    }
}

impl<T: Drop> From<AllocFailed<T>> for Stop {
    ghost from_gives = { λ _ stop. stop ≡ Memory };

    fn from(_error: AllocFailed<T>) -> Stop {
        Stop::Memory
    }
}

/// The tokens of a line that have not been read.
#[derive(Drop)]
pub(crate) struct TokenCursor<'a> {
    pub(crate) rest: &'a [Token],
}

impl TokenCursor<'_> {
    /// What the next token is.
    pub(crate) fn peek(&self) -> TokenKind
        ensures { result ≡ head_kind self.now.rest.now }
    {
        match self.rest {
            [] => TokenKind::FileEnd,
            [token, ..] => token.kind,
        }
    }

    /// Where the next token stands.
    pub(crate) fn position(&self) -> SourcePosition
        ensures { result ≡ head_position self.now.rest.now }
    {
        match self.rest {
            [] => SourcePosition { line: 0, column: 0 },
            [token, ..] => token.position,
        }
    }

    /// Reads one token.
    pub(crate) fn skip(&mut self)
        ensures { self.new.rest.now ≡ after_head self.old.rest.now }
    {
        if let [_, rest @ ..] = self.rest {
            self.rest = rest;
        }
    }

    /// The next token fits nothing.
    pub(crate) fn fault(&self) -> Stop
        ensures { result ≡ Stop.Syntax (head_position self.now.rest.now) }
    {
        Stop::Syntax(self.position())
    }

    /// Reads one token, which has to fit.
    pub(crate) fn expect(&mut self, fits: bool) -> Result<(), Stop>
        ensures { Reads result self.new.rest.now (expected fits self.old.rest.now) }
    {
        if fits {
            self.skip();
            Ok(())
        } else {
            Err(self.fault())
        }
    }

    /// Reads one token if it fits.
    pub(crate) fn skip_if(&mut self, fits: bool)
        ensures { self.new.rest.now ≡ (if fits then after_head self.old.rest.now
            else self.old.rest.now) }
    {
        if fits {
            self.skip();
        }
    }
}
