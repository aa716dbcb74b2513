//! Commas that may be missing, and the operands behind them.

ghost use Rattle.std.specs.Prelude.{◌≡◌, Ok};
ghost use Rattle.pio_parse.specs.descent.Calls.{Reads};
ghost use Rattle.pio_parse.specs.Tokens.{head_kind};
ghost use Rattle.pio_parse.specs.descent.Instruction.{flag_at, is_rel, last_operand_at, past_comma};

use crate::cursor::{Stop, TokenCursor};
use crate::expression::{Expression, File, read_operand};
use crate::token::{Keyword, TokenKind};

/// Reads a comma that may stand or be missing.
pub(crate) fn skip_comma(cursor: &mut TokenCursor)
    ensures { cursor.new.rest.now ≡ past_comma cursor.old.rest.now }
{
    cursor.skip_if(matches!(cursor.peek(), TokenKind::Comma));
}

/// An operand after a comma that may be missing.
pub(crate) fn read_last_operand(file: &File, cursor: &mut TokenCursor) -> Result<Expression, Stop>
    ensures { Reads result cursor.new.rest.now
        (last_operand_at file.now.text.now cursor.old.rest.now) }
{
    skip_comma(cursor);
    read_operand(file, cursor)
}

/// `rel`, which may be written.
pub(crate) fn read_rel(cursor: &mut TokenCursor) -> bool
    ensures { flag_at (is_rel (head_kind cursor.old.rest.now)) cursor.old.rest.now
        ≡ Ok (result, cursor.new.rest.now) }
{
    let relative = matches!(cursor.peek(), TokenKind::Keyword(Keyword::Rel));
    cursor.skip_if(relative);
    relative
}
