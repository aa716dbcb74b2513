//! The operands of `jmp`.

ghost use Rattle.std.specs.Prelude.{◌≡◌, Ok};
ghost use Rattle.pio_parse.specs.descent.Calls.{Reads};
ghost use Rattle.pio_parse.specs.descent.Instruction.{conditional_at, decrement_at, jmp_at, jmp_condition_at, not_condition_at, x_condition_at};

use crate::cursor::{Stop, TokenCursor};
use crate::expression::{File, read_operand};
use crate::operands::skip_comma;
use crate::syntax::Operation;
use crate::token::{Keyword, TokenKind};
use pio_words::JmpCondition;

/// A condition, after which a comma may stand.
fn conditional(condition: JmpCondition, cursor: &mut TokenCursor) -> JmpCondition
    ensures { conditional_at condition cursor.old.rest.now ≡ Ok (result, cursor.new.rest.now) }
{
    skip_comma(cursor);
    condition
}

/// `--`, whose signs have to stand together.
fn read_decrement(condition: JmpCondition, cursor: &mut TokenCursor) -> Result<JmpCondition, Stop>
    ensures { Reads result cursor.new.rest.now (decrement_at condition cursor.old.rest.now) }
{
    let first = cursor.position();
    cursor.expect(matches!(cursor.peek(), TokenKind::Minus))?;
    let second = cursor.position();
    let together = first.line == second.line && second.column.saturating_sub(1) == first.column;
    cursor.expect(together && matches!(cursor.peek(), TokenKind::Minus))?;
    Ok(conditional(condition, cursor))
}

/// What follows `x` of `jmp`: `--` or `!=y`.
fn read_x_condition(cursor: &mut TokenCursor) -> Result<JmpCondition, Stop>
    ensures { Reads result cursor.new.rest.now (x_condition_at cursor.old.rest.now) }
{
    if matches!(cursor.peek(), TokenKind::NotEqual) {
        cursor.skip();
        cursor.expect(matches!(cursor.peek(), TokenKind::Keyword(Keyword::Y)))?;
        Ok(conditional(JmpCondition::XNotY, cursor))
    } else {
        read_decrement(JmpCondition::XDecrement, cursor)
    }
}

/// What follows `!` of `jmp`: `x`, `y` or `osre`.
fn read_not_condition(cursor: &mut TokenCursor) -> Result<JmpCondition, Stop>
    ensures { Reads result cursor.new.rest.now (not_condition_at cursor.old.rest.now) }
{
    let condition = match cursor.peek() {
        TokenKind::Keyword(Keyword::X) => JmpCondition::XZero,
        TokenKind::Keyword(Keyword::Y) => JmpCondition::YZero,
        TokenKind::Keyword(Keyword::Osre) => JmpCondition::OsrNotEmpty,
        _ => return Err(cursor.fault()),
    };
    cursor.skip();
    Ok(conditional(condition, cursor))
}

fn read_jmp_condition(cursor: &mut TokenCursor) -> Result<JmpCondition, Stop>
    ensures { Reads result cursor.new.rest.now (jmp_condition_at cursor.old.rest.now) }
{
    match cursor.peek() {
        TokenKind::Bang => {
            cursor.skip();
            read_not_condition(cursor)
        }
        TokenKind::Keyword(Keyword::X) => {
            cursor.skip();
            read_x_condition(cursor)
        }
        TokenKind::Keyword(Keyword::Y) => {
            cursor.skip();
            read_decrement(JmpCondition::YDecrement, cursor)
        }
        TokenKind::Keyword(Keyword::Pin) => {
            cursor.skip();
            Ok(conditional(JmpCondition::Pin, cursor))
        }
        _ => Ok(JmpCondition::Always),
    }
}

pub(crate) fn read_jmp(file: &File, cursor: &mut TokenCursor) -> Result<Operation, Stop>
    ensures { Reads result cursor.new.rest.now (jmp_at file.now.text.now cursor.old.rest.now) }
{
    let condition = read_jmp_condition(cursor)?;
    let target = read_operand(file, cursor)?;
    Ok(Operation::Jmp { condition, target })
}
