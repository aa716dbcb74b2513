//! An instruction with its side-set value and its delay.

ghost use Rattle.std.specs.Prelude.{◌≡◌};
ghost use Rattle.pio_parse.specs.descent.Calls.{Reads};
ghost use Rattle.pio_parse.specs.descent.Instruction.{delay_at, instruction_at, is_instruction, operands_at, side_at, modifiers_at};

use crate::cursor::{Stop, TokenCursor};
use crate::expression::{Expression, File, read_expression, read_operand};
use crate::jump::read_jmp;
use crate::syntax::{Instruction, Operation};
use crate::token::{Keyword, TokenKind};
use crate::transfer::{read_in, read_mov, read_out, read_pull, read_push, read_set};
use crate::wait::{read_irq, read_wait};
use pio_words::{MovDestination, MovOperation, MovSource};

/// What follows the first word of an instruction.
fn read_operands(file: &File, keyword: Keyword, cursor: &mut TokenCursor) -> Result<Operation, Stop>
    ensures { Reads result cursor.new.rest.now
        (operands_at file.now.text.now keyword cursor.old.rest.now) }
{
    match keyword {
        Keyword::Jmp => read_jmp(file, cursor),
        Keyword::Wait => read_wait(file, cursor),
        Keyword::In => read_in(file, cursor),
        Keyword::Out => read_out(file, cursor),
        Keyword::Push => Ok(read_push(cursor)),
        Keyword::Pull => Ok(read_pull(cursor)),
        Keyword::Mov => read_mov(cursor),
        Keyword::Irq => read_irq(file, cursor),
        Keyword::Set => read_set(file, cursor),
        _ => Ok(Operation::Mov {
            destination: MovDestination::Y,
            operation: MovOperation::Plain,
            source: MovSource::Y,
        }),
    }
}

fn begins_instruction(keyword: Keyword) -> bool
    ensures { result ≡ is_instruction keyword }
{
    matches!(
        keyword,
        Keyword::Jmp
            | Keyword::Wait
            | Keyword::In
            | Keyword::Out
            | Keyword::Push
            | Keyword::Pull
            | Keyword::Mov
            | Keyword::Irq
            | Keyword::Set
            | Keyword::Nop
    )
}

fn read_side(file: &File, cursor: &mut TokenCursor) -> Result<Option<Expression>, Stop>
    ensures { Reads result cursor.new.rest.now (side_at file.now.text.now cursor.old.rest.now) }
{
    match cursor.peek() {
        TokenKind::Keyword(Keyword::Side) => {
            cursor.skip();
            Ok(Some(read_operand(file, cursor)?))
        }
        _ => Ok(None),
    }
}

fn read_delay(file: &File, cursor: &mut TokenCursor) -> Result<Option<Expression>, Stop>
    ensures { Reads result cursor.new.rest.now (delay_at file.now.text.now cursor.old.rest.now) }
{
    match cursor.peek() {
        TokenKind::OpenBracket => {
            cursor.skip();
            let delay = read_expression(file, cursor)?;
            cursor.expect(matches!(cursor.peek(), TokenKind::CloseBracket))?;
            Ok(Some(delay))
        }
        _ => Ok(None),
    }
}

/// A side-set value and a delay, in either order.
fn read_modifiers(
    file: &File,
    cursor: &mut TokenCursor,
) -> Result<(Option<Expression>, Option<Expression>), Stop>
    ensures { Reads result cursor.new.rest.now
        (modifiers_at file.now.text.now cursor.old.rest.now) }
{
    match cursor.peek() {
        TokenKind::OpenBracket => {
            let delay = read_delay(file, cursor)?;
            let side = read_side(file, cursor)?;
            Ok((side, delay))
        }
        _ => {
            let side = read_side(file, cursor)?;
            let delay = read_delay(file, cursor)?;
            Ok((side, delay))
        }
    }
}

/// An instruction, whose first word is `keyword`.
pub(crate) fn read_instruction(
    file: &File,
    keyword: Keyword,
    cursor: &mut TokenCursor,
) -> Result<Instruction, Stop>
    ensures { Reads result cursor.new.rest.now
        (instruction_at file.now.text.now keyword cursor.old.rest.now) }
{
    cursor.expect(begins_instruction(keyword))?;
    let operation = read_operands(file, keyword, cursor)?;
    read_modifiers(file, cursor).map(|(side, delay)| Instruction {
        operation,
        side,
        delay,
    })
}
