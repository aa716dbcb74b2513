//! The operands of `wait` and `irq`.

ghost use Rattle.std.specs.Prelude.{◌≡◌, Ok};
ghost use Rattle.pio_parse.specs.descent.Calls.{Reads};
ghost use Rattle.pio_parse.specs.Tokens.{head_kind};
ghost use Rattle.pio_parse.specs.descent.Instruction.{irq_at, irq_mode_at, polarity_at, wait_at, wait_for};

use crate::cursor::{Stop, TokenCursor};
use crate::expression::{Expression, File, read_operand};
use crate::operands::{read_last_operand, read_rel};
use crate::syntax::Operation;
use crate::token::{Keyword, TokenKind};

fn read_polarity(file: &File, cursor: &mut TokenCursor) -> Result<Option<Expression>, Stop>
    ensures { Reads result cursor.new.rest.now (polarity_at file.now.text.now cursor.old.rest.now) }
{
    match cursor.peek() {
        TokenKind::Keyword(_) => Ok(None),
        _ => Ok(Some(read_operand(file, cursor)?)),
    }
}

/// What a `wait` waits for.
fn read_source(
    file: &File,
    polarity: Option<Expression>,
    cursor: &mut TokenCursor,
) -> Result<Operation, Stop>
    ensures { Reads result cursor.new.rest.now (wait_for file.now.text.now polarity
        (head_kind cursor.old.rest.now) cursor.old.rest.now) }
{
    let source = cursor.peek();
    cursor.expect(matches!(
        source,
        TokenKind::Keyword(Keyword::Gpio | Keyword::Pin | Keyword::Irq)
    ))?;
    let number = read_last_operand(file, cursor)?;
    Ok(match source {
        TokenKind::Keyword(Keyword::Gpio) => Operation::WaitGpio { polarity, number },
        TokenKind::Keyword(Keyword::Pin) => Operation::WaitPin { polarity, number },
        _ => Operation::WaitIrq {
            polarity,
            number,
            relative: read_rel(cursor),
        },
    })
}

pub(crate) fn read_wait(file: &File, cursor: &mut TokenCursor) -> Result<Operation, Stop>
    ensures { Reads result cursor.new.rest.now (wait_at file.now.text.now cursor.old.rest.now) }
{
    let polarity = read_polarity(file, cursor)?;
    read_source(file, polarity, cursor)
}

/// Whether an `irq` clears its flag and whether it waits.
fn read_irq_mode(cursor: &mut TokenCursor) -> (bool, bool)
    ensures { irq_mode_at cursor.old.rest.now ≡ Ok (result, cursor.new.rest.now) }
{
    let mode = match cursor.peek() {
        TokenKind::Keyword(Keyword::Set) | TokenKind::Keyword(Keyword::NoWait) => (false, false),
        TokenKind::Keyword(Keyword::Wait) => (false, true),
        TokenKind::Keyword(Keyword::Clear) => (true, false),
        _ => return (false, false),
    };
    cursor.skip();
    mode
}

pub(crate) fn read_irq(file: &File, cursor: &mut TokenCursor) -> Result<Operation, Stop>
    ensures { Reads result cursor.new.rest.now (irq_at file.now.text.now cursor.old.rest.now) }
{
    let (clear, wait) = read_irq_mode(cursor);
    let number = read_operand(file, cursor)?;
    let relative = read_rel(cursor);
    Ok(Operation::Irq {
        clear,
        wait,
        number,
        relative,
    })
}
