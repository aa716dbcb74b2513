//! The operands of `in`, `out`, `push`, `pull`, `mov` and `set`.

ghost use Rattle.std.specs.Prelude.{◌≡◌, Ok};
ghost use Rattle.pio_parse.specs.descent.Calls.{Reads};
ghost use Rattle.pio_parse.specs.descent.Instruction.{block_at, in_at, mov_at, mov_operation_at, out_at, pull_at, push_at, set_at};

use crate::cursor::{Stop, TokenCursor};
use crate::expression::File;
use crate::operands::{read_last_operand, skip_comma};
use crate::registers::{
    in_source, mov_destination, mov_source, out_destination, read_named, set_destination,
};
use crate::syntax::Operation;
use crate::token::{Keyword, TokenKind};
use pio_words::MovOperation;

pub(crate) fn read_in(file: &File, cursor: &mut TokenCursor) -> Result<Operation, Stop>
    ensures { Reads result cursor.new.rest.now (in_at file.now.text.now cursor.old.rest.now) }
{
    let source = read_named(cursor, in_source(cursor.peek()))?;
    let count = read_last_operand(file, cursor)?;
    Ok(Operation::In { source, count })
}

pub(crate) fn read_out(file: &File, cursor: &mut TokenCursor) -> Result<Operation, Stop>
    ensures { Reads result cursor.new.rest.now (out_at file.now.text.now cursor.old.rest.now) }
{
    let destination = read_named(cursor, out_destination(cursor.peek()))?;
    let count = read_last_operand(file, cursor)?;
    Ok(Operation::Out { destination, count })
}

pub(crate) fn read_set(file: &File, cursor: &mut TokenCursor) -> Result<Operation, Stop>
    ensures { Reads result cursor.new.rest.now (set_at file.now.text.now cursor.old.rest.now) }
{
    let destination = read_named(cursor, set_destination(cursor.peek()))?;
    let value = read_last_operand(file, cursor)?;
    Ok(Operation::Set { destination, value })
}

fn read_mov_operation(cursor: &mut TokenCursor) -> MovOperation
    ensures { mov_operation_at cursor.old.rest.now ≡ Ok (result, cursor.new.rest.now) }
{
    match cursor.peek() {
        TokenKind::Bang | TokenKind::Tilde => {
            cursor.skip();
            MovOperation::Invert
        }
        TokenKind::DoubleColon => {
            cursor.skip();
            MovOperation::Reverse
        }
        _ => MovOperation::Plain,
    }
}

pub(crate) fn read_mov(cursor: &mut TokenCursor) -> Result<Operation, Stop>
    ensures { Reads result cursor.new.rest.now (mov_at cursor.old.rest.now) }
{
    let destination = read_named(cursor, mov_destination(cursor.peek()))?;
    skip_comma(cursor);
    let operation = read_mov_operation(cursor);
    let source = read_named(cursor, mov_source(cursor.peek()))?;
    Ok(Operation::Mov {
        destination,
        operation,
        source,
    })
}

/// `block`, which is meant where nothing is written, or `noblock`.
fn read_block(cursor: &mut TokenCursor) -> bool
    ensures { block_at cursor.old.rest.now ≡ Ok (result, cursor.new.rest.now) }
{
    match cursor.peek() {
        TokenKind::Keyword(Keyword::Block) => {
            cursor.skip();
            true
        }
        TokenKind::Keyword(Keyword::NoBlock) => {
            cursor.skip();
            false
        }
        _ => true,
    }
}

pub(crate) fn read_push(cursor: &mut TokenCursor) -> Operation
    ensures { push_at cursor.old.rest.now ≡ Ok (result, cursor.new.rest.now) }
{
    let if_full = matches!(cursor.peek(), TokenKind::Keyword(Keyword::IfFull));
    cursor.skip_if(if_full);
    let block = read_block(cursor);
    Operation::Push { if_full, block }
}

pub(crate) fn read_pull(cursor: &mut TokenCursor) -> Operation
    ensures { pull_at cursor.old.rest.now ≡ Ok (result, cursor.new.rest.now) }
{
    let if_empty = matches!(cursor.peek(), TokenKind::Keyword(Keyword::IfEmpty));
    cursor.skip_if(if_empty);
    let block = read_block(cursor);
    Operation::Pull { if_empty, block }
}
