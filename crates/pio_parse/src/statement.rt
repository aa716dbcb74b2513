//! A line: its label, its directive or its instruction.

ghost use Rattle.std.specs.Prelude.{◌≡◌};
ghost use Rattle.pio_parse.specs.descent.Calls.{Reads};
ghost use Rattle.pio_parse.specs.descent.Statement.{define_at, directive_at, end_at, is_end_after, is_first, label_at, line_at, name_token_at, side_set_at, statement_at, version_at};
ghost use Rattle.pio_parse.specs.Tokens.{is_program};

use crate::cursor::{Stop, TokenCursor};
use crate::expression::{File, read_expression};
use crate::instruction::read_instruction;
use crate::syntax::{BoxedInstruction, Line, Statement};
use crate::token::{Directive, Keyword, TokenKind};
use pio_program::Name;

fn read_name(file: &File, cursor: &mut TokenCursor) -> Result<Name, Stop>
    ensures { Reads result cursor.new.rest.now
        (name_token_at file.now.text.now cursor.old.rest.now) }
{
    match cursor.peek() {
        TokenKind::Name(span) => {
            cursor.skip();
            Ok(file.name(span)?)
        }
        _ => Err(cursor.fault()),
    }
}

fn read_define(file: &File, cursor: &mut TokenCursor) -> Result<Statement, Stop>
    ensures { Reads result cursor.new.rest.now (define_at file.now.text.now cursor.old.rest.now) }
{
    cursor.skip_if(matches!(cursor.peek(), TokenKind::Keyword(Keyword::Public)));
    let name = read_name(file, cursor)?;
    read_expression(file, cursor).map(|value| Statement::Define { name, value })
}

fn read_side_set(file: &File, cursor: &mut TokenCursor) -> Result<Statement, Stop>
    ensures { Reads result cursor.new.rest.now (side_set_at file.now.text.now cursor.old.rest.now) }
{
    let count = read_expression(file, cursor)?;
    let opt = matches!(cursor.peek(), TokenKind::Keyword(Keyword::Opt));
    cursor.skip_if(opt);
    let pindirs = matches!(cursor.peek(), TokenKind::Keyword(Keyword::Pindirs));
    cursor.skip_if(pindirs);
    Ok(Statement::SideSet {
        count,
        opt,
        pindirs,
    })
}

/// The number after `.pio_version`, which has to be 0.
fn read_version(cursor: &mut TokenCursor) -> Result<Option<Statement>, Stop>
    ensures { Reads result cursor.new.rest.now (version_at cursor.old.rest.now) }
{
    cursor.expect(matches!(cursor.peek(), TokenKind::Number(0)))?;
    Ok(None)
}

/// What follows the word of a directive. Two of them say nothing about a program.
fn read_directive(
    file: &File,
    directive: Directive,
    cursor: &mut TokenCursor,
) -> Result<Option<Statement>, Stop>
    ensures { Reads result cursor.new.rest.now
        (directive_at file.now.text.now directive cursor.old.rest.now) }
{
    match directive {
        Directive::Program => Ok(Some(Statement::Program(read_name(file, cursor)?))),
        Directive::Define => Ok(Some(read_define(file, cursor)?)),
        Directive::Origin => Ok(Some(Statement::Origin(read_expression(file, cursor)?))),
        Directive::SideSet => Ok(Some(read_side_set(file, cursor)?)),
        Directive::WrapTarget => Ok(Some(Statement::WrapTarget)),
        Directive::Wrap => Ok(Some(Statement::Wrap)),
        Directive::Word => Ok(Some(Statement::Word(read_expression(file, cursor)?))),
        Directive::LangOpt => Ok(None),
        Directive::PioVersion => read_version(cursor),
    }
}

/// A directive or an instruction, if the line has one.
fn read_statement(file: &File, cursor: &mut TokenCursor) -> Result<Option<Statement>, Stop>
    ensures { Reads result cursor.new.rest.now
        (statement_at file.now.text.now cursor.old.rest.now) }
{
    match cursor.peek() {
        TokenKind::LineEnd | TokenKind::FileEnd => Ok(None),
        TokenKind::Directive(directive) => {
            cursor.skip();
            read_directive(file, directive, cursor)
        }
        TokenKind::Keyword(keyword) => {
            let instruction = read_instruction(file, keyword, cursor)?;
            let instruction = BoxedInstruction::new(file.alloc, instruction)?;
            Ok(Some(Statement::Instruction(instruction)))
        }
        _ => Err(cursor.fault()),
    }
}

/// `[[public] name:]`.
fn read_label(file: &File, cursor: &mut TokenCursor) -> Result<Option<Name>, Stop>
    ensures { Reads result cursor.new.rest.now (label_at file.now.text.now cursor.old.rest.now) }
{
    match cursor.peek() {
        TokenKind::Keyword(Keyword::Public) => cursor.skip(),
        TokenKind::Name(_) => {}
        _ => return Ok(None),
    }
    let name = read_name(file, cursor)?;
    cursor
        .expect(matches!(cursor.peek(), TokenKind::Colon))
        .map(|()| Some(name))
}

/// Whether a line that begins so may stand before the first `.program`.
fn may_be_first(kind: TokenKind) -> bool
    ensures { result ≡ is_first kind }
{
    matches!(
        kind,
        TokenKind::LineEnd
            | TokenKind::Directive(Directive::Program)
            | TokenKind::Directive(Directive::Define)
            | TokenKind::Directive(Directive::LangOpt)
            | TokenKind::Directive(Directive::PioVersion)
    )
}

/// Whether a statement is a `.program`.
fn begins_program(statement: &Option<Statement>) -> bool
    ensures { result ≡ is_program statement.now }
{
    matches!(statement, Some(Statement::Program(_)))
}

/// Whether a line may end so: a file with no program may not end.
fn may_end(has_program: bool, kind: TokenKind) -> bool
    ensures { result ≡ is_end_after has_program kind }
{
    match kind {
        TokenKind::LineEnd => true,
        TokenKind::FileEnd => has_program,
        _ => false,
    }
}

/// The end of a line.
fn read_end(
    is_started: bool,
    statement: &Option<Statement>,
    cursor: &mut TokenCursor,
) -> Result<(), Stop>
    ensures { Reads result cursor.new.rest.now
        (end_at is_started statement.now cursor.old.rest.now) }
{
    let has_program = is_started || begins_program(statement);
    cursor.expect(may_end(has_program, cursor.peek()))
}

/// A line up to its end. Before the first `.program` few lines may stand.
pub(crate) fn read_line(
    file: &File,
    is_started: bool,
    cursor: &mut TokenCursor,
) -> Result<Line, Stop>
    ensures { Reads result cursor.new.rest.now
        (line_at file.now.text.now is_started cursor.old.rest.now) }
{
    if !is_started && !may_be_first(cursor.peek()) {
        return Err(cursor.fault());
    }
    let number = u64::from(cursor.position().line);
    let label = read_label(file, cursor)?;
    let statement = read_statement(file, cursor)?;
    read_end(is_started, &statement, cursor).map(|()| Line {
        number,
        label,
        statement,
    })
}
