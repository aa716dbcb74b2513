//! The lines of a file, gathered into programs.

ghost use Rattle.std.specs.Prelude.{◌≡◌, Ok, Some, IfOk, IfErr, OnOk, []};
ghost use Rattle.pio_parse.specs.Tokens.{is_end};
ghost use Rattle.pio_parse.specs.Files.{IsFault, IsSource};
ghost use Rattle.pio_parse.specs.descent.Parsed.{IsFaultOf, parsed, source_of};
ghost use Rattle.pio_parse.specs.descent.Calls.{IsStopOf};
ghost use Rattle.pio_parse.specs.descent.Gathering.{grouped, line_step, source_of_groups, with_line, with_program};

use crate::cursor::{Stop, TokenCursor};
use crate::expression::File;
use crate::fault::PioFault;
use crate::scan::scan;
use crate::statement::read_line;
use crate::syntax::{Line, Lines, Programs, Source, SourceProgram, Statement};
use crate::token::{Token, TokenKind};
use pio_program::Name;
use std::alloc::{AllocError, Global};

/// The lines so far: those before the first program, the programs that are over, and the present one.
#[derive(Drop)]
struct Groups {
    globals: Lines,
    programs: Programs,
    current: Option<SourceProgram>,
}

fn ends_line(kind: TokenKind) -> bool
    ensures { result ≡ is_end kind }
{
    matches!(kind, TokenKind::LineEnd | TokenKind::FileEnd)
}

fn add(groups: &mut Groups, line: Line) -> Result<(), AllocError>
    ensures { OnOk result (groups.new ≡ with_line line groups.old) }
{
    match &mut groups.current {
        None => groups.globals.push(line),
        Some(program) => program.lines.push(line),
    }
}

/// Begins a program. A label of its line is the last line of the program before it.
fn begin(
    groups: &mut Groups,
    number: u64,
    label: Option<Name>,
    name: Name,
    lines: Lines,
) -> Result<(), AllocError>
    requires { lines ≡ [] }
    ensures { OnOk result (groups.new ≡ with_program number label name groups.old) }
{
    if let Some(label) = label {
        add(
            groups,
            Line {
                number,
                label: Some(label),
                statement: None,
            },
        )?;
    }
    let program = SourceProgram {
        name,
        number,
        lines,
    };
    match groups.current.replace(program) {
        Some(before) => groups.programs.push(before),
        None => Ok(()),
    }
}

fn group(alloc: Global, groups: &mut Groups, line: Line) -> Result<(), AllocError>
    ensures { OnOk result (groups.new ≡ grouped groups.old line) }
{
    let Line {
        number,
        label,
        statement,
    } = line;
    match statement {
        Some(Statement::Program(name)) => begin(groups, number, label, name, Lines::new(alloc)),
        None if label.is_none() => Ok(()),
        statement => add(
            groups,
            Line {
                number,
                label,
                statement,
            },
        ),
    }
}

/// Reads the tokens of one line.
fn add_line(file: &File, tokens: &[Token], groups: &mut Groups) -> Result<(), Stop>
    ensures ok { OnOk result (line_step file.now.text.now groups.old tokens.now ≡ Ok groups.new) }
    ensures err { IfErr result (IsStopOf (line_step file.now.text.now groups.old tokens.now)) }
{
    let mut cursor = TokenCursor { rest: tokens };
    let line = read_line(file, groups.current.is_some(), &mut cursor)?;
    Ok(group(file.alloc, groups, line)?)
}

fn finish(groups: Groups) -> Result<Source, AllocError>
    ensures { IfOk result (λ source. source ≡ source_of_groups groups) }
{
    let Groups {
        globals,
        mut programs,
        current,
    } = groups;
    if let Some(program) = current {
        programs.push(program)?;
    }
    Ok(Source { globals, programs })
}

#[tactic(auto, using(crate::proofs::SourceLines::line_laws))]
fn read_lines(file: &File, tokens: &[Token]) -> Result<Source, Stop>
    ensures ok { IfOk result (λ source. source_of file.now.text.now tokens.now ≡ Ok source) }
    ensures err { IfErr result (IsStopOf (source_of file.now.text.now tokens.now)) }
{
    let mut groups = Groups {
        globals: Lines::new(file.alloc),
        programs: Programs::new(file.alloc),
        current: None,
    };
    let mut start = 0;
    for (index, token) in tokens.iter().enumerate() {
        if ends_line(token.kind) {
            add_line(file, &tokens[start..index + 1], &mut groups)?;
            start = index + 1;
        }
    }
    Ok(finish(groups)?)
}

/// The source that a file holds, or its first fault.
fn read_file(alloc: Global, text: &[u8]) -> Result<Source, PioFault>
    ensures ok { IfOk result (λ source. parsed text.now ≡ Ok source) }
    ensures err { IfErr result (IsFaultOf (parsed text.now)) }
{
    let tokens = scan(alloc, text)?;
    let file = File { alloc, text };
    match read_lines(&file, tokens.as_slice()) {
        Ok(source) => Ok(source),
        Err(Stop::Syntax(at)) => Err(PioFault::Syntax(u64::from(at.line), u64::from(at.column))),
        Err(Stop::Memory) => Err(PioFault::Memory),
    }
}

/// The source that a file holds by the grammar, or its first fault: the first character that has no meaning where it
/// stands, else the first token with which no line of the grammar begins as its line does (RP2040
/// Datasheet, 3.3).
///
/// Memory may run out at any time.
#[tactic(auto, using(crate::proofs::Readers::source_read))]
pub fn parse(alloc: Global, text: &[u8]) -> Result<Source, PioFault>
    ensures ok { IfOk result (IsSource text.now) }
    ensures err { IfErr result (IsFault text.now) }
{
    read_file(alloc, text)
}
