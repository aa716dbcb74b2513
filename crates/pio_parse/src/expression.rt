//! Expressions, read into postfix order.

ghost use Rattle.std.specs.Prelude.{◌≡◌, ◌∷◌, [], List, ◌<◌, ◌+◌, ◌^◌, IfOk, OnOk};
ghost use Rattle.pio_parse.specs.descent.Calls.{Reads, ReadsOperand, ReadsOperator};
ghost use Rattle.pio_parse.specs.descent.Expression.{expression_at, level_of, operand_at, operand_step, operator_step, reduced, token_step, with_binary, with_closed};
ghost use Rattle.pio_parse.specs.Tokens.{name_at};

use crate::cursor::{Stop, TokenCursor};
use crate::sequence::{Sequence, Stack};
use crate::token::{Span, Token, TokenKind};
use pio_program::Name;
use std::alloc::{AllocError, Global};
use std::marker::Model;

/// An operator of an expression.
#[derive(Clone, Copy)]
pub enum Operator {
    Add,
    Subtract,
    Multiply,
    /// A minus before its operand.
    Negate,
    /// `::`: the 32 bits of its operand in reverse order.
    Reverse,
}

/// One step of an expression in postfix order: an operator follows its operands.
#[derive(Drop)]
pub enum Term {
    /// A number; one above 2^32 - 1 is kept as 2^32.
    Number(u64),
    /// The value of a name.
    Name(Name),
    Operator(Operator),
}

/// An expression in postfix order, seen as a list of terms. It takes no more memory than its terms need,
/// and a pointer where it stands, since a file may have a million of them.
#[derive(Drop)]
pub struct Expression {
    terms: Box<Sequence<Term>>,
}

impl Model for Expression {
    ghost use Rattle.std.specs.Prelude.{List};
    ghost use Rattle.pio_parse.specs.declared.expression.Term.{Term};

    ghost Value = { List Term };

    ghost view = { λ expression. expression.terms.value };
}

impl Expression {
    fn from_terms(alloc: Global, mut terms: Sequence<Term>) -> Result<Expression, AllocError>
        ensures { IfOk result (λ expression. expression ≡ terms) }
    {
        terms.shrink_to_fit();
        let terms = Box::new(alloc, terms)?;
        Ok(Expression { terms })
    }

    /// The terms in postfix order.
    pub fn as_slice(&self) -> &[Term]
        ensures { result.now ≡ self.now }
    {
        self.terms.as_slice()
    }
}

/// What waits for the end of its last operand.
#[derive(Clone, Copy)]
enum Pending {
    /// An open parenthesis.
    Parenthesis,
    /// An operator.
    Operator(Operator),
}

/// How tightly an operator binds. One that stands before its operand takes all that binds more.
fn level(operator: Operator) -> u8
    ensures { result ≡ level_of operator }
{
    match operator {
        Operator::Multiply => 2,
        Operator::Add | Operator::Subtract | Operator::Negate => 1,
        Operator::Reverse => 0,
    }
}

/// The operators that wait since the last open parenthesis, and bind at least so tightly, have their
/// last operand.
fn reduce(
    least: u8,
    stack: &mut Stack<Pending>,
    output: &mut Sequence<Term>,
) -> Result<(), AllocError>
    ensures { OnOk result ((stack.new, output.new)
        ≡ reduced least stack.old output.old) }
{
    while let Some(Pending::Operator(operator)) = stack.top() {
        if level(operator) < least {
            break;
        }
        let _ = stack.pop();
        output.push(Term::Operator(operator))?;
    }
    Ok(())
}

/// An expression that is being read.
#[derive(Drop)]
struct Reading {
    /// What waits.
    stack: Stack<Pending>,
    output: Sequence<Term>,
    /// Whether an operand comes next.
    awaited: bool,
    /// How many parentheses are open.
    depth: usize,
}

/// A file and the memory for what is made of it.
#[derive(Clone, Copy)]
pub(crate) struct File<'a> {
    pub(crate) alloc: Global,
    pub(crate) text: &'a [u8],
}

impl File<'_> {
    /// The name that stands at a span.
    pub(crate) fn name(&self, span: Span) -> Result<Name, AllocError>
        ensures { IfOk result (λ name. name ≡ name_at self.now.text.now span) }
    {
        let span = span.start as usize..span.end as usize;
        Name::from_slice(self.alloc, self.text.get(span).unwrap_or(&[]))
    }
}

/// A token where an operand comes next.
fn take_operand(file: &File, token: Token, reading: &mut Reading) -> Result<(), Stop>
    requires { reading.old.depth < 2 ^ 63 }
    ensures { ReadsOperand result reading.new
        (operand_step file.now.text.now token.kind token.position reading.old) }
{
    match token.kind {
        TokenKind::Number(number) => {
            reading.output.push(Term::Number(number))?;
            reading.awaited = false;
        }
        TokenKind::Name(span) => {
            let name = file.name(span)?;
            reading.output.push(Term::Name(name))?;
            reading.awaited = false;
        }
        TokenKind::Minus => reading.stack.push(Pending::Operator(Operator::Negate))?,
        TokenKind::DoubleColon => reading.stack.push(Pending::Operator(Operator::Reverse))?,
        TokenKind::OpenParenthesis => {
            reading.stack.push(Pending::Parenthesis)?;
            reading.depth += 1;
        }
        _ => return Err(Stop::Syntax(token.position)),
    }
    Ok(())
}

fn take_binary(operator: Operator, reading: &mut Reading) -> Result<(), AllocError>
    ensures { OnOk result (reading.new ≡ with_binary operator reading.old) }
{
    reduce(level(operator), &mut reading.stack, &mut reading.output)?;
    reading.stack.push(Pending::Operator(operator))?;
    reading.awaited = true;
    Ok(())
}

fn take_close(reading: &mut Reading) -> Result<(), AllocError>
    requires { 0 < reading.old.depth }
    ensures { OnOk result (reading.new ≡ with_closed reading.old) }
{
    reduce(0, &mut reading.stack, &mut reading.output)?;
    let _ = reading.stack.pop();
    reading.depth -= 1;
    Ok(())
}

/// A token after an operand: whether the expression goes on.
fn take_operator(token: Token, reading: &mut Reading) -> Result<bool, Stop>
    ensures { ReadsOperator result reading.old reading.new
        (operator_step token.kind token.position reading.old) }
{
    match token.kind {
        TokenKind::Star => take_binary(Operator::Multiply, reading)?,
        TokenKind::Plus => take_binary(Operator::Add, reading)?,
        TokenKind::Minus => take_binary(Operator::Subtract, reading)?,
        _ if reading.depth == 0 => return Ok(false),
        TokenKind::CloseParenthesis => take_close(reading)?,
        _ => return Err(Stop::Syntax(token.position)),
    }
    Ok(true)
}

/// A token of an expression: whether it goes on.
fn take(file: &File, token: Token, reading: &mut Reading) -> Result<bool, Stop>
    requires { reading.old.depth < 2 ^ 63 }
    ensures { ReadsOperator result reading.old reading.new
        (token_step file.now.text.now token.kind token.position reading.old) }
{
    if reading.awaited {
        take_operand(file, token, reading)?;
        Ok(true)
    } else {
        take_operator(token, reading)
    }
}

fn finish(alloc: Global, mut reading: Reading) -> Result<Expression, AllocError>
    ensures { IfOk result (λ expression. expression
        ≡ (reduced 0 reading.stack reading.output).1) }
{
    reduce(0, &mut reading.stack, &mut reading.output)?;
    Expression::from_terms(alloc, reading.output)
}

/// The longest expression that the next tokens begin with.
pub(crate) fn read_expression(file: &File, cursor: &mut TokenCursor) -> Result<Expression, Stop>
    ensures { Reads result cursor.new.rest.now
        (expression_at file.now.text.now cursor.old.rest.now) }
{
    let mut reading = Reading {
        stack: Stack::new(file.alloc),
        output: Sequence::new(file.alloc),
        awaited: true,
        depth: 0,
    };
    for token in cursor.rest {
        if !take(file, *token, &mut reading)? {
            return Ok(finish(file.alloc, reading)?);
        }
        cursor.skip();
    }
    Err(cursor.fault())
}

fn single(file: &File, term: Term) -> Result<Expression, AllocError>
    ensures { IfOk result (λ expression. expression ≡ term ∷ []) }
{
    let mut terms = Sequence::new(file.alloc);
    terms.push(term)?;
    Expression::from_terms(file.alloc, terms)
}

/// A number, a name or an expression in parentheses.
pub(crate) fn read_operand(file: &File, cursor: &mut TokenCursor) -> Result<Expression, Stop>
    ensures { Reads result cursor.new.rest.now (operand_at file.now.text.now cursor.old.rest.now) }
{
    match cursor.peek() {
        TokenKind::Number(number) => {
            cursor.skip();
            Ok(single(file, Term::Number(number))?)
        }
        TokenKind::Name(span) => {
            cursor.skip();
            Ok(single(file, Term::Name(file.name(span)?))?)
        }
        TokenKind::OpenParenthesis => {
            cursor.skip();
            let inner = read_expression(file, cursor)?;
            cursor.expect(matches!(cursor.peek(), TokenKind::CloseParenthesis))?;
            Ok(inner)
        }
        _ => Err(cursor.fault()),
    }
}
