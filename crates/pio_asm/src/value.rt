//! The value of an expression.

ghost use Rattle.std.specs.Prelude.{◌≡◌, OnOk, IfOk};
ghost use Rattle.pio_asm.specs.Value.{bounded_option, evaluated, is_in_bounds, name_step, number_step, one_operand, operator_step, rest_of, reversed_bits, term_step, top_of, two_operands, unary_step, binary_step, value_in, with_result};

use crate::symbols::{Symbols, Value};
use pio_parse::{Expression, Operator, Stack, Term};
use std::alloc::{AllocError, Global};

/// The greatest value that an expression may have at any step.
const GREATEST: i64 = 4294967295;

/// The least value that an expression may have at any step.
const LEAST: i64 = -2147483648;

/// Takes the newest value; where there is none, 0.
fn pop(stack: &mut Stack<Value>) -> Value
    ensures value { result ≡ top_of stack.old }
    ensures rest { stack.new ≡ rest_of stack.old }
{
    match stack.pop() {
        Some(value) => value,
        None => Some(0),
    }
}

/// An expression that is being evaluated.
#[derive(Drop)]
struct Evaluation {
    /// Values of operands.
    stack: Stack<Value>,
    unknown: bool,
    outside: bool,
}

/// What an expression comes to.
#[derive(Clone, Copy)]
pub(crate) struct Evaluated {
    /// Its value, unless it has a fault or uses a name whose definition has one.
    pub(crate) value: Value,
    /// Whether a name in it is not defined.
    pub(crate) unknown: bool,
    /// Whether a value is out of bounds at a step.
    pub(crate) outside: bool,
}

fn within(value: Option<i64>) -> Option<i64>
    ensures { result ≡ bounded_option value }
{
    match value {
        Some(value) if LEAST <= value && value <= GREATEST => Some(value),
        _ => None,
    }
}

/// The low 32 bits in reverse order.
fn reversed(x: i64) -> i64
    ensures { result ≡ reversed_bits x }
{
    let low = (x.cast_unsigned() % 4294967296) as u32;
    low.reverse_bits() as i64
}

/// The outcome of a step: none is out of bounds.
fn add_result(evaluation: &mut Evaluation, outcome: Option<i64>) -> Result<(), AllocError>
    ensures { OnOk result (evaluation.new ≡ with_result outcome evaluation.old) }
{
    evaluation.stack.push(outcome)?;
    if outcome.is_none() {
        evaluation.outside = true;
    }
    Ok(())
}

#[tactic(auto, using(crate::proofs::Bounds::checked_bounded))]
fn apply_one(operator: Operator, x: i64) -> Option<i64>
    ensures { result ≡ one_operand operator x }
{
    match operator {
        Operator::Negate => within(x.checked_neg()),
        _ => Some(reversed(x)),
    }
}

#[tactic(auto, using(crate::proofs::Bounds::checked_bounded))]
fn apply_two(operator: Operator, x: i64, y: i64) -> Option<i64>
    ensures { result ≡ two_operands operator x y }
{
    match operator {
        Operator::Add => within(x.checked_add(y)),
        Operator::Subtract => within(x.checked_sub(y)),
        _ => within(x.checked_mul(y)),
    }
}

/// An operator before its operand.
fn take_unary(evaluation: &mut Evaluation, operator: Operator) -> Result<(), AllocError>
    ensures { OnOk result (evaluation.new ≡ unary_step operator evaluation.old) }
{
    match pop(&mut evaluation.stack) {
        Some(x) => add_result(evaluation, apply_one(operator, x)),
        None => evaluation.stack.push(None),
    }
}

/// An operator between its operands.
fn take_binary(evaluation: &mut Evaluation, operator: Operator) -> Result<(), AllocError>
    ensures { OnOk result (evaluation.new ≡ binary_step operator evaluation.old) }
{
    let y = pop(&mut evaluation.stack);
    let x = pop(&mut evaluation.stack);
    match (x, y) {
        (Some(x), Some(y)) => add_result(evaluation, apply_two(operator, x, y)),
        _ => evaluation.stack.push(None),
    }
}

fn take_operator(evaluation: &mut Evaluation, operator: Operator) -> Result<(), AllocError>
    ensures { OnOk result (evaluation.new ≡ operator_step operator evaluation.old) }
{
    match operator {
        Operator::Negate | Operator::Reverse => take_unary(evaluation, operator),
        _ => take_binary(evaluation, operator),
    }
}

fn take_number(evaluation: &mut Evaluation, number: u64) -> Result<(), AllocError>
    ensures { OnOk result (evaluation.new ≡ number_step number evaluation.old) }
{
    add_result(evaluation, (number <= 4294967295).then(|| number as i64))
}

/// The value of a name in a program: its own names hide none of the others.
pub(crate) fn value_of(locals: &Symbols, globals: &Symbols, name: &[u8]) -> Option<Value>
    ensures { result ≡ value_in locals.now globals.now name.now }
{
    match locals.get(name) {
        Some(value) => Some(value),
        None => globals.get(name),
    }
}

fn take_name(evaluation: &mut Evaluation, value: Option<Value>) -> Result<(), AllocError>
    ensures { OnOk result (evaluation.new ≡ name_step value evaluation.old) }
{
    match value {
        Some(value) => evaluation.stack.push(value),
        None => {
            evaluation.unknown = true;
            evaluation.stack.push(None)
        }
    }
}

fn take_term(
    locals: &Symbols,
    globals: &Symbols,
    term: &Term,
    evaluation: &mut Evaluation,
) -> Result<(), AllocError>
    ensures { OnOk result (evaluation.new
        ≡ term_step locals.now globals.now term.now evaluation.old) }
{
    match term {
        Term::Number(number) => take_number(evaluation, *number),
        Term::Name(name) => take_name(evaluation, value_of(locals, globals, name.as_slice())),
        Term::Operator(operator) => take_operator(evaluation, *operator),
    }
}

/// What an expression comes to where these names are seen.
pub(crate) fn evaluate(
    alloc: Global,
    locals: &Symbols,
    globals: &Symbols,
    expression: &Expression,
) -> Result<Evaluated, AllocError>
    ensures { IfOk result (λ e. e ≡ evaluated locals.now globals.now expression.now) }
{
    let terms = expression.as_slice();
    let mut evaluation = Evaluation {
        stack: Stack::new(alloc),
        unknown: false,
        outside: false,
    };
    for term in terms {
        take_term(locals, globals, term, &mut evaluation)?;
    }
    let value = pop(&mut evaluation.stack);
    Ok(Evaluated {
        value,
        unknown: evaluation.unknown,
        outside: evaluation.outside,
    })
}
