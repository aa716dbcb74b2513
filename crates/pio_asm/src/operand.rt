//! Operands of an instruction, each within its field.

ghost use Rattle.std.specs.Prelude.{◌≡◌, ◌≤◌, IfOk, IfSome};
ghost use Rattle.pio_asm.specs.Value.{evaluated};
ghost use Rattle.pio_asm.specs.Operand.{field_in, field_of, number_within, modifier_in, modifier_of, polarity_in};

use crate::symbols::Symbols;
use crate::value::{Evaluated, evaluate};
use pio_parse::Expression;
use std::alloc::{AllocError, Global};

/// The names that an operand sees: those of its program, and those before the first program.
#[derive(Clone, Copy)]
pub(crate) struct Scope<'s, 'a> {
    pub(crate) alloc: Global,
    pub(crate) locals: &'s Symbols<'a>,
    pub(crate) globals: &'s Symbols<'a>,
}

impl Scope<'_, '_> {
    /// What an expression comes to.
    pub(crate) fn evaluate(&self, expression: &Expression) -> Result<Evaluated, AllocError>
        ensures { IfOk result (λ e. e
            ≡ evaluated self.now.locals.now self.now.globals.now expression.now) }
    {
        evaluate(self.alloc, self.locals, self.globals, expression)
    }
}

/// An operand of an instruction.
#[derive(Clone, Copy)]
pub(crate) struct Field {
    /// Its value, unless it has a fault or uses a name whose definition has one.
    pub(crate) value: Option<u8>,
    /// Whether a name in it is not defined.
    pub(crate) unknown: bool,
    /// Whether a value is out of bounds at a step, or does not fit the field.
    pub(crate) range: bool,
}

/// A side-set value or a delay.
#[derive(Clone, Copy)]
pub(crate) struct Modifier {
    /// Its value, or 0.
    pub(crate) value: u8,
    /// Whether it uses a name whose definition has a fault.
    pub(crate) lost: bool,
    /// Whether a name in it is not defined.
    pub(crate) unknown: bool,
    /// Whether a value is out of bounds at a step.
    pub(crate) outside: bool,
    /// Whether it does not fit its bits.
    pub(crate) fault: bool,
}

/// The number that a value is, if it is in this range.
pub(crate) fn small_number(value: i64, low: u8, high: u8) -> Option<u8>
    ensures value { result ≡ number_within low high value }
    ensures inside { IfSome result (λ n. (low ≤ n) × (n ≤ high)) }
{
    if low as i64 <= value && value <= high as i64 {
        Some(value as u8)
    } else {
        None
    }
}

/// The halfword that a value is, if it is one.
pub(crate) fn half_number(value: i64) -> Option<u16>
    ensures { result ≡ number_within 0 65535 value }
{
    if 0 <= value && value <= 65535 {
        Some(value as u16)
    } else {
        None
    }
}

fn field_for(evaluated: Evaluated, low: u8, high: u8) -> Field
    ensures value { result ≡ field_of low high evaluated }
    ensures inside { IfSome result.value (λ n. (low ≤ n) × (n ≤ high)) }
{
    let Evaluated {
        value,
        unknown,
        outside,
    } = evaluated;
    let (value, range) = match value {
        None => (None, outside),
        Some(value) => match small_number(value, low, high) {
            None => (None, true),
            fitting => (fitting, outside),
        },
    };
    Field {
        value,
        unknown,
        range,
    }
}

/// An operand whose value has to be in this range.
pub(crate) fn read_field(
    scope: &Scope,
    expression: &Expression,
    low: u8,
    high: u8,
) -> Result<Field, AllocError>
    ensures value { IfOk result (λ f. f
        ≡ field_in scope.now.locals.now scope.now.globals.now low high expression.now) }
    ensures inside { IfOk result (λ f. IfSome f.value (λ n. (low ≤ n) × (n ≤ high))) }
{
    Ok(field_for(scope.evaluate(expression)?, low, high))
}

/// A polarity, which is 1 where none is written.
pub(crate) fn read_polarity(
    scope: &Scope,
    expression: &Option<Expression>,
) -> Result<Field, AllocError>
    ensures { IfOk result (λ f. f ≡ polarity_in scope.now.locals.now scope.now.globals.now
        expression.now) }
{
    match expression {
        None => Ok(Field {
            value: Some(1),
            unknown: false,
            range: false,
        }),
        Some(expression) => read_field(scope, expression, 0, 1),
    }
}

fn modifier_for(evaluated: Evaluated, greatest: u8) -> Modifier
    ensures value { result ≡ modifier_of greatest evaluated }
    ensures inside { result.value ≤ greatest }
{
    let Evaluated {
        value,
        unknown,
        outside,
    } = evaluated;
    let (value, lost, fault) = match value {
        None => (0, true, false),
        Some(value) => match small_number(value, 0, greatest) {
            Some(value) => (value, false, false),
            None => (0, false, true),
        },
    };
    Modifier {
        value,
        lost,
        unknown,
        outside,
        fault,
    }
}

/// A side-set value or a delay of at most `greatest`.
pub(crate) fn read_modifier(
    scope: &Scope,
    expression: &Expression,
    greatest: u8,
) -> Result<Modifier, AllocError>
    ensures value { IfOk result (λ p. p
        ≡ modifier_in scope.now.locals.now scope.now.globals.now greatest expression.now) }
    ensures inside { IfOk result (λ p. p.value ≤ greatest) }
{
    Ok(modifier_for(scope.evaluate(expression)?, greatest))
}
