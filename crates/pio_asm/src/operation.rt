//! The operation of an instruction, with its operands evaluated.

ghost use Rattle.std.specs.Prelude.{◌≡◌, ◌≤◌, IfOk, IfSome, false, Some, option_map, if◌then◌else◌};
ghost use Rattle.pio_asm.specs.Fits.{IsInRange, IsWaitInRange};
ghost use Rattle.pio_asm.specs.Operand.{field_in, polarity_in};
ghost use Rattle.pio_asm.specs.Plan.{operation_in, planned_by, planned_of, waited, waited_for};

use crate::operand::{Field, Scope, read_field, read_polarity};
use crate::plan::Planned;
use pio_parse::{Expression, Operation};
use pio_words::{
    InSource, IrqIndex, JmpCondition, OutDestination, PioOp, SetDestination, WaitSource,
};
use std::alloc::AllocError;

fn plan(op: Option<PioOp>, field: Field) -> Planned
    ensures { result ≡ planned_of op field }
{
    Planned {
        op,
        unknown: field.unknown,
        range: field.range,
    }
}

/// An operation with no operand that could have a fault.
fn sure(op: PioOp) -> Planned
    ensures { result ≡ record { op = Some op; unknown = false; range = false } }
{
    Planned {
        op: Some(op),
        unknown: false,
        range: false,
    }
}

/// A `wait` for a source, which an operand may have left without a value.
fn plan_wait(polarity: Field, source: Option<WaitSource>, number: Field) -> Planned
    requires { IfSome source IsWaitInRange }
    ensures value { result ≡ waited polarity source number }
    ensures fits { IfSome result.op IsInRange }
{
    let op = match (polarity.value, source) {
        (Some(polarity), Some(source)) => Some(PioOp::Wait {
            polarity: polarity == 1,
            source,
        }),
        _ => None,
    };
    Planned {
        op,
        unknown: polarity.unknown || number.unknown,
        range: polarity.range || number.range,
    }
}

fn wait_for_irq(number: Option<u8>, relative: bool) -> Option<WaitSource>
    requires { IfSome number (λ n. n ≤ 7) }
    ensures value { result ≡ option_map
        (λ n. WaitSource.Irq (record { number = n; relative = relative })) number }
    ensures fits { IfSome result IsWaitInRange }
{
    number.map(|number| WaitSource::Irq(IrqIndex { number, relative }))
}

fn wait_for_pin(number: Option<u8>, is_gpio: bool) -> Option<WaitSource>
    requires { IfSome number (λ n. n ≤ 31) }
    ensures value { result ≡ option_map (λ n. if is_gpio then WaitSource.Gpio n
        else WaitSource.Pin n) number }
    ensures fits { IfSome result IsWaitInRange }
{
    match number {
        None => None,
        Some(number) => Some(if is_gpio {
            WaitSource::Gpio(number)
        } else {
            WaitSource::Pin(number)
        }),
    }
}

fn plan_jmp(
    scope: &Scope,
    condition: JmpCondition,
    target: &Expression,
) -> Result<Planned, AllocError>
    ensures value { IfOk result (λ p. p ≡ planned_by (λ n. PioOp.Jmp condition n)
        (field_in scope.now.locals.now scope.now.globals.now 0 31 target.now)) }
    ensures fits { IfOk result (λ p. IfSome p.op IsInRange) }
{
    let field = read_field(scope, target, 0, 31)?;
    Ok(plan(
        field.value.map(|address| PioOp::Jmp { condition, address }),
        field,
    ))
}

fn plan_wait_pin(
    scope: &Scope,
    polarity: &Option<Expression>,
    number: &Expression,
    is_gpio: bool,
) -> Result<Planned, AllocError>
    ensures value { IfOk result (λ p. p ≡ waited_for (λ n. if is_gpio then WaitSource.Gpio n
        else WaitSource.Pin n) (polarity_in scope.now.locals.now scope.now.globals.now polarity.now)
        (field_in scope.now.locals.now scope.now.globals.now 0 31 number.now)) }
    ensures fits { IfOk result (λ p. IfSome p.op IsInRange) }
{
    let polarity = read_polarity(scope, polarity)?;
    let field = read_field(scope, number, 0, 31)?;
    Ok(plan_wait(polarity, wait_for_pin(field.value, is_gpio), field))
}

fn plan_wait_irq(
    scope: &Scope,
    polarity: &Option<Expression>,
    number: &Expression,
    relative: bool,
) -> Result<Planned, AllocError>
    ensures value { IfOk result (λ p. p
        ≡ waited_for (λ n. WaitSource.Irq (record { number = n; relative = relative }))
        (polarity_in scope.now.locals.now scope.now.globals.now polarity.now)
        (field_in scope.now.locals.now scope.now.globals.now 0 7 number.now)) }
    ensures fits { IfOk result (λ p. IfSome p.op IsInRange) }
{
    let polarity = read_polarity(scope, polarity)?;
    let field = read_field(scope, number, 0, 7)?;
    Ok(plan_wait(polarity, wait_for_irq(field.value, relative), field))
}

fn plan_in(scope: &Scope, source: InSource, count: &Expression) -> Result<Planned, AllocError>
    ensures value { IfOk result (λ p. p ≡ planned_by (λ n. PioOp.In source n)
        (field_in scope.now.locals.now scope.now.globals.now 1 32 count.now)) }
    ensures fits { IfOk result (λ p. IfSome p.op IsInRange) }
{
    let field = read_field(scope, count, 1, 32)?;
    Ok(plan(field.value.map(|count| PioOp::In { source, count }), field))
}

fn plan_out(
    scope: &Scope,
    destination: OutDestination,
    count: &Expression,
) -> Result<Planned, AllocError>
    ensures value { IfOk result (λ p. p ≡ planned_by (λ n. PioOp.Out destination n)
        (field_in scope.now.locals.now scope.now.globals.now 1 32 count.now)) }
    ensures fits { IfOk result (λ p. IfSome p.op IsInRange) }
{
    let field = read_field(scope, count, 1, 32)?;
    Ok(plan(
        field.value.map(|count| PioOp::Out { destination, count }),
        field,
    ))
}

fn plan_irq(
    scope: &Scope,
    clear: bool,
    wait: bool,
    number: &Expression,
    relative: bool,
) -> Result<Planned, AllocError>
    ensures value { IfOk result (λ p. p
        ≡ planned_by (λ n. PioOp.Irq clear wait (record { number = n; relative = relative }))
        (field_in scope.now.locals.now scope.now.globals.now 0 7 number.now)) }
    ensures fits { IfOk result (λ p. IfSome p.op IsInRange) }
{
    let field = read_field(scope, number, 0, 7)?;
    let op = field.value.map(|number| PioOp::Irq {
        clear,
        wait,
        index: IrqIndex { number, relative },
    });
    Ok(plan(op, field))
}

fn plan_set(
    scope: &Scope,
    destination: SetDestination,
    value: &Expression,
) -> Result<Planned, AllocError>
    ensures value { IfOk result (λ p. p ≡ planned_by (λ n. PioOp.Set destination n)
        (field_in scope.now.locals.now scope.now.globals.now 0 31 value.now)) }
    ensures fits { IfOk result (λ p. IfSome p.op IsInRange) }
{
    let field = read_field(scope, value, 0, 31)?;
    Ok(plan(
        field.value.map(|value| PioOp::Set { destination, value }),
        field,
    ))
}

/// The operation of an instruction, with its operands where this scope's names are seen.
pub(crate) fn plan_operation(scope: &Scope, operation: &Operation) -> Result<Planned, AllocError>
    ensures value { IfOk result (λ p. p
        ≡ operation_in scope.now.locals.now scope.now.globals.now operation.now) }
    ensures fits { IfOk result (λ p. IfSome p.op IsInRange) }
{
    match operation {
        Operation::Jmp { condition, target } => plan_jmp(scope, *condition, target),
        Operation::WaitGpio { polarity, number } => plan_wait_pin(scope, polarity, number, true),
        Operation::WaitPin { polarity, number } => plan_wait_pin(scope, polarity, number, false),
        Operation::WaitIrq {
            polarity,
            number,
            relative,
        } => { plan_wait_irq(scope, polarity, number, *relative) }
        Operation::In { source, count } => plan_in(scope, *source, count),
        Operation::Out { destination, count } => plan_out(scope, *destination, count),
        Operation::Push { if_full, block } => {
            Ok(sure(PioOp::Push {
                if_full: *if_full,
                block: *block,
            }))
        }
        Operation::Pull { if_empty, block } => {
            Ok(sure(PioOp::Pull {
                if_empty: *if_empty,
                block: *block,
            }))
        }
        Operation::Mov {
            destination,
            operation,
            source,
        } => Ok(sure(PioOp::Mov {
            destination: *destination,
            operation: *operation,
            source: *source,
        })),
        Operation::Irq {
            clear,
            wait,
            number,
            relative,
        } => { plan_irq(scope, *clear, *wait, number, *relative) }
        Operation::Set { destination, value } => plan_set(scope, *destination, value),
    }
}
