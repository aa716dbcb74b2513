//! What each directive does to the program that is being assembled.

ghost use Rattle.std.specs.Prelude.{◌≡◌, ◌≤◌, ◌-◌, OnOk, IfSome};
ghost use Rattle.pio_asm.specs.Plan.{IsOptionalConfig, IsSound};
ghost use Rattle.pio_words.specs.Operation.{bit};
ghost use Rattle.pio_asm.specs.Step.{Makes, define_step, ends_outside, fitting, is_origin_fault, misfits, origin_step, side_set_step, target_step, word_member, word_step, wrap_step};

use crate::building::{Building, NO_FAULT, Verdict, check, or_memory};
use crate::line::Context;
use crate::names::{add_name, has_name, value_of_definition};
use crate::operand::{half_number, small_number};
use crate::plan::Member;
use crate::symbols::Value;
use crate::value::evaluate;
use pio_parse::{Expression, Name, PioFault};
use pio_words::SideConfig;

fn fits_not(low: u8, high: u8, value: Value) -> bool
    ensures { result ≡ misfits low high value }
{
    value.is_some() && fitting_number(low, high, value).is_none()
}

fn fitting_number(low: u8, high: u8, value: Value) -> Option<u8>
    ensures value { result ≡ fitting low high value }
    ensures inside { IfSome result (λ n. n ≤ high) }
{
    small_number(value?, low, high)
}

/// `.define name value`.
pub(crate) fn take_define<'a>(
    context: &Context<'_, 'a>,
    number: u64,
    twice: bool,
    name: &'a Name,
    value: &Expression,
    building: &mut Building<'a>,
) -> Result<(), PioFault>
    ensures step { Makes result building.new
        (define_step context.now.globals.now number twice name.now value.now building.old) }
    ensures side { building.new.side ≡ building.old.side }
{
    let defined = or_memory(evaluate(context.alloc, &building.seen, context.globals, value))?;
    let again = has_name(&building.seen, context.globals, name.as_slice());
    check(
        Verdict {
            unknown: defined.unknown,
            twice: twice || again,
            range: defined.outside,
            ..NO_FAULT
        },
        number,
    )?;
    or_memory(add_name(
        context.globals,
        &mut building.seen,
        name.as_slice(),
        value_of_definition(defined),
    ))
}

fn is_past_end(total: usize, origin: Option<u8>) -> bool
    requires { IfSome origin (λ n. n ≤ 31) }
    ensures { result ≡ ends_outside total origin }
{
    match origin {
        None => false,
        Some(origin) => ((32 - origin) as usize) < total,
    }
}

/// Whether an origin is repeated, comes after an instruction, is no address, or is one from which the
/// program ends outside the 32 addresses.
fn has_origin_fault(total: usize, value: Value, building: &Building) -> bool
    ensures { result ≡ is_origin_fault total value building.now }
{
    building.origin.is_some()
        || building.code.len() > 0
        || fits_not(0, 31, value)
        || is_past_end(total, fitting_number(0, 31, value))
}

/// `.origin address`.
pub(crate) fn take_origin<'a>(
    context: &Context<'_, 'a>,
    number: u64,
    twice: bool,
    value: &Expression,
    building: &mut Building<'a>,
) -> Result<(), PioFault>
    ensures step { Makes result building.new
        (origin_step context.now.globals.now context.now.total number twice value.now
        building.old) }
    ensures side { building.new.side ≡ building.old.side }
{
    let found = or_memory(evaluate(context.alloc, &building.seen, context.globals, value))?;
    let origin = has_origin_fault(context.total, found.value, building);
    check(
        Verdict {
            unknown: found.unknown,
            twice,
            range: found.outside,
            origin,
            ..NO_FAULT
        },
        number,
    )?;
    building.origin = fitting_number(0, 31, found.value);
    Ok(())
}

fn greatest_count(opt: bool) -> u8
    ensures { result ≡ 5 - bit opt }
{
    if opt { 4 } else { 5 }
}

/// `.side_set count [opt] [pindirs]`.
pub(crate) fn take_side_set<'a>(
    context: &Context<'_, 'a>,
    number: u64,
    twice: bool,
    count: &Expression,
    opt: bool,
    pindirs: bool,
    building: &mut Building<'a>,
) -> Result<(), PioFault>
    ensures step { Makes result building.new
        (side_set_step context.now.globals.now number twice count.now opt pindirs building.old) }
    ensures side { OnOk result (IsOptionalConfig building.new.side) }
{
    let found = or_memory(evaluate(context.alloc, &building.seen, context.globals, count))?;
    let greatest = greatest_count(opt);
    let side = building.side.is_some()
        || building.code.len() > 0
        || fits_not(0, greatest, found.value);
    check(
        Verdict {
            unknown: found.unknown,
            twice,
            range: found.outside,
            side,
            ..NO_FAULT
        },
        number,
    )?;
    let count = fitting_number(0, greatest, found.value).unwrap_or(0);
    building.side = Some(SideConfig {
        count,
        opt,
        pindirs,
    });
    Ok(())
}

/// `.wrap_target`.
pub(crate) fn take_target(
    context: &Context,
    number: u64,
    twice: bool,
    building: &mut Building,
) -> Result<(), PioFault>
    ensures step { Makes result building.new
        (target_step context.now.total number twice building.old) }
    ensures side { building.new.side ≡ building.old.side }
{
    let count = building.code.len();
    let wrap = building.target.is_some() || context.total <= count;
    check(
        Verdict {
            twice,
            wrap,
            ..NO_FAULT
        },
        number,
    )?;
    building.target = Some(count as u8);
    Ok(())
}

/// `.wrap`.
pub(crate) fn take_wrap(number: u64, twice: bool, building: &mut Building) -> Result<(), PioFault>
    ensures step { Makes result building.new (wrap_step number twice building.old) }
    ensures side { building.new.side ≡ building.old.side }
{
    let count = building.code.len();
    let wrap = building.wrap.is_some() || count == 0;
    check(
        Verdict {
            twice,
            wrap,
            ..NO_FAULT
        },
        number,
    )?;
    building.wrap = Some(count.saturating_sub(1) as u8);
    Ok(())
}

fn word_of_value(value: Value) -> Member
    ensures value { result ≡ word_member (fitting 0 65535 value) }
    ensures sound { IsSound result }
{
    value
        .and_then(half_number)
        .map_or(Member::Lost, Member::Word)
}

fn is_no_half(value: Value) -> bool
    ensures { result ≡ misfits 0 65535 value }
{
    value.is_some_and(|value| half_number(value).is_none())
}

/// `.word value`.
pub(crate) fn take_word<'a>(
    context: &Context<'_, 'a>,
    number: u64,
    twice: bool,
    value: &Expression,
    building: &mut Building<'a>,
) -> Result<(), PioFault>
    ensures step { Makes result building.new
        (word_step context.now.globals.now number twice value.now building.old) }
    ensures side { building.new.side ≡ building.old.side }
{
    let found = or_memory(evaluate(context.alloc, &building.seen, context.globals, value))?;
    let range = found.outside || is_no_half(found.value);
    let too_long = building.code.len() >= 32;
    check(
        Verdict {
            unknown: found.unknown,
            twice,
            range,
            too_long,
            ..NO_FAULT
        },
        number,
    )?;
    building.code.push(word_of_value(found.value));
    Ok(())
}
