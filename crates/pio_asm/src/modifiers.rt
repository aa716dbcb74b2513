//! The delay and the side-set value of an instruction.

ghost use Rattle.std.specs.Prelude.{◌≡◌, ◌≤◌, IfOk, true, false, is_some, ◌||◌, ◌==◌};
ghost use Rattle.pio_asm.specs.Plan.{IsConfig, IsOptionalConfig, config_of, delay_bits, delay_modifier_in, greatest, side_modifier_in, side_value_of};

use crate::operand::{Modifier, Scope, read_modifier};
use pio_parse::Expression;
use pio_words::SideConfig;
use std::alloc::AllocError;

/// The greatest number of so many bits.
fn greatest_of(bits: u8) -> u8
    requires { bits ≤ 5 }
    ensures { result ≡ greatest bits }
{
    match bits {
        0 => 0,
        1 => 1,
        2 => 3,
        3 => 7,
        4 => 15,
        _ => 31,
    }
}

/// The bits of a delay.
fn bits_of_delay(config: &SideConfig) -> u8
    requires { IsConfig config.now }
    ensures value { result ≡ delay_bits config.now }
    ensures small { result ≤ 5 }
{
    if config.opt {
        4 - config.count
    } else {
        5 - config.count
    }
}

const NO_MODIFIER: Modifier = Modifier {
    value: 0,
    lost: false,
    unknown: false,
    outside: false,
    fault: false,
};

const NO_SIDE: SideConfig = SideConfig {
    count: 0,
    opt: false,
    pindirs: false,
};

/// The side-set configuration of a program, which may have none.
pub(crate) fn config_or_none(config: Option<SideConfig>) -> SideConfig
    requires { IsOptionalConfig config }
    ensures value { result ≡ config_of config }
    ensures fits { IsConfig result }
{
    config.unwrap_or(NO_SIDE)
}

pub(crate) fn side_modifier(
    scope: &Scope,
    config: Option<SideConfig>,
    side: &Option<Expression>,
) -> Result<Modifier, AllocError>
    requires { IsOptionalConfig config }
    ensures value { IfOk result (λ p. p
        ≡ side_modifier_in scope.now.locals.now scope.now.globals.now config side.now) }
    ensures inside { IfOk result (λ p. p.value ≤ greatest (config_of config).count) }
    ensures fault { IfOk result (λ p. p.fault ≡ false
        → (is_some side.now || (config_of config).opt || (config_of config).count == 0) ≡ true) }
{
    match config {
        None => match side {
            None => Ok(NO_MODIFIER),
            Some(side) => {
                let mut modifier = read_modifier(scope, side, 0)?;
                modifier.fault = true;
                Ok(modifier)
            }
        },
        Some(config) => match side {
            None => Ok(Modifier {
                fault: !config.opt,
                ..NO_MODIFIER
            }),
            Some(side) => read_modifier(scope, side, greatest_of(config.count)),
        },
    }
}

pub(crate) fn delay_modifier(
    scope: &Scope,
    config: &SideConfig,
    delay: &Option<Expression>,
) -> Result<Modifier, AllocError>
    requires { IsConfig config.now }
    ensures value { IfOk result (λ p. p
        ≡ delay_modifier_in scope.now.locals.now scope.now.globals.now config.now delay.now) }
    ensures inside { IfOk result (λ p. p.value ≤ greatest (delay_bits config.now)) }
{
    match delay {
        None => Ok(NO_MODIFIER),
        Some(delay) => read_modifier(scope, delay, greatest_of(bits_of_delay(config))),
    }
}

/// The value that the word has, if it has bits for one.
pub(crate) fn side_value(config: &SideConfig, given: bool, value: u8) -> Option<u8>
    ensures { result ≡ side_value_of config.now given value }
{
    (given && (config.opt || config.count != 0)).then_some(value)
}
