//! What a line puts into its program: an operation with its side-set value and delay, or the value of a `.word`.

ghost use Rattle.std.specs.Prelude.{◌≡◌, ◌≤◌, IfOk, IfSome, true, false, ◌||◌, ◌==◌};
ghost use Rattle.pio_asm.specs.Fits.{IsInRange};
ghost use Rattle.pio_asm.specs.Plan.{IsConfig, IsOptionalConfig, IsSound, delay_bits, greatest, instruction_in, member_of};

use crate::modifiers::{config_or_none, delay_modifier, side_modifier, side_value};
use crate::operand::{Modifier, Scope};
use crate::operation::plan_operation;
use pio_parse::Instruction;
use pio_words::{PioOp, SideConfig};
use std::alloc::AllocError;

/// What an instruction or a `.word` puts into a program.
#[derive(Clone, Copy, Default)]
pub(crate) enum Member {
    /// The value of a `.word`.
    Word(u16),
    /// An operation with its side-set value, or none, and its delay under a side-set configuration.
    Coded {
        op: PioOp,
        side: SideConfig,
        value: Option<u8>,
        delay: u8,
    },
    /// An instruction that uses a name whose definition has a fault. The line of that definition is
    /// refused.
    #[default]
    Lost,
}

/// The operation of an instruction.
#[derive(Clone, Copy)]
pub(crate) struct Planned {
    /// The operation, unless an operand has no value.
    pub(crate) op: Option<PioOp>,
    pub(crate) unknown: bool,
    pub(crate) range: bool,
}

/// An instruction with the faults that it has by itself.
#[derive(Clone, Copy)]
pub(crate) struct Judged {
    pub(crate) member: Member,
    pub(crate) unknown: bool,
    pub(crate) range: bool,
    pub(crate) delay: bool,
    pub(crate) side: bool,
}

/// What an instruction puts into its program.
#[tactic(auto, using(crate::proofs::Sides::side_fits))]
fn choose_member(
    config: &SideConfig,
    given: bool,
    op: Option<PioOp>,
    side: Modifier,
    delay: Modifier,
) -> Member
    requires config { IsConfig config.now }
    requires op { IfSome op IsInRange }
    requires side { side.value ≤ greatest config.now.count }
    requires delay { delay.value ≤ greatest (delay_bits config.now) }
    ensures value { result ≡ member_of config.now given op side delay }
    ensures sound { (given || config.now.opt || config.now.count == 0) ≡ true → IsSound result }
{
    match op {
        None => Member::Lost,
        Some(op) => {
            if side.lost || delay.lost {
                Member::Lost
            } else {
                let value = side_value(config, given, side.value);
                Member::Coded {
                    op,
                    side: *config,
                    value,
                    delay: delay.value,
                }
            }
        }
    }
}

/// An instruction with the faults that it has by itself, where this scope's names are seen.
pub(crate) fn judge_instruction(
    scope: &Scope,
    config: Option<SideConfig>,
    instruction: &Instruction,
) -> Result<Judged, AllocError>
    requires { IsOptionalConfig config }
    ensures value { IfOk result (λ j. j
        ≡ instruction_in scope.now.locals.now scope.now.globals.now config instruction.now) }
    ensures sound { IfOk result (λ j. j.side ≡ false → IsSound j.member) }
{
    let planned = plan_operation(scope, &instruction.operation)?;
    let side = side_modifier(scope, config, &instruction.side)?;
    let given = instruction.side.is_some();
    let config = config_or_none(config);
    let delay = delay_modifier(scope, &config, &instruction.delay)?;
    Ok(Judged {
        member: choose_member(&config, given, planned.op, side, delay),
        unknown: planned.unknown || side.unknown || delay.unknown,
        range: planned.range || side.outside || delay.outside,
        delay: delay.fault,
        side: side.fault,
    })
}
