//! A line of a program: its directive or its instruction.

ghost use Rattle.std.specs.Prelude.{◌≡◌, OnOk};
ghost use Rattle.pio_asm.specs.Plan.{IsOptionalConfig};
ghost use Rattle.pio_asm.specs.Step.{Makes, instruction_step, line_step, statement_step};

use crate::building::{Building, NO_FAULT, Verdict, check, or_memory};
use crate::directive::{
    take_define, take_origin, take_side_set, take_target, take_word, take_wrap,
};
use crate::names::{add_label, is_twice};
use crate::operand::Scope;
use crate::plan::judge_instruction;
use crate::symbols::Symbols;
use pio_parse::{Instruction, Line, PioFault, Statement};
use std::alloc::Global;

/// What a line of a program sees.
#[derive(Clone, Copy)]
pub(crate) struct Context<'s, 'a> {
    pub(crate) alloc: Global,
    /// The names of the whole program.
    pub(crate) whole: &'s Symbols<'a>,
    /// The names before the first program.
    pub(crate) globals: &'s Symbols<'a>,
    /// How many instructions the program has.
    pub(crate) total: usize,
}

/// An instruction.
fn take_instruction(
    context: &Context,
    number: u64,
    twice: bool,
    instruction: &Instruction,
    building: &mut Building,
) -> Result<(), PioFault>
    requires { IsOptionalConfig building.old.side }
    ensures step { Makes result building.new
        (instruction_step context.now.whole.now context.now.globals.now number twice instruction.now
        building.old) }
    ensures side { building.new.side ≡ building.old.side }
{
    let scope = Scope {
        alloc: context.alloc,
        locals: context.whole,
        globals: context.globals,
    };
    let judged = or_memory(judge_instruction(&scope, building.side, instruction))?;
    let too_long = building.code.len() >= 32;
    check(
        Verdict {
            unknown: judged.unknown,
            twice,
            range: judged.range,
            delay: judged.delay,
            side: judged.side,
            too_long,
            ..NO_FAULT
        },
        number,
    )?;
    building.code.push(judged.member);
    Ok(())
}

fn take_statement<'a>(
    context: &Context<'_, 'a>,
    number: u64,
    twice: bool,
    statement: &'a Option<Statement>,
    building: &mut Building<'a>,
) -> Result<(), PioFault>
    requires { IsOptionalConfig building.old.side }
    ensures step { Makes result building.new
        (statement_step context.now.whole.now context.now.globals.now context.now.total number twice
        statement.now building.old) }
    ensures side { OnOk result (IsOptionalConfig building.new.side) }
{
    match statement {
        None | Some(Statement::Program(_)) => check(Verdict { twice, ..NO_FAULT }, number),
        Some(Statement::Define { name, value }) => {
            take_define(context, number, twice, name, value, building)
        }
        Some(Statement::Origin(value)) => take_origin(context, number, twice, value, building),
        Some(
            Statement::SideSet {
                count,
                opt,
                pindirs,
            },
        ) => { take_side_set(context, number, twice, count, *opt, *pindirs, building) }
        Some(Statement::WrapTarget) => take_target(context, number, twice, building),
        Some(Statement::Wrap) => take_wrap(number, twice, building),
        Some(Statement::Word(value)) => take_word(context, number, twice, value, building),
        Some(Statement::Instruction(instruction)) => {
            take_instruction(
                context,
                number,
                twice,
                instruction.as_instruction(),
                building,
            )
        }
    }
}

/// A line of a program.
pub(crate) fn take_line<'a>(
    context: &Context<'_, 'a>,
    line: &'a Line,
    building: &mut Building<'a>,
) -> Result<(), PioFault>
    requires { IsOptionalConfig building.old.side }
    ensures step { Makes result building.new
        (line_step context.now.whole.now context.now.globals.now context.now.total line.now
        building.old) }
    ensures side { OnOk result (IsOptionalConfig building.new.side) }
{
    let twice = is_twice(context.globals, &line.label, &building.seen);
    let count = building.code.len();
    or_memory(add_label(context.globals, count, &line.label, &mut building.seen))?;
    take_statement(context, line.number, twice, &line.statement, building)
}
