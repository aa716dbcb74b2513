//! From the lines of a program to its words.

ghost use Rattle.std.specs.Prelude.{◌≡◌, ◌≤◌, ◌<◌, [], ◌∷◌, ◌++◌, Ok, None, OnOk, IfOk, IfErr, IsOkAnd};
ghost use Rattle.pio_asm.specs.Plan.{IsOptionalConfig};
ghost use Rattle.pio_asm.specs.Step.{names_of};
ghost use Rattle.source_text.specs.Symbols.{found, put};
ghost use Rattle.pio_asm.specs.Kept.{AllValued, AreKept};
ghost use Rattle.pio_asm.specs.Assembly.{Assembles, IsFaultOf, IsProgram, assembled, lines_from, lines_of, plan_of, program_lines, program_plan, programs_from};

use crate::building::{Building, Code, or_memory};
use crate::line::{Context, take_line};
use crate::modifiers::config_or_none;
use crate::names::{add_line_names, makes_member};
use crate::symbols::Symbols;
use pio_parse::{Line, PioFault, Source, SourceProgram};
use pio_program::{Name, Program};
use std::alloc::{AllocError, Global};

/// The names of lines, and how many instructions they have.
fn read_names<'a>(
    alloc: Global,
    globals: &Symbols<'a>,
    lines: &'a [Line],
) -> Result<(Symbols<'a>, usize), AllocError>
    ensures { IfOk result (λ names. names ≡ names_of globals.now [] 0 lines.now) }
{
    let mut names = Symbols::new(alloc);
    let mut count = 0;
    for line in lines {
        add_line_names(alloc, globals, count, line, &mut names)?;
        if makes_member(&line.statement) {
            count += 1;
        }
    }
    Ok((names, count))
}

fn take_lines<'a>(context: &Context<'_, 'a>, lines: &'a [Line]) -> Result<Building<'a>, PioFault>
    ensures ok { IfOk result (λ building. lines_of context.now.globals.now lines.now
        (context.now.whole.now, context.now.total) ≡ Ok building) }
    ensures side { IfOk result (λ building. IsOptionalConfig building.side) }
    ensures valued { AllValued context.now.globals.now
        → IfOk result (λ building. AllValued building.seen) }
    ensures err { IfErr result (IsFaultOf (lines_of context.now.globals.now lines.now
        (context.now.whole.now, context.now.total))) }
{
    let mut building = Building {
        seen: Symbols::new(context.alloc),
        code: Code::new(),
        side: None,
        origin: None,
        target: None,
        wrap: None,
    };
    for line in lines {
        take_line(context, line, &mut building)?;
    }
    Ok(building)
}

/// The parts of a program that is built.
fn finish(name: Name, building: Building) -> Program
    requires side { IsOptionalConfig building.side }
    requires kept { AreKept building.code }
    ensures { IsProgram (plan_of name building.entry) result }
{
    let last = building.code.len().saturating_sub(1) as u8;
    Program {
        name,
        words: building.code.into_words(),
        origin: building.origin,
        target: building.target.unwrap_or(0),
        wrap: building.wrap.unwrap_or(last),
        side: config_or_none(building.side),
    }
}

/// A program whose names and number of instructions are known.
#[tactic(auto, using(crate::proofs::Keeping::program_kept))]
fn take_body<'a>(context: &Context<'_, 'a>, program: &'a SourceProgram) -> Result<Program, PioFault>
    requires names { (context.now.whole.now, context.now.total)
        ≡ names_of context.now.globals.now [] 0 program.now.lines }
    requires valued { AllValued context.now.globals.now }
    ensures ok { IfOk result (λ made. IsOkAnd (program_lines context.now.globals.now program.now
        (context.now.whole.now, context.now.total)) (λ plan. IsProgram plan made)) }
    ensures err { IfErr result (IsFaultOf (program_lines context.now.globals.now program.now
        (context.now.whole.now, context.now.total))) }
{
    if context.total == 0 {
        return Err(PioFault::Wrap(program.number));
    }
    let building = take_lines(context, program.lines.as_slice())?;
    let name = or_memory(Name::from_slice(context.alloc, program.name.as_slice()))?;
    Ok(finish(name, building))
}

/// A program, where programs of the names `taken` stand before it.
fn take_program<'a>(
    alloc: Global,
    globals: &Symbols<'a>,
    taken: &Symbols<'a>,
    program: &'a SourceProgram,
) -> Result<Program, PioFault>
    requires { AllValued globals.now }
    ensures ok { IfOk result (λ made. IsOkAnd (program_plan globals.now taken.now program.now)
        (λ plan. IsProgram plan made)) }
    ensures new { IfOk result (λ made. found program.now.name taken.now ≡ None) }
    ensures err { IfErr result (IsFaultOf (program_plan globals.now taken.now program.now)) }
{
    match taken.get(program.name.as_slice()) {
        Some(_) => Err(PioFault::Twice(program.number)),
        None => {
            let (whole, total) = or_memory(read_names(alloc, globals, program.lines.as_slice()))?;
            let context = Context {
                alloc,
                whole: &whole,
                globals,
                total,
            };
            take_body(&context, program)
        }
    }
}

fn add_program<'a>(
    taken: &mut Symbols<'a>,
    made: &mut Vec<Program>,
    name: &'a [u8],
    program: Program,
) -> Result<(), AllocError>
    ensures taken { OnOk result (taken.new ≡ put name.now None taken.old) }
    ensures made { OnOk result (made.new.items ≡ made.old.items ++ program ∷ []) }
{
    taken.put(name, None)?;
    made.push(program)?;
    Ok(())
}

fn take_programs<'a>(
    alloc: Global,
    globals: &Symbols<'a>,
    programs: &'a [SourceProgram],
) -> Result<Vec<Program>, PioFault>
    requires { AllValued globals.now }
    ensures ok { IfOk result (λ made. Assembles made.items
        (programs_from globals.now [] [] programs.now)) }
    ensures err { IfErr result (IsFaultOf (programs_from globals.now [] [] programs.now)) }
{
    let mut made = Vec::new(alloc);
    let mut taken = Symbols::new(alloc);
    for program in programs {
        let next = take_program(alloc, globals, &taken, program)?;
        match add_program(&mut taken, &mut made, program.name.as_slice(), next) {
            Ok(()) => {}
            Err(_) => return Err(PioFault::Memory),
        }
    }
    Ok(made)
}

/// The programs of a source, in order, or the source's first fault (RP2040 Datasheet, 3.3): of the
/// first line that has a fault, the one with the least number.
///
/// Memory may run out at any time.
pub fn assemble(alloc: Global, source: &Source) -> Result<Vec<Program>, PioFault>
    ensures ok { IfOk result (λ programs. Assembles programs.items (assembled source.now)) }
    ensures err { IfErr result (IsFaultOf (assembled source.now)) }
{
    let nothing = Symbols::new(alloc);
    let (whole, total) = or_memory(read_names(alloc, &nothing, source.globals.as_slice()))?;
    let context = Context {
        alloc,
        whole: &whole,
        globals: &nothing,
        total,
    };
    let building = take_lines(&context, source.globals.as_slice())?;
    take_programs(alloc, &building.seen, source.programs.as_slice())
}
