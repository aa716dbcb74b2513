//! What a source says, line by line, with its expressions not evaluated.

ghost use Rattle.std.specs.Prelude.{◌≡◌, IfOk};

use crate::expression::Expression;
use crate::sequence::Sequence;
use pio_program::Name;
use pio_words::{
    InSource, JmpCondition, MovDestination, MovOperation, MovSource, OutDestination, SetDestination,
};
use std::alloc::{AllocError, Global};
use std::marker::Model;

/// What an instruction does, with its operands not yet evaluated (RP2040 Datasheet, 3.4).
#[derive(Drop)]
pub enum Operation {
    Jmp {
        condition: JmpCondition,
        target: Expression,
    },
    /// `wait [polarity] gpio number`.
    WaitGpio {
        polarity: Option<Expression>,
        number: Expression,
    },
    /// `wait [polarity] pin number`.
    WaitPin {
        polarity: Option<Expression>,
        number: Expression,
    },
    /// `wait [polarity] irq number [rel]`.
    WaitIrq {
        polarity: Option<Expression>,
        number: Expression,
        relative: bool,
    },
    In {
        source: InSource,
        count: Expression,
    },
    Out {
        destination: OutDestination,
        count: Expression,
    },
    Push {
        if_full: bool,
        block: bool,
    },
    Pull {
        if_empty: bool,
        block: bool,
    },
    Mov {
        destination: MovDestination,
        operation: MovOperation,
        source: MovSource,
    },
    Irq {
        clear: bool,
        wait: bool,
        number: Expression,
        relative: bool,
    },
    Set {
        destination: SetDestination,
        value: Expression,
    },
}

/// An instruction with its side-set value and its delay, where they are written.
#[derive(Drop)]
pub struct Instruction {
    pub operation: Operation,
    pub side: Option<Expression>,
    pub delay: Option<Expression>,
}

/// An instruction in a block of memory of its own, so that a line without one stays small. It is seen as
/// the instruction.
#[derive(Drop)]
pub struct BoxedInstruction {
    instruction: Box<Instruction>,
}

impl Model for BoxedInstruction {
    ghost use Rattle.pio_parse.specs.declared.syntax.Instruction.{Instruction};

    ghost Value = { Instruction };

    ghost view = { λ boxed. boxed.instruction.value };
}

impl BoxedInstruction {
    pub(crate) fn new(
        alloc: Global,
        instruction: Instruction,
    ) -> Result<BoxedInstruction, AllocError>
        ensures { IfOk result (λ boxed. boxed ≡ instruction) }
    {
        let instruction = Box::new(alloc, instruction)?;
        Ok(BoxedInstruction { instruction })
    }

    /// The instruction.
    pub fn as_instruction(&self) -> &Instruction
        ensures { result.now ≡ self.now }
    {
        self.instruction.as_ref()
    }
}

/// What a line says after its label (RP2040 Datasheet, 3.3, Directives).
#[derive(Drop)]
pub enum Statement {
    /// `.program name`.
    Program(Name),
    /// `.define [public] name value`.
    Define {
        name: Name,
        value: Expression,
    },
    /// `.origin address`.
    Origin(Expression),
    /// `.side_set count [opt] [pindirs]`.
    SideSet {
        count: Expression,
        opt: bool,
        pindirs: bool,
    },
    /// `.wrap_target`.
    WrapTarget,
    /// `.wrap`.
    Wrap,
    /// `.word value`.
    Word(Expression),
    Instruction(BoxedInstruction),
}

/// A line that has a label or a statement.
#[derive(Drop)]
pub struct Line {
    /// The line of its first token, from 1.
    pub number: u64,
    pub label: Option<Name>,
    pub statement: Option<Statement>,
}

/// Lines in order.
pub type Lines = Sequence<Line>;

/// A program: its name and the lines after its `.program` line. A label of the next `.program` line is
/// a line of its own at the end.
#[derive(Drop)]
pub struct SourceProgram {
    pub name: Name,
    /// The line of its `.program`.
    pub number: u64,
    pub lines: Lines,
}

/// Programs in order.
pub type Programs = Sequence<SourceProgram>;

/// A whole file.
#[derive(Drop)]
pub struct Source {
    /// The lines before the first `.program`.
    pub globals: Lines,
    pub programs: Programs,
}
