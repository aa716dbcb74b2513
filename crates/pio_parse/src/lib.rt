//! The source language of the programmable input/output blocks (RP2040 Datasheet, 3.3): characters,
//! tokens and the grammar of a line.
#![tactic(auto)]

mod cursor;
mod expression;
mod fault;
pub mod grammar;
mod instruction;
mod jump;
pub mod laws;
mod operands;
mod parser;
mod registers;
mod scan;
mod sequence;
mod statement;
mod syntax;
mod token;
mod transfer;
mod wait;
mod words;

pub use expression::{Expression, Operator, Term};
pub use fault::PioFault;
pub use parser::parse;
pub use pio_program::Name;
pub use sequence::{Sequence, Stack};
pub use syntax::{
    BoxedInstruction, Instruction, Line, Lines, Operation, Programs, Source, SourceProgram,
    Statement,
};
