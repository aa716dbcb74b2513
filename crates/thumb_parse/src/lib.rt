//! The lines of a Thumb source (ARMv6-M Architecture Reference Manual, A6.7): `[name:] [item]`, where `;` begins a comment.
#![tactic(auto)]

mod form;
mod form_ops;
mod item;
pub mod laws;
mod mnemonic;
mod operands;
mod scan;
mod statement;
mod token;
mod words;

pub use form::name_text;
pub use item::Item;
pub use mnemonic::Mnemonic;
pub use scan::{are_allowed, code_part};
pub use statement::{Statement, read_statement};
pub use token::{Number, Span, Token};
