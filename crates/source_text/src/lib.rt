//! What all texts have in common: positions, lines and their parts, characters and numbers, and a table of names.
#![tactic(auto)]

mod characters;
mod lines;
mod numbers;
mod position;
mod symbols;

pub use characters::is_word_byte;
pub use lines::{find, first_line, first_part, without_return};
pub use numbers::{number_of, value_of_digits};
pub use position::{SourcePosition, position_after};
pub use symbols::Symbols;
