//! The text of instruction words of the programmable input/output blocks: source that assembles to
//! the words again (RP2040 Datasheet, 3.3 and 3.4).
#![tactic(auto)]

mod names;
mod text;

pub use text::{hex_digits, write_source};
