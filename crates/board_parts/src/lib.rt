//! Parts of a board: those that hear its pins, probes, each of which hears the changes of one pin and shows a line; and those that drive
//! its pins.
#![tactic(auto)]

pub mod aimed;
pub mod aiming;
pub mod attaching;
pub mod button;
pub mod change;
pub mod edge_counter;
pub mod laws;
pub mod loop_back;
pub mod part;
pub mod parts;
pub mod probe;
pub mod shift;
pub mod target;
pub mod wiring;
pub mod ws2812;
