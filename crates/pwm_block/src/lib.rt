//! The PWM block of the RP2040: eight slices, each a counter with two outputs, as a device whose state is 68 words. What each call
//! does is defined in `specs/` on a list of slices.
#![tactic(auto)]

mod change;
mod device;
pub mod laws;
mod packing;
pub mod registers;
mod slice;
mod words;

pub use device::Pwm;
