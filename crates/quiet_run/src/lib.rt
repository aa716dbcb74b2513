//! Many cycles at once: a machine in which nobody has anything to do goes over as many as that lasts, and one in which core 0 alone is at
//! work in SRAM goes on by itself, and its peripherals are brought up behind it.
//!
//! Each part says for how many cycles it is quiet as long as what it is told stays (`quiet`), and is after so many what it would be
//! one by one (`pass`). The machine goes to the least of the ends.
#![tactic(auto)]

pub mod laws;
mod onward;
pub mod pass;
pub mod ways;

pub use onward::{Watch, bring_up, room_alone};
pub use pass::pass_waiting;
pub use ways::{Pace, pass_paced, pass_quiet, pass_watched};
