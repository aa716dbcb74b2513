//! What each ARMv6-M instruction does: the beats that it takes and the accesses that it makes, and what it leaves in the
//! registers and flags. Each function is defined in `specs/`, row by row of the manual's encodings.
#![tactic(auto)]

pub mod conditions;
pub mod cycles;
pub mod effects;
pub mod faults;
pub mod one_beat;
pub mod registers;
pub mod rows;
pub mod special;
pub mod table;
pub mod timing;

pub use cycles::{beat_count, has_more, is_one_access};
pub use effects::effect;
pub use faults::{exception_return, is_unaligned, shape_is_unaligned};
pub use one_beat::{beat_at, shape_beat};
pub use registers::Regs;
pub use table::{Shape, shape_of};
pub use timing::{Beat, beats};
