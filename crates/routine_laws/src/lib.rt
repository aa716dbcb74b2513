//! What the routines of the table leave that an image can be linked with, each law the contract of a function without arguments.
//!
//! A routine is run by a core alone over SRAM, each access of which is done at once, while every interrupt line is low, no
//! exception that is enabled is pending, and the system timer asks for none.
#![tactic(auto)]

ghost use Rattle.routine_laws.specs.Routines.{MemcpyCopies, MemsetSets};

use core_runs::laws::a_halfword_steps;

/// memset of n places takes 6n + 5 cycles: they hold the low byte of R1 then, and all others what they held.
pub fn memset_sets()
    ensures { MemsetSets }
{
    a_halfword_steps();
}

/// memcpy of n places takes 8n + 5 cycles: they hold what those of the source held, which do not overlap them, and all others
/// what they held.
pub fn memcpy_copies()
    ensures { MemcpyCopies }
{
    a_halfword_steps();
}
