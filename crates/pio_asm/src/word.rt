//! The word of each member of a program.

ghost use Rattle.pio_words.specs.Word.{IsWord};
ghost use Rattle.pio_asm.specs.Fits.{FitsSide, IsInRange};
ghost use Rattle.pio_asm.specs.Plan.{IsSound};
ghost use Rattle.pio_asm.specs.Kept.{StandsIfKept};

use crate::plan::Member;
use pio_words::{PioOp, SideConfig, encode};

/// The word of an operation that fits.
fn word_of_operation(op: &PioOp, side: &SideConfig, value: Option<u8>, delay: u8) -> u16
    requires op { IsInRange op.now }
    requires side { FitsSide side.now value delay }
    ensures { IsWord op.now side.now value delay result }
{
    match encode(op, side, value, delay) {
        Some(word) => word,
        None => 0,
    }
}

/// The word of a member. One that uses a name whose definition has a fault has none, and is in no program.
pub(crate) fn word_of_member(member: &Member) -> u16
    requires { IsSound member.now }
    ensures { StandsIfKept member.now result }
{
    match member {
        Member::Word(word) => *word,
        Member::Coded {
            op,
            side,
            value,
            delay,
        } => word_of_operation(op, side, *value, *delay),
        Member::Lost => 0,
    }
}
