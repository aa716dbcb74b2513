//! Why a text is no source.

ghost use Rattle.std.specs.Prelude.{◌≡◌};
ghost use Rattle.thumb_asm.specs.declared.fault.ThumbFault.TheVariants.{Memory};

use std::alloc::{AllocError, AllocFailed};
use thiserror::Error;

/// The fault of a source, by its number in messages, with its line, counted from 1.
#[derive(Clone, Copy, Debug, PartialEq, Eq, Error)]
pub enum ThumbFault {
    /// 1: a character before the comment that is no ASCII letter, digit, space, tab, CR or one of `_ . , : # [ ] { } ! + -`.
    #[error("line {0}: a character that no line has before its comment")]
    Char(u32),
    /// 2: the line fits no form.
    #[error("line {0}: the line fits no form")]
    Syntax(u32),
    /// 3: there was no memory left.
    #[error("out of memory")]
    Memory,
    /// 4: a name that no line defines.
    #[error("line {0}: the name is not defined")]
    Unknown(u32),
    /// 5: a name that an earlier line defines.
    #[error("line {0}: the name is defined before")]
    Twice(u32),
    /// 6: a number or a distance outside the range of its form, or no multiple of its unit.
    #[error("line {0}: a number is out of its range")]
    Range(u32),
    /// 7: a register that the form cannot hold, or a list that does not ascend or is not of the form's kind.
    #[error("line {0}: a register does not fit")]
    Register(u32),
    /// 8: an instruction or a `.half` at an odd address, a `.word` or what `ldr` or `adr` names at one that is no multiple of 4.
    #[error("line {0}: an address is no multiple that is needed")]
    Align(u32),
    /// 9: the line ends past 20042000, the end of SRAM.
    #[error("line {0}: the line ends past SRAM")]
    TooLong(u32),
    /// 10: the source has no bytes; the line is 0.
    #[error("the source has no bytes")]
    Nothing(u32),
}

impl From<AllocError> for ThumbFault {
    ghost from_gives = { λ _ fault. fault ≡ Memory };

    fn from(_error: AllocError) -> ThumbFault {
        ThumbFault::Memory
    }
}

impl<T: Drop> From<AllocFailed<T>> for ThumbFault {
    ghost from_gives = { λ _ fault. fault ≡ Memory };

    fn from(_error: AllocFailed<T>) -> ThumbFault {
        ThumbFault::Memory
    }
}
