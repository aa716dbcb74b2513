//! Why a file is no script.

ghost use Rattle.std.specs.Prelude.{◌≡◌};
ghost use Rattle.pin_script.specs.declared.fault.ScriptFault.TheVariants.{Memory};

use std::alloc::{AllocError, AllocFailed};
use thiserror::Error;

/// The first fault of a script, by its number in messages. Lines are counted from 1, and lines that are skipped count too.
#[derive(Clone, Copy, Debug, PartialEq, Eq, Error)]
pub enum ScriptFault {
    /// 1: the line is not three words with single spaces, the third of them `0`, `1` or `z`; nor, in version 2, `send` and
    /// four words.
    #[error("line {0}: the line is not a cycle, a pin and a level, nor one that sends bytes")]
    Form(u32),
    /// 2: the cycle is not 1 to 10 digits, the pin not 1 or 2, or the divisor not 1 to 7.
    #[error("line {0}: the cycle, the pin or the divisor is no number")]
    Number(u32),
    /// 3: the pin is above 29.
    #[error("line {0}: there is no such pin")]
    Pin(u32),
    /// 4: the line's cycle is below that of the line before.
    #[error("line {0}: the cycle is below the one before")]
    Order(u32),
    /// 5: with the entries of this line the script has more than 100,000.
    #[error("line {0}: the script has more than 100000 entries")]
    TooMany(u32),
    /// 6: there was no memory left.
    #[error("out of memory")]
    Memory,
    /// 7: the first line that is not skipped is `version` and 1 to 10 digits of another number than 2.
    #[error("line {0}: there is no such version")]
    Version(u32),
    /// 8: the divisor is below 64 or above 4,194,303.
    #[error("line {0}: there is no such divisor")]
    Divisor(u32),
    /// 9: the bytes are not two hexadecimal digits each, or more than 256.
    #[error("line {0}: the bytes are not pairs of hexadecimal digits")]
    Bytes(u32),
}

impl From<AllocError> for ScriptFault {
    ghost from_gives = { λ _ fault. fault ≡ Memory };

    fn from(_error: AllocError) -> ScriptFault {
        ScriptFault::Memory
    }
}

impl<T: Drop> From<AllocFailed<T>> for ScriptFault {
    ghost from_gives = { λ _ fault. fault ≡ Memory };

    fn from(_error: AllocFailed<T>) -> ScriptFault {
        ScriptFault::Memory
    }
}
