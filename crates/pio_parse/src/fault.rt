//! Why a source is refused.

use thiserror::Error;

/// Why a source is refused, by its number in messages. Lines and columns count from 1.
#[derive(Clone, Copy, Debug, PartialEq, Eq, Error)]
pub enum PioFault {
    /// 1: a character that has no meaning there, or a comment or code block that does not end, at
    /// this line and column.
    #[error("line {0}, column {1}: the character has no meaning there")]
    Char(u64, u64),
    /// 2: a token that fits nothing, at this line and column.
    #[error("line {0}, column {1}: no line begins so")]
    Syntax(u64, u64),
    /// 3: memory ran out.
    #[error("out of memory")]
    Memory,
    /// 4: a name on this line is not defined.
    #[error("line {0}: a name is not defined")]
    Unknown(u64),
    /// 5: a name on this line is defined already.
    #[error("line {0}: a name is defined already")]
    Twice(u64),
    /// 6: a value on this line is too large or too small.
    #[error("line {0}: a value is too large or too small")]
    Range(u64),
    /// 7: a delay on this line does not fit.
    #[error("line {0}: the delay does not fit")]
    Delay(u64),
    /// 8: a side-set on this line does not fit, or stands after an instruction.
    #[error("line {0}: the side-set does not fit")]
    Side(u64),
    /// 9: the 33rd instruction is on this line.
    #[error("line {0}: the program has more than 32 instructions")]
    TooLong(u64),
    /// 10: a wrap on this line has no instruction or is not the first, or the program of this line is
    /// empty.
    #[error("line {0}: the wrap has no instruction, or is not the first")]
    Wrap(u64),
    /// 11: an origin on this line does not fit, is not the first, or stands after an instruction.
    #[error("line {0}: the origin does not fit, or is not the first")]
    Origin(u64),
    /// 12: no run of this many addresses is free.
    #[error("no {0} positions in a row are free")]
    NoRoom(u64),
}
