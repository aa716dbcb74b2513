//! What a line of a source puts into the image.

use crate::token::{Number, Span};
use rp_base::op::Op;

/// An item, as far as its line alone tells.
#[derive(Clone, Copy)]
pub enum Item {
    /// Nothing.
    Empty,
    /// An instruction that names no place.
    Instruction(Op),
    /// An item of so many bytes with a number outside the range of its form.
    OutOfRange(u8),
    /// An item of so many bytes with a register or a list that its form cannot hold.
    WrongRegister(u8),
    /// `ldr t, name`.
    Literal(u8, Span),
    /// `adr d, name`.
    Address(u8, Span),
    /// `b name`.
    Branch(Span),
    /// `bl name`.
    Call(Span),
    /// A conditional branch, by the number of its condition.
    BranchIf(u8, Span),
    /// `.word k`, modulo 2^32.
    Word(u32),
    /// `.word name` or `.word name+k`.
    WordAt(Span, Number),
    /// `.half k`, modulo 2^16.
    Half(u16),
    /// `.space k`.
    Space(u16),
    /// `.align`.
    Align,
}
