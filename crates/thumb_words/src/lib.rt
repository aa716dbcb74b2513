//! The way from an instruction to its halfwords (ARMv6-M Architecture Reference Manual, A5): what `thumb_rows` decodes, the other way.
#![tactic(auto)]

mod forms;
pub mod halfwords;
pub mod laws;
mod table;

ghost use Rattle.std.specs.Prelude.{◌≡◌, IfSome};
ghost use Rattle.thumb_words.specs.Codes.{code_of, IsCodeOf};

pub use halfwords::Code;
use rp_base::op::Op;

/// The halfwords of an instruction; None where a field does not fit the bits that its encoding has for it, where the encoding leaves
/// it out (conditions 14 and 15, an empty list of registers, SP and PC in MSR and MRS), and of `Undefined`. The bits that may be
/// either are 0, and 1 in DSB, DMB and ISB.
pub fn encode(op: &Op) -> Option<Code>
    ensures value { result ≡ code_of op.now }
    // They are decoded to that instruction.
    ensures decodes { IfSome result (λ code. IsCodeOf op.now code) }
{
    table::code_of(op)
}
