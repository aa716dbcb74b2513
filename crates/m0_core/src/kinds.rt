//! The instructions that a core treats by themselves.

ghost use Rattle.std.specs.Prelude.{◌≡◌, ◌||◌};
ghost use Rattle.m0_core.specs.Kinds.{is_breakpoint, is_signal, awaits_event, awaits_interrupt, is_call, is_undefined};
ghost use Rattle.m0_core.specs.Shortcuts.{is_plain, is_branch, is_single};

use rp_base::op::Op;

/// BKPT.
#[inline(always)]
pub(crate) fn is_breakpoint(op: &Op) -> bool
    ensures { result ≡ is_breakpoint op.now }
{
    matches!(op, Op::Bkpt { .. })
}

/// SEV.
#[inline(always)]
pub(crate) fn is_signal(op: &Op) -> bool
    ensures { result ≡ is_signal op.now }
{
    matches!(op, Op::Sev)
}

/// WFE.
#[inline(always)]
pub(crate) fn awaits_event(op: &Op) -> bool
    ensures { result ≡ awaits_event op.now }
{
    matches!(op, Op::Wfe)
}

/// WFI.
#[inline(always)]
pub(crate) fn awaits_interrupt(op: &Op) -> bool
    ensures { result ≡ awaits_interrupt op.now }
{
    matches!(op, Op::Wfi)
}

/// WFI or WFE.
#[inline(always)]
pub(crate) fn is_pause(op: &Op) -> bool
    ensures { result ≡ (awaits_interrupt op.now || awaits_event op.now) }
{
    matches!(op, Op::Wfi | Op::Wfe)
}

/// SVC.
#[inline(always)]
pub(crate) fn is_call(op: &Op) -> bool
    ensures { result ≡ is_call op.now }
{
    matches!(op, Op::Svc { .. })
}

/// UDF, or no instruction.
#[inline(always)]
pub(crate) fn is_undefined(op: &Op) -> bool
    ensures { result ≡ is_undefined op.now }
{
    matches!(op, Op::Udf { .. } | Op::Undefined)
}

/// A sum, a shift, a move or a comparison: one beat inside the core, which does not fault in Thumb state.
#[inline(always)]
pub(crate) fn is_single(op: &Op) -> bool
    ensures { result ≡ is_single op.now }
{
    matches!(
        op,
        Op::LslImm { .. }
            | Op::LsrImm { .. }
            | Op::AsrImm { .. }
            | Op::AddReg { .. }
            | Op::SubReg { .. }
            | Op::AddImm3 { .. }
            | Op::SubImm3 { .. }
            | Op::MovImm { .. }
            | Op::CmpImm { .. }
            | Op::AddImm8 { .. }
            | Op::SubImm8 { .. }
            | Op::And { .. }
            | Op::Eor { .. }
            | Op::LslReg { .. }
            | Op::LsrReg { .. }
            | Op::AsrReg { .. }
            | Op::Adc { .. }
            | Op::Sbc { .. }
            | Op::Ror { .. }
            | Op::Tst { .. }
            | Op::Rsb { .. }
            | Op::Cmp { .. }
            | Op::Cmn { .. }
            | Op::Orr { .. }
            | Op::Mul { .. }
            | Op::Bic { .. }
            | Op::Mvn { .. }
            | Op::CmpHigh { .. }
            | Op::SubSpImm { .. }
            | Op::Sxth { .. }
            | Op::Sxtb { .. }
            | Op::Uxth { .. }
            | Op::Uxtb { .. }
            | Op::Rev { .. }
            | Op::Rev16 { .. }
            | Op::Revsh { .. }
    ) || matches!(op, Op::MovHigh { d, .. } if *d < 15)
}

/// A branch by an offset.
#[inline(always)]
pub(crate) fn is_branch(op: &Op) -> bool
    ensures { result ≡ is_branch op.now }
{
    matches!(op, Op::BCond { .. } | Op::B { .. } | Op::Bl { .. })
}

/// An instruction with inner beats alone, which does not fault in Thumb state: a sum, a shift, a move, a comparison or a branch
/// by an offset.
#[inline(always)]
pub(crate) fn is_plain(op: &Op) -> bool
    ensures { result ≡ is_plain op.now }
{
    is_single(op) || is_branch(op)
}
