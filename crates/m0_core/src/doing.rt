//! What a core has begun in a cycle.

ghost use Rattle.std.specs.Prelude.{◌≡◌};
ghost use Rattle.m0_core.specs.declared.doing.Act.TheVariants.{Asleep};
ghost use Rattle.m0_core.specs.Fetch.{ends_with};

use crate::placed::Placed;
use rp_base::op::Op;
use rp_base::{Request, Why};

/// What has beats.
#[derive(Clone, Copy, PartialEq, Eq)]
pub enum Work {
    /// An instruction.
    Instruction(Op),
    /// The entry to the exception of that number.
    Entry(u8),
    /// The return from an exception that began with that value.
    Return(u32),
}

/// What a core does in a cycle.
#[derive(Clone, Copy)]
pub enum Act {
    /// Nothing: the core is asleep.
    Asleep,
    /// Nothing: the machine stops before this cycle.
    Stopped(Why),
    /// A fault: HardFault becomes pending.
    Fault,
    /// A beat inside the core.
    Inner(Work),
    /// A read of SRAM, whose word is this at the start of the cycle.
    Read(Work, Placed, u32),
    /// A write to SRAM.
    Write(Work, Placed),
    /// An access that is neither to SRAM nor to the private bus.
    Outward(Work, Placed),
    /// An access to the word of the private bus at that offset.
    Private(Work, Request, u16),
}

/// What a core has begun in a cycle, once its questions are answered.
#[derive(Clone, Copy)]
pub struct Doing {
    /// What it does.
    pub act: Act,
    /// Its interrupt lines at the start of the cycle.
    pub lines: u32,
    /// The cycle's number.
    pub cycle: u64,
}

impl Doing {
    /// What a core that is asleep does in cycle 0: room for what is begun.
    #[inline(always)]
    pub fn nothing() -> Doing
        ensures { result ≡ ends_with 0 0 Asleep }
    {
        Doing {
            act: Act::Asleep,
            lines: 0,
            cycle: 0,
        }
    }
}
