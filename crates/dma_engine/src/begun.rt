//! What the engine has begun in a cycle.

ghost use Rattle.std.specs.Prelude.{◌≡◌, true};
ghost use Rattle.dma_engine.specs.declared.begun.Access.TheVariants as Access;
ghost use Rattle.dma_engine.specs.Asks.{idle_begun};

use rp_base::{Request, Why};

/// What the engine does by one of its two ports in a cycle.
#[derive(Clone, Copy)]
pub enum Access {
    /// Nothing.
    Nothing,
    /// A read of SRAM, whose word is this at the start of the cycle.
    Read(Request, u32),
    /// A write to SRAM.
    Write(Request),
    /// An access that is not to SRAM.
    Outward(Request),
    /// Nothing: the machine stops before this cycle.
    Stopped(Why),
}

/// What the engine has begun in a cycle, once its questions are answered.
#[derive(Clone, Copy)]
pub struct BegunTransfer {
    /// What it does by its read port.
    pub read: Access,
    /// What it does by its write port.
    pub write: Access,
    /// The counts by which channels are paced, six bits each; 0 where no channel waits for them.
    pub counts: u128,
}

impl BegunTransfer {
    /// What an engine that asks and wants nothing begins: room for what is begun.
    #[inline(always)]
    pub fn nothing() -> BegunTransfer
        ensures { result ≡ idle_begun }
    {
        BegunTransfer {
            read: Access::Nothing,
            write: Access::Nothing,
            counts: 0,
        }
    }

    /// Nothing is read or written.
    #[inline(always)]
    pub(crate) fn is_nothing(&self) -> bool
        ensures read { result ≡ true → self.now.read ≡ Access.Nothing }
        ensures write { result ≡ true → self.now.write ≡ Access.Nothing }
    {
        matches!(self.read, Access::Nothing) && matches!(self.write, Access::Nothing)
    }
}
