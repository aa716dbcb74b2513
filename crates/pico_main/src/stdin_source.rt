//! Standard input as a source. It tells nothing of what is left.

ghost use Rattle.std.specs.Prelude.{◌≡◌, None};

use rp_ports::source::{Source, Taken};
use std::io::Read;

/// Standard input, and how often a take from it failed.
#[derive(Drop)]
pub struct StdinSource<'a, R: Input> {
    rt: &'a R,
    faults: u64,
}

impl<'a, R: Input> StdinSource<'a, R> {
    /// Standard input with no fault so far.
    pub fn new(rt: &'a R) -> StdinSource<'a, R>
        ensures { result.faults ≡ 0 }
    {
        StdinSource { rt, faults: 0 }
    }
}

impl<R: Input> Source for StdinSource<'_, R> {
    ghost left = { λ s. None };

    ghost faults = { λ s. s.faults };

    /// Takes what there is at once: at a terminal one line.
    fn take(&mut self, buf: &mut [u8]) -> Taken {
        match self.rt.reader().read(buf) {
            Ok(0) => Taken::End,
            Ok(count) => Taken::Took(count),
            Err(_) => {
                self.faults = self.faults.saturating_add(1);
                Taken::Failed
            }
        }
    }
}
