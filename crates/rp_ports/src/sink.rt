//! Where text is written to.

ghost use Rattle.std.specs.Prelude.{ℕ, List, Option};
ghost use Rattle.rp_ports.specs.Sink.{Writes, Counts};

/// What a put answers.
#[derive(Clone, Copy, Debug, PartialEq, Eq)]
pub enum Put {
    /// This many of the first bytes were written.
    Took(usize),
    /// Nothing was written; the sink's count of faults rose.
    Failed,
}

/// A sink of bytes.
pub trait Sink {
    /// The bytes that were written to it, where it tells them.
    ghost written: { Self → Option (List ℕ) };

    /// How often a put failed: the count rises at `Failed`, and no other answer changes it.
    ghost faults: { Self → ℕ };

    /// Writes some of the first bytes of a piece, at least one of a piece that is not empty.
    fn put(&mut self, bytes: &[u8]) -> Put
        ensures content { Writes (written self.old) (written self.new) bytes.now result }
        ensures count { Counts (faults self.old) (faults self.new) result };
}
