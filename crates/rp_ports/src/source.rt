//! Where bytes are taken from.

ghost use Rattle.std.specs.Prelude.{ℕ, ◌<◌, length, List, Option};
ghost use Rattle.rp_ports.specs.Source.{Takes, Counts};

/// What a take answers.
#[derive(Clone, Copy, Debug, PartialEq, Eq)]
pub enum Taken {
    /// The first so many entries of the buffer hold the next bytes, at least one.
    Took(usize),
    /// No byte is left.
    End,
    /// No byte was taken; the source's count of faults rose.
    Failed,
}

/// A source of bytes.
pub trait Source {
    /// The bytes that are left, where it tells them.
    ghost left: { Self → Option (List ℕ) };

    /// How often a take failed: the count rises at `Failed`, and no other answer changes it.
    ghost faults: { Self → ℕ };

    /// Takes the next bytes, as many as there are at once, into a buffer that is not empty.
    fn take(&mut self, buf: &mut [u8]) -> Taken
        requires room { 0 < length buf.old }
        ensures content { Takes (left self.old) (left self.new) buf.new result }
        ensures count { Counts (faults self.old) (faults self.new) result };
}
