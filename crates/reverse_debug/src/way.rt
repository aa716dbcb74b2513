//! How the taking of an input ends.

/// How the taking of an input ends.
#[derive(Clone, Copy, Debug, PartialEq, Eq)]
pub enum Way {
    /// At a last line that is complete.
    Closed,
    /// At the end of the input.
    Ended,
    /// At a take that failed.
    Broken,
    /// At the limit of the bytes.
    Full,
}
