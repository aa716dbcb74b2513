//! What goes through a slot.

ghost use Rattle.std.specs.Prelude.{ℕ};

/// A value that was made for some `W` and for a lane, 0 to 5, or was not. The board never looks into a `W`.
pub trait Kept<W> {
    /// Whether the value was made for it, and for the lane of this number.
    ghost made_for: { W → ℕ → Self → Type 0 };
}
