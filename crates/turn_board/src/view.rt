//! What the holder of a seat at the table knows.
ghost use Rattle.std.specs.Prelude.{ℕ, Bool};
ghost use Rattle.std.specs.Borrow.{ftrue};
ghost use Rattle.turn_board.specs.Tickets.{SeatState, MasterState};

use std::marker::{Model, PhantomData};

/// What the master or a worker knows. No value of it is made.
pub struct View<W> {
    marker: PhantomData<W>,
    /// What the values in the slots were made for.
    pub ghost made_for: { W },
    /// It is the master's.
    pub ghost leads: { Bool },
    /// What a worker has done.
    pub ghost worker: { SeatState },
    /// What the master has done.
    pub ghost master: { MasterState },
    /// How many seats the master has made for workers.
    pub ghost seats: { ℕ },
}

impl<W> Model for View<W> {
    ghost also_owns = { λ _. ftrue };
}
