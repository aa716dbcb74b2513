//! Seats, tickets and the master.
ghost use Rattle.std.specs.Prelude.{◌≡◌};

use crate::kept::Kept;
use crate::steps::Post;
use std::marker::Model;

/// A worker's post at the board. Clauses see what it has done, and what the slots that it holds have.
#[derive(Drop)]
pub struct Seat<J: Kept<W>, R: Kept<W>, W> {
    pub(crate) post: Post<J, R, W>,
}

impl<J: Kept<W>, R: Kept<W>, W> Model for Seat<J, R, W> {
    ghost use Rattle.turn_board.specs.Shown.{SeatView, seat_shown, IsSeat};

    ghost Value = { SeatView J R W };

    ghost view = { λ s. seat_shown s.post.table_id s.post.me };

    ghost invariant = { λ s. IsSeat J.made_for R.made_for s.post.me };
}

/// The post of the one who opens numbers and gathers results.
#[derive(Drop)]
pub struct Master<J: Kept<W>, R: Kept<W>, W> {
    pub(crate) post: Post<J, R, W>,
    pub(crate) opened: u64,
}

impl<J: Kept<W>, R: Kept<W>, W> Model for Master<J, R, W> {
    ghost use Rattle.std.specs.Prelude.{◌≡◌};
    ghost use Rattle.turn_board.specs.Shown.{MasterView, master_shown, IsMaster};

    ghost Value = { MasterView W };

    ghost view = { λ m. master_shown m.post.table_id m.post.me };

    ghost invariant = { λ m. IsMaster m.post.me × (m.opened ≡ m.post.me.0.master.opened) };
}

/// A number that a seat drew. It is neither copied nor cloned. Where it is let go and not done, its number stays
/// unfinished, and its seat draws no more.
#[derive(Drop)]
pub struct Ticket {
    number: u64,
}

impl Model for Ticket {
    ghost use Rattle.std.specs.Prelude.{ℕ};

    ghost Value = { ℕ };

    ghost view = { λ t. t.number };
}

impl Ticket {
    pub(crate) fn of(number: u64) -> Ticket
        ensures { result ≡ number }
    {
        Ticket { number }
    }

    /// The number. The lane is the number modulo 6.
    pub fn number(&self) -> u64
        ensures { result ≡ self.now }
    {
        self.number
    }
}
