//! Jobs and results that are numbers, for boards whose values are made for a limit.

ghost use Rattle.std.specs.Prelude.{◌≡◌, ◌+◌, ◌*◌, ◌%◌, ◌<◌, ◌≤◌};
ghost use Rattle.turn_board.specs.Answers.{EachLane};

use turn_board::{Kept, Six};

/// What the values are made for.
pub const LIMIT: u64 = 1 << 20;

/// How many windows are passed.
pub const WINDOWS: u64 = 1000;

/// A job, made for a limit where its number is below it, and for its number's lane.
#[derive(Drop)]
pub struct Piece {
    /// The number of its ticket.
    pub number: u64,
}

impl Kept<u64> for Piece {
    ghost made_for = { λ limit lane p. (p.number < limit) × (p.number % 6 ≡ lane) };
}

/// Its result, which is one more.
#[derive(Drop)]
pub struct Next {
    /// The number.
    pub number: u64,
}

impl Kept<u64> for Next {
    ghost made_for = { λ limit lane n. (n.number ≤ limit) × ((n.number + 5) % 6 ≡ lane) };
}

/// The jobs of a window, each lane its own.
pub fn pieces(window: u64) -> Six<Piece>
    requires { window < WINDOWS }
    ensures made_for { EachLane (λ lane p. (p.number < LIMIT) × (p.number % 6 ≡ lane)) result }
    ensures numbers { EachLane (λ lane p. p.number ≡ 6 * window + lane) result }
{
    let first = 6 * window;
    Six {
        l0: Piece { number: first },
        l1: Piece { number: first + 1 },
        l2: Piece { number: first + 2 },
        l3: Piece { number: first + 3 },
        l4: Piece { number: first + 4 },
        l5: Piece { number: first + 5 },
    }
}

/// The result of a job.
pub fn next_of(piece: &Piece) -> Next
    requires { piece.now.number < LIMIT }
    ensures { result.number ≡ piece.now.number + 1 }
{
    Next {
        number: piece.number + 1,
    }
}
