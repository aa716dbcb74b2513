//! How a board is made.
ghost use Rattle.std.specs.Prelude.{◌≡◌, ◌<◌, ◌≤◌, ◌+◌, [], ◌∷◌, true, IfOk, length, replicate};
ghost use Rattle.std.specs.Vec.{vec_capacity, vec_len};
ghost use Rattle.turn_board.specs.Slots.{numbered};
ghost use Rattle.turn_board.specs.Rule.{master_view, first_view, idle};
ghost use Rattle.turn_board.specs.Plays.{IsSized};
ghost use Rattle.turn_board.specs.Shown.{new_seat, vacant};

use crate::collect::{nothing, refill_all};
use crate::hands::Seat;
use crate::kept::Kept;
use crate::rule::Rule;
use crate::slot::Slot;
use crate::steps::{Post, Words, see_done, sit};
use crate::view::View;
use atomic_table::{Refused, Table};
use std::alloc::{AllocError, Global};

/// The words and the slots of a board.
pub type Rows<J, R, W> = Table<Slot<J, R>, View<W>, W, Rule<J, R, W>, Global>;

// Two for each lane.
const SLOTS: usize = 12;

// The slots of a new table.
fn empty_slots<J: Drop, R: Drop>(alloc: Global) -> Result<Vec<Slot<J, R>>, AllocError>
    ensures { IfOk result (λ v. v.items ≡ vacant) }
{
    let mut slots = Vec::with_capacity(alloc, SLOTS)?;
    for _ in 0..SLOTS {
        slots.push_reserved(Slot::Empty);
    }
    Ok(slots)
}

// A new table, and the master's post at it.
pub fn new_rows<J: Kept<W> + Drop, R: Kept<W> + Drop, W>(
    alloc: Global,
    made_for: &W,
) -> Result<(Rows<J, R, W>, Post<J, R, W>), AllocError>
    ensures sized { IfOk result (λ made. IsSized made.0.shared.table_id) }
    ensures table { IfOk result (λ made. made.1.table_id ≡ made.0.shared.table_id) }
    ensures master { IfOk result (λ made. made.1.me ≡ (first_view made_for.now, [])) }
{
    let slots = empty_slots(alloc)?;
    match Table::new(alloc, &[0, 0, 0], slots, made_for) {
        Ok(made) => Ok(made),
        Err(Refused { slots: _ }) => Err(AllocError),
    }
}

// The seats of so many workers.
pub fn seat_workers<J: Kept<W> + Drop, R: Kept<W> + Drop, W>(
    words: &Words<J, R, W>,
    master: &mut Post<J, R, W>,
    alloc: Global,
    count: usize,
) -> Result<Vec<Seat<J, R, W>>, AllocError>
    requires table { (master.old.table_id ≡ words.now.table_id) × IsSized words.now.table_id }
    requires few { count ≤ 9 }
    requires new { (master.old.me.0 ≡ master_view master.old.me.0.made_for idle 0)
        × (master.old.me.1 ≡ []) }
    ensures table { master.new.table_id ≡ master.old.table_id }
    ensures master { IfOk result (λ _. master.new.me
        ≡ (master_view master.old.me.0.made_for idle count, [])) }
    ensures seats { IfOk result (λ v. v.items
        ≡ replicate count (new_seat words.now.table_id master.old.me.0.made_for)) }
{
    let mut seats = Vec::with_capacity(alloc, count)?;
    for _ in 0..count {
        seats.push_reserved(Seat {
            post: sit(words, master),
        });
    }
    Ok(seats)
}

// The master of a new board looks once, and takes the slots.
pub fn take_slots<J: Kept<W> + Drop, R: Kept<W> + Drop, W>(
    words: &Words<J, R, W>,
    master: &mut Post<J, R, W>,
)
    requires table { (master.old.table_id ≡ words.now.table_id) × IsSized words.now.table_id }
    requires new { (master.old.me.0
        ≡ master_view master.old.me.0.made_for idle master.old.me.0.seats)
        × (master.old.me.1 ≡ []) }
    ensures table { master.new.table_id ≡ master.old.table_id }
    ensures master { master.new.me ≡ (
      master_view master.old.me.0.made_for
          (record idle { polls = 1 }) master.old.me.0.seats,
      numbered 0 vacant,
    ) }
{
    see_done(words, master);
    // a value that is let go by name is one call to check
    drop(refill_all(words, master, nothing()));
}
