//! The steps on the three words. These are all that any thread takes.
ghost use Rattle.std.specs.Prelude.{◌≡◌, ℕ, ◌+◌, ◌^◌, ◌<◌, ◌≤◌, [], ◌∷◌, true, false};
ghost use mathlib.Core.Option.{none};
ghost use Rattle.atomic_table.specs.Table.{step};
ghost use Rattle.atomic_table.specs.Seated.{TableId};
ghost use Rattle.turn_board.specs.Tickets.{IsFree};
ghost use Rattle.turn_board.specs.Slots.{MasterHolds, numbered};
ghost use Rattle.turn_board.specs.Rule.{seat_view, fresh};
ghost use Rattle.turn_board.specs.Plays.{drawn, looked, finished, opened, closed, polled, one_more, Brings, BringsJobs, IsSized};

use crate::kept::Kept;
use crate::rule::{Close, Draw, Finish, Open, Rule, SeeDone, SeeOpen, Sit};
use crate::slot::Slot;
use crate::view::View;
use atomic_table::{Seat, Shared};

pub type Words<J, R, W> = Shared<Slot<J, R>, View<W>, W, Rule<J, R, W>>;

pub type Post<J, R, W> = Seat<Slot<J, R>, View<W>>;

/// The word of the next number to draw.
const TICKET: usize = 0;

/// The word of the open numbers.
pub const OPEN: usize = 1;

/// The word of the finished numbers.
pub const DONE: usize = 2;

/// The bit of OPEN that is set where the board is closed.
pub const CLOSED: u64 = 1 << 63;

/// A seat for a worker, which the master makes. It has done nothing.
pub fn sit<J: Kept<W>, R: Kept<W>, W>(
    words: &Words<J, R, W>,
    master: &mut Post<J, R, W>,
) -> Post<J, R, W>
    requires table { master.old.table_id ≡ words.now.table_id }
    requires sized { IsSized words.now.table_id }
    requires leads { master.old.me.0.leads ≡ true }
    requires few { master.old.me.0.seats < 9 }
    ensures table { master.new.table_id ≡ master.old.table_id }
    ensures master { master.new.me ≡ (one_more master.old.me.0, master.old.me.1) }
    ensures at { result.table_id ≡ master.old.table_id }
    ensures seat { result.me ≡ (seat_view master.old.me.0.made_for fresh, []) }
{
    words.split_seat::<Sit>(master)
}

/// Fetch-and-add 1 on TICKET: a worker without an unfinished number draws the next one.
pub fn draw<J: Kept<W>, R: Kept<W>, W>(words: &Words<J, R, W>, seat: &mut Post<J, R, W>) -> u64
    requires table { seat.old.table_id ≡ words.now.table_id }
    requires sized { IsSized words.now.table_id }
    requires follows { seat.old.me.0.leads ≡ false }
    requires free { IsFree seat.old.me.0.worker }
    ensures table { seat.new.table_id ≡ seat.old.table_id }
    ensures drawn { drawn (step words.now.table_id.slots 0 1 0 none) seat.old.me result
        seat.new.me }
{
    words.fetch_add::<Draw>(seat, TICKET, 1)
}

/// A load of OPEN: a worker sees how many numbers are open, and takes the slots of its lane where it begins to hold it.
pub fn see_open<J: Kept<W>, R: Kept<W>, W>(words: &Words<J, R, W>, seat: &mut Post<J, R, W>) -> u64
    requires table { seat.old.table_id ≡ words.now.table_id }
    requires sized { IsSized words.now.table_id }
    requires follows { seat.old.me.0.leads ≡ false }
    ensures table { seat.new.table_id ≡ seat.old.table_id }
    ensures looked { looked J.made_for (step words.now.table_id.slots 1 0 0 none) seat.old.me result
        seat.new.me }
{
    words.load::<SeeOpen>(seat, OPEN)
}

/// Fetch-and-add 1 on DONE: a worker that holds its lane, with a result in the second slot, finishes its number and gives
/// the slots back. Gives how many were finished before.
pub fn finish<J: Kept<W>, R: Kept<W>, W>(words: &Words<J, R, W>, seat: &mut Post<J, R, W>) -> u64
    requires table { seat.old.table_id ≡ words.now.table_id }
    requires sized { IsSized words.now.table_id }
    requires follows { seat.old.me.0.leads ≡ false }
    requires result { Brings J.made_for R.made_for seat.old.me }
    ensures table { seat.new.table_id ≡ seat.old.table_id }
    ensures finished { finished (step words.now.table_id.slots 2 1 0 none) seat.old.me result
        seat.new.me }
{
    words.fetch_add::<Finish>(seat, DONE, 1)
}

/// Fetch-and-add 6 on OPEN: the master, which knows that all open numbers are finished, opens six more and gives all slots
/// back, with six jobs.
pub fn open<J: Kept<W>, R: Kept<W>, W>(words: &Words<J, R, W>, master: &mut Post<J, R, W>)
    requires table { master.old.table_id ≡ words.now.table_id }
    requires sized { IsSized words.now.table_id }
    requires leads { master.old.me.0.leads ≡ true }
    requires gathered { master.old.me.0.master.known ≡ master.old.me.0.master.opened }
    requires unclosed { master.old.me.0.master.closed ≡ false }
    requires room { master.old.me.0.master.opened + 6 ≤ 2 ^ 62 }
    requires jobs { BringsJobs J.made_for master.old.me }
    ensures table { master.new.table_id ≡ master.old.table_id }
    ensures opened { ((found : ℕ) × opened (step words.now.table_id.slots 1 6 0 none) master.old.me
        found master.new.me) }
{
    words.fetch_add::<Open>(master, OPEN, 6);
}

/// Fetch-and-or of bit 63 on OPEN: the master closes the board.
pub fn close<J: Kept<W>, R: Kept<W>, W>(words: &Words<J, R, W>, master: &mut Post<J, R, W>)
    requires table { master.old.table_id ≡ words.now.table_id }
    requires sized { IsSized words.now.table_id }
    requires leads { master.old.me.0.leads ≡ true }
    ensures table { master.new.table_id ≡ master.old.table_id }
    ensures closed { ((found : ℕ) × closed (step words.now.table_id.slots 1 (2 ^ 63) 0 none)
        master.old.me found master.new.me) }
{
    words.fetch_or::<Close>(master, OPEN, CLOSED);
}

/// A load of DONE: the master, which does not hold the slots, sees how many numbers are finished, and takes all slots where
/// all open ones are.
pub fn see_done<J: Kept<W>, R: Kept<W>, W>(
    words: &Words<J, R, W>,
    master: &mut Post<J, R, W>,
) -> u64
    requires table { master.old.table_id ≡ words.now.table_id }
    requires sized { IsSized words.now.table_id }
    requires leads { master.old.me.0.leads ≡ true }
    requires offered { ¬ MasterHolds master.old.me.0.master }
    requires bare { master.old.me.1 ≡ [] }
    ensures table { master.new.table_id ≡ master.old.table_id }
    ensures polled { polled J.made_for R.made_for (step words.now.table_id.slots 2 0 0 none)
        master.old.me result master.new.me }
{
    words.load::<SeeDone>(master, DONE)
}
