//! The calls on the board.
ghost use Rattle.std.specs.Prelude.{◌≡◌, ℕ, ◌+◌, ◌%◌, ◌^◌, ◌<◌, ◌≤◌, true, false, [], None, Some, IsSome, IfOk, IfSome, length, replicate};
ghost use Rattle.turn_board.specs.Tickets.{IsUnfinished, IsFree, saw, drew, did};
ghost use Rattle.turn_board.specs.Slots.{job_slot};
ghost use Rattle.turn_board.specs.Plays.{IsDraw, IsFinish, IsOpen, IsClose};
ghost use Rattle.turn_board.specs.Shown.{new_seat, new_master};
ghost use Rattle.turn_board.specs.Answers.{Answers, Looks, LooksAgain, EachLane, Gathered, Polls, PollsAgain, IsSettled, IsWhole};

use crate::answers::{Gather, See, Six};
use crate::collect::{jobs_in, nothing, refill_all, results_in};
use crate::hands::{Master, Seat, Ticket};
use crate::kept::Kept;
use crate::opening::{Rows, new_rows, seat_workers, take_slots};
use crate::slot::Slot;
use crate::steps;
use std::alloc::{AllocError, Global};
use std::marker::Model;
use std::sync::Wait;
use std::time::Duration;

/// The board, which the master and the workers share by `&`. Clauses see which board it is.
///
/// A number is open where it is below the number opened, and its lane is the number modulo 6. No call but the two
/// that await takes a handle, none takes a lock, and none but `new` takes memory.
#[derive(Drop)]
pub struct Board<J: Kept<W>, R: Kept<W>, W> {
    table: Rows<J, R, W>,
}

impl<J: Kept<W>, R: Kept<W>, W> Model for Board<J, R, W> {
    ghost use Rattle.atomic_table.specs.Seated.{TableId, table_id_coded};
    ghost use Rattle.turn_board.specs.Plays.{IsSized};

    ghost Value = { TableId };

    ghost coded = { table_id_coded };

    ghost view = { λ b. b.table.shared.table_id };

    ghost invariant = { λ b. IsSized b.table.shared.table_id };
}

// The first of the two slots of the ticket's lane.
fn job_slot_of(ticket: &Ticket) -> usize
    ensures { result ≡ job_slot ticket.now }
{
    2 * (ticket.number() % 6) as usize
}

impl<J: Kept<W> + Drop, R: Kept<W> + Drop, W> Board<J, R, W> {
    /// A board with 1 to 9 seats for workers, whose values are made for `made_for`. No number is drawn or open, and
    /// the master holds the slots. An error comes only where memory ran out.
    pub fn new(
        alloc: Global,
        made_for: W,
        seats: usize,
    ) -> Result<(Board<J, R, W>, Master<J, R, W>, Vec<Seat<J, R, W>>), AllocError>
    where
        W: Drop,
        requires { (0 < seats) × (seats ≤ 9) }
        ensures master { IfOk result (λ made. made.1 ≡ new_master made.0 made_for) }
        ensures seats { IfOk result (λ made. made.2.items
            ≡ replicate seats (new_seat made.0 made_for)) }
    {
        let (table, mut post) = new_rows(alloc, &made_for)?;
        let workers = seat_workers(&table.shared, &mut post, alloc, seats)?;
        take_slots(&table.shared, &mut post);
        Ok((Board { table }, Master { post, opened: 0 }, workers))
    }

    /// Draws the next number: each number comes once, whichever seat draws. The seat has no ticket that is not done.
    pub fn draw(&self, seat: &mut Seat<J, R, W>) -> Ticket
        requires board { seat.old.board ≡ self.now }
        requires free { IsFree seat.old.state }
        ensures seat { seat.new ≡ record seat.old { state = drew result seat.old.state } }
        ensures own { IsUnfinished seat.new.state result }
        ensures idle { seat.new.state.holding ≡ false }
        ensures event { IsDraw seat.old.state result seat.new.state }
    {
        Ticket::of(steps::draw(&self.table.shared, &mut seat.post))
    }

    /// Looks whether the seat's own ticket is open. A seat that finds it open holds the slots of its lane from then
    /// on: at first there is a job, and no result.
    pub fn look(&self, seat: &mut Seat<J, R, W>, ticket: &Ticket) -> See
        requires board { seat.old.board ≡ self.now }
        requires own { IsUnfinished seat.old.state ticket.now }
        ensures same { (seat.new.board ≡ seat.old.board) × (seat.new.made_for ≡ seat.old.made_for) }
        ensures own { IsUnfinished seat.new.state ticket.now }
        ensures event { Looks seat.old.state seat.new.state }
        ensures answer { Answers J.made_for ticket.now seat.old seat.new result }
    {
        let word = steps::see_open(&self.table.shared, &mut seat.post);
        let opened = word % steps::CLOSED;
        if ticket.number() < opened {
            See::Open
        } else if word >= steps::CLOSED {
            See::Closed
        } else {
            See::NotYet(opened)
        }
    }

    /// The job of the ticket, which is open and whose job was not taken before. It was made for the lane of the ticket.
    pub fn take(&self, seat: &mut Seat<J, R, W>, ticket: &Ticket) -> J
        requires board { seat.old.board ≡ self.now }
        requires own { IsUnfinished seat.old.state ticket.now }
        requires holding { seat.old.state.holding ≡ true }
        requires there { IsSome seat.old.job }
        ensures job { seat.old.job ≡ Some result }
        ensures made_for { J.made_for seat.old.made_for (ticket.now % 6) result }
        ensures seat { seat.new ≡ record seat.old { job = None } }
    {
        let slot = job_slot_of(ticket);
        let taken = self
            .table
            .shared
            .exchange(&mut seat.post, slot, Slot::Empty);
        match taken {
            Slot::Job(job) => job,
            Slot::Empty => unreachable!(),
            Slot::Found(_) => unreachable!(),
        }
    }

    /// Puts a result of the ticket, which is open and for whose lane it was made, and gives back the one that was put under
    /// it before, if any.
    pub fn put(&self, seat: &mut Seat<J, R, W>, ticket: &Ticket, found: R) -> Option<R>
        requires board { seat.old.board ≡ self.now }
        requires own { IsUnfinished seat.old.state ticket.now }
        requires holding { seat.old.state.holding ≡ true }
        requires made_for { R.made_for seat.old.made_for (ticket.now % 6) found }
        ensures before { result ≡ seat.old.found }
        ensures made_for { IfSome result (R.made_for seat.old.made_for (ticket.now % 6)) }
        ensures seat { seat.new ≡ record seat.old { found = Some found } }
    {
        let slot = job_slot_of(ticket) + 1;
        seat.post.turn();
        let before = self
            .table
            .shared
            .exchange(&mut seat.post, slot, Slot::Found(found));
        seat.post.turn();
        match before {
            Slot::Found(before) => Some(before),
            Slot::Empty => None,
            Slot::Job(_) => unreachable!(),
        }
    }

    /// Finishes the ticket, under which a result was put. A job that was not taken is lost.
    pub fn done(&self, seat: &mut Seat<J, R, W>, ticket: Ticket)
        requires board { seat.old.board ≡ self.now }
        requires own { IsUnfinished seat.old.state ticket }
        requires holding { seat.old.state.holding ≡ true }
        requires there { IsSome seat.old.found }
        ensures seat { seat.new ≡ record seat.old {
          state = did ticket seat.old.state;
          job = None;
          found = None;
        } }
        ensures free { IsFree seat.new.state }
        ensures event { IsFinish seat.old.state ticket seat.new.state }
    {
        let before = steps::finish(&self.table.shared, &mut seat.post);
        self.ring(before);
    }

    /// Opens six more numbers, one for each lane, with the jobs that were made for the lanes. The master has gathered all earlier ones, and has
    /// not closed the board. At most 2^62 numbers are ever open.
    pub fn offer(&self, master: &mut Master<J, R, W>, jobs: Six<J>)
        requires board { master.old.board ≡ self.now }
        requires gathered { master.old.state.known ≡ master.old.state.opened }
        requires unclosed { master.old.state.closed ≡ false }
        requires room { master.old.state.opened + 6 ≤ 2 ^ 62 }
        requires made_for { EachLane (J.made_for master.old.made_for) jobs }
        ensures master { master.new
            ≡ record master.old {
              state = record master.old.state {
                opened = master.old.state.opened
                    + 6;
              };
            } }
        ensures event { IsOpen master.old.state master.new.state }
    {
        drop(refill_all(&self.table.shared, &mut master.post, jobs_in(jobs)));
        steps::open(&self.table.shared, &mut master.post);
        master.opened += 6;
        self.table.shared.wake_all(steps::OPEN);
    }

    /// Gathers the six results, each made for its lane, if all open numbers are finished. The master has not gathered those that it offered.
    pub fn gathered(&self, master: &mut Master<J, R, W>) -> Gather<R>
        requires board { master.old.board ≡ self.now }
        requires offered { master.old.state.known < master.old.state.opened }
        ensures same { (master.new.board ≡ master.old.board)
            × (master.new.made_for ≡ master.old.made_for) }
        ensures event { Polls master.old.state master.new.state }
        ensures answer { Gathered R.made_for master.old master.new result }
    {
        let done = steps::see_done(&self.table.shared, &mut master.post);
        if done < master.opened {
            return Gather::Part(done);
        }
        let found = refill_all(&self.table.shared, &mut master.post, nothing());
        Gather::All(results_in(found))
    }

    /// Closes the board: a worker whose ticket is not open is told so from then on. The master has gathered all that
    /// it offered.
    pub fn close(&self, master: &mut Master<J, R, W>)
        requires board { master.old.board ≡ self.now }
        requires gathered { master.old.state.known ≡ master.old.state.opened }
        ensures master { master.new
            ≡ record master.old { state = record master.old.state { closed = true } } }
        ensures event { IsClose master.old.state master.new.state }
    {
        steps::close(&self.table.shared, &mut master.post);
        self.table.shared.wake_all(steps::OPEN);
    }

    /// Looks until the ticket is open or the board is closed, and sleeps between: the answer is never `NotYet`.
    pub fn await_open<H: Wait>(&self, rt: &H, seat: &mut Seat<J, R, W>, ticket: &Ticket) -> See
        requires board { seat.old.board ≡ self.now }
        requires own { IsUnfinished seat.old.state ticket.now }
        ensures same { (seat.new.board ≡ seat.old.board) × (seat.new.made_for ≡ seat.old.made_for) }
        ensures own { IsUnfinished seat.new.state ticket.now }
        ensures event { LooksAgain seat.old.state seat.new.state }
        ensures answer { Answers J.made_for ticket.now seat.old seat.new result }
        ensures settled { IsSettled result }
    {
        for _ in rt.forever() {
            match self.look(seat, ticket) {
                See::NotYet(opened) => self.sleep_open(rt, opened),
                See::Open => return See::Open,
                See::Closed => return See::Closed,
            }
        }
        unreachable!()
    }

    /// Gathers once all open numbers are finished, and sleeps until then: the answer is never `Part`.
    pub fn await_all<H: Wait>(&self, rt: &H, master: &mut Master<J, R, W>) -> Gather<R>
        requires board { master.old.board ≡ self.now }
        requires offered { master.old.state.known < master.old.state.opened }
        ensures same { (master.new.board ≡ master.old.board)
            × (master.new.made_for ≡ master.old.made_for) }
        ensures event { PollsAgain master.old.state master.new.state }
        ensures answer { Gathered R.made_for master.old master.new result }
        ensures whole { IsWhole result }
    {
        for _ in rt.forever() {
            match self.gathered(master) {
                Gather::Part(done) => self.sleep_done(rt, done),
                Gather::All(results) => return Gather::All(results),
            }
        }
        unreachable!()
    }

    // The master waits for all six, so the last of them alone wakes it.
    fn ring(&self, before: u64) {
        if before % 6 == 5 {
            self.table.shared.wake_all(steps::DONE);
        }
    }

    // A close changes no low bit of the word, so a wake for it may come before the sleep: it does not last.
    fn sleep_open<H: Wait>(&self, rt: &H, opened: u64) {
        let low = (opened % (1 << 32)) as u32;
        self.table
            .shared
            .park_timeout(rt, steps::OPEN, low, Duration::from_millis(1));
    }

    fn sleep_done<H: Wait>(&self, rt: &H, done: u64) {
        let low = (done % (1 << 32)) as u32;
        self.table.shared.park(rt, steps::DONE, low);
    }
}
