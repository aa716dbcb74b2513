//! Windows passed over the board by one thread, by four, and by two with values that were made for what was lent.
ghost use Rattle.std.specs.Prelude.{◌≡◌, ◌<◌, false, IfSome};
ghost use denote.Param.Send.{IsSync};
ghost use Rattle.turn_board.specs.Tickets.{IsFree};
ghost use Rattle.turn_board.specs.Answers.{IsReady};

use crate::numbers::{LIMIT, Next, Piece, WINDOWS, next_of, pieces};
use std::sync::Wait;
use std::test::Fail;
use std::thread;
use std::thread::Threads;
use turn_board::{Board, Gather, Kept, Master, Seat, See, Six};

// A board of these jobs.
type Numbers = Board<Piece, Next, u64>;

// A seat at it.
type Worker = Seat<Piece, Next, u64>;

// Its master.
type Leader = Master<Piece, Next, u64>;

// Whether each lane has its own result.
fn is_right(window: u64, results: &Six<Next>) -> bool
    requires { window < WINDOWS }
{
    let first = 6 * window;
    results.l0.number == first + 1
        && results.l1.number == first + 2
        && results.l2.number == first + 3
        && results.l3.number == first + 4
        && results.l4.number == first + 5
        && results.l5.number == first + 6
}

// Draws the next number and does it, where it is open; a second put replaces the first one.
fn serve_one(board: &Numbers, seat: &mut Worker) -> Option<u64>
    requires { IsReady board.now LIMIT seat.old }
    ensures board { (seat.new.board ≡ seat.old.board) × (seat.new.made_for ≡ seat.old.made_for) }
    ensures free { IfSome result (λ _. IsFree seat.new.state) }
{
    let ticket = board.draw(seat);
    match board.look(seat, &ticket) {
        See::Open => {}
        See::NotYet(_) => return None,
        See::Closed => return None,
    }
    let number = ticket.number();
    let piece = board.take(seat, &ticket);
    board.put(
        seat,
        &ticket,
        Next {
            number: piece.number % 6 + 1,
        },
    );
    board.put(seat, &ticket, next_of(&piece));
    board.done(seat, ticket);
    Some(number)
}

// Serves tickets until the board is closed, and says how many.
fn serve<H: Wait>(rt: &H, board: &Numbers, mut seat: Worker) -> u64
    requires { IsReady board.now LIMIT seat }
{
    let mut served: u64 = 0;
    for _ in rt.forever() {
        let ticket = board.draw(&mut seat);
        match board.await_open(rt, &mut seat, &ticket) {
            See::Open => {}
            See::NotYet(_) => return served,
            See::Closed => return served,
        }
        let piece = board.take(&mut seat, &ticket);
        board.put(&mut seat, &ticket, next_of(&piece));
        board.done(&mut seat, ticket);
        served = served.wrapping_add(1);
    }
    unreachable!()
}

// Passes all windows, closes the board, and says in how many windows each lane had its result.
fn lead<H: Wait>(rt: &H, board: &Numbers, mut master: Leader) -> u64
    requires board { (master.board ≡ board.now) × (master.made_for ≡ LIMIT) }
    requires new { (master.state.opened ≡ 0) × (master.state.known ≡ 0)
        × (master.state.closed ≡ false) }
{
    let mut right: u64 = 0;
    for window in 0..WINDOWS {
        board.offer(&mut master, pieces(window));
        if let Gather::All(results) = board.await_all(rt, &mut master) {
            if is_right(window, &results) {
                right = right.wrapping_add(1);
            }
        }
    }
    board.close(&mut master);
    right
}

// Passes all windows in one thread, and says in how many windows each lane had its number and its result.
fn alone(board: &Numbers, mut master: Leader, mut seat: Worker) -> u64
    requires master { (master.board ≡ board.now) × (master.made_for ≡ LIMIT)
        × (master.state.opened ≡ 0) × (master.state.known ≡ 0) × (master.state.closed ≡ false) }
    requires seat { IsReady board.now LIMIT seat }
{
    let mut right: u64 = 0;
    for window in 0..WINDOWS {
        board.offer(&mut master, pieces(window));
        for lane in 0..6 {
            match serve_one(board, &mut seat) {
                Some(number) => {
                    if number != 6 * window + lane {
                        return right;
                    }
                }
                None => return right,
            }
        }
        match board.gathered(&mut master) {
            Gather::All(results) => {
                if is_right(window, &results) {
                    right = right.wrapping_add(1);
                }
            }
            Gather::Part(_) => return right,
        }
    }
    right
}

#[test]
fn one_thread_passes_many_windows(rt: HostRuntime) -> Result<(), Fail> {
    let (board, master, mut seats) = Numbers::new(rt.alloc(), LIMIT, 1)?;
    let Some(seat) = seats.pop() else {
        panic!(rt; "no seat")
    };
    assert!(rt; alone(&board, master, seat) == WINDOWS);
    Ok(())
}

// Two seats serve in two threads. Says how many tickets both have served.
fn serve_two<H: Threads + Wait + Sync>(
    rt: &H,
    board: &Numbers,
    first: Worker,
    second: Worker,
) -> u64
    requires first { IsReady board.now LIMIT first }
    requires second { IsReady board.now LIMIT second }
{
    let (a, b) = thread::join(
        rt,
        move || -> u64
            requires { IsSync H.row × IsReady board.now LIMIT first }
        { serve(rt, board, first) },
        move || -> u64
            requires { IsSync H.row × IsReady board.now LIMIT second }
        { serve(rt, board, second) },
    );
    a.wrapping_add(b)
}

#[test]
fn three_threads_pass_many_windows(rt: HostRuntime) -> Result<(), Fail> {
    let (board, master, mut seats) = Numbers::new(rt.alloc(), LIMIT, 3)?;
    let (Some(first), Some(second), Some(third)) = (seats.pop(), seats.pop(), seats.pop()) else {
        panic!(rt; "no seat")
    };
    let (rt, board) = (&rt, &board);
    let ((a, b), right) = thread::join(
        rt,
        move || -> (u64, u64)
            requires { IsReady board.now LIMIT first × IsReady board.now LIMIT second
                × IsReady board.now LIMIT third }
        {
            thread::join(
                rt,
                move || -> u64
                    requires { IsReady board.now LIMIT first }
                { serve(rt, board, first) },
                move || -> u64
                    requires { IsReady board.now LIMIT second × IsReady board.now LIMIT third }
                { serve_two(rt, board, second, third) },
            )
        },
        move || lead(rt, board, master),
    );
    assert!(rt; right == WINDOWS && a.wrapping_add(b) == 6 * WINDOWS);
    Ok(())
}

#[test]
fn a_close_ends_the_wait(rt: HostRuntime) -> Result<(), Fail> {
    let (board, mut master, mut seats) = Numbers::new(rt.alloc(), LIMIT, 2)?;
    let (Some(first), Some(second)) = (seats.pop(), seats.pop()) else {
        panic!(rt; "no seat")
    };
    let (rt, board) = (&rt, &board);
    let ((), served) = thread::join(
        rt,
        || board.close(&mut master),
        move || -> u64
            requires { IsReady board.now LIMIT first × IsReady board.now LIMIT second }
        { serve_two(rt, board, first, second) },
    );
    assert!(rt; served == 0);
    Ok(())
}

// What values are made for, where they are lent.
#[derive(Drop)]
struct Bound {
    top: u64,
}

// A value that was made for a bound that was lent.
#[derive(Drop)]
struct Lent {
    number: u64,
}

impl<'a> Kept<&'a Bound> for Lent {
    ghost made_for = { λ bound lane p. p.number < bound.now.top };
}

type LentBoard<'a> = Board<Lent, Lent, &'a Bound>;

// What a worker's thread is given.
#[derive(Drop)]
struct Shift<'b, 'a> {
    board: &'b LentBoard<'a>,
    seat: Seat<Lent, Lent, &'a Bound>,
}

impl<'b, 'a> Shift<'b, 'a> {
    // Passes jobs on, within what they were made for, until the board is closed, and says how many.
    fn work<H: Wait>(self, rt: &H) -> u64
        requires board { self.seat.board ≡ self.board.now }
        requires free { IsFree self.seat.state }
    {
        let Shift { board, seat } = self;
        let mut seat = seat;
        let mut passed: u64 = 0;
        for _ in rt.forever() {
            let ticket = board.draw(&mut seat);
            match board.await_open(rt, &mut seat, &ticket) {
                See::Open => {}
                See::NotYet(_) => return passed,
                See::Closed => return passed,
            }
            let piece = board.take(&mut seat, &ticket);
            board.put(&mut seat, &ticket, piece);
            board.done(&mut seat, ticket);
            passed = passed.wrapping_add(1);
        }
        unreachable!()
    }
}

// What the coordinator is given.
#[derive(Drop)]
struct Bench<'b, 'a> {
    board: &'b LentBoard<'a>,
    master: Master<Lent, Lent, &'a Bound>,
}

impl<'b, 'a> Bench<'b, 'a> {
    // Passes a window, closes the board, and says whether each lane had its job back.
    fn lead<H: Wait>(self, rt: &H) -> bool
        requires board { self.master.board ≡ self.board.now }
        requires new { (self.master.state.opened ≡ 0) × (self.master.state.known ≡ 0)
            × (self.master.state.closed ≡ false) }
        requires top { self.master.made_for.now.top ≡ 7 }
    {
        let Bench { board, master } = self;
        let mut master = master;
        let jobs = Six {
            l0: Lent { number: 5 },
            l1: Lent { number: 1 },
            l2: Lent { number: 2 },
            l3: Lent { number: 3 },
            l4: Lent { number: 4 },
            l5: Lent { number: 6 },
        };
        board.offer(&mut master, jobs);
        let right = match board.await_all(rt, &mut master) {
            Gather::All(found) => found.l0.number == 5
                && found.l1.number == 1
                && found.l5.number == 6,
            Gather::Part(_) => false,
        };
        board.close(&mut master);
        right
    }
}

// A worker, and the coordinator second: it stays in this thread.
fn both<'b, 'a, H: Threads + Wait + Sync>(
    rt: &H,
    shift: Shift<'b, 'a>,
    bench: Bench<'b, 'a>,
) -> (u64, bool)
    requires shift { (shift.seat.board ≡ shift.board.now) × IsFree shift.seat.state }
    requires bench { (bench.master.board ≡ bench.board.now) × (bench.master.state.opened ≡ 0)
        × (bench.master.state.known ≡ 0) × (bench.master.state.closed ≡ false)
        × (bench.master.made_for.now.top ≡ 7) }
{
    thread::join(
        rt,
        move || -> u64
            requires { IsSync H.row × (shift.seat.board ≡ shift.board.now)
                × IsFree shift.seat.state }
        { shift.work(rt) },
        move || -> bool
            requires { (bench.master.board ≡ bench.board.now) × (bench.master.state.opened ≡ 0)
                × (bench.master.state.known ≡ 0) × (bench.master.state.closed ≡ false)
                × (bench.master.made_for.now.top ≡ 7) }
        { bench.lead(rt) },
    )
}

#[test]
fn values_are_made_for_what_was_lent(rt: HostRuntime) -> Result<(), Fail> {
    let bound = Bound { top: 7 };
    let (board, master, mut seats) = LentBoard::new(rt.alloc(), &bound, 1)?;
    let Some(seat) = seats.pop() else {
        panic!(rt; "no seat")
    };
    let board = &board;
    let (passed, right) = both(&rt, Shift { board, seat }, Bench { board, master });
    assert!(rt; passed == 6 && right);
    Ok(())
}
