//! What a worker does, and how the workers are started.

ghost use Rattle.std.specs.Prelude.{◌≡◌, true, false, All, IsSome, IfSome};
ghost use Rattle.outer_lane.specs.Setting.{setting};
ghost use Rattle.crossbeam_utils.specs.Padded.{padded_value};
ghost use Rattle.turn_board.specs.Tickets.{IsFree, IsUnfinished};
ghost use Rattle.window_merge.specs.Jobs.{IsJobFor, IsTrueIn};

use crate::piece::{Found, Piece};
use crossbeam_utils::CachePadded;
use lane_look::Device;
use outer_lane::World;
use rp_ports::gate::Gate;
use std::sync::Wait;
use std::thread;
use std::thread::{Scope, Threads};
use turn_board::{Board, Seat, See, Ticket};
use window_merge::run_job;

/// Runs the job of a piece, where there is one.
fn found_of<X: Device>(piece: Piece, world: &World<'_, X>) -> Found
    requires { IfSome piece.job (IsJobFor (setting X.meaning world.now)) }
    ensures { IfSome result.report (IsTrueIn (setting X.meaning world.now)) }
{
    match piece.job {
        Some(job) => Found {
            report: Some(run_job(job, world)),
        },
        None => Found { report: None },
    }
}

/// Runs the piece of a ticket that is open.
pub(crate) fn pass<'w, X: Device, G: Gate>(
    board: &Board<Piece, Found, &'w World<'w, X>>,
    seat: &mut Seat<Piece, Found, &'w World<'w, X>>,
    ticket: Ticket,
    world: &'w World<'w, X>,
    gate: &G,
)
    requires board { seat.old.board ≡ board.now }
    requires world { seat.old.made_for.now ≡ world.now }
    requires own { IsUnfinished seat.old.state ticket }
    requires open { seat.old.state.holding ≡ true }
    requires there { IsSome seat.old.job }
    ensures board { seat.new.board ≡ seat.old.board }
    ensures world { seat.new.made_for ≡ seat.old.made_for }
    ensures free { IsFree seat.new.state }
    ensures idle { seat.new.state.holding ≡ false }
{
    gate.enter(ticket.number());
    let piece = board.take(seat, &ticket);
    let found = found_of(piece, world);
    // a value that is let go by name is one call to check
    drop(board.put(seat, &ticket, found));
    gate.leave(ticket.number());
    board.done(seat, ticket);
}

/// Serves tickets until the board is closed.
fn serve<'w, X: Device, G: Gate, H: Wait>(
    rt: &H,
    board: &Board<Piece, Found, &'w World<'w, X>>,
    mut seat: Seat<Piece, Found, &'w World<'w, X>>,
    world: &'w World<'w, X>,
    gate: &G,
)
    requires board { seat.board ≡ board.now }
    requires world { seat.made_for.now ≡ world.now }
    requires free { IsFree seat.state }
{
    for _ in rt.forever() {
        let ticket = board.draw(&mut seat);
        match board.await_open(rt, &mut seat, &ticket) {
            See::Open => pass(board, &mut seat, ticket, world, gate),
            See::NotYet(_) | See::Closed => return,
        }
    }
    unreachable!()
}

/// What a worker's thread is given.
#[derive(Drop)]
struct Shift<'b, 'w, X: Device, G: Gate> {
    board: &'b Board<Piece, Found, &'w World<'w, X>>,
    seat: CachePadded<Seat<Piece, Found, &'w World<'w, X>>>,
    world: &'w World<'w, X>,
    gate: &'b G,
}

impl<'b, 'w, X: Device, G: Gate> Shift<'b, 'w, X, G> {
    /// Serves until the board is closed.
    fn work<H: Wait>(self, rt: &H)
        requires board { (padded_value self.seat).board ≡ self.board.now }
        requires world { (padded_value self.seat).made_for.now ≡ self.world.now }
        requires free { IsFree (padded_value self.seat).state }
    {
        let Shift {
            board,
            seat,
            world,
            gate,
        } = self;
        serve(rt, board, seat.into_inner(), world, gate)
    }
}

/// What all workers are given.
#[derive(Drop)]
pub(crate) struct Hall<'b, 'w, X: Device, G: Gate> {
    pub(crate) board: &'b Board<Piece, Found, &'w World<'w, X>>,
    pub(crate) seats: Vec<Seat<Piece, Found, &'w World<'w, X>>>,
    pub(crate) world: &'w World<'w, X>,
    pub(crate) gate: &'b G,
}

impl<'b, 'w, X: Device, G: Gate> Hall<'b, 'w, X, G> {
    /// Starts a thread for each seat but one, and serves at that one. Where a thread can't be started, the others aren't either: their
    /// seats are let go, and the coordinator draws the tickets.
    fn start<'s, E, R: Threads + Wait + Sync>(self, rt: &'b R, scope: &'s Scope<'b, E>)
        requires { All (λ seat. (seat.board ≡ self.board.now)
            × (seat.made_for.now ≡ self.world.now) × IsFree seat.state) self.seats.items }
    {
        let Hall {
            board,
            mut seats,
            world,
            gate,
        } = self;
        let Some(own) = seats.pop() else {
            return;
        };
        for seat in seats {
            let shift = Shift {
                board,
                seat: CachePadded::new(seat),
                world,
                gate,
            };
            let started = scope.spawn(
                move || -> ()
                    requires board { (padded_value shift.seat).board ≡ shift.board.now }
                    requires world { (padded_value shift.seat).made_for.now ≡ shift.world.now }
                    requires free { IsFree (padded_value shift.seat).state }
                { shift.work(rt) },
            );
            if started.is_err() {
                break;
            }
        }
        serve(rt, board, own, world, gate);
    }

    /// Lets the workers serve until the board is closed, and waits for them.
    pub(crate) fn work<R: Threads + Wait + Sync>(self, rt: &'b R)
        requires { All (λ seat. (seat.board ≡ self.board.now)
            × (seat.made_for.now ≡ self.world.now) × IsFree seat.state) self.seats.items }
    {
        thread::scope(
            thread::scope_env(),
            rt,
            move |scope| -> ()
                requires { All (λ seat. (seat.board ≡ self.board.now)
                    × (seat.made_for.now ≡ self.world.now) × IsFree seat.state) self.seats.items }
            { self.start(rt, scope) },
        )
    }
}
