//! A run by windows whose lanes are run by several threads.

ghost use Rattle.std.specs.Prelude.{◌≡◌, ◌+◌, ◌≤◌, All, IfOk, IfSome, IsSome, false, is_none, true};
ghost use Rattle.outer_lane.specs.Setting.{setting};
ghost use Rattle.trace_text.specs.Tape.{Tells};
ghost use Rattle.rp_machine.specs.Run.{last_state};
ghost use Rattle.turn_board.specs.Tickets.{IsFree};
ghost use Rattle.window_runner.specs.Told.{run_shown};
ghost use Rattle.window_runner.specs.Alone.{IsRan, IsRanFor, IsOnRun, FailsWithin};
ghost use Rattle.window_runner.specs.Seated.{IsReady};
ghost use Rattle.window_runner.specs.Windows.{answered, OnMemory, OnSink, Leaves};

use crate::alone::Ran;
use crate::coordinator::{APART, Desk, Lead, run, run_uncounted};
use crate::cycles::{run_cycles, run_to};
use crate::piece::{Found, Piece};
use crate::sets::sets_of;
use crate::worker::Hall;
use lane_look::Device;
use outer_lane::World;
use rp_machine::{Machine, Steps};
use rp_ports::gate::Gate;
use std::alloc::Global;
use std::sync::Wait;
use std::sync::ledger::Ledger;
use std::thread;
use std::thread::Threads;
use trace_text::tape::Tape;
use trace_text::writer::SinkFault;
use turn_board::Board;
use window_merge::Crew;

/// Why a run by workers did not go to its end.
#[derive(Clone, Copy, PartialEq, Eq)]
pub enum RunFault {
    /// The tape failed at an event.
    Sink,
    /// There was no memory, before the first event.
    Memory,
}

/// What the coordinator is given.
#[derive(Drop)]
struct Bench<'b, 'w, X: Device, G: Gate> {
    board: &'b Board<Piece, Found, &'w World<'w, X>>,
    lead: Lead<'w, X>,
    world: &'w World<'w, X>,
    gate: &'b G,
    counted: bool,
}

impl<'b, 'w, X: Device, G: Gate> Bench<'b, 'w, X, G> {
    /// Runs the machine to its stop, and closes the board.
    fn work<T: Tape, L: Ledger, H: Wait>(
        self,
        rt: &H,
        machine: &mut Machine,
        tape: &mut T,
        steps: &mut Steps<L>,
    ) -> Result<Ran, SinkFault>
        requires number { machine.old.cycle ≤ self.world.now.limit }
        requires ready { IsReady self.board.now (λ w. w.now ≡ self.world.now) self.lead.opened
            self.lead.kept self.lead.master self.lead.seat }
        ensures told { Tells T.took T.missed tape.old tape.new (T.faults tape.old) (T.faults
            tape.new) (run_shown (setting X.meaning self.entry.world.now) machine.old) result }
        ensures left { Leaves T.took T.missed tape.old tape.new self.entry.counted (setting X.meaning
            self.entry.world.now) machine.old machine.new steps.old steps.new result }
    {
        let Bench {
            board,
            mut lead,
            world,
            gate,
            counted,
        } = self;
        let desk = Desk {
            rt,
            board,
            world,
            gate,
        };
        let ran = if counted {
            run(&desk, &mut lead, machine, tape, steps)
        } else {
            run_uncounted(&desk, &mut lead, machine, tape, steps)
        };
        board.close(&mut lead.master);
        drop(lead);
        ran
    }
}

/// The workers, of which there is one at least, and the coordinator, each in a thread of its own.
fn both<'b, 'w, X: Device, G: Gate, T: Tape, L: Ledger, R: Threads + Wait + Sync>(
    rt: &'b R,
    hall: Hall<'b, 'w, X, G>,
    bench: Bench<'b, 'w, X, G>,
    machine: &mut Machine,
    tape: &mut T,
    steps: &mut Steps<L>,
) -> Result<Ran, SinkFault>
    requires number { machine.old.cycle ≤ bench.world.now.limit }
    requires hall { All (λ seat. (seat.board ≡ hall.board.now)
        × (seat.made_for.now ≡ hall.world.now) × IsFree seat.state) hall.seats.items }
    requires ready { IsReady bench.board.now (λ w. w.now ≡ bench.world.now) bench.lead.opened
        bench.lead.kept bench.lead.master bench.lead.seat }
    ensures told { Tells T.took T.missed tape.old tape.new (T.faults tape.old) (T.faults tape.new)
        (run_shown (setting X.meaning bench.entry.world.now) machine.old) result }
    ensures left { Leaves T.took T.missed tape.old tape.new bench.entry.counted (setting X.meaning
        bench.entry.world.now) machine.old machine.new steps.old steps.new result }
{
    let mut hall = Some(hall);
    let mut bench = Some(bench);
    let ((), ran) = thread::join_mut(
        rt,
        &mut || -> ()
            requires { IfSome hall (λ hall. All (λ seat. (seat.board ≡ hall.board.now)
                × (seat.made_for.now ≡ hall.world.now) × IsFree seat.state) hall.seats.items) }
        {
            if let Some(hall) = hall.take() {
                hall.work(rt);
            }
        },
        &mut || -> Result<Ran, SinkFault>
            requires is { IsSome bench }
            requires number { IfSome bench (λ b. machine.now.cycle ≤ b.world.now.limit) }
            requires ready { IfSome bench (λ b. IsReady b.board.now
                (λ w. w.now ≡ b.world.now) b.lead.opened
                b.lead.kept b.lead.master b.lead.seat) }
            ensures told { IfSome bench.entry (λ b. Tells T.took T.missed tape.entry.now
                tape.exit.now (T.faults tape.entry.now) (T.faults tape.exit.now) (run_shown (setting
                X.meaning b.world.now) machine.entry.now) result) }
            ensures left { IfSome bench.entry (λ b. Leaves T.took T.missed tape.entry.now
                tape.exit.now b.counted (setting X.meaning b.world.now) machine.entry.now machine.exit.now
                steps.entry.now steps.exit.now result) }
        {
            match bench.take() {
                Some(bench) => bench.work(rt, machine, tape, steps),
                None => unreachable!(),
            }
        },
    );
    ran
}

/// Runs the machine with so many workers. None stands for want of memory, before anything has changed.
fn run_at<'w, X: Device, G: Gate, T: Tape, L: Ledger, R: Threads + Wait + Sync>(
    rt: &R,
    counted: bool,
    alloc: Global,
    machine: &mut Machine,
    world: &'w World<'w, X>,
    workers: usize,
    gate: &G,
    tape: &mut T,
    steps: &mut Steps<L>,
) -> Option<Result<Ran, SinkFault>>
    requires number { machine.old.cycle ≤ world.now.limit }
    requires workers { workers ≤ 8 }
    ensures told { IfSome result (Tells T.took T.missed tape.old tape.new (T.faults tape.old)
        (T.faults tape.new) (run_shown (setting X.meaning world.now) machine.old)) }
    ensures left { IfSome result (Leaves T.took T.missed tape.old tape.new counted (setting X.meaning
        world.now) machine.old machine.new steps.old steps.new) }
    ensures memory { is_none result ≡ true → (machine.new ≡ machine.old) × (tape.new ≡ tape.old)
        × (steps.new ≡ steps.old) }
{
    let Ok(crew) = Crew::new(alloc) else {
        return None;
    };
    let Ok(sets) = sets_of(alloc, crew) else {
        return None;
    };
    let Ok((board, master, mut seats)) = Board::<Piece, Found, &'w World<'w, X>>::new(
        alloc,
        world,
        workers + 1,
    ) else {
        drop(sets);
        return None;
    };
    let board = &board;
    let Some(seat) = seats.pop() else {
        unreachable!()
    };
    let hall = Hall {
        board,
        seats,
        world,
        gate,
    };
    let lead = Lead {
        master,
        opened: 0,
        seat,
        kept: None,
        sets,
        due: 0,
        apart: APART,
    };
    let bench = Bench {
        board,
        lead,
        world,
        gate,
        counted,
    };
    if workers == 0 {
        // a value that only one way uses up is dear to check
        drop(hall);
        return Some(bench.work(rt, machine, tape, steps));
    }
    Some(both(rt, hall, bench, machine, tape, steps))
}

/// Runs the machine where no window is counted: at first on this thread alone, and with so many workers what is left then, or alone where
/// there is no memory for them.
fn run_first_alone<'w, X: Device, G: Gate, T: Tape, L: Ledger, R: Threads + Wait + Sync>(
    rt: &R,
    alloc: Global,
    machine: &mut Machine,
    world: &'w World<'w, X>,
    workers: usize,
    gate: &G,
    tape: &mut T,
    steps: &mut Steps<L>,
) -> Result<Ran, SinkFault>
    requires number { machine.old.cycle ≤ world.now.limit }
    requires workers { workers ≤ 8 }
    ensures told { Tells T.took T.missed tape.old tape.new (T.faults tape.old) (T.faults tape.new)
        (run_shown (setting X.meaning world.now) machine.old) result }
    ensures left { Leaves T.took T.missed tape.old tape.new false (setting X.meaning world.now)
        machine.old machine.new steps.old steps.new result }
{
    let until = machine.number().saturating_add(APART);
    match run_to(machine, world, until, tape, steps) {
        Ok(Some(why)) => return Ok(Ran::uncounted(why)),
        Ok(None) => {}
        Err(fault) => return Err(fault),
    }
    match run_at(rt, false, alloc, machine, world, workers, gate, tape, steps) {
        Some(result) => result,
        None => run_cycles(machine, world, tape, steps),
    }
}

/// Runs a machine up to its first stop, and tells the events of all its cycles to a tape. Where windows are counted it goes by windows and
/// single cycles; elsewhere cycle by cycle, alone at first, and with a window now and then. The lanes of windows that go over the board are
/// run by so many threads, 0 to 8, beside this one, which are started when the first such window is due. Each cycle counts as a step.
/// Whatever the number of workers, the gate and the order in which the threads go on, the answer is the same.
///
/// # Errors
///
/// `Sink`: the tape failed at an event, and its count of faults rose. It has the events before that one, and the machine stands
/// behind the step of that event, at most 256 cycles behind it. `Memory`, only where windows are counted: there was none, before the
/// first event; nothing has changed.
pub fn run_beside<X: Device, G: Gate, T: Tape, L: Ledger, R: Threads + Wait + Sync>(
    rt: &R,
    counted: bool,
    alloc: Global,
    machine: &mut Machine,
    world: &World<'_, X>,
    workers: usize,
    gate: &G,
    tape: &mut T,
    steps: &mut Steps<L>,
) -> Result<Ran, RunFault>
    requires number { machine.old.cycle ≤ world.now.limit }
    requires workers { workers ≤ 8 }
    ensures told { IfSome (answered result) (Tells T.took T.missed tape.old tape.new (T.faults
        tape.old) (T.faults tape.new) (run_shown (setting X.meaning world.now) machine.old)) }
    ensures ran { IfOk result (IsRanFor counted (setting X.meaning world.now) machine.old) }
    ensures state { IfOk result (λ ran. machine.new ≡ last_state (setting X.meaning world.now)
        machine.old) }
    ensures failed { OnSink result (FailsWithin T.took T.missed tape.old tape.new (setting X.meaning
        world.now) 256 machine.old machine.new) }
    ensures on_run { IsOnRun (setting X.meaning world.now) machine.old machine.new }
    ensures steps { steps.new + machine.old.cycle ≡ steps.old + machine.new.cycle }
    ensures memory { OnMemory result ((machine.new ≡ machine.old) × (tape.new ≡ tape.old)) }
    ensures counted { OnMemory result (counted ≡ true) }
{
    if !counted {
        return match run_first_alone(rt, alloc, machine, world, workers, gate, tape, steps) {
            Ok(ran) => Ok(ran),
            Err(_) => Err(RunFault::Sink),
        };
    }
    match run_at(rt, true, alloc, machine, world, workers, gate, tape, steps) {
        Some(Ok(ran)) => Ok(ran),
        Some(Err(_)) => Err(RunFault::Sink),
        None => Err(RunFault::Memory),
    }
}

/// The same with all windows counted.
///
/// # Errors
///
/// Those of `run_beside`.
pub fn run_windows<X: Device, G: Gate, T: Tape, L: Ledger, R: Threads + Wait + Sync>(
    rt: &R,
    alloc: Global,
    machine: &mut Machine,
    world: &World<'_, X>,
    workers: usize,
    gate: &G,
    tape: &mut T,
    steps: &mut Steps<L>,
) -> Result<Ran, RunFault>
    requires number { machine.old.cycle ≤ world.now.limit }
    requires workers { workers ≤ 8 }
    ensures told { IfSome (answered result) (Tells T.took T.missed tape.old tape.new (T.faults
        tape.old) (T.faults tape.new) (run_shown (setting X.meaning world.now) machine.old)) }
    ensures ran { IfOk result (IsRan (setting X.meaning world.now) machine.old) }
    ensures state { IfOk result (λ ran. machine.new ≡ last_state (setting X.meaning world.now)
        machine.old) }
    ensures failed { OnSink result (FailsWithin T.took T.missed tape.old tape.new (setting X.meaning
        world.now) 256 machine.old machine.new) }
    ensures on_run { IsOnRun (setting X.meaning world.now) machine.old machine.new }
    ensures steps { steps.new + machine.old.cycle ≡ steps.old + machine.new.cycle }
    ensures memory { OnMemory result ((machine.new ≡ machine.old) × (tape.new ≡ tape.old)) }
{
    run_beside(rt, true, alloc, machine, world, workers, gate, tape, steps)
}
