//! What the coordinator does: it opens the windows' numbers, helps with their pieces, and merges what was found.

ghost use Rattle.std.specs.Prelude.{◌≡◌, ◌+◌, ◌<◌, ◌≤◌, ◌^◌, false, true, length, IfSome, IfNone, if◌then◌else◌};
ghost use Rattle.outer_lane.specs.Setting.{setting};
ghost use Rattle.bus_fabric.specs.State.{has_hold};
ghost use Rattle.trace_text.specs.Tape.{Tells};
ghost use Rattle.rp_machine.specs.Cycle.{begun};
ghost use Rattle.rp_machine.specs.Run.{states};
ghost use Rattle.turn_board.specs.Answers.{EachLane};
ghost use Rattle.window_merge.specs.Window.{window_length};
ghost use Rattle.window_merge.specs.Merging.{marks_in, IsStep};
ghost use Rattle.window_merge.specs.Jobs.{AreAlone, IsJobFor, IsTrueIn};
ghost use Rattle.window_runner.specs.Told.{run_shown};
ghost use Rattle.window_runner.specs.Alone.{StepsTo, position_at};
ghost use Rattle.window_runner.specs.Course.{Goes, IsOver};
ghost use Rattle.window_runner.specs.Seated.{IsSeatAt, IsLed};
ghost use Rattle.window_runner.specs.Windows.{Leaves};

use crate::alone::{Counts, Ran, count_window, pass_quiet, tell_step};
use crate::cycles::{first_told, go_by_cycle};
use crate::events::tell_marks;
use crate::piece::{Found, Piece};
use crate::sets::{Sets, all_accepted, give_all_back, pieces_of};
use crate::worker::pass;
use lane_look::{Device, Marks};
use outer_lane::World;
use rp_base::Why;
use rp_machine::{Machine, Steps, fact_limit_is_bounded};
use rp_ports::gate::Gate;
use std::sync::Wait;
use std::sync::ledger::Ledger;
use trace_text::tape::Tape;
use trace_text::writer::SinkFault;
use turn_board::{Board, Gather, Master, Seat, See, Six, Ticket};
use window_merge::here::window;
use window_merge::reports::merge;
use window_merge::{LaneJob, LaneReport, Moved};

/// How many numbers may be open before a window, so that six more can be.
const MOST: u64 = (1 << 62) - 6;

/// Behind the first window that goes over the board so many cycles are made by the coordinator alone, and behind each later one twice as
/// many as before it. A lane runs for 256 cycles at most, some ten microseconds; the copies that its job is made of, and two threads that
/// wait for each other, take longer than that. Where no window is counted the first one waits as long, and so do the copies and the threads,
/// since many programs are over by then.
pub(crate) const APART: u64 = 0x4000;

/// Draws tickets and passes those that are open, and keeps the first one that is not.
fn help<'w, X: Device, G: Gate>(
    board: &Board<Piece, Found, &'w World<'w, X>>,
    seat: &mut Seat<Piece, Found, &'w World<'w, X>>,
    kept: Option<Ticket>,
    world: &'w World<'w, X>,
    gate: &G,
) -> Option<Ticket>
    requires seat { IsSeatAt board.now kept seat.old }
    requires world { seat.old.made_for.now ≡ world.now }
    ensures seat { IsSeatAt board.now result seat.new }
    ensures world { seat.new.made_for ≡ seat.old.made_for }
{
    let mut kept = kept;
    for _ in 0..6 {
        let ticket = match kept {
            Some(ticket) => ticket,
            None => board.draw(seat),
        };
        match board.look(seat, &ticket) {
            See::Open => pass(board, seat, ticket, world, gate),
            See::NotYet(_) | See::Closed => return Some(ticket),
        }
        kept = None;
    }
    kept
}

/// What the coordinator only reads.
#[derive(Drop)]
pub(crate) struct Desk<'b, 'w, X: Device, G: Gate, H: Wait> {
    pub(crate) rt: &'b H,
    pub(crate) board: &'b Board<Piece, Found, &'w World<'w, X>>,
    pub(crate) world: &'w World<'w, X>,
    pub(crate) gate: &'b G,
}

/// What the coordinator has at the board, and the jobs of the lanes.
#[derive(Drop)]
pub(crate) struct Lead<'w, X: Device> {
    pub(crate) master: Master<Piece, Found, &'w World<'w, X>>,
    /// How many numbers it opened.
    pub(crate) opened: u64,
    pub(crate) seat: Seat<Piece, Found, &'w World<'w, X>>,
    /// The ticket that its seat drew and that was not open yet.
    pub(crate) kept: Option<Ticket>,
    pub(crate) sets: Box<Sets>,
    /// From this cycle on a window goes over the board.
    pub(crate) due: u64,
    /// How many cycles behind it the next one is due.
    pub(crate) apart: u64,
}

/// Opens six numbers with these pieces, helps, and gathers what was found once all is done.
fn gather<'w, X: Device, G: Gate, H: Wait>(
    desk: &Desk<'_, 'w, X, G, H>,
    lead: &mut Lead<'w, X>,
    pieces: Six<Piece>,
) -> Six<Found>
    requires ready { IsLed desk.now lead.old }
    requires pieces { EachLane (λ lane piece. IfSome piece.job (IsJobFor (setting X.meaning
        desk.now.world.now))) pieces }
    requires few { lead.old.opened + 6 ≤ 2 ^ 62 }
    ensures ready { IsLed desk.now lead.new }
    ensures begun { lead.new.sets.value.begun ≡ lead.old.sets.value.begun }
    ensures found { EachLane (λ lane found. IfSome found.report (IsTrueIn (setting X.meaning
        desk.now.world.now))) result }
{
    desk.board.offer(&mut lead.master, pieces);
    lead.opened += 6;
    let kept = lead.kept.take();
    lead.kept = help(desk.board, &mut lead.seat, kept, desk.world, desk.gate);
    match desk.board.await_all(desk.rt, &mut lead.master) {
        Gather::All(found) => found,
        Gather::Part(_) => unreachable!(),
    }
}

/// The next window goes over the board: it is its turn, six more numbers can be opened, and the peripherals have as many words as the
/// device, for whose world the jobs are made.
fn is_due<'w, X: Device, G: Gate, H: Wait>(
    desk: &Desk<'_, 'w, X, G, H>,
    lead: &Lead<'w, X>,
    machine: &Machine,
) -> bool
    ensures few { result ≡ true → lead.now.opened + 6 ≤ 2 ^ 62 }
    ensures words { result ≡ true → length machine.now.outer.device ≡ (X.meaning
        desk.now.world.now.device.now).count }
{
    lead.due <= machine.number()
        && lead.opened <= MOST
        && machine.outer.has_device(desk.world.device)
}

/// Moves the machine by a window of six reports, and gives its length.
fn merge_six<X: Device, L: Ledger>(
    machine: &mut Machine,
    world: &World<'_, X>,
    reports: [LaneReport; 6],
    jobs: &mut Six<Option<LaneJob>>,
    marks: &mut Marks,
    steps: &mut Steps<L>,
) -> u16
    requires number { machine.old.cycle ≤ world.now.limit }
    requires free { has_hold machine.old.fabric ≡ false }
    requires reports { AreAlone (setting X.meaning world.now) machine.old reports }
    ensures length { result ≡ window_length (setting X.meaning world.now) machine.old }
    ensures state { machine.new ≡ states (setting X.meaning world.now) machine.old result }
    ensures number { machine.new.cycle ≡ machine.old.cycle + result }
    ensures marks { marks.new ≡ marks_in (setting X.meaning world.now) machine.old result }
    ensures steps { steps.new ≡ steps.old + result }
{
    let mut reports = reports;
    let length = merge(machine, world, &mut reports, marks, steps);
    give_all_back(reports, jobs);
    length
}

/// Moves the machine by a window that goes over the board, and gives its length: by the runs of its lanes, where all six come back and are
/// accepted, and else in one pass. It stands out of line, since its many large values would be cleared for each window.
#[inline(never)]
fn window_over<'w, X: Device, G: Gate, H: Wait, L: Ledger>(
    desk: &Desk<'_, 'w, X, G, H>,
    lead: &mut Lead<'w, X>,
    machine: &mut Machine,
    marks: &mut Marks,
    steps: &mut Steps<L>,
) -> u16
    requires number { machine.old.cycle ≤ desk.now.world.now.limit }
    requires free { has_hold machine.old.fabric ≡ false }
    requires ready { IsLed desk.now lead.old }
    requires begun { lead.old.sets.value.begun ≡ begun machine.old }
    requires few { lead.old.opened + 6 ≤ 2 ^ 62 }
    requires words { length machine.old.outer.device ≡ (X.meaning
        desk.now.world.now.device.now).count }
    ensures length { result ≡ window_length (setting X.meaning desk.now.world.now) machine.old }
    ensures state { machine.new ≡ states (setting X.meaning desk.now.world.now) machine.old result }
    ensures number { machine.new.cycle ≡ machine.old.cycle + result }
    ensures marks { marks.new ≡ marks_in (setting X.meaning desk.now.world.now) machine.old result }
    ensures steps { steps.new ≡ steps.old + result }
    ensures ready { IsLed desk.now lead.new }
    ensures begun { lead.new.sets.value.begun ≡ begun machine.new }
{
    lead.due = machine.number().saturating_add(lead.apart);
    lead.apart = lead.apart.saturating_mul(2);
    let pieces = pieces_of(machine, desk.world, &mut lead.sets.jobs);
    let found = gather(desk, lead, pieces);
    let Sets {
        jobs,
        notes,
        pace,
        begun,
    } = &mut *lead.sets;
    if let Some(reports) = all_accepted(machine, desk.world, found, jobs) {
        let length = merge_six(machine, desk.world, reports, jobs, marks, steps);
        machine.begin_into(desk.world, begun);
        return length;
    }
    window(machine, desk.world, notes, pace, begun, marks, steps)
}

/// Moves the machine by a window, and gives its length: over the board where it goes over it, and else in one pass, as on one thread. What
/// the lanes begin is known, before and after.
fn next_window<'w, X: Device, G: Gate, H: Wait, L: Ledger>(
    desk: &Desk<'_, 'w, X, G, H>,
    lead: &mut Lead<'w, X>,
    machine: &mut Machine,
    marks: &mut Marks,
    steps: &mut Steps<L>,
) -> u16
    requires number { machine.old.cycle ≤ desk.now.world.now.limit }
    requires free { has_hold machine.old.fabric ≡ false }
    requires ready { IsLed desk.now lead.old }
    requires begun { lead.old.sets.value.begun ≡ begun machine.old }
    ensures length { result ≡ window_length (setting X.meaning desk.now.world.now) machine.old }
    ensures state { machine.new ≡ states (setting X.meaning desk.now.world.now) machine.old result }
    ensures number { machine.new.cycle ≡ machine.old.cycle + result }
    ensures marks { marks.new ≡ marks_in (setting X.meaning desk.now.world.now) machine.old result }
    ensures steps { steps.new ≡ steps.old + result }
    ensures ready { IsLed desk.now lead.new }
    ensures begun { lead.new.sets.value.begun ≡ begun machine.new }
{
    if is_due(desk, lead, machine) {
        return window_over(desk, lead, machine, marks, steps);
    }
    let Sets {
        notes,
        pace,
        begun,
        ..
    } = &mut *lead.sets;
    window(machine, desk.world, notes, pace, begun, marks, steps)
}

/// Moves the machine to the next position of a run: by a window where no access lasts and the last step was not a window without a
/// cycle, and else by one cycle. The marks of its cycles are left in `marks`, and each counts as one of the steps.
fn go<'w, X: Device, G: Gate, H: Wait, L: Ledger>(
    desk: &Desk<'_, 'w, X, G, H>,
    lead: &mut Lead<'w, X>,
    machine: &mut Machine,
    after_empty: bool,
    marks: &mut Marks,
    steps: &mut Steps<L>,
) -> Moved
    requires number { machine.old.cycle ≤ desk.now.world.now.limit }
    requires ready { IsLed desk.now lead.old }
    requires begun { lead.old.sets.value.begun ≡ begun machine.old }
    ensures moved { IsStep (setting X.meaning desk.now.world.now) after_empty result machine.old
        machine.new marks.old marks.new steps.old steps.new }
    ensures ready { IsLed desk.now lead.new }
    ensures begun { lead.new.sets.value.begun ≡ begun machine.new }
{
    let begun = &mut lead.sets.begun;
    if after_empty || machine.fabric.holds() {
        if let Some(why) = machine.cycle_of(desk.world, begun, marks, steps) {
            return Moved::Stopped(why);
        }
        machine.begin_into(desk.world, begun);
        return Moved::Cycle;
    }
    if let Some(why) = machine.stop_of(desk.world, begun) {
        return Moved::Stopped(why);
    }
    Moved::Window(next_window(desk, lead, machine, marks, steps))
}

/// Goes to the next position of a run and tells the events on the way, or finds a stop and changes nothing.
fn step<'w, X: Device, G: Gate, H: Wait, T: Tape, L: Ledger>(
    desk: &Desk<'_, 'w, X, G, H>,
    lead: &mut Lead<'w, X>,
    machine: &mut Machine,
    counts: &mut Counts,
    marks: &mut Marks,
    tape: &mut T,
    steps: &mut Steps<L>,
) -> Result<Option<Why>, SinkFault>
    requires number { machine.old.cycle ≤ desk.now.world.now.limit }
    requires ready { IsLed desk.now lead.old }
    requires begun { lead.old.sets.value.begun ≡ begun machine.old }
    requires windows { counts.old.windows
        ≤ machine.old.cycle + (if counts.old.after_empty then 1 else 0) }
    requires cycles { counts.old.cycles ≤ machine.old.cycle }
    ensures step { StepsTo T.took T.missed tape.old tape.new (T.faults tape.old) (T.faults tape.new)
        (setting X.meaning desk.now.world.now) (position_at machine.old counts.old) (position_at machine.new
        counts.new) steps.old steps.new result }
    ensures ready { IsLed desk.now lead.new }
    ensures begun { lead.new.sets.value.begun ≡ begun machine.new }
{
    fact_limit_is_bounded(desk.world);
    let cycle = machine.number();
    let before = machine.pads();
    match go(desk, lead, machine, counts.after_empty, marks, steps) {
        Moved::Stopped(why) => Ok(Some(why)),
        Moved::Window(length) => {
            count_window(counts, length);
            tell_step(cycle, before, marks, tape)
        }
        Moved::Cycle => {
            counts.after_empty = false;
            tell_step(cycle, before, marks, tape)
        }
    }
}

/// Runs a machine by windows and single cycles up to its first stop, and tells the events of all its cycles to a tape. Each cycle
/// counts as a step.
pub(crate) fn run<'w, X: Device, G: Gate, H: Wait, T: Tape, L: Ledger>(
    desk: &Desk<'_, 'w, X, G, H>,
    lead: &mut Lead<'w, X>,
    machine: &mut Machine,
    tape: &mut T,
    steps: &mut Steps<L>,
) -> Result<Ran, SinkFault>
    requires number { machine.old.cycle ≤ desk.now.world.now.limit }
    requires ready { IsLed desk.now lead.old }
    ensures told { Tells T.took T.missed tape.old tape.new (T.faults tape.old) (T.faults tape.new)
        (run_shown (setting X.meaning desk.now.world.now) machine.old) result }
    ensures left { Leaves T.took T.missed tape.old tape.new true (setting X.meaning desk.now.world.now)
        machine.old machine.new steps.old steps.new result }
    ensures ready { IsLed desk.now lead.new }
{
    let mut counts = Counts {
        windows: 0,
        cycles: 0,
        after_empty: false,
    };
    let mut marks = Marks::new();
    machine.begin_into(desk.world, &mut lead.sets.begun);
    'steps: loop {
        match step(desk, lead, machine, &mut counts, &mut marks, tape, steps) {
            Ok(None) => {
                let lanes = &mut lead.sets.begun;
                pass_quiet(machine, desk.world, lanes, &mut counts, &marks, steps);
            }
            Ok(Some(why)) => {
                return Ok(Ran {
                    why,
                    windows: counts.windows,
                    cycles: counts.cycles,
                });
            }
            Err(fault) => return Err(fault),
        }
    }
}

/// Moves the machine by a window that goes over the board, where one goes and it has a cycle; None stands for that there is none.
fn go_over<'w, X: Device, G: Gate, H: Wait, L: Ledger>(
    desk: &Desk<'_, 'w, X, G, H>,
    lead: &mut Lead<'w, X>,
    machine: &mut Machine,
    marks: &mut Marks,
    steps: &mut Steps<L>,
) -> Option<u16>
    requires number { machine.old.cycle ≤ desk.now.world.now.limit }
    requires ready { IsLed desk.now lead.old }
    ensures over { IfSome result (λ n. IsOver (setting X.meaning desk.now.world.now) n machine.old machine.new marks.new steps.old steps.new) }
    ensures none { IfNone result ((machine.new ≡ machine.old) × (steps.new ≡ steps.old)) }
    ensures ready { IsLed desk.now lead.new }
{
    if machine.fabric.holds() || !is_due(desk, lead, machine) {
        return None;
    }
    machine.begin_into(desk.world, &mut lead.sets.begun);
    if machine.stop_of(desk.world, &lead.sets.begun).is_some() {
        return None;
    }
    let length = window_over(desk, lead, machine, marks, steps);
    if length == 0 { None } else { Some(length) }
}

/// Moves the machine on, where no window is counted: by a window that goes over the board, where one goes, and else over cycles of which
/// nothing is told and by one cycle; or finds a stop.
fn go_on<'w, X: Device, G: Gate, H: Wait, L: Ledger>(
    desk: &Desk<'_, 'w, X, G, H>,
    lead: &mut Lead<'w, X>,
    machine: &mut Machine,
    marks: &mut Marks,
    steps: &mut Steps<L>,
) -> Option<Why>
    requires number { machine.old.cycle ≤ desk.now.world.now.limit }
    requires ready { IsLed desk.now lead.old }
    ensures goes { Goes (setting X.meaning desk.now.world.now) 256 machine.old machine.new marks.new steps.old steps.new result }
    ensures on { IfNone result (machine.old.cycle < machine.new.cycle) }
    ensures within { machine.new.cycle ≤ desk.now.world.now.limit }
    ensures ready { IsLed desk.now lead.new }
{
    match go_over(desk, lead, machine, marks, steps) {
        Some(_) => None,
        None => {
            let Sets { begun, pace, .. } = &mut *lead.sets;
            go_by_cycle(machine, desk.world, begun, pace, marks, steps)
        }
    }
}

/// Runs a machine up to its first stop, cycle by cycle with a window over the board now and then, tells the events of all its cycles to a
/// tape, and answers the cause of the stop. Each cycle counts as a step.
pub(crate) fn run_uncounted<'w, X: Device, G: Gate, H: Wait, T: Tape, L: Ledger>(
    desk: &Desk<'_, 'w, X, G, H>,
    lead: &mut Lead<'w, X>,
    machine: &mut Machine,
    tape: &mut T,
    steps: &mut Steps<L>,
) -> Result<Ran, SinkFault>
    requires number { machine.old.cycle ≤ desk.now.world.now.limit }
    requires ready { IsLed desk.now lead.old }
    ensures told { Tells T.took T.missed tape.old tape.new (T.faults tape.old) (T.faults tape.new)
        (run_shown (setting X.meaning desk.now.world.now) machine.old) result }
    ensures left { Leaves T.took T.missed tape.old tape.new false (setting X.meaning desk.now.world.now)
        machine.old machine.new steps.old steps.new result }
    ensures ready { IsLed desk.now lead.new }
{
    let mut marks = Marks::new();
    'cycles: loop {
        fact_limit_is_bounded(desk.world);
        let before = machine.pads();
        match go_on(desk, lead, machine, &mut marks, steps) {
            Some(why) => return Ok(Ran::uncounted(why)),
            None => {
                let cycle = first_told(machine, &marks);
                match tell_marks(cycle, before, &marks, tape) {
                    Ok(()) => {}
                    Err(fault) => return Err(fault),
                }
            }
        }
    }
}
