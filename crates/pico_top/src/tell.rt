//! What was opened, or why nothing was, into the sink: the text of a run and of a refusal line by line.

ghost use Rattle.std.specs.Prelude.{◌<◌, ◌≤◌, length, Some, ◌≡◌};
ghost use Rattle.trace_text.specs.Line.{stop_text, register_text};
ghost use Rattle.board_parts.specs.Hearing.{aim_of, aim_text, seen};
ghost use Rattle.pico_top.specs.Dialogue.{sunk, Drawn, drawn, hear, input_limit, run_reply, say, session_reply};
ghost use Rattle.pico_top.specs.Answer.{Writes, Puts, RunsOut, sent_status};
ghost use Rattle.pico_top.specs.RunText.{counts_text, end_text, probe_lines};
ghost use Rattle.outer_lane.specs.Setting.{setting_of};
ghost use Rattle.reverse_debug.specs.Debugger.{quits};
ghost use Rattle.reverse_debug.specs.Hearing.{way_line, way_status};
ghost use Rattle.reverse_debug.specs.Session.{first_of};
ghost use Rattle.pico_top.specs.Opening.{PutsRefusal, Concludes};

use crate::outcome::{Debugging, Pieces, Started, Unopened};
use crate::runner::{Teller, Workers, run_by_one};
use arrayvec::ArrayVec;
use board_parts::aimed::Aimed;
use board_parts::probe::Probe;
use command_words::refusal::{refusal_line, status};
use lane_look::Device;
use reverse_debug::hear::hear;
use reverse_debug::way::Way;
use rp_base::Why;
use rp_machine::{Machine, Steps, World};
use rp_ports::gate::Gate;
use rp_ports::sink::Sink;
use rp_ports::source::Source;
use std::alloc::Global;
use std::sync::Wait;
use std::sync::ledger::Ledger;
use std::thread::Threads;
use trace_text::line::{push_number, push_text, register_line, stop_line};
use trace_text::writer::{SinkFault, Writer};
use window_runner::alone::Ran;
use window_runner::windows::{RunFault, run_beside};

/// A block of a UF2 file has so many bytes.
const BLOCK: usize = 512;

/// Puts a line.
pub fn put_line<O: Sink>(line: &[u8], out: &mut O) -> Result<(), SinkFault>
    ensures { Writes (sunk ⟦<O as Sink>⟧ out.old) (sunk ⟦<O as Sink>⟧ out.new) line.now result }
{
    let mut writer = Writer { out };
    writer.line(line)
}

/// Puts the line of a stop.
fn send_stop<O: Sink>(why: &Why, cycle: u64, out: &mut O) -> Result<(), SinkFault>
    ensures { Writes (sunk ⟦<O as Sink>⟧ out.old) (sunk ⟦<O as Sink>⟧ out.new) (stop_text why.now cycle) result }
{
    let mut line = ArrayVec::<u8, 192>::new();
    stop_line(why, cycle, &mut line);
    put_line(&line, out)
}

/// Puts the line of a core's registers.
fn send_registers<O: Sink>(core: u8, words: Option<[u32; 17]>, out: &mut O) -> Result<(), SinkFault>
    ensures { Writes (sunk ⟦<O as Sink>⟧ out.old) (sunk ⟦<O as Sink>⟧ out.new) (register_text core words) result }
{
    let mut line = ArrayVec::<u8, 192>::new();
    register_line(core, words, &mut line);
    put_line(&line, out)
}

/// Puts the line of a probe.
fn send_probe<O: Sink>(probe: &Aimed, out: &mut O) -> Result<(), SinkFault>
    ensures { Writes (sunk ⟦<O as Sink>⟧ out.old) (sunk ⟦<O as Sink>⟧ out.new) (aim_text
        (aim_of probe.now.index probe.now.pin (⟦<dyn Probe as Probe>⟧ probe.now.probe.vtable) probe.now.probe.value)) result }
{
    let mut line = ArrayVec::<u8, 192>::new();
    probe.line(&mut line);
    put_line(&line, out)
}

/// Puts the lines of probes, in their order.
#[tactic(auto, using(trace_text::proofs::Sending::sends_cut, trace_text::proofs::Sending::sends_part, board_parts::proofs::Viewing::viewed))]
fn send_probes<O: Sink>(probes: &[Aimed], out: &mut O) -> Result<(), SinkFault>
    ensures { Writes (sunk ⟦<O as Sink>⟧ out.old) (sunk ⟦<O as Sink>⟧ out.new)
        (probe_lines (seen probes.now (λ a. aim_of a.index a.pin (⟦<dyn Probe as Probe>⟧ a.probe.vtable) a.probe.value))) result }
{
    match probes {
        [] => Ok(()),
        [probe, rest @ ..] => {
            send_probe(probe, out)?;
            send_probes(rest, out)
        }
    }
}

/// Puts the line of the counts, where it is asked for.
#[tactic(auto, unfolding(crate::specs::RunText::counts_text))]
fn send_counts<O: Sink>(stats: bool, ran: &Ran, out: &mut O) -> Result<(), SinkFault>
    ensures { Writes (sunk ⟦<O as Sink>⟧ out.old) (sunk ⟦<O as Sink>⟧ out.new)
        (counts_text stats ran.now.windows ran.now.cycles) result }
{
    if !stats {
        return put_line(b"", out);
    }
    let mut line = ArrayVec::<u8, 192>::new();
    push_text(b"windows ", &mut line);
    push_number(ran.windows, &mut line);
    push_text(b" cycles ", &mut line);
    push_number(ran.cycles, &mut line);
    push_text(b"\n", &mut line);
    put_line(&line, out)
}

/// Puts the lines of a machine at which a run ended, those of the probes that heard it, and that of its counts, where it is asked
/// for.
#[tactic(auto, using(trace_text::proofs::Sending::sends_cut, trace_text::proofs::Sending::sends_part))]
pub fn send_last<O: Sink>(
    stats: bool,
    ran: &Ran,
    machine: &Machine,
    probes: &[Aimed],
    out: &mut O,
) -> Result<(), SinkFault>
    ensures { Writes (sunk ⟦<O as Sink>⟧ out.old) (sunk ⟦<O as Sink>⟧ out.new)
        (end_text (Some ran.now.why) machine.now
        (seen probes.now (λ a. aim_of a.index a.pin (⟦<dyn Probe as Probe>⟧ a.probe.vtable) a.probe.value))
        (counts_text stats ran.now.windows ran.now.cycles)) result }
{
    send_stop(&ran.why, machine.number(), out)?;
    send_registers(0, machine.registers(0), out)?;
    send_registers(1, machine.registers(1), out)?;
    send_probes(probes, out)?;
    send_counts(stats, ran, out)
}

/// The index behind the first piece that begins at an index: a line or a block.
fn piece_end(text: &[u8], pieces: Pieces, from: usize) -> usize
    requires { from < length text.now }
    ensures after { from < result }
    ensures within { result ≤ length text.now }
{
    match pieces {
        Pieces::Lines => {
            let (_, rest) = text.split_at(from);
            match rest.iter().position(|byte| *byte == b'\n') {
                Some(index) => from + index + 1,
                None => text.len(),
            }
        }
        Pieces::Blocks if text.len() - from > BLOCK => from + BLOCK,
        Pieces::Blocks => text.len(),
    }
}

/// Puts a text piece by piece.
pub fn send_text<O: Sink>(text: &[u8], pieces: Pieces, out: &mut O) -> Result<(), SinkFault>
    ensures { Writes (sunk ⟦<O as Sink>⟧ out.old) (sunk ⟦<O as Sink>⟧ out.new) text.now result }
{
    let mut done = 0;
    while done < text.len() {
        let end = piece_end(text, pieces, done);
        put_line(&text[done..end], out)?;
        done = end;
    }
    Ok(())
}

/// An input has at most 1 MiB up to its last line.
const INPUT_LIMIT: usize = 1_048_576;

/// The status after a text was sent: its own, or 7 where the sink failed.
pub fn sent_status(sent: Result<(), SinkFault>, status: u8) -> u8
    ensures { result ≡ sent_status sent status }
{
    match sent {
        Ok(()) => status,
        Err(_) => 7,
    }
}

/// Runs a machine that probes hear into a sink, on the calling thread alone, and answers 0, or 7 where the sink fails; or puts the
/// line that says that memory ran out before.
pub fn run_into<X: Device, O: Sink, L: Ledger>(
    alloc: Global,
    started: Started,
    teller: &mut Teller<'_, O>,
    device: &X,
    steps: &mut Steps<L>,
) -> u8
    ensures told { (source : Drawn) → Concludes (say (run_reply started.stats
        (seen teller.old.probes.now (λ a. aim_of a.index a.pin (⟦<dyn Probe as Probe>⟧ a.probe.vtable) a.probe.value))
        (setting_of started.script (X.meaning device.now) started.limit) started.machine)) source source
        (sunk ⟦<O as Sink>⟧ teller.old.out.now) (sunk ⟦<O as Sink>⟧ teller.new.out.now) steps.old steps.new result }
    ensures same_sink { teller.new.out.ghost_name ≡ teller.old.out.ghost_name }
{
    let Started {
        mut machine,
        script,
        limit,
        stats,
    } = started;
    let world = World {
        script: &script,
        device,
        limit,
    };
    match run_by_one(stats, alloc, &mut machine, &world, teller, steps) {
        Ok(ran) => {
            let probes = &mut *teller.probes;
            sent_status(send_last(stats, &ran, &machine, probes, teller.out), 0)
        }
        Err(RunFault::Sink) => 7,
        Err(RunFault::Memory) => run_out(teller.out),
    }
}

/// The same with workers.
pub fn run_into_by<X: Device, O: Sink, G: Gate, L: Ledger, R: Threads + Wait + Sync>(
    alloc: Global,
    workers: &Workers<'_, G, R>,
    started: Started,
    teller: &mut Teller<'_, O>,
    device: &X,
    steps: &mut Steps<L>,
) -> u8
    ensures told { (source : Drawn) → Concludes (say (run_reply started.stats
        (seen teller.old.probes.now (λ a. aim_of a.index a.pin (⟦<dyn Probe as Probe>⟧ a.probe.vtable) a.probe.value))
        (setting_of started.script (X.meaning device.now) started.limit) started.machine)) source source
        (sunk ⟦<O as Sink>⟧ teller.old.out.now) (sunk ⟦<O as Sink>⟧ teller.new.out.now) steps.old steps.new result }
    ensures same_sink { teller.new.out.ghost_name ≡ teller.old.out.ghost_name }
{
    let Started {
        mut machine,
        script,
        limit,
        stats,
    } = started;
    let world = World {
        script: &script,
        device,
        limit,
    };
    let count = usize::from(workers.count);
    match run_beside(
        workers.rt,
        stats,
        alloc,
        &mut machine,
        &world,
        count,
        workers.gate,
        teller,
        steps,
    ) {
        Ok(ran) => {
            let probes = &mut *teller.probes;
            sent_status(send_last(stats, &ran, &machine, probes, teller.out), 0)
        }
        Err(RunFault::Sink) => 7,
        Err(RunFault::Memory) => run_out(teller.out),
    }
}

/// Puts one line, and answers the status that it goes with, or 7 where the sink fails.
fn say<O: Sink>(status: u8, line: &[u8], out: &mut O) -> u8
    ensures { Puts (sunk ⟦<O as Sink>⟧ out.old) (sunk ⟦<O as Sink>⟧ out.new) result status line.now }
{
    sent_status(put_line(line, out), status)
}

/// Puts the line of the way in which a hearing ended, and answers its status, or 7 where the sink fails.
fn close<O: Sink>(way: Way, out: &mut O) -> u8
    ensures { Puts (sunk ⟦<O as Sink>⟧ out.old) (sunk ⟦<O as Sink>⟧ out.new) result (way_status way) (way_line way) }
{
    match way {
        Way::Closed | Way::Ended => say(0, b"", out),
        Way::Broken => say(8, b"error source\n", out),
        Way::Full => say(10, b"error input\n", out),
    }
}

/// Hears the lines of a source and puts what the debugger answers, and then the line of the way in which the hearing ended; answers
/// the status of that way, or 7 where the sink fails.
pub fn talk_into<I: Source, X: Device, O: Sink, L: Ledger>(
    debugging: Debugging,
    device: &X,
    input: &mut I,
    out: &mut O,
    steps: &mut Steps<L>,
) -> u8
    ensures { Concludes (hear input_limit quits
        (session_reply (setting_of debugging.script (X.meaning device.now) debugging.limit) (first_of debugging.session)))
        (drawn ⟦<I as Source>⟧ input.old) (drawn ⟦<I as Source>⟧ input.new)
        (sunk ⟦<O as Sink>⟧ out.old) (sunk ⟦<O as Sink>⟧ out.new) steps.old steps.new result }
{
    let Debugging {
        mut session,
        script,
        limit,
    } = debugging;
    let world = World {
        script: &script,
        device,
        limit,
    };
    let mut writer = Writer { out };
    match hear(&mut session, &world, input, INPUT_LIMIT, &mut writer, steps) {
        Ok(way) => close(way, writer.out),
        Err(_) => 7,
    }
}

/// Puts the line that says that memory ran out.
fn run_out<O: Sink>(out: &mut O) -> u8
    ensures { RunsOut (sunk ⟦<O as Sink>⟧ out.old) (sunk ⟦<O as Sink>⟧ out.new) result }
{
    say(9, b"error memory\n", out)
}

/// Puts the line of what is refused, or of want of memory.
pub fn refuse<O: Sink>(alloc: Global, unopened: &Unopened, out: &mut O) -> u8
    ensures { PutsRefusal (sunk ⟦<O as Sink>⟧ out.old) (sunk ⟦<O as Sink>⟧ out.new) result unopened.now }
{
    match unopened {
        Unopened::Refusing(refusal) => match refusal_line(alloc, refusal) {
            Ok(line) => say(status(refusal), &line, out),
            Err(_) => run_out(out),
        },
        Unopened::Memory => run_out(out),
    }
}
