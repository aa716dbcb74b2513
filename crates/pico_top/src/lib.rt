//! The top call: the words of a command line, the files, the source and the sink that are handed in, and the text that is
//! written.
#![tactic(auto)]

pub mod laws;
mod open;
mod outcome;
mod runner;
mod tell;

ghost use Rattle.std.specs.Prelude.{◌≡◌, ◌+◌, ◌≤◌, Some, length, map, true, IfOk};
ghost use Rattle.std.specs.String.{string_bytes};
ghost use Rattle.board_parts.specs.Wiring.{all_fit, all_words, counts_of, wired_in};
ghost use Rattle.command_words.specs.Words.{parts_in, reading, workers_of, IsRead};
ghost use Rattle.command_words.specs.Read.{Reads, command_in};
ghost use Rattle.pico_top.specs.Answer.{Converses, ConversesFor, ConversesIn};
ghost use Rattle.pico_top.specs.Dialogue.{asked_by, board, outside, aims_in, dialogue_of, targets_in};
ghost use Rattle.pico_top.specs.Causes.{HasCause, IsComplete};

use board_parts::aiming::aim_all;
use board_parts::attaching::attach_all;
use board_parts::part::Part;
use board_parts::probe::Probe;
use board_parts::target::Target;
use board_parts::wiring::Wiring;
use command_words::refusal::Refusal;
pub use command_words::{Reading, WordsFault, read_words};
use lane_look::{Device, Pair};
use open::open_reading;
use outcome::{Opened, Unopened};
use rp_machine::Steps;
use rp_ports::gate::Gate;
use rp_ports::shelf::Shelf;
use rp_ports::sink::Sink;
use rp_ports::source::Source;
use runner::{Teller, Workers};
use std::alloc::{AllocError, Global};
use std::marker::PhantomData;
use std::sync::Wait;
use std::sync::ledger::Ledger;
use std::thread::Threads;
use tell::{refuse, run_into, run_into_by, send_text, sent_status, talk_into};

/// The probes that a reading aims.
fn targets(reading: &Reading) -> &[Target]
    ensures { result.now ≡ targets_in (command_in reading.now) }
{
    match reading {
        Reading::Run(run) => &run.probes,
        _ => &[],
    }
}

/// The parts that a reading attaches.
fn wirings(reading: &Reading) -> &[Wiring]
    ensures { map wired_in result.now ≡ parts_in (command_in reading.now) }
{
    match reading {
        Reading::Run(run) | Reading::Debug(run) => &run.parts,
        _ => &[],
    }
}

/// How many workers a reading asks for; none where its command has no such number.
fn count_of(reading: &Reading) -> u8
    ensures count { result ≡ workers_of (command_in reading.now) }
    ensures within { result ≤ 8 }
{
    match reading {
        Reading::Run(run) => run.workers,
        Reading::Gen(run) => run.workers,
        _ => 0,
    }
}

/// How many pins each part has.
fn pins_of<P: Part>(alloc: Global, parts: &[P]) -> Result<Vec<usize>, AllocError>
    ensures { IfOk result (λ pins. pins.items ≡ counts_of (map P.meaning parts.now)) }
{
    let mut pins = Vec::new(alloc);
    for part in parts {
        pins.push(part.pins())?;
    }
    Ok(pins)
}

/// Reads the words, where these probes and parts are handed in.
fn read<P: Part>(
    alloc: Global,
    words: &[String],
    probes: &[Box<dyn Probe>],
    parts: &[P],
) -> Result<Reading, WordsFault>
    ensures { Reads command_in (reading (length (map (λ p. (Probe-box p).meaning p.value) probes.now))
        (counts_of (map P.meaning parts.now)) (map string_bytes words.now)) result }
{
    let pins = pins_of(alloc, parts)?;
    read_words(alloc, words, probes.len(), &pins)
}

/// Aims the probes that a reading names, loads its files, and writes the text, where a run has this device.
#[tactic(auto, using(crate::proofs::Telling::out_converses))]
fn serve_with<F: Shelf, I: Source, O: Sink, X: Device, L: Ledger>(
    alloc: Global,
    reading: &Reading,
    files: &mut F,
    input: &mut I,
    out: &mut O,
    probes: Vec<Box<dyn Probe>>,
    device: &X,
    steps: &mut Steps<L>,
) -> u8
    ensures { ConversesIn (dialogue_of (X.meaning device.now)
        (aims_in (map (λ p. (Probe-box p).meaning p.value) probes.items) (command_in reading.now)) (command_in reading.now))
        (outside ⟦<F as Shelf>⟧ ⟦<I as Source>⟧ ⟦<O as Sink>⟧ files.old input.old out.old steps.old)
        (outside ⟦<F as Shelf>⟧ ⟦<I as Source>⟧ ⟦<O as Sink>⟧ files.new input.new out.new steps.new) result }
{
    let Ok(mut aimed) = aim_all(alloc, probes, targets(reading)) else {
        return refuse(alloc, &Unopened::Memory, out);
    };
    match open_reading(alloc, reading, files, device) {
        Ok(opened) => match opened {
            Opened::Machine(started) => {
                let mut teller = Teller {
                    out,
                    probes: &mut aimed,
                    boxed: PhantomData,
                };
                run_into(alloc, started, &mut teller, device, steps)
            }
            Opened::Session(debugging) => talk_into(debugging, device, input, out, steps),
            Opened::Text(text, pieces) => sent_status(send_text(&text, pieces, out), 0),
        },
        Err(unopened) => refuse(alloc, &unopened, out),
    }
}

/// The same, where workers run the lanes of a run.
#[tactic(auto, using(crate::proofs::Telling::out_converses))]
fn serve_with_by<F: Shelf, I: Source, O: Sink, G: Gate, X: Device, L: Ledger, R>(
    alloc: Global,
    workers: &Workers<'_, G, R>,
    reading: &Reading,
    files: &mut F,
    input: &mut I,
    out: &mut O,
    probes: Vec<Box<dyn Probe>>,
    device: &X,
    steps: &mut Steps<L>,
) -> u8
where
    R: Threads + Wait + Sync,
    ensures { ConversesIn (dialogue_of (X.meaning device.now)
        (aims_in (map (λ p. (Probe-box p).meaning p.value) probes.items) (command_in reading.now)) (command_in reading.now))
        (outside ⟦<F as Shelf>⟧ ⟦<I as Source>⟧ ⟦<O as Sink>⟧ files.old input.old out.old steps.old)
        (outside ⟦<F as Shelf>⟧ ⟦<I as Source>⟧ ⟦<O as Sink>⟧ files.new input.new out.new steps.new) result }
{
    let Ok(mut aimed) = aim_all(alloc, probes, targets(reading)) else {
        return refuse(alloc, &Unopened::Memory, out);
    };
    match open_reading(alloc, reading, files, device) {
        Ok(opened) => match opened {
            Opened::Machine(started) => {
                let mut teller = Teller {
                    out,
                    probes: &mut aimed,
                    boxed: PhantomData,
                };
                run_into_by(alloc, workers, started, &mut teller, device, steps)
            }
            Opened::Session(debugging) => talk_into(debugging, device, input, out, steps),
            Opened::Text(text, pieces) => sent_status(send_text(&text, pieces, out), 0),
        },
        Err(unopened) => refuse(alloc, &unopened, out),
    }
}

/// Aims the probes and attaches the parts that a reading names, loads its files, and writes the text.
#[tactic(auto, using(crate::proofs::Telling::out_converses))]
fn serve<F: Shelf, I: Source, O: Sink, P: Part + Sync, X: Device, L: Ledger>(
    alloc: Global,
    reading: &Reading,
    files: &mut F,
    input: &mut I,
    out: &mut O,
    probes: Vec<Box<dyn Probe>>,
    parts: Vec<P>,
    device: X,
    steps: &mut Steps<L>,
) -> u8
    requires fit { all_fit (counts_of (map P.meaning parts.items))
        (parts_in (command_in reading.now)) ≡ true }
    requires room { all_words (map P.meaning parts.items) + (X.meaning device).count ≤ 128 }
    ensures { ConversesFor (board (X.meaning device) (map (λ p. (Probe-box p).meaning p.value) probes.items)
        (map P.meaning parts.items)) (Some (command_in reading.now))
        (outside ⟦<F as Shelf>⟧ ⟦<I as Source>⟧ ⟦<O as Sink>⟧ files.old input.old out.old steps.old)
        (outside ⟦<F as Shelf>⟧ ⟦<I as Source>⟧ ⟦<O as Sink>⟧ files.new input.new out.new steps.new) result }
{
    match wirings(reading) {
        [] => serve_with(alloc, reading, files, input, out, probes, &device, steps),
        wirings => match attach_all(alloc, parts, wirings) {
            Ok(first) => {
                let device = Pair {
                    first,
                    second: device,
                };
                serve_with(alloc, reading, files, input, out, probes, &device, steps)
            }
            Err(_) => refuse(alloc, &Unopened::Memory, out),
        },
    }
}

/// The same, where workers run the lanes of a run.
#[tactic(auto, using(crate::proofs::Telling::out_converses))]
fn serve_by<F: Shelf, I: Source, O: Sink, G: Gate, P: Part + Sync, X: Device, L: Ledger, R>(
    alloc: Global,
    workers: &Workers<'_, G, R>,
    reading: &Reading,
    files: &mut F,
    input: &mut I,
    out: &mut O,
    probes: Vec<Box<dyn Probe>>,
    parts: Vec<P>,
    device: X,
    steps: &mut Steps<L>,
) -> u8
where
    R: Threads + Wait + Sync,
    requires fit { all_fit (counts_of (map P.meaning parts.items))
        (parts_in (command_in reading.now)) ≡ true }
    requires room { all_words (map P.meaning parts.items) + (X.meaning device).count ≤ 128 }
    ensures { ConversesFor (board (X.meaning device) (map (λ p. (Probe-box p).meaning p.value) probes.items)
        (map P.meaning parts.items)) (Some (command_in reading.now))
        (outside ⟦<F as Shelf>⟧ ⟦<I as Source>⟧ ⟦<O as Sink>⟧ files.old input.old out.old steps.old)
        (outside ⟦<F as Shelf>⟧ ⟦<I as Source>⟧ ⟦<O as Sink>⟧ files.new input.new out.new steps.new) result }
{
    match wirings(reading) {
        [] => serve_with_by(
            alloc, workers, reading, files, input, out, probes, &device, steps,
        ),
        wirings => match attach_all(alloc, parts, wirings) {
            Ok(first) => {
                let device = Pair {
                    first,
                    second: device,
                };
                serve_with_by(
                    alloc, workers, reading, files, input, out, probes, &device, steps,
                )
            }
            Err(_) => refuse(alloc, &Unopened::Memory, out),
        },
    }
}

/// Does what a reading says: loads its files from the shelf, takes the lines that it answers from the source, and writes the text
/// to the sink. It waits for nobody, and returns. The reading names no workers, and was made for the `probes` and the `parts` that are
/// handed in. All words of the parts and of the device are at most 128 together.
///
/// The answer is the status, as that of `pico`; it is not 2. The clauses are those of `pico`, of what the reading stands for.
#[tactic(auto, using(crate::proofs::Causing::causes, crate::proofs::Causing::completes))]
pub fn pico_alone<F: Shelf, I: Source, O: Sink, X: Device, L: Ledger>(
    alloc: Global,
    reading: &Reading,
    files: &mut F,
    input: &mut I,
    out: &mut O,
    probes: Vec<Box<dyn Probe>>,
    parts: Vec<Box<dyn Part + Sync>>,
    device: X,
    steps: &mut Steps<L>,
) -> u8
    requires alone { workers_of (command_in reading.now) ≡ 0 }
    requires read { IsRead (length probes.items)
        (counts_of (map (λ p. (Part-box p).meaning p.value) parts.items))
        (command_in reading.now) }
    requires room { all_words (map (λ p. (Part-box p).meaning p.value) parts.items)
        + (X.meaning device).count ≤ 128 }
    ensures text { ConversesFor (board (X.meaning device) (map (λ p. (Probe-box p).meaning p.value) probes.items)
        (map (λ p. (Part-box p).meaning p.value) parts.items)) (Some (command_in reading.now))
        (outside ⟦<F as Shelf>⟧ ⟦<I as Source>⟧ ⟦<O as Sink>⟧ files.old input.old out.old steps.old)
        (outside ⟦<F as Shelf>⟧ ⟦<I as Source>⟧ ⟦<O as Sink>⟧ files.new input.new out.new steps.new) result }
    ensures cause { HasCause (board (X.meaning device) (map (λ p. (Probe-box p).meaning p.value) probes.items)
        (map (λ p. (Part-box p).meaning p.value) parts.items)) (Some (command_in reading.now))
        (outside ⟦<F as Shelf>⟧ ⟦<I as Source>⟧ ⟦<O as Sink>⟧ files.old input.old out.old steps.old)
        (outside ⟦<F as Shelf>⟧ ⟦<I as Source>⟧ ⟦<O as Sink>⟧ files.new input.new out.new steps.new) result }
    ensures complete { IsComplete (board (X.meaning device) (map (λ p. (Probe-box p).meaning p.value) probes.items)
        (map (λ p. (Part-box p).meaning p.value) parts.items)) (Some (command_in reading.now))
        (outside ⟦<F as Shelf>⟧ ⟦<I as Source>⟧ ⟦<O as Sink>⟧ files.old input.old out.old steps.old)
        (outside ⟦<F as Shelf>⟧ ⟦<I as Source>⟧ ⟦<O as Sink>⟧ files.new input.new out.new steps.new) result }
{
    serve(
        alloc, reading, files, input, out, probes, parts, device, steps,
    )
}

/// Does what the words say: loads their files from the shelf, takes the lines that it answers from the source, and writes
/// the text to the sink.
///
/// The answer is the status: 0 where the text was written, 2 where the words are refused, 3 where a file could not be
/// loaded or is too large, 4 where the image has a fault, 5 where a PIO source has one or its program finds no room, 6 where
/// the script has one, 7 where the sink failed, 8 where the source failed, 9 where memory ran out, 10 where as many bytes as the
/// limit were taken and no last line is complete among them, 11 where a Thumb source has a fault, 12 where the image loads an
/// address of the table that it is to be linked with. A refusal has its one line, `error ..`, for its text; at 8 and 10 such a
/// line comes behind the answers.
///
/// Those of the `probes` that the words name are aimed at their pins, hear the run, and have their lines at its end; those of the `parts`
/// that they name are attached to their pins and act in their order; the others are dropped before the run. The parts and the `device`
/// stand at the pads of a run, and the device at the addresses that no block covers. All their words are at most 128 together. Each
/// cycle of a run, and each that the debugger steps, counts as one of the `steps`.
///
/// Where the words name workers, so many threads take part in a run beside this one: they run the lanes of some of its windows, and
/// the `gate` is entered and left round each piece of a lane; the call then waits for them and for the gate, and what is said here holds if it returns. The text is the
/// same for each number of workers. Without workers nobody is waited for.
#[tactic(auto, using(crate::proofs::Causing::causes, crate::proofs::Causing::completes, crate::proofs::Telling::out_converses, crate::proofs::Telling::read_converses))]
pub fn pico<F: Shelf, I: Source, O: Sink, G: Gate, X: Device, L: Ledger, R>(
    rt: &R,
    alloc: Global,
    words: &[String],
    files: &mut F,
    input: &mut I,
    out: &mut O,
    gate: &G,
    probes: Vec<Box<dyn Probe>>,
    parts: Vec<Box<dyn Part + Sync>>,
    device: X,
    steps: &mut Steps<L>,
) -> u8
where
    R: Threads + Wait + Sync,
    requires room { all_words (map (λ p. (Part-box p).meaning p.value) parts.items)
        + (X.meaning device).count ≤ 128 }

    // A walk of the words' dialogue over the shelf ended, and its text was written whole with its status; or a part of it,
    // and the sink failed; or memory ran out, and the line that says so was written alone. The bytes that were heard were
    // taken from the source. So many steps were counted as that text costs.
    ensures text { Converses (board (X.meaning device) (map (λ p. (Probe-box p).meaning p.value) probes.items)
        (map (λ p. (Part-box p).meaning p.value) parts.items)) (map string_bytes words.now)
        (outside ⟦<F as Shelf>⟧ ⟦<I as Source>⟧ ⟦<O as Sink>⟧ files.old input.old out.old steps.old)
        (outside ⟦<F as Shelf>⟧ ⟦<I as Source>⟧ ⟦<O as Sink>⟧ files.new input.new out.new steps.new) result }

    // Each status but 0 and 9 has its cause: the words, the file or the input that was refused, the sink or the source that failed,
    // or the input that is too long.
    ensures cause { let b = board (X.meaning device) (map (λ p. (Probe-box p).meaning p.value) probes.items)
        (map (λ p. (Part-box p).meaning p.value) parts.items) in HasCause b (asked_by b (map string_bytes words.now))
        (outside ⟦<F as Shelf>⟧ ⟦<I as Source>⟧ ⟦<O as Sink>⟧ files.old input.old out.old steps.old)
        (outside ⟦<F as Shelf>⟧ ⟦<I as Source>⟧ ⟦<O as Sink>⟧ files.new input.new out.new steps.new) result }

    // Refused words have status 2. Where the shelf tells its files and no load failed, the status is that of the dialogue over these
    // files, and where it hears an input, over the bytes of the source, unless the sink failed or memory ran out.
    ensures complete { let b = board (X.meaning device) (map (λ p. (Probe-box p).meaning p.value) probes.items)
        (map (λ p. (Part-box p).meaning p.value) parts.items) in IsComplete b (asked_by b (map string_bytes words.now))
        (outside ⟦<F as Shelf>⟧ ⟦<I as Source>⟧ ⟦<O as Sink>⟧ files.old input.old out.old steps.old)
        (outside ⟦<F as Shelf>⟧ ⟦<I as Source>⟧ ⟦<O as Sink>⟧ files.new input.new out.new steps.new) result }
{
    match read(alloc, words, &probes, &parts) {
        Ok(reading) => {
            let count = count_of(&reading);
            if count == 0 {
                return serve(
                    alloc, &reading, files, input, out, probes, parts, device, steps,
                );
            }
            let workers = Workers { rt, gate, count };
            serve_by(
                alloc, &workers, &reading, files, input, out, probes, parts, device, steps,
            )
        }
        Err(WordsFault::Words) => refuse(alloc, &Unopened::Refusing(Refusal::Words), out),
        Err(WordsFault::Memory) => refuse(alloc, &Unopened::Memory, out),
    }
}
