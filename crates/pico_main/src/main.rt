//! The program: hands the command line, the real files, standard input, standard output, an open gate, two probes, three parts and a
//! device to the top call, and ends with its status.
#![tactic(auto)]

mod file_shelf;
mod stdin_source;
mod stdout_sink;

ghost use Rattle.std.specs.Prelude.{◌≡◌, ◌<◌};

use board_parts::button::Button;
use board_parts::edge_counter::EdgeCounter;
use board_parts::loop_back::Loop;
use board_parts::part::Part;
use board_parts::probe::Probe;
use board_parts::shift::Shift;
use board_parts::ws2812::Ws2812;
use file_shelf::FileShelf;
use lane_look::Pair;
use pico_top::pico;
use pwm_block::Pwm;
use rp_machine::Steps;
use rp_ports::gate::OpenGate;
use startup_blocks::Startup;
use std::alloc::{AllocError, Global};
use std::marker::Brand;
use std::process::ExitCode;
use std::rt::{Env, Files};
use std::sync::Wait;
use std::sync::ledger::{Blank, Ledger};
use std::thread::Threads;
use std::{env, io};
use stdin_source::StdinSource;
use stdout_sink::StdoutSink;

/// The words after the program's name; none where the system does not give them as text.
///
/// # Errors
///
/// There was no memory for them.
fn words<R: Env + AllocGlobal>(rt: &R) -> Result<Vec<String>, AllocError> {
    match env::args(rt) {
        Ok(args) => args.skip(1).collect(rt.alloc()),
        Err(error) if error.kind() == io::ErrorKind::OutOfMemory => Err(AllocError),
        Err(_) => Ok(Vec::new(rt.alloc())),
    }
}

/// Does what the words say over the real files, standard input and standard output, with a counter of edges and a decoder of lights
/// as probes 0 and 1, with a button, a shift register and a wire as parts 0 to 2, with the PWM block and the start-up registers as the
/// device and with a gate that does nothing, and answers the status. The cycles are counted by a ledger that nobody reads.
///
/// # Errors
///
/// There was no memory for the probes and the parts; nothing was written then.
fn serve<L: Ledger, R: Files + Input + Print + Threads + Wait + Sync>(
    blank: Blank,
    rt: &R,
    alloc: Global,
    words: &[String],
) -> Result<u8, AllocError>
    requires name { blank.name ≡ L.name }
    requires parts { blank.parts ≡ L.parts }
    requires some { 0 < blank.parts }
{
    let (book, share) = blank.open::<L>();
    let mut steps = Steps::new(book, share);
    let mut probes: Vec<Box<dyn Probe>> = Vec::new(alloc);
    probes.push(Box::new(alloc, EdgeCounter::new())?)?;
    probes.push(Box::new(alloc, Ws2812::new())?)?;
    let mut parts: Vec<Box<dyn Part + Sync>> = Vec::new(alloc);
    parts.push(Box::new(alloc, Button::new())?)?;
    parts.push(Box::new(alloc, Shift::new())?)?;
    parts.push(Box::new(alloc, Loop::new())?)?;
    let device = Pair {
        first: Pwm::new(),
        second: Startup::new(),
    };
    let mut files = FileShelf::new(rt, alloc);
    let mut input = StdinSource::new(rt);
    let mut out = StdoutSink::new(rt);
    Ok(pico(
        rt, alloc, words, &mut files, &mut input, &mut out, &OpenGate, probes, parts, device,
        &mut steps,
    ))
}

/// Does what the arguments say, and ends with the status of it; with 9 and no word where the arguments, the probes or the parts
/// find no memory.
fn program<R>(rt: &R) -> ExitCode
where
    R: Env + Files + Input + Print + AllocGlobal + Threads + Wait + Sync,
{
    let alloc = rt.alloc();
    let Ok(words) = words(rt) else {
        return ExitCode::from(9);
    };
    match serve::<Brand, R>(Blank::new(1), rt, alloc, &words) {
        Ok(status) => ExitCode::from(status),
        Err(_) => ExitCode::from(9),
    }
}

fn main(rt: HostRuntime) -> ExitCode {
    program(&rt)
}
