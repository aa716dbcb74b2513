//! The top call with the device, the probes and the parts that the program hands in, and with a count of cycles that nobody reads.

ghost use Rattle.std.specs.Prelude.{◌≡◌, ◌<◌};

use board_parts::button::Button;
use board_parts::edge_counter::EdgeCounter;
use board_parts::loop_back::Loop;
use board_parts::part::Part;
use board_parts::probe::Probe;
use board_parts::shift::Shift;
use board_parts::ws2812::Ws2812;
use lane_look::Pair;
use pico_top::pico;
use pwm_block::Pwm;
use rp_machine::Steps;
use rp_ports::gate::Gate;
use rp_ports::shelf::Shelf;
use rp_ports::sink::Sink;
use rp_ports::source::Source;
use startup_blocks::Startup;
use std::alloc::{AllocError, Global};
use std::marker::Brand;
use std::sync::Wait;
use std::sync::ledger::{Blank, Ledger};
use std::thread::Threads;

fn counted<F, I, O, G, L, R>(
    blank: Blank,
    rt: &R,
    alloc: Global,
    words: &[String],
    files: &mut F,
    input: &mut I,
    out: &mut O,
    gate: &G,
) -> Result<u8, AllocError>
where
    F: Shelf,
    I: Source,
    O: Sink,
    G: Gate,
    L: Ledger,
    R: Threads + Wait + Sync,
    requires name { blank.name ≡ L.name }
    requires parts { blank.parts ≡ L.parts }
    requires some { 0 < blank.parts }
{
    let (book, share) = blank.open::<L>();
    let mut steps = Steps::new(book, share);
    let mut probes: Vec<Box<dyn Probe>> = Vec::new(alloc);
    probes.push(Box::new(alloc, EdgeCounter::new())?)?;
    probes.push(Box::new(alloc, Ws2812::new())?)?;
    let mut parts: Vec<Box<dyn Part + Sync>> = Vec::new(alloc);
    parts.push(Box::new(alloc, Button::new())?)?;
    parts.push(Box::new(alloc, Shift::new())?)?;
    parts.push(Box::new(alloc, Loop::new())?)?;
    let device = Pair {
        first: Pwm::new(),
        second: Startup::new(),
    };
    Ok(pico(
        rt, alloc, words, files, input, out, gate, probes, parts, device, &mut steps,
    ))
}

/// What `pico` answers.
///
/// # Errors
///
/// There was no memory for the probes and parts.
pub fn call_pico<F: Shelf, I: Source, O: Sink, G: Gate, R: Threads + Wait + Sync>(
    rt: &R,
    alloc: Global,
    words: &[String],
    files: &mut F,
    input: &mut I,
    out: &mut O,
    gate: &G,
) -> Result<u8, AllocError> {
    let blank = Blank::new(1);
    counted::<F, I, O, G, Brand, R>(blank, rt, alloc, words, files, input, out, gate)
}
