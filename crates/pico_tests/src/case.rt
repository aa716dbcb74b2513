//! One call of `pico`: what is handed in, and what it gives.

use crate::call::call_pico;
use crate::held_file::held;
use crate::sample_files::{Block, blocks, image, in_full, texts};
use rp_ports::gate::{Gate, OpenGate};
use rp_ports::mem_shelf::MemShelf;
use rp_ports::mem_sink::MemSink;
use rp_ports::mem_source::MemSource;
use std::alloc::{AllocError, Global};
use std::sync::Wait;
use std::thread::Threads;

/// What the file of an image holds.
#[derive(Clone, Copy)]
pub enum Held {
    /// A block of this code, for 20000000.
    Code(&'static [u16]),
    /// These blocks.
    Blocks(&'static [Block]),
}

/// A call of `pico`, and what it gives.
#[derive(Clone, Copy)]
pub struct Case {
    /// The words of the command line.
    pub words: &'static [&'static str],
    /// The numbers of workers, each of which is tried; without one the words do not name any.
    pub workers: &'static [&'static str],
    /// What the file `a.uf2` holds.
    pub image: Held,
    /// The other files, each with its name.
    pub files: &'static [(&'static str, &'static [u8])],
    /// The load that fails, counted from 0.
    pub failing_load: Option<u64>,
    /// The bytes of the source.
    pub input: &'static [u8],
    /// The take that fails.
    pub failing_take: Option<u64>,
    /// The put that fails.
    pub failing_put: Option<u64>,
    /// The status.
    pub status: u8,
    /// The text, in which a `*` stands for the registers up to R12 that are 0.
    pub text: &'static [u8],
}

/// Nothing is handed in, and nothing fails.
pub const NOTHING: Case = Case {
    words: &[],
    workers: &[],
    image: Held::Blocks(&[]),
    files: &[],
    failing_load: None,
    input: b"",
    failing_take: None,
    failing_put: None,
    status: 0,
    text: b"",
};

/// A run of `a.uf2` over at most 100 cycles.
pub const HUNDRED: Case = Case {
    words: &["run", "a.uf2", "--cycles", "100"],
    ..NOTHING
};

/// What a call gave, and how often it called for files, bytes and the sink.
#[derive(Drop)]
pub struct Outcome {
    /// Its status.
    pub status: u8,
    /// What it wrote.
    pub text: Vec<u8>,
    /// How many loads there were.
    pub loads: u64,
    /// How many takes there were.
    pub takes: u64,
    /// How many puts there were.
    pub puts: u64,
}

/// The words of a case, and these behind them.
pub fn words_of(alloc: Global, case: &Case, more: &[&str]) -> Result<Vec<String>, AllocError> {
    let mut words = texts(alloc, case.words)?;
    for word in more {
        words.push(String::from_str(alloc, word)?)?;
    }
    Ok(words)
}

fn image_of(alloc: Global, content: Held) -> Result<Vec<u8>, AllocError> {
    match content {
        Held::Code(code) => image(alloc, code),
        Held::Blocks(list) => blocks(alloc, list),
    }
}

/// The list of the call that fails, if one does.
fn list_of(alloc: Global, call: Option<u64>) -> Result<Vec<u64>, AllocError> {
    let mut list = Vec::new(alloc);
    if let Some(number) = call {
        list.push(number)?;
    }
    Ok(list)
}

/// The shelf of a case, on which these files come first.
pub fn shelf_of(
    alloc: Global,
    case: &Case,
    first: &[(&str, &[u8])],
) -> Result<MemShelf, AllocError> {
    let mut shelf = Vec::new(alloc);
    for (name, bytes) in first {
        shelf.push(held(alloc, name, bytes)?)?;
    }
    shelf.push(held(alloc, "a.uf2", &image_of(alloc, case.image)?)?)?;
    for (name, bytes) in case.files {
        shelf.push(held(alloc, name, bytes)?)?;
    }
    Ok(MemShelf::new(alloc, shelf, list_of(alloc, case.failing_load)?))
}

/// What a case gives with these words behind its own and with these files before its own, at this gate.
fn found_at<G: Gate, R: Threads + Wait + Sync>(
    rt: &R,
    alloc: Global,
    case: &Case,
    more: &[&str],
    first: &[(&str, &[u8])],
    gate: &G,
) -> Result<Outcome, AllocError> {
    let words = words_of(alloc, case, more)?;
    let mut files = shelf_of(alloc, case, first)?;
    let bytes = Vec::from_slice(alloc, case.input)?;
    let mut input = MemSource::new(bytes, list_of(alloc, case.failing_take)?);
    let mut out = MemSink::new(alloc, list_of(alloc, case.failing_put)?);
    let status = call_pico(rt, alloc, &words, &mut files, &mut input, &mut out, gate)?;
    Ok(Outcome {
        status,
        text: out.bytes,
        loads: files.calls,
        takes: input.calls,
        puts: out.calls,
    })
}

/// What a case gives with two workers, at this gate.
pub fn found_by_two<G: Gate, R: Threads + Wait + Sync>(
    rt: &R,
    alloc: Global,
    case: &Case,
    gate: &G,
) -> Result<Outcome, AllocError> {
    found_at(rt, alloc, case, &["--workers", "2"], &[], gate)
}

/// What a case gives with these words behind its own.
pub fn found<R: Threads + Wait + Sync>(
    rt: &R,
    alloc: Global,
    case: &Case,
    more: &[&str],
) -> Result<Outcome, AllocError> {
    found_at(rt, alloc, case, more, &[], &OpenGate)
}

/// Whether a case with these words and files more gives its status, and this text.
pub fn gives_text<R: Threads + Wait + Sync>(
    rt: &R,
    alloc: Global,
    case: &Case,
    more: &[&str],
    first: &[(&str, &[u8])],
    text: &[u8],
) -> Result<bool, AllocError> {
    let found = found_at(rt, alloc, case, more, first, &OpenGate)?;
    let wanted = in_full(alloc, text)?;
    Ok(found.status == case.status && found.text.as_slice() == wanted.as_slice())
}

/// Whether a case gives what it says, with each of its numbers of workers.
pub fn gives<R: Threads + Wait + Sync>(
    rt: &R,
    alloc: Global,
    case: &Case,
) -> Result<bool, AllocError> {
    if case.workers.is_empty() {
        return gives_text(rt, alloc, case, &[], &[], case.text);
    }
    for workers in case.workers {
        if !gives_text(rt, alloc, case, &["--workers", *workers], &[], case.text)? {
            return Ok(false);
        }
    }
    Ok(true)
}

/// The first case that does not give what it says.
pub fn first_wrong<R: Threads + Wait + Sync>(
    rt: &R,
    alloc: Global,
    cases: &[Case],
) -> Result<Option<usize>, AllocError> {
    for (index, case) in cases.iter().enumerate() {
        if !gives(rt, alloc, case)? {
            return Ok(Some(index));
        }
    }
    Ok(None)
}
