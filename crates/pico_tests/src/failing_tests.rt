//! Loads, takes and puts that fail, each in turn, and sources, sinks and shelves that are slow: the status, and what is written.

ghost use Rattle.std.specs.Prelude.{None, Some};

use crate::call::call_pico;
use crate::case::{Case, HUNDRED, Held, NOTHING, found, gives, gives_text, shelf_of, words_of};
use crate::rows::{BLINKS, IDLE, STORES_ONCE, THREE, WRITES_CODE};
use crate::sample_files::{first_lines, in_full};
use rp_ports::gate::OpenGate;
use rp_ports::mem_shelf::MemShelf;
use rp_ports::mem_sink::MemSink;
use rp_ports::mem_source::MemSource;
use rp_ports::shelf::{Loaded, Shelf};
use rp_ports::sink::{Put, Sink};
use rp_ports::source::{Source, Taken};
use std::alloc::{AllocError, Global};
use std::sync::Wait;
use std::test::Fail;
use std::thread::Threads;

/// A call, the words of its numbers of workers, the names that it loads, and how many lines are before each of its puts.
type Row = (
    Case,
    &'static [&'static [&'static str]],
    &'static [&'static str],
    &'static [usize],
);

const TWO: [&[&str]; 2] = [&["--workers", "0"], &["--workers", "2"]];

const ROWS: [Row; 4] = [
    (THREE, &TWO, &["a.uf2"], &[0, 1, 2]),
    (WRITES_CODE, &TWO, &["a.uf2"], &[0, 1, 2, 3]),
    (BLINKS, &TWO, &["a.uf2", "b.pio"], &[0, 1, 2, 3, 4, 5, 6, 7]),
    // The reply to `regs` has two lines.
    (
        STORES_ONCE,
        &[&[]],
        &["a.uf2"],
        &[0, 1, 2, 4, 5, 6, 7, 8, 9, 10],
    ),
];

/// Whether a call gives its status and this text, and puts so often.
fn ends<R: Threads + Wait + Sync>(
    rt: &R,
    alloc: Global,
    case: &Case,
    more: &[&str],
    text: &[u8],
    puts: u64,
) -> Result<bool, AllocError> {
    let found = found(rt, alloc, case, more)?;
    let wanted = in_full(alloc, text)?;
    Ok(
        found.status == case.status
            && found.text.as_slice() == wanted.as_slice()
            && found.puts == puts,
    )
}

/// Whether a load that fails gives the line of its file, and nothing more.
fn ends_at_load<R: Threads + Wait + Sync>(
    rt: &R,
    alloc: Global,
    case: &Case,
    more: &[&str],
    load: u64,
    name: &str,
) -> Result<bool, AllocError> {
    let mut line = Vec::from_slice(alloc, b"error file ")?;
    line.extend_from_slice(name.as_bytes())?;
    line.push(b'\n')?;
    let failing = Case {
        failing_load: Some(load),
        status: 3,
        ..*case
    };
    ends(rt, alloc, &failing, more, &line, 1)
}

/// The first load that does not.
fn wrong_load<R: Threads + Wait + Sync>(
    rt: &R,
    alloc: Global,
    case: &Case,
    more: &[&str],
    names: &[&str],
) -> Result<Option<usize>, AllocError> {
    for (index, name) in names.iter().enumerate() {
        if !ends_at_load(rt, alloc, case, more, index as u64, name)? {
            return Ok(Some(index));
        }
    }
    Ok(None)
}

/// Whether a put that fails ends the text behind so many lines, and nothing more is put.
fn ends_at_put<R: Threads + Wait + Sync>(
    rt: &R,
    alloc: Global,
    case: &Case,
    more: &[&str],
    put: u64,
    lines: usize,
) -> Result<bool, AllocError> {
    let failing = Case {
        failing_put: Some(put),
        status: 7,
        ..*case
    };
    let text = first_lines(case.text, lines);
    ends(rt, alloc, &failing, more, text, put.saturating_add(1))
}

/// The first put that does not.
fn wrong_put<R: Threads + Wait + Sync>(
    rt: &R,
    alloc: Global,
    case: &Case,
    more: &[&str],
    lines: &[usize],
) -> Result<Option<usize>, AllocError> {
    for (index, count) in lines.iter().enumerate() {
        if !ends_at_put(rt, alloc, case, more, index as u64, *count)? {
            return Ok(Some(index));
        }
    }
    Ok(None)
}

#[test]
fn each_load_fails_in_turn(rt: HostRuntime) -> Result<(), Fail> {
    for (index, (case, numbers, names, _)) in ROWS.iter().enumerate() {
        for more in *numbers {
            let wrong = wrong_load(&rt, rt.alloc(), case, more, names)?;
            assert_eq!(rt; wrong, None, "row {index}");
        }
    }
    Ok(())
}

#[test]
fn each_put_fails_in_turn(rt: HostRuntime) -> Result<(), Fail> {
    for (index, (case, numbers, _, lines)) in ROWS.iter().enumerate() {
        for more in *numbers {
            let wrong = wrong_put(&rt, rt.alloc(), case, more, lines)?;
            assert_eq!(rt; wrong, None, "row {index}");
        }
    }
    Ok(())
}

/// The first take fails.
const FIRST: Case = Case {
    failing_take: Some(0),
    status: 8,
    text: b"error source\n",
    ..STORES_ONCE
};

/// The second one fails, at which the input would end.
const SECOND: Case = Case {
    failing_take: Some(1),
    ..FIRST
};

/// The first one fails, and the line that says so is not put either.
const NEITHER: Case = Case {
    failing_put: Some(0),
    status: 7,
    text: b"",
    ..FIRST
};

#[test]
fn each_take_fails_in_turn(rt: HostRuntime) -> Result<(), Fail> {
    let alloc = rt.alloc();
    assert!(rt; gives(&rt, alloc, &FIRST)?);
    let mut text = Vec::from_slice(alloc, STORES_ONCE.text)?;
    text.extend_from_slice(FIRST.text)?;
    assert!(rt; gives_text(&rt, alloc, &SECOND, &[], &[], &text)?);
    assert!(rt; gives(&rt, alloc, &NEITHER)?);
    Ok(())
}

/// A script drives pin 3.
const DRIVEN: Case = Case {
    words: &["run", "a.uf2", "--cycles", "1000", "--script", "s"],
    image: Held::Code(&IDLE),
    files: &[("s", b"5 3 1\n600 3 0\n700 3 1\n")],
    text: b"5 pin 3 1\n600 pin 3 0\n700 pin 3 1\n",
    ..NOTHING
};

/// The sink fails at the first event, at the second, which is of another window, and at the stop.
#[test]
fn a_failing_sink_ends_a_run_with_workers(rt: HostRuntime) -> Result<(), Fail> {
    for put in [0u8, 1, 3] {
        for workers in ["2", "8"] {
            let words = ["--workers", workers];
            let lines = usize::from(put);
            let right = ends_at_put(&rt, rt.alloc(), &DRIVEN, &words, u64::from(put), lines)?;
            assert!(rt; right, "put {put}");
        }
    }
    Ok(())
}

/// A sink that takes one byte at a time.
#[derive(Drop)]
struct ByteSink {
    bytes: Vec<u8>,
    faults: u64,
}

impl Sink for ByteSink {
    ghost written = { λ s. Some s.bytes.items };

    ghost faults = { λ s. s.faults };

    fn put(&mut self, bytes: &[u8]) -> Put {
        let Some(byte) = bytes.first() else {
            return Put::Took(0);
        };
        match self.bytes.push(*byte) {
            Ok(()) => Put::Took(1),
            Err(_) => {
                self.faults = self.faults.saturating_add(1);
                Put::Failed
            }
        }
    }
}

/// Whether a call writes its whole text into such a sink.
fn comes_whole<R: Threads + Wait + Sync>(
    rt: &R,
    alloc: Global,
    case: &Case,
    more: &[&str],
) -> Result<bool, AllocError> {
    let words = words_of(alloc, case, more)?;
    let mut files = shelf_of(alloc, case, &[])?;
    let mut input = MemSource::new(Vec::from_slice(alloc, case.input)?, Vec::new(alloc));
    let mut out = ByteSink {
        bytes: Vec::new(alloc),
        faults: 0,
    };
    let status = call_pico(
        rt, alloc, &words, &mut files, &mut input, &mut out, &OpenGate,
    )?;
    let text = in_full(alloc, case.text)?;
    Ok(status == case.status && out.bytes.as_slice() == text.as_slice())
}

#[test]
fn a_text_comes_whole_byte_by_byte(rt: HostRuntime) -> Result<(), Fail> {
    for (index, (case, numbers, _, _)) in ROWS.iter().enumerate() {
        for workers in *numbers {
            assert!(rt;
                comes_whole(&rt, rt.alloc(), case, *workers)?,
                "row {index}"
            );
        }
    }
    Ok(())
}

/// A sink with room for so many bytes: of a piece behind them it takes nothing, and counts a fault.
#[derive(Drop)]
struct Small {
    bytes: Vec<u8>,
    room: usize,
    faults: u64,
}

impl Sink for Small {
    ghost written = { λ s. None };

    ghost faults = { λ s. s.faults };

    fn put(&mut self, bytes: &[u8]) -> Put {
        let count = bytes.len().min(self.room);
        if count == 0 && !bytes.is_empty() {
            self.faults = self.faults.saturating_add(1);
            return Put::Failed;
        }
        match self.bytes.extend_from_slice(&bytes[..count]) {
            Ok(()) => {
                self.room = self.room.saturating_sub(count);
                Put::Took(count)
            }
            Err(_) => {
                self.faults = self.faults.saturating_add(1);
                Put::Failed
            }
        }
    }
}

/// Whether exactly so many bytes of the text of a call are written into a sink without room for more, and one fault is counted.
fn fills<R: Threads + Wait + Sync>(
    rt: &R,
    alloc: Global,
    case: &Case,
    room: usize,
) -> Result<bool, AllocError> {
    let words = words_of(alloc, case, &[])?;
    let mut files = shelf_of(alloc, case, &[])?;
    let mut input = MemSource::new(Vec::new(alloc), Vec::new(alloc));
    let mut out = Small {
        bytes: Vec::new(alloc),
        room,
        faults: 0,
    };
    let status = call_pico(
        rt, alloc, &words, &mut files, &mut input, &mut out, &OpenGate,
    )?;
    let text = in_full(alloc, case.text)?;
    let written = out.bytes.as_slice();
    Ok(status == 7 && out.faults == 1 && written.len() == room && text.starts_with(written))
}

#[test]
fn a_full_sink_ends_the_text(rt: HostRuntime) -> Result<(), Fail> {
    for room in [0, 1, 17, 18, 19, 100, 189] {
        assert!(rt; fills(&rt, rt.alloc(), &THREE, room)?, "{room}");
    }
    Ok(())
}

/// A source that gives one byte at a time, and fails at one take.
#[derive(Drop)]
struct Dripping<'a> {
    bytes: &'a [u8],
    failing: usize,
    takes: usize,
    faults: u64,
}

impl Source for Dripping<'_> {
    ghost left = { λ s. None };

    ghost faults = { λ s. s.faults };

    fn take(&mut self, buf: &mut [u8]) -> Taken {
        let take = self.takes;
        self.takes = self.takes.saturating_add(1);
        if take == self.failing {
            self.faults = self.faults.saturating_add(1);
            return Taken::Failed;
        }
        match self.bytes.get(take) {
            Some(byte) => {
                buf[0] = *byte;
                Taken::Took(1)
            }
            None => Taken::End,
        }
    }
}

/// What a call gave, how often it took, and how often a take failed.
#[derive(Drop)]
struct Dripped {
    status: u8,
    text: Vec<u8>,
    takes: usize,
    faults: u64,
}

/// What a call gives where its input comes by single bytes, and one take fails.
fn drip<R: Threads + Wait + Sync>(
    rt: &R,
    alloc: Global,
    case: &Case,
    failing: usize,
) -> Result<Dripped, AllocError> {
    let words = words_of(alloc, case, &[])?;
    let mut files = shelf_of(alloc, case, &[])?;
    let mut input = Dripping {
        bytes: case.input,
        failing,
        takes: 0,
        faults: 0,
    };
    let mut out = MemSink::new(alloc, Vec::new(alloc));
    let status = call_pico(
        rt, alloc, &words, &mut files, &mut input, &mut out, &OpenGate,
    )?;
    Ok(Dripped {
        status,
        text: out.bytes,
        takes: input.takes,
        faults: input.faults,
    })
}

/// A session of a few lines, in which each line has a reply of one line.
const SHORT: Case = Case {
    words: &["debug", "a.uf2", "--cycles", "10"],
    input: b"step\nback\r\nx\nend\n",
    text: b"at 1\nat 0\nbad command\nstop bkpt core0 2\n",
    ..THREE
};

/// Whether the lines before a failing take are answered, and then the session ends: the take is not tried again.
fn breaks_at<R: Threads + Wait + Sync>(
    rt: &R,
    alloc: Global,
    take: usize,
) -> Result<bool, AllocError> {
    let (before, _) = SHORT.input.split_at(take.min(SHORT.input.len()));
    let lines = before.iter().filter(|byte| **byte == b'\n').count();
    let mut wanted = Vec::from_slice(alloc, first_lines(SHORT.text, lines))?;
    wanted.extend_from_slice(b"error source\n")?;
    let given = drip(rt, alloc, &SHORT, take)?;
    let once = given.takes == take.saturating_add(1) && given.faults == 1;
    Ok(given.status == 8 && given.text.as_slice() == wanted.as_slice() && once)
}

#[test]
fn an_input_comes_byte_by_byte(rt: HostRuntime) -> Result<(), Fail> {
    let alloc = rt.alloc();
    for case in [SHORT, STORES_ONCE] {
        let given = drip(&rt, alloc, &case, usize::MAX)?;
        let wanted = in_full(alloc, case.text)?;
        assert!(rt; given.status == 0 && given.text.as_slice() == wanted.as_slice());
        assert_eq!(rt; given.faults, 0);
    }
    for take in 0..=SHORT.input.len() {
        assert!(rt; breaks_at(&rt, alloc, take)?, "take {take}");
    }
    Ok(())
}

/// A shelf that notes the limit of each load.
#[derive(Drop)]
struct Noting {
    shelf: MemShelf,
    limits: [usize; 4],
    loads: usize,
}

impl Shelf for Noting {
    ghost use Rattle.std.specs.Prelude.{map};
    ghost use Rattle.std.specs.String.{string_bytes};
    ghost use Rattle.rp_ports.specs.MemShelf.{file_in};

    ghost files = { λ s. Some (file_in s.shelf.held.items) };

    ghost failed = { λ s. map string_bytes s.shelf.failed.items };

    fn load(&mut self, name: &str, limit: usize, into: &mut Vec<u8>) -> Loaded {
        if let Some(place) = self.limits.get_mut(self.loads) {
            *place = limit;
        }
        self.loads = self.loads.saturating_add(1);
        self.shelf.load(name, limit, into)
    }
}

/// A run with a script and one program for two machines.
const LOADS: Case = Case {
    words: &[
        "run",
        "a.uf2",
        "--cycles",
        "10",
        "--pio",
        "0:0:b.pio,1:2:b.pio",
        "--script",
        "s",
    ],
    files: &[("s", b"5 3 1\n"), ("b.pio", b".program b\nnop\n")],
    ..THREE
};

/// How often, and with which limits, the call loads its files.
fn noted<R: Threads + Wait + Sync>(
    rt: &R,
    alloc: Global,
    case: &Case,
) -> Result<(u8, usize, [usize; 4]), AllocError> {
    let words = words_of(alloc, case, &[])?;
    let mut files = Noting {
        shelf: shelf_of(alloc, case, &[])?,
        limits: [0; 4],
        loads: 0,
    };
    let mut input = MemSource::new(Vec::new(alloc), Vec::new(alloc));
    let mut out = MemSink::new(alloc, Vec::new(alloc));
    let status = call_pico(
        rt, alloc, &words, &mut files, &mut input, &mut out, &OpenGate,
    )?;
    Ok((status, files.loads, files.limits))
}

/// An image has at most 16 MiB, a script 4 MiB, a PIO source 1 MiB. Each file is loaded once for each place in the words.
#[test]
fn files_are_loaded_once_with_their_limits(rt: HostRuntime) -> Result<(), Fail> {
    let (status, loads, limits) = noted(&rt, rt.alloc(), &LOADS)?;
    assert!(rt; status == 0 && loads == 4);
    assert!(rt; limits == [16_777_216, 4_194_304, 1_048_576, 1_048_576]);
    let (status, loads, limits) = noted(&rt, rt.alloc(), &HUNDRED)?;
    assert!(rt; status == 4 && loads == 1 && limits == [16_777_216, 0, 0, 0]);
    Ok(())
}
