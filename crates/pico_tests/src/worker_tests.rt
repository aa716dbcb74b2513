//! Runs whose lanes are run by workers: the text is that of one thread, and other threads take part in it.

ghost use Rattle.std.specs.Prelude.{◌≡◌, ◌<◌};
ghost use Rattle.uf2_image.specs.Uf2.{FitsSram};

use crate::case::{Case, NOTHING, found, found_by_two, gives};
use crate::rows::{BLINKS, IDLE, WRITES_CODE};
use crate::sample_files::{image, in_full};
use lane_look::{Device, Wires};
use pin_script::Script;
use rp_base::Why;
use rp_machine::{Machine, Steps, World};
use rp_ports::gate::Gate;
use std::alloc::{AllocError, Global};
use std::marker::Brand;
use std::sync::Wait;
use std::sync::atomic::{AtomicU64, Ordering};
use std::sync::ledger::{Blank, Ledger};
use std::test::Fail;
use std::thread::{self, Threads};
use trace_text::event::Event;
use trace_text::tape::Tape;
use trace_text::writer::SinkFault;
use uf2_image::{Image, read_image};
use window_runner::alone::Ran;
use window_runner::windows::run_windows;

/// A run with each of some numbers of workers.
const MANY: Case = Case {
    workers: &["0", "1", "8"],
    ..WRITES_CODE
};

#[test]
fn a_text_is_the_same_for_each_number_of_workers(rt: HostRuntime) -> Result<(), Fail> {
    assert!(rt; gives(&rt, rt.alloc(), &MANY)?);
    Ok(())
}

/// A run of the generated program of 1 over so many cycles.
const GENERATED: Case = Case {
    words: &["gen", "1", "--cycles", "1000000", "--stats"],
    text: b"stop limit 1000000\n\
        core0 00000000 9711a483 00000000 9781a45d 000000c7 006fff94 00000031 5fffffeb * \
        20042000 20008001 20000406 81000000\ncore1 asleep\nwindows 3907 cycles 1000000\n",
    ..NOTHING
};

/// The program of the greatest number.
const GREATEST: Case = Case {
    words: &["gen", "18446744073709551615", "--cycles", "1"],
    ..NOTHING
};

/// A million cycles by another emulator of its eight instructions: the code has run to its end at least once, since LR was set by the
/// BL there. The greatest number has a program too.
#[test]
fn a_generated_program_runs(rt: HostRuntime) -> Result<(), Fail> {
    assert!(rt; gives(&rt, rt.alloc(), &GENERATED)?);
    assert_eq!(rt; found(&rt, rt.alloc(), &GREATEST, &[])?.status, 0);
    Ok(())
}

/// A shorter run, of which two windows go over the board, or three where they are counted.
const SHORTER: Case = Case {
    words: &["gen", "1", "--cycles", "60000", "--workers"],
    ..NOTHING
};

/// No worker and four, where windows are not counted and where they are.
const NONE_AND_FOUR: [[&[&str]; 2]; 2] = [[&["0"], &["4"]], [&["0", "--stats"], &["4", "--stats"]]];

#[test]
fn workers_run_a_generated_program(rt: HostRuntime) -> Result<(), Fail> {
    let alloc = rt.alloc();
    for [none, four] in NONE_AND_FOUR {
        let alone = found(&rt, alloc, &SHORTER, none)?;
        let worked = found(&rt, alloc, &SHORTER, four)?;
        assert!(rt; worked.status == 0 && worked.text.as_slice() == alone.text.as_slice());
    }
    Ok(())
}

/// A gate is asked so often whether it may open.
const TURNS: u64 = 10_000_000;

/// Holds ticket 0 until ticket 1 has entered.
#[derive(Drop)]
struct HoldsFirst {
    second_entered: AtomicU64,
    first_left_behind_it: AtomicU64,
}

impl Gate for HoldsFirst {
    fn enter(&self, ticket: u64) {
        if ticket == 1 {
            self.second_entered.store(1, Ordering::SeqCst);
        }
        if ticket == 0 {
            for _ in 0..TURNS {
                if self.second_entered.load(Ordering::SeqCst) == 1 {
                    return;
                }
                thread::yield_now();
            }
        }
    }

    fn leave(&self, ticket: u64) {
        if ticket == 0 && self.second_entered.load(Ordering::SeqCst) == 1 {
            self.first_left_behind_it.store(1, Ordering::SeqCst);
        }
    }
}

/// Two tickets are held at once, so two threads run pieces.
#[test]
fn a_piece_is_begun_while_another_is_held(rt: HostRuntime) -> Result<(), Fail> {
    let alloc = rt.alloc();
    let gate = HoldsFirst {
        second_entered: AtomicU64::new(0),
        first_left_behind_it: AtomicU64::new(0),
    };
    let found = found_by_two(&rt, alloc, &WRITES_CODE, &gate)?;
    let wanted = in_full(alloc, WRITES_CODE.text)?;
    assert!(rt; found.status == 0 && found.text.as_slice() == wanted.as_slice());
    assert_eq!(rt; gate.first_left_behind_it.load(Ordering::SeqCst), 1);
    Ok(())
}

/// Holds ticket 1 until ticket 0 has left.
#[derive(Drop)]
struct HoldsSecond {
    first_left: AtomicU64,
}

impl Gate for HoldsSecond {
    fn enter(&self, ticket: u64) {
        if ticket == 1 {
            for _ in 0..TURNS {
                if self.first_left.load(Ordering::SeqCst) == 1 {
                    return;
                }
                thread::yield_now();
            }
        }
    }

    fn leave(&self, ticket: u64) {
        if ticket == 0 {
            self.first_left.store(1, Ordering::SeqCst);
        }
    }
}

/// A run whose windows are counted, so that the first of them goes over the board.
const COUNTED: Case = Case {
    words: &[
        "run",
        "a.uf2",
        "--cycles",
        "24",
        "--pio",
        "0:0:b.pio",
        "--stats",
    ],
    ..BLINKS
};

/// The third line of it is not put.
const CUT: Case = Case {
    failing_put: Some(2),
    status: 7,
    ..COUNTED
};

#[test]
fn a_sink_fails_while_a_piece_is_held(rt: HostRuntime) -> Result<(), Fail> {
    let gate = HoldsSecond {
        first_left: AtomicU64::new(0),
    };
    let found = found_by_two(&rt, rt.alloc(), &CUT, &gate)?;
    let wanted = b"15 pin 0 1\n17 pin 0 0\n".as_slice();
    assert!(rt; found.status == 7 && found.text.as_slice() == wanted && found.puts == 3);
    Ok(())
}

/// Counts the tickets that come, and, a while later, those that leave.
#[derive(Drop)]
struct Counts {
    entered: AtomicU64,
    left: AtomicU64,
}

impl Gate for Counts {
    fn enter(&self, _ticket: u64) {
        self.entered.fetch_add(1, Ordering::SeqCst);
    }

    fn leave(&self, _ticket: u64) {
        for _ in 0..100u32 {
            thread::yield_now();
        }
        self.left.fetch_add(1, Ordering::SeqCst);
    }
}

/// So many pieces were run in a call, and none more comes after it; none where one was still at the gate.
fn counted_pieces<R: Threads + Wait + Sync>(
    rt: &R,
    alloc: Global,
    case: &Case,
) -> Result<Option<u64>, AllocError> {
    let gate = Counts {
        entered: AtomicU64::new(0),
        left: AtomicU64::new(0),
    };
    found_by_two(rt, alloc, case, &gate)?;
    let left = gate.left.load(Ordering::SeqCst);
    for _ in 0..1000u32 {
        thread::yield_now();
    }
    let entered = gate.entered.load(Ordering::SeqCst);
    let now = gate.left.load(Ordering::SeqCst);
    Ok(if left == entered && now == entered {
        Some(left)
    } else {
        None
    })
}

/// The threads are joined before the answer, whole and cut: no piece is at the gate then, and none comes later.
#[test]
fn no_piece_is_run_behind_the_answer(rt: HostRuntime) -> Result<(), Fail> {
    for case in [COUNTED, CUT] {
        let pieces = counted_pieces(&rt, rt.alloc(), &case)?;
        assert!(rt; pieces.is_some_and(|count| count >= 6));
    }
    Ok(())
}

/// A device without words that drives nothing, and a gate. It counts the cycles that lane 5 does under a ticket of its own, and
/// holds ticket 4 until there was one.
#[derive(Drop)]
struct Watch {
    inside: AtomicU64,
    counted: AtomicU64,
    given_up: AtomicU64,
}

impl Gate for Watch {
    fn enter(&self, ticket: u64) {
        if ticket % 6 == 5 {
            self.inside.store(1, Ordering::SeqCst);
        }
        if ticket == 4 {
            for _ in 0..TURNS {
                if self.counted.load(Ordering::SeqCst) > 0 {
                    return;
                }
                thread::yield_now();
            }
            self.given_up.store(1, Ordering::SeqCst);
        }
    }

    fn leave(&self, ticket: u64) {
        if ticket % 6 == 5 {
            self.inside.store(0, Ordering::SeqCst);
        }
    }
}

impl Device for Watch {
    ghost use Rattle.lane_look.specs.Device.{no_device};

    ghost meaning = { λ _. no_device };

    fn words(&self) -> usize {
        0
    }

    fn start(&self, _state: &mut [u32]) {}

    fn owns(&self, _address: u32) -> bool {
        false
    }

    fn read(&self, _state: &mut [u32], _address: u32) -> u32 {
        0
    }

    fn write(&self, _state: &mut [u32], _address: u32, _value: u32) {}

    fn step(&self, _state: &mut [u32], _cycle: u64, _pads: u32) -> Wires {
        if self.inside.load(Ordering::SeqCst) == 1 {
            self.counted.fetch_add(1, Ordering::SeqCst);
        }
        Wires::default()
    }
}

/// A tape that keeps nothing.
#[derive(Drop)]
struct Deaf;

impl Tape for Deaf {
    ghost faults = { λ _. 0 };

    ghost took = { λ _ _ _. Unit {0} };

    ghost missed = { λ _ _ _. Unit {0} };

    fn event(&mut self, _event: &Event) -> Result<(), SinkFault> {
        Ok(())
    }

    ghost takes_none = { λ _. tt };

    ghost takes_in_turn = { λ _ _ _ _ _ _ _. tt };
}

/// What a run of at most 1000 cycles of an image comes to with two workers, where the watch is its device and its gate; none where
/// the tape fails.
fn watched<L: Ledger, R: Threads + Wait + Sync>(
    blank: Blank,
    rt: &R,
    alloc: Global,
    image: &Image,
    watch: &Watch,
) -> Result<Option<Ran>, AllocError>
    requires name { blank.name ≡ L.name }
    requires parts { blank.parts ≡ L.parts }
    requires some { 0 < blank.parts }
    requires image { FitsSram image.now }
{
    let (book, share) = blank.open::<L>();
    let mut steps = Steps::new(book, share);
    let script = Script::new(alloc);
    let world = World {
        script: &script,
        device: watch,
        limit: 1000,
    };
    let mut machine = Machine::boot(alloc, image, &[], &world)?;
    let ran = run_windows(
        rt,
        alloc,
        &mut machine,
        &world,
        2,
        watch,
        &mut Deaf,
        &mut steps,
    );
    Ok(ran.ok())
}

/// What a run of the image of a file comes to.
fn watched_file<R: Threads + Wait + Sync>(
    rt: &R,
    alloc: Global,
    file: &[u8],
    watch: &Watch,
) -> Result<Option<Ran>, AllocError> {
    if file.len() > 16_777_216 {
        return Ok(None);
    }
    match read_image(alloc, file) {
        Ok(image) => watched::<Brand, R>(Blank::new(1), rt, alloc, &image, watch),
        Err(_) => Ok(None),
    }
}

/// Lane 5 is run under its ticket while another ticket is held, and each cycle of its piece so.
#[test]
fn a_piece_is_run_while_another_is_held(rt: HostRuntime) -> Result<(), Fail> {
    let alloc = rt.alloc();
    let watch = Watch {
        inside: AtomicU64::new(0),
        counted: AtomicU64::new(0),
        given_up: AtomicU64::new(0),
    };
    let file = image(alloc, &IDLE)?;
    let wanted = Ran {
        why: Why::Limit,
        windows: 4,
        cycles: 1000,
    };
    assert!(rt; watched_file(&rt, alloc, &file, &watch)? == Some(wanted));
    assert!(rt; watch.counted.load(Ordering::SeqCst) >= 256);
    assert_eq!(rt; watch.given_up.load(Ordering::SeqCst), 0);
    Ok(())
}
