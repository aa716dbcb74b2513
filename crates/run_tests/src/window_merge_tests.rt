//! Windows of a program: a DMA copy whose second read and first write meet on one bank; and reports that are accepted or not.

ghost use Rattle.std.specs.Prelude.{◌≡◌, ◌<◌};

use arrayvec::ArrayVec;
use lane_look::{Device, Marks, NoDevice};
use pin_script::read_script;
use rp_base::Why;
use rp_machine::{Machine, Steps, World};
use std::alloc::Global;
use std::marker::Brand;
use std::sync::ledger::{Blank, Ledger};
use std::test::Fail;
use uf2_image::read_image;
use window_merge::jobs::run_by;
use window_merge::{Crew, LaneJob, LaneReport, LaneRun, Moved, accept, advance, job};

/// ADR of the words, LDM, a store that begins the copy, and a loop; then the words of the channel, and what is copied.
const COPY: [u8; 36] = [
    0x02, 0xa5, 0x50, 0x20, 0x00, 0x06, 0x1e, 0xcd, 0x1e, 0xc0, 0xfe, 0xe7, // the code
    0x1c, 0x00, 0x00, 0x20, 0x00, 0x01, 0x00, 0x20, 0x02, 0x00, 0x00, 0x00, // from, to, two words
    0x39, 0x80, 0x1f, 0x00, 0x44, 0x33, 0x22, 0x11, 0x88, 0x77, 0x66, 0x55, // CTRL; the words
];

/// The same from and to words that all lie in one bank, and three of them.
const COPY_IN_A_BANK: [u8; 36] = [
    0x02, 0xa5, 0x50, 0x20, 0x00, 0x06, 0x1e, 0xcd, 0x1e, 0xc0, 0xfe, 0xe7, // the code
    0x00, 0x00, 0x00, 0x21, 0x40, 0x00, 0x00, 0x21, 0x03, 0x00, 0x00, 0x00, // from, to, three words
    0x39, 0x80, 0x1f, 0x00, 0x44, 0x33, 0x22, 0x11, 0x88, 0x77, 0x66, 0x55, // CTRL; two words
];

/// The UF2 block of a program that is loaded at 20000000.
fn block(code: &[u8; 36]) -> [u8; 512] {
    let mut bytes = [0u8; 512];
    let words = [
        0x0a32_4655,
        0x9e5d_5157,
        0x2000,
        0x2000_0000,
        36,
        0,
        1,
        0xe48b_ff56u32,
    ];
    for (index, word) in words.iter().enumerate() {
        bytes[4 * index..4 * index + 4].copy_from_slice(&word.to_le_bytes());
    }
    bytes[32..68].copy_from_slice(code);
    bytes[508..512].copy_from_slice(&u32::to_le_bytes(0x0ab1_6f30));
    bytes
}

/// The lengths of the windows of a run from here, and the cycle at which it stops for its limit.
fn lengths_of<X: Device, L: Ledger>(
    machine: &mut Machine,
    world: &World<'_, X>,
    crew: &mut Crew,
    steps: &mut Steps<L>,
) -> Result<(ArrayVec<u16, 16>, u64), Fail> {
    let mut marks = Marks::new();
    let mut lengths = ArrayVec::new();
    let mut after_empty = false;
    machine.begin_into(world, &mut crew.begun);
    for _ in 0..40 {
        if machine.number() > world.limit {
            break;
        }
        match advance(machine, world, crew, after_empty, &mut marks, steps) {
            Moved::Stopped(why) => {
                return match why {
                    Why::Limit => Ok((lengths, machine.number())),
                    _ => Err("another stop".into()),
                };
            }
            Moved::Window(length) => {
                after_empty = length == 0;
                if !lengths.is_full() {
                    lengths.push(length);
                }
            }
            Moved::Cycle => after_empty = false,
        }
    }
    Err("no stop".into())
}

/// The machine of a program.
fn machine_of(
    alloc: Global,
    code: &[u8; 36],
    world: &World<'_, NoDevice>,
) -> Result<Machine, Fail> {
    let image = read_image(alloc, &block(code))?;
    Ok(Machine::boot(alloc, &image, &[], world)?)
}

/// The lengths of the windows of a program, and the cycle at which it stops for its limit.
fn windows_of<L: Ledger>(
    alloc: Global,
    blank: Blank,
    code: &[u8; 36],
    limit: u64,
) -> Result<(ArrayVec<u16, 16>, u64), Fail>
    requires name { blank.name ≡ L.name }
    requires parts { blank.parts ≡ L.parts }
    requires some { 0 < blank.parts }
{
    let (book, share) = blank.open::<L>();
    let mut steps = Steps::new(book, share);
    let image = read_image(alloc, &block(code))?;
    let script = read_script(alloc, b"")?;
    let world = World {
        script: &script,
        device: &NoDevice,
        limit,
    };
    let mut machine = Machine::boot(alloc, &image, &[], &world)?;
    let mut crew = Crew::without_jobs(alloc)?;
    lengths_of(&mut machine, &world, &mut crew, &mut steps)
}

/// The lengths of the windows of a copy.
const LENGTHS: [u16; 8] = [9, 0, 0, 0, 0, 2, 0, 84];

/// Those of a copy in one bank.
const LENGTHS_IN_A_BANK: [u16; 10] = [9, 0, 0, 0, 0, 2, 0, 1, 0, 82];

#[test]
fn a_clash_closes_a_window(rt: HostRuntime) -> Result<(), Fail> {
    let (lengths, at) = windows_of::<Brand>(rt.alloc(), Blank::new(1), &COPY, 100)?;
    assert!(rt; at == 100 && lengths.as_slice() == LENGTHS.as_slice());
    Ok(())
}

#[test]
fn words_of_one_bank_close_more(rt: HostRuntime) -> Result<(), Fail> {
    let (lengths, at) = windows_of::<Brand>(rt.alloc(), Blank::new(1), &COPY_IN_A_BANK, 100)?;
    assert!(rt; at == 100 && lengths.as_slice() == LENGTHS_IN_A_BANK.as_slice());
    Ok(())
}

/// The report of the run alone of the lane whose job is there.
fn report_of<X: Device>(
    machine: &Machine,
    world: &World<'_, X>,
    room: &mut Option<LaneJob>,
) -> Option<LaneReport> {
    let Some(mut lane_job) = room.take() else {
        return None;
    };
    lane_job.limit = world.limit;
    job(machine, &mut lane_job);
    Some(run_by(lane_job, world))
}

/// How many entries the log of a report has.
fn entries_of(report: &LaneReport) -> u32 {
    u32::from(match &report.run {
        LaneRun::Core(report) => report.log.count(),
        LaneRun::Dma(report) => report.log.count(),
        LaneRun::Pio(report) => report.log.count(),
        LaneRun::Outer(report) => report.log.count(),
    })
}

/// What is said of a report that is not accepted.
fn is_strange(machine: &Machine, report: &LaneReport, lane: u8, entry: u32) -> bool {
    match accept(machine, report) {
        Ok(()) => false,
        Err(stranger) => stranger.lane == lane && stranger.entry == entry,
    }
}

/// The first that is wrong of what is said of the reports of core 0 and of the peripherals by the machine that they were run from,
/// by one whose first word is another, and by the machine a cycle later.
fn said_by<X: Device, L: Ledger>(
    machine: &mut Machine,
    world: &World<'_, X>,
    core0: &LaneReport,
    outer: &LaneReport,
    steps: &mut Steps<L>,
) -> Option<usize> {
    if accept(machine, core0).is_err() {
        return Some(0);
    }
    if accept(machine, outer).is_err() {
        return Some(1);
    }
    machine.ram.write(0, 0xf, 0);
    // the lines are the first entry of a core's log, and the halfword that it fetches is the second
    if !is_strange(machine, core0, 0, 1) || machine.number() > world.limit {
        return Some(2);
    }
    let _ = machine.cycle(world, &mut Marks::new(), steps);
    if !is_strange(machine, core0, 0, entries_of(core0)) {
        return Some(3);
    }
    if !is_strange(machine, outer, 5, entries_of(outer)) {
        return Some(4);
    }
    None
}

/// The first that is wrong of what is said of two reports from here, where their jobs are there.
fn said_from<X: Device, L: Ledger>(
    machine: &mut Machine,
    world: &World<'_, X>,
    crew: &mut Crew,
    steps: &mut Steps<L>,
) -> Option<usize> {
    let Some(core0) = report_of(machine, world, &mut crew.jobs[0]) else {
        return Some(5);
    };
    let Some(outer) = report_of(machine, world, &mut crew.jobs[5]) else {
        return Some(6);
    };
    said_by(machine, world, &core0, &outer, steps)
}

/// The same from the start of a program.
fn said_of<L: Ledger>(alloc: Global, blank: Blank) -> Result<Option<usize>, Fail>
    requires name { blank.name ≡ L.name }
    requires parts { blank.parts ≡ L.parts }
    requires some { 0 < blank.parts }
{
    let (book, share) = blank.open::<L>();
    let mut steps = Steps::new(book, share);
    let script = read_script(alloc, b"")?;
    let world = World {
        script: &script,
        device: &NoDevice,
        limit: 100,
    };
    let mut machine = machine_of(alloc, &COPY, &world)?;
    let mut crew = Crew::new(alloc)?;
    Ok(said_from(&mut machine, &world, &mut crew, &mut steps))
}

#[test]
fn a_report_is_accepted_where_it_began(rt: HostRuntime) -> Result<(), Fail> {
    let wrong = said_of::<Brand>(rt.alloc(), Blank::new(1))?;
    assert_eq!(rt; wrong, None);
    Ok(())
}
