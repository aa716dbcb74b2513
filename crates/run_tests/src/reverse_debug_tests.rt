//! Sessions over small programs: one that stores a word and stands in a loop, one in which the DMA engine copies, and others.

ghost use Rattle.std.specs.Prelude.{◌≡◌, ◌≤◌, ◌<◌, length};
ghost use Rattle.outer_lane.specs.Setting.{setting};
ghost use Rattle.reverse_debug.specs.Session.{StandsFor};

use arrayvec::ArrayVec;
use lane_look::{Device, NoDevice};
use pin_script::read_script;
use reverse_debug::Session;
use rp_machine::{Machine, Steps, World};
use std::alloc::Global;
use std::marker::Brand;
use std::sync::ledger::{Blank, Ledger};
use std::test::Fail;
use uf2_image::read_image;

/// A line, and its reply.
type Row = (&'static [u8], &'static [u8]);

/// LDR of the address 20000100, a store to it, a branch to itself.
const STORES_ONCE: [u32; 12] = [
    0x6000_4801,
    0x0000_e7fe,
    0x2000_0100,
    0,
    0,
    0,
    0,
    0,
    0,
    0,
    0,
    0,
];

/// What is answered over 10000 cycles of it. The last line is not heard.
const STORED: [Row; 32] = [
    (b"goto 5000", b"at 5000\n"),
    (b"back 1", b"at 4999\n"),
    (
        b"regs",
        b"core0 20000100 00000000 00000000 00000000 00000000 00000000 00000000 00000000 \
        00000000 00000000 00000000 00000000 00000000 20042000 ffffffff 20000004 01000000\n\
        core1 asleep\n",
    ),
    (b"lastwrite 20000100", b"lastwrite 20000100 3\n"),
    (b"goto 4096", b"at 4096\n"),
    (b"back", b"at 4095\n"),
    (b"step 2", b"at 4097\n"),
    (b"mem 20000100 2", b"mem 20000100 20000100 00000000\n"),
    (b"pins", b"pins 000000000000000000000000000000\n"),
    (
        b"pio 1 3",
        b"pio 1 3 00 00000000 00000000 00000000 00000000\n",
    ),
    (b"back 4097", b"at 0\n"),
    (b"step", b"at 1\n"),
    (b"back 5000", b"at start\n"),
    (b"lastwrite 20000100", b"lastwrite 20000100 none\n"),
    (b"untilwrite 20000100", b"at 4\n"),
    (b"lastwrite 20000100", b"lastwrite 20000100 3\n"),
    (b"back 1", b"at 3\n"),
    (b"lastwrite 20000100", b"lastwrite 20000100 none\n"),
    (b"untilwrite 20000100", b"at 4\n"),
    (b"untilwrite 20000100", b"stop limit 10000\n"),
    (b"untilwrite 20000100", b"stop limit 10000\n"),
    (b"lastwrite 20000100", b"lastwrite 20000100 3\n"),
    (b"untilwrite 20000102", b"bad command\n"),
    (b"untilwrite 10000000", b"bad command\n"),
    (b"untilwrite", b"bad command\n"),
    (b"goto 20000", b"stop limit 10000\n"),
    (b"jump", b"bad command\n"),
    (b"back 0", b"at 10000\n"),
    (b"step", b"stop limit 10000\n"),
    (b"end", b"stop limit 10000\n"),
    (b"quit", b""),
    (b"regs", b""),
];

/// A copy of three words by the DMA engine, in which all reads and writes are on one bank.
const COPIES: [u32; 12] = [
    0x2050_a502,
    0xcd1e_0600,
    0xe7fe_c01e,
    0x2100_0000,
    0x2100_0040,
    0x0000_0003,
    0x001f_8039,
    0x1122_3344,
    0x5566_7788,
    0,
    0,
    0,
];

/// What is answered over 100 cycles of it.
const COPIED: [Row; 5] = [
    (b"goto 30", b"at 30\n"),
    (b"lastwrite 20000100", b"lastwrite 20000100 15\n"),
    (b"lastwrite 20000110", b"lastwrite 20000110 17\n"),
    (b"lastwrite 20000120", b"lastwrite 20000120 19\n"),
    (b"", b"bad command\n"),
];

/// The levels of a pin: up in cycle 20, down in cycle 40.
const LEVELS: &[u8] = b"20 29 1\n40 29 0\n";

/// What is answered over 100 cycles with them.
const SEEN: [Row; 21] = [
    (b"lastpin 29", b"lastpin 29 none\n"),
    (b"untilpin 29", b"at 21\n"),
    (b"pins", b"pins 000000000000000000000000000001\n"),
    (b"lastpin 29", b"lastpin 29 20\n"),
    (b"back 1", b"at 20\n"),
    (b"pins", b"pins 000000000000000000000000000000\n"),
    (b"lastpin 29", b"lastpin 29 none\n"),
    (b"untilpin 29", b"at 21\n"),
    (b"untilpin 29", b"at 41\n"),
    (b"lastpin 29", b"lastpin 29 40\n"),
    (b"lastpin 28", b"lastpin 28 none\n"),
    (b"back 1", b"at 40\n"),
    (b"lastpin 29", b"lastpin 29 20\n"),
    (b"untilpin 28", b"stop limit 100\n"),
    (b"untilpin 29", b"stop limit 100\n"),
    (b"lastpin 029", b"lastpin 29 40\n"),
    (b"lastpin 30", b"bad command\n"),
    (b"untilpin 30", b"bad command\n"),
    (b"untilpin 29 1", b"bad command\n"),
    (b"lastpin", b"bad command\n"),
    (b"back 0", b"at 100\n"),
];

/// What is answered of instructions over 10000 cycles of the first program: LDR and STR take two cycles each, and the branch two.
const BEGUN: [Row; 40] = [
    (b"lastat 20000000", b"lastat 20000000 none\n"),
    (b"prev", b"at start\n"),
    (b"next 0", b"at 0\n"),
    (b"next", b"at 2\n"),
    (b"lastat 20000002", b"lastat 20000002 none\n"),
    (b"lastat 20000000", b"lastat 20000000 0\n"),
    (b"next 2", b"at 6\n"),
    (b"prev 0", b"at 6\n"),
    (b"prev 3 0", b"at 0\n"),
    (b"until 20000004", b"at 4\n"),
    (b"until 20000004 0", b"at 6\n"),
    (b"step", b"at 7\n"),
    (b"prev", b"at 6\n"),
    (b"lastat 20000004", b"lastat 20000004 4\n"),
    (b"prev 4", b"at start\n"),
    (b"until 20000000", b"stop limit 10000\n"),
    (b"next", b"stop limit 10000\n"),
    (b"prev", b"at 9998\n"),
    (b"next", b"at 10000\n"),
    (b"prev 1000", b"at 8000\n"),
    (b"lastat 20000004 0", b"lastat 20000004 7998\n"),
    (b"lastat 20000002", b"lastat 20000002 2\n"),
    (b"lastat 20000003", b"lastat 20000003 none\n"),
    (b"lastat 20000004 1", b"lastat 20000004 none\n"),
    (b"prev 1 1", b"at start\n"),
    (b"until 20000004 1", b"stop limit 10000\n"),
    (b"next 1 1", b"stop limit 10000\n"),
    (b"next 1 2", b"bad command\n"),
    (b"prev x", b"bad command\n"),
    (b"until", b"bad command\n"),
    (b"lastat 20000004 2", b"bad command\n"),
    (b"peek 4000c008", b"peek 4000c008 01ffffff\n"),
    (b"peek e000ed00", b"peek e000ed00 410cc601\n"),
    (b"peek d0000100", b"peek d0000100 00000001\n"),
    (b"peek d0000100", b"peek d0000100 00000001\n"),
    (b"peek 20000000", b"bad command\n"),
    (b"peek 4000c00a", b"bad command\n"),
    (b"peek 4000c00c", b"bad command\n"),
    (b"peek", b"bad command\n"),
    (b"back 0", b"at 10000\n"),
];

/// MOVS, and a word that is no instruction: a fault, whose vector is outside of the machine.
const FAULTS: [u32; 12] = [0xde00_2001, 0, 0, 0, 0, 0, 0, 0, 0, 0, 0, 0];

/// What is answered over 100 cycles of it.
const FAULTED: [Row; 6] = [
    (b"until 20000002", b"at 1\n"),
    (b"lastat 20000000", b"lastat 20000000 0\n"),
    (b"next", b"stop outside core0 0000000c 11\n"),
    (b"lastat 20000002", b"lastat 20000002 1\n"),
    (b"lastat 20000004", b"lastat 20000004 none\n"),
    (b"prev", b"at 1\n"),
];

/// The vector table is set to 20000000, and SVC calls; its vector is 0, which is outside of the machine.
const CALLS: [u32; 12] = [
    0x4903_4802,
    0xdf00_6001,
    0x0000_e7fe,
    0xe000_ed08,
    0x2000_0000,
    0,
    0,
    0,
    0,
    0,
    0,
    0,
];

/// What is answered over 100 cycles of it: the exception is taken where the branch would begin.
const CALLED: [Row; 4] = [
    (b"until 20000006", b"at 6\n"),
    (b"until 20000008", b"stop outside core0 00000000 22\n"),
    (b"lastat 20000008", b"lastat 20000008 none\n"),
    (b"peek e000ed08", b"peek e000ed08 20000000\n"),
];

/// Core 0 sends six words, a turn of its loop each, of which the last is sent in cycle 36; so core 1 begins in cycle 38 at the branch to
/// itself, 2000000E, at which core 0 comes in cycle 39. The branch takes two cycles.
const BOTH: [u32; 12] = [
    0xa105_4804,
    0xc908_2206,
    0x3a01_6543,
    0xe7fe_d1fb,
    0,
    0xd000_0000,
    0,
    0,
    1,
    0x2000_0000,
    0x2000_1000,
    0x2000_000f,
];

/// What is answered of it over 100 cycles: core 1 begins the branch in even cycles, core 0 in odd ones.
const IN_TURN: [Row; 24] = [
    (b"until 2000000e 1", b"at 38\n"),
    (b"lastat 2000000e 1", b"lastat 2000000e none\n"),
    (b"lastat 2000000e", b"lastat 2000000e none\n"),
    (b"until 2000000e", b"at 39\n"),
    (b"lastat 2000000e 1", b"lastat 2000000e 38\n"),
    (b"lastat 2000000e 0", b"lastat 2000000e none\n"),
    (b"next 1 1", b"at 40\n"),
    (b"lastat 2000000e", b"lastat 2000000e 39\n"),
    (b"lastat 2000000e 1", b"lastat 2000000e 38\n"),
    (b"prev 1 1", b"at 38\n"),
    // Core 0 begins the conditional branch in cycle 38, and the subtraction in cycle 37.
    (b"prev", b"at 37\n"),
    (b"next 3", b"at 41\n"),
    (b"next 2 1", b"at 44\n"),
    (b"lastat 2000000e 1", b"lastat 2000000e 42\n"),
    (b"lastat 2000000e", b"lastat 2000000e 43\n"),
    (b"until 2000000e", b"at 45\n"),
    (b"until 2000000e 1", b"at 46\n"),
    (b"prev 3 1", b"at 40\n"),
    (b"prev 2", b"at 38\n"),
    (b"prev 1 1", b"at start\n"),
    (b"next 2 1", b"at 40\n"),
    (b"prev 2 1", b"at start\n"),
    (b"goto 100", b"at 100\n"),
    (b"prev 31 1", b"at 38\n"),
];

/// The same with a NOP before the branch, which is now at 20000010: core 0 comes to it in cycle 40.
const ALIKE: [u32; 12] = [
    0xa105_4804,
    0xc908_2206,
    0x3a01_6543,
    0xbf00_d1fb,
    0x0000_e7fe,
    0xd000_0000,
    0,
    0,
    1,
    0x2000_0000,
    0x2000_1000,
    0x2000_0011,
];

/// What is answered of it over 100 cycles: from cycle 40 on both cores begin the branch in the same cycles.
const AT_ONCE: [Row; 16] = [
    (b"until 20000010", b"at 40\n"),
    (b"lastat 20000010", b"lastat 20000010 none\n"),
    (b"lastat 20000010 1", b"lastat 20000010 38\n"),
    (b"until 20000010 1", b"at 42\n"),
    (b"lastat 20000010", b"lastat 20000010 40\n"),
    (b"lastat 20000010 1", b"lastat 20000010 40\n"),
    (b"prev 1 1", b"at 40\n"),
    (b"prev 1 1", b"at 38\n"),
    (b"next 1", b"at 39\n"),
    (b"next 1 1", b"at 40\n"),
    (b"next 2", b"at 44\n"),
    (b"prev 2", b"at 40\n"),
    (b"prev", b"at 39\n"),
    (b"lastat 20000010 1", b"lastat 20000010 38\n"),
    (b"lastat 20000010", b"lastat 20000010 none\n"),
    (b"until 20000010 0", b"at 40\n"),
];

/// The UF2 block of a program that is loaded at 20000000.
fn block(code: &[u32; 12]) -> [u8; 512] {
    let mut bytes = [0u8; 512];
    let words = [
        0x0a32_4655,
        0x9e5d_5157,
        0x2000,
        0x2000_0000,
        48,
        0,
        1,
        0xe48b_ff56u32,
    ];
    for (index, word) in words.iter().enumerate() {
        bytes[4 * index..4 * index + 4].copy_from_slice(&word.to_le_bytes());
    }
    for (index, word) in code.iter().enumerate() {
        bytes[32 + 4 * index..36 + 4 * index].copy_from_slice(&word.to_le_bytes());
    }
    bytes[508..512].copy_from_slice(&u32::to_le_bytes(0x0ab1_6f30));
    bytes
}

/// The first row whose reply is another or that ends the session, and whether its reply is right; else the number of rows.
fn end_of<X: Device, L: Ledger>(
    session: &mut Session,
    world: &World<'_, X>,
    rows: &[Row],
    steps: &mut Steps<L>,
) -> (usize, bool)
    requires { StandsFor (setting X.meaning world.now) session.old }
{
    let mut reply = ArrayVec::<u8, 1024>::new();
    'rows: for (row, (line, expected)) in rows.iter().enumerate() {
        let goes_on = session.command(world, line, &mut reply, steps);
        let right = reply.as_slice() == *expected;
        if !goes_on || !right {
            return (row, right);
        }
    }
    (rows.len(), true)
}

/// Where a session ends over a program.
fn session_of<L: Ledger>(
    alloc: Global,
    blank: Blank,
    code: &[u32; 12],
    levels: &[u8],
    limit: u64,
    rows: &[Row],
) -> Result<(usize, bool), Fail>
    requires name { blank.name ≡ L.name }
    requires parts { blank.parts ≡ L.parts }
    requires some { 0 < blank.parts }
    requires levels { length levels.now ≤ 100 }
    requires limit { limit ≤ 10000 }
{
    let (book, share) = blank.open::<L>();
    let mut steps = Steps::new(book, share);
    let image = read_image(alloc, &block(code))?;
    let script = read_script(alloc, levels)?;
    let world = World {
        script: &script,
        device: &NoDevice,
        limit,
    };
    let machine = Machine::boot(alloc, &image, &[], &world)?;
    let mut session = Session::open(alloc, &machine, limit)?;
    Ok(end_of(&mut session, &world, rows, &mut steps))
}

/// Where a session with steps of its own ends over a program.
fn end_over(
    alloc: Global,
    code: &[u32; 12],
    levels: &[u8],
    limit: u64,
    rows: &[Row],
) -> Result<(usize, bool), Fail>
    requires levels { length levels.now ≤ 100 }
    requires limit { limit ≤ 10000 }
{
    session_of::<Brand>(alloc, Blank::new(1), code, levels, limit, rows)
}

#[test]
fn each_command_is_answered(rt: HostRuntime) -> Result<(), Fail> {
    let end = end_over(rt.alloc(), &STORES_ONCE, b"", 10_000, &STORED)?;
    assert_eq!(rt; end, (30, true));
    Ok(())
}

#[test]
fn the_last_write_of_a_copy(rt: HostRuntime) -> Result<(), Fail> {
    let end = end_over(rt.alloc(), &COPIES, b"", 100, &COPIED)?;
    assert_eq!(rt; end, (5, true));
    Ok(())
}

#[test]
fn the_changes_of_a_pin(rt: HostRuntime) -> Result<(), Fail> {
    let end = end_over(rt.alloc(), &STORES_ONCE, LEVELS, 100, &SEEN)?;
    assert_eq!(rt; end, (21, true));
    Ok(())
}

#[test]
fn the_instructions_of_a_program(rt: HostRuntime) -> Result<(), Fail> {
    let end = end_over(rt.alloc(), &STORES_ONCE, b"", 10_000, &BEGUN)?;
    assert_eq!(rt; end, (40, true));
    Ok(())
}

#[test]
fn an_instruction_that_faults_was_begun(rt: HostRuntime) -> Result<(), Fail> {
    let end = end_over(rt.alloc(), &FAULTS, b"", 100, &FAULTED)?;
    assert_eq!(rt; end, (6, true));
    Ok(())
}

#[test]
fn an_exception_is_taken_in_place_of_an_instruction(rt: HostRuntime) -> Result<(), Fail> {
    let end = end_over(rt.alloc(), &CALLS, b"", 100, &CALLED)?;
    assert_eq!(rt; end, (4, true));
    Ok(())
}

#[test]
fn both_cores_are_at_one_address(rt: HostRuntime) -> Result<(), Fail> {
    let end = end_over(rt.alloc(), &BOTH, b"", 100, &IN_TURN)?;
    assert_eq!(rt; end, (24, true));
    Ok(())
}

#[test]
fn both_cores_begin_one_instruction_in_one_cycle(rt: HostRuntime) -> Result<(), Fail> {
    let end = end_over(rt.alloc(), &ALIKE, b"", 100, &AT_ONCE)?;
    assert_eq!(rt; end, (16, true));
    Ok(())
}
