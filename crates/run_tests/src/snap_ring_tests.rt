//! Snapshots of a program that stores one word and then stands in a loop.

ghost use Rattle.std.specs.Prelude.{◌≡◌, ◌≤◌, ◌<◌};

use lane_look::{Marks, NoDevice};
use pin_script::read_script;
use rp_machine::{Machine, Steps, World};
use snap_ring::Ring;
use std::alloc::Global;
use std::marker::Brand;
use std::sync::ledger::{Blank, Ledger};
use std::test::Fail;
use uf2_image::read_image;

/// LDR of the address 20000100, a store to it, a branch to itself.
const STORES_ONCE: [u16; 6] = [0x4801, 0x6000, 0xe7fe, 0x0000, 0x0100, 0x2000];

/// The UF2 block of the program, loaded at 20000000.
fn block() -> [u8; 512] {
    let mut bytes = [0u8; 512];
    let words = [
        0x0a32_4655,
        0x9e5d_5157,
        0x2000,
        0x2000_0000,
        12,
        0,
        1,
        0xe48b_ff56u32,
    ];
    for (index, word) in words.iter().enumerate() {
        bytes[4 * index..4 * index + 4].copy_from_slice(&word.to_le_bytes());
    }
    for (index, half) in STORES_ONCE.iter().enumerate() {
        bytes[32 + 2 * index..34 + 2 * index].copy_from_slice(&half.to_le_bytes());
    }
    bytes[508..512].copy_from_slice(&u32::to_le_bytes(0x0ab1_6f30));
    bytes
}

/// Runs a machine up to a cycle.
fn run_to<L: Ledger>(
    machine: &mut Machine,
    world: &World<'_, NoDevice>,
    steps: &mut Steps<L>,
    cycle: u64,
) {
    let mut marks = Marks::new();
    for _ in machine.number()..cycle {
        if machine.number() <= world.limit {
            let _ = machine.cycle(world, &mut marks, steps);
        }
    }
}

/// What is done to a ring and its machine, or seen of them.
#[derive(Clone, Copy)]
enum Deed {
    /// The machine runs up to a cycle.
    RunsTo(u64),
    /// Whether the ring keeps the machine.
    Keeps(bool),
    /// Whether the machine goes back to a cycle.
    Restores(u64, bool),
    /// Nothing is kept within one spacing.
    IsEmpty,
    /// How many pages are stored.
    Stores(u32),
    /// The nearest cycle that is kept.
    Nearest(u64, Option<u64>),
    /// The cycle of the machine, and the word that the program stores.
    Shows(u64, u32),
}

/// Keeps the machine at 0, 4095, 4096 (twice) and 8192, goes back to 8191, 4096 and 0, and keeps it there.
const DEEDS: [Deed; 19] = [
    Deed::IsEmpty,
    Deed::Keeps(true),
    Deed::Stores(264),
    Deed::RunsTo(4095),
    Deed::Keeps(false),
    Deed::RunsTo(4096),
    Deed::Keeps(true),
    Deed::Keeps(false),
    Deed::RunsTo(8192),
    Deed::Keeps(true),
    Deed::Stores(265),
    Deed::Nearest(8191, Some(4096)),
    Deed::Restores(8191, false),
    Deed::Shows(8192, 0x2000_0100),
    Deed::Restores(4096, true),
    Deed::Shows(4096, 0x2000_0100),
    Deed::Restores(0, true),
    Deed::Keeps(false),
    Deed::Shows(0, 0),
];

/// What is done.
fn acts<L: Ledger>(
    ring: &mut Ring,
    machine: &mut Machine,
    world: &World<'_, NoDevice>,
    steps: &mut Steps<L>,
    deed: &Deed,
) -> bool {
    match *deed {
        Deed::RunsTo(cycle) => {
            run_to(machine, world, steps, cycle);
            true
        }
        Deed::Keeps(kept) => ring.keep(machine) == kept,
        Deed::Restores(cycle, restored) => ring.restore(cycle, machine) == restored,
        _ => true,
    }
}

/// What is seen.
fn shows(ring: &Ring, machine: &Machine, deed: &Deed) -> bool {
    match *deed {
        Deed::IsEmpty => ring.nearest(ring.spacing()).is_none(),
        Deed::Stores(count) => ring.stored() == count,
        Deed::Nearest(cycle, nearest) => ring.nearest(cycle) == nearest,
        Deed::Shows(cycle, word) => {
            machine.number() == cycle && machine.word(0x2000_0100) == Some(word)
        }
        _ => true,
    }
}

/// The first deed that is not so of a machine and a new ring.
fn first_wrong<L: Ledger>(
    alloc: Global,
    machine: &mut Machine,
    world: &World<'_, NoDevice>,
    steps: &mut Steps<L>,
) -> Result<Option<usize>, Fail>
    requires { world.now.limit ≤ 1000000000 }
{
    let mut ring = Ring::new(alloc, machine, world.limit)?;
    for (index, deed) in DEEDS.iter().enumerate() {
        if !acts(&mut ring, machine, world, steps, deed) || !shows(&ring, machine, deed) {
            return Ok(Some(index));
        }
    }
    Ok(None)
}

/// The machine of the program.
fn machine_of(alloc: Global, world: &World<'_, NoDevice>) -> Result<Machine, Fail> {
    let image = read_image(alloc, &block())?;
    Ok(Machine::boot(alloc, &image, &[], world)?)
}

/// The first deed that is not so of the program.
fn keeps_three<L: Ledger>(alloc: Global, blank: Blank) -> Result<Option<usize>, Fail>
    requires name { blank.name ≡ L.name }
    requires parts { blank.parts ≡ L.parts }
    requires some { 0 < blank.parts }
{
    let (book, share) = blank.open::<L>();
    let mut steps = Steps::new(book, share);
    let script = read_script(alloc, b"")?;
    let world = World {
        script: &script,
        device: &NoDevice,
        limit: 10_000,
    };
    let mut machine = machine_of(alloc, &world)?;
    first_wrong(alloc, &mut machine, &world, &mut steps)
}

#[test]
fn three_are_kept(rt: HostRuntime) -> Result<(), Fail> {
    let wrong = keeps_three::<Brand>(rt.alloc(), Blank::new(1))?;
    assert_eq!(rt; wrong, None);
    Ok(())
}
