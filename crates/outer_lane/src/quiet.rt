//! For how long the peripherals are quiet, and many cycles at once.

ghost use Rattle.std.specs.Prelude.{◌≡◌, ◌≤◌, ◌<◌, ◌+◌, ◌^◌, length, true};
ghost use Rattle.pin_script.specs.Reading.{cycle_at, IsDueBefore};
ghost use Rattle.outer_lane.specs.Quiet.{AreWordsQuiet, IsScriptQuiet, words_after};

use crate::outer::Outer;
use crate::outside::drives;
use crate::step::driven_by;
use crate::world::{SeenOutputs, World};
use arrayvec::ArrayVec;
use lane_look::Device;
use pin_script::{Entry, Script};

/// For so many cycles from this one on the device drives the same, where the pads have these levels. One that has another number of
/// words does nothing.
#[tactic(auto, using(crate::proofs::Cycles::words_fitting, crate::proofs::Cycles::words_unfit))]
fn words_quiet<X: Device>(device: &X, words: &ArrayVec<u32, 128>, cycle: u64, levels: u32) -> u64
    ensures { AreWordsQuiet (X.meaning device.now) words.now.items cycle levels result }
{
    if words.len() == device.words() {
        device.quiet(words.as_slice(), cycle, levels)
    } else {
        u64::MAX
    }
}

/// So many cycles of the device from this one on, where the pads have these levels and its number of words stays.
#[tactic(auto, unfolding(crate::specs::Quiet::words_after))]
fn pass_words<X: Device>(
    device: &X,
    words: &mut ArrayVec<u32, 128>,
    cycle: u64,
    levels: u32,
    n: u64,
)
    requires { cycle + n < 2 ^ 64 }
    ensures { words.new.items ≡ words_after (X.meaning device.now) levels cycle n words.old.items }
{
    if words.len() == device.words() {
        device.pass(words.as_mut_slice(), cycle, levels, n);
    }
}

/// The number of the first entry whose cycle is greater.
fn next_entry(entries: &[Entry], cycle: u64) -> usize
    ensures within { result ≤ length entries.now }
    ensures before { IsDueBefore entries.now cycle result }
    ensures after { result < length entries.now → cycle < cycle_at entries.now result }
{
    let mut low = 0;
    let mut high = entries.len();
    while low < high {
        let middle = low + (high - low) / 2;
        if cycle_of(entries, middle) <= cycle {
            low = middle + 1;
        } else {
            high = middle;
        }
    }
    low
}

/// The cycle of an entry.
#[tactic(auto, using(crate::proofs::Cycles::entry_cycle))]
fn cycle_of(entries: &[Entry], index: usize) -> u64
    requires { index < length entries.now }
    ensures { result ≡ cycle_at entries.now index }
{
    entries[index].cycle
}

/// For so many cycles from this one on no entry of the script comes.
fn script_quiet(script: &Script, cycle: u64) -> u64
    ensures { IsScriptQuiet script.now cycle result }
{
    let entries = script.as_slice();
    let next = next_entry(entries, cycle);
    if next < entries.len() {
        cycle_of(entries, next) - cycle
    } else {
        u64::MAX
    }
}

impl Outer {
    ghost use Rattle.std.specs.Prelude.{◌≡◌, ◌+◌, ◌^◌, ◌<◌, true};
    ghost use Rattle.outer_lane.specs.BroughtUp.{blocks_passed};
    ghost use Rattle.outer_lane.specs.Setting.{setting};
    ghost use Rattle.outer_lane.specs.Quiet.{IsQuiet, IsSettled, outer_after, words_after};

    /// A cycle in which this is seen leaves the pads as they are, and the device's lines.
    fn is_settled<X: Device>(&self, world: &World<'_, X>, seen: &SeenOutputs) -> bool
        ensures { result ≡ true → IsSettled (setting X.meaning world.now) seen.now self.now }
    {
        let levels = self.pads();
        let wires = driven_by(world.device, &self.device, seen.cycle, levels);
        if wires.irq != self.irq {
            return false;
        }
        let mut cursor = self.cursor;
        let drives = drives(world.script, &mut cursor, &wires, seen.cycle);
        self.stays_by(&wires, seen, drives)
    }

    /// For so many cycles from the one on in which this is seen the peripherals are quiet, as long as the outputs of PIO stay: no
    /// frame ends, no level changes, and all that others are told stays. Any smaller number is right too.
    #[tactic(auto, using(crate::proofs::Cycles::quiet_zero))]
    pub fn quiet<X: Device>(&self, world: &World<'_, X>, seen: &SeenOutputs) -> u64
        ensures { IsQuiet (setting X.meaning world.now) seen.now self.now result }
    {
        let inside = self.blocks.quiet(seen.cycle);
        if !self.stays || inside == 0 {
            return 0;
        }
        let levels = self.pads.pads();
        let words = words_quiet(world.device, &self.device, seen.cycle, levels);
        let within = inside.min(words);
        if within == 0 || !self.is_settled(world, seen) {
            return 0;
        }
        let script = script_quiet(world.script, seen.cycle);
        within.min(script)
    }

    /// So many cycles of the timer and the UARTs from this one on, where the pads stay.
    fn pass_blocks(&mut self, cycle: u64, n: u64)
        requires { cycle + n < 2 ^ 64 }
        ensures { self.new ≡ blocks_passed cycle n self.old }
    {
        if !self.blocks.pass(cycle, n) {
            self.stays = false;
        }
    }

    /// So many cycles of the device from this one on, where the pads stay.
    fn pass_device<X: Device>(&mut self, device: &X, cycle: u64, n: u64)
        requires { cycle + n < 2 ^ 64 }
        ensures { self.new ≡ record self.old {
          device = words_after (X.meaning device.now) self.old.pads.current cycle n self.old.device;
        } }
    {
        let levels = self.pads.pads();
        pass_words(device, &mut self.device, cycle, levels, n);
    }

    /// So many cycles at once, from the one on in which this is seen, in which the peripherals are quiet.
    #[tactic(auto, using(crate::proofs::Cycles::passed_all, lane_look::proofs::Times::times_none))]
    pub fn pass<X: Device>(&mut self, world: &World<'_, X>, seen: &SeenOutputs, n: u64)
        requires number { seen.now.cycle + n < 2 ^ 64 }
        requires quiet { IsQuiet (setting X.meaning world.now) seen.now self.old n }
        ensures { self.new ≡ outer_after (setting X.meaning world.now) seen.now n self.old }
    {
        if n == 0 {
            return;
        }
        self.pass_blocks(seen.cycle, n);
        self.pass_device(world.device, seen.cycle, n);
    }
}
