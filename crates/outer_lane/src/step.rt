//! The parts of a cycle.

ghost use Rattle.std.specs.Prelude.{◌≡◌, ◌∷◌, [], true, false};
ghost use Rattle.io_bank.specs.Interrupts.{line_of};
ghost use Rattle.io_bank.specs.Step.{is_quiet};
ghost use Rattle.outer_lane.specs.BroughtUp.{blocks_outs};
ghost use Rattle.outer_lane.specs.Step.{wires_by};

use crate::behind::Behind;
use crate::drivers::{Drivers, PINS};
use crate::outer::Outer;
use crate::outside::drives;
use crate::world::SeenOutputs;
use arrayvec::ArrayVec;
use io_bank::{IoBank, Outs};
use lane_look::{Device, Mark, Marks, Wires};
use pin_script::{Drives, Script};

/// The pads are quiet and interrupt neither core, and what the UARTs put out is among what they are stepped by.
fn do_stay(pads: &IoBank, blocks: &Behind, drivers: &Drivers) -> bool
    ensures rests { result ≡ true → is_quiet pads.now ≡ true }
    ensures core0 { result ≡ true → line_of pads.now pads.now.core0 ≡ false }
    ensures core1 { result ≡ true → line_of pads.now pads.now.core1 ≡ false }
    ensures uarts { result ≡ true → blocks_outs blocks.now.blocks
        ≡ drivers.now.uart_levels ∷ drivers.now.uart_enables ∷ [] }
{
    pads.is_quiet() && pads.is_silent() && drivers.has_uarts(blocks.outs())
}

/// What the device drives in a cycle, by the levels of the pads at the start. One that has another number of words drives nothing.
#[inline(always)]
#[tactic(auto, unfolding(crate::specs::Step::wires_by))]
pub(crate) fn driven_by<X: Device>(
    device: &X,
    words: &ArrayVec<u32, 128>,
    cycle: u64,
    levels: u32,
) -> Wires
    ensures { result ≡ wires_by (X.meaning device.now) words.now.items cycle levels }
{
    if words.len() == device.words() {
        device.drives(words.as_slice(), cycle, levels)
    } else {
        Wires::default()
    }
}

impl Outer {
    ghost use Rattle.std.specs.Prelude.{◌≡◌, ◌<◌, true, ◌∷◌, ◌++◌, [], length};
    ghost use Rattle.io_bank.specs.Levels.{by_sets, levels_of};
    ghost use Rattle.outer_lane.specs.BroughtUp.{blocks_of, blocks_outs, blocks_stepped};
    ghost use Rattle.outer_lane.specs.Rest.{outs_by, pads_after, pads_driven, next_driven, marked_driven};
    ghost use Rattle.outer_lane.specs.Step.{outs_of, byte_of, next_by, marked_by};

    /// What the UARTs put out, by pin: levels and enables.
    #[inline(always)]
    fn uarts(&self) -> [u32; 2]
        ensures { result ≡ blocks_outs (blocks_of self.now) }
    {
        if self.stays {
            [self.drivers.uart_levels, self.drivers.uart_enables]
        } else {
            self.blocks.outs()
        }
    }

    /// What the pads are stepped by.
    fn drivers(&self, wires: &Wires, seen: &SeenOutputs, drives: Drives) -> Drivers
        ensures outs { outs_by self.now.sio result ≡ outs_of wires.now seen.now self.now }
        ensures driven { result.driven ≡ drives.driven }
        ensures high { result.high ≡ drives.high }
    {
        let uart = self.uarts();
        Drivers {
            pio0_levels: seen.pio0[0],
            pio0_enables: seen.pio0[1],
            pio1_levels: seen.pio1[0],
            pio1_enables: seen.pio1[1],
            pwm: wires.pwm,
            uart_levels: uart[0],
            uart_enables: uart[1],
            driven: drives.driven,
            high: drives.high,
        }
    }

    /// The pads step to these levels, which these drivers give.
    #[inline(always)]
    #[tactic(auto, using(crate::proofs::Rest::stays_again), unfolding(crate::specs::Rest::pads_after))]
    fn step_changed(&mut self, drivers: Drivers, levels: u32)
        requires { levels ≡ levels_of (outs_by self.old.sio drivers)
            (by_sets drivers.driven drivers.high) self.old.pads }
        ensures { self.new ≡ record self.old {
          pads = pads_after self.old.sio drivers
              self.old.pads;
        } }
    {
        self.pads.step_to(levels);
        let line0 = self.pads.receive_level(0);
        let line1 = self.pads.receive_level(1);
        self.blocks.tell(line0, line1);
        let stays = do_stay(&self.pads, &self.blocks, &drivers);
        self.stays = stays;
        if stays {
            self.drivers = drivers;
        }
    }

    /// The pads step by these, unless they stay and get the same levels again.
    #[inline(always)]
    #[tactic(auto, using(crate::proofs::Rest::same_levels, crate::proofs::Rest::levels_left))]
    fn step_driven(&mut self, drivers: Drivers) -> u32
        ensures levels { result ≡ (pads_after self.old.sio drivers self.old.pads).current }
        ensures after { self.new ≡ record self.old {
          pads = pads_after self.old.sio drivers
              self.old.pads;
        } }
    {
        let outs = drivers.outs(self.sio);
        let levels = self.pads.levels(&outs, drivers.driven, drivers.high);
        if self.stays && levels == self.pads.pads() {
            let uarts = [self.drivers.uart_levels, self.drivers.uart_enables];
            let stays = drivers.has_uarts(uarts);
            self.stays = stays;
            self.drivers = drivers;
        } else {
            self.step_changed(drivers, levels);
        }
        levels
    }

    /// The timer and the UARTs step; the bytes whose frames ended.
    #[inline(always)]
    fn step_blocks(&mut self, cycle: u64) -> [Option<u8>; 2]
        ensures after { self.new ≡ blocks_stepped cycle self.old }
        ensures bytes { result ≡ byte_of self.old.uart0 ∷ byte_of self.old.uart1 ∷ [] }
    {
        if self.blocks.go_on(cycle) {
            return [None, None];
        }
        self.step_blocks_anew(cycle)
    }

    /// The same, quiet or not.
    #[inline(never)]
    fn step_blocks_anew(&mut self, cycle: u64) -> [Option<u8>; 2]
        ensures after { self.new ≡ blocks_stepped cycle self.old }
        ensures bytes { result ≡ byte_of self.old.uart0 ∷ byte_of self.old.uart1 ∷ [] }
    {
        let bytes = self.blocks.step(cycle);
        let uarts = self.blocks.outs();
        let same = self.drivers.has_uarts(uarts);
        self.stays &= same;
        bytes
    }

    /// A cycle by these leaves the pads as they are, as long as the UARTs put out the same.
    #[inline(always)]
    pub(crate) fn stays_by(&self, wires: &Wires, seen: &SeenOutputs, drives: Drives) -> bool
        ensures { result ≡ true → pads_driven wires.now seen.now drives self.now ≡ self.now.pads }
    {
        if self.stays && self.pads.is_pwm_same(self.drivers.pwm, wires.pwm) {
            return self.drivers.is_driven_by(seen, drives);
        }
        false
    }

    /// A cycle by these, whatever changes.
    #[inline(never)]
    #[tactic(auto, unfolding(crate::specs::Rest::pads_after))]
    fn step_changing(&mut self, wires: Wires, seen: &SeenOutputs, drives: Drives) -> Mark
        ensures state { self.new ≡ next_driven wires seen.now drives self.old }
        ensures mark { result ≡ marked_driven wires seen.now drives self.old }
    {
        let drivers = self.drivers(&wires, seen, drives);
        let uart = self.step_blocks(seen.cycle);
        let pads = self.step_driven(drivers);
        self.irq = wires.irq;
        Mark { uart, pads }
    }

    /// A cycle by these. In most of them nothing changes but the time of the timer and of bits, and the lines of the device.
    #[inline(always)]
    fn step_all(&mut self, wires: &Wires, seen: &SeenOutputs, drives: Drives, marks: &mut Marks)
        requires { length marks.old < 256 }
        ensures state { self.new ≡ next_driven wires.now seen.now drives self.old }
        ensures marks { marks.new
            ≡ marks.old ++ marked_driven wires.now seen.now drives self.old ∷ [] }
    {
        if self.stays_by(wires, seen, drives) && self.blocks.go_on(seen.cycle) {
            self.irq = wires.irq;
            marks.push(Mark {
                uart: [None, None],
                pads: self.pads.pads(),
            });
            return;
        }
        let mark = self.step_changing(*wires, seen, drives);
        marks.push(mark);
    }

    /// All but the device steps, by what the device drives; the mark that the cycle leaves.
    #[inline(always)]
    pub(crate) fn step_by(
        &mut self,
        script: &Script,
        wires: &Wires,
        seen: &SeenOutputs,
        marks: &mut Marks,
    )
        requires { length marks.old < 256 }
        ensures state { self.new ≡ next_by script.now wires.now seen.now self.old }
        ensures marks { marks.new
            ≡ marks.old ++ marked_by script.now wires.now seen.now self.old ∷ [] }
    {
        let drives = drives(script, &mut self.cursor, wires, seen.cycle);
        self.step_all(wires, seen, drives, marks);
    }

    /// The outputs of all parts, where the device drives these.
    pub(crate) fn outs(&self, wires: &Wires, seen: &SeenOutputs) -> Outs
        ensures { result ≡ outs_of wires.now seen.now self.now }
    {
        Outs {
            sio: self.sio,
            pio0: seen.pio0,
            pio1: seen.pio1,
            pwm: [wires.pwm, PINS],
            uart: self.uarts(),
        }
    }
}
