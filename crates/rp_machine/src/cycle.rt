//! One cycle of the machine.

ghost use Rattle.std.specs.Prelude.{◌≡◌, ◌<◌, ◌^◌, map};
ghost use Rattle.std.specs.List.{All};
ghost use Rattle.rp_base.specs.Map.{IsWithin};
ghost use Rattle.bus_fabric.specs.Masters.{HavePorts};
ghost use Rattle.sio_block.specs.Launcher.{offers_of};
ghost use Rattle.rp_machine.specs.Cycle.{asked, wanted, pins_of, with_pins, with_offer};
ghost use Rattle.rp_machine.specs.Deeds.{spot_of};

use crate::access::{asked_begun, asked_by, spot_of};
use crate::begun::Begun;
use crate::deed::Deed;
use crate::machine::Machine;
use crate::part::part_of;
use crate::steps::Steps;
use crate::wanted::{Wanted, all_wanted, is_core0_first, spot_begun};
use lane_look::{Device, Lane, Marks, Turn};
use m0_core::Core;
use outer_lane::{Outer, World};
use rp_base::map::Spot;
use rp_base::{Master, Why};
use sio_block::Sio;
use std::sync::ledger::Ledger;

/// The spots of the masters' accesses in a cycle in which this was begun: those of the cores were found when they began.
#[inline(always)]
#[tactic(auto, unfolding(crate::specs::Cycle::wanted))]
fn spots_begun(begun: &Begun, wants: &[Wanted; 4]) -> [Spot; 4]
    requires { wants.now ≡ wanted begun.now }
    ensures value { result ≡ map (λ x. spot_of x.want) wants.now }
    ensures within { All IsWithin result }
{
    let [_, _, read, write] = wants;
    [
        spot_begun(&begun.core0),
        spot_begun(&begun.core1),
        spot_of(&read.want),
        spot_of(&write.want),
    ]
}

/// What the masters ask of the fabric, whose accesses have these spots.
#[inline(always)]
#[tactic(auto, unfolding(crate::specs::Cycle::asked))]
fn asked(wants: &[Wanted; 4], spots: &[Spot; 4]) -> [Option<(u8, bool)>; 4]
    requires spots { spots.now ≡ map (λ x. spot_of x.want) wants.now }
    requires within { All IsWithin spots.now }
    ensures ports { HavePorts result }
    ensures value { result ≡ asked wants.now }
{
    let [core0, core1, read, write] = wants;
    let [spot0, spot1, spot2, spot3] = spots;
    [
        asked_by(&core0.want, spot0),
        asked_by(&core1.want, spot1),
        asked_by(&read.want, spot2),
        asked_by(&write.want, spot3),
    ]
}

/// The limit is a number of 64 bits: its type keeps it.
pub fn fact_limit_is_bounded<X: Device>(world: &World<'_, X>)
    ensures { world.now.limit < 2 ^ 64 }
{
    let _limit = world.limit;
}

/// Tells the pads and core 1 what SIO has for them.
#[inline(always)]
fn tell_of_sio(sio: &Sio, outer: &mut Outer, core1: &mut Core)
    ensures pins { outer.new ≡ with_pins (pins_of sio.now) outer.old }
    ensures offer { core1.new ≡ with_offer (offers_of sio.now) core1.old }
{
    outer.set_sio(sio.outs());
    core1.set_offer(sio.offers());
}

impl Machine {
    ghost use Rattle.std.specs.Prelude.{◌≡◌, ◌+◌, ◌-◌, ◌^◌, ◌<◌, ◌≤◌, ◌∷◌, ◌++◌, if◌then◌else◌, is_some, true, None, [], length, map};
    ghost use Rattle.std.specs.List.{All};
    ghost use Rattle.outer_lane.specs.Setting.{setting};
    ghost use Rattle.outer_lane.specs.Step.{marked};
    ghost use Rattle.rp_base.specs.declared.Master.TheVariants.{Core0};
    ghost use Rattle.m0_core.specs.Cycle.{want_of};
    ghost use Rattle.rp_base.specs.Map.{IsWithin};
    ghost use Rattle.rp_machine.specs.Deeds.{spot_of};
    ghost use Rattle.rp_machine.specs.Stores.{StoresInSram};
    ghost use Rattle.rp_machine.specs.Wantless.{core1_launched, wantless_next};
    ghost use Rattle.rp_machine.specs.Alone.{first_next, is_first_alone};
    ghost use Rattle.rp_machine.specs.Cycle.{begun, wanted_by, wanted, cause_in, stop, turns, deeds, turned_inside, signalled, pins_of, with_sio, found_by, sio_accessed, after_deed, after_launcher, after_core1, stored, ended, after_deeds, next_by, next, mark};

    /// The first cause of a master to stop before a cycle in which this was begun, whoever wants anything.
    #[inline(never)]
    #[tactic(auto, unfolding(crate::specs::Cycle::cause_in))]
    fn cause_in<X: Device>(&self, world: &World<'_, X>, begun: &Begun) -> Option<Why>
        ensures { result ≡ cause_in (setting X.meaning world.now) begun.now (wanted begun.now)
            self.now }
    {
        let [core0, core1, read, write] = &all_wanted(begun);
        let seen = &begun.outer;
        if let Some(why) = self.cause_of(world, seen, core0) {
            return Some(why);
        }
        if let Some(why) = self.cause_of(world, seen, core1) {
            return Some(why);
        }
        if let Some(why) = self.cause_of(world, seen, read) {
            return Some(why);
        }
        self.cause_of(world, seen, write)
    }

    /// The same, where no master behind core 0 wants anything.
    #[inline(always)]
    fn cause_first<X: Device>(&self, world: &World<'_, X>, begun: &Begun) -> Option<Why>
        requires { is_first_alone (wanted begun.now) ≡ true }
        ensures { result ≡ cause_in (setting X.meaning world.now) begun.now (wanted begun.now)
            self.now }
    {
        self.cause_of_core0(world, &begun.outer, &begun.core0)
    }

    /// The first cause of a master to stop before a cycle in which this was begun. In most, core 0 alone wants anything.
    #[inline(always)]
    fn cause<X: Device>(&self, world: &World<'_, X>, begun: &Begun) -> Option<Why>
        ensures { result ≡ cause_in (setting X.meaning world.now) begun.now (wanted begun.now)
            self.now }
    {
        if is_core0_first(begun) {
            self.cause_first(world, begun)
        } else {
            self.cause_in(world, begun)
        }
    }

    /// What the bus gives each master, whose accesses have these spots, by what is granted, and what the wants come to.
    #[inline(always)]
    #[tactic(auto, unfolding(crate::specs::Cycle::turns, crate::specs::Cycle::deeds))]
    fn all_served<X: Device>(
        &self,
        world: &World<'_, X>,
        begun: &Begun,
        wants: &[Wanted; 4],
        spots: &[Spot; 4],
        granted: [bool; 4],
    ) -> ([Turn; 4], [Deed; 4])
        requires spots { spots.now ≡ map (λ x. spot_of x.want) wants.now }
        requires within { All IsWithin spots.now }
        ensures turns { result.0 ≡ turns (setting X.meaning world.now) begun.now wants.now self.now
            granted }
        ensures deeds { result.1 ≡ deeds (setting X.meaning world.now) begun.now wants.now self.now
            granted }
        ensures within { All StoresInSram result.1 }
    {
        let [core0, core1, read, write] = wants;
        let [grant0, grant1, grant2, grant3] = granted;
        let [spot0, spot1, spot2, spot3] = spots;
        let (seen, rival) = (&begun.outer, &core0.want);
        let (turn0, deed0) = self.served(world, seen, rival, grant0, core0, spot0);
        let (turn1, deed1) = self.served(world, seen, rival, grant1, core1, spot1);
        let (turn2, deed2) = self.served(world, seen, rival, grant2, read, spot2);
        let (turn3, deed3) = self.served(world, seen, rival, grant3, write, spot3);
        ([turn0, turn1, turn2, turn3], [deed0, deed1, deed2, deed3])
    }

    /// The lanes but the peripherals step by these turns.
    #[inline(always)]
    fn step_inside(&mut self, begun: &Begun, turns: [Turn; 4], marks: &mut Marks)
        requires { length marks.old < 256 }
        ensures state { self.new ≡ turned_inside begun.now turns self.old }
        ensures marks { marks.new ≡ marks.old }
    {
        let [turn0, turn1, read, write] = turns;
        self.core0
            .finish(&(), &begun.core0, [turn0, Turn::Nothing], marks);
        self.core1
            .finish(&(), &begun.core1, [turn1, Turn::Nothing], marks);
        self.dma.block.finish(&(), &begun.dma, [read, write], marks);
        self.pio0
            .block
            .finish(&(), &begun.pio0, [Turn::Nothing; 2], marks);
        self.pio1
            .block
            .finish(&(), &begun.pio1, [Turn::Nothing; 2], marks);
    }

    /// SEV sets the event registers of both cores.
    fn signal(&mut self)
        ensures { self.new ≡ signalled self.old }
    {
        self.core0.signal();
        self.core1.signal();
    }

    /// What a master's deed finds of SIO, where nothing was done in the cycle yet.
    #[inline(always)]
    pub(crate) fn found_by(&self, master: Master, deed: &Deed) -> bool
        ensures { result ≡ found_by master deed.now self.now.sio }
    {
        match (master, *deed) {
            (Master::Core0, Deed::SingleCycle { offset, write }) => self
                .sio
                .finds(0, offset, write),
            (Master::Core1, Deed::SingleCycle { offset, write }) => self
                .sio
                .finds(1, offset, write),
            _ => false,
        }
    }

    /// An access of a core to SIO that has found this.
    #[tactic(auto, unfolding(crate::specs::Cycle::with_sio))]
    fn access_sio(&mut self, found: bool, master: Master, offset: u16, write: Option<u32>)
        ensures { self.new ≡ sio_accessed found master offset write self.old }
    {
        match master {
            Master::Core0 => self.sio.effect_where(found, 0, offset, write),
            Master::Core1 => self.sio.effect_where(found, 1, offset, write),
            Master::DmaRead | Master::DmaWrite => return,
        }
        tell_of_sio(&self.sio, &mut self.outer, &mut self.core1);
    }

    /// The deed of a master that has found this of SIO, but for a write to SRAM, which comes last.
    #[tactic(auto, unfolding(crate::specs::Cycle::after_deed))]
    pub(crate) fn do_deed<X: Device>(
        &mut self,
        world: &World<'_, X>,
        found: bool,
        master: Master,
        deed: &Deed,
    )
        ensures { self.new ≡ after_deed (setting X.meaning world.now) found master deed.now self.old }
    {
        match *deed {
            Deed::Signal => self.signal(),
            Deed::Register {
                block,
                offset,
                write,
            } => self.access_part(part_of(block), offset, write),
            Deed::SingleCycle { offset, write } => self.access_sio(found, master, offset, write),
            Deed::Device { address, write } => self.outer.device_effect(world, address, write),
            Deed::Nothing | Deed::Store { .. } => {}
        }
    }

    /// The launcher takes a word, where it has one, and starts core 1 after the sixth.
    #[inline(always)]
    #[tactic(auto, unfolding(crate::specs::Cycle::after_launcher, crate::specs::Cycle::with_sio))]
    fn launch(&mut self)
        ensures { self.new ≡ after_launcher self.old }
    {
        if !self.sio.offers() {
            return;
        }
        let launch = self.sio.launcher();
        tell_of_sio(&self.sio, &mut self.outer, &mut self.core1);
        if let Some(launch) = launch {
            self.core1.start(launch.vtor, launch.sp, launch.entry);
        }
    }

    /// The deed of core 1, or while it sleeps the turn of its launcher, where the start of the cycle offered it a word.
    #[inline(always)]
    fn do_core1<X: Device>(&mut self, world: &World<'_, X>, offered: bool, found: bool, deed: &Deed)
        ensures { self.new ≡ after_core1 (setting X.meaning world.now) offered found deed.now
            self.old }
    {
        if !self.core1.is_asleep() {
            self.do_deed(world, found, Master::Core1, deed);
        } else if offered {
            self.launch();
        }
    }

    /// A write to SRAM.
    #[inline(always)]
    pub(crate) fn store(&mut self, deed: &Deed)
        requires { StoresInSram deed.now }
        ensures { self.new ≡ record self.old { sram = stored deed.now self.old.sram } }
    {
        if let Deed::Store {
            index,
            lanes,
            value,
        } = *deed
        {
            self.ram.write(index, lanes, value);
        }
    }

    /// SIO ends its cycle.
    #[inline(always)]
    #[tactic(auto, unfolding(crate::specs::Cycle::ended, crate::specs::Cycle::with_sio))]
    pub(crate) fn end(&mut self)
        ensures { self.new ≡ ended self.old }
    {
        if !self.sio.is_quiet() {
            self.sio.end_cycle();
            tell_of_sio(&self.sio, &mut self.outer, &mut self.core1);
        }
    }

    /// What the deeds of the masters do, and the end of the cycle.
    #[tactic(auto, unfolding(crate::specs::Cycle::after_deeds))]
    fn do_deeds<X: Device>(&mut self, world: &World<'_, X>, deeds: &[Deed; 4])
        requires { All StoresInSram deeds.now }
        ensures { self.new ≡ after_deeds (setting X.meaning world.now) deeds.now self.old }
    {
        let [core0, core1, read, write] = deeds;
        let offered = self.sio.offers();
        let found0 = self.found_by(Master::Core0, core0);
        let found1 = self.found_by(Master::Core1, core1);
        self.do_deed(world, found0, Master::Core0, core0);
        self.do_core1(world, offered, found1, core1);
        self.do_deed(world, false, Master::DmaRead, read);
        self.do_deed(world, false, Master::DmaWrite, write);
        self.store(core0);
        self.store(core1);
        self.store(read);
        self.store(write);
        self.end();
    }

    /// The turn of the launcher while core 1 sleeps, where the start of the cycle offered it a word.
    #[inline(always)]
    #[tactic(auto, unfolding(crate::specs::Wantless::core1_launched))]
    pub(crate) fn launch_core1(&mut self, offered: bool)
        ensures { self.new ≡ core1_launched offered self.old }
    {
        if offered && self.core1.is_asleep() {
            self.launch();
        }
    }

    /// One cycle in which this was begun, nobody wants anything, and no access lasts: only the lanes, SIO and the number change.
    #[inline(never)]
    #[tactic(auto, unfolding(crate::specs::Wantless::wantless_next, crate::specs::Cycle::with_turns))]
    fn step_wantless<X: Device>(&mut self, world: &World<'_, X>, begun: &Begun, marks: &mut Marks)
        requires number { self.old.cycle < 2 ^ 64 - 1 }
        requires marks { length marks.old < 256 }
        ensures state { self.new ≡ wantless_next (setting X.meaning world.now) begun.now self.old }
        ensures marks { marks.new ≡ marks.old ++ marked (setting X.meaning world.now) self.old.outer
            begun.now.outer ∷ [] }
    {
        let at = self.at;
        let offered = self.sio.offers();
        self.step_inside(begun, [Turn::Nothing; 4], marks);
        self.outer
            .finish(world, &begun.outer, [Turn::Nothing; 2], marks);
        self.launch_core1(offered);
        self.end();
        self.at = at + 1;
    }

    /// One cycle in which this was begun, and no master but core 0 wants anything.
    #[inline(never)]
    #[tactic(auto, unfolding(crate::specs::Alone::first_next, crate::specs::Cycle::with_turns))]
    fn step_for_core0<X: Device>(&mut self, world: &World<'_, X>, begun: &Begun, marks: &mut Marks)
        requires number { self.old.cycle < 2 ^ 64 - 1 }
        requires marks { length marks.old < 256 }
        ensures state { self.new ≡ first_next (setting X.meaning world.now) begun.now (wanted_by
            Core0 (want_of begun.now.core0)) self.old }
        ensures marks { marks.new ≡ marks.old ++ marked (setting X.meaning world.now) self.old.outer
            begun.now.outer ∷ [] }
    {
        let at = self.at;
        let mut fabric = self.fabric;
        let granted = fabric.grant_core0(asked_begun(&begun.core0));
        let (turn, deed) = self.served_core0(world, &begun.outer, &begun.core0, granted);
        let offered = self.sio.offers();
        let found = self.found_by(Master::Core0, &deed);
        self.fabric = fabric;
        self.step_inside(
            begun,
            [turn, Turn::Nothing, Turn::Nothing, Turn::Nothing],
            marks,
        );
        self.outer
            .finish(world, &begun.outer, [Turn::Nothing; 2], marks);
        self.do_deed(world, found, Master::Core0, &deed);
        self.launch_core1(offered);
        self.store(&deed);
        self.end();
        self.at = at + 1;
    }

    /// One cycle in which this was begun, whoever wants anything.
    #[inline(never)]
    #[tactic(auto, unfolding(crate::specs::Cycle::next_by, crate::specs::Cycle::stepped, crate::specs::Cycle::with_turns, crate::specs::Cycle::granted))]
    fn step_for_all<X: Device>(&mut self, world: &World<'_, X>, begun: &Begun, marks: &mut Marks)
        requires number { self.old.cycle < 2 ^ 64 - 1 }
        requires marks { length marks.old < 256 }
        ensures state { self.new ≡ next_by (setting X.meaning world.now) begun.now (wanted
            begun.now) self.old }
        ensures marks { marks.new ≡ marks.old ++ marked (setting X.meaning world.now) self.old.outer
            begun.now.outer ∷ [] }
    {
        let at = self.at;
        let wants = all_wanted(begun);
        let spots = spots_begun(begun, &wants);
        let mut fabric = self.fabric;
        let granted = fabric.grant(&asked(&wants, &spots));
        let (turns, deeds) = self.all_served(world, begun, &wants, &spots, granted);
        self.fabric = fabric;
        self.step_inside(begun, turns, marks);
        self.outer
            .finish(world, &begun.outer, [Turn::Nothing; 2], marks);
        self.do_deeds(world, &deeds);
        self.at = at + 1;
    }

    /// One cycle in which this was begun. Its mark goes to the end of the marks.
    pub fn step<X: Device>(&mut self, world: &World<'_, X>, begun: &Begun, marks: &mut Marks)
        requires number { self.old.cycle < 2 ^ 64 - 1 }
        requires marks { length marks.old < 256 }
        ensures state { self.new ≡ next_by (setting X.meaning world.now) begun.now (wanted
            begun.now) self.old }
        ensures marks { marks.new ≡ marks.old ++ marked (setting X.meaning world.now) self.old.outer
            begun.now.outer ∷ [] }
    {
        if !is_core0_first(begun) {
            self.step_for_all(world, begun, marks);
        } else if self.is_bus_free(&begun.core0) {
            self.step_wantless(world, begun, marks);
        } else {
            self.step_for_core0(world, begun, marks);
        }
    }

    /// The cause for which the next cycle does not happen, if there is one, where this is what the lanes begin.
    #[tactic(auto, unfolding(crate::specs::Cycle::stop))]
    pub fn stop_of<X: Device>(&self, world: &World<'_, X>, lanes: &Begun) -> Option<Why>
        requires { lanes.now ≡ begun self.now }
        ensures { result ≡ stop (setting X.meaning world.now) self.now }
    {
        if self.at == world.limit {
            return Some(Why::Limit);
        }
        self.cause(world, lanes)
    }

    /// Does one cycle of which this is what the lanes begin, counts it and leaves its mark alone in the marks; or changes nothing
    /// and names the stop.
    #[inline(always)]
    #[tactic(auto, unfolding(crate::specs::Cycle::stop, crate::specs::Cycle::next, crate::specs::Cycle::mark))]
    pub fn cycle_of<X: Device, L: Ledger>(
        &mut self,
        world: &World<'_, X>,
        lanes: &Begun,
        marks: &mut Marks,
        steps: &mut Steps<L>,
    ) -> Option<Why>
        requires number { self.old.cycle ≤ world.now.limit }
        requires begun { lanes.now ≡ begun self.old }
        ensures cause { result ≡ stop (setting X.meaning world.now) self.old }
        ensures state { self.new ≡ (if is_some result then self.old else next (setting X.meaning
            world.now) self.old) }
        ensures marks { marks.new ≡ (if is_some result then marks.old else mark (setting X.meaning
            world.now) self.old ∷ []) }
        ensures steps { steps.new ≡ (if is_some result then steps.old else steps.old + 1) }
    {
        if self.at == world.limit {
            return Some(Why::Limit);
        }
        let first = is_core0_first(lanes);
        if first && self.is_bus_free(&lanes.core0) {
            marks.clear();
            steps.tick();
            self.step_wantless(world, lanes, marks);
            return None;
        }
        let cause = if first {
            self.cause_first(world, lanes)
        } else {
            self.cause_in(world, lanes)
        };
        if cause.is_some() {
            return cause;
        }
        marks.clear();
        steps.tick();
        if first {
            self.step_for_core0(world, lanes, marks);
        } else {
            self.step_for_all(world, lanes, marks);
        }
        None
    }

    /// Does one cycle, counts it and leaves its mark alone in the marks; or changes nothing and names the stop. A run keeps room for what
    /// the lanes begin, and goes on by `begin_into` and `cycle_of`.
    pub fn cycle<X: Device, L: Ledger>(
        &mut self,
        world: &World<'_, X>,
        marks: &mut Marks,
        steps: &mut Steps<L>,
    ) -> Option<Why>
        requires { self.old.cycle ≤ world.now.limit }
        ensures cause { result ≡ stop (setting X.meaning world.now) self.old }
        ensures state { self.new ≡ (if is_some result then self.old else next (setting X.meaning
            world.now) self.old) }
        ensures marks { marks.new ≡ (if is_some result then marks.old else mark (setting X.meaning
            world.now) self.old ∷ []) }
        ensures steps { steps.new ≡ (if is_some result then steps.old else steps.old + 1) }
    {
        let mut begun = Begun::nothing();
        self.begin_into(world, &mut begun);
        self.cycle_of(world, &begun, marks, steps)
    }
}
