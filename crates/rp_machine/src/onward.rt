//! A cycle in which core 0 alone is at work and reaches for nothing but SRAM, or waits for the peripherals, or reads of them what stays,
//! beside lanes that lie behind.

use crate::access::{asked_begun, stored_at};
use crate::deed::Deed;
use crate::machine::Machine;
use crate::part::{Part, part_of};
use crate::steps::Steps;
use lane_look::{Ask, Lane, Marks, Turn};
use m0_core::{Act, Doing, Placed};
use rp_base::map::Spot;
use std::sync::ledger::Ledger;

impl Machine {
    ghost use Rattle.std.specs.Prelude.{◌≡◌, ◌+◌, ◌-◌, ◌^◌, ◌<◌, ◌≤◌, IfSome, if◌then◌else◌, true, false};
    ghost use Rattle.m0_core.specs.Cycle.{want_of};
    ghost use Rattle.lane_look.specs.declared.lane.Want.TheVariants.{Nothing, Outward};
    ghost use Rattle.rp_machine.specs.Stores.{StoresInSram};
    ghost use Rattle.rp_machine.specs.Alone.{granted_alone};
    ghost use Rattle.rp_machine.specs.Answers.{lines_of};
    ghost use Rattle.rp_machine.specs.Cycle.{begun};
    ghost use Rattle.rp_machine.specs.Inward.{is_inward, core0_want, goes_inward, inward_turn, inward_deed, inward_wantless, inward_next, inward_cycle, inward_after, StaysInward};

    /// What core 0 is told of an access that is not to SRAM, where it waits for the peripherals, or reads of them what stays as long as they
    /// are quiet.
    fn told_inward(&self, access: &Placed, granted: bool) -> Option<Turn>
        ensures inward { IfSome result (λ r. is_inward granted (Outward access.now) self.now.outer ≡ true) }
        ensures turn { IfSome result (λ r. r ≡ inward_turn granted (Outward access.now) self.now.outer) }
    {
        let Spot::Reg { block, offset, .. } = *access.spot() else {
            return None;
        };
        let Part::Outer(block) = part_of(block) else {
            return None;
        };
        if !self.outer.allows(block, offset, None) {
            return None;
        }
        if !granted {
            return Some(Turn::Wait);
        }
        if access.request().write.is_some() || !self.outer.is_lasting_read(block, offset) {
            return None;
        }
        let word = self.outer.read_own(block, offset);
        Some(Turn::Done(word.unwrap_or(0)))
    }

    /// What the bus gives core 0 for the access that it has begun, and what that comes to, where it is one to SRAM, or such a one to the
    /// peripherals.
    #[inline(always)]
    fn served_inward(&self, begun: &Doing, granted: bool) -> Option<(Turn, Deed)>
        ensures inward { IfSome result (λ r. is_inward granted (want_of begun.now) self.now.outer ≡ true) }
        ensures turn { IfSome result (λ r. r.0 ≡ inward_turn granted (want_of begun.now) self.now.outer) }
        ensures deed { IfSome result (λ r. r.1 ≡ inward_deed granted (want_of begun.now)) }
        ensures stores { IfSome result (λ r. StoresInSram r.1) }
    {
        match &begun.act {
            Act::Read(_, access, _) | Act::Write(_, access) => {
                if granted {
                    Some((Turn::Done(0), stored_at(access.request(), access.spot())))
                } else {
                    Some((Turn::Wait, Deed::Nothing))
                }
            }
            Act::Outward(_, access) => match self.told_inward(access, granted) {
                Some(turn) => Some((turn, Deed::Nothing)),
                None => None,
            },
            Act::Asleep | Act::Stopped(_) | Act::Fault | Act::Inner(_) | Act::Private(..) => None,
        }
    }

    /// A cycle in which core 0 has begun this and wants nothing, and no access lasts.
    #[inline(always)]
    #[tactic(auto, unfolding(crate::specs::Inward::inward_wantless))]
    fn wantless_onward(&mut self, core0: &Doing, marks: &mut Marks)
        requires number { self.old.cycle < 2 ^ 64 - 1 }
        ensures state { self.new ≡ inward_wantless core0.now self.old }
        ensures marks { marks.new ≡ marks.old }
    {
        let at = self.at;
        self.core0.finish(&(), core0, [Turn::Nothing; 2], marks);
        self.end();
        self.at = at + 1;
    }

    /// A cycle in which core 0 has begun this, where that is an access to SRAM, or such a one to the peripherals. False where it is none of
    /// these, and then nothing changes. It stands out of line, so that the loop has room for the cycles without one.
    #[inline(never)]
    #[tactic(auto, unfolding(crate::specs::Inward::inward_next))]
    fn reach_onward(&mut self, core0: &Doing, marks: &mut Marks) -> bool
        requires number { self.old.cycle < 2 ^ 64 - 1 }
        ensures inward { result ≡ true → is_inward (granted_alone (want_of core0.now) self.old)
            (want_of core0.now) self.old.outer ≡ true }
        ensures done { result ≡ true → self.new ≡ inward_next core0.now (want_of core0.now) self.old }
        ensures stays { result ≡ false → self.new ≡ self.old }
        ensures marks { marks.new ≡ marks.old }
    {
        let at = self.at;
        let mut fabric = self.fabric;
        let granted = fabric.grant_core0(asked_begun(core0));
        let Some((turn, deed)) = self.served_inward(core0, granted) else {
            return false;
        };
        self.fabric = fabric;
        self.core0.finish(&(), core0, [turn, Turn::Nothing], marks);
        self.store(&deed);
        self.end();
        self.at = at + 1;
        true
    }

    /// A cycle in which core 0 begins an instruction, where it wants nothing, as in most such cycles, and no access lasts. False elsewhere;
    /// then nothing changes.
    #[inline(always)]
    pub fn short_onward(&mut self, lines: u32) -> bool
        requires number { self.old.cycle < 2 ^ 64 - 1 }
        requires lines { lines ≡ lines_of 0 self.old }
        ensures nothing { result ≡ true → core0_want self.old ≡ Nothing }
        ensures state { self.new ≡ (if result then inward_cycle self.old else self.old) }
    {
        let Some(address) = self.core0.begins() else {
            return false;
        };
        let (at, answer) = (self.at, self.answer(0, Ask::Half(address)));
        if self.fabric.holds() || !self.core0.pass_short((answer % 0x1_0000) as u16, lines, at) {
            return false;
        }
        self.end();
        self.at = at + 1;
        true
    }

    /// One cycle of a machine in which core 0 is alone and has begun this, but for the other lanes, which stay as they are. False where
    /// core 0 reaches for more, and where an access lasts and nothing is wanted; then nothing changes.
    #[inline(always)]
    pub fn begun_onward(&mut self, core0: &Doing, marks: &mut Marks) -> bool
        requires number { self.old.cycle < 2 ^ 64 - 1 }
        requires begun { core0.now ≡ (begun self.old).core0 }
        ensures inward { result ≡ true → goes_inward self.old ≡ true }
        ensures done { result ≡ true → self.new ≡ inward_cycle self.old }
        ensures stays { result ≡ false → self.new ≡ self.old }
        ensures marks { marks.new ≡ marks.old }
    {
        if self.is_bus_free(core0) {
            self.wantless_onward(core0, marks);
            return true;
        }
        self.reach_onward(core0, marks)
    }

    /// The same, where core 0 has not begun its cycle, and its interrupt lines are these.
    #[inline(always)]
    fn cycle_onward(&mut self, lines: u32, core0: &mut Doing, marks: &mut Marks) -> bool
        requires number { self.old.cycle < 2 ^ 64 - 1 }
        requires lines { lines ≡ lines_of 0 self.old }
        ensures inward { result ≡ true → goes_inward self.old ≡ true }
        ensures done { result ≡ true → self.new ≡ inward_cycle self.old }
        ensures stays { result ≡ false → self.new ≡ self.old }
        ensures marks { marks.new ≡ marks.old }
    {
        if self.short_onward(lines) {
            return true;
        }
        self.begin_core0(lines, core0);
        self.begun_onward(core0, marks)
    }

    /// Core 0 goes on alone for at most so many cycles, up to the first in which it reaches for more, and
    /// the other lanes stay as they are; it may end sooner, as where core 0 waits in WFI or WFE. How many cycles that were.
    pub fn go_onward<L: Ledger>(
        &mut self,
        most: u64,
        marks: &mut Marks,
        steps: &mut Steps<L>,
    ) -> u64
        requires number { self.old.cycle + most < 2 ^ 64 }
        ensures most { result ≤ most }
        ensures state { self.new ≡ inward_after result self.old }
        ensures inward { StaysInward self.old result }
        ensures marks { marks.new ≡ marks.old }
        ensures steps { steps.new ≡ steps.old + result }
    {
        let lines = self.lines(0);
        let mut core0 = Doing::nothing();
        let mut done = 0;
        while done < most
            && !self.core0.is_waiting()
            && self.cycle_onward(lines, &mut core0, marks)
        {
            steps.tick();
            done += 1;
        }
        done
    }
}
