//! What the wants of the masters come to: causes to stop, requests to the fabric, turns and deeds.

ghost use Rattle.std.specs.Prelude.{◌≡◌};
ghost use Rattle.rp_base.specs.Map.{IsWithin};
ghost use Rattle.bus_fabric.specs.Masters.{HasPort};
ghost use Rattle.m0_core.specs.Cycle.{want_of};
ghost use Rattle.rp_machine.specs.Deeds.{port_at, asked_at, spot_of, asked_of, is_done_at, is_lock, is_same_word, reads_at, is_core1, is_late, stored_at};
ghost use Rattle.rp_machine.specs.Stores.{StoresInSram};

use crate::deed::Deed;
use crate::machine::Machine;
use crate::part::{Part, part_of};
use crate::registers::plain_write;
use crate::wanted::Wanted;
use lane_look::{Device, Turn, Want};
use m0_core::{Act, Doing, Placed};
use outer_lane::{SeenOutputs, World};
use rp_base::access::{lanes_at, replicated, word_written};
use rp_base::map::{Spot, place, port};
use rp_base::{Master, Request, Why};
use sio_block::registers::SPINLOCK0;

/// The port of APB, through which the device is reached.
const APB: u8 = 6;

/// The port that a request to a spot asks for, and whether to write.
fn asked_at(request: &Request, spot: &Spot) -> Option<(u8, bool)>
    requires { IsWithin spot.now }
    ensures port { HasPort result }
    ensures value { result ≡ asked_at request.now (port_at spot.now) }
{
    let writes = request.write.is_some();
    match spot {
        Spot::Outside => Some((APB, writes)),
        _ => match port(spot) {
            Some(port) => Some((port, writes)),
            None => None,
        },
    }
}

/// The spot of a want's access; outside where it is none.
#[inline(always)]
pub(crate) fn spot_of(want: &Want) -> Spot
    ensures value { result ≡ spot_of want.now }
    ensures within { IsWithin result }
{
    match want {
        Want::Ram(request) | Want::Outward(request) => place(request.address),
        Want::Nothing | Want::Signal | Want::Stopped(_) => Spot::Outside,
    }
}

/// The port that a want asks for whose access has this spot, and whether to write.
#[inline(always)]
#[tactic(auto, unfolding(crate::specs::Deeds::asked_of))]
pub(crate) fn asked_by(want: &Want, spot: &Spot) -> Option<(u8, bool)>
    requires spot { spot.now ≡ spot_of want.now }
    requires within { IsWithin spot.now }
    ensures port { HasPort result }
    ensures value { result ≡ asked_of want.now }
{
    match want {
        Want::Ram(request) | Want::Outward(request) => asked_at(request, spot),
        Want::Nothing | Want::Signal | Want::Stopped(_) => None,
    }
}

/// The port that a core asks for which has begun this, and whether to write.
#[inline(always)]
#[tactic(auto, unfolding(crate::specs::Deeds::asked_of))]
pub(crate) fn asked_begun(begun: &Doing) -> Option<(u8, bool)>
    ensures port { HasPort result }
    ensures value { result ≡ asked_of (want_of begun.now) }
{
    match &begun.act {
        Act::Read(_, access, _) | Act::Write(_, access) | Act::Outward(_, access) => {
            asked_at(access.request(), access.spot())
        }
        Act::Asleep | Act::Stopped(_) | Act::Fault | Act::Inner(_) | Act::Private(..) => None,
    }
}

/// The port that a want asks for, and whether to write.
#[inline(always)]
pub fn asked_of(want: &Want) -> Option<(u8, bool)>
    ensures port { HasPort result }
    ensures value { result ≡ asked_of want.now }
{
    asked_by(want, &spot_of(want))
}

/// An access to this spot is done, where its port, if it has one, is granted.
#[inline(always)]
fn is_done_at(spot: &Spot, granted: bool) -> bool
    ensures { result ≡ is_done_at spot.now granted }
{
    match spot {
        Spot::Sio { .. } => true,
        Spot::Ram { .. } | Spot::Reg { .. } | Spot::Ppb { .. } | Spot::Outside => granted,
    }
}

/// A spinlock of SIO.
fn is_lock(spot: &Spot) -> bool
    ensures { result ≡ is_lock spot.now }
{
    match *spot {
        Spot::Sio { offset } => SPINLOCK0 <= offset,
        Spot::Ram { .. } | Spot::Reg { .. } | Spot::Ppb { .. } | Spot::Outside => false,
    }
}

/// Both are the same word of SIO.
fn is_same_word(spot: &Spot, other: &Spot) -> bool
    ensures { result ≡ is_same_word spot.now other.now }
{
    match (*spot, *other) {
        (Spot::Sio { offset }, Spot::Sio { offset: other }) => offset == other,
        _ => false,
    }
}

/// The want is a read of this word of SIO.
fn reads_at(want: &Want, spot: &Spot) -> bool
    ensures { result ≡ reads_at want.now spot.now }
{
    match want {
        Want::Outward(request) => {
            request.write.is_none() && is_same_word(&place(request.address), spot)
        }
        Want::Nothing | Want::Ram(_) | Want::Signal | Want::Stopped(_) => false,
    }
}

/// The master is core 1.
fn is_core1(master: Master) -> bool
    ensures { result ≡ is_core1 master }
{
    match master {
        Master::Core1 => true,
        Master::Core0 | Master::DmaRead | Master::DmaWrite => false,
    }
}

/// Core 1 comes too late for a lock that core 0, which wants `rival`, reads in the same cycle.
fn is_late(rival: &Want, master: Master, spot: &Spot) -> bool
    ensures { result ≡ is_late rival.now master spot.now }
{
    is_core1(master) && is_lock(spot) && reads_at(rival, spot)
}

/// The write to SRAM of a request to a spot, if it is one.
pub(crate) fn stored_at(request: &Request, spot: &Spot) -> Deed
    requires { IsWithin spot.now }
    ensures within { StoresInSram result }
    ensures value { result ≡ stored_at request.now request.now.write spot.now }
{
    match (request.write, *spot) {
        (Some(value), Spot::Ram { index, .. }) => Deed::Store {
            index,
            lanes: lanes_at(request.size, request.address),
            value: replicated(request.size, value),
        },
        _ => Deed::Nothing,
    }
}

impl Machine {
    ghost use Rattle.std.specs.Prelude.{◌≡◌, unwrap_or};
    ghost use Rattle.outer_lane.specs.Setting.{setting};
    ghost use Rattle.rp_base.specs.declared.Master.TheVariants.{Core0};
    ghost use Rattle.m0_core.specs.Cycle.{want_of};
    ghost use Rattle.lane_look.specs.declared.lane.Turn.TheVariants as turn;
    ghost use Rattle.rp_base.specs.Map.{place_of};
    ghost use Rattle.rp_machine.specs.Registers.{part_word};
    ghost use Rattle.rp_machine.specs.PartMeant.{meant};
    ghost use Rattle.rp_machine.specs.Cycle.{wanted_by};
    ghost use Rattle.rp_machine.specs.Deeds.{spot_of, sio_word, word_for, opens, is_open, cause_by, cause_of, turn_of, accessed_at, deed_of};
    ghost use Rattle.rp_machine.specs.Stores.{StoresInSram};

    /// A word of SIO as a master reads it.
    fn sio_word(&self, master: Master, offset: u16) -> Option<u32>
        ensures { result ≡ sio_word master offset self.now }
    {
        match master {
            Master::Core0 => self.sio.read(0, offset, self.outer.input()),
            Master::Core1 => self.sio.read(1, offset, self.outer.input()),
            Master::DmaRead | Master::DmaWrite => None,
        }
    }

    /// The word at a spot that is not in SRAM, as it reads for a master. None where there is no such word.
    #[tactic(auto, unfolding(crate::specs::Deeds::word_for))]
    pub(crate) fn word_for<X: Device>(
        &self,
        world: &World<'_, X>,
        seen: &SeenOutputs,
        master: Master,
        address: u32,
        spot: &Spot,
    ) -> Option<u32>
        ensures { result ≡ word_for (setting X.meaning world.now) seen.now master address spot.now
            self.now }
    {
        match *spot {
            Spot::Reg { block, offset, .. } => self.part_word(world, seen, part_of(block), offset),
            Spot::Sio { offset } => self.sio_word(master, offset),
            Spot::Outside => self.outer.owned_word(world, address),
            Spot::Ram { .. } | Spot::Ppb { .. } => None,
        }
    }

    /// An access to this word of a part finds it and is allowed. Of an access to the peripherals, or to PIO by its plain addresses
    /// (alias 0), the word is not read.
    #[inline(always)]
    fn opens<X: Device>(
        &self,
        world: &World<'_, X>,
        seen: &SeenOutputs,
        request: &Request,
        part: Part,
        offset: u16,
        alias: u8,
    ) -> bool
        ensures { result ≡ opens (meant part) request.now offset alias
            (part_word (meant part) offset (setting X.meaning world.now) seen.now self.now) }
    {
        match part {
            Part::Outer(block) => self.outer.allows(block, offset, None),
            Part::Pio0 if alias == 0 => self.pio0.block.allows(offset, word_written(request)),
            Part::Pio1 if alias == 0 => self.pio1.block.allows(offset, word_written(request)),
            _ => match self.part_word(world, seen, part, offset) {
                Some(word) => self.part_allows(part, offset, plain_write(request, alias, word)),
                None => false,
            },
        }
    }

    /// The access of a master to this spot, which is not in SRAM, finds a word and is allowed.
    #[inline(always)]
    #[tactic(auto, unfolding(crate::specs::Deeds::word_for))]
    fn is_open<X: Device>(
        &self,
        world: &World<'_, X>,
        seen: &SeenOutputs,
        master: Master,
        request: &Request,
        spot: &Spot,
    ) -> bool
        ensures { result ≡ is_open request.now spot.now (word_for (setting X.meaning world.now)
            seen.now master request.now.address spot.now self.now) }
    {
        match *spot {
            Spot::Reg {
                block,
                offset,
                alias,
            } => self.opens(world, seen, request, part_of(block), offset, alias),
            Spot::Sio { offset } => self.sio_word(master, offset).is_some(),
            Spot::Outside => self.outer.owned_word(world, request.address).is_some(),
            Spot::Ram { .. } | Spot::Ppb { .. } => false,
        }
    }

    /// The cause for which a cycle does not happen in which a master makes this access, which is not to SRAM.
    #[inline(never)]
    fn cause_at<X: Device>(
        &self,
        world: &World<'_, X>,
        seen: &SeenOutputs,
        master: Master,
        access: &Placed,
    ) -> Option<Why>
        ensures { result ≡ cause_by (setting X.meaning world.now) seen.now master (Want.Outward
            access.now) self.now }
    {
        let request = access.request();
        if self.is_open(world, seen, master, request, access.spot()) {
            return None;
        }
        Some(Why::Outside(master, request.address))
    }

    /// The cause for which a cycle does not happen in which core 0 has begun this.
    #[inline(always)]
    #[tactic(auto, unfolding(crate::specs::Deeds::cause_of))]
    pub(crate) fn cause_of_core0<X: Device>(
        &self,
        world: &World<'_, X>,
        seen: &SeenOutputs,
        core0: &Doing,
    ) -> Option<Why>
        ensures { result ≡ cause_of (setting X.meaning world.now) seen.now self.now (wanted_by Core0
            (want_of core0.now)) }
    {
        match &core0.act {
            Act::Outward(_, access) => self.cause_at(world, seen, Master::Core0, access),
            Act::Stopped(cause) => Some(*cause),
            Act::Asleep
            | Act::Fault
            | Act::Inner(_)
            | Act::Read(..)
            | Act::Write(..)
            | Act::Private(..) => None,
        }
    }

    /// The cause for which a cycle does not happen in which a master wants this.
    #[inline(always)]
    #[tactic(auto, unfolding(crate::specs::Deeds::cause_of))]
    pub(crate) fn cause_of<X: Device>(
        &self,
        world: &World<'_, X>,
        seen: &SeenOutputs,
        wanted: &Wanted,
    ) -> Option<Why>
        ensures { result ≡ cause_of (setting X.meaning world.now) seen.now self.now wanted.now }
    {
        match &wanted.want {
            Want::Outward(request) => {
                self.cause_at(world, seen, wanted.master, &Placed::new(*request))
            }
            Want::Stopped(cause) => Some(*cause),
            Want::Nothing | Want::Ram(_) | Want::Signal => None,
        }
    }

    /// What an access that is not to SRAM comes to, whose word is this.
    #[inline(always)]
    #[tactic(auto, unfolding(crate::specs::Deeds::word_for))]
    fn deed_at<X: Device>(
        &self,
        world: &World<'_, X>,
        seen: &SeenOutputs,
        master: Master,
        request: &Request,
        spot: &Spot,
        word: u32,
    ) -> Deed
        requires { word ≡ unwrap_or (word_for (setting X.meaning world.now) seen.now master
            request.now.address spot.now self.now) 0 }
        ensures within { StoresInSram result }
        ensures value { result ≡ accessed_at (setting X.meaning world.now) seen.now request.now
            spot.now self.now }
    {
        match *spot {
            Spot::Reg {
                block,
                offset,
                alias,
            } => Deed::Register {
                block,
                offset,
                write: plain_write(request, alias, word),
            },
            Spot::Sio { offset } => Deed::SingleCycle {
                offset,
                write: word_written(request),
            },
            Spot::Outside => Deed::Device {
                address: request.address,
                write: word_written(request),
            },
            Spot::Ram { .. } | Spot::Ppb { .. } => Deed::Nothing,
        }
    }

    /// What an access of core 0 is told that is not to SRAM and is done, and what it comes to. Its word is read once.
    #[inline(always)]
    fn done_for_core0<X: Device>(
        &self,
        world: &World<'_, X>,
        seen: &SeenOutputs,
        access: &Placed,
    ) -> (Turn, Deed)
        ensures turn { result.0 ≡ turn.Done (unwrap_or (word_for (setting X.meaning world.now)
            seen.now Core0 access.now.address (place_of access.now.address) self.now) 0) }
        ensures deed { result.1 ≡ accessed_at (setting X.meaning world.now) seen.now access.now
            (place_of access.now.address) self.now }
        ensures stores { StoresInSram result.1 }
    {
        let (request, spot) = (access.request(), access.spot());
        let word = self
            .word_for(world, seen, Master::Core0, request.address, spot)
            .unwrap_or(0);
        (
            Turn::Done(word),
            self.deed_at(world, seen, Master::Core0, request, spot, word),
        )
    }

    /// What the bus gives core 0, which has begun this, and what its want comes to.
    #[inline(always)]
    #[tactic(auto, unfolding(crate::specs::Deeds::turn_of, crate::specs::Deeds::deed_of))]
    pub(crate) fn served_core0<X: Device>(
        &self,
        world: &World<'_, X>,
        seen: &SeenOutputs,
        core0: &Doing,
        granted: bool,
    ) -> (Turn, Deed)
        ensures turn { result.0 ≡ turn_of (setting X.meaning world.now) seen.now (want_of core0.now)
            granted Core0 (want_of core0.now) self.now }
        ensures deed { result.1 ≡ deed_of (setting X.meaning world.now) seen.now granted (want_of
            core0.now) self.now }
        ensures stores { StoresInSram result.1 }
    {
        match &core0.act {
            Act::Read(_, access, _) | Act::Write(_, access) if granted => (
                Turn::Done(0),
                stored_at(access.request(), access.spot()),
            ),
            Act::Outward(_, access) if is_done_at(access.spot(), granted) => {
                self.done_for_core0(world, seen, access)
            }
            Act::Read(..) | Act::Write(..) | Act::Outward(..) => (Turn::Wait, Deed::Nothing),
            Act::Inner(_) if !core0.wants_nothing() => (Turn::Nothing, Deed::Signal),
            Act::Inner(_) | Act::Asleep | Act::Stopped(_) | Act::Fault | Act::Private(..) => {
                (Turn::Nothing, Deed::Nothing)
            }
        }
    }

    /// What the bus gives a master for its want, whose access has this spot, where core 0 wants `rival`, and what the want comes to.
    /// The word of an access is read once.
    #[inline(always)]
    #[tactic(auto, unfolding(crate::specs::Deeds::turn_of, crate::specs::Deeds::deed_of))]
    pub(crate) fn served<X: Device>(
        &self,
        world: &World<'_, X>,
        seen: &SeenOutputs,
        rival: &Want,
        granted: bool,
        wanted: &Wanted,
        spot: &Spot,
    ) -> (Turn, Deed)
        requires spot { spot.now ≡ spot_of wanted.now.want }
        requires within { IsWithin spot.now }
        ensures turn { result.0 ≡ turn_of (setting X.meaning world.now) seen.now rival.now granted
            wanted.now.master wanted.now.want self.now }
        ensures deed { result.1 ≡ deed_of (setting X.meaning world.now) seen.now granted
            wanted.now.want self.now }
        ensures stores { StoresInSram result.1 }
    {
        match &wanted.want {
            Want::Ram(request) if granted => (Turn::Done(0), stored_at(request, spot)),
            Want::Outward(request) if is_done_at(spot, granted) => {
                let address = request.address;
                let word = self
                    .word_for(world, seen, wanted.master, address, spot)
                    .unwrap_or(0);
                let told = if is_late(rival, wanted.master, spot) {
                    0
                } else {
                    word
                };
                (
                    Turn::Done(told),
                    self.deed_at(world, seen, wanted.master, request, spot, word),
                )
            }
            Want::Ram(_) | Want::Outward(_) => (Turn::Wait, Deed::Nothing),
            Want::Signal => (Turn::Nothing, Deed::Signal),
            Want::Nothing | Want::Stopped(_) => (Turn::Nothing, Deed::Nothing),
        }
    }
}
