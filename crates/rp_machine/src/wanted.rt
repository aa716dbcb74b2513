//! What the masters of the bus fabric want in a cycle.

ghost use Rattle.std.specs.Prelude.{◌≡◌};
ghost use Rattle.m0_core.specs.Cycle.{want_of};
ghost use Rattle.rp_base.specs.Map.{IsWithin};
ghost use Rattle.rp_machine.specs.Alone.{is_first_alone};
ghost use Rattle.rp_machine.specs.Wantless.{is_nothing};
ghost use Rattle.rp_machine.specs.Cycle.{wanted};
ghost use Rattle.rp_machine.specs.Deeds.{spot_of};

use crate::begun::Begun;
use dma_engine::Dma;
use lane_look::{Lane, Want};
use m0_core::{Act, Core, Doing};
use rp_base::Master;
use rp_base::map::Spot;

/// A master, and what it wants in a cycle.
#[derive(Clone, Copy)]
pub struct Wanted {
    /// The master.
    pub master: Master,
    /// What it wants.
    pub want: Want,
}

/// The spot of the access to SRAM or outwards that a core names, as it was found when it began; outside where it names none.
#[inline(always)]
pub(crate) fn spot_begun(begun: &Doing) -> Spot
    ensures value { result ≡ spot_of (want_of begun.now) }
    ensures within { IsWithin result }
{
    match &begun.act {
        Act::Read(_, access, _) | Act::Write(_, access) | Act::Outward(_, access) => *access.spot(),
        Act::Asleep | Act::Stopped(_) | Act::Fault | Act::Inner(_) | Act::Private(..) => {
            Spot::Outside
        }
    }
}

/// The want is none.
#[inline(always)]
fn is_nothing(want: &Want) -> bool
    ensures { result ≡ is_nothing want.now }
{
    match want {
        Want::Nothing => true,
        Want::Ram(_) | Want::Outward(_) | Want::Signal | Want::Stopped(_) => false,
    }
}

/// No master behind core 0 wants anything in a cycle in which this was begun.
#[inline(always)]
#[tactic(auto, unfolding(crate::specs::Cycle::wanted))]
pub fn is_core0_first(begun: &Begun) -> bool
    ensures { result ≡ is_first_alone (wanted begun.now) }
{
    let [read, write] = <Dma as Lane<()>>::wants(&begun.dma);
    begun.core1.wants_nothing() && is_nothing(&read) && is_nothing(&write)
}

/// What the four masters want in a cycle in which this was begun, in their order.
#[inline(always)]
#[tactic(auto, unfolding(crate::specs::Cycle::wanted))]
pub fn all_wanted(begun: &Begun) -> [Wanted; 4]
    ensures { result ≡ wanted begun.now }
{
    let [core0, _] = <Core as Lane<()>>::wants(&begun.core0);
    let [core1, _] = <Core as Lane<()>>::wants(&begun.core1);
    let [read, write] = <Dma as Lane<()>>::wants(&begun.dma);
    [
        Wanted {
            master: Master::Core0,
            want: core0,
        },
        Wanted {
            master: Master::Core1,
            want: core1,
        },
        Wanted {
            master: Master::DmaRead,
            want: read,
        },
        Wanted {
            master: Master::DmaWrite,
            want: write,
        },
    ]
}
