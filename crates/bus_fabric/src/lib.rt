//! The bus fabric: which of the masters' accesses are done in a cycle (RP2040 Datasheet, 2.1 "Bus Fabric").
#![tactic(auto)]

ghost use Rattle.std.specs.Prelude.{◌≡◌, ◌<◌, false};
ghost use Rattle.bus_fabric.specs.Masters.{number_of, distance, asks_on, access_of, HavePorts};
ghost use Rattle.bus_fabric.specs.Winners.{remembered};
ghost use Rattle.bus_fabric.specs.Grant.{beats, is_high, is_last, is_master, cycles_left, hold_of, kept_holder, shortened};

mod core0;
pub mod laws;
pub mod registers;
mod words;

use rp_base::Master;
use std::marker::Model;

/// The port of APB, the only one on which an access lasts longer than a cycle.
const APB: u8 = 6;

/// The bits of BUS_PRIORITY, one for each master.
const PRIORITIES: u32 = 0x1111;

/// An access that lasts: it holds its port.
#[derive(Clone, Copy)]
pub struct Hold {
    /// The master that waits for it; none where that does not ask for it any more.
    pub holder: Option<Master>,
    /// In how many cycles it ends, the last of them included.
    pub left: u8,
}

/// What the bus fabric keeps from cycle to cycle.
#[derive(Clone, Copy)]
pub struct Fabric {
    hold: Option<Hold>,
    priority: u32,
    /// Of each port the master that won it last.
    last: [Master; 8],
}

impl Model for Fabric {
    ghost use Rattle.bus_fabric.specs.State.{State};
    ghost use Rattle.std.specs.Prelude.{◌≡◌, length};

    ghost Value = { State };

    ghost view = { λ fabric. record {
      hold = fabric.hold;
      priority = fabric.priority;
      last = fabric.last;
    } };

    ghost inverse = { λ s. record { hold = s.hold; priority = s.priority; last = s.last } };

    ghost invariant = { λ fabric. length fabric.last ≡ 8 };
}

impl Fabric {
    ghost use Rattle.std.specs.Prelude.{◌≡◌, ◌<◌, map, length};
    ghost use Rattle.bus_fabric.specs.Masters.{masters, HavePorts};
    ghost use Rattle.bus_fabric.specs.State.{at_reset, has_hold, with_priority, with_last};
    ghost use Rattle.bus_fabric.specs.Grant.{is_free, is_served, is_done, done_of, hold_after, last_from, after_grant};
    ghost use Rattle.bus_fabric.specs.Winners.{wins_free, winner_free, loses_to, has_won};

    /// No hold, all masters of low priority, and each port as if it had served the DMA engine's writes last.
    pub fn new() -> Fabric
        ensures { result ≡ at_reset }
    {
        Fabric {
            hold: None,
            priority: 0,
            last: [Master::DmaWrite; 8],
        }
    }

    /// One cycle: takes for each master the port that it asks for, 0 to 7, and whether it writes, and tells whose access
    /// is done. The masters stand in the order core 0, core 1, DMA read, DMA write. A master whose access is not done
    /// asks for it again; one that does not leaves its hold to run out.
    pub fn grant(&mut self, asked: &[Option<(u8, bool)>; 4]) -> [bool; 4]
        requires { HavePorts asked.now }
        ensures done { result ≡ done_of asked.now self.old }
        ensures after { self.new ≡ after_grant asked.now self.old }
    {
        let won = [
            self.has_won(asked, Master::Core0),
            self.has_won(asked, Master::Core1),
            self.has_won(asked, Master::DmaRead),
            self.has_won(asked, Master::DmaWrite),
        ];
        let done = [
            self.is_done(asked, Master::Core0, won[0]),
            self.is_done(asked, Master::Core1, won[1]),
            self.is_done(asked, Master::DmaRead, won[2]),
            self.is_done(asked, Master::DmaWrite, won[3]),
        ];
        let last = self.last_after(asked, &won);
        self.hold = self.hold_after(asked);
        self.last = last;
        done
    }

    /// A port has a hold.
    #[inline(always)]
    pub fn holds(&self) -> bool
        ensures hold { result ≡ has_hold self.now }
        ensures ports { length self.now.last ≡ 8 }
    {
        self.hold.is_some()
    }

    /// A port, 0 to 7, remembers that it has served a master. Nothing else changes.
    pub fn served(&mut self, port: u8, master: Master)
        requires { port < 8 }
        ensures { self.new ≡ with_last port master self.old }
    {
        self.last[port as usize] = master;
    }

    /// BUS_PRIORITY.
    #[inline(always)]
    pub fn priority(&self) -> u32
        ensures { result ≡ self.now.priority }
    {
        self.priority
    }

    /// Sets BUS_PRIORITY: bit 0 core 0, bit 4 core 1, bit 8 the DMA engine's reads, bit 12 its writes; the other bits are
    /// not kept.
    pub fn set_priority(&mut self, bits: u32)
        ensures { self.new ≡ with_priority bits self.old }
    {
        self.priority = bits & PRIORITIES;
    }

    /// The access of a master is done in this cycle; `won` tells that it has won its port.
    #[inline(always)]
    fn is_done(&self, asked: &[Option<(u8, bool)>; 4], master: Master, won: bool) -> bool
        requires { won ≡ has_won asked.now self.now master }
        ensures { result ≡ is_done asked.now self.now master }
    {
        match asked[number(master)] {
            None => false,
            Some((APB, _)) => self.is_served(master),
            Some(_) => won,
        }
    }

    /// A master has won the port that it asks for.
    fn has_won(&self, asked: &[Option<(u8, bool)>; 4], master: Master) -> bool
        requires { HavePorts asked.now }
        ensures { result ≡ has_won asked.now self.now master }
    {
        match asked[number(master)] {
            None => false,
            Some((port, _)) => self.is_free(port) && self.wins(asked, port, master),
        }
    }

    /// A port has no hold.
    #[inline(always)]
    fn is_free(&self, port: u8) -> bool
        ensures { result ≡ is_free self.now.hold port }
    {
        port != APB || self.hold.is_none()
    }

    /// The hold ends with the access of a master.
    fn is_served(&self, master: Master) -> bool
        ensures { result ≡ is_served self.now.hold master }
    {
        match self.hold {
            Some(hold) => is_last(&hold) && is_master(master, hold.holder),
            None => false,
        }
    }

    /// A master asks for a port, and no other request on it beats its own.
    fn wins(&self, asked: &[Option<(u8, bool)>; 4], port: u8, master: Master) -> bool
        requires { port < 8 }
        ensures { result ≡ wins_free asked.now self.now port master }
    {
        let last = self.last[port as usize];
        asks_on(asked, port, master)
            && !self.loses(asked, port, last, master, Master::Core0)
            && !self.loses(asked, port, last, master, Master::Core1)
            && !self.loses(asked, port, last, master, Master::DmaRead)
            && !self.loses(asked, port, last, master, Master::DmaWrite)
    }

    /// A request on a port that won `last` beats that of a master.
    #[inline(always)]
    fn loses(
        &self,
        asked: &[Option<(u8, bool)>; 4],
        port: u8,
        last: Master,
        master: Master,
        other: Master,
    ) -> bool
        ensures { result ≡ loses_to asked.now self.now.priority port last master other }
    {
        asks_on(asked, port, other) && beats(self.priority, last, other, master)
    }

    /// The winner of a port that has no hold.
    fn winner(&self, asked: &[Option<(u8, bool)>; 4], port: u8) -> Option<Master>
        requires { port < 8 }
        ensures { result ≡ winner_free asked.now self.now port }
    {
        if self.wins(asked, port, Master::Core0) {
            Some(Master::Core0)
        } else if self.wins(asked, port, Master::Core1) {
            Some(Master::Core1)
        } else if self.wins(asked, port, Master::DmaRead) {
            Some(Master::DmaRead)
        } else if self.wins(asked, port, Master::DmaWrite) {
            Some(Master::DmaWrite)
        } else {
            None
        }
    }

    /// What the ports remember after a cycle; `won` tells of each master whether it has won its port.
    fn last_after(&self, asked: &[Option<(u8, bool)>; 4], won: &[bool; 4]) -> [Master; 8]
        requires ports { HavePorts asked.now }
        requires won { won.now ≡ map (has_won asked.now self.now) masters }
        ensures { result ≡ last_from asked.now self.now 0 self.now.last }
    {
        let mut last = self.last;
        remember(won[3], asked, Master::DmaWrite, &mut last);
        remember(won[2], asked, Master::DmaRead, &mut last);
        remember(won[1], asked, Master::Core1, &mut last);
        remember(won[0], asked, Master::Core0, &mut last);
        last
    }

    /// The hold after a cycle.
    fn hold_after(&self, asked: &[Option<(u8, bool)>; 4]) -> Option<Hold>
        ensures { result ≡ hold_after asked.now self.now self.now.hold }
    {
        match self.hold {
            None => hold_of(asked, self.winner(asked, APB)),
            Some(hold) if is_last(&hold) => None,
            Some(hold) => Some(shortened(asked, hold)),
        }
    }
}

/// The index of a master in their order.
#[inline(always)]
fn number(master: Master) -> usize
    ensures value { result ≡ number_of master }
    ensures four { result < 4 }
{
    match master {
        Master::Core0 => 0,
        Master::Core1 => 1,
        Master::DmaRead => 2,
        Master::DmaWrite => 3,
    }
}

/// The number from 1 to 4 of steps in the round of the masters from `last` to another one.
#[inline(always)]
fn distance(last: Master, master: Master) -> usize
    ensures { result ≡ distance last master }
{
    (number(master) + 3 - number(last)) % 4 + 1
}

/// The port that a master asks for remembers it where the master has won it.
#[inline(always)]
fn remember(won: bool, asked: &[Option<(u8, bool)>; 4], master: Master, last: &mut [Master; 8])
    requires { HavePorts asked.now }
    ensures { last.new ≡ remembered won (access_of asked.now master) master last.old }
{
    if let Some((port, _)) = asked[number(master)] {
        if won {
            last[port as usize] = master;
        }
    }
}

/// A master asks for an access on a port.
#[inline(always)]
fn asks_on(asked: &[Option<(u8, bool)>; 4], port: u8, master: Master) -> bool
    ensures { result ≡ asks_on asked.now port master }
{
    match asked[number(master)] {
        Some((asked, _)) => asked == port,
        None => false,
    }
}

/// A master's bit of BUS_PRIORITY.
#[inline(always)]
fn is_high(priority: u32, master: Master) -> bool
    ensures { result ≡ is_high priority master }
{
    (priority >> (4 * number(master))) & 1 == 1
}

/// Of two requests on one port, which `last` won last, the first beats the second.
#[inline(always)]
fn beats(priority: u32, last: Master, first: Master, second: Master) -> bool
    ensures { result ≡ beats (is_high priority) last first second }
{
    match (is_high(priority, first), is_high(priority, second)) {
        (true, false) => true,
        (false, true) => false,
        _ => distance(last, first) < distance(last, second),
    }
}

/// A hold is in its last cycle.
#[inline(always)]
fn is_last(hold: &Hold) -> bool
    ensures { result ≡ is_last hold.now }
{
    hold.left <= 1
}

/// A hold is for this master.
#[inline(always)]
fn is_master(master: Master, holder: Option<Master>) -> bool
    ensures { result ≡ is_master master holder }
{
    match holder {
        Some(other) => number(master) == number(other),
        None => false,
    }
}

/// The hold that the winner takes.
fn hold_of(asked: &[Option<(u8, bool)>; 4], winner: Option<Master>) -> Option<Hold>
    ensures { result ≡ hold_of asked.now winner }
{
    let master = winner?;
    Some(Hold {
        holder: Some(master),
        left: cycles_left(asked[number(master)]),
    })
}

/// The cycles that are left after the first one of an access.
fn cycles_left(access: Option<(u8, bool)>) -> u8
    ensures { result ≡ cycles_left access }
{
    match access {
        Some((_, true)) => 3,
        Some((_, false)) => 2,
        None => 0,
    }
}

/// A hold that goes on, with a cycle less.
fn shortened(asked: &[Option<(u8, bool)>; 4], hold: Hold) -> Hold
    requires { is_last hold ≡ false }
    ensures { result ≡ shortened (asks_on asked.now APB) hold }
{
    Hold {
        holder: hold.holder.filter(|master| asks_on(asked, APB, *master)),
        left: hold.left - 1,
    }
}
