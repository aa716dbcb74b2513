//! The ring of snapshots.

use crate::pages::{set_to, store};
use crate::snapshot::{Snapshot, find, first_numbers, is_among, nearest_of, snapshots_for};
use rp_machine::Machine;
use std::alloc::{AllocError, Global};
use std::marker::Model;

/// How many snapshots there is room for.
const SNAPSHOTS: usize = 64;

/// How many pages there is room for: all those of each snapshot.
const ROOM: usize = 64 * 264;

/// How many cycles two snapshots of a whole run are apart at least.
const LEAST_SPACING: u64 = 4096;

/// The snapshots of one run, or of one stretch of it. The pages of SRAM that a snapshot has in common with the one before it are
/// stored once. All memory is taken by `new` and `near`.
#[derive(Drop)]
pub struct Ring {
    /// How many cycles apart the snapshots are.
    spacing: u64,
    /// The first cycle of which one may be kept.
    origin: u64,
    /// Those from `free` on are kept, the last one first.
    snapshots: Vec<Snapshot>,
    /// How many of them are free.
    free: usize,
    /// The stored pages, in the order in which they came.
    pages: Vec<[u32; 256]>,
}

impl Model for Ring {
    ghost use Rattle.std.specs.Prelude.{◌≤◌, drop, vec_capacity};
    ghost use Rattle.snap_ring.specs.Ring.{Snapshots};
    ghost use Rattle.snap_ring.specs.Snapshot.{states_in, AreSound};

    ghost Value = { Snapshots };

    ghost view = { λ r. record {
      spacing = r.spacing;
      origin = r.origin;
      kept = states_in r.pages.items (drop r.free r.snapshots.items);
    } };

    ghost invariant = { λ r. AreSound r.spacing r.origin r.free r.snapshots.items r.pages.items
        × (16896 ≤ vec_capacity r.pages) };
}

impl Ring {
    ghost use Rattle.std.specs.Prelude.{◌≡◌, ◌≤◌, ◌<◌, IfOk, []};
    ghost use Rattle.snap_ring.specs.Ring.{spacing_of, near_spacing, is_kept, is_within, is_due, kept_with, restarted, state_at, restored, IsNearest, stored_of};

    /// Room for 64 snapshots that are so many cycles apart, from cycle 0 on, and none kept.
    fn with_spacing(alloc: Global, machine: &Machine, spacing: u64) -> Result<Ring, AllocError>
        requires some { 0 < spacing }
        requires small { spacing ≤ 15625000 }
        ensures { IfOk result (λ ring. ring ≡ record { spacing = spacing; origin = 0; kept = [] }) }
    {
        Ok(Ring {
            spacing,
            origin: 0,
            snapshots: snapshots_for(alloc, machine, SNAPSHOTS)?,
            free: SNAPSHOTS,
            pages: Vec::with_capacity(alloc, ROOM)?,
        })
    }

    /// Room for 64 snapshots of a run up to a limit, and none kept.
    ///
    /// # Errors
    ///
    /// Want of memory.
    #[tactic(auto, using(crate::proofs::Keeping::spacing_is))]
    pub fn new(alloc: Global, machine: &Machine, limit: u64) -> Result<Ring, AllocError>
        requires { limit ≤ 1000000000 }
        ensures { IfOk result (λ ring. ring ≡ record { spacing = spacing_of limit; origin = 0; kept = [] }) }
    {
        let spacing = LEAST_SPACING.max(limit.div_ceil(SNAPSHOTS as u64));
        Ring::with_spacing(alloc, machine, spacing)
    }

    /// Room for 64 snapshots of one stretch between two snapshots of another ring, which are so many cycles apart; none is kept, and
    /// the stretch begins at cycle 0.
    ///
    /// # Errors
    ///
    /// Want of memory.
    #[tactic(auto, using(crate::proofs::Keeping::near_is))]
    pub fn near(alloc: Global, machine: &Machine, spacing: u64) -> Result<Ring, AllocError>
        requires { spacing ≤ 15625000 }
        ensures { IfOk result (λ ring. ring ≡ record { spacing = near_spacing spacing; origin = 0; kept = [] }) }
    {
        let fine = spacing.div_ceil(SNAPSHOTS as u64).max(1);
        Ring::with_spacing(alloc, machine, fine)
    }

    /// How many cycles apart the snapshots are.
    pub fn spacing(&self) -> u64
        ensures { result ≡ self.now.spacing }
    {
        self.spacing
    }

    /// The first cycle of which a snapshot may be kept.
    pub fn origin(&self) -> u64
        ensures { result ≡ self.now.origin }
    {
        self.origin
    }

    /// How many pages of SRAM are stored: all 264 for the first snapshot, and for each later one those that differ from the one
    /// that was kept before it.
    pub fn stored(&self) -> u32
        ensures { result ≡ stored_of self.now.kept }
    {
        self.pages.len() as u32
    }

    /// The cycle is within the stretch of which snapshots may be kept: from the origin on, fewer than 64 spacings from there.
    pub fn is_within(&self, cycle: u64) -> bool
        ensures { result ≡ is_within self.now.spacing self.now.origin cycle }
    {
        self.origin <= cycle && cycle - self.origin < SNAPSHOTS as u64 * self.spacing
    }

    /// A snapshot of this cycle is to be kept.
    fn is_due(&self, cycle: u64) -> bool
        ensures { result ≡ is_due self.now.spacing self.now.origin self.now.kept cycle }
    {
        self.is_within(cycle)
            && (cycle - self.origin) % self.spacing == 0
            && !is_among(&self.snapshots[self.free..], cycle)
    }

    /// Keeps the machine as it is. False exactly where its cycle is not within the stretch, or no multiple of the spacing from its
    /// origin, or is kept; nothing is changed then. It takes no memory.
    pub fn keep(&mut self, machine: &Machine) -> bool
        ensures answer { result ≡ is_due self.old.spacing self.old.origin self.old.kept machine.now.cycle }
        ensures kept { self.new ≡ kept_with machine.now self.old }
    {
        if !self.is_due(machine.number()) {
            return false;
        }
        let in_force = first_numbers(&self.snapshots[self.free..]);
        let numbers = store(&mut self.pages, &machine.ram, in_force);
        self.free -= 1;
        self.snapshots[self.free].set(machine, numbers);
        true
    }

    /// Begins the stretch at another cycle, and keeps nothing of what was kept. It takes no memory.
    pub fn restart(&mut self, origin: u64)
        ensures { self.new ≡ restarted origin self.old }
    {
        self.origin = origin;
        self.free = SNAPSHOTS;
        self.pages.clear();
    }

    /// The greatest kept cycle that is not above this one. None exactly where there is none.
    pub fn nearest(&self, cycle: u64) -> Option<u64>
        ensures { IsNearest cycle self.now.kept result }
    {
        nearest_of(&self.snapshots[self.free..], cycle)
    }

    /// Sets a machine to the snapshot of this cycle. False exactly where none is kept; the machine is not changed then. It takes
    /// no memory.
    pub fn restore(&self, cycle: u64, machine: &mut Machine) -> bool
        ensures answer { result ≡ is_kept cycle self.now.kept }
        ensures machine { machine.new ≡ restored (state_at cycle self.now.kept) machine.old }
    {
        match find(&self.snapshots[self.free..], cycle) {
            Some(snapshot) => {
                set_to(machine, &self.pages, snapshot);
                true
            }
            None => false,
        }
    }
}
