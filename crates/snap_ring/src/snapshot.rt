//! One snapshot, as the ring holds it.

ghost use Rattle.std.specs.Prelude.{◌≡◌, IfOk, List, ℕ, vec_len};
ghost use Rattle.std.specs.Option.{option_copied};
ghost use Rattle.snap_ring.specs.Ring.{is_kept, greater_of, IsNearest};
ghost use Rattle.snap_ring.specs.Snapshot.{first_numbers, snapshot_at, states_in};

use rp_machine::{Machine, Rest};
use std::alloc::{AllocError, Global};

/// A machine without its SRAM, and the numbers of the stored pages of which its SRAM is made.
#[derive(Drop)]
pub struct Snapshot {
    pub rest: Rest,
    pub numbers: [u32; 264],
}

impl Snapshot {
    ghost use Rattle.std.specs.Prelude.{◌≡◌};
    ghost use Rattle.rp_machine.specs.Rest.{rest_of};

    /// Takes a machine, and the numbers of its pages.
    pub fn set(&mut self, machine: &Machine, numbers: [u32; 264])
        ensures { self.new ≡ record { rest = rest_of machine.now; numbers = numbers } }
    {
        machine.rest_into(&mut self.rest);
        self.numbers = numbers;
    }
}

/// So many snapshots.
pub fn snapshots_for(
    alloc: Global,
    machine: &Machine,
    count: usize,
) -> Result<Vec<Snapshot>, AllocError>
    ensures { IfOk result (λ snapshots. vec_len snapshots ≡ count) }
{
    let mut snapshots = Vec::with_capacity(alloc, count)?;
    for _ in 0..count {
        snapshots.push(Snapshot {
            rest: machine.rest(alloc)?,
            numbers: [0; 264],
        })?;
    }
    Ok(snapshots)
}

/// The snapshot of a cycle.
pub fn find(snapshots: &[Snapshot], cycle: u64) -> Option<&Snapshot>
    ensures { option_copied result ≡ snapshot_at cycle snapshots.now }
{
    for snapshot in snapshots {
        if snapshot.rest.number() == cycle {
            return Some(snapshot);
        }
    }
    None
}

/// A snapshot of this cycle is among these.
#[tactic(auto, using(crate::proofs::Finding::kept_at, crate::proofs::Finding::copied_some))]
pub fn is_among(snapshots: &[Snapshot], cycle: u64) -> bool
    ensures { (pages : List (List ℕ)) → result ≡ is_kept cycle (states_in pages snapshots.now) }
{
    find(snapshots, cycle).is_some()
}

/// The numbers of the pages of the first snapshot.
pub fn first_numbers(snapshots: &[Snapshot]) -> Option<[u32; 264]>
    ensures { result ≡ first_numbers snapshots.now }
{
    match snapshots.first() {
        Some(snapshot) => Some(snapshot.numbers),
        None => None,
    }
}

/// The greater of two cycles, of which each may be none.
pub fn greater_of(one: Option<u64>, other: Option<u64>) -> Option<u64>
    ensures { result ≡ greater_of one other }
{
    match (one, other) {
        (Some(one), Some(other)) => Some(one.max(other)),
        (None, _) => other,
        (_, None) => one,
    }
}

/// The greatest cycle of these snapshots that is not above this one. None exactly where there is none.
pub fn nearest_of(snapshots: &[Snapshot], cycle: u64) -> Option<u64>
    ensures { (pages : List (List ℕ)) → IsNearest cycle (states_in pages snapshots.now) result }
{
    let mut nearest = None;
    for snapshot in snapshots {
        let kept = snapshot.rest.number();
        if kept > cycle {
            continue;
        }
        nearest = greater_of(Some(kept), nearest);
    }
    nearest
}
