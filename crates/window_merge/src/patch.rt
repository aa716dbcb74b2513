//! The words of SRAM that a lane wrote, where SRAM itself is only read.

ghost use Rattle.std.specs.Prelude.{◌≡◌, ◌<◌, ◌^◌};
ghost use Rattle.ram_banks.specs.Lanes.{lane_byte, with_lanes};
ghost use Rattle.window_merge.specs.Notes.{last_of};

use arrayvec::ArrayVec;
use lane_look::Want;
use ram_banks::Ram;
use rp_base::access::{lanes_at, replicated};
use rp_base::map::{Spot, place};
use std::marker::Model;

/// How many words there are at most: two in each of 256 cycles.
const ROOM: usize = 512;

/// Words of SRAM by their index, as they were written in turn.
#[derive(Drop)]
pub(crate) struct WordLog {
    list: ArrayVec<(u32, u32), 512>,
}

impl Model for WordLog {
    ghost use Rattle.std.specs.Prelude.{ℕ, List};

    ghost Value = { List (ℕ × ℕ) };

    ghost view = { λ w. w.list.items };
}

/// The byte that a write leaves in a lane.
fn lane_byte(lanes: u8, value: u32, word: u32, lane: u8) -> u32
    requires { lane < 4 }
    ensures value { result ≡ lane_byte lanes value word lane }
    ensures byte { result < 2 ^ 8 }
{
    let source = if (lanes >> lane) & 1 == 1 {
        value
    } else {
        word
    };
    (source >> (8 * lane)) & 0xff
}

/// The word that a write of some byte lanes leaves.
#[tactic(auto, unfolding(ram_banks::specs::Lanes::with_lanes))]
pub(crate) fn with_lanes(lanes: u8, value: u32, word: u32) -> u32
    ensures { result ≡ with_lanes lanes value word }
{
    lane_byte(lanes, value, word, 3) * 0x100_0000
        + lane_byte(lanes, value, word, 2) * 0x1_0000
        + lane_byte(lanes, value, word, 1) * 0x100
        + lane_byte(lanes, value, word, 0)
}

/// The last word of an index, looked for from the newest back; else this word.
#[tactic(auto, using(crate::proofs::Patching::found_back, crate::proofs::Patching::passed_back))]
pub(crate) fn last_of(words: &[(u32, u32)], index: u32, word: u32) -> u32
    ensures { result ≡ last_of words.now index word }
{
    let mut left = words.len();
    while left > 0 {
        left -= 1;
        let (at, last) = words[left];
        if at == index {
            return last;
        }
    }
    word
}

impl WordLog {
    ghost use Rattle.std.specs.Prelude.{◌≡◌, ◌+◌, ◌<◌, ◌≤◌, ◌++◌, ◌∷◌, [], length, slice_index};
    ghost use Rattle.ram_banks.specs.Sram.{written};
    ghost use Rattle.window_merge.specs.Notes.{last_of};
    ghost use Rattle.window_merge.specs.Patch.{patched, sram_after};

    /// None.
    pub(crate) fn new() -> WordLog
        ensures { result ≡ [] }
    {
        WordLog {
            list: ArrayVec::new(),
        }
    }

    /// Adds a word at the end.
    fn push(&mut self, index: u32, word: u32)
        requires { length self.old < ROOM }
        ensures { self.new ≡ self.old ++ (index, word) ∷ [] }
    {
        self.list.push((index, word));
    }

    /// The word of an index: the one that was written last, or else that of SRAM.
    #[tactic(auto, using(crate::proofs::Patching::read_last))]
    pub(crate) fn read(&self, ram: &Ram, index: u32) -> u32
        requires { index < 67584 }
        ensures { result ≡ slice_index (patched self.now ram.now) index }
    {
        last_of(self.list.as_slice(), index, ram.read(index))
    }

    /// Writes some byte lanes of a word.
    #[tactic(auto, using(crate::proofs::Patching::write_more))]
    fn write(&mut self, ram: &Ram, index: u32, lanes: u8, value: u32)
        requires index { index < 67584 }
        requires room { length self.old < ROOM }
        ensures value { patched self.new ram.now
            ≡ written (patched self.old ram.now) index lanes value }
        ensures few { length self.new ≤ length self.old + 1 }
    {
        let word = with_lanes(lanes, value, self.read(ram, index));
        self.push(index, word);
    }

    /// Does the access of a want, if it is one to SRAM.
    pub(crate) fn store(&mut self, ram: &Ram, want: &Want)
        requires { length self.old < ROOM }
        ensures stored { patched self.new ram.now ≡ sram_after want.now (patched self.old ram.now) }
        ensures few { length self.new ≤ length self.old + 1 }
    {
        if let Want::Ram(request) = want {
            if let Some(value) = request.write {
                if let Spot::Ram { index, .. } = place(request.address) {
                    let lanes = lanes_at(request.size, request.address);
                    self.write(ram, index, lanes, replicated(request.size, value));
                }
            }
        }
    }
}
