//! What a window writes to SRAM: each word as it was before the window, and the words that each lane wrote.

ghost use Rattle.std.specs.Prelude.{◌≡◌, ◌<◌, ◌≤◌, length};
ghost use Rattle.rp_machine.specs.Stores.{StoresInSram};
ghost use Rattle.window_merge.specs.Notes.{first_of, write_of, original_word};

use crate::patch::{last_of, with_lanes};
use lane_look::Want;
use ram_banks::Ram;
use rp_base::access::{lanes_at, replicated};
use rp_base::map::{Spot, place};
use rp_machine::deed::Deed;
use rp_machine::wanted::Wanted;
use std::alloc::{AllocError, Global};
use std::marker::Model;

/// How many words a list has room for: four writes in each of 256 cycles.
const ROOM: usize = 1024;

/// Words of SRAM by their index, in the order in which they were noted.
#[derive(Drop)]
pub(crate) struct Noted {
    list: Vec<(u32, u32)>,
}

impl Model for Noted {
    ghost use Rattle.std.specs.Prelude.{ℕ, List, ◌≤◌, length};
    ghost use Rattle.std.specs.Vec.{vec_capacity};

    ghost Value = { List (ℕ × ℕ) };

    ghost view = { λ n. n.list.items };

    ghost invariant = { λ n. (1024 ≤ vec_capacity n.list) × (length n.list.items ≤ 1024) };
}

impl Noted {
    ghost use Rattle.std.specs.Prelude.{◌≡◌, ◌<◌, [], length, IfOk};
    ghost use Rattle.window_merge.specs.Notes.{first_of, last_of, is_none, with_word};

    /// None, and room for all of them.
    fn new(alloc: Global) -> Result<Noted, AllocError>
        ensures { IfOk result (λ noted. noted ≡ []) }
    {
        let list = Vec::with_capacity(alloc, ROOM)?;
        Ok(Noted { list })
    }

    /// The first word of an index; else this word.
    #[inline(always)]
    fn first(&self, index: u32, word: u32) -> u32
        ensures { result ≡ first_of self.now index word }
    {
        first_of(&self.list, index, word)
    }

    /// The last word of an index; else this word.
    #[inline(always)]
    fn last(&self, index: u32, word: u32) -> u32
        ensures { result ≡ last_of self.now index word }
    {
        last_of(&self.list, index, word)
    }

    /// There is none.
    #[inline(always)]
    pub(crate) fn is_empty(&self) -> bool
        ensures { result ≡ is_none self.now }
    {
        self.list.is_empty()
    }

    /// Takes all words away.
    fn clear(&mut self)
        ensures { self.new ≡ [] }
    {
        self.list.clear();
    }

    /// Adds a word at the end, if there is one.
    #[inline(always)]
    fn add(&mut self, word: Option<(u32, u32)>)
        requires { length self.old < ROOM }
        ensures { self.new ≡ with_word word self.old }
    {
        if let Some(word) = word {
            self.list.push_reserved(word);
        }
    }
}

/// The first word of an index; else this word.
fn first_of(words: &[(u32, u32)], index: u32, word: u32) -> u32
    ensures { result ≡ first_of words.now index word }
{
    for noted in words {
        let (at, first) = *noted;
        if at == index {
            return first;
        }
    }
    word
}

/// The write to SRAM of a want, if it is one.
#[inline(always)]
fn write_of(want: &Want) -> Deed
    ensures value { result ≡ write_of want.now }
    ensures within { StoresInSram result }
{
    if let Want::Ram(request) = want {
        if let Some(value) = request.write {
            if let Spot::Ram { index, .. } = place(request.address) {
                return Deed::Store {
                    index,
                    lanes: lanes_at(request.size, request.address),
                    value: replicated(request.size, value),
                };
            }
        }
    }
    Deed::Nothing
}

/// The word that is written, as it is now.
#[inline(always)]
fn original_word(ram: &Ram, deed: &Deed) -> Option<(u32, u32)>
    requires { StoresInSram deed.now }
    ensures { result ≡ original_word ram.now deed.now }
{
    match *deed {
        Deed::Store { index, .. } => Some((index, ram.read(index))),
        _ => None,
    }
}

/// The notes of a window.
#[derive(Drop)]
pub struct Notes {
    /// The words that were written, as they were before.
    pub(crate) originals: Noted,
    /// What core 0 wrote.
    pub(crate) core0: Noted,
    /// What core 1 wrote.
    pub(crate) core1: Noted,
    /// What the DMA engine wrote.
    pub(crate) dma: Noted,
}

impl Notes {
    ghost use Rattle.std.specs.Prelude.{◌≡◌, IfOk};
    ghost use Rattle.rp_machine.specs.Stores.{StoresInSram};
    ghost use Rattle.lane_look.specs.declared.lane.Want.TheVariants as want;
    ghost use Rattle.window_merge.specs.Notes.{last_of, own_of, is_clean, seen_of, write_of, original_word, own_word, with_word, no_notes, noted, noted_by, HasRoom};

    /// None, and room for those of 256 cycles.
    pub(crate) fn new(alloc: Global) -> Result<Notes, AllocError>
        ensures { IfOk result (λ notes. notes ≡ no_notes) }
    {
        Ok(Notes {
            originals: Noted::new(alloc)?,
            core0: Noted::new(alloc)?,
            core1: Noted::new(alloc)?,
            dma: Noted::new(alloc)?,
        })
    }

    /// Takes all notes away.
    pub(crate) fn clear(&mut self)
        ensures { self.new ≡ no_notes }
    {
        self.originals.clear();
        self.core0.clear();
        self.core1.clear();
        self.dma.clear();
    }

    /// The last word of an index that a lane of that number wrote; else this word.
    #[inline(always)]
    fn own(&self, lane: u8, index: u32, word: u32) -> u32
        ensures { result ≡ last_of (own_of lane self.now) index word }
    {
        match lane {
            0 => self.core0.last(index, word),
            1 => self.core1.last(index, word),
            2 => self.dma.last(index, word),
            _ => word,
        }
    }

    /// No other lane wrote.
    #[inline(always)]
    pub(crate) fn is_clean(&self, lane: u8) -> bool
        ensures { result ≡ is_clean lane self.now }
    {
        (lane == 0 || self.core0.is_empty())
            && (lane == 1 || self.core1.is_empty())
            && (lane == 2 || self.dma.is_empty())
    }

    /// The word of an index, as a lane of that number sees it.
    #[inline(always)]
    pub(crate) fn seen(&self, ram: &Ram, lane: u8, index: u32) -> u32
        requires { index < 67584 }
        ensures { result ≡ seen_of lane self.now ram.now index }
    {
        let word = ram.read(index);
        if self.is_clean(lane) {
            return word;
        }
        self.own(lane, index, self.originals.first(index, word))
    }

    /// The word of a write as a lane of that number leaves it.
    #[inline(always)]
    fn own_word(&self, ram: &Ram, lane: u8, deed: &Deed) -> Option<(u32, u32)>
        requires { StoresInSram deed.now }
        ensures { result ≡ own_word (seen_of lane self.now ram.now) deed.now }
    {
        match *deed {
            Deed::Store {
                index,
                lanes,
                value,
            } => {
                let word = self.seen(ram, lane, index);
                Some((index, with_lanes(lanes, value, word)))
            }
            _ => None,
        }
    }

    /// The word of SRAM that a want of core 0 writes, if it writes one, as it is and as core 0 leaves it.
    #[inline(always)]
    pub(crate) fn words_of_core0(
        &self,
        ram: &Ram,
        want: &Want,
    ) -> (Option<(u32, u32)>, Option<(u32, u32)>)
        ensures original { result.0 ≡ original_word ram.now (write_of want.now) }
        ensures own { result.1 ≡ own_word (seen_of 0 self.now ram.now) (write_of want.now) }
    {
        let write = write_of(want);
        (original_word(ram, &write), self.own_word(ram, 0, &write))
    }

    /// Notes such words.
    #[inline(always)]
    pub(crate) fn add_core0(&mut self, original: Option<(u32, u32)>, own: Option<(u32, u32)>)
        requires { HasRoom self.old 3 }
        ensures { self.new ≡ record self.old {
          originals = with_word original self.old.originals;
          core0 = with_word own self.old.core0;
        } }
    {
        self.originals.add(original);
        self.core0.add(own);
    }

    /// Notes what the masters write in a cycle, before they do. A read of the DMA engine writes nothing.
    #[inline(always)]
    pub(crate) fn note(&mut self, ram: &Ram, wants: &[Wanted; 4])
        requires { HasRoom self.old 3 }
        ensures { self.new ≡ noted_by wants.now ram.now self.old }
    {
        let [core0, core1, _, write] = wants;
        let core0 = write_of(&core0.want);
        let core1 = write_of(&core1.want);
        let write = write_of(&write.want);
        let word0 = self.own_word(ram, 0, &core0);
        let word1 = self.own_word(ram, 1, &core1);
        let word2 = self.own_word(ram, 2, &write);
        self.originals.add(original_word(ram, &core0));
        self.originals.add(original_word(ram, &core1));
        self.originals.add(original_word(ram, &write));
        self.core0.add(word0);
        self.core1.add(word1);
        self.dma.add(word2);
    }
}
