//! The six banks of SRAM as one list of 67,584 words (RP2040 Datasheet, 2.6.2 "SRAM").
#![tactic(auto)]

ghost use Rattle.std.specs.Prelude.{◌≡◌, ◌<◌, ◌^◌, length, vec_len, IfOk};
ghost use Rattle.ram_banks.specs.Lanes.{lane_byte, with_lanes};
ghost use Rattle.ram_banks.specs.Sram.{zeros};

pub mod laws;

use std::alloc::{AllocError, Global};
use std::marker::Model;

/// How many words SRAM has.
pub const WORDS: usize = 67584;

/// How many words a page has.
pub const PAGE_WORDS: usize = 256;

/// How many pages SRAM has.
pub const PAGES: u32 = 264;

/// The lanes of a whole word.
const ALL_LANES: u8 = 0xf;

/// The words of SRAM, which contracts see as a list of 67,584 numbers.
#[derive(Drop)]
pub struct Ram {
    words: Vec<u32>,
}

impl Model for Ram {
    ghost use Rattle.std.specs.Prelude.{◌≡◌, ℕ, List, length};

    ghost Value = { List ℕ };

    ghost view = { λ ram. ram.words.items };

    ghost invariant = { λ ram. length ram.words.items ≡ 67584 };
}

impl Ram {
    ghost use Rattle.std.specs.Prelude.{◌≡◌, ◌<◌, length, slice_index, vec_len, IfOk};
    ghost use Rattle.std.specs.Bool.{Decides};
    ghost use Rattle.ram_banks.specs.Sram.{zeros, written};
    ghost use Rattle.ram_banks.specs.Pages.{page_of, with_page};

    /// All words are 0.
    pub fn new(alloc: Global) -> Result<Ram, AllocError>
        ensures value { IfOk result (λ ram. ram ≡ zeros WORDS) }
        ensures size { IfOk result (λ ram. length ram ≡ WORDS) }
    {
        Ok(Ram {
            words: words_of_zero(alloc, WORDS)?,
        })
    }

    /// The words by their index.
    pub fn from_words(words: Vec<u32>) -> Ram
        requires { vec_len words ≡ WORDS }
        ensures value { result ≡ words.items }
        ensures size { length result ≡ WORDS }
    {
        Ram { words }
    }

    /// The word of an index.
    #[inline(always)]
    pub fn read(&self, index: u32) -> u32
        requires { index < WORDS }
        ensures value { result ≡ slice_index self.now index }
        ensures size { length self.now ≡ WORDS }
    {
        self.words[index as usize]
    }

    /// Writes some byte lanes of the word of an index: where bit k of `lanes` is set, byte k of the word becomes byte k of
    /// `value`, byte 0 being the least significant. Bits 7:4 of `lanes` do not matter.
    pub fn write(&mut self, index: u32, lanes: u8, value: u32)
        requires { index < WORDS }
        ensures value { self.new ≡ written self.old index lanes value }
        ensures size { length self.new ≡ WORDS }
    {
        let at = index as usize;
        self.words[at] = with_lanes(lanes, value, self.words[at]);
    }

    /// Takes the words of another one.
    pub fn copy_from(&mut self, other: &Ram)
        ensures value { self.new ≡ other.now }
        ensures size { length self.new ≡ WORDS }
    {
        self.words.copy_from_slice(&other.words);
    }

    /// The words of a page are these.
    pub fn page_same(&self, page: u32, words: &[u32; 256]) -> bool
        requires { page < PAGES }
        ensures { Decides result (page_of page self.now ≡ words.now) }
    {
        let first = page as usize * PAGE_WORDS;
        self.words[first..first + PAGE_WORDS] == words[..]
    }

    /// Takes the words of a page out into `words`.
    pub fn page_into(&self, page: u32, words: &mut [u32; 256])
        requires { page < PAGES }
        ensures { words.new ≡ page_of page self.now }
    {
        let first = page as usize * PAGE_WORDS;
        words.copy_from_slice(&self.words[first..first + PAGE_WORDS]);
    }

    /// Puts words in the place of a page; no other page changes.
    pub fn page_from(&mut self, page: u32, words: &[u32; 256])
        requires { page < PAGES }
        ensures value { self.new ≡ with_page page words.now self.old }
        ensures size { length self.new ≡ WORDS }
    {
        let first = page as usize * PAGE_WORDS;
        self.words[first..first + PAGE_WORDS].copy_from_slice(words);
    }
}

/// So many words of 0.
#[tactic(auto, unfolding(crate::specs::Sram::zeros))]
fn words_of_zero(alloc: Global, count: usize) -> Result<Vec<u32>, AllocError>
    ensures value { IfOk result (λ words. words.items ≡ zeros count) }
    ensures size { IfOk result (λ words. vec_len words ≡ count) }
{
    vec![in alloc; 0; count]
}

/// The word that a write of some byte lanes leaves.
#[tactic(auto, unfolding(crate::specs::Lanes::with_lanes))]
fn with_lanes(lanes: u8, value: u32, word: u32) -> u32
    ensures { result ≡ with_lanes lanes value word }
{
    if lanes & ALL_LANES == ALL_LANES {
        return value;
    }
    lane_byte(lanes, value, word, 3) * 0x100_0000
        + lane_byte(lanes, value, word, 2) * 0x1_0000
        + lane_byte(lanes, value, word, 1) * 0x100
        + lane_byte(lanes, value, word, 0)
}

/// The byte that a write leaves in a lane.
fn lane_byte(lanes: u8, value: u32, word: u32, lane: u8) -> u32
    requires { lane < 4 }
    ensures value { result ≡ lane_byte lanes value word lane }
    ensures byte { result < 2 ^ 8 }
{
    let source = if (lanes >> lane) & 1 == 1 {
        value
    } else {
        word
    };
    (source >> (8 * lane)) & 0xff
}
