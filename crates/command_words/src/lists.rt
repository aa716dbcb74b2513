//! The lists among the words: items joined by a mark, no two of which clash.

ghost use Rattle.std.specs.Prelude.{◌≡◌, ◌<◌, ℕ, Bool, nat_eq, List, map, Option, IfOk};
ghost use Rattle.std.specs.List.{list_any};
ghost use Rattle.std.specs.Option.{option_map};
ghost use Rattle.board_parts.specs.Wiring.{Wired, wired_in};
ghost use Rattle.board_parts.specs.declared.target.Target.{Target};
ghost use Rattle.command_words.specs.Lists.{pieces, items_of, Entry, entry_of, share_machine, target_of, share_probe, wiring_of, share_part};
ghost use Rattle.command_words.specs.Numbers.{number_within};
ghost use Rattle.command_words.specs.Read.{Reads, entry_in};

use crate::options::{number_below, number_within};
use crate::reading::{PioEntry, WordsFault};
use board_parts::target::Target;
use board_parts::wiring::Wiring;
use std::alloc::{AllocError, Global};

/// The pieces of a text between its `mark`s, an ASCII character.
fn pieces(alloc: Global, mark: char, text: &str) -> Result<Vec<&str>, AllocError>
    requires { mark < 128 }
    ensures { IfOk result (λ found. map (λ piece. piece.now) found.items ≡ pieces mark text.now) }
{
    text.split(mark).collect(alloc)
}

/// An item of a list, which is read where some things are handed in.
pub trait Item<A>: Drop {
    // What it stands for, how that is read, and whether two may not stand in one list.
    ghost Meaning: { Type 0 };

    ghost meaning: { Self → Meaning };

    ghost item_of: { A → List ℕ → Option Meaning };

    ghost clash: { Meaning → Meaning → Bool };

    /// Reads one.
    fn read(alloc: Global, handed: A, text: &str) -> Result<Self, WordsFault>
        ensures { Reads meaning (item_of handed text.now) result };

    /// Whether two may not stand in one list.
    fn clashes(&self, other: &Self) -> bool
        ensures { result ≡ clash (meaning self.now) (meaning other.now) };
}

/// Whether an item clashes with one of these.
fn is_taken<A, T: Item<A>>(item: &T, items: &[T]) -> bool
    ensures { result ≡ list_any (T.clash (T.meaning item.now)) (map T.meaning items.now) }
{
    for other in items {
        if item.clashes(other) {
            return true;
        }
    }
    false
}

/// The items of a list with an ASCII character as its mark; none where it is not given.
#[tactic(auto, unfolding(crate::specs::Lists::items_of))]
pub fn items_in<A: Copy, T: Item<A>>(
    alloc: Global,
    handed: A,
    mark: char,
    list: Option<&str>,
) -> Result<Vec<T>, WordsFault>
    requires { mark < 128 }
    ensures { Reads (λ found. map T.meaning found.items)
        (items_of (T.item_of handed) T.clash mark (option_map (λ text. text.now) list.entry)) result }
{
    let mut items = Vec::new(alloc);
    let Some(list) = list else {
        return Ok(items);
    };
    for text in &pieces(alloc, mark, list)? {
        let item = T::read(alloc, handed, text)?;
        if is_taken(&item, &items) {
            return Err(WordsFault::Words);
        }
        items.push(item)?;
    }
    Ok(items)
}

/// `B:M:FILE`.
impl Item<()> for PioEntry {
    ghost Meaning = { Entry };

    ghost meaning = { entry_in };

    ghost item_of = { λ _. entry_of };

    ghost clash = { share_machine };

    #[tactic(auto, unfolding(crate::specs::Lists::entry_of))]
    fn read(alloc: Global, _handed: (), text: &str) -> Result<PioEntry, WordsFault> {
        let (block, rest) = text.split_once(':').ok_or(WordsFault::Words)?;
        let (machine, file) = rest.split_once(':').ok_or(WordsFault::Words)?;
        let block = number_within(0, 1, block).ok_or(WordsFault::Words)?;
        let machine = number_within(0, 3, machine).ok_or(WordsFault::Words)?;
        Ok(PioEntry {
            block: block as u8,
            machine: machine as u8,
            file: String::from_str(alloc, file)?,
        })
    }

    fn clashes(&self, other: &PioEntry) -> bool {
        self.block == other.block && self.machine == other.machine
    }
}

/// `I=PIN`, where so many probes are handed in.
impl Item<usize> for Target {
    ghost Meaning = { Target };

    ghost meaning = { λ target. target };

    ghost item_of = { target_of };

    ghost clash = { share_probe };

    #[tactic(auto, unfolding(crate::specs::Lists::target_of))]
    fn read(_alloc: Global, probes: usize, text: &str) -> Result<Target, WordsFault> {
        let (index, pin) = text.split_once('=').ok_or(WordsFault::Words)?;
        let index = number_below(probes, index).ok_or(WordsFault::Words)?;
        let pin = number_within(0, 29, pin).ok_or(WordsFault::Words)? as u8;
        Ok(Target { index, pin })
    }

    fn clashes(&self, other: &Target) -> bool {
        self.index == other.index
    }
}

/// A pin, 0 to 29.
impl Item<()> for u8 {
    ghost Meaning = { ℕ };

    ghost meaning = { λ pin. pin };

    ghost item_of = { λ _. number_within 0 29 };

    ghost clash = { nat_eq };

    fn read(_alloc: Global, _handed: (), text: &str) -> Result<u8, WordsFault> {
        Ok(number_within(0, 29, text).ok_or(WordsFault::Words)? as u8)
    }

    fn clashes(&self, other: &u8) -> bool {
        *self == *other
    }
}

/// `I=PINS`, where parts with so many pins are handed in.
impl<'a> Item<&'a [usize]> for Wiring {
    ghost Meaning = { Wired };

    ghost meaning = { wired_in };

    ghost item_of = { λ parts. wiring_of parts.now };

    ghost clash = { share_part };

    #[tactic(auto, unfolding(crate::specs::Lists::wiring_of), using(crate::proofs::Ids::ids))]
    fn read(alloc: Global, parts: &'a [usize], text: &str) -> Result<Wiring, WordsFault> {
        let (index, pins) = text.split_once('=').ok_or(WordsFault::Words)?;
        let index = number_below(parts.len(), index).ok_or(WordsFault::Words)?;
        let pins = items_in(alloc, (), '+', Some(pins))?;
        if pins.len() != parts[index as usize] {
            return Err(WordsFault::Words);
        }
        Ok(Wiring { index, pins })
    }

    fn clashes(&self, other: &Wiring) -> bool
        ensures { result ≡ share_part (wired_in self.now) (wired_in other.now) }
    {
        self.index == other.index
    }
}
