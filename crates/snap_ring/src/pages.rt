//! The stored pages.

ghost use Rattle.std.specs.Prelude.{◌≡◌, ◌<◌, ◌≤◌, ◌+◌, ◌∷◌, ◌++◌, [], take, length, vec_capacity, IfSome};
ghost use Rattle.std.specs.List.{AllByRecursion};
ghost use Rattle.ram_banks.specs.Pages.{page_of};
ghost use Rattle.snap_ring.specs.Snapshot.{page_at, sram_of, IsPage, AreStored, number_in, pages_with, stored_anew, state_in};

use crate::snapshot::Snapshot;
use ram_banks::{PAGES, Ram};
use rp_machine::Machine;

/// SRAM has all its words.
fn fact_is_whole(ram: &Ram)
    ensures { length ram.now ≡ 67584 }
{
    let _ = ram.read(0);
}

/// Stores a page of SRAM, and gives its number.
fn add_page(pages: &mut Vec<[u32; 256]>, ram: &Ram, page: u32) -> u32
    requires page { page < 264 }
    requires room { length pages.old.items < vec_capacity pages.old }
    requires small { length pages.old.items < 16896 }
    ensures items { pages.new.items ≡ pages.old.items ++ page_of page ram.now ∷ [] }
    ensures room { vec_capacity pages.old ≤ vec_capacity pages.new }
    ensures number { result ≡ length pages.old.items }
{
    let number = pages.len() as u32;
    let mut words = [0; 256];
    ram.page_into(page, &mut words);
    let _ = pages.push(words);
    number
}

/// The number of a stored page with the words of a page of SRAM: the one in force where it has them, else a new one.
fn number_of(pages: &mut Vec<[u32; 256]>, ram: &Ram, page: u32, in_force: Option<u32>) -> u32
    requires page { page < 264 }
    requires room { length pages.old.items < vec_capacity pages.old }
    requires small { length pages.old.items < 16896 }
    requires stored { IfSome in_force (λ n. n < length pages.old.items) }
    ensures items { pages.new.items ≡ pages_with pages.old.items in_force (page_of page ram.now) }
    ensures room { vec_capacity pages.old ≤ vec_capacity pages.new }
    ensures stored { result < length pages.new.items }
    ensures words { page_at pages.new.items result ≡ page_of page ram.now }
{
    match in_force {
        Some(number) => {
            if ram.page_same(page, &pages[number as usize]) {
                number
            } else {
                add_page(pages, ram, page)
            }
        }
        None => add_page(pages, ram, page),
    }
}

/// The number of a page in force.
fn number_in(in_force: &Option<[u32; 264]>, page: u32) -> Option<u32>
    requires { page < 264 }
    ensures { result ≡ number_in page in_force.now }
{
    match in_force {
        Some(numbers) => Some(numbers[page as usize]),
        None => None,
    }
}

/// Stores the pages of SRAM that are not those in force, and gives the numbers of all.
#[tactic(auto, using(crate::proofs::Storing::stored_anew_le))]
pub(crate) fn store(
    pages: &mut Vec<[u32; 256]>,
    ram: &Ram,
    in_force: Option<[u32; 264]>,
) -> [u32; 264]
    requires room { length pages.old.items + 264 ≤ vec_capacity pages.old }
    requires small { length pages.old.items + 264 ≤ 16896 }
    requires stored { IfSome in_force (AreStored (length pages.old.items)) }
    requires whole { AllByRecursion IsPage pages.old.items }
    ensures stays { take (length pages.old.items) pages.new.items ≡ pages.old.items }
    ensures room { vec_capacity pages.old ≤ vec_capacity pages.new }
    ensures whole { AllByRecursion IsPage pages.new.items }
    ensures stored { AreStored (length pages.new.items) result }
    ensures sram { sram_of pages.new.items result ≡ ram.now }
    ensures count { length pages.new.items
        ≡ length pages.old.items + stored_anew 264 pages.old.items in_force ram.now }
{
    fact_is_whole(ram);
    let mut numbers = [0; 264];
    for page in 0..PAGES {
        let before = number_in(&in_force, page);
        numbers[page as usize] = number_of(pages, ram, page, before);
    }
    numbers
}

/// Puts stored pages into SRAM.
fn load(pages: &[[u32; 256]], numbers: &[u32; 264], ram: &mut Ram)
    requires stored { AreStored (length pages.now) numbers.now }
    requires whole { AllByRecursion IsPage pages.now }
    ensures { ram.new ≡ sram_of pages.now numbers.now }
{
    for page in 0..PAGES {
        let number = numbers[page as usize] as usize;
        ram.page_from(page, &pages[number]);
    }
}

/// Sets a machine to a snapshot.
pub(crate) fn set_to(machine: &mut Machine, pages: &[[u32; 256]], snapshot: &Snapshot)
    requires stored { AreStored (length pages.now) snapshot.now.numbers }
    requires whole { AllByRecursion IsPage pages.now }
    ensures { machine.new ≡ state_in pages.now snapshot.now }
{
    machine.rest_from(&snapshot.rest);
    load(pages, &snapshot.numbers, &mut machine.ram);
}
