//! The beats of an instruction one by one, without a list of them.

ghost use Rattle.std.specs.Prelude.{◌≡◌, ◌∷◌, ◌≤◌, ◌+◌, ◌*◌, ◌%◌, ◌^◌, slice_get};
ghost use Rattle.m0_beats.specs.Beats.{registers_of, reads, writes, single, access, inner, pop_end, pop_beats};
ghost use Rattle.m0_beats.specs.Instructions.{beats_of};
ghost use Rattle.m0_beats.specs.Shapes.{beats_of_shape};
ghost use Rattle.m0_beats.specs.declared.timing.Beat.TheVariants.{Inner};

use crate::effects::is_listed;
use crate::registers::Regs;
use crate::table::{Shape, shape_of};
use crate::timing::{Beat, access};
use rp_base::Size;
use rp_base::op::Op;

/// The beat at an index of the list that `beats` gives, 0 the first; `None` past the last. It takes the time of that beat
/// alone, for a core that goes through an instruction a cycle at a time.
pub fn beat_at(op: &Op, regs: &Regs, index: usize) -> Option<Beat>
    ensures { result ≡ slice_get (beats_of op.now regs.now) index }
{
    shape_beat(&shape_of(op, regs), regs, index)
}

/// The beat of a row of the table at an index, as `beat_at` has it.
#[inline(always)]
pub fn shape_beat(shape: &Shape, regs: &Regs, index: usize) -> Option<Beat>
    ensures { result ≡ slice_get (beats_of_shape shape.now regs.now) index }
{
    match *shape {
        Shape::Once => inner_at(1, index),
        Shape::Twice => inner_at(2, index),
        Shape::Thrice => inner_at(3, index),
        Shape::Single(address, size, write) => single_at(address, size, write, index),
        Shape::Reads(from, list) => read_at(from, list, index),
        Shape::Writes(from, list) => write_at(from, list, regs, index),
        Shape::Pop(list) => pop_at(list, regs, index),
    }
}

/// The beat at an index of so many inner beats.
fn inner_at(count: usize, index: usize) -> Option<Beat>
    ensures { result ≡ slice_get (inner count) index }
{
    if index < count {
        Some(Beat::Inner)
    } else {
        None
    }
}

/// The beat at an index of one load or store.
fn single_at(address: u32, size: Size, write: Option<u32>, index: usize) -> Option<Beat>
    ensures { result ≡ slice_get (single address (access address size write)) index }
{
    let beat = access(address, size, write);
    if address >> 28 == 0xd {
        match index {
            0 => Some(beat),
            _ => None,
        }
    } else {
        match index {
            0 => Some(Beat::Inner),
            1 => Some(beat),
            _ => None,
        }
    }
}

/// The register of a list at an index.
#[tactic(auto, using(crate::proofs::Lists::rest_start, crate::proofs::Lists::rest_end, crate::proofs::Lists::rest_listed, crate::proofs::Lists::rest_other, crate::proofs::OneBeat::register_next))]
fn register_at(list: u16, index: usize) -> Option<u8>
    ensures { result ≡ slice_get (registers_of list) index }
{
    let mut left = index;
    for k in 0..16 {
        if is_listed(list, k) {
            if left == 0 {
                return Some(k);
            }
            left -= 1;
        }
    }
    None
}

/// The beat at an index of the reads of the registers of a list, after an inner beat.
fn read_at(from: u32, list: u16, index: usize) -> Option<Beat>
    ensures { result ≡ slice_get (Inner ∷ reads from (registers_of list)) index }
{
    if index == 0 {
        Some(Beat::Inner)
    } else {
        one_read(from, list, index - 1)
    }
}

/// The beat at an index of the writes of the registers of a list, after an inner beat.
fn write_at(from: u32, list: u16, regs: &Regs, index: usize) -> Option<Beat>
    ensures { result ≡ slice_get (Inner ∷ writes from (registers_of list) regs.now) index }
{
    if index == 0 {
        Some(Beat::Inner)
    } else {
        one_write(from, list, regs, index - 1)
    }
}

/// One of the reads of the registers of a list.
#[tactic(auto, using(crate::proofs::OneBeat::access_some, crate::proofs::OneBeat::access_none))]
fn one_read(from: u32, list: u16, index: usize) -> Option<Beat>
    ensures { result ≡ slice_get (reads from (registers_of list)) index }
{
    match register_at(list, index) {
        Some(_) => Some(access(word_address(from, index), Size::Word, None)),
        None => None,
    }
}

/// One of the writes of the registers of a list.
#[tactic(auto, using(crate::proofs::OneBeat::access_some, crate::proofs::OneBeat::access_none))]
fn one_write(from: u32, list: u16, regs: &Regs, index: usize) -> Option<Beat>
    ensures { result ≡ slice_get (writes from (registers_of list) regs.now) index }
{
    match register_at(list, index) {
        Some(k) => Some(access(
            word_address(from, index),
            Size::Word,
            Some(regs.register(k)),
        )),
        None => None,
    }
}

/// The address of a word, so many words on.
fn word_address(from: u32, index: usize) -> u32
    ensures { result ≡ (from + 4 * index) % 2 ^ 32 }
{
    from.wrapping_add(4 * (index & 0x3fff_ffff) as u32)
}

/// The beat at an index of POP.
#[tactic(auto, using(crate::proofs::OneBeat::get_rest, crate::proofs::OneBeat::get_front, crate::proofs::OneBeat::get_back, crate::proofs::OneBeat::reads_count))]
fn pop_at(list: u16, regs: &Regs, index: usize) -> Option<Beat>
    ensures { result ≡ slice_get (pop_beats list regs.now) index }
{
    if index == 0 {
        Some(Beat::Inner)
    } else {
        let count = list.count_ones() as usize;
        if index <= count {
            one_read(regs.active_sp(), list, index - 1)
        } else {
            end_at(list, index - 1 - count)
        }
    }
}

/// The beat at an index after the reads of POP.
fn end_at(list: u16, index: usize) -> Option<Beat>
    ensures { result ≡ slice_get (pop_end list) index }
{
    if is_listed(list, 15) {
        inner_at(2, index)
    } else {
        None
    }
}
