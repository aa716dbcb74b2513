//! The beats of an instruction: how many cycles it takes and which accesses it makes.

ghost use Rattle.std.specs.Prelude.{◌≡◌, ◌≤◌, ◌++◌, ◌∷◌, [], ◌+◌, length};
ghost use Rattle.arrayvec.specs.ArrayVec.{array_vec_len};
ghost use Rattle.m0_beats.specs.Beats.{access, registers_of, reads, writes, single, inner, pop_beats};
ghost use Rattle.m0_beats.specs.Instructions.{beats_of};
ghost use Rattle.m0_beats.specs.Registers.{register_of};

use crate::effects::is_listed;
use crate::registers::Regs;
use crate::table::{Shape, shape_of};
use arrayvec::ArrayVec;
use rp_base::op::Op;
use rp_base::{Request, Size};

/// One step of an instruction.
#[derive(Clone, Copy, PartialEq, Eq, Default)]
pub enum Beat {
    /// One cycle inside the core.
    #[default]
    Inner,
    /// An access, which lasts until it is done.
    Access(Request),
}

/// The beats of an instruction, in order.
type Beats = ArrayVec<Beat, 32>;

/// The beats of the instruction at `regs.pc`, in order: how many cycles it takes inside the core, and which accesses it
/// makes. An access has the address as the instruction computes it, also an unaligned one.
pub fn beats(op: &Op, regs: &Regs) -> ArrayVec<Beat, 32>
    ensures { result.items ≡ beats_of op.now regs.now }
{
    match shape_of(op, regs) {
        Shape::Once => inner_once(),
        Shape::Twice => inner_twice(),
        Shape::Thrice => inner_thrice(),
        Shape::Single(address, size, write) => single(address, size, write),
        Shape::Reads(from, list) => {
            let mut out = inner_once();
            push_reads(&mut out, from, list);
            out
        }
        Shape::Writes(from, list) => {
            let mut out = inner_once();
            push_writes(&mut out, from, list, regs);
            out
        }
        Shape::Pop(list) => pop(list, regs),
    }
}

/// One inner beat.
fn inner_once() -> Beats
    ensures { result.items ≡ inner 1 }
{
    let mut out = ArrayVec::new();
    out.push(Beat::Inner);
    out
}

/// Two inner beats.
fn inner_twice() -> Beats
    ensures { result.items ≡ inner 2 }
{
    let mut out = inner_once();
    out.push(Beat::Inner);
    out
}

/// Three inner beats.
fn inner_thrice() -> Beats
    ensures { result.items ≡ inner 3 }
{
    let mut out = inner_twice();
    out.push(Beat::Inner);
    out
}

/// An access.
pub(crate) fn access(address: u32, size: Size, write: Option<u32>) -> Beat
    ensures { result ≡ access address size write }
{
    Beat::Access(Request {
        address,
        size,
        write,
    })
}

/// One load or store: the single-cycle port, at the addresses that begin with hexadecimal D, takes the inner beat away.
fn single(address: u32, size: Size, write: Option<u32>) -> Beats
    ensures { result.items ≡ single address (access address size write) }
{
    let mut out = ArrayVec::new();
    if address >> 28 != 0xd {
        out.push(Beat::Inner);
    }
    out.push(access(address, size, write));
    out
}

/// The reads of the registers of a list, upwards from an address.
#[tactic(auto, using(crate::proofs::Lists::rest_start, crate::proofs::Lists::rest_end, crate::proofs::Lists::rest_listed, crate::proofs::Lists::rest_other, std::proofs::Common::append_assoc, crate::proofs::Lists::append_nothing))]
fn push_reads(out: &mut Beats, from: u32, list: u16)
    requires { array_vec_len out.old ≤ 1 }
    ensures beats { out.new.items ≡ out.old.items ++ reads from (registers_of list) }
    ensures room { array_vec_len out.new ≤ 17 }
{
    let mut address = from;
    for k in 0..16 {
        if is_listed(list, k) {
            out.push(access(address, Size::Word, None));
            address = address.wrapping_add(4);
        }
    }
}

/// The writes of the registers of a list, upwards from an address.
#[tactic(auto, using(crate::proofs::Lists::rest_start, crate::proofs::Lists::rest_end, crate::proofs::Lists::rest_listed, crate::proofs::Lists::rest_other, std::proofs::Common::append_assoc, crate::proofs::Lists::append_nothing))]
fn push_writes(out: &mut Beats, from: u32, list: u16, regs: &Regs)
    requires { array_vec_len out.old ≤ 1 }
    ensures { out.new.items ≡ out.old.items ++ writes from (registers_of list) regs.now }
{
    let mut address = from;
    for k in 0..16 {
        if is_listed(list, k) {
            out.push(access(address, Size::Word, Some(regs.register(k))));
            address = address.wrapping_add(4);
        }
    }
}

/// POP.
fn pop(list: u16, regs: &Regs) -> Beats
    ensures { result.items ≡ pop_beats list regs.now }
{
    let mut out = inner_once();
    push_reads(&mut out, regs.active_sp(), list);
    if is_listed(list, 15) {
        out.push(Beat::Inner);
        out.push(Beat::Inner);
    }
    out
}
