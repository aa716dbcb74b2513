//! What an instruction leaves in the registers and flags.

ghost use Rattle.std.specs.Prelude.{◌≡◌, slice_index};
ghost use Rattle.m0_beats.specs.Beats.{registers_of, bytes_of_list, push_address};
ghost use Rattle.m0_beats.specs.Actions.{value_of, sum_result, word_result, meaning_of_action};
ghost use Rattle.m0_beats.specs.Instructions.{effect_of};
ghost use Rattle.m0_beats.specs.Effects.{with_result, with_sum_flags, after_sum, after_word, after_shift, after_value, loaded, exchanged, exchanged_link, with_loaded, with_all_loaded, base_after, after_load_many, after_store_many, after_push, after_pop, link_value, branched, branched_if, branched_link, after_read_special, after_write_special, after_mask};
ghost use Rattle.m0_beats.specs.Registers.{register_of};
ghost use Rattle.rp_base.specs.Word.{has_bit};

use crate::conditions::is_exception_return;
use crate::registers::Regs;
use crate::rows::{Action, Operand, SumKind, WordKind, classify};
use m0_alu::{ExtendKind, add_carry, extend, multiply, shift};
use rp_base::Size;
use rp_base::op::Op;

/// What the instruction at `regs.pc` leaves in registers and flags. `read` has the values that its access beats read, in
/// their order, a narrow one zero-extended.
#[tactic(auto, unfolding(crate::specs::Instructions::effect_of))]
pub fn effect(op: &Op, regs: &mut Regs, read: &[u32])
    ensures { regs.new ≡ effect_of op.now regs.old read.now }
{
    let action = classify(op);
    carry_out(&action, regs, read);
}

/// What an action leaves.
fn carry_out(action: &Action, regs: &mut Regs, read: &[u32])
    ensures { regs.new ≡ (meaning_of_action action.now).effect regs.old read.now }
{
    match *action {
        Action::Shift(kind, d, m, by) => {
            let amount = (by.value(regs) & 0xff) as u8;
            regs.after_shift(d, shift(kind, regs.register(m), amount, regs.c));
        }
        Action::Sum(kind, d, x, y) => regs.after_sum(kind, d, x.value(regs), y.value(regs)),
        Action::Word(kind, d, x, y) => regs.after_word(
            d,
            word_result(kind, x.value(regs), y.value(regs)),
        ),
        Action::Extend(kind, d, m) => regs.after_value(d, extend(kind, regs.register(m))),
        Action::Move(d, m) => regs.after_value(d, regs.register(m)),
        Action::Total(d, x, y) => regs.after_value(d, x.value(regs).wrapping_add(y.value(regs))),
        Action::LowerSp(by) => regs.after_value(13, regs.active_sp().wrapping_sub(by)),
        Action::Load(t, size, signed, _, _) => regs.after_value(
            t,
            loaded(size, signed, value_at(read, 0)),
        ),
        Action::LoadMany(n, list) => regs.after_load_many(n, list, read),
        Action::StoreMany(n, list) => regs.after_store_many(n, list),
        Action::Push(list) => regs.after_push(list),
        Action::Pop(list) => regs.after_pop(list, read),
        Action::Branch(offset) => regs.branch(offset),
        Action::BranchIf(condition, offset) => regs.branch_if(condition, offset),
        Action::BranchLink(offset) => regs.branch_link(offset),
        Action::Exchange(m) => regs.exchange(regs.register(m)),
        Action::ExchangeLink(m) => regs.exchange_link(regs.register(m)),
        Action::ReadSpecial(d, s) => regs.after_read_special(d, s),
        Action::WriteSpecial(n, s) => regs.after_write_special(n, s),
        Action::Mask(set) => regs.after_mask(set),
        Action::Barrier => regs.move_on(4),
        Action::Store(..) | Action::Pause | Action::Nothing => regs.move_on(2),
        Action::Never => {}
    }
}

impl Operand {
    /// The word of the operand.
    pub fn value(&self, regs: &Regs) -> u32
        ensures { result ≡ value_of self.now (register_of regs.now) }
    {
        match *self {
            Operand::Register(k) => regs.register(k),
            Operand::Number(i) => i,
            Operand::AlignedPc => regs.read_pc() & !3,
        }
    }
}

impl Regs {
    /// The destination takes a result; a comparison has none.
    fn set_result(&mut self, d: Option<u8>, value: u32)
        ensures { self.new ≡ with_result self.old d value }
    {
        if let Some(d) = d {
            self.set_register(d, value);
        }
    }

    /// A sum, with its flags.
    fn after_sum(&mut self, kind: SumKind, d: Option<u8>, x: u32, y: u32)
        ensures { self.new ≡ after_sum d (sum_result kind x y self.old.c) self.old }
    {
        let (value, c, v) = sum_result(kind, x, y, self.c);
        self.move_on(2);
        self.set_sign(value);
        self.c = c;
        self.v = v;
        self.set_result(d, value);
    }

    /// A word that sets N and Z alone.
    fn after_word(&mut self, d: Option<u8>, value: u32)
        ensures { self.new ≡ after_word d value self.old }
    {
        self.move_on(2);
        self.set_sign(value);
        self.set_result(d, value);
    }

    /// A shift, with its carry.
    fn after_shift(&mut self, d: u8, out: (u32, bool))
        ensures { self.new ≡ after_shift d out self.old }
    {
        let (value, c) = out;
        self.move_on(2);
        self.set_sign(value);
        self.c = c;
        self.set_register(d, value);
    }

    /// A value that sets no flags.
    fn after_value(&mut self, d: u8, value: u32)
        ensures { self.new ≡ after_value d value self.old }
    {
        self.move_on(2);
        self.set_register(d, value);
    }

    /// BXWritePC: a branch with the new T in bit 0, but for an exception return.
    fn exchange(&mut self, value: u32)
        ensures { self.new ≡ exchanged self.old value }
    {
        if !is_exception_return(self.ipsr, value) {
            self.set_pc(value);
            self.t = value & 1 == 1;
        }
    }

    /// BLX: a branch with the new T in bit 0 and the return address in LR.
    fn exchange_link(&mut self, value: u32)
        ensures { self.new ≡ exchanged_link self.old value }
    {
        self.lr = self.link_value(2);
        self.set_pc(value);
        self.t = value & 1 == 1;
    }

    /// The address of the next instruction, this one having so many bytes, with bit 0 set.
    fn link_value(&self, bytes: u32) -> u32
        ensures { result ≡ link_value bytes self.now }
    {
        (self.pc.wrapping_add(bytes) & !1) + 1
    }

    /// A branch relative to PC.
    fn branch(&mut self, offset: u32)
        ensures { self.new ≡ branched offset self.old }
    {
        self.set_pc(self.read_pc().wrapping_add(offset));
    }

    /// B on a condition.
    fn branch_if(&mut self, condition: u8, offset: u32)
        ensures { self.new ≡ branched_if condition offset self.old }
    {
        if self.condition_holds(condition) {
            self.branch(offset);
        } else {
            self.move_on(2);
        }
    }

    /// BL.
    fn branch_link(&mut self, offset: u32)
        ensures { self.new ≡ branched_link offset self.old }
    {
        self.lr = self.link_value(4);
        self.branch(offset);
    }

    /// MRS.
    fn after_read_special(&mut self, d: u8, number: u8)
        ensures { self.new ≡ after_read_special d number self.old }
    {
        let value = self.special(number);
        self.move_on(4);
        self.set_register(d, value);
    }

    /// MSR.
    fn after_write_special(&mut self, n: u8, number: u8)
        ensures { self.new ≡ after_write_special n number self.old }
    {
        let value = self.register(n);
        self.move_on(4);
        self.set_special(number, value);
    }

    /// CPSID and CPSIE.
    fn after_mask(&mut self, set: bool)
        ensures { self.new ≡ after_mask set self.old }
    {
        self.move_on(2);
        self.primask = set;
    }

    /// A register of a list takes its word.
    fn load(&mut self, k: u8, value: u32)
        ensures { self.new ≡ with_loaded self.old k value }
    {
        if k == 15 {
            self.exchange(value);
        } else {
            self.set_register(k, value);
        }
    }

    /// The registers of a list take the values in turn.
    #[tactic(auto, using(crate::proofs::Lists::rest_start, crate::proofs::Lists::rest_end, crate::proofs::Lists::rest_listed, crate::proofs::Lists::rest_other))]
    fn load_all(&mut self, list: u16, read: &[u32])
        ensures { self.new ≡ with_all_loaded self.old (registers_of list) read.now 0 }
    {
        let mut index = 0;
        for k in 0..16 {
            if is_listed(list, k) {
                self.load(k, value_at(read, index));
                index += 1;
            }
        }
    }

    /// LDM.
    fn after_load_many(&mut self, n: u8, list: u16, read: &[u32])
        ensures { self.new ≡ after_load_many n list self.old read.now }
    {
        let base = self.register(n).wrapping_add(bytes_of_list(list));
        self.move_on(2);
        self.load_all(list, read);
        if !is_listed(list, n) {
            self.set_register(n, base);
        }
    }

    /// STM.
    fn after_store_many(&mut self, n: u8, list: u16)
        ensures { self.new ≡ after_store_many n list self.old }
    {
        let base = self.register(n).wrapping_add(bytes_of_list(list));
        self.move_on(2);
        self.set_register(n, base);
    }

    /// PUSH.
    fn after_push(&mut self, list: u16)
        ensures { self.new ≡ after_push list self.old }
    {
        let sp = push_address(list, self);
        self.move_on(2);
        self.set_active_sp(sp);
    }

    /// POP.
    fn after_pop(&mut self, list: u16, read: &[u32])
        ensures { self.new ≡ after_pop list self.old read.now }
    {
        let sp = self.active_sp().wrapping_add(bytes_of_list(list));
        if !is_listed(list, 15) {
            self.move_on(2);
        }
        self.set_active_sp(sp);
        self.load_all(list, read);
    }
}

/// A sum with carry and overflow.
fn sum_result(kind: SumKind, x: u32, y: u32, carry: bool) -> (u32, bool, bool)
    ensures { result ≡ sum_result kind x y carry }
{
    match kind {
        SumKind::Add => add_carry(x, y, false),
        SumKind::Sub => add_carry(x, !y, true),
        SumKind::Adc => add_carry(x, y, carry),
        SumKind::Sbc => add_carry(x, !y, carry),
    }
}

/// A word of two operands.
fn word_result(kind: WordKind, x: u32, y: u32) -> u32
    ensures { result ≡ word_result kind x y }
{
    match kind {
        WordKind::And => x & y,
        WordKind::Eor => x ^ y,
        WordKind::Orr => x | y,
        WordKind::Bic => x & !y,
        WordKind::Mov => y,
        WordKind::Mvn => !y,
        WordKind::Mul => multiply(x, y),
    }
}

/// A value that was read, as a word.
fn loaded(size: Size, signed: bool, value: u32) -> u32
    ensures { result ≡ loaded size signed value }
{
    match (size, signed) {
        (Size::Byte, true) => extend(ExtendKind::Sxtb, value),
        (Size::Byte, false) => extend(ExtendKind::Uxtb, value),
        (Size::Half, true) => extend(ExtendKind::Sxth, value),
        (Size::Half, false) => extend(ExtendKind::Uxth, value),
        (Size::Word, _) => value,
    }
}

/// The value at an index, 0 past the end.
pub(crate) fn value_at(read: &[u32], index: usize) -> u32
    ensures { result ≡ slice_index read.now index }
{
    if index < read.len() { read[index] } else { 0 }
}

/// A register is in a list.
#[tactic(auto, using(crate::proofs::Lists::none_above))]
pub(crate) fn is_listed(list: u16, k: u8) -> bool
    ensures { result ≡ has_bit list k }
{
    k < 16 && (list >> k) & 1 == 1
}

/// How many bytes the registers of a list take.
#[tactic(auto, using(crate::proofs::Lists::registers_count))]
pub(crate) fn bytes_of_list(list: u16) -> u32
    ensures { result ≡ bytes_of_list list }
{
    4 * list.count_ones()
}

/// The lowest address of a PUSH.
pub(crate) fn push_address(list: u16, regs: &Regs) -> u32
    ensures { result ≡ push_address list regs.now }
{
    regs.active_sp().wrapping_sub(bytes_of_list(list))
}
