//! The registers and flags of a core, and the words that they are read and written as.

ghost use Rattle.std.specs.Prelude.{◌≡◌};
ghost use Rattle.m0_beats.specs.Registers.{is_thread, sp_of, pc_of, register_of, with_sp, with_pc, with_register, moved_on, with_sign, flags_word, with_flags_word, ipsr_word, xpsr_of, register_words};
ghost use Rattle.rp_base.specs.Word.{bit_number};

/// The registers and flags of one core (ARMv6-M Architecture Reference Manual, B1.4).
#[derive(Clone, Copy, PartialEq, Eq)]
pub struct Regs {
    /// R0 to R12.
    pub r: [u32; 13],
    /// The main stack pointer.
    pub msp: u32,
    /// The process stack pointer.
    pub psp: u32,
    /// The link register.
    pub lr: u32,
    /// The address of the instruction in progress.
    pub pc: u32,
    /// The flag N: a result's bit 31.
    pub n: bool,
    /// The flag Z: a result is 0.
    pub z: bool,
    /// The flag C: a carry.
    pub c: bool,
    /// The flag V: a signed overflow.
    pub v: bool,
    /// The Thumb state bit T.
    pub t: bool,
    /// The number of the exception in progress, 0 in Thread mode.
    pub ipsr: u8,
    /// PRIMASK: exceptions with a priority that can be set are held back.
    pub primask: bool,
    /// CONTROL.SPSEL: Thread mode uses the process stack pointer.
    pub spsel: bool,
}

impl Regs {
    /// No exception is in progress.
    pub fn is_thread(&self) -> bool
        ensures { result ≡ is_thread self.now }
    {
        self.ipsr == 0
    }

    /// The active stack pointer: PSP in Thread mode with SPSEL, else MSP.
    pub fn active_sp(&self) -> u32
        ensures { result ≡ sp_of self.now }
    {
        if self.ipsr == 0 && self.spsel {
            self.psp
        } else {
            self.msp
        }
    }

    /// What an instruction reads as PC: its address plus 4.
    pub fn read_pc(&self) -> u32
        ensures { result ≡ pc_of self.now }
    {
        self.pc.wrapping_add(4)
    }

    /// A register by its number: R0 to R12, 13 the active stack pointer, 14 LR, 15 PC as an instruction reads it.
    pub fn register(&self, k: u8) -> u32
        ensures { result ≡ register_of self.now k }
    {
        if k < 13 {
            return self.r[k as usize];
        }
        match k {
            13 => self.active_sp(),
            14 => self.lr,
            _ => self.read_pc(),
        }
    }

    /// Writes the active stack pointer, whose two low bits stay 0.
    pub fn set_active_sp(&mut self, value: u32)
        ensures { self.new ≡ with_sp self.old value }
    {
        if self.ipsr == 0 && self.spsel {
            self.psp = value & !3;
        } else {
            self.msp = value & !3;
        }
    }

    /// Branches to `value` with bit 0 cleared, in the same state.
    pub fn set_pc(&mut self, value: u32)
        ensures { self.new ≡ with_pc self.old value }
    {
        self.pc = value & !1;
    }

    /// Writes a register by its number: R0 to R12, 13 the active stack pointer, 14 LR, 15 a branch.
    pub fn set_register(&mut self, k: u8, value: u32)
        ensures { self.new ≡ with_register self.old k value }
    {
        if k < 13 {
            self.r[k as usize] = value;
            return;
        }
        match k {
            13 => self.set_active_sp(value),
            14 => self.lr = value,
            _ => self.set_pc(value),
        }
    }

    /// Goes on past an instruction of so many bytes.
    pub fn move_on(&mut self, bytes: u32)
        ensures { self.new ≡ moved_on self.old bytes }
    {
        self.pc = self.pc.wrapping_add(bytes);
    }

    /// Sets N and Z by a result.
    pub fn set_sign(&mut self, value: u32)
        ensures { self.new ≡ with_sign self.old value }
    {
        self.n = value >= 0x8000_0000;
        self.z = value == 0;
    }

    /// N, Z, C and V in bits 31 to 28.
    pub fn flags_word(&self) -> u32
        ensures { result ≡ flags_word self.now }
    {
        one(self.n) * 0x8000_0000
            + one(self.z) * 0x4000_0000
            + one(self.c) * 0x2000_0000
            + one(self.v) * 0x1000_0000
    }

    /// Sets N, Z, C and V by bits 31 to 28.
    pub fn set_flags_word(&mut self, value: u32)
        ensures { self.new ≡ with_flags_word self.old value }
    {
        self.n = (value >> 31) & 1 == 1;
        self.z = (value >> 30) & 1 == 1;
        self.c = (value >> 29) & 1 == 1;
        self.v = (value >> 28) & 1 == 1;
    }

    /// The six bits of IPSR.
    pub fn ipsr_word(&self) -> u32
        ensures { result ≡ ipsr_word self.now }
    {
        u32::from(self.ipsr % 64)
    }

    /// The whole program status register: the flags, T in bit 24 and IPSR in bits 5 to 0.
    pub fn xpsr(&self) -> u32
        ensures { result ≡ xpsr_of self.now }
    {
        self.flags_word() + one(self.t) * 0x100_0000 + self.ipsr_word()
    }

    /// R0 to R12, the active stack pointer, LR, PC and XPSR.
    pub fn words(&self) -> [u32; 17]
        ensures { result ≡ register_words self.now }
    {
        let mut words = [0; 17];
        words[..13].copy_from_slice(&self.r);
        words[13] = self.active_sp();
        words[14] = self.lr;
        words[15] = self.pc;
        words[16] = self.xpsr();
        words
    }
}

/// A flag as a number.
pub(crate) fn one(flag: bool) -> u32
    ensures { result ≡ bit_number flag }
{
    if flag { 1 } else { 0 }
}
