//! The block's registers by their offsets (RP2040 Datasheet, 3.7, List of Registers). Registers that there are several of
//! stand one after the other from the one that is named.

/// Enables and restarts of the machines.
pub const CTRL: u16 = 0x000;

/// Which FIFOs are full or empty.
pub const FSTAT: u16 = 0x004;

/// What FIFOs lost and stalled.
pub const FDEBUG: u16 = 0x008;

/// How many words the FIFOs hold.
pub const FLEVEL: u16 = 0x00c;

/// The TX FIFO of machine 0.
pub const TXF0: u16 = 0x010;

/// The RX FIFO of machine 0.
pub const RXF0: u16 = 0x020;

/// The flags; a 1 clears its flag.
pub const IRQ: u16 = 0x030;

/// A 1 sets its flag.
pub const IRQ_FORCE: u16 = 0x034;

/// The pins that are read before their synchronisers.
pub const INPUT_SYNC_BYPASS: u16 = 0x038;

/// The levels that the machines wrote.
pub const DBG_PADOUT: u16 = 0x03c;

/// The enables that the machines wrote.
pub const DBG_PADOE: u16 = 0x040;

/// How large the block is.
pub const DBG_CFGINFO: u16 = 0x044;

/// The first of the 32 words of the instruction memory.
pub const INSTR_MEM0: u16 = 0x048;

/// The first register of machine 0.
pub const SM0_CLKDIV: u16 = 0x0c8;

/// What machine 0 does with pins and program.
pub const SM0_EXECCTRL: u16 = 0x0cc;

/// The pins of machine 0.
pub const SM0_PINCTRL: u16 = 0x0dc;

/// The interrupts as they are.
pub const INTR: u16 = 0x128;

/// The interrupts that line 0 has.
pub const IRQ0_INTE: u16 = 0x12c;

/// The interrupts that line 0 has in any case.
pub const IRQ0_INTF: u16 = 0x130;

/// Line 0.
pub const IRQ0_INTS: u16 = 0x134;

/// The interrupts that line 1 has.
pub const IRQ1_INTE: u16 = 0x138;

/// The interrupts that line 1 has in any case.
pub const IRQ1_INTF: u16 = 0x13c;

/// Line 1.
pub const IRQ1_INTS: u16 = 0x140;

/// The first offset after the registers.
pub const END: u16 = 0x144;

/// How many bytes the registers of one machine have.
pub const SM_BYTES: u16 = 0x018;

/// The clock divider of a machine, from its first register on.
pub const SM_CLKDIV: u16 = 0x00;

/// What a machine does with pins and program, from its first register on.
pub const SM_EXECCTRL: u16 = 0x04;

/// The shift registers and FIFOs of a machine, from its first register on.
pub const SM_SHIFTCTRL: u16 = 0x08;

/// PC of a machine, from its first register on.
pub const SM_ADDR: u16 = 0x0c;

/// The instruction at PC of a machine, or one to be tried at once, from its first register on.
pub const SM_INSTR: u16 = 0x10;

/// The pins of a machine, from its first register on.
pub const SM_PINCTRL: u16 = 0x14;
