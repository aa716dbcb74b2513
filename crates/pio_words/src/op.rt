//! The operations of a machine, with their operands.

/// When a `jmp` is taken (RP2040 Datasheet, 3.4.2).
#[derive(Clone, Copy, PartialEq, Eq)]
pub enum JmpCondition {
    /// Always.
    Always,
    /// `!x`: X is zero.
    XZero,
    /// `x--`: X is not zero; X is decremented in either case.
    XDecrement,
    /// `!y`: Y is zero.
    YZero,
    /// `y--`: Y is not zero; Y is decremented in either case.
    YDecrement,
    /// `x!=y`: X and Y differ.
    XNotY,
    /// `pin`: the input pin that EXECCTRL's JMP_PIN selects is high.
    Pin,
    /// `!osre`: the output shift register still has bits below its threshold.
    OsrNotEmpty,
}

/// One of the eight interrupt flags of a block (RP2040 Datasheet, 3.4.9.2).
#[derive(Clone, Copy, PartialEq, Eq)]
pub struct IrqIndex {
    /// The flag, 0 to 7.
    pub number: u8,
    /// `rel`: the state machine's number is added to the low two bits, modulo 4.
    pub relative: bool,
}

/// What a `wait` looks at (RP2040 Datasheet, 3.4.3).
#[derive(Clone, Copy, PartialEq, Eq)]
pub enum WaitSource {
    /// The GPIO with this number, 0 to 31.
    Gpio(u8),
    /// The input pin with this number, 0 to 31, counted from IN_BASE.
    Pin(u8),
    /// An interrupt flag.
    Irq(IrqIndex),
}

/// Where `in` takes its bits from (RP2040 Datasheet, 3.4.4).
#[derive(Clone, Copy, PartialEq, Eq)]
pub enum InSource {
    Pins,
    X,
    Y,
    Null,
    Isr,
    Osr,
}

/// Where `out` puts its bits (RP2040 Datasheet, 3.4.5).
#[derive(Clone, Copy, PartialEq, Eq)]
pub enum OutDestination {
    Pins,
    X,
    Y,
    Null,
    Pindirs,
    Pc,
    Isr,
    Exec,
}

/// Where `mov` writes to (RP2040 Datasheet, 3.4.8).
#[derive(Clone, Copy, PartialEq, Eq)]
pub enum MovDestination {
    Pins,
    X,
    Y,
    Exec,
    Pc,
    Isr,
    Osr,
}

/// What `mov` does to the value on its way (RP2040 Datasheet, 3.4.8).
#[derive(Clone, Copy, PartialEq, Eq)]
pub enum MovOperation {
    /// Nothing.
    Plain,
    /// `!`: the bitwise complement.
    Invert,
    /// `::`: the 32 bits in reverse order.
    Reverse,
}

/// Where `mov` reads from (RP2040 Datasheet, 3.4.8).
#[derive(Clone, Copy, PartialEq, Eq)]
pub enum MovSource {
    Pins,
    X,
    Y,
    Null,
    Status,
    Isr,
    Osr,
}

/// What `set` writes to (RP2040 Datasheet, 3.4.10).
#[derive(Clone, Copy, PartialEq, Eq)]
pub enum SetDestination {
    Pins,
    X,
    Y,
    Pindirs,
}

/// What an instruction word does, without its side-set value and its delay (RP2040 Datasheet,
/// 3.4.1).
#[derive(Clone, Copy, PartialEq, Eq)]
pub enum PioOp {
    /// Continue at the address, 0 to 31, if the condition holds.
    Jmp {
        condition: JmpCondition,
        address: u8,
    },
    /// Stall until the source has this level.
    Wait {
        polarity: bool,
        source: WaitSource,
    },
    /// Shift 1 to 32 bits into the input shift register.
    In {
        source: InSource,
        count: u8,
    },
    /// Shift 1 to 32 bits out of the output shift register.
    Out {
        destination: OutDestination,
        count: u8,
    },
    /// Put the input shift register into the receive FIFO.
    Push {
        if_full: bool,
        block: bool,
    },
    /// Load the output shift register from the transmit FIFO.
    Pull {
        if_empty: bool,
        block: bool,
    },
    /// Copy a register.
    Mov {
        destination: MovDestination,
        operation: MovOperation,
        source: MovSource,
    },
    /// Set or clear an interrupt flag.
    Irq {
        clear: bool,
        wait: bool,
        index: IrqIndex,
    },
    /// Write an immediate value, 0 to 31.
    Set {
        destination: SetDestination,
        value: u8,
    },
    /// A bit pattern that names no operation.
    Reserved,
}
