//! A machine's state, what it sees in a cycle, and what it does.

ghost use Rattle.std.specs.Prelude.{◌≡◌, Decides};
ghost use Rattle.pio_machine.specs.Start.{at_reset, restarted, nothing_done};
ghost use Rattle.pio_machine.specs.Operation.{with_pc};
ghost use Rattle.pio_machine.specs.Progress.{untried, forced, executed, progress_of, with_progress, with_raised, with_shifted};

use crate::fifo::Fifo;
use crate::memory::Memory;

/// What a word has done that stalls, and does not do again while it is tried.
#[derive(Clone, Copy, PartialEq, Eq)]
pub struct Progress {
    /// IRQ with Wait has raised its flag.
    pub raised: bool,
    /// IN has shifted.
    pub shifted: bool,
}

/// An instruction word that is tried in place of the one at PC.
#[derive(Clone, Copy, PartialEq, Eq)]
pub struct Waiting {
    /// The word.
    pub word: u16,
    /// It was written to INSTR, and is tried in each cycle; else OUT EXEC or MOV EXEC gave it, and it is tried in each tick.
    pub forced: bool,
    /// What it has done already.
    pub progress: Progress,
}

/// The state of one machine. A register has its word as the system reads it, but for bits that other state gives
/// (RP2040 Datasheet, 3.7).
#[derive(Drop)]
pub struct Machine1 {
    /// CTRL.SM_ENABLE.
    pub enabled: bool,
    /// CLKDIV.
    pub clkdiv: u32,
    /// EXECCTRL without EXEC_STALLED.
    pub execctrl: u32,
    /// SHIFTCTRL.
    pub shiftctrl: u32,
    /// PINCTRL.
    pub pinctrl: u32,
    /// The clock divider: the 256ths of a cycle until the next tick, which comes in a cycle that begins below 256.
    pub acc: u32,
    /// The scratch register X.
    pub x: u32,
    /// The scratch register Y.
    pub y: u32,
    /// The input shift register.
    pub isr: u32,
    /// How many bits were shifted into the ISR, 0 to 32.
    pub isr_count: u8,
    /// The output shift register.
    pub osr: u32,
    /// How many bits were shifted out of the OSR, 0 to 32.
    pub osr_count: u8,
    /// The address of the next instruction, 0 to 31.
    pub pc: u8,
    /// How many ticks are left of the delay after an instruction, 0 to 31.
    pub delay: u8,
    /// A word that waits to be tried.
    pub waiting: Option<Waiting>,
    /// What the word at PC has done already.
    pub progress: Progress,
    /// The words from the system.
    pub tx: Fifo,
    /// The words to the system.
    pub rx: Fifo,
    /// FDEBUG.TXSTALL: an OUT or a blocking PULL has stalled on an empty TX FIFO.
    pub tx_stall: bool,
    /// FDEBUG.RXSTALL: a PUSH or an IN has stalled on a full RX FIFO, or a PUSH without Block has lost its word there.
    pub rx_stall: bool,
}

/// What a machine sees at the start of a cycle.
#[derive(Drop)]
pub struct Seen {
    /// The instruction memory.
    pub memory: Memory,
    /// The levels of the pins before their synchronisers and behind them, pin 0 in bit 0.
    pub inputs: [u32; 2],
    /// INPUT_SYNC_BYPASS.
    pub bypass: u32,
    /// The eight interrupt flags.
    pub flags: u8,
}

/// What machines write in a cycle, pin 0 and flag 0 in bit 0.
#[derive(Clone, Copy)]
pub struct Done {
    /// The levels of the pins in `level_mask`.
    pub levels: u32,
    /// The pins whose level was written.
    pub level_mask: u32,
    /// The enables of the pins in `enable_mask`.
    pub enables: u32,
    /// The pins whose enable was written.
    pub enable_mask: u32,
    /// The flags that are set.
    pub set: u8,
    /// The flags that are cleared.
    pub clear: u8,
}

/// How a try of an instruction word ends.
#[derive(Clone, Copy)]
pub(crate) enum Outcome {
    /// It did not complete, and is tried again.
    Stalled,
    /// It completed.
    Completed,
    /// It completed and sets PC.
    Jumped(u8),
    /// It completed and gives a word to be executed.
    Executes(u16),
}

impl Seen {
    /// Takes over what another one says.
    pub fn copy_from(&mut self, other: &Seen)
        ensures { self.new ≡ other.now }
    {
        self.memory.copy_from(&other.memory);
        self.inputs = other.inputs;
        self.bypass = other.bypass;
        self.flags = other.flags;
    }
}

impl Progress {
    /// That of a word that was not tried yet.
    fn new() -> Progress
        ensures { result ≡ untried }
    {
        Progress {
            raised: false,
            shifted: false,
        }
    }
}

impl Waiting {
    /// A word that was written to INSTR.
    pub fn forced(word: u16) -> Waiting
        ensures { result ≡ forced word }
    {
        Waiting {
            word,
            forced: true,
            progress: Progress::new(),
        }
    }

    /// A word that OUT EXEC or MOV EXEC gave.
    pub(crate) fn executed(word: u16) -> Waiting
        ensures { result ≡ executed word }
    {
        Waiting {
            word,
            forced: false,
            progress: Progress::new(),
        }
    }
}

impl Machine1 {
    /// The reset state.
    pub fn new() -> Machine1
        ensures { result ≡ at_reset }
    {
        Machine1 {
            enabled: false,
            clkdiv: 0x0001_0000,
            execctrl: 0x0001_f000,
            shiftctrl: 0x000c_0000,
            pinctrl: 0x1400_0000,
            acc: 0,
            x: 0,
            y: 0,
            isr: 0,
            isr_count: 0,
            osr: 0,
            osr_count: 32,
            pc: 0,
            delay: 0,
            waiting: None,
            progress: Progress::new(),
            tx: Fifo::new(),
            rx: Fifo::new(),
            tx_stall: false,
            rx_stall: false,
        }
    }

    /// CTRL.SM_RESTART: clears the ISR, both shift counts, the delay, the waiting word, and what the word at PC has done.
    pub fn restart(&mut self)
        ensures { self.new ≡ restarted self.old }
    {
        self.isr = 0;
        self.isr_count = 0;
        self.osr_count = 32;
        self.delay = 0;
        self.waiting = None;
        self.progress = Progress::new();
    }

    /// Sets PC, 0 to 31. The word there was not tried yet.
    pub fn set_pc(&mut self, address: u8)
        ensures { self.new ≡ with_pc address self.old }
    {
        self.pc = address;
        self.progress = Progress::new();
    }

    /// What the word has done that is tried now.
    pub(crate) fn current_progress(&self) -> Progress
        ensures { result ≡ progress_of self.now }
    {
        match self.waiting {
            Some(waiting) => waiting.progress,
            None => self.progress,
        }
    }

    /// Keeps what the word has done that is tried now.
    fn keep(&mut self, progress: Progress)
        ensures { self.new ≡ with_progress progress self.old }
    {
        match self.waiting {
            Some(waiting) => {
                self.waiting = Some(Waiting {
                    progress,
                    ..waiting
                });
            }
            None => self.progress = progress,
        }
    }

    /// The word that is tried now has raised its flag.
    pub(crate) fn keep_raised(&mut self)
        ensures { self.new ≡ with_raised self.old }
    {
        self.keep(Progress {
            raised: true,
            ..self.current_progress()
        });
    }

    /// The word that is tried now has shifted.
    pub(crate) fn keep_shifted(&mut self)
        ensures { self.new ≡ with_shifted self.old }
    {
        self.keep(Progress {
            shifted: true,
            ..self.current_progress()
        });
    }

    /// Both are in the same state.
    pub fn is_same(&self, other: &Machine1) -> bool
        ensures { Decides result (self.now ≡ other.now) }
    {
        let waiting = self.waiting == other.waiting;
        let progress = self.progress == other.progress;
        let tx = self.tx.is_same(&other.tx);
        let rx = self.rx.is_same(&other.rx);
        (self.enabled == other.enabled)
            & (self.clkdiv == other.clkdiv)
            & (self.execctrl == other.execctrl)
            & (self.shiftctrl == other.shiftctrl)
            & (self.pinctrl == other.pinctrl)
            & (self.acc == other.acc)
            & (self.x == other.x)
            & (self.y == other.y)
            & (self.isr == other.isr)
            & (self.isr_count == other.isr_count)
            & (self.osr == other.osr)
            & (self.osr_count == other.osr_count)
            & (self.pc == other.pc)
            & (self.delay == other.delay)
            & waiting
            & progress
            & tx
            & rx
            & (self.tx_stall == other.tx_stall)
            & (self.rx_stall == other.rx_stall)
    }

    /// Takes the state of another machine.
    pub fn copy_from(&mut self, other: &Machine1)
        ensures { self.new ≡ other.now }
    {
        self.enabled = other.enabled;
        self.clkdiv = other.clkdiv;
        self.execctrl = other.execctrl;
        self.shiftctrl = other.shiftctrl;
        self.pinctrl = other.pinctrl;
        self.acc = other.acc;
        self.x = other.x;
        self.y = other.y;
        self.isr = other.isr;
        self.isr_count = other.isr_count;
        self.osr = other.osr;
        self.osr_count = other.osr_count;
        self.pc = other.pc;
        self.delay = other.delay;
        self.waiting = other.waiting;
        self.progress = other.progress;
        self.tx.copy_from(&other.tx);
        self.rx.copy_from(&other.rx);
        self.tx_stall = other.tx_stall;
        self.rx_stall = other.rx_stall;
    }
}

impl Done {
    /// Nothing is written.
    pub fn new() -> Done
        ensures { result ≡ nothing_done }
    {
        Done {
            levels: 0,
            level_mask: 0,
            enables: 0,
            enable_mask: 0,
            set: 0,
            clear: 0,
        }
    }
}
