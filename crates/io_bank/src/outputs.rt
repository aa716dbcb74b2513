//! What the parts of the chip put out on the pins.

ghost use Rattle.std.specs.Prelude.{◌≡◌};
ghost use Rattle.io_bank.specs.Levels.{peripheral, uart_outputs};

/// The outputs of the parts that a pin can have as its function: for each the levels by pin, and then the enables by pin
/// (RP2040 Datasheet, 1.4.3, GPIO functions). `uart` is one pair for both UARTs, whose enables are on at their TX pins
/// alone.
#[derive(Clone, Copy)]
pub struct Outs {
    /// Function 5.
    pub sio: [u32; 2],
    /// Function 6.
    pub pio0: [u32; 2],
    /// Function 7.
    pub pio1: [u32; 2],
    /// Function 4.
    pub pwm: [u32; 2],
    /// Function 2.
    pub uart: [u32; 2],
}

impl Outs {
    /// The pair of a function, which is nothing but zeros for a function that drives nothing.
    pub(crate) fn of_function(&self, function: u32) -> [u32; 2]
        ensures { result ≡ peripheral self.now function }
    {
        match function {
            2 => self.uart,
            4 => self.pwm,
            5 => self.sio,
            6 => self.pio0,
            7 => self.pio1,
            _ => [0, 0],
        }
    }
}

/// The pair of both UARTs, by the levels of their TX: pins 0, 12, 16 and 28 are UART0's, and 4, 8, 20 and 24 UART1's.
pub fn uart_outputs(first: bool, second: bool) -> [u32; 2]
    ensures { result ≡ uart_outputs first second }
{
    let mut levels = 0;
    if first {
        levels += 0x1001_1001;
    }
    if second {
        levels += 0x0110_0110;
    }
    [levels, 0x1111_1111]
}
