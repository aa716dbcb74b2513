//! The events of cycles, one after another, to a tape.

ghost use Rattle.std.specs.Prelude.{◌≡◌, ◌+◌, ◌<◌, ◌^◌, ◌∷◌, [], Option, None, Decides, length};
ghost use Rattle.trace_text.specs.Tape.{Tells};
ghost use Rattle.rp_machine.specs.Events.{bytes_of, changes_of, events_of};
ghost use Rattle.window_runner.specs.Told.{all_shown, events_by};
ghost use Rattle.window_runner.specs.Parts.{byte_of, change_of};

use lane_look::{Mark, Marks};
use rp_base::bits::has_bit;
use trace_text::event::Event;
use trace_text::tape::Tape;
use trace_text::writer::SinkFault;

/// Tells the byte that a UART sent, if it sent one.
fn tell_byte<T: Tape>(
    cycle: u64,
    number: u8,
    byte: Option<u8>,
    tape: &mut T,
) -> Result<(), SinkFault>
    ensures { Tells T.took T.missed tape.old tape.new (T.faults tape.old) (T.faults tape.new)
        (all_shown (byte_of cycle number byte)) result }
{
    match byte {
        None => Ok(()),
        Some(byte) => tape.event(&Event::Uart {
            cycle,
            number,
            byte,
        }),
    }
}

/// Tells the bytes that the UARTs sent in a cycle.
fn tell_bytes<T: Tape>(cycle: u64, bytes: &[Option<u8>; 2], tape: &mut T) -> Result<(), SinkFault>
    ensures { Tells T.took T.missed tape.old tape.new (T.faults tape.old) (T.faults tape.new)
        (all_shown (bytes_of cycle 0 bytes.now)) result }
{
    let [first, second] = *bytes;
    match tell_byte(cycle, 0, first, tape) {
        Ok(()) => tell_byte(cycle, 1, second, tape),
        Err(fault) => Err(fault),
    }
}

/// Tells of a pin, if its level changed.
fn tell_change<T: Tape>(
    cycle: u64,
    changed: u32,
    after: u32,
    pin: u8,
    tape: &mut T,
) -> Result<(), SinkFault>
    requires { pin < 30 }
    ensures { Tells T.took T.missed tape.old tape.new (T.faults tape.old) (T.faults tape.new)
        (all_shown (change_of cycle changed after pin)) result }
{
    if has_bit(changed, u32::from(pin)) {
        let level = has_bit(after, u32::from(pin));
        tape.event(&Event::Pin { cycle, pin, level })
    } else {
        Ok(())
    }
}

/// Tells of the pins whose levels changed in a cycle, from the lowest to the highest of them.
fn tell_changes<T: Tape>(cycle: u64, before: u32, after: u32, tape: &mut T) -> Result<(), SinkFault>
    ensures { Tells T.took T.missed tape.old tape.new (T.faults tape.old) (T.faults tape.new)
        (all_shown (changes_of cycle before after)) result }
{
    let changed = before ^ after;
    if changed == 0 {
        return Ok(());
    }
    for pin in changed.trailing_zeros() as u8..30 {
        if changed >> pin == 0 {
            return Ok(());
        }
        match tell_change(cycle, changed, after, pin, tape) {
            Ok(()) => {}
            Err(fault) => return Err(fault),
        }
    }
    Ok(())
}

/// The mark of a cycle without an event: no byte was sent, and the pads stay as they were.
#[inline(always)]
fn is_quiet(before: u32, mark: &Mark) -> bool
    ensures { Decides result ((mark.now.uart ≡ None ∷ None ∷ []) × (before ≡ mark.now.pads)) }
{
    matches!(mark.uart, [None, None]) && before == mark.pads
}

/// Tells the events of a cycle that left this mark, where the pads had these levels before.
#[inline(never)]
fn tell_events<T: Tape>(cycle: u64, before: u32, mark: &Mark, tape: &mut T) -> Result<(), SinkFault>
    ensures { Tells T.took T.missed tape.old tape.new (T.faults tape.old) (T.faults tape.new)
        (all_shown (events_of cycle before mark.now)) result }
{
    match tell_bytes(cycle, &mark.uart, tape) {
        Ok(()) => tell_changes(cycle, before, mark.pads, tape),
        Err(fault) => Err(fault),
    }
}

/// The same. Most cycles have no event, which costs one test.
#[inline(always)]
fn tell_cycle<T: Tape>(cycle: u64, before: u32, mark: &Mark, tape: &mut T) -> Result<(), SinkFault>
    ensures { Tells T.took T.missed tape.old tape.new (T.faults tape.old) (T.faults tape.new)
        (all_shown (events_of cycle before mark.now)) result }
{
    if is_quiet(before, mark) {
        return Ok(());
    }
    tell_events(cycle, before, mark, tape)
}

/// Tells the events of cycles, from that number on, that left these marks, where the pads had these levels before them. It takes no
/// memory.
///
/// # Errors
///
/// The tape failed at an event, and its count of faults rose. It has the events before that one.
#[inline(always)]
pub fn tell_marks<T: Tape>(
    cycle: u64,
    before: u32,
    marks: &Marks,
    tape: &mut T,
) -> Result<(), SinkFault>
    requires { cycle + length marks.now < 2 ^ 64 }
    ensures { Tells T.took T.missed tape.old tape.new (T.faults tape.old) (T.faults tape.new)
        (all_shown (events_by cycle before marks.now)) result }
{
    let mut levels = before;
    for index in 0..marks.count() {
        let mark = marks.entry(index);
        match tell_cycle(cycle + u64::from(index), levels, &mark, tape) {
            Ok(()) => levels = mark.pads,
            Err(fault) => return Err(fault),
        }
    }
    Ok(())
}
