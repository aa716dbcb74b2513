//! A run on the calling thread alone up to the first state that has a stop, cycle by cycle, or by windows where these are counted; what
//! workers are given; and where its events go: each leaves its line in the sink, and each change of a pin is heard by the probes.

ghost use Rattle.std.specs.Prelude.{◌≡◌, ◌∷◌, ◌<◌, [], ◌+◌, ◌≤◌, IfOk, IfSome};
ghost use Rattle.trace_text.specs.declared.event.Event.TheVariants.{Pin};
ghost use Rattle.trace_text.specs.Line.{event_text};
ghost use Rattle.board_parts.specs.Hearing.{aim_of, seen};
ghost use Rattle.pico_top.specs.Dialogue.{sunk};
ghost use Rattle.pico_top.specs.Answer.{Writes};
ghost use Rattle.pico_top.specs.RunText.{after_events};
ghost use Rattle.outer_lane.specs.Setting.{setting};
ghost use Rattle.trace_text.specs.Tape.{Tells};
ghost use Rattle.rp_machine.specs.Run.{last_state};
ghost use Rattle.window_runner.specs.Told.{run_shown};
ghost use Rattle.window_runner.specs.Alone.{IsOnRun, IsRanFor};
ghost use Rattle.window_runner.specs.Windows.{answered, OnMemory};

use crate::tell::put_line;
use arrayvec::ArrayVec;
use board_parts::aimed::{Aimed, hear_all};
use board_parts::change::PinChange;
use board_parts::probe::Probe;
use lane_look::Device;
use rp_machine::{Machine, Steps, World};
use rp_ports::gate::Gate;
use rp_ports::sink::Sink;
use std::alloc::Global;
use std::marker::PhantomData;
use std::sync::Wait;
use std::sync::ledger::Ledger;
use std::thread::Threads;
use trace_text::event::Event;
use trace_text::line::event_line;
use trace_text::tape::Tape;
use trace_text::writer::SinkFault;
use window_merge::Crew;
use window_runner::alone::{Ran, run_alone};
use window_runner::cycles::run_cycles;
use window_runner::windows::RunFault;

/// Puts the line of an event.
fn send_event<O: Sink>(event: &Event, out: &mut O) -> Result<(), SinkFault>
    ensures { Writes (sunk ⟦<O as Sink>⟧ out.old) (sunk ⟦<O as Sink>⟧ out.new) (event_text event.now) result }
{
    let mut line = ArrayVec::<u8, 192>::new();
    event_line(event, &mut line);
    put_line(&line, out)
}

/// All probes hear of a change of a pin.
fn hear_change(cycle: u64, pin: u8, level: bool, probes: &mut [Aimed])
    requires { pin < 256 }
    ensures { seen probes.new (λ a. aim_of a.index a.pin (⟦<dyn Probe as Probe>⟧ a.probe.vtable) a.probe.value)
        ≡ after_events (Pin cycle pin level ∷ [])
        (seen probes.old (λ a. aim_of a.index a.pin (⟦<dyn Probe as Probe>⟧ a.probe.vtable) a.probe.value)) }
{
    hear_all(probes, &PinChange { cycle, pin, level });
}

/// All probes hear of a pin, if the event is its change.
#[tactic(auto, using(crate::specs::Teller::after_none))]
fn hear_event(event: &Event, probes: &mut [Aimed])
    ensures { seen probes.new (λ a. aim_of a.index a.pin (⟦<dyn Probe as Probe>⟧ a.probe.vtable) a.probe.value)
        ≡ after_events (event.now ∷ [])
        (seen probes.old (λ a. aim_of a.index a.pin (⟦<dyn Probe as Probe>⟧ a.probe.vtable) a.probe.value)) }
{
    if let Event::Pin { cycle, pin, level } = *event {
        hear_change(cycle, pin, level, probes);
    }
}

/// Tells the events of a run to a sink and to probes.
#[derive(Drop)]
pub struct Teller<'a, O: Sink> {
    /// Has the lines.
    pub out: &'a mut O,
    /// Hear the changes of pins.
    pub probes: &'a mut [Aimed],
    /// A probe is known by what is behind its box.
    pub boxed: PhantomData<Box<dyn Probe>>,
}

impl<'a, O: Sink> Tape for Teller<'a, O> {
    ghost use Rattle.std.specs.Prelude.{◌≡◌};
    ghost use Rattle.std.proofs.Common.{refl, ◌∙◌};
    ghost use Rattle.trace_text.specs.Line.{event_text};
    ghost use Rattle.trace_text.specs.Sent.{AppendsPart};
    ghost use Rattle.board_parts.specs.Hearing.{aim_of, seen};
    ghost use Rattle.pico_top.specs.Dialogue.{sunk};
    ghost use Rattle.pico_top.specs.Teller.{HasTold, told_none, told_both};

    ghost faults = { λ teller. O.faults teller.out.now };

    ghost took = { λ old events new.
        HasTold (sunk ⟦<O as Sink>⟧ old.out.now) (sunk ⟦<O as Sink>⟧ new.out.now)
        (seen old.probes.now (λ a. aim_of a.index a.pin (Probe-box a.probe) a.probe.value))
        (seen new.probes.now (λ a. aim_of a.index a.pin (Probe-box a.probe) a.probe.value)) events
        × (new.out.ghost_name ≡ old.out.ghost_name)
        × (new.probes.ghost_name ≡ old.probes.ghost_name) };

    ghost missed = { λ old event new.
        AppendsPart (O.written old.out.now) (O.written new.out.now) (event_text event)
        × (new.out.ghost_name ≡ old.out.ghost_name)
        × (new.probes.ghost_name ≡ old.probes.ghost_name) };

    #[tactic(auto, using(crate::specs::Teller::told_one))]
    fn event(&mut self, event: &Event) -> Result<(), SinkFault> {
        match send_event(event, self.out) {
            Ok(()) => {
                hear_event(event, self.probes);
                Ok(())
            }
            Err(fault) => Err(fault),
        }
    }

    ghost takes_none = { λ teller. (told_none _ _, refl, refl) };

    ghost takes_in_turn = { λ a b c first second h k.
        (told_both _ _ _ _ _ _ first second h.0 k.0, k.1 ∙ h.1, k.2 ∙ h.2) };
}

/// How many threads run the lanes of a run's windows beside the calling one, what starts them, and what is entered and left round each
/// piece.
#[derive(Drop)]
pub struct Workers<'a, G: Gate, R: Threads + Wait + Sync> {
    /// Starts them, and waits for them.
    pub rt: &'a R,
    /// The gate.
    pub gate: &'a G,
    /// How many, at most 8.
    pub count: u8,
    pub ghost within: { count ≤ 8 },
}

/// Runs a machine up to its first stop on the calling thread alone: by windows where these are to be counted, and else cycle by
/// cycle. Each cycle counts as a step.
///
/// # Errors
///
/// `Sink`: the tape failed at an event. `Memory`: there was none for the windows; nothing has changed.
#[tactic(auto, using(crate::proofs::Telling::ran_for))]
pub fn run_by_one<X: Device, T: Tape, L: Ledger>(
    stats: bool,
    alloc: Global,
    machine: &mut Machine,
    world: &World<'_, X>,
    tape: &mut T,
    steps: &mut Steps<L>,
) -> Result<Ran, RunFault>
    requires number { machine.old.cycle ≤ world.now.limit }
    ensures told { IfSome (answered result) (Tells T.took T.missed tape.old tape.new
        (T.faults tape.old) (T.faults tape.new) (run_shown (setting X.meaning world.now)
        machine.old)) }
    ensures ran { IfOk result (IsRanFor stats (setting X.meaning world.now) machine.old) }
    ensures state { IfOk result (λ ran. machine.new ≡ last_state (setting X.meaning world.now)
        machine.old) }
    ensures on_run { IsOnRun (setting X.meaning world.now) machine.old machine.new }
    ensures steps { steps.new + machine.old.cycle ≡ steps.old + machine.new.cycle }
    ensures memory { OnMemory result ((machine.new ≡ machine.old) × (tape.new ≡ tape.old)) }
{
    if stats {
        let Ok(mut crew) = Crew::without_jobs(alloc) else {
            return Err(RunFault::Memory);
        };
        match run_alone(machine, world, &mut crew, tape, steps) {
            Ok(ran) => Ok(ran),
            Err(_) => Err(RunFault::Sink),
        }
    } else {
        match run_cycles(machine, world, tape, steps) {
            Ok(ran) => Ok(ran),
            Err(_) => Err(RunFault::Sink),
        }
    }
}
