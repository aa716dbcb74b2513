//! Lines from a source for the debugger: each is answered before more is taken.

ghost use Rattle.std.specs.Prelude.{◌≡◌, ◌≤◌, ℕ, List, Option, take};
ghost use Rattle.outer_lane.specs.Setting.{setting};
ghost use Rattle.reverse_debug.specs.Session.{first_of, StandsFor};
ghost use Rattle.reverse_debug.specs.Debugger.{talk_with};
ghost use Rattle.reverse_debug.specs.Lines.{without_cr, unless_empty, until};
ghost use Rattle.reverse_debug.specs.NextLine.{behind, given_bytes};
ghost use Rattle.reverse_debug.specs.Talk.{Hears};
ghost use Rattle.reverse_debug.specs.Way.{AnswersLines, RepliesTo, Taking, IsAfterLine};

use crate::Session;
use crate::reader::{LINE, LineReader, Next};
use crate::way::Way;
use arrayvec::ArrayVec;
use lane_look::Device;
use rp_machine::{Steps, World};
use rp_ports::sink::Sink;
use rp_ports::source::Source;
use source_text::without_return;
use std::sync::ledger::Ledger;
use trace_text::writer::{SinkFault, Writer};

/// The bytes of a reply are at most so many.
const REPLY: usize = 1024;

/// Puts the reply to a line, and tells whether it is no last one.
fn answer<X: Device, O: Sink, L: Ledger>(
    session: &mut Session,
    world: &World<'_, X>,
    line: &[u8],
    writer: &mut Writer<'_, O>,
    steps: &mut Steps<L>,
) -> Result<bool, SinkFault>
    requires stood { StandsFor (setting X.meaning world.now) session.old }
    ensures stands { StandsFor (setting X.meaning world.now) session.new }
    ensures first { first_of session.new ≡ first_of session.old }
    ensures same_sink { writer.new.out.ghost_name ≡ writer.old.out.ghost_name }
    ensures replies { let t = talk_with (setting X.meaning world.now) session.old in RepliesTo t
        session.old.now.cycle line.now (O.written writer.old.out.now) (O.written writer.new.out.now)
        (O.faults writer.old.out.now) (O.faults writer.new.out.now) steps.old steps.new
        session.new.now.cycle result }
{
    let mut reply = ArrayVec::<u8, REPLY>::new();
    if !session.command(world, line, &mut reply, steps) {
        return Ok(false);
    }
    match writer.line(&reply) {
        Ok(()) => Ok(true),
        Err(fault) => Err(fault),
    }
}

/// Answers a line of which the first bytes are given; false where it is a last one.
fn hear_line<X: Device, O: Sink, L: Ledger>(
    session: &mut Session,
    world: &World<'_, X>,
    given: &[u8],
    writer: &mut Writer<'_, O>,
    steps: &mut Steps<L>,
) -> Result<bool, SinkFault>
    requires stood { StandsFor (setting X.meaning world.now) session.old }
    ensures stands { StandsFor (setting X.meaning world.now) session.new }
    ensures first { first_of session.new ≡ first_of session.old }
    ensures same_sink { writer.new.out.ghost_name ≡ writer.old.out.ghost_name }
    ensures replies { let t = talk_with (setting X.meaning world.now) session.old in (whole : List ℕ)
        → given.now ≡ take given_bytes whole → RepliesTo t session.old.now.cycle (without_cr whole)
        (O.written writer.old.out.now) (O.written writer.new.out.now) (O.faults writer.old.out.now)
        (O.faults writer.new.out.now) steps.old steps.new session.new.now.cycle result }
{
    answer(session, world, without_return(given), writer, steps)
}

/// Answers the open line at the end of an input, of which the first bytes are given, unless it is empty. What it answers
/// at Ok tells nothing.
fn hear_end<X: Device, O: Sink, L: Ledger>(
    session: &mut Session,
    world: &World<'_, X>,
    given: &[u8],
    writer: &mut Writer<'_, O>,
    steps: &mut Steps<L>,
) -> Result<bool, SinkFault>
    requires stood { StandsFor (setting X.meaning world.now) session.old }
    ensures stands { StandsFor (setting X.meaning world.now) session.new }
    ensures first { first_of session.new ≡ first_of session.old }
    ensures same_sink { writer.new.out.ghost_name ≡ writer.old.out.ghost_name }
    ensures tells { let t = talk_with (setting X.meaning world.now) session.old in (whole : List ℕ) →
        given.now ≡ take given_bytes whole → AnswersLines t session.old.now.cycle (until t.last
        (unless_empty whole)) (O.written writer.old.out.now) (O.written writer.new.out.now)
        (O.faults writer.old.out.now) (O.faults writer.new.out.now) steps.old steps.new
        session.new.now.cycle result }
{
    if given.is_empty() {
        return Ok(true);
    }
    answer(session, world, given, writer, steps)
}

/// Reads the next line of a source and answers it; none where the session goes on.
fn hear_next<X: Device, I: Source, O: Sink, L: Ledger>(
    session: &mut Session,
    world: &World<'_, X>,
    reader: &mut LineReader,
    input: &mut I,
    limit: usize,
    writer: &mut Writer<'_, O>,
    steps: &mut Steps<L>,
) -> Result<Option<Way>, SinkFault>
    requires stood { StandsFor (setting X.meaning world.now) session.old }
    requires within { reader.old.taken ≤ limit }
    ensures stands { StandsFor (setting X.meaning world.now) session.new }
    ensures first { first_of session.new ≡ first_of session.old }
    ensures same_sink { writer.new.out.ghost_name ≡ writer.old.out.ghost_name }
    ensures came { let t = talk_with (setting X.meaning world.now) session.old in (cycle : ℕ) (left :
        Option (List ℕ)) (lost : ℕ) (old : Option (List ℕ)) (before base : ℕ) → Taking t cycle limit
        left (I.left input.old) lost (I.faults input.old) old (O.written writer.old.out.now) before
        (O.faults writer.old.out.now) base steps.old session.old.now.cycle reader.old → IsAfterLine
        t cycle limit left (I.left input.new) lost (I.faults input.new) old (O.written
        writer.new.out.now) before (O.faults writer.new.out.now) base steps.new
        session.new.now.cycle reader.new (behind limit reader.old) result }
{
    let mut line = ArrayVec::<u8, LINE>::new();
    match reader.next(input, limit, &mut line) {
        Next::Line => match hear_line(session, world, &line, writer, steps) {
            Ok(true) => Ok(None),
            Ok(false) => Ok(Some(Way::Closed)),
            Err(fault) => Err(fault),
        },
        Next::Last => match hear_end(session, world, &line, writer, steps) {
            Ok(_) => Ok(Some(Way::Ended)),
            Err(fault) => Err(fault),
        },
        Next::Failed => Ok(Some(Way::Broken)),
        Next::Full => Ok(Some(Way::Full)),
    }
}

/// Takes lines from a source, at most so many bytes, and puts the reply to each before it takes more; ends at a last line, at
/// the end of the input, at a take that fails, or at the limit. Its clauses say what was taken and what was put in all; that a
/// reply is put before the next take is shown by tests alone.
///
/// # Errors
///
/// The sink failed; its count of faults rose.
pub fn hear<X: Device, I: Source, O: Sink, L: Ledger>(
    session: &mut Session,
    world: &World<'_, X>,
    input: &mut I,
    limit: usize,
    writer: &mut Writer<'_, O>,
    steps: &mut Steps<L>,
) -> Result<Way, SinkFault>
    requires stood { StandsFor (setting X.meaning world.now) session.old }
    ensures stands { StandsFor (setting X.meaning world.now) session.new }
    ensures hears { let t = talk_with (setting X.meaning world.now) session.old in Hears t
        session.old.now.cycle limit (I.left input.old) (I.left input.new) (I.faults input.old)
        (I.faults input.new) (O.written writer.old.out.now) (O.written writer.new.out.now) (O.faults
        writer.old.out.now) (O.faults writer.new.out.now) steps.old steps.new session.new.now.cycle
        result }
    ensures first { first_of session.new ≡ first_of session.old }
    ensures same_sink { writer.new.out.ghost_name ≡ writer.old.out.ghost_name }
{
    let mut reader = LineReader::new();
    'lines: loop {
        match hear_next(session, world, &mut reader, input, limit, writer, steps) {
            Ok(None) => continue 'lines,
            Ok(Some(way)) => return Ok(way),
            Err(fault) => return Err(fault),
        }
    }
}
