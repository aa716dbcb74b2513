//! Whole lines into a sink.

ghost use Rattle.std.specs.Prelude.{◌≡◌};
ghost use Rattle.trace_text.specs.Sent.{Sends};

use rp_ports::sink::{Put, Sink};

/// The sink failed; its count of faults rose.
#[derive(Clone, Copy, Debug, PartialEq, Eq)]
pub struct SinkFault;

/// Writes whole lines into a sink.
#[derive(Drop)]
pub struct Writer<'a, O: Sink> {
    /// The sink.
    pub out: &'a mut O,
}

impl<'a, O: Sink> Writer<'a, O> {
    /// Puts one piece, and what is left of it again where fewer bytes were taken; ends at a put that failed.
    pub fn line(&mut self, bytes: &[u8]) -> Result<(), SinkFault>
        ensures sends { Sends (O.written self.old.out.now) (O.written self.new.out.now)
            (O.faults self.old.out.now) (O.faults self.new.out.now) bytes.now result }
        ensures same_sink { self.new.out.ghost_name ≡ self.old.out.ghost_name }
    {
        let mut done = 0;
        while done < bytes.len() {
            match self.out.put(&bytes[done..]) {
                Put::Took(n) => done += n,
                Put::Failed => return Err(SinkFault),
            }
        }
        Ok(())
    }
}
