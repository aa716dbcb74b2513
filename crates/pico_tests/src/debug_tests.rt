//! Sessions of the debugger from the words of a command line: what is answered to the lines of an input, and the status.

ghost use Rattle.std.specs.Prelude.{None};

use crate::call::call_pico;
use crate::case::{Case, NOTHING, first_wrong, found, gives, shelf_of, words_of};
use crate::rows::{COPIES_THREE, COPIES_TWO, STORES_ONCE, THREE};
use rp_ports::gate::OpenGate;
use rp_ports::mem_sink::MemSink;
use rp_ports::mem_source::MemSource;
use rp_ports::sink::{Put, Sink};
use rp_ports::source::{Source, Taken};
use std::cell::Cell;
use std::test::Fail;

/// A session over at most 10 cycles of three instructions.
const STEPS: Case = Case {
    words: &["debug", "a.uf2", "--cycles", "10"],
    text: b"",
    ..THREE
};

const SESSIONS: [Case; 5] = [
    STORES_ONCE,
    Case {
        words: &["debug", "a.uf2", "--cycles", "100"],
        image: COPIES_TWO,
        input: b"goto 18\nmem 20000100 2\nlastwrite 20000100\nlastwrite 20000104\n",
        text: b"at 18\nmem 20000100 11223344 55667788\nlastwrite 20000100 16\nlastwrite 20000104 17\n",
        ..NOTHING
    },
    // A read and a write of equal priority take turns.
    Case {
        words: &["debug", "a.uf2", "--cycles", "100"],
        image: COPIES_THREE,
        input: b"goto 30\nlastwrite 20000100\nlastwrite 20000110\nlastwrite 20000120\n",
        text: b"at 30\nlastwrite 20000100 15\nlastwrite 20000110 17\nlastwrite 20000120 19\n",
        ..NOTHING
    },
    // The session ends at `quit`, so that a line behind it is not answered.
    Case {
        input: b"step\n\nquit\r\nstep\n",
        text: b"at 1\nbad command\n",
        ..STEPS
    },
    // It ends at the end of the input, where the last line may lack its LF.
    Case {
        input: b"end\nback",
        text: b"stop bkpt core0 2\nat 1\n",
        ..STEPS
    },
];

#[test]
fn sessions_are_answered(rt: HostRuntime) -> Result<(), Fail> {
    assert_eq!(rt; first_wrong(&rt, rt.alloc(), &SESSIONS)?, None);
    Ok(())
}

/// The second take fails: the line before it was answered, the open one was not.
const BROKEN: Case = Case {
    input: b"step\nst",
    failing_take: Some(1),
    status: 8,
    text: b"at 1\nerror source\n",
    ..STEPS
};

#[test]
fn a_session_ends(rt: HostRuntime) -> Result<(), Fail> {
    let alloc = rt.alloc();
    assert!(rt; gives(&rt, alloc, &BROKEN)?);
    // An input of a megabyte without a line.
    let words = words_of(alloc, &STEPS, &[])?;
    let mut files = shelf_of(alloc, &STEPS, &[])?;
    let mut input = MemSource::new(vec![in alloc; b'x'; 1_048_576]?, Vec::new(alloc));
    let mut out = MemSink::new(alloc, Vec::new(alloc));
    let status = call_pico(
        &rt, alloc, &words, &mut files, &mut input, &mut out, &OpenGate,
    )?;
    assert!(rt; status == 10 && out.bytes.as_slice() == b"error input\n".as_slice());
    Ok(())
}

/// Gives the lines `step` and `step` and then `quit`, each only where every line before it was answered, and fails at all other
/// takes.
#[derive(Drop)]
struct Waiting<'a> {
    puts: &'a Cell<u64>,
    takes: u64,
    faults: u64,
}

impl Source for Waiting<'_> {
    ghost left = { λ s. None };

    ghost faults = { λ s. s.faults };

    fn take(&mut self, buf: &mut [u8]) -> Taken {
        if self.puts.get() == self.takes && self.takes < 3 && buf.len() >= 5 {
            let line: &[u8; 5] = if self.takes < 2 { b"step\n" } else { b"quit\n" };
            buf[..5].copy_from_slice(line);
            self.takes = self.takes.saturating_add(1);
            return Taken::Took(5);
        }
        self.faults = self.faults.saturating_add(1);
        Taken::Failed
    }
}

/// Counts what is put.
#[derive(Drop)]
struct Counting<'a> {
    puts: &'a Cell<u64>,
}

impl Sink for Counting<'_> {
    ghost written = { λ s. None };

    ghost faults = { λ s. 0 };

    fn put(&mut self, bytes: &[u8]) -> Put {
        self.puts.set(self.puts.get().saturating_add(1));
        Put::Took(bytes.len())
    }
}

/// Each reply is put before more is taken, and behind `quit` nothing is taken.
#[test]
fn a_reply_is_put_before_the_next_take(rt: HostRuntime) -> Result<(), Fail> {
    let alloc = rt.alloc();
    let words = words_of(alloc, &STEPS, &[])?;
    let mut files = shelf_of(alloc, &STEPS, &[])?;
    let puts = Cell::new(0);
    let mut input = Waiting {
        puts: &puts,
        takes: 0,
        faults: 0,
    };
    let mut out = Counting { puts: &puts };
    let status = call_pico(
        &rt, alloc, &words, &mut files, &mut input, &mut out, &OpenGate,
    )?;
    assert_eq!(rt; status, 0);
    assert_eq!(rt; puts.get(), 2);
    assert!(rt; input.takes == 3 && input.faults == 0);
    Ok(())
}

/// The `quit` of this session is in its first piece, and more is left behind it.
const MORE: Case = Case {
    input: b"step\nquit\nstep\n",
    text: b"at 1\n",
    ..STEPS
};

#[test]
fn nothing_is_taken_behind_quit(rt: HostRuntime) -> Result<(), Fail> {
    assert!(rt; gives(&rt, rt.alloc(), &MORE)?);
    assert_eq!(rt; found(&rt, rt.alloc(), &MORE, &[])?.takes, 1);
    Ok(())
}
