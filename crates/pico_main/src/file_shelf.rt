//! The files of the system as a shelf. It tells nothing of what they hold.

ghost use Rattle.std.specs.Prelude.{◌≡◌, ◌<◌, ◌≤◌, [], None, map, vec_len, IfOk};
ghost use Rattle.pico_main.specs.Content.{IsWithin};
ghost use Rattle.std.specs.String.{string_bytes};

use rp_ports::shelf::{Loaded, Shelf};
use std::alloc::Global;
use std::fs::{self, OpenFile};
use std::io::{self, Read};
use std::rt::Files;

/// Files by their paths, and the names whose loads failed.
#[derive(Drop)]
pub struct FileShelf<'a, R: Files> {
    rt: &'a R,
    failed: Vec<String>,
}

impl<'a, R: Files> FileShelf<'a, R> {
    /// A shelf with no failed name.
    pub fn new(rt: &'a R, alloc: Global) -> FileShelf<'a, R>
        ensures { result.failed.items ≡ [] }
    {
        FileShelf {
            rt,
            failed: Vec::new(alloc),
        }
    }
}

/// How far a file was read.
enum Content {
    /// To its end.
    Whole,
    /// It has at least this many bytes, which is above the limit.
    Longer(u64),
    /// As far as there was memory.
    NoMemory,
}

/// Reads what is left of a file, at most `limit` bytes of it.
fn read_within<F: Read>(file: &mut F, limit: usize, into: &mut Vec<u8>) -> io::Result<Content>
    requires { vec_len into.old ≤ limit }
    ensures { IfOk result (λ content. IsWithin limit content into.new.items) }
{
    let mut buffer = [0u8; 4096];
    for _ in 0..u64::MAX {
        let count = file.read(&mut buffer)?;
        if count == 0 {
            return Ok(Content::Whole);
        }
        if count > limit - into.len() {
            return Ok(Content::Longer(into.len() as u64 + count as u64));
        }
        if into.extend_from_slice(&buffer[..count]).is_err() {
            return Ok(Content::NoMemory);
        }
    }
    Err(io::ErrorKind::Other.into())
}

/// Reads the file of a path.
fn read_file<R: Files>(rt: &R, path: &str, limit: usize, into: &mut Vec<u8>) -> io::Result<Content>
    ensures { IfOk result (λ content. IsWithin limit content into.new.items) }
{
    into.clear();
    let mut file = fs::open(rt, path)?;
    let length = file.metadata()?.len();
    if length > limit as u64 {
        return Ok(Content::Longer(length));
    }
    read_within(&mut file, limit, into)
}

impl<R: Files> Shelf for FileShelf<'_, R> {
    ghost files = { λ s. None };

    ghost failed = { λ s. map string_bytes s.failed.items };

    fn load(&mut self, name: &str, limit: usize, into: &mut Vec<u8>) -> Loaded {
        let alloc = *self.failed.allocator();
        let Ok(kept) = String::from_str(alloc, name) else {
            return Loaded::Memory;
        };
        if self.failed.reserve(1).is_err() {
            return Loaded::Memory;
        }
        match read_file(self.rt, name, limit, into) {
            Ok(Content::Whole) => Loaded::Done,
            Ok(Content::Longer(length)) => Loaded::Large(length),
            Ok(Content::NoMemory) => Loaded::Memory,
            Err(_) => match self.failed.push(kept) {
                Ok(()) => Loaded::Failed,
                Err(_) => Loaded::Memory,
            },
        }
    }
}
