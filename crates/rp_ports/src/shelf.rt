//! Files that are loaded whole, by name.

ghost use Rattle.std.specs.Prelude.{◌≡◌, ℕ, List, Option};
ghost use Rattle.rp_ports.specs.Shelf.{Files, Answers, failed_after};

/// What a load answers.
#[derive(Clone, Copy, Debug, PartialEq, Eq)]
pub enum Loaded {
    /// The buffer holds the file's bytes and nothing else.
    Done,
    /// The file has this many bytes, which is above the limit.
    Large(u64),
    /// The file could not be loaded; its name joins the shelf's list of failed names.
    Failed,
    /// No memory was found for the bytes.
    Memory,
}

/// A shelf of files.
pub trait Shelf {
    /// The files that it holds by name, where it tells them. No load changes them.
    ghost files: { Self → Option Files };

    /// The names whose loads failed, in order. The list only grows.
    ghost failed: { Self → List (List ℕ) };

    /// Loads the file of this name, if it has at most `limit` bytes. Of `into`, nothing is known but after `Done`.
    fn load(&mut self, name: &str, limit: usize, into: &mut Vec<u8>) -> Loaded
        ensures kept { files self.new ≡ files self.old }
        ensures content { Answers (files self.old) name.now limit result into.new.items }
        ensures failures { failed self.new ≡ failed_after (failed self.old) name.now result };
}
