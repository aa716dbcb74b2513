//! A table of names with their values.

ghost use Rattle.std.specs.Prelude.{◌≡◌, [], OnOk};
ghost use Rattle.source_text.specs.Symbols.{defined, found, put};

use std::alloc::{AllocError, Global};
use std::collections::BTreeMap;
use std::marker::Model;

/// Names with their values, in the order of the names' bytes. No name is there twice. Whoever writes a source chooses its names, so they
/// are kept in order and not by a hash: a look-up and a definition take no more steps than the logarithm of their number.
#[derive(Drop)]
pub struct Symbols<'a, V> {
    table: BTreeMap<&'a [u8], V>,
}

impl<'a, V> Model for Symbols<'a, V> {
    ghost use Rattle.std.specs.Prelude.{List, ℕ, map};

    ghost Value = { List (List ℕ × V) };

    ghost view = { λ symbols. map (λ entry. (entry.0.now, entry.1)) symbols.table.entries };
}

impl<'a, V: Copy + Drop> Symbols<'a, V> {
    /// A table without names.
    pub fn new(alloc: Global) -> Symbols<'a, V>
        ensures { result ≡ [] }
    {
        Symbols {
            table: BTreeMap::new(alloc),
        }
    }

    /// The value of a name, if it is there.
    pub fn get(&self, name: &[u8]) -> Option<V>
        ensures { result ≡ found name.now self.now }
    {
        self.table.get(name).copied()
    }

    /// Adds a name with its value, in place of the one that it had.
    pub fn put(&mut self, name: &'a [u8], value: V) -> Result<(), AllocError>
        ensures { OnOk result (self.new ≡ put name.now value self.old) }
    {
        self.table.insert(name, value)?;
        Ok(())
    }

    /// Adds a name with its value if it is not there yet: a name keeps its first value.
    pub fn define(&mut self, name: &'a [u8], value: V) -> Result<(), AllocError>
        ensures { OnOk result (self.new ≡ defined name.now value self.old) }
    {
        if self.get(name).is_some() {
            return Ok(());
        }
        self.put(name, value)
    }
}
