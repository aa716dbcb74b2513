//! Levels, and the entries of a script.

/// What a script does to a pin.
#[derive(Clone, Copy, Debug, PartialEq, Eq)]
pub enum Level {
    /// It drives the pin low.
    Low,
    /// It drives the pin high.
    High,
    /// It leaves the pin free.
    Free,
}

/// A pin has a level from a cycle on.
#[derive(Clone, Copy, Debug, PartialEq, Eq)]
pub struct Entry {
    /// The first cycle that has the level.
    pub cycle: u64,
    /// The pin, 0 to 29.
    pub pin: u8,
    /// The level.
    pub level: Level,
}

/// An entry with the line that gives it.
#[derive(Clone, Copy, Debug, PartialEq, Eq)]
pub struct LineEntry {
    /// The first cycle that has the level.
    pub cycle: u64,
    /// The line, counted from 1.
    pub line: u32,
    /// The pin, 0 to 29.
    pub pin: u8,
    /// The level.
    pub level: Level,
}

impl Level {
    ghost use Rattle.std.specs.Prelude.{◌≡◌};
    ghost use Rattle.pin_script.specs.Levels.{drive_of};

    /// The level that is driven, none where the pin is free.
    pub fn drive(self) -> Option<bool>
        ensures { result ≡ drive_of self }
    {
        match self {
            Level::Low => Some(false),
            Level::High => Some(true),
            Level::Free => None,
        }
    }
}

impl LineEntry {
    ghost use Rattle.std.specs.Prelude.{◌≡◌};
    ghost use Rattle.pin_script.specs.Script.{without_line};

    /// The entry without its line.
    pub fn entry(&self) -> Entry
        ensures { result ≡ without_line self.now }
    {
        Entry {
            cycle: self.cycle,
            pin: self.pin,
            level: self.level,
        }
    }
}
