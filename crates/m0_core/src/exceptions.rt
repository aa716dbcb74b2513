//! What an entry leaves in LR, and how many beats an entry and a return have (ARMv6-M Architecture Reference Manual, B1.5.8,
//! Exception return behavior).

/// EXC_RETURN of a return to Handler mode.
pub const TO_HANDLER: u32 = 0xffff_fff1;

/// EXC_RETURN of a return to Thread mode on the main stack.
pub const TO_MAIN: u32 = 0xffff_fff9;

/// EXC_RETURN of a return to Thread mode on the process stack.
pub const TO_PROCESS: u32 = 0xffff_fffd;

/// How many beats an entry has: it takes the exception, stacks eight words, reads the vector, and has five inner ones.
pub const ENTRY_BEATS: usize = 15;

/// How many beats a return has: an inner one, eight reads, and four inner ones.
pub const RETURN_BEATS: usize = 13;
