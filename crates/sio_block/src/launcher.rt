//! The launcher of core 1: the words that it has taken.

ghost use Rattle.std.specs.Prelude.{◌≡◌};
ghost use Rattle.sio_block.specs.Launcher.{fits_after, is_last, answer_to, taken_after, launch_after};

use crate::Launch;
use arrayvec::ArrayVec;

/// A word fits after those that were taken: 0, 0, 1, and then any three.
fn fits_after(taken: &ArrayVec<u32, 5>, word: u32) -> bool
    ensures { result ≡ fits_after taken.now.items word }
{
    match taken.len() {
        0 | 1 => word == 0,
        2 => word == 1,
        _ => true,
    }
}

/// The answer to a word: itself where it fits, else its complement.
pub(crate) fn answer_to(taken: &ArrayVec<u32, 5>, word: u32) -> u32
    ensures { result ≡ answer_to taken.now.items word }
{
    if fits_after(taken, word) { word } else { !word }
}

/// Takes a word; Some where it is the sixth.
pub(crate) fn take(taken: &mut ArrayVec<u32, 5>, word: u32) -> Option<Launch>
    ensures after { taken.new.items ≡ taken_after taken.old.items word }
    ensures launch { result ≡ launch_after taken.old.items word }
{
    if !fits_after(taken, word) {
        taken.clear();
        return None;
    }
    if taken.len() < 5 {
        taken.push(word);
        return None;
    }
    let words = taken.as_slice();
    let launch = Launch {
        vtor: words[3],
        sp: words[4],
        entry: word,
    };
    taken.clear();
    Some(launch)
}
