//! The first line with a character that may not stand there.

ghost use Rattle.std.specs.Prelude.{◌≡◌, ◌≤◌, length};
ghost use Rattle.std.specs.Str.Lines.{lines};
ghost use Rattle.source_text.specs.Lines.{first_that};
ghost use Rattle.thumb_asm.specs.Lines.{has_other_char};

use source_text::first_line;
use thumb_parse::{are_allowed, code_part};

/// Whether a line has a character that may not stand before a comment.
#[tactic(auto, unfolding(crate::specs::Lines::has_other_char))]
fn has_other_char(line: &[u8]) -> bool
    ensures { result ≡ has_other_char line.now }
{
    !are_allowed(code_part(line))
}

/// The number of the first line that has a character that may not stand before a comment.
pub(crate) fn first_other_char(text: &[u8]) -> Option<u32>
    requires { length text.now ≤ 1048576 }
    ensures { result ≡ first_that has_other_char 1 (lines text.now) }
{
    let mut rest = text;
    let mut number: u32 = 0;
    while !rest.is_empty() {
        let (line, after) = first_line(rest);
        number += 1;
        if has_other_char(line) {
            return Some(number);
        }
        rest = after;
    }
    None
}
