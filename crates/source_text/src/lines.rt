//! The lines of a text, one after the other.

ghost use Rattle.std.specs.Prelude.{◌≡◌, ◌∷◌, ◌<◌, ◌==◌, [], length, position, IfSome, MatchOption};
ghost use Rattle.std.specs.List.{slice_split};
ghost use Rattle.std.specs.Str.Lines.{lines, strip_carriage_return};

/// The index of the first byte that is this one.
pub fn find(bytes: &[u8], byte: u8) -> Option<usize>
    ensures { result ≡ position (λ x. x == byte) bytes.now }
{
    bytes.iter().position(|x| *x == byte)
}

/// The part of some bytes before the first that is this one, and what follows it; none where it is not there.
#[tactic(auto, using(std::proofs::lemmas::List::take_rest, crate::proofs::LinesOf::split_none, crate::proofs::LinesOf::split_some))]
pub fn first_part(bytes: &[u8], byte: u8) -> Option<(&[u8], &[u8])>
    ensures parts { MatchOption result (slice_split (λ x. x == byte) bytes.now ≡ bytes.now ∷ [])
        (λ parts. slice_split (λ x. x == byte) bytes.now
        ≡ parts.0.now ∷ slice_split (λ x. x == byte) parts.1.now) }
    ensures shorter { IfSome result (λ parts. length parts.1.now < length bytes.now) }
{
    let end = find(bytes, byte)?;
    Some((&bytes[..end], &bytes[end + 1..]))
}

/// A line without the CR at its end.
pub fn without_return(line: &[u8]) -> &[u8]
    ensures { result.now ≡ strip_carriage_return line.now }
{
    if !line.is_empty() && line[line.len() - 1] == b'\r' {
        &line[..line.len() - 1]
    } else {
        line
    }
}

/// The first line of some bytes, without its LF or CR LF, and the bytes after it.
#[tactic(auto, using(crate::proofs::LinesOf::first_line, crate::proofs::LinesOf::last_line))]
pub fn first_line(bytes: &[u8]) -> (&[u8], &[u8])
    requires { 0 < length bytes.now }
    ensures line { lines bytes.now ≡ result.0.now ∷ lines result.1.now }
    ensures shorter { length result.1.now < length bytes.now }
{
    match first_part(bytes, b'\n') {
        Some((line, rest)) => (without_return(line), rest),
        None => (bytes, &[]),
    }
}
