//! Positions in a text.

ghost use Rattle.std.specs.Prelude.{◌≡◌, ◌-◌, ◌^◌};
ghost use Rattle.source_text.specs.Position.{IsPositionBelow, position_behind};

/// A position in a text of less than 4 GiB: lines and columns count from 1, and a column is a byte.
#[derive(Clone, Copy)]
pub struct SourcePosition {
    /// The line.
    pub line: u32,
    /// The byte of the line.
    pub column: u32,
}

/// The position of the character after this one.
pub fn position_after(byte: u8, position: SourcePosition) -> SourcePosition
    requires { IsPositionBelow position (2 ^ 32 - 1) }
    ensures { result ≡ position_behind byte position }
{
    if byte == b'\n' {
        SourcePosition {
            line: position.line + 1,
            column: 1,
        }
    } else {
        SourcePosition {
            line: position.line,
            column: position.column + 1,
        }
    }
}
