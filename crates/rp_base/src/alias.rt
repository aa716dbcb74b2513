//! Writes through the atomic aliases of a register block (RP2040 Datasheet, 2.1.2 "Atomic Register Access").

ghost use Rattle.std.specs.Prelude.{◌≡◌};
ghost use Rattle.rp_base.specs.Alias.{aliased};

/// What a write of a value through an alias leaves of a word: 0 is plain, 1 XOR, 2 sets bits, 3 clears bits.
pub fn aliased(alias: u8, word: u32, value: u32) -> u32
    ensures { result ≡ aliased alias word value }
{
    match alias {
        0 => value,
        1 => word ^ value,
        2 => word | value,
        _ => word & !value,
    }
}
