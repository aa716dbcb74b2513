//! The bits that side-set and delay share.

ghost use Rattle.std.specs.Prelude.{◌≡◌, ℕ, ◌<◌, ◌≤◌, ◌^◌, ◌+◌, ◌-◌, ◌*◌, ◌/◌, ◌%◌, IfSome, Option};
ghost use Rattle.pio_words.specs.Side.{IsOptionalSide, IsPlainSide, IsSideField, IsScaledSide, optional_side_at, plain_side_at, scaled_side, side_at};

/// How a program uses the five bits that its instructions share between side-set and delay
/// (RP2040 Datasheet, 3.5.1).
#[derive(Clone, Copy, PartialEq, Eq)]
pub struct SideConfig {
    /// How many bits are a side-set value.
    pub count: u8,
    /// Whether a further bit above them says that the instruction has a side-set value at all.
    pub opt: bool,
    /// Whether side-set drives pin directions in place of levels.
    pub pindirs: bool,
}

/// What the five bits of one instruction say.
#[derive(Clone, Copy, PartialEq, Eq)]
pub struct SideDelay {
    /// The side-set value, where the instruction has one.
    pub value: Option<u8>,
    /// The delay, in cycles.
    pub delay: u8,
}

fn power_of_two(exponent: u8) -> u8
    requires { exponent ≤ 5 }
    ensures value { result ≡ 2 ^ exponent }
    ensures small { result ≤ 32 }
{
    match exponent {
        0 => 1,
        1 => 2,
        2 => 4,
        3 => 8,
        4 => 16,
        _ => 32,
    }
}

/// A value of `count` bits above a delay, in `width` bits.
fn scaled(value: u8, count: u8, delay: u8, width: u8) -> u8
    requires count_small { count ≤ width }
    requires width_small { width ≤ 5 }
    requires value_small { value < 2 ^ count }
    requires delay_small { delay < 2 ^ (width - count) }
    ensures value { result ≡ value * 2 ^ (width - count) + delay }
    ensures small { result < 2 ^ width }
{
    value * power_of_two(width - count) + delay
}

/// The value of `count` bits and the delay below it that `width` bits hold.
#[tactic(auto, using(crate::proofs::Scaled::scaled_laws))]
fn split(field: u8, count: u8, width: u8) -> SideDelay
    requires count_small { count ≤ width }
    requires width_small { width ≤ 5 }
    requires field_small { field < 2 ^ width }
    ensures value { result ≡ scaled_side field count width }
    ensures parts { IsScaledSide result field count width }
{
    let unit = power_of_two(width - count);
    SideDelay {
        value: Some(field / unit),
        delay: field % unit,
    }
}

fn optional_field(count: u8, value: Option<u8>, delay: u8) -> Option<u8>
    ensures some { IfSome result (λ field. IsOptionalSide count value delay field × (field < 32)) }
    ensures none { result ≡ None → (field : ℕ) → IsOptionalSide count value delay field → ⊥ }
{
    if count > 4 || delay >= power_of_two(4 - count) {
        return None;
    }
    match value {
        None => Some(delay),
        Some(value) => {
            if value < power_of_two(count) {
                Some(16 + scaled(value, count, delay, 4))
            } else {
                None
            }
        }
    }
}

fn plain_field(count: u8, value: Option<u8>, delay: u8) -> Option<u8>
    ensures some { IfSome result (λ field. IsPlainSide count value delay field × (field < 32)) }
    ensures none { result ≡ None → (field : ℕ) → IsPlainSide count value delay field → ⊥ }
{
    if count > 5 || delay >= power_of_two(5 - count) {
        return None;
    }
    match value {
        None => { if count == 0 { Some(delay) } else { None } }
        Some(value) => {
            if 0 < count && value < power_of_two(count) {
                Some(scaled(value, count, delay, 5))
            } else {
                None
            }
        }
    }
}

/// Bits 12:8 of an instruction with this side-set value, or none, and this delay.
pub(crate) fn side_field(side: &SideConfig, value: Option<u8>, delay: u8) -> Option<u8>
    ensures some { IfSome result (λ field. IsSideField side.now value delay field × (field < 32)) }
    ensures none { result ≡ None → (field : ℕ) → IsSideField side.now value delay field → ⊥ }
{
    if side.opt {
        optional_field(side.count, value, delay)
    } else {
        plain_field(side.count, value, delay)
    }
}

fn optional_side(count: u8, field: u8) -> Option<SideDelay>
    requires { field < 32 }
    ensures value { result ≡ optional_side_at count field }
    ensures some { IfSome result (λ s. IsOptionalSide count s.value s.delay field) }
    ensures none { result ≡ None → (value : Option ℕ) (delay : ℕ)
        → IsOptionalSide count value delay field → ⊥ }
{
    if count > 4 {
        return None;
    }
    if field >= 16 {
        return Some(split(field - 16, count, 4));
    }
    if field < power_of_two(4 - count) {
        Some(SideDelay {
            value: None,
            delay: field,
        })
    } else {
        None
    }
}

fn plain_side(count: u8, field: u8) -> Option<SideDelay>
    requires { field < 32 }
    ensures value { result ≡ plain_side_at count field }
    ensures some { IfSome result (λ s. IsPlainSide count s.value s.delay field) }
    ensures none { result ≡ None → (value : Option ℕ) (delay : ℕ)
        → IsPlainSide count value delay field → ⊥ }
{
    if count > 5 {
        None
    } else if count == 0 {
        Some(SideDelay {
            value: None,
            delay: field,
        })
    } else {
        Some(split(field, count, 5))
    }
}

/// What bits 12:8 of a word say under a side-set configuration (RP2040 Datasheet, 3.4.1).
///
/// `None` exactly where they say nothing: the configuration has more than five bits, or the word has
/// side-set bits without the bit that says that they count.
pub fn decode_side(word: u16, side: &SideConfig) -> Option<SideDelay>
    ensures value { result ≡ side_at side.now (word / 256 % 32) }
    ensures some { IfSome result (λ s. IsSideField side.now s.value s.delay (word / 256 % 32)) }
    ensures none { result ≡ None → (value : Option ℕ) (delay : ℕ)
        → IsSideField side.now value delay (word / 256 % 32) → ⊥ }
{
    let field = (word / 256 % 32) as u8;
    if side.opt {
        optional_side(side.count, field)
    } else {
        plain_side(side.count, field)
    }
}
