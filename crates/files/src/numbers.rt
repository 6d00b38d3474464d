// The numbers that fields write.
ghost use Rattle.std.specs.Prelude.{◌≡◌, ℕ, ◌<◌, ◌+◌, ◌*◌, ◌∷◌, pos, neg_ℤ, decimal, ◌↔◌, IsTrue, MatchOption};
ghost use Rattle.std.specs.Char.{digit_value};
ghost use Rattle.std.specs.Fmt.{signed_decimal};
ghost use Rattle.std.specs.Option.{SomeIff};
ghost use Rattle.files.specs.Fields.{Small, SmallPrice, SmallNext, next_text, Unpadded, Valued, IsText, NoText};
ghost use Rattle.files.specs.Splitting.{clean_decimal, clean_next, clean_signed};

use crate::fields::FieldText;

// The largest number that a file may hold, and the largest price, up or down.
const MAX_NUMBER: u64 = 2_000_000_000;

// The value with one digit more, where that is a digit and the value stays small. No step overflows 64 bits, and a small
// value fits 32 again.
fn with_digit(value: u32, digit: u8) -> Option<u32>
    ensures { SomeIff result ((digit_value digit < 10) × Small (value * 10 + digit_value digit)) (value * 10 + digit_value digit) }
{
    let digit = char::from(digit).to_digit(10)?;
    let value = u64::from(value) * 10 + u64::from(digit);
    (value <= MAX_NUMBER).then(|| value as u32)
}

// The value of a field of digits, where it is small enough.
#[tactic(auto, using(crate::specs::Spelling::unvalued_at))]
fn digits_value(field: &[u8]) -> Option<u32>
    ensures { MatchOption result ((n : ℕ) → Valued field.now n → ⊥) (Valued field.now) }
{
    let mut value = 0;
    for digit in field {
        value = with_digit(value, *digit)?;
    }
    Some(value)
}

// Whether a field has a byte, and begins with a 0 only if that is all.
fn is_unpadded(field: &[u8]) -> bool
    ensures { IsTrue result ↔ Unpadded field.now }
{
    !matches!(field, [] | [b'0', _, ..])
}

// The number that a field writes.
fn number(field: &[u8]) -> Option<u32>
    ensures { MatchOption result (NoText decimal Small field.now) (IsText decimal Small field.now) }
{
    if !is_unpadded(field) {
        return None;
    }
    digits_value(field)
}

// The price below 0 of this size; there is none of size 0.
fn below_zero(size: u32) -> Option<i64>
    ensures { MatchOption result (size ≡ 0) (λ z. (0 < size) × (z ≡ neg_ℤ (pos size))) }
{
    (size != 0).then(|| -i64::from(size))
}

// The price that a minus and these digits write.
fn price_below_zero(digits: &[u8]) -> Option<i64>
    ensures { MatchOption result (NoText signed_decimal SmallPrice (45 ∷ digits.now)) (IsText signed_decimal SmallPrice (45 ∷ digits.now)) }
{
    let size = number(digits)?;
    below_zero(size)
}

impl FieldText for u32 {
    ghost text = { decimal };

    ghost fine = { Small };

    ghost clean = { λ end x low fine. clean_decimal end low x fine };

    fn read(field: &[u8]) -> Option<u32> {
        number(field)
    }
}

impl FieldText for Option<usize> {
    ghost text = { next_text };

    ghost fine = { SmallNext };

    ghost clean = { λ end x low fine. clean_next end low x fine };

    fn read(field: &[u8]) -> Option<Option<usize>> {
        if field.is_empty() {
            return Some(None);
        }
        // A place holds every `u32`, and there is no `From` for that.
        number(field).map(|place| Some(place as usize))
    }
}

impl FieldText for i64 {
    ghost text = { signed_decimal };

    ghost fine = { SmallPrice };

    ghost clean = { λ end x low fine. clean_signed end low x fine };

    fn read(field: &[u8]) -> Option<i64> {
        match field {
            [b'-', digits @ ..] => price_below_zero(digits),
            _ => number(field).map(i64::from),
        }
    }
}
