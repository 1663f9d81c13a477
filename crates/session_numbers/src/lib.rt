// The numbers of a session file: whole numbers in a range, or as far as a type holds them, and single floats.
#![tactic(auto)]

ghost use Rattle.std.specs.Prelude.{◌≡◌, ◌^◌, ◌<◌, ◌≤◌, length, Option, IfSome, OnSome, ℤ, option_and_then};
ghost use Rattle.session_numbers.specs.Numbers.{digits_of, whole_of, natural_of, int_of, quotient, fraction_of, unsigned_of, decimal_of, bits_of, num_of};
ghost use Rattle.session_numbers.specs.Code.{digit_in, run_in, Told, OnlyValue};

use std::num::f32_from_bits_with_nan;

#[cfg(test)]
mod tests;

// The most digits of a whole number and of a decimal.
const WHOLE_DIGITS: usize = 10;

const DECIMAL_DIGITS: usize = 7;

// The digits of a float's bits.
const BITS_DIGITS: usize = 8;

// The highest CH and BYTE.
pub const CH_HIGHEST: u64 = 65_535;

pub const BYTE_HIGHEST: u64 = 255;

// The value of a digit; a letter is one in lower case alone.
fn digit(b: u8, radix: u32) -> Option<u32>
    requires { (2 ≤ radix) × (radix ≤ 36) }
    ensures value { result ≡ digit_in radix b }
    ensures most { IfSome result (λ d. d < radix) }
{
    if b.is_ascii_uppercase() {
        return None;
    }
    char::from(b).to_digit(radix)
}

// The number that a run of digits writes, where each byte is a digit.
fn run(word: &[u8], radix: u32) -> Option<u64>
    requires radix { (2 ≤ radix) × (radix ≤ 36) }
    requires room { radix ^ length word.now < 2 ^ 64 }
    ensures value { result ≡ run_in radix word.now }
    ensures most { IfSome result (λ v. v < radix ^ length word.now) }
{
    let mut value = 0;
    for b in word {
        value = value * u64::from(radix) + u64::from(digit(*b, radix)?);
    }
    Some(value)
}

// The value of 1 to `most` decimal digits.
fn digits(word: &[u8], most: usize) -> Option<u64>
    requires { most ≤ 10 }
    ensures value { result ≡ digits_of most word.now }
    ensures most { IfSome result (λ v. v < 10 ^ length word.now) }
    ensures few { OnSome result (length word.now ≤ most) }
{
    if word.is_empty() || word.len() > most {
        return None;
    }
    run(word, 10)
}

// A whole number: an optional minus sign and 1 to 10 digits.
fn whole(word: &[u8]) -> Option<i64>
    ensures { result ≡ whole_of word.now }
{
    match word.strip_prefix(b"-") {
        Some(size) => Some(-(digits(size, WHOLE_DIGITS)? as i64)),
        None => Some(digits(word, WHOLE_DIGITS)? as i64),
    }
}

// A whole number, where the type holds it.
#[tactic(auto, using(crate::proofs::Ranges::told_some, crate::proofs::Ranges::told_only_value))]
pub fn whole_number<T: TryFrom<i64>>(word: &[u8]) -> Option<T>
where
    T::Error: Drop,
    ensures told { Told T.try_from_gives (whole_of word.now) result }
    ensures value { (value : ℤ → Option T) → OnlyValue T.try_from_gives value → result ≡ option_and_then value (whole_of word.now) }
{
    T::try_from(whole(word)?).ok()
}

// A whole number from 0 to the highest, as CH and BYTE are.
pub fn natural(word: &[u8], highest: u64) -> Option<u64>
    ensures value { result ≡ natural_of highest word.now }
    ensures most { IfSome result (λ n. n ≤ highest) }
{
    whole_number::<u64>(word).filter(|n| *n <= highest)
}

// A whole number of 32 bits with a sign.
pub fn int(word: &[u8]) -> Option<i32>
    ensures { result ≡ int_of word.now }
{
    whole_number::<i32>(word)
}

// A float by its bits, 8 lower-case hex digits.
fn bits(word: &[u8]) -> Option<f32>
    ensures { result ≡ bits_of word.now }
{
    if word.len() != BITS_DIGITS {
        return None;
    }
    Some(f32_from_bits_with_nan(run(word, 16)? as u32))
}

// The nearest float to value / 10 ^ places: both are below 2 ^ 24, so that each is a float, and the division is the one rounding.
fn nearest(value: u64, places: u32) -> f32
    requires { (value < 10 ^ 7) × (places ≤ 7) }
    ensures { result ≡ quotient value places }
{
    (value as f32) / (10u64.pow(places) as f32)
}

// Digits before a point and after it, at most 7 in all.
fn with_fraction(before: &[u8], after: &[u8]) -> Option<f32>
    ensures { result ≡ fraction_of before.now after.now }
{
    let room = DECIMAL_DIGITS.checked_sub(before.len())?;
    let units = digits(before, DECIMAL_DIGITS)?;
    let parts = digits(after, room)?;
    let places = after.len() as u32;
    Some(nearest(units * 10u64.pow(places) + parts, places))
}

// A decimal without a sign.
fn unsigned(word: &[u8]) -> Option<f32>
    ensures { result ≡ unsigned_of word.now }
{
    match word.iter().position(|b| *b == b'.') {
        Some(p) => with_fraction(&word[..p], &word[p + 1..]),
        None => Some(nearest(digits(word, DECIMAL_DIGITS)?, 0)),
    }
}

// A decimal: an optional minus sign, digits and perhaps a point among them. Minus zero keeps its sign.
fn decimal(word: &[u8]) -> Option<f32>
    ensures { result ≡ decimal_of word.now }
{
    match word.strip_prefix(b"-") {
        Some(size) => Some(-unsigned(size)?),
        None => unsigned(word),
    }
}

// A single float: `nan`, an infinity, its bits after `0x`, or a decimal.
pub fn num(word: &[u8]) -> Option<f32>
    ensures { result ≡ num_of word.now }
{
    match word {
        b"nan" => Some(f32::NAN),
        b"inf" => Some(f32::INFINITY),
        b"-inf" => Some(f32::NEG_INFINITY),
        _ => match word.strip_prefix(b"0x") {
            Some(digits) => bits(digits),
            None => decimal(word),
        },
    }
}
