ghost use Rattle.std.specs.Prelude.{◌≡◌, ◌<◌, ◌+◌, ◌-◌, ◌*◌, ◌^◌, IfSome, option_map};
ghost use Rattle.std.specs.Option.{SomeIff};
ghost use Rattle.std.specs.Int.{IsInRange};
ghost use Rattle.cedr_base.specs.Bytes.{comma};
ghost use Rattle.cedr_text.specs.Parts.{parts_of, parts_left, CutsField, IsSeparator};
ghost use Rattle.cedr_text.specs.Numbers.{whole_number, begin_value, time_value, int_value, LeadsWith, Spells};

use crate::parts::cut_part;
use cedr_base::{FOREVER, Time};

/// So many digits always fit 64 bits.
const SAFE_DIGITS: usize = 19;

/// The number that the text spells in digits, where it is at most `last`. Leading zeros are accepted.
fn read_number(text: &[u8], last: u64) -> Option<u64>
    ensures { result ≡ whole_number last text.now }
{
    if text.is_empty() {
        return None;
    }
    let mut value = 0u64;
    for byte in text {
        if !byte.is_ascii_digit() {
            return None;
        }
        value = push_digit(value, *byte)?;
    }
    if value <= last { Some(value) } else { None }
}

/// The number with one more digit, where it fits 64 bits.
fn push_digit(value: u64, digit: u8) -> Option<u64>
    requires { IsInRange 48 57 digit }
    ensures { SomeIff result (value * 10 + (digit - 48) < 2 ^ 64) (value * 10 + (digit - 48)) }
{
    value.checked_mul(10)?.checked_add(u64::from(digit - b'0'))
}

fn read_begin(text: &[u8]) -> Option<Time>
    ensures { result ≡ begin_value text.now }
{
    read_number(text, FOREVER - 1)
}

/// The finite time that the text spells, or `FOREVER` for `inf`.
fn read_time(text: &[u8]) -> Option<Time>
    ensures { result ≡ time_value text.now }
{
    match text {
        b"inf" => Some(FOREVER),
        _ => read_begin(text),
    }
}

/// The number that the digits in front spell, and how many these are, where they are few enough to fit.
#[inline(always)]
fn leading_number(bytes: &[u8]) -> Option<(u64, usize)>
    ensures { IfSome result (λ leading. LeadsWith bytes.now leading.0 leading.1) }
{
    let mut value = 0u64;
    for (at, byte) in bytes.iter().enumerate() {
        if !byte.is_ascii_digit() {
            return Some((value, at));
        }
        if at == SAFE_DIGITS {
            return None;
        }
        value = value * 10 + u64::from(*byte - b'0');
    }
    Some((value, bytes.len()))
}

/// The number that the first field spells and what stands after its separator, where that field is a few digits.
#[inline(always)]
fn cut_digits(bytes: &[u8], separator: u8) -> Option<(u64, Option<&[u8]>)>
    requires { IsSeparator separator }
    ensures { IfSome result (λ cut. CutsField (parts_of separator bytes.now) (parts_left separator (option_map (λ rest. rest.now) cut.1)) (λ field. Spells field cut.0)) }
{
    let (value, count) = leading_number(bytes)?;
    if count == 0 {
        None
    } else if count == bytes.len() {
        Some((value, None))
    } else if bytes[count] == separator {
        Some((value, Some(&bytes[count + 1..])))
    } else {
        None
    }
}

/// The number of the first field, where that is a numeral of at most `last`, and what stands after its comma, if it
/// has one. Leading zeros are accepted, and quotes have no meaning. It takes no memory. O(n) in the field.
#[inline(always)]
pub fn cut_number(bytes: &[u8], last: u64) -> (Option<u64>, Option<&[u8]>)
    ensures { CutsField (parts_of comma bytes.now) (parts_left comma (option_map (λ rest. rest.now) result.1)) (λ field. result.0 ≡ whole_number last field) }
{
    cut_number_at(bytes, b',', last)
}

/// The same with another separator.
#[inline(always)]
pub(crate) fn cut_number_at(bytes: &[u8], separator: u8, last: u64) -> (Option<u64>, Option<&[u8]>)
    requires { IsSeparator separator }
    ensures { CutsField (parts_of separator bytes.now) (parts_left separator (option_map (λ rest. rest.now) result.1)) (λ field. result.0 ≡ whole_number last field) }
{
    match cut_digits(bytes, separator) {
        Some((value, rest)) => ((value <= last).then_some(value), rest),
        None => {
            let (field, rest) = cut_part(bytes, separator);
            (read_number(field, last), rest)
        }
    }
}

/// The time of the first field, where that is a finite one or `inf`, and what stands after its comma, as
/// `cut_number` cuts it.
#[inline(always)]
pub fn cut_time(bytes: &[u8]) -> (Option<Time>, Option<&[u8]>)
    ensures { CutsField (parts_of comma bytes.now) (parts_left comma (option_map (λ rest. rest.now) result.1)) (λ field. result.0 ≡ time_value field) }
{
    cut_time_at(bytes, b',')
}

/// The same with another separator.
#[inline(always)]
pub(crate) fn cut_time_at(bytes: &[u8], separator: u8) -> (Option<Time>, Option<&[u8]>)
    requires { IsSeparator separator }
    ensures { CutsField (parts_of separator bytes.now) (parts_left separator (option_map (λ rest. rest.now) result.1)) (λ field. result.0 ≡ time_value field) }
{
    match cut_digits(bytes, separator) {
        Some((value, rest)) => ((value < FOREVER).then_some(value), rest),
        None => {
            let (field, rest) = cut_part(bytes, separator);
            (read_time(field), rest)
        }
    }
}

/// The number of 64 bits with sign that the first field spells, and what stands after its separator, if it has one.
#[inline(always)]
pub(crate) fn cut_int_at(bytes: &[u8], separator: u8) -> (Option<i128>, Option<&[u8]>)
    requires { IsSeparator separator }
    ensures { CutsField (parts_of separator bytes.now) (parts_left separator (option_map (λ rest. rest.now) result.1)) (λ field. result.0 ≡ int_value field) }
{
    match bytes {
        [b'-', digits @ ..] => match cut_number_at(digits, separator, 1 << 63) {
            (Some(number), rest) => (Some(-i128::from(number)), rest),
            (None, rest) => (None, rest),
        },
        _ => match cut_number_at(bytes, separator, (1 << 63) - 1) {
            (Some(number), rest) => (Some(i128::from(number)), rest),
            (None, rest) => (None, rest),
        },
    }
}
