//! Fields as strings of bytes, one after the other, whose order as bytes is the order of the fields.

ghost use Rattle.std.specs.Prelude.{◌≡◌, ◌≢◌, ◌↔◌, ℕ, ◌+◌, ◌-◌, ◌^◌, ◌<◌, ◌≤◌, false, cond, IsFalse, suc, ℤ, pos, int_lt, List, ◌∷◌, ◌++◌, length, drop, slice_index, Some, None, OnOk, FitsSigned};
ghost use Rattle.std.specs.Int.{w128, bytes_high_first};
ghost use Rattle.cedr_base.specs.declared.field.Field.{Field};
ghost use Rattle.cedr_base.specs.FieldCodes.{byte_width, number_size, number_width, number_tag, field_code, number_code, text_code, unescaped};

use crate::code_buffer::CodeBuffer;
use crate::memory::OutOfMemory;

pub(crate) const TEXT_TAG: u8 = 64;

/// Appends the code of a number, 1 to 17 bytes. Where memory runs out the buffer is only to be dropped.
#[inline(always)]
pub(crate) fn push_number(value: i128, out: &mut CodeBuffer) -> Result<(), OutOfMemory>
    ensures { OnOk result (out.new ≡ out.old ++ number_code value) }
{
    let width = width_of(size_of(value));
    let tag = tag_of(value, width);
    let code = tagged(tag, value.cast_unsigned(), width);
    out.extend(&code[16 - width..])
}

/// A byte and then the lowest bytes of a number, the highest of them first, at the end.
#[inline(always)]
fn tagged(tag: u8, bits: u128, count: usize) -> [u8; 17]
    requires { count ≤ 16 }
    ensures { drop (16 - count) result ≡ tag ∷ bytes_high_first count bits }
{
    let mut code = [0; 17];
    code[1..].copy_from_slice(&bits.to_be_bytes());
    code[16 - count] = tag;
    code
}

/// The number itself, and for a negative one the complement of its bits.
fn size_of(value: i128) -> u128
    ensures { result ≡ number_size value }
{
    let bits = value.cast_unsigned();
    if value < 0 { !bits } else { bits }
}

/// How many bytes a size takes without leading zeros.
fn width_of(size: u128) -> usize
    ensures width { result ≡ byte_width 16 size }
    ensures within { result ≤ 16 }
{
    16 - (size.leading_zeros() / 8) as usize
}

/// The first byte of a number's code.
fn tag_of(value: i128, width: usize) -> u8
    requires is_width { width ≡ number_width value }
    requires within { width ≤ 16 }
    ensures { result ≡ number_tag value }
{
    if value < 0 {
        31 - width as u8
    } else {
        32 + width as u8
    }
}

/// Appends the code of a text, 2 bytes more than it has, and another for each 0 and 1. Where memory runs out a part may stand there.
pub(crate) fn push_text(bytes: &[u8], out: &mut CodeBuffer) -> Result<(), OutOfMemory>
    ensures { OnOk result (out.new ≡ out.old ++ text_code bytes.now) }
{
    out.push(TEXT_TAG)?;
    let mut rest = bytes;
    loop {
        let run = run_len(rest);
        out.extend(&rest[..run])?;
        if run == rest.len() {
            break;
        }
        out.push(1)?;
        out.push(rest[run] + 1)?;
        rest = &rest[run + 1..];
    }
    out.push(0)?;
    Ok(())
}

/// How many bytes come before the first 0 or 1, or the whole length.
pub(crate) fn run_len(bytes: &[u8]) -> usize
    ensures within { result ≤ length bytes.now }
    ensures before { (k : ℕ) → k < result → 2 ≤ slice_index bytes.now k }
    ensures found { result < length bytes.now → slice_index bytes.now result < 2 }
{
    bytes.iter().position(|b| *b < 2).unwrap_or(bytes.len())
}

/// How long the code is that these bytes begin with, and 0 for no bytes. O(1) for a number, O(n) for a text.
pub(crate) fn field_len(bytes: &[u8]) -> usize
    ensures within { result ≤ length bytes.now }
    ensures first { (f : Field) (rest : List ℕ) → bytes.now ≡ field_code f ++ rest → result ≡ length (field_code f) }
{
    let Some(tag) = bytes.first() else {
        return 0;
    };
    if *tag >= TEXT_TAG {
        text_len(bytes)
    } else {
        number_len(*tag).min(bytes.len())
    }
}

/// How long the code of a text is that these bytes begin with.
fn text_len(bytes: &[u8]) -> usize
    ensures within { result ≤ length bytes.now }
    ensures first { (text rest : List ℕ) → bytes.now ≡ text_code text ++ rest → result ≡ length (text_code text) }
{
    let end = zero_place(bytes);
    if end < bytes.len() { end + 1 } else { end }
}

/// The place of the first 0, or the whole length.
fn zero_place(bytes: &[u8]) -> usize
    ensures within { result ≤ length bytes.now }
    ensures before { (k : ℕ) → k < result → slice_index bytes.now k ≢ 0 }
    ensures found { result < length bytes.now → slice_index bytes.now result ≡ 0 }
{
    bytes.iter().position(|b| *b == 0).unwrap_or(bytes.len())
}

/// How long the code of a number with this tag is.
fn number_len(tag: u8) -> usize
    requires { tag < 64 }
    ensures some { 0 < result }
    ensures number { (n : ℤ) → tag ≡ number_tag n → result ≡ suc (number_width n) }
{
    if tag < 32 {
        32 - tag as usize
    } else {
        tag as usize - 31
    }
}

/// The number whose code these bytes begin with, and `None` where they begin with a text's.
pub(crate) fn read_number(bytes: &[u8]) -> Option<i128>
    ensures number { (n : ℤ) (rest : List ℕ) → FitsSigned w128 n → bytes.now ≡ number_code n ++ rest → result ≡ Some n }
    ensures text { (text rest : List ℕ) → bytes.now ≡ text_code text ++ rest → result ≡ None }
{
    let tag = *bytes.first()?;
    if tag >= TEXT_TAG {
        return None;
    }
    let len = number_len(tag);
    if len > 17 || len > bytes.len() {
        return None;
    }
    let size = read_size(tag < 32, &bytes[1..len]);
    signed(tag < 32, size)
}

/// The number of this sign and size.
fn signed(negative: bool, size: u128) -> Option<i128>
    ensures { (n : ℤ) → FitsSigned w128 n → negative ≡ int_lt n (pos 0) → size ≡ number_size n → result ≡ Some n }
{
    let size = i128::try_from(size).ok()?;
    Some(if negative { -1 - size } else { size })
}

/// A size from its bytes, the highest of them first. A negative number has those of the complement.
fn read_size(negative: bool, bytes: &[u8]) -> u128
    requires { length bytes.now ≤ 16 }
    ensures { (k n : ℕ) → n < 256 ^ k → bytes.now ≡ bytes_high_first k (cond negative (2 ^ 128 - suc n) n) → result ≡ n }
{
    let mut size = 0;
    for byte in bytes {
        size = size * 256 + digit(negative, *byte) as u128;
    }
    size
}

/// One byte of a size, from a byte of the number.
fn digit(negative: bool, byte: u8) -> u8
    ensures { result ≡ cond negative (255 - byte) byte }
{
    if negative { 255 - byte } else { byte }
}

/// Appends the bytes of the text whose code these bytes begin with. O(n). What it appends for other bytes isn't
/// determined. Where memory runs out a part may stand there.
pub(crate) fn append_text(bytes: &[u8], out: &mut Vec<u8>) -> Result<(), OutOfMemory>
    ensures { (text rest : List ℕ) → bytes.now ≡ text_code text ++ rest → OnOk result (out.new.items ≡ out.old.items ++ text) }
{
    if bytes.is_empty() {
        return Ok(());
    }
    write_unescaped(&bytes[1..], out)
}

/// Appends a text from its escaped bytes, up to the 0 behind them.
fn write_unescaped(bytes: &[u8], out: &mut Vec<u8>) -> Result<(), OutOfMemory>
    ensures { OnOk result (out.new.items ≡ out.old.items ++ unescaped false bytes.now) }
{
    let mut rest = bytes;
    loop {
        let run = run_len(rest);
        out.extend_from_slice(&rest[..run])?;
        if is_end(rest, run) {
            return Ok(());
        }
        out.push(rest[run + 1].saturating_sub(1))?;
        rest = &rest[run + 2..];
    }
}

/// Whether a text ends with this run.
fn is_end(bytes: &[u8], run: usize) -> bool
    ensures { IsFalse result ↔ ((run + 1 < length bytes.now) × (slice_index bytes.now run ≢ 0)) }
{
    run >= bytes.len() || bytes[run] == 0 || bytes.len() - run == 1
}
