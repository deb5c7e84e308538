ghost use Rattle.std.specs.Prelude.{◌≡◌, ◌++◌, ◌∷◌, [], ℕ, List, IfSome};
ghost use Rattle.std.specs.Ordering.{ordering_then};
ghost use Rattle.cedr_base.specs.declared.field.Field.{Field};
ghost use Rattle.cedr_base.specs.declared.field.Field.TheVariants.{Bytes};
ghost use Rattle.cedr_base.specs.Order.{text_cmp};
ghost use Rattle.cedr_base.specs.FieldCodes.{field_code, text_code, escaped, escaped_byte};

use crate::field_code::{TEXT_TAG, run_len};
use std::cmp::Ordering;

/// The bytes of a text as they stand in its code. None for a number's code, and where the text has a byte 0 or 1.
pub(crate) fn plain_text(code: &[u8]) -> Option<&[u8]>
    ensures { (field : Field) → code.now ≡ field_code field → IfSome result (λ text. field ≡ Bytes text.now) }
{
    let tag = *code.first()?;
    if tag != TEXT_TAG {
        return None;
    }
    let rest = &code[1..];
    let run = run_len(rest);
    if run + 1 == rest.len() {
        Some(&rest[..run])
    } else {
        None
    }
}

/// How a field's code compares with that of a text. O(n).
pub(crate) fn compare_with_text(code: &[u8], text: &[u8]) -> Ordering
    ensures { result ≡ text_cmp code.now (text_code text.now) }
{
    let (compared, rest) = compare_first(code, TEXT_TAG);
    if compared != Ordering::Equal {
        return compared;
    }
    compare_escaped(rest, text)
}

fn compare_escaped(code: &[u8], text: &[u8]) -> Ordering
    ensures { result ≡ text_cmp code.now (escaped text.now ++ 0 ∷ []) }
{
    let mut rest = code;
    for byte in text {
        let (compared, behind) = compare_byte(rest, *byte);
        if compared != Ordering::Equal {
            return compared;
        }
        rest = behind;
    }
    rest.cmp(&&[0u8][..])
}

/// How bytes compare with a byte of a text, and what stands behind it.
fn compare_byte(code: &[u8], byte: u8) -> (Ordering, &[u8])
    ensures { (behind : List ℕ) → text_cmp code.now (escaped_byte byte ++ behind) ≡ ordering_then result.0 (text_cmp result.1.now behind) }
{
    if byte >= 2 {
        return compare_first(code, byte);
    }
    let (compared, rest) = compare_first(code, 1);
    if compared != Ordering::Equal {
        return (compared, rest);
    }
    compare_first(rest, byte + 1)
}

fn compare_first(code: &[u8], byte: u8) -> (Ordering, &[u8])
    ensures { (behind : List ℕ) → text_cmp code.now (byte ∷ behind) ≡ ordering_then result.0 (text_cmp result.1.now behind) }
{
    match code.first() {
        Some(first) => (first.cmp(&byte), &code[1..]),
        None => (Ordering::Less, code),
    }
}
