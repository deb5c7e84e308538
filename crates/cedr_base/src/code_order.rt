//! Codes compared as strings of bytes, without the search for the first difference that slices of bytes make.

ghost use Rattle.std.specs.Prelude.{◌≡◌, ◌≤◌, length, take};
ghost use Rattle.std.specs.Int.{w64, to_be_bytes};
ghost use Rattle.cedr_base.specs.Order.{text_cmp};

use std::cmp::Ordering;

/// How two codes compare. O(n) in their common front, eight bytes at once.
pub(crate) fn compare_codes(one: &[u8], other: &[u8]) -> Ordering
    ensures { result ≡ text_cmp one.now other.now }
{
    let both = one.len().min(other.len());
    if both < 8 {
        return compare_bytes(one, other);
    }
    let last = both - 8;
    let mut at = 0;
    while at < last {
        let a = first_eight(&one[at..]);
        let b = first_eight(&other[at..]);
        if a != b {
            return a.cmp(&b);
        }
        at += 8;
    }
    // The last eight bytes may begin among those that are the same.
    let a = first_eight(&one[last..]);
    let b = first_eight(&other[last..]);
    if a != b {
        return a.cmp(&b);
    }
    one.len().cmp(&other.len())
}

/// The first eight bytes as a number, the highest of them first.
fn first_eight(bytes: &[u8]) -> u64
    requires { 8 ≤ length bytes.now }
    ensures { to_be_bytes w64 result ≡ take 8 bytes.now }
{
    u64::from_be_bytes([
        bytes[0], bytes[1], bytes[2], bytes[3], bytes[4], bytes[5], bytes[6], bytes[7],
    ])
}

/// How bytes compare, one after the other.
fn compare_bytes(one: &[u8], other: &[u8]) -> Ordering
    ensures { result ≡ text_cmp one.now other.now }
{
    let both = one.len().min(other.len());
    for i in 0..both {
        if one[i] != other[i] {
            return one[i].cmp(&other[i]);
        }
    }
    one.len().cmp(&other.len())
}
