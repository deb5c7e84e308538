ghost use Rattle.std.specs.Prelude.{◌≡◌, ◌∷◌, []};
ghost use Rattle.cedr_expr.specs.Ties.{tied_fields};
ghost use Rattle.cedr_expr.specs.Tags.{mixed, all_mixed, field_mixed, fields_mixed, field_tag, tag_of};

use crate::side::Side;
use crate::test::Test;
use crate::tie::tied_field;
use cedr_base::{FieldRef, Payload};

/// The multiplier of the hash of Fowler, Noll and Vo for 64 bits.
const MULTIPLIER: u64 = 1_099_511_628_211;

fn mix(hash: u64, number: u64) -> u64
    ensures { result ≡ mixed hash number }
{
    hash.wrapping_mul(MULTIPLIER).wrapping_add(number)
}

/// Mixes bytes into a number, one after the other.
#[tactic(auto, using(crate::proofs::TagLemmas::mixed_more))]
fn mix_bytes(seed: u64, bytes: &[u8]) -> u64
    ensures { result ≡ all_mixed seed bytes.now }
{
    let mut hash = seed;
    for byte in bytes {
        hash = mix(hash, u64::from(*byte));
    }
    hash
}

/// Mixes the code of a field into a number. The last byte is multiplied once more, since a tag drops the lowest bits.
fn mix_field(hash: u64, field: &FieldRef<'_>) -> u64
    ensures { result ≡ field_mixed hash field.now }
{
    mix(mix_bytes(hash, field.code()), 0)
}

/// Mixes the field that a test wants equal to one of the other side, where there is one.
fn mix_tied(hash: u64, side: Side, width: usize, payload: &Payload, test: &Test) -> u64
    ensures { result ≡ fields_mixed hash (tied_fields side width payload.now (test.now ∷ [])) }
{
    match tied_field(side, width, payload, test) {
        Some(field) => mix_field(hash, &field),
        None => hash,
    }
}

/// The tag of one side's payload, where left payloads have this many fields.
#[tactic(auto, using(crate::proofs::TagLemmas::tied_mixed_more))]
pub(crate) fn tag_by(tests: &[Test], side: Side, width: usize, payload: &Payload) -> u64
    ensures { result ≡ tag_of side width tests.now payload.now }
{
    let mut hash = 0;
    for test in tests {
        hash = mix_tied(hash, side, width, payload, test);
    }
    hash / 4 + 1
}

/// A number from 1 to 2^62 that equal fields have in common. It takes no memory. O(n) in a text's bytes.
pub fn field_tag(field: &FieldRef<'_>) -> u64
    ensures { result ≡ field_tag field.now }
{
    mix_field(0, field) / 4 + 1
}
