ghost use Rattle.std.specs.Prelude.{◌≡◌, ◌≢◌, ◌∷◌, [], option_map, MatchBool};
ghost use Rattle.std.specs.Iterator.{YieldsFirstRef, item_count};
ghost use Rattle.cedr_text.specs.Parts.{parts_of, parts_left};

use memchr::memchr;
use std::marker::Model;

/// The parts between the separators in some bytes that weren't taken yet: lines, or the fields of a
/// line. Contracts see the list of them. There is always one part more than separators.
#[derive(Drop)]
pub struct Parts<'a> {
    rest: Option<&'a [u8]>,
    separator: u8,
}

impl<'a> Model for Parts<'a> {
    ghost use Rattle.std.specs.Prelude.{List, ℕ, option_map};
    ghost use Rattle.cedr_text.specs.Parts.{parts_left};

    ghost Value = { List (List ℕ) };

    ghost view = { λ parts. parts_left parts.separator (option_map (λ text. text.now) parts.rest) };
}

impl<'a> Parts<'a> {
    pub fn new(bytes: &'a [u8], separator: u8) -> Parts<'a>
        ensures { result ≡ parts_of separator bytes.now }
    {
        Parts {
            rest: Some(bytes),
            separator,
        }
    }

    /// The parts of what is left after a part, and none where nothing is.
    pub(crate) fn left(rest: Option<&'a [u8]>, separator: u8) -> Parts<'a>
        ensures { result ≡ parts_left separator (option_map (λ text. text.now) rest.entry) }
    {
        Parts { rest, separator }
    }

    /// Whether all parts were taken.
    pub fn is_empty(&self) -> bool
        ensures { MatchBool result (self.now ≡ []) (self.now ≢ []) }
    {
        match self.rest {
            Some(_) => false,
            None => true,
        }
    }
}

impl<'a> Iterator for Parts<'a> {
    type Item = &'a [u8];

    ghost next_gives = { YieldsFirstRef (λ parts. parts) };

    ghost remaining = { item_count (λ parts. parts) };

    fn next(&mut self) -> Option<&'a [u8]> {
        let bytes = self.rest?;
        let (part, rest) = cut_part(bytes, self.separator);
        self.rest = rest;
        Some(part)
    }
}

/// The first part, and what stands after its separator, if it has one.
pub(crate) fn cut_part(bytes: &[u8], separator: u8) -> (&[u8], Option<&[u8]>)
    ensures { parts_of separator bytes.now
        ≡ result.0.now ∷ parts_left separator (option_map (λ rest. rest.now) result.1) }
{
    match memchr(separator, bytes) {
        Some(at) => (&bytes[..at], Some(&bytes[at + 1..])),
        None => (bytes, None),
    }
}
