ghost use Rattle.std.specs.Prelude.{◌<◌, IfOk, length};

use anyhow::{Result, bail};
use std::alloc::Global;

/// Appends the bytes that a text spells.
pub(crate) fn push_spelled(text: &str, out: &mut Vec<u8>) -> Result<()> {
    let mut rest = text.as_bytes();
    while !rest.is_empty() {
        rest = push_first(rest, out)?;
    }
    Ok(())
}

/// Appends the byte that stands first, if one does, and answers what stands behind it.
fn push_first<'a>(text: &'a [u8], out: &mut Vec<u8>) -> Result<&'a [u8]>
    requires { 0 < length text.now }
    ensures { IfOk result (λ rest. length rest.now < length text.now) }
{
    match text {
        [b'\\', b'e', rest @ ..] => Ok(rest),
        [b'\\', b'x', high, low, rest @ ..] => {
            out.push(digit(*high)? * 16 + digit(*low)?)?;
            Ok(rest)
        }
        [b'\\', letter, rest @ ..] => {
            out.push(escaped(*letter)?)?;
            Ok(rest)
        }
        [byte, rest @ ..] => {
            out.push(*byte)?;
            Ok(rest)
        }
        [] => unreachable!(),
    }
}

/// The byte that a letter after a backslash stands for.
fn escaped(letter: u8) -> Result<u8> {
    match letter {
        b'n' => Ok(b'\n'),
        b'r' => Ok(b'\r'),
        b's' => Ok(b' '),
        b'\\' => Ok(b'\\'),
        _ => bail!("no such escape: {}", letter.escape_ascii()),
    }
}

/// The value of a hexadecimal digit.
fn digit(letter: u8) -> Result<u8>
    ensures { IfOk result (λ value. value < 16) }
{
    match letter {
        b'0'..=b'9' => Ok(letter - b'0'),
        b'a'..=b'f' => Ok(letter - b'a' + 10),
        _ => bail!("no such digit: {}", letter.escape_ascii()),
    }
}

/// The words that these spell.
pub fn spelled_words(alloc: Global, words: &[&str]) -> Result<Vec<String>> {
    let mut spelled = Vec::new(alloc);
    for word in words {
        spelled.push(spelled_word(alloc, word)?)?;
    }
    Ok(spelled)
}

/// The word that this one spells.
fn spelled_word(alloc: Global, word: &str) -> Result<String> {
    let mut bytes = Vec::new(alloc);
    push_spelled(word, &mut bytes)?;
    Ok(String::from_str(alloc, std::str::from_utf8(bytes.as_slice())?)?)
}
