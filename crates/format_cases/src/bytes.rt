use anyhow::{Result, bail};
use std::alloc::{AllocError, Global};
use std::fmt::Write;
use std::mem;

/// A longer run of equal bytes is written with its count.
const LONGEST_RUN: usize = 20;

/// What stands before bytes that will be repeated, and how often they will be.
#[derive(Drop)]
struct Repeated {
    before: Vec<u8>,
    count: usize,
}

/// The bytes that a word stands for.
pub(crate) fn bytes(alloc: Global, word: &str) -> Result<Vec<u8>> {
    let mut out = Vec::new(alloc);
    let mut open = Vec::new(alloc);
    for (at, part) in word.split('\\').enumerate() {
        let plain = if at == 0 {
            part
        } else {
            put_escaped(part, &mut out, &mut open)?
        };
        out.extend_from_slice(plain.as_bytes())?;
    }
    if !open.is_empty() {
        bail!("bytes that are repeated have no end: {word}");
    }
    Ok(out)
}

/// Puts what the front of a part that stood behind a backslash means, and answers the rest of the part.
fn put_escaped<'a>(part: &'a str, out: &mut Vec<u8>, open: &mut Vec<Repeated>) -> Result<&'a str> {
    if let Some((byte, rest)) = escaped_byte(part) {
        out.push(byte)?;
        return Ok(rest);
    }
    if let Some(rest) = part.strip_prefix('-') {
        return Ok(rest);
    }
    if let Some(rest) = part.strip_prefix('}') {
        end_repeated(out, open)?;
        return Ok(rest);
    }
    match part.strip_prefix('{').and_then(|rest| rest.split_once('*')) {
        Some((count, rest)) => {
            begin_repeated(count, out, open)?;
            Ok(rest)
        }
        None => bail!("no escape: {part}"),
    }
}

/// The byte for which the front of a part stands, and the rest of the part.
fn escaped_byte(part: &str) -> Option<(u8, &str)> {
    if let Some(rest) = part.strip_prefix('n') {
        return Some((b'\n', rest));
    }
    if let Some(rest) = part.strip_prefix('r') {
        return Some((b'\r', rest));
    }
    let (digits, rest) = part.strip_prefix('x')?.split_at_checked(2)?;
    let byte = u8::from_str_radix(digits, 16).ok()?;
    Some((byte, rest))
}

fn begin_repeated(count: &str, out: &mut Vec<u8>, open: &mut Vec<Repeated>) -> Result<()> {
    let count = count.parse::<usize>()?;
    let alloc = *out.allocator();
    let before = mem::replace(out, Vec::new(alloc));
    open.push(Repeated { before, count })?;
    Ok(())
}

fn end_repeated(out: &mut Vec<u8>, open: &mut Vec<Repeated>) -> Result<()> {
    let Some(repeated) = open.pop() else {
        bail!("no bytes are repeated");
    };
    let mut all = repeated.before;
    for _ in 0..repeated.count {
        all.extend_from_slice(out.as_slice())?;
    }
    *out = all;
    Ok(())
}

/// The word that stands for the bytes, but for spaces, which stand as they are.
pub(crate) fn shown(alloc: Global, bytes: &[u8]) -> Result<String, AllocError> {
    let mut text = String::new(alloc);
    if bytes.is_empty() {
        text.push_str("\\-")?;
    }
    for run in bytes.chunk_by(|byte, next| byte == next) {
        put_run(run, &mut text)?;
    }
    Ok(text)
}

fn put_run(run: &[u8], text: &mut String) -> Result<(), AllocError> {
    if run.len() <= LONGEST_RUN {
        return put_bytes(run, text);
    }
    write!(text, "\\{{{}*", run.len())?;
    put_bytes(&run[..1], text)?;
    text.push_str("\\}")
}

fn put_bytes(bytes: &[u8], text: &mut String) -> Result<(), AllocError> {
    for byte in bytes {
        put_byte(*byte, text)?;
    }
    Ok(())
}

fn put_byte(byte: u8, text: &mut String) -> Result<(), AllocError> {
    match byte {
        b'\n' => text.push_str("\\n"),
        b'\r' => text.push_str("\\r"),
        b' '..=b'[' | b']'..=b'~' => text.push(char::from(byte)),
        _ => write!(text, "\\x{byte:02x}"),
    }
}

/// Writes the bytes as an answer.
pub(crate) fn tell(rt: &impl Print, alloc: Global, bytes: &[u8]) -> Result<()> {
    println!(rt; "  {}", shown(alloc, bytes)?)?;
    Ok(())
}
