use crate::bytes::{bytes, tell};
use anyhow::{Result, bail};
use cedr_base::{FieldType, OutOfMemory, Time};
use cedr_text::{
    EventText, LineFault, ReadLineFault, Shape, read_line, read_text_line, write_number,
    write_text_rows, write_time,
};
use std::alloc::Global;
use std::slice;

/// Writes what a line says.
pub(crate) fn read(rt: &impl Print, alloc: Global, shape: &str, line: &str) -> Result<()> {
    let line = bytes(alloc, line)?;
    if shape == "bare" {
        return tell_reading(rt, alloc, read_text_line(alloc, line.as_slice()));
    }
    let shape = shape_of(alloc, shape)?;
    tell_reading(rt, alloc, read_shaped(alloc, line.as_slice(), &shape))
}

/// What a line says whose payload has this shape.
fn read_shaped(
    alloc: Global,
    line: &[u8],
    shape: &Shape,
) -> Result<Option<EventText<'static>>, ReadLineFault> {
    match read_line(alloc, line, shape)? {
        Some(event) => Ok(Some(EventText::from_line(alloc, event)?)),
        None => Ok(None),
    }
}

/// What the payloads of a line have to be.
pub(crate) fn shape_of(alloc: Global, word: &str) -> Result<Shape> {
    if word == "any" {
        return Ok(Shape::AnyText);
    }
    let mut types = Vec::new(alloc);
    for part in word.split(',') {
        types.push(type_of(part)?)?;
    }
    Ok(Shape::Fields(types))
}

fn type_of(word: &str) -> Result<FieldType> {
    match word {
        "int" => Ok(FieldType::Number),
        "text" => Ok(FieldType::Bytes),
        _ => bail!("no type: {word}"),
    }
}

fn tell_reading(
    rt: &impl Print,
    alloc: Global,
    read: Result<Option<EventText<'_>>, ReadLineFault>,
) -> Result<()> {
    match read {
        Ok(event) => tell(rt, alloc, event_text(alloc, event.as_ref())?.as_slice()),
        Err(ReadLineFault::Line(fault)) => tell_fault(rt, fault),
        Err(ReadLineFault::OutOfMemory) => bail!("out of memory"),
    }
}

fn tell_fault(rt: &impl Print, fault: LineFault) -> Result<()> {
    println!(rt; "  fault {}: {fault}", fault.number())?;
    Ok(())
}

/// The id and the row of an insertion or a revision, the id and the end of a retraction, or the time of a guarantee.
fn event_text(alloc: Global, event: Option<&EventText<'_>>) -> Result<Vec<u8>, OutOfMemory> {
    let mut out = Vec::new(alloc);
    match event {
        None => out.extend_from_slice(b"nothing")?,
        Some(EventText::Insert { id, row }) => {
            write_number(*id, &mut out)?;
            out.push(b' ')?;
            write_text_rows(slice::from_ref(row), &mut out)?;
        }
        Some(EventText::Retract { id, end }) => {
            write_number(*id, &mut out)?;
            put_time(b" ends at ", *end, &mut out)?;
        }
        Some(EventText::Revise { id, row }) => {
            write_number(*id, &mut out)?;
            out.extend_from_slice(b" is now ")?;
            write_text_rows(slice::from_ref(row), &mut out)?;
        }
        Some(EventText::Promise(time)) => put_time(b"from ", *time, &mut out)?,
    }
    Ok(out)
}

fn put_time(word: &[u8], time: Time, out: &mut Vec<u8>) -> Result<(), OutOfMemory> {
    out.extend_from_slice(word)?;
    write_time(time, out)
}
