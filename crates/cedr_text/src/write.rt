ghost use Rattle.std.specs.Prelude.{◌≡◌, ◌++◌, ◌∷◌, ◌+◌, ◌-◌, ◌^◌, [], min, OnOk, OnErr};
ghost use Rattle.std.specs.Fmt.{signed_decimal};
ghost use Rattle.csv.specs.Writing.{writer_setup, fields_written, next_sep};
ghost use Rattle.cedr_text.specs.Texts.{comma, line_feed, time_text, text_text, field_text, payload_text, row_text, rows_text};
ghost use Rattle.cedr_text.specs.RowWriters.{row_setup, text_of, IsAtRow, IsInRow};

use cedr_base::{FOREVER, Field, FieldRef, OutOfMemory, Payload, Row, Time};
use csv::{Writer, WriterBuilder};
use itoa::{Buffer, Integer};
use std::alloc::Global;
use std::slice;

/// Appends the time in decimal digits, or `inf` for `FOREVER`. Where memory runs out `out` is as before.
pub fn write_time(time: Time, out: &mut Vec<u8>) -> Result<(), OutOfMemory>
    ensures ok { OnOk result (out.new.items ≡ out.old.items ++ time_text time) }
    ensures err { OnErr result (out.new.items ≡ out.old.items) }
{
    if time == FOREVER {
        out.extend_from_slice(b"inf")?;
        return Ok(());
    }
    write_number(time, out)
}

/// Appends the number in decimal digits, after a `-` where it is below zero. Where memory runs out `out` is as
/// before.
pub fn write_number<N: Integer>(number: N, out: &mut Vec<u8>) -> Result<(), OutOfMemory>
    ensures ok { OnOk result (out.new.items ≡ out.old.items ++ N.text number) }
    ensures err { OnErr result (out.new.items ≡ out.old.items) }
{
    let mut digits = Buffer::new();
    out.extend_from_slice(digits.format(number).as_bytes())?;
    Ok(())
}

/// Appends the row as one line, `BEGIN,END,FIELD..` and a line feed. Where memory runs out `out` is as
/// before. It is for a row by itself: each call makes a csv writer, so a list of rows goes to `write_rows`.
pub fn write_row(row: &Row, out: &mut Vec<u8>) -> Result<(), OutOfMemory>
    ensures ok { OnOk result (out.new.items ≡ out.old.items ++ row_text row.now) }
    ensures err { OnErr result (out.new.items ≡ out.old.items) }
{
    write_rows(slice::from_ref(row), out)
}

/// Appends the rows, a line each, in the order in which they stand, as `write_row` does one by one, with one
/// csv writer for all. Their text is made in memory of its own, and copied where `out` is not empty. Where
/// memory runs out `out` is as before. Rows whose payload stands in the bytes of a file go to
/// `write_text_rows`, without a copy of their fields.
pub fn write_rows(rows: &[Row], out: &mut Vec<u8>) -> Result<(), OutOfMemory>
    ensures ok { OnOk result (out.new.items ≡ out.old.items ++ rows_text rows.now) }
    ensures err { OnErr result (out.new.items ≡ out.old.items) }
{
    let alloc = *out.allocator();
    let mut writer = row_writer(alloc);
    put_rows(alloc, rows, &mut writer)?;
    append_written(writer, out)
}

/// A writer of rows into memory of its own, since what a csv writer holds after an error is not known.
pub(crate) fn row_writer(alloc: Global) -> Writer<Vec<u8>>
    ensures empty { text_of result ≡ [] }
    ensures at_row { IsAtRow result }
{
    WriterBuilder::new()
        .flexible(true)
        .from_writer(Vec::new(alloc))
}

/// Appends what the writer has written, without a copy where `out` is empty. Where memory runs out `out` is
/// as before.
pub(crate) fn append_written(writer: Writer<Vec<u8>>, out: &mut Vec<u8>) -> Result<(), OutOfMemory>
    ensures ok { OnOk result (out.new.items ≡ out.old.items ++ text_of writer) }
    ensures err { OnErr result (out.new.items ≡ out.old.items) }
{
    let Ok(text) = writer.into_inner() else {
        return Err(OutOfMemory);
    };
    if out.is_empty() {
        *out = text;
    } else {
        out.extend_from_slice(&text)?;
    }
    Ok(())
}

fn put_rows(alloc: Global, rows: &[Row], writer: &mut Writer<Vec<u8>>) -> Result<(), OutOfMemory>
    requires { IsAtRow writer.old }
    ensures text { OnOk result (text_of writer.new ≡ text_of writer.old ++ rows_text rows.now) }
{
    for row in rows {
        put_row(alloc, row, writer)?;
    }
    Ok(())
}

fn put_row(alloc: Global, row: &Row, writer: &mut Writer<Vec<u8>>) -> Result<(), OutOfMemory>
    requires { IsAtRow writer.old }
    ensures text { OnOk result (text_of writer.new ≡ text_of writer.old ++ row_text row.now) }
    ensures at_row { OnOk result (IsAtRow writer.new) }
{
    put_times(row.begin, row.end, writer)?;
    put_payload(alloc, &row.payload, writer)?;
    end_row(writer)
}

/// Puts the first two fields of a row.
pub(crate) fn put_times(
    begin: Time,
    end: Time,
    writer: &mut Writer<Vec<u8>>,
) -> Result<(), OutOfMemory>
    requires { IsAtRow writer.old }
    ensures text { OnOk result (text_of writer.new ≡ text_of writer.old ++ (time_text begin ++ comma ∷ time_text end)) }
    ensures in_row { OnOk result (IsInRow writer.new) }
{
    put_time(begin, writer)?;
    put_time(end, writer)
}

/// Puts each field after a comma.
pub(crate) fn put_payload(
    alloc: Global,
    payload: &Payload,
    writer: &mut Writer<Vec<u8>>,
) -> Result<(), OutOfMemory>
    requires { IsInRow writer.old }
    ensures text { OnOk result (text_of writer.new ≡ text_of writer.old ++ payload_text payload.now) }
    ensures in_row { OnOk result (IsInRow writer.new) }
{
    for field in payload.fields() {
        put_field(alloc, &field, writer)?;
    }
    Ok(())
}

pub(crate) fn end_row(writer: &mut Writer<Vec<u8>>) -> Result<(), OutOfMemory>
    requires { IsInRow writer.old }
    ensures text { OnOk result (text_of writer.new ≡ text_of writer.old ++ line_feed ∷ []) }
    ensures at_row { OnOk result (IsAtRow writer.new) }
{
    let Ok(()) = writer.end_record() else {
        return Err(OutOfMemory);
    };
    Ok(())
}

fn put_field(
    alloc: Global,
    field: &FieldRef<'_>,
    writer: &mut Writer<Vec<u8>>,
) -> Result<(), OutOfMemory>
    requires { IsInRow writer.old }
    ensures text { OnOk result (text_of writer.new ≡ text_of writer.old ++ comma ∷ field_text field.now) }
    ensures in_row { OnOk result (IsInRow writer.new) }
{
    match field.plain_text() {
        Some(text) => put_text(text, writer),
        None => put_copy(&field.to_field(alloc)?, writer),
    }
}

/// Puts a number, or a text that has no plain form in its payload.
fn put_copy(field: &Field, writer: &mut Writer<Vec<u8>>) -> Result<(), OutOfMemory>
    requires { IsInRow writer.old }
    ensures text { OnOk result (text_of writer.new ≡ text_of writer.old ++ comma ∷ field_text field.now) }
    ensures in_row { OnOk result (IsInRow writer.new) }
{
    match field {
        Field::Number(number) => put_number(*number, writer),
        Field::Bytes(text) => put_text(text.bytes(), writer),
    }
}

fn put_number(number: i128, writer: &mut Writer<Vec<u8>>) -> Result<(), OutOfMemory>
    requires { IsInRow writer.old }
    ensures text { OnOk result (text_of writer.new ≡ text_of writer.old ++ comma ∷ signed_decimal number) }
    ensures in_row { OnOk result (IsInRow writer.new) }
{
    let mut digits = Buffer::new();
    put_text(digits.format(number).as_bytes(), writer)
}

/// Puts a field after a comma.
pub(crate) fn put_text(text: &[u8], writer: &mut Writer<Vec<u8>>) -> Result<(), OutOfMemory>
    requires { IsInRow writer.old }
    ensures text { OnOk result (text_of writer.new ≡ text_of writer.old ++ comma ∷ text_text text.now) }
    ensures in_row { OnOk result (IsInRow writer.new) }
{
    put(text, writer)
}

fn put_time(time: Time, writer: &mut Writer<Vec<u8>>) -> Result<(), OutOfMemory>
    requires { writer_setup writer.old ≡ row_setup }
    ensures text { OnOk result (text_of writer.new ≡ text_of writer.old ++ (next_sep row_setup (fields_written writer.old) ++ time_text time)) }
    ensures setup { OnOk result (writer_setup writer.new ≡ row_setup) }
    ensures fields { OnOk result (fields_written writer.new ≡ min (fields_written writer.old + 1) (2 ^ 64 - 1)) }
{
    if time == FOREVER {
        return put(b"inf", writer);
    }
    let mut digits = Buffer::new();
    put(digits.format(time).as_bytes(), writer)
}

/// Puts a field, after a comma where others of its row stand before it.
fn put(text: &[u8], writer: &mut Writer<Vec<u8>>) -> Result<(), OutOfMemory>
    requires { writer_setup writer.old ≡ row_setup }
    ensures text { OnOk result (text_of writer.new ≡ text_of writer.old ++ (next_sep row_setup (fields_written writer.old) ++ text_text text.now)) }
    ensures setup { OnOk result (writer_setup writer.new ≡ row_setup) }
    ensures fields { OnOk result (fields_written writer.new ≡ min (fields_written writer.old + 1) (2 ^ 64 - 1)) }
{
    // A writer over a `Vec` fails by want of memory alone. The error is made small here, since a row takes a
    // third longer where csv's own is handed up through the calls.
    let Ok(()) = writer.write_field(text) else {
        return Err(OutOfMemory);
    };
    Ok(())
}
