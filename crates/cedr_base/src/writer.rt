ghost use Rattle.std.specs.Prelude.{◌≡◌, ◌+◌, ◌++◌, ◌∷◌, [], List, IfOk, length};
ghost use Rattle.cedr_base.specs.declared.field.Field.{Field as AnyField};
ghost use Rattle.cedr_base.specs.declared.field.Field.TheVariants.{Number, Bytes};
ghost use Rattle.cedr_base.specs.Stored.{AreWritten};
ghost use Rattle.cedr_base.specs.StoredLaws.{written_fields};

use crate::code_buffer::CodeBuffer;
use crate::field::Field;
use crate::field_code::{push_number, push_text};
use crate::field_ref::FieldRef;
use crate::memory::OutOfMemory;
use crate::payload::Payload;
use std::alloc::Global;
use std::marker::Model;

/// A payload that is written field by field. Contracts see the list of its fields. It takes no memory while their code
/// has 29 bytes or less.
pub struct PayloadWriter {
    alloc: Global,
    code: CodeBuffer,
    width: usize,
    ghost held: { (fields : List AnyField) × AreWritten code width fields } by { written_fields code width },
}

impl Model for PayloadWriter {
    ghost use Rattle.std.specs.Prelude.{List};
    ghost use Rattle.cedr_base.specs.declared.field.Field.{Field};

    ghost Value = { List Field };

    ghost view = { λ w. w.held.0 };
}

impl Drop for PayloadWriter {
    fn drop(self) {
        let PayloadWriter {
            alloc: _,
            code: _,
            width: _,
        } = self;
    }
}

impl PayloadWriter {
    /// No field. It takes no memory.
    pub fn new(alloc: Global) -> PayloadWriter
        ensures { result ≡ [] }
    {
        let code = CodeBuffer::new(alloc);
        PayloadWriter {
            alloc,
            code,
            width: 0,
        }
    }

    /// The fields that were written so.
    fn written(alloc: Global, code: CodeBuffer, width: usize) -> PayloadWriter
        requires { (fields : List AnyField) × AreWritten code width fields }
        ensures { (fields : List AnyField) → AreWritten code width fields → result ≡ fields }
    {
        PayloadWriter { alloc, code, width }
    }

    /// How many fields it has. O(1).
    pub fn len(&self) -> usize
        ensures { result ≡ length self.now }
    {
        self.width
    }

    /// With a number at the end. Where memory runs out all is dropped.
    #[inline(always)]
    pub fn with_number(self, number: i128) -> Result<PayloadWriter, OutOfMemory>
        ensures { IfOk result (λ w. w ≡ self ++ Number number ∷ []) }
    {
        let PayloadWriter {
            alloc,
            mut code,
            width,
        } = self;
        push_number(number, &mut code)?;
        counted(alloc, code, width, 1)
    }

    /// With a text at the end. O(n). Where memory runs out all is dropped.
    #[inline(always)]
    pub fn with_text(self, text: &[u8]) -> Result<PayloadWriter, OutOfMemory>
        ensures { IfOk result (λ w. w ≡ self ++ Bytes text.now ∷ []) }
    {
        let PayloadWriter {
            alloc,
            mut code,
            width,
        } = self;
        push_text(text, &mut code)?;
        counted(alloc, code, width, 1)
    }

    /// With a copy of a field at the end. O(n). Where memory runs out all is dropped.
    pub fn with_field(self, field: &Field) -> Result<PayloadWriter, OutOfMemory>
        ensures { IfOk result (λ w. w ≡ self ++ field.now ∷ []) }
    {
        match field {
            Field::Number(number) => self.with_number(*number),
            Field::Bytes(text) => self.with_text(text.bytes()),
        }
    }

    /// The same with a field of a payload.
    #[inline(always)]
    pub fn with_copy(self, field: &FieldRef<'_>) -> Result<PayloadWriter, OutOfMemory>
        ensures { IfOk result (λ w. w ≡ self ++ field.now ∷ []) }
    {
        let PayloadWriter {
            alloc,
            mut code,
            width,
        } = self;
        code.extend(field.code())?;
        counted(alloc, code, width, 1)
    }

    /// With copies of all fields of a payload at the end. O(n). Where memory runs out all is dropped.
    pub fn with_all(self, payload: &Payload) -> Result<PayloadWriter, OutOfMemory>
        ensures { IfOk result (λ w. w ≡ self ++ payload.now) }
    {
        let PayloadWriter {
            alloc,
            mut code,
            width,
        } = self;
        code.extend(payload.code())?;
        counted(alloc, code, width, payload.len())
    }

    /// The payload of these fields. Where memory runs out they are dropped.
    #[inline(always)]
    pub fn finish(self) -> Result<Payload, OutOfMemory>
        ensures { IfOk result (λ p. p ≡ self) }
    {
        let PayloadWriter { alloc, code, width } = self;
        let bytes = code.finish(width)?;
        Ok(Payload::stored(alloc, bytes))
    }
}

/// Fields that were written behind so many others, and so many they are.
#[inline(always)]
fn counted(
    alloc: Global,
    code: CodeBuffer,
    width: usize,
    more: usize,
) -> Result<PayloadWriter, OutOfMemory>
    requires { (fields : List AnyField) × AreWritten code (width + more) fields }
    ensures { IfOk result (λ w. (fields : List AnyField) → AreWritten code (width + more) fields → w ≡ fields) }
{
    let width = together(width, more)?;
    Ok(PayloadWriter::written(alloc, code, width))
}

/// How many fields they are together. Each takes a byte or more, so a number counts them wherever there is room for them.
pub(crate) fn together(width: usize, more: usize) -> Result<usize, OutOfMemory>
    ensures { IfOk result (λ sum. sum ≡ width + more) }
{
    width.checked_add(more).ok_or(OutOfMemory)
}
