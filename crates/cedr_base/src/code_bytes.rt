ghost use Rattle.std.specs.Prelude.{◌≡◌, ◌≤◌, List, IfOk, take};
ghost use Rattle.cedr_base.specs.declared.field.Field.{Field};
ghost use Rattle.cedr_base.specs.Stored.{stored_code, stored_width, HasRoom, StoresFields, IsStoredAs};

use crate::memory::OutOfMemory;
use std::sync::Arc;

/// The code of a payload's fields, and how many they are: up to 29 bytes in place, and longer ones in memory that copies
/// share.
pub(crate) enum CodeBytes {
    Short { bytes: [u8; 29], len: u8, width: u8 },
    Long { bytes: Arc<Vec<u8>>, width: usize },
}

impl Drop for CodeBytes {
    fn drop(self) {
        match self {
            CodeBytes::Short {
                bytes: _,
                len: _,
                width: _,
            }
            | CodeBytes::Long { bytes: _, width: _ } => {}
        }
    }
}

impl CodeBytes {
    /// The first of some bytes, which stand in place.
    pub(crate) fn short(bytes: [u8; 29], len: usize, width: usize) -> CodeBytes
        requires len { len ≤ 29 }
        requires width { width ≤ len }
        ensures { IsStoredAs result (take len bytes) width }
    {
        CodeBytes::Short {
            bytes,
            len: len as u8,
            width: width as u8,
        }
    }

    /// These bytes, which stand in memory of their own. They are moved. O(1).
    pub(crate) fn long(bytes: Vec<u8>, width: usize) -> Result<CodeBytes, OutOfMemory>
        ensures { IfOk result (λ stored. IsStoredAs stored bytes.items width) }
    {
        let alloc = *bytes.allocator();
        let bytes = Arc::new(alloc, bytes)?;
        Ok(CodeBytes::Long { bytes, width })
    }

    pub(crate) fn bytes(&self) -> &[u8]
        requires { HasRoom self.now }
        ensures { result.now ≡ stored_code self.now }
    {
        match self {
            CodeBytes::Short { bytes, len, .. } => &bytes[..*len as usize],
            CodeBytes::Long { bytes, .. } => bytes.as_slice(),
        }
    }

    pub(crate) fn width(&self) -> usize
        ensures { result ≡ stored_width self.now }
    {
        match self {
            CodeBytes::Short { width, .. } => *width as usize,
            CodeBytes::Long { width, .. } => *width,
        }
    }

    /// One that shares the memory of this one. It takes none itself. O(1).
    pub(crate) fn copy(&self) -> Result<CodeBytes, OutOfMemory>
        ensures { IfOk result (λ copied. (fields : List Field) → StoresFields self.now fields → StoresFields copied fields) }
    {
        match self {
            CodeBytes::Short { bytes, len, width } => Ok(CodeBytes::Short {
                bytes: *bytes,
                len: *len,
                width: *width,
            }),
            CodeBytes::Long { bytes, width } => {
                let bytes = Arc::try_clone(bytes)?;
                Ok(CodeBytes::Long {
                    bytes,
                    width: *width,
                })
            }
        }
    }
}
