use std::error::Error;
use std::fmt;

/// Why a list of tests, or of columns to keep, doesn't fit the types of the columns. The number is the place
/// in that list, from 0, of the first entry with this fault.
#[derive(Clone, Copy, Debug, PartialEq, Eq)]
pub enum TypeFault {
    /// A column is past the end. This counts before any difference of types.
    BadColumn { test: usize },
    /// One side of a test is a number and the other a text.
    TypeDiffers { test: usize },
}

// By hand, since the gate takes an attribute that has this field's name for one that marks a test.
impl fmt::Display for TypeFault {
    fn fmt<W: fmt::Write>(&self, f: &mut fmt::Formatter<W>) -> fmt::Result {
        match self {
            TypeFault::BadColumn { test } => {
                write!(f, "entry {test} names a column past the end")
            }
            TypeFault::TypeDiffers { test } => {
                write!(f, "the two sides of test {test} differ in type")
            }
        }
    }
}

impl Error for TypeFault {}
