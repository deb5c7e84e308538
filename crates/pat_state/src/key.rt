ghost use Rattle.std.specs.Prelude.{ℕ, ◌≡◌, List, [], All, true, OnOk, IfOk, IfSome};
ghost use Rattle.cedr_expr.specs.declared.test.Test.{Test};
ghost use Rattle.pat_state.specs.Keys.{IsWanted, AreEqual, AreAllEqual, IsKey, key_tag};

use cedr_base::{OutOfMemory, Payload};
use cedr_expr::{Op, Operand, Test, Tests, field_tag};
use std::alloc::Global;

/// Whether a column is among some.
fn is_among(known: &[usize], at: usize) -> bool
    ensures { result ≡ true → (tests : List Test) (column : ℕ) → All (AreEqual tests column) known.now → AreEqual tests column at }
{
    for one in known {
        if *one == at {
            return true;
        }
    }
    false
}

/// The column that a test wants equal to one of some, where it isn't among them.
fn partner(test: &Test, known: &[usize]) -> Option<usize>
    ensures { IfSome result (λ at. (tests : List Test) (column : ℕ) → IsWanted tests test.now → All (AreEqual tests column) known.now → AreEqual tests column at) }
{
    let other = match (test.op, &test.right) {
        (Op::Eq, Operand::Column(other)) => *other,
        _ => return None,
    };
    let (has_left, has_other) = (is_among(known, test.left), is_among(known, other));
    if has_left && !has_other {
        Some(other)
    } else if has_other && !has_left {
        Some(test.left)
    } else {
        None
    }
}

/// Adds it to them.
fn add_partner(test: &Test, known: &mut Vec<usize>) -> Result<(), OutOfMemory>
    ensures { OnOk result ((tests : List Test) (column : ℕ) → IsWanted tests test.now → All (AreEqual tests column) known.old.items → All (AreEqual tests column) known.new.items) }
{
    match partner(test, known.as_slice()) {
        Some(at) => {
            known.push(at)?;
            Ok(())
        }
        None => Ok(()),
    }
}

/// Adds the columns that tests want equal to one of some.
fn add_partners(tests: &[Test], known: &mut Vec<usize>) -> Result<(), OutOfMemory>
    ensures { OnOk result ((column : ℕ) → All (AreEqual tests.now column) known.old.items → All (AreEqual tests.now column) known.new.items) }
{
    for test in tests {
        add_partner(test, known)?;
    }
    Ok(())
}

/// A column, and those that tests want equal to it by at most so many steps from one column to the next.
fn equal_columns(
    alloc: Global,
    tests: &[Test],
    column: usize,
    steps: usize,
) -> Result<Vec<usize>, OutOfMemory>
    ensures { IfOk result (λ known. All (AreEqual tests.now column) known.items) }
{
    let mut known = Vec::new(alloc);
    known.push(column)?;
    for _ in 0..steps {
        add_partners(tests, &mut known)?;
    }
    Ok(known)
}

/// Whether so many columns, each a width after the one before it, are among some.
fn are_among(known: &[usize], at: usize, width: usize, count: usize) -> bool
    ensures { result ≡ true → (tests : List Test) (column : ℕ) → All (AreEqual tests column) known.now → AreAllEqual tests column width at count }
{
    if count == 0 {
        return true;
    }
    if !is_among(known, at) {
        return false;
    }
    match at.checked_add(width) {
        Some(next) => are_among(known, next, width, count - 1),
        None => false,
    }
}

/// The first column of payloads of a width which tests want to have one field in all of so many payloads: directly, or by way
/// of other columns. O(w m²) steps for w columns and m tests.
pub(crate) fn find_key(
    alloc: Global,
    tests: &Tests,
    width: usize,
    number: usize,
) -> Result<Option<usize>, OutOfMemory>
    ensures { IfOk result (λ column. IsKey tests.now number width column) }
{
    for column in 0..width {
        let known = equal_columns(alloc, tests.as_slice(), column, number)?;
        if are_among(known.as_slice(), column, width, number) {
            return Ok(Some(column));
        }
    }
    Ok(None)
}

/// The tag of a payload: 0 where it has another width.
pub(crate) fn key_tag(width: usize, column: Option<usize>, payload: &Payload) -> u64
    ensures { result ≡ key_tag width column payload.now }
{
    if payload.len() != width {
        return 0;
    }
    match column {
        Some(column) => match payload.field(column) {
            Some(field) => field_tag(&field),
            None => 1,
        },
        None => 1,
    }
}
