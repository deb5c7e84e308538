ghost use Rattle.std.specs.Prelude.{ℕ, ◌≡◌, ◌≢◌, ◌<◌, ◌↔◌, [], ◌∷◌, ◌++◌, true, length, slice_index, IfOk, MatchBool};
ghost use Rattle.std.specs.Result.{result_err};
ghost use Rattle.cedr_expr.specs.Columns.{kept_columns};
ghost use Rattle.cedr_expr.specs.Types.{first_past_end, keep_fault_of};

use crate::fault::TypeFault;
use cedr_base::{FieldType, OutOfMemory, Payload, PayloadWriter};
use std::alloc::Global;
use std::marker::Model;

/// The columns that are kept of a payload, in order. A column may stand in it more than once. Contracts see
/// the list of the columns, which count from 0.
pub struct Keep {
    columns: Vec<usize>,
}

impl Drop for Keep {
    fn drop(self) {
        let Keep { columns: _ } = self;
    }
}

impl Model for Keep {
    ghost use Rattle.std.specs.Prelude.{List, ℕ};

    ghost Value = { List ℕ };

    ghost view = { λ keep. keep.columns.items };
}

impl Keep {
    /// The columns, where each is one of these types. It takes no memory. At a fault they are dropped.
    pub fn new(columns: Vec<usize>, types: &[FieldType]) -> Result<Keep, TypeFault>
        ensures made { IfOk result (λ keep. keep ≡ columns.items) }
        ensures fault { result_err result ≡ keep_fault_of columns.items types.now }
    {
        match find_past_end(columns.as_slice(), types) {
            Some(test) => Err(TypeFault::BadColumn { test }),
            None => Ok(Keep { columns }),
        }
    }

    /// It takes no memory. O(1).
    pub fn columns(&self) -> &[usize]
        ensures { result.now ≡ self.now }
    {
        self.columns.as_slice()
    }

    /// The payload's fields at the columns, and none for a column past the end. O(n) in what they hold.
    #[tactic(auto, using(crate::proofs::KeptLemmas::kept_more))]
    pub fn apply(&self, alloc: Global, payload: &Payload) -> Result<Payload, OutOfMemory>
        ensures { IfOk result (λ fields. fields ≡ kept_columns self.now payload.now) }
    {
        let mut chosen = PayloadWriter::new(alloc);
        for column in &self.columns {
            chosen = with_column(chosen, payload, *column)?;
        }
        chosen.finish()
    }

    /// Whether these are all columns of the payload, each in its place: what is kept of it is then the payload. It takes no
    /// memory. O(n) in the columns.
    #[tactic(auto, using(crate::proofs::KeptLemmas::kept_whole))]
    pub fn keeps_all(&self, payload: &Payload) -> bool
        ensures all { result ≡ true → kept_columns self.now payload.now ≡ payload.now }
        ensures in_place { (result ≡ true) ↔ ((length self.now ≡ length payload.now) × ((k : ℕ) → k < length self.now → slice_index self.now k ≡ k)) }
    {
        self.columns.len() == payload.len() && are_in_place(self.columns.as_slice())
    }

    pub fn copy(&self, alloc: Global) -> Result<Keep, OutOfMemory>
        ensures { IfOk result (λ keep. keep ≡ self.now) }
    {
        let columns = Vec::from_slice(alloc, self.columns.as_slice())?;
        Ok(Keep { columns })
    }
}

/// With a copy of the field at the column, where there is one.
fn with_column(
    chosen: PayloadWriter,
    payload: &Payload,
    column: usize,
) -> Result<PayloadWriter, OutOfMemory>
    ensures { IfOk result (λ w. w ≡ chosen ++ kept_columns (column ∷ []) payload.now) }
{
    match payload.field(column) {
        Some(field) => chosen.with_copy(&field),
        None => Ok(chosen),
    }
}

/// Whether the columns count from 0, each one after the other.
fn are_in_place(columns: &[usize]) -> bool
    ensures { MatchBool result ((k : ℕ) → k < length columns.now → slice_index columns.now k ≡ k) ((k : ℕ) × (k < length columns.now) × (slice_index columns.now k ≢ k)) }
{
    for at in 0..columns.len() {
        if columns[at] != at {
            return false;
        }
    }
    true
}

fn find_past_end(columns: &[usize], types: &[FieldType]) -> Option<usize>
    ensures { result ≡ first_past_end columns.now types.now }
{
    columns.iter().position(|column| types.len() <= *column)
}
