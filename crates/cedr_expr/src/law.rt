ghost use Rattle.std.specs.Prelude.{◌≡◌, ◌++◌, [], false, List, ℕ, None, All, length};
ghost use Rattle.cedr_base.specs.declared.field.Field.{Field};
ghost use Rattle.cedr_base.specs.declared.field.FieldType.{FieldType};
ghost use Rattle.cedr_expr.specs.declared.test.Test.{Test};
ghost use Rattle.cedr_expr.specs.Columns.{kept_columns};
ghost use Rattle.cedr_expr.specs.Tests.{passes, may_pass};
ghost use Rattle.cedr_expr.specs.Types.{HaveTypes, HasLikeSides, type_fault_of, keep_fault_of};

/// The law of the types. Where tests fit the types of a left and a right payload, each has its columns in
/// these payloads, and two sides of one type. Where kept columns fit the types of a payload, what is kept of
/// it has the types at these columns, one for each.
pub fn types_law()
    ensures sides { (tests : List Test) (left_types right_types : List FieldType) (left right : List Field) → type_fault_of tests left_types right_types ≡ None → HaveTypes left left_types → HaveTypes right right_types → All (HasLikeSides left right) tests }
    ensures kept_types { (columns : List ℕ) (types : List FieldType) (fields : List Field) → HaveTypes fields types → HaveTypes (kept_columns columns fields) (kept_columns columns types) }
    ensures kept_length { (columns : List ℕ) (types : List FieldType) (fields : List Field) → keep_fault_of columns types ≡ None → HaveTypes fields types → length (kept_columns columns fields) ≡ length columns }
{}

/// The law of payloads after which more columns come. Where two payloads fail a test whose columns they have, they fail it
/// whatever columns come after them.
pub fn columns_law()
    ensures { (tests : List Test) (left right more : List Field) → may_pass tests left right ≡ false → passes tests ((left ++ right) ++ more) [] ≡ false }
{}
