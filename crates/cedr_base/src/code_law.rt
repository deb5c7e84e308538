ghost use Rattle.std.specs.Prelude.{◌≡◌, ℕ, List, ◌++◌};
ghost use Rattle.cedr_base.specs.declared.field.Field.{Field};
ghost use Rattle.cedr_base.specs.Order.{payload_cmp, text_cmp};
ghost use Rattle.cedr_base.specs.FieldCodes.{FitFields, FitsField, payload_code, field_code};

/// The law of codes: compared byte by byte they stand in the order of the payloads, no two payloads have one code, and
/// where a string of bytes begins with the code of a field that field and what follows are determined. The code of one
/// payload's fields and then another's is their codes in this order.
pub fn payload_codes()
    ensures in_order { (a b : List Field) → FitFields a → FitFields b → text_cmp (payload_code a) (payload_code b) ≡ payload_cmp a b }
    ensures exact { (a b : List Field) → FitFields a → FitFields b → payload_code a ≡ payload_code b → a ≡ b }
    ensures prefix_free { (f g : Field) (r s : List ℕ) → FitsField f → FitsField g → field_code f ++ r ≡ field_code g ++ s → (f ≡ g) × (r ≡ s) }
    ensures joined { (a b : List Field) → payload_code (a ++ b) ≡ payload_code a ++ payload_code b }
{}
