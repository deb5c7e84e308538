ghost use Rattle.std.specs.Prelude.{◌≡◌, IfOk};

use crate::memory::OutOfMemory;
use crate::text::Text;
use std::alloc::Global;
use std::cmp::Ordering;

/// One column's value. Numbers come before texts.
pub enum Field {
    Number(i128),
    Bytes(Text),
}

impl Drop for Field {
    fn drop(self) {
        match self {
            Field::Number(_) | Field::Bytes(_) => {}
        }
    }
}

/// What a column holds.
#[derive(Clone, Copy, PartialEq, Eq)]
pub enum FieldType {
    Number,
    Bytes,
}

impl Field {
    pub fn copy(&self, alloc: Global) -> Result<Field, OutOfMemory>
        ensures { IfOk result (λ f. f ≡ self.now) }
    {
        match self {
            Field::Number(n) => Ok(Field::Number(*n)),
            Field::Bytes(text) => {
                let copied = text.copy(alloc)?;
                Ok(Field::Bytes(copied))
            }
        }
    }
}

impl PartialEq for Field {
    ghost use Rattle.std.specs.Cmp.{partial_equiv_from_equiv, eq_by_cmp_equiv};
    ghost use Rattle.std.specs.Ordering.{eq_by_cmp};
    ghost use Rattle.cedr_base.specs.Order.{field_cmp};
    ghost use Rattle.cedr_base.specs.OrderLaws.{field_total};

    ghost eq = { eq_by_cmp field_cmp };

    ghost laws = { partial_equiv_from_equiv (eq_by_cmp_equiv field_total) };

    fn eq(&self, other: &Field) -> bool {
        self.cmp(other).is_eq()
    }
}

impl Eq for Field {
    ghost use Rattle.std.specs.Cmp.{eq_by_cmp_equiv};
    ghost use Rattle.cedr_base.specs.OrderLaws.{field_total};

    ghost laws = { eq_by_cmp_equiv field_total };
}

impl PartialOrd for Field {
    ghost use Rattle.std.specs.Cmp.{partial_order_from_total};
    ghost use Rattle.std.specs.Ordering.{as_partial_cmp};
    ghost use Rattle.cedr_base.specs.Order.{field_cmp};
    ghost use Rattle.cedr_base.specs.OrderLaws.{field_total};

    ghost partial_cmp = { as_partial_cmp field_cmp };

    ghost laws = { partial_order_from_total field_total };

    fn partial_cmp(&self, other: &Field) -> Option<Ordering> {
        Some(self.cmp(other))
    }
}

impl Ord for Field {
    ghost use Rattle.std.specs.Cmp.Rules.{comparing};
    ghost use Rattle.std.proofs.Common.{rules};
    ghost use Rattle.cedr_base.specs.Order.{field_cmp};
    ghost use Rattle.cedr_base.specs.OrderLaws.{field_total};

    ghost cmp = { field_cmp };

    ghost total = { field_total };

    ghost matches_partial_cmp = { Prim.search (comparing, rules) };

    ghost matches_eq = { Prim.search (comparing, rules) };

    fn cmp(&self, other: &Field) -> Ordering {
        match (self, other) {
            (Field::Number(m), Field::Number(n)) => m.cmp(n),
            (Field::Number(_), Field::Bytes(_)) => Ordering::Less,
            (Field::Bytes(_), Field::Number(_)) => Ordering::Greater,
            (Field::Bytes(s), Field::Bytes(t)) => s.cmp(t),
        }
    }
}
