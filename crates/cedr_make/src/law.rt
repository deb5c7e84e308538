ghost use Rattle.std.specs.Prelude.{ℕ, ◌≡◌, ◌≤◌, None, Vec};
ghost use Rattle.std.specs.declared.alloc.Global.{Global};
ghost use Rattle.cedr_base.specs.declared.field.FieldType.{FieldType};
ghost use Rattle.cedr_guard.specs.Sources.{judged};
ghost use Rattle.cedr_text.specs.declared.event_line.Shape.TheVariants.{Fields};
ghost use Rattle.cedr_make.specs.BuiltIn.{event_types};
ghost use Rattle.cedr_make.specs.Generator.{made_text};

/// The law of the sources that are made: read by the types of the plan's sources, each of up to 100,000 events is
/// accepted.
pub fn made_sources()
    ensures { (source n : ℕ) (types : Vec FieldType Global) → n ≤ 100000 → types.items ≡ event_types → (judged (Fields types) (made_text source n)).fault ≡ None }
{}
