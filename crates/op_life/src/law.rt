ghost use Rattle.std.specs.Prelude.{ℕ, ◌≤◌, ◌*◌};
ghost use Rattle.op_life.specs.Lifetimes.{multiple_below};

/// The law of hops: a hop begins at a multiple of `every` that isn't above the row's begin, and no greater one is.
pub fn multiples()
    ensures below { (every time : ℕ) → multiple_below every time ≤ time }
    ensures greatest { (every k time : ℕ) → 1 ≤ every → k * every ≤ time → k * every ≤ multiple_below every time }
{}
