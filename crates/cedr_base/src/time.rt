ghost use Rattle.std.specs.Prelude.{◌≡◌, ◌≤◌, ◌+◌, ◌^◌, min};

/// Application time: a whole number from 0 to `FOREVER`. The finite times are those below it.
pub type Time = u64;

/// After all finite times; written `inf`.
pub const FOREVER: Time = 1 << 62;

/// The time `d` after `t`, and `FOREVER` where that isn't finite.
pub fn later(t: Time, d: u64) -> Time
    requires from { t ≤ FOREVER }
    requires by { d ≤ 2 ^ 41 }
    ensures { result ≡ min (t + d) FOREVER }
{
    (t + d).min(FOREVER)
}

/// The law of times: the finite ones are those below 2^62.
pub fn finite_times()
    ensures { FOREVER ≡ 2 ^ 62 }
{}
