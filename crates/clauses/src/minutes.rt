// Minutes between times.
ghost use Rattle.std.specs.Prelude.{◌≡◌, Bool, true, ℕ, ◌+◌, ◌*◌, ◌<◌, ◌≤◌, ◌^◌, ℤ, pos, ◌+ℤ◌};

// The time `minutes` minutes before `t`.
pub fn earlier(t: i32, minutes: u64) -> i64
    requires { minutes < 2 ^ 62 }
    ensures { t ≡ result +ℤ pos minutes }
{
    i64::from(t) - minutes as i64
}

// Whether `early` is the time `minutes` minutes before `t`.
pub fn is_earlier(t: i32, early: i32, minutes: u64) -> bool
    requires { minutes < 2 ^ 62 }
    ensures { result ≡ true → t ≡ early +ℤ pos minutes }
{
    earlier(t, minutes) == i64::from(early)
}

// The minutes of `t` drops.
pub fn product(t: u64, drop: u32) -> u64
    requires { t ≤ 2 ^ 29 + 1 }
    ensures { (result ≡ t * drop) × (result < 2 ^ 62) }
{
    t * u64::from(drop)
}

// The minutes from a time down to an earlier one.
pub fn fall(t: i32, early: i32) -> u32 {
    if early < t { t.abs_diff(early) } else { 0 }
}

// A sum of two, which 64 bits hold whatever they are.
pub fn plus(a: i32, b: i32) -> i64
    ensures { result ≡ a +ℤ b }
{
    i64::from(a) + i64::from(b)
}
