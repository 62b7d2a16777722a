//! Two's complement widths.

ghost use Rattle.std.specs.Prelude.{◌≡◌, ◌^◌, ◌<◌, ◌≤◌, ◌↔◌, IsTrue, pos, ◌-◌};
ghost use Rattle.mr_values.specs.Width.{floor_quotient, floor_remainder, FitsWidth, wrap, IsLeastWidth};

/// `v / 2^s`, rounded down.
pub fn floor_shift(v: i128, s: u8) -> i128
    requires { s ≤ 126 }
    ensures { result ≡ floor_quotient v (2 ^ s) }
{
    v >> s
}

/// Whether `v` lies in the range of two's complement with `w` bits.
pub fn fits(v: i128, w: u8) -> bool
    requires least { 1 ≤ w }
    requires greatest { w ≤ 128 }
    ensures { IsTrue result ↔ FitsWidth w v }
{
    if w == 128 {
        return true;
    }
    let half = power(w - 1);
    -half <= v && v < half
}

/// The number with `w` bits that equals `v` modulo `2^w`.
pub fn wrap(v: i128, w: u8) -> i128
    requires least { 1 ≤ w }
    requires greatest { w ≤ 128 }
    ensures { result ≡ wrap w v }
{
    if w == 128 {
        return v;
    }
    let low = low_bits(v, w - 1);
    if low_bits(floor_shift(v, w - 1), 1) == 0 {
        low
    } else {
        low - power(w - 1)
    }
}

/// The least number of bits, at least 1, that holds both.
pub fn least_width(lo: i128, hi: i128) -> u8
    ensures { IsLeastWidth lo hi result }
{
    for w in 1..128 {
        if fits(lo, w) && fits(hi, w) {
            return w;
        }
    }
    128
}

/// `2^k`.
pub fn power(k: u8) -> i128
    requires { k ≤ 126 }
    ensures { result ≡ pos (2 ^ k) }
{
    1 << k
}

/// `v / d`, rounded down.
pub fn floor_divide(v: i128, d: u64) -> i128
    requires { 0 < d }
    ensures { result ≡ floor_quotient v d }
{
    v.div_euclid(i128::from(d))
}

/// `v` modulo `d`, which is not negative.
pub fn floor_modulo(v: i128, d: u64) -> u64
    requires { 0 < d }
    ensures { result ≡ floor_remainder v d }
{
    v.rem_euclid(i128::from(d)) as u64
}

// `v` modulo `2^k`, which is not negative.
fn low_bits(v: i128, k: u8) -> i128
    requires { k ≤ 126 }
    ensures { result ≡ pos (floor_remainder v (2 ^ k)) }
{
    v.rem_euclid(power(k))
}
