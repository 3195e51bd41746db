// The roundings of document 01. The bounds of the requires keep the doubled numbers in 64 bits.
ghost use Rattle.std.specs.Prelude.{◌≡◌, ◌<◌, ◌^◌, nat_abs};
ghost use Rattle.numbers.specs.Rounding.{half_up, half_away, divide_up};

use crate::signed;

// a / b, a half upwards.
pub fn half_up(a: u64, b: u64) -> u64
    requires fact_1 { 0 < b }
    requires fact_2 { a < 2 ^ 62 }
    requires fact_3 { b < 2 ^ 62 }
    ensures { result ≡ half_up a b }
{
    (2 * a + b) / (2 * b)
}

// x / b, a half away from zero.
pub fn half_away(x: i64, b: u64) -> i64
    requires fact_1 { 0 < b }
    requires fact_2 { nat_abs x < 2 ^ 62 }
    requires fact_3 { b < 2 ^ 62 }
    ensures { result ≡ half_away x b }
{
    let rounded = half_up(signed::magnitude(x), b);
    if signed::is_negative(x) {
        signed::difference(0, rounded)
    } else {
        signed::difference(rounded, 0)
    }
}

// a / b rounded up: std's method under the definition's name, on which the edit division_up_made_floor stands.
pub fn divide_up(a: u64, b: u64) -> u64
    requires fact_1 { 0 < b }
    requires fact_2 { a < 2 ^ 62 }
    requires fact_3 { b < 2 ^ 62 }
    ensures { result ≡ divide_up a b }
{
    a.div_ceil(b)
}
