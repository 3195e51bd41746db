// The signed toolkit: the only functions that turn unsigned numbers into signed ones and back. Each is std's method, kept
// under its own name, since the definitions, the laws and docs/ speak of it by that.
ghost use Rattle.std.specs.Prelude.{◌≡◌, ◌<◌, ◌^◌, nat_abs};
ghost use Rattle.std.proofs.Math.IntN.{sub_ℕ};
ghost use Rattle.numbers.specs.Signed.{is_negative, within_size, word_of, signed_of};

// Whether x is below zero.
pub fn is_negative(x: i64) -> bool
    ensures { result ≡ is_negative x }
{
    x.is_negative()
}

// The size of x, which is not the least i64.
pub fn magnitude(x: i64) -> u64
    requires { nat_abs x < 2 ^ 63 }
    ensures { result ≡ nat_abs x }
{
    x.unsigned_abs()
}

// p - n, of either sign.
pub fn difference(p: u64, n: u64) -> i64
    requires fact_1 { p < 2 ^ 63 }
    requires fact_2 { n < 2 ^ 63 }
    ensures { result ≡ sub_ℕ p n }
{
    (p as i64) - (n as i64)
}

// Whether x lies in -bound to bound.
pub fn within_size(x: i64, bound: u64) -> bool
    requires { bound < 2 ^ 63 }
    ensures { result ≡ within_size bound x }
{
    x.unsigned_abs() <= bound
}

// The word of 64 bits that holds x.
pub fn word_of(x: i64) -> u64
    ensures { result ≡ word_of x }
{
    x.cast_unsigned()
}

// The number of either sign that a word of 64 bits holds.
pub fn signed_of(word: u64) -> i64
    ensures { result ≡ signed_of word }
{
    word.cast_signed()
}
