// Multiply-and-divide for products past 64 bits.
ghost use Rattle.std.specs.Prelude.{◌≡◌, ◌<◌, ◌≤◌, ◌^◌, ◌*◌, ◌/◌, ◌%◌};

#[derive(Clone, Copy)]
pub struct Division {
    pub quotient: u64,
    pub remainder: u64,
}

// Two factors below this have a product of 64 bits.
const HALF_WORD: u64 = 4294967296;

// a * b / m and its remainder, exact though a * b may pass 64 bits.
pub fn multiply_divide(a: u64, b: u64, m: u64) -> Division
    requires some { 0 < m }
    requires divisor { m < 2 ^ 56 }
    requires part { a ≤ m }
    requires factor { b < 2 ^ 56 }
    ensures { result ≡ record { quotient = a * b / m; remainder = a * b % m } }
{
    // A division of 64 bits is the faster one.
    if a < HALF_WORD && b < HALF_WORD {
        let product = a * b;
        return Division {
            quotient: product / m,
            remainder: product % m,
        };
    }
    let product = a as u128 * b as u128;
    Division {
        quotient: (product / m as u128) as u64,
        remainder: (product % m as u128) as u64,
    }
}
