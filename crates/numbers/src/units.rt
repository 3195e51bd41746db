// The units of document 01, and the power price of W-204 of document 02, as types of their own, so that a price, an
// energy and an amount of money cannot be taken for one another: one peso-price unit times one MWh is $1.
ghost use Rattle.std.specs.Prelude.{◌≡◌, [], ◌∷◌};
ghost use Rattle.numbers.specs.Checks.{Promised, accepted_where};
ghost use Rattle.numbers.specs.Units.{least_price, most_price, between, all_between, bound_where, checked_price};
ghost use Rattle.numbers.specs.Units.{price_answered};

// A peso price, in 0.001 $/kWh.
#[derive(Clone, Copy)]
pub struct PesoPrice(pub u64);

// A power price, in 0.001 $/kW/month.
#[derive(Clone, Copy)]
pub struct PowerPrice(pub u64);

// Projected energy, in MWh.
#[derive(Clone, Copy)]
pub struct Energy(pub u64);

// Money, in whole $. A balance and an amount may be below zero.
#[derive(Clone, Copy)]
pub struct Pesos(pub i64);

// Money that is never below zero, in whole $: what prices collect, the contract total, the residue.
#[derive(Clone, Copy)]
pub struct UnsignedPesos(pub u64);

impl PesoPrice {
    // The ends that a reference, and so an average, must keep.
    pub const LEAST: u64 = 1000;

    pub const MOST: u64 = 2000000;

    // The price of a word, where it keeps the bounds.
    pub fn checked(word: u64) -> Option<PesoPrice>
        ensures { Promised price_answered result (checked_price word)
            (accepted_where (between least_price most_price word) (word ∷ []) 11) }
    {
        if is_between(Self::LEAST, Self::MOST, word) {
            Some(PesoPrice(word))
        } else {
            None
        }
    }
}

// Whether low <= x <= high.
pub fn is_between(low: u64, high: u64, x: u64) -> bool
    ensures { result ≡ between low high x }
{
    (low..=high).contains(&x)
}

// Whether it is so for every word.
pub fn all_between(low: u64, high: u64, words: &[u64]) -> bool
    ensures { result ≡ all_between low high words.now }
{
    words.iter().all(|word| is_between(low, high, *word))
}

// The bound where a test holds; where it does not, nothing but 0 may stand.
pub fn bound_where(held: bool, bound: u64) -> u64
    ensures { result ≡ bound_where held bound }
{
    if held { bound } else { 0 }
}
