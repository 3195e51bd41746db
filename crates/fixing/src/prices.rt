// The call on averages and energies alone: limit, surcharge, rounds, residue and final prices of 1 to 40
// distributors; and their charges. It has no lines and no ledger in it.
ghost use Rattle.std.specs.Prelude.{◌≡◌, ◌+◌, ◌≤◌, min, get_or, pos};
ghost use Rattle.std.proofs.Math.IntN.{sub_ℕ};
ghost use Rattle.numbers.specs.Bounded.{filled_below};
ghost use Rattle.numbers.specs.Units.{no_price, most_price};
ghost use Rattle.numbers.specs.Sizes.{most_distributors};
ghost use Rattle.fixing.specs.Limit.{InRange, distributors, contract_total, total_energy, above_limit};
ghost use Rattle.fixing.specs.Prices.{distributors_of, round_sums, last_round, PricesPromise};
ghost use Rattle.fixing.specs.Required.{Limited, PricesWithin};

use crate::distributors::PricedDistributors;
use numbers::rounding::divide_up;
use numbers::signed::difference;
use numbers::sizes::MOST_DISTRIBUTORS;
use numbers::units::{Energy, PesoPrice, UnsignedPesos};

// The final prices are a list of their own: `price_word` reads it beside the averages, which this call is given.
#[derive(Clone, Copy)]
pub struct FixedPrices {
    pub limit: PesoPrice,
    pub surcharge: PesoPrice,
    // How many rounds were made, the last included, in which nobody joined; 0 if nobody is above the limit.
    pub rounds: u64,
    pub residue: UnsignedPesos,
    pub finals: [PesoPrice; MOST_DISTRIBUTORS],
}

// What a round sums: what its set pays at the averages, the set's energy and the energy outside the set.
#[derive(Clone, Copy)]
struct RoundSums {
    paid: UnsignedPesos,
    inside: Energy,
    outside: Energy,
}

// The last round: its surcharge, and the count of the rounds with it.
#[derive(Clone, Copy)]
struct LastRound {
    surcharge: PesoPrice,
    rounds: u64,
}

// The limit for the capped, whom the surcharge puts above it, and the raised average for others: the lesser of the two.
fn final_price(average: PesoPrice, limit: PesoPrice, surcharge: PesoPrice) -> PesoPrice
    requires priced { average.0 ≤ most_price }
    requires raised { surcharge.0 ≤ 2100000 }
    ensures { result ≡ record { 0 = min limit.0 (average.0 + surcharge.0) } }
{
    let raised = average.0 + surcharge.0;
    if limit.0 < raised {
        limit
    } else {
        PesoPrice(raised)
    }
}

impl PricedDistributors {
    // What prices collect: of the averages the contract total, of the final prices what the residue is taken from.
    fn collected(self, prices: [PesoPrice; MOST_DISTRIBUTORS]) -> UnsignedPesos
        requires { InRange (distributors self.n prices self.energies) }
        ensures { result ≡ record { 0 = contract_total (distributors self.n prices self.energies) } }
    {
        let mut total: u64 = 0;
        for i in 0..self.n {
            total += prices[i].0 * self.energies[i].0;
        }
        UnsignedPesos(total)
    }

    // The energy of all distributors.
    fn energy(self) -> Energy
        ensures { result ≡ record { 0 = total_energy (distributors_of self) } }
    {
        let mut total: u64 = 0;
        for i in 0..self.n {
            total += self.energies[i].0;
        }
        Energy(total)
    }

    // The sums of a round, whose set is those whom the surcharge of the round before, `raise`, puts above the limit.
    fn round_sums(self, limit: PesoPrice, raise: PesoPrice) -> RoundSums
        requires limited { Limited (distributors_of self) limit }
        requires raised { raise.0 ≤ limit.0 }
        ensures { result ≡ round_sums (distributors_of self) (above_limit (distributors_of self) raise.0) }
    {
        let mut paid: u64 = 0;
        let mut inside: u64 = 0;
        let mut outside: u64 = 0;
        for i in 0..self.n {
            let average = self.averages[i].0;
            let energy = self.energies[i].0;
            if limit.0 < average + raise.0 {
                paid += average * energy;
                inside += energy;
            } else {
                outside += energy;
            }
        }
        RoundSums {
            paid: UnsignedPesos(paid),
            inside: Energy(inside),
            outside: Energy(outside),
        }
    }

    // The rounds, until one in which nobody joins. The set before a round is those whom the surcharge of the round
    // before puts above the limit, so that this one number tells it. The set only grows and each energy is at least 1,
    // so that its energy tells whether somebody joined: one pass before the first round and one in each, at most n in
    // all.
    fn last_round(self, limit: PesoPrice) -> LastRound
        requires { Limited (distributors_of self) limit }
        ensures { result ≡ last_round (distributors_of self) }
    {
        let mut sums = self.round_sums(limit, PesoPrice(0));
        if sums.inside.0 == 0 {
            return LastRound {
                surcharge: PesoPrice(0),
                rounds: 0,
            };
        }
        let mut rounds: u64 = 0;
        loop {
            let excess = sums.paid.0 - limit.0 * sums.inside.0;
            let surcharge = PesoPrice(divide_up(excess, sums.outside.0));
            rounds += 1;
            let next = self.round_sums(limit, surcharge);
            if next.inside.0 == sums.inside.0 {
                return LastRound { surcharge, rounds };
            }
            sums = next;
        }
    }

    // The final price of each distributor.
    fn final_prices(self, limit: PesoPrice, surcharge: PesoPrice) -> [PesoPrice; MOST_DISTRIBUTORS]
        requires { surcharge.0 ≤ 2100000 }
        ensures { result ≡ filled_below most_distributors no_price self.n
            (λ i. record { 0 = min limit.0 ((get_or self.averages i no_price).0 + surcharge.0) }) }
    {
        let mut finals = [PesoPrice(0); MOST_DISTRIBUTORS];
        for i in 0..self.n {
            finals[i] = final_price(self.averages[i], limit, surcharge);
        }
        finals
    }

    // The charge of each distributor: final price less average, signed, in 0.001 $/kWh.
    pub(crate) fn charges(self, finals: [PesoPrice; MOST_DISTRIBUTORS]) -> [i64; MOST_DISTRIBUTORS]
        requires { PricesWithin most_price self.n finals }
        ensures { result ≡ filled_below most_distributors (pos 0) self.n
            (λ i. sub_ℕ (get_or finals i no_price).0 (get_or self.averages i no_price).0) }
    {
        let mut charges = [0i64; MOST_DISTRIBUTORS];
        for i in 0..self.n {
            charges[i] = difference(finals[i].0, self.averages[i].0);
        }
        charges
    }

    // The limit and the rounds of document 01.
    pub(crate) fn fix_prices(self) -> FixedPrices
        ensures { PricesPromise (distributors_of self) result }
    {
        let total = self.collected(self.averages);
        let energy = self.energy();
        let floor = 105 * total.0 / (100 * energy.0);
        let limit = PesoPrice(floor);
        let last = self.last_round(limit);
        let surcharge = last.surcharge;
        let finals = self.final_prices(limit, surcharge);
        let collected = self.collected(finals);
        let residue = collected.0 - total.0;
        FixedPrices {
            limit,
            surcharge,
            rounds: last.rounds,
            residue: UnsignedPesos(residue),
            finals,
        }
    }
}
