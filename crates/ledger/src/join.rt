// The open call of joining: no requires. Causes 2 and 15 in their order.
ghost use Rattle.std.specs.Prelude.{◌≡◌, ◌<◌};
ghost use Rattle.numbers.specs.Sizes.{most_distributors};
ghost use Rattle.ledger.specs.Ledger.{joined_ledger};
ghost use Rattle.ledger.specs.Join.{joined_answer, JoinPromise};

use crate::ledger::{Ledger, Outcome, refused};
use crate::sound::is_sound;
use fixing::sector::no_charges;
use numbers::refusal::Refusal;
use numbers::sizes::MOST_DISTRIBUTORS;
use numbers::units::Pesos;

impl Ledger {
    // The ledger with one distributor more at the end, and no fixing in force until one covers all.
    fn book_join(mut self) -> Self
        requires { self.n < most_distributors }
        ensures { result ≡ joined_ledger self }
    {
        let n = self.n;
        let nothing = no_charges();
        self.n = n + 1;
        self.fixed = false;
        self.month = 0;
        self.day = 0;
        self.force = nothing;
        self.has_older = false;
        self.older = nothing;
        self.balances[n] = Pesos(0);
        self.counts[n] = 0;
        self
    }
}

// The ledger with one distributor more: causes 2 and 15 in their order.
fn joined(ledger: Ledger) -> Result<Ledger, Refusal>
    ensures { result ≡ joined_answer ledger }
{
    if !is_sound(ledger) {
        return Err(Refusal::Unsound);
    }
    if ledger.n >= MOST_DISTRIBUTORS {
        return Err(Refusal::LedgerFull);
    }
    Ok(ledger.book_join())
}

// A distributor joins: where it is accepted it stands at the end of the ledger handed back, with balance and count
// zero, and no fixing is in force; where it is refused the ledger is as it was.
pub fn join(ledger: Ledger) -> Outcome<()>
    ensures { JoinPromise ledger result.answer result.ledger }
{
    match joined(ledger) {
        Ok(next) => Outcome {
            answer: Ok(()),
            ledger: next,
        },
        Err(refusal) => refused(refusal, ledger),
    }
}
