// Opening a ledger of n distributors.
ghost use Rattle.std.specs.Prelude.{◌≡◌};
ghost use Rattle.ledger.specs.Ledger.{empty_ledger, OpeningPromise};

use crate::ledger::{Ledger, Outcome, refused};
use fixing::sector::no_charges;
use numbers::refusal::Refusal;
use numbers::sizes::MOST_DISTRIBUTORS;
use numbers::units::{Pesos, is_between};

// A ledger of n distributors with nothing else set.
fn empty(n: usize) -> Ledger
    ensures { result ≡ empty_ledger n }
{
    let nothing = no_charges();
    let none = Pesos(0);
    Ledger {
        n,
        last: 0,
        fixed: false,
        month: 0,
        day: 0,
        force: nothing,
        has_older: false,
        older: nothing,
        balances: [none; MOST_DISTRIBUTORS],
        counts: [0; MOST_DISTRIBUTORS],
    }
}

// A new ledger of 1 to 40 distributors; any other count is refused with the all-zero ledger.
pub fn open(n: usize) -> Outcome<()>
    ensures { OpeningPromise n result.answer result.ledger }
{
    if is_between(1, MOST_DISTRIBUTORS as u64, n as u64) {
        return Outcome {
            answer: Ok(()),
            ledger: empty(n),
        };
    }
    refused(Refusal::WrongCount, empty(0))
}
