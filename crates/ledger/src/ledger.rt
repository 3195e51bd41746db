// The ledger by value, what is asked of it by name (whether a month is settled, which month comes next, and which older
// fixing would stand beside a new one), and how a call hands it back.
ghost use Rattle.std.specs.Prelude.{Err, ◌≡◌, ◌≤◌};
ghost use Rattle.series.specs.Series.{last_month};
ghost use Rattle.ledger.specs.Ledger.{any_settled, next_month, makes_older, stays_older, older_stands, older_beside};

use fixing::sector::{SectorCharges, no_charges};
use numbers::refusal::Refusal;
use numbers::sizes::MOST_DISTRIBUTORS;
use numbers::units::Pesos;

#[derive(Clone, Copy)]
pub struct Ledger {
    // How many distributors: 1 to 40 in a sound ledger.
    pub n: usize,
    // The last settled month.
    pub last: u64,
    // Whether a fixing is in force, its month, its first day, and what it put in force. No Option, here and below: an
    // unsound ledger may hold the one without the other, and `sound` judges each field.
    pub fixed: bool,
    pub month: u64,
    pub day: u64,
    pub force: SectorCharges,
    // Whether an older fixing is kept beside it, and what that one had put in force.
    pub has_older: bool,
    pub older: SectorCharges,
    // What each distributor owes, or is owed below zero.
    pub balances: [Pesos; MOST_DISTRIBUTORS],
    // How many months are settled with each distributor.
    pub counts: [u64; MOST_DISTRIBUTORS],
}

// What a call answers, and the ledger handed back.
#[derive(Clone, Copy)]
pub struct Outcome<T> {
    pub answer: Result<T, Refusal>,
    pub ledger: Ledger,
}

// A refusal hands the ledger back as it was.
pub(crate) fn refused<T>(refusal: Refusal, ledger: Ledger) -> Outcome<T>
    ensures { result ≡ record { answer = Err refusal; ledger = ledger } }
{
    Outcome {
        answer: Err(refusal),
        ledger,
    }
}

impl Ledger {
    // Whether any month is settled.
    pub(crate) fn any_settled(self) -> bool
        ensures { result ≡ any_settled self }
    {
        self.counts.iter().any(|count| *count != 0)
    }

    // The month after the last settled one.
    pub(crate) fn next_month(self) -> u64
        requires { self.last ≤ last_month }
        ensures { result ≡ next_month self }
    {
        self.last + 1
    }

    // Whether a fixing for this month makes the one in force the older.
    fn makes_older(self, month: u64) -> bool
        ensures { result ≡ makes_older self month }
    {
        self.fixed & (self.month < month)
    }

    // Whether beside a fixing for this month the older one stays.
    fn stays_older(self, month: u64) -> bool
        ensures { result ≡ stays_older self month }
    {
        self.has_older & (month == self.month)
    }

    // Whether an older fixing would stand beside a fixing for this month.
    pub(crate) fn older_stands(self, month: u64) -> bool
        ensures { result ≡ older_stands self month }
    {
        self.makes_older(month) | self.stays_older(month)
    }

    // What it had put in force.
    pub(crate) fn older_beside(self, month: u64) -> SectorCharges
        ensures { result ≡ older_beside self month }
    {
        if self.makes_older(month) {
            return self.force;
        }
        if self.stays_older(month) {
            return self.older;
        }
        no_charges()
    }
}
