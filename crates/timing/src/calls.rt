// The calls that are timed: each is given the same ledger and the same lent lists every time.
use crate::arguments::Kinds;
use crate::load::Load;
use crate::report::PRICES;
use ledger::fix::{FixingValues, fix};
use ledger::ledger::{Ledger, Outcome};
use ledger::open::open;
use ledger::settle::settle;
use numbers::sizes::MOST_DISTRIBUTORS;

// The lists that the calls write.
#[derive(Clone, Copy)]
pub(crate) struct Written {
    pub prices: [i64; PRICES],
    pub power: [u64; MOST_DISTRIBUTORS],
    pub transfers: [i64; MOST_DISTRIBUTORS],
}

// How many calls of each kind were accepted, and what the last of them gave.
#[derive(Clone, Copy)]
pub(crate) struct Results {
    pub fixings: u64,
    pub settlements: u64,
    pub values: Option<FixingValues>,
    pub settled: Option<Ledger>,
}

// A fixing of the load.
fn fix_load(load: &Load, ledger: Ledger, written: &mut Written) -> Outcome<FixingValues> {
    fix(
        ledger,
        load.numbers,
        &load.series,
        &load.lines,
        &load.sectors,
        &mut written.prices,
        &mut written.power,
    )
}

// The settlement of the load, for the fixing's month.
fn settle_load(load: &Load, ledger: Ledger, written: &mut Written) -> Outcome<()> {
    settle(
        ledger,
        load.numbers.month,
        &load.readings,
        &load.losses,
        &mut written.transfers,
    )
}

// Makes one fixing that is not counted, for the ledger of the settlements, then the calls.
pub(crate) fn make_calls(load: &Load, kinds: Kinds, count: u64, written: &mut Written) -> Results {
    let opened = open(MOST_DISTRIBUTORS).ledger;
    let fixed = fix_load(load, opened, written).ledger;
    let mut results = Results {
        fixings: 0,
        settlements: 0,
        values: None,
        settled: None,
    };
    for _ in 0..count {
        if kinds.fixings {
            if let Ok(values) = fix_load(load, opened, written).answer {
                results.fixings += 1;
                results.values = Some(values);
            }
        }
        if kinds.settlements {
            let settlement = settle_load(load, fixed, written);
            if settlement.answer.is_ok() {
                results.settlements += 1;
                results.settled = Some(settlement.ledger);
            }
        }
    }
    results
}
