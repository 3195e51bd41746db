// The Rattle half of the benchmark (bench/README.md): `timing LOAD CALL COUNT` builds a load once, makes the calls
// COUNT times and prints what bench/plain.rs prints for the same arguments, so that the two can be compared and timed.

#![tactic(auto)]

mod arguments;
mod calls;
mod load;
mod report;
mod sheets;

use arguments::{Calls, read_arguments};
use calls::{Written, make_calls};
use load::build_load;
use numbers::sizes::MOST_DISTRIBUTORS;
use report::{PRICES, print_results, print_sheet};
use sheets::write_and_read;

// The file descriptor of standard error.
const STDERR_FILENO: i32 = 2;

fn main(rt: HostRuntime) {
    let Some(task) = read_arguments(&rt) else {
        io::write_all(
            STDERR_FILENO,
            b"usage: timing even|mixed fix|settle|both|sheet COUNT\n",
        );
        return;
    };
    let load = build_load(task.mixed);
    match task.calls {
        Calls::OfSheet => print_sheet(write_and_read(&load.readings, task.count)),
        Calls::OfLedger(kinds) => {
            let mut written = Written {
                prices: [0; PRICES],
                power: [0; MOST_DISTRIBUTORS],
                transfers: [0; MOST_DISTRIBUTORS],
            };
            let results = make_calls(&load, kinds, task.count, &mut written);
            print_results(results, written);
        }
    }
}
