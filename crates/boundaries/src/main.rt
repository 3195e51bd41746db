// The given journal of W-208, then a tie in each rounding that can have one, bounds met alone, neighbouring causes met
// at once, words that are all different, interim fixings, forty distributors, and kept ledgers with an older fixing:
// the journal beside this program, replayed.

#![tactic(auto)]

use commands::input::journal_buffer;
use commands::run::replay;

// The file descriptor of standard input.
const STDIN_FILENO: i32 = 0;

// Each program that replays its input reads it itself: one function for all four would hide a read behind a contract that
// can say nothing of the input.
fn main() {
    let mut text = journal_buffer();
    let count = io::read_full(STDIN_FILENO, &mut text);
    replay(&text[..count]);
}
