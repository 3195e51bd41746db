// Replays the journal on standard input: makes each call and prints each answer. docs/JOURNAL.md has the text form.

#![tactic(auto)]

use commands::input::journal_buffer;
use commands::run::replay;

// The file descriptor of standard input.
const STDIN_FILENO: i32 = 0;

// Each program that replays its input reads it itself: one function for all four would hide a read behind a contract that
// can say nothing of the input.
fn main() {
    let mut text = journal_buffer();
    let count = io::read_full(STDIN_FILENO, &mut text);
    replay(&text[..count]);
}
