// Journals that cannot be read, one of each kind of error: what was read before the error stands as printed.

#![tactic(auto)]

ghost use Rattle.std.specs.Prelude.{◌≡◌, length};

use commands::run::replay;

// The file descriptor of standard output.
const STDOUT_FILENO: i32 = 1;

// Titles and journals, in the order of the print.
const JOURNALS: [(&[u8], &[u8]); 52] = [
    // Words.
    (b"an unknown word", b"open 3\nopne 3\n"),
    (b"a word that goes on", b"opened 3\n"),
    (b"a number for a word", b"open 3\n3\n"),
    (
        b"a list by another's name",
        b"settle 0 losses 0 readings 0 transfers 0\n",
    ),
    (
        b"prices in force in a regular fixing",
        b"fix 0 1 1 0 1 series 0 lines 0 sectors 0 inforce 0 prices 0 power 0\n",
    ),
    (
        b"an interim fixing without prices in force",
        b"interim 0 1 1 0 1 series 0 lines 0 sectors 0 prices 0 power 0\n",
    ),
    (
        b"a fixing without a power list",
        b"fix 0 1 1 0 1 series 0 lines 0 sectors 0 prices 0\nsave\n",
    ),
    (b"a comment in a word", b"op#en\n"),
    // Kept ledgers of other forms.
    (
        b"a ledger with a single count of months",
        b"load 2 0 0 0 0 present 0 charges 0 balances 0\n",
    ),
    (
        b"a ledger without a day",
        b"load 2 0 0 0 present 0 charges 0 balances 0 counts 0\n",
    ),
    (
        b"a ledger without an older fixing",
        b"load 2 0 0 0 0 0 present 0 charges 0 balances 0 counts 0\n",
    ),
    (
        b"a ledger without older charges",
        b"load 2 0 0 0 0 0 present 0 charges 0 olderpresent 0 balances 0 counts 0\n",
    ),
    (
        b"a ledger without counts",
        b"load 2 0 0 0 0 0 present 0 charges 0 olderpresent 0 oldercharges 0 balances 0\nsave\n",
    ),
    // Days.
    (
        b"a fixing without a day",
        b"fix 0 1 1 0 series 0 lines 0 sectors 0 prices 0 power 0\n",
    ),
    (
        b"an interim fixing without a day",
        b"interim 0 1 1 0 series 0 lines 0 sectors 0 inforce 0 prices 0 power 0\n",
    ),
    (
        b"a malformed day",
        b"fix 0 1 1 0 15th series 0 lines 0 sectors 0 prices 0 power 0\n",
    ),
    (
        b"a day with a sign",
        b"fix 0 1 1 0 -1 series 0 lines 0 sectors 0 prices 0 power 0\n",
    ),
    (
        b"a day of the largest number",
        b"load 1 0 0 0 18446744073709551615 0 present 0 charges 0 \
            olderpresent 0 oldercharges 0 balances 0 counts 0\nsave\n",
    ),
    (
        b"a day past 64 bits",
        b"load 1 0 0 0 18446744073709551616 0 present 0\n",
    ),
    // Numbers.
    (b"a missing number", b"open\n"),
    (b"a malformed number", b"open 3x\n"),
    (
        b"the largest number of 64 bits",
        b"open 18446744073709551615\n",
    ),
    (b"a number past 64 bits", b"open 18446744073709551616\n"),
    (b"a sign where none may stand", b"open -3\n"),
    (
        b"a sign without digits",
        b"load 1 0 0 0 0 0 present 0 charges 1 - olderpresent 0 oldercharges 0 balances 0 counts 0\n",
    ),
    (
        b"the least signed number",
        b"load 1 0 0 0 0 0 present 0 charges 1 -9223372036854775808 \
            olderpresent 0 oldercharges 0 balances 0 counts 0\nsave\n",
    ),
    (
        b"one below it",
        b"load 1 0 0 0 0 0 present 0 charges 1 -9223372036854775809 olderpresent 0\n",
    ),
    (
        b"one above the largest",
        b"load 1 0 0 0 0 0 present 0 charges 0 olderpresent 0 oldercharges 0 balances 1 9223372036854775808 counts 0\n",
    ),
    (
        b"a count of the largest number",
        b"load 1 0 0 0 0 0 present 0 charges 0 \
            olderpresent 0 oldercharges 0 balances 0 counts 1 18446744073709551615\nsave\n",
    ),
    (
        b"a count past 64 bits",
        b"load 1 0 0 0 0 0 present 0 charges 0 olderpresent 0 oldercharges 0 balances 0 counts 1 18446744073709551616",
    ),
    // Words that are 0 or 1.
    (
        b"FIXED of 2",
        b"load 1 0 2 0 0 0 present 0 charges 0 olderpresent 0 oldercharges 0 balances 0 counts 0\n",
    ),
    (
        b"OLDER of 2",
        b"load 1 0 1 0 1 2 present 0 charges 0 olderpresent 0 oldercharges 0 balances 0 counts 0\n",
    ),
    (
        b"a presence of 2",
        b"load 1 0 1 0 1 0 present 3 0 1 2 charges 0 olderpresent 0 oldercharges 0\n",
    ),
    (
        b"an older presence of 2",
        b"load 1 0 1 0 1 1 present 0 charges 0 olderpresent 3 0 1 2 oldercharges 0\n",
    ),
    // Lists of a kept ledger.
    (
        b"321 presences",
        b"load 1 0 0 0 0 0 present 321 charges 0 olderpresent 0 oldercharges 0 balances 0 counts 0\n",
    ),
    (
        b"321 charges",
        b"load 1 0 0 0 0 0 present 0 charges 321 olderpresent 0 oldercharges 0 balances 0 counts 0\n",
    ),
    (
        b"321 older presences",
        b"load 1 0 0 0 0 0 present 0 charges 0 olderpresent 321 oldercharges 0\n",
    ),
    (
        b"321 older charges",
        b"load 1 0 0 0 0 0 present 0 charges 0 olderpresent 0 oldercharges 321\n",
    ),
    (
        b"41 balances",
        b"load 1 0 0 0 0 0 present 0 charges 0 olderpresent 0 oldercharges 0 balances 41 counts 0\n",
    ),
    (
        b"41 counts",
        b"load 1 0 0 0 0 0 present 0 charges 0 olderpresent 0 oldercharges 0 balances 0 counts 41\n",
    ),
    // Lists.
    (
        b"a list too long",
        b"open 3\nfix 0 1 1 0 1 series 8193 1 2 3\n",
    ),
    (
        b"a lent list too long",
        b"settle 0 readings 0 losses 0 transfers 8193\n",
    ),
    (
        b"a power list too long",
        b"fix 0 1 1 0 1 series 0 lines 0 sectors 0 prices 8192 power 8193\n",
    ),
    (
        b"the longest lent list",
        b"settle 0 readings 0 losses 0 transfers 8192\n",
    ),
    (
        b"a list that ends too early",
        b"open 3\nsettle 0 readings 3 1 2",
    ),
    (
        b"a list with a word in it",
        b"settle 0 readings 3 1 2 losses 0 transfers 0\n",
    ),
    // Texts.
    (b"an empty text", b""),
    (b"blanks alone", b" \t\r\n"),
    (
        b"a comment at the end without a line end",
        b"open 3 # three",
    ),
    (b"a comment that ends a token", b"open 3#three\nsave"),
    (b"a carriage return", b"open 3\r\nsave\r\n"),
    (b"an error in a comment", b"# opne 3\nopen 41\nsave"),
];

// One byte more than the longest text, all blanks, from a function so that no goal writes them out.
fn blanks() -> [u8; 524289]
    ensures { 524289 ≡ length result }
{
    [b' '; 524289]
}

// Replays a journal under a title.
fn report(title: &[u8], text: &[u8]) {
    io::write_all(STDOUT_FILENO, b"# ");
    io::write_all(STDOUT_FILENO, title);
    io::write_all(STDOUT_FILENO, b"\n");
    replay(text);
}

// Replays the first bytes of a text under a title.
fn report_first(title: &[u8], text: &[u8], count: usize) {
    if count <= text.len() {
        report(title, &text[..count]);
    }
}

fn main() {
    for (title, text) in JOURNALS {
        report(title, text);
    }
    // One list for both, since two would stand on the stack side by side.
    let long = blanks();
    report(b"a text too long", &long);
    report_first(b"the longest text", &long, 524288);
}
