// The commands of a journal: which one stands next, and the form of what follows its word.
ghost use Rattle.std.specs.Prelude.{◌≡◌};
ghost use Rattle.journal.specs.Command.{load_form, form_by, command_named, command_after};

use crate::cursor::{Read, Unreadable};
use crate::form::{Kind, MOST_WORD, PARTS, Part};
use crate::token::next_token;
use numbers::sizes::{MOST_DISTRIBUTORS, PLACES};
use text::name::{NAME, name_bytes};

// The longest list that a call is ever lent.
pub const LONGEST_LIST: usize = 8192;

// A list of any numbers, and the length of a lent one.
const LIST: Kind = Kind::List(LONGEST_LIST as u64, MOST_WORD);

const LENGTH: Kind = Kind::Length(LONGEST_LIST as u64);

// Any number.
const NUMBER: Kind = Kind::Number(MOST_WORD);

#[derive(Clone, Copy)]
pub enum Command {
    Open,
    Fix,
    Settle,
    Save,
    Load,
    Interim,
    Join,
    ReadSheet,
    WriteSheet,
}

// A command by its name, an array of one size, as a part's is.
#[derive(Clone, Copy)]
struct CommandRow(pub [u8; NAME], pub Command);

// How many distributors.
const N: Part = Part(*b"N           ", NUMBER);

// Parts of a month's calls.
const MONTH: Part = Part(*b"MONTH       ", NUMBER);

const DOLLAR: Part = Part(*b"DOLLAR      ", NUMBER);

const FACTOR: Part = Part(*b"FACTOR      ", NUMBER);

const FIRST: Part = Part(*b"FIRST       ", NUMBER);

const DAY: Part = Part(*b"DAY         ", NUMBER);

const SERIES: Part = Part(*b"series      ", LIST);

const LINES: Part = Part(*b"lines       ", LIST);

const SECTORS: Part = Part(*b"sectors     ", LIST);

const IN_FORCE: Part = Part(*b"inforce     ", LIST);

const PRICES: Part = Part(*b"prices      ", LENGTH);

const POWER: Part = Part(*b"power       ", LENGTH);

const READINGS: Part = Part(*b"readings    ", LIST);

const LOSSES: Part = Part(*b"losses      ", LIST);

const TRANSFERS: Part = Part(*b"transfers   ", LENGTH);

// No part: a fixing has none where an interim one has the prices in force, and the parts after it keep their places.
const NOTHING: Part = Part(*b"            ", Kind::Nothing);

const OPEN_FORM: [Part; 1] = [N];

const FIX_FORM: [Part; 11] = [
    MONTH, DOLLAR, FACTOR, FIRST, DAY, SERIES, LINES, SECTORS, NOTHING, PRICES, POWER,
];

const INTERIM_FORM: [Part; 11] = [
    MONTH, DOLLAR, FACTOR, FIRST, DAY, SERIES, LINES, SECTORS, IN_FORCE, PRICES, POWER,
];

const SETTLE_FORM: [Part; 4] = [MONTH, READINGS, LOSSES, TRANSFERS];

const LOAD_FORM: [Part; PARTS] = [
    N,
    Part(*b"LAST        ", NUMBER),
    Part(*b"FIXED       ", Kind::Number(1)),
    MONTH,
    DAY,
    Part(*b"OLDER       ", Kind::Number(1)),
    Part(*b"present     ", Kind::List(PLACES as u64, 1)),
    Part(*b"charges     ", Kind::Signed(PLACES as u64)),
    Part(*b"olderpresent", Kind::List(PLACES as u64, 1)),
    Part(*b"oldercharges", Kind::Signed(PLACES as u64)),
    Part(*b"balances    ", Kind::Signed(MOST_DISTRIBUTORS as u64)),
    Part(
        *b"counts      ",
        Kind::List(MOST_DISTRIBUTORS as u64, MOST_WORD),
    ),
];

const READ_SHEET_FORM: [Part; 3] = [
    N,
    Part(*b"sheet       ", Kind::List(LONGEST_LIST as u64, 255)),
    Part(*b"readings    ", LENGTH),
];

const WRITE_SHEET_FORM: [Part; 3] = [N, READINGS, Part(*b"sheet       ", LENGTH)];

// The commands by their names.
const COMMANDS: [CommandRow; 9] = [
    CommandRow(*b"open        ", Command::Open),
    CommandRow(*b"fix         ", Command::Fix),
    CommandRow(*b"settle      ", Command::Settle),
    CommandRow(*b"save        ", Command::Save),
    CommandRow(*b"load        ", Command::Load),
    CommandRow(*b"interim     ", Command::Interim),
    CommandRow(*b"join        ", Command::Join),
    CommandRow(*b"readsheet   ", Command::ReadSheet),
    CommandRow(*b"writesheet  ", Command::WriteSheet),
];

// The form of a kept ledger.
pub fn load_form() -> &'static [Part]
    ensures { result.now ≡ load_form }
{
    &LOAD_FORM
}

// The form of what follows a command's word; where there is no command, nothing follows.
pub fn form_of(command: Option<Command>) -> &'static [Part]
    ensures { result.now ≡ form_by command }
{
    match command {
        Some(Command::Open) => &OPEN_FORM,
        Some(Command::Fix) => &FIX_FORM,
        Some(Command::Settle) => &SETTLE_FORM,
        Some(Command::Load) => &LOAD_FORM,
        Some(Command::Interim) => &INTERIM_FORM,
        Some(Command::ReadSheet) => &READ_SHEET_FORM,
        Some(Command::WriteSheet) => &WRITE_SHEET_FORM,
        Some(Command::Save | Command::Join) | None => &[],
    }
}

// The command of a word.
#[tactic(auto, unfolding(crate::specs::Command::command_named))]
fn command_named(word: &[u8]) -> Option<Command>
    ensures { result ≡ command_named word.now }
{
    let row = COMMANDS.iter().find(|row| word == name_bytes(&row.0))?;
    Some(row.1)
}

// Reads the next command's word; none where no token is left.
pub fn next_command(text: &[u8], at: usize) -> Result<Option<Read<Command>>, Unreadable>
    ensures { result ≡ command_after text.now at }
{
    let token = next_token(text, at);
    if token.start == text.len() {
        return Ok(None);
    }
    let read = token.read(command_named(token.bytes(text)))?;
    Ok(Some(read))
}
