// Command after command of a journal. What cannot be read is told by its byte, and the broken command is not made.
ghost use Rattle.std.specs.Prelude.{◌≡◌, ◌≤◌, length, []};
ghost use Rattle.text.specs.Buffer.{written};
ghost use Rattle.journal.specs.Form.{FormHeld, parts_in};
ghost use Rattle.journal.specs.Command.{command_form};
ghost use Rattle.commands.specs.Replay.{word_room, command_ledger, command_answer, ledger_after, answer_after};
ghost use Rattle.commands.specs.Replay.{longest_answer, longest_text, replayed};

use crate::answer::{run_fixing, run_join, run_load, run_open, run_save, run_settle};
use crate::sheets::{run_read_sheet, run_write_sheet};
use answers::line::write_error;
use journal::command::{Command, form_of, next_command};
use journal::cursor::{Read, Unreadable};
use journal::form::{Parts, read_form};
use ledger::ledger::Ledger;
use ledger::open::open;
use text::buffer::Text;

// The file descriptor of standard output.
const STDOUT_FILENO: i32 = 1;

// The longest journal, in bytes.
const LONGEST_TEXT: usize = 524288;

// The most bytes of an answer.
pub(crate) const LONGEST_ANSWER: usize = 262144;

// The ledger after a journal, and how far its text was read.
#[derive(Clone, Copy)]
pub struct Step {
    pub ledger: Ledger,
    pub next: Result<usize, Unreadable>,
}

// Room for the words of a command, from a function so that no goal writes them out.
fn word_buffer() -> [u64; 32768]
    ensures { length result ≡ word_room }
{
    [0; 32768]
}

// Makes a command of its parts and answers it: the ledger after it.
fn make_command(
    command: Command,
    parts: &Parts,
    ledger: Ledger,
    words: &[u64],
    answer: &mut Text<LONGEST_ANSWER>,
) -> Ledger
    requires { FormHeld (command_form command) parts.now (length words.now) }
    ensures booked { result ≡ command_ledger command (parts_in parts.now words.now) ledger }
    ensures answered { answer.new ≡ written longest_answer
        (command_answer command (parts_in parts.now words.now) ledger) answer.old }
{
    match command {
        Command::Open => run_open(parts.number_of(0) as usize, answer),
        Command::Save => run_save(ledger, answer),
        Command::Load => run_load(parts, words, answer),
        Command::Fix => run_fixing(false, parts, ledger, words, answer),
        Command::Settle => run_settle(parts, ledger, words, answer),
        Command::Interim => run_fixing(true, parts, ledger, words, answer),
        Command::Join => run_join(ledger, answer),
        Command::ReadSheet => {
            run_read_sheet(parts, words, answer);
            ledger
        }
        Command::WriteSheet => {
            run_write_sheet(parts, words, answer);
            ledger
        }
    }
}

// The command that stands next: the ledger after it, and its answer. Where no token is left the ledger stays as it was.
fn run_command(
    text: &[u8],
    at: usize,
    ledger: Ledger,
    answer: &mut Text<LONGEST_ANSWER>,
) -> Result<Read<Ledger>, Unreadable>
    requires { answer.old ≡ [] }
    ensures booked { result ≡ ledger_after text.now at ledger }
    ensures answered { answer.new ≡ answer_after text.now at ledger }
{
    let Some(command) = next_command(text, at)? else {
        return Ok(Read {
            value: ledger,
            next: text.len(),
        });
    };
    let mut words = word_buffer();
    let form = form_of(Some(command.value));
    let form = match read_form(text, Ok(command.next), form, &mut words) {
        Ok(form) => form,
        Err(broken) => return Err(broken.broken),
    };
    let after = make_command(command.value, &form.value, ledger, &words, answer);
    Ok(Read {
        value: after,
        next: form.next,
    })
}

// Writes where the text cannot be read.
fn print_error(broken: Unreadable) {
    let mut line = Text::<64>::new();
    write_error(&mut line, broken.0);
    io::write_all(STDOUT_FILENO, line.as_bytes());
}

// Makes the commands of a text that is not too long, in their order, and prints their answers.
fn run_commands(text: &[u8]) -> Step
    requires { length text.now ≤ longest_text }
    ensures { result ≡ replayed text.now }
{
    let mut answer = Text::new();
    let mut ledger = open(0).ledger;
    let mut at: usize = 0;
    // No count: each command tells where the next one begins.
    while at < text.len() {
        answer.clear();
        match run_command(text, at, ledger, &mut answer) {
            Ok(after) => {
                io::write_all(STDOUT_FILENO, answer.as_bytes());
                ledger = after.value;
                at = after.next;
            }
            Err(broken) => {
                return Step {
                    ledger,
                    next: Err(broken),
                };
            }
        }
    }
    Step {
        ledger,
        next: Ok(at),
    }
}

// Makes the commands of a journal, in their order, and prints their answers, and a line where it cannot be read: the
// ledger after them, and how far the text was read.
pub fn replay(text: &[u8]) -> Step
    ensures { result ≡ replayed text.now }
{
    let step = if text.len() > LONGEST_TEXT {
        Step {
            ledger: open(0).ledger,
            next: Err(Unreadable(LONGEST_TEXT)),
        }
    } else {
        run_commands(text)
    };
    if let Err(broken) = step.next {
        print_error(broken);
    }
    step
}
