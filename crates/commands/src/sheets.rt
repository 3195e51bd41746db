// The commands of month sheets: each is made from what its numbers and words hold, and answered. They know no ledger.
ghost use Rattle.std.specs.Prelude.{◌≡◌, length};
ghost use Rattle.text.specs.Buffer.{written};
ghost use Rattle.journal.specs.Form.{FormHeld, parts_in};
ghost use Rattle.journal.specs.Command.{read_sheet_form, write_sheet_form};
ghost use Rattle.commands.specs.Replay.{bytes_of, sheet_reading_text, sheet_writing_text, longest_answer};

use crate::call::unwritten;
use crate::run::LONGEST_ANSWER;
use answers::answer::{UNWRITTEN_BYTE, UNWRITTEN_WORD, write_sheet_read, write_sheet_written};
use journal::form::Parts;
use sheet::read::read_sheet;
use sheet::write::write_sheet;
use text::buffer::Text;

// The words of a list as bytes, which they are; the remainder, not a cast, since the definition (bytes_of) is of any words.
fn narrow(words: &[u64], bytes: &mut [u8])
    requires { length bytes.old ≡ length words.now }
    ensures { bytes.new ≡ bytes_of words.now }
{
    for (k, word) in words.iter().enumerate() {
        bytes[k] = (*word % 256) as u8;
    }
}

// Reads a sheet and answers it.
pub(crate) fn run_read_sheet(parts: &Parts, words: &[u64], answer: &mut Text<LONGEST_ANSWER>)
    requires { FormHeld read_sheet_form parts.now (length words.now) }
    ensures { answer.new ≡ written longest_answer
        (sheet_reading_text (parts_in parts.now words.now)) answer.old }
{
    let given = parts.words_of(words, 1);
    let mut byte_room = unwritten(UNWRITTEN_BYTE);
    let sheet = &mut byte_room[..given.len()];
    narrow(given, sheet);
    let mut room = unwritten(UNWRITTEN_WORD);
    let readings = &mut room[..parts.number_of(2) as usize];
    let read = read_sheet(parts.number_of(0) as usize, sheet, readings);
    write_sheet_read(answer, b"readsheet", read, readings);
}

// Writes a sheet and answers it.
pub(crate) fn run_write_sheet(parts: &Parts, words: &[u64], answer: &mut Text<LONGEST_ANSWER>)
    requires { FormHeld write_sheet_form parts.now (length words.now) }
    ensures { answer.new ≡ written longest_answer
        (sheet_writing_text (parts_in parts.now words.now)) answer.old }
{
    let readings = parts.words_of(words, 1);
    let mut room = unwritten(UNWRITTEN_BYTE);
    let sheet = &mut room[..parts.number_of(2) as usize];
    let used = write_sheet(parts.number_of(0) as usize, readings, sheet);
    write_sheet_written(answer, b"writesheet", used, sheet, UNWRITTEN_BYTE);
}
