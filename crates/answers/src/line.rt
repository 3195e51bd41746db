// The lines of answers.
ghost use Rattle.std.specs.Prelude.{◌≡◌};
ghost use Rattle.numbers.specs.Refusal.{refusal_answered};
ghost use Rattle.answers.specs.Answer.{refused_by, refused_text, outcome_line, used_line, error_line};
ghost use Rattle.answers.specs.Answer.{changed_line, place_text, values_line, fixing_line};

use ledger::fix::FixingValues;
use numbers::refusal::Refusal;
use text::buffer::Writable;
use text::number::write_item;

// A refused command and a number, of a refusal or any other.
pub fn write_refused_by<T: Writable>(text: &mut T, name: &[u8], number: u64)
    ensures { text.new ≡ T.after (refused_by name.now number) text.old }
{
    text.push_all(name);
    write_item(text, b" refused", number);
}

// A refused command and the number of its refusal.
fn write_refused<T: Writable>(text: &mut T, name: &[u8], refusal: Refusal)
    ensures { text.new ≡ T.after (refused_text name.now refusal) text.old }
{
    write_refused_by(text, name, u64::from(refusal));
}

// The line of a command that was accepted or refused.
pub fn write_outcome<T: Writable>(text: &mut T, name: &[u8], answer: Result<(), Refusal>)
    ensures { text.new ≡ T.after (outcome_line name.now answer) text.old }
{
    match answer {
        Ok(()) => {
            text.push_all(name);
            text.push_all(b" accepted\n");
        }
        Err(refusal) => {
            write_refused(text, name, refusal);
            text.push(b'\n');
        }
    }
}

// The line of a sheet that was written with so many bytes, or refused.
pub fn write_used<T: Writable>(text: &mut T, name: &[u8], answer: Result<usize, Refusal>)
    ensures { text.new ≡ T.after (used_line name.now answer) text.old }
{
    match answer {
        Ok(used) => {
            text.push_all(name);
            write_item(text, b" accepted used", used as u64);
            text.push(b'\n');
        }
        Err(refusal) => write_outcome(text, name, Err(refusal)),
    }
}

// The line of a journal that cannot be read at this byte.
pub fn write_error<T: Writable>(text: &mut T, at: usize)
    ensures { text.new ≡ T.after (error_line at) text.old }
{
    write_item(text, b"journal error at byte", at as u64);
    text.push(b'\n');
}

// The line of a list that a refused call changed.
pub(crate) fn write_changed_line<T: Writable>(text: &mut T)
    ensures { text.new ≡ T.after changed_line text.old }
{
    text.push_all(b"changed\n");
}

// The place of a refusal, where it has one.
fn write_place<T: Writable>(text: &mut T, refusal: Refusal)
    ensures { text.new ≡ T.after (place_text (refusal_answered refusal).values) text.old }
{
    match refusal {
        Refusal::MonthMissing { line, term } => {
            write_item(text, b" line", line as u64);
            write_item(text, b" term", term as u64);
        }
        Refusal::OutOfBounds { line } => write_item(text, b" line", line as u64),
        _ => (),
    }
}

// The values of an accepted fixing, as a line of their own.
pub fn write_values<T: Writable>(text: &mut T, values: FixingValues)
    ensures { text.new ≡ T.after (values_line values) text.old }
{
    write_item(text, b"limit", values.limit.0);
    write_item(text, b" surcharge", values.surcharge.0);
    write_item(text, b" rounds", values.rounds);
    write_item(text, b" residue", values.residue.0);
    text.push(b'\n');
}

// The line of a fixing: its values, or its refusal with the place.
pub fn write_fixing<T: Writable>(text: &mut T, name: &[u8], answer: Result<FixingValues, Refusal>)
    ensures { text.new ≡ T.after (fixing_line name.now answer) text.old }
{
    match answer {
        Ok(values) => {
            text.push_all(name);
            text.push_all(b" accepted ");
            write_values(text, values);
        }
        Err(refusal) => {
            write_refused(text, name, refusal);
            write_place(text, refusal);
            text.push(b'\n');
        }
    }
}
