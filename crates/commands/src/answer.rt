// The commands: each is made from what its numbers and words hold, and answered. Parts are named by their places, as the
// form has them. Whether a fixing is an interim one stays a flag, since the form, the call and the text by their
// definitions take it.
ghost use Rattle.std.specs.Prelude.{◌≡◌, length};
ghost use Rattle.text.specs.Buffer.{written};
ghost use Rattle.ledger.specs.Ledger.{opening_ledger};
ghost use Rattle.ledger.specs.Fix.{fixing_ledger, FixingPromise};
ghost use Rattle.ledger.specs.Settle.{settlement_ledger};
ghost use Rattle.ledger.specs.Join.{join_ledger};
ghost use Rattle.store.specs.Store.{loaded_ledger};
ghost use Rattle.journal.specs.Form.{FormHeld, number_of, parts_in};
ghost use Rattle.journal.specs.Command.{fixing_form, settle_form, load_form};
ghost use Rattle.commands.specs.Replay.{unwritten, unwritten_power, fixing_call, settlement_call};
ghost use Rattle.commands.specs.Replay.{opening_text, fixing_name, fixing_text, settlement_text};
ghost use Rattle.commands.specs.Replay.{joining_text, saving_text, loading_text, longest_answer};

use crate::call::unwritten;
use crate::run::LONGEST_ANSWER;
use answers::answer::{UNWRITTEN, UNWRITTEN_WORD, write_fixed, write_settled};
use answers::line::write_outcome;
use journal::command::load_form;
use journal::form::{Parts, write_form};
use ledger::fix::{FixingValues, fix, interim};
use ledger::join::join;
use ledger::ledger::{Ledger, Outcome};
use ledger::open::open;
use ledger::settle::settle;
use store::load::load;
use store::save::{KEPT_WORDS, save};
use supply::market::FixingNumbers;
use text::buffer::Text;

// Opens a ledger.
pub(crate) fn run_open(n: usize, answer: &mut Text<LONGEST_ANSWER>) -> Ledger
    ensures booked { result ≡ opening_ledger n }
    ensures answered { answer.new ≡ written longest_answer (opening_text n) answer.old }
{
    let opened = open(n);
    write_outcome(answer, b"open", opened.answer);
    opened.ledger
}

// Lets a distributor join.
pub(crate) fn run_join(ledger: Ledger, answer: &mut Text<LONGEST_ANSWER>) -> Ledger
    ensures booked { result ≡ join_ledger ledger }
    ensures answered { answer.new ≡ written longest_answer (joining_text ledger) answer.old }
{
    let joined = join(ledger);
    write_outcome(answer, b"join", joined.answer);
    joined.ledger
}

// The name of a fixing's command.
fn fixing_name(is_interim: bool) -> &'static [u8]
    ensures { result.now ≡ fixing_name is_interim }
{
    if is_interim { b"interim" } else { b"fix" }
}

// Makes a fixing with its lent lists, by the open call of its kind.
fn call_fixing(
    is_interim: bool,
    parts: &Parts,
    ledger: Ledger,
    words: &[u64],
    prices: &mut [i64],
    power: &mut [u64],
) -> Outcome<FixingValues>
    requires held { FormHeld (fixing_form is_interim) parts.now (length words.now) }
    requires prices { prices.old ≡ unwritten (number_of parts.now 9) }
    requires power { power.old ≡ unwritten_power (number_of parts.now 10) }
    ensures { FixingPromise ledger (fixing_call is_interim (parts_in parts.now words.now)) result.answer
        result.ledger prices.new power.new }
{
    let numbers = FixingNumbers {
        month: parts.number_of(0),
        dollar: parts.number_of(1),
        reference_factor: parts.number_of(2),
        first_month: parts.number_of(3),
        day: parts.number_of(4),
    };
    let series = parts.words_of(words, 5);
    let lines = parts.words_of(words, 6);
    let sectors = parts.words_of(words, 7);
    if is_interim {
        let in_force = parts.words_of(words, 8);
        return interim(
            ledger, numbers, series, lines, sectors, in_force, prices, power,
        );
    }
    fix(ledger, numbers, series, lines, sectors, prices, power)
}

// Makes a fixing and answers it.
pub(crate) fn run_fixing(
    is_interim: bool,
    parts: &Parts,
    ledger: Ledger,
    words: &[u64],
    answer: &mut Text<LONGEST_ANSWER>,
) -> Ledger
    requires { FormHeld (fixing_form is_interim) parts.now (length words.now) }
    ensures booked { result ≡ fixing_ledger ledger (fixing_call is_interim (parts_in parts.now words.now)) }
    ensures answered { answer.new ≡ written longest_answer
        (fixing_text ledger (fixing_call is_interim (parts_in parts.now words.now))) answer.old }
{
    let mut price_room = unwritten(UNWRITTEN);
    let mut power_room = unwritten(UNWRITTEN_WORD);
    let prices = &mut price_room[..parts.number_of(9) as usize];
    let power = &mut power_room[..parts.number_of(10) as usize];
    let outcome = call_fixing(is_interim, parts, ledger, words, prices, power);
    write_fixed(
        answer,
        fixing_name(is_interim),
        outcome.answer,
        prices,
        power,
    );
    outcome.ledger
}

// Makes a settlement and answers it.
pub(crate) fn run_settle(
    parts: &Parts,
    ledger: Ledger,
    words: &[u64],
    answer: &mut Text<LONGEST_ANSWER>,
) -> Ledger
    requires { FormHeld settle_form parts.now (length words.now) }
    ensures booked { result ≡ settlement_ledger ledger (settlement_call (parts_in parts.now words.now)) }
    ensures answered { answer.new ≡ written longest_answer
        (settlement_text ledger (settlement_call (parts_in parts.now words.now))) answer.old }
{
    let readings = parts.words_of(words, 1);
    let losses = parts.words_of(words, 2);
    let mut room = unwritten(UNWRITTEN);
    let transfers = &mut room[..parts.number_of(3) as usize];
    let outcome = settle(ledger, parts.number_of(0), readings, losses, transfers);
    let balances = outcome.ledger.balances;
    write_settled(answer, b"settle", outcome.answer, transfers, &balances);
    outcome.ledger
}

// Prints the ledger as a command that loads it.
pub(crate) fn run_save(ledger: Ledger, answer: &mut Text<LONGEST_ANSWER>) -> Ledger
    ensures booked { result ≡ ledger }
    ensures answered { answer.new ≡ written longest_answer (saving_text ledger) answer.old }
{
    let mut words = [0u64; KEPT_WORDS];
    let parts = save(ledger, &mut words);
    write_form(answer, *b"load        ", load_form(), &parts, &words);
    ledger
}

// Loads a kept ledger.
pub(crate) fn run_load(parts: &Parts, words: &[u64], answer: &mut Text<LONGEST_ANSWER>) -> Ledger
    requires { FormHeld load_form parts.now (length words.now) }
    ensures booked { result ≡ loaded_ledger (parts_in parts.now words.now) }
    ensures answered { answer.new ≡ written longest_answer loading_text answer.old }
{
    write_outcome(answer, b"load", Ok(()));
    load(parts, words)
}
