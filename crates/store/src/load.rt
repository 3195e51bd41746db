// A ledger from the parts of its form, sound or not: the calls judge it.
ghost use Rattle.std.specs.Prelude.{◌≡◌, length};
ghost use Rattle.journal.specs.Form.{FormHeld, parts_in};
ghost use Rattle.journal.specs.Command.{load_form};
ghost use Rattle.store.specs.Store.{word_truth, word_at, loaded_charges, loaded_ledger};

use fixing::sector::SectorCharges;
use journal::form::Parts;
use ledger::ledger::Ledger;
use numbers::signed::signed_of;
use numbers::units::Pesos;
use std::array;

// A word as a truth: any but 0. It stands by itself, since the definition `word_truth` does.
fn word_truth(word: u64) -> bool
    ensures { result ≡ word_truth word }
{
    word != 0
}

// Word k of a list, 0 where it is not given, as the definition `word_at` has it: no Option.
fn word_at(words: &[u64], k: usize) -> u64
    ensures { result ≡ word_at words.now k }
{
    words.get(k).copied().unwrap_or(0)
}

// A fixing's presences and charges.
fn load_charges(present: &[u64], charges: &[u64]) -> SectorCharges
    ensures { result ≡ loaded_charges present.now charges.now }
{
    SectorCharges {
        present: array::from_fn(|k| word_truth(word_at(present, k))),
        charges: array::from_fn(|k| signed_of(word_at(charges, k))),
    }
}

// The ledger of the parts.
pub fn load(parts: &Parts, words: &[u64]) -> Ledger
    requires { FormHeld load_form parts.now (length words.now) }
    ensures { result ≡ loaded_ledger (parts_in parts.now words.now) }
{
    let force = load_charges(parts.words_of(words, 6), parts.words_of(words, 7));
    let older = load_charges(parts.words_of(words, 8), parts.words_of(words, 9));
    let balances = parts.words_of(words, 10);
    let counts = parts.words_of(words, 11);
    Ledger {
        n: parts.number_of(0) as usize,
        last: parts.number_of(1),
        fixed: word_truth(parts.number_of(2)),
        month: parts.number_of(3),
        day: parts.number_of(4),
        force,
        has_older: word_truth(parts.number_of(5)),
        older,
        balances: array::from_fn(|i| Pesos(signed_of(word_at(balances, i)))),
        counts: array::from_fn(|i| word_at(counts, i)),
    }
}
