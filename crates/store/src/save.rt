// A ledger as the parts of its form: both fixings, balances and counts of its distributors, or all where a word past
// them is not zero.
ghost use Rattle.std.specs.Prelude.{◌≡◌, ◌<◌, ◌≤◌, length};
ghost use Rattle.numbers.specs.Sizes.{most_distributors};
ghost use Rattle.store.specs.Store.{older_from, kept_words, charges_word, ledger_word};
ghost use Rattle.store.specs.Store.{ledger_words, word_owner, zero_past, kept_among, Saved};

use fixing::sector::SectorCharges;
use journal::form::{Parts, Placed};
use ledger::ledger::Ledger;
use numbers::signed::word_of;
use numbers::sizes::{MOST_DISTRIBUTORS, PLACES, SECTORS};

// Where the older fixing stands, after presences and charges of the one in force.
const OLDER: usize = PLACES + PLACES;

// Where its charges stand, after its presences.
const OLDER_CHARGES: usize = OLDER + PLACES;

// Where the balances stand, after both fixings.
const BALANCES: usize = OLDER + OLDER;

// Where the counts stand, after the balances.
const COUNTS: usize = BALANCES + MOST_DISTRIBUTORS;

// How many words there are at most.
pub const KEPT_WORDS: usize = COUNTS + MOST_DISTRIBUTORS;

// Word k of a fixing's: presences, then charges.
fn charges_word(fixing: SectorCharges, k: usize) -> u64
    requires { k < older_from }
    ensures { result ≡ charges_word fixing k }
{
    if k < PLACES {
        return u64::from(fixing.present[k]);
    }
    word_of(fixing.charges[k - PLACES])
}

// Word k of a ledger's: the fixing in force, the older one, balances and counts, one list after the other.
fn ledger_word(ledger: Ledger, k: usize) -> u64
    requires { k < kept_words }
    ensures { result ≡ ledger_word ledger k }
{
    if k < OLDER {
        return charges_word(ledger.force, k);
    }
    if k < BALANCES {
        return charges_word(ledger.older, k - OLDER);
    }
    if k < COUNTS {
        let balance = ledger.balances[k - BALANCES];
        return word_of(balance.0);
    }
    ledger.counts[k - COUNTS]
}

// All of them.
fn save_words(ledger: Ledger, words: &mut [u64])
    requires { length words.old ≡ kept_words }
    ensures { words.new ≡ ledger_words ledger }
{
    for k in 0..KEPT_WORDS {
        words[k] = ledger_word(ledger, k);
    }
}

// The distributor whose word it is: by places in the lists of the fixings, then one word for each.
fn word_owner(k: usize) -> usize
    ensures { result ≡ word_owner k }
{
    if k < BALANCES {
        return k % PLACES / SECTORS;
    }
    (k - BALANCES) % MOST_DISTRIBUTORS
}

// Whether the words past n distributors are zero.
fn zero_past(n: usize, words: &[u64]) -> bool
    requires { length words.now ≡ kept_words }
    ensures { result ≡ zero_past n words.now }
{
    (0..KEPT_WORDS).all(|k| (word_owner(k) < n) | (words[k] == 0))
}

// For how many distributors words are kept.
fn kept_among(n: usize, words: &[u64]) -> usize
    requires { length words.now ≡ kept_words }
    ensures value { result ≡ kept_among n words.now }
    ensures few { result ≤ most_distributors }
{
    if n <= MOST_DISTRIBUTORS && zero_past(n, words) {
        return n;
    }
    MOST_DISTRIBUTORS
}

// The ledger's parts: its words into the lent ones, its numbers, and where the words stand.
pub fn save(ledger: Ledger, words: &mut [u64]) -> Parts
    requires { length words.old ≡ kept_words }
    ensures { Saved ledger result words.new }
{
    save_words(ledger, words);
    let kept = kept_among(ledger.n, words);
    let places = kept * SECTORS;
    Parts([
        Placed::of_number(ledger.n as u64),
        Placed::of_number(ledger.last),
        Placed::of_number(u64::from(ledger.fixed)),
        Placed::of_number(ledger.month),
        Placed::of_number(ledger.day),
        Placed::of_number(u64::from(ledger.has_older)),
        Placed::of_list(0, places),
        Placed::of_list(PLACES, places),
        Placed::of_list(OLDER, places),
        Placed::of_list(OLDER_CHARGES, places),
        Placed::of_list(BALANCES, kept),
        Placed::of_list(COUNTS, kept),
    ])
}
