// A ledger kept as text, from month to month.
ghost use Rattle.std.specs.Prelude.{◌≡◌, length};
ghost use Rattle.commands.specs.Replay.{saving_text, read_with, replayed};

use ledger::ledger::Ledger;

// The text that `save` prints of a ledger, sound or not, is a journal that loads the same ledger. The function does
// nothing; its ensures is the statement.
pub fn kept_text_loads(ledger: Ledger)
    ensures { replayed (saving_text ledger) ≡ read_with ledger (length (saving_text ledger)) }
{}
