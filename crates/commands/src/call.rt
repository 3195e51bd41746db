// The lists that a call is lent: of either sign, of words without one, and of bytes.
ghost use Rattle.std.specs.Prelude.{◌≡◌, replicate};
ghost use Rattle.journal.specs.Command.{longest_list};

use journal::command::LONGEST_LIST;

// Room for the longest list, unwritten; from a function so that no goal writes its places out.
pub(crate) fn unwritten<T: Copy>(word: T) -> [T; LONGEST_LIST]
    ensures { result ≡ replicate longest_list word }
{
    [word; LONGEST_LIST]
}
