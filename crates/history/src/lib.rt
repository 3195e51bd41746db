// Demand 3 of document 01, the one statement over every list of calls from an opened ledger; and that a fixing gives
// each distributor the same prices under whatever number (W-207 of document 02).

#![tactic(auto)]

ghost use Rattle.std.specs.Prelude.{List, ℕ, ◌≤◌};
ghost use Rattle.numbers.specs.Renumbering.{Renumbering};
ghost use Rattle.numbers.specs.Sizes.{most_distributors};
ghost use Rattle.ledger.specs.Fix.{FixingCall, HandedBack, HandsBack};
ghost use Rattle.ledger.specs.declared.ledger.Ledger.{Ledger};
ghost use Rattle.history.specs.Run.{Call};
ghost use Rattle.history.specs.History.{History};
ghost use Rattle.history.specs.Renumbered.{RenumberedCall, renumbered_ledger, SameUnder};

// For every opening with 1 to 40 distributors and every list of fixings, interim fixings and settlements with any
// arguments, and joins: the ledger equals the plain ledger part by part and the same calls were accepted, the balances
// add up to the collected amounts, they are never of both signs, and each accepted fixing wrote the paper's prices and
// average power prices. The function does nothing; its ensures is the statement.
pub fn history_holds()
    ensures { (n : ℕ) → 1 ≤ n → n ≤ most_distributors → (calls : List Call) → History n calls }
{}

// "Offices number the distributors after their own lists and expect the same prices" (document 02), of whatever `fix`
// and `interim` hand back: for every ledger, every renumbering of its distributors and every call, the renumbered call
// on the renumbered ledger hands back the same, each distributor's under its new number. The function does nothing; its
// ensures is the statement.
pub fn prices_independent_of_numbering()
    ensures { (ledger : Ledger) (renumbering : Renumbering ledger.n) (call renumbered : FixingCall) →
        RenumberedCall renumbering call renumbered → (first second : HandedBack) → HandsBack ledger call first →
        HandsBack (renumbered_ledger renumbering ledger) renumbered second → SameUnder renumbering first second }
{}
