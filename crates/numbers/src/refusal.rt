// The refusals of 01's table, "Refusals by cause", and those that 02 adds: the error of every call that may be refused.
ghost use Rattle.std.specs.Prelude.{◌≡◌};
ghost use Rattle.numbers.specs.Refusal.{refusal_answered};

// In the order of their numbers.
#[derive(Clone, Copy, Debug, PartialEq, Eq)]
pub enum Refusal {
    WrongCount,
    Unsound,
    WrongLength,
    OutOfTurn,
    NoFixing,
    OutOfRange,
    ValueTooLarge,
    WrongSector,
    NoLine,
    MonthMissing { line: usize, term: usize },
    OutOfBounds { line: usize },
    WrongReading,
    PositionBeyond,
    NoLineMoved,
    LedgerFull,
    WrongDay,
    WrongSheetLength,
    ZeroReading,
}

// The number of a refusal.
impl From<Refusal> for u64 {
    ghost from_gives = { λ refusal number. number ≡ (refusal_answered refusal).number };

    fn from(refusal: Refusal) -> u64 {
        match refusal {
            Refusal::WrongCount => 1,
            Refusal::Unsound => 2,
            Refusal::WrongLength => 3,
            Refusal::OutOfTurn => 4,
            Refusal::NoFixing => 5,
            Refusal::OutOfRange => 6,
            Refusal::ValueTooLarge => 7,
            Refusal::WrongSector => 8,
            Refusal::NoLine => 9,
            Refusal::MonthMissing { line: _, term: _ } => 10,
            Refusal::OutOfBounds { line: _ } => 11,
            Refusal::WrongReading => 12,
            Refusal::PositionBeyond => 13,
            Refusal::NoLineMoved => 14,
            Refusal::LedgerFull => 15,
            Refusal::WrongDay => 16,
            Refusal::WrongSheetLength => 17,
            Refusal::ZeroReading => 18,
        }
    }
}
