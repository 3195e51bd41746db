// The numbers of a sheet: 4 bytes each, low byte first.
ghost use Rattle.std.specs.Prelude.{◌≡◌, ◌++◌, ◌+◌, ◌≤◌, length, drop};
ghost use Rattle.sheet.specs.Number.{number_size, number_bytes, number_at};

pub(crate) const NUMBER_SIZE: usize = 4;

// The number that stands at a place.
#[tactic(auto, unfolding(crate::specs::Number::number_at))]
pub(crate) fn number_at(sheet: &[u8], place: usize) -> u64
    requires { place + number_size ≤ length sheet.now }
    ensures { result ≡ number_at sheet.now place }
{
    u64::from(u32::from_le_bytes([
        sheet[place],
        sheet[place + 1],
        sheet[place + 2],
        sheet[place + 3],
    ]))
}

// Writes a number as the first bytes of the lent ones.
#[tactic(auto, unfolding(crate::specs::Number::number_bytes))]
pub(crate) fn write_number(number: u64, into: &mut [u8])
    requires { number_size ≤ length into.old }
    ensures { into.new ≡ number_bytes number ++ drop number_size into.old }
{
    into[..NUMBER_SIZE].copy_from_slice(&number.to_le_bytes()[..NUMBER_SIZE]);
}
