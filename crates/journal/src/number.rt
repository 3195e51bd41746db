// The number that a token's bytes write.
ghost use Rattle.std.specs.Prelude.{◌≡◌};
ghost use Rattle.journal.specs.Number.{digit_taken, number_in, above_zero, below_zero, signed_in, reading_in};

// A number with one more digit, where the byte is one and the number fits 64 bits.
fn take_digit(value: u64, byte: u8) -> Option<u64>
    ensures { result ≡ digit_taken byte value }
{
    if !byte.is_ascii_digit() {
        return None;
    }
    value.checked_mul(10)?.checked_add(u64::from(byte - b'0'))
}

// The number of the digits, which are some.
fn read_number(digits: &[u8]) -> Option<u64>
    ensures { result ≡ number_in digits.now }
{
    if digits.is_empty() {
        return None;
    }
    let mut value: u64 = 0;
    for digit in digits {
        value = take_digit(value, *digit)?;
    }
    Some(value)
}

// A size as a number of at least zero.
fn above_zero(size: u64) -> Option<u64>
    ensures { result ≡ above_zero size }
{
    if size < 1 << 63 { Some(size) } else { None }
}

// A size as the word that holds the number of at most zero.
fn below_zero(size: u64) -> Option<u64>
    ensures { result ≡ below_zero size }
{
    if size <= 1 << 63 {
        Some(size.wrapping_neg())
    } else {
        None
    }
}

// The number of the digits after a sign.
fn read_signed(bytes: &[u8]) -> Option<u64>
    ensures { result ≡ signed_in bytes.now }
{
    if let Some(digits) = bytes.strip_prefix(b"-") {
        return below_zero(read_number(digits)?);
    }
    above_zero(read_number(bytes)?)
}

// The number of the bytes, of either sign as the word of 64 bits that holds it, or without a sign.
// `signed` is a flag, since the kind of a part says it when the text is read, and `reading_in` takes it.
pub(crate) fn read_digits(bytes: &[u8], signed: bool) -> Option<u64>
    ensures { result ≡ reading_in signed bytes.now }
{
    if signed {
        return read_signed(bytes);
    }
    read_number(bytes)
}
