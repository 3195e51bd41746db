// Rows: a row has its number, then its numbers of a list, and its number of a column where the column has one.
ghost use Rattle.std.specs.Prelude.{◌≡◌, ◌<◌};
ghost use Rattle.text.specs.Row.{column_text, row_text, rows_text, numbers_line};

use crate::buffer::Writable;
use crate::number::{Decimal, write_decimal, write_word, write_words};
use numbers::sizes::MOST_DISTRIBUTORS;

// Writes a column's number in a row, where it has one.
fn write_column<T: Writable, C: Decimal>(text: &mut T, i: usize, column: &[C])
    ensures { text.new ≡ T.after (column_text C.shown column.now i) text.old }
{
    if let Some(number) = column.get(i) {
        write_word(text, *number);
    }
}

// Writes a row.
fn write_row<T: Writable, N: Decimal, C: Decimal>(
    text: &mut T,
    i: usize,
    numbers: &[N],
    column: &[C],
)
    ensures { text.new ≡ T.after (row_text N.shown C.shown i numbers.now column.now) text.old }
{
    write_decimal(text, i as u64);
    write_words(text, numbers);
    write_column(text, i, column);
    text.push(b'\n');
}

// Writes a row for each `width` numbers of the list, for no more than the most distributors.
pub fn write_rows<T: Writable, N: Decimal, C: Decimal>(
    text: &mut T,
    list: &[N],
    width: usize,
    column: &[C],
)
    requires { 0 < width }
    ensures { text.new ≡ T.after
        (rows_text N.shown C.shown list.now width column.now) text.old }
{
    for i in 0..(list.len() / width).min(MOST_DISTRIBUTORS) {
        let from = i * width;
        write_row(text, i, &list[from..from + width], column);
    }
}

// Writes numbers as a line, a blank between any two.
pub fn write_numbers_line<T: Writable, N: Decimal>(text: &mut T, numbers: &[N])
    ensures { text.new ≡ T.after (numbers_line N.shown numbers.now) text.old }
{
    if let Some((first, rest)) = numbers.split_first() {
        write_decimal(text, *first);
        write_words(text, rest);
    }
    text.push(b'\n');
}
