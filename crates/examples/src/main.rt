// The class examples of document 01 as one statement; and outside vectors through the engine: the 33 prices that the
// commission printed in dollars and in pesos (source document 000, table 4; vectors/node-prices.csv), each through the
// peso step. The stored output is the print.

#![tactic(auto)]

ghost use Rattle.std.specs.Prelude.{◌≡◌, true};
ghost use Rattle.examples.specs.Table.{hold_from};
ghost use Rattle.examples.specs.ClassExamples.{class_examples};

use supply::price::peso_price;

// The file descriptor of standard output.
const STDOUT_FILENO: i32 = 1;

// The print's dollar, in hundredths of $.
const DOLLAR: u64 = 68207;

// The print's prices, in 0.001 US$/MWh.
const PRICES: [u64; 33] = [
    47180, 47422, 46369, 46281, 46485, 49401, 48170, 53836, 53339, 53033, 60116, 62407, 63199,
    63817, 63211, 62458, 65024, 64800, 63096, 61227, 64335, 64916, 64449, 63045, 62318, 58775,
    58368, 60441, 68233, 68521, 69204, 70251, 58119,
];

// A line of the print: the price, and the price in pesos that the engine works.
fn print_price(price: u64) {
    if price <= 1000000 {
        let peso = peso_price(price, DOLLAR);
        io::print_decimal(STDOUT_FILENO, price);
        io::write_all(STDOUT_FILENO, b",");
        io::print_decimal(STDOUT_FILENO, peso.0);
        io::write_all(STDOUT_FILENO, b"\n");
    }
}

// The twelve class examples of document 01, through the open calls' own definitions: every value is the printed one.
// The function does nothing; its ensures is the statement.
fn class_examples_hold()
    ensures { hold_from 1 class_examples ≡ true }
{}

fn main() {
    class_examples_hold();
    for price in PRICES {
        print_price(price);
    }
}
