// What the two open calls are to each other: "What the writer writes the reader gives back, and sheets read as equal
// readings are equal" (document 02), of whatever meets their promises. The functions do nothing; each ensures is the
// statement.
ghost use Rattle.std.specs.Prelude.{◌≡◌, List, ℕ, ◌*◌, length, take, Ok};
ghost use Rattle.numbers.specs.Required.{ValuesWithin};
ghost use Rattle.numbers.specs.Sizes.{distributor_readings};
ghost use Rattle.numbers.specs.Refusal.{Verdict};
ghost use Rattle.sheet.specs.Read.{ReadPromise};
ghost use Rattle.sheet.specs.Write.{WritePromise};

// Every n, readings that the writer takes and buffer: the bytes that it says it used are read as the same readings.
pub fn written_sheet_is_read()
    ensures { (n : ℕ) (readings buffer left lent list : List ℕ) (used : ℕ) (verdict : Verdict) →
        WritePromise n readings buffer (Ok used) left → length lent ≡ n * distributor_readings →
        ReadPromise n (take used left) lent verdict list → (verdict ≡ Ok tt) × (list ≡ readings) }
{}

// Two lists of bytes that the reader accepts and gives the same readings of are the same bytes.
pub fn equal_readings_equal_sheets()
    ensures { (n : ℕ) (one other lent also list : List ℕ) → ValuesWithin 255 one → ValuesWithin 255 other →
        ReadPromise n one lent (Ok tt) list → ReadPromise n other also (Ok tt) list → one ≡ other }
{}
