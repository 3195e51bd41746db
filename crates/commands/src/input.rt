// What a program reads a journal into.
ghost use Rattle.std.specs.Prelude.{◌≡◌, replicate};

// One byte more than the longest journal, so that a longer one is told.
pub fn journal_buffer() -> [u8; 524289]
    ensures { result ≡ replicate 524289 0 }
{
    [0; 524289]
}
