// Where a journal's tokens start and end.
ghost use Rattle.std.specs.Prelude.{◌≡◌, ◌≤◌, length};
ghost use Rattle.journal.specs.Token.{bytes_of, ends_token, comment_after, token_start, token_end, token_after};

// A token's place: its first byte, and the byte after its last.
#[derive(Clone, Copy)]
pub(crate) struct Token {
    pub start: usize,
    pub end: usize,
}

impl Token {
    // The bytes of the token.
    pub(crate) fn bytes<'a>(self, text: &'a [u8]) -> &'a [u8]
        requires ordered { self.start ≤ self.end }
        requires within { self.end ≤ length text.now }
        ensures { result.now ≡ bytes_of text.now self }
    {
        &text[self.start..self.end]
    }
}

// Whether a byte ends a token: a blank, or a comment's first.
fn ends_token(byte: u8) -> bool
    ensures { result ≡ ends_token byte }
{
    ((byte == b' ') | ((byte == b'\t') | ((byte == b'\n') | (byte == b'\r')))) | (byte == b'#')
}

// Whether the byte after this one is in a comment.
fn comment_after(comment: bool, byte: u8) -> bool
    ensures { result ≡ comment_after comment byte }
{
    (byte != b'\n') & (comment | (byte == b'#'))
}

// Where the next token starts; the text's length where there is none.
fn token_start(text: &[u8], from: usize) -> usize
    requires { from ≤ length text.now }
    ensures { result ≡ token_start text.now from }
{
    let mut comment = false;
    for k in from..text.len() {
        let byte = text[k];
        if !(comment | ends_token(byte)) {
            return k;
        }
        comment = comment_after(comment, byte);
    }
    text.len()
}

// Where the token that starts at a place ends.
fn token_end(text: &[u8], start: usize) -> usize
    requires { start ≤ length text.now }
    ensures { result ≡ token_end text.now start }
{
    for k in start..text.len() {
        if ends_token(text[k]) {
            return k;
        }
    }
    text.len()
}

// The next token from a place on; at the text's end where there is none.
pub(crate) fn next_token(text: &[u8], from: usize) -> Token
    ensures value { result ≡ token_after text.now from }
    ensures ordered { result.start ≤ result.end }
    ensures within { result.end ≤ length text.now }
{
    let start = token_start(text, from.min(text.len()));
    let end = token_end(text, start);
    Token { start, end }
}
