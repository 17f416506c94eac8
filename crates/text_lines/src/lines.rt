// Where lines and words end. Past the end of the text a place is its own end.
ghost use Rattle.std.specs.Prelude.{◌≡◌};
ghost use Rattle.text_lines.specs.Lines.{first_either, line_end, word_end, after_word, Onward};

// The place of the first line feed at or after a place, or the end.
pub fn line_end(s: &[u8], at: usize) -> usize
    ensures { (result ≡ line_end s.now at) × Onward s.now at result }
{
    first_either(b'\n', b'\n', s, at)
}

// The place of the first space or line feed at or after a place, or the end.
pub fn word_end(s: &[u8], at: usize) -> usize
    ensures { (result ≡ word_end s.now at) × Onward s.now at result }
{
    first_either(b' ', b'\n', s, at)
}

// What stands behind the first word and the byte that ends it.
pub fn after_word(s: &[u8]) -> &[u8]
    ensures { result.now ≡ after_word s.now }
{
    let end = word_end(s, 0);
    if end < s.len() {
        return &s[end + 1..];
    }
    &s[end..]
}

fn first_either(a: u8, b: u8, s: &[u8], at: usize) -> usize
    ensures { (result ≡ first_either a b s.now at) × Onward s.now at result }
{
    for i in at..s.len() {
        if s[i] == a || s[i] == b {
            return i;
        }
    }
    at.max(s.len())
}
