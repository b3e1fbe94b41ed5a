// A byte found in a text.
ghost use Rattle.std.specs.Prelude.{◌≡◌, ◌≤◌, ◌+◌, length};
ghost use Rattle.scan_words.specs.Finding.{slice, index_of};

// The first place of a byte in a text from one place to before another, or the latter where it is not there.
pub fn find(text: &[u8], from: usize, to: usize, byte: u8) -> usize
    requires ordered { from ≤ to }
    requires within { to ≤ length text.now }
    ensures value { result ≡ from + index_of byte (slice from to text.now) }
    ensures low { from ≤ result }
    ensures high { result ≤ to }
{
    match text[from..to].iter().position(|b| *b == byte) {
        Some(k) => from + k,
        None => to,
    }
}
