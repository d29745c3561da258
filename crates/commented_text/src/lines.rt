// The lines of a source, from the front on.
ghost use Rattle.std.specs.Prelude.{◌≡◌, ◌==◌, ◌+◌, ◌≤◌, ◌<◌, [], ◌∷◌, take, length, not, MatchOption, IfSome};
ghost use Rattle.std.specs.List.{prefix_len};
ghost use Rattle.commented_text.specs.Lines.{source_len, lines_of};

use base::without_cr;

/// The byte that ends a source.
const END_OF_FILE: u8 = 0x1a;

// How many bytes stand before the first that is a certain one: all of them, where none is.
fn len_before(bytes: &[u8], end: u8) -> usize
    ensures value { result ≡ prefix_len (λ b. not (b == end)) bytes.now }
    ensures within { result ≤ length bytes.now }
{
    let mut count = 0;
    for b in bytes {
        if *b == end {
            return count;
        }
        count += 1;
    }
    count
}

/// The bytes of a source, without the byte that ends it and what follows.
pub fn source_of(bytes: &[u8]) -> &[u8]
    ensures { result.now ≡ take (source_len bytes.now) bytes.now }
{
    &bytes[..len_before(bytes, END_OF_FILE)]
}

/// The first line, and the bytes after it.
pub fn next_line(bytes: &[u8]) -> Option<(&[u8], &[u8])>
    ensures lines { MatchOption result (lines_of bytes.now ≡ []) (λ p. lines_of bytes.now ≡ p.0.now ∷ lines_of p.1.now) }
    ensures fewer { IfSome result (λ p. length p.1.now < length bytes.now) }
{
    if bytes.is_empty() {
        return None;
    }
    let (line, rest) = bytes.split_at(len_before(bytes, b'\n'));
    match rest.split_first() {
        Some((_, later)) => Some((without_cr(line), later)),
        None => Some((line, rest)),
    }
}
