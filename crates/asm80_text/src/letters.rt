//! The bytes of a source.

ghost use Rattle.std.specs.Prelude.{◌≡◌, ◌≤◌, ◌∷◌, [], MatchOption, length, true};
ghost use Rattle.asm80_text.specs.Letters.{comment_len, inside_len, is_blank, is_inside, is_printable, upper};

pub fn is_blank(b: u8) -> bool
    ensures { result ≡ is_blank b }
{
    b == b' ' || b == b'\t'
}

pub fn is_printable(b: u8) -> bool
    ensures { result ≡ is_printable b }
{
    b >= b' ' && b <= b'~'
}

fn is_inside(b: u8) -> bool
    ensures { result ≡ is_inside b }
{
    b.is_ascii_alphanumeric() || b == b'$'
}

/// A letter in capitals, and any other byte.
pub fn upper(b: u8) -> u8
    ensures { result ≡ upper b }
{
    b.to_ascii_uppercase()
}

/// How many bytes at the front belong to the name or the number that begins there.
pub fn inside_len(bytes: &[u8]) -> usize
    ensures value { result ≡ inside_len bytes.now }
    ensures within { result ≤ length bytes.now }
{
    for i in 0..bytes.len() {
        if !is_inside(bytes[i]) {
            return i;
        }
    }
    bytes.len()
}

/// How many bytes at the front belong to a comment.
pub fn comment_len(bytes: &[u8]) -> usize
    ensures value { result ≡ comment_len bytes.now }
    ensures within { result ≤ length bytes.now }
{
    for i in 0..bytes.len() {
        if bytes[i] == b'!' {
            return i;
        }
    }
    bytes.len()
}

/// The first byte and those after it, where it belongs to a name or a number.
pub fn first_inside(bytes: &[u8]) -> Option<(u8, &[u8])>
    ensures { MatchOption result (inside_len bytes.now ≡ 0) (λ p. (bytes.now ≡ p.0 ∷ p.1.now) × (is_inside p.0 ≡ true)) }
{
    match bytes {
        [b, rest @ ..] if is_inside(*b) => Some((*b, rest)),
        _ => None,
    }
}

/// The first byte, and those after it.
pub fn first_byte(bytes: &[u8]) -> Option<(u8, &[u8])>
    ensures { MatchOption result (bytes.now ≡ []) (λ p. bytes.now ≡ p.0 ∷ p.1.now) }
{
    match bytes {
        [b, rest @ ..] => Some((*b, rest)),
        [] => None,
    }
}
