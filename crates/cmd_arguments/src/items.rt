//! The words of a command line, one after the other.

ghost use Rattle.std.specs.Prelude.{◌≡◌, ◌<◌, [], ◌∷◌, IfSome, MatchOption, length, map};
ghost use Rattle.std.specs.String.{string_bytes};
ghost use Rattle.cmd_arguments.specs.Asked.{has_short, is_short};

/// The first word, and the words behind it.
pub fn first_word(words: &[String]) -> Option<(&str, &[String])>
    ensures first { MatchOption result (words.now ≡ [])
        (λ x. map string_bytes words.now ≡ x.0.now ∷ map string_bytes x.1.now) }
    ensures shorter { IfSome result (λ x. length x.1.now < length words.now) }
{
    match words {
        [word, rest @ ..] => Some((word.as_str(), rest)),
        [] => None,
    }
}

/// Whether a word of one hyphen and something else stands before the mark, behind which every word is a name.
pub fn has_short(words: &[String]) -> bool
    ensures { result ≡ has_short (map string_bytes words.now) }
{
    let mut rest = words;
    loop {
        let Some((word, others)) = first_word(rest) else {
            return false;
        };
        if word == "--" {
            return false;
        }
        if is_short(word) {
            return true;
        }
        rest = others;
    }
}

fn is_short(word: &str) -> bool
    ensures { result ≡ is_short word.now }
{
    let bytes = word.as_bytes();
    bytes.len() > 1 && bytes[0] == b'-' && bytes[1] != b'-'
}
