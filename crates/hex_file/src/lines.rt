// The lines of a file.
ghost use Rattle.std.specs.Prelude.{◌≡◌, ◌==◌, [], MatchOption};
ghost use Rattle.std.specs.List.{position};
ghost use Rattle.hex_file.specs.Lines.{FirstLine};

use base::without_cr;

/// The first line of a text, and what comes after it; none at the end of the text.
pub fn first_line(text: &[u8]) -> Option<(&[u8], &[u8])>
    ensures { MatchOption result (text.now ≡ []) (λ parts. FirstLine text.now parts.0.now parts.1.now) }
{
    if text.is_empty() {
        return None;
    }
    match line_feed(text) {
        Some(end) => Some((without_cr(&text[..end]), &text[end + 1..])),
        None => Some((text, &text[text.len()..])),
    }
}

// The place of the first LF.
fn line_feed(text: &[u8]) -> Option<usize>
    ensures { result ≡ position (λ b. b == 10) text.now }
{
    for k in 0..text.len() {
        if text[k] == b'\n' {
            return Some(k);
        }
    }
    None
}
