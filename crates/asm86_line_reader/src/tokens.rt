//! The tokens of a line.

ghost use Rattle.std.specs.Prelude.{◌≡◌, ◌<◌, IfOk, IfSome, length, option_map};
ghost use Rattle.asm86_line_reader.specs.Results.{LexesTo};
ghost use Rattle.asm86_line_reader.specs.Tokens.{token_at};

use crate::letters::{inside_len, is_blank, is_inside, sign_of};
use crate::token::Token;
use crate::words::word_token;
use std::alloc::{AllocError, Global};

/// The tokens of a line in capitals, unless at some place there is none.
pub fn tokens_of(alloc: Global, line: &[u8]) -> Result<Option<Vec<Token>>, AllocError>
    ensures { IfOk result (LexesTo line.now) }
{
    let mut tokens = Vec::new(alloc);
    let mut rest = line;
    while let [b, after @ ..] = rest {
        if *b == b';' {
            return Ok(Some(tokens));
        }
        if is_blank(*b) {
            rest = after;
            continue;
        }
        let Some((token, behind)) = token_at(rest) else {
            return Ok(None);
        };
        tokens.push(token)?;
        rest = behind;
    }
    Ok(Some(tokens))
}

// The token at the front of the bytes, and the bytes behind it.
#[tactic(auto, unfolding(crate::specs::Tokens::token_at))]
fn token_at(bytes: &[u8]) -> Option<(Token, &[u8])>
    ensures value { option_map (λ p. (p.0, p.1.now)) result ≡ token_at bytes.now }
    ensures shorter { IfSome result (λ p. length p.1.now < length bytes.now) }
{
    match bytes {
        [b, rest @ ..] => {
            if is_inside(*b) {
                let (word, behind) = bytes.split_at(inside_len(bytes));
                Some((word_token(word)?, behind))
            } else {
                Some((sign_of(*b)?, rest))
            }
        }
        [] => None,
    }
}
