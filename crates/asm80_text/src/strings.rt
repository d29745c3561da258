//! Strings.

ghost use Rattle.std.specs.Prelude.{◌≡◌, ◌≢◌, ◌≤◌, ◌<◌, ◌∷◌, ℕ, List, IfOk, IfSome, MatchOption, length};
ghost use Rattle.std.specs.List.{list_all};
ghost use Rattle.asm80_text.specs.Letters.{is_printable};
ghost use Rattle.asm80_text.specs.TokenResults.{Finds, IsQuoted};
ghost use Rattle.asm80_text.specs.Tokens.{IsLawfulSymbol, string_at, text_token};

use crate::fault::ScanFault;
use crate::letters::{first_byte, is_printable};
use crate::token::Token;
use asm80_types::{Bytes, LineRule};
use std::alloc::{AllocError, Global};

/// The string whose opening quote stands before the bytes, and the bytes behind it.
#[tactic(auto, unfolding(crate::specs::Tokens::string_at))]
pub fn string_at(alloc: Global, bytes: &[u8]) -> Result<(Token, &[u8]), ScanFault>
    ensures value { Finds (string_at bytes.now) result }
    ensures lawful { IfOk result (λ x. IsLawfulSymbol x.0) }
    ensures shorter { IfOk result (λ x. length x.1.now ≤ length bytes.now) }
{
    let Some((text, rest)) = quoted(alloc, bytes)? else {
        return Err(ScanFault::Rule(LineRule::L3));
    };
    if text.is_empty() || text.len() > 64 {
        return Err(ScanFault::Rule(LineRule::L3));
    }
    if !all_printable(&text) {
        return Err(ScanFault::Rule(LineRule::L1));
    }
    Ok((text_token(text), rest))
}

// The token of a string.
fn text_token(text: Vec<u8>) -> Token
    requires { (0 < length text.items) × (length text.items ≤ 64) }
    ensures value { result ≡ text_token text.items }
    ensures lawful { IsLawfulSymbol result }
{
    if text.len() == 1 {
        Token::Num(u16::from(text[0]))
    } else {
        Token::Text(Bytes::from_vec(text))
    }
}

fn all_printable(text: &[u8]) -> bool
    ensures { result ≡ list_all is_printable text.now }
{
    for b in text {
        if !is_printable(*b) {
            return false;
        }
    }
    true
}

// What stands before the closing quote, and what follows it, if there is one.
fn quoted(alloc: Global, bytes: &[u8]) -> Result<Option<(Vec<u8>, &[u8])>, AllocError>
    ensures value { IfOk result (λ found. IsQuoted found bytes.now) }
    ensures shorter { IfOk result (λ found. IfSome found (λ p. length p.1.now ≤ length bytes.now)) }
{
    let mut text = Vec::new(alloc);
    let mut rest = bytes;
    while let Some((b, after)) = first_byte(rest) {
        if b != b'\'' {
            text.push(b)?;
            rest = after;
            continue;
        }
        let Some(more) = after_quote(after) else {
            return Ok(Some((text, after)));
        };
        text.push(b'\'')?;
        rest = more;
    }
    Ok(None)
}

// The bytes after a quote.
fn after_quote(bytes: &[u8]) -> Option<&[u8]>
    ensures { MatchOption result ((rest : List ℕ) → bytes.now ≢ 39 ∷ rest) (λ rest. bytes.now ≡ 39 ∷ rest.now) }
{
    match bytes {
        [b'\'', rest @ ..] => Some(rest),
        _ => None,
    }
}
