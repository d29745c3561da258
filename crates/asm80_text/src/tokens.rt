//! The tokens of a line.

ghost use Rattle.std.specs.Prelude.{◌≡◌, ◌<◌, List, ℕ, All, IfOk, OnOk, Option, length};
ghost use Rattle.asm80_types.specs.declared.fault.LineRule.{LineRule};
ghost use Rattle.asm80_text.specs.declared.token.Token.{Token};
ghost use Rattle.asm80_text.specs.TokenResults.{FindsFirst};
ghost use Rattle.asm80_text.specs.Tokens.{IsLawful, IsLawfulSymbol, Lexes, sign_token};

use crate::fault::ScanFault;
use crate::letters::{comment_len, first_byte, is_blank};
use crate::notation::Notation;
use crate::numbers::number_at;
use crate::strings::string_at;
use crate::token::Token;
use crate::words::word_at;
use asm80_types::{LineRule, Two};
use std::alloc::{AllocError, Global};

/// Puts the tokens of a line up to the first fault in the place of others, and tells which fault it is.
pub fn tokens_of<N: Notation>(
    alloc: Global,
    line: &[u8],
    tokens: &mut Vec<Token>,
) -> Result<Option<LineRule>, AllocError>
    ensures tokens { IfOk result (λ fault. Lexes N.spelling line.now tokens.new.items fault) }
    ensures lawful { OnOk result (All (IsLawful N.spelling) tokens.new.items) }
{
    tokens.clear();
    let mut rest = line;
    while let Some((b, after)) = first_byte(rest) {
        if is_blank(b) {
            rest = after;
            continue;
        }
        if b == b';' {
            let (_, more) = after.split_at(comment_len(after));
            rest = more;
            continue;
        }
        match token_at::<N>(alloc, rest) {
            Ok((token, next)) => {
                tokens.push(token)?;
                rest = next;
            }
            Err(fault) => match fault {
                ScanFault::Rule(rule) => return Ok(Some(rule)),
                ScanFault::Memory => return Err(AllocError),
            },
        }
    }
    Ok(None)
}

// The token at the front of the bytes, and the bytes behind it.
#[tactic(auto, unfolding(crate::specs::Tokens::token_at), using(crate::proofs::Symbols::symbols_lawful))]
fn token_at<N: Notation>(alloc: Global, bytes: &[u8]) -> Result<(Token, &[u8]), ScanFault>
    requires { 0 < length bytes.now }
    ensures value { FindsFirst N.spelling bytes.now result }
    ensures lawful { IfOk result (λ x. IsLawful N.spelling x.0) }
    ensures shorter { IfOk result (λ x. length x.1.now < length bytes.now) }
{
    let Some((b, rest)) = first_byte(bytes) else {
        unreachable!();
    };
    match b {
        b'\'' => string_at(alloc, rest),
        b'0'..=b'9' => number_at(bytes),
        b'A'..=b'Z' | b'a'..=b'z' => word_at::<N>(bytes),
        b' '..=b'~' => Ok((sign_token(b), rest)),
        _ => Err(ScanFault::Rule(LineRule::L1)),
    }
}

// The token that a byte is which begins no name, number or string.
fn sign_token(b: u8) -> Token
    ensures value { result ≡ sign_token b }
    ensures lawful { IsLawfulSymbol result }
{
    match b {
        b'+' => Token::Op(Two::Add),
        b'-' => Token::Op(Two::Sub),
        b'*' => Token::Op(Two::Mul),
        b'/' => Token::Op(Two::Div),
        b'(' => Token::Open,
        b')' => Token::Close,
        b',' => Token::Comma,
        b':' => Token::Colon,
        b'$' => Token::Here,
        b'!' => Token::Bang,
        _ => Token::Stray,
    }
}

/// In each spelling a line has at most one list of tokens and first fault.
pub fn line_has_one_reading<N: Notation>()
    ensures { (line : List ℕ) (ts us : List Token) (f g : Option LineRule) → Lexes N.spelling line ts f → Lexes N.spelling line us g → (ts ≡ us) × (f ≡ g) }
{}
