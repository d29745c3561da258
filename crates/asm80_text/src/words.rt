//! Names and reserved words.

ghost use Rattle.std.specs.Prelude.{◌≡◌, ◌+◌, ◌<◌, IfOk, MatchOption, Some, drop, length};
ghost use Rattle.asm80_text.specs.Letters.{inside_len, word_bytes};
ghost use Rattle.asm80_types.specs.Name.{IsName};
ghost use Rattle.asm80_text.specs.TokenResults.{BeginsWithLetter, Finds};
ghost use Rattle.asm80_text.specs.Tokens.{IsLawful, word_at};
ghost use Rattle.asm80_text.specs.Words.{as_operation, if_operation, name_token, operator_name, word_token};

use crate::fault::ScanFault;
use crate::letters::{first_inside, upper};
use crate::notation::Notation;
use crate::token::Token;
use asm80_types::{LineRule, Name80, Two};

/// The name at the front of the bytes, which begin with a letter, and the bytes behind it.
#[tactic(auto, unfolding(crate::specs::Tokens::word_at))]
pub fn word_at<N: Notation>(bytes: &[u8]) -> Result<(Token, &[u8]), ScanFault>
    requires { BeginsWithLetter bytes.now }
    ensures value { Finds (word_at N.spelling bytes.now) result }
    ensures lawful { IfOk result (λ x. IsLawful N.spelling x.0) }
    ensures shorter { IfOk result (λ x. length x.1.now + inside_len bytes.now ≡ length bytes.now) }
{
    match name_at(bytes) {
        Some((name, rest)) => Ok((word_token::<N>(name), rest)),
        None => Err(ScanFault::Rule(LineRule::L4)),
    }
}

// The name at the front of the bytes, unless more than 16 of its bytes count, and the bytes after it.
fn name_at(bytes: &[u8]) -> Option<(Name80, &[u8])>
    requires { BeginsWithLetter bytes.now }
    ensures { MatchOption result (16 < length (word_bytes bytes.now)) (λ x. (x.0 ≡ word_bytes bytes.now) × (x.1.now ≡ drop (inside_len bytes.now) bytes.now)) }
{
    let mut kept = [0; 16];
    let mut len = 0;
    let mut rest = bytes;
    while let Some((b, after)) = first_inside(rest) {
        rest = after;
        if b == b'$' {
            continue;
        }
        if len == kept.len() {
            return None;
        }
        kept[len] = upper(b);
        len += 1;
    }
    Some((Name80::of(&kept[..len]), rest))
}

// The token that a word is.
#[tactic(auto, unfolding(crate::specs::Words::word_token))]
fn word_token<N: Notation>(word: Name80) -> Token
    ensures value { result ≡ word_token N.spelling word }
    ensures lawful { IsLawful N.spelling result }
{
    let name = word.as_slice();
    if name == b"MOD".as_slice() {
        Token::Op(Two::Mod)
    } else if name == b"SHL".as_slice() {
        Token::Op(Two::Shl)
    } else if name == b"SHR".as_slice() {
        Token::Op(Two::Shr)
    } else if name == b"AND".as_slice() {
        Token::Op(Two::And)
    } else if name == b"OR".as_slice() {
        Token::Op(Two::Or)
    } else if name == b"XOR".as_slice() {
        Token::Op(Two::Xor)
    } else if name == b"NOT".as_slice() {
        Token::Not
    } else {
        name_token::<N>(word)
    }
}

// The token of a word that is no operator.
fn name_token<N: Notation>(word: Name80) -> Token
    ensures value { result ≡ name_token N.spelling word }
    ensures lawful { IsLawful N.spelling result }
{
    if N::is_operation(word.as_slice()) {
        Token::Operation(word)
    } else if N::is_register(word.as_slice()) {
        Token::Register(word)
    } else {
        Token::Word(word)
    }
}

/// The word that a token is where a statement has its operation.
pub fn as_operation<N: Notation>(token: &Token) -> Option<Name80>
    ensures { result ≡ as_operation N.spelling token.now }
{
    match token {
        Token::Operation(word) => Some(*word),
        Token::Op(op) => if_operation::<N>(operator_name(*op)?),
        Token::Not => if_operation::<N>(Name80::of(b"NOT")),
        _ => None,
    }
}

// A word, where it is an operation.
fn if_operation<N: Notation>(word: Name80) -> Option<Name80>
    ensures { result ≡ if_operation N.spelling (Some word) }
{
    if N::is_operation(word.as_slice()) {
        Some(word)
    } else {
        None
    }
}

// The name of an operator of two operands that is a name.
#[tactic(auto, using(crate::proofs::Names::letters_are_name))]
fn operator_name(op: Two) -> Option<Name80>
    ensures { result ≡ operator_name op }
{
    match op {
        Two::Mod => Some(Name80::of(b"MOD")),
        Two::Shl => Some(Name80::of(b"SHL")),
        Two::Shr => Some(Name80::of(b"SHR")),
        Two::And => Some(Name80::of(b"AND")),
        Two::Or => Some(Name80::of(b"OR")),
        Two::Xor => Some(Name80::of(b"XOR")),
        _ => None,
    }
}
