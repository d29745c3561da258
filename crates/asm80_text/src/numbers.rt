//! Numbers.

ghost use Rattle.std.specs.Prelude.{◌≡◌, ◌==◌, ◌||◌, ◌+◌, ◌<◌, ◌≤◌, [], ◌∷◌, ◌++◌, IfOk, IfSome, MatchOption, length};
ghost use Rattle.std.specs.List.{list_all};
ghost use Rattle.asm80_text.specs.Letters.{inside_len, is_digit, significant};
ghost use Rattle.asm80_text.specs.Numbers.{base_named, digit_of, number_of, value_in};
ghost use Rattle.asm80_text.specs.TokenResults.{Finds};
ghost use Rattle.asm80_text.specs.Tokens.{IsLawfulSymbol, number_at, number_token};

use crate::fault::ScanFault;
use crate::letters::{inside_len, upper};
use crate::token::Token;
use asm80_types::LineRule;

/// The number at the front of the bytes, which begin with a digit, and the bytes behind it.
#[tactic(auto, unfolding(crate::specs::Tokens::number_at))]
pub fn number_at(bytes: &[u8]) -> Result<(Token, &[u8]), ScanFault>
    ensures value { Finds (number_at bytes.now) result }
    ensures lawful { IfOk result (λ x. IsLawfulSymbol x.0) }
    ensures shorter { IfOk result (λ x. length x.1.now + inside_len bytes.now ≡ length bytes.now) }
{
    let (text, rest) = bytes.split_at(inside_len(bytes));
    match number_of(text) {
        Some(n) => Ok((number_token(text, n), rest)),
        None => Err(ScanFault::Rule(LineRule::L2)),
    }
}

// The token of a number.
fn number_token(text: &[u8], n: u16) -> Token
    ensures value { result ≡ number_token (significant text.now) n }
    ensures lawful { IsLawfulSymbol result }
{
    if all_digits(text) {
        Token::Digits(n)
    } else {
        Token::Num(n)
    }
}

// Whether all bytes that count are digits.
fn all_digits(text: &[u8]) -> bool
    ensures { result ≡ list_all (λ b. b == 36 || is_digit b) text.now }
{
    for b in text {
        if *b != b'$' && !b.is_ascii_digit() {
            return false;
        }
    }
    true
}

// The value of a number, unless a digit is wrong or it is above 65,535.
#[tactic(auto, unfolding(crate::specs::Numbers::number_of))]
fn number_of(text: &[u8]) -> Option<u16>
    ensures { result ≡ number_of (significant text.now) }
{
    let Some((last, front)) = split_last(text) else {
        return value_in(10, text);
    };
    match base_named(last) {
        Some(base) => value_in(base, front),
        None => value_in(10, text),
    }
}

// The last byte that counts, in capitals, and the bytes before it.
fn split_last(text: &[u8]) -> Option<(u8, &[u8])>
    ensures { MatchOption result (significant text.now ≡ []) (λ x. significant text.now ≡ significant x.1.now ++ x.0 ∷ []) }
{
    let mut rest = text;
    while let Some((last, front)) = rest.split_last() {
        if *last != b'$' {
            return Some((upper(*last), front));
        }
        rest = front;
    }
    None
}

fn base_named(c: u8) -> Option<u8>
    ensures value { result ≡ base_named c }
    ensures positive { IfSome result (λ base. (0 < base) × (base ≤ 16)) }
{
    match c {
        b'B' => Some(2),
        b'O' | b'Q' => Some(8),
        b'D' => Some(10),
        b'H' => Some(16),
        _ => None,
    }
}

fn digit_of(c: u8) -> u8
    ensures { result ≡ digit_of c }
{
    match c {
        b'0'..=b'9' => c - b'0',
        b'A'..=b'Z' => c - b'A' + 10,
        _ => 36,
    }
}

// The number that the bytes that count spell, as digits of a base.
fn value_in(base: u8, text: &[u8]) -> Option<u16>
    requires { (0 < base) × (base ≤ 16) }
    ensures { result ≡ value_in base (significant text.now) }
{
    let mut total = 0u32;
    for c in text {
        if *c == b'$' {
            continue;
        }
        let digit = digit_of(upper(*c));
        if digit >= base {
            return None;
        }
        total = (total * u32::from(base) + u32::from(digit)).min(65_536);
    }
    if total > 65_535 {
        return None;
    }
    Some(total as u16)
}
