//! The bytes of a line.

ghost use Rattle.std.specs.Prelude.{◌≡◌, ◌≤◌, IfOk, length, map, not};
ghost use Rattle.std.specs.List.{list_all};
ghost use Rattle.asm86_line_reader.specs.Letters.{inside_len, is_blank, is_inside, is_lower, sign_of, upper};

use crate::token::Token;
use std::alloc::{AllocError, Global};

/// Whether a line is in capitals as it is.
pub fn has_no_lower(line: &[u8]) -> bool
    ensures { result ≡ list_all (λ b. not (is_lower b)) line.now }
{
    for b in line {
        if b.is_ascii_lowercase() {
            return false;
        }
    }
    true
}

/// The line in capitals.
pub fn in_capitals(alloc: Global, line: &[u8]) -> Result<Vec<u8>, AllocError>
    ensures { IfOk result (λ v. v.items ≡ map upper line.now) }
{
    line.iter().map(|b| b.to_ascii_uppercase()).collect(alloc)
}

pub fn is_blank(b: u8) -> bool
    ensures { result ≡ is_blank b }
{
    b == b' ' || b == b'\t'
}

/// Whether a byte of a line in capitals belongs to a word.
pub fn is_inside(b: u8) -> bool
    ensures { result ≡ is_inside b }
{
    b.is_ascii_digit() || b.is_ascii_uppercase() || b == b'_'
}

/// How many bytes at the front belong to the word or the number that begins there.
pub fn inside_len(bytes: &[u8]) -> usize
    ensures value { result ≡ inside_len bytes.now }
    ensures within { result ≤ length bytes.now }
{
    let mut count = 0;
    for b in bytes {
        if !is_inside(*b) {
            return count;
        }
        count += 1;
    }
    count
}

/// The sign that a byte is.
pub fn sign_of(b: u8) -> Option<Token>
    ensures { result ≡ sign_of b }
{
    match b {
        b':' => Some(Token::Colon),
        b',' => Some(Token::Comma),
        b'.' => Some(Token::Dot),
        b'[' => Some(Token::Open),
        b']' => Some(Token::Close),
        _ => None,
    }
}
