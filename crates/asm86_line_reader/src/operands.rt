//! Operands of tokens.

ghost use Rattle.std.specs.Prelude.{◌≡◌, ◌≤◌, ◌∷◌, [], IfOk, MatchOption, length, map, not, option_and_then, option_map};
ghost use Rattle.std.specs.List.{prefix_len, slice_split};
ghost use Rattle.asm86_line_reader.specs.Operands.{after_ptr, byte_cell, each, is_comma, operand_in, operands_in, plain_operand, word_cell};

use crate::token::{Operand, Token};
use i86::{Ptr, Reg16};
use std::alloc::{AllocError, Global};

/// The tokens before the first comma and those after it; none where there is no comma.
pub fn cut(tokens: &[Token]) -> Option<(&[Token], &[Token])>
    ensures { MatchOption result (slice_split is_comma tokens.now ≡ tokens.now ∷ []) (λ p. slice_split is_comma tokens.now ≡ p.0.now ∷ slice_split is_comma p.1.now) }
{
    match tokens.split_at(part_len(tokens)) {
        (part, [_, after @ ..]) => Some((part, after)),
        _ => None,
    }
}

// How many tokens at the front stand before a comma.
fn part_len(tokens: &[Token]) -> usize
    ensures value { result ≡ prefix_len (λ token. not (is_comma token)) tokens.now }
    ensures within { result ≤ length tokens.now }
{
    let mut count = 0;
    for token in tokens {
        if is_comma(*token) {
            return count;
        }
        count += 1;
    }
    count
}

/// The operands that tokens are, with commas between them, if they are some.
pub fn operands_of(alloc: Global, tokens: &[Token]) -> Result<Option<Vec<Operand>>, AllocError>
    ensures { IfOk result (λ found. option_map (λ v. v.items) found ≡ operands_in tokens.now) }
{
    if tokens.is_empty() {
        return Ok(Some(Vec::new(alloc)));
    }
    let parts = parts_of(alloc, tokens)?;
    each_operand(alloc, &parts)
}

// The tokens between the commas.
fn parts_of(alloc: Global, tokens: &[Token]) -> Result<Vec<&[Token]>, AllocError>
    ensures { IfOk result (λ v. map (λ x. x.now) v.items ≡ slice_split is_comma tokens.now) }
{
    tokens.split(|t| is_comma(*t)).collect(alloc)
}

fn is_comma(token: Token) -> bool
    ensures { result ≡ is_comma token }
{
    match token {
        Token::Comma => true,
        _ => false,
    }
}

// The operands that the parts are, each for itself.
fn each_operand(alloc: Global, parts: &[&[Token]]) -> Result<Option<Vec<Operand>>, AllocError>
    ensures { IfOk result (λ found. option_map (λ v. v.items) found ≡ each (λ part. operand_in part.now) parts.now) }
{
    let mut operands = Vec::new(alloc);
    for part in parts {
        let Some(operand) = operand_of(*part) else {
            return Ok(None);
        };
        operands.push(operand)?;
    }
    Ok(Some(operands))
}

/// The operand that all of the tokens are.
pub fn operand_of(tokens: &[Token]) -> Option<Operand>
    ensures { result ≡ operand_in tokens.now }
{
    match tokens {
        [Token::Byte, cell @ ..] => byte_cell(cell),
        [Token::Word, cell @ ..] => word_cell(cell),
        [Token::Offset, Token::Label(label)] => Some(Operand::Offset(*label)),
        [token] => plain_operand(*token),
        _ => None,
    }
}

// An operand of one word or number.
fn plain_operand(token: Token) -> Option<Operand>
    ensures { result ≡ plain_operand token }
{
    match token {
        Token::Reg8(reg) => Some(Operand::Reg8(reg)),
        Token::Reg16(reg) => Some(Operand::Reg16(reg)),
        Token::Ds => Some(Operand::Ds),
        Token::Ss => Some(Operand::Ss),
        Token::Number(n) => Some(Operand::Number(n)),
        Token::Label(label) => Some(Operand::Label(label)),
        _ => None,
    }
}

// What `BYTE` begins: `PTR` and a byte.
fn byte_cell(tokens: &[Token]) -> Option<Operand>
    ensures { result ≡ option_and_then byte_cell (after_ptr tokens.now) }
{
    match tokens {
        [Token::Ptr, Token::Dot, Token::Number(n)] => Some(Operand::DirectByte(*n)),
        [
            Token::Ptr,
            Token::Open,
            Token::Reg16(Reg16::Bx),
            Token::Close,
        ] => { Some(Operand::Mem(Ptr::Bx)) }
        [
            Token::Ptr,
            Token::Open,
            Token::Reg16(Reg16::Si),
            Token::Close,
        ] => { Some(Operand::Mem(Ptr::Si)) }
        _ => None,
    }
}

// What `WORD` begins: `PTR` and a word.
fn word_cell(tokens: &[Token]) -> Option<Operand>
    ensures { result ≡ option_and_then word_cell (after_ptr tokens.now) }
{
    match tokens {
        [Token::Ptr, Token::Dot, Token::Number(n)] => Some(Operand::DirectWord(*n)),
        _ => None,
    }
}
