//! Instructions.

ghost use Rattle.std.specs.Prelude.{◌≡◌, ◌++◌, [], ◌∷◌, IfSome, OnOk, map, option_copied};
ghost use Rattle.asm80_types.specs.Tree.{operand_of};
ghost use Rattle.zilog80.specs.Operands.{operands};
ghost use Rattle.zilog80.specs.Read.{GivesInstruction, IsNextOperand, class_of, given_by, operands_of, spelt_of, value_in};
ghost use Rattle.zilog80.specs.Zilog.{operand_parts};

use crate::class::{Class, Given};
use crate::operand::{Spelt, read_operand};
use crate::table::{bare_row, binary_row, unary_row};
use asm80_text::{Arg, Expr, Name80, ParseFault, Token};
use std::alloc::{AllocError, Global};

/// The operation and the operands in Intel's spelling of a word with all of the tokens as its operands.
pub fn instruction(
    alloc: Global,
    word: &Name80,
    tokens: &[Token],
) -> Result<(Name80, Vec<Arg>), ParseFault>
    ensures { GivesInstruction word.now (operand_parts tokens.now) result }
{
    if tokens.is_empty() {
        return bare(alloc, word);
    }
    let left = next_operand(tokens);
    let Some(after) = left.1 else {
        return unary(alloc, word, left.0);
    };
    let right = next_operand(after);
    if right.1.is_some() {
        return Err(ParseFault::Malformed);
    }
    binary(alloc, word, left.0, right.0)
}

// The tokens before the first comma, and those after it, if there is one.
fn next_operand(tokens: &[Token]) -> (&[Token], Option<&[Token]>)
    ensures { IsNextOperand tokens.now result.0.now (option_copied result.1) }
{
    for i in 0..tokens.len() {
        if let Token::Comma = tokens[i] {
            return (&tokens[..i], Some(&tokens[i + 1..]));
        }
    }
    (tokens, None)
}

// A word without operands.
fn bare(alloc: Global, word: &Name80) -> Result<(Name80, Vec<Arg>), ParseFault>
    ensures { GivesInstruction word.now [] result }
{
    match bare_row(word.as_slice()) {
        Some(op) => Ok((op, Vec::new(alloc))),
        None => Err(ParseFault::Malformed),
    }
}

// A word with an operand.
fn unary(alloc: Global, word: &Name80, tokens: &[Token]) -> Result<(Name80, Vec<Arg>), ParseFault>
    ensures { GivesInstruction word.now (tokens.now ∷ []) result }
{
    let operand = read_operand(alloc, tokens)?;
    let Some(row) = unary_row(word.as_slice(), &operand) else {
        return Err(ParseFault::Malformed);
    };
    let mut args = Vec::new(alloc);
    push_given(&mut args, row.0, operand)?;
    Ok((row.1, args))
}

// A word with two operands.
fn binary(
    alloc: Global,
    word: &Name80,
    left: &[Token],
    right: &[Token],
) -> Result<(Name80, Vec<Arg>), ParseFault>
    ensures { GivesInstruction word.now (left.now ∷ right.now ∷ []) result }
{
    let first = read_operand(alloc, left)?;
    let second = read_operand(alloc, right)?;
    let Some(row) = binary_row(word.as_slice(), &first, &second) else {
        return Err(ParseFault::Malformed);
    };
    let mut args = Vec::new(alloc);
    push_given(&mut args, row.0, first)?;
    push_given(&mut args, row.1, second)?;
    Ok((row.2, args))
}

// Adds what an operand of a class gives.
fn push_given(args: &mut Vec<Arg>, class: Class, operand: Spelt) -> Result<(), AllocError>
    ensures { OnOk result (IfSome (operands (class_of class) (spelt_of operand)) (λ xs. map operand_of args.new.items ≡ map operand_of args.old.items ++ xs)) }
{
    let Some(given) = class.given(&operand) else {
        return Ok(());
    };
    if let Some(value) = value_of(given, operand) {
        args.push(Arg::Value(value))?;
    }
    Ok(())
}

// The expression that an operand gives, if it gives one.
fn value_of(given: Given, operand: Spelt) -> Option<Expr>
    ensures { operands_of result ≡ given_by (spelt_of operand) given }
{
    let value = value_in(operand);
    match given {
        Given::Nothing => None,
        Given::Renamed(name) => Some(Expr::Name(name)),
        Given::OfValue => value,
    }
}

// The value of an operand that is one.
fn value_in(operand: Spelt) -> Option<Expr>
    ensures { operands_of result ≡ value_in (spelt_of operand) }
{
    match operand {
        Spelt::Name(_) | Spelt::AtName(_) => None,
        Spelt::Literal(n) => Some(Expr::Num(n)),
        Spelt::Value(e) | Spelt::AtValue(e) => Some(e),
    }
}
