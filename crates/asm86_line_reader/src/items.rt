//! The forms of DB and DW, and of any operation.

ghost use Rattle.std.specs.Prelude.{◌≡◌, IsTrue, is_some, option_and_then};
ghost use Rattle.std.specs.List.{list_all};
ghost use Rattle.asm86_line_reader.specs.Forms.{formed, items_of, single};
ghost use Rattle.asm86_line_reader.specs.Operands.{each, operands_in};
ghost use Rattle.asm86_line_reader.specs.Results.{AnswersLine, all_checked, checked, item_of};

use crate::bytes::byte;
use crate::fault::LineFault;
use crate::forms::{bare, with_one, with_two};
use crate::operands::{cut, operand_of, operands_of};
use crate::token::{Operand, Operation, Token};
use asm86_line_types::{Stmt86, TextRule, Value16};
use std::alloc::Global;

/// What an item fills.
#[derive(Clone, Copy)]
enum Size {
    Byte,
    Word,
}

/// The statements of an operation with the operands that tokens are.
pub fn formed(
    alloc: Global,
    operation: Operation,
    tokens: &[Token],
) -> Result<Vec<Stmt86>, LineFault>
    ensures { AnswersLine (λ r. r ≡ all_checked (option_and_then (formed operation) (operands_in tokens.now))) result }
{
    match operation {
        Operation::Db => listed(alloc, Size::Byte, tokens),
        Operation::Dw => listed(alloc, Size::Word, tokens),
        _ => {
            let mut statements = Vec::new(alloc);
            statements.push(one(operation, tokens)?)?;
            Ok(statements)
        }
    }
}

// The statement of an operation that makes one, from the tokens of two operands at most: they are looked at where they stand.
fn one(operation: Operation, tokens: &[Token]) -> Result<Stmt86, TextRule>
    ensures { result ≡ checked (option_and_then (single operation) (operands_in tokens.now)) }
{
    if tokens.is_empty() {
        return bare(operation);
    }
    let Some((first, rest)) = cut(tokens) else {
        return match operand_of(tokens) {
            Some(operand) => with_one(operation, operand),
            None => Err(TextRule::M2),
        };
    };
    if cut(rest).is_some() {
        return Err(TextRule::M2);
    }
    match (operand_of(first), operand_of(rest)) {
        (Some(first), Some(second)) => with_two(operation, first, second),
        _ => Err(TextRule::M2),
    }
}

// The statements of items of a size.
fn listed(alloc: Global, size: Size, tokens: &[Token]) -> Result<Vec<Stmt86>, LineFault>
    ensures { AnswersLine (λ r. r ≡ all_checked (option_and_then (items_of (item_of size)) (operands_in tokens.now))) result }
{
    match operands_of(alloc, tokens)? {
        Some(operands) => items(alloc, size, &operands),
        None => Err(LineFault::Rule(TextRule::M2)),
    }
}

// One item or more, each a statement of its own.
fn items(alloc: Global, size: Size, operands: &[Operand]) -> Result<Vec<Stmt86>, LineFault>
    ensures { AnswersLine (λ r. r ≡ all_checked (items_of (item_of size) operands.now)) result }
{
    if operands.is_empty() {
        return Err(LineFault::Rule(TextRule::M2));
    }
    if !are_items(size, operands) {
        return Err(LineFault::Rule(TextRule::M2));
    }
    each_item(alloc, size, operands)
}

fn are_items(size: Size, operands: &[Operand]) -> bool
    ensures { result ≡ list_all (λ operand. is_some (item_of size operand)) operands.now }
{
    for operand in operands {
        if !is_item(size, *operand) {
            return false;
        }
    }
    true
}

fn is_item(size: Size, operand: Operand) -> bool
    ensures { result ≡ is_some (item_of size operand) }
{
    match (size, operand) {
        (_, Operand::Number(_)) | (Size::Word, Operand::Offset(_)) => true,
        _ => false,
    }
}

fn each_item(alloc: Global, size: Size, operands: &[Operand]) -> Result<Vec<Stmt86>, LineFault>
    requires { IsTrue (list_all (λ operand. is_some (item_of size operand)) operands.now) }
    ensures { AnswersLine (λ r. r ≡ all_checked (each (item_of size) operands.now)) result }
{
    let mut statements = Vec::new(alloc);
    for operand in operands {
        statements.push(item(size, *operand)?)?;
    }
    Ok(statements)
}

fn item(size: Size, operand: Operand) -> Result<Stmt86, TextRule>
    ensures { result ≡ checked (item_of size operand) }
{
    match (size, operand) {
        (Size::Byte, Operand::Number(n)) => Ok(Stmt86::Db(byte(n)?)),
        (Size::Word, Operand::Number(w)) => Ok(Stmt86::Dw(Value16::Num(w))),
        (Size::Word, Operand::Offset(label)) => Ok(Stmt86::Dw(Value16::Offset(label))),
        _ => Err(TextRule::M2),
    }
}
