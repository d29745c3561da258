//! The statements of a line.

ghost use Rattle.std.specs.Prelude.{◌≡◌, ◌≤◌, ◌++◌, All, IfOk, List, OnErr, OnOk, is_some, map};
ghost use Rattle.std.specs.List.{list_any};
ghost use Rattle.asm80_text.specs.Tokens.{IsLawful};
ghost use Rattle.asm80_types.specs.Tree.{statement_of};
ghost use Rattle.asm80_types.specs.WellFormed.{AreWellFormed, IsWellFormed};
ghost use Rattle.asm80_text.specs.Statement.{kept};
ghost use Rattle.asm80_text.specs.Line.{begins_with_reserved, has_reserved_label, is_bang, is_deep, is_name, is_reserved, open_after, parts_of};
ghost use Rattle.asm80_types.specs.declared.stmt.Stmt80.{Stmt80};
ghost use Rattle.asm80_text.specs.Results.{AddsStatement, GivesStatements};
ghost use Rattle.asm80_text.specs.Words.{as_operation};

use crate::parse::statement;
use crate::{Notation, ParseFault, Token, as_operation};
use asm80_types::{Stmt80, Two};
use std::alloc::{AllocError, Global};

/// The most parentheses that may be open in a statement.
const MOST_OPEN: usize = 16;

/// The tokens between the `!` of a line.
pub fn parts_of<N: Notation>(alloc: Global, tokens: &[Token]) -> Result<Vec<&[Token]>, AllocError>
    requires { All (IsLawful N.spelling) tokens.now }
    ensures parts { IfOk result (λ v. map (λ x. x.now) v.items ≡ parts_of tokens.now) }
    ensures lawful { IfOk result (λ v. All (λ part. All (IsLawful N.spelling) part.now) v.items) }
{
    tokens.split(|t| is_bang(t)).collect(alloc)
}

/// Whether a `!` parts the tokens.
pub fn has_bang(tokens: &[Token]) -> bool
    ensures { result ≡ list_any is_bang tokens.now }
{
    for token in tokens {
        if is_bang(token) {
            return true;
        }
    }
    false
}

fn is_bang(token: &Token) -> bool
    ensures { result ≡ is_bang token.now }
{
    match token {
        Token::Bang => true,
        _ => false,
    }
}

/// Whether some statement has a reserved name as its label.
pub fn some_has_reserved_label<N: Notation>(parts: &[&[Token]]) -> bool
    ensures { result ≡ list_any (λ part. has_reserved_label N.spelling part.now) parts.now }
{
    for part in parts {
        if has_reserved_label::<N>(*part) {
            return true;
        }
    }
    false
}

fn has_reserved_label<N: Notation>(part: &[Token]) -> bool
    ensures { result ≡ has_reserved_label N.spelling part.now }
{
    match part {
        [Token::Digits(_), rest @ ..] => begins_with_reserved::<N>(rest),
        _ => begins_with_reserved::<N>(part),
    }
}

fn begins_with_reserved<N: Notation>(tokens: &[Token]) -> bool
    ensures { result ≡ begins_with_reserved N.spelling tokens.now }
{
    match tokens {
        [token, rest @ ..] => {
            if operates::<N>(token) {
                matches!(rest, [Token::Colon, ..])
            } else {
                is_reserved(token)
            }
        }
        [] => false,
    }
}

// Whether a token is an operation where a statement has one.
fn operates<N: Notation>(token: &Token) -> bool
    ensures { result ≡ is_some (as_operation N.spelling token.now) }
{
    match token {
        Token::Operation(_) => true,
        _ => as_operation::<N>(token).is_some(),
    }
}

// Whether a token is a reserved name.
fn is_reserved(token: &Token) -> bool
    ensures { result ≡ is_reserved token.now }
{
    match token {
        Token::Register(_) | Token::Operation(_) | Token::Not => true,
        Token::Op(op) => is_name(*op),
        _ => false,
    }
}

// Whether an operator is a name.
fn is_name(op: Two) -> bool
    ensures { result ≡ is_name op }
{
    match op {
        Two::Mul | Two::Div | Two::Add | Two::Sub => false,
        _ => true,
    }
}

/// Whether at some point of some statement more than 16 parentheses are open.
pub fn some_is_deep(parts: &[&[Token]]) -> bool
    ensures { result ≡ list_any (λ part. is_deep part.now) parts.now }
{
    for part in parts {
        if is_deep(*part) {
            return true;
        }
    }
    false
}

fn is_deep(part: &[Token]) -> bool
    ensures { result ≡ is_deep part.now }
{
    let mut count = 0;
    for token in part {
        count = open_after(count, token);
        if count > MOST_OPEN {
            return true;
        }
    }
    false
}

// How many parentheses are open after one more token.
fn open_after(count: usize, token: &Token) -> usize
    requires { count ≤ 16 }
    ensures { result ≡ open_after count token.now }
{
    match token {
        Token::Open => count + 1,
        Token::Close => count.saturating_sub(1),
        _ => count,
    }
}

/// Adds the statements that the parts of the line of a number are, without the empty ones; where some part is none, nothing is added.
pub fn statements<N: Notation>(
    alloc: Global,
    line: u32,
    parts: &[&[Token]],
    found: &mut Vec<Stmt80>,
) -> Result<(), ParseFault>
    requires lawful { All (λ part. All (IsLawful N.spelling) part.now) parts.now }
    requires well_formed { AreWellFormed found.old.items }
    ensures value { GivesStatements N.spelling line (map (λ x. x.now) parts.now) found.old.items found.new.items result }
    ensures well_formed { AreWellFormed found.new.items }
{
    let before = found.len();
    for part in parts {
        if let Err(fault) = add::<N>(alloc, line, *part, found) {
            found.truncate(before);
            return Err(fault);
        }
    }
    Ok(())
}

// Adds the statement that tokens are, unless it is empty.
fn add<N: Notation>(
    alloc: Global,
    line: u32,
    part: &[Token],
    found: &mut Vec<Stmt80>,
) -> Result<(), ParseFault>
    requires lawful { All (IsLawful N.spelling) part.now }
    requires well_formed { AreWellFormed found.old.items }
    ensures value { AddsStatement N.spelling line part.now found.old.items found.new.items result }
    ensures well_formed { AreWellFormed found.new.items }
{
    let s = statement::<N>(alloc, line, part)?;
    keep(found, s)?;
    Ok(())
}

// Adds a statement, unless it is empty.
fn keep(found: &mut Vec<Stmt80>, s: Stmt80) -> Result<(), AllocError>
    requires well { IsWellFormed (statement_of s) }
    requires all { AreWellFormed found.old.items }
    ensures kept { OnOk result ((more : List Stmt80) × (found.new.items ≡ found.old.items ++ more) × (map statement_of more ≡ kept (statement_of s))) }
    ensures unchanged { OnErr result (found.new.items ≡ found.old.items) }
    ensures well_formed { AreWellFormed found.new.items }
{
    if s.label.is_none() && s.op.is_none() {
        return Ok(());
    }
    found.push(s)?;
    Ok(())
}
