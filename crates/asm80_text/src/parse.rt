//! Statements of tokens.

ghost use Rattle.std.specs.Prelude.{◌≡◌, ◌≢◌, ◌∷◌, ℕ, All, IfOk, List, MatchOption, Option, option_map};
ghost use Rattle.std.specs.Borrow.{Bor};
ghost use Rattle.asm80_text.specs.declared.token.Token.{Token};
ghost use Rattle.asm80_text.specs.Tokens.{IsLawful};
ghost use Rattle.asm80_types.specs.Tree.{Operand, statement_of};
ghost use Rattle.asm80_types.specs.WellFormed.{IsWellFormed};
ghost use Rattle.asm80_text.specs.Statement.{IsStatement};
ghost use Rattle.asm80_text.specs.Results.{GivesBody, GivesOperand, GivesOperandList, GivesOperands, GivesStatement, label_of, past_colon, past_label, past_number};

use crate::parser::first;
use crate::{Notation, ParseFault, Token, as_operation, expression};
use asm80_types::{Arg, Args, Bytes, Name80, Stmt80};
use std::alloc::Global;

/// The statement that all of the tokens are.
pub fn statement<N: Notation>(
    alloc: Global,
    line: u32,
    tokens: &[Token],
) -> Result<Stmt80, ParseFault>
    requires { All (IsLawful N.spelling) tokens.now }
    ensures value { GivesStatement N.spelling line tokens.now result }
    ensures well_formed { IfOk result (λ s. IsWellFormed (statement_of s)) }
{
    N::spelling_is_coherent();
    let (label, rest) = label_of(past_number(tokens));
    let (op, args) = body::<N>(alloc, rest)?;
    Ok(Stmt80 {
        line,
        label: label.copied(),
        op,
        args: Args::from_vec(args),
    })
}

// An operation and its operands, or nothing.
fn body<N: Notation>(
    alloc: Global,
    tokens: &[Token],
) -> Result<(Option<Name80>, Vec<Arg>), ParseFault>
    ensures { GivesBody N.spelling tokens.now result }
{
    let Some((token, rest)) = first(tokens) else {
        return Ok((None, Vec::new(alloc)));
    };
    let Some(word) = as_operation::<N>(token) else {
        return Err(ParseFault::Malformed);
    };
    let (op, args) = N::operation(alloc, &word, rest)?;
    Ok((Some(op), args))
}

/// The list of operands that all of the tokens are, which may have none.
pub fn operand_list(alloc: Global, tokens: &[Token]) -> Result<Vec<Arg>, ParseFault>
    ensures { GivesOperandList tokens.now result }
{
    if tokens.is_empty() {
        return Ok(Vec::new(alloc));
    }
    operands(alloc, tokens)
}

// The operands that all of the tokens are.
fn operands(alloc: Global, tokens: &[Token]) -> Result<Vec<Arg>, ParseFault>
    ensures { GivesOperands tokens.now result }
{
    let mut args = Vec::new(alloc);
    let mut rest = tokens;
    loop {
        let (arg, after) = operand_at(alloc, rest)?;
        args.push(arg)?;
        if after.is_empty() {
            return Ok(args);
        }
        let Some(next) = after_comma(after) else {
            return Err(ParseFault::Malformed);
        };
        rest = next;
    }
}

// The operand at the front of the tokens, and the tokens after it.
fn operand_at<'a>(alloc: Global, tokens: &'a [Token]) -> Result<(Arg, &'a [Token]), ParseFault>
    ensures { GivesOperand tokens.now result }
{
    if let Some((text, rest)) = text_of(tokens) {
        let bytes = Vec::from_slice(alloc, text)?;
        return Ok((Arg::Text(Bytes::from_vec(bytes)), rest));
    }
    let (e, rest) = expression(alloc, tokens)?;
    Ok((Arg::Value(e), rest))
}

// The bytes of the string that is the next token, and the tokens after it.
fn text_of(tokens: &[Token]) -> Option<(&[u8], &[Token])>
    ensures { MatchOption result ((bytes : List ℕ) (rest : List Token) → tokens.now ≢ Token.Text bytes ∷ rest) (λ p. tokens.now ≡ Token.Text p.0.now ∷ p.1.now) }
{
    match tokens {
        [Token::Text(bytes), rest @ ..] => Some((bytes.as_slice(), rest)),
        _ => None,
    }
}

// The tokens after a comma.
fn after_comma(tokens: &[Token]) -> Option<&[Token]>
    ensures { MatchOption result ((rest : List Token) → tokens.now ≢ Token.Comma ∷ rest) (λ rest. tokens.now ≡ Token.Comma ∷ rest.now) }
{
    match tokens {
        [Token::Comma, rest @ ..] => Some(rest),
        _ => None,
    }
}

// The label at the front of the tokens, if there is one, and the tokens after it and its colon.
fn label_of(tokens: &[Token]) -> (Option<&Name80>, &[Token])
    ensures label { option_map (λ (name : Bor (List ℕ)). name.now) result.0 ≡ label_of tokens.now }
    ensures rest { result.1.now ≡ past_label tokens.now }
{
    match tokens {
        [Token::Word(name), rest @ ..] => (Some(name), past_colon(rest)),
        _ => (None, tokens),
    }
}

// The tokens, without a colon at the front.
fn past_colon(tokens: &[Token]) -> &[Token]
    ensures { result.now ≡ past_colon tokens.now }
{
    match tokens {
        [Token::Colon, rest @ ..] => rest,
        _ => tokens,
    }
}

// The tokens, without a line number at the front.
fn past_number(tokens: &[Token]) -> &[Token]
    ensures { result.now ≡ past_number tokens.now }
{
    match tokens {
        [Token::Digits(_), rest @ ..] => rest,
        _ => tokens,
    }
}

/// In each spelling the words of a statement have at most one tree: one label, one operation and one list of operands.
pub fn statement_has_one_tree<N: Notation>()
    ensures { (ts : List Token) (l m o p : Option (List ℕ)) (a b : List Operand) → IsStatement N.spelling ts l o a → IsStatement N.spelling ts m p b → (l ≡ m) × (o ≡ p) × (a ≡ b) }
{
    N::spelling_is_coherent();
}
