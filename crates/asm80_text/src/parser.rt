//! Expressions of tokens.

ghost use Rattle.std.specs.Prelude.{◌≡◌, ◌≢◌, ◌≤◌, ◌<◌, List, [], ◌∷◌, false, IfOk, IfSome, MatchOption, length, option_map};
ghost use Rattle.std.specs.List.{prefix_len};
ghost use Rattle.asm80_text.specs.declared.token.Token.{Token};
ghost use Rattle.asm80_types.specs.Tree.{Tree, tree_of};
ghost use Rattle.asm80_text.specs.Grammar.{level_of, Spells, Begins, Ends, EndsInside};
ghost use Rattle.asm80_text.specs.TreeResults.{Gives, Stops, inverted, is_not, term_of};

use crate::{ParseFault, Token};
use asm80_types::{Expr, Two};
use std::alloc::{AllocError, Global};

/// The expression at the front of the tokens, up to where it cannot go on, and the tokens after it.
pub fn expression<'a>(alloc: Global, tokens: &'a [Token]) -> Result<(Expr, &'a [Token]), ParseFault>
    ensures { Gives (Spells 5 tokens.now) (Ends 5) result }
{
    expression_at(alloc, 5, tokens)
}

// An expression of a level at the front of the tokens, and the tokens after it.
#[cycle(expression)]
fn expression_at<'a>(
    alloc: Global,
    level: u8,
    tokens: &'a [Token],
) -> Result<(Expr, &'a [Token]), ParseFault>
    requires { level ≤ 5 }
    ensures { Gives (Spells level tokens.now) (Ends level) result }
{
    if let Some(found) = term_alone(level, tokens) {
        return Ok(found);
    }
    let (mut left, mut rest) = begin_at(alloc, level, tokens)?;
    while let Some((op, after)) = operator_of(level, rest) {
        let (right, more) = expression_at(alloc, level - 1, after)?;
        left = binary(alloc, op, left, right)?;
        rest = more;
    }
    Ok((left, rest))
}

// What an expression of a level begins with.
#[cycle(expression)]
fn begin_at<'a>(
    alloc: Global,
    level: u8,
    tokens: &'a [Token],
) -> Result<(Expr, &'a [Token]), ParseFault>
    requires { level ≤ 5 }
    ensures { Gives (Begins level tokens.now) (EndsInside level) result }
{
    match level {
        0 => operand_at(alloc, tokens),
        2 => signed_at(alloc, tokens),
        3 => inverted_at(alloc, tokens),
        _ => expression_at(alloc, level - 1, tokens),
    }
}

// Two expressions with an operator between them.
fn binary(alloc: Global, op: Two, left: Expr, right: Expr) -> Result<Expr, AllocError>
    ensures { IfOk result (λ x. tree_of x ≡ Tree.Binary op (tree_of left) (tree_of right)) }
{
    Ok(Expr::Two(op, Box::new(alloc, left)?, Box::new(alloc, right)?))
}

// An operand, or an expression in parentheses.
#[cycle(expression)]
fn operand_at<'a>(alloc: Global, tokens: &'a [Token]) -> Result<(Expr, &'a [Token]), ParseFault>
    ensures { Gives (Begins 0 tokens.now) (EndsInside 0) result }
{
    let Some((token, rest)) = first(tokens) else {
        return Err(ParseFault::Malformed);
    };
    if let Some(term) = term_of(token) {
        return Ok((term, rest));
    }
    match token {
        Token::Open => parenthesized(alloc, rest),
        _ => Err(ParseFault::Malformed),
    }
}

// What is behind an opening parenthesis.
#[cycle(expression)]
fn parenthesized<'a>(alloc: Global, tokens: &'a [Token]) -> Result<(Expr, &'a [Token]), ParseFault>
    ensures { Gives (Begins 0 (Token.Open ∷ tokens.now)) (EndsInside 0) result }
{
    let (inside, after) = expression_at(alloc, 5, tokens)?;
    let Some(rest) = after_close(after) else {
        return Err(ParseFault::Malformed);
    };
    Ok((inside, rest))
}

// A product, with one sign before it or none.
#[cycle(expression)]
fn signed_at<'a>(alloc: Global, tokens: &'a [Token]) -> Result<(Expr, &'a [Token]), ParseFault>
    ensures { Gives (Begins 2 tokens.now) (EndsInside 2) result }
{
    let Some((sign, rest)) = operator_of(2, tokens) else {
        return expression_at(alloc, 1, tokens);
    };
    let (term, rest) = expression_at(alloc, 1, rest)?;
    if sign == Two::Add {
        return Ok((term, rest));
    }
    Ok((Expr::Neg(Box::new(alloc, term)?), rest))
}

// A sum, with any number of NOTs before it, which are read without recursion.
#[cycle(expression)]
fn inverted_at<'a>(alloc: Global, tokens: &'a [Token]) -> Result<(Expr, &'a [Token]), ParseFault>
    ensures { Gives (Begins 3 tokens.now) (EndsInside 3) result }
{
    let count = nots_len(tokens);
    let (_, behind) = tokens.split_at(count);
    let (sum, rest) = expression_at(alloc, 2, behind)?;
    Ok((inverted(alloc, count, sum)?, rest))
}

// How many tokens at the front are NOTs.
fn nots_len(tokens: &[Token]) -> usize
    ensures value { result ≡ prefix_len is_not tokens.now }
    ensures within { result ≤ length tokens.now }
{
    for i in 0..tokens.len() {
        let Token::Not = tokens[i] else {
            return i;
        };
    }
    tokens.len()
}

// An expression under some number of NOTs.
fn inverted(alloc: Global, count: usize, e: Expr) -> Result<Expr, AllocError>
    ensures { IfOk result (λ x. tree_of x ≡ inverted count (tree_of e)) }
{
    let mut whole = e;
    for _i in 0..count {
        whole = Expr::Not(Box::new(alloc, whole)?);
    }
    Ok(whole)
}

// A term at the front of the tokens that is the whole expression of a level, since none of its operators follows; most operands are.
fn term_alone(level: u8, tokens: &[Token]) -> Option<(Expr, &[Token])>
    ensures { IfSome result (λ x. Begins 0 tokens.now (tree_of x.0) x.1.now × Ends level x.1.now) }
{
    match tokens {
        [token, rest @ ..] => {
            if goes_on(level, rest) {
                return None;
            }
            let term = term_of(token)?;
            Some((term, rest))
        }
        [] => None,
    }
}

// The term that a token is by itself.
fn term_of(token: &Token) -> Option<Expr>
    ensures { option_map tree_of result ≡ term_of token.now }
{
    match token {
        Token::Digits(n) => Some(Expr::Num(*n)),
        Token::Num(n) => Some(Expr::Num(*n)),
        Token::Here => Some(Expr::Here),
        Token::Word(name) => Some(Expr::Name(*name)),
        Token::Register(name) => Some(Expr::Name(*name)),
        _ => None,
    }
}

// Whether the next token is an operator of a level or of a tighter one.
fn goes_on(level: u8, tokens: &[Token]) -> bool
    ensures { result ≡ false → Ends level tokens.now }
{
    match tokens {
        [Token::Op(op), ..] => level_of(*op) <= level,
        _ => false,
    }
}

fn level_of(op: Two) -> u8
    ensures { result ≡ level_of op }
{
    match op {
        Two::Mul | Two::Div | Two::Mod | Two::Shl | Two::Shr => 1,
        Two::Add | Two::Sub => 2,
        Two::And => 4,
        Two::Or | Two::Xor => 5,
    }
}

// The operator of a level that is the next token, and the tokens after it.
fn operator_of(level: u8, tokens: &[Token]) -> Option<(Two, &[Token])>
    ensures { MatchOption result (Stops level tokens.now) (λ p. (tokens.now ≡ Token.Op p.0 ∷ p.1.now) × (level_of p.0 ≡ level)) }
{
    match tokens {
        [Token::Op(op), rest @ ..] => {
            if level_of(*op) == level {
                Some((*op, rest))
            } else {
                None
            }
        }
        _ => None,
    }
}

/// The first token, and those after it.
pub fn first(tokens: &[Token]) -> Option<(&Token, &[Token])>
    ensures { MatchOption result (tokens.now ≡ []) (λ p. tokens.now ≡ p.0.now ∷ p.1.now) }
{
    tokens.split_first()
}

// The tokens after a closing parenthesis.
fn after_close(tokens: &[Token]) -> Option<&[Token]>
    ensures { MatchOption result ((rest : List Token) → tokens.now ≢ Token.Close ∷ rest) (λ rest. tokens.now ≡ Token.Close ∷ rest.now) }
{
    match tokens {
        [Token::Close, rest @ ..] => Some(rest),
        _ => None,
    }
}

/// The front of tokens, up to where an expression cannot go on, is at most one expression.
pub fn expression_has_one_tree()
    ensures { (ts r s : List Token) (e f : Tree) → Spells 5 ts e r → Spells 5 ts f s → Ends 5 r → Ends 5 s → (e ≡ f) × (r ≡ s) }
{}
