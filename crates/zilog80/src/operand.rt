//! How an operand is spelt.

ghost use Rattle.std.specs.Prelude.{◌≡◌, ◌↔◌, [], ◌∷◌, IsTrue, None, false, option_map};
ghost use Rattle.asm80_text.specs.declared.token.Token.{Token};
ghost use Rattle.zilog80.specs.Operands.{atom_of, has_reserved};
ghost use Rattle.zilog80.specs.Read.{GivesEnclosed, GivesSpelt, GivesWhole, spelt_of};

use asm80_text::{Expr, Name80, ParseFault, Token, expression};
use std::alloc::{AllocError, Global};

/// An operand as it is spelt.
#[derive(Drop)]
pub enum Spelt {
    /// A reserved name alone.
    Name(Name80),
    /// A reserved name in one pair of parentheses.
    AtName(Name80),
    /// A number alone.
    Literal(u16),
    /// Any other value that is not wholly one pair of parentheses.
    Value(Expr),
    /// A value in one pair of parentheses.
    AtValue(Expr),
}

/// How the operand is spelt that all of the tokens are.
pub fn read_operand(alloc: Global, tokens: &[Token]) -> Result<Spelt, ParseFault>
    ensures { GivesSpelt tokens.now result }
{
    if let Some(atom) = atom_of(tokens) {
        return Ok(atom);
    }
    if has_reserved(tokens) {
        return Err(ParseFault::Malformed);
    }
    composed(alloc, tokens)
}

// The operand that tokens are which are no name or number alone and have no reserved name among them.
fn composed(alloc: Global, tokens: &[Token]) -> Result<Spelt, ParseFault>
    requires atom { atom_of tokens.now ≡ None }
    requires free { has_reserved tokens.now ≡ false }
    ensures { GivesSpelt tokens.now result }
{
    let inside = enclosed(alloc, tokens)?;
    match inside {
        Some(e) => Ok(Spelt::AtValue(e)),
        None => match whole(alloc, tokens) {
            Ok(e) => Ok(Spelt::Value(e)),
            Err(fault) => Err(fault),
        },
    }
}

// A name or a number alone, or a name in one pair of parentheses.
fn atom_of(tokens: &[Token]) -> Option<Spelt>
    ensures { option_map spelt_of result ≡ atom_of tokens.now }
{
    match tokens {
        [Token::Register(name)] => Some(Spelt::Name(*name)),
        [Token::Digits(n)] => Some(Spelt::Literal(*n)),
        [Token::Num(n)] => Some(Spelt::Literal(*n)),
        [Token::Open, Token::Register(name), Token::Close] => Some(Spelt::AtName(*name)),
        _ => None,
    }
}

// Whether the tokens are a closing parenthesis alone.
fn is_close(tokens: &[Token]) -> bool
    ensures { IsTrue result ↔ (tokens.now ≡ Token.Close ∷ []) }
{
    match tokens {
        [Token::Close] => true,
        _ => false,
    }
}

// Whether a reserved name stands among the tokens.
fn has_reserved(tokens: &[Token]) -> bool
    ensures { result ≡ has_reserved tokens.now }
{
    for token in tokens {
        if let Token::Register(_) = token {
            return true;
        }
    }
    false
}

// The expression within the one pair of parentheses that all of the tokens are.
fn enclosed(alloc: Global, tokens: &[Token]) -> Result<Option<Expr>, AllocError>
    ensures { GivesEnclosed tokens.now result }
{
    let [Token::Open, inside @ ..] = tokens else {
        return Ok(None);
    };
    match expression(alloc, inside) {
        Ok((e, rest)) => {
            if is_close(rest) {
                Ok(Some(e))
            } else {
                Ok(None)
            }
        }
        Err(ParseFault::Malformed) => Ok(None),
        Err(ParseFault::Memory) => Err(AllocError),
    }
}

// The expression that all of the tokens are.
fn whole(alloc: Global, tokens: &[Token]) -> Result<Expr, ParseFault>
    ensures { GivesWhole tokens.now result }
{
    let (e, rest) = expression(alloc, tokens)?;
    if rest.is_empty() {
        Ok(e)
    } else {
        Err(ParseFault::Malformed)
    }
}
