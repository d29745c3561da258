//! The values of expressions.

ghost use Rattle.std.specs.Prelude.{◌≡◌, false, cond, is_none};
ghost use Rattle.std.specs.List.{list_any};
ghost use Rattle.asm80_types.specs.Tree.{tree_of};
ghost use Rattle.asm80_types.specs.Words.{is_register};
ghost use Rattle.base.specs.Addresses.{has_address};
ghost use Rattle.asm80_first_walk.specs.Scopes.{scope_of};
ghost use Rattle.asm80_source_def.specs.Values.{meaning_of_name, value_of_tree, has_register, has_undefined, divides, divides_by_zero, place_of_name, places_in, places_inside, place_alone};
ghost use Rattle.asm80_source_def.specs.Walk.{meaning_in, meaning_of};

use crate::arithmetic::{binary, divides};
use crate::scope::Scope;
use asm80_source_def::Meaning;
use asm80_types::{Expr, Name80, is_register};
use base::AddressSet;

/// What a fault hides.
pub const UNKNOWN: Meaning = Meaning {
    value: None,
    is_place: false,
};

// What a name stands for; a register's name is no value.
fn meaning_of_name(scope: &Scope<'_>, name: &Name80) -> Option<Meaning>
    ensures { result ≡ meaning_of_name (scope_of scope.now) name.now }
{
    if is_register(name.as_slice()) {
        return None;
    }
    scope.names.meaning(name)
}

/// The value of an expression; None where a fault hides it.
pub fn number_of(scope: &Scope<'_>, e: &Expr) -> Option<u16>
    ensures { result ≡ value_of_tree (scope_of scope.now) (tree_of e.now) }
{
    match e {
        Expr::Num(n) => Some(*n),
        Expr::Here => Some(scope.here),
        Expr::Name(name) => meaning_of_name(scope, name)?.value,
        Expr::Not(inside) => Some(!number_of(scope, inside)?),
        Expr::Neg(inside) => Some(number_of(scope, inside)?.wrapping_neg()),
        Expr::Two(op, a, b) => {
            match (number_of(scope, a), number_of(scope, b)) {
                (Some(left), Some(right)) => binary(*op, left, right),
                _ => None,
            }
        }
    }
}

/// Whether a register's name stands in an expression.
pub fn has_register(e: &Expr) -> bool
    ensures { result ≡ has_register (tree_of e.now) }
{
    match e {
        Expr::Num(_) | Expr::Here => false,
        Expr::Name(name) => is_register(name.as_slice()),
        Expr::Not(inside) | Expr::Neg(inside) => has_register(inside),
        Expr::Two(_, a, b) => has_register(a) || has_register(b),
    }
}

// Whether a name is no register's and has no meaning.
fn is_unknown(scope: &Scope<'_>, name: &Name80) -> bool
    ensures { result ≡ cond (is_register name.now) false (is_none (meaning_in scope.now.names.now name.now)) }
{
    !is_register(name.as_slice()) && scope.names.meaning(name).is_none()
}

/// Whether an expression has a name that is not defined.
pub fn has_unknown(scope: &Scope<'_>, e: &Expr) -> bool
    ensures { result ≡ has_undefined (scope_of scope.now) (tree_of e.now) }
{
    match e {
        Expr::Num(_) | Expr::Here => false,
        Expr::Name(name) => is_unknown(scope, name),
        Expr::Not(inside) | Expr::Neg(inside) => has_unknown(scope, inside),
        Expr::Two(_, a, b) => has_unknown(scope, a) || has_unknown(scope, b),
    }
}

/// Whether some divisor of an expression is 0.
pub fn divides_by_zero(scope: &Scope<'_>, e: &Expr) -> bool
    ensures { result ≡ divides_by_zero (scope_of scope.now) (tree_of e.now) }
{
    match e {
        Expr::Num(_) | Expr::Here | Expr::Name(_) => false,
        Expr::Not(inside) | Expr::Neg(inside) => divides_by_zero(scope, inside),
        Expr::Two(op, a, b) => {
            divides_by_zero(scope, a)
                || divides_by_zero(scope, b)
                || divides(*op) && matches!(number_of(scope, b), Some(0))
        }
    }
}

// The address of a place name.
fn place_of_name(scope: &Scope<'_>, name: &Name80) -> Option<u16>
    ensures { result ≡ place_of_name (scope_of scope.now) name.now }
{
    let meaning = meaning_of_name(scope, name)?;
    if meaning.is_place {
        meaning.value
    } else {
        None
    }
}

/// The address of an expression that is a place name or `$` alone.
pub fn place_alone(scope: &Scope<'_>, e: &Expr) -> Option<u16>
    ensures { result ≡ place_alone (scope_of scope.now) (tree_of e.now) }
{
    match e {
        Expr::Here => Some(scope.here),
        Expr::Name(name) => place_of_name(scope, name),
        _ => None,
    }
}

// Whether the address of some place name or `$` in an expression is in a set.
fn has_place_in(scope: &Scope<'_>, e: &Expr, set: &AddressSet) -> bool
    ensures { result ≡ list_any (has_address set.now) (places_in (scope_of scope.now) (tree_of e.now)) }
{
    match e {
        Expr::Num(_) => false,
        Expr::Here => set.contains(scope.here),
        Expr::Name(name) => match place_of_name(scope, name) {
            Some(at) => set.contains(at),
            None => false,
        },
        Expr::Not(inside) | Expr::Neg(inside) => has_place_in(scope, inside, set),
        Expr::Two(_, a, b) => has_place_in(scope, a, set) || has_place_in(scope, b, set),
    }
}

/// Whether the address of some place name or `$` that does not stand alone in an expression is in a set.
pub fn has_place_within(scope: &Scope<'_>, e: &Expr, set: &AddressSet) -> bool
    ensures { result ≡ list_any (has_address set.now) (places_inside (scope_of scope.now) (tree_of e.now)) }
{
    match e {
        Expr::Num(_) | Expr::Here | Expr::Name(_) => false,
        _ => has_place_in(scope, e, set),
    }
}

/// What an expression stands for: a name alone is what that name is, `$` alone is a place, all else a number.
pub fn meaning_of(scope: &Scope<'_>, e: &Expr) -> Meaning
    ensures { result ≡ meaning_of (scope_of scope.now) (tree_of e.now) }
{
    match e {
        Expr::Here => Meaning {
            value: Some(scope.here),
            is_place: true,
        },
        Expr::Name(name) => meaning_of_name(scope, name).unwrap_or(UNKNOWN),
        _ => Meaning {
            value: number_of(scope, e),
            is_place: false,
        },
    }
}
