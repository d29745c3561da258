//! The values of operands.

ghost use Rattle.std.specs.Prelude.{◌≡◌, ℕ, List};
ghost use Rattle.std.specs.List.{list_any};
ghost use Rattle.asm80_types.specs.Tree.{operand_of};
ghost use Rattle.base.specs.Addresses.{has_address, is_among, IsSetOf};
ghost use Rattle.asm80_first_walk.specs.Scopes.{scope_of};
ghost use Rattle.asm80_source_def.specs.Values.{is_no_value, operand_has_unknown, operand_divides_by_zero, operand_number, operand_place, operand_places_inside};

use crate::scope::Scope;
use crate::values::{
    divides_by_zero, has_place_within, has_register, has_unknown, number_of, place_alone,
};
use asm80_types::Arg;
use base::AddressSet;

/// Whether an operand is a string of two or more characters, or has a register's name.
pub fn is_no_value(arg: &Arg) -> bool
    ensures { result ≡ is_no_value (operand_of arg.now) }
{
    match arg {
        Arg::Text(_) => true,
        Arg::Value(e) => has_register(e),
    }
}

/// Whether an operand has a name that is not defined.
pub fn operand_has_unknown(scope: &Scope<'_>, arg: &Arg) -> bool
    ensures { result ≡ operand_has_unknown (scope_of scope.now) (operand_of arg.now) }
{
    match arg {
        Arg::Text(_) => false,
        Arg::Value(e) => has_unknown(scope, e),
    }
}

/// Whether some divisor of an operand is 0.
pub fn operand_divides_by_zero(scope: &Scope<'_>, arg: &Arg) -> bool
    ensures { result ≡ operand_divides_by_zero (scope_of scope.now) (operand_of arg.now) }
{
    match arg {
        Arg::Text(_) => false,
        Arg::Value(e) => divides_by_zero(scope, e),
    }
}

/// The value of an operand; None where a fault hides it, and of a string of two or more characters.
pub fn operand_number(scope: &Scope<'_>, arg: &Arg) -> Option<u16>
    ensures { result ≡ operand_number (scope_of scope.now) (operand_of arg.now) }
{
    match arg {
        Arg::Text(_) => None,
        Arg::Value(e) => number_of(scope, e),
    }
}

/// The address of an operand that is a place name or `$` alone.
pub fn operand_place(scope: &Scope<'_>, arg: &Arg) -> Option<u16>
    ensures { result ≡ operand_place (scope_of scope.now) (operand_of arg.now) }
{
    match arg {
        Arg::Text(_) => None,
        Arg::Value(e) => place_alone(scope, e),
    }
}

/// Whether the address of some place name or `$` inside a larger expression is in a set.
pub fn has_place_inside(scope: &Scope<'_>, arg: &Arg, set: &AddressSet) -> bool
    ensures value { result ≡ list_any (has_address set.now) (operand_places_inside (scope_of scope.now) (operand_of arg.now)) }
    ensures stands { (addresses : List ℕ) → IsSetOf set.now addresses → result ≡ list_any (is_among addresses) (operand_places_inside (scope_of scope.now) (operand_of arg.now)) }
{
    match arg {
        Arg::Text(_) => false,
        Arg::Value(e) => has_place_within(scope, e, set),
    }
}
