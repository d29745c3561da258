//! Directives: their operand, the label of a statement, and what they break.

ghost use Rattle.std.specs.Prelude.{◌≡◌, map};
ghost use Rattle.std.specs.List.{list_any};
ghost use Rattle.asm80_types.specs.declared.arg.Arg.{Arg};
ghost use Rattle.asm80_types.specs.Tree.{operand_of, Statement, statement_of};
ghost use Rattle.asm80_first_walk.specs.Scopes.{scope_of};
ghost use Rattle.asm80_source_def.specs.Values.{operand_has_unknown, operand_divides_by_zero};
ghost use Rattle.asm80_source_def.specs.Walk.{Walk, operation_in, operand_meaning, directive_meaning, label_meaning_by, kind_of_label, address_by, is_end_directive, is_endif, is_true};
ghost use Rattle.asm80_source_def.specs.FirstFaults.{is_one_value, breaks_v5};
ghost use Rattle.asm80_first_walk.specs.State.{rule_of_values, is_evaluated};

use crate::operations::operation_of;
use crate::size::size_of;
use crate::values::UNKNOWN;
use crate::{Scope, is_no_value, meaning_of, operand_divides_by_zero, operand_has_unknown};
use asm80_source_def::{AsmRule, Meaning, NameKind, Operation};
use asm80_types::{Arg, Stmt80};

/// The operation of a statement.
pub fn operation_in(statement: &Stmt80) -> Option<Operation>
    ensures { result ≡ operation_in (statement_of statement.now) }
{
    let name = statement.op?;
    operation_of(name.as_slice())
}

/// What the one operand of a directive stands for.
pub fn operand_meaning(scope: &Scope<'_>, args: &[Arg]) -> Meaning
    ensures { result ≡ operand_meaning (scope_of scope.now) (map operand_of args.now) }
{
    match args {
        [Arg::Value(e)] => meaning_of(scope, e),
        _ => UNKNOWN,
    }
}

// ---- labels

/// How the label of a statement is defined.
pub fn kind_of_label(operation: Option<Operation>) -> NameKind
    ensures { result ≡ kind_of_label operation }
{
    let Some(operation) = operation else {
        return NameKind::Label;
    };
    match operation {
        Operation::Equ => NameKind::Equate,
        Operation::Set => NameKind::Settable,
        _ => NameKind::Label,
    }
}

/// What the label of a statement stands for, by the statement's address and what its operand stands for.
pub fn label_meaning(at: u16, operation: Option<Operation>, meaning: Meaning) -> Meaning
    ensures { (w : Walk) (s : Statement) → w.at ≡ at → directive_meaning w s ≡ meaning → result ≡ label_meaning_by w s operation }
{
    let here = Meaning {
        value: Some(at),
        is_place: true,
    };
    let Some(operation) = operation else {
        return here;
    };
    match operation {
        Operation::Equ | Operation::Set => meaning,
        Operation::Org => Meaning {
            value: meaning.value,
            is_place: true,
        },
        _ => here,
    }
}

// ---- the address

/// The address after a statement, by its own and what its operand stands for.
pub fn address_after(at: u16, operation: Option<Operation>, meaning: Meaning, args: &[Arg]) -> u16
    ensures { (w : Walk) (s : Statement) → w.at ≡ at → directive_meaning w s ≡ meaning → s.args ≡ map operand_of args.now → result ≡ address_by w s operation }
{
    let next = at.wrapping_add(size_of(operation, args));
    let Some(operation) = operation else {
        return next;
    };
    match operation {
        Operation::Org => meaning.value.unwrap_or(at),
        Operation::Ds => match meaning.value {
            Some(count) => at.wrapping_add(count),
            None => at,
        },
        _ => next,
    }
}

/// Whether the statements of an IF are taken.
pub fn is_true(value: Option<u16>) -> bool
    ensures { result ≡ is_true value }
{
    match value {
        Some(n) => n != 0,
        None => false,
    }
}

// ---- rules

/// Whether an operation is END.
pub fn is_end(operation: Option<Operation>) -> bool
    ensures { result ≡ is_end_directive operation }
{
    let Some(operation) = operation else {
        return false;
    };
    match operation {
        Operation::End => true,
        _ => false,
    }
}

/// Whether an operation is ENDIF.
pub fn is_endif(operation: Option<Operation>) -> bool
    ensures { result ≡ is_endif operation }
{
    let Some(operation) = operation else {
        return false;
    };
    match operation {
        Operation::EndIf => true,
        _ => false,
    }
}

// Whether there is one operand, which is a value.
fn is_one_value(args: &[Arg]) -> bool
    ensures { result ≡ is_one_value (map operand_of args.now) }
{
    match args {
        [arg] => !is_no_value(arg),
        _ => false,
    }
}

/// Whether a directive lacks its label or has operands that it does not take.
pub fn breaks_v5(statement: &Stmt80, operation: Option<Operation>) -> bool
    ensures { result ≡ breaks_v5 (statement_of statement.now) operation }
{
    let Some(operation) = operation else {
        return false;
    };
    let args = statement.args.as_slice();
    match operation {
        Operation::Equ | Operation::Set => statement.label.is_none() || !is_one_value(args),
        Operation::Org | Operation::Ds | Operation::If => !is_one_value(args),
        Operation::End => !args.is_empty() && !is_one_value(args),
        Operation::EndIf => !args.is_empty(),
        _ => false,
    }
}

/// Whether the walk evaluates the operands of an operation with the names above its statement.
pub fn is_evaluated(operation: Option<Operation>) -> bool
    ensures { result ≡ is_evaluated operation }
{
    let Some(operation) = operation else {
        return false;
    };
    match operation {
        Operation::Equ | Operation::Set | Operation::Org | Operation::Ds | Operation::If => true,
        _ => false,
    }
}

/// Which of V1 and V4 operands break.
#[tactic(auto, using(crate::proofs::Nesting::any_mapped))]
pub fn rule_of_values(scope: &Scope<'_>, args: &[Arg]) -> Option<AsmRule>
    ensures { result ≡ rule_of_values (scope_of scope.now) (map operand_of args.now) }
{
    if some_has_unknown(scope, args) {
        Some(AsmRule::V1)
    } else if some_divides_by_zero(scope, args) {
        Some(AsmRule::V4)
    } else {
        None
    }
}

fn some_has_unknown(scope: &Scope<'_>, args: &[Arg]) -> bool
    ensures { result ≡ list_any (λ (a : Arg). operand_has_unknown (scope_of scope.now) (operand_of a)) args.now }
{
    for arg in args {
        if operand_has_unknown(scope, arg) {
            return true;
        }
    }
    false
}

fn some_divides_by_zero(scope: &Scope<'_>, args: &[Arg]) -> bool
    ensures { result ≡ list_any (λ (a : Arg). operand_divides_by_zero (scope_of scope.now) (operand_of a)) args.now }
{
    for arg in args {
        if operand_divides_by_zero(scope, arg) {
            return true;
        }
    }
    false
}
