// The rules of operands: V5, V1, V4 and V3, in this order.
ghost use Rattle.std.specs.Prelude.{◌≡◌, ◌||◌, IfSome, None, false, is_some, map, zip};
ghost use Rattle.std.specs.List.{list_any};
ghost use Rattle.asm80_types.specs.Tree.{operand_of};
ghost use Rattle.asm80_first_walk.specs.Scopes.{scope_of};
ghost use Rattle.asm80_source_def.specs.declared.rule.AsmRule.TheVariants.{V1, V3, V4};
ghost use Rattle.asm80_source_def.specs.FirstFaults.{rule_if};
ghost use Rattle.asm80_source_def.specs.Operands.{is_value_kind, values_break, is_of_kind, are_of_kinds, moves_memory, fits_byte, is_unfit, rule_of_instruction, is_no_byte_item, item_is_unfit, rule_of_bytes, rule_of_words, rule_of_operands};
ghost use Rattle.asm80_source_def.specs.Values.{is_no_value, operand_has_unknown, operand_divides_by_zero};

use crate::kinds::{is_value_kind, kinds_of};
use crate::registers::{indirect_of, pair_of, src_of, stack_of};
use asm80_first_walk::{
    Scope, is_no_value, operand_divides_by_zero, operand_has_unknown, operand_number,
};
use asm80_source_def::{AsmRule, Kind, Operation};
use asm80_types::Arg;
use i80::Src;

// Whether an operand is of a kind.
fn is_of_kind(kind: Kind, arg: &Arg) -> bool
    ensures { result ≡ is_of_kind kind (operand_of arg.now) }
{
    match kind {
        Kind::Register => src_of(arg).is_some(),
        Kind::Pair => pair_of(arg).is_some(),
        Kind::Indirect => indirect_of(arg).is_some(),
        Kind::Stack => stack_of(arg).is_some(),
        Kind::Byte | Kind::Word | Kind::Address | Kind::Target | Kind::Restart => {
            !is_no_value(arg)
        }
    }
}

// MOV M,M does not exist.
fn moves_memory(operation: Operation, args: &[Arg]) -> bool
    ensures { result ≡ moves_memory operation (map operand_of args.now) }
{
    match operation {
        Operation::Mov => args.len() == 2 && is_memory(&args[0]) && is_memory(&args[1]),
        _ => false,
    }
}

fn is_memory(arg: &Arg) -> bool
    ensures { result ≡ Rattle.asm80_source_def.specs.Operands.is_memory (Rattle.asm80_source_def.specs.Operands.src_of (operand_of arg.now)) }
{
    matches!(src_of(arg), Some(Src::Mem))
}

// Whether a number is a byte: its high byte is 0 or 0FFH.
fn is_byte(n: u16) -> bool
    ensures { result ≡ fits_byte n }
{
    matches!(n.to_be_bytes()[0], 0 | 0xFF)
}

// V3: whether the value of an operand does not fit.
fn is_unfit(scope: &Scope<'_>, kind: Kind, arg: &Arg) -> bool
    ensures { result ≡ is_unfit (scope_of scope.now) (kind, operand_of arg.now) }
{
    match kind {
        Kind::Byte => match operand_number(scope, arg) {
            Some(n) => !is_byte(n),
            None => false,
        },
        Kind::Restart => match operand_number(scope, arg) {
            Some(n) => n > 7,
            None => false,
        },
        _ => false,
    }
}

// Which rules of values some operand breaks.
#[derive(Clone, Copy)]
struct Breaches {
    has_unknown: bool,
    divides_by_zero: bool,
    is_unfit: bool,
}

const NO_BREACHES: Breaches = Breaches {
    has_unknown: false,
    divides_by_zero: false,
    is_unfit: false,
};

impl Breaches {
    // The first rule, in the order V1, V4, V3.
    fn rule(self) -> Option<AsmRule>
        ensures { result ≡ rule_if self.has_unknown V1 (rule_if self.divides_by_zero V4 (rule_if self.is_unfit V3 None)) }
    {
        if self.has_unknown {
            Some(AsmRule::V1)
        } else if self.divides_by_zero {
            Some(AsmRule::V4)
        } else if self.is_unfit {
            Some(AsmRule::V3)
        } else {
            None
        }
    }

    // These breaches or those.
    fn or(self, other: Breaches) -> Breaches
        ensures unknown { result.has_unknown ≡ (self.has_unknown || other.has_unknown) }
        ensures zero { result.divides_by_zero ≡ (self.divides_by_zero || other.divides_by_zero) }
        ensures unfit { result.is_unfit ≡ (self.is_unfit || other.is_unfit) }
    {
        Breaches {
            has_unknown: self.has_unknown || other.has_unknown,
            divides_by_zero: self.divides_by_zero || other.divides_by_zero,
            is_unfit: self.is_unfit || other.is_unfit,
        }
    }
}

// Which rules the value of one operand breaks.
fn broken_by(scope: &Scope<'_>, kind: Kind, arg: &Arg) -> Breaches
    ensures unknown { result.has_unknown ≡ operand_has_unknown (scope_of scope.now) (operand_of arg.now) }
    ensures zero { result.divides_by_zero ≡ operand_divides_by_zero (scope_of scope.now) (operand_of arg.now) }
    ensures unfit { result.is_unfit ≡ is_unfit (scope_of scope.now) (kind, operand_of arg.now) }
{
    Breaches {
        has_unknown: operand_has_unknown(scope, arg),
        divides_by_zero: operand_divides_by_zero(scope, arg),
        is_unfit: is_unfit(scope, kind, arg),
    }
}

// Which rules of values operands break; None where they are not of these kinds, one each.
fn broken_by_all(scope: &Scope<'_>, kinds: &[Kind], args: &[Arg]) -> Option<Breaches>
    ensures kinds { is_some result ≡ are_of_kinds kinds.now (map operand_of args.now) }
    ensures unknown { IfSome result (λ broken. broken.has_unknown ≡ values_break (operand_has_unknown (scope_of scope.now)) (zip kinds.now (map operand_of args.now))) }
    ensures zero { IfSome result (λ broken. broken.divides_by_zero ≡ values_break (operand_divides_by_zero (scope_of scope.now)) (zip kinds.now (map operand_of args.now))) }
    ensures unfit { IfSome result (λ broken. broken.is_unfit ≡ list_any (is_unfit (scope_of scope.now)) (zip kinds.now (map operand_of args.now))) }
{
    let Some((kind, kinds)) = kinds.split_first() else {
        return if args.is_empty() {
            Some(NO_BREACHES)
        } else {
            None
        };
    };
    let (arg, args) = args.split_first()?;
    if !is_of_kind(*kind, arg) {
        return None;
    }
    let rest = broken_by_all(scope, kinds, args)?;
    if is_value_kind(*kind) {
        Some(broken_by(scope, *kind, arg).or(rest))
    } else {
        Some(rest)
    }
}

// The rule of an instruction's operands.
fn rule_of_instruction(
    scope: &Scope<'_>,
    operation: Operation,
    kinds: &[Kind],
    args: &[Arg],
) -> Option<AsmRule>
    ensures { result ≡ rule_of_instruction (scope_of scope.now) operation kinds.now (map operand_of args.now) }
{
    match broken_by_all(scope, kinds, args) {
        Some(broken) if !moves_memory(operation, args) => broken.rule(),
        _ => Some(AsmRule::V5),
    }
}

// Whether an operand is neither a string nor a value, so that it is no item of DB.
fn is_no_byte_item(arg: &Arg) -> bool
    ensures { result ≡ is_no_byte_item (operand_of arg.now) }
{
    match arg {
        Arg::Text(_) => false,
        Arg::Value(_) => is_no_value(arg),
    }
}

// Which rules of values some item of DB breaks, as a byte.
fn broken_by_items(scope: &Scope<'_>, args: &[Arg]) -> Breaches
    ensures unknown { result.has_unknown ≡ list_any (operand_has_unknown (scope_of scope.now)) (map operand_of args.now) }
    ensures zero { result.divides_by_zero ≡ list_any (operand_divides_by_zero (scope_of scope.now)) (map operand_of args.now) }
    ensures unfit { result.is_unfit ≡ list_any (item_is_unfit (scope_of scope.now)) (map operand_of args.now) }
{
    let Some((arg, args)) = args.split_first() else {
        return NO_BREACHES;
    };
    broken_by(scope, Kind::Byte, arg).or(broken_by_items(scope, args))
}

// Whether some operand is no item of DB.
fn some_no_byte_item(args: &[Arg]) -> bool
    ensures { result ≡ list_any is_no_byte_item (map operand_of args.now) }
{
    let Some((arg, args)) = args.split_first() else {
        return false;
    };
    is_no_byte_item(arg) || some_no_byte_item(args)
}

// Whether some operand is no item of DW.
fn some_no_value(args: &[Arg]) -> bool
    ensures { result ≡ list_any is_no_value (map operand_of args.now) }
{
    let Some((arg, args)) = args.split_first() else {
        return false;
    };
    is_no_value(arg) || some_no_value(args)
}

// The rule of the items of DB.
fn rule_of_bytes(scope: &Scope<'_>, args: &[Arg]) -> Option<AsmRule>
    ensures { result ≡ rule_of_bytes (scope_of scope.now) (map operand_of args.now) }
{
    if args.is_empty() || some_no_byte_item(args) {
        Some(AsmRule::V5)
    } else {
        broken_by_items(scope, args).rule()
    }
}

// The rule of the items of DW, which fit always.
fn rule_of_words(scope: &Scope<'_>, args: &[Arg]) -> Option<AsmRule>
    ensures { result ≡ rule_of_words (scope_of scope.now) (map operand_of args.now) }
{
    if args.is_empty() || some_no_value(args) {
        Some(AsmRule::V5)
    } else {
        let broken = Breaches {
            is_unfit: false,
            ..broken_by_items(scope, args)
        };
        broken.rule()
    }
}

/// The first rule of V5, V1, V4, V3 that the operands of an operation break.
pub fn rule_of_operands(scope: &Scope<'_>, operation: Operation, args: &[Arg]) -> Option<AsmRule>
    ensures { result ≡ rule_of_operands (scope_of scope.now) (map operand_of args.now) (Some operation) }
{
    match operation {
        Operation::Db => rule_of_bytes(scope, args),
        Operation::Dw => rule_of_words(scope, args),
        _ => match kinds_of(operation) {
            Some(kinds) => rule_of_instruction(scope, operation, kinds, args),
            None => None,
        },
    }
}
