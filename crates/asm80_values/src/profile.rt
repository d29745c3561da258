// The rules of the layout and of this project's profile that operands break: S1, S2, S4 and S5.
ghost use Rattle.std.specs.Prelude.{◌≡◌, false, Some, map, zip};
ghost use Rattle.std.specs.List.{list_any};
ghost use Rattle.asm80_types.specs.Tree.{operand_of};
ghost use Rattle.asm80_values.specs.Settings.{setting_of};
ghost use Rattle.asm80_source_def.specs.Items.{is_data_op};
ghost use Rattle.asm80_source_def.specs.Layout.{is_foreign_by, misses, misses_by, computes, computes_by, loads_code, loads_code_by, loads_sp, operands_by, same_kind};

use crate::kinds::{is_value_kind, kinds_of};
use crate::registers::pair_of;
use crate::setting::{Setting, code_address, value};
use asm80_first_walk::has_place_inside;
use asm80_source_def::{Kind, Operation};
use asm80_types::Arg;
use i80::Pair;

/// S1: whether an instruction is not of the profile: HLT, EI, DI, and RST of a number other than 0.
pub fn is_foreign(setting: &Setting<'_>, operation: Operation, args: &[Arg]) -> bool
    ensures { result ≡ is_foreign_by (setting_of setting.now) (map operand_of args.now) (Some operation) }
{
    match operation {
        Operation::Foreign => true,
        Operation::Rst => args.len() == 1 && value(setting, &args[0]) != 0,
        _ => false,
    }
}

// S2: whether a target is neither the start of an instruction nor 0 nor 5.
fn misses(setting: &Setting<'_>, kind: Kind, arg: &Arg) -> bool
    ensures { result ≡ misses_by (setting_of setting.now) kind (operand_of arg.now) }
{
    match kind {
        Kind::Target => {
            let at = value(setting, arg);
            !(setting.starts.contains(at) || at == 0 || at == 5)
        }
        _ => false,
    }
}

// S4: whether the address of an instruction stands in a larger expression, where a byte, a word or the address of a cell is
// needed.
fn computes(setting: &Setting<'_>, kind: Kind, arg: &Arg) -> bool
    ensures { result ≡ computes_by (setting_of setting.now) kind (operand_of arg.now) }
{
    match kind {
        Kind::Byte | Kind::Word | Kind::Address => {
            has_place_inside(&setting.scope, arg, setting.starts)
        }
        _ => false,
    }
}

// S5: whether the address of an instruction stands for a cell's.
fn loads_code(setting: &Setting<'_>, kind: Kind, arg: &Arg) -> bool
    ensures { result ≡ loads_code_by (setting_of setting.now) kind (operand_of arg.now) }
{
    match kind {
        Kind::Address => code_address(setting, arg).is_some(),
        _ => false,
    }
}

/// Which of these rules some operand breaks.
#[derive(Clone, Copy)]
pub struct Strays {
    pub misses: bool,
    pub computes: bool,
    pub loads_code: bool,
}

const NO_STRAYS: Strays = Strays {
    misses: false,
    computes: false,
    loads_code: false,
};

// Which rules operands of these kinds break.
#[cycle(strays)]
fn strays_among(setting: &Setting<'_>, kinds: &[Kind], args: &[Arg]) -> Strays
    ensures misses { result.misses ≡ list_any (misses (setting_of setting.now)) (zip kinds.now (map operand_of args.now)) }
    ensures computes { result.computes ≡ list_any (computes (setting_of setting.now)) (zip kinds.now (map operand_of args.now)) }
    ensures loads_code { result.loads_code ≡ list_any (loads_code (setting_of setting.now)) (zip kinds.now (map operand_of args.now)) }
{
    let (Some((kind, kinds)), Some((arg, args))) = (kinds.split_first(), args.split_first()) else {
        return NO_STRAYS;
    };
    let rest = strays_behind(setting, kinds, args);
    if !is_value_kind(*kind) {
        return rest;
    }
    Strays {
        misses: misses(setting, *kind, arg) || rest.misses,
        computes: computes(setting, *kind, arg) || rest.computes,
        loads_code: loads_code(setting, *kind, arg) || rest.loads_code,
    }
}

// The same of the operands behind one, of which most instructions have none.
#[cycle(strays)]
fn strays_behind(setting: &Setting<'_>, kinds: &[Kind], args: &[Arg]) -> Strays
    ensures misses { result.misses ≡ list_any (misses (setting_of setting.now)) (zip kinds.now (map operand_of args.now)) }
    ensures computes { result.computes ≡ list_any (computes (setting_of setting.now)) (zip kinds.now (map operand_of args.now)) }
    ensures loads_code { result.loads_code ≡ list_any (loads_code (setting_of setting.now)) (zip kinds.now (map operand_of args.now)) }
{
    if args.is_empty() {
        return NO_STRAYS;
    }
    strays_among(setting, kinds, args)
}

// Whether the first operand is SP.
fn loads_sp(args: &[Arg]) -> bool
    ensures { result ≡ loads_sp (map operand_of args.now) }
{
    match args {
        [arg, ..] => matches!(pair_of(arg), Some(Pair::Sp)),
        [] => false,
    }
}

// The kinds of the operands in which an address of code is none of a number: of LXI SP none.
fn kinds_that_matter(operation: Operation, args: &[Arg]) -> &'static [Kind]
    requires { is_data_op (Some operation) ≡ false }
    ensures { zip result.now (map operand_of args.now) ≡ operands_by (map operand_of args.now) (Some operation) }
{
    match operation {
        Operation::Lxi if loads_sp(args) => &[],
        _ => kinds_of(operation).unwrap_or(&[]),
    }
}

/// Which of the rules S2, S4 and S5 the operands of an instruction break.
pub fn strays_of(setting: &Setting<'_>, operation: Operation, args: &[Arg]) -> Strays
    requires { is_data_op (Some operation) ≡ false }
    ensures misses { result.misses ≡ list_any (misses (setting_of setting.now)) (operands_by (map operand_of args.now) (Some operation)) }
    ensures computes { result.computes ≡ list_any (computes (setting_of setting.now)) (operands_by (map operand_of args.now) (Some operation)) }
    ensures loads_code { result.loads_code ≡ list_any (loads_code (setting_of setting.now)) (operands_by (map operand_of args.now) (Some operation)) }
{
    strays_among(setting, kinds_that_matter(operation, args), args)
}

/// Whether some item of DB or DW computes with an address of code: rule S4.
pub fn items_compute(setting: &Setting<'_>, kind: Kind, args: &[Arg]) -> bool
    ensures { result ≡ list_any (computes (setting_of setting.now)) (same_kind kind (map operand_of args.now)) }
{
    let Some((arg, args)) = args.split_first() else {
        return false;
    };
    computes(setting, kind, arg) || items_compute(setting, kind, args)
}
