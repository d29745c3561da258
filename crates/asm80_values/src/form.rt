// What a statement's operands make.
ghost use Rattle.std.specs.Prelude.{◌≡◌, Some, true, false, IfOk, OnErr, map};
ghost use Rattle.asm80_types.specs.Tree.{operand_of};
ghost use Rattle.asm80_values.specs.Forms.{IsForm, GivesForm};
ghost use Rattle.asm80_values.specs.Settings.{setting_of};
ghost use Rattle.asm80_source_def.specs.Items.{is_data_op, is_instruction_op};

use crate::data::{cells_of_bytes, cells_of_words};
use crate::fault::FormFault;
use crate::instruction::instruction;
use crate::kinds::kinds_of;
use crate::profile::{is_foreign, items_compute, strays_of};
use crate::rules::rule_of_operands;
use crate::setting::Setting;
use asm80_source_def::{Kind, Operation};
use asm80_types::Arg;
use cells::Cell;
use i80::Instr80;
use std::alloc::{AllocError, Global};

/// An instruction with its operands' breaches of the layout's rules.
#[derive(Clone, Copy)]
pub struct Instruction {
    /// None where it is not of the profile.
    pub instr: Option<Instr80>,
    /// It is not of the profile: rule S1.
    pub is_foreign: bool,
    /// Its target is no instruction, nor 0 nor 5: rule S2.
    pub misses: bool,
    /// It computes with an address of code: rule S4.
    pub computes: bool,
    /// It loads or stores at an address of code: rule S5.
    pub loads_code: bool,
}

/// Data, with its breach of the layout's rules.
#[derive(Drop)]
pub struct Data {
    pub cells: Vec<Cell>,
    /// An item computes with an address of code: rule S4.
    pub computes: bool,
}

/// What a statement fills its cells with.
#[derive(Drop)]
pub enum Form {
    Nothing,
    Instruction(Instruction),
    Data(Data),
}

// The instruction of an operation with its operands, and its breaches.
fn instruction_form(setting: &Setting<'_>, operation: Operation, args: &[Arg]) -> Form
    requires data { is_data_op (Some operation) ≡ false }
    requires instruction { is_instruction_op (Some operation) ≡ true }
    ensures { IsForm (setting_of setting.now) operation (map operand_of args.now) result }
{
    let found = strays_of(setting, operation, args);
    Form::Instruction(Instruction {
        instr: instruction(setting, operation, args),
        is_foreign: is_foreign(setting, operation, args),
        misses: found.misses,
        computes: found.computes,
        loads_code: found.loads_code,
    })
}

// The form of operands that break no rule of V.
fn unbroken_form(
    alloc: Global,
    setting: &Setting<'_>,
    operation: Operation,
    args: &[Arg],
) -> Result<Form, AllocError>
    ensures form { IfOk result (λ f. IsForm (setting_of setting.now) operation (map operand_of args.now) f) }
    ensures data { OnErr result (is_data_op (Some operation) ≡ true) }
{
    match operation {
        Operation::Db => Ok(Form::Data(Data {
            cells: cells_of_bytes(alloc, setting, args)?,
            computes: items_compute(setting, Kind::Byte, args),
        })),
        Operation::Dw => Ok(Form::Data(Data {
            cells: cells_of_words(alloc, setting, args)?,
            computes: items_compute(setting, Kind::Word, args),
        })),
        _ => match kinds_of(operation) {
            Some(_) => Ok(instruction_form(setting, operation, args)),
            None => Ok(Form::Nothing),
        },
    }
}

/// The form of an operation with its operands, or the first rule of V5, V1, V4, V3 that they break.
pub fn form_of(
    alloc: Global,
    setting: &Setting<'_>,
    operation: Operation,
    args: &[Arg],
) -> Result<Form, FormFault>
    ensures { GivesForm (setting_of setting.now) operation (map operand_of args.now) result }
{
    match rule_of_operands(&setting.scope, operation, args) {
        Some(rule) => Err(FormFault::Rule(rule)),
        None => Ok(unbroken_form(alloc, setting, operation, args)?),
    }
}
