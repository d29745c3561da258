// The operands of statements at 106H, as text, where instructions start at 100H, 103H and 106H.
use crate::codes::{push_cell, push_code};
use crate::columns::push_columns;
use crate::source::statements_of;
use asm80_first_walk::{
    Names, Scope, has_place_inside, is_no_value, meaning_of, operand_divides_by_zero,
    operand_has_unknown, operand_number, operand_place, operation_of, walk,
};
use asm80_source_def::{Meaning, NameKind};
use asm80_types::{Arg, ReadFault, Stmt80};
use asm80_values::{Form, FormFault, Setting, form_of};
use base::AddressSet;
use cells::Cell;
use std::alloc::{AllocError, Global};

/// The source that defines the names.
const NAMES: &[u8] =
    b"ORG 100H\nSTART: JMP 0\nL1: JMP 0\nE1 EQU L1\nC1 EQU 103H\nLEN EQU 5\nCOUNT SET 7\nORG 200H\nD1:";

/// A label that has no address, as behind `ORG 1/0`.
const HIDDEN: Meaning = Meaning {
    value: None,
    is_place: true,
};

/// What is asked of operands: their values, what they make, or the columns of the instruction that they make.
#[derive(Clone, Copy)]
pub enum Asked {
    Values,
    Form,
    Columns,
}

#[derive(Drop)]
struct Fixture {
    names: Names,
    starts: AddressSet,
}

impl Fixture {
    // A statement at 106H.
    fn setting(&self) -> Setting<'_> {
        Setting {
            scope: Scope {
                here: 0x106,
                names: &self.names,
            },
            starts: &self.starts,
        }
    }
}

// The names of a source that is not refused.
fn names_of(alloc: Global, source: &[u8]) -> Result<Names, ReadFault> {
    match walk(alloc, &statements_of(alloc, source)?) {
        Ok(walked) => Ok(walked.names),
        Err(_) => Ok(Names::new(alloc)),
    }
}

fn make_fixture(alloc: Global) -> Result<Fixture, ReadFault> {
    let mut names = names_of(alloc, NAMES)?;
    for statement in &statements_of(alloc, b"BAD:")? {
        if let Some(label) = statement.label {
            names.define(label, NameKind::Label, HIDDEN)?;
        }
    }
    let mut starts = AddressSet::new(alloc)?;
    starts.insert(0x100);
    starts.insert(0x103);
    starts.insert(0x106);
    Ok(Fixture { names, starts })
}

fn push_if(text: &mut String, holds: bool, word: &str) -> Result<(), AllocError> {
    if holds {
        text.push(' ')?;
        text.push_str(word)?;
    }
    Ok(())
}

fn is_place(scope: &Scope<'_>, arg: &Arg) -> bool {
    match arg {
        Arg::Text(_) => false,
        Arg::Value(e) => meaning_of(scope, e).is_place,
    }
}

// The value of an operand, and what else is true of it.
fn push_value(text: &mut String, setting: &Setting<'_>, arg: &Arg) -> Result<(), AllocError> {
    let scope = &setting.scope;
    match operand_number(scope, arg) {
        Some(n) => write!(text, "{n:04x}")?,
        None => text.push_str("none")?,
    }
    push_if(text, is_no_value(arg), "no-value")?;
    push_if(text, operand_has_unknown(scope, arg), "unknown")?;
    push_if(text, operand_divides_by_zero(scope, arg), "by-0")?;
    push_if(text, is_place(scope, arg), "place")?;
    push_if(text, has_place_inside(scope, arg, setting.starts), "inside")?;
    if let Some(at) = operand_place(scope, arg) {
        write!(text, " at {at:04x}")?;
    }
    Ok(())
}

// The cells of data.
fn push_cells(text: &mut String, cells: &[Cell]) -> Result<(), AllocError> {
    let mut before = "";
    for cell in cells {
        text.push_str(before)?;
        push_cell(text, *cell)?;
        before = " ";
    }
    Ok(())
}

// What operands make, and the rules of the layout that they break.
fn push_form(text: &mut String, form: &Form) -> Result<(), AllocError> {
    match form {
        Form::Nothing => text.push_str("nothing"),
        Form::Instruction(found) => {
            match found.instr {
                Some(instr) => push_code(text, instr)?,
                None => text.push_str("none")?,
            }
            push_if(text, found.is_foreign, "S1")?;
            push_if(text, found.misses, "S2")?;
            push_if(text, found.computes, "S4")?;
            push_if(text, found.loads_code, "S5")
        }
        Form::Data(data) => {
            push_cells(text, &data.cells)?;
            push_if(text, data.computes, "S4")
        }
    }
}

// The columns of the instruction that operands make.
fn push_columns_of(text: &mut String, form: &Form) -> Result<(), AllocError> {
    match form {
        Form::Instruction(found) => match found.instr {
            Some(instr) => push_columns(text, instr),
            None => text.push_str("none"),
        },
        Form::Nothing | Form::Data(_) => text.push_str("no instruction"),
    }
}

// What the operands of a statement make, or its columns, or their refusal.
fn push_made(
    alloc: Global,
    text: &mut String,
    setting: &Setting<'_>,
    statement: &Stmt80,
    asked: Asked,
) -> Result<(), AllocError> {
    let Some(operation) = statement.op.and_then(|name| operation_of(name.as_slice())) else {
        return text.push_str("no operation");
    };
    match form_of(alloc, setting, operation, statement.args.as_slice()) {
        Ok(form) => match asked {
            Asked::Columns => push_columns_of(text, &form),
            Asked::Values | Asked::Form => push_form(text, &form),
        },
        Err(FormFault::Rule(rule)) => write!(text, "{rule:?}"),
        Err(FormFault::Memory) => text.push_str("out of memory"),
    }
}

// The values of operands.
fn push_values(text: &mut String, setting: &Setting<'_>, args: &[Arg]) -> Result<(), AllocError> {
    let mut before = "";
    for arg in args {
        text.push_str(before)?;
        push_value(text, setting, arg)?;
        before = "; ";
    }
    Ok(())
}

fn push_statements(
    alloc: Global,
    text: &mut String,
    setting: &Setting<'_>,
    statements: &[Stmt80],
    asked: Asked,
) -> Result<(), AllocError> {
    let mut before = "";
    for statement in statements {
        text.push_str(before)?;
        match asked {
            Asked::Values => push_values(text, setting, statement.args.as_slice())?,
            Asked::Form | Asked::Columns => push_made(alloc, text, setting, statement, asked)?,
        }
        before = "; ";
    }
    Ok(())
}

/// What is asked of the operands of each statement of a source.
pub fn operands_text(alloc: Global, source: &[u8], asked: Asked) -> Result<String, ReadFault> {
    let statements = statements_of(alloc, source)?;
    let fixture = make_fixture(alloc)?;
    let mut text = String::new(alloc);
    push_statements(alloc, &mut text, &fixture.setting(), &statements, asked)?;
    Ok(text)
}
