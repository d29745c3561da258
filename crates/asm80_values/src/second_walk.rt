// The second walk: the operands of instructions, DB and DW.
ghost use Rattle.std.specs.Prelude.{◌≡◌, ◌||◌, ℕ, List, not, filter, option_to_list, map, Some, None, OnOk, IfOk, MatchResult};
ghost use Rattle.base.specs.Addresses.{has_address, is_among, IsSetOf};
ghost use Rattle.asm80_types.specs.declared.stmt.Stmt80.{Stmt80};
ghost use Rattle.asm80_types.specs.Tree.{Statement, operand_of, statement_of};
ghost use Rattle.asm80_values.specs.Forms.{IsForm};
ghost use Rattle.asm80_first_walk.specs.Walked.{IsRowOf as StandsForRow, Stand, IsWalked};
ghost use Rattle.asm80_source_def.specs.Names.{Name, is_settable};
ghost use Rattle.asm80_source_def.specs.Walk.{WalkRow, row_operation, size_by, rows, walked};
ghost use Rattle.asm80_source_def.specs.FirstFaults.{first_fault};
ghost use Rattle.asm80_source_def.specs.Items.{Setting as Seen, address, starts_in};
ghost use Rattle.asm80_values.specs.Second.{taken_rows, start_of_row, seen_in, names_set, IsItemOf, GivesItem, AddsItem, AreItemsOf, AreRefused};

use crate::item::Item;
use crate::{Form, FormFault, Setting, form_of, kinds_of};
use asm80_first_walk::{AsmFault, Names, Scope, Taken, Walked, size_of};
use asm80_source_def::{NameKind, Operation};
use asm80_types::{Arg, Stmt80};
use base::AddressSet;
use std::alloc::{AllocError, Global};

// Adds the address of an instruction.
fn mark_start(starts: &mut AddressSet, row: &Taken)
    ensures { (a : ℕ) → has_address starts.new a ≡ (is_among (option_to_list (start_of_row row.now)) a || has_address starts.old a) }
{
    match row.operation {
        Some(operation) if kinds_of(operation).is_some() => starts.insert(row.at),
        _ => {}
    }
}

/// The addresses at which instructions start.
pub fn starts_of(alloc: Global, taken: &[Taken]) -> Result<AddressSet, AllocError>
    ensures { (statements : List Stmt80) → Stand statements taken.now (taken_rows statements) → IfOk result (λ set. IsSetOf set (starts_in (rows (map statement_of statements)))) }
{
    let mut starts = AddressSet::new(alloc)?;
    for row in taken {
        mark_start(&mut starts, row);
    }
    Ok(starts)
}

// The cells that a form fills.
fn size_of_form(operation: Operation, args: &[Arg], form: &Form) -> usize
    ensures { (t : Seen) (s : Statement) → s.args ≡ map operand_of args.now → IsForm t operation s.args form.now → result ≡ size_by s (Some operation) }
{
    match form {
        Form::Data(data) => data.cells.as_slice().len(),
        _ => usize::from(size_of(Some(operation), args)),
    }
}

// The item of a form; none where it fills no cells.
fn item_with(line: u32, at: u16, operation: Operation, args: &[Arg], form: Form) -> Option<Item>
    ensures { (t : Seen) (r : WalkRow) → line ≡ r.statement.line → at ≡ address r → r.statement.args ≡ map operand_of args.now → row_operation r ≡ Some operation → IsForm t operation r.statement.args form → IsItemOf t r result }
{
    match form {
        Form::Nothing => None,
        _ => Some(Item {
            line,
            at,
            size: size_of_form(operation, args, &form),
            form,
        }),
    }
}

// The item of a row that is taken, or the first rule that its operands break.
fn item_of(
    alloc: Global,
    statement: &Stmt80,
    row: &Taken,
    names: &Names,
    starts: &AddressSet,
) -> Result<Option<Item>, AsmFault>
    ensures { (statements : List Stmt80) (r : WalkRow) → StandsForRow statements row.now r → statement_of statement.now ≡ r.statement → GivesItem (seen_in names.now starts.now r) r result }
{
    let Some(operation) = row.operation else {
        return Ok(None);
    };
    let scope = Scope {
        here: row.at,
        names,
    };
    let setting = Setting { scope, starts };
    let args = statement.args.as_slice();
    match form_of(alloc, &setting, operation, args) {
        Ok(form) => Ok(item_with(statement.line, row.at, operation, args, form)),
        Err(FormFault::Rule(rule)) => Err(AsmFault::Refused(statement.line, rule)),
        Err(FormFault::Memory) => Err(AsmFault::Memory),
    }
}

// Sets the name of a SET again.
fn set_again(names: &mut Names, statement: &Stmt80, row: &Taken) -> Result<(), AllocError>
    ensures { (statements : List Stmt80) (r : WalkRow) → StandsForRow statements row.now r → statement_of statement.now ≡ r.statement → OnOk result (names.new ≡ names_set r names.old) }
{
    match (row.operation, statement.label) {
        (Some(Operation::Set), Some(label)) => {
            names.define(label, NameKind::Settable, row.meaning)
        }
        _ => Ok(()),
    }
}

// Adds the item of a row that is taken, if it has one, and sets the name of a SET again.
fn add_item(
    alloc: Global,
    statement: &Stmt80,
    row: &Taken,
    names: &mut Names,
    starts: &AddressSet,
    items: &mut Vec<Item>,
) -> Result<(), AsmFault>
    ensures { AddsItem (λ r. (statements : List Stmt80) × StandsForRow statements row.now r × (statement_of statement.now ≡ r.statement)) names.old starts.now items.old.items names.new items.new.items result }
{
    if let Some(item) = item_of(alloc, statement, row, names, starts)? {
        items.push(item)?;
    }
    set_again(names, statement, row)?;
    Ok(())
}

/// The items of the rows that are taken, or the first fault of their operands.
pub fn items_of(
    alloc: Global,
    statements: &[Stmt80],
    walked: Walked,
    starts: &AddressSet,
) -> Result<Vec<Item>, AsmFault>
    requires walked { IsWalked statements.now walked }
    requires starts { IsSetOf starts.now (starts_in (rows (map statement_of statements.now))) }
    ensures { MatchResult result (λ v. AreItemsOf statements.now v.items) (λ fault. AreRefused statements.now fault) }
{
    let Walked { rows, names } = walked;
    let mut names = names.without_settable();
    items_of_taken(alloc, statements, &rows, &mut names, starts)
}

// The items of the rows that are taken, by the names that are not of SET, to which those of SET come.
fn items_of_taken(
    alloc: Global,
    statements: &[Stmt80],
    taken: &[Taken],
    names: &mut Names,
    starts: &AddressSet,
) -> Result<Vec<Item>, AsmFault>
    requires taken { Stand statements.now taken.now (taken_rows statements.now) }
    requires accepted { first_fault (rows (map statement_of statements.now)) (walked (map statement_of statements.now)) ≡ None }
    requires names { names.old ≡ filter (λ (n : Name). not (is_settable n.kind)) (walked (map statement_of statements.now)).names }
    requires starts { IsSetOf starts.now (starts_in (rows (map statement_of statements.now))) }
    ensures { MatchResult result (λ v. AreItemsOf statements.now v.items) (λ fault. AreRefused statements.now fault) }
{
    let mut items = Vec::new(alloc);
    for row in taken {
        let statement = &statements[row.statement];
        add_item(alloc, statement, row, names, starts, &mut items)?;
    }
    Ok(items)
}
