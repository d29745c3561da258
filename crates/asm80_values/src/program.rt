// The program of items.
ghost use Rattle.std.specs.Prelude.{◌≡◌, ◌++◌, IfOk, OnOk};
ghost use Rattle.std.specs.List.{filter_map, flat_map};
ghost use Rattle.std.specs.List.Sorted.{IsPermutation};
ghost use Rattle.asm80_types.specs.Program.{IsProgram};
ghost use Rattle.asm80_source_def.specs.Items.{laid_from};
ghost use Rattle.asm80_values.specs.Programs.{AreLawful, placed_item, data_item};

use crate::Form;
use crate::item::{Item, address_of_cell};
use asm80_types::{Placed, Program80};
use cells::Cell;
use std::alloc::{AllocError, Global};

// The instruction of an item, at its address.
fn placed_item(item: &Item) -> Option<Placed>
    ensures { result ≡ placed_item item.now }
{
    match &item.form {
        Form::Instruction(instruction) => match instruction.instr {
            Some(instr) => Some(Placed {
                at: item.at,
                line: item.line,
                instr,
            }),
            None => None,
        },
        _ => None,
    }
}

// The instructions of items.
fn placed_items(alloc: Global, items: &[Item]) -> Result<Vec<Placed>, AllocError>
    ensures { IfOk result (λ v. v.items ≡ filter_map placed_item items.now) }
{
    let mut placed = Vec::new(alloc);
    for item in items {
        if let Some(found) = placed_item(item) {
            placed.push(found)?;
        }
    }
    Ok(placed)
}

// Adds data cells from an address up.
fn push_cells(laid: &mut Vec<(u16, Cell)>, at: u16, cells: &[Cell]) -> Result<(), AllocError>
    ensures { OnOk result (laid.new.items ≡ laid.old.items ++ laid_from at cells.now) }
{
    for (k, cell) in cells.iter().enumerate() {
        laid.push((address_of_cell(at, k), *cell))?;
    }
    Ok(())
}

// The data cells of items.
fn data_items(alloc: Global, items: &[Item]) -> Result<Vec<(u16, Cell)>, AllocError>
    ensures { IfOk result (λ v. v.items ≡ flat_map data_item items.now) }
{
    let mut cells = Vec::new(alloc);
    for item in items {
        if let Form::Data(data) = &item.form {
            push_cells(&mut cells, item.at, &data.cells)?;
        }
    }
    Ok(cells)
}

/// The program of items that break no rule of the layout, for a top of the program area.
pub fn program_of_items(alloc: Global, items: Vec<Item>, top: u16) -> Result<Program80, AllocError>
    requires { AreLawful top items.items }
    ensures program { IfOk result (λ p. IsProgram p) }
    ensures top { IfOk result (λ p. p.top ≡ top) }
    ensures instrs { IfOk result (λ p. IsPermutation (filter_map placed_item items.items) p.instrs) }
    ensures cells { IfOk result (λ p. IsPermutation (flat_map data_item items.items) p.cells) }
{
    let mut items = items;
    items.sort_by_key(|item| item.at)?;
    let placed = placed_items(alloc, &items)?;
    let cells = data_items(alloc, &items)?;
    Program80::new(alloc, placed, cells, top)
}
