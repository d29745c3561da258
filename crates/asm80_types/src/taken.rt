// The places that are taken.
ghost use Rattle.std.specs.Prelude.{◌≡◌, ◌||◌, ℕ, filter, filter_map, option_to_list, IfOk};
ghost use Rattle.base.specs.Addresses.{has_address, is_among};
ghost use Rattle.asm80_types.specs.Taken.{place_placed, place_in_cell, is_taken_place};

use crate::program::Placed;
use base::AddressSet;
use cells::{Cell, Place};
use i80::{Goal, Instr80, Word};
use std::alloc::{AllocError, Global};

// The place that an instruction takes: that behind a call of an instruction, or the code address that it loads.
fn place_placed(placed: &Placed) -> Option<u16>
    ensures { result ≡ place_placed placed.now }
{
    match placed.instr {
        Instr80::Call(Goal::At(_)) | Instr80::Cif(_, Goal::At(_)) => Some(
            placed.at.wrapping_add(3),
        ),
        Instr80::Lxi(_, Word::Code(at)) => Some(at),
        _ => None,
    }
}

// The code address whose low half a data cell holds.
fn place_in_cell(cell: &(u16, Cell)) -> Option<u16>
    ensures { result ≡ place_in_cell cell.now }
{
    match cell.1 {
        Cell::Lo(Place::At(at)) => Some(at),
        _ => None,
    }
}

// Adds an address.
fn mark(set: &mut AddressSet, place: Option<u16>)
    ensures { (a : ℕ) → has_address set.new a ≡ (has_address set.old a || is_among (option_to_list place) a) }
{
    if let Some(at) = place {
        set.insert(at);
    }
}

// Adds the places that instructions take.
fn mark_placed(set: &mut AddressSet, instrs: &[Placed])
    ensures { (a : ℕ) → has_address set.new a ≡ (has_address set.old a || is_among (filter_map place_placed instrs.now) a) }
{
    for placed in instrs {
        mark(set, place_placed(placed));
    }
}

// Adds the places whose code addresses are in data cells.
fn mark_in_cells(set: &mut AddressSet, cells: &[(u16, Cell)])
    ensures { (a : ℕ) → has_address set.new a ≡ (has_address set.old a || is_among (filter_map place_in_cell cells.now) a) }
{
    for cell in cells {
        mark(set, place_in_cell(cell));
    }
}

// Those of some addresses that are in a set.
fn marked(alloc: Global, set: &AddressSet, addresses: &[u16]) -> Result<Vec<u16>, AllocError>
    ensures { IfOk result (λ v. v.items ≡ filter (has_address set.now) addresses.now) }
{
    let mut marked = Vec::new(alloc);
    for address in addresses {
        if set.contains(*address) {
            marked.push(*address)?;
        }
    }
    Ok(marked)
}

/// The places of some starts that are taken, in their order.
pub fn taken_of(
    alloc: Global,
    instrs: &[Placed],
    cells: &[(u16, Cell)],
    starts: &[u16],
) -> Result<Vec<u16>, AllocError>
    ensures { IfOk result (λ v. v.items ≡ filter (is_taken_place instrs.now cells.now) starts.now) }
{
    let mut set = AddressSet::new(alloc)?;
    mark_placed(&mut set, instrs);
    mark_in_cells(&mut set, cells);
    marked(alloc, &set, starts)
}
