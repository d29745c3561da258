// The data of a program and of an image.
ghost use Rattle.std.specs.Prelude.{◌≡◌, ◌↔◌, IsTrue, Bool, Some};
ghost use Rattle.std.specs.List.Sorted.{IsStrictlyIncreasing};
ghost use Rattle.std.specs.Map.{keys_of};
ghost use Rattle.asm86_line_types.specs.Image.{offset_in};
ghost use Rattle.cells.specs.Conditions.{Knows, KnowsBits};
ghost use Rattle.sym_block_def.specs.Stands.{label_of, Stands};
ghost use Rattle.simulation_def.specs.Linked.{places};
ghost use Rattle.simulation_def.specs.Matches.{byte_at};
ghost use Rattle.text_check.specs.Parts.{CellStands, DataStandIn};

use asm80_types::Program80;
use asm86::Image86;
use asm86_line_types::Label;
use cells::{Cell, Flags, Place};

/// Whether each data cell of a program stands for the image's cell at its address.
pub fn data_stand(program: &Program80, image: &Image86) -> bool
    requires { IsStrictlyIncreasing (keys_of image.now.cells) }
    ensures { IsTrue result ↔ DataStandIn program.now image.now }
{
    let cells = program.cells();
    for &(at, cell) in cells {
        if !cell_stands(image, at, cell) {
            return false;
        }
    }
    true
}

/// Whether a cell stands for the image's cell at an address.
pub fn cell_stands(image: &Image86, at: u16, cell: Cell) -> bool
    requires { IsStrictlyIncreasing (keys_of image.now.cells) }
    ensures { IsTrue result ↔ CellStands image.now at cell }
{
    match byte_at(image, at) {
        Some(byte) => stands(image, cell, byte),
        None => false,
    }
}

/// The byte of the image's cell at an address, found by halves.
pub fn byte_at(image: &Image86, at: u16) -> Option<u8>
    requires { IsStrictlyIncreasing (keys_of image.now.cells) }
    ensures { result ≡ byte_at image.now.cells at }
{
    let cells = image.cells();
    match cells.binary_search_by_key(&at, |&(address, _)| address) {
        Ok(place) => Some(cells[place].1),
        Err(_) => None,
    }
}

// Whether a cell stands for a byte.
fn stands(image: &Image86, cell: Cell, byte: u8) -> bool
    ensures { IsTrue result ↔ Stands (places (offset_in image.now.labels)) cell byte }
{
    match cell {
        Cell::Num(number) => byte == number,
        Cell::Lo(place) => match image.offset(label_of(place)) {
            Some(offset) => byte == (offset % 256) as u8,
            None => false,
        },
        Cell::Hi(place) => match image.offset(label_of(place)) {
            Some(offset) => byte == (offset / 256) as u8,
            None => false,
        },
        Cell::Psw(flags) => knows_bits(flags, byte),
        Cell::Junk => true,
    }
}

// The label of a place.
fn label_of(place: Place) -> Label
    ensures { result ≡ label_of place }
{
    match place {
        Place::At(at) => Label::At(at),
        Place::Exit => Label::End,
    }
}

// Whether a byte has the flags that are known.
fn knows_bits(flags: Flags, byte: u8) -> bool
    ensures { IsTrue result ↔ KnowsBits flags byte }
{
    let held = Flags::of_byte(byte);
    knows(flags.s, held.s)
        && knows(flags.z, held.z)
        && knows(flags.ac, held.ac)
        && knows(flags.p, held.p)
        && knows(flags.cy, held.cy)
}

// Whether a flag that is known has this value.
fn knows(known: Option<bool>, held: Option<bool>) -> bool
    ensures { (b : Bool) → held ≡ Some b → IsTrue result ↔ Knows known b }
{
    match (known, held) {
        (Some(value), Some(bit)) => value == bit,
        _ => known.is_none(),
    }
}
