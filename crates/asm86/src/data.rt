// The data cells.
ghost use Rattle.std.specs.Prelude.{◌≡◌, ◌+◌, ◌/◌, ◌%◌, ◌^◌, ◌<◌, ◌≤◌, true, [], ◌∷◌, length, IfOk, IfErr, OnOk};
ghost use Rattle.std.specs.List.{fold};
ghost use Rattle.asm86_line_types.specs.declared.line.Label.{Label};
ghost use Rattle.asm86_line_types.specs.Order.{Reading, at_start, may_stand, reading_after, in_order};
ghost use Rattle.asm86_line_types.specs.Image.{statements, cells_from, by_address, put_cell};
ghost use Rattle.asm86.specs.Places.{label_place, word_of_value};

use crate::fault::ImageFault;
use crate::offsets::Offsets;
use asm86_line_types::{Line86, Stmt86, Value16};
use base::ByteCells;
use std::alloc::{AllocError, Global};

/// The data cells of the statements, ascending by their addresses.
pub fn data_cells(
    alloc: Global,
    offsets: &Offsets,
    lines: &[Line86],
) -> Result<Vec<(u16, u8)>, ImageFault>
    requires order { in_order at_start (statements lines.now) ≡ true }
    requires few { length lines.now < 2 ^ 28 }
    requires labels { (label : Label) → label_place offsets.now label < 0x10000 }
    ensures cells { IfOk result (λ cells. cells.items ≡ by_address (cells_from (label_place offsets.now) 0 (statements lines.now))) }
    ensures memory { IfErr result (λ fault. fault ≡ ImageFault.Memory) }
{
    let mut cells = ByteCells::new(alloc);
    let mut at = 0;
    for line in lines {
        at = put(&mut cells, offsets, at, line.stmt)?;
    }
    Ok(cells.into_vec(alloc)?)
}

// The cells of a statement, put to those before it, and the data address after it.
fn put(
    cells: &mut ByteCells,
    offsets: &Offsets,
    at: usize,
    stmt: Stmt86,
) -> Result<usize, ImageFault>
    requires stands { (reading : Reading) × (reading.at ≡ at) × (may_stand reading stmt ≡ true) }
    requires far { at < 2 ^ 60 }
    requires labels { (label : Label) → label_place offsets.now label < 0x10000 }
    ensures near { IfOk result (λ next. next ≤ at + 0x10000) }
    ensures next { IfOk result (λ next. next ≡ (reading_after (record at_start { at = at }) stmt).at) }
    ensures cells { OnOk result (cells.new ≡ fold put_cell cells.old (cells_from (label_place offsets.now) at (stmt ∷ []))) }
    ensures memory { IfErr result (λ fault. fault ≡ ImageFault.Memory) }
{
    match stmt {
        Stmt86::Dseg => Ok(0),
        Stmt86::Org(address) => Ok(usize::from(address)),
        Stmt86::Rb(count) => Ok(at + usize::from(count)),
        Stmt86::Db(byte) => {
            cells.put(at as u16, byte)?;
            Ok(at + 1)
        }
        Stmt86::Dw(value) => {
            put_word(cells, at, word_of(offsets, value))?;
            Ok(at + 2)
        }
        _ => Ok(at),
    }
}

// The two cells of a word, the low byte first.
fn put_word(cells: &mut ByteCells, at: usize, word: usize) -> Result<(), AllocError>
    requires within { at + 1 < 0x10000 }
    requires small { word < 0x10000 }
    ensures { OnOk result (cells.new ≡ put_cell (put_cell cells.old (at, word % 256)) (at + 1, word / 256)) }
{
    cells.put(at as u16, (word % 256) as u8)?;
    cells.put((at + 1) as u16, (word / 256) as u8)?;
    Ok(())
}

// The word that a DW holds.
fn word_of(offsets: &Offsets, value: Value16) -> usize
    requires labels { (label : Label) → label_place offsets.now label < 0x10000 }
    ensures word { result ≡ word_of_value offsets.now value }
    ensures small { result < 0x10000 }
{
    match value {
        Value16::Num(word) => usize::from(word),
        Value16::Offset(label) => offsets.place(label),
    }
}
